//! Which positions may start: those of which every predecessor has ended.

ghost use Rattle.std.specs.Prelude.{◌≡◌, ◌==◌, ◌+◌, ◌<◌, ◌≤◌, ◌^◌, ◌↔◌, ℕ, Err, OnOk, OnErr, IfOk, length, replicate, filter, slice_index, slice_index_or, slice_set, true, false};
ghost use Rattle.std.specs.List.{Contains};
ghost use Rattle.std.specs.List.Sorted.{IsStrictlyIncreasing};
ghost use Rattle.spec_block.specs.Schedule.{IsEdge};
ghost use Rattle.schedule.specs.Graph.{list_at};
ghost use Rattle.schedule.specs.Board.{count_in, count_of, has_ended, pending, zeros, IsFree, IsWaiting};

use crate::Graph;
use crate::copies::profiles_of;
use crate::gates::{Gates, all_behind};
use crate::numbers::{Numbers, rising};
use lock_profile::Profile;
use std::alloc::{Allocator, Global};
use std::marker::Model;
use thiserror::Error;
use wtypes::NoMemory;

/// Why a position cannot be ended. The board is unchanged.
#[derive(Clone, Copy, Debug, PartialEq, Eq, Error)]
pub enum EndRefusal {
    /// The order has no such position.
    #[error("the order has no such position")]
    NoSuchPosition,
    /// A predecessor has not ended.
    #[error("a position that it waits for has not ended")]
    NotReady,
    /// It has ended before.
    #[error("the position has ended before")]
    Ended,
    /// There was no memory.
    #[error("memory was refused")]
    NoMemory,
}

/// Which positions of an order have ended. Contracts see the lock profile of each position, and whether it has ended. Over all
/// positions `end` takes as many steps as the profiles have entries, times a logarithm.
#[derive(Drop)]
pub struct Board<A: Allocator = Global> {
    alloc: A,
    profiles: Vec<Profile<A>, A>,
    gates: Gates<A>,
    left: Vec<u32, A>,
    shut: Vec<u32, A>,
    ended: Vec<bool, A>,
    ready: Vec<u32, A>,
}

impl<A: Allocator> Model for Board<A> {
    ghost use Rattle.schedule.specs.Board.{Progress, IsBoard};

    ghost Value = { Progress };

    ghost view = { λ b. record { profiles = b.profiles.items; ended = b.ended.items } };

    ghost invariant = { λ b. IsBoard b.profiles.items b.gates.holds.items b.gates.behind.items b.left.items b.shut.items b.ended.items b.ready.items };
}

/// Adds one to the count of each of these.
fn raise<A: Allocator>(counts: &mut Vec<u32, A>, numbers: &[u32])
    requires within { (n : ℕ) → Contains numbers.now n → n < length counts.old.items }
    requires room { (n : ℕ) → n < length counts.old.items → slice_index counts.old.items n + count_of n numbers.now < 2 ^ 32 }
    ensures same { length counts.new.items ≡ length counts.old.items }
    ensures raised { (n : ℕ) → n < length counts.old.items → slice_index counts.new.items n ≡ slice_index counts.old.items n + count_of n numbers.now }
{
    for number in numbers {
        counts[*number as usize] += 1;
    }
}

/// Takes one from the count of each of these.
fn lower<A: Allocator>(counts: &mut Vec<u32, A>, numbers: &[u32])
    requires within { (n : ℕ) → Contains numbers.now n → n < length counts.old.items }
    requires enough { (n : ℕ) → n < length counts.old.items → count_of n numbers.now ≤ slice_index counts.old.items n }
    ensures same { length counts.new.items ≡ length counts.old.items }
    ensures lowered { (n : ℕ) → n < length counts.old.items → slice_index counts.new.items n + count_of n numbers.now ≡ slice_index counts.old.items n }
{
    for number in numbers {
        counts[*number as usize] -= 1;
    }
}

/// How many hold each gate shut.
fn holders_of<A: Allocator + Copy>(
    alloc: A,
    holds: &[Numbers<A>],
    gates: usize,
) -> Result<Vec<u32, A>, NoMemory>
    requires few { length holds.now < 2 ^ 32 }
    requires rising { (i : ℕ) → IsStrictlyIncreasing (list_at holds.now i) }
    requires within { (i gate : ℕ) → Contains (list_at holds.now i) gate → gate < gates }
    ensures each { IfOk result (λ left. length left.items ≡ gates) }
    ensures counts { IfOk result (λ left. (gate : ℕ) → gate < gates → slice_index left.items gate ≡ count_in holds.now gate) }
{
    let mut left = vec![in alloc; 0; gates]?;
    for numbers in holds {
        raise(&mut left, numbers.as_slice());
    }
    Ok(left)
}

/// How many shut gates are before each position.
fn shut_of<A: Allocator + Copy>(
    alloc: A,
    behind: &[Numbers<A>],
    left: &[u32],
    positions: usize,
) -> Result<Vec<u32, A>, NoMemory>
    requires few { length behind.now < 2 ^ 32 }
    requires each { length left.now ≡ length behind.now }
    requires rising { (gate : ℕ) → IsStrictlyIncreasing (list_at behind.now gate) }
    requires within { (gate j : ℕ) → Contains (list_at behind.now gate) j → j < positions }
    ensures each { IfOk result (λ shut. length shut.items ≡ positions) }
    ensures counts { IfOk result (λ shut. (j : ℕ) → j < positions → slice_index shut.items j ≡ pending behind.now (zeros left.now) j) }
{
    let mut shut = vec![in alloc; 0; positions]?;
    for (gate, numbers) in behind.iter().enumerate() {
        if left[gate] != 0 {
            raise(&mut shut, numbers.as_slice());
        }
    }
    Ok(shut)
}

/// The numbers with the count 0.
fn zeros_of<A: Allocator + Copy>(alloc: A, counts: &[u32]) -> Result<Vec<u32, A>, NoMemory>
    requires { length counts.now < 2 ^ 16 }
    ensures rises { IfOk result (λ list. IsStrictlyIncreasing list.items) }
    ensures exact { IfOk result (λ list. (n : ℕ) → Contains list.items n ↔ ((n < length counts.now) × (slice_index counts.now n ≡ 0))) }
{
    let mut list = Vec::new(alloc);
    for (number, count) in counts.iter().enumerate() {
        if *count == 0 {
            list.push(number as u32)?;
        }
    }
    Ok(list)
}

/// Those of these gates that one position alone holds shut.
fn last_held<A: Allocator + Copy>(
    alloc: A,
    left: &[u32],
    gates: &[u32],
) -> Result<Vec<u32, A>, NoMemory>
    requires { (gate : ℕ) → Contains gates.now gate → gate < length left.now }
    ensures { IfOk result (λ opening. opening.items ≡ filter (λ gate. slice_index left.now gate == 1) gates.now) }
{
    let mut opening = Vec::new(alloc);
    for gate in gates {
        if left[*gate as usize] == 1 {
            opening.push(*gate)?;
        }
    }
    Ok(opening)
}

/// Whether no gate before a position is shut.
fn is_free(shut: &[u32], position: u32) -> bool
    ensures { result ≡ (slice_index_or shut.now position 1 == 0) }
{
    match shut.get(position as usize) {
        Some(count) => *count == 0,
        None => false,
    }
}

/// Those of these positions before which no gate is shut, each once and strictly rising.
fn freed<A: Allocator>(mut list: Vec<u32, A>, shut: &[u32]) -> Vec<u32, A>
    ensures rises { IsStrictlyIncreasing result.items }
    ensures exact { (j : ℕ) → Contains result.items j ↔ (Contains list.items j × (slice_index_or shut.now j 1 ≡ 0)) }
{
    list.retain(|j| is_free(shut, *j));
    rising(list)
}

impl<A: Allocator + Copy> Board<A> {
    /// The board of a graph, of which no position has ended. It keeps a copy of the graph's lists.
    ///
    /// # Errors
    ///
    /// The allocator refused memory.
    pub fn open(alloc: A, graph: &Graph<A>) -> Result<Self, NoMemory>
        ensures profiles { IfOk result (λ board. board.profiles ≡ graph.now.profiles) }
        ensures ended { IfOk result (λ board. board.ended ≡ replicate (length graph.now.profiles) false) }
    {
        let profiles = profiles_of(alloc, &graph.profiles)?;
        let gates = graph.gates.copy(alloc)?;
        let left = holders_of(alloc, &graph.gates.holds, graph.gates.behind.len())?;
        let shut = shut_of(alloc, &graph.gates.behind, &left, profiles.len())?;
        let ready = zeros_of(alloc, &shut)?;
        let ended = vec![in alloc; false; profiles.len()]?;
        Ok(Board {
            alloc,
            profiles,
            gates,
            left,
            shut,
            ended,
            ready,
        })
    }

    /// The positions without predecessors, which may start when the board is opened.
    pub fn ready(&self) -> &[u32]
        ensures rising { IsStrictlyIncreasing result.now }
        ensures exact { (j : ℕ) → Contains result.now j ↔ ((j < length self.now.profiles) × ((i : ℕ) → ¬ (IsEdge self.now.profiles i j))) }
    {
        &self.ready
    }

    /// Ends a position, and gives those of which it was the last predecessor that had not ended: these may start now.
    ///
    /// # Errors
    ///
    /// Why the position cannot be ended.
    pub fn end(&mut self, position: u32) -> Result<Vec<u32, A>, EndRefusal>
        ensures ok { OnOk result (self.new ≡ record self.old { ended = slice_set self.old.ended position true }) }
        ensures rising { IfOk result (λ free. IsStrictlyIncreasing free.items) }
        ensures free { IfOk result (λ free. (j : ℕ) → Contains free.items j ↔ (IsEdge self.old.profiles position j × IsFree self.new j)) }
        ensures no_such { result ≡ Err EndRefusal.NoSuchPosition ↔ (length self.old.profiles ≤ position) }
        ensures not_ready { result ≡ Err EndRefusal.NotReady ↔ IsWaiting self.old position }
        ensures twice { result ≡ Err EndRefusal.Ended ↔ (has_ended self.old position ≡ true) }
        ensures err { OnErr result (self.new ≡ self.old) }
    {
        let at = position as usize;
        if at >= self.ended.len() {
            return Err(EndRefusal::NoSuchPosition);
        }
        if self.shut[at] != 0 {
            return Err(EndRefusal::NotReady);
        }
        if self.ended[at] {
            return Err(EndRefusal::Ended);
        }
        let Ok(opening) = last_held(self.alloc, &self.left, self.gates.holds[at].as_slice()) else {
            return Err(EndRefusal::NoMemory);
        };
        let Ok(list) = all_behind(self.alloc, &self.gates.behind, &opening) else {
            return Err(EndRefusal::NoMemory);
        };
        lower(&mut self.left, self.gates.holds[at].as_slice());
        lower(&mut self.shut, &list);
        self.ended[at] = true;
        Ok(freed(list, &self.shut))
    }
}
