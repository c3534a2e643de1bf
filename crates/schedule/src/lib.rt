//! The graph of a published order: what must wait for what, by the turns of the lock profiles (Dickerson, Gazzillo, Herlihy,
//! Koskinen, "Adding Concurrency to Smart Contracts", PODC 2017, section 4).
#![tactic(auto)]

ghost use Rattle.std.specs.Prelude.{◌≡◌, ◌↔◌, ◌<◌, ◌^◌, ℕ, IfOk, length, slice_index};
ghost use Rattle.std.specs.List.{Contains};
ghost use Rattle.std.specs.List.Sorted.{IsStrictlyIncreasing};
ghost use Rattle.spec_block.specs.Schedule.{AreApart, HaveTurns, IsEdge, IsWave};

mod board;
mod copies;
mod gates;
mod laws;
mod numbers;
mod waves;

pub use board::{Board, EndRefusal};
use copies::profiles_of;
use gates::{Gates, all_behind, gates_of};
pub use laws::turns_agree;
use lock_profile::Profile;
use numbers::rising;
use std::alloc::{Allocator, Global};
use std::marker::Model;
pub use waves::waves_of;
use wtypes::NoMemory;

/// The graph of a published order (section 4: the fork-join program of a validator). Its nodes are the positions; an edge goes to
/// each position that shares a lock with it and has the next turn there. Contracts see the lock profiles of all positions, which
/// say what the edges are, and their waves. It takes as much memory as the profiles, however many edges there are.
#[derive(Drop)]
pub struct Graph<A: Allocator = Global> {
    profiles: Vec<Profile<A>, A>,
    gates: Gates<A>,
    waves: Vec<u32, A>,
}

impl<A: Allocator> Model for Graph<A> {
    ghost use Rattle.schedule.specs.Graph.{AreGates, Layered};

    ghost Value = { Layered };

    ghost view = { λ g. record { profiles = g.profiles.items; waves = g.waves.items } };

    ghost invariant = { λ g. AreGates g.profiles.items g.gates.holds.items g.gates.behind.items };
}

impl<A: Allocator + Copy> Graph<A> {
    /// The graph of these profiles, by position. It takes n log n steps for n entries in all.
    ///
    /// # Errors
    ///
    /// The allocator refused memory, or the profiles have 2^32 entries or more.
    pub fn of(alloc: A, profiles: &[Profile<A>]) -> Result<Self, NoMemory>
        requires few { length profiles.now < 2 ^ 16 }
        requires turns { HaveTurns profiles.now }
        ensures profiles { IfOk result (λ graph. graph.profiles ≡ profiles.now) }
        ensures each_wave { IfOk result (λ graph. length graph.waves ≡ length profiles.now) }
        ensures waves { IfOk result (λ graph. (i : ℕ) → i < length profiles.now → IsWave profiles.now i (slice_index graph.waves i)) }
        ensures together { IfOk result (λ graph. (i j : ℕ) → i < j → j < length profiles.now → slice_index graph.waves i ≡ slice_index graph.waves j → ¬ (AreApart profiles.now i j)) }
    {
        let gates = gates_of(alloc, profiles)?;
        let waves = waves_of(alloc, profiles)?;
        let profiles = profiles_of(alloc, profiles)?;
        Ok(Graph {
            profiles,
            gates,
            waves,
        })
    }

    /// The positions that wait for this one, strictly rising: those to which an edge goes from it. It takes memory for these alone.
    ///
    /// # Errors
    ///
    /// The allocator refused memory.
    pub fn successors(&self, alloc: A, position: u32) -> Result<Vec<u32, A>, NoMemory>
        ensures rising { IfOk result (λ list. IsStrictlyIncreasing list.items) }
        ensures exact { IfOk result (λ list. (j : ℕ) → Contains list.items j ↔ IsEdge self.now.profiles position j) }
    {
        let at = position as usize;
        if at >= self.gates.holds.len() {
            return Ok(Vec::new(alloc));
        }
        let list = all_behind(alloc, &self.gates.behind, self.gates.holds[at].as_slice())?;
        Ok(rising(list))
    }

    /// For each position its wave, the length of the longest path to it. Positions of one wave go together at every lock.
    pub fn waves(&self) -> &[u32]
        ensures { result.now ≡ self.now.waves }
    {
        &self.waves
    }
}
