// Cells that nobody changes, in the order of locks.
ghost use Rattle.std.specs.Prelude.{◌≡◌, ◌<◌, ◌^◌, [], T, IfErr, IfOk, None, length, map};
ghost use Rattle.std.specs.FinMap as finite;
ghost use Rattle.spec_ledger.specs.Cells.{lock_cmp};
ghost use Rattle.storage.specs.Slots.{base_of, merged, with_settled, IsFoundAt};

use spec_ledger::{Lock, NoMemory};
use std::alloc::Allocator;
use std::cmp::Ordering;
use std::marker::Model;

/// Cells that nobody changes. Contracts see their list, which is in the order of locks.
#[derive(Drop)]
pub(crate) struct Base<A: Allocator> {
    cells: Vec<(Lock, u64), A>,
}

impl<A: Allocator> Model for Base<A> {
    ghost use Rattle.std.specs.Prelude.{ℕ, List, T};
    ghost use Rattle.std.specs.FinMap.{is_sorted};
    ghost use Rattle.spec_ledger.specs.Cells.{lock_cmp};
    ghost use Rattle.spec_ledger.specs.declared.Lock.{Lock};

    ghost Value = { List (Lock × ℕ) };

    ghost view = { λ b. b.cells.items };

    ghost invariant = { λ b. T (is_sorted lock_cmp b.cells.items) };
}

impl<A: Allocator> Base<A> {
    /// No cells.
    pub(crate) fn empty(alloc: A) -> Self
        ensures { result ≡ [] }
    {
        Base {
            cells: Vec::new(alloc),
        }
    }

    /// The cells of a list in the order of locks.
    pub(crate) fn from_sorted(cells: Vec<(Lock, u64), A>) -> Self
        requires { T (finite.is_sorted lock_cmp cells.items) }
        ensures { result ≡ cells.items }
    {
        Base { cells }
    }

    /// The cells.
    pub(crate) fn as_slice(&self) -> &[(Lock, u64)]
        ensures cells { result.now ≡ self.now }
        ensures sorted { T (finite.is_sorted lock_cmp self.now) }
    {
        &self.cells
    }

    /// How many cells there are.
    pub(crate) fn len(&self) -> usize
        ensures len { result ≡ length self.now }
        ensures fits { length self.now < 2 ^ 63 }
    {
        self.cells.len()
    }

    /// The place of a lock's cell, or where it would be.
    fn search(&self, lock: Lock) -> Result<usize, usize>
        ensures found { IfOk result (IsFoundAt self.now lock) }
        ensures absent { IfErr result (λ _. finite.find lock_cmp lock self.now ≡ None) }
    {
        self.cells.binary_search_by_key(&lock, |&(lock, _)| lock)
    }

    /// The number at a lock, if there is one.
    pub(crate) fn find(&self, lock: Lock) -> Option<u64>
        ensures { result ≡ finite.get (base_of self.now) lock }
    {
        match self.search(lock) {
            Ok(at) => Some(self.cells[at].1),
            Err(_) => None,
        }
    }
}

/// Two lists as one: where both rise, it does. Where both have a lock, the number is that of the second.
#[tactic(auto, using(crate::proofs::Merged::step_less, crate::proofs::Merged::step_equal, crate::proofs::Merged::step_greater))]
fn merge<A: Allocator + Copy>(
    alloc: A,
    base: &[(Lock, u64)],
    over: &[(Lock, u64)],
) -> Result<Vec<(Lock, u64), A>, NoMemory>
    ensures { IfOk result (λ all. all.items ≡ merged base.now (map with_settled over.now)) }
{
    let mut all = Vec::with_capacity(alloc, base.len().saturating_add(over.len()))?;
    let mut base = base;
    let mut over = over;
    'merge: loop {
        let [first, others @ ..] = base else {
            all.extend_from_slice(over)?;
            return Ok(all);
        };
        let [above, others_above @ ..] = over else {
            all.extend_from_slice(base)?;
            return Ok(all);
        };
        match first.0.cmp(&above.0) {
            Ordering::Less => {
                all.push(*first)?;
                base = others;
            }
            Ordering::Equal => {
                all.push(*above)?;
                base = others;
                over = others_above;
            }
            Ordering::Greater => {
                all.push(*above)?;
                over = others_above;
            }
        }
    }
}

/// The same of lists that are used up. Where one of them is empty, it is the other.
pub(crate) fn one_list<A: Allocator + Copy>(
    alloc: A,
    base: Vec<(Lock, u64), A>,
    over: Vec<(Lock, u64), A>,
) -> Result<Vec<(Lock, u64), A>, NoMemory>
    ensures { IfOk result (λ all. all.items ≡ merged base.items (map with_settled over.items)) }
{
    if over.is_empty() {
        return Ok(base);
    }
    if base.is_empty() {
        return Ok(over);
    }
    merge(alloc, &base, &over)
}
