//! What a block says of its positions beside what the serial execution came to.

ghost use Rattle.std.specs.Prelude.{◌≡◌, ◌<◌, ◌^◌, ◌↔◌, ℕ, IfNone, IfSome, IsTrue, length};
ghost use Rattle.lock_profile.specs.Groups.{pairs};
ghost use Rattle.serial.specs.Positions.{results_of};
ghost use Rattle.serial.specs.OrderOutcomes.{fuel_of_receipts};
ghost use Rattle.spec_block.specs.Worlds.{held_in};
ghost use Rattle.spec_block.specs.Verdicts.{Agrees, IsLeast, IsOther};
ghost use Rattle.validator.specs.VerdictsFound.{IsCompared};

use block::{Block, Position};
use lock_profile::{Held, Touched};
use spec_ledger::{Entry, Receipt};
use std::alloc::Allocator;

fn is_receipt(a: Receipt, b: Receipt) -> bool
    ensures { IsTrue result ↔ (a ≡ b) }
{
    a == b
}

fn is_held(held: Held, entry: Entry) -> bool
    ensures { IsTrue result ↔ (held ≡ record { lock = entry.lock; mode = entry.mode }) }
{
    let published = Held {
        lock: entry.lock,
        mode: entry.mode,
    };
    held == published
}

/// Whether the entries have these locks and modes.
fn are_held(entries: &[Entry], held: &[Held]) -> bool
    ensures { IsTrue result ↔ (held_in entries.now ≡ pairs held.now) }
{
    if entries.len() != held.len() {
        return false;
    }
    for (at, entry) in entries.iter().enumerate() {
        if !is_held(held[at], *entry) {
            return false;
        }
    }
    true
}

/// Whether a position has this receipt, and these locks and modes.
fn agrees<A: Allocator>(position: &Position<A>, receipt: Receipt, touched: &Touched<A>) -> bool
    ensures { IsTrue result ↔ Agrees position.now (record { receipt = receipt; touched = touched.now }) }
{
    if !is_receipt(position.receipt(), receipt) {
        return false;
    }
    are_held(position.profile().entries(), touched.lock_modes())
}

/// The least position that does not agree with these receipts and locks.
fn first_deviating<A: Allocator>(
    positions: &[Position<A>],
    receipts: &[Receipt],
    touched: &[Touched<A>],
) -> Option<u32>
    requires few { length positions.now < 2 ^ 32 }
    requires receipts { length receipts.now ≡ length positions.now }
    requires touched { length touched.now ≡ length positions.now }
    ensures other { IfSome result (IsLeast (IsOther positions.now (results_of receipts.now touched.now))) }
    ensures same { IfNone result ((position : ℕ) → ¬ (IsOther positions.now (results_of receipts.now touched.now) position)) }
{
    for (at, position) in positions.iter().enumerate() {
        if !agrees(position, receipts[at], &touched[at]) {
            return Some(at as u32);
        }
    }
    None
}

/// Whether this is the fuel that calls with these receipts used.
fn is_total(fuel: u64, receipts: &[Receipt]) -> bool
    ensures { IsTrue result ↔ (fuel ≡ fuel_of_receipts receipts.now) }
{
    let mut rest = fuel;
    for receipt in receipts {
        match rest.checked_sub(receipt.used) {
            Some(less) => rest = less,
            None => return false,
        }
    }
    rest == 0
}

/// How what a block says of its calls stands to what they came to.
#[derive(Clone, Copy, Debug, PartialEq, Eq)]
pub(crate) struct Compared {
    /// The least position that does not agree, if one does not.
    pub(crate) deviating: Option<u32>,
    /// Whether the block names the fuel that they used.
    pub(crate) is_total: bool,
}

/// Compares what a block says of its calls with what they came to, and gives the memory of that back.
pub(crate) fn compare<A: Allocator>(
    block: &Block<A>,
    receipts: Vec<Receipt, A>,
    touched: Vec<Touched<A>, A>,
) -> Compared
    requires few { length block.now.positions < 2 ^ 32 }
    requires receipts { length receipts.items ≡ length block.now.positions }
    requires touched { length touched.items ≡ length block.now.positions }
    ensures { IsCompared block.now receipts.items touched.items result }
{
    Compared {
        deviating: first_deviating(block.positions(), &receipts, &touched),
        is_total: is_total(block.fuel(), &receipts),
    }
}
