//! Positions of a block: the call's number, its receipt and its lock profile.

ghost use Rattle.std.specs.Prelude.{◌≡◌, ◌++◌, ◌↔◌, ◌<◌, ◌^◌, ℕ, List, IfOk, OnOk, IsSome, IfSome, length, take};
ghost use Rattle.spec_ledger.specs.declared.Version.{Version};
ghost use Rattle.spec_block.specs.Worlds.{Position as ThePosition};
ghost use Rattle.spec_block.specs.Bytes.{IsOutcome, IsPosition, position_bytes};
ghost use Rattle.records.specs.Reading.{Gives, IsRead};
ghost use Rattle.records.specs.Exact.{ReadsExactly};
ghost use Rattle.records.specs.Positions.{position_at, IsPositionIn};

use crate::profile::{append_profile, note_entries, read_profile};
use crate::receipt::{append_receipt, has_bytes, read_receipt};
use crate::{Fault, append_u32, read_u32};
use lock_profile::Profile;
use spec_ledger::{Receipt, Version};
use std::alloc::{AllocError, Allocator, Global};
use std::marker::Model;

/// What a block says of one call. Its type keeps that it has a spelling: the codes of receipts, and less than 2^32 entries.
#[derive(Drop)]
pub struct Position<A: Allocator = Global> {
    call: u32,
    receipt: Receipt,
    profile: Profile<A>,
}

impl<A: Allocator> Model for Position<A> {
    ghost use Rattle.spec_block.specs.Worlds.{Position as ThePosition};
    ghost use Rattle.spec_block.specs.Bytes.{IsPosition};

    ghost Value = { ThePosition };

    ghost view = { λ p. record { call = p.call; receipt = p.receipt; profile = p.profile } };

    ghost invariant = { λ p. IsPosition (record { call = p.call; receipt = p.receipt; profile = p.profile }) };
}

impl<A: Allocator> Position<A> {
    /// The position of a call with this number. There is none where the receipt's rejection has none of the codes 1, 2, 3, 4 and 6, or
    /// where the profile has 2^32 entries or more.
    pub fn new(call: u32, receipt: Receipt, profile: Profile<A>) -> Option<Self>
        ensures there { IsSome result ↔ (IsOutcome receipt.outcome × (length profile < 2 ^ 32)) }
        ensures is { IfSome result (λ p. p ≡ record { call = call; receipt = receipt; profile = profile }) }
    {
        note_entries(profile.entries());
        profile.use_invariant();
        lock_profile::neighbours_decide();
        if !has_bytes(receipt) || profile.entries().len() > u32::MAX as usize {
            return None;
        }
        Some(Position {
            call,
            receipt,
            profile,
        })
    }

    /// The call's number.
    pub fn call(&self) -> u32
        ensures { result ≡ self.now.call }
    {
        self.call
    }

    /// Its receipt.
    pub fn receipt(&self) -> Receipt
        ensures { result ≡ self.now.receipt }
    {
        self.receipt
    }

    /// Its locks, with their modes and turns.
    pub fn profile(&self) -> &Profile<A>
        ensures { result.now ≡ self.now.profile }
    {
        &self.profile
    }

    /// What the type keeps: it has a spelling.
    pub fn use_invariant(&self)
        ensures { IsPosition self.now }
    {
        let _call = self.call;
    }
}

#[tactic(auto, unfolding(crate::specs::Positions::position_at))]
fn position_of<A: Allocator>(
    version: Version,
    alloc: A,
    bytes: &[u8],
) -> Result<(Position<A>, &[u8]), Fault>
    ensures { Gives (λ x. (x.0, x.1.now)) result (position_at version bytes.now) }
{
    let (call, rest) = read_u32(bytes)?;
    let (receipt, rest) = read_receipt(version, rest)?;
    let (profile, rest) = read_profile(alloc, rest)?;
    match Position::new(call, receipt, profile) {
        Some(position) => Ok((position, rest)),
        None => unreachable!(),
    }
}

/// Reads a position of a block of this version, and gives the bytes after it. It is refused exactly where no such position stands in front,
/// memory aside, and the first fault is answered.
pub fn read_position<A: Allocator>(
    version: Version,
    alloc: A,
    bytes: &[u8],
) -> Result<(Position<A>, &[u8]), Fault>
    ensures spelled { IfOk result (λ x. IsPositionIn version x.0 × (bytes.now ≡ position_bytes version x.0 ++ x.1.now)) }
    ensures only { (position : ThePosition) (rest : List ℕ) → IsPositionIn version position → bytes.now ≡ position_bytes version position ++ rest → IsRead (λ x. (x.0, x.1.now)) result position rest }
    ensures first { Gives (λ x. (x.0, x.1.now)) result (position_at version bytes.now) }
{
    position_of(version, alloc, bytes)
}

/// Appends a position as blocks of this version tell it. Where memory is refused, what was there still stands in front.
pub fn append_position<A: Allocator>(
    version: Version,
    out: &mut Vec<u8, A>,
    position: &Position<A>,
) -> Result<(), AllocError>
    ensures bytes { OnOk result (out.new.items ≡ out.old.items ++ position_bytes version position.now) }
    ensures front { take (length out.old.items) out.new.items ≡ out.old.items }
{
    position.use_invariant();
    append_u32(out, position.call())?;
    append_receipt(version, out, position.receipt())?;
    append_profile(out, position.profile())?;
    Ok(())
}

/// The positions of a version are read exactly: what is read is spelled so, and what is spelled so is read, whatever follows.
pub fn positions_are_read_exactly()
    ensures { (version : Version) → ReadsExactly (position_at version) (position_bytes version) (IsPositionIn version) }
{}
