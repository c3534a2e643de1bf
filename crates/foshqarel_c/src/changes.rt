//! The export on one call alone.

ghost use Rattle.std.specs.Prelude.{◌≡◌, ◌⊎◌, IfOk, IfErr, map};
ghost use Rattle.spec_block.specs.Bytes.{mode_code};
ghost use Rattle.embed.specs.Refusals.{IfRefused, RefusesCalled};
ghost use Rattle.foshqarel_c.specs.Buffers.{FailsListing, IsListed};
ghost use Rattle.foshqarel_c.specs.Records.{AreChangesOf, change_record, number_in, presence};

use crate::buffers::{fail, give_items};
use crate::cells::kind_number;
use crate::receipts::{ReceiptRecord, receipt_record};
use crate::told::Told;
use embed::{Change, Failure};
use spec_ledger::Mode;
use std::alloc::{AllocError, Global};

/// A cell that a call asked for.
#[repr(C)]
#[derive(Clone, Copy, Debug, PartialEq, Eq)]
pub struct ChangeRecord {
    /// The key, as the bit pattern of an `i64`.
    pub key: u64,
    /// What the cell held; 0 where it was absent.
    pub before: u64,
    /// What it holds then; 0 where it is absent.
    pub later: u64,
    /// The number of the contract.
    pub contract: u32,
    /// 0 a cell of a map, 1 a counter.
    pub kind: u32,
    /// How the call held its lock: 0 Read, 1 Add, 2 Excl.
    pub mode: u32,
    /// 1 where the cell was there, and 2 where it is there then, added.
    pub presence: u32,
}

/// The number of a mode.
fn mode_number(mode: Mode) -> u32
    ensures { result ≡ mode_code mode }
{
    match mode {
        Mode::Read => 0,
        Mode::Add => 1,
        Mode::Excl => 2,
    }
}

/// The number in a cell, or 0.
fn number_in(cell: Option<u64>) -> u64
    ensures { result ≡ number_in cell }
{
    match cell {
        None => 0,
        Some(number) => number,
    }
}

/// Whether a cell was there, and whether it is.
fn presence(before: Option<u64>, later: Option<u64>) -> u32
    ensures { result ≡ presence before later }
{
    match (before, later) {
        (None, None) => 0,
        (Some(_), None) => 1,
        (None, Some(_)) => 2,
        (Some(_), Some(_)) => 3,
    }
}

/// A cell as a record.
fn change_record(change: Change) -> ChangeRecord
    ensures { result ≡ change_record change }
{
    ChangeRecord {
        key: change.lock.key,
        before: number_in(change.before),
        later: number_in(change.later),
        contract: change.lock.contract,
        kind: kind_number(change.lock.kind),
        mode: mode_number(change.mode),
        presence: presence(change.before, change.later),
    }
}

/// Cells as records.
fn records_of(alloc: Global, changes: &[Change]) -> Result<Vec<ChangeRecord>, AllocError>
    ensures { IfOk result (λ all. all.items ≡ map change_record changes.now) }
{
    let mut all = Vec::new(alloc);
    for change in changes {
        all.push(change_record(*change))?;
    }
    Ok(all)
}

/// The receipt and the cells of the call of this number of a text alone over a world, as records; or why there are none.
fn records_in(
    alloc: Global,
    world: &[u8],
    calls: &[u8],
    number: u32,
) -> Result<(ReceiptRecord, Vec<ChangeRecord>), Failure>
    ensures ran { IfOk result (λ x. AreChangesOf world.now calls.now number x.0 x.1.items) }
    ensures refused { IfErr result (λ f. IfRefused f (RefusesCalled world.now calls.now number)) }
{
    let effects = embed::call_alone(alloc, world, calls, number)?;
    let records = records_of(alloc, &effects.changes)?;
    Ok((receipt_record(number, effects.receipt), records))
}

/// Runs the call of this number of a text alone over a world: puts its receipt, and as many of the cells that it asked for as the list holds; `told.size` is how many they
/// are. Nothing is changed.
#[unsafe(no_mangle)]
pub extern "C" fn foshqarel_call(
    alloc: Global,
    world: &[u8],
    calls: &[u8],
    number: u32,
    receipt: &mut ReceiptRecord,
    changes: &mut [ChangeRecord],
    sentence: &mut [u8],
    told: &mut Told,
) -> u32
    ensures { IsListed (AreChangesOf world.now calls.now number receipt.new) 0 changes.old changes.new sentence.old sentence.new told.new result ⊎ ((receipt.new ≡ receipt.old) × FailsListing (RefusesCalled world.now calls.now number) changes.old changes.new sentence.old sentence.new told.new result) }
{
    match records_in(alloc, world, calls, number) {
        Ok((ran, records)) => {
            *receipt = ran;
            give_items(&records, 0, changes, told)
        }
        Err(failure) => fail(failure, sentence, told),
    }
}
