//! The export on the receipts of a block.

ghost use Rattle.std.specs.Prelude.{◌≡◌, IfOk, IfErr, map};
ghost use Rattle.embed.specs.Refusals.{IfRefused, RefusesBlock};
ghost use Rattle.foshqarel_c.specs.Buffers.{Lists};
ghost use Rattle.foshqarel_c.specs.Records.{AreReceiptsOf, code_of, outcome_number, position_record, receipt_record, value_of};

use crate::buffers::{fail, give_items};
use crate::told::Told;
use block::Position;
use embed::Failure;
use spec_ledger::{Outcome, Receipt};
use std::alloc::{AllocError, Global};
use wtypes::Value;

/// What a call came to.
#[repr(C)]
#[derive(Clone, Copy, Debug, PartialEq, Eq)]
pub struct ReceiptRecord {
    /// The fuel that it used.
    pub fuel: u64,
    /// What it returned; else 0.
    pub value: i64,
    /// Its number in the list.
    pub call: u32,
    /// How many levels it entered.
    pub asks: u32,
    /// 0 it returned, 1 with an `i32`, 2 with an `i64`, 3 it trapped, 4 it was out of fuel, 5 it was rejected.
    pub outcome: u32,
    /// The cause of a trap or of a rejection; else 0.
    pub code: u32,
}

/// The number of how a call ended.
fn outcome_number(outcome: Outcome) -> u32
    ensures { result ≡ outcome_number outcome }
{
    match outcome {
        Outcome::Returned(None) => 0,
        Outcome::Returned(Some(Value::I32(_))) => 1,
        Outcome::Returned(Some(Value::I64(_))) => 2,
        Outcome::Trapped(_) => 3,
        Outcome::OutOfFuel => 4,
        Outcome::Rejected(_) => 5,
    }
}

/// What a call returned, or 0.
fn value_of(outcome: Outcome) -> i64
    ensures { result ≡ value_of outcome }
{
    match outcome {
        Outcome::Returned(Some(Value::I32(value))) => i64::from(value),
        Outcome::Returned(Some(Value::I64(value))) => value,
        Outcome::Returned(None) | Outcome::Trapped(_) | Outcome::OutOfFuel | Outcome::Rejected(_) =>
            0,
    }
}

/// Why a call trapped or was rejected, or 0.
fn code_of(outcome: Outcome) -> u32
    ensures { result ≡ code_of outcome }
{
    match outcome {
        Outcome::Trapped(code) => u32::from(code as u8),
        Outcome::Rejected(code) => u32::from(code),
        Outcome::Returned(_) | Outcome::OutOfFuel => 0,
    }
}

/// The record of a call of this number.
pub(crate) fn receipt_record(call: u32, receipt: Receipt) -> ReceiptRecord
    ensures { result ≡ receipt_record call receipt }
{
    ReceiptRecord {
        fuel: receipt.used,
        value: value_of(receipt.outcome),
        call,
        asks: receipt.asks,
        outcome: outcome_number(receipt.outcome),
        code: code_of(receipt.outcome),
    }
}

/// The record of the call of a position.
fn position_record(position: &Position) -> ReceiptRecord
    ensures { result ≡ position_record position.now }
{
    receipt_record(position.call(), position.receipt())
}

/// The receipts of positions as records.
fn records_of(alloc: Global, positions: &[Position]) -> Result<Vec<ReceiptRecord>, AllocError>
    ensures { IfOk result (λ all. all.items ≡ map position_record positions.now) }
{
    let mut all = Vec::new(alloc);
    for position in positions {
        all.push(position_record(position))?;
    }
    Ok(all)
}

/// The receipts of a block as records; or why the bytes spell none.
fn records_in(alloc: Global, block: &[u8]) -> Result<Vec<ReceiptRecord>, Failure>
    ensures records { IfOk result (λ all. AreReceiptsOf block.now all.items) }
    ensures refused { IfErr result (λ f. IfRefused f (RefusesBlock block.now)) }
{
    let found = embed::block_of(alloc, block)?;
    let records = records_of(alloc, found.positions())?;
    Ok(records)
}

/// Puts the receipts of a block from this position on, as many as the list holds; `told.size` is how many positions it has. It is not verified.
#[unsafe(no_mangle)]
pub extern "C" fn foshqarel_receipts(
    alloc: Global,
    block: &[u8],
    from: u64,
    receipts: &mut [ReceiptRecord],
    sentence: &mut [u8],
    told: &mut Told,
) -> u32
    ensures { Lists (AreReceiptsOf block.now) (RefusesBlock block.now) from receipts.old receipts.new sentence.old sentence.new told.new result }
{
    match records_in(alloc, block) {
        Ok(records) => give_items(&records, from, receipts, told),
        Err(failure) => fail(failure, sentence, told),
    }
}
