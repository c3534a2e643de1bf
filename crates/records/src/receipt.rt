//! Receipts: the fuel used, from version 2 the levels entered, a byte for the outcome's kind, and what the kind has.

ghost use Rattle.std.specs.Prelude.{◌≡◌, ◌≢◌, ◌++◌, ◌↔◌, ◌<◌, ◌^◌, ℕ, List, IfOk, OnOk, IsTrue, take, length, Err};
ghost use Rattle.spec_ledger.specs.declared.Receipt.{Receipt};
ghost use Rattle.spec_block.specs.Bytes.{IsOutcome, asks_bytes, outcome_bytes, receipt_bytes, trap_code};
ghost use Rattle.records.specs.declared.fault.Fault.TheVariants.{NoMemory};
ghost use Rattle.records.specs.Reading.{Gives, IsRead};
ghost use Rattle.records.specs.Values.{values_at, trap_of, trap_at, is_rejection, rejection_at, outcome_at, asks_at, receipt_at, IsReceiptIn};

use crate::value::{append_value, read_value};
use crate::{Fault, append_u32, append_u64, read_byte, read_u32, read_u64};
use spec_ledger::{Outcome, Receipt, Version};
use std::alloc::{AllocError, Allocator};
use wtypes::{TrapCode, Value};

#[tactic(auto, unfolding(crate::specs::Values::values_at, crate::specs::Values::values_by))]
fn values_of(bytes: &[u8]) -> Result<(Option<Value>, &[u8]), Fault>
    ensures read { Gives (λ x. (x.0, x.1.now)) result (values_at bytes.now) }
    ensures memory { result ≢ Err NoMemory }
{
    let (count, rest) = read_byte(bytes)?;
    match count {
        0 => Ok((None, rest)),
        1 => {
            let (value, rest) = read_value(rest)?;
            Ok((Some(value), rest))
        }
        _ => Err(Fault::Malformed(bytes.len())),
    }
}

fn trap_named(code: u8) -> Option<TrapCode>
    ensures { result ≡ trap_of code }
{
    match code {
        1 => Some(TrapCode::Unreachable),
        2 => Some(TrapCode::DivideByZero),
        3 => Some(TrapCode::IntegerOverflow),
        4 => Some(TrapCode::MemoryOutOfBounds),
        5 => Some(TrapCode::ElementOutOfTable),
        6 => Some(TrapCode::EmptyElement),
        7 => Some(TrapCode::TypeMismatch),
        8 => Some(TrapCode::CallDepth),
        _ => None,
    }
}

#[tactic(auto, unfolding(crate::specs::Values::trap_at))]
fn trap_at_front(bytes: &[u8]) -> Result<(TrapCode, &[u8]), Fault>
    ensures read { Gives (λ x. (x.0, x.1.now)) result (trap_at bytes.now) }
    ensures memory { result ≢ Err NoMemory }
{
    let (code, rest) = read_byte(bytes)?;
    match trap_named(code) {
        Some(trap) => Ok((trap, rest)),
        None => Err(Fault::Malformed(bytes.len())),
    }
}

/// Whether this is the code of a call that could not be started.
fn names_rejection(code: u8) -> bool
    ensures { result ≡ is_rejection code }
{
    code == 1 || (code == 2 || (code == 3 || (code == 4 || code == 6)))
}

#[tactic(auto, unfolding(crate::specs::Values::rejection_at))]
fn rejection_of(bytes: &[u8]) -> Result<(u8, &[u8]), Fault>
    ensures read { Gives (λ x. (x.0, x.1.now)) result (rejection_at bytes.now) }
    ensures memory { result ≢ Err NoMemory }
{
    let (code, rest) = read_byte(bytes)?;
    if names_rejection(code) {
        return Ok((code, rest));
    }
    Err(Fault::Malformed(bytes.len()))
}

#[tactic(auto, unfolding(crate::specs::Values::outcome_at, crate::specs::Values::outcome_by))]
fn outcome_of(bytes: &[u8]) -> Result<(Outcome, &[u8]), Fault>
    ensures read { Gives (λ x. (x.0, x.1.now)) result (outcome_at bytes.now) }
    ensures memory { result ≢ Err NoMemory }
{
    let (kind, rest) = read_byte(bytes)?;
    match kind {
        0 => {
            let (value, rest) = values_of(rest)?;
            Ok((Outcome::Returned(value), rest))
        }
        1 => {
            let (trap, rest) = trap_at_front(rest)?;
            Ok((Outcome::Trapped(trap), rest))
        }
        2 => Ok((Outcome::OutOfFuel, rest)),
        3 => {
            let (code, rest) = rejection_of(rest)?;
            Ok((Outcome::Rejected(code), rest))
        }
        _ => Err(Fault::Malformed(bytes.len())),
    }
}

#[tactic(auto, unfolding(crate::specs::Values::asks_at))]
fn asks_of(version: Version, bytes: &[u8]) -> Result<(u32, &[u8]), Fault>
    ensures read { Gives (λ x. (x.0, x.1.now)) result (asks_at version bytes.now) }
    ensures memory { result ≢ Err NoMemory }
{
    match version {
        Version::One => Ok((0, bytes)),
        Version::Two => read_u32(bytes),
    }
}

#[tactic(auto, unfolding(crate::specs::Values::receipt_at))]
fn receipt_of(version: Version, bytes: &[u8]) -> Result<(Receipt, &[u8]), Fault>
    ensures read { Gives (λ x. (x.0, x.1.now)) result (receipt_at version bytes.now) }
    ensures memory { result ≢ Err NoMemory }
{
    let (used, rest) = read_u64(bytes)?;
    let (asks, rest) = asks_of(version, rest)?;
    let (outcome, rest) = outcome_of(rest)?;
    Ok((
        Receipt {
            outcome,
            used,
            asks,
        },
        rest,
    ))
}

/// Reads a receipt of a block of this version, and gives the bytes after it. It is refused exactly where no such receipt stands in front,
/// and the first fault is answered.
pub fn read_receipt(version: Version, bytes: &[u8]) -> Result<(Receipt, &[u8]), Fault>
    ensures spelled { IfOk result (λ x. IsReceiptIn version x.0 × (bytes.now ≡ receipt_bytes version x.0 ++ x.1.now)) }
    ensures only { (receipt : Receipt) (rest : List ℕ) → IsReceiptIn version receipt → bytes.now ≡ receipt_bytes version receipt ++ rest → IsRead (λ x. (x.0, x.1.now)) result receipt rest }
    ensures first { Gives (λ x. (x.0, x.1.now)) result (receipt_at version bytes.now) }
    ensures memory { result ≢ Err NoMemory }
{
    receipt_of(version, bytes)
}

fn code_of(trap: TrapCode) -> u8
    ensures { result ≡ trap_code trap }
{
    trap as u8
}

fn append_outcome<A: Allocator>(out: &mut Vec<u8, A>, outcome: Outcome) -> Result<(), AllocError>
    ensures bytes { OnOk result (out.new.items ≡ out.old.items ++ outcome_bytes outcome) }
    ensures front { take (length out.old.items) out.new.items ≡ out.old.items }
{
    match outcome {
        Outcome::Returned(None) => out.extend_from_slice(&[0, 0]),
        Outcome::Returned(Some(value)) => {
            out.extend_from_slice(&[0, 1])?;
            append_value(out, value)
        }
        Outcome::Trapped(trap) => out.extend_from_slice(&[1, code_of(trap)]),
        Outcome::OutOfFuel => out.extend_from_slice(&[2]),
        Outcome::Rejected(code) => out.extend_from_slice(&[3, code]),
    }
}

fn append_asks<A: Allocator>(
    version: Version,
    out: &mut Vec<u8, A>,
    receipt: Receipt,
) -> Result<(), AllocError>
    ensures bytes { OnOk result (out.new.items ≡ out.old.items ++ asks_bytes version receipt) }
    ensures front { take (length out.old.items) out.new.items ≡ out.old.items }
{
    match version {
        Version::One => Ok(()),
        Version::Two => append_u32(out, receipt.asks),
    }
}

/// Appends a receipt as blocks of this version tell it. Where memory is refused, what was there still stands in front.
pub fn append_receipt<A: Allocator>(
    version: Version,
    out: &mut Vec<u8, A>,
    receipt: Receipt,
) -> Result<(), AllocError>
    ensures bytes { OnOk result (out.new.items ≡ out.old.items ++ receipt_bytes version receipt) }
    ensures front { take (length out.old.items) out.new.items ≡ out.old.items }
{
    append_u64(out, receipt.used)?;
    append_asks(version, out, receipt)?;
    append_outcome(out, receipt.outcome)
}

/// Whether a receipt has a spelling: a rejection needs a code that says why a call is not started.
pub(crate) fn has_bytes(receipt: Receipt) -> bool
    ensures outcome { IsTrue result ↔ IsOutcome receipt.outcome }
    ensures used { receipt.used < 2 ^ 64 }
    ensures asks { receipt.asks < 2 ^ 32 }
{
    let _used = receipt.used;
    let _asks = receipt.asks;
    match receipt.outcome {
        Outcome::Returned(Some(Value::I32(_x))) => true,
        Outcome::Returned(Some(Value::I64(_x))) => true,
        Outcome::Rejected(code) => names_rejection(code),
        Outcome::Returned(None) | Outcome::Trapped(_) | Outcome::OutOfFuel => true,
    }
}
