//! Cells: the contract's number, the key and the value, 20 bytes.

ghost use Rattle.std.specs.Prelude.{◌≡◌};
ghost use Rattle.records.specs.Reading.{Gives};
ghost use Rattle.world.specs.Cells.{falls, is_after, is_missing, contract_at, lock_at, value_at, cell_at};

use records::{Fault, read_u32, read_u64};
use spec_ledger::{Kind, Lock};
use std::cmp::Ordering;

fn is_falling(before: Option<(Lock, u64)>, contract: u32) -> bool
    ensures { result ≡ falls before contract }
{
    match before {
        None => false,
        Some(before) => contract < before.0.contract,
    }
}

fn comes_after(before: Option<(Lock, u64)>, lock: Lock) -> bool
    ensures { result ≡ is_after before lock }
{
    match before {
        None => true,
        Some(before) => matches!(before.0.cmp(&lock), Ordering::Less),
    }
}

fn is_absent(kind: Kind, value: u64) -> bool
    ensures { result ≡ is_missing kind value }
{
    match kind {
        Kind::Map => false,
        Kind::Counter => value == 0,
    }
}

#[tactic(auto, unfolding(crate::specs::Cells::contract_at))]
fn contract_of(before: Option<(Lock, u64)>, bytes: &[u8]) -> Result<(u32, &[u8]), Fault>
    ensures { Gives (λ x. (x.0, x.1.now)) result (contract_at before bytes.now) }
{
    let (contract, rest) = read_u32(bytes)?;
    if is_falling(before, contract) {
        return Err(Fault::Malformed(bytes.len()));
    }
    Ok((contract, rest))
}

#[tactic(auto, unfolding(crate::specs::Cells::lock_at))]
fn lock_of(
    kind: Kind,
    before: Option<(Lock, u64)>,
    contract: u32,
    bytes: &[u8],
) -> Result<(Lock, &[u8]), Fault>
    ensures { Gives (λ x. (x.0, x.1.now)) result (lock_at kind before contract bytes.now) }
{
    let (key, rest) = read_u64(bytes)?;
    let lock = Lock {
        contract,
        kind,
        key,
    };
    if comes_after(before, lock) {
        return Ok((lock, rest));
    }
    Err(Fault::Malformed(bytes.len()))
}

#[tactic(auto, unfolding(crate::specs::Cells::value_at))]
fn value_of(kind: Kind, bytes: &[u8]) -> Result<(u64, &[u8]), Fault>
    ensures { Gives (λ x. (x.0, x.1.now)) result (value_at kind bytes.now) }
{
    let (value, rest) = read_u64(bytes)?;
    if is_absent(kind, value) {
        return Err(Fault::Malformed(bytes.len()));
    }
    Ok((value, rest))
}

/// Reads the cell of a kind that follows another one, or none.
#[tactic(auto, unfolding(crate::specs::Cells::cell_at))]
pub(crate) fn read_cell(
    kind: Kind,
    before: Option<(Lock, u64)>,
    bytes: &[u8],
) -> Result<((Lock, u64), &[u8]), Fault>
    ensures { Gives (λ x. (x.0, x.1.now)) result (cell_at kind before bytes.now) }
{
    let (contract, rest) = contract_of(before, bytes)?;
    let (lock, rest) = lock_of(kind, before, contract, rest)?;
    let (value, rest) = value_of(kind, rest)?;
    Ok(((lock, value), rest))
}
