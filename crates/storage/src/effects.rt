// What an operation does with the cell at its lock, and how that is taken back.
ghost use Rattle.std.specs.Prelude.{◌≡◌, ◌+◌, ◌%◌, ◌^◌};
ghost use Rattle.spec_ledger.specs.Cells.{cell_after, counter, counter_at, inverse_of, is_reading, lock_of, map_at, number, reply_of, subtracted};
ghost use Rattle.spec_ledger.specs.Modes.{mode_of};
ghost use Rattle.storage.specs.Slots.{cell_back};

use spec_ledger::{CellKey, Inverse, Kind, Lock, Mode, Op, Reply};

/// The lock of the map cell at a place.
pub fn map_lock(place: CellKey) -> Lock
    ensures { result ≡ map_at place }
{
    Lock {
        contract: place.contract,
        kind: Kind::Map,
        key: place.key,
    }
}

/// The lock of the counter at a place.
pub fn counter_lock(place: CellKey) -> Lock
    ensures { result ≡ counter_at place }
{
    Lock {
        contract: place.contract,
        kind: Kind::Counter,
        key: place.key,
    }
}

/// The lock of an operation.
pub fn lock(op: Op) -> Lock
    ensures { result ≡ lock_of op }
{
    match op {
        Op::Get(place) | Op::Has(place) | Op::Put(place, _) | Op::Del(place) => map_lock(place),
        Op::Add(place, _) | Op::Total(place) => counter_lock(place),
    }
}

/// The mode that an operation asks for.
pub fn mode(op: Op) -> Mode
    ensures { result ≡ mode_of op }
{
    match op {
        Op::Get(_) | Op::Has(_) | Op::Total(_) => Mode::Read,
        Op::Put(_, _) | Op::Del(_) => Mode::Excl,
        Op::Add(_, _) => Mode::Add,
    }
}

fn sum_cell(cell: Option<u64>, value: u64) -> Option<u64>
    ensures { result ≡ counter ((number cell + value) % 2 ^ 64) }
{
    let sum = cell.unwrap_or(0).wrapping_add(value);
    if sum == 0 { None } else { Some(sum) }
}

fn less_cell(cell: Option<u64>, value: u64) -> Option<u64>
    ensures { result ≡ subtracted value cell }
{
    let rest = cell.unwrap_or(0).wrapping_sub(value);
    if rest == 0 { None } else { Some(rest) }
}

/// What an operation leaves in its cell.
pub fn next_cell(op: Op, cell: Option<u64>) -> Option<u64>
    ensures { result ≡ cell_after op cell }
{
    match op {
        Op::Get(_) | Op::Has(_) | Op::Total(_) => cell,
        Op::Put(_, value) => Some(value),
        Op::Del(_) => None,
        Op::Add(_, value) => sum_cell(cell, value),
    }
}

/// What an operation answers from its cell.
pub fn reply(op: Op, cell: Option<u64>) -> Reply
    ensures { result ≡ reply_of op cell }
{
    match op {
        Op::Get(_) | Op::Total(_) => Reply::I64(cell.unwrap_or(0).cast_signed()),
        Op::Has(_) | Op::Del(_) => Reply::I32(if cell.is_some() { 1 } else { 0 }),
        Op::Put(_, _) | Op::Add(_, _) => Reply::Nothing,
    }
}

/// How an operation on this cell is taken back.
pub fn inverse(op: Op, cell: Option<u64>) -> Inverse
    ensures { result ≡ inverse_of op cell }
{
    match op {
        Op::Get(_) | Op::Has(_) | Op::Total(_) => Inverse::Keep,
        Op::Put(place, _) | Op::Del(place) => Inverse::Restore(place, cell),
        Op::Add(place, value) => Inverse::Subtract(place, value),
    }
}

/// Whether an operation only reads its cell.
pub(crate) fn reads(op: Op) -> bool
    ensures { result ≡ is_reading op }
{
    match op {
        Op::Get(_) | Op::Has(_) | Op::Total(_) => true,
        Op::Put(_, _) | Op::Del(_) | Op::Add(_, _) => false,
    }
}

/// What a cell holds once a change is taken back.
pub fn former_cell(inverse: Inverse, cell: Option<u64>) -> Option<u64>
    ensures { result ≡ cell_back inverse cell }
{
    match inverse {
        Inverse::Keep => cell,
        Inverse::Subtract(_, value) => less_cell(cell, value),
        Inverse::Restore(_, former) => former,
    }
}
