//! Entries of lock profiles: the contract's number, the cell's kind, the key, the mode and the turn, 18 bytes.

ghost use Rattle.std.specs.Prelude.{◌≡◌, ◌≢◌, ◌++◌, ℕ, List, IfOk, OnOk, take, length, Err};
ghost use Rattle.std.specs.Ordering.{is_lt};
ghost use Rattle.spec_ledger.specs.Cells.{lock_cmp};
ghost use Rattle.spec_ledger.specs.declared.Entry.{Entry};
ghost use Rattle.spec_block.specs.Bytes.{entry_bytes, kind_code, mode_code};
ghost use Rattle.records.specs.declared.fault.Fault.TheVariants.{NoMemory};
ghost use Rattle.records.specs.Reading.{Gives, IsRead};
ghost use Rattle.records.specs.Profiles.{kind_of, kind_at, mode_of, mode_at, is_after, lock_at, entry_at, IsEntryAfter};

use crate::{Fault, append_u32, append_u64, read_byte, read_u32, read_u64};
use spec_ledger::{Entry, Kind, Lock, Mode};
use std::alloc::{AllocError, Allocator};
use std::cmp::Ordering;

fn kind_named(code: u8) -> Option<Kind>
    ensures { result ≡ kind_of code }
{
    match code {
        0 => Some(Kind::Map),
        1 => Some(Kind::Counter),
        _ => None,
    }
}

#[tactic(auto, unfolding(crate::specs::Profiles::kind_at))]
fn kind_at_front(bytes: &[u8]) -> Result<(Kind, &[u8]), Fault>
    ensures read { Gives (λ x. (x.0, x.1.now)) result (kind_at bytes.now) }
    ensures memory { result ≢ Err NoMemory }
{
    let (code, rest) = read_byte(bytes)?;
    match kind_named(code) {
        Some(kind) => Ok((kind, rest)),
        None => Err(Fault::Malformed(bytes.len())),
    }
}

fn mode_named(code: u8) -> Option<Mode>
    ensures { result ≡ mode_of code }
{
    match code {
        0 => Some(Mode::Read),
        1 => Some(Mode::Add),
        2 => Some(Mode::Excl),
        _ => None,
    }
}

#[tactic(auto, unfolding(crate::specs::Profiles::mode_at))]
fn mode_at_front(bytes: &[u8]) -> Result<(Mode, &[u8]), Fault>
    ensures read { Gives (λ x. (x.0, x.1.now)) result (mode_at bytes.now) }
    ensures memory { result ≢ Err NoMemory }
{
    let (code, rest) = read_byte(bytes)?;
    match mode_named(code) {
        Some(mode) => Ok((mode, rest)),
        None => Err(Fault::Malformed(bytes.len())),
    }
}

fn is_below(a: Lock, b: Lock) -> bool
    ensures { result ≡ is_lt (lock_cmp a b) }
{
    matches!(a.cmp(&b), Ordering::Less)
}

fn comes_after(before: Option<Entry>, lock: Lock) -> bool
    ensures { result ≡ is_after before lock }
{
    match before {
        None => true,
        Some(before) => is_below(before.lock, lock),
    }
}

#[tactic(auto, unfolding(crate::specs::Profiles::lock_at))]
fn lock_of(before: Option<Entry>, bytes: &[u8]) -> Result<(Lock, &[u8]), Fault>
    ensures read { Gives (λ x. (x.0, x.1.now)) result (lock_at before bytes.now) }
    ensures memory { result ≢ Err NoMemory }
{
    let (contract, rest) = read_u32(bytes)?;
    let (kind, rest) = kind_at_front(rest)?;
    let (key, rest) = read_u64(rest)?;
    let lock = Lock {
        contract,
        kind,
        key,
    };
    if comes_after(before, lock) {
        return Ok((lock, rest));
    }
    Err(Fault::Malformed(bytes.len()))
}

#[tactic(auto, unfolding(crate::specs::Profiles::entry_at))]
fn entry_of(before: Option<Entry>, bytes: &[u8]) -> Result<(Entry, &[u8]), Fault>
    ensures read { Gives (λ x. (x.0, x.1.now)) result (entry_at before bytes.now) }
    ensures memory { result ≢ Err NoMemory }
{
    let (lock, rest) = lock_of(before, bytes)?;
    let (mode, rest) = mode_at_front(rest)?;
    let (turn, rest) = read_u32(rest)?;
    Ok((Entry { lock, mode, turn }, rest))
}

/// Reads the entry that follows another one, or none, and gives the bytes after it. It is refused exactly where no entry with a lock above
/// the other's stands in front, and the first fault is answered. A lock is one field: where it is not above the other's, its first byte is
/// at fault.
pub fn read_entry(before: Option<Entry>, bytes: &[u8]) -> Result<(Entry, &[u8]), Fault>
    ensures spelled { IfOk result (λ x. IsEntryAfter before x.0 × (bytes.now ≡ entry_bytes x.0 ++ x.1.now)) }
    ensures only { (entry : Entry) (rest : List ℕ) → IsEntryAfter before entry → bytes.now ≡ entry_bytes entry ++ rest → IsRead (λ x. (x.0, x.1.now)) result entry rest }
    ensures first { Gives (λ x. (x.0, x.1.now)) result (entry_at before bytes.now) }
    ensures memory { result ≢ Err NoMemory }
{
    entry_of(before, bytes)
}

fn kind_byte(kind: Kind) -> u8
    ensures { result ≡ kind_code kind }
{
    kind as u8
}

fn mode_byte(mode: Mode) -> u8
    ensures { result ≡ mode_code mode }
{
    mode as u8
}

/// Appends an entry. Where memory is refused, what was there still stands in front.
pub fn append_entry<A: Allocator>(out: &mut Vec<u8, A>, entry: Entry) -> Result<(), AllocError>
    ensures bytes { OnOk result (out.new.items ≡ out.old.items ++ entry_bytes entry) }
    ensures front { take (length out.old.items) out.new.items ≡ out.old.items }
{
    append_u32(out, entry.lock.contract)?;
    out.push(kind_byte(entry.lock.kind))?;
    append_u64(out, entry.lock.key)?;
    out.push(mode_byte(entry.mode))?;
    append_u32(out, entry.turn)
}
