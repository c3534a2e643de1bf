//! Lock profiles: a count and the entries, whose locks strictly rise.

ghost use Rattle.std.specs.Prelude.{◌≡◌, ◌++◌, ◌<◌, ◌^◌, ℕ, List, None, IfOk, OnOk, length, take};
ghost use Rattle.std.specs.List.{AllByRecursion};
ghost use Rattle.spec_ledger.specs.declared.Entry.{Entry};
ghost use Rattle.lock_profile.specs.Turns.{IsProfile};
ghost use Rattle.spec_block.specs.Bytes.{IsEntry};
ghost use Rattle.records.specs.Reading.{Gives, IsRead, items_at};
ghost use Rattle.records.specs.Profiles.{entry_at, profile_at, profile_bytes, IsBlockProfile};

use crate::entry::{append_entry, read_entry};
use crate::{Fault, append_u32, read_u32};
use lock_profile::Profile;
use spec_ledger::Entry;
use std::alloc::{AllocError, Allocator};

fn entries_of<A: Allocator>(
    alloc: A,
    count: u32,
    bytes: &[u8],
) -> Result<(Vec<Entry, A>, &[u8]), Fault>
    ensures { Gives (λ x. (x.0.items, x.1.now)) result (items_at entry_at count None bytes.now) }
{
    let mut entries = Vec::new(alloc);
    let mut before = None;
    let mut rest = bytes;
    for _ in 0..count {
        let (entry, after) = read_entry(before, rest)?;
        entries.push(entry)?;
        before = Some(entry);
        rest = after;
    }
    Ok((entries, rest))
}

#[tactic(auto, unfolding(crate::specs::Profiles::profile_at))]
fn list_of<A: Allocator>(alloc: A, bytes: &[u8]) -> Result<(Vec<Entry, A>, &[u8]), Fault>
    ensures { Gives (λ x. (x.0.items, x.1.now)) result (profile_at bytes.now) }
{
    let (count, rest) = read_u32(bytes)?;
    if (rest.len() as u64) < 18 * count as u64 {
        return Err(Fault::Malformed(bytes.len()));
    }
    entries_of(alloc, count, rest)
}

/// The same, with what is known of the entries that were read.
fn rising_list_of<A: Allocator>(alloc: A, bytes: &[u8]) -> Result<(Vec<Entry, A>, &[u8]), Fault>
    ensures spelled { IfOk result (λ x. IsBlockProfile x.0.items × (bytes.now ≡ profile_bytes x.0.items ++ x.1.now)) }
    ensures rising { IfOk result (λ x. IsProfile x.0.items) }
    ensures only { (profile : List Entry) (rest : List ℕ) → IsBlockProfile profile → bytes.now ≡ profile_bytes profile ++ rest → IsRead (λ x. (x.0.items, x.1.now)) result profile rest }
    ensures first { Gives (λ x. (x.0.items, x.1.now)) result (profile_at bytes.now) }
{
    lock_profile::neighbours_decide();
    list_of(alloc, bytes)
}

/// Reads a lock profile, and gives the bytes after it. It is refused exactly where no profile stands in front, memory aside, and the first
/// fault is answered: a count whose entries exceed what is left is at fault itself.
pub fn read_profile<A: Allocator>(alloc: A, bytes: &[u8]) -> Result<(Profile<A>, &[u8]), Fault>
    ensures spelled { IfOk result (λ x. IsBlockProfile x.0 × (bytes.now ≡ profile_bytes x.0 ++ x.1.now)) }
    ensures only { (profile : List Entry) (rest : List ℕ) → IsBlockProfile profile → bytes.now ≡ profile_bytes profile ++ rest → IsRead (λ x. (x.0, x.1.now)) result profile rest }
    ensures first { Gives (λ x. (x.0, x.1.now)) result (profile_at bytes.now) }
{
    let (entries, rest) = rising_list_of(alloc, bytes)?;
    match Profile::from_sorted(entries) {
        Some(profile) => Ok((profile, rest)),
        None => unreachable!(),
    }
}

/// An entry is of its types.
fn note_entry(entry: Entry)
    ensures { IsEntry entry }
{
    let _contract = entry.lock.contract;
    let _key = entry.lock.key;
    let _turn = entry.turn;
}

/// Entries are of their types.
pub(crate) fn note_entries(entries: &[Entry])
    ensures { AllByRecursion IsEntry entries.now }
{
    for entry in entries {
        note_entry(*entry);
    }
}

/// Appends a lock profile. Where memory is refused, what was there still stands in front.
pub fn append_profile<A: Allocator>(
    out: &mut Vec<u8, A>,
    profile: &Profile<A>,
) -> Result<(), AllocError>
    requires { length profile.now < 2 ^ 32 }
    ensures bytes { OnOk result (out.new.items ≡ out.old.items ++ profile_bytes profile.now) }
    ensures front { take (length out.old.items) out.new.items ≡ out.old.items }
{
    let entries = profile.entries();
    append_u32(out, entries.len() as u32)?;
    for entry in entries {
        append_entry(out, *entry)?;
    }
    Ok(())
}
