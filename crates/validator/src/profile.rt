//! The profiles of a block's positions, and what a position's call may ask for.

ghost use Rattle.std.specs.Prelude.{◌≡◌, IfOk};
ghost use Rattle.spec_block.specs.Worlds.{profiles_in};

use abstract_locks::join_to;
use block::Position;
use lock_profile::Profile;
use spec_ledger::{NoMemory, Op};
use std::alloc::Allocator;
use storage::{lock, mode};

/// The profiles of all positions once more.
pub(crate) fn profiles_of<A: Allocator + Copy>(
    alloc: A,
    positions: &[Position<A>],
) -> Result<Vec<Profile<A>, A>, NoMemory>
    ensures { IfOk result (λ copy. copy.items ≡ profiles_in positions.now) }
{
    let mut copy = Vec::new(alloc);
    for position in positions {
        copy.push(position.profile().copy(alloc)?)?;
    }
    Ok(copy)
}

/// Whether an operation is within a profile: the profile has its lock, in a mode that the operation's joins to itself.
pub(crate) fn allows<A: Allocator>(profile: &Profile<A>, op: Op) -> bool {
    let wanted = lock(op);
    let entries = profile.entries();
    match entries.binary_search_by(|entry| entry.lock.cmp(&wanted)) {
        Ok(at) => join_to(mode(op), Some(entries[at].mode)) == entries[at].mode,
        Err(_) => false,
    }
}
