// How shards are opened, and what is left of them.
ghost use Rattle.std.specs.Prelude.{◌≡◌, ◌<◌, ◌≤◌, IfOk, vec_len};
ghost use Rattle.std.specs.FinMap as finite;

use sharding::{Part, Shard, home};
use std::alloc::Allocator;
use std::sync::Mutex;
use storage::{Cells, NoMemory};

/// A shard behind its lock, and room behind both, so that the next shard's lock stands on another cache line than what changes in this one.
#[derive(Drop)]
pub(crate) struct Padded<A: Allocator> {
    pub(crate) shard: Mutex<Shard<A>>,
    _room: [u64; 8],
}

/// The cells of a shard's own locks.
fn own_cells<A: Allocator + Copy>(
    alloc: A,
    opening: &Cells<A>,
    shard: u32,
    shards: u32,
) -> Result<Cells<A>, NoMemory>
    requires { 0 < shards }
{
    opening.use_invariant();
    let mut own = Cells::new(alloc);
    for (lock, value) in opening.entries() {
        if home(lock, shards) != shard {
            continue;
        }
        own.insert(lock, value)?;
    }
    Ok(own)
}

/// The shards of a book over these cells, each opened with the cells of its own locks, behind a lock each.
pub(crate) fn open_all<A: Allocator + Copy>(
    alloc: A,
    opening: &Cells<A>,
    calls: u32,
    shards: u32,
) -> Result<Vec<Padded<A>, A>, NoMemory>
    requires { 0 < shards }
    ensures { IfOk result (λ all. vec_len all ≡ shards) }
{
    let mut all = Vec::new(alloc);
    for shard in 0..shards {
        let own = own_cells(alloc, opening, shard, shards)?;
        let opened = Shard::open(alloc, own, calls)?;
        let padded = Padded {
            shard: Mutex::new(opened),
            _room: [0; 8],
        };
        if all.push(padded).is_err() {
            return Err(NoMemory);
        }
    }
    Ok(all)
}

/// What is left of shards, the first of the first.
pub(crate) fn parts_of<A: Allocator + Copy>(
    alloc: A,
    mut shards: Vec<Padded<A>, A>,
) -> Result<Vec<Part<A>, A>, NoMemory>
    ensures { IfOk result (λ parts. vec_len parts ≡ vec_len shards) }
{
    let mut parts = Vec::new(alloc);
    let count = shards.len();
    for _done in 0..count {
        let Padded { shard, _room: _ } = shards.remove(0);
        if parts.push(shard.into_inner().close()).is_err() {
            return Err(NoMemory);
        }
    }
    Ok(parts)
}
