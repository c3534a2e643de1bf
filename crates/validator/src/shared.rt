// What the workers share beside the job.

use lanes::Lane;
use pace::acquire;
use schedule::{Board, EndRefusal};
use spec_ledger::NoMemory;
use std::alloc::Allocator;
use std::sync::atomic::{AtomicBool, AtomicU64, Ordering};
use std::sync::{Mutex, Wait};
use storage::Ahead;

/// The board, the cells, and when to leave. The two locks are never held at once. No fact rests on the last two.
#[derive(Drop)]
pub(crate) struct Shared<A: Allocator> {
    pub(crate) board: Mutex<Board<A>>,
    pub(crate) ahead: Mutex<Ahead<A>>,
    /// How many positions have not ended.
    pub(crate) rest: AtomicU64,
    /// Whether a worker gave up: it met out of memory, or the board refused to end a position.
    pub(crate) given_up: AtomicBool,
}

impl<A: Allocator + Copy> Shared<A> {
    /// Whether there is nothing left to do: every position has ended, or some worker gave up.
    pub(crate) fn is_over(&self) -> bool {
        self.rest.load(Ordering::SeqCst) == 0 || self.given_up.load(Ordering::SeqCst)
    }

    /// Ends a position on the board, and gives those that may start now. Where the board refuses, the workers leave the further positions to the caller: what the
    /// position kept waiting would not come.
    fn end(&self, rt: &impl Wait, alloc: A, position: u32) -> Result<Vec<u32, A>, NoMemory> {
        let mut board = acquire(rt, &self.board);
        match board.end(position) {
            Ok(freed) => {
                self.rest.fetch_sub(1, Ordering::SeqCst);
                Ok(freed)
            }
            Err(EndRefusal::NoMemory) => Err(NoMemory),
            Err(_) => {
                self.given_up.store(true, Ordering::SeqCst);
                Ok(Vec::new(alloc))
            }
        }
    }

    /// Puts positions that may start into a lane. One that the lane refuses is ended without a run, and what that frees is put there too.
    pub(crate) fn put(
        &self,
        rt: &impl Wait,
        alloc: A,
        lane: &mut Lane<A>,
        positions: &[u32],
    ) -> Result<(), NoMemory> {
        let mut refused = Vec::new(alloc);
        put_each(lane, positions, &mut refused)?;
        for _ in rt.forever() {
            let Some(position) = refused.pop() else {
                break;
            };
            let freed = self.end(rt, alloc, position)?;
            put_each(lane, &freed, &mut refused)?;
        }
        Ok(())
    }

    /// Ends a position, and puts those that may start now into a lane.
    pub(crate) fn pass_on(
        &self,
        rt: &impl Wait,
        alloc: A,
        lane: &mut Lane<A>,
        position: u32,
    ) -> Result<(), NoMemory> {
        let freed = self.end(rt, alloc, position)?;
        self.put(rt, alloc, lane, &freed)
    }
}

/// Puts positions into a lane, and gathers those that it refuses.
fn put_each<A: Allocator + Copy>(
    lane: &mut Lane<A>,
    positions: &[u32],
    refused: &mut Vec<u32, A>,
) -> Result<(), NoMemory> {
    for position in positions {
        if let Err(back) = lane.push(*position) {
            refused.push(back)?;
        }
    }
    Ok(())
}
