//! What threads that run calls ahead of their turn are told of what other calls left meanwhile, how far ahead they run, and when either pays. All of it is policy: a
//! call may be run over any cells, since in its turn it is run again where it found others than there are. So no clause says what is told, nor how new it is.
#![tactic(auto)]

mod known;
mod reader;
mod tally;

use crate::known::Known;
pub use crate::reader::View;
pub use crate::tally::{NO_BATCHES, Tally};
use lock_profile::Touched;
use spec_ledger::{Mode, NoMemory};
use std::alloc::{Allocator, Global};
use std::sync::atomic::{AtomicBool, AtomicU64, Ordering};
use std::thread::yield_now;
use storage::Cells;

/// How many batches of each thread those that are run ahead may be before the one that is done next: the one that it runs, and one that waits. (Simulated with four free processors, 30,000 transfers among
/// 10,000 accounts: 2.0 times serial with one, 2.9 with two; with more nothing is gained, and with 3,000 accounts calls are run twice that much more often.)
const AHEAD: u64 = 2;

/// How often a thread that is so far ahead looks whether another batch was done, before it runs one all the same: it may be the only thread there is. These are some 4 ms, as long as 30
/// batches of short calls; with 300, threads run away from 1,000 accounts.
const LOOKS: u32 = 10_000;

/// How many calls that were done before are told where threads are told from then on. What an older one changed costs one run more where it is asked for.
const BEFORE: usize = 1_024;

/// How many cells are known that the calls of one batch left: four of each of 32 calls.
const OWN: usize = 128;

/// What threads are told of what calls left, and what each knows beside that.
#[derive(Drop)]
pub struct News<A: Allocator = Global> {
    /// The cells that the calls left.
    left: Known<A>,
    /// For each thread, what the calls of its batch left.
    own: Vec<Known<A>, A>,
    /// Whether threads are told.
    is_told: AtomicBool,
    /// Which batch of calls is done next.
    next: AtomicU64,
    /// How many batches those that are run ahead may be before that one.
    ahead: u64,
    /// How many calls there are.
    calls: u64,
}

impl<A: Allocator + Copy> News<A> {
    /// For so many calls and threads. Nothing is told.
    ///
    /// # Errors
    ///
    /// Memory was refused.
    pub fn open(alloc: A, calls: usize, threads: u32) -> Result<Self, NoMemory> {
        let mut own = Vec::new(alloc);
        for _thread in 0..threads {
            own.push(Known::open(alloc, OWN)?)?;
        }
        Ok(News {
            left: Known::open(alloc, calls)?,
            own,
            is_told: AtomicBool::new(false),
            next: AtomicU64::new(0),
            ahead: u64::from(threads).saturating_mul(AHEAD),
            calls: calls as u64,
        })
    }

    /// Whether threads are told.
    pub fn is_told(&self) -> bool {
        self.is_told.load(Ordering::SeqCst)
    }

    /// From now on threads are told, or no longer.
    pub(crate) fn turn(&self, on: bool) {
        self.is_told.store(on, Ordering::SeqCst);
    }

    /// The batch of this number is done next.
    pub fn go_to(&self, batch: usize) {
        self.next.store(batch as u64, Ordering::SeqCst);
    }

    /// How many batches were drawn beside those that were done.
    pub(crate) fn waiting(&self, drawn: &AtomicU64) -> u64 {
        let next = self.next.load(Ordering::SeqCst);
        drawn.load(Ordering::SeqCst).saturating_sub(next)
    }

    /// Whether the batch that is drawn next may be run ahead.
    pub fn is_near(&self, drawn: &AtomicU64) -> bool {
        if !self.is_told() {
            return true;
        }
        self.waiting(drawn) < self.ahead || drawn.load(Ordering::SeqCst) >= self.calls
    }

    /// Waits a little while where the batch that is drawn next is far ahead.
    pub fn wait(&self, drawn: &AtomicU64) {
        for _look in 0..LOOKS {
            if self.is_near(drawn) {
                return;
            }
            yield_now();
        }
    }

    /// The thread of this number begins another batch: what the calls of its last one left is forgotten.
    pub fn begin_batch(&self, thread: usize) {
        if let Some(own) = self.own.get(thread) {
            own.clear();
        }
    }

    /// The position from which on calls are told where threads are told from now on, and so many are done.
    pub fn first_told(&self, done: usize) -> usize {
        done.saturating_sub(BEFORE)
    }

    /// The cells as the thread of this number knows them, over those before the first call.
    pub fn view<'s>(&'s self, thread: usize, base: &'s Cells<A>) -> View<'s, A> {
        View {
            own: self.own.get(thread),
            left: self.is_told().then_some(&self.left),
            base,
        }
    }

    /// Where threads are told, tells what the calls changed that were done from a position on; the cells are those after them. (What a call changes that is run ahead, its thread tells.)
    pub fn tell(&self, touched: &[Touched<A>], from: usize, cells: &Cells<A>) {
        if !self.is_told() {
            return;
        }
        for position in from..touched.len() {
            for held in touched[position].lock_modes() {
                if !matches!(held.mode, Mode::Read) {
                    self.left.set(held.lock, cells.get(held.lock));
                }
            }
        }
    }
}
