//! When it pays to run calls ahead, and to tell what was done.

use crate::News;
use std::alloc::Allocator;
use std::sync::atomic::AtomicU64;

/// Of how many batches each is reckoned.
const BATCHES: u32 = 16;

/// Telling is tried where more than one of so many calls is run again: what is told of 16 calls costs less than a run.
const SELDOM: u64 = 16;

/// How often telling is tried. (At first little has changed, so that it may seem to bring nothing.)
const TRIES: u32 = 3;

/// How the last batches went.
#[derive(Clone, Copy, Debug, PartialEq, Eq)]
pub struct Tally {
    batches: u32,
    calls: u64,
    /// How many of the calls were done as they were run ahead.
    ahead: u64,
    /// How many of the next batches do not count, since they were run before threads were told.
    old: u64,
    /// How many calls were run again before.
    again_before: u64,
    /// How often telling was tried.
    tries: u32,
    /// Whether at least half of the calls of the last batch were done as they were run ahead.
    pays: bool,
}

/// A tally of no batches.
pub const NO_BATCHES: Tally = Tally {
    batches: 0,
    calls: 0,
    ahead: 0,
    old: 0,
    again_before: 0,
    tries: 0,
    pays: false,
};

impl Tally {
    /// Notes a batch of so many calls, so many of which were done as they were run ahead. Answers whether running calls ahead brings nothing: of the last batches 9 of 10 calls had to be run again. Where it
    /// brings less than it could, threads are told what was done, and no longer where that makes less than a quarter of it good.
    pub fn note<A: Allocator + Copy>(
        &mut self,
        news: &News<A>,
        drawn: &AtomicU64,
        calls: u64,
        ahead: u64,
    ) -> bool {
        self.pays = ahead.saturating_mul(2) >= calls;
        if self.old > 0 {
            self.old -= 1;
            return false;
        }
        self.batches = self.batches.saturating_add(1);
        self.calls = self.calls.saturating_add(calls);
        self.ahead = self.ahead.saturating_add(ahead);
        if self.batches < BATCHES {
            return false;
        }
        let again = self.calls.saturating_sub(self.ahead);
        let is_vain = self.ahead.saturating_mul(10) <= self.calls;
        let is_often = again.saturating_mul(SELDOM) > self.calls;
        self.batches = 0;
        self.calls = 0;
        self.ahead = 0;
        if is_vain {
            news.turn(false);
        } else if news.is_told() {
            self.judge(news, again);
        } else if is_often && self.tries < TRIES {
            self.begin(news, drawn, again);
        }
        is_vain
    }

    /// Whether it pays that the thread that does the calls runs some ahead, too. It is not sure of it before the first batch: in a list of 60 calls on few cells what it runs in vain is 7 of 100.
    pub fn pays(&self) -> bool {
        self.pays
    }

    /// The next batch did not come: it may pay again. (Where two threads run the same batches side by side, none would ever come.)
    pub fn try_again(&mut self) {
        self.pays = true;
    }

    /// Threads are told from now on, where so many calls were run again.
    fn begin<A: Allocator + Copy>(&mut self, news: &News<A>, drawn: &AtomicU64, again: u64) {
        self.old = news.waiting(drawn);
        self.again_before = again;
        self.tries = self.tries.saturating_add(1);
        news.turn(true);
    }

    /// Threads are told no longer where nearly as many calls are run again as before; else for good.
    fn judge<A: Allocator + Copy>(&mut self, news: &News<A>, again: u64) {
        if again.saturating_mul(4) > self.again_before.saturating_mul(3) {
            news.turn(false);
        } else {
            self.again_before = u64::MAX;
        }
    }
}
