//! The pace that counts the calls that begin, and says so.

use crate::line::{WIPE, begun_text, due_after, earlier_text, is_much, millis_of};
use pace::{Pace, Step};
use std::alloc::{AllocError, Global};
use std::io::Print;
use std::sync::atomic::{AtomicBool, AtomicU64, Ordering};
use std::time::Clock;

/// Counts the calls that begin, and says on a stream how many, where it speaks: at most one line in 250 milliseconds of the clock, and none in the
/// first. Where calls run alone ahead of one that is debugged and may use more than 1,000,000,000 units of fuel, that is said at once. Nothing is said
/// where the clock or memory fails.
#[derive(Drop)]
pub struct Progress<'a, C, E> {
    alloc: Global,
    clock: &'a C,
    stream: &'a E,
    speaks: bool,
    /// How many calls have begun.
    begun: AtomicU64,
    /// The millisecond from which on a line may be said.
    due: AtomicU64,
    /// Whether a line stands on the stream.
    stands: AtomicBool,
}

impl<'a, C: Clock, E: Print> Progress<'a, C, E> {
    /// No call has begun.
    pub fn new(alloc: Global, clock: &'a C, stream: &'a E, speaks: bool) -> Progress<'a, C, E> {
        let due = match clock.monotonic() {
            Ok(time) => due_after(millis_of(time)),
            Err(_) => u64::MAX,
        };
        Progress {
            alloc,
            clock,
            stream,
            speaks,
            begun: AtomicU64::new(0),
            due: AtomicU64::new(due),
            stands: AtomicBool::new(false),
        }
    }

    /// Says a line, where there was memory for it.
    fn say(&self, line: Result<String, AllocError>) {
        if let Ok(text) = line {
            self.stands.store(true, Ordering::SeqCst);
            let _ = self.stream.write_all(text.as_bytes());
        }
    }

    /// Counts a call that begins. Of the threads that come when a line is due, one says it.
    fn count(&self) {
        let before = self.begun.fetch_add(1, Ordering::SeqCst);
        let Ok(time) = self.clock.monotonic() else {
            return;
        };
        let now = millis_of(time);
        let due = self.due.load(Ordering::SeqCst);
        if now < due {
            return;
        }
        let next = due_after(now);
        let turn = self
            .due
            .compare_exchange(due, next, Ordering::SeqCst, Ordering::SeqCst);
        if turn.is_ok() {
            self.say(begun_text(self.alloc, before.saturating_add(1)));
        }
    }

    /// Takes the line away, where one stands.
    pub fn wipe(&self) {
        if self.stands.swap(false, Ordering::SeqCst) {
            let _ = self.stream.write_all(WIPE);
        }
    }
}

impl<C: Clock + Sync, E: Print + Sync> Pace for Progress<'_, C, E> {
    ghost use Rattle.std.specs.Prelude.{false};

    ghost watching = { λ _. false };

    fn watches(&self) -> bool {
        false
    }

    fn at(&self, step: Step) {
        if matches!(step, Step::Attempt { nth: 0, .. }) && self.speaks {
            self.count();
        }
    }

    fn runs_alone(&self, fuel: u64) {
        if is_much(fuel) && self.speaks {
            self.say(earlier_text(self.alloc, fuel));
        }
    }
}
