//! The steps of a call's way through the threads, told to whoever wants to know them or to hold a thread at one of them: also how many threads pay, and
//! brief locks.
#![tactic(auto)]

mod policy;
mod spin_lock;

ghost use Rattle.std.specs.Prelude.{◌≡◌, Bool, true, false};

pub use crate::policy::{digesters, threads};
pub use crate::spin_lock::acquire;

/// A step of a call. Calls are named by their number; tries and operations count from 0.
#[derive(Clone, Copy, Debug, PartialEq, Eq)]
pub enum Step {
    /// An attempt of the call is about to begin.
    Attempt {
        /// The call.
        call: u32,
        /// Which try of the call it is.
        nth: u32,
    },
    /// The attempt is about to ask for a storage operation.
    Op {
        /// The call.
        call: u32,
        /// Which operation of the attempt it is.
        n: u64,
    },
    /// The attempt is about to be committed.
    Commit {
        /// The call.
        call: u32,
    },
    /// An operation of the attempt was refused, and the attempt is about to be undone.
    Refused {
        /// The call.
        call: u32,
    },
    /// The attempt was committed.
    Committed {
        /// The call.
        call: u32,
    },
}

/// Is told steps by the thread that makes them, outside every lock. The thread goes on when `at` returns, unless it is to stop.
///
/// Which steps of a call are told depends on who runs it:
///
/// - Where the pace watches, the miner's workers over one book tell every step.
/// - Where the pace watches, the validator's workers that wait for a position's turn tell its attempt, as try 0, and each operation.
/// - Else the threads that run the calls of an order ahead of their turn tell the attempt alone, as try 0, and so does the thread that runs those calls in their
///   turn that nobody ran ahead. A call that is run again tells nothing.
/// - A debugger tells by `runs_alone` that calls of a block are about to run, and then nothing of them.
pub trait Pace: Sync {
    /// Whether it watches.
    ghost watching: { Self → Bool } = { λ _. true };

    /// Whether it watches the workers. A list under a pace that watches is mined over the book in shards, and a block is validated by the board, the lanes and
    /// the cells ahead, as the papers describe it, at any length and whether that pays or not. Under any other pace calls are run in the fastest way.
    fn watches(&self) -> bool
        ensures { result ≡ watching self.now };

    /// The calling thread is at this step.
    fn at(&self, step: Step);

    /// Whether the calling thread stops here. Asked after `at`, with the same step.
    fn stops(&self, _step: Step) -> bool {
        false
    }

    /// Calls of a block are about to be run by the calling thread alone, one after another, for at most so many units of fuel together: a debugger wants
    /// the cells that they leave. They run when this returns.
    fn runs_alone(&self, _fuel: u64) {}
}

/// Tells the pace a step, and answers whether the calling thread stops there.
pub fn must_stop_at<P: Pace>(pace: &P, step: Step) -> bool {
    pace.at(step);
    pace.stops(step)
}

/// Holds no thread.
#[derive(Clone, Copy, Debug)]
pub struct NoPace;

impl Pace for NoPace {
    ghost watching = { λ _. false };

    fn watches(&self) -> bool {
        false
    }

    fn at(&self, _step: Step) {}
}

/// Tells another pace what it is told, and watches or not as it is said here, whatever that one does.
#[derive(Clone, Copy, Debug)]
pub struct Watched<'a, P> {
    /// The pace that is told.
    pub pace: &'a P,
    /// Whether it watches.
    pub watches: bool,
}

impl<P: Pace> Pace for Watched<'_, P> {
    ghost watching = { λ w. w.watches };

    fn watches(&self) -> bool {
        self.watches
    }

    fn at(&self, step: Step) {
        self.pace.at(step);
    }

    fn stops(&self, step: Step) -> bool {
        self.pace.stops(step)
    }

    fn runs_alone(&self, fuel: u64) {
        self.pace.runs_alone(fuel);
    }
}
