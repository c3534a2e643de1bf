// How threads are held so that their calls meet.
use pace::{Pace, Step};
use std::sync::atomic::{AtomicBool, AtomicU64, Ordering};
use std::thread;

/// How often a held thread looks, where what it waits for comes.
pub(crate) const LOOKS: u32 = 20_000_000;

/// How often a thread looks that may be held in vain, since the other one was refused memory.
pub(crate) const FEW_LOOKS: u32 = 5_000;

/// Waits until so many were told, but looks at most so often, and says whether they were.
pub(crate) fn hold(told: &AtomicU64, count: u64, looks: u32) -> bool {
    for _ in 0..looks {
        if told.load(Ordering::SeqCst) >= count {
            return true;
        }
        thread::yield_now();
    }
    false
}

/// How calls are made to meet.
#[derive(Clone, Copy)]
pub(crate) enum Meeting {
    /// Each call is held at its commit until two were told of theirs.
    BothActed,
    /// Call 0 is held at its second operation until call 1 has acted, call 1 at its commit until call 0 was refused, and the second
    /// try of call 0 until call 1 was committed.
    RefusedOnce,
    /// Both are held at their second operations until both are there, and after a refusal until both were refused.
    BothRefused,
    /// Call 1 is held at its first operation until call 0 has acted, and call 0 at its commit until call 1 was committed.
    OvertakenAdder,
    /// Call 0 is held before its second operation until a first try of call 1 was refused and undone, and that try is held until
    /// call 0 is there. What the worker of call 1 tries next is held until call 0 was committed.
    Clash,
    /// Each first try is held until four were told of theirs.
    FourTries,
    /// Each first operation is held until two were told of theirs.
    BothAsk,
    /// The first try of call 1 is held until call 2 was told of its own.
    PastAnother,
    /// Call 1 is held at its first operation until call 0 has done its own and is there at the second, which is held until call 1 has
    /// acted; and call 1 at its commit until call 0 has acted.
    AddedMeanwhile,
}

/// What is counted of the threads.
#[derive(Clone, Copy)]
enum Told {
    Tried,
    Acted,
    Refused,
    Committed,
}

/// What a thread tells first at a step, and how many of what it is then held for.
type Held = (Option<Told>, Option<(Told, u64)>);

const GOES_ON: Held = (None, None);

/// What a thread of a meeting does at a step.
fn held(meeting: Meeting, step: Step) -> Held {
    match meeting {
        Meeting::BothActed => match step {
            Step::Commit { .. } => (Some(Told::Acted), Some((Told::Acted, 2))),
            _ => GOES_ON,
        },
        Meeting::RefusedOnce => match step {
            Step::Op { call: 0, n: 1 } => (None, Some((Told::Acted, 1))),
            Step::Commit { call: 1 } => (Some(Told::Acted), Some((Told::Refused, 1))),
            Step::Refused { .. } => (Some(Told::Refused), None),
            Step::Attempt { call: 0, nth: 1 } => (None, Some((Told::Committed, 1))),
            Step::Committed { .. } => (Some(Told::Committed), None),
            _ => GOES_ON,
        },
        Meeting::BothRefused => match step {
            Step::Op { n: 1, .. } => (Some(Told::Acted), Some((Told::Acted, 2))),
            Step::Refused { .. } => (Some(Told::Refused), Some((Told::Refused, 2))),
            _ => GOES_ON,
        },
        Meeting::OvertakenAdder => match step {
            Step::Op { call: 1, .. } => (None, Some((Told::Acted, 1))),
            Step::Commit { call: 0 } => (Some(Told::Acted), Some((Told::Committed, 1))),
            Step::Committed { .. } => (Some(Told::Committed), None),
            _ => GOES_ON,
        },
        Meeting::Clash => match step {
            Step::Op { call: 0, n: 1 } => (Some(Told::Acted), Some((Told::Tried, 1))),
            Step::Attempt { call: 1, nth: 0 } => (None, Some((Told::Acted, 1))),
            Step::Attempt { call: 1 | 2, .. } => (Some(Told::Tried), Some((Told::Committed, 1))),
            Step::Refused { call: 1 } => (Some(Told::Refused), None),
            Step::Committed { call: 0 } => (Some(Told::Committed), None),
            _ => GOES_ON,
        },
        Meeting::FourTries => match step {
            Step::Attempt { nth: 0, .. } => (Some(Told::Tried), Some((Told::Tried, 4))),
            _ => GOES_ON,
        },
        Meeting::BothAsk => match step {
            Step::Attempt { nth: 0, .. } => (Some(Told::Tried), None),
            Step::Op { n: 0, .. } => (Some(Told::Acted), Some((Told::Acted, 2))),
            _ => GOES_ON,
        },
        Meeting::AddedMeanwhile => match step {
            Step::Op { call: 0, n: 1 } => (Some(Told::Tried), Some((Told::Acted, 1))),
            Step::Op { call: 1, n: 0 } => (None, Some((Told::Tried, 1))),
            Step::Commit { call: 1 } => (Some(Told::Acted), Some((Told::Acted, 2))),
            Step::Commit { call: 0 } => (Some(Told::Acted), None),
            _ => GOES_ON,
        },
        Meeting::PastAnother => match step {
            Step::Attempt { call: 1, .. } => (None, Some((Told::Tried, 1))),
            Step::Attempt { call: 2, .. } => (Some(Told::Tried), None),
            _ => GOES_ON,
        },
    }
}

/// Holds threads so that calls meet.
#[derive(Drop)]
pub(crate) struct Meet {
    /// None: no thread is held.
    meeting: Option<Meeting>,
    looks: u32,
    tried: AtomicU64,
    acted: AtomicU64,
    refused: AtomicU64,
    committed: AtomicU64,
    failed: AtomicBool,
}

impl Meet {
    /// Holds threads for this meeting. A held thread looks at most so often, and then goes on.
    pub(crate) fn new(meeting: Option<Meeting>, looks: u32) -> Meet {
        Meet {
            meeting,
            looks,
            tried: AtomicU64::new(0),
            acted: AtomicU64::new(0),
            refused: AtomicU64::new(0),
            committed: AtomicU64::new(0),
            failed: AtomicBool::new(false),
        }
    }

    /// Whether each held thread got what it waited for, and what the meeting counts came as often as it has to.
    pub(crate) fn was_met(&self) -> bool {
        let counted = match self.meeting {
            Some(Meeting::Clash) => self.refused.load(Ordering::SeqCst) == 1,
            Some(Meeting::BothAsk) => self.tried.load(Ordering::SeqCst) == 2,
            _ => true,
        };
        counted && !self.failed.load(Ordering::SeqCst)
    }

    fn count(&self, told: Told) -> &AtomicU64 {
        match told {
            Told::Tried => &self.tried,
            Told::Acted => &self.acted,
            Told::Refused => &self.refused,
            Told::Committed => &self.committed,
        }
    }
}

impl Pace for Meet {
    fn watches(&self) -> bool {
        true
    }

    fn at(&self, step: Step) {
        let Some(meeting) = self.meeting else {
            return;
        };
        let (tells, waits) = held(meeting, step);
        if let Some(told) = tells {
            self.count(told).fetch_add(1, Ordering::SeqCst);
        }
        let met = match waits {
            Some((told, count)) => hold(self.count(told), count, self.looks),
            None => true,
        };
        if !met {
            self.failed.store(true, Ordering::SeqCst);
        }
    }
}
