//! Attempts at calls over a book that workers share, and the intake from which they draw calls and fuel: a worker draws a call, runs it while it asks the book
//! for each operation, and commits it; where the book refuses, what it did is undone, and it is tried again (Dickerson, Gazzillo, Herlihy, Koskinen, "Adding Concurrency to Smart Contracts", PODC 2017, section 4:
//! a call is a speculative atomic action, which commits or aborts).
#![tactic(auto)]

mod account;
mod admission;
mod attempt;
mod intake;
mod rule;
mod seat;
mod worker;

pub use crate::account::{Account, Limits};
pub use crate::admission::AdmissionLimit;
pub use crate::attempt::{CommittedRun, Job};
pub use crate::intake::Intake;
pub use crate::seat::Seat;
pub use crate::worker::{WorkerResult, work};
