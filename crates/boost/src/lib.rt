// The book of calls that run at once over boosted storage, in one thread (Dickerson, Gazzillo, Herlihy, Koskinen, "Adding Concurrency to Smart Contracts", PODC 2017, sections 3 and 4).
#![tactic(auto)]

pub mod attempt;
pub mod book;
pub mod play;
mod standing;
pub mod trace;
