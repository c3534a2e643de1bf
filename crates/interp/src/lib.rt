//! A machine that runs calls of contracts.
#![tactic(auto)]

pub mod finished;
mod frames;
mod functions;
mod imports;
mod levels;
pub mod machine;
pub mod readers;
mod replies;
mod run;
mod running;
pub mod start;
pub mod turns;
