//! What the contracts of modules, of the machine, of calls over cells, of worlds and blocks, of the debugger, of the miner, of the validator and of the
//! program's lines refuse: each function calls one function of these and has its contract.
#![tactic(auto)]

pub mod answers;
pub mod binary;
pub mod block_commands;
pub mod blocks_written;
pub mod calls;
pub mod judged;
pub mod judgement;
pub mod links;
pub mod loops;
pub mod memories;
pub mod mined;
pub mod numbers;
pub mod runs;
pub mod sessions;
pub mod straight_line;
pub mod texts;
pub mod tokens;
pub mod types;
pub mod untold;
pub mod verdicts;
pub mod worlds_read;
