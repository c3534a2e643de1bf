//! Laws of the reduction of sequences of values and instructions, with what is open round them: what they mean, and what they become. There is no code
//! here.
#![tactic(auto)]
