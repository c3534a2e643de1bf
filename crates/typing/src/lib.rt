//! Validation of modules: a `Valid` keeps in its type that it is typed. And what an instruction takes off the stack, where it passes.
#![tactic(auto)]

pub mod check;
mod rules;
pub mod takes;
mod uses;
pub mod valid;
