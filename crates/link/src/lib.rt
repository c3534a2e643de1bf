// Linking of modules: a `Deployed` keeps in its type that its imports are resolved and its segments are in range.
#![tactic(auto)]

pub mod deploy;
pub mod deployed;
mod exports;
mod expressions;
mod globals;
mod imports;
pub mod refusal;
mod segments;
mod starts;
pub mod table;
mod tables;
