//! What a module is, which contracts cite (Core, 2 Structure, 4.3 Numerics and 5 Binary Format): its abstract syntax and its spellings, the limits of the
//! profile, and what each operator, load and store gives.
#![tactic(auto)]

mod numbers;

pub use numbers::{loads_give_what_was_stored, same_type};
