//! What the contracts of cells, locks, books, shards, queues, the intake, records, graphs and files refuse: each function calls one function of these and has
//! its contract.
#![tactic(auto)]

pub mod books;
pub mod cells;
pub mod files;
pub mod graphs;
pub mod handovers;
pub mod intakes;
pub mod journals;
pub mod locks;
pub mod sharded;
pub mod shared_books;
pub mod sinks;
pub mod stealing;
pub mod values;
