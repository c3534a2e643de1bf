//! Figures of a block that tell an auditor how far its calls can run at once, and of a module: waves, the longest chain, the locks that the most
//! positions hold, and what the calls came to (Dickerson, Gazzillo, Herlihy, Koskinen, "Adding Concurrency to Smart Contracts",
//! PODC 2017, section 4: the fork-join program of a validator).
#![tactic(auto)]

mod figures;
mod hottest;
mod module_figures;
mod names;
mod outcomes;
mod sums;
mod words;

pub use figures::{Chains, Figures, figures_of};
pub use hottest::{MOST_HOTTEST, SharedLock};
pub use module_figures::{first_func, shortest_size};
pub use names::type_name;
pub use outcomes::{OutcomeCount, OutcomeKind};
pub use words::{hundredth_of, lock_text_of, word_of_kind, word_of_mode};
