//! Laws of the binary format of modules and of expressions (Core Specification, 5.5 Modules): no bytes spell two; the shortest spelling of a tree spells
//! that tree, no spelling is shorter, and what is spelled has its numbers in range.
#![tactic(auto)]

mod expressions;

ghost use Rattle.std.specs.Prelude.{◌≡◌, ◌≤◌, ℕ, List, length, true};
ghost use Rattle.spec_modules.specs.Syntax.{Module};
ghost use Rattle.spec_modules.specs.Limits.{module_fits};
ghost use Rattle.spec_modules.specs.Shortest.{shortest};
ghost use Rattle.spec_modules.specs.Spells.{Spells};

pub use crate::expressions::one_expression;

/// No bytes spell two trees.
pub fn one_tree()
    ensures { (bytes : List ℕ) (m n : Module) → Spells bytes m → Spells bytes n → m ≡ n }
{}

/// What is spelled has its numbers in range, and no spelling is shorter than the shortest.
pub fn spelled_is_in_range()
    ensures fits { (bytes : List ℕ) (m : Module) → Spells bytes m → module_fits m ≡ true }
    ensures shortest { (bytes : List ℕ) (m : Module) → Spells bytes m → length (shortest m) ≤ length bytes }
{}
