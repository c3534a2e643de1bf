//! Laws of blocks that are accepted, and worked rows of calls, blocks and texts: there is one block of an order; its turns let no position wait for a
//! later one, so each has waves and a longest chain, and nobody runs it in less time than that chain takes. The functions here state laws.
#![tactic(auto)]

mod calls;
mod worked;

ghost use Rattle.std.specs.Prelude.{◌≡◌, ℕ, ◌≤◌, IsSome, Some, List, [], ◌∷◌};
ghost use Rattle.spec_ledger.specs.declared.Entry.{Entry};
ghost use Rattle.spec_block.specs.Worlds.{Block, Call, World, order_of, profiles_of};
ghost use Rattle.spec_block.specs.Bytes.{SpellsBlock};
ghost use Rattle.spec_block.specs.Headline.{Headline};
ghost use Rattle.spec_block.specs.Schedule.{HaveTurns};
ghost use Rattle.spec_block.specs.Verdicts.{Accept, IsLeast, IsVerdictOf};
ghost use Rattle.figures.specs.Chains.{AreForward, IsChain, fuels_of};
ghost use Rattle.figures.specs.Figures.{AreFigures};
ghost use Rattle.figures.specs.declared.figures.Chains.{Chains};
ghost use Rattle.figures.specs.declared.figures.Figures.{Figures};
ghost use Rattle.laws_blocks.specs.Timetables.{CanEnd, IsTimetable, adds_then_reads, at_once, one_by_one};

pub use crate::calls::{
    a_call_that_adds, a_call_that_asks, a_call_that_is_refused, a_call_that_keeps,
    a_call_that_traps, a_text_that_names_nothing, calls_one_after_another, states_of_calls,
};
pub use crate::worked::{
    a_reader_behind_an_adder, a_shared_counter, calls_of_a_block, outcomes_counted,
};

/// A world, calls and an order have one block of a version, and one world after it: whoever mined it, and in whatever schedule.
pub fn one_block()
    ensures block { (world : World) (calls : List Call) (fuel : ℕ) (b c : Block) (after_b after_c : World) → b.version ≡ c.version → order_of b ≡ order_of c → Headline world calls fuel b after_b → Headline world calls fuel c after_c → b ≡ c }
    ensures next { (world : World) (calls : List Call) (fuel : ℕ) (b c : Block) (after_b after_c : World) → b.version ≡ c.version → order_of b ≡ order_of c → Headline world calls fuel b after_b → Headline world calls fuel c after_c → after_b ≡ after_c }
{
    spec_block::one_serial_run();
}

/// Where the turns are those of the modes in their order, each edge leads from an earlier position to a later one.
pub fn turns_go_forward()
    ensures { (profiles : List (List Entry)) → HaveTurns profiles → AreForward profiles }
{}

/// The turns of an accepted block are those of its modes: each edge goes forward, and figures of the block have waves and a longest chain.
pub fn accepted_blocks_have_waves()
    ensures turns { (world : World) (calls : List Call) (fuel : ℕ) (bytes : List ℕ) (next : World) (block : Block) → IsVerdictOf world calls fuel bytes (Accept next) → SpellsBlock bytes block → HaveTurns (profiles_of block) }
    ensures forward { (world : World) (calls : List Call) (fuel : ℕ) (bytes : List ℕ) (next : World) (block : Block) → IsVerdictOf world calls fuel bytes (Accept next) → SpellsBlock bytes block → AreForward (profiles_of block) }
    ensures figures { (world : World) (calls : List Call) (fuel : ℕ) (bytes : List ℕ) (next : World) (block : Block) → IsVerdictOf world calls fuel bytes (Accept next) → SpellsBlock bytes block → (figures : Figures) → AreFigures block figures → IsSome figures.chains }
{
    spec_block::one_block_a_spelling();
    spec_block::paths_join();
    spec_block::accepts_exactly_the_published();
}

/// Whoever lets a position wait for each earlier one whose modes do not go with its own, on however many workers, takes no less time for a block than its
/// longest chain by fuel.
pub fn no_validator_is_faster()
    ensures never_less { (block : Block) (fuel : ℕ) (starts : ℕ → ℕ) (ended : ℕ) → HaveTurns (profiles_of block) → IsChain (profiles_of block) (fuels_of block.positions) fuel → IsTimetable (profiles_of block) (fuels_of block.positions) starts ended → fuel ≤ ended }
    ensures least { (block : Block) (fuel : ℕ) → HaveTurns (profiles_of block) → IsChain (profiles_of block) (fuels_of block.positions) fuel → IsLeast (CanEnd (profiles_of block) (fuels_of block.positions)) fuel }
    ensures accepted { (world : World) (calls : List Call) (fuel : ℕ) (bytes : List ℕ) (next : World) (block : Block) → IsVerdictOf world calls fuel bytes (Accept next) → SpellsBlock bytes block → (figures : Figures) → AreFigures block figures → (chains : Chains) → figures.chains ≡ Some chains → IsLeast (CanEnd (profiles_of block) (fuels_of block.positions)) chains.chain_fuel }
{
    accepted_blocks_have_waves();
}

/// A position that reads what the one before it adds starts when that has ended, and not with it.
pub fn a_reader_waits_its_turn()
    ensures waits { IsTimetable adds_then_reads (3 ∷ 5 ∷ []) one_by_one 8 }
    ensures not_sooner { ¬ (IsTimetable adds_then_reads (3 ∷ 5 ∷ []) one_by_one 7) }
    ensures not_at_once { ¬ (IsTimetable adds_then_reads (3 ∷ 5 ∷ []) at_once 5) }
{}
