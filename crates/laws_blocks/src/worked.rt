//! Worked rows of blocks: closed instances of the figures of a block and of what a call of it meets, and such that are none. A premise that nothing
//! meets, added to a definition, would make a row fail.

ghost use Rattle.std.specs.Prelude.{◌≡◌, ℕ, [], ◌∷◌, Option, Some, None};
ghost use Rattle.std.specs.FinMap.{empty};
ghost use Rattle.wtypes.specs.declared.TrapCode.TheVariants.{Unreachable};
ghost use Rattle.spec_ledger.specs.declared.Version.TheVariants.{One, Two};
ghost use Rattle.spec_ledger.specs.Cells.{Cells};
ghost use Rattle.spec_block.specs.Schedule.{IsEdge, IsWave};
ghost use Rattle.spec_block.specs.Verdicts.{Malformed, OverBudget};
ghost use Rattle.figures.specs.declared.figures.Chains.{Chains};
ghost use Rattle.figures.specs.declared.outcomes.OutcomeKind.TheVariants.{Returned, Trapped};
ghost use Rattle.figures.specs.Chains.{AreForward, IsChain};
ghost use Rattle.figures.specs.Figures.{AreChains, IsCount};
ghost use Rattle.figures.specs.Hottest.{AreHottest};
ghost use Rattle.figures.specs.Outcomes.{all_kinds, counts_among};
ghost use Rattle.block_judge.specs.Meeting.{IsAbsent, IsVerdictWith, Meets};
ghost use Rattle.laws_blocks.specs.SmallBlocks.{adds_then_reads, both_bytes, counter, left_by_the_first, one_counter, one_of, one_trapped, reads_then_adds, shared_by, two_and_one, two_calls};

use crate::calls::calls_one_after_another;

/// A position that reads what the one before it adds waits in the next wave, and the heaviest chain is both. The other way round an edge goes back.
pub fn a_reader_behind_an_adder()
    ensures edge { IsEdge adds_then_reads 0 1 }
    ensures forward { AreForward adds_then_reads }
    ensures first_wave { IsWave adds_then_reads 0 0 }
    ensures second_wave { IsWave adds_then_reads 1 1 }
    ensures waves { IsCount (0 ∷ 1 ∷ []) 2 }
    ensures chain { IsChain adds_then_reads (3 ∷ 5 ∷ []) 8 }
    ensures chains { (c : Chains) → c.waves.items ≡ 0 ∷ 1 ∷ [] → c.wave_count ≡ 2 → c.chain_fuel ≡ 8 → AreChains adds_then_reads (3 ∷ 5 ∷ []) c }
    ensures no_other_wave { ¬ (IsWave adds_then_reads 1 0) }
    ensures no_fewer_waves { ¬ (IsCount (0 ∷ 1 ∷ []) 1) }
    ensures no_more_waves { ¬ (IsCount (0 ∷ 1 ∷ []) 3) }
    ensures no_lighter_chain { ¬ (IsChain adds_then_reads (3 ∷ 5 ∷ []) 5) }
    ensures no_heavier_chain { ¬ (IsChain adds_then_reads (3 ∷ 5 ∷ []) 9) }
    ensures no_single_wave { (c : Chains) → c.wave_count ≡ 1 → ¬ (AreChains adds_then_reads (3 ∷ 5 ∷ []) c) }
    ensures no_way_back { ¬ (AreForward reads_then_adds) }
{}

/// Of three positions two hold one counter, and the third another: the first counter is shared by two, and the second is not told.
pub fn a_shared_counter()
    ensures hottest { AreHottest two_and_one (shared_by (counter 7) 2 ∷ []) }
    ensures no_lone_lock { ¬ (AreHottest two_and_one (shared_by (counter 8) 1 ∷ [])) }
    ensures no_other_number { ¬ (AreHottest two_and_one (shared_by (counter 7) 3 ∷ [])) }
    ensures not_left_out { ¬ (AreHottest two_and_one []) }
{}

/// One call returned and one trapped: each is counted as what it came to.
pub fn outcomes_counted()
    ensures counts { counts_among all_kinds one_trapped ≡ one_of Returned ∷ one_of (Trapped Unreachable) ∷ [] }
    ensures not_returned { ¬ (counts_among all_kinds one_trapped ≡ one_of Returned ∷ []) }
{}

/// In a block of two calls that add to one counter the first meets the opening cells, the second what the first left and nothing else, and a third
/// does not stand in it. No bytes are no block. The limits of the two calls add up to ten: with a fuel of ten the second meets the same, and with nine
/// it meets nothing, since the block is over its budget.
pub fn calls_of_a_block()
    ensures first { Meets one_counter two_calls None both_bytes 0 Two empty }
    ensures second { Meets one_counter two_calls None both_bytes 1 Two left_by_the_first }
    ensures third { IsAbsent one_counter two_calls None both_bytes 2 }
    ensures malformed { IsVerdictWith one_counter two_calls None [] Malformed }
    ensures enough { Meets one_counter two_calls (Some 10) both_bytes 1 Two left_by_the_first }
    ensures over_budget { IsVerdictWith one_counter two_calls (Some 9) both_bytes OverBudget }
    ensures no_other_cells { (given : Option ℕ) (cells : Cells) → Meets one_counter two_calls given both_bytes 1 Two cells → cells ≡ left_by_the_first }
    ensures no_other_version { (given : Option ℕ) (cells : Cells) → ¬ (Meets one_counter two_calls given both_bytes 1 One cells) }
    ensures no_third { (given : Option ℕ) (cells : Cells) → ¬ (Meets one_counter two_calls given both_bytes 2 Two cells) }
    ensures not_absent { (given : Option ℕ) → ¬ (IsAbsent one_counter two_calls given both_bytes 1) }
    ensures not_malformed { (given : Option ℕ) → ¬ (IsVerdictWith one_counter two_calls given both_bytes Malformed) }
    ensures not_over_budget { ¬ (IsVerdictWith one_counter two_calls None both_bytes OverBudget) }
    ensures nothing_met { (cells : Cells) → ¬ (Meets one_counter two_calls (Some 9) both_bytes 1 Two cells) }
{
    spec_block::one_block_a_spelling();
    spec_block::one_serial_run();
    crate::calls_one_after_another();
}
