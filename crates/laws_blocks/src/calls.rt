// Worked rows: closed instances of the definitions that hold, and such that do not. A premise that nothing meets, added to a rule, would make a row fail.

ghost use Rattle.std.specs.Prelude.{◌≡◌, List, [], ◌∷◌, codes};
ghost use Rattle.std.specs.FinMap.{empty};
ghost use Rattle.wtypes.specs.declared.TrapCode.TheVariants.{Unreachable};
ghost use Rattle.spec_modules.specs.Syntax.{Module};
ghost use Rattle.spec_ledger.specs.declared.Outcome.TheVariants.{OutOfFuel, Rejected, Trapped};
ghost use Rattle.spec_ledger.specs.declared.Receipt.{Receipt};
ghost use Rattle.spec_ledger.specs.Book.{GetsReplies, after};
ghost use Rattle.spec_ledger.specs.declared.TraceStep.TheVariants.{Dropped, Kept};
ghost use Rattle.spec_ledger.specs.Cells.{Cells};
ghost use Rattle.spec_ledger.specs.Modes.{Modes, touched};
ghost use Rattle.spec_execution.specs.Configuration.{Trap};
ghost use Rattle.spec_execution.specs.Exec.{Executes};
ghost use Rattle.spec_execution.specs.Levels.{Levels, RunsWith, alone};
ghost use Rattle.spec_execution.specs.Serial.{CallResult, Serial};
ghost use Rattle.spec_execution.specs.CallStates.{IsState};
ghost use Rattle.spec_text.specs.declared.TokenKind.TheVariants.{Close};
ghost use Rattle.spec_text.specs.Lexical.{Lexes};
ghost use Rattle.spec_text.specs.Names.{Names};
ghost use Rattle.laws_blocks.specs.CallsWorked.{adds_and_reads, adds_in_a_level, adds_seven, adds_ten, after_the_sum, alone_with, asking, at_0, bare, before_the_sum, before_the_total, call_with, counted, counts, four_levels, gives_up, goes_deep, keeps, on_five, on_key_nine, only, puts_and_deletes, returned, tries, two_levels};

/// 5 and 7 more is 12, with fuel 3: with a limit of 2 it is out of fuel. Another value, one unit less, or another end is no run.
pub fn a_call_that_adds()
    ensures runs { RunsWith (only adds_seven) (on_five 3) [] (returned 12) 3 }
    ensures out_of_fuel { RunsWith (only adds_seven) (on_five 2) [] OutOfFuel 2 }
    ensures executes { (cells : Cells) → Executes (only adds_seven) (on_five 3) cells cells (alone_with (returned 12) 3) empty }
    ensures no_other_value { ¬ (RunsWith (only adds_seven) (on_five 3) [] (returned 13) 3) }
    ensures no_less_fuel { ¬ (RunsWith (only adds_seven) (on_five 3) [] (returned 12) 2) }
    ensures no_other_end { ¬ (RunsWith (only adds_seven) (on_five 2) [] (returned 12) 3) }
    ensures no_other_cells { (cells later : Cells) (receipt : Receipt) (locks : Modes) → Executes (only adds_seven) (on_five 3) cells later receipt locks → (later ≡ cells) × (receipt ≡ alone_with (returned 12) 3) }
{
    spec_execution::runs_are_unique();
}

/// A trap is charged, and it does not return.
pub fn a_call_that_traps()
    ensures runs { RunsWith (only gives_up) (call_with 100 []) [] (Trapped Unreachable) 1 }
    ensures executes { (cells : Cells) → Executes (only gives_up) (call_with 100 []) cells cells (alone_with (Trapped Unreachable) 1) empty }
    ensures no_free_trap { ¬ (RunsWith (only gives_up) (call_with 100 []) [] (Trapped Unreachable) 0) }
    ensures no_return { ¬ (RunsWith (only gives_up) (call_with 100 []) [] (returned 0) 1) }
{
    spec_execution::runs_are_unique();
}

/// A call without its argument is refused by number 3, and by no other.
pub fn a_call_that_is_refused()
    ensures runs { RunsWith (only adds_seven) (call_with 100 []) [] (Rejected 3) 0 }
    ensures executes { (cells : Cells) → Executes (only adds_seven) (call_with 100 []) cells cells (alone_with (Rejected 3) 0) empty }
    ensures no_other_number { ¬ (RunsWith (only adds_seven) (call_with 100 []) [] (Rejected 4) 0) }
{
    spec_execution::runs_are_unique();
}

/// A cell is put, found, got and deleted, over any cells. It gets what was put, and no other number.
pub fn a_call_that_keeps()
    ensures runs { RunsWith (only keeps) (on_key_nine 11) (puts_and_deletes 5) (returned 5) 11 }
    ensures executes { (cells : Cells) → Executes (only keeps) (on_key_nine 11) cells (after (puts_and_deletes 5) cells) (alone_with (returned 5) 11) (touched (puts_and_deletes 5)) }
    ensures no_other_reply { (cells : Cells) → ¬ (GetsReplies (puts_and_deletes 6) cells) }
    ensures no_less_fuel { ¬ (RunsWith (only keeps) (on_key_nine 11) (puts_and_deletes 5) (returned 5) 10) }
{
    spec_execution::runs_are_unique();
}

/// Two calls, one after another: the second reads what the first left.
pub fn calls_one_after_another()
    ensures runs { Serial (only counts) (on_key_nine 5 ∷ on_key_nine 5 ∷ []) (0 ∷ 1 ∷ []) empty (counted 5 ∷ counted 10 ∷ []) (after (adds_and_reads 10) (after (adds_and_reads 5) empty)) }
    ensures first { Executes (only counts) (on_key_nine 5) empty (after (adds_and_reads 5) empty) (alone_with (returned 5) 5) (touched (adds_and_reads 5)) }
    ensures no_other_total { (last : Cells) → ¬ (Serial (only counts) (on_key_nine 5 ∷ on_key_nine 5 ∷ []) (0 ∷ 1 ∷ []) empty (counted 5 ∷ counted 5 ∷ []) last) }
    ensures no_fewer_calls { (last : Cells) → ¬ (Serial (only counts) (on_key_nine 5 ∷ on_key_nine 5 ∷ []) (0 ∷ 1 ∷ []) empty (counted 5 ∷ []) last) }
{
    spec_execution::runs_are_unique();
}

/// A call that asks for an export of a contract: what the level did stands where it returned, and not where it trapped; the fuel is used up on all
/// levels, and ends the call at any; the receipt tells how many were entered.
pub fn a_call_that_asks()
    ensures level_returns { RunsWith (only asking) (tries 0) (adds_in_a_level Kept) (returned 7) 13 }
    ensures level_traps { RunsWith (only asking) (tries 1) (adds_in_a_level Dropped) (returned 0) 13 }
    ensures other_type { RunsWith (only asking) (tries 2) adds_ten (returned 0) 9 }
    ensures not_there { RunsWith (only asking) (tries 9) adds_ten (returned 0) 9 }
    ensures four_deep { RunsWith (only asking) (goes_deep 25) four_levels (returned 0) 25 }
    ensures out_of_fuel_outside { RunsWith (only asking) (goes_deep 24) four_levels OutOfFuel 24 }
    ensures out_of_fuel_inside { RunsWith (only asking) (goes_deep 10) two_levels OutOfFuel 10 }
    ensures executes { (cells : Cells) → Executes (only asking) (tries 1) cells (after adds_ten cells) (record { outcome = returned 0; used = 13; asks = 1 }) (touched (adds_in_a_level Dropped)) }
    ensures not_kept { ¬ (RunsWith (only asking) (tries 1) (adds_in_a_level Kept) (returned 0) 13) }
    ensures no_less_fuel { ¬ (RunsWith (only asking) (tries 0) (adds_in_a_level Kept) (returned 7) 12) }
{
    spec_execution::runs_are_unique();
}

/// What stands after so many turns: an instruction to come, a reply that was given, the end, a trap. After the limit there is no turn.
pub fn states_of_calls()
    ensures after_two { (cells : Cells) → IsState (only adds_seven) (on_five 3) cells 2 (alone (at_0 adds_seven) before_the_sum) }
    ensures after_three { (cells : Cells) → IsState (only adds_seven) (on_five 3) cells 3 (alone (at_0 adds_seven) after_the_sum) }
    ensures after_a_reply { (cells : Cells) → IsState (only counts) (on_key_nine 5) cells 3 (alone (at_0 counts) before_the_total) }
    ensures after_a_trap { (cells : Cells) → IsState (only gives_up) (call_with 100 []) cells 1 (alone (at_0 gives_up) (Trap bare Unreachable)) }
    ensures no_fourth { (cells : Cells) (config : Levels) → ¬ (IsState (only adds_seven) (on_five 3) cells 4 config) }
{}

/// A closing bracket alone is one token, and names no module.
pub fn a_text_that_names_nothing()
    ensures lexes { Lexes (codes ")") (record { kind = Close; from = 0; text = codes ")" } ∷ []) }
    ensures names_nothing { (m : Module) → ¬ (Names (codes ")") m) }
{}
