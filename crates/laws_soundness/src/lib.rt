// Soundness of validation (Core Specification, Appendix, Soundness), which contracts cite, and what follows from it: each call has one execution, and
// each place is that of the instruction to come. The functions here state laws.
#![tactic(auto)]

ghost use Rattle.std.specs.Prelude.{ℕ, List};
ghost use Rattle.spec_ledger.specs.Cells.{Cells};
ghost use Rattle.spec_execution.specs.Configuration.{Setting};
ghost use Rattle.spec_execution.specs.Run.{ContractCall};
ghost use Rattle.laws_soundness.specs.NextInstruction.{PlacesAreOfWhatComes};
ghost use Rattle.laws_soundness.specs.Once.{AreNumbersOf, ExecutesOnce, RunsSerially};
ghost use Rattle.laws_soundness.specs.Laws.{AreLinked, DeployedCallsAreSafe, DeployedCallsAreTyped, ResultsAreTyped, StepsAreTyped};

/// A typed configuration of a linked module is never stuck, and what it reduces to is typed.
pub fn steps_are_typed()
    ensures { StepsAreTyped }
{}

/// No configuration that a call of linked contracts reaches is stuck, at whatever level.
pub fn deployed_calls_are_safe()
    ensures { DeployedCallsAreSafe }
{}

/// Each level of a configuration that a call of linked contracts reaches is typed, all but the innermost one wait, and the values that the call ends
/// with are of the entry's result types.
pub fn deployed_calls_are_typed()
    ensures reached { DeployedCallsAreTyped }
    ensures results { ResultsAreTyped }
{}

/// Over any cells a call of linked contracts has exactly one execution, and calls in any order have exactly one serial execution.
pub fn calls_execute_once()
    ensures calls { (setting : Setting) (call : ContractCall) (cells : Cells) → AreLinked setting.contracts → ExecutesOnce setting call cells }
    ensures orders { (setting : Setting) (calls : List ContractCall) (order : List ℕ) (cells : Cells) → AreLinked setting.contracts → AreNumbersOf calls order → RunsSerially setting calls order cells }
{
    deployed_calls_are_safe();
    spec_execution::runs_are_unique();
}

/// Where an instruction is to come, the place that is read off the configuration is that of the instruction that reduces.
pub fn places_are_of_what_comes()
    ensures { PlacesAreOfWhatComes }
{
    spec_execution::numbers_take_no_part();
}
