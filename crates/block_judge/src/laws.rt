//! What follows from the definitions alone.

ghost use Rattle.block_judge.specs.Judging.{FirstIsVerdict};

/// The first verdict that holds of a block is that of its bytes.
pub fn first_is_verdict()
    ensures { FirstIsVerdict }
{
    spec_block::one_block_a_spelling();
}
