//! What follows from the definitions alone.

ghost use Rattle.block_judge.specs.Meeting.{TellsOfTheRun};

/// Where `validate` accepts a block, the run of a call of it over the cells that it meets there is the one of which its receipt and its profile tell.
pub fn tells_of_the_run()
    ensures { TellsOfTheRun }
{
    spec_block::one_block_a_spelling();
    spec_block::one_serial_run();
    spec_block::accepts_exactly_the_published();
}
