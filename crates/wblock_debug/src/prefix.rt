//! The cells that a call of a block meets: those that the calls before it leave in the published order (Dickerson, Gazzillo, Herlihy, Koskinen,
//! "Adding Concurrency to Smart Contracts", PODC 2017, section 4: a block's order is a serial one).

ghost use Rattle.std.specs.Prelude.{◌≤◌, IfErr, IfOk, MatchOption, length};
ghost use Rattle.world.specs.Views.{world_view};
ghost use Rattle.block_judge.specs.Judging.{IfRejected};
ghost use Rattle.block_judge.specs.Meeting.{IsVerdictWith, Meets, IsAbsent};

use crate::fuel::{fuel_for, limits_in};
use crate::place::place_of;
use block_judge::{JudgeRefusal, judge};
use call::Call;
use pace::Pace;
use serial::serial_core;
use spec_ledger::Version;
use std::alloc::{Allocator, Global};
use storage::Cells;
use world::World;

/// What a call of a block meets.
#[derive(Drop)]
pub struct Met<A: Allocator = Global> {
    /// The version of the block, by whose rules its calls run.
    pub version: Version,
    /// The cells that the calls before it leave.
    pub cells: Cells<A>,
}

/// What the call of this number meets in the block that the bytes spell: the block is judged as far as it is without running a call, with this
/// fuel, or where none is given with the least that its calls need; then the calls before it run, one after another in the published order. None
/// where the block has no such call. What the block says of these calls is not compared with what they come to. Before they run, the pace is told
/// the sum of their limits, as far as 64 bits tell it.
///
/// # Errors
///
/// The first of the reasons 1 to 7 that holds of the block; or memory was refused.
pub fn met_by<A: Allocator + Copy, P: Pace>(
    alloc: A,
    world: &World<A>,
    calls: &[Call],
    given: Option<u64>,
    bytes: &[u8],
    number: u32,
    pace: &P,
) -> Result<Option<Met<A>>, JudgeRefusal>
    requires { length calls.now ≤ 65535 }
    ensures rejected { IfErr result (λ unfit. IfRejected unfit (IsVerdictWith (world_view world.now) calls.now given bytes.now)) }
    ensures met { IfOk result (λ found. MatchOption found (IsAbsent (world_view world.now) calls.now given bytes.now number) (λ met. Meets (world_view world.now) calls.now given bytes.now number met.version met.cells.cells)) }
{
    spec_block::one_block_a_spelling();
    let fuel = fuel_for(alloc, calls, given, bytes)?;
    let fit = judge(alloc, world, calls, fuel, bytes)?;
    let Some(place) = place_of(&fit.order, number) else {
        return Ok(None);
    };
    let version = fit.block.version();
    pace.runs_alone(limits_in(calls, &fit.block.positions()[..place]));
    let core = serial_core(
        alloc,
        world.contracts(),
        world.cells(),
        calls,
        &fit.order[..place],
        version,
    )?;
    Ok(Some(Met {
        version,
        cells: core.cells,
    }))
}
