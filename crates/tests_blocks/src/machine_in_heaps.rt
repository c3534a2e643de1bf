// A machine whose memory comes from a small heap: growth takes none, and where it is refused, the machine wants it again and again.
ghost use Rattle.std.specs.Prelude.{IfOk};
ghost use Rattle.interp.specs.Progress.{IsFree};

use crate::assertions::equal;
use crate::programs::{PAGES, STORING};
use call::Call;
use interp::machine::Machine;
use interp::turns::Turn;
use link::deployed::Deployed;
use linked_list_allocator::LocalHeap;
use rows_machine::make_turn;
use spec_ledger::Outcome;
use std::alloc::{Allocator, Global};
use std::process::Abort;
use std::test::Fail;
use test_support::{call, deployed};
use wtypes::Value;

// The machine of a call, at its start.
fn started<'a, A: Allocator + Copy>(
    alloc: A,
    contracts: &'a [Deployed<A>],
    call: &'a Call,
) -> Result<Machine<'a, A>, Fail>
    ensures { IfOk result (λ m. IsFree m.status) }
{
    Ok(
        Machine::start(alloc, contracts, call)
            .ok()
            .ok_or("a machine")?,
    )
}

// Whether the machine has no end yet.
fn has_no_end<'a, A: Allocator + Copy>(machine: Machine<'a, A>) -> bool {
    machine.finish().is_err()
}

// The machine tells these turns, one after another.
fn assert_turns<'a, A: Allocator + Copy>(
    rt: &impl Abort,
    machine: &mut Machine<'a, A>,
    turns: &[Turn],
)
    requires { IsFree machine.old.status }
{
    'turns: for (number, turn) in turns.iter().enumerate() {
        equal(rt, &("turn", number), &make_turn(machine), turn);
    }
}

const TURNS_OF_A_GROWTH: &[Turn] = &[
    Turn::Stepped,
    Turn::Stepped,
    Turn::Done(Outcome::Returned(Some(Value::I32(1)))),
];

// Growth to 1,024 pages takes no memory: the heap has no room for one.
#[test]
fn growth_takes_no_memory(rt: HostRuntime) -> Result<(), Fail> {
    let heap = LocalHeap::new(rt.alloc(), 20_000)?;
    let contracts = [deployed(&heap, PAGES)?];
    let call = call(rt.alloc(), 0, "by_1023", &[], 10)?;
    let mut machine = started(&heap, &contracts, &call)?;
    assert_turns(&rt, &mut machine, TURNS_OF_A_GROWTH);
    Ok(())
}

const TURNS_WITHOUT_A_PIECE: &[Turn] = &[
    Turn::Stepped,
    Turn::Stepped,
    Turn::NoMemory,
    Turn::NoMemory,
    Turn::NoMemory,
];

// The turns of the call of STORING, which has no end.
fn assert_storing(
    rt: &impl Abort,
    heap: &LocalHeap,
    alloc: Global,
    turns: &[Turn],
) -> Result<(), Fail> {
    let contracts = [deployed(heap, STORING)?];
    let call = call(alloc, 0, "put", &[], 10)?;
    let mut machine = started(heap, &contracts, &call)?;
    assert_turns(rt, &mut machine, turns);
    equal(rt, &"has no end", &has_no_end(machine), &true);
    Ok(())
}

// The heap has no room for a piece. The segment without bytes takes none, and the store is refused one, again and again.
#[test]
fn want_of_memory_is_the_last_answer(rt: HostRuntime) -> Result<(), Fail> {
    let heap = LocalHeap::new(rt.alloc(), 4_500)?;
    assert_storing(&rt, &heap, rt.alloc(), TURNS_WITHOUT_A_PIECE)
}
