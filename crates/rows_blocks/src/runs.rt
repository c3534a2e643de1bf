//! What calls come to that run one after another.

ghost use Rattle.std.specs.Prelude.{◌≡◌};
ghost use Rattle.std.specs.FinMap as finite;

use block::Block;
use block_judge::remaining;
use call::Call;
use interp::finished::Finished;
use lock_profile::Touched;
use rows_books::words::{cut, long, place_of, text_of};
use rows_files::Refused;
use rows_files::files::put_block_bytes;
use rows_files::put::{put_cells, put_locks, put_receipt};
use rows_files::scene::{Scene, scene_of, world_of};
use serial::{execute, replay, run_alone, run_as, serial_core, touched_by};
use spec_ledger::{Op, Receipt, Reply, TraceStep, Version};
use std::alloc::{AllocError, Global};
use storage::Cells;
use world::World;

/// Puts the receipt and the locks of each position, and the cells after the last one.
pub(crate) fn put_core(
    out: &mut String,
    receipts: &[Receipt],
    touched: &[Touched],
    cells: &Cells,
) -> Result<(), AllocError> {
    for (receipt, locks) in receipts.iter().zip(touched.iter()) {
        put_receipt(out, *receipt)?;
        put_locks(out, locks)?;
    }
    put_cells(out, cells)
}

/// The receipts and the locks of the calls of an order, and the cells after them.
pub(crate) fn serial(alloc: Global, lines: &[u8]) -> Result<String, Refused> {
    let scene = scene_of(alloc, lines)?;
    let calls = scene.calls.as_slice();
    let order = scene.order.as_slice();
    if !order.iter().all(|number| (*number as usize) < calls.len()) {
        return Err(Refused::Line);
    }
    let core = serial_core(
        alloc,
        &scene.contracts,
        &scene.cells,
        calls,
        order,
        scene.version,
    )?;
    let mut out = String::new(alloc);
    put_core(&mut out, &core.receipts, &core.touched, &core.cells)?;
    Ok(out)
}

/// How the first call ends that runs alone over the cells, and the cells after it.
pub(crate) fn alone(alloc: Global, lines: &[u8]) -> Result<String, Refused> {
    let scene = scene_of(alloc, lines)?;
    let Some(call) = scene.calls.first() else {
        return Err(Refused::Line);
    };
    let mut cells = scene.cells.copy(alloc)?;
    let run = run_alone(alloc, &scene.contracts, call, &mut cells, scene.version)?;
    let outcome = run.outcome();
    let mut out = String::new(alloc);
    writeln!(out, "{outcome:?}")?;
    put_cells(&mut out, &cells)?;
    Ok(out)
}

/// Puts the receipt of a run that is taken again over these cells, or that it is not, and the cells after it.
fn put_replay(
    alloc: Global,
    out: &mut String,
    run: &Finished<'_, Global>,
    cells: &mut Cells,
) -> Result<(), Refused>
    requires { cells.old.unsettled ≡ finite.empty }
    ensures { cells.new.unsettled ≡ finite.empty }
{
    match replay(alloc, run, cells)? {
        Some(executed) => put_receipt(out, executed.receipt)?,
        None => writeln!(out, "another reply")?,
    }
    put_cells(out, cells)?;
    Ok(())
}

/// Puts what comes of the first call, which ran alone over the cells: of its run over the later cells, of its run once more, and of the call over what
/// these leave.
fn put_replays(alloc: Global, out: &mut String, scene: &Scene, call: &Call) -> Result<(), Refused> {
    let mut before = scene.cells.copy(alloc)?;
    let run = run_alone(alloc, &scene.contracts, call, &mut before, scene.version)?;
    let mut cells = scene.later.copy(alloc)?;
    put_replay(alloc, out, &run, &mut cells)?;
    put_replay(alloc, out, &run, &mut cells)?;
    let executed = execute(alloc, &scene.contracts, call, &mut cells, scene.version)?;
    put_receipt(out, executed.receipt)?;
    put_cells(out, &cells)?;
    Ok(())
}

/// What comes of the first call, which ran alone over the cells and is taken again over the later ones.
pub(crate) fn replayed(alloc: Global, lines: &[u8]) -> Result<String, Refused> {
    let scene = scene_of(alloc, lines)?;
    let Some(call) = scene.calls.first() else {
        return Err(Refused::Line);
    };
    let mut out = String::new(alloc);
    put_replays(alloc, &mut out, &scene, call)?;
    Ok(out)
}

/// A step of a trace: `Opened`, `Kept`, `Dropped`, `Add PLACE NUMBER`, or `Total PLACE REPLY`.
fn step_of(line: &str) -> Result<TraceStep, Refused> {
    let (word, rest) = cut(line);
    let (place, number) = cut(rest);
    match word {
        "Opened" => Ok(TraceStep::Opened),
        "Kept" => Ok(TraceStep::Kept),
        "Dropped" => Ok(TraceStep::Dropped),
        "Add" => Ok(TraceStep::Did(Op::Add(place_of(place)?, long(number)?), Reply::Nothing)),
        "Total" => match number.parse::<i64>() {
            Ok(reply) => Ok(TraceStep::Did(Op::Total(place_of(place)?), Reply::I64(reply))),
            Err(_) => Err(Refused::Line),
        },
        _ => Err(Refused::Line),
    }
}

/// The locks of a trace, of which each line is a step.
pub(crate) fn trace_locks(alloc: Global, lines: &[u8]) -> Result<String, Refused> {
    let mut trace = Vec::new(alloc);
    for line in text_of(lines)?.split('\n') {
        if !line.is_empty() {
            trace.push(step_of(line)?)?;
        }
    }
    let touched = touched_by(alloc, &trace)?;
    let mut out = String::new(alloc);
    put_locks(&mut out, &touched)?;
    Ok(out)
}

/// The block of calls in this order in a world, and the world after it.
fn of_order(
    alloc: Global,
    world: &World,
    calls: &[Call],
    order: &[u32],
    version: Version,
) -> Result<(Block, World), Refused> {
    let known = order.iter().all(|number| (*number as usize) < calls.len());
    if !known || calls.len() > 65_535 || order.len() > calls.len() {
        return Err(Refused::Line);
    }
    match remaining(calls, order, u64::MAX) {
        Some(_) => Ok(run_as(alloc, world, calls, order, version)?),
        None => Err(Refused::Line),
    }
}

/// The bytes of the block of calls in an order, and the cells after it.
pub(crate) fn serial_block(alloc: Global, lines: &[u8]) -> Result<String, Refused> {
    let Scene {
        contracts,
        cells,
        later: _,
        calls,
        order,
        version,
        fuel: _,
        runs: _,
        acts: _,
        committed: _,
        handed: _,
    } = scene_of(alloc, lines)?;
    let world = world_of(contracts, cells)?;
    let (block, next) = of_order(alloc, &world, &calls, &order, version)?;
    let mut out = String::new(alloc);
    put_block_bytes(alloc, &mut out, &block)?;
    writeln!(out, "contracts {}", next.contracts().len())?;
    put_cells(&mut out, next.cells())?;
    Ok(out)
}
