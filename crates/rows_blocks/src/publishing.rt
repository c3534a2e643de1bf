//! Orders of calls that are published.

ghost use Rattle.std.specs.Prelude.{◌≡◌, ◌<◌, ◌^◌, length};
ghost use Rattle.spec_ledger.specs.declared.Version.TheVariants.{Two};
ghost use Rattle.interp.specs.Callee.{setting_view};
ghost use Rattle.publish.specs.Publication.{IsSameJob};

use crate::runs::put_core;
use call::Call;
use link::deployed::Deployed;
use publish::{Published, Publishing};
use rows_files::Refused;
use rows_files::scene::{Act, Scene, scene_of};
use serial::run_alone;
use spec_ledger::Version;
use std::alloc::Global;
use storage::Cells;

/// Puts what is published: the order, the calls left out, the fuel, the receipts, the locks and the cells.
pub(crate) fn put_published(out: &mut String, published: &Published) -> Result<(), Refused> {
    let order = published.order.as_slice();
    let left = published.left.as_slice();
    let fuel = published.fuel;
    writeln!(out, "order {order:?} left {left:?} fuel {fuel}")?;
    put_core(
        out,
        &published.receipts,
        &published.touched,
        &published.cells,
    )?;
    Ok(())
}

/// Whether a call is taken by its run over the opening cells.
fn takes_run(
    alloc: Global,
    publishing: &mut Publishing<'_, Global>,
    contracts: &[Deployed<Global>],
    calls: &[Call],
    cells: &Cells,
    call: u32,
) -> Result<bool, Refused>
    requires contracts { publishing.old.setting ≡ setting_view Two contracts.now }
    requires calls { publishing.old.calls ≡ calls.now }
    ensures { IsSameJob publishing.old publishing.new }
{
    let Some(known) = calls.get(call as usize) else {
        return Err(Refused::Line);
    };
    let mut opening = cells.copy(alloc)?;
    let run = run_alone(alloc, contracts, known, &mut opening, Version::Two)?;
    Ok(publishing.take_run(call, &run)?)
}

/// Puts whether calls are taken by their runs over the opening cells, at most two.
fn put_runs(
    alloc: Global,
    out: &mut String,
    publishing: &mut Publishing<'_, Global>,
    contracts: &[Deployed<Global>],
    calls: &[Call],
    scene: &Scene,
) -> Result<(), Refused>
    requires contracts { publishing.old.setting ≡ setting_view Two contracts.now }
    requires calls { publishing.old.calls ≡ calls.now }
{
    match scene.runs.as_slice() {
        [] => Ok(()),
        [one] => {
            let taken = takes_run(alloc, publishing, contracts, calls, &scene.cells, *one)?;
            writeln!(out, "run {one} {taken}")?;
            Ok(())
        }
        [one, other] => {
            let taken = takes_run(alloc, publishing, contracts, calls, &scene.cells, *one)?;
            writeln!(out, "run {one} {taken}")?;
            let taken = takes_run(alloc, publishing, contracts, calls, &scene.cells, *other)?;
            writeln!(out, "run {other} {taken}")?;
            Ok(())
        }
        _ => Err(Refused::Line),
    }
}

/// Does what a line says, and puts the answer.
fn put_act(
    out: &mut String,
    publishing: &mut Publishing<'_, Global>,
    act: Act,
) -> Result<(), Refused> {
    match act {
        Act::MayFollow(call) => {
            let may = publishing.may_follow(call);
            writeln!(out, "may_follow {call} {may}")?;
        }
        Act::Take(call) => {
            let taken = publishing.take_alone(call)?;
            writeln!(out, "take {call} {taken}")?;
        }
        Act::Fill => publishing.fill()?,
    }
    Ok(())
}

/// What is published, with the answers to what is done before.
fn publish(
    alloc: Global,
    out: &mut String,
    contracts: &[Deployed<Global>],
    calls: &[Call],
    scene: &Scene,
) -> Result<Published, Refused>
    requires { length calls.now < 2 ^ 32 }
{
    let mut publishing = Publishing::open(alloc, contracts, calls, &scene.cells, scene.fuel)?;
    if scene.acts.is_empty() && scene.runs.is_empty() {
        publishing.fill()?;
        return Ok(publishing.close()?);
    }
    put_runs(alloc, out, &mut publishing, contracts, calls, scene)?;
    for act in &scene.acts {
        put_act(out, &mut publishing, *act)?;
    }
    Ok(publishing.close()?)
}

/// What is published of calls within the fuel: the answers to what is done, and then the order, the calls left out, the fuel, the receipts, the locks and
/// the cells. Where nothing is done, each call that has room is published.
pub(crate) fn published(alloc: Global, lines: &[u8]) -> Result<String, Refused> {
    let scene = scene_of(alloc, lines)?;
    if scene.calls.len() > 65_535 {
        return Err(Refused::Line);
    }
    let mut out = String::new(alloc);
    let published = publish(alloc, &mut out, &scene.contracts, &scene.calls, &scene)?;
    put_published(&mut out, &published)?;
    Ok(out)
}
