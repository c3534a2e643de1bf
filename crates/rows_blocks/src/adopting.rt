//! Books that are closed, published by runs of their calls.

ghost use Rattle.std.specs.Prelude.{◌≡◌, ◌<◌, ◌^◌, IfSome, Some, length, slice_get};
ghost use Rattle.spec_ledger.specs.declared.Version.TheVariants.{Two};
ghost use Rattle.interp.specs.Callee.{setting_view};
ghost use Rattle.publish.specs.Adoption.{AreMade, IsMade};

use crate::publishing::put_published;
use boost::book::{Book, Run};
use call::Call;
use interp::finished::Finished;
use link::deployed::Deployed;
use lock_profile::Touched;
use publish::{CallRun, Published, Publishing};
use rows_files::Refused;
use rows_files::scene::{Made, Scene, scene_of};
use serial::{run_alone, touched_by};
use spec_ledger::{TraceStep, Version};
use std::alloc::Global;
use storage::Cells;

/// The run; none where there is no such call, or memory is refused.
fn run_of<'a>(
    alloc: Global,
    contracts: &'a [Deployed<Global>],
    calls: &'a [Call],
    made: &Made,
) -> Option<CallRun<'a>>
    ensures { IfSome result (λ run. (run.finished.setting ≡ setting_view Two contracts.now) × (slice_get calls.now run.call ≡ Some run.finished.call)) }
{
    let call = made.call;
    let known = calls.get(call as usize)?;
    let mut cells = made.cells.copy(alloc).ok()?;
    let finished = run_alone(alloc, contracts, known, &mut cells, Version::Two).ok()?;
    Some(CallRun { call, finished })
}

/// The run, with the locks that it asked for.
fn handed<'a>(
    alloc: Global,
    contracts: &'a [Deployed<Global>],
    calls: &'a [Call],
    one: &Made,
) -> Option<(CallRun<'a>, Touched)>
    ensures { IfSome result (λ r. IsMade (setting_view Two contracts.now) calls.now r.0 r.1) }
{
    let run = run_of(alloc, contracts, calls, one)?;
    let touched = touched_by(alloc, run.finished.trace()).ok()?;
    Some((run, touched))
}

/// At most two runs, with the locks that each asked for.
fn all_handed<'a>(
    alloc: Global,
    contracts: &'a [Deployed<Global>],
    calls: &'a [Call],
    all: &[Made],
) -> Option<(Vec<CallRun<'a>>, Vec<Touched>)>
    ensures { IfSome result (λ r. AreMade (setting_view Two contracts.now) calls.now r.0.items r.1.items) }
{
    match all {
        [] => Some((Vec::new(alloc), Vec::new(alloc))),
        [one] => {
            let (run, locks) = handed(alloc, contracts, calls, one)?;
            Some((vec![in alloc; run].ok()?, vec![in alloc; locks].ok()?))
        }
        [one, other] => {
            let (first, first_locks) = handed(alloc, contracts, calls, one)?;
            let (second, second_locks) = handed(alloc, contracts, calls, other)?;
            Some((
                vec![in alloc; first, second].ok()?,
                vec![in alloc; first_locks, second_locks].ok()?,
            ))
        }
        _ => None,
    }
}

/// Whether the book answers as the run says, and commits it.
fn commits(book: &mut Book, call: u32, finished: &Finished<'_, Global>) -> bool {
    let Ok(ticket) = book.begin(call) else {
        return false;
    };
    for step in finished.trace() {
        let TraceStep::Did(op, reply) = *step else {
            return false;
        };
        if book.op(&ticket, op) != Ok(reply) {
            return false;
        }
    }
    let run = Run {
        trace: finished.trace(),
        outcome: finished.outcome(),
    };
    book.commit(ticket, &run).is_ok()
}

/// A book over these cells in which the runs are committed.
fn book(
    alloc: Global,
    contracts: &[Deployed<Global>],
    calls: &[Call],
    cells: &Cells,
    committed: &[Made],
) -> Option<Book> {
    let count = u32::try_from(calls.len()).ok()?;
    let mut book = Book::open(alloc, cells.copy(alloc).ok()?, count).ok()?;
    for one in committed {
        let run = run_of(alloc, contracts, calls, one)?;
        if !commits(&mut book, run.call, &run.finished) {
            return None;
        }
    }
    Some(book)
}

/// What is published of the book by the runs, where it is over these cells; or that it is not adopted.
fn adopt_closed_book<'a>(
    alloc: Global,
    contracts: &'a [Deployed<Global>],
    calls: &'a [Call],
    cells: &'a Cells,
    fuel: u64,
    book: Book,
    runs: &[CallRun<'a>],
    touched: Vec<Touched>,
) -> Option<Option<Published>>
    requires calls { length calls.now < 2 ^ 32 }
    requires runs { AreMade (setting_view Two contracts.now) calls.now runs.now touched.items }
{
    book.use_invariant();
    let closed = book.close();
    if !closed.opening.has_cells_of(cells) {
        return None;
    }
    match Publishing::adopt_closed_book(
        alloc, contracts, calls, cells, fuel, closed, runs, touched,
    ) {
        Ok(Some(publishing)) => Some(Some(publishing.close().ok()?)),
        Ok(None) => Some(None),
        Err(_) => None,
    }
}

/// What is published of the book of a row by its runs; or that it is not adopted.
fn adopted_over(
    alloc: Global,
    contracts: &[Deployed<Global>],
    calls: &[Call],
    scene: &Scene,
) -> Option<Option<Published>>
    requires { length calls.now < 2 ^ 32 }
{
    let cells = scene.cells.copy(alloc).ok()?;
    let book = book(alloc, contracts, calls, &cells, &scene.committed)?;
    let (runs, touched) = all_handed(alloc, contracts, calls, &scene.handed)?;
    adopt_closed_book(
        alloc, contracts, calls, &cells, scene.fuel, book, &runs, touched,
    )
}

/// What is published of a book over the cells in which runs are committed, by at most two runs that are handed over when it is closed: the order, the calls left
/// out, the fuel, the receipts, the locks and the cells; or that it is not adopted.
pub(crate) fn adopted(alloc: Global, lines: &[u8]) -> Result<String, Refused> {
    let scene = scene_of(alloc, lines)?;
    if scene.calls.len() > 65_535 {
        return Err(Refused::Line);
    }
    let Some(adopted) = adopted_over(alloc, &scene.contracts, &scene.calls, &scene) else {
        return Err(Refused::Line);
    };
    let mut out = String::new(alloc);
    match adopted {
        Some(published) => put_published(&mut out, &published)?,
        None => writeln!(out, "not adopted")?,
    }
    Ok(out)
}
