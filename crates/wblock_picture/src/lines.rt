//! The lines of a picture.

ghost use Rattle.std.specs.Prelude.{◌≡◌, IfOk, slice_get, string_bytes};
ghost use Rattle.wblock_picture.specs.Lines.{line_text, line_at, lines};

use crate::Edge;
use crate::seat::{COLUMN, ROW, Seat};
use std::alloc::{AllocError, Global};

/// How far a line goes on to the side before it bends.
const BEND: u64 = 24;

/// How far a line hangs below the middle of its boxes, so that it is seen between the rows.
const SAG: u64 = 16;

/// A line from the end of a box to the start of another.
fn line_text_of(alloc: Global, edge: Edge, before: Seat, after: Seat) -> Result<String, AllocError>
    ensures { IfOk result (λ text. string_bytes text ≡ line_text edge before after) }
{
    let x = u64::from(before.wave) * COLUMN + u64::from(before.width);
    let y = u64::from(before.row) * ROW + 9;
    let to_x = u64::from(after.wave) * COLUMN;
    let to_y = u64::from(after.row) * ROW + 9;
    let from = x + BEND;
    let low = y + SAG;
    let to = to_x.saturating_sub(BEND);
    let to_low = to_y + SAG;
    let first = edge.before;
    let second = edge.after;
    format!(in alloc;
        "<path d=\"M{x} {y}C{from} {low} {to} {to_low} {to_x} {to_y}\"><title>{second} waits for {first}</title></path>\n"
    )
}

/// The line of an edge, where both its positions have a box.
fn line_of(alloc: Global, edge: Edge, seats: &[Seat]) -> Result<String, AllocError>
    ensures { IfOk result (λ text. string_bytes text ≡ line_at edge (slice_get seats.now edge.before) (slice_get seats.now edge.after)) }
{
    let Some(before) = seats.get(edge.before as usize) else {
        return Ok(String::new(alloc));
    };
    let Some(after) = seats.get(edge.after as usize) else {
        return Ok(String::new(alloc));
    };
    line_text_of(alloc, edge, *before, *after)
}

/// A line for each edge.
pub(crate) fn lines_of(alloc: Global, edges: &[Edge], seats: &[Seat]) -> Result<String, AllocError>
    ensures { IfOk result (λ text. string_bytes text ≡ lines seats.now edges.now) }
{
    let mut text = String::new(alloc);
    for edge in edges {
        let line = line_of(alloc, *edge, seats)?;
        text.push_str(line.as_str())?;
    }
    Ok(text)
}
