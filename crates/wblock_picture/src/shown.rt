//! What of a scene is shown.

ghost use Rattle.std.specs.Prelude.{◌≡◌, ◌≤◌, ◌^◌, ◌||◌, nat_lt, IfOk, length};
ghost use Rattle.wblock_picture.specs.Pictures.{drawn, drawn_positions, drawn_seats, drawn_edges, hot_locks, told};

use crate::Edge;
use crate::extent::{columns_of, rows_of, span_of};
use crate::first::first_of;
use crate::head::Told;
use crate::scene::{MOST_BOXES, MOST_HOTTEST, MOST_LINES, Scene};
use crate::seat::{Seat, greatest_fuel_of, seats_of};
use block::Position;
use figures::SharedLock;
use std::alloc::Global;
use wtypes::NoMemory;

/// How many positions have a box.
fn drawn_of(scene: &Scene<'_>) -> usize
    ensures is { result ≡ drawn scene.now }
    ensures few { result ≤ 2000 }
    ensures positions { result ≤ length scene.now.positions.now }
    ensures waves { result ≤ length scene.now.waves.now }
{
    MOST_BOXES.min(scene.positions.len().min(scene.waves.len()))
}

/// The positions that have a box.
pub(crate) fn positions_shown<'a>(scene: &Scene<'a>) -> &'a [Position]
    ensures is { result.now ≡ drawn_positions scene.now }
    ensures few { length result.now ≤ 2000 }
{
    let drawn = drawn_of(scene);
    &scene.positions[..drawn]
}

/// Where their boxes stand.
pub(crate) fn seats_shown(alloc: Global, scene: &Scene<'_>) -> Result<Vec<Seat>, NoMemory>
    ensures is { IfOk result (λ list. list.items ≡ drawn_seats scene.now) }
    ensures each { IfOk result (λ list. length list.items ≡ length (drawn_positions scene.now)) }
{
    let drawn = drawn_of(scene);
    let positions = &scene.positions[..drawn];
    let greatest = greatest_fuel_of(positions);
    seats_of(alloc, positions, &scene.waves[..drawn], greatest)
}

/// The edges that have a line, where both their positions have a box.
pub(crate) fn edges_shown<'a>(scene: &Scene<'a>) -> &'a [Edge]
    ensures { result.now ≡ drawn_edges scene.now }
{
    first_of(scene.edges, MOST_LINES)
}

/// The hottest locks that are told.
pub(crate) fn hot_shown<'a>(scene: &Scene<'a>) -> &'a [SharedLock]
    ensures is { result.now ≡ hot_locks scene.now }
    ensures few { length result.now ≤ 5 }
{
    first_of(scene.hottest, MOST_HOTTEST)
}

fn are_more(more_edges: bool, edges: usize) -> bool
    ensures { result ≡ (more_edges || nat_lt MOST_LINES edges) }
{
    more_edges || edges > MOST_LINES
}

/// What is told above the boxes, which stand there.
pub(crate) fn print_scene(scene: &Scene<'_>, seats: &[Seat]) -> Told
    requires { seats.now ≡ drawn_seats scene.now }
    ensures is { result ≡ told scene.now }
    ensures columns { result.columns ≤ 2 ^ 32 }
    ensures rows { result.rows ≤ 2 ^ 32 }
{
    Told {
        positions: scene.positions.len(),
        waves: span_of(scene.waves),
        drawn: drawn_of(scene),
        lines: edges_shown(scene).len(),
        more: are_more(scene.more_edges, scene.edges.len()),
        greatest: greatest_fuel_of(positions_shown(scene)),
        columns: columns_of(seats),
        rows: rows_of(seats),
    }
}
