//! Where the box of a position stands.

ghost use Rattle.std.specs.Prelude.{◌≡◌, ◌<◌, ◌≤◌, ◌^◌, ◌==◌, [], IfOk, length, count_by};
ghost use Rattle.wblock_picture.specs.Seats.{greatest_fuel, seats, width};

use block::Position;
use std::alloc::Global;
use wtypes::NoMemory;

/// The distance from a wave to the next.
pub(crate) const COLUMN: u64 = 200;

/// The distance from a row to the next.
pub(crate) const ROW: u64 = 24;

/// The width of the box of a call that used little.
pub(crate) const LEAST_WIDTH: u128 = 56;

/// The width of the box of the call that used most.
pub(crate) const MOST_WIDTH: u128 = 150;

/// The place of a box: its wave from left to right, its row there, and its width.
#[derive(Clone, Copy)]
pub(crate) struct Seat {
    pub(crate) wave: u32,
    pub(crate) row: u32,
    pub(crate) width: u32,
}

/// The most fuel that one of the positions used.
pub(crate) fn greatest_fuel_of(positions: &[Position]) -> u64
    ensures { result ≡ greatest_fuel positions.now }
{
    let mut greatest = 0;
    for position in positions {
        greatest = position.receipt().used.max(greatest);
    }
    greatest
}

/// The width of a box.
fn width_of(used: u64, greatest: u64) -> u32
    ensures { result ≡ width used greatest }
{
    let scaled = u128::from(used) * MOST_WIDTH / u128::from(greatest.max(1));
    scaled.min(MOST_WIDTH).max(LEAST_WIDTH) as u32
}

/// How many of the positions before are of this wave.
fn row_of(earlier: &[u32], wave: u32) -> u32
    requires { length earlier.now < 2 ^ 32 }
    ensures { result ≡ count_by (λ w. w == wave) earlier.now }
{
    let mut row = 0;
    for one in earlier {
        if *one == wave {
            row += 1;
        }
    }
    row
}

/// The place of each box.
pub(crate) fn seats_of(
    alloc: Global,
    positions: &[Position],
    waves: &[u32],
    greatest: u64,
) -> Result<Vec<Seat>, NoMemory>
    requires each { length positions.now ≡ length waves.now }
    requires few { length waves.now ≤ 2000 }
    ensures is { IfOk result (λ list. list.items ≡ seats greatest [] positions.now waves.now) }
    ensures each { IfOk result (λ list. length list.items ≡ length positions.now) }
{
    let mut list = Vec::new(alloc);
    for (at, position) in positions.iter().enumerate() {
        let wave = waves[at];
        let seat = Seat {
            wave,
            row: row_of(&waves[..at], wave),
            width: width_of(position.receipt().used, greatest),
        };
        list.push(seat)?;
    }
    Ok(list)
}
