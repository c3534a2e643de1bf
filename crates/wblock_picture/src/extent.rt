//! How far the boxes reach.

ghost use Rattle.std.specs.Prelude.{◌≡◌, ◌≤◌, ◌^◌};
ghost use Rattle.wblock_picture.specs.Seats.{span, columns, rows};

use crate::seat::Seat;

/// How many numbers reach from 0 to the greatest of these.
pub(crate) fn span_of(numbers: &[u32]) -> u64
    ensures is { result ≡ span numbers.now }
    ensures small { result ≤ 2 ^ 32 }
{
    let mut most = 0;
    for number in numbers {
        most = (u64::from(*number) + 1).max(most);
    }
    most
}

/// How many columns reach to the last box.
pub(crate) fn columns_of(seats: &[Seat]) -> u64
    ensures is { result ≡ columns seats.now }
    ensures small { result ≤ 2 ^ 32 }
{
    let mut most = 0;
    for seat in seats {
        most = (u64::from(seat.wave) + 1).max(most);
    }
    most
}

/// How many rows reach to the last box.
pub(crate) fn rows_of(seats: &[Seat]) -> u64
    ensures is { result ≡ rows seats.now }
    ensures small { result ≤ 2 ^ 32 }
{
    let mut most = 0;
    for seat in seats {
        most = (u64::from(seat.row) + 1).max(most);
    }
    most
}
