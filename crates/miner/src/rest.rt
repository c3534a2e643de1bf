// What the workers leave to the caller, and the room that they keep their work in.
ghost use Rattle.std.specs.Prelude.{◌≡◌, length};
ghost use Rattle.book_workers.specs.Intakes.{IsSeatOf};

use book_workers::{Intake, Seat};
use call::Call;
use spec_ledger::NoMemory;
use std::alloc::Allocator;
use std::sync::Wait;

/// How many bytes a piece of room has: fewer than what the C library takes from the system by itself.
const PIECE: usize = 65_000;

/// For how many calls of a block each worker takes a piece.
const CALLS_OF_A_PIECE: usize = 512;

/// Takes memory in large pieces, and gives it back: about a worker's share of what many calls keep. The C library lets the heap of a thread grow
/// page by page, with a call of the system for each, but what it has grown to once it keeps.
pub(crate) fn make_room<A: Allocator + Copy>(alloc: A, calls: usize) -> Result<(), NoMemory> {
    let mut pieces: Vec<Vec<u8, A>, A> = Vec::new(alloc);
    for _ in 0..calls / CALLS_OF_A_PIECE {
        pieces.push(Vec::with_capacity(alloc, PIECE)?)?;
    }
    Ok(())
}

/// The calls that nobody drew, since each worker was stopped. A call whose limit cannot be reserved is left out.
pub(crate) fn draw_rest<A: Allocator + Copy, R: Wait>(
    rt: &R,
    alloc: A,
    calls: &[Call],
    intake: &Intake<A>,
    mut seat: Seat,
) -> Result<Vec<u32, A>, NoMemory>
    requires calls { intake.now.limits.calls ≡ length calls.now }
    requires seat { IsSeatOf intake.now seat }
{
    let mut rest = Vec::new(alloc);
    for _ in 0..calls.len() {
        let Some(number) = intake.draw(&mut seat) else {
            break;
        };
        let limit = calls[number as usize].fuel();
        if intake.reserve(rt, &mut seat, limit) {
            rest.push(number)?;
        }
    }
    Ok(rest)
}
