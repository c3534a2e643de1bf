//! The boxes of a picture.

ghost use Rattle.std.specs.Prelude.{◌≡◌, ◌≤◌, IfOk, length, string_bytes};
ghost use Rattle.wblock_picture.specs.Boxes.{title, wave_text, box_front, box_inside, box_text, boxes};

use crate::seat::{COLUMN, ROW, Seat};
use crate::words::{letter_of, locks_text_of};
use block::Position;
use std::alloc::{AllocError, Global};
use wblock_calls::PositionLine;

/// What is told of a position: its line, its wave and its locks.
fn title_of(
    alloc: Global,
    number: u32,
    seat: Seat,
    position: &Position,
) -> Result<String, AllocError>
    ensures { IfOk result (λ text. string_bytes text ≡ title number seat position.now) }
{
    let line = PositionLine {
        position: number,
        call: position.call(),
        receipt: position.receipt(),
    };
    let wave = seat.wave;
    let locks = locks_text_of(alloc, position.profile().entries())?;
    format!(in alloc; "{line}\nwave {wave}{locks}")
}

/// The name of a wave, above its first box.
fn wave_text_of(alloc: Global, seat: Seat) -> Result<String, AllocError>
    ensures { IfOk result (λ text. string_bytes text ≡ wave_text seat) }
{
    let wave = seat.wave;
    let x = u64::from(wave) * COLUMN;
    match seat.row {
        0 => format!(in alloc; "<text x=\"{x}\" y=\"-8\">wave {wave}</text>\n"),
        _ => Ok(String::new(alloc)),
    }
}

/// The group of a box at this place.
fn box_front_of(alloc: Global, letter: &str, x: u64, y: u64) -> Result<String, AllocError>
    ensures { IfOk result (λ text. string_bytes text ≡ box_front letter.now x y) }
{
    format!(in alloc; "<g class=\"{letter}\" transform=\"translate({x} {y})\">")
}

/// The box in it, with what is told of it behind it.
fn box_inside_of(
    alloc: Global,
    letter: &str,
    title: &str,
    width: u32,
    number: u32,
) -> Result<String, AllocError>
    ensures { IfOk result (λ text. string_bytes text ≡ box_inside letter.now title.now width number) }
{
    format!(in alloc;
        "<title>{title}</title><rect width=\"{width}\" height=\"18\"/><text x=\"5\" y=\"13\">{letter} {number}</text></g>\n"
    )
}

/// The box of a position.
fn box_text_of(
    alloc: Global,
    number: u32,
    seat: Seat,
    position: &Position,
) -> Result<String, AllocError>
    ensures { IfOk result (λ text. string_bytes text ≡ box_text number seat position.now) }
{
    let wave = wave_text_of(alloc, seat)?;
    let title = title_of(alloc, number, seat, position)?;
    let letter = letter_of(position.receipt().outcome);
    let x = u64::from(seat.wave) * COLUMN;
    let y = u64::from(seat.row) * ROW;
    let front = box_front_of(alloc, letter, x, y)?;
    let inside = box_inside_of(alloc, letter, title.as_str(), seat.width, number)?;
    format!(in alloc; "{wave}{front}{inside}")
}

/// A box for each position, the first of them.
pub(crate) fn boxes_of(
    alloc: Global,
    seats: &[Seat],
    positions: &[Position],
) -> Result<String, AllocError>
    requires each { length seats.now ≡ length positions.now }
    requires few { length positions.now ≤ 2000 }
    ensures { IfOk result (λ text. string_bytes text ≡ boxes 0 seats.now positions.now) }
{
    let mut text = String::new(alloc);
    let mut number: u32 = 0;
    for position in positions {
        let seat = seats[number as usize];
        let one = box_text_of(alloc, number, seat, position)?;
        text.push_str(one.as_str())?;
        number += 1;
    }
    Ok(text)
}
