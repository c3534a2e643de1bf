//! The whole picture.

ghost use Rattle.std.specs.Prelude.{◌≡◌, IfOk, string_bytes};
ghost use Rattle.wblock_picture.specs.Pictures.{frame, picture};

use crate::boxes::boxes_of;
use crate::head::head_of;
use crate::lines::lines_of;
use crate::scene::Scene;
use crate::shown::{edges_shown, hot_shown, positions_shown, print_scene, seats_shown};
use std::alloc::{AllocError, Global};
use wtypes::NoMemory;

/// The head, the lines and the boxes put together.
fn frame_of(
    alloc: Global,
    head: &str,
    top: u64,
    lines: &str,
    boxes: &str,
) -> Result<String, AllocError>
    ensures { IfOk result (λ text. string_bytes text ≡ frame head.now top lines.now boxes.now) }
{
    format!(in alloc;
        "{head}<g transform=\"translate(24 {top})\">\n<g class=\"lines\">\n{lines}</g>\n{boxes}</g>\n</svg>\n"
    )
}

/// The picture of a block's schedule, as the text of an SVG. Each of the first 2,000 positions has a box, in the column of its wave and as wide as the fuel that it used; a line
/// goes from a position to one that waits for it, for the first 4,000 edges whose positions both have a box. What is told of a position stands where a reader points at its box.
///
/// # Errors
///
/// Memory was refused.
pub fn picture_of(alloc: Global, scene: &Scene<'_>) -> Result<String, NoMemory>
    ensures { IfOk result (λ text. string_bytes text ≡ picture scene.now) }
{
    let seats = seats_shown(alloc, scene)?;
    let told = print_scene(scene, &seats);
    let hottest = hot_shown(scene);
    let top = 116 + 16 * hottest.len() as u64;
    let head = head_of(alloc, told, hottest, top)?;
    let lines = lines_of(alloc, edges_shown(scene), &seats)?;
    let boxes = boxes_of(alloc, &seats, positions_shown(scene))?;
    let text = frame_of(alloc, head.as_str(), top, lines.as_str(), boxes.as_str())?;
    Ok(text)
}
