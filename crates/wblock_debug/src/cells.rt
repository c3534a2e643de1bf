//! The lines that tell the cells of a session.

ghost use Rattle.std.specs.Prelude.{◌≡◌, IfOk, OnOk, string_bytes};
ghost use Rattle.wblock_debug.specs.Lines.{cells_text, OthersAreAsBefore};

use debugger::session::Session;
use serial::touched_by;
use std::alloc::Allocator;
use wblock_call::change_lines_of;
use wtypes::NoMemory;

/// `cells`, and behind it a line for each cell that stands otherwise than at the start of the session, keys and numbers signed or not.
pub(crate) fn cells_text_of<A: Allocator + Copy>(
    alloc: A,
    signed: bool,
    session: &Session<'_, A>,
) -> Result<String<A>, NoMemory>
    ensures text { IfOk result (λ text. string_bytes text ≡ cells_text signed session.now) }
    ensures others { OnOk result (OthersAreAsBefore session.now) }
{
    let touched = touched_by(alloc, session.trace())?;
    let changes = change_lines_of(
        alloc,
        signed,
        touched.lock_modes(),
        session.start(),
        session.cells(),
    )?;
    let text = format!(in alloc; "cells\n{changes}")?;
    Ok(text)
}
