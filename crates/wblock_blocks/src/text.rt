//! The lines of a block.

ghost use Rattle.std.specs.Prelude.{◌≡◌, ◌≤◌, IfOk, length, string_bytes};
ghost use Rattle.wblock_blocks.specs.Texts.{position_lines, left_lines, fuel_line, digest_line, end_lines, block_text};

use block::{Block, Position};
use std::alloc::{AllocError, Global};
use wblock_calls::PositionLine;

/// A line for each position.
fn position_lines_of(alloc: Global, positions: &[Position]) -> Result<String, AllocError>
    requires { length positions.now ≤ 65535 }
    ensures { IfOk result (λ text. string_bytes text ≡ position_lines 0 positions.now) }
{
    let mut text = String::new(alloc);
    let mut number: u32 = 0;
    for position in positions {
        let line = PositionLine {
            position: number,
            call: position.call(),
            receipt: position.receipt(),
        };
        let line = format!(in alloc; "{line}\n")?;
        text.push_str(line.as_str())?;
        number += 1;
    }
    Ok(text)
}

/// A line for each call that is left out.
fn left_lines_of(alloc: Global, left: &[u32]) -> Result<String, AllocError>
    ensures { IfOk result (λ text. string_bytes text ≡ left_lines left.now) }
{
    let mut text = String::new(alloc);
    for call in left {
        let line = format!(in alloc; "left {call}\n")?;
        text.push_str(line.as_str())?;
    }
    Ok(text)
}

/// The line of the fuel.
fn fuel_line_of(alloc: Global, fuel: u64) -> Result<String, AllocError>
    ensures { IfOk result (λ text. string_bytes text ≡ fuel_line fuel) }
{
    let text = format!(in alloc; "fuel {fuel}\n")?;
    Ok(text)
}

/// The line of a digest.
fn digest_line_of(alloc: Global, name: &str, digest: &[u8; 32]) -> Result<String, AllocError>
    ensures { IfOk result (λ text. string_bytes text ≡ digest_line name.now digest.now) }
{
    let digits = hex::encode(alloc, *digest)?;
    let text = format!(in alloc; "{name} {digits}\n")?;
    Ok(text)
}

/// The lines of the fuel and of the digests before and after.
fn end_lines_of(alloc: Global, block: &Block) -> Result<String, AllocError>
    ensures { IfOk result (λ text. string_bytes text ≡ end_lines block.now) }
{
    let fuel = fuel_line_of(alloc, block.fuel())?;
    let before = digest_line_of(alloc, "before", block.before())?;
    let after = digest_line_of(alloc, "after", block.after())?;
    let text = format!(in alloc; "{fuel}{before}{after}")?;
    Ok(text)
}

/// The lines of a block and of the calls that it leaves out.
pub(crate) fn block_text_of(
    alloc: Global,
    block: &Block,
    left: &[u32],
) -> Result<String, AllocError>
    ensures { IfOk result (λ text. string_bytes text ≡ block_text block.now left.now) }
{
    block.use_invariant();
    let positions = position_lines_of(alloc, block.positions())?;
    let left = left_lines_of(alloc, left)?;
    let end = end_lines_of(alloc, block)?;
    let text = format!(in alloc; "{positions}{left}{end}")?;
    Ok(text)
}
