//! The lines that tell what a session shows.

ghost use Rattle.std.specs.Prelude.{◌≡◌, Some, IfOk, string_bytes};
ghost use Rattle.wblock_debug.specs.Lines.{level_text, state_line, values_text, values_line, bytes_line, frame_line, frame_lines, where_text};

use debugger::OpenFrame;
use debugger::session::Session;
use spec_ledger::Receipt;
use std::alloc::{AllocError, Allocator};
use std::fmt;
use wblock_call::MaybeNumber;
use wblock_calls::{ReceiptText, ValueText};
use wtypes::{NoMemory, Value};

/// The contract and the level that a call is in, printed as ` in C level L`, or as nothing in the outer level.
#[derive(Clone, Copy)]
struct LevelText {
    contract: u32,
    level: usize,
}

impl fmt::Display for LevelText {
    ghost output = { λ l. Some (level_text l.contract l.level) };

    fn fmt<W: fmt::Write>(&self, f: &mut fmt::Formatter<W>) -> fmt::Result {
        let contract = self.contract;
        match self.level {
            0 => Ok(()),
            level => write!(f, " in {contract} level {level}"),
        }
    }
}

/// `K at F O`, with ` in C level L` behind it in a level inside the outer one; or `K done RECEIPT`.
pub(crate) fn state_line_of<A: Allocator + Copy>(
    alloc: A,
    session: &Session<'_, A>,
) -> Result<String<A>, AllocError>
    ensures { IfOk result (λ line. string_bytes line ≡ state_line session.now) }
{
    let used = session.turns();
    if let Some(outcome) = session.ending() {
        let asks = session.asks();
        let receipt = ReceiptText(Receipt {
            outcome,
            used,
            asks,
        });
        let line = format!(in alloc; "{used} done {receipt}\n")?;
        return Ok(line);
    }
    let inside = LevelText {
        contract: session.contract(),
        level: session.level(),
    };
    let line = match session.place() {
        Some((func, ordinal)) => format!(in alloc; "{used} at {func} {ordinal}{inside}\n")?,
        None => format!(in alloc; "{used}\n")?,
    };
    Ok(line)
}

/// ` VALUE` for each value.
fn values_text_of<A: Allocator + Copy>(alloc: A, values: &[Value]) -> Result<String<A>, AllocError>
    ensures { IfOk result (λ text. string_bytes text ≡ values_text values.now) }
{
    let mut text = String::new(alloc);
    for value in values {
        let value = ValueText(*value);
        let word = format!(in alloc; " {value}")?;
        text.push_str(word.as_str())?;
    }
    Ok(text)
}

/// A name and ` VALUE` for each value.
pub(crate) fn values_line_of<A: Allocator + Copy>(
    alloc: A,
    name: &str,
    values: &[Value],
) -> Result<String<A>, AllocError>
    ensures { IfOk result (λ line. string_bytes line ≡ values_line name.now values.now) }
{
    let values = values_text_of(alloc, values)?;
    let line = format!(in alloc; "{name}{values}\n")?;
    Ok(line)
}

/// The same number, with 64 bits.
fn widened(number: Option<u32>) -> Option<u64>
    ensures { result ≡ number }
{
    match number {
        None => None,
        Some(number) => Some(number as u64),
    }
}

/// `at F O in C level L`.
fn frame_line_of<A: Allocator + Copy>(alloc: A, frame: OpenFrame) -> Result<String<A>, AllocError>
    ensures { IfOk result (λ line. string_bytes line ≡ frame_line frame) }
{
    let OpenFrame {
        contract,
        level,
        func,
        ordinal,
    } = frame;
    let ordinal = MaybeNumber {
        number: widened(ordinal),
        signed: false,
    };
    let line = format!(in alloc; "at {func} {ordinal} in {contract} level {level}\n")?;
    Ok(line)
}

/// A line for each frame.
fn frame_lines_of<A: Allocator + Copy>(
    alloc: A,
    frames: &[OpenFrame],
) -> Result<String<A>, AllocError>
    ensures { IfOk result (λ text. string_bytes text ≡ frame_lines frames.now) }
{
    let mut text = String::new(alloc);
    for frame in frames {
        let line = frame_line_of(alloc, *frame)?;
        text.push_str(line.as_str())?;
    }
    Ok(text)
}

/// `where`, and behind it a line for each frame that is open.
pub(crate) fn where_text_of<A: Allocator + Copy>(
    alloc: A,
    session: &Session<'_, A>,
) -> Result<String<A>, NoMemory>
    ensures { IfOk result (λ text. string_bytes text ≡ where_text session.now) }
{
    let frames = session.frames()?;
    let lines = frame_lines_of(alloc, &frames)?;
    let text = format!(in alloc; "where\n{lines}")?;
    Ok(text)
}

/// `bytes HEX`.
pub(crate) fn bytes_line_of<A: Allocator + Copy>(
    alloc: A,
    bytes: &[u8],
) -> Result<String<A>, AllocError>
    ensures { IfOk result (λ line. string_bytes line ≡ bytes_line bytes.now) }
{
    let digits = hex::encode(alloc, bytes)?;
    let line = format!(in alloc; "bytes {digits}\n")?;
    Ok(line)
}
