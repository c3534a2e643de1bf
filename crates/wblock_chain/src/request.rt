//! A line of a session, read with the calls behind it.

ghost use Rattle.std.specs.Prelude.{◌≡◌, ◌∷◌, ◌++◌, [], Err, IfOk, IfSome, OnOk, IsTrue, if◌then◌else◌};
ghost use Rattle.byte_sinks.specs.Putting.{IsRaised};
ghost use Rattle.wblock_io.specs.declared.lines.LineFault.{LineFault as Why};
ghost use Rattle.wblock_calls.specs.Texts.{words_of};
ghost use Rattle.wblock_chain.specs.Requests.{IsRequest, IsCallsRead, TakesCalls};
ghost use Rattle.wblock_chain.specs.Words.{takes_calls};

use crate::asked::takes_calls;
use std::alloc::{AllocError, Global};
use wblock_calls::split_words;
use wblock_io::{LineFault, Lines, NextLine};

/// A line of a session.
#[derive(Debug, Drop)]
pub(crate) enum Request {
    /// A text, and the text of the calls behind it, where it asks for them.
    Text(String, Option<Vec<u8>>),
    /// The line or one behind it is longer than 1,048,576 bytes.
    TooLong,
    /// The line is not UTF-8.
    NotUtf8,
}

/// The calls behind a line, or why there are none.
#[derive(Debug, Drop)]
pub(crate) enum CallsRead {
    /// Their text, each line with its newline.
    Text(Vec<u8>),
    /// One of their lines is too long.
    TooLong,
    /// No empty line ends them.
    Unfinished,
}

/// Whether the words of a text ask for calls behind it.
fn asks_calls(alloc: Global, text: &str) -> Result<bool, AllocError>
    ensures { IfOk result (λ asks. asks ≡ takes_calls (words_of text.now)) }
{
    let words = split_words(alloc, text)?;
    Ok(takes_calls(words.as_slice()))
}

/// Reads the calls behind a line, up to an empty line.
fn read_calls<L: Lines>(alloc: Global, lines: &mut L) -> Result<CallsRead, LineFault>
    ensures read { IfOk result (λ found. IsTrue L.tells → IsCallsRead (L.coming lines.old) found (L.coming lines.new)) }
    ensures calm { OnOk result (L.failures lines.new ≡ L.failures lines.old) }
    ensures counted { result ≡ Err Why.Failed → IsRaised (L.failures lines.old) (L.failures lines.new) }
{
    let mut text = Vec::new(alloc);
    let mut fits = true;
    for _ in 0..u64::MAX {
        let line = match lines.next_line(alloc)? {
            NextLine::End => return Ok(CallsRead::Unfinished),
            NextLine::TooLong => {
                fits = false;
                continue;
            }
            NextLine::Line(line) => line,
        };
        if line.is_empty() {
            return Ok(calls_read(text, fits));
        }
        let Ok(()) = keep_line(&mut text, line.as_slice(), fits) else {
            return Err(LineFault::NoMemory);
        };
    }
    // so many lines have no room
    Err(LineFault::NoMemory)
}

/// What was read of calls that are ended: their text, where none of them is too long.
fn calls_read(text: Vec<u8>, fits: bool) -> CallsRead
    ensures { result ≡ (if fits then CallsRead.Text text else CallsRead.TooLong) }
{
    if fits {
        CallsRead::Text(text)
    } else {
        CallsRead::TooLong
    }
}

/// Puts a line and its newline behind a text, where the text is kept.
fn keep_line(text: &mut Vec<u8>, line: &[u8], keeps: bool) -> Result<(), AllocError>
    ensures { OnOk result (text.new.items ≡ (if keeps then text.old.items ++ line.now ++ 10 ∷ [] else text.old.items)) }
{
    if !keeps {
        return Ok(());
    }
    text.extend_from_slice(line)?;
    text.push(b'\n')?;
    Ok(())
}

/// Reads the next line of a session, with the calls behind it. None where no line is left, or one whose calls are not ended.
pub(crate) fn next_request<L: Lines>(
    alloc: Global,
    lines: &mut L,
) -> Result<Option<Request>, LineFault>
    ensures read { IfOk result (λ found. IsTrue L.tells → IsRequest (L.coming lines.old) found (L.coming lines.new)) }
    ensures asked { IfOk result (λ found. IfSome found TakesCalls) }
    ensures calm { OnOk result (L.failures lines.new ≡ L.failures lines.old) }
    ensures counted { result ≡ Err Why.Failed → IsRaised (L.failures lines.old) (L.failures lines.new) }
{
    let line = match lines.next_line(alloc)? {
        NextLine::End => return Ok(None),
        NextLine::TooLong => return Ok(Some(Request::TooLong)),
        NextLine::Line(line) => line,
    };
    let Ok(text) = String::from_utf8(line) else {
        return Ok(Some(Request::NotUtf8));
    };
    let Ok(asks) = asks_calls(alloc, text.as_str()) else {
        return Err(LineFault::NoMemory);
    };
    if !asks {
        return Ok(Some(Request::Text(text, None)));
    }
    match read_calls(alloc, lines)? {
        CallsRead::Text(calls) => Ok(Some(Request::Text(text, Some(calls)))),
        CallsRead::TooLong => Ok(Some(Request::TooLong)),
        CallsRead::Unfinished => Ok(None),
    }
}
