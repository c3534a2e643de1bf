//! What is wrong with a text that spells no calls, for people.

ghost use Rattle.std.specs.Prelude.{IfOk, string_bytes};
ghost use Rattle.wblock_calls.specs.Refusals.{TellsLine};

use crate::reader::{CallsRefusal, MOST_CALLS};
use crate::sentence::{place_line, printable};
use crate::words::{is_plain, number_of, values_of};
use call::Call;
use std::alloc::{AllocError, Global};
use std::str::from_utf8;

/// What is wrong with a word of a line that spells no call.
#[derive(Clone, Copy, Debug, PartialEq, Eq)]
enum WordFault {
    /// It has a carriage return.
    Return,
    /// It has a tab.
    Tab,
    /// It has another control character.
    Control,
    /// It has no characters.
    Empty,
    /// It is the number of no contract.
    Contract,
    /// It is no amount of fuel.
    Fuel,
    /// It is too long for a name.
    Name,
    /// It is no value.
    Value,
    /// It is a number without its type.
    Untyped,
    /// It is one argument too many.
    Surplus,
}

impl WordFault {
    /// The fault in words, and what to do.
    fn text(self) -> &'static str {
        match self {
            WordFault::Return => {
                "a carriage return stands here; end each line with a newline alone (LF, not CRLF)"
            }
            WordFault::Tab => "a tab stands here; write one space between words",
            WordFault::Control =>
                "a control character stands here, a byte below 32 or 127; take it out",
            WordFault::Empty => {
                "a space too many stands here; write one space between words, and none at the ends of a line"
            }
            WordFault::Contract => {
                "this is the number of no contract; the first word is a number below 4294967296, in decimal with no needless zero, as 0"
            }
            WordFault::Fuel => {
                "this is no amount of fuel; the second word is a number below 18446744073709551616, in decimal with no needless zero, as 1000"
            }
            WordFault::Name =>
                "this name is too long; the third word is the name of an exported function, of 65,535 bytes at most",
            WordFault::Value => {
                "this is no argument; write i32:N or i64:N, N in decimal and in the signed range of the type, as i64:-5"
            }
            WordFault::Untyped => "this number has no type; write i32:N or i64:N, as i64:5",
            WordFault::Surplus => "this argument is one too many; a call has 1,024 at most",
        }
    }
}

/// A word that is at fault, and its place among the bytes of the line, from 0.
#[derive(Clone, Copy, Debug, PartialEq, Eq)]
struct BadWord<'a> {
    from: usize,
    word: &'a str,
    fault: WordFault,
}

/// Whether a word is a number in decimal, of any size.
fn is_number(word: &str) -> bool {
    let digits = word.strip_prefix('-').unwrap_or(word);
    !digits.is_empty() && digits.bytes().all(|b| b.is_ascii_digit())
}

/// What is wrong with the word of this number in a line, counted from 0.
fn fault_of(alloc: Global, number: usize, word: &str) -> Result<Option<WordFault>, AllocError> {
    match number {
        0 => match number_of(alloc, word)? {
            Some(contract) if u32::try_from(contract).is_ok() => Ok(None),
            _ => Ok(Some(WordFault::Contract)),
        },
        1 => match number_of(alloc, word)? {
            Some(_) => Ok(None),
            None => Ok(Some(WordFault::Fuel)),
        },
        2 if word.is_empty() => Ok(Some(WordFault::Empty)),
        2 if !is_plain(word) => Ok(Some(WordFault::Control)),
        2 if word.len() > Call::MOST_ENTRY_BYTES => Ok(Some(WordFault::Name)),
        2 => Ok(None),
        _ if number > Call::MOST_ARGS + 2 => Ok(Some(WordFault::Surplus)),
        _ => match values_of(alloc, &[word])? {
            Some(_) => Ok(None),
            None if is_number(word) => Ok(Some(WordFault::Untyped)),
            None => Ok(Some(WordFault::Value)),
        },
    }
}

/// The fault that a byte is in a word, where it is a control character.
fn control_fault(byte: u8) -> Option<WordFault> {
    match byte {
        b'\t' => Some(WordFault::Tab),
        b'\r' => Some(WordFault::Return),
        0..=31 | 127 => Some(WordFault::Control),
        _ => None,
    }
}

/// A bad word, with the fault in its characters where there is one.
fn named(from: usize, word: &str, fault: WordFault) -> BadWord<'_> {
    if word.is_empty() {
        return BadWord {
            from,
            word,
            fault: WordFault::Empty,
        };
    }
    for (at, byte) in word.bytes().enumerate() {
        if let Some(fault) = control_fault(byte) {
            return BadWord {
                from: from.saturating_add(at),
                word,
                fault,
            };
        }
    }
    BadWord { from, word, fault }
}

/// The first word of a line that is at fault.
fn bad_word<'a>(alloc: Global, line: &'a str) -> Result<Option<BadWord<'a>>, AllocError> {
    let mut from: usize = 0;
    for (number, word) in line.split(' ').enumerate() {
        if let Some(fault) = fault_of(alloc, number, word)? {
            return Ok(Some(named(from, word, fault)));
        }
        from = from.saturating_add(word.len()).saturating_add(1);
    }
    Ok(None)
}

/// What is wrong with the first of these words of a call that may not stand there, and what to write; None where each of them may.
pub fn call_words(alloc: Global, words: &[&str]) -> Result<Option<String>, AllocError> {
    for (number, word) in words.iter().enumerate() {
        if let Some(fault) = fault_of(alloc, number, *word)? {
            let bad = named(0, *word, fault);
            let cause = bad.fault.text();
            let word = printable(bad.word);
            let said = format!(in alloc; "`{word}`: {cause}")?;
            return Ok(Some(said));
        }
    }
    Ok(None)
}

/// What is said of a line that spells no call, or is the last and not ended.
fn line_fault(alloc: Global, line: &[u8]) -> Result<String, AllocError> {
    let line = match from_utf8(line) {
        Ok(line) => line,
        Err(error) => {
            let column = error.valid_up_to().saturating_add(1);
            return format!(in alloc;
                ", column {column}: bytes that are not UTF-8; save the calls as UTF-8"
            );
        }
    };
    if line.is_empty() {
        return ": the line is empty; a line is CONTRACT FUEL ENTRY ARG.., and the last one is ended once".to_string(
            alloc,
        );
    }
    if let Some(bad) = bad_word(alloc, line)? {
        let column = bad.from.saturating_add(1);
        let cause = bad.fault.text();
        if matches!(
            bad.fault,
            WordFault::Empty | WordFault::Tab | WordFault::Return | WordFault::Control
        ) {
            return format!(in alloc; ", column {column}: {cause}");
        }
        let word = printable(bad.word);
        return format!(in alloc; ", column {column}, `{word}`: {cause}");
    }
    let column = line.len().saturating_add(1);
    if line.split(' ').count() < 3 {
        return format!(in alloc;
            ", column {column}: the line ends too early; a line is CONTRACT FUEL ENTRY ARG.."
        );
    }
    format!(in alloc; ", column {column}: the last line is not ended; end it with a newline")
}

/// The sentence of a text that spells no calls: its first line that is at fault, the first word of it that is, and what to write there.
///
/// # Errors
///
/// Memory is refused, or that is the refusal.
pub fn calls_words(alloc: Global, text: &[u8], refusal: CallsRefusal) -> Result<String, AllocError>
    ensures { IfOk result (λ s. TellsLine refusal (string_bytes s)) }
{
    match refusal {
        CallsRefusal::Line(number) => {
            let line = text.split(|b| *b == b'\n').nth(number.saturating_sub(1));
            let said = line_fault(alloc, line.unwrap_or(&[]))?;
            place_line(alloc, "calls, line ", number, said.as_str())
        }
        CallsRefusal::TooMany => place_line(
            alloc,
            "calls, line ",
            MOST_CALLS + 1,
            ": the calls from here on are too many; a block has 65,535 at most, so make more than one",
        ),
        CallsRefusal::NoMemory => Err(AllocError),
    }
}
