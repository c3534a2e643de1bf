//! What a command comes to before anything is written or printed.

ghost use Rattle.std.specs.Prelude.{◌≡◌, false, IsTrue, IfOk, IfErr, OnOk, Some, string_bytes};
ghost use Rattle.serde_json.specs.View.{view};
ghost use Rattle.wblock_json.specs.Json.{IsJson, IsLineOf};
ghost use Rattle.wblock_line.specs.Answers.{CountsFault, IsCounted, IsOfFile};
ghost use Rattle.wblock_line.specs.Forms.{bytes_data, IsCountText};

use serde_json::{Value as Json, json};
use std::alloc::{AllocError, Global};
use wblock_io::{Cause, Files, ReadFault};
use wblock_json::value_line;

/// What a file is to hold.
#[derive(Debug, Drop)]
pub struct Write<'a> {
    /// The file's name.
    pub name: &'a str,
    /// All of its bytes.
    pub bytes: Vec<u8>,
}

/// What a command comes to.
#[derive(Debug, Drop)]
pub enum Answer<'a> {
    /// It is done: these files are to be written, one after another, and then this text is to be printed.
    Done(Vec<Write<'a>>, String),
    /// It is refused: this line is to be printed, and then this sentence, which says why, is to be said on standard error. The sentence has no
    /// newline, and no clause speaks of its words.
    Refused(String, String),
}

/// How many bytes were written, as JSON.
#[tactic(auto, unfolding(crate::specs::Forms::bytes_data))]
fn bytes_of(alloc: Global, count: usize) -> Result<Json, AllocError>
    ensures { IfOk result (λ v. view v ≡ bytes_data count) }
{
    json!(in alloc; {"bytes": count})
}

/// The line of the same.
fn bytes_json(alloc: Global, count: usize) -> Result<String, AllocError>
    ensures { IfOk result (λ text. IsLineOf (IsJson (bytes_data count)) (string_bytes text)) }
{
    let value = bytes_of(alloc, count)?;
    value_line(alloc, &value)
}

/// `WORD N bytes`.
fn count_line(alloc: Global, word: &str, count: usize) -> Result<String, AllocError>
    ensures { IfOk result (λ text. IsCountText false word.now count (string_bytes text)) }
{
    let line = format!(in alloc; "{word} {count} bytes\n")?;
    Ok(line)
}

/// The same, or as JSON.
fn count_told(alloc: Global, json: bool, word: &str, count: usize) -> Result<String, AllocError>
    ensures { IfOk result (λ text. IsCountText json word.now count (string_bytes text)) }
{
    if json {
        bytes_json(alloc, count)
    } else {
        count_line(alloc, word, count)
    }
}

/// The answer that writes one file, and tells how many bytes it has: `WORD N bytes`, or the same as JSON.
///
/// # Errors
///
/// The allocator refused memory.
pub fn write_counted<'a>(
    alloc: Global,
    json: bool,
    word: &str,
    name: &'a str,
    bytes: Vec<u8>,
) -> Result<Answer<'a>, AllocError>
    ensures { IfOk result (IsCounted json word.now name.entry.now bytes.items) }
{
    let text = count_told(alloc, json, word, bytes.len())?;
    let mut writes = Vec::new(alloc);
    writes.push(Write { name, bytes })?;
    Ok(Answer::Done(writes, text))
}

/// Why a command comes to nothing.
#[derive(Clone, Copy, Debug)]
pub enum Fault<'a> {
    /// The file of this name was not read or not written, for this cause.
    File(&'a str, Cause),
    /// Memory was refused.
    NoMemory,
}

/// The bytes of a file.
pub fn read_file<'a, F: Files>(
    alloc: Global,
    files: &mut F,
    name: &'a str,
) -> Result<Vec<u8>, Fault<'a>>
    ensures bytes { IfOk result (λ v. IsTrue F.tells → F.holds files.old name.entry.now ≡ Some v.items) }
    ensures kept { IsTrue F.tells → F.holds files.new ≡ F.holds files.old }
    ensures calm { OnOk result (F.failures files.new ≡ F.failures files.old) }
    ensures counted { IfErr result (λ f. CountsFault f (F.failures files.old) (F.failures files.new)) }
    ensures named { IfErr result (IsOfFile (λ other. other ≡ name.entry.now)) }
{
    match files.read_all(alloc, name) {
        Ok(bytes) => Ok(bytes),
        Err(ReadFault::Failed(cause)) => Err(Fault::File(name, cause)),
        Err(ReadFault::NoMemory) => Err(Fault::NoMemory),
    }
}
