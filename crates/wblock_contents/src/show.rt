//! The command `show FILE`: what is in a file, whatever its kind.

ghost use Rattle.std.specs.Prelude.{◌≡◌, IsTrue, IfOk, IfErr, OnOk};
ghost use Rattle.wblock_line.specs.Answers.{CountsFault, IsOfFile};
ghost use Rattle.wblock_line.specs.Refusals.{TellsNoModule};
ghost use Rattle.wblock_line.specs.Worlds.{TellsNoWorld};
ghost use Rattle.wblock_contents.specs.Listings.{TellsModule, TellsWorld};
ghost use Rattle.wblock_contents.specs.Shows.{Answers, IsUnknown, IsShown, Shows};

use crate::kind::Kind;
use crate::modules::list_module;
use crate::worlds::list_world;
use std::alloc::{AllocError, Global};
use wblock_io::Files;
use wblock_line::{Answer, Fault, read_file};

/// What a file comes to.
#[derive(Debug, Drop)]
pub enum Contents<'a> {
    /// It holds a module or a world, or is refused: this is to be printed.
    Told(Answer<'a>),
    /// It begins as a block does: these are its bytes.
    Block(Vec<u8>),
}

/// The answer to bytes that begin as a module does.
fn module_answer<'a>(alloc: Global, bytes: &[u8]) -> Result<Answer<'a>, AllocError>
    ensures { IfOk result (Answers (TellsModule bytes.now) (TellsNoModule bytes.now)) }
{
    match list_module(alloc, bytes)? {
        Ok(text) => Ok(Answer::Done(Vec::new(alloc), text)),
        Err((line, why)) => Ok(Answer::Refused(line, why)),
    }
}

/// The answer to bytes that begin as a world does, with the numbers of its cells signed or not.
fn world_answer<'a>(alloc: Global, signed: bool, bytes: &[u8]) -> Result<Answer<'a>, AllocError>
    ensures { IfOk result (Answers (TellsWorld signed bytes.now) (TellsNoWorld bytes.now)) }
{
    match list_world(alloc, signed, bytes)? {
        Ok(text) => Ok(Answer::Done(Vec::new(alloc), text)),
        Err((line, why)) => Ok(Answer::Refused(line, why)),
    }
}

/// What is said of bytes of no kind.
fn unknown_words(bytes: &[u8]) -> &'static str {
    if bytes.is_empty() {
        return "show: the file is empty; name a module, a world or a block";
    }
    if bytes.starts_with(b"(") {
        return "show: the file is a module in text; write the module by `asm`, and name that";
    }
    "show: the file begins as no module, no world and no block; name a file as `asm`, `deploy` or `mine` wrote it"
}

/// The answer to bytes of no kind: `refused show 1`, and a sentence that says what they look like.
pub fn unknown_answer<'a>(alloc: Global, bytes: &[u8]) -> Result<Answer<'a>, AllocError>
    ensures { IfOk result IsUnknown }
{
    let line = "refused show 1\n".to_string(alloc)?;
    let why = unknown_words(bytes).to_string(alloc)?;
    Ok(Answer::Refused(line, why))
}

/// What bytes come to, with the numbers of a world's cells signed or not: those of a block are handed back.
pub fn show_bytes<'a>(
    alloc: Global,
    signed: bool,
    bytes: Vec<u8>,
) -> Result<Contents<'a>, AllocError>
    ensures { IfOk result (IsShown signed bytes.items) }
{
    match Kind::of(bytes.as_slice()) {
        Some(Kind::Module) => Ok(Contents::Told(module_answer(alloc, bytes.as_slice())?)),
        Some(Kind::World) => { Ok(Contents::Told(world_answer(alloc, signed, bytes.as_slice())?)) },
        Some(Kind::Block) => Ok(Contents::Block(bytes)),
        None => Ok(Contents::Told(unknown_answer(alloc, bytes.as_slice())?)),
    }
}

/// What `show` comes to: the lines of the module or of the world that a file holds, with the numbers of its cells signed or not, or why it is
/// refused; or the bytes of a file that begins as a block does. No file is written.
pub fn show_file<'a, F: Files>(
    alloc: Global,
    files: &mut F,
    signed: bool,
    name: &'a str,
) -> Result<Contents<'a>, Fault<'a>>
    ensures shows { IfOk result (λ c. IsTrue F.tells → Shows signed (F.holds files.old) name.entry.now c) }
    ensures kept { IsTrue F.tells → F.holds files.new ≡ F.holds files.old }
    ensures calm { OnOk result (F.failures files.new ≡ F.failures files.old) }
    ensures counted { IfErr result (λ f. CountsFault f (F.failures files.old) (F.failures files.new)) }
    ensures named { IfErr result (IsOfFile (λ other. other ≡ name.entry.now)) }
{
    let bytes = read_file(alloc, files, name)?;
    match show_bytes(alloc, signed, bytes) {
        Ok(contents) => Ok(contents),
        Err(AllocError) => Err(Fault::NoMemory),
    }
}
