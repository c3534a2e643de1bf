//! The command `text MODULE TEXT [--unchecked] [--json]`: a text that names a module.

ghost use Rattle.std.specs.Prelude.{◌≡◌, true, IsTrue, IfOk, IfErr, OnOk, string_bytes};
ghost use Rattle.module_tree.specs.Modules.{module_view};
ghost use Rattle.wblock_line.specs.Answers.{CountsFault, IsOfFile};
ghost use Rattle.wblock_line.specs.Modules.{IsUnspelled, StopsAt};
ghost use Rattle.wblock_modules.specs.Texts.{IsRead, IsFound, IsAnswer, WritesText, unwritten_line};

use module_text::{TextRefusal, text_of};
use module_tree::module::Module;
use std::alloc::{AllocError, Global};
use wblock_io::Files;
use wblock_line::{
    Answer, Fault, Stop, in_form, read_file, read_module, read_valid, write_counted,
};
use wblock_words::names_of;

/// What a module comes to.
#[derive(Drop)]
pub enum Found {
    /// This text names it.
    Text(String),
    /// Its text would be too long.
    TooLong,
    /// What was written does not name it.
    Unwritten,
}

/// The module of these bytes, where it is valid; unchecked, valid or not.
fn read_tree(alloc: Global, unchecked: bool, bytes: &[u8]) -> Result<Module<Global>, Stop>
    ensures read { IfOk result (λ m. IsRead unchecked bytes.now (module_view m)) }
    ensures refused { IfErr result (StopsAt bytes.now) }
    ensures none { IfErr result (λ s. unchecked ≡ true → IsUnspelled bytes.now s) }
{
    if unchecked {
        match read_module(alloc, bytes) {
            Ok(module) => Ok(module),
            Err(stop) => Err(stop),
        }
    } else {
        match read_valid(alloc, alloc, bytes) {
            Ok(valid) => Ok(valid.into_module()),
            Err(stop) => Err(stop),
        }
    }
}

/// The names of functions that these bytes carry, with the functions' numbers.
fn carried_names<'b>(alloc: Global, bytes: &'b [u8]) -> Result<Vec<(u32, &'b str)>, AllocError> {
    let mut names = Vec::new(alloc);
    for carried in names_of(alloc, bytes)? {
        names.push((carried.number, carried.name))?;
    }
    Ok(names)
}

/// The text of the module of these bytes, where it is valid; unchecked, valid or not. Comments in it tell the names of functions that the bytes carry.
///
/// # Errors
///
/// The first refusal of the bytes; or memory was refused.
pub fn find_text(alloc: Global, unchecked: bool, bytes: &[u8]) -> Result<Found, Stop>
    ensures found { IfOk result (IsFound unchecked bytes.now) }
    ensures refused { IfErr result (StopsAt bytes.now) }
    ensures none { IfErr result (λ s. unchecked ≡ true → IsUnspelled bytes.now s) }
{
    let tree = match read_tree(alloc, unchecked, bytes) {
        Ok(tree) => tree,
        Err(stop) => return Err(stop),
    };
    let names = match carried_names(alloc, bytes) {
        Ok(names) => names,
        Err(AllocError) => return Err(Stop::NoMemory),
    };
    match text_of(alloc, &tree, &names) {
        Ok(text) => Ok(Found::Text(text)),
        Err(TextRefusal::TooLong) => Ok(Found::TooLong),
        Err(TextRefusal::Unwritten) => Ok(Found::Unwritten),
        Err(TextRefusal::NoMemory) => Err(Stop::NoMemory),
    }
}

impl Found {
    /// Why there is no text, for people; nothing where there is one.
    pub fn advice(&self) -> &'static str {
        match self {
            Found::Text(_) => "",
            Found::TooLong => {
                "the module's text would have more than 1048576 bytes, the most that `asm` takes"
            }
            Found::Unwritten => "no text was found that names the module",
        }
    }
}

/// The line `refused text N`, and this sentence.
fn unwritten_text(alloc: Global, number: u8, why: &str) -> Result<(String, String), AllocError>
    ensures { IfOk result (λ told. string_bytes told.0 ≡ unwritten_line number) }
{
    let line = format!(in alloc; "refused text {number}\n")?;
    let why = why.to_string(alloc)?;
    Ok((line, why))
}

/// The text of the module of these bytes, or why it is refused.
#[tactic(auto, using(crate::proofs::Unread::tells_unread))]
fn answer_or_refuse<'a>(
    alloc: Global,
    unchecked: bool,
    json: bool,
    target: &'a str,
    bytes: &[u8],
) -> Result<Answer<'a>, AllocError>
    ensures { IfOk result (IsAnswer unchecked json bytes.now target.entry.now) }
{
    match find_text(alloc, unchecked, bytes) {
        Ok(Found::Text(text)) => write_counted(alloc, json, "text", target, text.into_bytes()),
        Ok(Found::TooLong) => {
            let (line, why) = unwritten_text(alloc, 1, Found::TooLong.advice())?;
            Ok(Answer::Refused(line, why))
        }
        Ok(Found::Unwritten) => {
            let (line, why) = unwritten_text(alloc, 2, Found::Unwritten.advice())?;
            Ok(Answer::Refused(line, why))
        }
        Err(Stop::Refused(refusal)) => {
            let (line, why) = refusal.lines_of(alloc, bytes)?;
            Ok(Answer::Refused(line, why))
        }
        Err(Stop::NoMemory) => Err(AllocError),
    }
}

/// What `text` comes to: a text that names the module of a file is to be written to the file `target`, where the module is valid, or, unchecked, valid or
/// not; or why it is refused. It is told in a line or as JSON. No file is written yet.
pub fn write_text<'a, F: Files>(
    alloc: Global,
    files: &mut F,
    source: &'a str,
    target: &'a str,
    unchecked: bool,
    json: bool,
) -> Result<Answer<'a>, Fault<'a>>
    ensures answers { IfOk result (λ a. IsTrue F.tells → WritesText unchecked json (F.holds files.old) source.entry.now target.entry.now a) }
    ensures kept { IsTrue F.tells → F.holds files.new ≡ F.holds files.old }
    ensures calm { OnOk result (F.failures files.new ≡ F.failures files.old) }
    ensures counted { IfErr result (λ f. CountsFault f (F.failures files.old) (F.failures files.new)) }
    ensures named { IfErr result (IsOfFile (λ name. name ≡ source.entry.now)) }
{
    let bytes = read_file(alloc, files, source)?;
    match answer_or_refuse(alloc, unchecked, json, target, bytes.as_slice()) {
        Ok(plain) => in_form(alloc, json, plain),
        Err(AllocError) => Err(Fault::NoMemory),
    }
}
