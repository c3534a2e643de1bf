//! The command `asm TEXT MODULE [--json]`: the module that a text names, in its shortest spelling. Its tree stands in an arena.

ghost use Rattle.std.specs.Prelude.{◌≡◌, IsTrue, IfOk, IfErr, OnOk, string_bytes};
ghost use Rattle.text_resolve.specs.Refusals.{Unless};
ghost use Rattle.assembler.specs.NamedModules.{NamesNothing, IsWhy};
ghost use Rattle.wblock_line.specs.Answers.{CountsFault, IsOfFile};
ghost use Rattle.wblock_modules.specs.Assembles.{told, refusal_line, IsSpelled, IsRefusalOf, IsAnswer, Assembles};

use crate::places::{front_of, place_of_fault};
use assembler::{AsmRefusal, assemble};
use bumpalo::Bump;
use encoder::encode;
use lexer::LexRefusal;
use std::alloc::{AllocError, Global};
use std::str::from_utf8;
use wblock_io::Files;
use wblock_line::{Answer, Fault, in_form, read_file, write_counted};
use wblock_words::text_words;

/// The shortest spelling of the module that a text names. Its tree stands in an arena.
///
/// # Errors
///
/// The first refusal of the text, which then names no module; or memory was refused.
pub fn spell(alloc: Global, text: &str) -> Result<Vec<u8>, AsmRefusal>
    ensures spelled { IfOk result (λ v. IsSpelled text.now v.items) }
    ensures refused { IfErr result (Unless (NamesNothing text.now)) }
    ensures why { IfErr result (IsWhy text.now) }
{
    let arena = Bump::new(alloc);
    let tree = assemble(&arena, text)?;
    let mut bytes = Vec::new(alloc);
    match encode(&tree, &mut bytes) {
        Ok(()) => Ok(bytes),
        Err(_) => Err(AsmRefusal::NoMemory),
    }
}

/// The number of a refusal, and its place or the number of the limit that is passed; or None for lack of memory.
pub fn refusal_number(refusal: AsmRefusal) -> Option<(u8, usize)>
    ensures { result ≡ told refusal }
{
    match refusal {
        AsmRefusal::Lex(LexRefusal::BadToken(at)) => Some((1, at)),
        AsmRefusal::Lex(LexRefusal::Unclosed(at)) => Some((1, at)),
        AsmRefusal::Lex(LexRefusal::NoMemory) => None,
        AsmRefusal::Unexpected(at) => Some((2, at)),
        AsmRefusal::UnknownName(at) => Some((3, at)),
        AsmRefusal::RepeatedName(at) => Some((4, at)),
        AsmRefusal::NumberRange(at) => Some((5, at)),
        AsmRefusal::TooLarge(limit) => Some((6, limit.number() as usize)),
        AsmRefusal::NoMemory => None,
    }
}

/// The line `refused assemble N P`, and the sentence of the refusal.
fn refusal_text(
    alloc: Global,
    text: &str,
    refusal: AsmRefusal,
    number: u8,
    place: usize,
) -> Result<(String, String), AllocError>
    ensures { IfOk result (λ told. string_bytes told.0 ≡ refusal_line number place) }
{
    let line = format!(in alloc; "refused assemble {number} {place}\n")?;
    let why = text_words(alloc, text, refusal)?;
    Ok((line, why))
}

/// The answer to a text that is refused. One that is not UTF-8 is given up to where it is.
fn refuse<'a>(alloc: Global, text: &str, refusal: AsmRefusal) -> Result<Answer<'a>, Fault<'a>>
    ensures line { IfOk result (IsRefusalOf refusal) }
    ensures fault { IfErr result (λ f. f ≡ Fault.NoMemory) }
{
    let Some((number, place)) = refusal_number(refusal) else {
        return Err(Fault::NoMemory);
    };
    match refusal_text(alloc, text, refusal, number, place) {
        Ok((line, why)) => Ok(Answer::Refused(line, why)),
        Err(AllocError) => Err(Fault::NoMemory),
    }
}

/// What the bytes of a text come to.
fn answer_bytes<'a>(
    alloc: Global,
    json: bool,
    target: &'a str,
    bytes: &[u8],
) -> Result<Answer<'a>, Fault<'a>>
    ensures answer { IfOk result (IsAnswer json bytes.now target.entry.now) }
    ensures fault { IfErr result (λ f. f ≡ Fault.NoMemory) }
{
    match from_utf8(bytes) {
        Ok(text) => match spell(alloc, text) {
            Ok(spelled) => match write_counted(alloc, json, "assembled", target, spelled) {
                Ok(answer) => Ok(answer),
                Err(AllocError) => Err(Fault::NoMemory),
            },
            Err(refusal) => refuse(alloc, text, refusal),
        },
        Err(error) => {
            let front = front_of(bytes, error.valid_up_to());
            match place_of_fault(alloc, front) {
                Ok(at) => refuse(alloc, front, AsmRefusal::Lex(LexRefusal::BadToken(at))),
                Err(AllocError) => Err(Fault::NoMemory),
            }
        }
    }
}

/// What `asm` comes to: the shortest spelling of the module that the text of a file names is to be written to the file
/// `target`, or the text is refused because it names no module. It is told in a line or as JSON. No file is written yet.
pub fn assemble_file<'a, F: Files>(
    alloc: Global,
    files: &mut F,
    text: &'a str,
    target: &'a str,
    json: bool,
) -> Result<Answer<'a>, Fault<'a>>
    ensures answers { IfOk result (λ a. IsTrue F.tells → Assembles json (F.holds files.old) text.entry.now target.entry.now a) }
    ensures kept { IsTrue F.tells → F.holds files.new ≡ F.holds files.old }
    ensures calm { OnOk result (F.failures files.new ≡ F.failures files.old) }
    ensures counted { IfErr result (λ f. CountsFault f (F.failures files.old) (F.failures files.new)) }
    ensures named { IfErr result (IsOfFile (λ name. name ≡ text.entry.now)) }
{
    let bytes = read_file(alloc, files, text)?;
    let plain = answer_bytes(alloc, json, target, bytes.as_slice())?;
    in_form(alloc, json, plain)
}
