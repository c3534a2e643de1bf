//! Modules: whether one is valid, in binary from a text, and as a text.

ghost use Rattle.std.specs.Prelude.{◌≡◌, ℕ, false, IfOk, IfErr, string_bytes};
ghost use Rattle.lexer.specs.declared.LexRefusal.TheVariants.{BadToken};
ghost use Rattle.text_resolve.specs.declared.refusal.AsmRefusal.TheVariants.{Lex};
ghost use Rattle.wblock_modules.specs.Assembles.{IsSpelled};
ghost use Rattle.wblock_modules.specs.Checks.{CountsFunctions};
ghost use Rattle.wblock_modules.specs.Texts.{IsTextOf};
ghost use Rattle.embed.specs.Refusals.{IfRefused, IsToldAs, IsUnwritten, RefusesModule, RefusesText, RefusesWriting};

use crate::failure::{Failure, Subject, refused};
use crate::inputs::refuse_stop;
use lexer::LexRefusal;
use std::alloc::{AllocError, Global};
use std::str::from_utf8;
use text_resolve::AsmRefusal;
use wblock_modules::{
    Found, count_functions, find_text, front_of, place_of_fault, refusal_number, spell,
};
use wblock_words::text_words;

/// How many functions the valid module of these bytes defines.
///
/// # Errors
///
/// Why they spell no valid module; or memory was refused.
pub fn check(alloc: Global, code: &[u8]) -> Result<usize, Failure>
    ensures counted { IfOk result (CountsFunctions code.now) }
    ensures refused { IfErr result (λ f. IfRefused f (RefusesModule code.now)) }
{
    match count_functions(alloc, alloc, code) {
        Ok(count) => Ok(count),
        Err(stop) => Err(refuse_stop(alloc, code, stop)),
    }
}

/// The failure of a text that is refused so.
fn refuse_text(alloc: Global, text: &str, refusal: AsmRefusal) -> Failure
    ensures { IfRefused result (IsToldAs refusal) }
{
    match refusal_number(refusal) {
        Some((number, place)) => refused(
            Subject::Assemble,
            number as u32,
            Some(place as u64),
            text_words(alloc, text, refusal),
        ),
        None => Failure::NoMemory,
    }
}

/// The failure of a text that is UTF-8 up to this byte alone.
fn refuse_bytes(alloc: Global, text: &[u8], upto: usize) -> Failure
    ensures { IfRefused result (λ r. (at : ℕ) × IsToldAs (Lex (BadToken at)) r) }
{
    let front = front_of(text, upto);
    match place_of_fault(alloc, front) {
        Ok(at) => refuse_text(alloc, front, AsmRefusal::Lex(LexRefusal::BadToken(at))),
        Err(AllocError) => Failure::NoMemory,
    }
}

/// The module that a text names, in its shortest spelling; or why it names none.
fn assemble_text(alloc: Global, text: &str) -> Result<Vec<u8>, Failure>
    ensures spelled { IfOk result (λ v. IsSpelled text.now v.items) }
    ensures refused { IfErr result (λ f. IfRefused f (RefusesText text.now)) }
{
    match spell(alloc, text) {
        Ok(module) => Ok(module),
        Err(refusal) => Err(refuse_text(alloc, text, refusal)),
    }
}

/// The module that a text names, in its shortest spelling.
///
/// # Errors
///
/// Why the text names none; or memory was refused.
pub fn assemble(alloc: Global, text: &[u8]) -> Result<Vec<u8>, Failure>
    ensures spelled { IfOk result (λ v. IsSpelled text.now v.items) }
    ensures refused { IfErr result (λ f. IfRefused f (RefusesText text.now)) }
{
    match from_utf8(text) {
        Ok(text) => assemble_text(alloc, text),
        Err(error) => Err(refuse_bytes(alloc, text, error.valid_up_to())),
    }
}

/// The text that was found of a module; or that there is none.
fn text_in(alloc: Global, found: Found) -> Result<String, Failure>
    ensures text { IfOk result (λ text. found ≡ Found.Text text) }
    ensures refused { IfErr result (λ f. IfRefused f (λ r. IsUnwritten found r)) }
{
    match found {
        Found::Text(text) => Ok(text),
        Found::TooLong => Err(refused(
            Subject::Text,
            1,
            None,
            Found::TooLong.advice().to_string(alloc),
        )),
        Found::Unwritten => Err(refused(
            Subject::Text,
            2,
            None,
            Found::Unwritten.advice().to_string(alloc),
        )),
    }
}

/// A text that names the valid module of these bytes.
///
/// # Errors
///
/// Why they spell no valid module, or why it has no text; or memory was refused.
pub fn text_of(alloc: Global, code: &[u8]) -> Result<String, Failure>
    ensures text { IfOk result (λ text. IsTextOf false code.now (string_bytes text)) }
    ensures refused { IfErr result (λ f. IfRefused f (RefusesWriting code.now)) }
{
    match find_text(alloc, false, code) {
        Ok(found) => text_in(alloc, found),
        Err(stop) => Err(refuse_stop(alloc, code, stop)),
    }
}
