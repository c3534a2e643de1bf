//! Modules in text that are refused.

use crate::modules::limit_words;
use crate::places::place_of;
use lexer::LexRefusal;
use std::alloc::{AllocError, Global};
use text_resolve::AsmRefusal;
use wblock_calls::printable;

/// Whether a character ends a word.
fn is_end(c: char) -> bool {
    matches!(c, ' ' | '\t' | '\r' | '\n' | '(' | ')')
}

/// The word that a text begins with. A parenthesis is a word.
fn first_word(text: &str) -> &str {
    if text.starts_with('(') {
        return "(";
    }
    if text.starts_with(')') {
        return ")";
    }
    match text.find(is_end) {
        Some(end) => text.get(..end).unwrap_or(text),
        None => text,
    }
}

/// The form to use in place of one that this profile leaves out, by the text before the word at fault and from it on.
fn form_for(before: &str, rest: &str) -> &'static str {
    let before = before.trim_end();
    let word = first_word(rest.trim_start_matches('('));
    if matches!(word, "i32" | "i64") && (before.ends_with("i32") || before.ends_with("i64")) {
        return "; write one type in each, as (param i64) (param i64)";
    }
    if before.ends_with("(data") || before.ends_with("(elem") || before.ends_with("0 (") {
        return "; write the index and the word `offset`, as (data 0 (offset (i32.const 0)) \"..\") or (elem 0 (offset (i32.const 0)) $f)";
    }
    if word.starts_with("f32") || word.starts_with("f64") {
        return "; this profile has no floating point";
    }
    if word.contains('/') {
        return "; write `_` in place of `/`, as `i32.wrap_i64`";
    }
    match word {
        "import" => "; write (import \"m\" \"n\" (func $f ..)), before all definitions",
        "export" => "; write the export as a field of its own, as (export \"m\" (memory $m))",
        "data" =>
            "; write the segment as a field of its own, as (data 0 (offset (i32.const 0)) \"..\")",
        "elem" =>
            "; write the segment as a field of its own, as (elem 0 (offset (i32.const 0)) $f)",
        "funcref" => "; write the size of the table before it, as (table 2 funcref)",
        "anyfunc" | "externref" => "; write `funcref`",
        "get_local" | "set_local" | "tee_local" => {
            "; write `local.get`, `local.set` and `local.tee`"
        }
        "get_global" | "set_global" => "; write `global.get` and `global.set`",
        "grow_memory" | "current_memory" => "; write `memory.grow` and `memory.size`",
        _ if before == "(" => "; a text is one (module ..)",
        _ => "; section 4 of docs/REFERENCE.md has the grammar",
    }
}

/// What is wrong at a place.
#[derive(Clone, Copy, Debug, PartialEq, Eq)]
enum Fault {
    /// Characters that are no token.
    NoToken,
    /// A string or a comment that is not ended.
    Unclosed,
    /// A token that may not stand there.
    Unexpected,
    /// A name or a number that stands for nothing, or for something else.
    UnknownName,
    /// A name that stands twice.
    RepeatedName,
    /// A number out of its range.
    NumberRange,
}

/// What is wrong at a place, by the text before it and from it on, and what to do.
fn cause_of(fault: Fault, before: &str, rest: &str) -> (&'static str, &'static str) {
    match fault {
        Fault::NoToken => (
            "these characters are no word of the text format",
            "; take them out",
        ),
        Fault::Unclosed if rest.starts_with('"') => (
            "the string that begins here is not ended",
            "; end it with a `\"`",
        ),
        Fault::Unclosed => (
            "the comment that begins here is not ended",
            "; end it with `;)`",
        ),
        Fault::Unexpected => ("this may not stand here", form_for(before, rest)),
        Fault::UnknownName if before.trim_end().ends_with("(type") => (
            "there is no such type, or the parameters and results beside it are not its own",
            "; types count from 0",
        ),
        Fault::UnknownName if before.trim_end().ends_with("end") => (
            "this is not the name of the block that ends here",
            "; write that name, or none",
        ),
        Fault::UnknownName if rest.starts_with('$') => (
            "nothing has this name here",
            "; mend the name, or give it to what is meant",
        ),
        Fault::UnknownName => (
            "this stands for nothing, or for something else than is written",
            "; indexes count from 0, imports first",
        ),
        Fault::RepeatedName => (
            "this name stands before in the same space",
            "; choose another",
        ),
        Fault::NumberRange if rest.starts_with("align") => (
            "the alignment is no power of two",
            "; write it in bytes, as align=4",
        ),
        Fault::NumberRange => (
            "the number is out of its range",
            "; 32 bits go from -2147483648 to 4294967295, 64 bits from -9223372036854775808 to 18446744073709551615, and an index has no sign",
        ),
    }
}

/// What is wrong where a text ends, and what to do.
fn cause_at_end(fault: Fault) -> &'static str {
    match fault {
        Fault::NoToken => "bytes that are not UTF-8; save the text as UTF-8",
        Fault::Unclosed => "a string or a comment is not ended",
        Fault::Unexpected | Fault::UnknownName | Fault::RepeatedName | Fault::NumberRange =>
            "the text ends too early; a `)` is missing, or the text is not a (module ..)",
    }
}

/// The sentence of a fault at a place of a text.
fn at_place(alloc: Global, text: &str, fault: Fault, at: usize) -> Result<String, AllocError> {
    let (Some(before), Some(rest)) = (text.get(..at), text.get(at..)) else {
        let (cause, advice) = cause_of(fault, "", text);
        return format!(in alloc; "text, byte {at}: {cause}{advice}");
    };
    let place = place_of(before);
    let line = place.line;
    let column = place.column;
    if rest.is_empty() {
        let cause = cause_at_end(fault);
        return format!(in alloc; "text, line {line}, column {column}: {cause}");
    }
    let (cause, advice) = cause_of(fault, before, rest);
    let word = printable(first_word(rest));
    format!(in alloc; "text, line {line}, column {column}, `{word}`: {cause}{advice}")
}

/// The sentence of a text that names no module. A text that is not UTF-8 is given up to where it is.
pub fn text_words(alloc: Global, text: &str, refusal: AsmRefusal) -> Result<String, AllocError> {
    let (fault, at) = match refusal {
        AsmRefusal::Lex(LexRefusal::BadToken(at)) => (Fault::NoToken, at),
        AsmRefusal::Lex(LexRefusal::Unclosed(at)) => (Fault::Unclosed, at),
        AsmRefusal::Unexpected(at) => (Fault::Unexpected, at),
        AsmRefusal::UnknownName(at) => (Fault::UnknownName, at),
        AsmRefusal::RepeatedName(at) => (Fault::RepeatedName, at),
        AsmRefusal::NumberRange(at) => (Fault::NumberRange, at),
        AsmRefusal::TooLarge(limit) => return limit_words(alloc, limit),
        AsmRefusal::Lex(LexRefusal::NoMemory) | AsmRefusal::NoMemory => return Err(AllocError),
    };
    at_place(alloc, text, fault, at)
}
