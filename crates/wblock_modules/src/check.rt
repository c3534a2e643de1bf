//! The command `check MODULE [--heap N] [--json]`: whether a module is valid. Its tree stands in an arena, or in a heap of N bytes.

ghost use Rattle.std.specs.Prelude.{◌≡◌, IsTrue, IfOk, IfErr, OnOk, string_bytes};
ghost use Rattle.serde_json.specs.View.{view};
ghost use Rattle.wblock_json.specs.Json.{IsJson, IsLineOf};
ghost use Rattle.wblock_line.specs.Answers.{CountsFault, IsOfFile};
ghost use Rattle.wblock_line.specs.Modules.{StopsAt};
ghost use Rattle.wblock_modules.specs.Checks.{CountsFunctions, IsAnswer, IsValidText, Checks, valid_line};
ghost use Rattle.wblock_modules.specs.Objects.{valid_data};

use bumpalo::Bump;
use linked_list_allocator::LocalHeap;
use serde_json::{Value as Json, json};
use std::alloc::{AllocError, Allocator, Global};
use wblock_io::Files;
use wblock_json::value_line;
use wblock_line::{Answer, Fault, Stop, in_form, read_file, read_valid};

/// The number of the functions that a valid module defines. Its tree stands under `room`.
///
/// # Errors
///
/// The first refusal of the bytes; or memory was refused.
pub fn count_functions<A: Allocator + Clone>(
    alloc: Global,
    room: A,
    bytes: &[u8],
) -> Result<usize, Stop>
    ensures counted { IfOk result (CountsFunctions bytes.now) }
    ensures refused { IfErr result (StopsAt bytes.now) }
{
    let valid = read_valid(alloc, room, bytes)?;
    Ok(valid.module().funcs.len())
}

/// The same, in an arena or in a heap of so many bytes.
fn count_in(alloc: Global, heap: Option<u32>, bytes: &[u8]) -> Result<usize, Stop>
    ensures counted { IfOk result (CountsFunctions bytes.now) }
    ensures refused { IfErr result (StopsAt bytes.now) }
{
    match heap {
        None => {
            let arena = Bump::new(alloc);
            count_functions(alloc, &arena, bytes)
        }
        Some(size) => {
            let Ok(heap) = LocalHeap::new(alloc, size as usize) else {
                return Err(Stop::NoMemory);
            };
            count_functions(alloc, &heap, bytes)
        }
    }
}

fn valid_text(alloc: Global, count: usize) -> Result<String, AllocError>
    ensures { IfOk result (λ text. string_bytes text ≡ valid_line count) }
{
    let text = format!(in alloc; "valid {count} functions\n")?;
    Ok(text)
}

#[tactic(auto, unfolding(crate::specs::Objects::valid_data))]
fn valid_of(alloc: Global, count: usize) -> Result<Json, AllocError>
    ensures { IfOk result (λ v. view v ≡ valid_data count) }
{
    json!(in alloc; {"functions": count})
}

fn valid_json(alloc: Global, count: usize) -> Result<String, AllocError>
    ensures { IfOk result (λ text. IsLineOf (IsJson (valid_data count)) (string_bytes text)) }
{
    let value = valid_of(alloc, count)?;
    value_line(alloc, &value)
}

/// What is printed of a valid module that defines so many functions.
fn valid_told(alloc: Global, json: bool, count: usize) -> Result<String, AllocError>
    ensures { IfOk result (λ text. IsValidText json count (string_bytes text)) }
{
    if json {
        valid_json(alloc, count)
    } else {
        valid_text(alloc, count)
    }
}

/// What tells a number of functions, or why a module is refused.
fn answer_bytes<'a>(
    alloc: Global,
    json: bool,
    heap: Option<u32>,
    bytes: &[u8],
) -> Result<Answer<'a>, Fault<'a>>
    ensures answer { IfOk result (IsAnswer json bytes.now) }
    ensures fault { IfErr result (λ f. f ≡ Fault.NoMemory) }
{
    match count_in(alloc, heap, bytes) {
        Ok(count) => match valid_told(alloc, json, count) {
            Ok(text) => Ok(Answer::Done(Vec::new(alloc), text)),
            Err(AllocError) => Err(Fault::NoMemory),
        },
        Err(Stop::Refused(refusal)) => match refusal.lines_of(alloc, bytes) {
            Ok((line, why)) => Ok(Answer::Refused(line, why)),
            Err(AllocError) => Err(Fault::NoMemory),
        },
        Err(Stop::NoMemory) => Err(Fault::NoMemory),
    }
}

/// What `check` comes to: how many functions the module of a file defines, where it is valid, or why it is refused. It is told in a line or as JSON. No
/// file is written.
pub fn check_module<'a, F: Files>(
    alloc: Global,
    files: &mut F,
    target: &'a str,
    heap: Option<u32>,
    json: bool,
) -> Result<Answer<'a>, Fault<'a>>
    ensures answers { IfOk result (λ a. IsTrue F.tells → Checks json (F.holds files.old) target.entry.now a) }
    ensures kept { IsTrue F.tells → F.holds files.new ≡ F.holds files.old }
    ensures calm { OnOk result (F.failures files.new ≡ F.failures files.old) }
    ensures counted { IfErr result (λ f. CountsFault f (F.failures files.old) (F.failures files.new)) }
    ensures named { IfErr result (IsOfFile (λ name. name ≡ target.entry.now)) }
{
    let bytes = read_file(alloc, files, target)?;
    let plain = answer_bytes(alloc, json, heap, bytes.as_slice())?;
    in_form(alloc, json, plain)
}
