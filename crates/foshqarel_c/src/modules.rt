//! The exports on modules.

ghost use Rattle.std.specs.Prelude.{false};
ghost use Rattle.wblock_modules.specs.Assembles.{IsSpelled};
ghost use Rattle.wblock_modules.specs.Checks.{CountsFunctions};
ghost use Rattle.wblock_modules.specs.Texts.{IsTextOf};
ghost use Rattle.embed.specs.Refusals.{RefusesModule, RefusesText, RefusesWriting};
ghost use Rattle.foshqarel_c.specs.Buffers.{Comes, Counts};

use crate::buffers::{count, fail, give};
use crate::told::Told;
use std::alloc::Global;

/// Whether the bytes spell a valid module; `told.size` is how many functions it defines.
#[unsafe(no_mangle)]
pub extern "C" fn foshqarel_check(
    alloc: Global,
    code: &[u8],
    sentence: &mut [u8],
    told: &mut Told,
) -> u32
    ensures { Counts (CountsFunctions code.now) (RefusesModule code.now) sentence.old sentence.new told.new result }
{
    match embed::check(alloc, code) {
        Ok(functions) => count(functions, told),
        Err(failure) => fail(failure, sentence, told),
    }
}

/// The module that a text names, in its shortest spelling.
#[unsafe(no_mangle)]
pub extern "C" fn foshqarel_assemble(
    alloc: Global,
    text: &[u8],
    code: &mut [u8],
    told: &mut Told,
) -> u32
    ensures { Comes (IsSpelled text.now) (RefusesText text.now) code.old code.new told.new result }
{
    match embed::assemble(alloc, text) {
        Ok(bytes) => give(&bytes, code, told),
        Err(failure) => fail(failure, code, told),
    }
}

/// A text that names the valid module of these bytes.
#[unsafe(no_mangle)]
pub extern "C" fn foshqarel_text(
    alloc: Global,
    code: &[u8],
    text: &mut [u8],
    told: &mut Told,
) -> u32
    ensures { Comes (IsTextOf false code.now) (RefusesWriting code.now) text.old text.new told.new result }
{
    match embed::text_of(alloc, code) {
        Ok(written) => give(written.as_bytes(), text, told),
        Err(failure) => fail(failure, text, told),
    }
}
