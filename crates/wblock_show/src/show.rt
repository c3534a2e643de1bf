//! A block shown, or why it is not.

ghost use Rattle.std.specs.Prelude.{◌≡◌, ◌⊎◌, ◌≤◌, ◌<◌, ◌^◌, ℕ, ◌↔◌, IfOk, IfNone, IfSome, IsTrue, MatchResult, length, string_bytes};
ghost use Rattle.sha2.specs.Sha256.{sha256};
ghost use Rattle.spec_block.specs.Worlds.{order_of, profiles_of};
ghost use Rattle.spec_block.specs.Bytes.{SpellsBlock, calls_bytes};
ghost use Rattle.spec_block.specs.Verdicts.{IsLeast};
ghost use Rattle.wblock_show.specs.Lines.{calls_of};
ghost use Rattle.wblock_show.specs.Shows.{numbers_of, other_line, AreItsCalls, AreTheCalls, IsBlockLine, IsOther, IsOtherOf, HasFew, IsTextOf, NamesNoCall, Shows, ShowsIt, TellsNoBlock, TellsOther};

use crate::lines::block_text_of;
use block::{Block, BlockRefusal, Position, digest_calls, read_block};
use call::Call;
use figures::figures_of;
use std::alloc::{AllocError, Global};
use wblock_line::Answer;
use wblock_words::{advice_on, block_words};
use wtypes::NoMemory;

/// The line of a block that is refused.
fn block_line(alloc: Global, refusal: BlockRefusal) -> Result<String, AllocError>
    ensures { IfOk result (λ line. IsBlockLine refusal (string_bytes line)) }
{
    match refusal {
        BlockRefusal::Malformed(at) => format!(in alloc; "refused block 1 {at}\n"),
        BlockRefusal::TooLarge => "refused block 2 -\n".to_string(alloc),
        BlockRefusal::NoMemory => Err(AllocError),
    }
}

/// The block that bytes spell, or the line and the sentence that say why they spell none.
pub(crate) fn judge_bytes(
    alloc: Global,
    bytes: &[u8],
) -> Result<Result<Block, (String, String)>, AllocError>
    ensures { IfOk result (λ read. MatchResult read (λ block. SpellsBlock bytes.now block) (λ told. TellsNoBlock bytes.now (string_bytes told.0))) }
{
    match read_block(alloc, bytes) {
        Ok(block) => Ok(Ok(block)),
        Err(refusal) => {
            let line = block_line(alloc, refusal)?;
            let why = block_words(alloc, bytes, refusal)?;
            Ok(Err((line, why)))
        }
    }
}

/// The first position that names no call.
fn first_without_call(calls: &[Call], positions: &[Position]) -> Option<u32>
    requires { length positions.now ≤ 65535 }
    ensures least { IfSome result (IsLeast (NamesNoCall calls.now (numbers_of positions.now))) }
    ensures none { IfNone result ((position : ℕ) → ¬ NamesNoCall calls.now (numbers_of positions.now) position) }
{
    for (at, position) in positions.iter().enumerate() {
        if position.call() as usize >= calls.len() {
            return Some(at as u32);
        }
    }
    None
}

/// Why calls are not those of a block.
#[derive(Clone, Copy, Debug, PartialEq, Eq)]
pub(crate) enum OtherCalls {
    /// They have another digest.
    Digest,
    /// This is the first position that names none of them.
    At(u32),
}

fn is_same(a: &[u8; 32], b: &[u8; 32]) -> bool
    ensures { IsTrue result ↔ (a.now ≡ b.now) }
{
    a == b
}

/// Whether calls are those of a block, and each position names one of them.
fn judge_its_calls(
    alloc: Global,
    block: &Block,
    calls: &[Call],
) -> Result<Option<OtherCalls>, NoMemory>
    requires { length calls.now ≤ 65535 }
    ensures same { IfOk result (λ other. IfNone other (AreTheCalls block.now calls.now)) }
    ensures other { IfOk result (λ other. IfSome other (IsOther block.now calls.now)) }
{
    block.use_invariant();
    let digest = digest_calls(alloc, calls)?;
    if !is_same(block.calls(), &digest) {
        return Ok(Some(OtherCalls::Digest));
    }
    match first_without_call(calls, block.positions()) {
        None => Ok(None),
        Some(position) => Ok(Some(OtherCalls::At(position))),
    }
}

fn other_line_of(alloc: Global, other: OtherCalls) -> Result<String, AllocError>
    ensures { IfOk result (λ line. string_bytes line ≡ other_line other) }
{
    match other {
        OtherCalls::Digest => "refused calls 3\n".to_string(alloc),
        OtherCalls::At(position) => format!(in alloc; "refused calls 4 {position}\n"),
    }
}

/// The sentence of calls that are not those of a block.
fn other_words(alloc: Global, other: OtherCalls) -> Result<String, AllocError> {
    match other {
        OtherCalls::Digest => {
            let advice = advice_on(3);
            format!(in alloc;
                "calls: they are not those of the block, which names another digest; {advice}"
            )
        }
        OtherCalls::At(position) => {
            let advice = advice_on(4);
            format!(in alloc;
                "block, position {position}: it names a call that is not there; {advice}"
            )
        }
    }
}

/// The answer that shows a block, with its calls where they are known.
fn shown_of<'a>(
    alloc: Global,
    block: &Block,
    calls: Option<&[Call]>,
) -> Result<Answer<'a>, NoMemory>
    ensures { IfOk result (IsTextOf block.now (calls_of calls.entry)) }
{
    let figures = figures_of(alloc, block)?;
    let text = block_text_of(alloc, block, calls, &figures)?;
    Ok(Answer::Done(Vec::new(alloc), text))
}

/// Why the calls, where they are known, are not those of a block.
pub(crate) fn other_calls(
    alloc: Global,
    block: &Block,
    calls: Option<&[Call]>,
) -> Result<Option<OtherCalls>, NoMemory>
    requires { HasFew (calls_of calls) }
    ensures same { IfOk result (λ other. IfNone other (AreItsCalls block.now (calls_of calls.entry))) }
    ensures other { IfOk result (λ other. IfSome other (IsOtherOf block.now (calls_of calls.entry))) }
{
    match calls {
        None => Ok(None),
        Some(calls) => judge_its_calls(alloc, block, calls),
    }
}

/// The answer that tells why calls are not those of a block.
pub(crate) fn tell_other<'a>(alloc: Global, other: OtherCalls) -> Result<Answer<'a>, NoMemory>
    ensures { IfOk result (TellsOther other) }
{
    let line = other_line_of(alloc, other)?;
    let why = other_words(alloc, other)?;
    Ok(Answer::Refused(line, why))
}

/// The answer that shows a block, or why the calls are not its own.
fn show_it<'a>(alloc: Global, block: &Block, calls: Option<&[Call]>) -> Result<Answer<'a>, NoMemory>
    requires { HasFew (calls_of calls) }
    ensures { IfOk result (ShowsIt block.now (calls_of calls.entry)) }
{
    match other_calls(alloc, block, calls)? {
        None => shown_of(alloc, block, calls),
        Some(other) => tell_other(alloc, other),
    }
}

/// What `show` comes to of the bytes of a block, with its calls where they are known: the text of the block with its figures, or the line
/// and the sentence that say why the bytes are no block, or why the calls are not its own.
///
/// # Errors
///
/// Memory is refused.
pub fn show_block<'a>(
    alloc: Global,
    bytes: &[u8],
    calls: Option<&[Call]>,
) -> Result<Answer<'a>, NoMemory>
    requires { HasFew (calls_of calls) }
    ensures { IfOk result (Shows bytes.now (calls_of calls.entry)) }
{
    let read = judge_bytes(alloc, bytes)?;
    match read {
        Ok(block) => show_it(alloc, &block, calls),
        Err((line, why)) => Ok(Answer::Refused(line, why)),
    }
}
