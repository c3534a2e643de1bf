//! The command `show FILE --json [--calls CALLS] [--signed]`: what is in a module, a world or a block, as one JSON object on a line.

ghost use Rattle.std.specs.Prelude.{◌≡◌, IsTrue, IfOk, IfErr, MatchResult, OnOk, string_bytes};
ghost use Rattle.module_tree.specs.Modules.{module_view};
ghost use Rattle.typing.specs.Parts.{tree_of};
ghost use Rattle.world.specs.Views.{world_view};
ghost use Rattle.wblock_json.specs.Json.{IsLineOf};
ghost use Rattle.wblock_json.specs.Blocks.{IsBlockJson};
ghost use Rattle.wblock_json.specs.Modules.{IsModuleJson};
ghost use Rattle.wblock_json.specs.Worlds.{IsWorldJson};
ghost use Rattle.wblock_line.specs.Answers.{CountsFault, IsOfFile};
ghost use Rattle.wblock_line.specs.Refusals.{TellsNoModule};
ghost use Rattle.wblock_line.specs.Worlds.{TellsNoWorld};
ghost use Rattle.wblock_contents.specs.Shows.{Answers};
ghost use Rattle.wblock_show.specs.Json.{IsJsonOf, IsTold, TellsBlock, TellsFileBlock, TellsIt, TellsJson, TellsModuleJson, TellsNamed, TellsWorldJson};
ghost use Rattle.wblock_show.specs.Lines.{calls_of};
ghost use Rattle.wblock_show.specs.Shows.{known, HasFew, IsNextFile};

use crate::file::{Named, Showing, read_named};
use crate::show::{judge_bytes, other_calls, tell_other};
use block::Block;
use call::Call;
use std::alloc::{AllocError, Global};
use typing::valid::Valid;
use wblock_contents::{Kind, unknown_answer};
use wblock_io::Files;
use wblock_json::{block_json, line_of, module_json, world_json};
use wblock_line::{Answer, Fault, Stop, in_form, judge_world, read_file, read_valid};
use world::World;
use wtypes::NoMemory;

// ---- blocks

/// The line of a block with its figures, and with its calls where they are known.
fn block_line_of(alloc: Global, block: &Block, calls: Option<&[Call]>) -> Result<String, AllocError>
    ensures { IfOk result (λ text. IsLineOf (IsBlockJson block.now (calls_of calls.entry)) (string_bytes text)) }
{
    let json = block_json(alloc, block, calls)?;
    line_of(json)
}

/// The answer that tells a block, with its calls where they are known.
fn block_answer<'a>(
    alloc: Global,
    block: &Block,
    calls: Option<&[Call]>,
) -> Result<Answer<'a>, NoMemory>
    ensures { IfOk result (IsJsonOf block.now (calls_of calls.entry)) }
{
    let text = block_line_of(alloc, block, calls)?;
    Ok(Answer::Done(Vec::new(alloc), text))
}

/// The answer that tells a block, or why the calls are not its own.
fn tell_it<'a>(alloc: Global, block: &Block, calls: Option<&[Call]>) -> Result<Answer<'a>, NoMemory>
    requires { HasFew (calls_of calls) }
    ensures { IfOk result (TellsIt block.now (calls_of calls.entry)) }
{
    match other_calls(alloc, block, calls)? {
        None => block_answer(alloc, block, calls),
        Some(other) => tell_other(alloc, other),
    }
}

/// What is told of the bytes of a block, with its calls where they are known: the line of its JSON, or why the bytes are no block, or why the
/// calls are not its own.
fn tell_block<'a>(
    alloc: Global,
    bytes: &[u8],
    calls: Option<&[Call]>,
) -> Result<Answer<'a>, NoMemory>
    requires { HasFew (calls_of calls) }
    ensures { IfOk result (TellsBlock bytes.now (calls_of calls.entry)) }
{
    let read = judge_bytes(alloc, bytes)?;
    match read {
        Ok(block) => tell_it(alloc, &block, calls),
        Err((line, why)) => Ok(Answer::Refused(line, why)),
    }
}

/// The same, with the calls that a file gave.
fn tell_known<'a>(
    alloc: Global,
    bytes: &[u8],
    calls: &Option<Vec<Call>>,
) -> Result<Answer<'a>, NoMemory>
    requires { HasFew (known calls.now) }
    ensures { IfOk result (TellsBlock bytes.now (known calls.now)) }
{
    match calls {
        None => tell_block(alloc, bytes, None),
        Some(calls) => tell_block(alloc, bytes, Some(calls.as_slice())),
    }
}

/// What is told of the block of a file, with its calls where a file of these is named.
fn tell_file_block<'a, F: Files>(
    alloc: Global,
    files: &mut F,
    task: Showing<'a>,
) -> Result<Answer<'a>, Fault<'a>>
    ensures answers { IfOk result (λ a. IsTrue F.tells → TellsFileBlock (F.holds files.old) task.entry a) }
    ensures kept { IsTrue F.tells → F.holds files.new ≡ F.holds files.old }
    ensures calm { OnOk result (F.failures files.new ≡ F.failures files.old) }
    ensures counted { IfErr result (λ f. CountsFault f (F.failures files.old) (F.failures files.new)) }
    ensures next { IfErr result (IsOfFile (λ name. IsTrue F.tells → IsNextFile (F.holds files.old) task.entry name)) }
{
    let calls = match read_named(alloc, files, task.calls)? {
        Named::Calls(calls) => calls,
        Named::Refused(line, why) => return Ok(Answer::Refused(line, why)),
    };
    let bytes = read_file(alloc, files, task.file)?;
    match tell_known(alloc, bytes.as_slice(), &calls) {
        Ok(answer) => Ok(answer),
        Err(NoMemory) => Err(Fault::NoMemory),
    }
}

// ---- modules and worlds

/// The line of the valid module that bytes spell.
fn module_line_of(alloc: Global, bytes: &[u8], valid: &Valid<Global>) -> Result<String, AllocError>
    ensures { IfOk result (λ text. IsLineOf (IsModuleJson bytes.now (module_view (tree_of valid.now))) (string_bytes text)) }
{
    let json = module_json(alloc, bytes, valid.module())?;
    line_of(json)
}

/// The line of the valid module of these bytes, or the line and the sentence that say why they are no valid module.
fn tell_module(alloc: Global, bytes: &[u8]) -> Result<Result<String, (String, String)>, AllocError>
    ensures { IfOk result (λ read. MatchResult read (λ text. TellsModuleJson bytes.now (string_bytes text)) (λ told. TellsNoModule bytes.now (string_bytes told.0))) }
{
    match read_valid(alloc, alloc, bytes) {
        Ok(valid) => {
            let text = module_line_of(alloc, bytes, &valid)?;
            Ok(Ok(text))
        }
        Err(Stop::Refused(refusal)) => {
            let told = refusal.lines_of(alloc, bytes)?;
            Ok(Err(told))
        }
        Err(Stop::NoMemory) => Err(AllocError),
    }
}

/// The line of a world, with the numbers of its cells signed or not.
fn world_line_of(alloc: Global, signed: bool, world: &World) -> Result<String, AllocError>
    ensures { IfOk result (λ text. IsLineOf (IsWorldJson signed (world_view world.now)) (string_bytes text)) }
{
    let json = world_json(alloc, signed, world)?;
    line_of(json)
}

/// The line of the world of these bytes, or the line and the sentence that say why they are no world.
fn tell_world(
    alloc: Global,
    signed: bool,
    bytes: &[u8],
) -> Result<Result<String, (String, String)>, AllocError>
    ensures { IfOk result (λ read. MatchResult read (λ text. TellsWorldJson signed bytes.now (string_bytes text)) (λ told. TellsNoWorld bytes.now (string_bytes told.0))) }
{
    match judge_world(alloc, bytes)? {
        Ok(world) => {
            let text = world_line_of(alloc, signed, &world)?;
            Ok(Ok(text))
        }
        Err(told) => Ok(Err(told)),
    }
}

// ---- files of any kind

/// The answer to bytes that begin as a module does.
fn module_answer<'a>(alloc: Global, bytes: &[u8]) -> Result<Answer<'a>, AllocError>
    ensures { IfOk result (Answers (TellsModuleJson bytes.now) (TellsNoModule bytes.now)) }
{
    match tell_module(alloc, bytes)? {
        Ok(text) => Ok(Answer::Done(Vec::new(alloc), text)),
        Err((line, why)) => Ok(Answer::Refused(line, why)),
    }
}

/// The answer to bytes that begin as a world does.
fn world_answer<'a>(alloc: Global, signed: bool, bytes: &[u8]) -> Result<Answer<'a>, AllocError>
    ensures { IfOk result (Answers (TellsWorldJson signed bytes.now) (TellsNoWorld bytes.now)) }
{
    match tell_world(alloc, signed, bytes)? {
        Ok(text) => Ok(Answer::Done(Vec::new(alloc), text)),
        Err((line, why)) => Ok(Answer::Refused(line, why)),
    }
}

/// What is told of bytes, whatever their kind, with the numbers of a world's cells signed or not.
fn tell_bytes<'a>(alloc: Global, signed: bool, bytes: &[u8]) -> Result<Answer<'a>, NoMemory>
    ensures { IfOk result (IsTold signed bytes.now) }
{
    match Kind::of(bytes) {
        Some(Kind::Module) => Ok(module_answer(alloc, bytes)?),
        Some(Kind::World) => Ok(world_answer(alloc, signed, bytes)?),
        Some(Kind::Block) => {
            let answer = tell_block(alloc, bytes, None)?;
            Ok(answer)
        }
        None => Ok(unknown_answer(alloc, bytes)?),
    }
}

/// What is told of the module, the world or the block of a file, or why it is refused, by a line; where a file of calls is named, of the block with
/// its calls. No file is written.
fn plain_named<'a, F: Files>(
    alloc: Global,
    files: &mut F,
    task: Showing<'a>,
) -> Result<Answer<'a>, Fault<'a>>
    ensures answers { IfOk result (λ a. IsTrue F.tells → TellsNamed (F.holds files.old) task.entry a) }
    ensures kept { IsTrue F.tells → F.holds files.new ≡ F.holds files.old }
    ensures calm { OnOk result (F.failures files.new ≡ F.failures files.old) }
    ensures counted { IfErr result (λ f. CountsFault f (F.failures files.old) (F.failures files.new)) }
    ensures next { IfErr result (IsOfFile (λ name. IsTrue F.tells → IsNextFile (F.holds files.old) task.entry name)) }
{
    if task.calls.is_some() {
        return tell_file_block(alloc, files, task);
    }
    let bytes = read_file(alloc, files, task.file)?;
    match tell_bytes(alloc, task.signed, bytes.as_slice()) {
        Ok(answer) => Ok(answer),
        Err(NoMemory) => Err(Fault::NoMemory),
    }
}

/// What `show --json` comes to: one JSON object, on a line, of what is in the module, the world or the block of a file, or of why it is refused; where a
/// file of calls is named, of the block with its calls. No file is written.
pub fn json_named<'a, F: Files>(
    alloc: Global,
    files: &mut F,
    task: Showing<'a>,
) -> Result<Answer<'a>, Fault<'a>>
    ensures answers { IfOk result (λ a. IsTrue F.tells → TellsJson (F.holds files.old) task.entry a) }
    ensures kept { IsTrue F.tells → F.holds files.new ≡ F.holds files.old }
    ensures calm { OnOk result (F.failures files.new ≡ F.failures files.old) }
    ensures counted { IfErr result (λ f. CountsFault f (F.failures files.old) (F.failures files.new)) }
    ensures next { IfErr result (IsOfFile (λ name. IsTrue F.tells → IsNextFile (F.holds files.old) task.entry name)) }
{
    match plain_named(alloc, files, task) {
        Ok(plain) => in_form(alloc, true, plain),
        Err(fault) => Err(fault),
    }
}
