//! The files that the commands over a world share: a world and a text of calls, read and judged.

ghost use Rattle.std.specs.Prelude.{◌≡◌, ◌≤◌, IsTrue, IfOk, IfErr, OnOk, MatchResult, vec_len, string_bytes};
ghost use Rattle.wblock_calls.specs.Texts.{SpellsCalls};
ghost use Rattle.wblock_line.specs.Answers.{CountsFault, IsOfFile};
ghost use Rattle.wblock_line.specs.Inputs.{TellsNoCalls, HasFew, Gives, GivesWorld, IsNextInput};

use crate::{Fault, judge_world, read_file};
use call::Call;
use std::alloc::{AllocError, Global};
use wblock_calls::{calls_words, read_calls, refusal_line};
use wblock_io::Files;
use world::World;

/// What the files of a world and of calls give.
#[derive(Drop)]
pub enum Inputs {
    /// The world and the calls, at most 65,535.
    Read(World, Vec<Call>),
    /// One of the files is refused, with this line: `refused world N P`, `refused calls 1 LINE` or `refused calls 2`; and with the sentence of the
    /// refusal.
    Refused(String, String),
}

/// What the file of a world gives.
#[derive(Drop)]
pub enum WorldFile {
    /// The world.
    Read(World),
    /// The file is refused, with this line, `refused world N P`, and with the sentence of the refusal.
    Refused(String, String),
}

/// Reads the file of a world and judges it. No file is written.
pub fn read_world_file<'a, F: Files>(
    alloc: Global,
    files: &mut F,
    name: &'a str,
) -> Result<WorldFile, Fault<'a>>
    ensures gives { IfOk result (λ found. IsTrue F.tells → GivesWorld (F.holds files.old) name.entry.now found) }
    ensures kept { IsTrue F.tells → F.holds files.new ≡ F.holds files.old }
    ensures calm { OnOk result (F.failures files.new ≡ F.failures files.old) }
    ensures counted { IfErr result (λ f. CountsFault f (F.failures files.old) (F.failures files.new)) }
    ensures named { IfErr result (IsOfFile (λ other. other ≡ name.entry.now)) }
{
    let bytes = read_file(alloc, files, name)?;
    match judge_world(alloc, bytes.as_slice()) {
        Ok(Ok(world)) => Ok(WorldFile::Read(world)),
        Ok(Err((line, why))) => Ok(WorldFile::Refused(line, why)),
        Err(AllocError) => Err(Fault::NoMemory),
    }
}

/// The calls that a text spells, or the line, `refused calls 1 LINE` or `refused calls 2`, and the sentence that say why it spells none.
pub fn judge_calls(
    alloc: Global,
    text: &[u8],
) -> Result<Result<Vec<Call>, (String, String)>, AllocError>
    ensures few { IfOk result (λ read. IfOk read (λ calls. vec_len calls ≤ 65535)) }
    ensures judged { IfOk result (λ read. MatchResult read (λ calls. SpellsCalls text.now calls.items) (λ told. TellsNoCalls text.now (string_bytes told.0))) }
{
    match read_calls(alloc, text) {
        Ok(calls) => Ok(Ok(calls)),
        Err(refusal) => {
            let line = refusal_line(alloc, refusal)?;
            let why = calls_words(alloc, text, refusal)?;
            Ok(Err((line, why)))
        }
    }
}

/// Reads the file of a world and judges it, and then that of the calls. No file is written.
pub fn read_inputs<'a, F: Files>(
    alloc: Global,
    files: &mut F,
    world: &'a str,
    calls: &'a str,
) -> Result<Inputs, Fault<'a>>
    ensures few { IfOk result HasFew }
    ensures gives { IfOk result (λ inputs. IsTrue F.tells → Gives (F.holds files.old) world.entry.now calls.entry.now inputs) }
    ensures kept { IsTrue F.tells → F.holds files.new ≡ F.holds files.old }
    ensures calm { OnOk result (F.failures files.new ≡ F.failures files.old) }
    ensures counted { IfErr result (λ f. CountsFault f (F.failures files.old) (F.failures files.new)) }
    ensures next { IfErr result (IsOfFile (λ name. IsTrue F.tells → IsNextInput (F.holds files.old) world.entry.now calls.entry.now name)) }
{
    let world = match read_world_file(alloc, files, world)? {
        WorldFile::Read(world) => world,
        WorldFile::Refused(line, why) => return Ok(Inputs::Refused(line, why)),
    };
    let text = read_file(alloc, files, calls)?;
    match judge_calls(alloc, text.as_slice()) {
        Ok(Ok(calls)) => Ok(Inputs::Read(world, calls)),
        Ok(Err((line, why))) => Ok(Inputs::Refused(line, why)),
        Err(AllocError) => Err(Fault::NoMemory),
    }
}
