//! Worlds read from their bytes and judged.

ghost use Rattle.std.specs.Prelude.{IfOk, MatchResult, string_bytes};
ghost use Rattle.spec_block.specs.Bytes.{SpellsWorld};
ghost use Rattle.world.specs.Views.{world_view};
ghost use Rattle.wblock_line.specs.Worlds.{IsWorldLine, TellsNoWorld};

use std::alloc::{AllocError, Global};
use wblock_words::world_words;
use world::{ReadRefusal, World, read_world};

/// The line of a world that is refused.
fn world_line(alloc: Global, refusal: ReadRefusal) -> Result<String, AllocError>
    ensures { IfOk result (λ line. IsWorldLine refusal (string_bytes line)) }
{
    let line = match refusal {
        ReadRefusal::Malformed(at) => format!(in alloc; "refused world 1 {at}\n")?,
        ReadRefusal::TooLarge => "refused world 2 -\n".to_string(alloc)?,
        ReadRefusal::NoMemory => return Err(AllocError),
    };
    Ok(line)
}

/// The world that bytes spell, or the line, `refused world N P`, and the sentence that say why they spell none.
pub fn judge_world(
    alloc: Global,
    bytes: &[u8],
) -> Result<Result<World, (String, String)>, AllocError>
    ensures { IfOk result (λ read. MatchResult read (λ world. SpellsWorld bytes.now (world_view world)) (λ told. TellsNoWorld bytes.now (string_bytes told.0))) }
{
    match read_world(alloc, bytes) {
        Ok(world) => Ok(Ok(world)),
        Err(refusal) => {
            let line = world_line(alloc, refusal)?;
            let why = world_words(alloc, bytes, refusal)?;
            Ok(Err((line, why)))
        }
    }
}
