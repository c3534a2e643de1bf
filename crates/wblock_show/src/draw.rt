//! The command `show BLOCK --svg PICTURE`: a picture of the block of a file.

ghost use Rattle.std.specs.Prelude.{◌≡◌, IsTrue, IfOk, IfErr, None, OnOk};
ghost use Rattle.wblock_line.specs.Answers.{CountsFault, IsOfFile};
ghost use Rattle.wblock_contents.specs.Shows.{IsOfKind, IsUnknown};
ghost use Rattle.wblock_show.specs.Draws.{Draws, DrawsFile, HasNoPicture, IsDrawn, TellsPicture};

use crate::show::judge_bytes;
use block::Block;
use std::alloc::{AllocError, Global};
use wblock_contents::{Contents, Kind, show_bytes};
use wblock_io::Files;
use wblock_line::{Answer, Fault, read_file, write_counted};
use wblock_picture::draw_block;
use wtypes::NoMemory;

/// What is said of a module, which has no picture.
const A_MODULE: &str =
    "show: the file is a module, and only a block is drawn; name a block, or leave `--svg` out";

/// What is said of a world.
const A_WORLD: &str =
    "show: the file is a world, and only a block is drawn; name a block, or leave `--svg` out";

/// The answer that draws a block.
fn draw_it<'a>(alloc: Global, block: &Block, picture: &'a str) -> Result<Answer<'a>, NoMemory>
    ensures { IfOk result (TellsPicture block.now picture.entry.now) }
{
    let text = draw_block(alloc, block)?;
    let answer = write_counted(alloc, false, "picture", picture, text.into_bytes())?;
    Ok(answer)
}

/// What the bytes of a block come to.
fn draw_bytes<'a>(alloc: Global, bytes: &[u8], picture: &'a str) -> Result<Answer<'a>, NoMemory>
    ensures { IfOk result (Draws bytes.now picture.entry.now) }
{
    let read = judge_bytes(alloc, bytes)?;
    match read {
        Ok(block) => draw_it(alloc, &block, picture),
        Err((line, why)) => Ok(Answer::Refused(line, why)),
    }
}

/// The answer to bytes of a kind that has no picture.
fn refuse<'a>(alloc: Global, why: &str) -> Result<Answer<'a>, AllocError>
    ensures { IfOk result HasNoPicture }
{
    let line = "refused show 2\n".to_string(alloc)?;
    let why = why.to_string(alloc)?;
    Ok(Answer::Refused(line, why))
}

/// The answer to bytes of no kind.
fn answer_unknown<'a>(alloc: Global, bytes: Vec<u8>) -> Result<Answer<'a>, AllocError>
    requires { IsOfKind bytes.items None }
    ensures { IfOk result IsUnknown }
{
    match show_bytes(alloc, false, bytes)? {
        Contents::Told(answer) => Ok(answer),
        Contents::Block(_) => unreachable!(),
    }
}

/// What the bytes of a file come to.
fn draw_kind<'a>(alloc: Global, bytes: Vec<u8>, picture: &'a str) -> Result<Answer<'a>, NoMemory>
    ensures { IfOk result (IsDrawn bytes.items picture.entry.now) }
{
    match Kind::of(bytes.as_slice()) {
        Some(Kind::Module) => Ok(refuse(alloc, A_MODULE)?),
        Some(Kind::World) => Ok(refuse(alloc, A_WORLD)?),
        Some(Kind::Block) => draw_bytes(alloc, bytes.as_slice(), picture),
        None => Ok(answer_unknown(alloc, bytes)?),
    }
}

/// What `show` comes to where a picture is asked for: that of the block that a file holds is to be written to the file `picture`; or why it is refused,
/// as a file of another kind is. No file is written yet.
pub fn draw_named<'a, F: Files>(
    alloc: Global,
    files: &mut F,
    file: &'a str,
    picture: &'a str,
) -> Result<Answer<'a>, Fault<'a>>
    ensures answers { IfOk result (λ a. IsTrue F.tells → DrawsFile (F.holds files.old) file.entry.now picture.entry.now a) }
    ensures kept { IsTrue F.tells → F.holds files.new ≡ F.holds files.old }
    ensures calm { OnOk result (F.failures files.new ≡ F.failures files.old) }
    ensures counted { IfErr result (λ f. CountsFault f (F.failures files.old) (F.failures files.new)) }
    ensures named { IfErr result (IsOfFile (λ name. name ≡ file.entry.now)) }
{
    let bytes = read_file(alloc, files, file)?;
    match draw_kind(alloc, bytes, picture) {
        Ok(answer) => Ok(answer),
        Err(NoMemory) => Err(Fault::NoMemory),
    }
}
