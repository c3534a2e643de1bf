//! The command `show FILE [--calls CALLS] [--json] [--signed]`, or `show BLOCK --svg PICTURE`: what is in a module, a world or a block, as lines or as JSON, or a
//! picture of the block.

ghost use Rattle.std.specs.Prelude.{◌≡◌, IsTrue, IfOk, IfErr, OnOk};
ghost use Rattle.wblock_line.specs.Answers.{CountsFault, IsOfFile};
ghost use Rattle.wblock_show.specs.FileAnswers.{IsAnswerTo, IsNextNamed, ShowsLines, ShowsNamed};
ghost use Rattle.wblock_show.specs.Shows.{IsNextFile};

use crate::draw::draw_named;
use crate::file::{Form, Showing, show_file_block};
use crate::json::json_named;
use crate::show::show_block;
use std::alloc::Global;
use wblock_contents::{Contents, show_file};
use wblock_io::Files;
use wblock_line::{Answer, Fault};
use wtypes::NoMemory;

/// The answer to what a file comes to: a block is shown without its calls.
fn answer_to<'a>(alloc: Global, contents: Contents<'a>) -> Result<Answer<'a>, NoMemory>
    ensures { IfOk result (IsAnswerTo contents.entry) }
{
    match contents {
        Contents::Told(answer) => Ok(answer),
        Contents::Block(bytes) => show_block(alloc, bytes.as_slice(), None),
    }
}

/// What `show` prints: what is in the module, the world or the block of a file, or why it is refused; where a file of calls is named, the block
/// with its calls. No file is written.
fn show_lines<'a, F: Files>(
    alloc: Global,
    files: &mut F,
    task: Showing<'a>,
) -> Result<Answer<'a>, Fault<'a>>
    ensures answers { IfOk result (λ a. IsTrue F.tells → ShowsLines (F.holds files.old) task.entry a) }
    ensures kept { IsTrue F.tells → F.holds files.new ≡ F.holds files.old }
    ensures calm { OnOk result (F.failures files.new ≡ F.failures files.old) }
    ensures counted { IfErr result (λ f. CountsFault f (F.failures files.old) (F.failures files.new)) }
    ensures next { IfErr result (IsOfFile (λ name. IsTrue F.tells → IsNextFile (F.holds files.old) task.entry name)) }
{
    if task.calls.is_some() {
        return show_file_block(alloc, files, task);
    }
    let contents = show_file(alloc, files, task.signed, task.file)?;
    match answer_to(alloc, contents) {
        Ok(answer) => Ok(answer),
        Err(NoMemory) => Err(Fault::NoMemory),
    }
}

/// What `show` comes to: what is in the module, the world or the block of a file, by lines or as JSON, or why it is refused; where a file of calls is
/// named, the block with its calls; where a picture is asked for, that of the block, which is to be written. No file is written yet.
pub fn show_named<'a, F: Files>(
    alloc: Global,
    files: &mut F,
    task: Showing<'a>,
) -> Result<Answer<'a>, Fault<'a>>
    ensures answers { IfOk result (λ a. IsTrue F.tells → ShowsNamed (F.holds files.old) task.entry a) }
    ensures kept { IsTrue F.tells → F.holds files.new ≡ F.holds files.old }
    ensures calm { OnOk result (F.failures files.new ≡ F.failures files.old) }
    ensures counted { IfErr result (λ f. CountsFault f (F.failures files.old) (F.failures files.new)) }
    ensures next { IfErr result (IsOfFile (λ name. IsTrue F.tells → IsNextNamed (F.holds files.old) task.entry name)) }
{
    match task.form {
        Form::Text => show_lines(alloc, files, task),
        Form::Json => json_named(alloc, files, task),
        Form::Picture(picture) => draw_named(alloc, files, task.file, picture),
    }
}
