//! The command `show BLOCK [--calls CALLS]`: the block of a file as text, with figures of it.

ghost use Rattle.std.specs.Prelude.{◌≡◌, ◌≤◌, IsTrue, IfOk, IfErr, OnOk, MatchResult, Some, vec_len};
ghost use Rattle.wblock_line.specs.Answers.{CountsFault, IsOfFile};
ghost use Rattle.wblock_show.specs.Shows.{known, GivesCalls, HasFew, HasNamedFew, IsNamedCalls, IsNextFile, Shows, ShowsBlock};

use crate::show::show_block;
use call::Call;
use std::alloc::{AllocError, Global};
use wblock_io::Files;
use wblock_line::{Answer, Fault, judge_calls, read_file};
use wtypes::NoMemory;

/// How a file is to be shown.
#[derive(Clone, Copy, Debug)]
pub enum Form<'a> {
    /// By lines, which are to be printed.
    Text,
    /// By one JSON object, which is to be printed on a line.
    Json,
    /// By a picture of its block, which is to be written to the file of this name.
    Picture(&'a str),
}

/// What is to be shown.
#[derive(Clone, Copy, Debug)]
pub struct Showing<'a> {
    /// The name of the file.
    pub file: &'a str,
    /// The name of the file of its calls, if each position is to be shown with its call. A picture is drawn without them.
    pub calls: Option<&'a str>,
    /// How it is to be shown.
    pub form: Form<'a>,
    /// Whether the numbers of a world's cells are to be shown signed, as lines of calls take them. Nothing else has such numbers.
    pub signed: bool,
}

/// The calls of a file, or why it spells none.
#[derive(Drop)]
pub(crate) enum Named {
    /// The calls, where a file is named.
    Calls(Option<Vec<Call>>),
    /// The line and the sentence of the refusal.
    Refused(String, String),
}

/// Reads the file of calls, if one is named.
pub(crate) fn read_named<'a, F: Files>(
    alloc: Global,
    files: &mut F,
    calls: Option<&'a str>,
) -> Result<Named, Fault<'a>>
    ensures few { IfOk result HasNamedFew }
    ensures gives { IfOk result (λ named. IsTrue F.tells → GivesCalls (F.holds files.old) calls.entry named) }
    ensures kept { IsTrue F.tells → F.holds files.new ≡ F.holds files.old }
    ensures calm { OnOk result (F.failures files.new ≡ F.failures files.old) }
    ensures counted { IfErr result (λ f. CountsFault f (F.failures files.old) (F.failures files.new)) }
    ensures next { IfErr result (IsOfFile (IsNamedCalls calls.entry)) }
{
    let Some(name) = calls else {
        return Ok(Named::Calls(None));
    };
    let text = read_file(alloc, files, name)?;
    match judge_calls(alloc, text.as_slice()) {
        Ok(Ok(calls)) => Ok(Named::Calls(Some(calls))),
        Ok(Err((line, why))) => Ok(Named::Refused(line, why)),
        Err(AllocError) => Err(Fault::NoMemory),
    }
}

/// What is shown of the bytes of a block, with its calls where they are known.
fn show_known<'a>(
    alloc: Global,
    bytes: &[u8],
    calls: &Option<Vec<Call>>,
) -> Result<Answer<'a>, NoMemory>
    requires { HasFew (known calls.now) }
    ensures { IfOk result (Shows bytes.now (known calls.now)) }
{
    match calls {
        None => show_block(alloc, bytes, None),
        Some(calls) => show_block(alloc, bytes, Some(calls.as_slice())),
    }
}

/// What `show` comes to: the text of the block of a file, with its figures, and with its calls where a file of these is named; or the line that
/// says why the calls or the block are refused. No file is written.
pub fn show_file_block<'a, F: Files>(
    alloc: Global,
    files: &mut F,
    task: Showing<'a>,
) -> Result<Answer<'a>, Fault<'a>>
    ensures answers { IfOk result (λ a. IsTrue F.tells → ShowsBlock (F.holds files.old) task.entry a) }
    ensures kept { IsTrue F.tells → F.holds files.new ≡ F.holds files.old }
    ensures calm { OnOk result (F.failures files.new ≡ F.failures files.old) }
    ensures counted { IfErr result (λ f. CountsFault f (F.failures files.old) (F.failures files.new)) }
    ensures next { IfErr result (IsOfFile (λ name. IsTrue F.tells → IsNextFile (F.holds files.old) task.entry name)) }
{
    let calls = match read_named(alloc, files, task.calls)? {
        Named::Calls(calls) => calls,
        Named::Refused(line, why) => return Ok(Answer::Refused(line, why)),
    };
    let bytes = read_file(alloc, files, task.file)?;
    match show_known(alloc, bytes.as_slice(), &calls) {
        Ok(answer) => Ok(answer),
        Err(NoMemory) => Err(Fault::NoMemory),
    }
}
