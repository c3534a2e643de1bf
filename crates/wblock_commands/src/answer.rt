//! What a module and a text of its calls come to.

ghost use Rattle.std.specs.Prelude.{◌≡◌, IfOk, IfErr};
ghost use Rattle.interp.specs.Callee.{contract_view};
ghost use Rattle.wblock_commands.specs.Answers.{CallsAnswer, Refuses, IsAnswer};
ghost use Rattle.wblock_commands.specs.AnswersWithoutWords.{ShowsStored};

use crate::runs::run_calls;
use crate::stored::{CALLS, MODULE};
use link::deployed::Deployed;
use std::alloc::{AllocError, Global};
use wblock_line::{Answer, Fault, ModuleRefusal, Stop, judge_calls, read_contract};

/// The answer to a text of calls of a contract.
fn answer_calls<'a>(
    alloc: Global,
    contract: Deployed<Global>,
    text: &[u8],
) -> Result<Answer<'a>, AllocError>
    ensures { IfOk result (CallsAnswer (contract_view contract) text.now) }
{
    match judge_calls(alloc, text)? {
        Ok(calls) => {
            let lines = run_calls(alloc, contract, calls.as_slice())?;
            Ok(Answer::Done(Vec::new(alloc), lines))
        }
        Err((line, why)) => Ok(Answer::Refused(line, why)),
    }
}

/// The answer to a module of these bytes that is refused.
fn refuse<'a>(
    alloc: Global,
    target: &[u8],
    refusal: ModuleRefusal,
) -> Result<Answer<'a>, AllocError>
    ensures { IfOk result (Refuses refusal) }
{
    let line = format!(in alloc; "{refusal}\n")?;
    let why = refusal.words(alloc, target)?;
    Ok(Answer::Refused(line, why))
}

/// The answer to a module's bytes and a text of calls. The module is judged before the calls.
pub(crate) fn answer_of<'a>(
    alloc: Global,
    target: &[u8],
    text: &[u8],
) -> Result<Answer<'a>, AllocError>
    ensures { IfOk result (IsAnswer target.now text.now) }
{
    match read_contract(alloc, target) {
        Ok(contract) => answer_calls(alloc, contract, text),
        Err(Stop::Refused(refusal)) => refuse(alloc, target, refusal),
        Err(Stop::NoMemory) => Err(AllocError),
    }
}

/// What the two stored calls come to, one after another over empty cells: a line for each receipt, and one for their fuel. No file is
/// read or written.
///
/// # Errors
///
/// `NoMemory` alone.
pub fn show_stored<'a>(alloc: Global) -> Result<Answer<'a>, Fault<'a>>
    ensures answers { IfOk result ShowsStored }
    ensures fault { IfErr result (λ f. f ≡ Fault.NoMemory) }
{
    match answer_of(alloc, MODULE.as_slice(), CALLS.as_bytes()) {
        Ok(answer) => Ok(answer),
        Err(AllocError) => Err(Fault::NoMemory),
    }
}
