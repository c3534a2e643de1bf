//! The command `deploy WORLD MODULE... [--onto OLD] [--force] [--json]`, which writes over no file unasked.

ghost use Rattle.std.specs.Prelude.{◌≡◌, ◌≤◌, ◌↔◌, IsTrue, IfOk, IfErr, OnOk, MatchOption, length};
ghost use Rattle.wblock_line.specs.Answers.{CountsFault, IsOfFile, upshot_of};
ghost use Rattle.wblock_commands.specs.Deploying.{MayReplace, IsTaken, DeploysFree, IsNextToDeploy};

use crate::Deploying;
use std::alloc::Global;
use wblock_io::Files;
use wblock_line::{Answer, Fault, is_word};
use wblock_modules::deploy_modules;

/// Whether the line asks that the file of the world be written over: by `--force`, or since it is OLD, too.
fn may_replace(task: Deploying) -> bool
    ensures { IsTrue result ↔ MayReplace task.entry }
{
    match task.onto {
        Some(old) => task.forced || is_word(task.world, old),
        None => task.forced,
    }
}

/// What `deploy` comes to: the world of the modules is to be written, behind the contracts of OLD and over its cells where it is named; or OLD or the first
/// module that gives no contract is refused. None where the file of the world is there and is not to be written over; neither OLD nor a module is read
/// then. No file is written yet.
pub(crate) fn deploy_apart<'l, 'w, F: Files>(
    alloc: Global,
    files: &mut F,
    task: Deploying<'l, 'w>,
) -> Result<Option<Answer<'w>>, Fault<'w>>
    requires { length task.modules.now ≤ 1024 }
    ensures answers { IfOk result (λ found. IsTrue F.tells → MatchOption found (IsTaken task.entry (F.holds files.old)) (λ a. DeploysFree task.entry (F.holds files.old) (upshot_of a))) }
    ensures unasked { IfOk result (λ found. MatchOption found (¬ MayReplace task.entry) (λ a. Unit {0})) }
    ensures kept { IsTrue F.tells → F.holds files.new ≡ F.holds files.old }
    ensures calm { OnOk result (F.failures files.new ≡ F.failures files.old) }
    ensures counted { IfErr result (λ f. CountsFault f (F.failures files.old) (F.failures files.new)) }
    ensures next { IfErr result (IsOfFile (λ name. IsTrue F.tells → IsNextToDeploy task.entry (F.holds files.old) name)) }
{
    if !may_replace(task) && files.is_there(task.world) {
        return Ok(None);
    }
    match deploy_modules(alloc, files, task.json, task.world, task.onto, task.modules) {
        Ok(answer) => Ok(Some(answer)),
        Err(fault) => Err(fault),
    }
}
