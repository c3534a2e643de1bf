//! The commands on blocks.

ghost use Rattle.std.specs.Prelude.{◌≡◌, ◌≤◌, IsTrue, IfOk, IfErr, OnOk, string_bytes};
ghost use Rattle.wblock_line.specs.Answers.{CountsFault, IsOfFile, upshot_of};
ghost use Rattle.wblock_line.specs.Inputs.{IsNextInput};
ghost use Rattle.wblock_blocks.specs.Mines.{Mines};
ghost use Rattle.wblock_blocks.specs.Notes.{Notes};

use pace::Pace;
use std::alloc::Global;
use std::sync::Wait;
use std::thread::Threads;
use wblock_blocks::Mining;
use wblock_io::Files;
use wblock_line::{Answer, Fault, Noted};

/// As [`wblock_blocks::mine_block`].
pub fn mine_block<'a, R: Threads + Wait + Sync, F: Files, P: Pace>(
    rt: &R,
    alloc: Global,
    files: &mut F,
    task: Mining<'a>,
    pace: &P,
) -> Result<Noted<'a>, Fault<'a>>
    requires workers { (1 ≤ task.workers) × (task.workers ≤ 64) }
    requires tries { (1 ≤ task.tries) × (task.tries ≤ 16) }
    ensures answers { IfOk result (λ n. IsTrue F.tells → Mines (F.holds files.old) task.entry (upshot_of n.answer)) }
    ensures notes { IfOk result (λ n. Notes (upshot_of n.answer) (string_bytes n.note)) }
    ensures kept { IsTrue F.tells → F.holds files.new ≡ F.holds files.old }
    ensures calm { OnOk result (F.failures files.new ≡ F.failures files.old) }
    ensures counted { IfErr result (λ f. CountsFault f (F.failures files.old) (F.failures files.new)) }
    ensures next { IfErr result (IsOfFile (λ name. IsTrue F.tells → IsNextInput (F.holds files.old) task.entry.world.now task.entry.calls.now name)) }
{
    wblock_blocks::mine_block(rt, alloc, files, task, pace)
}
