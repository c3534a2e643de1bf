//! An answer that is carried out, a file that is read, a fault, and the refusal of a module.

ghost use Rattle.std.specs.Prelude.{◌≡◌, ◌≢◌, ◌++◌, ℕ, List, IsTrue};
ghost use Rattle.wblock_line.specs.Answers.{Wrote, IsFailing, IsSaid, SaysFile, writes_of, text_of, status_of, memory_line, why_line};

use byte_sinks::Sink;
use wblock_io::Files;
use wblock_line::{Answer, Status};

/// As [`wblock_line::carry_out`].
pub fn carry_out<F: Files, O: Sink, E: Sink>(
    answer: Answer,
    files: &mut F,
    out: &mut O,
    err: &mut E,
) -> Status
    ensures status { result ≢ Status.File → result ≢ Status.Memory → result ≡ status_of answer.entry }
    ensures wrote { result ≢ Status.File → result ≢ Status.Memory → IsTrue F.tells → Wrote (writes_of answer.entry) (F.holds files.old) (F.holds files.new) }
    ensures printed { result ≢ Status.File → result ≢ Status.Memory → IsTrue O.tells → O.told out.new ≡ O.told out.old ++ text_of answer.entry }
    ensures failing { result ≡ Status.File → (name : List ℕ) × IsFailing name answer.entry F.tells O.tells (F.holds files.old) (F.holds files.new) (F.failures files.old) (F.failures files.new) (O.told out.old) (O.told out.new) (O.failures out.old) (O.failures out.new) × (IsTrue E.tells → SaysFile name (E.told err.old) (E.told err.new) (E.failures err.old) (E.failures err.new)) }
    ensures unwritten { result ≡ Status.Memory → IsTrue F.tells → F.holds files.new ≡ F.holds files.old }
    ensures unprinted { result ≡ Status.Memory → out.new ≡ out.old }
    ensures memory_said { result ≡ Status.Memory → IsTrue E.tells → IsSaid memory_line (E.told err.old) (E.told err.new) (E.failures err.old) (E.failures err.new) }
    ensures calm_files { result ≢ Status.File → F.failures files.new ≡ F.failures files.old }
    ensures calm_output { result ≢ Status.File → O.failures out.new ≡ O.failures out.old }
    ensures quiet { result ≡ Status.Done → err.new ≡ err.old }
    ensures explained { result ≡ Status.Refused → IsTrue E.tells → IsSaid (why_line answer.entry) (E.told err.old) (E.told err.new) (E.failures err.old) (E.failures err.new) }
{
    wblock_line::carry_out(answer, files, out, err)
}
