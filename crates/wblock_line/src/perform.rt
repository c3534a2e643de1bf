//! What a command comes to is written and printed.

ghost use Rattle.std.specs.Prelude.{◌≡◌, ◌≢◌, ◌⊎◌, ℕ, List, [], ◌∷◌, ◌++◌, codes, IsTrue, IfErr, OnOk, OnErr, map};
ghost use Rattle.byte_sinks.specs.Putting.{IsRaised, IsCutShort};
ghost use Rattle.wblock_io.specs.Holding.{IsFailed};
ghost use Rattle.wblock_line.specs.Answers.{Wrote, WroteBefore, IsOneOf, IsOfFile, NotesFault, LeavesFiles, IsFailing, IsSaid, SaysFile, SaysFault, write_of, writes_of, text_of, status_of, status_of_fault, memory_line, sentence_line, why_line};

use crate::answer::{Answer, Fault, Write};
use byte_sinks::{Sink, SinkFault, put_all};
use wblock_io::{Cause, Files, WriteFault, write_draft};

/// How a line ended.
#[derive(Clone, Copy, Debug, PartialEq, Eq)]
pub enum Status {
    /// It was done.
    Done = 0,
    /// It was refused, with a line that says why.
    Refused = 1,
    /// The words ask for nothing.
    Usage = 2,
    /// A file or the output failed.
    File = 3,
    /// Memory was refused.
    Memory = 4,
}

/// Puts a word and a name and ends the line. Where a call fails, a beginning of the line was put.
fn put_line<E: Sink>(err: &mut E, word: &str, name: &str) -> Result<(), SinkFault>
    ensures put { OnOk result (IsTrue E.tells → E.told err.new ≡ E.told err.old ++ word.now ++ name.now ++ 10 ∷ []) }
    ensures calm { OnOk result (E.failures err.new ≡ E.failures err.old) }
    ensures counted { OnErr result (IsRaised (E.failures err.old) (E.failures err.new)) }
    ensures cut_short { OnErr result (IsTrue E.tells → IsCutShort (E.told err.old) (E.told err.new) (word.now ++ name.now ++ 10 ∷ [])) }
{
    put_all(err, word.as_bytes())?;
    put_all(err, name.as_bytes())?;
    put_all(err, b"\n")?;
    Ok(())
}

/// Writes the draft of each file, one after another, up to the first that fails or for which memory is refused. No file is written yet.
fn write_drafts<'a, F: Files>(files: &mut F, writes: &[Write<'a>]) -> Result<(), Fault<'a>>
    ensures written { OnOk result (IsTrue F.tells → F.drafts files.new ≡ F.drafts files.old ++ map write_of writes.now) }
    ensures same { IsTrue F.tells → F.holds files.new ≡ F.holds files.old }
    ensures calm { OnOk result (F.failures files.new ≡ F.failures files.old) }
    ensures counted { IfErr result (λ fault. NotesFault fault (F.failures files.old) (F.failures files.new)) }
    ensures named { IfErr result (IsOfFile (λ name. IsOneOf name (map write_of writes.now))) }
{
    match writes {
        [] => Ok(()),
        [first, others @ ..] => {
            match write_draft(files, first.name, first.bytes.as_slice()) {
                Ok(()) => write_drafts(files, others),
                Err(WriteFault::Failed(cause)) => Err(Fault::File(first.name, cause)),
                Err(WriteFault::NoMemory) => Err(Fault::NoMemory),
            }
        }
    }
}

/// Keeps the drafts of these files, one after another, up to the first that fails, and answers its name and the cause.
fn keep_drafts<'a, F: Files>(files: &mut F, writes: &[Write<'a>]) -> Result<(), (&'a str, Cause)>
    requires { IsTrue F.tells → F.drafts files.old ≡ map write_of writes.now }
    ensures wrote { OnOk result (IsTrue F.tells → Wrote (map write_of writes.now) (F.holds files.old) (F.holds files.new)) }
    ensures calm { OnOk result (F.failures files.new ≡ F.failures files.old) }
    ensures counted { IfErr result (λ fault. IsFailed fault.0.now (F.failures files.old) (F.failures files.new)) }
    ensures some { IfErr result (λ fault. IsTrue F.tells → WroteBefore fault.0.now (map write_of writes.now) (F.holds files.old) (F.holds files.new)) }
{
    match writes {
        [] => Ok(()),
        [first, others @ ..] => {
            match files.keep(first.name) {
                Ok(()) => keep_drafts(files, others),
                Err(cause) => Err((first.name, cause)),
            }
        }
    }
}

/// Writes the drafts of these files, where there are no others, and then keeps them.
fn write_and_keep<'a, F: Files>(files: &mut F, writes: &[Write<'a>]) -> Result<(), Fault<'a>>
    requires { IsTrue F.tells → F.drafts files.old ≡ [] }
    ensures wrote { OnOk result (IsTrue F.tells → Wrote (map write_of writes.now) (F.holds files.old) (F.holds files.new)) }
    ensures calm { OnOk result (F.failures files.new ≡ F.failures files.old) }
    ensures counted { IfErr result (λ fault. NotesFault fault (F.failures files.old) (F.failures files.new)) }
    ensures left { IfErr result (λ fault. IsTrue F.tells → LeavesFiles fault (map write_of writes.now) (F.holds files.old) (F.holds files.new)) }
{
    write_drafts(files, writes)?;
    match keep_drafts(files, writes) {
        Ok(()) => Ok(()),
        Err((name, cause)) => Err(Fault::File(name, cause)),
    }
}

/// Writes files: the draft of each, and when all of them stand, each is kept, one after another, up to the first that fails. Each file is written whole or
/// left as it was. Where memory is refused, and where a file fails before the first is kept, all are as they were.
pub fn write_files<'a, F: Files>(files: &mut F, writes: &[Write<'a>]) -> Result<(), Fault<'a>>
    ensures wrote { OnOk result (IsTrue F.tells → Wrote (map write_of writes.now) (F.holds files.old) (F.holds files.new)) }
    ensures calm { OnOk result (F.failures files.new ≡ F.failures files.old) }
    ensures counted { IfErr result (λ fault. NotesFault fault (F.failures files.old) (F.failures files.new)) }
    ensures left { IfErr result (λ fault. IsTrue F.tells → LeavesFiles fault (map write_of writes.now) (F.holds files.old) (F.holds files.new)) }
{
    files.abandon();
    let written = write_and_keep(files, writes);
    if written.is_err() {
        files.abandon();
    }
    written
}

/// Prints a text; or says that the output fails, which is the status of a file, and behind it this sentence, where it is not empty.
fn print_text<O: Sink, E: Sink>(text: &str, behind: &str, out: &mut O, err: &mut E) -> Status
    ensures status { (result ≡ Status.Done) ⊎ (result ≡ Status.File) }
    ensures printed { result ≢ Status.File → IsTrue O.tells → O.told out.new ≡ O.told out.old ++ text.now }
    ensures cut { result ≡ Status.File → IsTrue O.tells → IsCutShort (O.told out.old) (O.told out.new) text.now }
    ensures calm { result ≢ Status.File → O.failures out.new ≡ O.failures out.old }
    ensures counted { result ≡ Status.File → IsRaised (O.failures out.old) (O.failures out.new) }
    ensures quiet { result ≡ Status.Done → err.new ≡ err.old }
    ensures said { result ≡ Status.File → IsTrue E.tells → SaysFile (codes "stdout") (E.told err.old) (E.told err.new) (E.failures err.old) (E.failures err.new) }
{
    match put_all(out, text.as_bytes()) {
        Ok(()) => Status::Done,
        Err(_) => tell_file("stdout", behind, err),
    }
}

/// Prints the line of a refusal, and then says why; or says that the output fails, which is the status of a file.
fn print_refusal<O: Sink, E: Sink>(line: &str, why: &str, out: &mut O, err: &mut E) -> Status
    ensures status { (result ≡ Status.Refused) ⊎ (result ≡ Status.File) }
    ensures printed { result ≢ Status.File → IsTrue O.tells → O.told out.new ≡ O.told out.old ++ line.now }
    ensures cut { result ≡ Status.File → IsTrue O.tells → IsCutShort (O.told out.old) (O.told out.new) line.now }
    ensures calm { result ≢ Status.File → O.failures out.new ≡ O.failures out.old }
    ensures counted { result ≡ Status.File → IsRaised (O.failures out.old) (O.failures out.new) }
    ensures explained { result ≡ Status.Refused → IsTrue E.tells → IsSaid (why.now ++ 10 ∷ []) (E.told err.old) (E.told err.new) (E.failures err.old) (E.failures err.new) }
    ensures said { result ≡ Status.File → IsTrue E.tells → SaysFile (codes "stdout") (E.told err.old) (E.told err.new) (E.failures err.old) (E.failures err.new) }
{
    match put_all(out, line.as_bytes()) {
        Ok(()) => {
            tell_line(why, err);
            Status::Refused
        }
        Err(_) => tell_file("stdout", "", err),
    }
}

/// Says a line.
fn tell_line<E: Sink>(text: &str, err: &mut E)
    ensures { IsTrue E.tells → IsSaid (text.now ++ 10 ∷ []) (E.told err.old) (E.told err.new) (E.failures err.old) (E.failures err.new) }
{
    let _ = put_line(err, text, "");
}

/// Says a sentence as a line, or nothing where it is empty.
fn tell_why<E: Sink>(why: &str, err: &mut E)
    ensures { IsTrue E.tells → IsSaid (sentence_line why.now) (E.told err.old) (E.told err.new) (E.failures err.old) (E.failures err.new) }
{
    if why.is_empty() {
        return;
    }
    tell_line(why, err);
}

/// Says `file NAME`, and behind it why, where that is not empty. Where the first cannot be said, nothing more is said.
fn tell_file<E: Sink>(name: &str, why: &str, err: &mut E) -> Status
    ensures status { result ≡ Status.File }
    ensures said { IsTrue E.tells → SaysFile name.now (E.told err.old) (E.told err.new) (E.failures err.old) (E.failures err.new) }
{
    if let Err(SinkFault) = put_line(err, "file ", name) {
        return Status::File;
    }
    tell_why(why, err);
    Status::File
}

/// Says on standard error which file failed, `file NAME`, and in a line behind it why, where that is known; or that memory was refused, `memory`. Gives the status.
pub fn tell_fault<E: Sink>(fault: Fault, err: &mut E) -> Status
    ensures status { result ≡ status_of_fault fault.entry }
    ensures said { IsTrue E.tells → SaysFault fault.entry (E.told err.old) (E.told err.new) (E.failures err.old) (E.failures err.new) }
{
    match fault {
        Fault::File(name, cause) => tell_file(name, cause.words(), err),
        Fault::NoMemory => {
            tell_line("memory", err);
            Status::Memory
        }
    }
}

/// What is said of the output where it fails behind these files.
fn said_behind(writes: &[Write]) -> &'static str {
    if writes.is_empty() {
        ""
    } else {
        "the files of this command were written; only the output failed"
    }
}

/// Writes the files of an answer and then prints its text, and behind the line of a refusal says on standard error why, and gives the status; or
/// says on standard error which file failed and why, or `file stdout` for the output, and then that the files were written, if there are any. A file
/// is written whole or left as it was. Where memory is refused to the files, all are as they were, nothing is printed, and `memory` is said. Failures of
/// standard error change no status.
pub fn carry_out<F: Files, O: Sink, E: Sink>(
    answer: Answer,
    files: &mut F,
    out: &mut O,
    err: &mut E,
) -> Status
    ensures status { result ≢ Status.File → result ≢ Status.Memory → result ≡ status_of answer.entry }
    ensures wrote { result ≢ Status.File → result ≢ Status.Memory → IsTrue F.tells → Wrote (writes_of answer.entry) (F.holds files.old) (F.holds files.new) }
    ensures printed { result ≢ Status.File → result ≢ Status.Memory → IsTrue O.tells → O.told out.new ≡ O.told out.old ++ text_of answer.entry }
    ensures failing { result ≡ Status.File → (name : List ℕ) × IsFailing name answer.entry F.tells O.tells (F.holds files.old) (F.holds files.new) (F.failures files.old) (F.failures files.new) (O.told out.old) (O.told out.new) (O.failures out.old) (O.failures out.new) × (IsTrue E.tells → SaysFile name (E.told err.old) (E.told err.new) (E.failures err.old) (E.failures err.new)) }
    ensures unwritten { result ≡ Status.Memory → IsTrue F.tells → F.holds files.new ≡ F.holds files.old }
    ensures unprinted { result ≡ Status.Memory → out.new ≡ out.old }
    ensures memory_said { result ≡ Status.Memory → IsTrue E.tells → IsSaid memory_line (E.told err.old) (E.told err.new) (E.failures err.old) (E.failures err.new) }
    ensures calm_files { result ≢ Status.File → F.failures files.new ≡ F.failures files.old }
    ensures calm_output { result ≢ Status.File → O.failures out.new ≡ O.failures out.old }
    ensures quiet { result ≡ Status.Done → err.new ≡ err.old }
    ensures explained { result ≡ Status.Refused → IsTrue E.tells → IsSaid (why_line answer.entry) (E.told err.old) (E.told err.new) (E.failures err.old) (E.failures err.new) }
{
    match answer {
        Answer::Done(writes, text) => {
            match write_files(files, writes.as_slice()) {
                Ok(()) => {
                    let behind = said_behind(writes.as_slice());
                    print_text(text.as_str(), behind, out, err)
                }
                Err(Fault::File(name, cause)) => tell_file(name, cause.words(), err),
                Err(Fault::NoMemory) => tell_fault(Fault::NoMemory, err),
            }
        }
        Answer::Refused(line, why) => print_refusal(line.as_str(), why.as_str(), out, err),
    }
}
