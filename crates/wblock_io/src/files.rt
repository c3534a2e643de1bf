//! Files by name.

ghost use Rattle.std.specs.Prelude.{◌≡◌, ◌↔◌, List, ℕ, [], ◌∷◌, ◌++◌, Bool, Some, IfOk, IfErr, OnOk, OnErr, IsSome, IsTrue};
ghost use Rattle.wblock_io.specs.Holding.{Holding, Draft, Changes, PutsSomeIn, IsKept, Failing, IsFailed, IsNoted};
ghost use Rattle.wblock_io.specs.declared.files.ReadFault.{ReadFault as Why};

use crate::cause::Cause;
use std::alloc::Global;
use thiserror::Error;

/// Why a file was not read.
#[derive(Clone, Copy, Debug, PartialEq, Eq, Error)]
pub enum ReadFault {
    /// The read failed, for this cause.
    #[error("the file could not be read")]
    Failed(Cause),
    /// Memory was refused.
    #[error("memory was refused")]
    NoMemory,
}

/// Why a file was not written.
#[derive(Clone, Copy, Debug, PartialEq, Eq, Error)]
pub enum WriteFault {
    /// The write failed, for this cause.
    #[error("the file could not be written")]
    Failed(Cause),
    /// Memory was refused.
    #[error("memory was refused")]
    NoMemory,
}

/// Files that are read whole and written whole. What a file is to hold is put into a draft, piece by piece, and the file holds all of it at once when
/// the draft is kept: at every moment it is the old file or the new one. There may be several drafts: bytes are put into the last one, and the first
/// one is kept first. Each failure is noted with the file's name. Want of memory is no failure, and is told before a draft is kept. A call that fails, or
/// is refused memory, changes no file.
pub trait Files {
    /// Whether it is known what the files hold: it is not known of those of the machine.
    ghost tells: { Bool };

    /// What the file of a name holds, where there is one.
    ghost holds: { Self → Holding };

    /// The drafts, in the order in which they were begun.
    ghost drafts: { Self → List Draft };

    /// How many calls have failed, a whole number without bound, and the name of the last one's file.
    ghost failures: { Self → Failing };

    /// Whether there is a file of this name.
    fn is_there(&self, name: &str) -> bool
        ensures { IsTrue tells → IsTrue result ↔ IsSome (holds self.now name.now) };

    /// The bytes of a file.
    fn read_all(&mut self, alloc: Global, name: &str) -> Result<Vec<u8>, ReadFault>
        ensures bytes { IfOk result (λ v. IsTrue tells → holds self.old name.now ≡ Some v.items) }
        ensures same { IsTrue tells → holds self.new ≡ holds self.old }
        ensures calm { OnOk result (failures self.new ≡ failures self.old) }
        ensures counted { (cause : Cause) → result ≡ Err (Why.Failed cause) → IsFailed name.now (failures self.old) (failures self.new) };

    /// Begins the draft of a file, with no bytes, behind the others.
    fn start(&mut self, name: &str) -> Result<(), WriteFault>
        ensures begun { OnOk result (IsTrue tells → drafts self.new ≡ drafts self.old ++ (name.now, []) ∷ []) }
        ensures same { IsTrue tells → holds self.new ≡ holds self.old }
        ensures calm { OnOk result (failures self.new ≡ failures self.old) }
        ensures counted { IfErr result (λ fault. IsNoted fault name.now (failures self.old) (failures self.new)) };

    /// Puts the first bytes at the end of the last draft, which is that of the file of this name: at least one of a list that is not empty. Says how many.
    fn put_some(&mut self, name: &str, bytes: &[u8]) -> Result<usize, WriteFault>
        ensures put { IfOk result (λ n. PutsSomeIn tells name.now bytes.now n (drafts self.old) (drafts self.new)) }
        ensures same { IsTrue tells → holds self.new ≡ holds self.old }
        ensures calm { OnOk result (failures self.new ≡ failures self.old) }
        ensures counted { IfErr result (λ fault. IsNoted fault name.now (failures self.old) (failures self.new)) };

    /// Makes the file of this name hold the first draft, which is its own, all at once and for good, and ends the draft.
    fn keep(&mut self, name: &str) -> Result<(), Cause>
        ensures kept { OnOk result (IsTrue tells → IsKept name.now (drafts self.old) (drafts self.new) (holds self.old) (holds self.new)) }
        ensures same { OnErr result (IsTrue tells → holds self.new ≡ holds self.old) }
        ensures calm { OnOk result (failures self.new ≡ failures self.old) }
        ensures counted { OnErr result (IsFailed name.now (failures self.old) (failures self.new)) };

    /// Ends all drafts, and keeps nothing of them.
    fn abandon(&mut self)
        ensures none { IsTrue tells → drafts self.new ≡ [] }
        ensures same { IsTrue tells → holds self.new ≡ holds self.old }
        ensures calm { failures self.new ≡ failures self.old };
}

/// Begins the draft of a file, behind the others, and puts all of these bytes into it.
pub fn write_draft<F: Files>(files: &mut F, name: &str, bytes: &[u8]) -> Result<(), WriteFault>
    ensures written { OnOk result (IsTrue F.tells → F.drafts files.new ≡ F.drafts files.old ++ (name.now, bytes.now) ∷ []) }
    ensures same { IsTrue F.tells → F.holds files.new ≡ F.holds files.old }
    ensures calm { OnOk result (F.failures files.new ≡ F.failures files.old) }
    ensures counted { IfErr result (λ fault. IsNoted fault name.now (F.failures files.old) (F.failures files.new)) }
{
    files.start(name)?;
    let mut at = 0;
    while at < bytes.len() {
        let n = files.put_some(name, &bytes[at..])?;
        at += n;
    }
    Ok(())
}

/// Writes the draft of a file, where there is no other, and keeps it.
fn write_whole<F: Files>(files: &mut F, name: &str, bytes: &[u8]) -> Result<(), WriteFault>
    requires { IsTrue F.tells → F.drafts files.old ≡ [] }
    ensures written { OnOk result (IsTrue F.tells → Changes (F.holds files.old) (F.holds files.new) name.now bytes.now) }
    ensures same { OnErr result (IsTrue F.tells → F.holds files.new ≡ F.holds files.old) }
    ensures calm { OnOk result (F.failures files.new ≡ F.failures files.old) }
    ensures counted { IfErr result (λ fault. IsNoted fault name.now (F.failures files.old) (F.failures files.new)) }
{
    write_draft(files, name, bytes)?;
    match files.keep(name) {
        Ok(()) => Ok(()),
        Err(cause) => Err(WriteFault::Failed(cause)),
    }
}

/// Makes a file hold these bytes. Where a call fails, or memory is refused, every file is as it was. Drafts that were begun before are not kept.
pub fn write_file<F: Files>(files: &mut F, name: &str, bytes: &[u8]) -> Result<(), WriteFault>
    ensures written { OnOk result (IsTrue F.tells → Changes (F.holds files.old) (F.holds files.new) name.now bytes.now) }
    ensures same { OnErr result (IsTrue F.tells → F.holds files.new ≡ F.holds files.old) }
    ensures calm { OnOk result (F.failures files.new ≡ F.failures files.old) }
    ensures counted { IfErr result (λ fault. IsNoted fault name.now (F.failures files.old) (F.failures files.new)) }
{
    files.abandon();
    let written = write_whole(files, name, bytes);
    if written.is_err() {
        files.abandon();
    }
    written
}
