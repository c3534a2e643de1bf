//! Files in memory, as a log of what they were made to hold.

ghost use Rattle.std.specs.Prelude.{◌≡◌, ℕ, List, [], ◌∷◌, true, ◌++◌, None, IfOk, IfErr, OnOk, OnErr, option_map, string_bytes};
ghost use Rattle.wblock_io.specs.Holding.{Changes, Draft, IsKept, IsNoted};
ghost use Rattle.wblock_io.specs.Log.{held_by, drafted_by, after};

use crate::cause::Cause;
use crate::failing::FileFailures;
use crate::files::{Files, ReadFault, WriteFault};
use byte_sinks::Failures;
use std::alloc::{AllocError, Global};

/// A file's name, and the bytes that it holds or is to hold.
#[derive(Debug, Drop)]
struct Held {
    name: String,
    bytes: Vec<u8>,
}

/// Files that keep their bytes, and take at most so many at a time. A call of a chosen number fails, and so do the
/// read of a file that is not there, a call on a draft that is not the file's, and a file that is refused memory as it is kept.
#[derive(Debug, Drop)]
pub struct MemoryFiles {
    alloc: Global,
    log: Vec<Held>,
    drafts: Vec<Held>,
    piece: usize,
    failures: FileFailures,
}

impl MemoryFiles {
    /// No files, which take at most `piece` bytes at a time, or one where that is 0.
    pub fn new(alloc: Global, piece: usize, failures: Failures) -> MemoryFiles
        ensures { held_by result ≡ λ name. None }
    {
        MemoryFiles {
            alloc,
            log: Vec::new(alloc),
            drafts: Vec::new(alloc),
            piece,
            failures: FileFailures::new(failures),
        }
    }

    /// Makes a file hold these bytes. This is no call that may be planned to fail.
    pub fn hold(&mut self, name: &str, bytes: &[u8]) -> Result<(), AllocError>
        ensures held { OnOk result (Changes (held_by self.old) (held_by self.new) name.now bytes.now) }
        ensures kept { OnErr result (held_by self.new ≡ held_by self.old) }
    {
        let name = name.to_string(self.alloc)?;
        let bytes = bytes.to_vec(self.alloc)?;
        self.add(Held { name, bytes })
    }

    /// The bytes of a file, or None where there is none.
    pub fn bytes_of(&self, alloc: Global, name: &str) -> Result<Option<Vec<u8>>, AllocError>
        ensures { IfOk result (λ found. option_map (λ v. v.items) found ≡ held_by self.now name.now) }
    {
        match self.last_of(name) {
            Some(held) => {
                let bytes = held.bytes.as_slice().to_vec(alloc)?;
                Ok(Some(bytes))
            }
            None => Ok(None),
        }
    }

    /// What a file was made to hold last.
    fn last_of(&self, name: &str) -> Option<&Held>
        ensures { option_map (λ h. h.now.bytes.items) result ≡ held_by self.now name.now }
    {
        let mut last = None;
        for held in &self.log {
            last = later(last, held, name);
        }
        last
    }

    /// Begins the draft of a file, behind the others.
    fn begin(&mut self, name: &str) -> Result<(), AllocError>
        ensures begun { OnOk result (drafted_by self.new ≡ drafted_by self.old ++ (name.now, []) ∷ []) }
        ensures same { held_by self.new ≡ held_by self.old }
        ensures calm { self.new.failures ≡ self.old.failures }
    {
        let name = name.to_string(self.alloc)?;
        let bytes = Vec::new(self.alloc);
        self.drafts.push(Held { name, bytes })?;
        Ok(())
    }

    /// Puts bytes at the end of the last draft. It fails where that is not the file's.
    fn extend(&mut self, name: &str, bytes: &[u8]) -> Result<(), WriteFault>
        ensures put { OnOk result ((others : List Draft) (front : List ℕ) → drafted_by self.old ≡ others ++ (name.now, front) ∷ [] → drafted_by self.new ≡ others ++ (name.now, front ++ bytes.now) ∷ []) }
        ensures same { held_by self.new ≡ held_by self.old }
        ensures calm { OnOk result (self.new.failures ≡ self.old.failures) }
        ensures counted { IfErr result (λ fault. IsNoted fault name.now self.old.failures self.new.failures) }
    {
        match self.drafts.last_mut() {
            Some(draft) if draft.name.as_str() == name => {
                match draft.bytes.extend_from_slice(bytes) {
                    Ok(()) => Ok(()),
                    Err(AllocError) => Err(WriteFault::NoMemory),
                }
            }
            _ => {
                self.failures.count(name);
                Err(WriteFault::Failed(Cause::Other))
            }
        }
    }

    /// Makes a file hold its bytes.
    fn add(&mut self, held: Held) -> Result<(), AllocError>
        ensures held { OnOk result (Changes (held_by self.old) (held_by self.new) (string_bytes held.name) held.bytes.items) }
        ensures kept { OnErr result (held_by self.new ≡ held_by self.old) }
        ensures others { self.new.drafts ≡ self.old.drafts }
        ensures calm { self.new.failures ≡ self.old.failures }
    {
        if self.log.push(held).is_err() {
            return Err(AllocError);
        }
        Ok(())
    }

    /// Makes a file hold the first draft, and ends that. It fails where that is not the file's and where memory is refused.
    fn hold_draft(&mut self, name: &str) -> Result<(), Cause>
        ensures kept { OnOk result (IsKept name.now (drafted_by self.old) (drafted_by self.new) (held_by self.old) (held_by self.new)) }
        ensures same { OnErr result (held_by self.new ≡ held_by self.old) }
        ensures calm { self.new.failures ≡ self.old.failures }
    {
        if self.drafts.is_empty() || self.drafts[0].name.as_str() != name {
            return Err(Cause::Other);
        }
        let draft = self.drafts.remove(0);
        match self.add(draft) {
            Ok(()) => Ok(()),
            Err(AllocError) => Err(Cause::Other),
        }
    }
}

/// What a file of this name was made to hold last, of what came before and one more.
fn later<'a>(last: Option<&'a Held>, held: &'a Held, name: &str) -> Option<&'a Held>
    ensures { option_map (λ h. h.now.bytes.items) result ≡ after held.now name.now (option_map (λ h. h.now.bytes.items) last.entry) }
{
    if held.name.as_str() == name {
        return Some(held);
    }
    last
}

impl Files for MemoryFiles {
    ghost tells = { true };

    ghost holds = { held_by };

    ghost drafts = { drafted_by };

    ghost failures = { λ m. m.failures };

    fn is_there(&self, name: &str) -> bool {
        self.last_of(name).is_some()
    }

    fn read_all(&mut self, alloc: Global, name: &str) -> Result<Vec<u8>, ReadFault> {
        if self.failures.fails(name) {
            return Err(ReadFault::Failed(Cause::Other));
        }
        match self.bytes_of(alloc, name) {
            Ok(Some(bytes)) => Ok(bytes),
            Ok(None) => {
                self.failures.count(name);
                Err(ReadFault::Failed(Cause::NotFound))
            }
            Err(AllocError) => Err(ReadFault::NoMemory),
        }
    }

    fn start(&mut self, name: &str) -> Result<(), WriteFault> {
        if self.failures.fails(name) {
            return Err(WriteFault::Failed(Cause::Other));
        }
        match self.begin(name) {
            Ok(()) => Ok(()),
            Err(AllocError) => Err(WriteFault::NoMemory),
        }
    }

    fn put_some(&mut self, name: &str, bytes: &[u8]) -> Result<usize, WriteFault> {
        if self.failures.fails(name) {
            return Err(WriteFault::Failed(Cause::Other));
        }
        let n = bytes.len().min(self.piece.max(1));
        match self.extend(name, &bytes[..n]) {
            Ok(()) => Ok(n),
            Err(fault) => Err(fault),
        }
    }

    fn keep(&mut self, name: &str) -> Result<(), Cause> {
        if self.failures.fails(name) {
            return Err(Cause::Other);
        }
        match self.hold_draft(name) {
            Ok(()) => Ok(()),
            Err(cause) => {
                self.failures.count(name);
                Err(cause)
            }
        }
    }

    fn abandon(&mut self) {
        self.drafts.clear();
    }
}
