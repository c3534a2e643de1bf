//! The files of the machine, of which nothing is told.

ghost use Rattle.std.specs.Prelude.{◌≤◌, false, None, [], IfOk, length};
ghost use Rattle.wblock_io.specs.Holding.{IsFailed, IsNoted};

use crate::cause::Cause;
use crate::failing::FileFailures;
use crate::files::{Files, ReadFault, WriteFault};
use crate::temporary::{Claim, make_temporary};
use byte_sinks::Failures;
use std::alloc::{AllocGlobal, Global};
use std::fs::{self, File, OpenFile, OpenOptions};
use std::io::{self, ErrorKind, Read, Write};
use std::path::Path;

/// The files that a runtime reaches. What is put into a draft goes to a temporary file beside the file that it is for, and when the draft is kept the
/// temporary file is written down to the disk and renamed, so that a crash leaves the old file or the new one. What is there and is no regular file,
/// as a pipe or a device, is written as it is, and is closed before the next draft is begun.
#[derive(Drop)]
pub struct Disk<'a, R: std::rt::Files> {
    rt: &'a R,
    drafts: Vec<Draft<R::File>>,
    failures: FileFailures,
}

/// A file that is being written.
#[derive(Drop)]
struct Draft<F> {
    /// The name that the file was asked for by.
    name: String,
    /// The open file, or None where it stands in its place already and is closed.
    file: Option<F>,
    /// How it takes its place when it is kept, or None where it stands there already.
    renaming: Option<Renaming>,
}

impl<F: Write> Draft<F> {
    /// Puts the first bytes at the end of the file, where it is open, and says how many.
    fn put_some(&mut self, bytes: &[u8]) -> io::Result<usize>
        ensures { IfOk result (λ n. n ≤ length bytes.now) }
    {
        match &mut self.file {
            Some(file) => file.write(bytes),
            None => Err(io::Error::from(ErrorKind::NotFound)),
        }
    }
}

/// A temporary file, and the file whose place it takes.
#[derive(Drop)]
struct Renaming {
    from: String,
    to: String,
}

impl<'a, R: std::rt::Files + AllocGlobal> Disk<'a, R> {
    /// The files that this runtime reaches.
    pub fn new(rt: &'a R) -> Disk<'a, R> {
        Disk {
            rt,
            drafts: Vec::new(rt.alloc()),
            failures: FileFailures::new(Failures::none()),
        }
    }

    /// Notes a failure of the file of this name, and gives its cause.
    fn fail(&mut self, name: &str, kind: ErrorKind) -> Cause
        ensures { IsFailed name.now self.old.failures self.new.failures }
    {
        self.failures.count(name);
        Cause::of(kind)
    }

    /// What an error comes to where the file of this name is written. Want of memory is no failure of the file.
    fn fault(&mut self, name: &str, kind: ErrorKind) -> WriteFault
        ensures { IsNoted result name.now self.old.failures self.new.failures }
    {
        if kind == ErrorKind::OutOfMemory {
            return WriteFault::NoMemory;
        }
        WriteFault::Failed(self.fail(name, kind))
    }
}

/// Whether a name is of a stream that this process has open, and so is written as it is, whatever it leads to: a file that took the place of a
/// stream's would be another than the stream's.
fn is_stream(name: &str) -> bool {
    name.starts_with("/dev/std") || name.starts_with("/dev/fd/") || name.starts_with("/proc/")
}

/// The path whose file is replaced where that of this name is to be: the file that a link leads to, and not the link.
fn target_of<R: std::rt::Files>(rt: &R, alloc: Global, name: &str) -> io::Result<String> {
    match rt.symlink_metadata(name) {
        Ok(there) if there.is_symlink() => Ok(rt.canonicalize(alloc, name)?.into_string()),
        _ => Ok(name.to_string(alloc)?),
    }
}

/// Begins the draft of the file of this name.
fn begin<R: std::rt::Files>(rt: &R, alloc: Global, name: &str) -> io::Result<Draft<R::File>>
where
    R::File: Claim,
{
    let before = match fs::metadata(rt, name) {
        Ok(before) => Some(before),
        Err(error) if error.kind() == ErrorKind::NotFound => None,
        Err(error) => return Err(error),
    };
    let name = name.to_string(alloc)?;
    if let Some(before) = &before {
        if before.is_dir() {
            return Err(io::Error::from(ErrorKind::IsADirectory));
        }
        if !before.is_file() || is_stream(name.as_str()) {
            let file = File::create(rt, name.as_str())?;
            return Ok(Draft {
                name,
                file: Some(file),
                renaming: None,
            });
        }
        // renaming asks the folder alone, but a file that may not be written is not to be replaced either
        OpenOptions::new().write(true).open(rt, name.as_str())?;
    }
    let to = target_of(rt, alloc, name.as_str())?;
    let (file, from) = make_temporary(rt, alloc, to.as_str())?;
    if let Some(before) = before {
        // who may read and write it is kept where that can be
        let _ = OpenFile::set_permissions(&file, before.permissions());
    }
    Ok(Draft {
        name,
        file: Some(file),
        renaming: Some(Renaming { from, to }),
    })
}

/// The folder of a path, open, or None where it may not be opened, as one that may be written and not read.
fn folder_of<R: std::rt::Files>(rt: &R, path: &str) -> io::Result<Option<R::File>> {
    let folder = match Path::new(path).parent() {
        Some(folder) if !folder.as_str().is_empty() => folder.as_str(),
        _ => ".",
    };
    match File::open(rt, folder) {
        Ok(folder) => Ok(Some(folder)),
        Err(error) if error.kind() == ErrorKind::PermissionDenied => Ok(None),
        Err(error) => Err(error),
    }
}

/// Writes a file down to the disk and gives it its place, and gives the folder of it.
fn put_in_place<R: std::rt::Files>(
    rt: &R,
    file: &R::File,
    renaming: &Renaming,
) -> io::Result<Option<R::File>> {
    let folder = folder_of(rt, renaming.to.as_str())?;
    file.sync_all()?;
    rt.rename(renaming.from.as_str(), renaming.to.as_str())?;
    Ok(folder)
}

/// Keeps a draft. Where that fails, the temporary file is removed, and the file is as it was, but where the disk fails as the folder is written down
/// to it: then the file is the new one, and it is not known whether it stays so after a crash. It fails there, too, since who is told that a file is
/// written may remove what it was made of.
fn settle<R: std::rt::Files>(rt: &R, draft: &Draft<R::File>) -> io::Result<()> {
    let (Some(file), Some(renaming)) = (&draft.file, &draft.renaming) else {
        return Ok(());
    };
    let folder = match put_in_place(rt, file, renaming) {
        Ok(folder) => folder,
        Err(error) => {
            let _ = rt.remove_file(renaming.from.as_str());
            return Err(error);
        }
    };
    let Some(folder) = folder else {
        return Ok(());
    };
    match folder.sync_all() {
        // this file system writes no folder down by itself
        Err(error)
            if matches!(
                error.kind(),
                ErrorKind::Unsupported | ErrorKind::InvalidInput
            ) => { Ok(()) }
        synced => synced,
    }
}

/// Removes the temporary file of a draft, if it has one.
fn discard<R: std::rt::Files>(rt: &R, draft: &Draft<R::File>) {
    if let Some(renaming) = &draft.renaming {
        let _ = rt.remove_file(renaming.from.as_str());
    }
}

impl<'a, R: std::rt::Files + AllocGlobal> Files for Disk<'a, R>
where
    R::File: Claim,
{
    ghost tells = { false };

    ghost holds = { λ _ _. None };

    ghost drafts = { λ _. [] };

    ghost failures = { λ d. d.failures };

    fn is_there(&self, name: &str) -> bool {
        fs::exists(self.rt, name).unwrap_or(false)
    }

    fn read_all(&mut self, alloc: Global, name: &str) -> Result<Vec<u8>, ReadFault> {
        let mut file = match File::open(self.rt, name) {
            Ok(file) => file,
            Err(error) => return Err(ReadFault::Failed(self.fail(name, error.kind()))),
        };
        let mut bytes = Vec::new(alloc);
        match file.read_to_end(&mut bytes) {
            Ok(_) => Ok(bytes),
            Err(error) if error.kind() == ErrorKind::OutOfMemory => Err(ReadFault::NoMemory),
            Err(error) => Err(ReadFault::Failed(self.fail(name, error.kind()))),
        }
    }

    fn start(&mut self, name: &str) -> Result<(), WriteFault> {
        if let Some(draft) = self.drafts.last_mut() {
            // who reads a pipe is to see its end
            if draft.renaming.is_none() {
                draft.file = None;
            }
        }
        let draft = match begin(self.rt, self.rt.alloc(), name) {
            Ok(draft) => draft,
            Err(error) => return Err(self.fault(name, error.kind())),
        };
        match self.drafts.push(draft) {
            Ok(()) => Ok(()),
            Err(refused) => {
                discard(self.rt, &refused.value);
                Err(WriteFault::NoMemory)
            }
        }
    }

    fn put_some(&mut self, name: &str, bytes: &[u8]) -> Result<usize, WriteFault> {
        let put = match self.drafts.last_mut() {
            Some(draft) if draft.name.as_str() == name => draft.put_some(bytes),
            _ => Err(io::Error::from(ErrorKind::NotFound)),
        };
        match put {
            Ok(n) if n > 0 || bytes.is_empty() => Ok(n),
            Ok(_) => Err(self.fault(name, ErrorKind::StorageFull)),
            Err(error) => Err(self.fault(name, error.kind())),
        }
    }

    fn keep(&mut self, name: &str) -> Result<(), Cause> {
        if self.drafts.is_empty() || self.drafts[0].name.as_str() != name {
            return Err(self.fail(name, ErrorKind::NotFound));
        }
        // the temporary file is gone in any case, and its path may be another run's by now
        let draft = self.drafts.remove(0);
        match settle(self.rt, &draft) {
            Ok(()) => Ok(()),
            Err(error) => Err(self.fail(name, error.kind())),
        }
    }

    fn abandon(&mut self) {
        for draft in &self.drafts {
            discard(self.rt, draft);
        }
        self.drafts.clear();
    }
}
