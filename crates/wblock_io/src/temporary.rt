//! Temporary files beside the files whose place they take.

use std::alloc::{AllocError, Global};
use std::fs::{File, TryLockError};
use std::io::{self, ErrorKind};
use std::os::unix::fs::MetadataExt;
use std::rt::Files;

/// How many temporary files of one name may be there at once.
const MOST: u32 = 1_000;

/// Whose a file is that was asked for.
#[derive(Clone, Copy, Debug, PartialEq, Eq)]
pub enum Owner {
    /// The one's that asked.
    This,
    /// Another run's, which has it open.
    Another,
    /// It can't be told, since the system has no locks for it.
    Unknown,
}

/// An open file that can be claimed for as long as its handle is open.
pub trait Claim {
    /// Claims the file, unless it is another's, and says whose it is.
    fn claim(&self) -> Owner;

    /// Whether this path names the file itself, and neither another one nor a link to it.
    fn is_at<R: Files>(&self, rt: &R, path: &str) -> bool;
}

impl Claim for File {
    fn claim(&self) -> Owner {
        match self.try_lock() {
            Ok(()) => Owner::This,
            Err(TryLockError::WouldBlock) => Owner::Another,
            Err(TryLockError::Error(_)) => Owner::Unknown,
        }
    }

    fn is_at<R: Files>(&self, rt: &R, path: &str) -> bool {
        let Ok(own) = self.metadata() else {
            return false;
        };
        let Ok(there) = rt.symlink_metadata(path) else {
            return false;
        };
        own.ino() == there.ino() && own.dev() == there.dev()
    }
}

/// Makes an empty temporary file beside the file of a path, claims it, and gives it with its path. Those of the same file that runs left behind which
/// were killed are removed.
///
/// Only who has claimed a temporary file renames or removes it. So none that another run writes is taken away, and between the look at a path and
/// what is done to it no other file comes there.
pub fn make_temporary<R: Files>(
    rt: &R,
    alloc: Global,
    target: &str,
) -> io::Result<(R::File, String)>
where
    R::File: Claim,
{
    for number in 0..MOST {
        let path = format!(in alloc; "{target}.part-{number}")?;
        if let Some(file) = make_at(rt, path.as_str())? {
            if let Err(error) = sweep(rt, alloc, target, number + 1) {
                let _ = rt.remove_file(path.as_str());
                return Err(io::Error::from(error));
            }
            return Ok((file, path));
        }
    }
    Err(io::Error::from(ErrorKind::AlreadyExists))
}

/// Makes a file of this path and claims it. None: the path is another's.
fn make_at<R: Files>(rt: &R, path: &str) -> io::Result<Option<R::File>>
where
    R::File: Claim,
{
    clear(rt, path);
    match File::create_new(rt, path) {
        // where another run took it for one that was left, before it was claimed here, it is that run's to remove
        Ok(file) if file.claim() == Owner::Another || !file.is_at(rt, path) => Ok(None),
        Ok(file) => Ok(Some(file)),
        Err(error) if error.kind() == ErrorKind::AlreadyExists => Ok(None),
        Err(error) => Err(error),
    }
}

/// Removes the temporary file of this path, if there is one that can be claimed: a run left it that was killed.
fn clear<R: Files>(rt: &R, path: &str)
where
    R::File: Claim,
{
    // (a pipe would wait to be opened)
    let is_file = match rt.symlink_metadata(path) {
        Ok(there) => there.is_file(),
        Err(_) => false,
    };
    if !is_file {
        return;
    }
    let Ok(file) = File::open(rt, path) else {
        return;
    };
    if file.claim() == Owner::This && file.is_at(rt, path) {
        // one that can't be removed is in the way of its number alone
        let _ = rt.remove_file(path);
    }
}

/// Removes what was left under the numbers from this one on, up to the first of which there is no file. It fails where memory is refused.
fn sweep<R: Files>(rt: &R, alloc: Global, target: &str, from: u32) -> Result<(), AllocError>
where
    R::File: Claim,
{
    for number in from..MOST {
        let path = format!(in alloc; "{target}.part-{number}")?;
        if rt.symlink_metadata(path.as_str()).is_err() {
            break;
        }
        clear(rt, path.as_str());
    }
    Ok(())
}
