//! Why a call on a file failed.

use std::io::ErrorKind;

/// Why a call on a file failed, as far as it is known.
#[derive(Clone, Copy, Debug, PartialEq, Eq)]
pub enum Cause {
    /// There is no such file or folder.
    NotFound,
    /// It may not be read or written.
    NotAllowed,
    /// It is a folder.
    IsFolder,
    /// A folder on the way to it is a file.
    NotFolder,
    /// No room is left, or a quota is used up.
    NoSpace,
    /// It is on what can only be read.
    ReadOnly,
    /// Something else, of which nothing is told.
    Other,
}

impl Cause {
    /// The cause of an error of the machine.
    pub fn of(kind: ErrorKind) -> Cause {
        match kind {
            ErrorKind::NotFound => Cause::NotFound,
            ErrorKind::PermissionDenied => Cause::NotAllowed,
            ErrorKind::IsADirectory => Cause::IsFolder,
            ErrorKind::NotADirectory => Cause::NotFolder,
            ErrorKind::StorageFull | ErrorKind::QuotaExceeded | ErrorKind::FileTooLarge => {
                Cause::NoSpace
            }
            ErrorKind::ReadOnlyFilesystem => Cause::ReadOnly,
            _ => Cause::Other,
        }
    }

    /// A sentence without a newline that says why, or nothing where it is not known.
    pub fn words(self) -> &'static str {
        match self {
            Cause::NotFound => "there is no such file or folder",
            Cause::NotAllowed => "permission is denied",
            Cause::IsFolder => "it is a folder",
            Cause::NotFolder => "a part of its path is no folder",
            Cause::NoSpace => "no space is left",
            Cause::ReadOnly => "it is on a file system that can only be read",
            Cause::Other => "",
        }
    }
}
