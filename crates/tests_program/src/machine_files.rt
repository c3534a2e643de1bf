//! Files and streams of the machine: they are reached, and why a call on them fails.

use crate::assertions::{equal, holds};
use byte_sinks::{Sink, put_all};
use std::alloc::Global;
use std::io::ErrorKind;
use std::test::Fail;
use wblock_io::{Cause, Disk, Files, ReadFault, Stream, WriteFault, write_file};

/// Whether a file is read as these bytes, or its read fails for this cause.
fn reads<F: Files>(alloc: Global, files: &mut F, name: &str, wanted: Result<&[u8], Cause>) -> bool {
    match files.read_all(alloc, name) {
        Ok(bytes) => wanted == Ok(bytes.as_slice()),
        Err(ReadFault::Failed(cause)) => wanted == Err(cause),
        Err(ReadFault::NoMemory) => false,
    }
}

/// Errors of the machine, their causes, and what is said of them.
const CAUSES: &[(ErrorKind, Cause, &str)] = &[
    (
        ErrorKind::NotFound,
        Cause::NotFound,
        "there is no such file or folder",
    ),
    (
        ErrorKind::PermissionDenied,
        Cause::NotAllowed,
        "permission is denied",
    ),
    (ErrorKind::IsADirectory, Cause::IsFolder, "it is a folder"),
    (
        ErrorKind::NotADirectory,
        Cause::NotFolder,
        "a part of its path is no folder",
    ),
    (ErrorKind::StorageFull, Cause::NoSpace, "no space is left"),
    (ErrorKind::QuotaExceeded, Cause::NoSpace, "no space is left"),
    (ErrorKind::FileTooLarge, Cause::NoSpace, "no space is left"),
    (
        ErrorKind::ReadOnlyFilesystem,
        Cause::ReadOnly,
        "it is on a file system that can only be read",
    ),
    (ErrorKind::Interrupted, Cause::Other, ""),
    (ErrorKind::AlreadyExists, Cause::Other, ""),
];

#[test]
fn errors_have_their_causes(rt: HostRuntime) {
    for (kind, cause, words) in CAUSES {
        let found = Cause::of(*kind);
        equal(&rt, kind, &(found, found.words()), &(*cause, *words));
    }
}

#[test]
fn reaches_the_files_of_the_machine(rt: HostRuntime) -> Result<(), Fail> {
    let alloc = rt.alloc();
    let mut files = Disk::new(&rt);
    let before = files.is_there("file.tmp");
    let first = write_file(&mut files, "file.tmp", b"first");
    let second = write_file(&mut files, "file.tmp", b"second");
    let held = reads(alloc, &mut files, "file.tmp", Ok(b"second".as_slice()));
    let there = files.is_there("file.tmp");
    std::fs::remove_file(&rt, "file.tmp")?;
    let after = files.is_there("file.tmp");
    let written = (first, second, held);
    equal(&rt, &"written", &written, &(Ok(()), Ok(()), true));
    let is_there = (before, there, after);
    equal(&rt, &"there", &is_there, &(false, true, false));
    Ok(())
}

/// Whether the draft of a file stands beside it, and goes where it is abandoned.
fn is_beside<F: Files>(files: &mut F) -> bool {
    let began = files.start("draft.tmp").is_ok() && files.put_some("draft.tmp", b"new").is_ok();
    let beside = files.is_there("draft.tmp.part-0") && !files.is_there("draft.tmp");
    files.abandon();
    began && beside && !files.is_there("draft.tmp.part-0") && !files.is_there("draft.tmp")
}

/// Names of the machine of which no file is read or written, and the cause of either.
const NO_FILES: &[(&str, Cause)] = &[
    ("no/such/file", Cause::NotFound),
    (".", Cause::IsFolder),
    ("/dev/null/file", Cause::NotFolder),
];

/// Whether no file of this name is read or written, for this cause.
fn is_no_file<F: Files>(alloc: Global, files: &mut F, name: &str, cause: Cause) -> bool {
    reads(alloc, files, name, Err(cause))
        && files.start(name) == Err(WriteFault::Failed(cause))
        && files.put_some(name, b"x").is_err()
        && files.keep(name).is_err()
}

#[test]
fn tells_why_a_file_of_the_machine_fails(rt: HostRuntime) {
    let alloc = rt.alloc();
    let mut files = Disk::new(&rt);
    for (name, cause) in NO_FILES {
        let is_none = is_no_file(alloc, &mut files, *name, *cause);
        holds(&rt, name, is_none);
    }
    let is_beside = is_beside(&mut files);
    holds(&rt, &"a draft", is_beside);
}

/// Devices, which are written as they are, and how a write to each ends.
const DEVICES: &[(&str, Result<(), WriteFault>)] = &[
    ("/dev/null", Ok(())),
    ("/dev/full", Err(WriteFault::Failed(Cause::NoSpace))),
];

#[test]
fn writes_devices_of_the_machine(rt: HostRuntime) {
    let mut files = Disk::new(&rt);
    for (name, wanted) in DEVICES {
        let written = write_file(&mut files, *name, b"x");
        equal(&rt, name, &written, wanted);
    }
}

#[test]
fn reaches_the_streams_of_the_machine(rt: HostRuntime) {
    let mut out = Stream::new(rt.stdout());
    let line = put_all(&mut out, b"a line\n");
    let nothing = out.put_some(b"");
    equal(&rt, &"a line", &(line, nothing), &(Ok(()), Ok(0)));
}
