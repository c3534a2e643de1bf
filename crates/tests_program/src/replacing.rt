//! A file is replaced by a temporary one, and two files by two, at each failure in turn.

use crate::assertions::{equal, holds};
use crate::made::Step::{Make, Put, Remove, Rename, Sync, SyncFolder};
use crate::made::{Contents, Made, Step, taken};
use std::alloc::Global;
use std::cell::RefCell;
use std::io::ErrorKind;
use std::rc::Rc;
use std::test::Fail;
use wblock_io::{Disk, Files, write_file};
use wblock_line::{Fault, Status, Write, write_files};

const OLD: &[u8] = b"old";

const NEW: &[u8] = b"new";

/// A file of the old bytes by its name, and whether a run that lives has claimed it.
type Held<'a> = (&'a str, bool);

/// One file that is replaced.
const ONE: &[Held] = &[("w", false)];

/// Two files that are written together.
const BOTH: &[Held] = &[("v", false), ("w", false)];

/// A disk with these files. The call after so many others fails with this error, if a number is given.
fn disk(
    alloc: Global,
    files: &[Held],
    left: Option<u64>,
    error: ErrorKind,
) -> Result<Rc<RefCell<Contents>>, Fail> {
    let mut contents = Contents::new(alloc, left, error);
    for (name, is_claimed) in files {
        contents.hold(*name, OLD, *is_claimed)?;
    }
    let disk = Rc::new(alloc, RefCell::new(contents))?;
    Ok(disk)
}

/// Whether no temporary file of `w` is there, or this one alone.
fn is_clean(contents: &Contents, left: Option<&[u8]>) -> bool {
    contents.holds("w.part-0", left)
        && contents.holds("w.part-1", None)
        && contents.holds("w.part-2", None)
}

/// Whether the write of `w` is done.
fn is_written(alloc: Global, contents: &Rc<RefCell<Contents>>) -> bool {
    let Ok(contents) = contents.clone() else {
        return false;
    };
    let rt = (Made(contents), alloc);
    write_file(&mut Disk::new(&rt), "w", NEW).is_ok()
}

/// What replaces a file by one of three bytes: it is written down to the disk before it is renamed, and the folder after that.
const REPLACING: &[Step] = &[Make, Put, Put, Sync, Rename, SyncFolder];

/// What is there before `w` is written, what is left of `w.part-0`, and what is done.
const WRITES: &[(&str, &[Held], Option<&[u8]>, &[Step])] = &[
    ("no file", &[], None, REPLACING),
    ("an old file", ONE, None, REPLACING),
    (
        "what a killed run left",
        &[("w", false), ("w.part-0", false), ("w.part-1", false)],
        None,
        &[Remove, Make, Remove, Put, Put, Sync, Rename, SyncFolder],
    ),
    (
        "what a living run writes",
        &[("w", false), ("w.part-0", true)],
        Some(OLD),
        REPLACING,
    ),
];

#[test]
fn writes_a_file_down_before_it_is_renamed(rt: HostRuntime) -> Result<(), Fail> {
    let alloc = rt.alloc();
    for (what, files, left, steps) in WRITES {
        let disk = disk(alloc, *files, None, ErrorKind::StorageFull)?;
        let written = is_written(alloc, &disk);
        let contents = taken(disk)?;
        let is_new = written && contents.holds("w", Some(NEW)) && is_clean(&contents, *left);
        holds(&rt, what, is_new);
        equal(&rt, what, &contents.steps(), steps);
    }
    Ok(())
}

/// Whether the call after so many others fails, and then the file is the old one or the new one, as the write says, with nothing beside it; and is the
/// new one after the next write. None: there are no more calls.
fn survives(alloc: Global, calls: u64) -> Result<Option<bool>, Fail> {
    let made = disk(alloc, ONE, Some(calls), ErrorKind::StorageFull)?;
    let written = is_written(alloc, &made);
    let mut contents = taken(made)?;
    if contents.is_to_fail() {
        return Ok(None);
    }
    // only where the folder is not written down the write fails and the file is the new one
    let is_renamed = contents.steps().contains(&Rename);
    let wanted = if is_renamed { NEW } else { OLD };
    let first = (written || !contents.steps().contains(&SyncFolder))
        && (is_renamed || !written)
        && contents.holds("w", Some(wanted))
        && is_clean(&contents, None);
    contents.end_all();
    let contents = Rc::new(alloc, RefCell::new(contents))?;
    let second = is_written(alloc, &contents);
    let contents = taken(contents)?;
    Ok(Some(first && second && contents.holds("w", Some(NEW)) && is_clean(&contents, None)))
}

#[test]
fn keeps_the_old_file_or_the_new_one_at_each_failure(rt: HostRuntime) -> Result<(), Fail> {
    let alloc = rt.alloc();
    let mut failures = 0u64;
    for calls in 0..40 {
        let Some(survived) = survives(alloc, calls)? else {
            break;
        };
        holds(&rt, &("calls", calls), survived);
        failures = calls + 1;
    }
    // four looks, three openings, two puts, two syncs and the renaming
    equal(&rt, &"failures", &failures, &12);
    Ok(())
}

/// Whether a draft is begun, put to and abandoned, and nothing is put or kept but what was begun.
fn is_abandoned(alloc: Global, contents: &Rc<RefCell<Contents>>) -> bool {
    let Ok(contents) = contents.clone() else {
        return false;
    };
    let rt = (Made(contents), alloc);
    let mut files = Disk::new(&rt);
    let began = files.start("w").is_ok() && files.start("w").is_ok();
    let put = files.put_some("w", NEW) == Ok(2);
    let other = files.put_some("v", NEW).is_err() && files.keep("v").is_err();
    files.abandon();
    let none = files.put_some("w", NEW).is_err() && files.keep("w").is_err();
    began && put && other && none && files.is_there("w") && !files.is_there("v")
}

#[test]
fn keeps_nothing_of_a_draft_that_is_abandoned(rt: HostRuntime) -> Result<(), Fail> {
    let alloc = rt.alloc();
    let made = disk(alloc, ONE, None, ErrorKind::StorageFull)?;
    let abandoned = is_abandoned(alloc, &made);
    let contents = taken(made)?;
    let is_old = abandoned && contents.holds("w", Some(OLD)) && is_clean(&contents, None);
    holds(&rt, &"the old file", is_old);
    Ok(())
}

/// What replaces both: each is whole before the first is renamed.
const REPLACING_BOTH: &[Step] = &[
    Make, Put, Put, Make, Put, Put, Sync, Rename, SyncFolder, Sync, Rename, SyncFolder,
];

/// How the write of both ends; None where it is not tried.
fn both_written(alloc: Global, contents: &Rc<RefCell<Contents>>) -> Option<Status> {
    let rt = (Made(contents.clone().ok()?), alloc);
    let mut writes = Vec::new(alloc);
    for (name, _) in BOTH {
        let bytes = NEW.to_vec(alloc).ok()?;
        writes.push(Write { name: *name, bytes }).ok()?;
    }
    match write_files(&mut Disk::new(&rt), writes.as_slice()) {
        Ok(()) => Some(Status::Done),
        Err(Fault::File(_, _)) => Some(Status::File),
        Err(Fault::NoMemory) => Some(Status::Memory),
    }
}

/// How many files were renamed.
fn renamed(contents: &Contents) -> usize {
    let renames = contents.steps().iter().filter(|step| **step == Rename);
    renames.count()
}

/// Whether the first so many of both are new and the others old, with nothing beside them.
fn are_new(contents: &Contents, count: usize) -> bool {
    let first = if count > 0 { NEW } else { OLD };
    let second = if count > 1 { NEW } else { OLD };
    contents.holds("v", Some(first))
        && contents.holds("w", Some(second))
        && contents.holds("v.part-0", None)
        && is_clean(contents, None)
}

/// How the write of both ends where the call after so many others is refused memory, if it is one of theirs, and whether the files are as they have to be:
/// both new where it is done, and both old where it says that memory was refused. None: there are no more calls.
fn ending(alloc: Global, calls: u64) -> Result<Option<(Status, bool)>, Fail> {
    let made = disk(alloc, BOTH, Some(calls), ErrorKind::OutOfMemory)?;
    let written = both_written(alloc, &made);
    let contents = taken(made)?;
    let status = match written {
        Some(status) if !contents.is_to_fail() => status,
        _ => return Ok(None),
    };
    let count = renamed(&contents);
    let is_told = match status {
        Status::Done => count == 2,
        Status::Memory => count == 0,
        _ => true,
    };
    Ok(Some((status, is_told && are_new(&contents, count))))
}

#[test]
fn writes_no_file_where_memory_is_refused_to_one(rt: HostRuntime) -> Result<(), Fail> {
    let alloc = rt.alloc();
    let mut done = 0u64;
    let mut failed = 0u64;
    let mut refused = 0u64;
    for calls in 0..40 {
        let Some((status, is_right)) = ending(alloc, calls)? else {
            break;
        };
        holds(&rt, &("calls", calls), is_right);
        match status {
            Status::Memory => refused = refused.saturating_add(1),
            Status::File => failed = failed.saturating_add(1),
            _ => done = done.saturating_add(1),
        }
    }
    // of each file a look, two openings and two puts; the folder, two syncs and the renaming; and three looks that need not succeed
    equal(&rt, &"refused", &(refused, failed, done), &(10, 8, 6));
    Ok(())
}

#[test]
fn writes_all_files_whole_before_one_is_renamed(rt: HostRuntime) -> Result<(), Fail> {
    let alloc = rt.alloc();
    let made = disk(alloc, &[], None, ErrorKind::StorageFull)?;
    let written = both_written(alloc, &made);
    let contents = taken(made)?;
    let is_new = written == Some(Status::Done) && are_new(&contents, 2);
    holds(&rt, &"the new files", is_new);
    equal(&rt, &"the steps", &contents.steps(), &REPLACING_BOTH);
    Ok(())
}
