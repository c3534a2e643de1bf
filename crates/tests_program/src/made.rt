//! A disk that is made: files in one folder, which notes what was done to it, and of which a chosen call fails.

use std::alloc::{AllocError, Global};
use std::cell::{RefCell, RefMut};
use std::fs::{Metadata, OpenFile, OpenOptions};
use std::io::{self, ErrorKind, Read, Seek, SeekFrom, Write};
use std::rc::Rc;
use std::rt::Files;
use wblock_io::{Claim, Owner};

/// What was done.
#[derive(Clone, Copy, Debug, PartialEq, Eq)]
pub enum Step {
    /// A file was made.
    Make,
    /// Bytes were put at the end of a file.
    Put,
    /// A file was written down to the disk.
    Sync,
    /// A file took the place of another name.
    Rename,
    /// The folder was written down to the disk.
    SyncFolder,
    /// A file was removed.
    Remove,
}

/// A file, of no name where it was removed.
#[derive(Debug, Drop)]
struct Kept {
    name: String,
    bytes: Vec<u8>,
    is_claimed: bool,
}

/// What the disk holds, what was done to it, and after how many calls one fails, and how.
#[derive(Debug, Drop)]
pub struct Contents {
    alloc: Global,
    files: Vec<Kept>,
    steps: Vec<Step>,
    left: Option<u64>,
    error: ErrorKind,
}

impl Contents {
    /// No files. The call after so many others fails with this error, if a number is given.
    pub fn new(alloc: Global, left: Option<u64>, error: ErrorKind) -> Contents {
        Contents {
            alloc,
            files: Vec::new(alloc),
            steps: Vec::new(alloc),
            left,
            error,
        }
    }

    /// Puts a file there, which a run that lives has claimed or not.
    pub fn hold(&mut self, name: &str, bytes: &[u8], is_claimed: bool) -> Result<(), AllocError> {
        let file = Kept {
            name: name.to_string(self.alloc)?,
            bytes: bytes.to_vec(self.alloc)?,
            is_claimed,
        };
        self.files.push(file).map_err(|_| AllocError)
    }

    /// Whether a file of this name holds these bytes, or whether there is none.
    pub fn holds(&self, name: &str, wanted: Option<&[u8]>) -> bool {
        for file in &self.files {
            if file.name.as_str() == name {
                return wanted == Some(file.bytes.as_slice());
            }
        }
        wanted.is_none()
    }

    /// What was done.
    pub fn steps(&self) -> &[Step] {
        self.steps.as_slice()
    }

    /// Whether the call that was to fail has not come.
    pub fn is_to_fail(&self) -> bool {
        self.left.is_some()
    }

    /// Every run ends, and with it what it claimed.
    pub fn end_all(&mut self) {
        for file in &mut self.files {
            file.is_claimed = false;
        }
    }

    /// Counts a call, which fails if it is the chosen one.
    fn count(&mut self) -> io::Result<()> {
        match self.left {
            None => Ok(()),
            Some(0) => {
                self.left = None;
                Err(io::Error::from(self.error))
            }
            Some(n) => {
                self.left = Some(n - 1);
                Ok(())
            }
        }
    }

    fn place_of(&self, name: &str) -> Option<usize> {
        for place in 0..self.files.len() {
            if self.files[place].name.as_str() == name {
                return Some(place);
            }
        }
        None
    }

    fn note(&mut self, step: Step) -> io::Result<()> {
        match self.steps.push(step) {
            Ok(()) => Ok(()),
            Err(_) => Err(io::Error::from(AllocError)),
        }
    }

    /// Takes a name from the file that has it.
    fn take_name(&mut self, name: &str) -> io::Result<String> {
        for file in &mut self.files {
            if file.name.as_str() == name {
                let none = String::new(self.alloc);
                return Ok(std::mem::replace(&mut file.name, none));
            }
        }
        Err(io::Error::from(ErrorKind::NotFound))
    }
}

/// The disk, whose files have this in common.
#[derive(Drop)]
pub struct Made(pub Rc<RefCell<Contents>>);

impl Made {
    fn contents(&self) -> io::Result<RefMut<'_, Contents>> {
        match self.0.try_borrow_mut() {
            Ok(contents) => Ok(contents),
            Err(_) => Err(io::Error::from(ErrorKind::ResourceBusy)),
        }
    }

    fn look(&self, path: &str) -> io::Result<Metadata> {
        let mut contents = self.contents()?;
        contents.count()?;
        if path == "." {
            return Ok(Metadata::of_dir());
        }
        match contents.place_of(path) {
            Some(_) => Ok(Metadata::of_file(0)),
            None => Err(io::Error::from(ErrorKind::NotFound)),
        }
    }
}

/// What was done to a disk of which nothing is open any more.
pub fn taken(contents: Rc<RefCell<Contents>>) -> io::Result<Contents> {
    match Rc::into_inner(contents) {
        Some(contents) => Ok(contents.into_inner()),
        None => Err(io::Error::from(ErrorKind::ResourceBusy)),
    }
}

/// An open file of the disk, or the folder.
#[derive(Drop)]
pub struct Opened {
    disk: Made,
    place: Option<usize>,
}

impl Files for Made {
    type File = Opened;

    type Dir = Opened;

    fn open_file(&self, how: &OpenOptions, path: &str) -> io::Result<Opened> {
        let mut contents = self.contents()?;
        contents.count()?;
        if path == "." {
            let disk = Made(self.0.clone()?);
            return Ok(Opened { disk, place: None });
        }
        let mut place = contents.place_of(path);
        if how.asks_create_new() {
            if place.is_some() {
                return Err(io::Error::from(ErrorKind::AlreadyExists));
            }
            place = Some(contents.files.len());
            contents.hold(path, b"", false)?;
            contents.note(Step::Make)?;
        }
        if place.is_none() {
            return Err(io::Error::from(ErrorKind::NotFound));
        }
        let disk = Made(self.0.clone()?);
        Ok(Opened { disk, place })
    }

    fn open_dir(&self, _path: &str) -> io::Result<Opened> {
        Err(io::Error::from(ErrorKind::Unsupported))
    }

    fn metadata(&self, path: &str) -> io::Result<Metadata> {
        self.look(path)
    }

    fn symlink_metadata(&self, path: &str) -> io::Result<Metadata> {
        self.look(path)
    }

    fn copy(&self, _from: &str, _to: &str) -> io::Result<u64> {
        Err(io::Error::from(ErrorKind::Unsupported))
    }

    fn rename(&self, from: &str, to: &str) -> io::Result<()> {
        let mut contents = self.contents()?;
        contents.count()?;
        let Some(place) = contents.place_of(from) else {
            return Err(io::Error::from(ErrorKind::NotFound));
        };
        let name = to.to_string(contents.alloc)?;
        let _ = contents.take_name(to);
        if let Some(file) = contents.files.get_mut(place) {
            file.name = name;
        }
        contents.note(Step::Rename)
    }

    fn remove_file(&self, path: &str) -> io::Result<()> {
        let mut contents = self.contents()?;
        contents.count()?;
        contents.take_name(path)?;
        contents.note(Step::Remove)
    }

    fn create_dir(&self, _path: &str) -> io::Result<()> {
        Err(io::Error::from(ErrorKind::Unsupported))
    }

    fn remove_dir(&self, _path: &str) -> io::Result<()> {
        Err(io::Error::from(ErrorKind::Unsupported))
    }

    fn remove_dir_all<B: std::alloc::Allocator>(&self, _alloc: B, _path: &str) -> io::Result<()> {
        Err(io::Error::from(ErrorKind::Unsupported))
    }
}

impl Claim for Opened {
    fn claim(&self) -> Owner {
        let Ok(mut contents) = self.disk.contents() else {
            return Owner::Unknown;
        };
        let Some(place) = self.place else {
            return Owner::Unknown;
        };
        match contents.files.get_mut(place) {
            Some(file) if file.is_claimed => Owner::Another,
            Some(file) => {
                file.is_claimed = true;
                Owner::This
            }
            None => Owner::Unknown,
        }
    }

    fn is_at<R: Files>(&self, _rt: &R, path: &str) -> bool {
        match self.disk.contents() {
            Ok(contents) => contents.place_of(path) == self.place,
            Err(_) => false,
        }
    }
}

impl Read for Opened {
    fn read(&mut self, _buf: &mut [u8]) -> io::Result<usize> {
        Ok(0)
    }
}

impl Write for Opened {
    /// Puts at most two bytes.
    fn write(&mut self, buf: &[u8]) -> io::Result<usize> {
        let mut contents = self.disk.contents()?;
        contents.count()?;
        let n = buf.len().min(2);
        let Some(place) = self.place else {
            return Err(io::Error::from(ErrorKind::IsADirectory));
        };
        if let Some(file) = contents.files.get_mut(place) {
            file.bytes.extend_from_slice(&buf[..n])?;
        }
        contents.note(Step::Put)?;
        Ok(n)
    }

    fn flush(&mut self) -> io::Result<()> {
        Ok(())
    }
}

impl Seek for Opened {
    fn seek(&mut self, _to: SeekFrom) -> io::Result<u64> {
        Ok(0)
    }
}

impl OpenFile for Opened {
    fn metadata(&self) -> io::Result<Metadata> {
        Ok(Metadata::of_file(0))
    }

    fn set_len(&self, _size: u64) -> io::Result<()> {
        Err(io::Error::from(ErrorKind::Unsupported))
    }

    fn sync_all(&self) -> io::Result<()> {
        let mut contents = self.disk.contents()?;
        contents.count()?;
        match self.place {
            Some(_) => contents.note(Step::Sync),
            None => contents.note(Step::SyncFolder),
        }
    }

    fn sync_data(&self) -> io::Result<()> {
        Err(io::Error::from(ErrorKind::Unsupported))
    }
}
