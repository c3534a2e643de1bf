//! What a step comes to.

use byte_sinks::Failures;
use std::alloc::Global;
use wblock_io::MemoryFiles;

/// After how many calls one fails, where one is to fail.
#[derive(Clone, Copy)]
pub struct Fails {
    pub files: Option<u64>,
    pub out: Option<u64>,
    pub err: Option<u64>,
}

impl Fails {
    /// No call fails.
    pub(crate) const NONE: Fails = Fails {
        files: None,
        out: None,
        err: None,
    };

    /// The failures of the files.
    pub(crate) fn of_files(self) -> Failures {
        planned(self.files)
    }

    /// The failures of the standard output.
    pub fn of_out(self) -> Failures {
        planned(self.out)
    }

    /// The failures of the standard error.
    pub fn of_err(self) -> Failures {
        planned(self.err)
    }
}

/// The failure after so many calls, or none.
fn planned(after: Option<u64>) -> Failures {
    match after {
        Some(calls) => Failures::after(calls),
        None => Failures::none(),
    }
}

/// What a step came to.
#[derive(Drop)]
pub struct Came {
    /// The words that its line would have to begin with, where these are not those that it has.
    pub otherwise: Option<String>,
    /// What it put on the standard output.
    pub out: Vec<u8>,
    /// What it put on the standard error.
    pub err: Vec<u8>,
}

/// A step that whoever plays the rows does: the word of its line and the rest of it, the files of its row, and what fails there.
#[derive(Drop)]
pub struct Asked<'t> {
    pub word: &'t str,
    pub rest: &'t str,
    pub files: MemoryFiles,
    pub fails: Fails,
}

/// Whoever answers what rows ask.
pub trait Kinds {
    /// What a kind makes of these bytes, as a text; None where there is no such kind, or memory is refused.
    fn answer(&self, alloc: Global, kind: &str, input: &[u8]) -> Option<String>;
}
