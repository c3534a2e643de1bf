//! What is told of the rows of a file.

use crate::wanted::{How, takes_bytes, word_of};
use crate::wrong::Wrong;
use std::alloc::{AllocError, Global};

/// How many bytes are shown of what came, and of what was wanted.
const SHOWN: usize = 400;

/// The rows of a file so far, and what of them came out otherwise.
#[derive(Drop)]
pub(crate) struct Report {
    file: String,
    row: String,
    pub(crate) rows: u32,
    pub(crate) differing: u32,
    row_differs: bool,
    pub(crate) text: String,
}

impl Report {
    /// No rows, of a file of this name.
    pub(crate) fn new(alloc: Global) -> Report {
        Report {
            file: String::new(alloc),
            row: String::new(alloc),
            rows: 0,
            differing: 0,
            row_differs: false,
            text: String::new(alloc),
        }
    }

    /// Begins the rows of another file.
    pub(crate) fn begin(&mut self, alloc: Global, file: &str) -> Result<(), Wrong> {
        self.text.clear();
        self.rows = 0;
        self.differing = 0;
        self.row_differs = false;
        self.row = String::new(alloc);
        self.file = file.to_string(alloc)?;
        Ok(())
    }

    /// Begins a row.
    pub(crate) fn begin_row(&mut self, alloc: Global, row: &str) -> Result<(), Wrong> {
        self.rows = self.rows.saturating_add(1);
        self.row_differs = false;
        self.row = row.to_string(alloc)?;
        Ok(())
    }

    /// Counts the row as one that came out otherwise.
    fn count(&mut self) {
        if !self.row_differs {
            self.row_differs = true;
            self.differing = self.differing.saturating_add(1);
        }
    }

    /// Puts a line behind the others.
    fn tell(&mut self, alloc: Global, number: u32, what: &str) -> Result<(), AllocError> {
        let file = self.file.as_str();
        let row = self.row.as_str();
        let line = if row.is_empty() {
            format!(in alloc; "{file}:{number}: {what}\n")?
        } else {
            format!(in alloc; "{file}:{number}: {row}: {what}\n")?
        };
        self.text.push_str(line.as_str())
    }

    /// Tells what is wrong with a line.
    pub(crate) fn wrong(&mut self, alloc: Global, number: u32, wrong: Wrong) {
        self.count();
        // where memory is refused, the count is what is told
        let _ = self.tell(alloc, number, wrong.words());
    }

    /// Tells what came in place of what a line says.
    pub(crate) fn otherwise(&mut self, alloc: Global, number: u32, came: &str) {
        self.count();
        if let Ok(what) = format!(in alloc; "it came to `{came}`") {
            let _ = self.tell(alloc, number, what.as_str());
        }
    }

    /// Tells what bytes came of something, None where there is no such file, and what was wanted of them.
    pub(crate) fn differ(
        &mut self,
        alloc: Global,
        number: u32,
        what: &str,
        came: Option<&[u8]>,
        how: How,
        wanted: &[u8],
    ) {
        self.count();
        let _ = self.tell(alloc, number, what);
        let _ = match came {
            Some(bytes) => self.show(alloc, "came", bytes),
            None => self.text.push_str("  came absent\n"),
        };
        let _ = self.show_wanted(alloc, how, wanted);
    }

    /// Shows what was wanted.
    fn show_wanted(&mut self, alloc: Global, how: How, wanted: &[u8]) -> Result<(), AllocError> {
        let head = format!(in alloc; "wanted {}", word_of(how))?;
        if takes_bytes(how) {
            return self.show(alloc, head.as_str(), wanted);
        }
        let line = format!(in alloc; "  {head}\n")?;
        self.text.push_str(line.as_str())
    }

    /// Shows the first of these bytes, and how many these are where there are more.
    fn show(&mut self, alloc: Global, head: &str, bytes: &[u8]) -> Result<(), AllocError> {
        let count = bytes.len();
        let shown = bytes.get(..SHOWN).unwrap_or(bytes).escape_ascii();
        let line = if count > SHOWN {
            format!(in alloc; "  {head} \"{shown}\" and more: {count} bytes\n")?
        } else {
            format!(in alloc; "  {head} \"{shown}\"\n")?
        };
        self.text.push_str(line.as_str())
    }
}
