//! The rows of a file, line by line.

use crate::kinds::{Asked, Came, Fails, Kinds};
use crate::pieces::{Kept, Sources, cut, find, is_piece, number_of, put_piece};
use crate::report::Report;
use crate::wanted::{How, fits, how_of};
use crate::wrong::Wrong;
use byte_sinks::Failures;
use std::alloc::Global;
use std::mem::replace;
use wblock_io::MemoryFiles;

/// How many bytes the files of a row take at a time, where it does not say.
const PIECE: u64 = 100;

/// What the pieces that come are of.
#[derive(Clone, Copy)]
enum Target {
    /// Nothing.
    Nothing,
    /// Bytes that get a name.
    Name,
    /// A file before.
    File,
    /// What a kind is asked about.
    Ask,
    /// What is wanted on the standard output.
    Out,
    /// What is wanted on the standard error.
    Err,
    /// What is wanted in a file.
    After,
}

/// Bytes whose pieces are read.
#[derive(Drop)]
struct Open {
    target: Target,
    how: How,
    name: String,
    bytes: Vec<u8>,
    /// The number of the line that began them.
    number: u32,
}

/// How far a row is.
#[derive(Clone, Copy)]
enum Stage {
    /// No row has begun.
    Head,
    /// A row has begun, and no step of it.
    Given,
    /// A step was done.
    Stepped,
}

/// The last step of a row.
#[derive(Drop)]
struct Step {
    out: Vec<u8>,
    err: Vec<u8>,
    /// Whether something is wanted on the standard output.
    is_out_told: bool,
    /// Whether something is wanted on the standard error.
    is_err_told: bool,
    /// The number of its line.
    number: u32,
}

/// The row that is played.
#[derive(Drop)]
struct Row {
    stage: Stage,
    given: Vec<Kept>,
    files: MemoryFiles,
    piece: u64,
    fails: Fails,
    step: Step,
    /// What the step before the last one put on the standard error.
    again: Vec<u8>,
    /// The number of its line.
    number: u32,
}

/// A player of rows, and what it found in the file that it played last.
#[derive(Drop)]
pub struct Script {
    alloc: Global,
    names: Vec<Kept>,
    /// How many of the files given belong to all rows of the file.
    common: usize,
    row: Row,
    open: Open,
    report: Report,
    /// The number of the line that is played.
    number: u32,
}

/// A step that put nothing on any stream.
fn quiet_step(alloc: Global) -> Step {
    Step {
        out: Vec::new(alloc),
        err: Vec::new(alloc),
        is_out_told: true,
        is_err_told: true,
        number: 0,
    }
}

/// What stands before the first row of a file.
fn head(alloc: Global) -> Row {
    Row {
        stage: Stage::Head,
        given: Vec::new(alloc),
        files: MemoryFiles::new(alloc, 1, Failures::none()),
        piece: PIECE,
        fails: Fails::NONE,
        step: quiet_step(alloc),
        again: Vec::new(alloc),
        number: 0,
    }
}

impl Script {
    /// A player that knows no names.
    pub fn new(alloc: Global) -> Script {
        Script {
            alloc,
            names: Vec::new(alloc),
            common: 0,
            row: head(alloc),
            open: Open {
                target: Target::Nothing,
                how: How::Is,
                name: String::new(alloc),
                bytes: Vec::new(alloc),
                number: 0,
            },
            report: Report::new(alloc),
            number: 0,
        }
    }

    /// How many rows the file had.
    pub fn rows(&self) -> u32 {
        self.report.rows
    }

    /// How many of them came out otherwise. What is wrong before the first row counts as one.
    pub fn differing(&self) -> u32 {
        self.report.differing
    }

    /// What came out otherwise, a line for each, and the bytes that came and that were wanted.
    pub fn report(&self) -> &str {
        self.report.text.as_str()
    }

    /// Begins the file of this name. The names of bytes stay.
    pub fn begin(&mut self, file: &str) {
        self.number = 0;
        let begun = self.report.begin(self.alloc, file);
        self.note(begun);
    }

    /// Tells that the file can't be read.
    pub fn tell_unread(&mut self) {
        self.note(Err(Wrong::Unread));
    }

    /// Takes a line, and tells what is wrong with it. A step that is none of the reader's own is asked for.
    pub fn take<'t, K: Kinds>(&mut self, kinds: &K, line: &'t str) -> Option<Asked<'t>> {
        self.number = self.number.saturating_add(1);
        match self.read(kinds, line) {
            Ok(asked) => asked,
            Err(wrong) => {
                self.report.wrong(self.alloc, self.number, wrong);
                None
            }
        }
    }

    /// Takes back the files of the step that was asked for, and takes what it came to; None where there is no such step, its line can't be read, or
    /// memory is refused.
    pub fn hear(&mut self, files: MemoryFiles, came: Option<Came>) {
        self.row.files = files;
        match came {
            Some(came) => self.put_down(came, self.number),
            None => self.note(Err(Wrong::Step)),
        }
    }

    /// Ends the file.
    pub fn end<K: Kinds>(&mut self, kinds: &K) {
        self.end_row(kinds);
        self.row = head(self.alloc);
        self.common = 0;
    }

    /// Tells what is wrong with the line that is played.
    fn note(&mut self, taken: Result<(), Wrong>) {
        if let Err(wrong) = taken {
            self.report.wrong(self.alloc, self.number, wrong);
        }
    }

    /// Reads a line.
    fn read<'t, K: Kinds>(&mut self, kinds: &K, line: &'t str) -> Result<Option<Asked<'t>>, Wrong> {
        if line.is_empty() || line.starts_with('#') {
            return Ok(None);
        }
        let (word, rest) = cut(line.trim_start());
        if is_piece(word) {
            self.put(word, rest)?;
            return Ok(None);
        }
        self.close(kinds);
        match word {
            "row" => self.begin_row(rest)?,
            "bytes" => self.begin_name(rest)?,
            "file" => self.give(rest)?,
            "fail" => self.fail(rest)?,
            "piece" => self.set_piece(rest)?,
            "out" => self.want(Target::Out, rest)?,
            "err" => self.want(Target::Err, rest)?,
            "after" => self.want_in_file(rest)?,
            "ask" => self.ask(rest)?,
            _ => return Ok(Some(self.asked(word, rest)?)),
        }
        Ok(None)
    }

    /// Puts a piece behind the bytes that are open. Where it has none, whatever bytes there are will do: the piece is told, and not they, too.
    fn put(&mut self, word: &str, rest: &str) -> Result<(), Wrong> {
        if matches!(self.open.target, Target::Nothing) {
            return Err(Wrong::Piece);
        }
        let sources = Sources {
            names: &self.names,
            files: &self.row.files,
            again: &self.row.again,
        };
        let put = put_piece(self.alloc, sources, &mut self.open.bytes, word, rest);
        if put.is_err() {
            self.open.how = How::Any;
        }
        put
    }

    /// Begins bytes of a name, maybe with a piece.
    fn aim(&mut self, target: Target, name: &str, piece: &str) -> Result<(), Wrong> {
        self.open.bytes.clear();
        self.open.name = name.to_string(self.alloc)?;
        self.open.number = self.number;
        self.open.target = target;
        if piece.is_empty() {
            return Ok(());
        }
        let (word, rest) = cut(piece);
        self.put(word, rest)
    }

    /// Begins bytes that get a name.
    fn begin_name(&mut self, rest: &str) -> Result<(), Wrong> {
        let (name, piece) = cut(rest);
        self.aim(Target::Name, name, piece)
    }

    /// Begins a file before.
    fn give(&mut self, rest: &str) -> Result<(), Wrong> {
        if matches!(self.row.stage, Stage::Stepped) {
            return Err(Wrong::Late);
        }
        let (name, piece) = cut(rest);
        self.aim(Target::File, name, piece)
    }

    /// Whether the row has begun, and no step of it.
    fn is_given(&self) -> Result<(), Wrong> {
        match self.row.stage {
            Stage::Head => Err(Wrong::Outside),
            Stage::Given => Ok(()),
            Stage::Stepped => Err(Wrong::Late),
        }
    }

    /// Whether a step of the row was done.
    fn is_stepped(&self) -> Result<(), Wrong> {
        match self.row.stage {
            Stage::Stepped => Ok(()),
            _ => Err(Wrong::Early),
        }
    }

    /// Plans a failure.
    fn fail(&mut self, rest: &str) -> Result<(), Wrong> {
        self.is_given()?;
        let (whose, calls) = cut(rest);
        let calls = Some(number_of(calls)?);
        match whose {
            "files" => self.row.fails.files = calls,
            "out" => self.row.fails.out = calls,
            "err" => self.row.fails.err = calls,
            _ => return Err(Wrong::Fail),
        }
        Ok(())
    }

    /// Sets how many bytes the files take at a time.
    fn set_piece(&mut self, count: &str) -> Result<(), Wrong> {
        self.is_given()?;
        self.row.piece = number_of(count)?;
        Ok(())
    }

    /// Begins what is wanted of a stream.
    fn want(&mut self, target: Target, rest: &str) -> Result<(), Wrong> {
        self.is_stepped()?;
        let (how, piece) = cut(rest);
        self.open.how = how_of(how)?;
        self.aim(target, "", piece)
    }

    /// Begins what is wanted in a file.
    fn want_in_file(&mut self, rest: &str) -> Result<(), Wrong> {
        self.is_stepped()?;
        let (name, wanted) = cut(rest);
        let (how, piece) = cut(wanted);
        self.open.how = how_of(how)?;
        self.aim(Target::After, name, piece)
    }

    /// Begins what a kind is asked about, which is a step.
    fn ask(&mut self, rest: &str) -> Result<(), Wrong> {
        self.begin_step()?;
        let (kind, piece) = cut(rest);
        self.aim(Target::Ask, kind, piece)
    }

    /// Asks for a step.
    fn asked<'t>(&mut self, word: &'t str, rest: &'t str) -> Result<Asked<'t>, Wrong> {
        self.begin_step()?;
        let none = MemoryFiles::new(self.alloc, 1, Failures::none());
        Ok(Asked {
            word,
            rest,
            files: replace(&mut self.row.files, none),
            fails: self.row.fails,
        })
    }

    /// Begins a step: the one before has ended, and the files are there.
    fn begin_step(&mut self) -> Result<(), Wrong> {
        if matches!(self.row.stage, Stage::Head) {
            return Err(Wrong::Outside);
        }
        self.end_step();
        if matches!(self.row.stage, Stage::Stepped) {
            return Ok(());
        }
        self.row.stage = Stage::Stepped;
        let fails = self.row.fails.of_files();
        self.row.files = MemoryFiles::new(self.alloc, self.row.piece as usize, fails);
        for it in &self.row.given {
            self.row.files.hold(it.name.as_str(), &it.bytes)?;
        }
        Ok(())
    }

    /// Takes what the step of a line came to.
    fn put_down(&mut self, came: Came, number: u32) {
        if let Some(words) = &came.otherwise {
            self.report.otherwise(self.alloc, number, words.as_str());
        }
        let step = Step {
            out: came.out,
            err: came.err,
            is_out_told: false,
            is_err_told: false,
            number,
        };
        self.row.step = step;
    }

    /// Ends a step: a stream of which nothing was said is empty.
    fn end_step(&mut self) {
        let step = replace(&mut self.row.step, quiet_step(self.alloc));
        let number = step.number;
        if !step.is_out_told && !step.out.is_empty() {
            let what = "out, of which nothing is said";
            self.report
                .differ(self.alloc, number, what, Some(&step.out), How::Is, b"");
        }
        if !step.is_err_told && !step.err.is_empty() {
            let what = "err, of which nothing is said";
            self.report
                .differ(self.alloc, number, what, Some(&step.err), How::Is, b"");
        }
        self.row.again = step.err;
    }

    /// Ends the bytes that are open.
    fn close<K: Kinds>(&mut self, kinds: &K) {
        let target = self.open.target;
        self.open.target = Target::Nothing;
        let closed = match target {
            Target::Nothing => Ok(()),
            Target::Name => self.keep_name(),
            Target::File => self.keep_file(),
            Target::Ask => self.answer(kinds),
            Target::Out => self.compare_out(),
            Target::Err => self.compare_err(),
            Target::After => self.compare_file(),
        };
        if let Err(wrong) = closed {
            self.report.wrong(self.alloc, self.open.number, wrong);
        }
    }

    /// The bytes that are open, with their name.
    fn kept(&self) -> Result<Kept, Wrong> {
        let name = self.open.name.as_str().to_string(self.alloc)?;
        let bytes = self.open.bytes.as_slice().to_vec(self.alloc)?;
        Ok(Kept { name, bytes })
    }

    fn keep_name(&mut self) -> Result<(), Wrong> {
        let kept = self.kept()?;
        if find(&self.names, kept.name.as_str()).is_some() {
            return Err(Wrong::Taken);
        }
        match self.names.push(kept) {
            Ok(()) => Ok(()),
            Err(_) => Err(Wrong::Memory),
        }
    }

    fn keep_file(&mut self) -> Result<(), Wrong> {
        let kept = self.kept()?;
        match self.row.given.push(kept) {
            Ok(()) => Ok(()),
            Err(_) => Err(Wrong::Memory),
        }
    }

    /// Asks a kind.
    fn answer<K: Kinds>(&mut self, kinds: &K) -> Result<(), Wrong> {
        let answer = kinds.answer(self.alloc, self.open.name.as_str(), &self.open.bytes);
        let Some(text) = answer else {
            return Err(Wrong::Kind);
        };
        let came = Came {
            otherwise: None,
            out: text.into_bytes(),
            err: Vec::new(self.alloc),
        };
        self.put_down(came, self.open.number);
        Ok(())
    }

    /// Compares the standard output with what is wanted.
    fn compare_out(&mut self) -> Result<(), Wrong> {
        self.row.step.is_out_told = true;
        let came = self.row.step.out.as_slice();
        let open = &self.open;
        if !fits(came, open.how, &open.bytes) {
            self.report.differ(
                self.alloc,
                open.number,
                "out",
                Some(came),
                open.how,
                &open.bytes,
            );
        }
        Ok(())
    }

    /// Compares the standard error with what is wanted.
    fn compare_err(&mut self) -> Result<(), Wrong> {
        self.row.step.is_err_told = true;
        let came = self.row.step.err.as_slice();
        let open = &self.open;
        if !fits(came, open.how, &open.bytes) {
            self.report.differ(
                self.alloc,
                open.number,
                "err",
                Some(came),
                open.how,
                &open.bytes,
            );
        }
        Ok(())
    }

    /// Compares a file with what is wanted in it.
    fn compare_file(&mut self) -> Result<(), Wrong> {
        let open = &self.open;
        let name = open.name.as_str();
        let held = self.row.files.bytes_of(self.alloc, name)?;
        let came = match &held {
            Some(bytes) => Some(bytes.as_slice()),
            None => None,
        };
        let is_same = match came {
            Some(bytes) => fits(bytes, open.how, &open.bytes),
            None => matches!(open.how, How::Absent),
        };
        if !is_same {
            let what = format!(in self.alloc; "after {name}")?;
            self.report.differ(
                self.alloc,
                open.number,
                what.as_str(),
                came,
                open.how,
                &open.bytes,
            );
        }
        Ok(())
    }

    /// Ends the row, if there is one: it has done a step.
    fn end_row<K: Kinds>(&mut self, kinds: &K) {
        self.close(kinds);
        self.end_step();
        if matches!(self.row.stage, Stage::Given) {
            self.report.wrong(self.alloc, self.row.number, Wrong::Empty);
        }
    }

    /// Begins a row, behind what belongs to all rows of the file. What was open is closed.
    fn begin_row(&mut self, name: &str) -> Result<(), Wrong> {
        self.end_step();
        match self.row.stage {
            Stage::Head => self.common = self.row.given.len(),
            Stage::Given => self.report.wrong(self.alloc, self.row.number, Wrong::Empty),
            Stage::Stepped => {}
        }
        self.row.given.truncate(self.common);
        self.row.stage = Stage::Given;
        self.row.piece = PIECE;
        self.row.fails = Fails::NONE;
        self.row.again.clear();
        self.row.number = self.number;
        self.row.files = MemoryFiles::new(self.alloc, 1, Failures::none());
        self.report.begin_row(self.alloc, name)
    }
}
