//! Failures of calls on files, planned and noted.

ghost use Rattle.wblock_io.specs.Holding.{IsFailed, FailsIf};

use boxcar::tag::{Names, Tag};
use byte_sinks::Failures;
use std::fmt;
use std::fmt::{Debug, Formatter, Write};
use std::marker::Model;

/// Counts the calls down to the one that is to fail, and notes how many have failed and the name of the last one's file. What is noted is seen by
/// contracts alone, and takes no memory.
#[derive(Drop)]
pub struct FileFailures {
    failures: Failures,
    last: Tag,
}

impl Model for FileFailures {
    ghost use Rattle.wblock_io.specs.Holding.{Failing};

    ghost Value = { Failing };

    ghost view = { λ f. record { count = f.failures; last = f.last.numbers } };
}

impl Debug for FileFailures {
    fn fmt<W: Write>(&self, f: &mut Formatter<W>) -> Result<(), fmt::Error> {
        write!(f, "{:?}", self.failures)
    }
}

/// The bytes of a name.
enum OfName {}

impl<'a> Names<&'a str> for OfName {
    ghost numbers = { λ name. name.now };
}

impl FileFailures {
    /// The call that is planned to fail is to fail, and none has failed yet.
    pub fn new(failures: Failures) -> FileFailures {
        FileFailures {
            failures,
            last: Tag::empty(),
        }
    }

    /// Counts a call on the file of this name, and says whether it is to fail. Then its failure is noted.
    pub fn fails(&mut self, name: &str) -> bool
        ensures { FailsIf result name.now self.old self.new }
    {
        let fails = self.failures.fails();
        if fails {
            self.last = Tag::of::<&str, OfName>(&name);
        }
        fails
    }

    /// Notes a failure of the file of this name that was not planned.
    pub fn count(&mut self, name: &str)
        ensures { IsFailed name.now self.old self.new }
    {
        self.failures.count();
        self.last = Tag::of::<&str, OfName>(&name);
    }
}
