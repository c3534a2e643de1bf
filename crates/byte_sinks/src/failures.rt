//! Failures that are planned and counted.

ghost use Rattle.std.specs.Prelude.{◌≡◌, ℕ, ◌∷◌, length};
ghost use Rattle.byte_sinks.specs.Putting.{IsRaised, CountsIf};

use boxcar::tag::{Names, Tag};
use std::fmt;
use std::fmt::{Debug, Formatter, Write};
use std::marker::Model;

/// Counts the calls down to the one that is to fail, and how many have failed. The second is a number that only contracts
/// see: it has no bound, and takes no memory.
#[derive(Drop)]
pub struct Failures {
    left: Option<u64>,
    failed: Tag,
}

impl Model for Failures {
    ghost use Rattle.std.specs.Prelude.{ℕ, length};

    ghost Value = { ℕ };

    ghost view = { λ f. length f.failed.numbers };
}

impl Debug for Failures {
    fn fmt<W: Write>(&self, f: &mut Formatter<W>) -> Result<(), fmt::Error> {
        write!(f, "Failures {{ left: {:?} }}", self.left)
    }
}

/// A tag with one number more.
enum OneMore {}

impl Names<Tag> for OneMore {
    ghost numbers = { λ tag. 0 ∷ tag.numbers };
}

impl Failures {
    /// No call is to fail.
    pub fn none() -> Failures
        ensures { result ≡ 0 }
    {
        Failures {
            left: None,
            failed: Tag::empty(),
        }
    }

    /// The call after `n` others is to fail, and no later one.
    pub fn after(n: u64) -> Failures
        ensures { result ≡ 0 }
    {
        Failures {
            left: Some(n),
            failed: Tag::empty(),
        }
    }

    /// Counts a call, and says whether it is to fail.
    pub fn fails(&mut self) -> bool
        ensures { CountsIf result self.old self.new }
    {
        match self.left {
            None => false,
            Some(0) => {
                self.left = None;
                self.count();
                true
            }
            Some(n) => {
                self.left = Some(n - 1);
                false
            }
        }
    }

    /// Counts a failure that was not planned.
    pub fn count(&mut self)
        ensures { IsRaised self.old self.new }
    {
        self.failed = Tag::of::<Tag, OneMore>(&self.failed);
    }
}
