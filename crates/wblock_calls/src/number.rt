//! Numbers of cells as text.

ghost use Rattle.std.specs.Prelude.{Some};
ghost use Rattle.wblock_calls.specs.Numbers.{number_text};

use std::fmt;

/// A number of 64 bits, printed in decimal: as a cell keeps it, from 0 to 2^64 - 1, or signed, from -2^63 to 2^63 - 1, as lines of calls take it.
#[derive(Clone, Copy, Debug, PartialEq, Eq)]
pub struct NumberText {
    /// The number.
    pub number: u64,
    /// Whether it is printed signed.
    pub signed: bool,
}

impl fmt::Display for NumberText {
    ghost output = { λ n. Some (number_text n.signed n.number) };

    fn fmt<W: fmt::Write>(&self, f: &mut fmt::Formatter<W>) -> fmt::Result {
        let number = self.number;
        if self.signed {
            let signed = number.cast_signed();
            write!(f, "{signed}")
        } else {
            write!(f, "{number}")
        }
    }
}
