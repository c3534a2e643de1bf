//! Receipts as text.

ghost use Rattle.std.specs.Prelude.{Some};
ghost use Rattle.wblock_calls.specs.Texts.{value_text};
ghost use Rattle.wblock_calls.specs.Receipts.{asks_text, receipt_text, position_text};

use spec_ledger::{Outcome, Receipt};
use std::fmt;
use wtypes::Value;

/// A value, printed as `i32:N` or `i64:N` in signed decimal.
#[derive(Clone, Copy, Debug, PartialEq, Eq)]
pub struct ValueText(pub Value);

impl fmt::Display for ValueText {
    ghost output = { λ v. Some (value_text v.0) };

    fn fmt<W: fmt::Write>(&self, f: &mut fmt::Formatter<W>) -> fmt::Result {
        match self.0 {
            Value::I32(n) => write!(f, "i32:{n}"),
            Value::I64(n) => write!(f, "i64:{n}"),
        }
    }
}

/// The levels that a call entered, printed as ` asks N`, or as nothing where it entered none.
#[derive(Clone, Copy)]
struct AsksText(u32);

impl fmt::Display for AsksText {
    ghost output = { λ a. Some (asks_text a.0) };

    fn fmt<W: fmt::Write>(&self, f: &mut fmt::Formatter<W>) -> fmt::Result {
        match self.0 {
            0 => Ok(()),
            asks => write!(f, " asks {asks}"),
        }
    }
}

/// A receipt, printed as `returned`, `returned VALUE`, `trapped N`, `out-of-fuel` or `rejected N`, and then ` fuel N`, and ` asks N` where
/// levels were entered.
#[derive(Clone, Copy, Debug, PartialEq, Eq)]
pub struct ReceiptText(pub Receipt);

impl fmt::Display for ReceiptText {
    ghost output = { λ r. Some (receipt_text r.0) };

    fn fmt<W: fmt::Write>(&self, f: &mut fmt::Formatter<W>) -> fmt::Result {
        let used = self.0.used;
        let asks = AsksText(self.0.asks);
        match self.0.outcome {
            Outcome::Returned(None) => write!(f, "returned fuel {used}{asks}"),
            Outcome::Returned(Some(value)) => {
                let value = ValueText(value);
                write!(f, "returned {value} fuel {used}{asks}")
            }
            Outcome::Trapped(code) => {
                let code = code as u8;
                write!(f, "trapped {code} fuel {used}{asks}")
            }
            Outcome::OutOfFuel => write!(f, "out-of-fuel fuel {used}{asks}"),
            Outcome::Rejected(code) => write!(f, "rejected {code} fuel {used}{asks}"),
        }
    }
}

/// The line of a call in its place, printed as `POS call C RECEIPT`.
#[derive(Clone, Copy, Debug, PartialEq, Eq)]
pub struct PositionLine {
    /// The place in the order.
    pub position: u32,
    /// The call's number.
    pub call: u32,
    /// What the call came to.
    pub receipt: Receipt,
}

impl fmt::Display for PositionLine {
    ghost output = { λ l. Some (position_text l.position l.call l.receipt) };

    fn fmt<W: fmt::Write>(&self, f: &mut fmt::Formatter<W>) -> fmt::Result {
        let position = self.position;
        let call = self.call;
        let receipt = ReceiptText(self.receipt);
        write!(f, "{position} call {call} {receipt}")
    }
}
