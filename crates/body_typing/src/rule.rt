// The rules of validation.
ghost use Rattle.std.specs.Prelude.{◌≡◌, ◌≤◌};
ghost use Rattle.body_typing.specs.RuleNumbers.{number_of};

use std::fmt;

/// A rule of validation that a module breaks, named by the fault (Core Specification, 3 Validation).
#[derive(Clone, Copy, Debug, PartialEq, Eq)]
pub enum Rule {
    /// A type index is out of range.
    TypeIndex,
    /// A function type has more than one result.
    SeveralResults,
    /// There is more than one table or memory.
    SecondOne,
    /// A minimum stands above its maximum, or a memory above 65,536 pages.
    SizeLimits,
    /// A global's expression is not constant, or of another type.
    GlobalInit,
    /// The name of an export is repeated.
    ExportName,
    /// The index of an export is out of range.
    ExportIndex,
    /// The start function is out of range or not of type `[] -> []`.
    StartFunction,
    /// An element segment has no such table, an offset that is not a constant i32, or a function out of range.
    ElementSegment,
    /// A data segment has no such memory, or an offset that is not a constant i32.
    DataSegment,
    /// The index of a local is out of range.
    LocalIndex,
    /// The index of a global is out of range, or a constant one is set.
    GlobalIndex,
    /// The function index of a call is out of range.
    CallIndex,
    /// A label is out of range.
    LabelIndex,
    /// There is no memory or no table for the instruction.
    NothingThere,
    /// `2^align` is above the width in bytes.
    Alignment,
    /// An operand is missing or of another type.
    Operand,
    /// The operands at the end are not exactly the result.
    EndOperands,
    /// An `if` has a result and an empty `else`.
    EmptyElse,
    /// The labels of a `br_table` are of different types.
    TableLabels,
}

impl Rule {
    /// The rule's number, from 1 to 20, by which the least of several is answered.
    pub fn number(self) -> u8
        ensures value { result ≡ number_of self }
        ensures range { (1 ≤ result) × (result ≤ 20) }
    {
        match self {
            Rule::TypeIndex => 1,
            Rule::SeveralResults => 2,
            Rule::SecondOne => 3,
            Rule::SizeLimits => 4,
            Rule::GlobalInit => 5,
            Rule::ExportName => 6,
            Rule::ExportIndex => 7,
            Rule::StartFunction => 8,
            Rule::ElementSegment => 9,
            Rule::DataSegment => 10,
            Rule::LocalIndex => 11,
            Rule::GlobalIndex => 12,
            Rule::CallIndex => 13,
            Rule::LabelIndex => 14,
            Rule::NothingThere => 15,
            Rule::Alignment => 16,
            Rule::Operand => 17,
            Rule::EndOperands => 18,
            Rule::EmptyElse => 19,
            Rule::TableLabels => 20,
        }
    }

    // The fault in words.
    fn text(self) -> &'static str {
        match self {
            Rule::TypeIndex => "type index out of range",
            Rule::SeveralResults => "function type with more than one result",
            Rule::SecondOne => "more than one table or memory",
            Rule::SizeLimits => "minimum above maximum, or memory above 65536 pages",
            Rule::GlobalInit => "expression of a global not constant or of another type",
            Rule::ExportName => "export name repeated",
            Rule::ExportIndex => "export index out of range",
            Rule::StartFunction => "start function out of range or not of type [] -> []",
            Rule::ElementSegment => {
                "element segment without its table, its functions or a constant offset"
            }
            Rule::DataSegment => "data segment without its memory or a constant offset",
            Rule::LocalIndex => "local index out of range",
            Rule::GlobalIndex => "global index out of range, or a constant one is set",
            Rule::CallIndex => "function index of a call out of range",
            Rule::LabelIndex => "label out of range",
            Rule::NothingThere => "no memory or no table for this instruction",
            Rule::Alignment => "alignment above the width in bytes",
            Rule::Operand => "operand missing or of another type",
            Rule::EndOperands => "operands at the end not exactly the result",
            Rule::EmptyElse => "if with a result and an empty else",
            Rule::TableLabels => "labels of a br_table of different types",
        }
    }
}

impl fmt::Display for Rule {
    fn fmt<W: fmt::Write>(&self, f: &mut fmt::Formatter<W>) -> fmt::Result {
        write!(f, "{}", self.text())
    }
}
