//! Instructions of a flat body, which keep names and integers as parts of the text.
use lexer::Piece;
use spec_text::Operator;
use std::alloc::Allocator;
use wtypes::{LoadOp, StoreOp, ValType};

/// An index in the text.
#[derive(Clone, Copy, Debug)]
pub enum Index<'a> {
    /// An integer.
    Numbered(Piece<'a>),
    /// A name.
    Named(Piece<'a>),
}

/// A parameter or a local.
#[derive(Clone, Copy, Debug)]
pub struct Binding<'a> {
    /// Its name, if it has one.
    pub name: Option<Piece<'a>>,
    /// Its type.
    pub value_type: ValType,
}

/// What is written of a function's type.
#[derive(Drop)]
pub struct TypeUse<'a, A: Allocator> {
    /// The index of a type.
    pub index: Option<Index<'a>>,
    /// The parameters, first to last.
    pub params: Vec<Binding<'a>, A>,
    /// The types of the results.
    pub results: Vec<ValType, A>,
}

/// What opens a body within a body.
#[derive(Clone, Copy, Debug, PartialEq, Eq)]
pub enum Opener {
    /// `block`
    Block,
    /// `loop`
    Loop,
    /// `if`
    If,
}

/// One instruction of a flat body.
#[derive(Drop)]
pub enum Flat<'a, A: Allocator> {
    /// An instruction with nothing behind its name.
    Simple(Operator),
    /// One with an index.
    Indexed(Operator, Index<'a>),
    /// `br_table`: the labels, and the default.
    BrTable(Vec<Index<'a>, A>, Index<'a>),
    /// `call_indirect`
    CallIndirect(TypeUse<'a, A>),
    /// A load: the integers of its offset and its alignment, where they are written.
    Load(LoadOp, Option<Piece<'a>>, Option<Piece<'a>>),
    /// A store, likewise.
    Store(StoreOp, Option<Piece<'a>>, Option<Piece<'a>>),
    /// A constant: its integer.
    Const(ValType, Piece<'a>),
    /// The beginning of a block, a loop or a conditional: its label and its result.
    Opens(Opener, Option<Piece<'a>>, Option<ValType>),
    /// `else`, with the label where it is written again.
    Else(Option<Piece<'a>>),
    /// `end`, likewise.
    End(Option<Piece<'a>>),
}
