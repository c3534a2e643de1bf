// Instructions.

use std::alloc::Allocator;
use wtypes::{PlainInstr, ValType};

/// A structured instruction (Core Specification, 2.4 Instructions) with its ordinal, which is its place in the
/// preorder of its expression, counted from 0, the then part before the else part.
#[derive(Drop)]
pub enum Instr<A: Allocator> {
    /// An instruction without children or labels.
    Plain(u32, PlainInstr),
    /// `br_table`: the labels, and the default label.
    BrTable(u32, Vec<u32, A>, u32),
    /// `block`: the type of its result, and its body.
    Block(u32, Option<ValType>, Vec<Instr<A>, A>),
    /// `loop`: the type of its result, and its body.
    Loop(u32, Option<ValType>, Vec<Instr<A>, A>),
    /// `if`: the type of its result, its then part and its else part, which may be empty.
    If(u32, Option<ValType>, Vec<Instr<A>, A>, Vec<Instr<A>, A>),
}
