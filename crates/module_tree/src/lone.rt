// Expressions of one instruction.
ghost use Rattle.std.specs.Prelude.{◌≡◌, Some};
ghost use Rattle.module_tree.specs.View.{instrs_view};
ghost use Rattle.module_tree.specs.Readers.{lone_plain};

use crate::instr::Instr;
use std::alloc::Allocator;
use wtypes::PlainInstr;

/// The instruction that an expression is, where it is one alone, and one that holds no other. A constant expression of
/// this profile is such a one.
pub fn lone_plain<A: Allocator>(expression: &Vec<Instr<A>, A>) -> Option<PlainInstr>
    ensures { result ≡ lone_plain (instrs_view expression.now.items) }
{
    if expression.len() != 1 {
        return None;
    }
    match &expression[0] {
        Instr::Plain(_, op) => Some(*op),
        Instr::BrTable(_, _, _) => None,
        Instr::Block(_, _, _) => None,
        Instr::Loop(_, _, _) => None,
        Instr::If(_, _, _, _) => None,
    }
}
