//! The names of instructions.

ghost use Rattle.std.specs.Prelude.{◌≡◌, IfSome, IsTrue};
ghost use Rattle.module_tree.specs.View.{instr_view};
ghost use Rattle.typing_errors.specs.Names;
ghost use Rattle.typing_errors.specs.Names.{IsSpelled, IsNameOf};

use crate::operators::operator_of;
use crate::same::is_operator;
use module_tree::instr::Instr;
use spec_text::{KEY_WORDS, KeyWord, OPERATORS, Operator, key_word_named, operator_named};
use std::alloc::Allocator;

/// Whether the text is this word, or names this operator.
fn spells(text: &[u8], naming: Naming) -> bool
    ensures { IsTrue result → IsSpelled text.now naming }
{
    match naming {
        Naming::Operator(wanted) => match operator_named(text) {
            Some(found) => is_operator(found, wanted),
            None => false,
        },
        Naming::Word(wanted) => match key_word_named(text) {
            Some(found) => found == wanted,
            None => false,
        },
    }
}

/// A word that names instructions in the text format.
#[derive(Clone, Copy)]
enum Naming {
    /// That of an operator.
    Operator(Operator),
    /// That of a block.
    Word(KeyWord),
}

/// What names an instruction.
fn naming_of<A: Allocator>(instr: &Instr<A>) -> Naming
    ensures { result ≡ Names.naming_of (instr_view instr.now) }
{
    match instr {
        Instr::Plain(_, op) => Naming::Operator(operator_of(*op)),
        Instr::BrTable(_, _, _) => Naming::Operator(Operator::BrTable),
        Instr::Block(_, _, _) => Naming::Word(KeyWord::Block),
        Instr::Loop(_, _, _) => Naming::Word(KeyWord::Loop),
        Instr::If(_, _, _, _) => Naming::Word(KeyWord::If),
    }
}

/// The first of these names that spells this.
fn first_spelling<V>(table: &[(&'static [u8], V)], naming: Naming) -> Option<&'static [u8]>
    ensures { IfSome result (λ name. IsSpelled name.now naming) }
{
    for entry in table {
        if spells(entry.0, naming) {
            return Some(entry.0);
        }
    }
    None
}

/// The name of an instruction: read as a word of the text format, it is the instruction's.
pub(crate) fn name_of<A: Allocator>(instr: &Instr<A>) -> Option<&'static [u8]>
    ensures { IfSome result (λ name. IsNameOf name.now (instr_view instr.now)) }
{
    let naming = naming_of(instr);
    match naming {
        Naming::Operator(_) => first_spelling(&OPERATORS, naming),
        Naming::Word(_) => first_spelling(&KEY_WORDS, naming),
    }
}
