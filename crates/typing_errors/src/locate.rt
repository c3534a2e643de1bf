//! Where the instruction of an ordinal stands.

ghost use Rattle.std.specs.Prelude.{◌≡◌, IfOk, IfSome, None, Some, reverse, ◌∷◌};
ghost use Rattle.module_tree.specs.View;
ghost use Rattle.module_tree.specs.View.{instr_view, instrs_view};
ghost use Rattle.typing_errors.specs.Sites.{IsDeeper, IsInside, IsWithin, HasOrdinal};

use module_tree::instr::Instr;
use std::alloc::{AllocError, Allocator};
use wtypes::ValType;

/// Where an instruction stands: its place in its sequence.
#[derive(Drop)]
pub(crate) struct Spot<'m, A: Allocator> {
    pub(crate) sequence: &'m Vec<Instr<A>, A>,
    pub(crate) place: usize,
}

/// The ordinal that an instruction carries.
fn ordinal_of<A: Allocator>(instr: &Instr<A>) -> u32
    ensures { result ≡ View.ordinal_of instr.now }
{
    match instr {
        Instr::Plain(n, _) => *n,
        Instr::BrTable(n, _, _) => *n,
        Instr::Block(n, _, _) => *n,
        Instr::Loop(n, _, _) => *n,
        Instr::If(n, _, _, _) => *n,
    }
}

/// Where the instruction of this ordinal stands in a sequence, in blocks with these labels, the innermost last; with the labels there. None where it
/// does not.
#[cycle(spot)]
pub(crate) fn spot_in<'m, A: Allocator, W: Allocator>(
    labels: &mut Vec<Option<ValType>, W>,
    body: &'m Vec<Instr<A>, A>,
    ordinal: u32,
) -> Result<Option<Spot<'m, A>>, AllocError>
    ensures kept { IfOk result (λ found. found ≡ None → labels.new.items ≡ labels.old.items) }
    ensures within { IfOk result (λ found. IfSome found (λ spot. IsWithin (reverse labels.old.items) (instrs_view body.now.items) (reverse labels.new.items) (instrs_view spot.sequence.now.items))) }
    ensures node { IfOk result (λ found. IfSome found (λ spot. HasOrdinal spot ordinal)) }
{
    let mut place = 0;
    for i in body {
        if ordinal_of(i) == ordinal {
            return Ok(Some(Spot {
                sequence: body,
                place,
            }));
        }
        match spot_at(labels, i, ordinal) {
            Err(refused) => return Err(refused),
            Ok(Some(spot)) => return Ok(Some(spot)),
            Ok(None) => {}
        }
        place += 1;
    }
    Ok(None)
}

/// The same in the blocks of an instruction.
#[cycle(spot)]
fn spot_at<'m, A: Allocator, W: Allocator>(
    labels: &mut Vec<Option<ValType>, W>,
    instr: &'m Instr<A>,
    ordinal: u32,
) -> Result<Option<Spot<'m, A>>, AllocError>
    ensures kept { IfOk result (λ found. found ≡ None → labels.new.items ≡ labels.old.items) }
    ensures within { IfOk result (λ found. IfSome found (λ spot. IsInside (reverse labels.old.items) (instr_view instr.now) (reverse labels.new.items) (instrs_view spot.sequence.now.items))) }
    ensures node { IfOk result (λ found. IfSome found (λ spot. HasOrdinal spot ordinal)) }
{
    match instr {
        Instr::Plain(_, _) => Ok(None),
        Instr::BrTable(_, _, _) => Ok(None),
        Instr::Block(_, block, body) => spot_under(labels, *block, body, ordinal),
        Instr::Loop(_, _, body) => spot_under(labels, None, body, ordinal),
        Instr::If(_, block, then_body, else_body) => {
            match spot_under(labels, *block, then_body, ordinal) {
                Ok(None) => spot_under(labels, *block, else_body, ordinal),
                found => found,
            }
        }
    }
}

/// The same in a block that a branch to it leaves with the label's type.
#[cycle(spot)]
fn spot_under<'m, A: Allocator, W: Allocator>(
    labels: &mut Vec<Option<ValType>, W>,
    label: Option<ValType>,
    body: &'m Vec<Instr<A>, A>,
    ordinal: u32,
) -> Result<Option<Spot<'m, A>>, AllocError>
    ensures kept { IfOk result (λ found. found ≡ None → labels.new.items ≡ labels.old.items) }
    ensures within { IfOk result (λ found. IfSome found (λ spot. IsWithin (label ∷ reverse labels.old.items) (instrs_view body.now.items) (reverse labels.new.items) (instrs_view spot.sequence.now.items))) }
    ensures node { IfOk result (λ found. IfSome found (λ spot. HasOrdinal spot ordinal)) }
{
    labels.push(label).map_err(AllocError::from)?;
    match spot_in(labels, body, ordinal) {
        Ok(None) => {
            let _label = labels.pop();
            Ok(None)
        }
        found => found,
    }
}
