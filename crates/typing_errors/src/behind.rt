//! What the checker finds behind the first instructions of a sequence.

ghost use Rattle.std.specs.Prelude.{◌≡◌, IfOk};
ghost use Rattle.spec_typing.specs.Principal.{empty, run};
ghost use Rattle.module_tree.specs.View.{instrs_view};
ghost use Rattle.body_typing.specs.CheckResults.{context_at};

use body_typing::check::left_by;
use body_typing::operands::Operands;
use body_typing::scope::{Scope, TypeRefusal};
use module_tree::instr::Instr;
use std::alloc::{AllocError, Allocator, Global};
use wtypes::ValType;

/// What these instructions leave, begun on the empty stack, in blocks with these labels, the innermost last. None where they do not pass.
pub(crate) fn operands_behind<A: Allocator>(
    alloc: Global,
    scope: &Scope<A, Global>,
    labels: &[Option<ValType>],
    instrs: &[Instr<A>],
) -> Result<Option<Operands<Global>>, AllocError>
    ensures { IfOk result (λ found. found ≡ run (context_at scope.now labels.now) (instrs_view instrs.now) empty) }
{
    let mut labels = Vec::from_slice(alloc, labels)?;
    match left_by(&alloc, scope, &mut labels, instrs) {
        Ok(left) => Ok(Some(left)),
        Err(TypeRefusal::NoMemory) => Err(AllocError),
        Err(TypeRefusal::At { .. }) => Ok(None),
    }
}
