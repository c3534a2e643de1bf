// The same tree under another allocator.

ghost use Rattle.std.specs.Prelude.{◌≡◌, IfOk};
ghost use Rattle.module_tree.specs.View.{instr_view, instrs_view, instr_ordinals, ordinals};

use crate::instr::Instr;
use std::alloc::{AllocError, Allocator};

#[cycle(copy)]
fn copy_instr<A: Allocator, B: Allocator + Clone>(
    instr: &Instr<A>,
    alloc: &B,
) -> Result<Instr<B>, AllocError>
    ensures view { IfOk result (λ i. instr_view i ≡ instr_view instr.now) }
    ensures ordinals { IfOk result (λ i. instr_ordinals i ≡ instr_ordinals instr.now) }
{
    match instr {
        Instr::Plain(n, op) => Ok(Instr::Plain(*n, *op)),
        Instr::BrTable(n, labels, fallback) => {
            let copied = Vec::from_slice(alloc.clone()?, labels)?;
            Ok(Instr::BrTable(*n, copied, *fallback))
        }
        Instr::Block(n, result, body) => {
            let copied = copy_instrs(body, alloc)?;
            Ok(Instr::Block(*n, *result, copied))
        }
        Instr::Loop(n, result, body) => {
            let copied = copy_instrs(body, alloc)?;
            Ok(Instr::Loop(*n, *result, copied))
        }
        Instr::If(n, result, then_body, else_body) => {
            let then_copy = copy_instrs(then_body, alloc)?;
            let else_copy = copy_instrs(else_body, alloc)?;
            Ok(Instr::If(*n, *result, then_copy, else_copy))
        }
    }
}

// The same instructions, with the same ordinals.
#[cycle(copy)]
pub(crate) fn copy_instrs<A: Allocator, B: Allocator + Clone>(
    body: &Vec<Instr<A>, A>,
    alloc: &B,
) -> Result<Vec<Instr<B>, B>, AllocError>
    ensures view { IfOk result (λ v. instrs_view v.items ≡ instrs_view body.now.items) }
    ensures ordinals { IfOk result (λ v. ordinals v.items ≡ ordinals body.now.items) }
{
    let mut copies = Vec::new(alloc.clone()?);
    for i in body {
        let copied = copy_instr(i, alloc)?;
        copies.push(copied)?;
    }
    Ok(copies)
}
