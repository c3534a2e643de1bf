// The check of a body.

ghost use Rattle.std.specs.Prelude.{◌≡◌, ◌<◌, ◌∷◌, [], length, Some, Option, OnOk, IsTrue, false, option_and_then, map};
ghost use Rattle.wtypes.specs.declared.ValType.{ValType};
ghost use Rattle.spec_typing.specs.Typing.{Context, of, in_block};
ghost use Rattle.spec_typing.specs.Modules.{BodyTyped, type_at, result_of};
ghost use Rattle.spec_typing.specs.Principal.{Stack, empty, arrow, step, run, ends, guard};
ghost use Rattle.module_tree.specs.View.{instr_view, instrs_view};
ghost use Rattle.module_tree.specs.ModuleView.{func_view, func_type_view};
ghost use Rattle.body_typing.specs.CheckResults.{spaces_view, context_at, Meets, Gives, Tells};

use crate::operands::Operands;
use crate::plain::{Place, check_plain, check_table, refused};
use crate::rule::Rule;
use crate::scope::{Scope, TypeRefusal};
use crate::spaces::Spaces;
use module_tree::instr::Instr;
use module_tree::module::Func;
use std::alloc::{AllocError, Allocator};
use wtypes::{FuncType, ValType};

// Whether a result is asked of an empty else.
fn lacks_else<A: Allocator>(block: Option<ValType>, else_body: &Vec<Instr<A>, A>) -> bool
    ensures { IsTrue result → (c : Context) → ends block (run c (instrs_view else_body.now.items) empty) ≡ false }
{
    match block {
        None => false,
        Some(_) => else_body.is_empty(),
    }
}

// The end of a block, which left this.
fn end_block<W: Allocator>(
    ops: &mut Operands<W>,
    left: Operands<W>,
    block: Option<ValType>,
    place: Place,
) -> Result<(), TypeRefusal>
    ensures { Meets result ops.new (option_and_then (λ _. arrow [] (of block) ops.old) (guard (ends block (Some left)) ops.old)) }
{
    if !left.is_result(block) {
        return Err(refused(place, Rule::EndOperands));
    }
    ops.put_result(block)?;
    Ok(())
}

// What the body of a block leaves, which a branch to the block leaves with the label's type.
#[cycle(check)]
fn check_all<A: Allocator, W: Allocator + Clone>(
    alloc: &W,
    scope: &Scope<A, W>,
    labels: &mut Vec<Option<ValType>, W>,
    label: Option<ValType>,
    body: &Vec<Instr<A>, A>,
    next: &mut u32,
) -> Result<Operands<W>, TypeRefusal>
    ensures gives { Gives (λ left. left) result (run (in_block label (context_at scope.now labels.old.items)) (instrs_view body.now.items) empty) }
    ensures labels { OnOk result (labels.new.items ≡ labels.old.items) }
{
    let mut ops = Operands::new(alloc.clone()?);
    labels.push(label).map_err(AllocError::from)?;
    for i in body {
        match check_instr(alloc, scope, labels, &mut ops, i, next) {
            Ok(()) => {}
            Err(refusal) => return Err(refusal),
        }
    }
    let _label = labels.pop();
    Ok(ops)
}

#[cycle(check)]
fn check_instr<A: Allocator, W: Allocator + Clone>(
    alloc: &W,
    scope: &Scope<A, W>,
    labels: &mut Vec<Option<ValType>, W>,
    ops: &mut Operands<W>,
    instr: &Instr<A>,
    next: &mut u32,
) -> Result<(), TypeRefusal>
    ensures meets { Meets result ops.new (step (context_at scope.now labels.old.items) (instr_view instr.now) ops.old) }
    ensures labels { OnOk result (labels.new.items ≡ labels.old.items) }
{
    let place = Place {
        func: scope.func,
        ordinal: *next,
    };
    *next = next.saturating_add(1);
    match instr {
        Instr::Plain(_, op) => check_plain(ops, scope, labels, *op, place),
        Instr::BrTable(_, targets, fallback) => check_table(ops, labels, targets, *fallback, place),
        Instr::Block(_, block, body) => match check_all(alloc, scope, labels, *block, body, next) {
            Ok(left) => end_block(ops, left, *block, place),
            Err(refusal) => Err(refusal),
        },
        Instr::Loop(_, block, body) => match check_all(alloc, scope, labels, None, body, next) {
            Ok(left) => end_block(ops, left, *block, place),
            Err(refusal) => Err(refusal),
        },
        Instr::If(_, block, then_body, else_body) => {
            if !ops.pop_type(ValType::I32) {
                return Err(refused(place, Rule::Operand));
            }
            if lacks_else(*block, else_body) {
                return Err(refused(place, Rule::EmptyElse));
            }
            match check_all(alloc, scope, labels, *block, then_body, next) {
                Err(refusal) => Err(refusal),
                Ok(left) => {
                    if !left.is_result(*block) {
                        return Err(refused(place, Rule::EndOperands));
                    }
                    match check_all(alloc, scope, labels, *block, else_body, next) {
                        Err(refusal) => Err(refusal),
                        Ok(left) => end_block(ops, left, *block, place),
                    }
                }
            }
        }
    }
}

fn own_type<'t, A: Allocator>(types: &'t Vec<FuncType<A>, A>, index: u32) -> &'t FuncType<A>
    requires { index < length types.now.items }
    ensures { type_at (map func_type_view types.now.items) index ≡ func_type_view result.now }
{
    &types[index as usize]
}

fn result_type<A: Allocator>(own: &FuncType<A>) -> Option<ValType>
    ensures { result ≡ result_of own.now.results.items }
{
    own.results.first().copied()
}

/// Checks the body of a defined function, in a module with these types and index spaces. The function has this number,
/// imports counted first.
pub fn check_func<A: Allocator, W: Allocator + Clone>(
    alloc: &W,
    types: &Vec<FuncType<A>, A>,
    spaces: &Spaces<W>,
    func: &Func<A>,
    number: u32,
) -> Result<(), TypeRefusal>
    requires { func.now.type_index < length types.now.items }
    ensures { Tells result (BodyTyped (spaces_view types.now.items spaces.now) (func_view func.now)) }
{
    let own = own_type(types, func.type_index);
    let wanted = result_type(own);
    let scope = Scope {
        types,
        spaces,
        own,
        locals: &func.locals,
        result: wanted,
        func: number,
    };
    let mut labels = Vec::new(alloc.clone()?);
    let mut next = 0;
    match check_all(alloc, &scope, &mut labels, wanted, &func.body, &mut next) {
        Err(refusal) => Err(refusal),
        Ok(left) => {
            if left.is_result(wanted) {
                Ok(())
            } else {
                let end = Place {
                    func: number,
                    ordinal: next,
                };
                Err(refused(end, Rule::EndOperands))
            }
        }
    }
}

/// What these instructions leave, begun on the empty stack, in blocks with these labels, the innermost last. Refused where
/// they break a rule, and where memory was refused.
pub fn left_by<A: Allocator, W: Allocator + Clone>(
    alloc: &W,
    scope: &Scope<A, W>,
    labels: &mut Vec<Option<ValType>, W>,
    instrs: &[Instr<A>],
) -> Result<Operands<W>, TypeRefusal>
    ensures gives { Gives (λ left. left) result (run (context_at scope.now labels.old.items) (instrs_view instrs.now) empty) }
    ensures labels { OnOk result (labels.new.items ≡ labels.old.items) }
{
    let mut ops = Operands::new(alloc.clone()?);
    let mut next = 0;
    for i in instrs {
        match check_instr(alloc, scope, labels, &mut ops, i, &mut next) {
            Ok(()) => {}
            Err(refusal) => return Err(refusal),
        }
    }
    Ok(ops)
}
