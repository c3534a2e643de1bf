// The check of an instruction that holds no other.

ghost use Rattle.std.specs.Prelude.{◌≡◌, ◌∷◌, slice_get, [], reverse, Option, Some, None, false, IsTrue, option_and_then};
ghost use Rattle.wtypes.specs.declared.ValType.{ValType};
ghost use Rattle.wtypes.specs.declared.ValType.TheVariants.{I32};
ghost use Rattle.wtypes.specs.declared.PlainInstr.TheVariants as plain;
ghost use Rattle.spec_typing.specs.Typing.{of};
ghost use Rattle.spec_typing.specs.Principal.{guard, arrow, leave, select, plain_step, leads, all_lead, same_result};
ghost use Rattle.body_typing.specs.CheckResults.{context_at, Meets};

use crate::lookup::{is_load_aligned, is_store_aligned, label_at, type_at, type_index};
use crate::operands::Operands;
use crate::operators;
use crate::rule::Rule;
use crate::scope::{Scope, TypeRefusal};
use spec_modules::same_type;
use std::alloc::Allocator;
use wtypes::{LoadOp, PlainInstr, StoreOp, ValType};

// A place in the code.
#[derive(Clone, Copy)]
pub struct Place {
    pub func: u32,
    pub ordinal: u32,
}

pub fn refused(place: Place, rule: Rule) -> TypeRefusal
    ensures { result ≡ TypeRefusal.At (Some place.func) place.ordinal rule }
{
    TypeRefusal::At {
        func: Some(place.func),
        ordinal: place.ordinal,
        rule,
    }
}

fn apply<W: Allocator>(
    ops: &mut Operands<W>,
    operands: &[ValType],
    results: &[ValType],
    place: Place,
) -> Result<(), TypeRefusal>
    ensures { Meets result ops.new (arrow (reverse operands.now) (reverse results.now) ops.old) }
{
    if !ops.take(operands) {
        return Err(refused(place, Rule::Operand));
    }
    ops.put(results)?;
    Ok(())
}

fn go<W: Allocator>(
    ops: &mut Operands<W>,
    block: Option<ValType>,
    place: Place,
) -> Result<(), TypeRefusal>
    ensures { Meets result ops.new (leave (of block) ops.old) }
{
    if !ops.take_result(block) {
        return Err(refused(place, Rule::Operand));
    }
    ops.forget();
    Ok(())
}

fn go_if<W: Allocator>(
    ops: &mut Operands<W>,
    block: Option<ValType>,
    place: Place,
) -> Result<(), TypeRefusal>
    ensures { Meets result ops.new (arrow (I32 ∷ of block) (of block) ops.old) }
{
    if !ops.pop_type(ValType::I32) {
        return Err(refused(place, Rule::Operand));
    }
    if !ops.take_result(block) {
        return Err(refused(place, Rule::Operand));
    }
    ops.put_result(block)?;
    Ok(())
}

fn choose<W: Allocator>(ops: &mut Operands<W>, place: Place) -> Result<(), TypeRefusal>
    ensures { Meets result ops.new (select ops.old) }
{
    if !ops.pop_type(ValType::I32) {
        return Err(refused(place, Rule::Operand));
    }
    let Some(first) = ops.pop() else {
        return Err(refused(place, Rule::Operand));
    };
    let Some(second) = ops.pop() else {
        return Err(refused(place, Rule::Operand));
    };
    match (first, second) {
        (None, _) => ops.push(second)?,
        (Some(_), None) => ops.push(first)?,
        (Some(t), Some(u)) => {
            if !same_type(t, u) {
                return Err(refused(place, Rule::Operand));
            }
            ops.push(first)?
        }
    }
    Ok(())
}

fn call<A: Allocator, W: Allocator>(
    ops: &mut Operands<W>,
    scope: &Scope<A, W>,
    func: u32,
    place: Place,
) -> Result<(), TypeRefusal>
    ensures { Meets result ops.new (plain_step (context_at scope.now []) (plain.Call func) ops.old) }
{
    let Some(index) = type_index(scope, func) else {
        return Err(refused(place, Rule::CallIndex));
    };
    match type_at(scope, index) {
        Some(t) => apply(ops, &t.params, &t.results, place),
        None => apply(ops, &[], &[], place),
    }
}

fn call_indirect<A: Allocator, W: Allocator>(
    ops: &mut Operands<W>,
    scope: &Scope<A, W>,
    index: u32,
    place: Place,
) -> Result<(), TypeRefusal>
    ensures { Meets result ops.new (plain_step (context_at scope.now []) (plain.CallIndirect index) ops.old) }
{
    let Some(t) = scope.types.get(index as usize) else {
        return Err(refused(place, Rule::TypeIndex));
    };
    if !scope.spaces.has_table() {
        return Err(refused(place, Rule::NothingThere));
    }
    if !ops.pop_type(ValType::I32) {
        return Err(refused(place, Rule::Operand));
    }
    apply(ops, &t.params, &t.results, place)
}

fn local_get<A: Allocator, W: Allocator>(
    ops: &mut Operands<W>,
    scope: &Scope<A, W>,
    local: u32,
    place: Place,
) -> Result<(), TypeRefusal>
    ensures { Meets result ops.new (plain_step (context_at scope.now []) (plain.LocalGet local) ops.old) }
{
    match scope.local(local) {
        None => Err(refused(place, Rule::LocalIndex)),
        Some(t) => apply(ops, &[], &[t], place),
    }
}

fn local_set<A: Allocator, W: Allocator>(
    ops: &mut Operands<W>,
    scope: &Scope<A, W>,
    local: u32,
    place: Place,
) -> Result<(), TypeRefusal>
    ensures { Meets result ops.new (plain_step (context_at scope.now []) (plain.LocalSet local) ops.old) }
{
    match scope.local(local) {
        None => Err(refused(place, Rule::LocalIndex)),
        Some(t) => apply(ops, &[t], &[], place),
    }
}

fn local_tee<A: Allocator, W: Allocator>(
    ops: &mut Operands<W>,
    scope: &Scope<A, W>,
    local: u32,
    place: Place,
) -> Result<(), TypeRefusal>
    ensures { Meets result ops.new (plain_step (context_at scope.now []) (plain.LocalTee local) ops.old) }
{
    match scope.local(local) {
        None => Err(refused(place, Rule::LocalIndex)),
        Some(t) => apply(ops, &[t], &[t], place),
    }
}

fn global_get<A: Allocator, W: Allocator>(
    ops: &mut Operands<W>,
    scope: &Scope<A, W>,
    global: u32,
    place: Place,
) -> Result<(), TypeRefusal>
    ensures { Meets result ops.new (plain_step (context_at scope.now []) (plain.GlobalGet global) ops.old) }
{
    match scope.spaces.globals.get(global as usize) {
        None => Err(refused(place, Rule::GlobalIndex)),
        Some(g) => apply(ops, &[], &[g.value_type], place),
    }
}

fn global_set<A: Allocator, W: Allocator>(
    ops: &mut Operands<W>,
    scope: &Scope<A, W>,
    global: u32,
    place: Place,
) -> Result<(), TypeRefusal>
    ensures { Meets result ops.new (plain_step (context_at scope.now []) (plain.GlobalSet global) ops.old) }
{
    match scope.spaces.globals.get(global as usize) {
        None => Err(refused(place, Rule::GlobalIndex)),
        Some(g) => {
            if !g.is_mutable {
                return Err(refused(place, Rule::GlobalIndex));
            }
            apply(ops, &[g.value_type], &[], place)
        }
    }
}

fn load<A: Allocator, W: Allocator>(
    ops: &mut Operands<W>,
    scope: &Scope<A, W>,
    op: LoadOp,
    align: u32,
    offset: u32,
    place: Place,
) -> Result<(), TypeRefusal>
    ensures { Meets result ops.new (plain_step (context_at scope.now []) (plain.Load op align offset) ops.old) }
{
    if !scope.spaces.has_memory() {
        return Err(refused(place, Rule::NothingThere));
    }
    if !is_load_aligned(op, align) {
        return Err(refused(place, Rule::Alignment));
    }
    apply(ops, &[ValType::I32], &[operators::load_type(op)], place)
}

fn store<A: Allocator, W: Allocator>(
    ops: &mut Operands<W>,
    scope: &Scope<A, W>,
    op: StoreOp,
    align: u32,
    offset: u32,
    place: Place,
) -> Result<(), TypeRefusal>
    ensures { Meets result ops.new (plain_step (context_at scope.now []) (plain.Store op align offset) ops.old) }
{
    if !scope.spaces.has_memory() {
        return Err(refused(place, Rule::NothingThere));
    }
    if !is_store_aligned(op, align) {
        return Err(refused(place, Rule::Alignment));
    }
    apply(ops, &[ValType::I32, operators::store_type(op)], &[], place)
}

fn memory_size<A: Allocator, W: Allocator>(
    ops: &mut Operands<W>,
    scope: &Scope<A, W>,
    place: Place,
) -> Result<(), TypeRefusal>
    ensures { Meets result ops.new (plain_step (context_at scope.now []) plain.MemorySize ops.old) }
{
    if !scope.spaces.has_memory() {
        return Err(refused(place, Rule::NothingThere));
    }
    apply(ops, &[], &[ValType::I32], place)
}

fn memory_grow<A: Allocator, W: Allocator>(
    ops: &mut Operands<W>,
    scope: &Scope<A, W>,
    place: Place,
) -> Result<(), TypeRefusal>
    ensures { Meets result ops.new (plain_step (context_at scope.now []) plain.MemoryGrow ops.old) }
{
    if !scope.spaces.has_memory() {
        return Err(refused(place, Rule::NothingThere));
    }
    apply(ops, &[ValType::I32], &[ValType::I32], place)
}

/// Checks an instruction in blocks with these labels, the innermost last.
pub fn check_plain<A: Allocator, W: Allocator>(
    ops: &mut Operands<W>,
    scope: &Scope<A, W>,
    labels: &Vec<Option<ValType>, W>,
    op: PlainInstr,
    place: Place,
) -> Result<(), TypeRefusal>
    ensures { Meets result ops.new (plain_step (context_at scope.now labels.now.items) op ops.old) }
{
    match op {
        PlainInstr::Unreachable => {
            ops.forget();
            Ok(())
        }
        PlainInstr::Nop => Ok(()),
        PlainInstr::Br(label) => match label_at(labels, label) {
            None => Err(refused(place, Rule::LabelIndex)),
            Some(block) => go(ops, block, place),
        },
        PlainInstr::BrIf(label) => match label_at(labels, label) {
            None => Err(refused(place, Rule::LabelIndex)),
            Some(block) => go_if(ops, block, place),
        },
        PlainInstr::Return => go(ops, scope.result, place),
        PlainInstr::Call(func) => call(ops, scope, func, place),
        PlainInstr::CallIndirect(index) => call_indirect(ops, scope, index, place),
        PlainInstr::Drop => match ops.pop() {
            None => Err(refused(place, Rule::Operand)),
            Some(_) => Ok(()),
        },
        PlainInstr::Select => choose(ops, place),
        PlainInstr::LocalGet(n) => local_get(ops, scope, n, place),
        PlainInstr::LocalSet(n) => local_set(ops, scope, n, place),
        PlainInstr::LocalTee(n) => local_tee(ops, scope, n, place),
        PlainInstr::GlobalGet(n) => global_get(ops, scope, n, place),
        PlainInstr::GlobalSet(n) => global_set(ops, scope, n, place),
        PlainInstr::Load(op, align, offset) => load(ops, scope, op, align, offset, place),
        PlainInstr::Store(op, align, offset) => store(ops, scope, op, align, offset, place),
        PlainInstr::MemorySize => memory_size(ops, scope, place),
        PlainInstr::MemoryGrow => memory_grow(ops, scope, place),
        PlainInstr::Const(v) => apply(ops, &[], &[operators::type_of(v)], place),
        PlainInstr::Unary(op) => {
            let t = operators::unary_type(op);
            apply(ops, &[t], &[t], place)
        }
        PlainInstr::Binary(op) => {
            let t = operators::binary_type(op);
            apply(ops, &[t, t], &[t], place)
        }
        PlainInstr::Test(op) => apply(ops, &[operators::test_type(op)], &[ValType::I32], place),
        PlainInstr::Compare(op) => {
            let t = operators::compare_type(op);
            apply(ops, &[t, t], &[ValType::I32], place)
        }
        PlainInstr::Convert(op) => apply(
            ops,
            &[operators::convert_from(op)],
            &[operators::convert_to(op)],
            place,
        ),
    }
}

fn same_block(a: Option<ValType>, b: Option<ValType>) -> bool
    ensures { result ≡ same_result a b }
{
    match (a, b) {
        (None, None) => true,
        (Some(t), Some(u)) => same_type(t, u),
        _ => false,
    }
}

fn leads_to<W: Allocator>(
    labels: &Vec<Option<ValType>, W>,
    block: Option<ValType>,
    label: u32,
) -> bool
    ensures { result ≡ leads (reverse labels.now.items) block label }
{
    match label_at(labels, label) {
        None => false,
        Some(found) => same_block(found, block),
    }
}

/// Whether all these labels are of blocks with this result.
pub fn all_lead_to<W: Allocator>(
    labels: &Vec<Option<ValType>, W>,
    block: Option<ValType>,
    targets: &[u32],
) -> bool
    ensures { result ≡ all_lead (reverse labels.now.items) block targets.now }
{
    for target in targets {
        if !leads_to(labels, block, *target) {
            return false;
        }
    }
    true
}

// Whether one of these labels is out of range.
fn one_is_unknown<W: Allocator>(labels: &Vec<Option<ValType>, W>, targets: &[u32]) -> bool
    ensures { IsTrue result → (block : Option ValType) → all_lead (reverse labels.now.items) block targets.now ≡ false }
{
    for target in targets {
        if *target as usize >= labels.len() {
            return true;
        }
    }
    false
}

/// Checks a `br_table`.
pub fn check_table<W: Allocator>(
    ops: &mut Operands<W>,
    labels: &Vec<Option<ValType>, W>,
    targets: &[u32],
    fallback: u32,
    place: Place,
) -> Result<(), TypeRefusal>
    ensures { Meets result ops.new (option_and_then (λ block. option_and_then (λ _. leave (I32 ∷ of block) ops.old) (guard (all_lead (reverse labels.now.items) block targets.now) ops.old)) (slice_get (reverse labels.now.items) fallback)) }
{
    let Some(block) = label_at(labels, fallback) else {
        return Err(refused(place, Rule::LabelIndex));
    };
    if one_is_unknown(labels, targets) {
        return Err(refused(place, Rule::LabelIndex));
    }
    if !ops.pop_type(ValType::I32) {
        return Err(refused(place, Rule::Operand));
    }
    if !ops.take_result(block) {
        return Err(refused(place, Rule::Operand));
    }
    if !all_lead_to(labels, block, targets) {
        return Err(refused(place, Rule::TableLabels));
    }
    ops.forget();
    Ok(())
}
