//! What instructions take off the stack.

ghost use Rattle.std.specs.Prelude.{◌≡◌, [], ◌∷◌, IfOk, List, Some, true, reverse, option_map, option_and_then, slice_get};
ghost use Rattle.wtypes.specs.declared.ValType.{ValType};
ghost use Rattle.wtypes.specs.declared.ValType.TheVariants.{I32};
ghost use Rattle.wtypes.specs.declared.PlainInstr.TheVariants as plain;
ghost use Rattle.spec_typing.specs.Typing.{of};
ghost use Rattle.spec_typing.specs.Principal.{Stack, arrow, leave, plain_step, step};
ghost use Rattle.module_tree.specs.View.{instr_view};
ghost use Rattle.body_typing.specs.CheckResults.{context_at};
ghost use Rattle.typing.specs.Takes.{finds, is_there};

use body_typing::lookup::{is_load_aligned, is_store_aligned, label_at, type_at, type_index};
use body_typing::operators;
use body_typing::scope::Scope;
use module_tree::instr::Instr;
use std::alloc::{AllocError, Allocator, Global};
use wtypes::{FuncType, LoadOp, PlainInstr, StoreOp, ValType};

/// What an instruction takes off the stack.
#[derive(Drop)]
pub enum Takes {
    /// Operands of these types, the last on top.
    Types(Vec<ValType>),
    /// One operand of any type.
    OneOfAny,
    /// An i32, and below it two operands of one type.
    TwoAlike,
    /// It passes on no stack: it names what is not there.
    Nothing,
}

/// Operands of these types, the last on top, whatever is put there after.
fn types_of(alloc: Global, types: &[ValType]) -> Result<Takes, AllocError>
    ensures arrow { IfOk result (λ takes. (gives : List ValType) (s : Stack) → finds takes s ≡ is_there (arrow (reverse types.now) gives s)) }
    ensures leave { IfOk result (λ takes. (s : Stack) → finds takes s ≡ is_there (leave (reverse types.now) s)) }
{
    let types = Vec::from_slice(alloc, types)?;
    Ok(Takes::Types(types))
}

/// The result of a block.
fn result_of(alloc: Global, block: Option<ValType>) -> Result<Takes, AllocError>
    ensures { IfOk result (λ takes. (s : Stack) → finds takes s ≡ is_there (leave (of block) s)) }
{
    match block {
        None => types_of(alloc, &[]),
        Some(t) => types_of(alloc, &[t]),
    }
}

/// The result of a block, and an i32 on top of it.
fn result_and_i32(alloc: Global, block: Option<ValType>) -> Result<Takes, AllocError>
    ensures arrow { IfOk result (λ takes. (gives : List ValType) (s : Stack) → finds takes s ≡ is_there (arrow (I32 ∷ of block) gives s)) }
    ensures leave { IfOk result (λ takes. (s : Stack) → finds takes s ≡ is_there (leave (I32 ∷ of block) s)) }
{
    match block {
        None => types_of(alloc, &[ValType::I32]),
        Some(t) => types_of(alloc, &[t, ValType::I32]),
    }
}

fn br<A: Allocator, W: Allocator>(
    alloc: Global,
    scope: &Scope<A, W>,
    labels: &Vec<Option<ValType>, W>,
    label: u32,
) -> Result<Takes, AllocError>
    ensures { IfOk result (λ takes. (s : Stack) → finds takes s ≡ is_there (plain_step (context_at scope.now labels.now.items) (plain.Br label) s)) }
{
    match label_at(labels, label) {
        None => Ok(Takes::Nothing),
        Some(block) => result_of(alloc, block),
    }
}

fn br_if<A: Allocator, W: Allocator>(
    alloc: Global,
    scope: &Scope<A, W>,
    labels: &Vec<Option<ValType>, W>,
    label: u32,
) -> Result<Takes, AllocError>
    ensures { IfOk result (λ takes. (s : Stack) → finds takes s ≡ is_there (plain_step (context_at scope.now labels.now.items) (plain.BrIf label) s)) }
{
    match label_at(labels, label) {
        None => Ok(Takes::Nothing),
        Some(block) => result_and_i32(alloc, block),
    }
}

/// As a call of this type, with one i32 more on top.
fn indirect<A: Allocator>(alloc: Global, own: &FuncType<A>) -> Result<Takes, AllocError>
    ensures { IfOk result (λ takes. (gives : List ValType) (s : Stack) → finds takes s ≡ is_there (arrow (I32 ∷ reverse own.now.params.items) gives s)) }
{
    let mut types = Vec::from_slice(alloc, &own.params)?;
    types.push(ValType::I32)?;
    types_of(alloc, &types)
}

fn call<A: Allocator, W: Allocator>(
    alloc: Global,
    scope: &Scope<A, W>,
    func: u32,
) -> Result<Takes, AllocError>
    ensures { IfOk result (λ takes. (s : Stack) → finds takes s ≡ is_there (plain_step (context_at scope.now []) (plain.Call func) s)) }
{
    let Some(index) = type_index(scope, func) else {
        return Ok(Takes::Nothing);
    };
    match type_at(scope, index) {
        Some(t) => types_of(alloc, &t.params),
        None => types_of(alloc, &[]),
    }
}

fn call_indirect<A: Allocator, W: Allocator>(
    alloc: Global,
    scope: &Scope<A, W>,
    index: u32,
) -> Result<Takes, AllocError>
    ensures { IfOk result (λ takes. (s : Stack) → finds takes s ≡ is_there (plain_step (context_at scope.now []) (plain.CallIndirect index) s)) }
{
    if !scope.spaces.has_table() {
        return Ok(Takes::Nothing);
    }
    match scope.types.get(index as usize) {
        Some(t) => indirect(alloc, t),
        None => Ok(Takes::Nothing),
    }
}

fn local_get<A: Allocator, W: Allocator>(
    alloc: Global,
    scope: &Scope<A, W>,
    local: u32,
) -> Result<Takes, AllocError>
    ensures { IfOk result (λ takes. (s : Stack) → finds takes s ≡ is_there (plain_step (context_at scope.now []) (plain.LocalGet local) s)) }
{
    match scope.local(local) {
        None => Ok(Takes::Nothing),
        Some(_) => types_of(alloc, &[]),
    }
}

fn local_set<A: Allocator, W: Allocator>(
    alloc: Global,
    scope: &Scope<A, W>,
    local: u32,
) -> Result<Takes, AllocError>
    ensures { IfOk result (λ takes. (s : Stack) → finds takes s ≡ is_there (plain_step (context_at scope.now []) (plain.LocalSet local) s)) }
{
    match scope.local(local) {
        None => Ok(Takes::Nothing),
        Some(t) => types_of(alloc, &[t]),
    }
}

fn local_tee<A: Allocator, W: Allocator>(
    alloc: Global,
    scope: &Scope<A, W>,
    local: u32,
) -> Result<Takes, AllocError>
    ensures { IfOk result (λ takes. (s : Stack) → finds takes s ≡ is_there (plain_step (context_at scope.now []) (plain.LocalTee local) s)) }
{
    match scope.local(local) {
        None => Ok(Takes::Nothing),
        Some(t) => types_of(alloc, &[t]),
    }
}

fn global_get<A: Allocator, W: Allocator>(
    alloc: Global,
    scope: &Scope<A, W>,
    global: u32,
) -> Result<Takes, AllocError>
    ensures { IfOk result (λ takes. (s : Stack) → finds takes s ≡ is_there (plain_step (context_at scope.now []) (plain.GlobalGet global) s)) }
{
    match scope.spaces.globals.get(global as usize) {
        None => Ok(Takes::Nothing),
        Some(_) => types_of(alloc, &[]),
    }
}

fn global_set<A: Allocator, W: Allocator>(
    alloc: Global,
    scope: &Scope<A, W>,
    global: u32,
) -> Result<Takes, AllocError>
    ensures { IfOk result (λ takes. (s : Stack) → finds takes s ≡ is_there (plain_step (context_at scope.now []) (plain.GlobalSet global) s)) }
{
    match scope.spaces.globals.get(global as usize) {
        None => Ok(Takes::Nothing),
        Some(g) => {
            if !g.is_mutable {
                return Ok(Takes::Nothing);
            }
            types_of(alloc, &[g.value_type])
        }
    }
}

fn load<A: Allocator, W: Allocator>(
    alloc: Global,
    scope: &Scope<A, W>,
    op: LoadOp,
    align: u32,
    offset: u32,
) -> Result<Takes, AllocError>
    ensures { IfOk result (λ takes. (s : Stack) → finds takes s ≡ is_there (plain_step (context_at scope.now []) (plain.Load op align offset) s)) }
{
    if !scope.spaces.has_memory() {
        return Ok(Takes::Nothing);
    }
    if !is_load_aligned(op, align) {
        return Ok(Takes::Nothing);
    }
    types_of(alloc, &[ValType::I32])
}

fn store<A: Allocator, W: Allocator>(
    alloc: Global,
    scope: &Scope<A, W>,
    op: StoreOp,
    align: u32,
    offset: u32,
) -> Result<Takes, AllocError>
    ensures { IfOk result (λ takes. (s : Stack) → finds takes s ≡ is_there (plain_step (context_at scope.now []) (plain.Store op align offset) s)) }
{
    if !scope.spaces.has_memory() {
        return Ok(Takes::Nothing);
    }
    if !is_store_aligned(op, align) {
        return Ok(Takes::Nothing);
    }
    types_of(alloc, &[ValType::I32, operators::store_type(op)])
}

fn memory_size<A: Allocator, W: Allocator>(
    alloc: Global,
    scope: &Scope<A, W>,
) -> Result<Takes, AllocError>
    ensures { IfOk result (λ takes. (s : Stack) → finds takes s ≡ is_there (plain_step (context_at scope.now []) plain.MemorySize s)) }
{
    if !scope.spaces.has_memory() {
        return Ok(Takes::Nothing);
    }
    types_of(alloc, &[])
}

fn memory_grow<A: Allocator, W: Allocator>(
    alloc: Global,
    scope: &Scope<A, W>,
) -> Result<Takes, AllocError>
    ensures { IfOk result (λ takes. (s : Stack) → finds takes s ≡ is_there (plain_step (context_at scope.now []) plain.MemoryGrow s)) }
{
    if !scope.spaces.has_memory() {
        return Ok(Takes::Nothing);
    }
    types_of(alloc, &[ValType::I32])
}

/// What an instruction that holds no other takes, in blocks with these labels, the innermost last. The instruction passes on just the stacks where that is
/// found.
fn plain_takes<A: Allocator, W: Allocator>(
    alloc: Global,
    scope: &Scope<A, W>,
    labels: &Vec<Option<ValType>, W>,
    op: PlainInstr,
) -> Result<Takes, AllocError>
    ensures { IfOk result (λ takes. (s : Stack) → finds takes s ≡ is_there (plain_step (context_at scope.now labels.now.items) op s)) }
{
    match op {
        PlainInstr::Unreachable => types_of(alloc, &[]),
        PlainInstr::Nop => types_of(alloc, &[]),
        PlainInstr::Br(label) => br(alloc, scope, labels, label),
        PlainInstr::BrIf(label) => br_if(alloc, scope, labels, label),
        PlainInstr::Return => result_of(alloc, scope.result),
        PlainInstr::Call(func) => call(alloc, scope, func),
        PlainInstr::CallIndirect(index) => call_indirect(alloc, scope, index),
        PlainInstr::Drop => Ok(Takes::OneOfAny),
        PlainInstr::Select => Ok(Takes::TwoAlike),
        PlainInstr::LocalGet(n) => local_get(alloc, scope, n),
        PlainInstr::LocalSet(n) => local_set(alloc, scope, n),
        PlainInstr::LocalTee(n) => local_tee(alloc, scope, n),
        PlainInstr::GlobalGet(n) => global_get(alloc, scope, n),
        PlainInstr::GlobalSet(n) => global_set(alloc, scope, n),
        PlainInstr::Load(op, align, offset) => load(alloc, scope, op, align, offset),
        PlainInstr::Store(op, align, offset) => store(alloc, scope, op, align, offset),
        PlainInstr::MemorySize => memory_size(alloc, scope),
        PlainInstr::MemoryGrow => memory_grow(alloc, scope),
        PlainInstr::Const(_) => types_of(alloc, &[]),
        PlainInstr::Unary(op) => types_of(alloc, &[operators::unary_type(op)]),
        PlainInstr::Binary(op) => {
            let t = operators::binary_type(op);
            types_of(alloc, &[t, t])
        }
        PlainInstr::Test(op) => types_of(alloc, &[operators::test_type(op)]),
        PlainInstr::Compare(op) => {
            let t = operators::compare_type(op);
            types_of(alloc, &[t, t])
        }
        PlainInstr::Convert(op) => types_of(alloc, &[operators::convert_from(op)]),
    }
}

/// What a `br_table` with this default label takes.
fn table_takes<W: Allocator>(
    alloc: Global,
    labels: &Vec<Option<ValType>, W>,
    fallback: u32,
) -> Result<Takes, AllocError>
    ensures { IfOk result (λ takes. (s : Stack) → finds takes s ≡ is_there (option_and_then (λ block. leave (I32 ∷ of block) s) (slice_get (reverse labels.now.items) fallback))) }
{
    match label_at(labels, fallback) {
        None => Ok(Takes::Nothing),
        Some(block) => result_and_i32(alloc, block),
    }
}

/// What an instruction takes in blocks with these labels, the innermost last. Where the instruction passes, that is found.
pub fn takes_of<A: Allocator, W: Allocator>(
    alloc: Global,
    scope: &Scope<A, W>,
    labels: &Vec<Option<ValType>, W>,
    instr: &Instr<A>,
) -> Result<Takes, AllocError>
    ensures { IfOk result (λ takes. (s after : Stack) → step (context_at scope.now labels.now.items) (instr_view instr.now) s ≡ Some after → finds takes s ≡ true) }
{
    match instr {
        Instr::Plain(_, op) => plain_takes(alloc, scope, labels, *op),
        Instr::BrTable(_, _, fallback) => table_takes(alloc, labels, *fallback),
        Instr::Block(_, _, _) => types_of(alloc, &[]),
        Instr::Loop(_, _, _) => types_of(alloc, &[]),
        Instr::If(_, _, _, _) => types_of(alloc, &[ValType::I32]),
    }
}
