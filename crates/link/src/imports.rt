// The host calls that imports are.

ghost use Rattle.std.specs.Prelude.{◌≡◌, ◌&&◌, ◌++◌, [], ◌<◌, length, map, IfOk, OnOk, IfSome, Some};
ghost use Rattle.std.specs.List.{filter_map, cons_option};
ghost use Rattle.spec_modules.specs.Profile;
ghost use Rattle.module_tree.specs.ModuleView.{func_type_view, import_desc_view, import_view};
ghost use Rattle.link.specs.Tests;
ghost use Rattle.link.specs.Tests.{first_fault, is_call};

use module_tree::module::{Import, ImportDesc};
use spec_modules::same_type;
use std::alloc::{AllocError, Allocator};
use wtypes::{FuncType, HostCall, ValType};

fn named(name: &str) -> Option<HostCall>
    ensures { result ≡ Tests.named name.now }
{
    if name == "get" {
        return Some(HostCall::Get);
    }
    if name == "has" {
        return Some(HostCall::Has);
    }
    if name == "put" {
        return Some(HostCall::Put);
    }
    if name == "del" {
        return Some(HostCall::Del);
    }
    if name == "add" {
        return Some(HostCall::Add);
    }
    if name == "total" {
        return Some(HostCall::Total);
    }
    if name == "ask" {
        return Some(HostCall::Ask);
    }
    if name == "answer" {
        return Some(HostCall::Answer);
    }
    None
}

fn is_function(desc: ImportDesc) -> bool
    ensures { result ≡ Tests.is_function (import_desc_view desc) }
{
    match desc {
        ImportDesc::Func(_) => true,
        ImportDesc::Table(_) => false,
        ImportDesc::Memory(_) => false,
        ImportDesc::Global(_) => false,
    }
}

/// The host call that an import names, as a function.
pub fn call_named<A: Allocator>(import: &Import<A>) -> Option<HostCall>
    ensures { result ≡ Tests.call_named (import_view import.now) }
{
    if import.from_module.as_str() == "boost" && is_function(import.desc) {
        named(import.name.as_str())
    } else {
        None
    }
}

fn same_types(a: &[ValType], b: &[ValType]) -> bool
    ensures { result ≡ Tests.same_types a.now b.now }
{
    if a.len() != b.len() {
        return false;
    }
    for i in 0..a.len() {
        if !same_type(a[i], b[i]) {
            return false;
        }
    }
    true
}

fn is_of<A: Allocator>(own: &FuncType<A>, params: &[ValType], results: &[ValType]) -> bool
    ensures { result ≡ (Tests.same_types own.now.params.items params.now && Tests.same_types own.now.results.items results.now) }
{
    same_types(&own.params, params) && same_types(&own.results, results)
}

fn is_type<A: Allocator>(call: HostCall, own: &FuncType<A>) -> bool
    ensures { result ≡ Tests.is_type (Profile.host_type call) (Some (func_type_view own.now)) }
{
    match call {
        HostCall::Get => is_of(own, &[ValType::I64], &[ValType::I64]),
        HostCall::Has => is_of(own, &[ValType::I64], &[ValType::I32]),
        HostCall::Put => is_of(own, &[ValType::I64, ValType::I64], &[]),
        HostCall::Del => is_of(own, &[ValType::I64], &[ValType::I32]),
        HostCall::Add => is_of(own, &[ValType::I64, ValType::I64], &[]),
        HostCall::Total => is_of(own, &[ValType::I64], &[ValType::I64]),
        HostCall::Ask => is_of(
            own,
            &[ValType::I32, ValType::I32, ValType::I64],
            &[ValType::I32],
        ),
        HostCall::Answer => is_of(own, &[], &[ValType::I64]),
    }
}

fn has_type<A: Allocator>(types: &Vec<FuncType<A>, A>, desc: ImportDesc, call: HostCall) -> bool
    ensures { result ≡ Tests.is_type (Profile.host_type call) (Tests.declared_type (map func_type_view types.now.items) (import_desc_view desc)) }
{
    match desc {
        ImportDesc::Func(index) => match types.get(index as usize) {
            None => false,
            Some(own) => is_type(call, own),
        },
        ImportDesc::Table(_) => false,
        ImportDesc::Memory(_) => false,
        ImportDesc::Global(_) => false,
    }
}

// The host call that an import is.
fn call_of<A: Allocator>(types: &Vec<FuncType<A>, A>, import: &Import<A>) -> Option<HostCall>
    ensures { result ≡ Tests.call_of (map func_type_view types.now.items) (import_view import.now) }
{
    match call_named(import) {
        None => None,
        Some(call) => {
            if has_type(types, import.desc, call) {
                Some(call)
            } else {
                None
            }
        }
    }
}

fn is_call<A: Allocator>(types: &Vec<FuncType<A>, A>, import: &Import<A>) -> bool
    ensures { result ≡ Tests.is_call (map func_type_view types.now.items) (import_view import.now) }
{
    match call_of(types, import) {
        None => false,
        Some(_) => true,
    }
}

/// The first import that is no host call of its type.
pub fn import_fault<A: Allocator>(
    types: &Vec<FuncType<A>, A>,
    imports: &Vec<Import<A>, A>,
) -> Option<usize>
    ensures there { IfSome result (λ place. place < length imports.now.items) }
    ensures first { result ≡ first_fault (is_call (map func_type_view types.now.items)) 0 (map import_view imports.now.items) }
{
    for i in 0..imports.len() {
        if !is_call(types, &imports[i]) {
            return Some(i);
        }
    }
    None
}

fn add_call<A: Allocator>(
    calls: &mut Vec<HostCall, A>,
    call: Option<HostCall>,
) -> Result<(), AllocError>
    ensures { OnOk result (calls.new.items ≡ calls.old.items ++ cons_option call []) }
{
    if let Some(call) = call {
        calls.push(call)?;
    }
    Ok(())
}

/// The host calls that imports are.
pub fn host_calls<A: Allocator + Clone>(
    alloc: &A,
    types: &Vec<FuncType<A>, A>,
    imports: &Vec<Import<A>, A>,
) -> Result<Vec<HostCall, A>, AllocError>
    ensures { IfOk result (λ calls. calls.items ≡ filter_map (Tests.call_of (map func_type_view types.now.items)) (map import_view imports.now.items)) }
{
    let mut calls: Vec<HostCall, A> = Vec::new(alloc.clone()?);
    for import in imports {
        add_call(&mut calls, call_of(types, import))?;
    }
    Ok(calls)
}
