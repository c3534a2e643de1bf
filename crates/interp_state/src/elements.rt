// Calls of elements of the table.
ghost use Rattle.std.specs.Prelude.{◌≡◌, ◌&&◌, Some, IsSome, option_map};
ghost use Rattle.spec_modules.specs.Profile.{host_type};
ghost use Rattle.module_tree.specs.ModuleView.{func_type_view};
ghost use Rattle.spec_execution.specs.Configuration.{function_at, function_type};
ghost use Rattle.spec_execution.specs.Reduction as reduction;
ghost use Rattle.spec_execution.specs.Reduction.{same_function_type};
ghost use Rattle.interp_state.specs.Callee.{contract_of};
ghost use Rattle.interp_state.specs.Elements.{element_called};

use crate::callee::Callee;
use link::table::Table;
use std::alloc::Allocator;
use wtypes::{FuncType, HostCall, TrapCode, ValType};

/// The function that an element of the table is, where it has the type of this number.
///
/// # Errors
///
/// The trap: there is no such element, it is empty, or its function has another type.
#[inline(always)]
pub fn function_of_element<'a, A: Allocator + Copy>(
    lent: &Callee<'a, A>,
    table: &Table<A>,
    element: u64,
    type_index: u32,
) -> Result<u32, TrapCode>
    requires { IsSome (element_called (contract_of lent.now).deployed table.now element type_index) }
    ensures { element_called (contract_of lent.now).deployed table.now element type_index ≡ Some result }
{
    match table.get(element) {
        None => Err(TrapCode::ElementOutOfTable),
        Some(None) => Err(TrapCode::EmptyElement),
        Some(Some(func)) => {
            if has_type(lent, func, &lent.module.types[type_index as usize]) {
                Ok(func)
            } else {
                Err(TrapCode::TypeMismatch)
            }
        }
    }
}

// Whether the function of this number has this type.
fn has_type<'a, A: Allocator + Copy>(lent: &Callee<'a, A>, func: u32, form: &FuncType<A>) -> bool
    requires { IsSome (function_at (contract_of lent.now).deployed func) }
    ensures { option_map (λ g. same_function_type (func_type_view form.now) (function_type g)) (function_at (contract_of lent.now).deployed func) ≡ Some result }
{
    if (func as usize) < lent.hosts.len() {
        return is_type_of_host(form, lent.hosts[func as usize]);
    }
    let function = &lent.module.funcs[func as usize - lent.hosts.len()];
    let own = &lent.module.types[function.type_index as usize];
    is_of(form, &own.params, &own.results)
}

fn is_type_of_host<A: Allocator + Copy>(form: &FuncType<A>, host: HostCall) -> bool
    ensures { result ≡ same_function_type (func_type_view form.now) (host_type host) }
{
    match host {
        HostCall::Get => is_of(form, &[ValType::I64], &[ValType::I64]),
        HostCall::Has => is_of(form, &[ValType::I64], &[ValType::I32]),
        HostCall::Put => is_of(form, &[ValType::I64, ValType::I64], &[]),
        HostCall::Del => is_of(form, &[ValType::I64], &[ValType::I32]),
        HostCall::Add => is_of(form, &[ValType::I64, ValType::I64], &[]),
        HostCall::Total => is_of(form, &[ValType::I64], &[ValType::I64]),
        HostCall::Ask => is_of(
            form,
            &[ValType::I32, ValType::I32, ValType::I64],
            &[ValType::I32],
        ),
        HostCall::Answer => is_of(form, &[], &[ValType::I64]),
    }
}

fn is_of<A: Allocator + Copy>(form: &FuncType<A>, params: &[ValType], results: &[ValType]) -> bool
    ensures { result ≡ (reduction.same_types form.now.params.items params.now && reduction.same_types form.now.results.items results.now) }
{
    same_types(&form.params, params) && same_types(&form.results, results)
}

fn same_types(a: &[ValType], b: &[ValType]) -> bool
    ensures { result ≡ reduction.same_types a.now b.now }
{
    if a.len() != b.len() {
        return false;
    }
    for i in 0..a.len() {
        if a[i] != b[i] {
            return false;
        }
    }
    true
}
