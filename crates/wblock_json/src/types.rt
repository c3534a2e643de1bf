//! Types of a module as JSON.

ghost use Rattle.std.specs.Prelude.{◌≡◌, [], IfOk, map};
ghost use Rattle.serde_json.specs.View.{view};
ghost use Rattle.spec_typing.specs.Modules.{type_at};
ghost use Rattle.module_tree.specs.ModuleView.{func_type_view, global_type_view, limits_view};
ghost use Rattle.wblock_json.specs.Json.{array_of, maybe, small};
ghost use Rattle.wblock_json.specs.Modules.{func_type_data, global_type_data, limits_data, type_data};

use figures::type_name;
use module_tree::module::GlobalType;
use serde_json::{Value as Json, json};
use std::alloc::{AllocError, Global};
use wtypes::{FuncType, Limits, ValType};

fn type_of(alloc: Global, value_type: ValType) -> Result<Json, AllocError>
    ensures { IfOk result (λ v. view v ≡ type_data value_type) }
{
    let name = type_name(value_type).to_string(alloc)?;
    Ok(Json::from(name))
}

fn types_of(alloc: Global, types: &[ValType]) -> Result<Json, AllocError>
    ensures { IfOk result (λ v. view v ≡ array_of (map type_data types.now)) }
{
    let mut values = Vec::new(alloc);
    for value_type in types {
        values.push(type_of(alloc, *value_type)?)?;
    }
    Ok(Json::from(values))
}

/// The type of a function.
#[tactic(auto, unfolding(crate::specs::Modules::func_type_data))]
pub(crate) fn func_type_of(alloc: Global, func_type: &FuncType<Global>) -> Result<Json, AllocError>
    ensures { IfOk result (λ v. view v ≡ func_type_data (func_type_view func_type.now)) }
{
    let params = types_of(alloc, &func_type.params)?;
    let results = types_of(alloc, &func_type.results)?;
    json!(in alloc; {"params": params, "results": results})
}

/// The type without parameters and without results.
#[tactic(auto, unfolding(crate::specs::Modules::func_type_data))]
fn empty_type_of(alloc: Global) -> Result<Json, AllocError>
    ensures { IfOk result (λ v. view v ≡ func_type_data (type_at [] 0)) }
{
    json!(in alloc; {"params": [], "results": []})
}

/// The type of this index.
pub(crate) fn type_at_index(
    alloc: Global,
    types: &[FuncType<Global>],
    index: u32,
) -> Result<Json, AllocError>
    ensures { IfOk result (λ v. view v ≡ func_type_data (type_at (map func_type_view types.now) index)) }
{
    match types.get(index as usize) {
        Some(func_type) => func_type_of(alloc, func_type),
        None => empty_type_of(alloc),
    }
}

/// A number, where there is one.
pub fn maybe_number(number: Option<u32>) -> Json
    ensures { view result ≡ maybe small number }
{
    match number {
        None => Json::Null,
        Some(number) => Json::from(number),
    }
}

/// The limits of a table or a memory.
#[tactic(auto, unfolding(crate::specs::Modules::limits_data))]
pub(crate) fn limits_of(alloc: Global, limits: Limits) -> Result<Json, AllocError>
    ensures { IfOk result (λ v. view v ≡ limits_data (limits_view limits)) }
{
    let max = maybe_number(limits.max);
    json!(in alloc; {"min": limits.min, "max": max})
}

/// The type of a global.
#[tactic(auto, unfolding(crate::specs::Modules::global_type_data))]
pub(crate) fn global_type_of(alloc: Global, global_type: GlobalType) -> Result<Json, AllocError>
    ensures { IfOk result (λ v. view v ≡ global_type_data (global_type_view global_type)) }
{
    let value = type_of(alloc, global_type.value_type)?;
    json!(in alloc; {"value": value, "mutable": global_type.is_mutable})
}
