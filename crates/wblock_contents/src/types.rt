//! Types as the text format writes them.

ghost use Rattle.std.specs.Prelude.{◌≡◌, IfOk, map, string_bytes};
ghost use Rattle.spec_typing.specs.Modules.{type_at};
ghost use Rattle.module_tree.specs.ModuleView.{func_type_view, limits_view, global_type_view};
ghost use Rattle.wblock_contents.specs.ModuleText.{types_text, listed, func_type_text, limits_text, global_type_text};

use figures::type_name;
use module_tree::module::GlobalType;
use std::alloc::{AllocError, Global};
use wtypes::{FuncType, Limits, ValType};

/// ` T` for each type.
fn types_text_of(alloc: Global, types: &[ValType]) -> Result<String, AllocError>
    ensures { IfOk result (λ text. string_bytes text ≡ types_text types.now) }
{
    let mut text = String::new(alloc);
    for value_type in types {
        let name = type_name(*value_type);
        let word = format!(in alloc; " {name}")?;
        text.push_str(word.as_str())?;
    }
    Ok(text)
}

/// ` (WORD T..)`, or nothing where there is no type.
fn listed_of(alloc: Global, word: &str, types: &[ValType]) -> Result<String, AllocError>
    ensures { IfOk result (λ text. string_bytes text ≡ listed word.now types.now) }
{
    if types.is_empty() {
        return Ok(String::new(alloc));
    }
    let names = types_text_of(alloc, types)?;
    let text = format!(in alloc; " ({word}{names})")?;
    Ok(text)
}

/// The type of a function: ` (param T..) (result T..)`.
fn func_type_text_of(alloc: Global, func_type: &FuncType<Global>) -> Result<String, AllocError>
    ensures { IfOk result (λ text. string_bytes text ≡ func_type_text (func_type_view func_type.now)) }
{
    let params = listed_of(alloc, "param", &func_type.params)?;
    let results = listed_of(alloc, "result", &func_type.results)?;
    let text = format!(in alloc; "{params}{results}")?;
    Ok(text)
}

/// The same of the type of this index.
pub(crate) fn type_text_at(
    alloc: Global,
    types: &[FuncType<Global>],
    index: u32,
) -> Result<String, AllocError>
    ensures { IfOk result (λ text. string_bytes text ≡ func_type_text (type_at (map func_type_view types.now) index)) }
{
    match types.get(index as usize) {
        Some(func_type) => func_type_text_of(alloc, func_type),
        None => Ok(String::new(alloc)),
    }
}

/// ` MIN` or ` MIN MAX`.
pub(crate) fn limits_text_of(alloc: Global, limits: Limits) -> Result<String, AllocError>
    ensures { IfOk result (λ text. string_bytes text ≡ limits_text (limits_view limits)) }
{
    let min = limits.min;
    let text = match limits.max {
        None => format!(in alloc; " {min}")?,
        Some(max) => format!(in alloc; " {min} {max}")?,
    };
    Ok(text)
}

/// `T` or `(mut T)`.
pub(crate) fn global_type_text_of(
    alloc: Global,
    global_type: GlobalType,
) -> Result<String, AllocError>
    ensures { IfOk result (λ text. string_bytes text ≡ global_type_text (global_type_view global_type)) }
{
    let name = type_name(global_type.value_type);
    let text = if global_type.is_mutable {
        format!(in alloc; "(mut {name})")?
    } else {
        name.to_string(alloc)?
    };
    Ok(text)
}
