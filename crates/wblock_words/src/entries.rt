//! What the entry of a call takes, and what the call gives it.

use call::Call;
use link::deployed::Deployed;
use module_tree::module::{Export, ExportDesc};
use std::alloc::{AllocError, Allocator};
use wtypes::{FuncType, ValType, Value};

/// What is exported under a name.
fn exported_as<A: Allocator>(exports: &[Export<A>], name: &str) -> Option<ExportDesc> {
    for export in exports {
        if export.name.as_str() == name {
            return Some(export.desc);
        }
    }
    None
}

/// The type of the entry of a call, where it is a function of a contract's own.
fn entry_type<'a, A: Allocator>(
    contracts: &'a [Deployed<A>],
    call: &Call,
) -> Option<&'a FuncType<A>> {
    let contract = contracts.get(call.contract() as usize)?;
    let module = contract.module();
    match exported_as(&module.exports, call.entry())? {
        ExportDesc::Func(func) => {
            let own = (func as usize).checked_sub(contract.hosts().len())?;
            let function = module.funcs.get(own)?;
            module.types.get(function.type_index as usize)
        }
        ExportDesc::Table(_) | ExportDesc::Memory(_) | ExportDesc::Global(_) => None,
    }
}

/// Adds the types of parameters, each behind a space.
fn put_params<A: Allocator>(text: &mut String<A>, params: &[ValType]) -> Result<(), AllocError> {
    for param in params {
        match *param {
            ValType::I32 => text.push_str(" i32")?,
            ValType::I64 => text.push_str(" i64")?,
        }
    }
    if params.is_empty() {
        text.push_str(" nothing")?;
    }
    Ok(())
}

/// Adds the types of arguments, each behind a space.
fn put_args<A: Allocator>(text: &mut String<A>, args: &[Value]) -> Result<(), AllocError> {
    for arg in args {
        match *arg {
            Value::I32(_) => text.push_str(" i32")?,
            Value::I64(_) => text.push_str(" i64")?,
        }
    }
    if args.is_empty() {
        text.push_str(" nothing")?;
    }
    Ok(())
}

/// What the entry of a call takes and what the call gives it, to stand behind the sentence of a call that does not start; nothing where the entry
/// is no function of a contract's own. It is for people to read, and no clause speaks of it.
pub fn entry_words<A: Allocator, B: Allocator>(
    alloc: B,
    contracts: &[Deployed<A>],
    call: &Call,
) -> Result<String<B>, AllocError> {
    let mut text = String::new(alloc);
    if let Some(form) = entry_type(contracts, call) {
        text.push_str("; the entry takes")?;
        put_params(&mut text, &form.params)?;
        text.push_str(", and is given")?;
        put_args(&mut text, call.args())?;
    }
    Ok(text)
}
