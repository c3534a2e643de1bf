//! What an import of a module is.

use module_tree::module::{Import, ImportDesc, Module};
use std::alloc::{AllocError, Allocator, Global};
use typing_errors::function_text;

/// What an import of a module is: its kind and, of a function, its type.
pub(crate) fn import_text<A: Allocator>(
    alloc: Global,
    module: &Module<A>,
    import: &Import<A>,
) -> Result<String, AllocError> {
    match import.desc {
        ImportDesc::Func(index) => match module.types.get(index as usize) {
            Some(func_type) => function_text(alloc, func_type),
            None => "a function".to_string(alloc),
        },
        ImportDesc::Table(_) => "a table".to_string(alloc),
        ImportDesc::Memory(_) => "a memory".to_string(alloc),
        ImportDesc::Global(_) => "a global".to_string(alloc),
    }
}
