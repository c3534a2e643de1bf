//! The names of functions.

use module_tree::module::{Export, ExportDesc, Import, ImportDesc, Module};
use std::alloc::{AllocError, Allocator, Global};

/// The name of a function in the text, without its `$`.
#[derive(Clone, Copy)]
pub(crate) enum FuncName<'m> {
    /// None: it goes by its number.
    Unnamed,
    /// That of its first export.
    Exported(&'m str),
    /// That of its import: `MODULE.NAME`.
    Imported(&'m str, &'m str),
}

/// Whether these are characters of a name in the text format, at least one.
fn is_free(name: &str) -> bool {
    !name.is_empty()
        && name.bytes().all(|b| {
            b.is_ascii_graphic()
                && !matches!(
                    b,
                    b'"' | b'(' | b')' | b',' | b';' | b'[' | b']' | b'{' | b'}'
                )
        })
}

/// The names of the imported functions.
fn put_imported<'m, A: Allocator>(
    names: &mut Vec<FuncName<'m>>,
    imports: &'m Vec<Import<A>, A>,
) -> Result<(), AllocError> {
    for import in imports {
        if let ImportDesc::Func(_) = import.desc {
            let from_module = import.from_module.as_str();
            let name = import.name.as_str();
            if is_free(from_module) && is_free(name) {
                names.push(FuncName::Imported(from_module, name))?;
            } else {
                names.push(FuncName::Unnamed)?;
            }
        }
    }
    Ok(())
}

/// The names of functions by their first exports.
fn put_exported<'m, A: Allocator>(names: &mut Vec<FuncName<'m>>, exports: &'m Vec<Export<A>, A>) {
    for export in exports {
        if let ExportDesc::Func(func) = export.desc {
            let name = export.name.as_str();
            if let Some(entry) = names.get_mut(func as usize) {
                if matches!(*entry, FuncName::Unnamed) && is_free(name) {
                    *entry = FuncName::Exported(name);
                }
            }
        }
    }
}

/// The names of the functions of a module, imports first.
pub(crate) fn names_of<'m, A: Allocator>(
    alloc: Global,
    module: &'m Module<A>,
) -> Result<Vec<FuncName<'m>>, AllocError> {
    let mut names = Vec::new(alloc);
    put_imported(&mut names, &module.imports)?;
    for _func in &module.funcs {
        names.push(FuncName::Unnamed)?;
    }
    put_exported(&mut names, &module.exports);
    Ok(names)
}
