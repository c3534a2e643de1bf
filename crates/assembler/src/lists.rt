//! Parts as lists.
ghost use Rattle.std.specs.Prelude.{◌≡◌, true, map, reverse};
ghost use Rattle.module_tree.specs.ModuleView.{func_type_view, are_numbered};
ghost use Rattle.assembler.specs.ListsView.{lists_view};
ghost use Rattle.assembler.specs.PartsView.{parts_view, with_types, are_parts_numbered};

use crate::{Lists, Parts};
use std::alloc::Allocator;
use wtypes::FuncType;

// The list from its last to its first.
fn turned<T, A: Allocator>(list: Vec<T, A>) -> Vec<T, A>
    ensures { result.items ≡ reverse list.items }
{
    let mut list = list;
    list.reverse();
    list
}

/// The lists of a module of these types and parts, each from its first to its last.
pub fn lists_of<A: Allocator>(types: Vec<FuncType<A>, A>, parts: Parts<A>) -> Lists<A>
    requires numbered { are_parts_numbered parts ≡ true }
    ensures same { lists_view result ≡ with_types (map func_type_view types.items) (parts_view parts) }
    ensures numbered { are_numbered result.funcs.items result.globals.items result.elements.items result.datas.items ≡ true }
{
    Lists {
        types,
        imports: turned(parts.imports),
        funcs: turned(parts.funcs),
        tables: turned(parts.tables),
        memories: turned(parts.memories),
        globals: turned(parts.globals),
        exports: turned(parts.exports),
        start: parts.start,
        elements: turned(parts.elements),
        datas: turned(parts.datas),
    }
}
