// The table that a module begins with.

ghost use Rattle.std.specs.Prelude.{◌≡◌, ◌+◌, ◌≤◌, map, length, replicate, Some, None, IfOk};
ghost use Rattle.module_tree.specs.ModuleView.{limits_view};
ghost use Rattle.module_tree.specs.Modules.{module_view};
ghost use Rattle.spec_modules.specs.Memory.{written};
ghost use Rattle.spec_typing.specs.Linking.{IsLinked};
ghost use Rattle.spec_execution.specs.Configuration.{size_of, fresh};

use crate::expressions::{bits, constant_of};
use crate::table::Table;
use module_tree::module::Module;
use std::alloc::{AllocError, Allocator};
use wtypes::{HostCall, Limits};

// The elements before the segments are in place.
fn empty_elements<A: Allocator>(
    alloc: A,
    tables: &[Limits],
) -> Result<Vec<Option<u32>, A>, AllocError>
    ensures { IfOk result (λ t. t.items ≡ replicate (size_of (map limits_view tables.now)) None) }
{
    if tables.is_empty() {
        return Ok(Vec::new(alloc));
    }
    vec![in alloc; None; tables[0].min as usize]
}

// Puts functions into the elements from this one on.
fn put_functions<A: Allocator>(table: &mut Vec<Option<u32>, A>, at: usize, funcs: &[u32])
    requires { at + length funcs.now ≤ length table.old.items }
    ensures { table.new.items ≡ written at (map Some funcs.now) table.old.items }
{
    for i in 0..funcs.len() {
        table[at + i] = Some(funcs[i]);
    }
}

// The elements, with the segments in place.
fn whole_table<A: Allocator + Clone>(
    alloc: &A,
    tree: &Module<A>,
    hosts: &[HostCall],
) -> Result<Vec<Option<u32>, A>, AllocError>
    requires { IsLinked (module_view tree.now) hosts.now }
    ensures { IfOk result (λ t. t.items ≡ (fresh (module_view tree.now)).table) }
{
    let mut table = empty_elements(alloc.clone()?, &tree.tables)?;
    for segment in &tree.elements {
        let at = bits(constant_of(&segment.offset)) as usize;
        put_functions(&mut table, at, &segment.funcs);
    }
    Ok(table)
}

/// The table of a module, with the element segments in place, which is linked to these host calls. All of its elements are made
/// for the moment alone in which those that are not empty are told.
pub fn first_table<A: Allocator + Clone>(
    alloc: &A,
    tree: &Module<A>,
    hosts: &[HostCall],
) -> Result<Table<A>, AllocError>
    requires { IsLinked (module_view tree.now) hosts.now }
    ensures { IfOk result (λ t. t ≡ (fresh (module_view tree.now)).table) }
{
    let whole = whole_table(alloc, tree, hosts)?;
    Table::of_elements(alloc.clone()?, &whole)
}
