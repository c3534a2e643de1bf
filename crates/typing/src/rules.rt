// The rules of types, imports, limits and functions' types.

ghost use Rattle.std.specs.Prelude.{◌≡◌, ◌<◌, not, ◌&&◌, map, length, is_none, is_ok, IfOk, false};
ghost use Rattle.std.specs.List.{list_all};
ghost use Rattle.module_tree.specs.ModuleView.{func_type_view, limits_view, import_desc_view, import_view, func_view};
ghost use Rattle.typing.specs.Tests.{type_passes, max_within, table_passes, memory_passes, at_most_one, with_table, with_memory, import_passes, imports_pass, any_table, any_memory, func_passes};

use body_typing::rule::Rule;
use module_tree::module::{Func, Import, ImportDesc};
use std::alloc::Allocator;
use thiserror::Error;
use wtypes::{FuncType, Limits};

/// The most pages that a memory may have (Core Specification, 3.2.4 Memory Types).
pub const MOST_PAGES: u32 = 65536;

/// A fault outside bodies: its place in the module's own list, and the rule.
#[derive(Clone, Copy, Debug, PartialEq, Eq, Error)]
#[error("{rule}, at {place}")]
pub struct Fault {
    /// The place, from 0.
    pub place: u32,
    /// The rule.
    pub rule: Rule,
}

/// What imports have brought so far.
#[derive(Clone, Copy)]
pub struct Seen {
    /// Whether there is a table.
    pub table: bool,
    /// Whether there is a memory.
    pub memory: bool,
}

impl Seen {
    fn with(self, desc: ImportDesc) -> Seen
        ensures table { result.table ≡ with_table self.table (import_desc_view desc) }
        ensures memory { result.memory ≡ with_memory self.memory (import_desc_view desc) }
    {
        match desc {
            ImportDesc::Func(_) => self,
            ImportDesc::Table(_) => Seen {
                table: true,
                memory: self.memory,
            },
            ImportDesc::Memory(_) => Seen {
                table: self.table,
                memory: true,
            },
            ImportDesc::Global(_) => self,
        }
    }
}

/// The first type with more than one result.
pub fn type_fault<A: Allocator>(types: &Vec<FuncType<A>, A>) -> Option<Fault>
    ensures { is_none result ≡ list_all type_passes (map func_type_view types.now.items) }
{
    let mut place: u32 = 0;
    for t in types {
        if t.results.len() > 1 {
            return Some(Fault {
                place,
                rule: Rule::SeveralResults,
            });
        }
        place = place.saturating_add(1);
    }
    None
}

fn table_fits(limits: Limits) -> bool
    ensures { result ≡ table_passes (limits_view limits) }
{
    match limits.max {
        None => true,
        Some(max) => limits.min <= max,
    }
}

fn is_within(max: Option<u32>) -> bool
    ensures { result ≡ max_within 65536 max }
{
    match max {
        None => true,
        Some(max) => max <= MOST_PAGES,
    }
}

fn memory_fits(limits: Limits) -> bool
    ensures { result ≡ memory_passes (limits_view limits) }
{
    table_fits(limits) && (limits.min <= MOST_PAGES && is_within(limits.max))
}

// The fault of a table or a memory: one is there before, or its limits do not fit.
fn limits_fault(there: bool, fits: bool, place: u32) -> Option<Fault>
    ensures { is_none result ≡ (not there && fits) }
{
    if there {
        return Some(Fault {
            place,
            rule: Rule::SecondOne,
        });
    }
    if fits {
        None
    } else {
        Some(Fault {
            place,
            rule: Rule::SizeLimits,
        })
    }
}

// The fault of an import in a module of so many types.
fn import_fault(types: usize, seen: Seen, desc: ImportDesc, place: u32) -> Option<Fault>
    ensures { is_none result ≡ import_passes types seen.table seen.memory (import_desc_view desc) }
{
    match desc {
        ImportDesc::Func(index) => {
            if (index as usize) < types {
                None
            } else {
                Some(Fault {
                    place,
                    rule: Rule::TypeIndex,
                })
            }
        }
        ImportDesc::Table(limits) => limits_fault(seen.table, table_fits(limits), place),
        ImportDesc::Memory(limits) => limits_fault(seen.memory, memory_fits(limits), place),
        ImportDesc::Global(_) => None,
    }
}

/// Checks the imports of a module of so many types, and tells what they bring.
pub fn check_imports<A: Allocator>(types: usize, imports: &Vec<Import<A>, A>) -> Result<Seen, Fault>
    ensures judged { is_ok result ≡ imports_pass types false false (map import_view imports.now.items) }
    ensures table { IfOk result (λ s. s.table ≡ any_table false (map import_view imports.now.items)) }
    ensures memory { IfOk result (λ s. s.memory ≡ any_memory false (map import_view imports.now.items)) }
{
    let mut seen = Seen {
        table: false,
        memory: false,
    };
    let mut place: u32 = 0;
    for import in imports {
        if let Some(fault) = import_fault(types, seen, import.desc, place) {
            return Err(fault);
        }
        seen = seen.with(import.desc);
        place = place.saturating_add(1);
    }
    Ok(seen)
}

/// The first function whose type is none of so many.
pub fn func_fault<A: Allocator>(types: usize, funcs: &Vec<Func<A>, A>) -> Option<Fault>
    ensures { is_none result ≡ list_all (func_passes types) (map func_view funcs.now.items) }
{
    let mut place: u32 = 0;
    for f in funcs {
        if f.type_index as usize >= types {
            return Some(Fault {
                place,
                rule: Rule::TypeIndex,
            });
        }
        place = place.saturating_add(1);
    }
    None
}

/// The first table that is one too many or whose limits do not fit.
pub fn table_fault<A: Allocator>(there: bool, tables: &Vec<Limits, A>) -> Option<Fault>
    ensures { is_none result ≡ at_most_one table_passes there (map limits_view tables.now.items) }
{
    let mut before = there;
    let mut place: u32 = 0;
    for limits in tables {
        if let Some(fault) = limits_fault(before, table_fits(*limits), place) {
            return Some(fault);
        }
        before = true;
        place = place.saturating_add(1);
    }
    None
}

/// The first memory that is one too many or whose limits do not fit.
pub fn memory_fault<A: Allocator>(there: bool, memories: &Vec<Limits, A>) -> Option<Fault>
    ensures { is_none result ≡ at_most_one memory_passes there (map limits_view memories.now.items) }
{
    let mut before = there;
    let mut place: u32 = 0;
    for limits in memories {
        if let Some(fault) = limits_fault(before, memory_fits(*limits), place) {
            return Some(fault);
        }
        before = true;
        place = place.saturating_add(1);
    }
    None
}
