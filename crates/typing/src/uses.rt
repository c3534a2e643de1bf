// The rules of globals, segments, the start function and exports.

ghost use Rattle.std.specs.Prelude.{◌≡◌, ◌||◌, ℕ, nat_lt, map, length, is_none, not, List, [], Some, IfOk, OnOk};
ghost use Rattle.std.specs.List.{list_all};
ghost use Rattle.std.specs.Str.{bytes_eq};
ghost use Rattle.spec_modules.specs.Syntax as syntax;
ghost use Rattle.module_tree.specs.View.{instrs_view};
ghost use Rattle.module_tree.specs.ModuleView.{func_type_view, global_type_view, global_view, element_view, data_view, export_view, export_desc_view};
ghost use Rattle.typing.specs.Names.{has_name};
ghost use Rattle.typing.specs.Tests;
ghost use Rattle.typing.specs.Tests.{constant_passes, global_passes, element_passes, data_passes, start_passes, export_passes, exports_pass};

use crate::rules::Fault;
use body_typing::operators::type_of;
use body_typing::rule::Rule;
use body_typing::spaces::Spaces;
use module_tree::instr::Instr;
use module_tree::lone::lone_plain;
use module_tree::module::{DataSegment, Element, Export, ExportDesc, Global, GlobalType};
use spec_modules::same_type;
use std::alloc::{AllocError, Allocator};
use std::collections::BTreeSet;
use wtypes::{FuncType, PlainInstr, ValType};

// Whether the instruction alone is a constant expression of this type.
fn is_constant_op(imported: &[GlobalType], op: PlainInstr, t: ValType) -> bool
    ensures { result ≡ constant_passes (map global_type_view imported.now) (syntax.seq (syntax.Plain op) syntax.nothing) t }
{
    match op {
        PlainInstr::Const(v) => same_type(type_of(v), t),
        PlainInstr::GlobalGet(index) => match imported.get(index as usize) {
            None => false,
            Some(g) => same_type(g.value_type, t) && !g.is_mutable,
        },
        _ => false,
    }
}

// Whether this is a constant expression of this type.
fn is_constant<A: Allocator>(imported: &[GlobalType], init: &Vec<Instr<A>, A>, t: ValType) -> bool
    ensures { result ≡ constant_passes (map global_type_view imported.now) (instrs_view init.now.items) t }
{
    match lone_plain(init) {
        None => false,
        Some(op) => is_constant_op(imported, op, t),
    }
}

/// The first global whose expression is not constant or of another type.
pub fn global_fault<A: Allocator>(
    imported: &[GlobalType],
    globals: &Vec<Global<A>, A>,
) -> Option<Fault>
    ensures { is_none result ≡ list_all (global_passes (map global_type_view imported.now)) (map global_view globals.now.items) }
{
    let mut place: u32 = 0;
    for g in globals {
        if !is_constant(imported, &g.init, g.global_type.value_type) {
            return Some(Fault {
                place,
                rule: Rule::GlobalInit,
            });
        }
        place = place.saturating_add(1);
    }
    None
}

// Whether these are numbers of functions, of which there are so many.
fn all_there<A: Allocator>(numbers: &Vec<u32, A>, funcs: usize) -> bool
    ensures { result ≡ list_all (λ f. nat_lt f funcs) numbers.now.items }
{
    for f in numbers {
        if *f as usize >= funcs {
            return false;
        }
    }
    true
}

fn element_fits<A: Allocator>(
    tables: usize,
    funcs: usize,
    imported: &[GlobalType],
    element: &Element<A>,
) -> bool
    ensures { result ≡ element_passes tables funcs (map global_type_view imported.now) (element_view element.now) }
{
    (element.table as usize) < tables
        && (is_constant(imported, &element.offset, ValType::I32)
            && all_there(&element.funcs, funcs))
}

/// The first element segment without its table, its functions or a constant offset, in a module of so many tables and
/// functions.
pub fn element_fault<A: Allocator>(
    tables: usize,
    funcs: usize,
    imported: &[GlobalType],
    elements: &Vec<Element<A>, A>,
) -> Option<Fault>
    ensures { is_none result ≡ list_all (element_passes tables funcs (map global_type_view imported.now)) (map element_view elements.now.items) }
{
    let mut place: u32 = 0;
    for element in elements {
        if !element_fits(tables, funcs, imported, element) {
            return Some(Fault {
                place,
                rule: Rule::ElementSegment,
            });
        }
        place = place.saturating_add(1);
    }
    None
}

fn data_fits<A: Allocator>(
    memories: usize,
    imported: &[GlobalType],
    segment: &DataSegment<A>,
) -> bool
    ensures { result ≡ data_passes memories (map global_type_view imported.now) (data_view segment.now) }
{
    (segment.memory as usize) < memories && is_constant(imported, &segment.offset, ValType::I32)
}

/// The first data segment without its memory or a constant offset, in a module of so many memories.
pub fn data_fault<A: Allocator>(
    memories: usize,
    imported: &[GlobalType],
    datas: &Vec<DataSegment<A>, A>,
) -> Option<Fault>
    ensures { is_none result ≡ list_all (data_passes memories (map global_type_view imported.now)) (map data_view datas.now.items) }
{
    let mut place: u32 = 0;
    for segment in datas {
        if !data_fits(memories, imported, segment) {
            return Some(Fault {
                place,
                rule: Rule::DataSegment,
            });
        }
        place = place.saturating_add(1);
    }
    None
}

fn takes_nothing<A: Allocator>(own: &FuncType<A>) -> bool
    ensures { result ≡ Tests.takes_nothing (Some (func_type_view own.now)) }
{
    own.params.is_empty() && own.results.is_empty()
}

/// Whether the start function is not there or not of type `[] -> []`.
pub fn start_fault<A: Allocator, W: Allocator>(
    types: &Vec<FuncType<A>, A>,
    funcs: &Vec<u32, W>,
    start: Option<u32>,
) -> Option<Fault>
    ensures { is_none result ≡ start_passes (map func_type_view types.now.items) funcs.now.items start }
{
    let fault = Some(Fault {
        place: 0,
        rule: Rule::StartFunction,
    });
    let Some(func) = start else {
        return None;
    };
    match funcs.get(func as usize) {
        None => fault,
        Some(index) => match types.get(*index as usize) {
            None => fault,
            Some(own) => { if takes_nothing(own) { None } else { fault } }
        },
    }
}

fn is_there<W: Allocator>(spaces: &Spaces<W>, desc: ExportDesc) -> bool
    ensures { result ≡ export_passes (length spaces.now.funcs.items) (length spaces.now.tables.items) (length spaces.now.memories.items) (length spaces.now.globals.items) (export_desc_view desc) }
{
    match desc {
        ExportDesc::Func(index) => (index as usize) < spaces.funcs.len(),
        ExportDesc::Table(index) => (index as usize) < spaces.tables.len(),
        ExportDesc::Memory(index) => (index as usize) < spaces.memories.len(),
        ExportDesc::Global(index) => (index as usize) < spaces.globals.len(),
    }
}

// Adds a name to those before it. Answers whether it is none of these.
fn add_name<'n, W: Allocator + Clone>(
    names: &mut BTreeSet<&'n str, W>,
    name: &'n str,
) -> Result<bool, AllocError>
    ensures is_new { IfOk result (λ is_new. is_new ≡ not (has_name names.old name.now)) }
    ensures names { OnOk result ((n : List ℕ) → has_name names.new n ≡ (bytes_eq name.now n || has_name names.old n)) }
{
    let is_new = names.insert(name)?;
    Ok(is_new)
}

/// The first export with the name of an earlier one, or of an index that is not there. The set of the names is from
/// `alloc`.
pub fn export_fault<A: Allocator, W: Allocator + Clone>(
    alloc: &W,
    spaces: &Spaces<W>,
    exports: &Vec<Export<A>, A>,
) -> Result<Option<Fault>, AllocError>
    ensures { IfOk result (λ fault. is_none fault ≡ exports_pass (export_passes (length spaces.now.funcs.items) (length spaces.now.tables.items) (length spaces.now.memories.items) (length spaces.now.globals.items)) [] (map export_view exports.now.items)) }
{
    let mut names: BTreeSet<&str, W> = BTreeSet::new(alloc.clone()?);
    let mut place: u32 = 0;
    for export in exports {
        let is_new = add_name(&mut names, export.name.as_str())?;
        if !is_new {
            return Ok(Some(Fault {
                place,
                rule: Rule::ExportName,
            }));
        }
        if !is_there(spaces, export.desc) {
            return Ok(Some(Fault {
                place,
                rule: Rule::ExportIndex,
            }));
        }
        place = place.saturating_add(1);
    }
    Ok(None)
}
