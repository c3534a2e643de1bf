// The places of segments.

ghost use Rattle.std.specs.Prelude.{◌≡◌, ◌+◌, nat_le, map, Some};
ghost use Rattle.std.specs.List.{list_all};
ghost use Rattle.spec_modules.specs.Syntax as syntax;
ghost use Rattle.spec_typing.specs.Linking;
ghost use Rattle.module_tree.specs.View.{instrs_view};
ghost use Rattle.module_tree.specs.ModuleView.{limits_view, element_view, data_view};
ghost use Rattle.link.specs.Tests;
ghost use Rattle.link.specs.Tests.{first_fault, is_within};

use module_tree::instr::Instr;
use module_tree::lone::lone_plain;
use module_tree::module::{DataSegment, Element};
use std::alloc::Allocator;
use wtypes::{Limits, PlainInstr, Value};

fn const_number(op: PlainInstr) -> Option<u32>
    ensures { result ≡ Linking.offset_number (syntax.seq (syntax.Plain op) syntax.nothing) }
{
    match op {
        PlainInstr::Const(Value::I32(n)) => Some(n.cast_unsigned()),
        _ => None,
    }
}

/// The number of an offset.
pub fn offset_number<A: Allocator>(offset: &Vec<Instr<A>, A>) -> Option<u32>
    ensures { result ≡ Linking.offset_number (instrs_view offset.now.items) }
{
    match lone_plain(offset) {
        Some(op) => const_number(op),
        None => None,
    }
}

fn ends_within(at: u32, count: usize, size: u64) -> bool
    ensures { result ≡ nat_le (at + count) size }
{
    let count = count as u64;
    count <= size && u64::from(at) <= size - count
}

fn element_fits<A: Allocator>(tables: &Vec<Limits, A>, element: &Element<A>) -> bool
    ensures { result ≡ Tests.element_fits (map limits_view tables.now.items) (element_view element.now) }
{
    match (
        offset_number(&element.offset),
        tables.get(element.table as usize),
    ) {
        (Some(at), Some(limits)) => { ends_within(at, element.funcs.len(), u64::from(limits.min)) }
        _ => false,
    }
}

fn data_fits<A: Allocator>(memories: &Vec<Limits, A>, segment: &DataSegment<A>) -> bool
    ensures { result ≡ Tests.data_fits (map limits_view memories.now.items) (data_view segment.now) }
{
    match (
        offset_number(&segment.offset),
        memories.get(segment.memory as usize),
    ) {
        (Some(at), Some(limits)) => {
            ends_within(at, segment.bytes.len(), u64::from(limits.min) * 65536)
        }
        _ => false,
    }
}

/// The first element segment out of range.
pub fn element_fault<A: Allocator>(
    tables: &Vec<Limits, A>,
    elements: &Vec<Element<A>, A>,
) -> Option<usize>
    ensures { result ≡ first_fault (Tests.element_fits (map limits_view tables.now.items)) 0 (map element_view elements.now.items) }
{
    for i in 0..elements.len() {
        if !element_fits(tables, &elements[i]) {
            return Some(i);
        }
    }
    None
}

/// The first data segment out of range.
pub fn data_fault<A: Allocator>(
    memories: &Vec<Limits, A>,
    datas: &Vec<DataSegment<A>, A>,
) -> Option<usize>
    ensures { result ≡ first_fault (Tests.data_fits (map limits_view memories.now.items)) 0 (map data_view datas.now.items) }
{
    for i in 0..datas.len() {
        if !data_fits(memories, &datas[i]) {
            return Some(i);
        }
    }
    None
}

/// Whether none of these begins larger than `most`.
pub fn all_within<A: Allocator>(all: &Vec<Limits, A>, most: u32) -> bool
    ensures { result ≡ list_all (is_within most) (map limits_view all.now.items) }
{
    for limits in all {
        if limits.min > most {
            return false;
        }
    }
    true
}
