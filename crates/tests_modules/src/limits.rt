ghost use Rattle.std.specs.Prelude.{◌≡◌, true, map, IfOk};
ghost use Rattle.spec_modules.specs.Limits.{counts_from};
ghost use Rattle.module_tree.specs.View.{ordinals};
ghost use Rattle.module_tree.specs.ModuleView.{all_numbered, func_ordinals, data_ordinals};

use crate::assertions::equal;
use assembler::{BuildFault, Lists, build_module};
use module_tree::instr::Instr;
use module_tree::module::{DataSegment, Func};
use std::alloc::Global;
use std::process::Abort;
use std::test::Fail;
use wtypes::ValType;

type Body = Vec<Instr<Global>, Global>;

// How a module of these functions and data segments alone is refused.
fn refusal(
    a: Global,
    funcs: Vec<Func<Global>, Global>,
    datas: Vec<DataSegment<Global>, Global>,
) -> Option<BuildFault>
    requires funcs { all_numbered (map func_ordinals funcs.items) ≡ true }
    requires datas { all_numbered (map data_ordinals datas.items) ≡ true }
{
    let lists = Lists {
        types: Vec::new(a),
        imports: Vec::new(a),
        funcs,
        tables: Vec::new(a),
        memories: Vec::new(a),
        globals: Vec::new(a),
        exports: Vec::new(a),
        start: None,
        elements: Vec::new(a),
        datas,
    };
    match build_module(lists) {
        Ok(_module) => None,
        Err(refused) => Some(refused),
    }
}

// How a module of one function is refused.
fn refusal_of_body(
    a: Global,
    locals: Vec<ValType, Global>,
    body: Body,
) -> Result<Option<BuildFault>, Fail>
    requires numbered { counts_from 0 (ordinals body.items) ≡ true }
{
    let mut funcs = Vec::new(a);
    funcs.push(Func {
        type_index: 0,
        locals,
        body,
    })?;
    Ok(refusal(a, funcs, Vec::new(a)))
}

// So many functions that do nothing.
fn empty_funcs(a: Global, count: u32) -> Result<Vec<Func<Global>, Global>, Fail>
    ensures numbered { IfOk result (λ v. all_numbered (map func_ordinals v.items) ≡ true) }
{
    let mut funcs = Vec::new(a);
    for _ in 0..count {
        funcs.push(Func {
            type_index: 0,
            locals: Vec::new(a),
            body: Vec::new(a),
        })?;
    }
    Ok(funcs)
}

// So many blocks in one another.
fn nested(a: Global, levels: u32) -> Result<Body, Fail>
    ensures numbered { IfOk result (λ v. counts_from 0 (ordinals v.items) ≡ true) }
{
    let mut body: Body = Vec::new(a);
    let mut ordinal = levels;
    while ordinal > 0 {
        ordinal -= 1;
        let mut outer = Vec::new(a);
        outer.push(Instr::Block(ordinal, None, body))?;
        body = outer;
    }
    Ok(body)
}

// How a body of one `br_table` with so many labels is refused.
fn refusal_of_table(a: Global, count: u32) -> Result<Option<BuildFault>, Fail> {
    let mut labels: Vec<u32, Global> = Vec::new(a);
    for _ in 0..count {
        labels.push(0)?;
    }
    let mut body = Vec::new(a);
    body.push(Instr::BrTable(0, labels, 0))?;
    refusal_of_body(a, Vec::new(a), body)
}

// How a function of so many locals is refused.
fn refusal_of_locals(a: Global, count: u32) -> Result<Option<BuildFault>, Fail> {
    let mut locals = Vec::new(a);
    for _ in 0..count {
        locals.push(ValType::I64)?;
    }
    refusal_of_body(a, locals, Vec::new(a))
}

// How a data segment of so many bytes is refused.
fn refusal_of_data(a: Global, count: u32) -> Result<Option<BuildFault>, Fail> {
    let mut bytes: Vec<u8, Global> = Vec::new(a);
    for _ in 0..count {
        bytes.push(7)?;
    }
    let mut datas = Vec::new(a);
    datas.push(DataSegment {
        memory: 0,
        offset: Vec::new(a),
        bytes,
    })?;
    Ok(refusal(a, Vec::new(a), datas))
}

fn refusal_of_funcs(a: Global, count: u32) -> Result<Option<BuildFault>, Fail> {
    let funcs = empty_funcs(a, count)?;
    Ok(refusal(a, funcs, Vec::new(a)))
}

fn refusal_of_nesting(a: Global, levels: u32) -> Result<Option<BuildFault>, Fail> {
    let body = nested(a, levels)?;
    refusal_of_body(a, Vec::new(a), body)
}

/// What is limited.
#[derive(Clone, Copy, Debug)]
enum Limit {
    Functions,
    Locals,
    Levels,
    Labels,
    Bytes,
}

// How a module with so many of these is refused.
fn refusal_at(a: Global, limit: Limit, count: u32) -> Result<Option<BuildFault>, Fail> {
    match limit {
        Limit::Functions => refusal_of_funcs(a, count),
        Limit::Locals => refusal_of_locals(a, count),
        Limit::Levels => refusal_of_nesting(a, count),
        Limit::Labels => refusal_of_table(a, count),
        Limit::Bytes => refusal_of_data(a, count),
    }
}

/// What is limited, a count of these, and how a module with so many is refused.
type Row = (Limit, u32, Option<BuildFault>);

fn refuses(rt: &impl Abort, a: Global, rows: &[Row]) -> Result<(), Fail> {
    for (limit, count, wanted) in rows {
        let found = refusal_at(a, *limit, *count)?;
        equal(rt, &(count, limit), &found, wanted);
    }
    Ok(())
}

const EXACTLY: &[Row] = &[
    (Limit::Functions, 4096, None),
    (Limit::Functions, 4097, Some(BuildFault::TooLarge)),
    (Limit::Locals, 1024, None),
    (Limit::Locals, 1025, Some(BuildFault::TooLarge)),
    (Limit::Levels, 128, None),
    (Limit::Levels, 129, Some(BuildFault::TooLarge)),
    (Limit::Labels, 1024, None),
    (Limit::Labels, 1025, Some(BuildFault::TooLarge)),
];

#[test]
fn each_limit_is_met_exactly(rt: HostRuntime) -> Result<(), Fail> {
    refuses(&rt, rt.alloc(), EXACTLY)
}

// The spelling has 18 bytes beside those of the segment.
const SIZES: &[Row] = &[
    (Limit::Bytes, 1_048_576 - 18, None),
    (Limit::Bytes, 1_048_576 - 17, Some(BuildFault::TooLarge)),
];

#[test]
fn bytes_are_those_of_the_shortest_spelling(rt: HostRuntime) -> Result<(), Fail> {
    refuses(&rt, rt.alloc(), SIZES)
}

const DEEP: &[Row] = &[(Limit::Levels, 5_000, Some(BuildFault::TooLarge))];

#[test]
fn deep_trees_are_judged(rt: HostRuntime) -> Result<(), Fail> {
    refuses(&rt, rt.alloc(), DEEP)
}
