// Locals as maximal runs of one type (Core Specification, 5.5.13 Code Section).
ghost use Rattle.std.specs.Prelude.{◌≡◌, ◌+◌, ◌≤◌, ◌++◌, ◌∷◌, List, length, take, drop, OnOk};
ghost use Rattle.spec_modules.specs.Shortest.{same_type, maximal_runs, local_run_bytes, run_bytes, vector_bytes};

use crate::bytes::{put_byte, put_count};
use crate::opcodes::type_code;
use std::alloc::{AllocError, Allocator};
use wtypes::ValType;

fn is_same(a: ValType, b: ValType) -> bool
    ensures { result ≡ same_type a b }
{
    match (a, b) {
        (ValType::I32, ValType::I32) => true,
        (ValType::I64, ValType::I64) => true,
        _ => false,
    }
}

// How many of these go on with the run that `first` begins.
fn more_of(first: ValType, rest: &[ValType]) -> usize
    ensures run { maximal_runs (first ∷ rest.now) ≡ (result + 1, first) ∷ maximal_runs (drop result rest.now) }
    ensures few { result ≤ length rest.now }
{
    let Some((next, others)) = rest.split_first() else {
        return 0;
    };
    if !is_same(first, *next) {
        return 0;
    }
    more_of(first, others) + 1
}

fn count_runs(locals: &[ValType]) -> usize
    ensures count { result ≡ length (maximal_runs locals.now) }
    ensures few { result ≤ length locals.now }
{
    let Some((first, rest)) = locals.split_first() else {
        return 0;
    };
    count_runs(&rest[more_of(*first, rest)..]) + 1
}

fn put_runs<B: Allocator>(out: &mut Vec<u8, B>, locals: &[ValType]) -> Result<(), AllocError>
    ensures bytes { OnOk result (out.new.items ≡ out.old.items ++ run_bytes local_run_bytes (maximal_runs locals.now)) }
    ensures front { take (length out.old.items) out.new.items ≡ out.old.items }
{
    let Some((first, rest)) = locals.split_first() else {
        return Ok(());
    };
    let more = more_of(*first, rest);
    put_count(out, more + 1)?;
    put_byte(out, type_code(*first))?;
    put_runs(out, &rest[more..])
}

pub(crate) fn put_locals<B: Allocator>(
    out: &mut Vec<u8, B>,
    locals: &[ValType],
) -> Result<(), AllocError>
    ensures bytes { OnOk result
        (out.new.items ≡ out.old.items ++ vector_bytes local_run_bytes (maximal_runs locals.now)) }
    ensures front { take (length out.old.items) out.new.items ≡ out.old.items }
{
    put_count(out, count_runs(locals))?;
    put_runs(out, locals)
}
