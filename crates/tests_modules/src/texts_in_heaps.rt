use crate::assertions::{equal, holds};
use lexer::{LexRefusal, TextRefusal, tokens};
use linked_list_allocator::LocalHeap;
use std::alloc::{Allocator, Global};
use std::test::Fail;
use text_tree::parse;

// Each kind of field, with names, strings and instructions that take memory.
const TEXT: &str =
    "(module (type $t (func (param i64) (result i64))) (import \"host\" \"add\" (func (type $t)))
(import \"host\" \"total\" (global i64)) (func $f (export \"one\") (export \"two\") (type $t) (local i32)
(block (br_table 0 0 0 (i32.const 1))) (call_indirect (param i64) (result i64) (local.get 0) (i32.const 0)))
(table 1 funcref) (memory 1 2) (global (mut i32) i32.const 0) (export \"memory\" (memory 0))
(elem 0 (offset i32.const 0) $f $f) (data 0 (offset (i32.const 0)) \"some\" \"bytes\"))";

// How a text was read.
#[derive(Clone, Copy, Debug, PartialEq, Eq)]
enum Outcome {
    Fields(usize),
    Full,
    Refused,
}

// How the text is read in this allocator.
fn read_in<A: Allocator + Clone>(alloc: &A, text: &str) -> Result<Outcome, Fail> {
    let tokens = match tokens(alloc.clone()?, text) {
        Ok(tokens) => tokens,
        Err(LexRefusal::NoMemory) => return Ok(Outcome::Full),
        Err(_) => return Ok(Outcome::Refused),
    };
    match parse(alloc, text, &tokens) {
        Ok(tree) => Ok(Outcome::Fields(tree.fields.len())),
        Err(TextRefusal::NoMemory) => Ok(Outcome::Full),
        Err(_) => Ok(Outcome::Refused),
    }
}

// How the text is read in a heap of this size.
fn read_in_heap(a: Global, size: usize) -> Result<Outcome, Fail> {
    let heap = LocalHeap::new(a, size)?;
    read_in(&&heap, TEXT)
}

#[test]
fn heaps_that_are_too_small(rt: HostRuntime) -> Result<(), Fail> {
    equal(
        &rt,
        &"no bound",
        &read_in(&rt.alloc(), TEXT)?,
        &Outcome::Fields(10),
    );
    let mut full = 0u32;
    let mut read = 0u32;
    for step in 1..160usize {
        let found = read_in_heap(rt.alloc(), step * 256)?;
        if found == Outcome::Full {
            equal(&rt, &("read in less than", step), &read, &0);
            full = full.saturating_add(1);
        } else {
            equal(&rt, &("read in", step), &found, &Outcome::Fields(10));
            read = read.saturating_add(1);
        }
    }
    holds(&rt, &("full", full, "read", read), full > 10 && read > 10);
    Ok(())
}
