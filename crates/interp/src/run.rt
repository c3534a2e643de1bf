// The fields of a machine, and what waits around its innermost level.

use crate::turns::Status;
use call::Call;
use interp_state::callee::Callee;
use interp_state::parts::Parts;
use interp_state::waiting::Waiting;
use link::deployed::Deployed;
use spec_ledger::{TraceStep, Version};
use std::alloc::Allocator;

// A level that waits for the one that it has asked for.
#[derive(Drop)]
pub(crate) struct Level<'a, A: Allocator + Copy> {
    pub(crate) lent: Callee<'a, A>,
    // What it was asked for with. The outer level has the call's arguments.
    pub(crate) argument: Option<i64>,
    pub(crate) parts: Parts<'a, A>,
    pub(crate) waiting: Option<Waiting<'a, A>>,
    // The number of the import that is called.
    pub(crate) asked: u32,
    // What `answer` gives.
    pub(crate) answer: i64,
}

// The fields of a machine: of the call, of the innermost level, and the levels around it, the outer one first.
#[derive(Drop)]
pub(crate) struct Run<'a, A: Allocator + Copy> {
    pub(crate) alloc: A,
    pub(crate) contracts: &'a [Deployed<A>],
    pub(crate) version: Version,
    pub(crate) call: &'a Call,
    pub(crate) deployed: &'a Deployed<A>,
    pub(crate) func: u32,
    pub(crate) trace: Vec<TraceStep, A>,
    pub(crate) used: u64,
    pub(crate) entered: u32,
    pub(crate) status: Status,
    pub(crate) lent: Callee<'a, A>,
    pub(crate) argument: Option<i64>,
    pub(crate) parts: Parts<'a, A>,
    pub(crate) waiting: Option<Waiting<'a, A>>,
    pub(crate) asked: u32,
    pub(crate) answer: i64,
    pub(crate) outer: Vec<Level<'a, A>, A>,
}
