// Every block of memory that a call asks for, refused in turn: alone, and with all that are asked for after it. The answer is out of
// memory, or the one without a refusal, and what was lent is as it was. Which of the two it is has no clause.
ghost use Rattle.std.specs.Prelude.{◌≡◌, IfOk};

use crate::assertions::holds;
use assembler::{AsmRefusal, assemble};
use block::{Block, BlockRefusal, read_block, write_block};
use body_typing::scope::TypeRefusal;
use byte_sinks::{Failures, MemorySink};
use call::Call;
use debugger::Place;
use debugger::session::{Refusal, Session};
use encoder::encode;
use interp::start::StartRefusal;
use lexer::{LexRefusal, tokens};
use link::deploy::deploy;
use link::refusal::LinkRefusal;
use loader::{LoadRefusal, load};
use module_tree::module::Module;
use serial::run;
use spec_ledger::Kind::{self, Counter, Map};
use spec_ledger::{Lock, Version};
use std::alloc::{Allocator, Global};
use std::process::Abort;
use std::test::Fail;
use storage::Cells;
use test_support::{EXAMPLE, PROBING, Ration, typed};
use typing::check::check;
use typing::valid::Valid;
use world::{ReadRefusal, World, encode_world, read_world};
use wtypes::Value::{self, I64};

/// The example contract as text.
const TEXT: &str = r#"(module
 (import "boost" "add" (func $add (param i64) (param i64)))
 (import "boost" "total" (func $total (param i64) (result i64)))
 (import "boost" "get" (func $get (param i64) (result i64)))
 (import "boost" "put" (func $put (param i64) (param i64)))
 (func (export "bump") (param i64) (param i64)
  (call $add (local.get 0) (local.get 1)))
 (func (export "fail") (param i64) (param i64)
  (call $add (local.get 0) (local.get 1)) unreachable)
 (func (export "both") (param i64) (param i64) (result i64)
  (call $add (local.get 0) (local.get 1)) (call $total (local.get 0)))
 (func (export "peek") (param i64)
  (drop (call $get (local.get 0))) unreachable)
 (func (export "set") (param i64) (param i64)
  (call $put (local.get 0) (local.get 1)))
 (func (export "move") (param i64) (param i64)
  (call $put (local.get 1) (call $get (local.get 0)))))"#;

/// `(module (memory 1) (global (mut i64) (i64.const 1)) (func (export "w") (global.set 0 (i64.const 5)) (i32.store8 (i32.const 0)
/// (i32.const 9))))`
const STORER: &[u8] = &[
    0, 97, 115, 109, 1, 0, 0, 0, 1, 4, 1, 96, 0, 0, 3, 2, 1, 0, 5, 3, 1, 0, 1, 6, 6, 1, 126, 1, 66,
    1, 11, 7, 5, 1, 1, 119, 0, 0, 10, 15, 1, 13, 0, 66, 5, 36, 0, 65, 0, 65, 9, 58, 0, 0, 11,
];

/// A cell of contract 0: its kind, its key and its number.
type CellRow = (Kind, u64, u64);

/// The cells of the world that is lent.
const CELLS: &[CellRow] = &[(Map, 1, 10), (Counter, 7, 3)];

/// An entry of contract 0, and its arguments.
type Entry = (&'static str, &'static [Value]);

/// Two calls over the cells that are lent, the bytes of their contract, and the cells after them.
struct Sample {
    module: &'static [u8],
    first: Entry,
    second: Entry,
    after: &'static [CellRow],
}

/// Two calls of the example contract, the first before the second.
const PEEK_THEN_SET: Sample = Sample {
    module: EXAMPLE,
    first: ("peek", &[I64(1)]),
    second: ("set", &[I64(1), I64(9)]),
    after: &[(Map, 1, 9), (Counter, 7, 3)],
};

/// Two calls of a contract that asks itself, with key 7: `both` of `fall`, which is dropped, and of `count`, which is kept; and `probe` of
/// `probe` of `spoil` of `store`, where the third level is dropped and the fourth is kept.
const LEVELS_IN_LEVELS: Sample = Sample {
    module: PROBING,
    first: ("both", &[I64(115_728)]),
    second: ("probe", &[I64(2_081_554_432)]),
    after: &[(Map, 1, 10), (Counter, 7, 4)],
};

/// A cell of contract 0.
fn cell(kind: Kind, key: u64) -> Lock {
    Lock {
        contract: 0,
        kind,
        key,
    }
}

/// The world of the contract of a module and of these cells.
fn world_of<A: Allocator + Copy>(
    alloc: A,
    module: &[u8],
    rows: &[CellRow],
) -> Result<World<A>, Fail> {
    let mut contracts = Vec::new(alloc);
    contracts.push(test_support::deployed(alloc, module)?)?;
    let mut cells = Cells::new(alloc);
    for (kind, key, number) in rows {
        if *number == 0 {
            return Err(Fail::from("a cell of 0"));
        }
        cells.insert(cell(*kind, *key), *number)?;
    }
    Ok(World::new(contracts, cells))
}

/// Whether these are the cells, and no others.
fn are_cells<A: Allocator + Copy>(cells: &Cells<A>, rows: &[CellRow]) -> bool {
    cells.entries().count() == rows.len()
        && rows.iter().all(|(kind, key, number)| cells.get(cell(*kind, *key)) == Some(*number))
}

/// The bytes of a block.
fn written<A: Allocator>(heap: Global, alloc: A, block: &Block<A>) -> Result<Vec<u8>, Fail> {
    if !block.fits_version() {
        return Err(Fail::from("a receipt that is not told"));
    }
    let mut sink = MemorySink::new(heap, 1_000_000, Failures::none());
    write_block(alloc, block, &mut sink).or(Err("not written"))?;
    Ok(sink.into_bytes())
}

/// A call with 100 of fuel.
fn calling(alloc: Global, entry: Entry) -> Result<Call, Fail>
    ensures { IfOk result (λ made. made.fuel ≡ 100) }
{
    let (name, args) = entry;
    match test_support::call(alloc, 0, name, args, 100) {
        Ok(call) => Ok(call),
        Err(_) => Err(Fail::from("no call")),
    }
}

/// The bytes of the block of two calls, one after another.
fn block_bytes(heap: Global, sample: &Sample) -> Result<Vec<u8>, Fail> {
    let world = world_of(heap, sample.module, CELLS)?;
    let first = calling(heap, sample.first)?;
    let calls = [first, calling(heap, sample.second)?];
    match run(heap, &world, &calls, &[0, 1]) {
        Ok((block, _)) => written(heap, heap, &block),
        Err(_) => Err(Fail::from("refused")),
    }
}

/// What asks for memory.
#[derive(Clone, Copy, Debug)]
enum Asked {
    Load,
    Tokens,
    Assemble,
    Check,
    Deploy,
    ReadWorld,
    ReadBlock,
    Debug,
    /// Two calls run one after another.
    Run,
    /// The same with calls that ask.
    RunLevels,
}

/// What comes of it.
#[derive(Clone, Copy)]
enum Came {
    /// What comes of it without a refusal, and what was lent is as it was.
    AsEver,
    /// Out of memory, and what was lent is as it was.
    NoMemory,
    Other,
}

/// The answer of a call that is right, or wrong.
fn answered(is_right: bool) -> Came {
    if is_right { Came::AsEver } else { Came::Other }
}

/// Out of memory, where this is so of what was lent.
fn refused(is_as_it_was: bool) -> Came {
    if is_as_it_was {
        Came::NoMemory
    } else {
        Came::Other
    }
}

/// Whether these bytes spell the module. Not so where memory from `heap` is refused.
fn is_module<A: Allocator>(heap: Global, module: &Module<A>, spelled: &[u8]) -> bool {
    let mut bytes = Vec::new(heap);
    encode(module, &mut bytes).is_ok() && bytes.as_slice() == spelled
}

/// Whether the module is the example contract's.
fn is_example<A: Allocator>(heap: Global, module: &Module<A>) -> bool {
    is_module(heap, module, EXAMPLE)
}

fn load_in<A: Allocator + Copy>(heap: Global, alloc: A) -> Came {
    match load(alloc, EXAMPLE) {
        Ok(module) => answered(is_example(heap, &module)),
        Err(refusal) => refused(refusal == LoadRefusal::NoMemory),
    }
}

fn tokens_in<A: Allocator + Copy>(heap: Global, alloc: A) -> Result<Came, Fail> {
    match tokens(alloc, TEXT) {
        Ok(found) => Ok(answered(found.items.as_slice() == tokens(heap, TEXT)?.items.as_slice())),
        Err(refusal) => Ok(refused(refusal == LexRefusal::NoMemory)),
    }
}

fn assemble_in<A: Allocator + Copy>(heap: Global, alloc: A) -> Came {
    match assemble(alloc, TEXT) {
        Ok(module) => answered(is_example(heap, &module)),
        Err(refusal) => refused(refusal == AsmRefusal::NoMemory),
    }
}

fn checked<A: Allocator + Copy>(heap: Global, alloc: A, tree: Module<Global>) -> Came {
    match check(&alloc, tree) {
        Ok(valid) => answered(is_example(heap, valid.module())),
        Err((tree, TypeRefusal::NoMemory)) => refused(is_example(heap, &tree)),
        Err(_) => Came::Other,
    }
}

// The tree is in another heap.
fn check_in<A: Allocator + Copy>(heap: Global, alloc: A) -> Result<Came, Fail> {
    let tree = load(heap, EXAMPLE)?;
    Ok(checked(heap, alloc, tree))
}

fn deployed<A: Allocator + Copy>(heap: Global, alloc: A, valid: Valid<A>) -> Came {
    match deploy(&alloc, valid) {
        Ok(contract) => answered(is_example(heap, contract.module())),
        Err((valid, LinkRefusal::NoMemory)) => refused(is_example(heap, valid.module())),
        Err(_) => Came::Other,
    }
}

fn deploy_in<A: Allocator + Copy>(heap: Global, lent: A, alloc: A) -> Result<Came, Fail> {
    let valid = typed(lent, EXAMPLE)?;
    Ok(deployed(heap, alloc, valid))
}

/// Whether this is the world of the contract of these bytes and of the cells that are lent.
fn is_lent<A: Allocator + Copy>(heap: Global, world: &World<A>, module: &[u8]) -> bool {
    let contracts = world.contracts();
    let Some(contract) = contracts.first() else {
        return false;
    };
    contracts.len() == 1
        && is_module(heap, contract.module(), module)
        && are_cells(world.cells(), CELLS)
}

/// The bytes of the world of the example contract and of the cells that are lent.
fn lent_bytes(heap: Global) -> Result<Vec<u8>, Fail> {
    let lent = world_of(heap, EXAMPLE, CELLS)?;
    match encode_world(heap, &lent) {
        Ok(bytes) => Ok(bytes),
        Err(_) => Err(Fail::from("no memory")),
    }
}

fn world_read<A: Allocator + Copy>(heap: Global, alloc: A, bytes: &[u8]) -> Came {
    match read_world(alloc, bytes) {
        Ok(world) => answered(is_lent(heap, &world, EXAMPLE)),
        Err(refusal) => refused(refusal == ReadRefusal::NoMemory),
    }
}

fn read_world_in<A: Allocator + Copy>(heap: Global, alloc: A) -> Result<Came, Fail> {
    let bytes = lent_bytes(heap)?;
    Ok(world_read(heap, alloc, &bytes))
}

fn block_read<A: Allocator + Copy>(
    heap: Global,
    lent: A,
    alloc: A,
    bytes: &[u8],
) -> Result<Came, Fail> {
    match read_block(alloc, bytes) {
        Ok(block) => Ok(answered(written(heap, lent, &block)?.as_slice() == bytes)),
        Err(refusal) => Ok(refused(refusal == BlockRefusal::NoMemory)),
    }
}

fn read_block_in<A: Allocator + Copy>(heap: Global, lent: A, alloc: A) -> Result<Came, Fail> {
    let bytes = block_bytes(heap, &PEEK_THEN_SET)?;
    block_read(heap, lent, alloc, &bytes)
}

/// Whether these are the bytes of a block, and these cells are in the world after it.
fn is_right<A: Allocator + Copy>(
    heap: Global,
    lent: A,
    block: &Block<A>,
    next: &World<A>,
    bytes: &[u8],
    after: &[CellRow],
) -> Result<bool, Fail> {
    let is_same = written(heap, lent, block)?.as_slice() == bytes;
    Ok(is_same && are_cells(next.cells(), after))
}

/// Whether two calls that run one after another come to their block and to these cells. None: memory was refused.
fn ran<A: Allocator + Copy>(
    heap: Global,
    lent: A,
    alloc: A,
    world: &World<A>,
    sample: &Sample,
    bytes: &[u8],
) -> Result<Option<bool>, Fail> {
    let first = calling(heap, sample.first)?;
    let calls = [first, calling(heap, sample.second)?];
    match run(alloc, world, &calls, &[0, 1]) {
        Ok((block, next)) => { Ok(Some(is_right(heap, lent, &block, &next, bytes, sample.after)?)) }
        Err(_) => Ok(None),
    }
}

/// What comes of two calls that run one after another.
fn run_in<A: Allocator + Copy>(
    heap: Global,
    lent: A,
    alloc: A,
    sample: &Sample,
) -> Result<Came, Fail> {
    let bytes = block_bytes(heap, sample)?;
    let world = world_of(lent, sample.module, CELLS)?;
    let is_right = ran(heap, lent, alloc, &world, sample, &bytes)?;
    let is_lent = is_lent(heap, &world, sample.module);
    match is_right {
        Some(is_right) => Ok(answered(is_lent && is_right)),
        None => Ok(refused(is_lent)),
    }
}

/// What is asked of a session.
#[derive(Clone, Copy)]
enum Ask {
    Step(u64),
    Back(u64),
    Cont,
    Break,
}

/// What is asked of a session one after another, the turns made after it, and the first byte of memory there.
const ASKS: &[(Ask, u64, u8)] = &[
    (Ask::Step(2), 2, 0),
    (Ask::Break, 2, 0),
    (Ask::Cont, 4, 0),
    (Ask::Step(9), 5, 9),
    (Ask::Back(3), 2, 0),
    (Ask::Step(3), 5, 9),
];

fn goes<A: Allocator + Copy>(session: &mut Session<'_, A>, ask: Ask) -> Result<(), Refusal> {
    match ask {
        Ask::Step(count) => {
            session.step(count)?;
        }
        Ask::Back(count) => {
            session.back(count)?;
        }
        Ask::Cont => {
            session.cont()?;
        }
        Ask::Break => session.break_at(Place {
            contract: 0,
            func: 0,
            ordinal: 4,
        })?,
    }
    Ok(())
}

/// What comes of looking at a session, which has to have made so many turns and to have this first byte of memory.
fn looked_at<A: Allocator + Copy>(session: &Session<'_, A>, turns: u64, byte: u8) -> Came {
    match session.bytes(0, 1) {
        Ok(bytes) => answered(session.turns() == turns && bytes.as_slice() == [byte].as_slice()),
        Err(refusal) => refused(refusal == Refusal::NoMemory),
    }
}

/// What comes of an ask. A session that wants memory is as it was.
fn shown<A: Allocator + Copy>(
    session: &mut Session<'_, A>,
    ask: Ask,
    turns: u64,
    byte: u8,
) -> Came {
    let before = (session.turns(), session.place());
    match goes(session, ask) {
        Ok(()) => looked_at(session, turns, byte),
        Err(refusal) => {
            let is_same = before == (session.turns(), session.place());
            refused(is_same && refusal == Refusal::NoMemory)
        }
    }
}

/// What comes of all asks, up to the first that does not come to what it has to.
fn all_shown<A: Allocator + Copy>(session: &mut Session<'_, A>) -> Came {
    for (ask, turns, byte) in ASKS {
        let came = shown(session, *ask, *turns, *byte);
        if !matches!(came, Came::AsEver) {
            return came;
        }
    }
    Came::AsEver
}

fn debug_in<A: Allocator + Copy>(heap: Global, lent: A, alloc: A) -> Result<Came, Fail> {
    let world = world_of(lent, STORER, &[])?;
    let call = calling(heap, ("w", &[]))?;
    match Session::open(alloc, world.contracts(), world.cells(), &call, Version::Two) {
        Ok(session) => {
            let mut session = session;
            Ok(all_shown(&mut session))
        }
        Err(refusal) => Ok(refused(refusal == StartRefusal::NoMemory)),
    }
}

/// What comes of it with memory from `alloc`, where what it needs beforehand is from `lent`.
fn came_of<A: Allocator + Copy>(
    heap: Global,
    lent: A,
    alloc: A,
    asked: Asked,
) -> Result<Came, Fail> {
    match asked {
        Asked::Load => Ok(load_in(heap, alloc)),
        Asked::Tokens => tokens_in(heap, alloc),
        Asked::Assemble => Ok(assemble_in(heap, alloc)),
        Asked::Check => check_in(heap, alloc),
        Asked::Deploy => deploy_in(heap, lent, alloc),
        Asked::ReadWorld => read_world_in(heap, alloc),
        Asked::ReadBlock => read_block_in(heap, lent, alloc),
        Asked::Run => run_in(heap, lent, alloc, &PEEK_THEN_SET),
        Asked::RunLevels => run_in(heap, lent, alloc, &LEVELS_IN_LEVELS),
        Asked::Debug => debug_in(heap, lent, alloc),
    }
}

/// More blocks of memory than anything here takes.
const AMPLE: u64 = 1_000_000;

/// More than any row's calls take.
const MANY: u64 = 5_000;

/// Which blocks are refused.
#[derive(Clone, Copy, Debug)]
enum Refusing {
    One,
    AllAfter,
}

/// What comes of it where the block after so many is refused, and whether one was.
fn refused_after(
    heap: Global,
    asked: Asked,
    which: Refusing,
    blocks: u64,
) -> Result<(Came, bool), Fail> {
    let ample = Ration::new(heap, AMPLE);
    let ration = match which {
        Refusing::One => Ration::refusing_one(heap, blocks),
        Refusing::AllAfter => Ration::new(heap, blocks),
    };
    let came = came_of(heap, &ample, &ration, asked)?;
    Ok((came, ration.has_refused()))
}

/// Refuses each block in turn, and says how often memory was wanted; or the first number of blocks after which another answer came.
fn refused_in_turn(heap: Global, asked: Asked, which: Refusing) -> Result<Result<u32, u64>, Fail> {
    let mut wanted = 0u32;
    for blocks in 0..MANY {
        match refused_after(heap, asked, which, blocks)? {
            (Came::NoMemory, true) => wanted = wanted.saturating_add(1),
            (Came::AsEver, true) => {}
            (Came::AsEver, false) => return Ok(Ok(wanted)),
            _ => return Ok(Err(blocks)),
        }
    }
    Ok(Err(MANY))
}

/// A call, and the least number of blocks that it wants.
type Row = (Asked, u32);

const ROWS: &[Row] = &[
    (Asked::Load, 10),
    (Asked::Tokens, 1),
    (Asked::Assemble, 10),
    (Asked::Check, 1),
    (Asked::Deploy, 1),
    (Asked::ReadWorld, 10),
    (Asked::ReadBlock, 1),
    (Asked::Run, 10),
    (Asked::RunLevels, 20),
    (Asked::Debug, 10),
];

/// Each block that the calls take is refused in turn.
fn are_refused_in_turn(rt: &impl Abort, heap: Global, rows: &[Row]) -> Result<(), Fail> {
    for (asked, least) in rows {
        for which in [Refusing::One, Refusing::AllAfter] {
            let wanted = refused_in_turn(heap, *asked, which)?;
            let is_right = matches!(wanted, Ok(times) if times >= *least);
            holds(rt, &(*asked, which, wanted), is_right);
        }
    }
    Ok(())
}

#[test]
fn each_block_is_refused_in_turn(rt: HostRuntime) -> Result<(), Fail> {
    are_refused_in_turn(&rt, rt.alloc(), ROWS)
}
