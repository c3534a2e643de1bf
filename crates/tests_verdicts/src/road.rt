// Lists of calls under a pace that does not watch, which come to the block of the first fit, byte for byte, whatever their length is, who runs them and who is
// stopped; and under one that watches, which come to the block of their order.
ghost use Rattle.std.specs.Prelude.{◌<◌};

use crate::assertions::{equal, holds};
use crate::given::{
    Calls, CellRow, Given, block_of, first_fit, give, judged, mined, order_of, world_of, written,
};
use crate::paces::{Stopping, Stops};
use block_judge::Reason;
use call::Call;
use pace::NoPace;
use rand::RngExt;
use rand_pcg::Pcg32;
use spec_ledger::Kind::{Counter, Map};
use spec_ledger::Version;
use std::alloc::Global;
use std::process::Abort;
use std::sync::Wait;
use std::test::Fail;
use std::thread::Threads;
use test_support::{EXAMPLE, PROBING, call};
use wtypes::Value::{self, I32, I64};

/// What `wat2wasm` of wabt makes of this text:
///
///     (module
///       (import "boost" "get" (func $get (param i64) (result i64)))
///       (import "boost" "put" (func $put (param i64) (param i64)))
///       (import "boost" "add" (func $add (param i64) (param i64)))
///       (func $spin (export "spin") (param i64) (param i64)
///         (call $put (local.get 0) (i64.add (call $get (local.get 0)) (i64.const 1)))
///         (loop $again
///           (local.set 1 (i64.sub (local.get 1) (i64.const 1)))
///           (br_if $again (i64.ne (local.get 1) (i64.const 0)))))
///       (func (export "vote") (param i64) (param i64)
///         (call $add (i64.const 7) (i64.const 1))
///         (call $spin (local.get 0) (local.get 1)))
///       (func (export "idle") (param i64) (param i64)
///         (nop) (nop) (nop)))
///
/// A call of `spin` costs 9 for each round, the `loop` among them, and 6 besides, one of `idle` 3.
pub(crate) const SPIN: &[u8] = &[
    0x00, 0x61, 0x73, 0x6d, 0x01, 0x00, 0x00, 0x00, 0x01, 0x0b, 0x02, 0x60, 0x01, 0x7e, 0x01, 0x7e,
    0x60, 0x02, 0x7e, 0x7e, 0x00, 0x02, 0x25, 0x03, 0x05, 0x62, 0x6f, 0x6f, 0x73, 0x74, 0x03, 0x67,
    0x65, 0x74, 0x00, 0x00, 0x05, 0x62, 0x6f, 0x6f, 0x73, 0x74, 0x03, 0x70, 0x75, 0x74, 0x00, 0x01,
    0x05, 0x62, 0x6f, 0x6f, 0x73, 0x74, 0x03, 0x61, 0x64, 0x64, 0x00, 0x01, 0x03, 0x04, 0x03, 0x01,
    0x01, 0x01, 0x07, 0x16, 0x03, 0x04, 0x73, 0x70, 0x69, 0x6e, 0x00, 0x03, 0x04, 0x76, 0x6f, 0x74,
    0x65, 0x00, 0x04, 0x04, 0x69, 0x64, 0x6c, 0x65, 0x00, 0x05, 0x0a, 0x35, 0x03, 0x1e, 0x00, 0x20,
    0x00, 0x20, 0x00, 0x10, 0x00, 0x42, 0x01, 0x7c, 0x10, 0x01, 0x03, 0x40, 0x20, 0x01, 0x42, 0x01,
    0x7d, 0x21, 0x01, 0x20, 0x01, 0x42, 0x00, 0x52, 0x0d, 0x00, 0x0b, 0x0b, 0x0e, 0x00, 0x42, 0x07,
    0x42, 0x01, 0x10, 0x02, 0x20, 0x00, 0x20, 0x01, 0x10, 0x03, 0x0b, 0x05, 0x00, 0x01, 0x01, 0x01,
    0x0b,
];

/// A random list of calls.
#[derive(Clone, Copy, Debug)]
pub(crate) struct List {
    calls: u32,
    keys: u32,
    rounds: u32,
    seed: u64,
}

/// How many calls a list has, how many cells of each kind they use, how many rounds the long ones make, and the seed: lists short enough for the caller alone, and
/// such that several threads run, and are told what was done.
const LISTS: &[(u32, u32, u32, u64)] = &[
    (0, 3, 1, 1),
    (1, 3, 2_000, 2),
    (15, 3, 2_000, 3),
    (16, 3, 2_000, 4),
    (17, 3, 2_000, 5),
    (31, 9, 2_000, 6),
    (32, 9, 2_000, 7),
    (33, 40, 20_000, 8),
    (120, 300, 5_000, 9),
    (511, 40, 500, 10),
    (512, 1_000, 500, 11),
    (513, 1, 500, 12),
    (5_000, 20_000, 20, 13),
    (5_000, 2, 1, 14),
    (3_000, 400, 20, 15),
    (400, 60, 2_000, 16),
];

/// So many calls over so many cells of each kind, of so many rounds.
pub(crate) fn list_of(calls: u32, keys: u32, rounds: u32, seed: u64) -> List {
    List {
        calls,
        keys,
        rounds,
        seed,
    }
}

/// Whom a call of contract 1 asks: `fall` with 5 and with 9, `spoil` of `store` with 63, or `fall` and then `count` with 1.
const ASKED: [i64; 4] = [657, 1_169, 1_044_681, 17_553];

/// The next number below this one.
fn below(random: &mut Pcg32, bound: u32) -> Result<u32, Fail> {
    if bound == 0 {
        return Err(Fail::from("no number is below 0"));
    }
    Ok(random.random_range(0..bound))
}

/// The next key of so many.
fn key_of(random: &mut Pcg32, keys: u32) -> Result<Value, Fail> {
    Ok(I64(i64::from(below(random, keys)?)))
}

/// A call of the example contract: of each entry, of none that it has, with another type, or without fuel.
fn plain_call(alloc: Global, random: &mut Pcg32, keys: u32) -> Result<Call, Fail> {
    let key = key_of(random, keys)?;
    let other = key_of(random, keys)?;
    let (entry, fuel) = match below(random, 10)? {
        0 | 1 => ("bump", 100),
        2 => ("both", 100),
        3 => ("move", 100),
        4 => ("set", 100),
        5 => ("fail", 100),
        6 => ("nope", 100),
        7 => ("both", 4),
        8 => return Ok(call(alloc, 0, "bump", &[key, I32(1)], 100)?),
        _ => return Ok(call(alloc, 9, "bump", &[key, other], 100)?),
    };
    Ok(call(alloc, 0, entry, &[key, other], fuel)?)
}

/// A call that asks, in one of three, and else a long one, which at times has not fuel enough.
fn other_call(alloc: Global, random: &mut Pcg32, list: List) -> Result<Call, Fail> {
    let is_first = below(random, 2)? == 0;
    if below(random, 3)? == 0 {
        let which = random.random_range(0..4usize);
        let argument = ASKED[which];
        let entry = if is_first { "probe" } else { "both" };
        return Ok(call(alloc, 1, entry, &[I64(argument)], 1_000)?);
    }
    let key = key_of(random, list.keys)?;
    let rounds = I64(i64::from(list.rounds));
    let most = u64::from(list.rounds).wrapping_mul(9).wrapping_add(6);
    let limit = if below(random, 8)? == 0 {
        most / 2
    } else {
        most.wrapping_add(100)
    };
    let entry = if is_first { "spin" } else { "vote" };
    Ok(call(alloc, 2, entry, &[key, rounds], limit)?)
}

/// The calls of a list.
fn calls_of(alloc: Global, list: List) -> Result<Vec<Call>, Fail> {
    let mut random = Pcg32::new(list.seed, 0);
    let mut calls = Vec::new(alloc);
    for number in 0..list.calls {
        if number % 2 == 0 {
            calls.push(other_call(alloc, &mut random, list)?)?;
        } else {
            calls.push(plain_call(alloc, &mut random, list.keys)?)?;
        }
    }
    Ok(calls)
}

/// What a list is given, in a world with so many cells that no call uses, with fuel for nine tenths of the limits of its calls, so that some have no room.
fn given_beside(alloc: Global, list: List, others: u64) -> Result<Given, Fail> {
    let mut cells: Vec<CellRow> = Vec::new(alloc);
    cells.extend_from_slice(&[(0, Map, 1, 10), (0, Counter, 0, 3), (2, Counter, 7, 1)])?;
    for other in 0..others {
        cells.push((0, Map, 1_000_000 + other % 1_000_000, 1))?;
    }
    let world = world_of(alloc, &[EXAMPLE, PROBING, SPIN], &cells)?;
    let calls = calls_of(alloc, list)?;
    let mut fuel: u64 = 0;
    for call in &calls {
        fuel = fuel.wrapping_add(call.fuel());
    }
    Ok(Given {
        world,
        calls,
        fuel: u64::wrapping_mul(fuel / 10, 9),
    })
}

/// The same in a world with no other cells.
pub(crate) fn given_of(alloc: Global, list: List) -> Result<Given, Fail> {
    given_beside(alloc, list, 0)
}

/// What a list comes to.
#[derive(Drop)]
pub(crate) struct Wanted {
    /// The bytes of the block of the first fit.
    pub(crate) bytes: Vec<u8>,
    /// How many calls have no room in it.
    pub(crate) left: usize,
}

/// What a list comes to.
pub(crate) fn wanted_of(alloc: Global, given: &Given) -> Result<Wanted, Fail> {
    let order = first_fit(alloc, given)?;
    let left = given.calls.len().saturating_sub(order.len());
    let bytes = block_of(alloc, given, &order, Version::Two)?;
    Ok(Wanted { bytes, left })
}

/// Whether so many workers mine what is wanted, at a pace that does not watch and stops them so.
pub(crate) fn is_mined<R: Threads + Wait + Sync>(
    rt: &R,
    alloc: Global,
    given: &Given,
    wanted: &Wanted,
    workers: u32,
    stopping: Stopping,
) -> Result<bool, Fail> {
    let pace = Stops::new(stopping);
    let mined = mined(rt, alloc, given, workers, 3, &pace.unwatched())?;
    let bytes = written(alloc, alloc, &mined.block)?;
    Ok(bytes == wanted.bytes && mined.left.len() == wanted.left)
}

/// Whether so many workers accept the block of the first fit, at a pace that does not watch and stops them so.
pub(crate) fn is_accepted<R: Threads + Wait + Sync>(
    rt: &R,
    alloc: Global,
    given: &Given,
    wanted: &Wanted,
    workers: u32,
    stopping: Stopping,
) -> Result<bool, Fail> {
    let pace = Stops::new(stopping);
    Ok(judged(rt, alloc, given, &wanted.bytes, workers, &pace.unwatched())?.is_ok())
}

/// What workers come to at a pace that watches and stops them.
#[derive(Clone, Copy)]
pub(crate) struct Seen {
    /// Whether the block is that of its order, and is accepted.
    pub(crate) is_right: bool,
    /// Whether its order is the first fit.
    pub(crate) is_rising: bool,
    /// How many workers were stopped when it was mined, and when it was validated.
    pub(crate) stopped: (u64, u64),
    /// How many calls the workers committed.
    pub(crate) by_workers: u32,
}

/// What so many workers come to at a pace that watches and stops them so.
pub(crate) fn watched<R: Threads + Wait + Sync>(
    rt: &R,
    alloc: Global,
    given: &Given,
    workers: u32,
    stopping: Stopping,
) -> Result<Seen, Fail> {
    let mining = Stops::new(stopping);
    let mined = mined(rt, alloc, given, workers, 3, &mining)?;
    let bytes = written(alloc, alloc, &mined.block)?;
    let order = order_of(alloc, &mined.block)?;
    let alone = block_of(alloc, given, &order, Version::Two)?;
    let validating = Stops::new(stopping);
    let judged = judged(rt, alloc, given, &bytes, workers, &validating)?;
    Ok(Seen {
        is_right: bytes == alone && judged.is_ok(),
        is_rising: order == first_fit(alloc, given)?,
        stopped: (mining.stopped(), validating.stopped()),
        by_workers: mined.by_workers,
    })
}

/// Each number of workers comes to what is wanted of a list, in a world with so many cells that no call uses.
fn list_is_right<R: Threads + Wait + Sync + Abort>(
    rt: &R,
    alloc: Global,
    list: List,
    others: u64,
) -> Result<(), Fail> {
    let given = given_beside(alloc, list, others)?;
    let wanted = wanted_of(alloc, &given)?;
    for workers in [1, 2, 3, 4, 16, 64] {
        let never = Stopping::Never;
        let mined = is_mined(rt, alloc, &given, &wanted, workers, never)?;
        let accepted = is_accepted(rt, alloc, &given, &wanted, workers, never)?;
        equal(rt, &(list, workers), &(mined, accepted), &(true, true));
    }
    for workers in [1, 4] {
        let watched = watched(rt, alloc, &given, workers, Stopping::Never)?;
        holds(rt, &(list, workers, "watched"), watched.is_right);
    }
    Ok(())
}

#[test]
fn a_list_comes_to_the_block_of_the_first_fit(rt: HostRuntime) -> Result<(), Fail> {
    for (calls, keys, rounds, seed) in LISTS {
        list_is_right(&rt, rt.alloc(), list_of(*calls, *keys, *rounds, *seed), 0)?;
    }
    Ok(())
}

/// Short lists of other seeds.
#[test]
fn random_lists_come_to_the_block_of_the_first_fit(rt: HostRuntime) -> Result<(), Fail> {
    for seed in 100..120u64 {
        list_is_right(&rt, rt.alloc(), list_of(60, 5, 3_000, seed), 0)?;
    }
    Ok(())
}

/// A world with so many cells that several threads make its digests.
#[test]
fn a_list_in_a_world_of_many_cells(rt: HostRuntime) -> Result<(), Fail> {
    list_is_right(&rt, rt.alloc(), list_of(120, 300, 500, 16), 5_000)
}

/// How often a list is tried to see that calls run ahead of their turn: where no other thread comes to run, the calling one does all calls itself.
const TRIES: u32 = 100;

/// Of calls that have a cell each, and add to one counter, some are done by what they came to ahead of their turn, in one of the tries: when they are mined, and
/// when their block is validated.
#[test]
fn calls_run_ahead_of_their_turn(rt: HostRuntime) -> Result<(), Fail> {
    let alloc = rt.alloc();
    let given = give(alloc, &[SPIN], &[], Calls::Votes(1_024), 100_000_000)?;
    let Wanted { bytes, .. } = wanted_of(alloc, &given)?;
    let mut is_ahead = (false, false);
    for _ in 0..TRIES {
        let mined = mined(&rt, alloc, &given, 4, 3, &NoPace)?;
        is_ahead.0 = is_ahead.0 || mined.by_workers > 0;
        let again = judged(&rt, alloc, &given, &bytes, 4, &NoPace)?.unwrap_or(1_024);
        is_ahead.1 = is_ahead.1 || again < 1_024;
        if is_ahead == (true, true) {
            break;
        }
    }
    equal(&rt, &"ahead", &is_ahead, &(true, true));
    Ok(())
}

/// The bytes with a bit of the one at this place flipped.
pub(crate) fn flipped(alloc: Global, bytes: &[u8], place: usize) -> Result<Vec<u8>, Fail> {
    let mut other = bytes.to_vec(alloc)?;
    match other.get_mut(place) {
        Some(byte) => *byte ^= 1,
        None => return Err(Fail::from("no such byte")),
    }
    Ok(other)
}

/// The reason for which one worker and four, watched and not, reject bytes.
fn say_the_same<R: Threads + Wait + Sync + Abort>(
    rt: &R,
    alloc: Global,
    given: &Given,
    bytes: &[u8],
    place: usize,
) -> Result<Option<Reason>, Fail> {
    let one = judged(rt, alloc, given, bytes, 1, &NoPace)?.err();
    let four = judged(rt, alloc, given, bytes, 4, &NoPace)?.err();
    let pace = Stops::new(Stopping::Never);
    let watched = judged(rt, alloc, given, bytes, 4, &pace)?.err();
    equal(rt, &place, &(four, watched), &(one, one));
    holds(rt, &place, one.is_some());
    Ok(one)
}

/// The numbers of the reasons that a byte alone can bring.
const REASONS: &[u8] = &[1, 2, 3, 4, 7, 8, 9];

/// A byte of the head, of the first positions, at some places behind them or of the end that is another: four workers, watched and not, say what one says. Each
/// reason that a byte alone can bring comes.
#[test]
fn four_workers_say_what_one_says(rt: HostRuntime) -> Result<(), Fail> {
    let alloc = rt.alloc();
    let given = given_of(alloc, list_of(600, 900, 50, 15))?;
    let Wanted { bytes, .. } = wanted_of(alloc, &given)?;
    let tail = bytes.len().saturating_sub(40);
    let mut seen = Vec::new(alloc);
    for place in 0..bytes.len() {
        if place < 160 || place % 997 == 0 || place >= tail {
            let other = flipped(alloc, &bytes, place)?;
            if let Some(reason) = say_the_same(&rt, alloc, &given, &other, place)? {
                seen.push(reason.number())?;
            }
        }
    }
    for number in REASONS {
        holds(&rt, &("reason", *number), seen.contains(number));
    }
    Ok(())
}
