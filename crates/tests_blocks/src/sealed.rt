// What ran elsewhere, sealed into blocks.
ghost use Rattle.std.specs.Prelude.{◌≡◌, IfSome, length};

use crate::assertions::holds;
use crate::settings::{Cell, hold, is_hex, lock, world};
use block::{Block, Position, write_block};
use byte_sinks::{Failures, MemorySink};
use call::Call;
use lock_profile::{Held, Touched};
use serial::{Core, build_block, positions_of};
use spec_ledger::{Entry, Kind, Mode, Outcome, Receipt, Version};
use std::alloc::Global;
use storage::Cells;
use world::World;
use wtypes::Value;

/// `bump` of counter 7 by a number.
fn bump(alloc: Global, number: i64) -> Option<Call> {
    let args = [Value::I64(7), Value::I64(number)];
    test_support::call(alloc, 0, "bump", &args, 100).ok()
}

/// The block has these digits.
fn spells(alloc: Global, block: &Block, text: &str) -> bool {
    if !block.fits_version() {
        return false;
    }
    let mut sink = MemorySink::new(alloc, 1_000_000, Failures::none());
    write_block(alloc, block, &mut sink).is_ok() && is_hex(alloc, sink.bytes(), text)
}

/// There is a block with these digits, and after it one contract and these cells.
fn is_outcome(
    alloc: Global,
    outcome: Option<(Block, World)>,
    bytes: &str,
    after: &[(Cell, Option<u64>)],
) -> bool {
    match outcome {
        Some((block, next)) => {
            spells(alloc, &block, bytes) && next.contracts().len() == 1 && hold(next.cells(), after)
        }
        None => false,
    }
}

const RETURNED: Receipt = Receipt {
    outcome: Outcome::Returned(None),
    used: 3,
    asks: 0,
};

const COUNTER: Cell = (0, Kind::Counter, 7);

/// So many calls that added to counter 7.
fn adders(alloc: Global, count: usize) -> Option<Vec<Touched>>
    ensures { IfSome result (λ maps. length maps.items ≡ count) }
{
    let mut maps = Vec::new(alloc);
    for _i in 0..count {
        let held = Held {
            lock: lock(COUNTER),
            mode: Mode::Add,
        };
        maps.push(Touched::from_sorted(vec![in alloc; held].ok()?)?)
            .ok()?;
    }
    if maps.len() == count {
        Some(maps)
    } else {
        None
    }
}

/// In version 1 and in version 2.
const SEALED: [&str; 2] = [
    "57424c4b01000000ddc5e3d488f3844cdf731c6e2fcdb213a1eea2313f8fc0baf8aaafed8b7d0b9250bc8a7c3f68d3715295e63b78ca6a2ffa9ccacb4be076978139465b5eea5ed5020000000000000003000000000000000000010000000000000001070000000000000001000000000100000003000000000000000000010000000000000001070000000000000001000000000600000000000000ddc5e3d488f3844cdf731c6e2fcdb213a1eea2313f8fc0baf8aaafed8b7d0b92",
    "57424c4b02000000ddc5e3d488f3844cdf731c6e2fcdb213a1eea2313f8fc0baf8aaafed8b7d0b9250bc8a7c3f68d3715295e63b78ca6a2ffa9ccacb4be076978139465b5eea5ed50200000000000000030000000000000000000000000001000000000000000107000000000000000100000000010000000300000000000000000000000000010000000000000001070000000000000001000000000600000000000000ddc5e3d488f3844cdf731c6e2fcdb213a1eea2313f8fc0baf8aaafed8b7d0b92",
];

fn sealed(alloc: Global, version: Version) -> Option<(Block, World)> {
    let before = world(alloc, &[])?;
    let calls = [bump(alloc, 5)?, bump(alloc, -5)?];
    let core = Core {
        receipts: vec![in alloc; RETURNED, RETURNED].ok()?,
        touched: adders(alloc, 2)?,
        cells: Cells::new(alloc),
    };
    build_block(alloc, &before, &calls, &[0, 1], core, version).ok()
}

/// The sealed block of this version has these digits, and after it the counter is not there.
fn is_sealed(alloc: Global, version: Version, bytes: &str) -> bool {
    is_outcome(alloc, sealed(alloc, version), bytes, &[(COUNTER, None)])
}

#[test]
fn what_ran_elsewhere_is_sealed(rt: HostRuntime) {
    let [one, two] = SEALED;
    holds(&rt, &Version::One, is_sealed(rt.alloc(), Version::One, one));
    holds(&rt, &Version::Two, is_sealed(rt.alloc(), Version::Two, two));
}

/// There is one position: of call 5, which added to counter 7 in turn 0.
fn is_adder_5(positions: &[Position]) -> bool {
    let entry = Entry {
        lock: lock(COUNTER),
        mode: Mode::Add,
        turn: 0,
    };
    positions.len() == 1
        && positions[0].call() == 5
        && positions[0].receipt() == RETURNED
        && positions[0].profile().entries() == [entry].as_slice()
}

fn stand_in_the_order(alloc: Global) -> bool {
    match adders(alloc, 1) {
        Some(touched) => match positions_of(alloc, &[5], &[RETURNED], &touched) {
            Ok(positions) => is_adder_5(&positions),
            Err(_) => false,
        },
        None => false,
    }
}

#[test]
fn positions_stand_in_the_order(rt: HostRuntime) {
    holds(&rt, &"the position", stand_in_the_order(rt.alloc()));
}
