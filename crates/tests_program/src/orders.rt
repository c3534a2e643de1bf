//! Orders of positions, and the edges between the first of them.

ghost use Rattle.std.specs.Prelude.{IfSome, length, ◌<◌, ◌^◌};

use crate::assertions::holds;
use block::Position;
use lock_profile::{Held, Touched, turns};
use schedule::{Graph, turns_agree};
use spec_ledger::Kind::{Counter, Map};
use spec_ledger::Mode::{Add, Excl, Read};
use spec_ledger::{Kind, Lock, Mode, Outcome, Receipt};
use std::alloc::Global;
use wblock_picture::edges_of;

/// A lock of contract 0 that a position takes: its kind, its key and its mode.
pub(crate) type Taken = (Kind, u64, Mode);

/// Three positions that write a cell, and one that reads it.
const CHAIN: &[&[Taken]] = &[
    &[(Map, 1, Excl)],
    &[(Map, 1, Excl)],
    &[(Map, 1, Excl)],
    &[(Map, 1, Read)],
];

/// The map of these locks, if they rise.
fn touched(alloc: Global, taken: &[Taken]) -> Option<Touched> {
    let mut held = Vec::new(alloc);
    for (kind, key, mode) in taken {
        let lock = Lock {
            contract: 0,
            kind: *kind,
            key: *key,
        };
        held.push(Held { lock, mode: *mode }).ok()?;
    }
    Touched::from_sorted(held)
}

/// The maps of the locks of the positions of an order, fewer than 65,536.
fn touched_by(alloc: Global, order: &[&[Taken]]) -> Option<Vec<Touched>>
    ensures { IfSome result (λ maps. length maps.items < 2 ^ 16) }
{
    let mut maps = Vec::new(alloc);
    for taken in order {
        maps.push(touched(alloc, *taken)?).ok()?;
    }
    if maps.len() < 65_536 {
        Some(maps)
    } else {
        None
    }
}

/// The graph of an order.
fn graph(alloc: Global, order: &[&[Taken]]) -> Option<Graph> {
    let touched = touched_by(alloc, order)?;
    turns_agree();
    Graph::of(alloc, &turns(alloc, &touched).ok()?).ok()
}

/// What each call came to.
const RETURNED: Receipt = Receipt {
    outcome: Outcome::Returned(None),
    used: 1,
    asks: 0,
};

/// The positions of an order, whose calls have their numbers.
pub(crate) fn positions(alloc: Global, order: &[&[Taken]]) -> Option<Vec<Position>> {
    let touched = touched_by(alloc, order)?;
    let profiles = turns(alloc, &touched).ok()?;
    let mut positions = Vec::new(alloc);
    let mut number: u32 = 0;
    for profile in profiles {
        positions
            .push(Position::new(number, RETURNED, profile)?)
            .ok()?;
        number = number.checked_add(1)?;
    }
    Some(positions)
}

/// A position that adds to a counter.
const ADDS: &[Taken] = &[(Counter, 7, Add)];

/// A position that reads it.
const READS: &[Taken] = &[(Counter, 7, Read)];

/// So many positions that add to a counter, and behind them so many that read it.
pub(crate) fn crowd<'a>(alloc: Global, adders: usize, readers: usize) -> Option<Vec<&'a [Taken]>> {
    let mut order: Vec<&[Taken]> = Vec::new(alloc);
    for _ in 0..adders {
        order.push(ADDS).ok()?;
    }
    for _ in 0..readers {
        order.push(READS).ok()?;
    }
    Some(order)
}

/// How many of the first positions of the chain there are to be edges between, and these edges.
const BETWEEN: &[(u32, &[(u32, u32)])] = &[
    (0, &[]),
    (1, &[]),
    (2, &[(0, 1)]),
    (3, &[(0, 1), (1, 2)]),
    (4, &[(0, 1), (1, 2), (2, 3)]),
    (9, &[(0, 1), (1, 2), (2, 3)]),
];

/// Whether these are all the edges between so many first positions of the chain.
fn are_between(alloc: Global, positions: u32, wanted: &[(u32, u32)]) -> bool {
    let edges = graph(alloc, CHAIN).and_then(|graph| edges_of(alloc, &graph, positions).ok());
    let Some(edges) = edges else {
        return false;
    };
    for (edge, between) in edges.list.iter().zip(wanted.iter()) {
        if edge.before != between.0 || edge.after != between.1 {
            return false;
        }
    }
    edges.all && edges.list.len() == wanted.len()
}

#[test]
fn edges_go_between_the_first_positions(rt: HostRuntime) {
    for (positions, edges) in BETWEEN {
        let are_between = are_between(rt.alloc(), *positions, *edges);
        holds(&rt, positions, are_between);
    }
}
