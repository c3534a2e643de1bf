// Orders played to their end.
ghost use Rattle.std.specs.Prelude.{IfSome, length, ◌<◌, ◌^◌};

use crate::assertions::{equal, holds};
use lock_profile::{Held, Touched, turns};
use schedule::{Board, EndRefusal, Graph, turns_agree};
use spec_ledger::Kind::{self, Counter, Map};
use spec_ledger::Lock;
use spec_ledger::Mode::{self, Add, Excl, Read};
use std::alloc::{Allocator, Global};
use test_support::Ration;

/// A lock that a position takes, by its kind and its key, and its mode.
type Taken = (Kind, u64, Mode);

/// The map of these locks, if they rise.
fn touched<A: Allocator + Copy>(alloc: A, taken: &[Taken]) -> Option<Touched<A>> {
    let mut held = Vec::new(alloc);
    for (kind, key, mode) in taken {
        let lock = Lock {
            contract: 0,
            kind: *kind,
            key: *key,
        };
        held.push(Held { lock, mode: *mode }).ok()?;
    }
    Touched::from_sorted(held)
}

/// The maps of the locks of the positions of an order, fewer than 65,536.
fn touched_by<A: Allocator + Copy>(alloc: A, order: &[&[Taken]]) -> Option<Vec<Touched<A>, A>>
    ensures { IfSome result (λ maps. length maps.items < 2 ^ 16) }
{
    let mut maps = Vec::new(alloc);
    for taken in order {
        maps.push(touched(alloc, *taken)?).ok()?;
    }
    if maps.len() < 65_536 {
        Some(maps)
    } else {
        None
    }
}

/// A position that reads a counter.
const READS: &[Taken] = &[(Counter, 7, Read)];

/// A position that adds to it.
const ADDS: &[Taken] = &[(Counter, 7, Add)];

/// How many positions of a crowd read the counter, and how many add to it.
const HALF: usize = 32_767;

/// An order of positions that read a counter, and behind them as many that add to it.
fn crowd<'b>(alloc: Global) -> Option<Vec<&'b [Taken]>> {
    let mut order: Vec<&[Taken]> = Vec::new(alloc);
    for _ in 0..HALF {
        order.push(READS).ok()?;
    }
    for _ in 0..HALF {
        order.push(ADDS).ok()?;
    }
    Some(order)
}

/// The graph of an order.
fn graph<A: Allocator + Copy>(alloc: A, order: &[&[Taken]]) -> Option<Graph<A>> {
    let touched = touched_by(alloc, order)?;
    turns_agree();
    Graph::of(alloc, &turns(alloc, &touched).ok()?).ok()
}

/// An order whose positions end: those that are ready, and what is answered to each that ends.
struct Game<'b> {
    name: &'b str,
    order: &'b [&'b [Taken]],
    ready: &'b [u32],
    ends: &'b [(u32, Result<&'b [u32], EndRefusal>)],
}

const GAMES: &[Game] = &[
    Game {
        name: "a position is ready when its predecessor has ended",
        order: &[
            &[(Map, 1, Excl)],
            &[(Map, 2, Excl)],
            &[(Map, 1, Read), (Map, 3, Excl)],
        ],
        ready: &[0, 1],
        ends: &[
            (2, Err(EndRefusal::NotReady)),
            (0, Ok(&[2])),
            (0, Err(EndRefusal::Ended)),
            (3, Err(EndRefusal::NoSuchPosition)),
            (2, Ok(&[])),
            (1, Ok(&[])),
        ],
    },
    Game {
        name: "the last predecessor frees in rising order",
        order: &[
            &[(Map, 1, Excl), (Map, 2, Excl)],
            &[(Map, 1, Read)],
            &[(Map, 1, Read), (Map, 2, Read)],
            &[(Map, 1, Excl)],
        ],
        ready: &[0],
        ends: &[(0, Ok(&[1, 2])), (2, Ok(&[])), (1, Ok(&[3])), (3, Ok(&[]))],
    },
    Game {
        name: "the last of a group frees all of the next",
        order: &[READS, READS, READS, ADDS, ADDS, ADDS, READS],
        ready: &[0, 1, 2],
        ends: &[
            (2, Ok(&[])),
            (3, Err(EndRefusal::NotReady)),
            (0, Ok(&[])),
            (1, Ok(&[3, 4, 5])),
            (4, Ok(&[])),
            (5, Ok(&[])),
            (6, Err(EndRefusal::NotReady)),
            (3, Ok(&[6])),
            (6, Ok(&[])),
        ],
    },
];

/// The end of a position is answered so.
fn ends<A: Allocator + Copy>(
    board: &mut Board<A>,
    position: u32,
    wanted: Result<&[u32], EndRefusal>,
) -> bool {
    match board.end(position) {
        Ok(free) => wanted == Ok(free.as_slice()),
        Err(refusal) => wanted == Err(refusal),
    }
}

/// The positions end as the game says.
fn is_played(alloc: Global, game: &Game) -> bool {
    let Some(graph) = graph(alloc, game.order) else {
        return false;
    };
    let Ok(mut board) = Board::open(alloc, &graph) else {
        return false;
    };
    if board.ready() != game.ready {
        return false;
    }
    for (position, wanted) in game.ends {
        if !ends(&mut board, *position, *wanted) {
            return false;
        }
    }
    true
}

#[test]
fn orders_played_to_their_end(rt: HostRuntime) {
    for game in GAMES {
        holds(&rt, &game.name, is_played(rt.alloc(), game));
    }
}

/// A crowd is played to its end: its readers are ready, the last of them frees the others, and no other end frees any.
fn crowd_is_played(alloc: Global) -> Option<bool> {
    let order = crowd(alloc)?;
    let graph = graph(alloc, &order)?;
    let mut board = Board::open(alloc, &graph).ok()?;
    if board.ready().len() != HALF {
        return Some(false);
    }
    for position in 0..2 * HALF {
        let free = board.end(position as u32).ok()?;
        let wanted = if position + 1 == HALF { HALF } else { 0 };
        if free.len() != wanted {
            return Some(false);
        }
    }
    Some(true)
}

#[test]
fn two_groups_played_to_their_end(rt: HostRuntime) {
    equal(&rt, &"a crowd", &crowd_is_played(rt.alloc()), &Some(true));
}

/// What is answered is what the game says, or memory is refused: then it is refused again, since the board is unchanged. None where
/// it is refused.
fn is_played_in<A: Allocator + Copy>(alloc: A, game: &Game) -> Option<bool> {
    let graph = graph(alloc, game.order)?;
    let mut board = Board::open(alloc, &graph).ok()?;
    for (position, wanted) in game.ends {
        match board.end(*position) {
            Err(EndRefusal::NoMemory) => {
                return if ends(&mut board, *position, Err(EndRefusal::NoMemory)) {
                    None
                } else {
                    Some(false)
                };
            }
            Err(refusal) => {
                if *wanted != Err(refusal) {
                    return Some(false);
                }
            }
            Ok(free) => {
                if *wanted != Ok(free.as_slice()) {
                    return Some(false);
                }
            }
        }
    }
    Some(true)
}

/// The same with so many blocks of memory.
fn played_in_blocks(alloc: Global, game: &Game, blocks: u64) -> Option<bool> {
    let ration = Ration::new(alloc, blocks);
    is_played_in(&ration, game)
}

/// No game of this file takes more blocks of memory.
const BLOCKS: u64 = 400;

#[test]
fn memory_refused_at_each_block(rt: HostRuntime) {
    for game in GAMES {
        for blocks in 0..BLOCKS {
            let played = played_in_blocks(rt.alloc(), game, blocks);
            holds(&rt, &(game.name, blocks), played != Some(false));
        }
        let played = played_in_blocks(rt.alloc(), game, BLOCKS);
        equal(&rt, &game.name, &played, &Some(true));
    }
}
