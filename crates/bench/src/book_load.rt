//! What is measured: the cells, and the operations of each call.
ghost use Rattle.std.specs.Prelude.{◌≡◌, ◌<◌, IfOk, [], replicate};

use boost::book::Book;
use rand::RngExt;
use rand_pcg::Pcg32;
use spec_ledger::{CellKey, Kind, Lock, Op};
use std::alloc::Global;
use storage::{Cells, NoMemory};

/// How many calls are live at once.
pub const LIVE: u32 = 8;

/// How many times as many calls run.
pub const GROUPS: u32 = 125;

/// How many operations a call does.
pub const ROUNDS: u32 = 1_000;

/// How many operations all calls do.
pub const OPERATIONS: u32 = GROUPS * LIVE * ROUNDS;

/// How many keys the calls use.
#[derive(Clone, Copy)]
pub struct Load {
    /// The keys are those below this number.
    pub keys: u32,
    ghost some_key: { 0 < keys },
}

impl Load {
    /// The load that one word gives. `None` where it is no number of 32 bits above 0, or not alone.
    pub fn of_words(words: &[String]) -> Option<Load> {
        let [keys] = words else {
            return None;
        };
        let keys = keys.as_str().parse::<u32>().ok()?;
        if keys == 0 { None } else { Some(Load { keys }) }
    }

    /// A book of all calls over cells with a number at each key: a map's at an even key, a counter's at an odd one.
    ///
    /// # Errors
    ///
    /// Where memory was refused.
    pub fn opened(self, alloc: Global) -> Result<Book, NoMemory>
        ensures entries { IfOk result (λ book. book.entries ≡ []) }
        ensures attempts { IfOk result (λ book. book.attempts ≡ []) }
        ensures begun { IfOk result (λ book. book.begun ≡ replicate 1000 0) }
    {
        let mut cells = Cells::new(alloc);
        for key in 0..self.keys {
            let kind = if key % 2 == 0 {
                Kind::Map
            } else {
                Kind::Counter
            };
            let lock = Lock {
                contract: 0,
                kind,
                key: u64::from(key),
            };
            cells.insert(lock, 1)?;
        }
        Book::open(alloc, cells, GROUPS * LIVE)
    }

    /// An operation at the key that the generator chooses: a get at an even key, an add at an odd one. No two of these conflict.
    pub fn operation(self, random: &mut Pcg32) -> Op {
        let key = random.random_range(0..self.keys);
        let place = CellKey {
            contract: 0,
            key: u64::from(key),
        };
        if key % 2 == 0 {
            Op::Get(place)
        } else {
            Op::Add(place, 1)
        }
    }
}
