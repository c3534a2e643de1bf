//! The rule of the two words, and the names of the steps.
ghost use Rattle.book_workers.specs.Accounts.{newcomer, cut_off, cut_down, merged, gone};
ghost use Rattle.book_workers.specs.Fair.{Fair, looked, took, peeked, asked};

use crate::account::{Account, Limits};
use atomic_table::{Join, Play, Split, TableRule};

/// The word of the next number.
pub const NEXT: usize = 0;

/// The word of the fuel that is left.
pub const FUEL: usize = 1;

/// The rule of the two words.
pub struct Fairly;

impl TableRule<u64, Account, Limits> for Fairly {
    ghost holds = { Fair };

    ghost first = { λ k. newcomer k k.seats };
}

/// A load of the next number.
pub struct Look;

impl Play<u64, Account> for Look {
    ghost then = { looked };
}

/// One more is added to the next number.
pub struct Take;

impl Play<u64, Account> for Take {
    ghost then = { took };
}

/// A load of the fuel.
pub struct Peek;

impl Play<u64, Account> for Peek {
    ghost then = { peeked };
}

/// The fuel becomes less by what is asked, if it was as expected.
pub struct Ask;

impl Play<u64, Account> for Ask {
    ghost then = { asked };
}

/// A seat is cut off the first one.
pub struct Cut;

impl Split<Account> for Cut {
    ghost left = { cut_down };

    ghost right = { cut_off };
}

/// A seat takes in another one.
pub struct Merge;

impl Join<Account> for Merge {
    ghost both = { merged };

    ghost spent = { gone };
}
