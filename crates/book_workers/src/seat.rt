//! Seats, each of which one thread at a time calls with.
ghost use Rattle.std.specs.Prelude.{◌≡◌, []};

use crate::account::Account;

/// A seat of an intake. It takes no bytes, and can be made by `open` alone.
#[derive(Drop)]
pub struct Seat {
    /// The seat of the table of words, whose view is the account.
    pub token: atomic_table::Seat<u64, Account>,
    ghost no_slot: { token.me.1 ≡ [] },
    ghost one_part: { token.me.0.parts ≡ 1 },
}
