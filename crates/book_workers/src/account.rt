//! What contracts see of a seat. No value of `Account` is made.
use std::collections::LinkedList;

/// What an intake was opened with.
#[derive(Clone, Copy)]
pub struct Limits {
    /// How many numbers there are, from 0 on.
    pub calls: u32,
    /// The fuel at the beginning.
    pub block_fuel: u64,
    /// The number of seats.
    pub seats: u32,
}

/// What a seat keeps for contracts.
pub struct Account {
    /// The limits of its intake.
    pub limits: Limits,
    /// How many of the seats this one stands for.
    pub parts: u64,
    /// The numbers that it drew, first to last.
    pub drawn: LinkedList<u32>,
    /// Whether the last draw was `None`.
    pub is_done: bool,
    /// The fuel that each of its requests took.
    pub granted: LinkedList<u64>,
    /// The fuel that each of its other requests asked for.
    pub refused: LinkedList<u64>,
    /// The fuel that the seat last saw.
    pub seen: u64,
}
