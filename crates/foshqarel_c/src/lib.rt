//! The library for C and for whoever calls C: each export is a function of the bytes that it is passed, writes to the caller's buffers, and keeps nothing. `embed` does
//! the work, and `embed/foshqarel.h` declares the exports.
#![tactic(auto)]

mod blocks;
mod buffers;
mod cells;
mod changes;
mod modules;
mod receipts;
mod told;
mod worlds;
