//! Tests of blocks that several threads mine and judge: under a pace that does not watch, by the calls of an order that threads run ahead of their turn; under
//! one that watches, over the book in shards, and by the board, the lanes and the cells ahead, where calls really meet. Workers are stopped, and refused memory.
//! There is no code here.
#![tactic(auto)]

#[cfg(test)]
mod assertions;
#[cfg(test)]
mod beyond;
#[cfg(test)]
mod given;
#[cfg(test)]
mod honest;
#[cfg(test)]
mod meetings;
#[cfg(test)]
mod met;
#[cfg(test)]
mod paces;
#[cfg(test)]
mod refused_memory;
#[cfg(test)]
mod road;
#[cfg(test)]
mod stops;
#[cfg(test)]
mod undone;
