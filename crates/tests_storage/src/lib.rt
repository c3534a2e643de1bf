//! Tests of storage and of the book of calls that are no rows of data: calls of one thread and of two over a book in 1, 2 and 16 shards, each block of memory
//! refused in turn, and the allocator that refuses it. There is no code here.
#![tactic(auto)]

#[cfg(test)]
mod assertions;
#[cfg(test)]
mod books;
#[cfg(test)]
mod held;
#[cfg(test)]
mod levels;
#[cfg(test)]
mod parts;
#[cfg(test)]
mod rations;
#[cfg(test)]
mod refused;
#[cfg(test)]
mod scripts;
#[cfg(test)]
mod whole;
