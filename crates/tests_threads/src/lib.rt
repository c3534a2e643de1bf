//! Tests of threads that share a book, a lock, a queue, lanes or an intake, and of what a pace is told. There is no code here.
#![tactic(auto)]

#[cfg(test)]
mod assertions;
#[cfg(test)]
mod brief_locks;
#[cfg(test)]
mod intakes;
#[cfg(test)]
mod paces;
#[cfg(test)]
mod shared_books;
#[cfg(test)]
mod shared_lanes;
#[cfg(test)]
mod shared_queues;
#[cfg(test)]
mod waiting;
