//! Tests of memory, of the machine, of orders and of blocks that are no rows of data: memory and machines in heaps that refuse, what is sealed that ran
//! elsewhere, orders played to their end with memory refused at each block, what takes memory, where each block of it is refused in turn, counts without what
//! they count in small heaps, random bytes, and what refusals say. There is no code here.
#![tactic(auto)]

#[cfg(test)]
mod assertions;
#[cfg(test)]
mod counts;
#[cfg(test)]
mod games;
#[cfg(test)]
mod machine_in_heaps;
#[cfg(test)]
mod memory_in_heaps;
#[cfg(test)]
mod noise;
#[cfg(test)]
mod programs;
#[cfg(test)]
mod refusals;
#[cfg(test)]
mod refused_in_turn;
#[cfg(test)]
mod refused_memory;
#[cfg(test)]
mod sealed;
#[cfg(test)]
mod settings;
