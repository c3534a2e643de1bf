//! Tests of what the program is made of that are no rows of data: the files of the machine when a call on them fails, over a disk that is made for it; lines of
//! progress; random texts of calls; and what is shown of blocks that no row has: the most positions, calls that are not all there, and pictures that are
//! bounded. There is no code here.
#![tactic(auto)]

#[cfg(test)]
mod assertions;
#[cfg(test)]
mod blocks;
#[cfg(test)]
mod drawings;
#[cfg(test)]
mod machine_files;
#[cfg(test)]
mod made;
#[cfg(test)]
mod missing_calls;
#[cfg(test)]
mod noise;
#[cfg(test)]
mod orders;
#[cfg(test)]
mod progress;
#[cfg(test)]
mod replacing;
#[cfg(test)]
mod sinks;
