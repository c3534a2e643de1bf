//! Tests of modules in binary and in text that are no rows of data: trees in arenas and in heaps of fixed size, trees at the limits of a module, the fronts of
//! a contract, and random modules, a thousand of them in binary, that are copied and written as text and come back. There is no code here.
#![tactic(auto)]

#[cfg(test)]
mod assertions;
#[cfg(test)]
mod bodies;
#[cfg(test)]
mod both;
#[cfg(test)]
mod heaps;
#[cfg(test)]
mod limits;
#[cfg(test)]
mod loading;
#[cfg(test)]
mod modules;
#[cfg(test)]
mod played;
#[cfg(test)]
mod source;
#[cfg(test)]
mod texts_in_heaps;
#[cfg(test)]
mod verdict;
#[cfg(test)]
mod written;
