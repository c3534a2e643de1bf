//! The figures of a block.

ghost use Rattle.std.specs.Prelude.{◌≡◌, ◌<◌, ◌≤◌, ◌^◌, ◌↔◌, ◌+◌, ℕ, IfOk, IfSome, IsSome, length, slice_index, sum, replicate};
ghost use Rattle.spec_block.specs.Worlds.{profiles_in};
ghost use Rattle.figures.specs.Chains.{fuels_of, AreForward, AreHeaviest, AreHeavy, IsGreatest};
ghost use Rattle.figures.specs.Figures.{AreChains, AreFigures};

use crate::hottest::{SharedLock, hottest_of};
use crate::outcomes::{OutcomeCount, outcomes_of};
use crate::sums::sums_of;
use block::{Block, Position};
use std::alloc::Global;
use wtypes::NoMemory;

/// What of a block must come one after another.
#[derive(Debug, Drop)]
pub struct Chains {
    /// The wave of each position: the length of the longest path of edges to it.
    pub waves: Vec<u32>,
    /// One more than the greatest wave, 0 where there is no position: the positions of the longest path.
    pub wave_count: u32,
    /// The most fuel that the positions of a path use together.
    pub chain_fuel: u128,
}

/// The figures of a block.
#[derive(Debug, Drop)]
pub struct Figures {
    /// What must come one after another. None where an edge goes back in the order, which is so in no block that a miner makes.
    pub chains: Option<Chains>,
    /// The fuel that all positions use.
    pub total_fuel: u128,
    /// The ten locks that the most positions hold, of those that two or more hold.
    pub hottest: Vec<SharedLock>,
    /// How many positions have an outcome of each kind that some have.
    pub outcomes: Vec<OutcomeCount>,
}

/// The fuel that each position used.
fn fuels(alloc: Global, positions: &[Position]) -> Result<Vec<u64>, NoMemory>
    ensures { IfOk result (λ list. list.items ≡ fuels_of positions.now) }
{
    let mut list = Vec::new(alloc);
    for position in positions {
        list.push(position.receipt().used)?;
    }
    Ok(list)
}

fn total_of(numbers: &[u64]) -> u128
    requires { length numbers.now < 2 ^ 16 }
    ensures total { result ≡ sum numbers.now }
    ensures small { result < 2 ^ 80 }
{
    let mut total = 0;
    for number in numbers {
        total += *number as u128;
    }
    total
}

fn greatest_of(numbers: &[u128]) -> u128
    ensures { IsGreatest numbers.now result }
{
    let mut most = 0;
    for number in numbers {
        if most < *number {
            most = *number;
        }
    }
    most
}

/// The waves of positions, of which each is one less than how many positions the longest path to it has.
fn waves_of(alloc: Global, counts: &[u128]) -> Result<Vec<u32>, NoMemory>
    requires { (i : ℕ) → i < length counts.now → (0 < slice_index counts.now i) × (slice_index counts.now i < 2 ^ 32) }
    ensures each { IfOk result (λ waves. length waves.items ≡ length counts.now) }
    ensures less { IfOk result (λ waves. (i : ℕ) → i < length counts.now → slice_index waves.items i + 1 ≡ slice_index counts.now i) }
{
    let mut waves = Vec::new(alloc);
    for count in counts {
        waves.push((*count - 1) as u32)?;
    }
    Ok(waves)
}

/// So many ones.
fn ones_of(alloc: Global, count: usize) -> Result<Vec<u64>, NoMemory>
    ensures { IfOk result (λ ones. ones.items ≡ replicate count 1) }
{
    let ones = vec![in alloc; 1; count]?;
    Ok(ones)
}

/// How many positions the longest path to each position has.
fn lengths_of(alloc: Global, positions: &[Position]) -> Result<Option<Vec<u128>>, NoMemory>
    requires { length positions.now < 2 ^ 16 }
    ensures forward { IfOk result (λ counts. IsSome counts ↔ AreForward (profiles_in positions.now)) }
    ensures each { IfOk result (λ counts. IfSome counts (λ list. length list.items ≡ length positions.now)) }
    ensures counts { IfOk result (λ counts. IfSome counts (AreHeaviest (profiles_in positions.now) (replicate (length positions.now) 1))) }
{
    let ones = ones_of(alloc, positions.len())?;
    sums_of(alloc, positions, &ones)
}

/// What must come one after another, of how many positions the longest path to each has, and of the most fuel that the positions of one
/// use.
fn chains_from(
    alloc: Global,
    positions: &[Position],
    counts: &[u128],
    sums: &[u128],
) -> Result<Chains, NoMemory>
    requires few { length positions.now < 2 ^ 16 }
    requires forward { AreForward (profiles_in positions.now) }
    requires each_count { length counts.now ≡ length positions.now }
    requires counts { AreHeavy (profiles_in positions.now) (replicate (length positions.now) 1) counts.now }
    requires each_sum { length sums.now ≡ length positions.now }
    requires sums { AreHeavy (profiles_in positions.now) (fuels_of positions.now) sums.now }
    ensures { IfOk result (AreChains (profiles_in positions.now) (fuels_of positions.now)) }
{
    let _count = positions.len();
    let waves = waves_of(alloc, counts)?;
    Ok(Chains {
        waves,
        wave_count: greatest_of(counts) as u32,
        chain_fuel: greatest_of(sums),
    })
}

/// What of these positions must come one after another, where each edge goes forward in the order.
fn chains_of(
    alloc: Global,
    positions: &[Position],
    fuels: &[u64],
) -> Result<Option<Chains>, NoMemory>
    requires few { length positions.now < 2 ^ 16 }
    requires fuels { fuels.now ≡ fuels_of positions.now }
    ensures forward { IfOk result (λ chains. IsSome chains ↔ AreForward (profiles_in positions.now)) }
    ensures chains { IfOk result (λ chains. IfSome chains (AreChains (profiles_in positions.now) (fuels_of positions.now))) }
{
    let Some(counts) = lengths_of(alloc, positions)? else {
        return Ok(None);
    };
    let Some(sums) = sums_of(alloc, positions, fuels)? else {
        return Ok(None);
    };
    let chains = chains_from(alloc, positions, &counts, &sums)?;
    Ok(Some(chains))
}

/// The figures of a block, whatever its turns are. It takes n log n steps for n entries in all.
///
/// # Errors
///
/// The allocator refused memory.
pub fn figures_of(alloc: Global, block: &Block) -> Result<Figures, NoMemory>
    ensures figures { IfOk result (AreFigures block.now) }
    ensures small { IfOk result (λ f. f.total_fuel < 2 ^ 80) }
{
    block.use_invariant();
    let fuels = fuels(alloc, block.positions())?;
    Ok(Figures {
        chains: chains_of(alloc, block.positions(), &fuels)?,
        total_fuel: total_of(&fuels),
        hottest: hottest_of(alloc, block.positions())?,
        outcomes: outcomes_of(alloc, block.positions())?,
    })
}
