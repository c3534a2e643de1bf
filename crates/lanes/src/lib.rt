//! What threads hand to one another without a lock: lanes of positions, of which each worker has one, which it pushes to and takes from, and each other
//! worker may steal from it; and a bounded queue, each of whose items is known to meet one fact beside a key that was fixed when the queue was opened.
#![tactic(auto)]

mod lane;
mod parcel;
mod pass;
mod queue_rule;
mod rule;
mod thief;
mod typed_queue;

ghost use Rattle.std.specs.Prelude.{◌≡◌, ◌<◌, ◌++◌, ◌∷◌, [], All, IfOk, OnOk, length, map, reverse};
ghost use Rattle.lanes.specs.Lanes.{HasNothing, HaveWaysToOthers, IsNew, IsNewPair, LeadToOthers, deques_of, ends_of, others};

pub use lane::Lane;
pub use pass::QueuePass;
pub use queue_rule::ItemFact;
use std::alloc::Allocator;
pub use thief::Thief;
use thief::Way;
pub use typed_queue::TypedQueue;
use wtypes::NoMemory;

/// An empty lane for each worker.
fn empty_lanes<A: Allocator + Copy>(alloc: A, workers: u32) -> Result<Vec<Lane<A>, A>, NoMemory>
    ensures len { IfOk result (λ all. length all.items ≡ workers) }
    ensures new { IfOk result (λ all. All IsNew all.items) }
{
    let mut all = Vec::new(alloc);
    for _worker in 0..workers {
        all.push(Lane::open(alloc)?)?;
    }
    Ok(all)
}

/// Adds a way into each of these lanes.
fn add_ways<A: Allocator + Copy>(
    ways: &mut Vec<Way<A>, A>,
    lanes: &[Lane<A>],
) -> Result<(), NoMemory>
    requires { HasNothing ways.old.items }
    ensures new { OnOk result (HasNothing ways.new.items) }
    ensures ends { OnOk result (ends_of ways.new.items ≡ ends_of ways.old.items ++ deques_of lanes.now) }
{
    for lane in lanes {
        ways.push(Way::open(lane)?)?;
    }
    Ok(())
}

/// The thief of a worker: a way into each other lane, the next one first.
fn thief_of<A: Allocator + Copy>(
    alloc: A,
    lanes: &[Lane<A>],
    me: usize,
) -> Result<Thief<A>, NoMemory>
    requires { me < length lanes.now }
    ensures new { IfOk result HasNothing }
    ensures ends { IfOk result (λ thief. ends_of thief ≡ others me (deques_of lanes.now)) }
{
    let mut ways = Vec::new(alloc);
    add_ways(&mut ways, &lanes[me + 1..])?;
    add_ways(&mut ways, &lanes[..me])?;
    Ok(Thief::of(ways))
}

/// The thieves of all workers.
fn thieves_of<A: Allocator + Copy>(
    alloc: A,
    lanes: &[Lane<A>],
) -> Result<Vec<Thief<A>, A>, NoMemory>
    ensures len { IfOk result (λ all. length all.items ≡ length lanes.now) }
    ensures new { IfOk result (λ all. All HasNothing all.items) }
    ensures ways { IfOk result (λ all. HaveWaysToOthers lanes.now all.items) }
{
    let mut all = Vec::new(alloc);
    for me in 0..lanes.len() {
        all.push(thief_of(alloc, lanes, me)?)?;
    }
    Ok(all)
}

/// Adds a pair.
fn push_pair<A: Allocator + Copy>(
    pairs: &mut Vec<(Lane<A>, Thief<A>), A>,
    lane: Lane<A>,
    thief: Thief<A>,
) -> Result<(), NoMemory>
    requires pairs { All IsNewPair pairs.old.items }
    requires lane { IsNew lane }
    requires thief { HasNothing thief }
    ensures new { OnOk result (All IsNewPair pairs.new.items) }
    ensures pushed { OnOk result (pairs.new.items ≡ pairs.old.items ++ (lane, thief) ∷ []) }
{
    pairs.push((lane, thief))?;
    Ok(())
}

/// Each lane with the thief at its place, the last first.
fn paired<A: Allocator + Copy>(
    alloc: A,
    mut lanes: Vec<Lane<A>, A>,
    mut thieves: Vec<Thief<A>, A>,
) -> Result<Vec<(Lane<A>, Thief<A>), A>, NoMemory>
    requires lanes { All IsNew lanes.items }
    requires thieves { All HasNothing thieves.items }
    requires as_many { length thieves.items ≡ length lanes.items }
    ensures new { IfOk result (λ pairs. All IsNewPair pairs.items) }
    ensures lanes { IfOk result (λ pairs. reverse (map (λ pair. pair.0) pairs.items) ≡ lanes.items) }
    ensures thieves { IfOk result (λ pairs. reverse (map (λ pair. pair.1) pairs.items) ≡ thieves.items) }
{
    let mut pairs = Vec::new(alloc);
    while let Some(lane) = lanes.pop() {
        let Some(thief) = thieves.pop() else {
            unreachable!()
        };
        push_pair(&mut pairs, lane, thief)?;
    }
    Ok(pairs)
}

/// A lane for each worker, and a thief that steals from the lanes of the others.
///
/// # Errors
///
/// Memory was refused.
pub fn lanes<A: Allocator + Copy>(
    alloc: A,
    workers: u32,
) -> Result<Vec<(Lane<A>, Thief<A>), A>, NoMemory>
    ensures size { IfOk result (λ pairs. length pairs.items ≡ workers) }
    ensures new { IfOk result (λ pairs. All IsNewPair pairs.items) }
    ensures others { IfOk result (λ pairs. LeadToOthers pairs.items) }
{
    let all = empty_lanes(alloc, workers)?;
    let thieves = thieves_of(alloc, &all)?;
    let pairs = paired(alloc, all, thieves)?;
    Ok(pairs)
}
