//! The verdict on a block whose calls were run.

ghost use Rattle.std.specs.Prelude.{◌≡◌, ◌≤◌, ◌↔◌, ℕ, List, IfOk, IsTrue, length};
ghost use Rattle.serial.specs.Positions.{results_of};
ghost use Rattle.spec_block.specs.Worlds.{Call as TheCall};
ghost use Rattle.sha2.specs.Sha256.{sha256};
ghost use Rattle.spec_block.specs.Bytes.{world_bytes};
ghost use Rattle.spec_block.specs.Verdicts.{HoldsOf, RunOf};
ghost use Rattle.block_judge.specs.Judging.{IsFirstFrom};
ghost use Rattle.world.specs.Views.{world_view};
ghost use Rattle.in_order.specs.Progress.{IsProgressOf};
ghost use Rattle.validator.specs.Jobs.{IsJob};
ghost use Rattle.validator.specs.VerdictsFound.{Concludes, IsCompared, verdict_view};
ghost use Rattle.validator.specs.Trials.{IsFirst, IsFit, MayRun};

use crate::compare::{Compared, compare};
use crate::job::Job;
use crate::trial::Trial;
use crate::verdict::{Validated, Verdict};
use block::Block;
use block_judge::Reason;
use in_order::OrderProgress;
use lock_profile::Touched;
use pace::{Pace, digesters};
use serial::{Core, serial_core};
use spec_ledger::{NoMemory, Receipt};
use std::alloc::Allocator;
use std::thread::{Threads, join};
use world::{World, digest_world, world_after};

fn is_digest(a: &[u8; 32], b: &[u8; 32]) -> bool
    ensures { IsTrue result ↔ (a.now ≡ b.now) }
{
    a == b
}

/// Compares what a block says of its calls with what they came to, and gives the digest of the world after them, each of the two by a thread of its own where
/// there are two workers or more.
fn compare_and_digest<R: Threads + Sync, A: Allocator + Copy + Send + Sync>(
    rt: &R,
    alloc: &A,
    block: &Block<A>,
    receipts: Vec<Receipt, A>,
    touched: Vec<Touched<A>, A>,
    next: &World<A>,
    workers: u32,
) -> Result<(Compared, [u8; 32]), NoMemory>
    requires few { length block.now.positions ≤ 65535 }
    requires receipts { length receipts.items ≡ length block.now.positions }
    requires touched { length touched.items ≡ length block.now.positions }
    ensures compared { IfOk result (λ r. IsCompared block.now receipts.items touched.items r.0) }
    ensures digest { IfOk result (λ r. r.1 ≡ sha256 (world_bytes (world_view next.now))) }
{
    if workers < 2 {
        let compared = compare(block, receipts, touched);
        let digest = digest_world(*alloc, next)?;
        return Ok((compared, digest));
    }
    let (digest, compared) = join(
        rt,
        move || -> Result<[u8; 32], NoMemory>
            ensures { IfOk result (λ digest. digest ≡ sha256 (world_bytes (world_view next.entry.now))) }
        { digest_world(*alloc, next) },
        move || -> Compared
            requires { (length block.now.positions ≤ 65535) × (length receipts.items ≡ length block.now.positions) × (length touched.items ≡ length block.now.positions) }
            ensures { IsCompared block.entry.now receipts.items touched.items result }
        { compare(block, receipts, touched) },
    );
    Ok((compared, digest?))
}

/// The verdict on a block that none of the first seven reasons speaks against and whose calls left this world, by how what it says of them stands to what they
/// came to, and by the digest of the world.
fn verdict_by<A: Allocator>(
    block: &Block<A>,
    compared: Compared,
    digest: &[u8; 32],
    next: World<A>,
) -> Verdict<A>
    ensures { Concludes block.now compared digest.now (world_view next) (verdict_view result) }
{
    spec_block::one_serial_run();
    if let Some(position) = compared.deviating {
        return Verdict::Reject(Reason::Deviates(position));
    }
    if !compared.is_total {
        return Verdict::Reject(Reason::WrongEnd);
    }
    if !is_digest(block.after(), digest) {
        return Verdict::Reject(Reason::WrongEnd);
    }
    Verdict::Accept(next)
}

/// The verdict on a block that none of the first seven reasons speaks against, whose calls came to this. The world after a block that is accepted keeps its digest.
fn conclude<R: Threads + Sync, A: Allocator + Copy + Send + Sync>(
    rt: &R,
    alloc: A,
    world: &World<A>,
    block: &Block<A>,
    ran: OrderProgress<A>,
    workers: u32,
) -> Result<Verdict<A>, NoMemory>
    requires few { length block.now.positions ≤ 65535 }
    requires receipts { length ran.receipts.items ≡ length block.now.positions }
    requires touched { length ran.touched.items ≡ length block.now.positions }
    ensures { IfOk result (λ verdict. (calls : List TheCall) (fuel : ℕ) → RunOf (world_view world.now) calls block.now (results_of ran.receipts.items ran.touched.items) ran.cells.cells → IsFirstFrom (HoldsOf (world_view world.now) calls fuel block.now) 8 (verdict_view verdict)) }
{
    let OrderProgress {
        receipts,
        touched,
        cells,
        ahead: _,
    } = ran;
    let next = world_after(alloc, world, cells)?;
    let threads = digesters(workers, next.cells(), receipts.len());
    let (compared, digest) = compare_and_digest(
        rt, &alloc, block, receipts, touched, &next, threads,
    )?;
    Ok(verdict_by(block, compared, &digest, next.with_digest(digest)))
}

/// How many of the calls were not done by what they did ahead of their turn.
fn count_again<A: Allocator>(ran: &OrderProgress<A>) -> u32
    requires few { length ran.now.receipts.items ≤ 65535 }
    requires ahead { ran.now.ahead ≤ length ran.now.receipts.items }
    ensures { result ≤ length ran.now.receipts.items }
{
    ran.receipts.len() as u32 - ran.ahead
}

/// What is found of a block that none of the first seven reasons speaks against, all of whose calls have run.
pub(crate) fn end<'a, R: Threads + Sync, A: Allocator + Copy + Send + Sync, P: Pace>(
    rt: &R,
    job: &Job<'_, 'a, A, P>,
    ran: OrderProgress<A>,
    workers: u32,
) -> Result<Validated<A>, NoMemory>
    requires job { IsJob job.now }
    requires fit { IsFit job.now.trial.now }
    requires ran { IsProgressOf job.now.ordered ran }
    requires whole { length ran.receipts.items ≡ length job.now.ordered.order.now }
    ensures verdict { IfOk result (λ found. IsFirst job.now.trial.now (verdict_view found.verdict)) }
    ensures again { IfOk result (λ found. found.again ≤ length job.now.trial.now.block.now.positions) }
{
    let again = count_again(&ran);
    let trial = job.trial;
    let verdict = conclude(
        rt,
        job.ordered.alloc,
        trial.world,
        trial.block,
        ran,
        workers,
    )?;
    Ok(Validated { verdict, again })
}

/// What is found of a block that none of the first seven reasons speaks against: the caller runs its calls here, one after another.
pub(crate) fn end_alone<A: Allocator + Copy>(
    alloc: A,
    trial: &Trial<'_, A>,
) -> Result<Validated<A>, NoMemory>
    requires trial { MayRun trial.now }
    requires fit { IsFit trial.now }
    ensures { IfOk result (λ found. IsFirst trial.now (verdict_view found.verdict)) }
{
    let Core {
        receipts,
        touched,
        cells,
    } = serial_core(
        alloc,
        trial.world.contracts(),
        trial.world.cells(),
        trial.calls,
        trial.order,
        trial.block.version(),
    )?;
    trial.block.use_invariant();
    let again = trial.block.positions().len() as u32;
    let next = world_after(alloc, trial.world, cells)?;
    let compared = compare(trial.block, receipts, touched);
    let digest = digest_world(alloc, &next)?;
    let verdict = verdict_by(trial.block, compared, &digest, next);
    Ok(Validated { verdict, again })
}
