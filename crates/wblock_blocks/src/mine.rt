//! The command `mine WORLD CALLS BLOCK NEXT --fuel N [--workers 4] [--boosted] [--tries 3] [--json]`: a block of calls over a world, and the world after it.

ghost use Rattle.std.specs.Prelude.{◌≡◌, ◌≤◌, false, IsTrue, IfOk, IfErr, OnOk, length, string_bytes, vec_len};
ghost use Rattle.spec_ledger.specs.declared.Version.TheVariants.{Two};
ghost use Rattle.spec_ledger.specs.Order.{first_fit};
ghost use Rattle.spec_block.specs.Worlds.{limits, order_of};
ghost use Rattle.spec_block.specs.Headline.{Headline, IsLeft};
ghost use Rattle.world.specs.Views.{world_view};
ghost use Rattle.wblock_line.specs.Answers.{CountsFault, IsOfFile, upshot_of};
ghost use Rattle.wblock_line.specs.Inputs.{IsNextInput};
ghost use Rattle.wblock_line.specs.Forms.{IsRefusalIn};
ghost use Rattle.wblock_line.specs.Transitions.{leaving, note_in, WritesBeside};
ghost use Rattle.wblock_line.specs.declared.transition.Transition.TheVariants as transition;
ghost use Rattle.wblock_blocks.specs.Mines.{IsDone, IsMinedText, Mines, MinesOver};
ghost use Rattle.wblock_blocks.specs.Notes.{IsNoteOf, Notes};

use crate::note::note_of;
use crate::objects::mined_line_of;
use crate::text::block_text_of;
use block::{Block, encode_block};
use call::Call;
use miner::{Mined, mine};
use pace::{Pace, Watched};
use std::alloc::{AllocError, Global};
use std::sync::Wait;
use std::thread::Threads;
use wblock_io::Files;
use wblock_line::{
    Change, Fault, Inputs, NextWorld, Noted, Transition, Write, read_inputs, refuse, with_world,
};
use world::World;
use wtypes::NoMemory;

/// What is to be mined.
#[derive(Clone, Copy, Debug)]
pub struct Mining<'a> {
    /// The name of the file of the world.
    pub world: &'a str,
    /// The name of the file of the calls.
    pub calls: &'a str,
    /// The name of the file that is to hold the block.
    pub block: &'a str,
    /// The name of the file that is to hold the world after the block.
    pub next: &'a str,
    /// The block's fuel.
    pub fuel: u64,
    /// How many workers run the calls, 1 to 64.
    pub workers: u32,
    /// How often a worker over one book tries a call at most, 1 to 16.
    pub tries: u32,
    /// Whether workers over one book run the calls, as the papers describe it: then the order is theirs, and else that of the list.
    pub boosted: bool,
    /// Whether it is told as JSON.
    pub json: bool,
}

/// What is mined of calls over a world.
fn mine_calls<R: Threads + Wait + Sync, P: Pace>(
    rt: &R,
    alloc: Global,
    world: &World,
    calls: &[Call],
    task: Mining,
    pace: &P,
) -> Result<Mined, NoMemory>
    requires calls { length calls.now ≤ 65535 }
    requires workers { (1 ≤ task.workers) × (task.workers ≤ 64) }
    requires tries { (1 ≤ task.tries) × (task.tries ≤ 16) }
    ensures headline { IfOk result (λ mined. Headline (world_view world.now) calls.now task.entry.fuel mined.block (world_view mined.world)) }
    ensures version { IfOk result (λ mined. mined.block.version ≡ Two) }
    ensures order { IfOk result (λ mined. task.entry.boosted ≡ false → order_of mined.block ≡ first_fit (limits calls.now) task.entry.fuel) }
    ensures left { IfOk result (λ mined. IsLeft calls.now (order_of mined.block) mined.left.items) }
{
    let watches = task.boosted;
    mine(
        rt,
        alloc,
        world,
        calls,
        task.fuel,
        task.workers,
        task.tries,
        &Watched { pace, watches },
    )
}

/// What is printed of a block of these calls, which leaves these out.
fn mined_text_of(
    alloc: Global,
    json: bool,
    calls: &[Call],
    block: &Block,
    left: &[u32],
) -> Result<String, AllocError>
    ensures { IfOk result (λ text. IsMinedText json block.now calls.now left.now (string_bytes text)) }
{
    if json {
        mined_line_of(alloc, block, calls, left)
    } else {
        block_text_of(alloc, block, left)
    }
}

/// What a mined block does: the block is to be written, and then the world after it, and the block is to be told.
fn change_of<'a>(
    alloc: Global,
    world: &World,
    calls: &[Call],
    task: Mining<'a>,
    mined: Mined,
) -> Result<Change<'a>, NoMemory>
    ensures done { IfOk result (λ change. IsDone task.entry mined.block (world_view mined.world) calls.now mined.left.items (leaving (transition.Done change))) }
    ensures note { IfOk result (λ change. IsNoteOf mined.block.positions (string_bytes change.note)) }
    ensures beside { IfOk result (λ change. vec_len change.writes ≡ 1) }
{
    let Mined {
        block,
        world: next,
        left,
        by_workers: _,
    } = mined;
    let bytes = encode_block(alloc, &block)?;
    let text = mined_text_of(alloc, task.json, calls, &block, &left)?;
    let note = note_of(alloc, world.contracts(), calls, block.positions())?;
    let mut writes = Vec::new(alloc);
    writes.push(Write {
        name: task.block,
        bytes,
    })?;
    let next = NextWorld {
        name: task.next,
        world: next,
    };
    Ok(Change {
        writes,
        next: Some(next),
        text,
        note,
    })
}

/// What `mine` comes to over a world and calls: a block of the calls is to be written, and then the world after it, which has no bytes yet, and the
/// block is to be told, in lines or as JSON. Behind it something is to be said of the calls that did not return. The pace is told the steps of the workers;
/// what it says of watching is not asked, since the task says it. No name of a file is looked at.
///
/// # Errors
///
/// Memory was refused.
pub fn mine_over<'a, R: Threads + Wait + Sync, P: Pace>(
    rt: &R,
    alloc: Global,
    world: &World,
    calls: &[Call],
    task: Mining<'a>,
    pace: &P,
) -> Result<Transition<'a>, NoMemory>
    requires calls { length calls.now ≤ 65535 }
    requires workers { (1 ≤ task.workers) × (task.workers ≤ 64) }
    requires tries { (1 ≤ task.tries) × (task.tries ≤ 16) }
    ensures mines { IfOk result (λ t. MinesOver (world_view world.now) calls.now task.entry (leaving t)) }
    ensures notes { IfOk result (λ t. Notes (leaving t) (note_in t)) }
    ensures beside { IfOk result (WritesBeside 1) }
{
    let mined = mine_calls(rt, alloc, world, calls, task, pace)?;
    let change = change_of(alloc, world, calls, task, mined)?;
    Ok(Transition::Done(change))
}

/// The same, with the bytes of the world after the block.
fn mine_encoded<'a, R: Threads + Wait + Sync, P: Pace>(
    rt: &R,
    alloc: Global,
    world: &World,
    calls: &[Call],
    task: Mining<'a>,
    pace: &P,
) -> Result<Noted<'a>, NoMemory>
    requires calls { length calls.now ≤ 65535 }
    requires workers { (1 ≤ task.workers) × (task.workers ≤ 64) }
    requires tries { (1 ≤ task.tries) × (task.tries ≤ 16) }
    ensures mines { IfOk result (λ n. MinesOver (world_view world.now) calls.now task.entry (upshot_of n.answer)) }
    ensures notes { IfOk result (λ n. Notes (upshot_of n.answer) (string_bytes n.note)) }
{
    let transition = mine_over(rt, alloc, world, calls, task, pace)?;
    let noted = with_world(alloc, transition)?;
    Ok(noted)
}

/// The answer that the world or the calls are refused, with this line and this sentence. Nothing is said behind it.
#[tactic(auto, using(crate::proofs::Silent::of_refusal))]
fn refuse_inputs<'a>(
    alloc: Global,
    json: bool,
    line: String,
    why: String,
) -> Result<Noted<'a>, Fault<'a>>
    ensures told { IfOk result (λ n. IsRefusalIn json (string_bytes line) n.answer) }
    ensures notes { IfOk result (λ n. Notes (upshot_of n.answer) (string_bytes n.note)) }
    ensures fault { IfErr result (λ f. f ≡ Fault.NoMemory) }
{
    match refuse(alloc, json, line, why) {
        Ok(answer) => Ok(Noted {
            answer,
            note: String::new(alloc),
        }),
        Err(fault) => Err(fault),
    }
}

/// What `mine` comes to: a block of the calls over the world is to be written, and then the world after it, and the block is to be told; or why the
/// world or the calls are refused. It is told in lines or as JSON. No file is written yet. Behind a block something is to be said on standard
/// error of the calls that did not return. The pace is told the steps of the workers; what it says of watching is not asked, since the command says it.
pub fn mine_block<'a, R: Threads + Wait + Sync, F: Files, P: Pace>(
    rt: &R,
    alloc: Global,
    files: &mut F,
    task: Mining<'a>,
    pace: &P,
) -> Result<Noted<'a>, Fault<'a>>
    requires workers { (1 ≤ task.workers) × (task.workers ≤ 64) }
    requires tries { (1 ≤ task.tries) × (task.tries ≤ 16) }
    ensures answers { IfOk result (λ n. IsTrue F.tells → Mines (F.holds files.old) task.entry (upshot_of n.answer)) }
    ensures notes { IfOk result (λ n. Notes (upshot_of n.answer) (string_bytes n.note)) }
    ensures kept { IsTrue F.tells → F.holds files.new ≡ F.holds files.old }
    ensures calm { OnOk result (F.failures files.new ≡ F.failures files.old) }
    ensures counted { IfErr result (λ f. CountsFault f (F.failures files.old) (F.failures files.new)) }
    ensures next { IfErr result (IsOfFile (λ name. IsTrue F.tells → IsNextInput (F.holds files.old) task.entry.world.now task.entry.calls.now name)) }
{
    let (world, calls) = match read_inputs(alloc, files, task.world, task.calls)? {
        Inputs::Read(world, calls) => (world, calls),
        Inputs::Refused(line, why) => return refuse_inputs(alloc, task.json, line, why),
    };
    match mine_encoded(rt, alloc, &world, &calls, task, pace) {
        Ok(noted) => Ok(noted),
        Err(NoMemory) => Err(Fault::NoMemory),
    }
}
