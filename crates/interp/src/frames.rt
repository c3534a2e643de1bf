// The frames that are open in a machine, over its levels.
ghost use Rattle.std.specs.Prelude.{◌≡◌, IfOk};
ghost use Rattle.interp_state.specs.Frames.{frames_of};
ghost use Rattle.interp.specs.Chains.{chain};
ghost use Rattle.interp.specs.Machine.{progress};
ghost use Rattle.interp.specs.Progress.{GoesOn};
ghost use Rattle.interp.specs.Run.{seen};

use crate::machine::Machine;
use crate::run::Run;
use crate::turns::Status;
use interp_state::frames::{OpenFrame, add_frames, frames_of};
use spec_ledger::NoMemory;
use std::alloc::Allocator;

// The frames of the innermost level. One that has trapped has none.
fn innermost_frames<'a, A: Allocator + Copy>(
    run: &Run<'a, A>,
) -> Result<Vec<(u32, Option<u32>), A>, NoMemory>
    ensures { GoesOn run.now.status → IfOk result (λ frames. frames.items ≡ frames_of (progress (seen run.now)).config.inner.config) }
{
    match run.status {
        Status::Running => Ok(frames_of(run.alloc, &run.parts)?),
        Status::Fallen(_) => Ok(Vec::new(run.alloc)),
        Status::Asking(_) => Ok(Vec::new(run.alloc)),
        Status::Closing => Ok(Vec::new(run.alloc)),
        Status::Ended(_) => Ok(Vec::new(run.alloc)),
        Status::NoMemory => Ok(Vec::new(run.alloc)),
    }
}

// The frames of all levels.
fn frames_of_run<'a, A: Allocator + Copy>(run: &Run<'a, A>) -> Result<Vec<OpenFrame, A>, NoMemory>
    ensures { GoesOn run.now.status → IfOk result (λ frames. frames.items ≡ chain (progress (seen run.now)).config) }
{
    let mut chain = Vec::new(run.alloc);
    for level in 0..run.outer.len() {
        let waiting = &run.outer[level];
        let frames = frames_of(run.alloc, &waiting.parts)?;
        add_frames(&mut chain, level, waiting.lent.number, &frames)?;
    }
    let inner = innermost_frames(run)?;
    add_frames(&mut chain, run.outer.len(), run.lent.number, &inner)?;
    Ok(chain)
}

impl<'a, A: Allocator + Copy> Machine<'a, A> {
    ghost use Rattle.std.specs.Prelude.{◌≡◌, IfOk};
    ghost use Rattle.interp.specs.Chains.{chain};
    ghost use Rattle.interp.specs.Progress.{GoesOn};

    /// The frames that are open at all levels, from the outer level and its outer frame on. Nothing is said where the host is asked, after the end was told, and
    /// of a machine that was refused memory.
    ///
    /// # Errors
    ///
    /// Memory was refused.
    pub fn frames(&self) -> Result<Vec<OpenFrame, A>, NoMemory>
        ensures { GoesOn self.now.status → IfOk result (λ frames. frames.items ≡ chain self.now.config) }
    {
        frames_of_run(&self.run)
    }
}
