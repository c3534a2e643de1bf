// A call that runs, and touches cells.
ghost use Rattle.std.specs.Prelude.{◌≡◌, ◌<◌, ◌^◌, [], IfOk, OnOk};
ghost use Rattle.interp.specs.Callee.{setting_view};
ghost use Rattle.interp.specs.Progress.{IsFree, IsSameCall};
ghost use Rattle.serial.specs.MachineProgress.{IsEnded};
ghost use Rattle.serial.specs.Touches.{AreFoundBy, AreTouchesOf, IsPlayedBeside, WereTouchedBy};

use crate::over_view::Reads;
use crate::storage_loop::{Storage, play_over, run_on};
use crate::touches::{Touch, act, leave};
use call::Call;
use interp::finished::Finished;
use interp::machine::Machine;
use link::deployed::Deployed as Contract;
use spec_ledger::{Inverse, Lock, NoMemory, Op, Reply, Version};
use std::alloc::Allocator;
use std::collections::BTreeMap;

/// A view that a call runs over, with what the call touched and the inverses of what it did, first to last. The marks are how many inverses there were where
/// each open level was entered, the innermost last.
#[derive(Drop)]
struct OverView<'v, V: Reads, A: Allocator> {
    view: &'v V,
    touches: BTreeMap<Lock, Touch, A>,
    inverses: Vec<Inverse, A>,
    marks: Vec<usize, A>,
}

impl<V: Reads, A: Allocator + Copy> Storage for OverView<'_, V, A> {
    type Refusal = NoMemory;

    ghost led = { λ start trace now. (now.view.now ≡ start.view.now) × (AreTouchesOf trace now.touches.entries now.inverses.items now.marks.items × AreFoundBy (V.may_read now.view.now) now.touches.entries) };

    ghost left = { λ _ _ _. Unit {0} };

    ghost stay = { λ _ _ _ _. tt };

    fn act(&mut self, _asked: u64, op: Op) -> Result<Reply, NoMemory> {
        let reply = act(self.view, &mut self.touches, &mut self.inverses, op)?;
        Ok(reply)
    }

    fn enter(&mut self) -> Result<(), NoMemory> {
        self.marks.push(self.inverses.len())?;
        Ok(())
    }

    fn leave(&mut self, keep: bool) -> Result<(), NoMemory> {
        leave(&mut self.touches, &mut self.inverses, &mut self.marks, keep);
        Ok(())
    }

    fn no_memory() -> NoMemory {
        NoMemory
    }
}

/// Runs a call over a view by the rules of this version, and answers its run with what it touched.
pub(crate) fn play<'a, A: Allocator + Copy, V: Reads>(
    alloc: A,
    contracts: &'a [Contract<A>],
    call: &'a Call,
    view: &V,
    version: Version,
) -> Result<(Finished<'a, A>, BTreeMap<Lock, Touch, A>), NoMemory>
    ensures played { IfOk result (λ r. IsPlayedBeside (setting_view version contracts.now) call.now r.0 r.1.entries) }
    ensures read { IfOk result (λ r. AreFoundBy (V.may_read view.now) r.1.entries) }
{
    let touches = BTreeMap::new(alloc);
    let inverses = Vec::new(alloc);
    let marks = Vec::new(alloc);
    let mut storage = OverView {
        view,
        touches,
        inverses,
        marks,
    };
    let finished = play_over(alloc, contracts, call, version, &mut storage)?;
    let OverView {
        view: _,
        touches,
        inverses: _,
        marks: _,
    } = storage;
    Ok((finished, touches))
}

/// Runs a call that a machine has begun over a view, and answers what it touched.
pub(crate) fn play_begun<'a, A: Allocator + Copy, V: Reads>(
    alloc: A,
    machine: &mut Machine<'a, A>,
    view: &V,
) -> Result<BTreeMap<Lock, Touch, A>, NoMemory>
    requires free { IsFree machine.old.status }
    requires first { machine.old.trace ≡ [] }
    requires limit { machine.old.call.fuel < 2 ^ 64 }
    ensures same { OnOk result (IsSameCall machine.old machine.new) }
    ensures ended { OnOk result (IsEnded machine.new.status) }
    ensures touched { IfOk result (λ touches. WereTouchedBy machine.new.trace touches.entries) }
    ensures read { IfOk result (λ touches. AreFoundBy (V.may_read view.now) touches.entries) }
{
    let touches = BTreeMap::new(alloc);
    let inverses = Vec::new(alloc);
    let marks = Vec::new(alloc);
    let mut storage = OverView {
        view,
        touches,
        inverses,
        marks,
    };
    run_on(machine, &mut storage)?;
    let OverView {
        view: _,
        touches,
        inverses: _,
        marks: _,
    } = storage;
    Ok(touches)
}
