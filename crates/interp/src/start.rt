// Whether a call starts.
ghost use Rattle.std.specs.Prelude.{◌≡◌, ◌↔◌, ℕ, ◌≤◌, Option, length, IfOk, IfErr, IsTrue};
ghost use Rattle.spec_execution.specs.Configuration.{function_at};
ghost use Rattle.spec_execution.specs.Places.{body_of_function};
ghost use Rattle.spec_execution.specs.Run.{opening, Opens, Refused};
ghost use Rattle.module_tree.specs.View.{instrs_view};
ghost use Rattle.link.specs.Parts.{hosts_of};
ghost use Rattle.instance.specs.Views as opening_views;
ghost use Rattle.instance.specs.Views.{code_of, contract_of, deployed_view};
ghost use Rattle.spec_ledger.specs.declared.Version.{Version};
ghost use Rattle.interp.specs.Callee.{setting_view};
ghost use Rattle.interp.specs.Starting.{IsRefusedFor, HasPlace, HasCode, wrong_in};

use call::Call;
use instance::{Refusal, entry_of};
use link::deployed::Deployed;
use module_tree::instr::Instr;
use spec_ledger::NoMemory;
use std::alloc::{AllocError, Allocator};
use thiserror::Error;

/// Why a call does not start.
#[derive(Clone, Copy, Debug, PartialEq, Eq, Error)]
pub enum StartRefusal {
    /// There is no such contract.
    #[error("there is no such contract")]
    NoContract,
    /// Nothing is exported under the name.
    #[error("nothing is exported under the name")]
    NoExport,
    /// What is exported is no function of the module's own.
    #[error("what is exported is no function of the module's own")]
    NotFunction,
    /// There are too many arguments, or too few.
    #[error("there are too many arguments, or too few")]
    ArgCount,
    /// The argument of this place, from 0, is the first of another type.
    #[error("argument {0} is of another type")]
    ArgType(u32),
    /// Memory was refused.
    #[error("memory was refused")]
    NoMemory,
}

impl From<NoMemory> for StartRefusal {
    ghost use Rattle.std.specs.Prelude.{◌≡◌};
    ghost use Rattle.interp.specs.declared.start.StartRefusal.{StartRefusal};

    ghost from_gives = { λ _ refusal. refusal ≡ StartRefusal.NoMemory };

    fn from(_error: NoMemory) -> Self {
        StartRefusal::NoMemory
    }
}

impl From<AllocError> for StartRefusal {
    ghost use Rattle.std.specs.Prelude.{◌≡◌};
    ghost use Rattle.interp.specs.declared.start.StartRefusal.{StartRefusal};

    ghost from_gives = { λ _ refusal. refusal ≡ StartRefusal.NoMemory };

    fn from(_error: AllocError) -> Self {
        StartRefusal::NoMemory
    }
}

// The refusal of a call that does not open.
pub(crate) fn refusal_of(refusal: Refusal) -> StartRefusal
    ensures cause { IsRefusedFor result (Refused (code_of refusal)) }
    ensures place { (wrong : Option ℕ) → opening_views.HasPlace wrong refusal → HasPlace wrong result }
{
    match refusal {
        Refusal::NoContract => StartRefusal::NoContract,
        Refusal::NoExport => StartRefusal::NoExport,
        Refusal::NotFunction => StartRefusal::NotFunction,
        Refusal::ArgCount => StartRefusal::ArgCount,
        Refusal::ArgType(place) => StartRefusal::ArgType(place),
    }
}

/// The contract of a call, and the number of the function that the call starts with.
#[derive(Drop)]
pub(crate) struct Opened<'a, A: Allocator + Copy> {
    pub(crate) deployed: &'a Deployed<A>,
    pub(crate) func: u32,
}

// What a call opens with, in each version. Of several causes of a refusal it answers the first of: the contract, the export, the
// function, the number of arguments, their types.
pub(crate) fn open_call<'a, A: Allocator + Copy>(
    contracts: &'a [Deployed<A>],
    call: &Call,
) -> Result<Opened<'a, A>, Refusal>
    ensures opens { IfOk result (λ opened. (version : Version) → opening (setting_view version contracts.now) call.now ≡ Opens (contract_of version call.now.contract opened.deployed.now) opened.func) }
    ensures defined { IfOk result (λ opened. length (hosts_of opened.deployed.now) ≤ opened.func) }
    ensures refused { IfErr result (λ refusal. (version : Version) → opening (setting_view version contracts.now) call.now ≡ Refused (code_of refusal)) }
    ensures place { IfErr result (λ refusal. (version : Version) → opening_views.HasPlace (wrong_in (setting_view version contracts.now) call.now) refusal) }
{
    let Some(deployed) = contracts.get(call.contract() as usize) else {
        return Err(Refusal::NoContract);
    };
    match entry_of(deployed, call) {
        Ok(func) => Ok(Opened { deployed, func }),
        Err(refusal) => Err(refusal),
    }
}

// Whether the function that runs first has an instruction, in a call that opens with this one: the start function, where
// the module has one, or else the entry.
pub(crate) fn has_code<A: Allocator>(deployed: &Deployed<A>, func: u32) -> bool
    ensures { (version : Version) (number : ℕ) → IsTrue result ↔ HasCode (Opens (contract_of version number deployed.now) func) }
{
    let tree = deployed.module();
    let first = tree.start.unwrap_or(func);
    !body_of(deployed, first).is_empty()
}

// The instructions of a function of the module's own, imports counted first. There are none where it is no such function.
fn body_of<'a, A: Allocator>(deployed: &'a Deployed<A>, func: u32) -> &'a [Instr<A>]
    ensures { instrs_view result.now ≡ body_of_function (function_at (deployed_view deployed.now) func) }
{
    let tree = deployed.module();
    let Some(own) = (func as usize).checked_sub(deployed.hosts().len()) else {
        return &[];
    };
    let Some(function) = tree.funcs.get(own) else {
        return &[];
    };
    match tree.types.get(function.type_index as usize) {
        Some(_) => &function.body,
        None => &[],
    }
}
