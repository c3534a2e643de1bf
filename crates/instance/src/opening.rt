// Whether a call starts, and with which function of its contract; and whether a level is entered, and with which function.

ghost use Rattle.std.specs.Prelude.{◌≡◌, ◌+◌, ◌<◌, ◌≤◌, map, length, slice_get, [], ◌∷◌, Some, None, IfOk, IfErr, IfSome, IfNone, option_map, string_bytes, MatchOption};
ghost use Rattle.spec_execution.specs.Levels.{asked};
ghost use Rattle.spec_execution.specs.Reduction.{same_types};
ghost use Rattle.spec_execution.specs.Run.{by_contract, Opens, Refused, wrong_argument};
ghost use Rattle.wtypes.specs.declared.ValType.TheVariants.{I64};
ghost use Rattle.spec_ledger.specs.declared.Version.{Version};
ghost use Rattle.spec_modules.specs.Operators.{same_type, type_of};
ghost use Rattle.instance.specs.AskFunctions as spec;
ghost use Rattle.instance.specs.Views.{deployed_view, contract_of, setting_of, code_of, Enters, HasPlace, wrong_for, wrong_of};
ghost use Rattle.spec_execution.specs.Configuration.{function_at};

use call::Call;
use link::deployed::Deployed;
use module_tree::module::ExportDesc;
use std::alloc::Allocator;
use thiserror::Error;
use wtypes::{ValType, Value};

/// Why a call does not start. The numbers are those of receipts.
#[derive(Clone, Copy, Debug, PartialEq, Eq, Error)]
pub enum Refusal {
    /// 1: nothing is exported under the name.
    #[error("nothing is exported under the name")]
    NoExport,
    /// 2: what is exported is no function of the module's own.
    #[error("what is exported is no function of the module's own")]
    NotFunction,
    /// 3: there are too many arguments, or too few.
    #[error("there are too many arguments, or too few")]
    ArgCount,
    /// 4: the argument of this place, from 0, is the first of another type.
    #[error("argument {0} is of another type")]
    ArgType(u32),
    /// 6: there is no such contract.
    #[error("there is no such contract")]
    NoContract,
}

impl Refusal {
    /// The number of the cause.
    pub fn code(self) -> u8
        ensures { result ≡ code_of self }
    {
        match self {
            Refusal::NoExport => 1,
            Refusal::NotFunction => 2,
            Refusal::ArgCount => 3,
            Refusal::ArgType(_) => 4,
            Refusal::NoContract => 6,
        }
    }
}

/// The number of the function that a call of this contract starts with, imports counted first. Of several causes of a
/// refusal it answers the first of: the export, the function, the number of arguments, their types.
///
/// # Errors
///
/// Why the call does not start. `NoContract` is never among them.
pub fn entry_of<A: Allocator>(contract: &Deployed<A>, call: &Call) -> Result<u32, Refusal>
    ensures opens { IfOk result (λ func. (version : Version) → by_contract version call.now (Some (deployed_view contract.now)) ≡ Opens (contract_of version call.now.contract contract.now) func) }
    ensures refused { IfErr result (λ r. (version : Version) → by_contract version call.now (Some (deployed_view contract.now)) ≡ Refused (code_of r)) }
    ensures place { IfErr result (λ r. HasPlace (wrong_of call.now (deployed_view contract.now)) r) }
{
    match contract.exported(call.entry()) {
        None => Err(Refusal::NoExport),
        Some(ExportDesc::Func(func)) => match check_args(contract, func, call.args()) {
            Ok(()) => Ok(func),
            Err(refusal) => Err(refusal),
        },
        Some(ExportDesc::Table(_) | ExportDesc::Memory(_) | ExportDesc::Global(_)) => {
            Err(Refusal::NotFunction)
        }
    }
}

// The first argument that is not of its parameter's type.
fn wrong_arg(params: &[ValType], args: &[Value]) -> Option<usize>
    requires { length params.now ≡ length args.now }
    ensures which { result ≡ wrong_argument params.now args.now }
    ensures below { IfSome result (λ i. i < length args.now) }
{
    for i in 0..args.len() {
        if !has_type(args[i], params[i]) {
            return Some(i);
        }
    }
    None
}

// Whether a value is of a type.
fn has_type(value: Value, value_type: ValType) -> bool
    ensures { result ≡ same_type value_type (type_of value) }
{
    matches!(
        (value_type, value),
        (ValType::I32, Value::I32(_)) | (ValType::I64, Value::I64(_))
    )
}

// The function is the module's own, and takes these arguments.
fn check_args<A: Allocator>(
    contract: &Deployed<A>,
    func: u32,
    args: &[Value],
) -> Result<(), Refusal>
    requires { length args.now ≤ 1024 }
    ensures passes { IfOk result (λ _. Enters contract.now func args.now None) }
    ensures refused { IfErr result (λ r. Enters contract.now func args.now (Some (code_of r))) }
    ensures place { IfErr result (λ r. HasPlace (wrong_for args.now (function_at (deployed_view contract.now) func)) r) }
{
    let imports = contract.hosts().len();
    let module = contract.module();
    let Some(own) = (func as usize).checked_sub(imports) else {
        return Err(Refusal::NotFunction);
    };
    let Some(function) = module.funcs.get(own) else {
        return Err(Refusal::NotFunction);
    };
    let Some(form) = module.types.get(function.type_index as usize) else {
        return Err(Refusal::NotFunction);
    };
    if args.len() != form.params.len() {
        return Err(Refusal::ArgCount);
    }
    match wrong_arg(&form.params, args) {
        Some(i) => Err(Refusal::ArgType(i as u32)),
        None => Ok(()),
    }
}

// The call is level 0. At this level nothing may be asked.
const LEVEL_LIMIT: usize = 4;

/// The contract that an `ask` at this level is for, and the number of the function that its export of this place is, imports counted first. An
/// export is asked for by its place in the list, counted from 0, so nothing is looked for.
///
/// # Errors
///
/// The status, which no version changes: 11 where the level is the last one, whatever is asked for. Else 10: there is no such contract or no such
/// export, or the export is no function of the module's own from one number of 64 bits to one.
pub fn asked_entry<'a, A: Allocator>(
    contracts: &'a [Deployed<A>],
    level: usize,
    number: u32,
    export: u32,
) -> Result<(&'a Deployed<A>, u32), u8>
    ensures opens { IfOk result (λ entry. (version : Version) → asked (setting_of version contracts.now) level number export ≡ Opens (contract_of version number entry.0.now) entry.1) }
    ensures refused { IfErr result (λ status. (version : Version) → asked (setting_of version contracts.now) level number export ≡ Refused status) }
{
    if level >= LEVEL_LIMIT {
        return Err(11);
    }
    let Some(contract) = contracts.get(number as usize) else {
        return Err(10);
    };
    match asked_function(contract, export) {
        Some(func) => Ok((contract, func)),
        None => Err(10),
    }
}

// The function that an export of this contract is, where it may be asked for.
fn asked_function<A: Allocator>(contract: &Deployed<A>, export: u32) -> Option<u32>
    ensures { result ≡ spec.asked_function (deployed_view contract.now) (spec.export_at (deployed_view contract.now) export) }
{
    match contract.module().exports.get(export as usize)?.desc {
        ExportDesc::Func(func) => {
            if is_asked(contract, func) {
                Some(func)
            } else {
                None
            }
        }
        ExportDesc::Table(_) | ExportDesc::Memory(_) | ExportDesc::Global(_) => None,
    }
}

// The function is the module's own, and of the type that is asked for.
fn is_asked<A: Allocator>(contract: &Deployed<A>, func: u32) -> bool
    ensures { result ≡ spec.is_asked (function_at (deployed_view contract.now) func) }
{
    let imports = contract.hosts().len();
    let module = contract.module();
    let Some(own) = (func as usize).checked_sub(imports) else {
        return false;
    };
    let Some(function) = module.funcs.get(own) else {
        return false;
    };
    let Some(form) = module.types.get(function.type_index as usize) else {
        return false;
    };
    is_one(&form.params) && is_one(&form.results)
}

// One number of 64 bits.
fn is_one(types: &[ValType]) -> bool
    ensures { result ≡ same_types types.now (I64 ∷ []) }
{
    types.len() == 1 && matches!(types[0], ValType::I64)
}
