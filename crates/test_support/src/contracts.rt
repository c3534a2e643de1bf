// From bytes to a contract, and calls of it.

ghost use Rattle.std.specs.Prelude.{◌≡◌, IfOk};

use crate::modules::{EXAMPLE, FIRST_MODULE};
use call::Call;
use link::deploy::deploy;
use link::deployed::Deployed;
use loader::load;
use std::alloc::{AllocError, Allocator, Global};
use thiserror::Error;
use typing::check::check;
use typing::valid::Valid;
use wtypes::Value;

/// Why a sample could not be made.
#[derive(Clone, Copy, Debug, PartialEq, Eq, Error)]
pub enum SampleRefusal {
    /// The bytes spell no module within the limits, or memory was refused.
    #[error("the bytes spell no module within the limits, or memory was refused")]
    NotLoaded,
    /// The module is not typed, or memory was refused.
    #[error("the module is not typed, or memory was refused")]
    NotTyped,
    /// The module is not linked, or memory was refused.
    #[error("the module is not linked, or memory was refused")]
    NotLinked,
    /// The call is not within its limits, or memory was refused.
    #[error("the call is not within its limits, or memory was refused")]
    NotACall,
}

impl From<AllocError> for SampleRefusal {
    fn from(_refused: AllocError) -> SampleRefusal {
        SampleRefusal::NotACall
    }
}

/// The module of these bytes, typed.
pub fn typed<A: Allocator + Copy>(alloc: A, bytes: &[u8]) -> Result<Valid<A>, SampleRefusal> {
    let Ok(module) = load(alloc, bytes) else {
        return Err(SampleRefusal::NotLoaded);
    };
    match check(&alloc, module) {
        Ok(valid) => Ok(valid),
        Err(_) => Err(SampleRefusal::NotTyped),
    }
}

/// The contract of these bytes.
pub fn deployed<A: Allocator + Copy>(alloc: A, bytes: &[u8]) -> Result<Deployed<A>, SampleRefusal> {
    match deploy(&alloc, typed(alloc, bytes)?) {
        Ok(contract) => Ok(contract),
        Err(_) => Err(SampleRefusal::NotLinked),
    }
}

/// The example contract.
pub fn example<A: Allocator + Copy>(alloc: A) -> Result<Deployed<A>, SampleRefusal> {
    deployed(alloc, EXAMPLE)
}

/// The contract of the first module.
pub fn first<A: Allocator + Copy>(alloc: A) -> Result<Deployed<A>, SampleRefusal> {
    deployed(alloc, FIRST_MODULE)
}

/// A call of the contract of this number.
pub fn call(
    alloc: Global,
    contract: u32,
    entry: &str,
    args: &[Value],
    fuel: u64,
) -> Result<Call, SampleRefusal>
    ensures fuel { IfOk result (λ made. made.fuel ≡ fuel) }
{
    let entry = entry.to_string(alloc)?;
    let args = args.to_vec(alloc)?;
    match Call::new(contract, entry, args, fuel) {
        Some(call) => Ok(call),
        None => Err(SampleRefusal::NotACall),
    }
}
