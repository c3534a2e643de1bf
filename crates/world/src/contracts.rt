//! The contracts of a world.

ghost use Rattle.std.specs.Prelude.{◌≡◌, ◌≢◌, ◌⊎◌, IfOk, IfErr, length, map, vec_len};
ghost use Rattle.records.specs.Reading.{Gives};
ghost use Rattle.world.specs.Views.{contract_view};
ghost use Rattle.world.specs.Reading.{body_at, BeginsWith, BeginsWithNone, AreRead, IsFaultAmong};

use crate::judge::judge;
use link::deployed::Deployed;
use records::{Fault, read_u32};
use std::alloc::{AllocError, Allocator};

/// The bytes of a contract after their length. Where they end past the input, the length is at fault.
#[tactic(auto, unfolding(crate::specs::Reading::body_at))]
fn body_of(bytes: &[u8]) -> Result<(&[u8], &[u8]), Fault>
    ensures { Gives (λ x. (x.0.now, x.1.now)) result (body_at bytes.now) }
{
    let (size, rest) = read_u32(bytes)?;
    let size = size as usize;
    if rest.len() < size {
        return Err(Fault::Malformed(bytes.len()));
    }
    Ok(rest.split_at(size))
}

/// The fault of a contract whose bytes are not there, with so many bytes left at its length.
fn blamed(fault: Fault, left: usize) -> Fault
    ensures { ((fault ≡ Fault.NoMemory) × (result ≡ Fault.NoMemory)) ⊎ ((fault ≢ Fault.NoMemory) × (result ≡ Fault.Malformed left)) }
{
    match fault {
        Fault::NoMemory => Fault::NoMemory,
        Fault::Malformed(_) | Fault::TooLarge => Fault::Malformed(left),
    }
}

/// Reads a contract. Whatever is wrong with it, its length is at fault.
fn contract_of<A: Allocator + Copy>(alloc: A, bytes: &[u8]) -> Result<(Deployed<A>, &[u8]), Fault>
    ensures read { IfOk result (λ x. BeginsWith bytes.now (contract_view x.0) x.1.now) }
    ensures none { IfErr result (λ f. (f ≡ Fault.NoMemory) ⊎ ((f ≡ Fault.Malformed (length bytes.now)) × BeginsWithNone bytes.now)) }
{
    let (body, rest) = match body_of(bytes) {
        Ok(parts) => parts,
        Err(fault) => return Err(blamed(fault, bytes.len())),
    };
    match judge(alloc, body) {
        Ok(Some(contract)) => Ok((contract, rest)),
        Ok(None) => Err(Fault::Malformed(bytes.len())),
        Err(AllocError) => Err(Fault::NoMemory),
    }
}

/// Reads so many contracts.
pub(crate) fn contracts_of<A: Allocator + Copy>(
    alloc: A,
    count: u32,
    bytes: &[u8],
) -> Result<(Vec<Deployed<A>, A>, &[u8]), Fault>
    ensures number { IfOk result (λ x. vec_len x.0 ≡ count) }
    ensures read { IfOk result (λ x. AreRead count bytes.now (map contract_view x.0.items) x.1.now) }
    ensures fault { IfErr result (IsFaultAmong count bytes.now) }
{
    let mut contracts = Vec::new(alloc);
    let mut rest = bytes;
    for _ in 0..count {
        let (contract, after) = contract_of(alloc, rest)?;
        contracts.push(contract)?;
        rest = after;
    }
    Ok((contracts, rest))
}
