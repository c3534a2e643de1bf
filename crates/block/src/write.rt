//! Writing a block.

ghost use Rattle.std.specs.Prelude.{◌≡◌, ◌≤◌, ◌++◌, length, OnOk, IfOk, IsErrOf, IsTrue};
ghost use Rattle.std.specs.List.{AllByRecursion};
ghost use Rattle.byte_sinks.specs.Putting.{IsCutShort, IsRaised};
ghost use Rattle.spec_ledger.specs.declared.Version.{Version};
ghost use Rattle.spec_block.specs.Bytes.{block_bytes, counted, position_bytes, version_code, ForVersion};

use crate::read::MAGIC;
use crate::value::Block;
use byte_sinks::{Sink, WriteRefusal, put_all};
use records::{Position, append_position, append_u32, append_u64};
use spec_ledger::Version;
use std::alloc::{AllocError, Allocator};
use wtypes::NoMemory;

/// Puts bytes that are made.
pub(crate) fn put_made<S: Sink>(sink: &mut S, bytes: &[u8]) -> Result<(), WriteRefusal>
    ensures put { OnOk result (IsTrue S.tells → S.told sink.new ≡ S.told sink.old ++ bytes.now) }
    ensures calm { OnOk result (S.failures sink.new ≡ S.failures sink.old) }
    ensures memory { ¬ (IsErrOf result WriteRefusal.NoMemory) }
    ensures counted { IsErrOf result WriteRefusal.Write → IsRaised (S.failures sink.old) (S.failures sink.new) }
    ensures cut_short { IsErrOf result WriteRefusal.Write → IsTrue S.tells → IsCutShort (S.told sink.old) (S.told sink.new) bytes.now }
{
    match put_all(sink, bytes) {
        Ok(()) => Ok(()),
        Err(_fault) => Err(WriteRefusal::Write),
    }
}

fn append_positions<A: Allocator>(
    version: Version,
    out: &mut Vec<u8, A>,
    positions: &[Position<A>],
) -> Result<(), AllocError>
    requires { length positions.now ≤ Block.MOST_POSITIONS }
    ensures { OnOk result (out.new.items ≡ out.old.items ++ counted (position_bytes version) positions.now) }
{
    append_u32(out, positions.len() as u32)?;
    for position in positions {
        append_position(version, out, position)?;
    }
    Ok(())
}

/// The number that stands for a version.
pub fn number_of_version(version: Version) -> u32
    ensures { result ≡ version_code version }
{
    match version {
        Version::One => 1,
        Version::Two => 2,
    }
}

fn append_block<A: Allocator>(out: &mut Vec<u8, A>, block: &Block<A>) -> Result<(), AllocError>
    ensures { OnOk result (out.new.items ≡ out.old.items ++ block_bytes block.now) }
{
    block.use_invariant();
    append_u32(out, MAGIC)?;
    append_u32(out, number_of_version(block.version()))?;
    out.extend_from_slice(block.before())?;
    out.extend_from_slice(block.calls())?;
    append_positions(block.version(), out, block.positions())?;
    append_u64(out, block.fuel())?;
    out.extend_from_slice(block.after())?;
    Ok(())
}

/// A block's bytes, those of its own version.
///
/// # Errors
///
/// Memory was refused.
pub fn encode_block<A: Allocator>(alloc: A, block: &Block<A>) -> Result<Vec<u8, A>, NoMemory>
    ensures { IfOk result (λ bytes. bytes.items ≡ block_bytes block.now) }
{
    let mut bytes = Vec::new(alloc);
    append_block(&mut bytes, block)?;
    Ok(bytes)
}

/// Writes a block's bytes, those of its own version.
pub fn write_block<A: Allocator, S: Sink>(
    alloc: A,
    block: &Block<A>,
    sink: &mut S,
) -> Result<(), WriteRefusal>
    requires { AllByRecursion (λ p. ForVersion block.now.version p.receipt) block.now.positions }
    ensures put { OnOk result (IsTrue S.tells → S.told sink.new ≡ S.told sink.old ++ block_bytes block.now) }
    ensures calm { OnOk result (S.failures sink.new ≡ S.failures sink.old) }
    ensures unchanged { IsErrOf result WriteRefusal.NoMemory → sink.new ≡ sink.old }
    ensures failed { IsErrOf result WriteRefusal.Write → IsRaised (S.failures sink.old) (S.failures sink.new) }
    ensures cut_short { IsErrOf result WriteRefusal.Write → IsTrue S.tells → IsCutShort (S.told sink.old) (S.told sink.new) (block_bytes block.now) }
{
    let mut bytes = Vec::new(alloc);
    append_block(&mut bytes, block)?;
    put_made(sink, &bytes)
}
