//! Writing and hashing a list of calls.

ghost use Rattle.std.specs.Prelude.{◌≡◌, ◌≤◌, ◌++◌, length, OnOk, IfOk, IsErrOf, IsTrue};
ghost use Rattle.byte_sinks.specs.Putting.{IsCutShort, IsRaised};
ghost use Rattle.sha2.specs.Sha256.{sha256};
ghost use Rattle.spec_block.specs.Bytes.{counted, value_bytes, call_bytes, calls_bytes};

use crate::write::put_made;
use byte_sinks::{Sink, WriteRefusal};
use call::Call;
use records::{append_u32, append_u64, append_value};
use sha2::{Digest, Sha256};
use std::alloc::{AllocError, Allocator};
use wtypes::{NoMemory, Value};

/// The magic, `57 42 43 4C`, as a number.
const CALLS_MAGIC: u32 = 0x4c43_4257;

/// The version of the format of a list of calls.
const VERSION: u32 = 1;

fn append_values<A: Allocator>(out: &mut Vec<u8, A>, values: &[Value]) -> Result<(), AllocError>
    requires { length values.now ≤ Call.MOST_ARGS }
    ensures { OnOk result (out.new.items ≡ out.old.items ++ counted value_bytes values.now) }
{
    append_u32(out, values.len() as u32)?;
    for value in values {
        append_value(out, *value)?;
    }
    Ok(())
}

fn append_call<A: Allocator>(out: &mut Vec<u8, A>, call: &Call) -> Result<(), AllocError>
    ensures { OnOk result (out.new.items ≡ out.old.items ++ call_bytes call.now) }
{
    append_u32(out, call.contract())?;
    append_u32(out, call.entry().len() as u32)?;
    out.extend_from_slice(call.entry().as_bytes())?;
    append_values(out, call.args())?;
    append_u64(out, call.fuel())?;
    Ok(())
}

fn append_calls<A: Allocator>(out: &mut Vec<u8, A>, calls: &[Call]) -> Result<(), AllocError>
    requires { length calls.now ≤ 65535 }
    ensures { OnOk result (out.new.items ≡ out.old.items ++ calls_bytes calls.now) }
{
    append_u32(out, CALLS_MAGIC)?;
    append_u32(out, VERSION)?;
    append_u32(out, calls.len() as u32)?;
    for call in calls {
        append_call(out, call)?;
    }
    Ok(())
}

/// Writes the bytes of a list of calls.
pub fn write_calls<A: Allocator, S: Sink>(
    alloc: A,
    calls: &[Call],
    sink: &mut S,
) -> Result<(), WriteRefusal>
    requires { length calls.now ≤ 65535 }
    ensures put { OnOk result (IsTrue S.tells → S.told sink.new ≡ S.told sink.old ++ calls_bytes calls.now) }
    ensures calm { OnOk result (S.failures sink.new ≡ S.failures sink.old) }
    ensures unchanged { IsErrOf result WriteRefusal.NoMemory → sink.new ≡ sink.old }
    ensures failed { IsErrOf result WriteRefusal.Write → IsRaised (S.failures sink.old) (S.failures sink.new) }
    ensures cut_short { IsErrOf result WriteRefusal.Write → IsTrue S.tells → IsCutShort (S.told sink.old) (S.told sink.new) (calls_bytes calls.now) }
{
    let mut bytes = Vec::new(alloc);
    append_calls(&mut bytes, calls)?;
    put_made(sink, &bytes)
}

/// SHA-256 of the bytes of a list of calls.
pub fn digest_calls<A: Allocator>(alloc: A, calls: &[Call]) -> Result<[u8; 32], NoMemory>
    requires { length calls.now ≤ 65535 }
    ensures { IfOk result (λ digest. digest ≡ sha256 (calls_bytes calls.now)) }
{
    let mut bytes = Vec::new(alloc);
    append_calls(&mut bytes, calls)?;
    Ok(Sha256::digest(bytes.as_slice()))
}
