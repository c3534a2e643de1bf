//! Values, receipts, entries and positions as bytes.

ghost use Rattle.std.specs.Prelude.{◌≡◌, ◌≢◌, ◌++◌, ℕ, List, IfOk, Err};
ghost use Rattle.wtypes.specs.declared.Value.{Value as TheValue};
ghost use Rattle.spec_block.specs.Bytes.{IsValue, value_bytes};
ghost use Rattle.records.specs.declared.fault.Fault.TheVariants.{NoMemory};
ghost use Rattle.records.specs.Reading.{Gives, IsRead};
ghost use Rattle.records.specs.Values.{value_at};

use records::Fault;
use wtypes::Value;

/// As [`records::read_value`].
pub fn read_value(bytes: &[u8]) -> Result<(Value, &[u8]), Fault>
    ensures spelled { IfOk result (λ x. IsValue x.0 × (bytes.now ≡ value_bytes x.0 ++ x.1.now)) }
    ensures only { (value : TheValue) (rest : List ℕ) → IsValue value → bytes.now ≡ value_bytes value ++ rest → IsRead (λ x. (x.0, x.1.now)) result value rest }
    ensures first { Gives (λ x. (x.0, x.1.now)) result (value_at bytes.now) }
    ensures memory { result ≢ Err NoMemory }
{
    records::read_value(bytes)
}
