//! Sinks, which take bytes in pieces.

ghost use Rattle.std.specs.Prelude.{◌≡◌, ℕ, List, ◌++◌, Bool, IsTrue, IfOk, OnOk, OnErr};
ghost use Rattle.byte_sinks.specs.Putting.{PutsSome, IsCutShort, IsRaised};

use thiserror::Error;

/// A sink did not take bytes.
#[derive(Clone, Copy, Debug, PartialEq, Eq, Error)]
#[error("the sink did not take the bytes")]
pub struct SinkFault;

/// Takes bytes in pieces. Each failure is counted, and a call that fails puts nothing.
pub trait Sink {
    /// Whether it is known what was put: it is not known of a stream of the machine.
    ghost tells: { Bool };

    /// The bytes put so far.
    ghost told: { Self → List ℕ };

    /// How many calls have failed: a whole number without bound.
    ghost failures: { Self → ℕ };

    /// Puts the first bytes, at least one of a list that is not empty, and says how many; or fails and puts none.
    fn put_some(&mut self, bytes: &[u8]) -> Result<usize, SinkFault>
        ensures put { IfOk result (λ n. PutsSome tells bytes.now n (told self.old) (told self.new)) }
        ensures calm { OnOk result (failures self.new ≡ failures self.old) }
        ensures counted { OnErr result (IsRaised (failures self.old) (failures self.new)) }
        ensures kept { OnErr result (IsTrue tells → told self.new ≡ told self.old) };
}

/// Puts all of the bytes; or, where a call fails, a beginning of them that is not all, and one failure is counted.
pub fn put_all<S: Sink>(sink: &mut S, bytes: &[u8]) -> Result<(), SinkFault>
    ensures put { OnOk result (IsTrue S.tells → S.told sink.new ≡ S.told sink.old ++ bytes.now) }
    ensures calm { OnOk result (S.failures sink.new ≡ S.failures sink.old) }
    ensures counted { OnErr result (IsRaised (S.failures sink.old) (S.failures sink.new)) }
    ensures cut_short { OnErr result (IsTrue S.tells → IsCutShort (S.told sink.old) (S.told sink.new) bytes.now) }
{
    let mut at = 0;
    while at < bytes.len() {
        let n = sink.put_some(&bytes[at..])?;
        at += n;
    }
    Ok(())
}
