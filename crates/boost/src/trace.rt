// Whether two traces are the same.
ghost use Rattle.std.specs.Prelude.{◌≡◌, IsTrue, ◌↔◌};

use spec_ledger::{CellKey, Op, Reply, TraceStep};

fn same_place(a: &CellKey, b: &CellKey) -> bool
    ensures { IsTrue result ↔ (a.now ≡ b.now) }
{
    a == b
}

fn same_op(a: &Op, b: &Op) -> bool
    ensures { IsTrue result ↔ (a.now ≡ b.now) }
{
    a == b
}

fn same_reply(a: &Reply, b: &Reply) -> bool
    ensures { IsTrue result ↔ (a.now ≡ b.now) }
{
    a == b
}

/// Whether two steps are the same.
pub fn same_step(a: &TraceStep, b: &TraceStep) -> bool
    ensures { IsTrue result ↔ (a.now ≡ b.now) }
{
    match (a, b) {
        (TraceStep::Did(op, reply), TraceStep::Did(other, answer)) => {
            same_op(op, other) && same_reply(reply, answer)
        }
        (TraceStep::Opened, TraceStep::Opened) => true,
        (TraceStep::Kept, TraceStep::Kept) => true,
        (TraceStep::Dropped, TraceStep::Dropped) => true,
        _ => false,
    }
}

pub(crate) fn same_trace(a: &[TraceStep], b: &[TraceStep]) -> bool
    ensures { IsTrue result ↔ (a.now ≡ b.now) }
{
    if a.len() != b.len() {
        return false;
    }
    for (i, step) in a.iter().enumerate() {
        if !same_step(step, &b[i]) {
            return false;
        }
    }
    true
}
