//! How often each kind of outcome comes.

ghost use Rattle.std.specs.Prelude.{◌≡◌, ◌<◌, ◌^◌, IfOk, length};
ghost use Rattle.figures.specs.Outcomes.{all_kinds, counts_among, is_kind, number_of};

use records::Position;
use spec_ledger::Outcome;
use std::alloc::Global;
use wtypes::{NoMemory, TrapCode};

/// An outcome without the value that was returned.
#[derive(Clone, Copy, Debug, PartialEq, Eq)]
pub enum OutcomeKind {
    /// It returned.
    Returned,
    /// It trapped.
    Trapped(TrapCode),
    /// Its limit was used up.
    OutOfFuel,
    /// It could not be started, for the reason of this number.
    Rejected(u8),
}

/// How many positions have an outcome of a kind.
#[derive(Clone, Copy, Debug, PartialEq, Eq)]
pub struct OutcomeCount {
    /// The kind.
    pub kind: OutcomeKind,
    /// How many positions have it.
    pub positions: u32,
}

/// The kinds of outcomes, in the order in which they are told.
fn kinds() -> [OutcomeKind; 15]
    ensures { result ≡ all_kinds }
{
    [
        OutcomeKind::Returned,
        OutcomeKind::Trapped(TrapCode::Unreachable),
        OutcomeKind::Trapped(TrapCode::DivideByZero),
        OutcomeKind::Trapped(TrapCode::IntegerOverflow),
        OutcomeKind::Trapped(TrapCode::MemoryOutOfBounds),
        OutcomeKind::Trapped(TrapCode::ElementOutOfTable),
        OutcomeKind::Trapped(TrapCode::EmptyElement),
        OutcomeKind::Trapped(TrapCode::TypeMismatch),
        OutcomeKind::Trapped(TrapCode::CallDepth),
        OutcomeKind::OutOfFuel,
        OutcomeKind::Rejected(1),
        OutcomeKind::Rejected(2),
        OutcomeKind::Rejected(3),
        OutcomeKind::Rejected(4),
        OutcomeKind::Rejected(6),
    ]
}

fn is_of(kind: OutcomeKind, outcome: Outcome) -> bool
    ensures { result ≡ is_kind kind outcome }
{
    match (kind, outcome) {
        (OutcomeKind::Returned, Outcome::Returned(_)) => true,
        (OutcomeKind::Trapped(a), Outcome::Trapped(b)) => a as u8 == b as u8,
        (OutcomeKind::OutOfFuel, Outcome::OutOfFuel) => true,
        (OutcomeKind::Rejected(a), Outcome::Rejected(b)) => a == b,
        _ => false,
    }
}

/// How many positions have an outcome of this kind.
fn count_of(positions: &[Position], kind: OutcomeKind) -> u32
    requires { length positions.now < 2 ^ 16 }
    ensures { result ≡ number_of kind positions.now }
{
    let mut count = 0;
    for position in positions {
        if is_of(kind, position.receipt().outcome) {
            count += 1;
        }
    }
    count
}

/// The kinds of outcomes that positions have, with how many have them.
pub(crate) fn outcomes_of(
    alloc: Global,
    positions: &[Position],
) -> Result<Vec<OutcomeCount>, NoMemory>
    requires { length positions.now < 2 ^ 16 }
    ensures { IfOk result (λ counts. counts.items ≡ counts_among all_kinds positions.now) }
{
    let mut counts = Vec::new(alloc);
    for kind in &kinds() {
        let count = count_of(positions, *kind);
        if count != 0 {
            counts.push(OutcomeCount {
                kind: *kind,
                positions: count,
            })?;
        }
    }
    Ok(counts)
}
