//! Why a block is rejected.

ghost use Rattle.std.specs.Prelude.{◌≡◌};
ghost use Rattle.spec_block.specs.Verdicts.{place};
ghost use Rattle.block_judge.specs.Judging.{told, place_in};

use std::alloc::{AllocError, AllocFailed};
use thiserror::Error;
use wtypes::NoMemory;

/// Why a block is rejected, in the order in which the reasons are looked for. Positions and calls count from 0.
#[derive(Clone, Copy, Debug, PartialEq, Eq, Error)]
pub enum Reason {
    /// The bytes spell no block within the limits.
    #[error("the bytes spell no block within the limits")]
    Malformed,
    /// The digest before is not the world's.
    #[error("the digest before is not the world's")]
    WrongWorld,
    /// The digest of the calls is not that of the calls.
    #[error("the digest of the calls is not that of the calls")]
    WrongCalls,
    /// The least position whose number is not below the number of calls, or stood before.
    #[error("position {0} has a number that is no call's or stood before")]
    BadOrder(u32),
    /// The limits of the ordered calls exceed the block's fuel.
    #[error("the limits of the ordered calls exceed the block's fuel")]
    OverBudget,
    /// The least call left out whose limit is not above what remains.
    #[error("call {0} is left out though there was room for it")]
    RoomLeft(u32),
    /// The least position whose turns are not those of the published modes in the published order.
    #[error("position {0} has turns other than those of its modes in the order")]
    BadTurns(u32),
    /// The least position whose receipt, or whose locks and modes, are not the serial execution's.
    #[error("position {0} has another receipt, or other locks or modes, than the serial execution")]
    Deviates(u32),
    /// The total fuel or the digest after is not the serial execution's.
    #[error("the total fuel or the digest after is not the serial execution's")]
    WrongEnd,
}

impl Reason {
    /// The reason's number, from 1 to 9.
    pub fn number(self) -> u8
        ensures { result ≡ place (told self) }
    {
        match self {
            Reason::Malformed => 1,
            Reason::WrongWorld => 2,
            Reason::WrongCalls => 3,
            Reason::BadOrder(_) => 4,
            Reason::OverBudget => 5,
            Reason::RoomLeft(_) => 6,
            Reason::BadTurns(_) => 7,
            Reason::Deviates(_) => 8,
            Reason::WrongEnd => 9,
        }
    }

    /// The position or the call that it speaks of, where it speaks of one.
    pub fn place(self) -> Option<u32>
        ensures { result ≡ place_in (told self) }
    {
        match self {
            Reason::BadOrder(position) | Reason::BadTurns(position) | Reason::Deviates(position) =>
                { Some(position) }
            Reason::RoomLeft(call) => Some(call),
            Reason::Malformed
            | Reason::WrongWorld
            | Reason::WrongCalls
            | Reason::OverBudget
            | Reason::WrongEnd => None,
        }
    }
}

/// Why a judgement ends.
#[derive(Clone, Copy, Debug, PartialEq, Eq, Error)]
pub enum JudgeRefusal {
    /// The block is rejected.
    #[error("the block is rejected: {0}")]
    Rejected(Reason),
    /// Memory was refused, and nothing is said of the block.
    #[error("memory was refused")]
    NoMemory,
}

impl From<NoMemory> for JudgeRefusal {
    ghost use Rattle.block_judge.specs.declared.reason.JudgeRefusal.TheVariants as unfit;

    ghost from_gives = { λ _ e. e ≡ unfit.NoMemory };

    fn from(_refused: NoMemory) -> JudgeRefusal {
        JudgeRefusal::NoMemory
    }
}

impl From<AllocError> for JudgeRefusal {
    ghost use Rattle.block_judge.specs.declared.reason.JudgeRefusal.TheVariants as unfit;

    ghost from_gives = { λ _ e. e ≡ unfit.NoMemory };

    fn from(_refused: AllocError) -> JudgeRefusal {
        JudgeRefusal::NoMemory
    }
}

impl<T: Drop> From<AllocFailed<T>> for JudgeRefusal {
    ghost use Rattle.block_judge.specs.declared.reason.JudgeRefusal.TheVariants as unfit;

    ghost from_gives = { λ _ e. e ≡ unfit.NoMemory };

    fn from(_refused: AllocFailed<T>) -> JudgeRefusal {
        JudgeRefusal::NoMemory
    }
}
