//! Why nothing is found.

use block::BlockRefusal;
use block_judge::{JudgeRefusal, Reason};
use records::Fault;
use std::alloc::{AllocError, AllocFailed};
use wblock_calls::CallsRefusal;
use world::ReadRefusal;
use wtypes::NoMemory;

/// Why nothing is found, by the step that refuses.
#[derive(Clone, Copy, Debug)]
pub enum Refused {
    /// A record can't be read.
    Fault(Fault),
    /// The bytes spell no block.
    Block(BlockRefusal),
    /// The bytes spell no world.
    World(ReadRefusal),
    /// The lines spell no calls.
    Calls(CallsRefusal),
    /// A block is rejected.
    Rejected(Reason),
    /// Locks do not rise.
    Locks,
    /// A contract of the row is none.
    Contract,
    /// A line of the row is not as its kind has it.
    Line,
    /// Memory was refused.
    NoMemory,
}

impl Refused {
    /// Whether it is for lack of memory.
    pub fn is_of_memory(self) -> bool {
        matches!(
            self,
            Refused::NoMemory
                | Refused::Fault(Fault::NoMemory)
                | Refused::Block(BlockRefusal::NoMemory)
                | Refused::World(ReadRefusal::NoMemory)
                | Refused::Calls(CallsRefusal::NoMemory)
        )
    }
}

impl From<rows_books::Refused> for Refused {
    fn from(refused: rows_books::Refused) -> Refused {
        match refused {
            rows_books::Refused::Line => Refused::Line,
            rows_books::Refused::NoMemory => Refused::NoMemory,
        }
    }
}

impl From<AllocError> for Refused {
    fn from(_refused: AllocError) -> Refused {
        Refused::NoMemory
    }
}

impl<T: Drop> From<AllocFailed<T>> for Refused {
    fn from(_refused: AllocFailed<T>) -> Refused {
        Refused::NoMemory
    }
}

impl From<NoMemory> for Refused {
    fn from(_refused: NoMemory) -> Refused {
        Refused::NoMemory
    }
}

impl From<Fault> for Refused {
    fn from(fault: Fault) -> Refused {
        Refused::Fault(fault)
    }
}

impl From<BlockRefusal> for Refused {
    fn from(refusal: BlockRefusal) -> Refused {
        Refused::Block(refusal)
    }
}

impl From<ReadRefusal> for Refused {
    fn from(refusal: ReadRefusal) -> Refused {
        Refused::World(refusal)
    }
}

impl From<CallsRefusal> for Refused {
    fn from(refusal: CallsRefusal) -> Refused {
        Refused::Calls(refusal)
    }
}

impl From<JudgeRefusal> for Refused {
    fn from(unfit: JudgeRefusal) -> Refused {
        match unfit {
            JudgeRefusal::Rejected(reason) => Refused::Rejected(reason),
            JudgeRefusal::NoMemory => Refused::NoMemory,
        }
    }
}
