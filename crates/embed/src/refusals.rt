//! The refusals of the crates below, as the library tells them.

ghost use Rattle.std.specs.Prelude.{◌≡◌};
ghost use Rattle.embed.specs.Refusals.{module_refusal, world_refusal, calls_refusal, block_refusal};

use crate::failure::{Refusal, Subject};
use block::BlockRefusal;
use wblock_calls::CallsRefusal;
use wblock_line::ModuleRefusal;
use world::ReadRefusal;

/// The refusal of a module.
pub(crate) fn module_refusal(refusal: ModuleRefusal) -> Refusal
    ensures { result ≡ module_refusal refusal }
{
    match refusal {
        ModuleRefusal::Malformed(at) => Refusal::at(Subject::Load, 1, Some(at as u64)),
        ModuleRefusal::Unsupported(at) => Refusal::at(Subject::Load, 2, Some(at as u64)),
        ModuleRefusal::TooLarge(limit) => {
            Refusal::at(Subject::Load, 3, Some(limit.number() as u64))
        }
        ModuleRefusal::Untyped {
            rule,
            func,
            ordinal,
        } => Refusal {
            subject: Subject::Check,
            number: rule.number() as u32,
            place: Some(ordinal as u64),
            function: func,
        },
        ModuleRefusal::UnknownImport(import) => {
            Refusal::at(Subject::Deploy, 1, Some(import as u64))
        }
        ModuleRefusal::ImportType(import) => {
            Refusal::at(Subject::Deploy, 2, Some(import as u64))
        }
        ModuleRefusal::SegmentRange(segment) => {
            Refusal::at(Subject::Deploy, 3, Some(segment as u64))
        }
        ModuleRefusal::TooManyPages => Refusal::at(Subject::Deploy, 4, None),
        ModuleRefusal::TableTooLarge => Refusal::at(Subject::Deploy, 5, None),
    }
}

/// The refusal of a world. None where memory was refused.
pub(crate) fn world_refusal(refusal: ReadRefusal) -> Option<Refusal>
    ensures { result ≡ world_refusal refusal }
{
    match refusal {
        ReadRefusal::Malformed(at) => Some(Refusal::at(Subject::World, 1, Some(at as u64))),
        ReadRefusal::TooLarge => Some(Refusal::at(Subject::World, 2, None)),
        ReadRefusal::NoMemory => None,
    }
}

/// The refusal of a text of calls. None where memory was refused.
pub(crate) fn calls_refusal(refusal: CallsRefusal) -> Option<Refusal>
    ensures { result ≡ calls_refusal refusal }
{
    match refusal {
        CallsRefusal::Line(line) => Some(Refusal::at(Subject::Calls, 1, Some(line as u64))),
        CallsRefusal::TooMany => Some(Refusal::at(Subject::Calls, 2, None)),
        CallsRefusal::NoMemory => None,
    }
}

/// The refusal of bytes that spell no block. None where memory was refused.
pub(crate) fn block_refusal(refusal: BlockRefusal) -> Option<Refusal>
    ensures { result ≡ block_refusal refusal }
{
    match refusal {
        BlockRefusal::Malformed(_) | BlockRefusal::TooLarge => {
            Some(Refusal::at(Subject::Block, 1, None))
        }
        BlockRefusal::NoMemory => None,
    }
}
