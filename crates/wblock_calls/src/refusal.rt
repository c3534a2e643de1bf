//! Why a text gives no calls, and the line that tells it by number.

ghost use Rattle.std.specs.Prelude.{◌≡◌, IfOk, string_bytes};
ghost use Rattle.wblock_calls.specs.Refusals.{number_of, IsCallsLine};

use crate::reader::CallsRefusal;
use std::alloc::{AllocError, Global};

impl CallsRefusal {
    /// The refusal's number, 1 or 2. None where memory was refused.
    pub fn number(self) -> Option<u8>
        ensures { result ≡ number_of self }
    {
        match self {
            CallsRefusal::Line(_) => Some(1),
            CallsRefusal::TooMany => Some(2),
            CallsRefusal::NoMemory => None,
        }
    }
}

/// The line of a refusal: `refused calls 1 LINE` or `refused calls 2`, with its newline.
///
/// # Errors
///
/// Memory is refused, or that is the refusal.
pub fn refusal_line(alloc: Global, refusal: CallsRefusal) -> Result<String, AllocError>
    ensures { IfOk result (λ line. IsCallsLine refusal (string_bytes line)) }
{
    match refusal {
        CallsRefusal::Line(line) => format!(in alloc; "refused calls 1 {line}\n"),
        CallsRefusal::TooMany => "refused calls 2\n".to_string(alloc),
        CallsRefusal::NoMemory => Err(AllocError),
    }
}
