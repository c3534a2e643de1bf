//! Lines of what is found. A macro is proved at each place with all that lives there, and a call in a fraction of the time.

use std::alloc::AllocError;
use std::fmt::Debug;

/// Puts a line: these words, and behind them a value as its `Debug` tells it.
pub(crate) fn put_debug<T: Debug>(
    out: &mut String,
    words: &str,
    value: &T,
) -> Result<(), AllocError> {
    writeln!(out, "{words}{value:?}")
}
