//! Names as the text format writes them.

ghost use Rattle.std.specs.Prelude.{◌≡◌, ◌<◌, ◌∷◌, ◌++◌, IfOk, OnOk, IsTrue, string_bytes};
ghost use Rattle.wblock_contents.specs.Names.{is_plain, byte_text, name_text};

use std::alloc::{AllocError, Global};

/// Whether a byte stands in a name as it is.
fn is_plain(byte: u8) -> bool
    ensures value { result ≡ is_plain byte }
    ensures ascii { IsTrue result → byte < 128 }
{
    32 <= byte && byte <= 126 && byte != 34 && byte != 92
}

/// Appends a byte of a name.
fn push_byte(alloc: Global, text: &mut String, byte: u8) -> Result<(), AllocError>
    ensures { OnOk result (string_bytes text.new ≡ string_bytes text.old ++ byte_text byte) }
{
    if is_plain(byte) {
        return text.push(byte as char);
    }
    let digits = hex::encode(alloc, [byte])?;
    text.push_str("\\")?;
    text.push_str(digits.as_str())
}

/// A name between quotes, as the text format writes it: of visible characters of ASCII alone, each other byte, a quote and a backslash as `\hh`.
pub fn quoted(alloc: Global, name: &str) -> Result<String, AllocError>
    ensures { IfOk result (λ text. string_bytes text ≡ name_text name.now) }
{
    let bytes = name.as_bytes();
    let mut text = "\"".to_string(alloc)?;
    for byte in bytes {
        push_byte(alloc, &mut text, *byte)?;
    }
    text.push_str("\"")?;
    Ok(text)
}
