//! Values of JSON, and their text.

ghost use Rattle.std.specs.Prelude.{◌≡◌, [], ◌∷◌, ◌++◌, IfOk, string_bytes};
ghost use Rattle.serde_json.specs.Data.{null, put as put_in, string};
ghost use Rattle.serde_json.specs.View.{members_view, view};
ghost use Rattle.wblock_json.specs.Json.{hex_data, large, IsFlat, IsJson, IsLineOf};

use serde_json::{Map, Value, put};
use std::alloc::{AllocError, Global};

/// What there is not.
pub(crate) fn null() -> Value
    ensures { view result ≡ null }
{
    Value::Null
}

/// A number that may take more than 32 bits, as the string of its decimal digits.
pub fn large_of(alloc: Global, number: u128) -> Result<Value, AllocError>
    ensures { IfOk result (λ v. view v ≡ large number) }
{
    let digits = number.to_string(alloc)?;
    Ok(Value::from(digits))
}

/// A digest, as the string of its hexadecimal digits.
pub fn digest_of(alloc: Global, digest: &[u8; 32]) -> Result<Value, AllocError>
    ensures { IfOk result (λ v. view v ≡ hex_data digest.now) }
{
    let digits = hex::encode(alloc, *digest)?;
    Ok(Value::from(digits))
}

/// Bytes, as the string of their hexadecimal digits.
pub fn hex_of(alloc: Global, bytes: &[u8]) -> Result<Value, AllocError>
    ensures { IfOk result (λ v. view v ≡ hex_data bytes.now) }
{
    let digits = hex::encode(alloc, bytes)?;
    Ok(Value::from(digits))
}

/// A word, as a string.
pub(crate) fn word_of(alloc: Global, word: &str) -> Result<Value, AllocError>
    ensures { IfOk result (λ v. view v ≡ string word.now) }
{
    Value::try_from_str(alloc, word)
}

/// These members with one more. An object of many members is built by a call for each, so that no other value is held where memory is refused.
pub fn with_member(
    alloc: Global,
    members: Map<String, Value>,
    name: &str,
    value: Value,
) -> Result<Map<String, Value>, AllocError>
    ensures { IfOk result (λ m. members_view m.entries ≡ put_in name.now (view value) (members_view members.entries)) }
{
    let mut members = members;
    put(&mut members, alloc, name, value)?;
    Ok(members)
}

/// The text of a value, without spaces.
pub(crate) fn text_of(alloc: Global, value: &Value) -> Result<String, AllocError>
    requires { IsFlat 127 (view value.now) }
    ensures { IfOk result (λ text. IsJson (view value.now) (string_bytes text)) }
{
    value.to_string(alloc)
}

/// A text with a newline at its end.
pub fn line_of(text: String) -> Result<String, AllocError>
    ensures { IfOk result (λ line. string_bytes line ≡ string_bytes text ++ 10 ∷ []) }
{
    let mut line = text;
    line.push_str("\n")?;
    Ok(line)
}

/// The text of a value, without spaces, and a newline.
pub fn value_line(alloc: Global, value: &Value) -> Result<String, AllocError>
    requires { IsFlat 127 (view value.now) }
    ensures { IfOk result (λ text. IsLineOf (IsJson (view value.now)) (string_bytes text)) }
{
    let json = text_of(alloc, value)?;
    line_of(json)
}
