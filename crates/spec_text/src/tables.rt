//! What a text spells by the tables.

ghost use Rattle.std.specs.Prelude.{◌≡◌};
ghost use Rattle.spec_text.specs.Words.{beside};
ghost use Rattle.spec_text.specs.declared.TheConstants.{KEY_WORDS, OPERATORS};

use crate::{KEY_WORDS, KeyWord, OPERATORS, Operator};

/// What stands beside the text in the table.
fn look_up<V: Copy>(table: &[(&[u8], V)], text: &[u8]) -> Option<V>
    ensures { result ≡ beside (λ r. r.now) text.now table.now }
{
    for entry in table {
        if entry.0 == text {
            return Some(entry.1);
        }
    }
    None
}

/// The word that the text spells.
pub fn key_word_named(text: &[u8]) -> Option<KeyWord>
    ensures { result ≡ beside (λ r. r.now) text.now KEY_WORDS }
{
    look_up(&KEY_WORDS, text)
}

/// The operator that the text names.
pub fn operator_named(text: &[u8]) -> Option<Operator>
    ensures { result ≡ beside (λ r. r.now) text.now OPERATORS }
{
    look_up(&OPERATORS, text)
}
