//! Places in a text.

ghost use Rattle.std.specs.Prelude.{◌≡◌, ◌==◌, not, length, reverse, take_while};
ghost use Rattle.wblock_words.specs.Sentences.{line_of, column_of};

/// A place in a text, as people count: lines and columns from 1, columns in bytes.
#[derive(Clone, Copy, Debug, PartialEq, Eq)]
pub struct LineColumn {
    /// The line.
    pub line: usize,
    /// The column in the line.
    pub column: usize,
}

/// How many bytes stand behind the last newline.
fn behind_newline(bytes: &[u8]) -> usize
    ensures { result ≡ length (take_while (λ b. not (b == 10)) (reverse bytes.now)) }
{
    bytes.iter().rev().take_while(|b| **b != b'\n').count()
}

/// The place behind these characters of a text.
pub fn place_of(before: &str) -> LineColumn
    ensures line { result.line ≡ line_of before.now }
    ensures column { result.column ≡ column_of before.now }
{
    let bytes = before.as_bytes();
    let newlines = bytes.iter().filter(|b| **b == b'\n').count();
    LineColumn {
        line: newlines + 1,
        column: behind_newline(bytes) + 1,
    }
}
