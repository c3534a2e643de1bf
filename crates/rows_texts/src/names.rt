//! Names, and what they stand for in spaces and among labels.

use crate::refused::Refused;
use lexer::Piece;
use std::alloc::{AllocError, Global};
use text_body::Index;
use text_fields::{spaces_of_text, types_of_text};
use text_resolve::{Finds, Labels, Space, Spaces, index_in, number};
use text_tree::{Text, parse};

/// The fields of a text.
pub(crate) fn tree_of<'t>(alloc: Global, text: &'t str) -> Result<Text<'t, Global>, Refused> {
    let tokens = lexer::tokens(alloc, text)?;
    Ok(parse(&alloc, text, &tokens)?)
}

/// The spaces of a text.
pub(crate) fn spaces_of<'t>(alloc: Global, text: &'t str) -> Result<Spaces<'t, Global>, Refused> {
    let tree = tree_of(alloc, text)?;
    Ok(spaces_of_text(&alloc, &tree)?)
}

/// The words of a line, each at its place behind this one.
pub(crate) fn pieces<'t>(
    alloc: Global,
    line: &'t str,
    before: usize,
) -> Result<Vec<Piece<'t>>, AllocError> {
    let mut found = Vec::new(alloc);
    let mut at = before;
    for word in line.split(' ') {
        if !word.is_empty() {
            found.push(Piece {
                at,
                text: word.as_bytes(),
            })?;
        }
        at = at.saturating_add(word.len()).saturating_add(1);
    }
    Ok(found)
}

/// The name that is written so, where `-` stands for none.
fn named(piece: Piece<'_>) -> Option<Piece<'_>> {
    match piece.text {
        [b'-'] => None,
        _ => Some(piece),
    }
}

/// The space of the names of a line, where `-` stands for none.
pub(crate) fn space_of<'t>(alloc: Global, line: &'t str) -> Result<Space<'t, Global>, Refused> {
    let mut names = Vec::new(alloc);
    for piece in &pieces(alloc, line, 0)? {
        names.push(named(*piece))?;
    }
    Ok(Space::of(&alloc, names)?)
}

/// The index that is written so.
fn index(piece: Piece<'_>) -> Index<'_> {
    if piece.text.starts_with(b"$") {
        Index::Named(piece)
    } else {
        Index::Numbered(piece)
    }
}

/// A line for each index of the second line, which is looked for in the space of the names of the first.
pub(crate) fn space(alloc: Global, text: &str) -> Result<String, Refused> {
    let (first, second) = text.split_once('\n').unwrap_or((text, ""));
    let space = space_of(alloc, first)?;
    let mut out = String::new(alloc);
    for piece in &pieces(alloc, second, first.len().saturating_add(1))? {
        let found = index_in(&space, index(*piece));
        writeln!(out, "{found:?}")?;
    }
    Ok(out)
}

/// What each word of a line does with labels: `+` enters one without a name and `+$name` one with a name, `-` leaves the innermost, and a line is
/// answered to each name.
pub(crate) fn labels(alloc: Global, text: &str) -> Result<String, Refused> {
    let mut labels = Labels::new(alloc);
    let mut out = String::new(alloc);
    for piece in &pieces(alloc, text, 0)? {
        match piece.text {
            [b'+'] => labels.enter(None)?,
            [b'+', name @ ..] => labels.enter(Some(Piece { at: 0, text: name }))?,
            [b'-'] => labels.leave(),
            _ => {
                let found = labels.find(*piece);
                writeln!(out, "{found:?}")?;
            }
        }
    }
    Ok(out)
}

/// What the last integer of a line stands for as an index.
pub(crate) fn number_of(alloc: Global, text: &str) -> Result<String, Refused> {
    let mut out = String::new(alloc);
    for piece in &pieces(alloc, text, 0)? {
        let found = number(*piece);
        writeln!(out, "{found:?}")?;
    }
    Ok(out)
}

/// A line for each type of a text: what it takes and what it gives.
pub(crate) fn types(alloc: Global, text: &str) -> Result<String, Refused> {
    let tree = tree_of(alloc, text)?;
    let mut out = String::new(alloc);
    for own in &types_of_text(&alloc, &tree)? {
        let params = own.params.as_slice();
        let results = own.results.as_slice();
        writeln!(out, "{params:?} -> {results:?}")?;
    }
    Ok(out)
}

/// How many types, functions, tables, memories and globals a text has.
pub(crate) fn spaces(alloc: Global, text: &str) -> Result<String, Refused> {
    let spaces = spaces_of(alloc, text)?;
    let sizes = [
        spaces.types.len(),
        spaces.funcs.names.len(),
        spaces.tables.names.len(),
        spaces.memories.names.len(),
        spaces.globals.names.len(),
    ];
    Ok(format!(in alloc; "{sizes:?}\n")?)
}

/// The space of this word.
fn of_sort<'s, 't>(spaces: &'s Spaces<'t, Global>, sort: &str) -> Option<&'s Space<'t, Global>> {
    match sort {
        "type" => Some(&spaces.type_names),
        "func" => Some(&spaces.funcs),
        "table" => Some(&spaces.tables),
        "memory" => Some(&spaces.memories),
        "global" => Some(&spaces.globals),
        _ => None,
    }
}

/// What a name stands for in a space of a text: the first line has the word of the space and the name, and the text is behind it.
pub(crate) fn index_of(alloc: Global, text: &str) -> Result<String, Refused> {
    let (line, module) = text.split_once('\n').unwrap_or((text, ""));
    let (sort, name) = line.split_once(' ').unwrap_or((line, ""));
    let spaces = spaces_of(alloc, module)?;
    let piece = Piece {
        at: 0,
        text: name.as_bytes(),
    };
    match of_sort(&spaces, sort) {
        Some(space) => {
            let found = space.find(piece);
            Ok(format!(in alloc; "{found:?}\n")?)
        }
        None => Ok(format!(in alloc; "no space\n")?),
    }
}
