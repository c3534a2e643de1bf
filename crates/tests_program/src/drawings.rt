//! Pictures of whole blocks: read as XML, whole, and no larger than they may be.

use crate::assertions::{equal, holds};
use crate::blocks::{BACK, ELEVEN, FOUR, NO_CALLS};
use crate::orders::{crowd, positions};
use block::{Block, read_block};
use spec_ledger::Version;
use std::alloc::Global;
use wblock_picture::draw_block;

/// A block in hex digits, and how many boxes and lines its picture has. What it shows is told by `pictures.rows` of `rows`.
type Row<'a> = (&'a str, &'a str, usize, usize);

const ROWS: &[Row] = &[
    ("no calls", NO_CALLS, 0, 0),
    ("four positions", FOUR, 4, 2),
    ("turns that go back", BACK, 2, 1),
    ("eleven shared cells", ELEVEN, 3, 0),
];

/// The picture of the block that these digits spell.
fn drawn(alloc: Global, digits: &str) -> Option<String> {
    let bytes = hex::decode(alloc, digits).ok()?;
    let block = read_block(alloc, bytes.as_slice()).ok()?;
    draw_block(alloc, &block).ok()
}

/// How many boxes a picture has, those of its legend left out.
fn boxes_in(text: &str) -> usize {
    text.matches("\" height=\"18\"/><text")
        .count()
        .saturating_sub(4)
}

/// How many lines a picture has.
fn lines_in(text: &str) -> usize {
    text.matches("<path d=\"M").count()
}

/// Whether a tag's quotes go in pairs.
fn is_quoted(tag: &str) -> bool {
    tag.matches('"').count() % 2 == 0
}

/// The name of an element, of what stands between `<` and `>` where it begins.
fn name_of(tag: &str) -> &str {
    match tag.split_once(' ') {
        None => tag,
        Some((name, _)) => name,
    }
}

/// Whether a text without `&` is XML: one element with a newline behind it, and in it each element that begins ends, the last one first. None where it is not, as
/// where memory is refused.
fn is_xml(alloc: Global, text: &str) -> Option<bool> {
    let mut open = Vec::new(alloc);
    let mut tops: u32 = 0;
    let (front, rest) = text.split_once('<')?;
    for piece in rest.split('<') {
        let (tag, after) = piece.split_once('>')?;
        if !is_quoted(tag) {
            return Some(false);
        }
        if let Some(name) = tag.strip_prefix('/') {
            if open.pop()? != name {
                return Some(false);
            }
        } else if !tag.ends_with('/') {
            open.push(name_of(tag)).ok()?;
        }
        if open.is_empty() {
            if after != "\n" {
                return Some(false);
            }
            tops = tops.checked_add(1)?;
        }
    }
    Some(front.is_empty() && open.is_empty() && tops == 1 && !text.contains('&'))
}

/// Whether a picture is XML, and has as many boxes and lines.
fn has(alloc: Global, text: &str, boxes: usize, lines: usize) -> bool {
    boxes_in(text) == boxes && lines_in(text) == lines && is_xml(alloc, text) == Some(true)
}

/// Whether the picture of a row's block is as it says.
fn is_as_told(alloc: Global, row: &Row) -> bool {
    let (_, digits, boxes, lines) = *row;
    match drawn(alloc, digits) {
        None => false,
        Some(text) => has(alloc, text.as_str(), boxes, lines),
    }
}

#[test]
fn blocks_are_drawn(rt: HostRuntime) {
    for row in ROWS {
        holds(&rt, &row.0, is_as_told(rt.alloc(), row));
    }
}

/// What is not XML, and what is.
const TEXTS: &[(&str, Option<bool>)] = &[
    ("<a><b c=\"d\">e</b><f/></a>\n", Some(true)),
    ("<a></a>", Some(false)),
    ("<a></a>\n<b></b>\n", Some(false)),
    ("<a><b></a></b>\n", Some(false)),
    ("<a><b></a>\n", Some(false)),
    ("<a b=\"c></a>\n", Some(false)),
    ("<a>&</a>\n", Some(false)),
    ("</a>\n", None),
    ("a", None),
];

#[test]
fn other_texts_are_no_xml(rt: HostRuntime) {
    for (text, wanted) in TEXTS {
        equal(&rt, text, &is_xml(rt.alloc(), *text), wanted);
    }
}

/// The picture of a block of so many positions that add to a counter and so many behind them that read it.
fn crowd_drawn(alloc: Global, adders: usize, readers: usize) -> Option<String> {
    let order = crowd(alloc, adders, readers)?;
    let positions = positions(alloc, &order)?;
    let block = Block::new(Version::Two, [1; 32], [2; 32], positions, 0, [3; 32])?;
    draw_block(alloc, &block).ok()
}

/// How many positions add and how many read; how many boxes and lines are drawn, and of the picture the waves, what is drawn of them, and the last box.
type Crowd<'a> = (usize, usize, usize, usize, usize, &'a str, &'a str);

const CROWDS: &[Crowd] = &[
    // the most lines
    (
        80,
        50,
        130,
        4_000,
        2,
        ">drawn: 130 positions, 4000 lines; a box of full width used 1 fuel<",
        "<g class=\"R\" transform=\"translate(200 1176)\"><title>129 call 129 returned fuel 1
wave 1
counter 0:7 read turn 1</title><rect width=\"150\" height=\"18\"/><text x=\"5\" y=\"13\">R 129</text></g>
</g>
</svg>
",
    ),
    // 32 lines more than are drawn
    (
        64,
        63,
        127,
        4_000,
        2,
        ">drawn: 127 positions, 4000 lines, and not all; a box of full width used 1 fuel<",
        "<g class=\"R\" transform=\"translate(200 1488)\"><title>126 call 126 returned fuel 1
wave 1
counter 0:7 read turn 1</title><rect width=\"150\" height=\"18\"/><text x=\"5\" y=\"13\">R 126</text></g>
</g>
</svg>
",
    ),
    // the most boxes, and a position more
    (2_000, 0, 2_000, 0, 1, OF_2000, LAST_OF_2000),
    (2_001, 0, 2_000, 0, 1, OF_2000, LAST_OF_2000),
];

/// What is drawn of 2,000 positions or more, none of which waits.
const OF_2000: &str = ">drawn: 2000 positions, 0 lines; a box of full width used 1 fuel<";

/// The last box of them.
const LAST_OF_2000: &str =
    "<g class=\"R\" transform=\"translate(0 47976)\"><title>1999 call 1999 returned fuel 1
wave 0
counter 0:7 add turn 0</title><rect width=\"150\" height=\"18\"/><text x=\"5\" y=\"13\">R 1999</text></g>
</g>
</svg>
";

/// Whether the picture of a crowd has as many boxes and lines as its row says, tells so, and ends with the last box. None where memory is refused.
fn is_bounded(alloc: Global, row: &Crowd) -> Option<bool> {
    let (adders, readers, boxes, lines, waves, told, last) = *row;
    let text = crowd_drawn(alloc, adders, readers)?;
    let positions = adders.saturating_add(readers);
    let count = format!(in alloc; ">{positions} positions in {waves} waves<").ok()?;
    let text = text.as_str();
    let is_told = text.contains(count.as_str()) && text.contains(told) && text.ends_with(last);
    Some(is_told && has(alloc, text, boxes, lines))
}

#[test]
fn pictures_are_bounded(rt: HostRuntime) {
    for row in CROWDS {
        let is_bounded = is_bounded(rt.alloc(), row);
        equal(&rt, &(row.0, row.1), &is_bounded, &Some(true));
    }
}

/// Whether the picture of a row's block is whole, where memory is not refused.
fn is_whole_or_none(alloc: Global, row: &Row) -> bool {
    let (_, digits, boxes, lines) = *row;
    match drawn(alloc, digits) {
        None => true,
        Some(text) => {
            let text = text.as_str();
            boxes_in(text) == boxes && lines_in(text) == lines && text.ends_with("</svg>\n")
        }
    }
}

// What `rt try --test --fail-alloc N` runs: where memory is refused there is no picture, and never a part of one.
#[test]
fn no_part_of_a_picture_is_given(rt: HostRuntime) {
    for row in ROWS {
        holds(&rt, &row.0, is_whole_or_none(rt.alloc(), row));
    }
}
