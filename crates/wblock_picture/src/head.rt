//! What stands above the boxes of a picture.

ghost use Rattle.std.specs.Prelude.{◌≡◌, ◌≤◌, ◌^◌, IfOk, length, string_bytes};
ghost use Rattle.wblock_picture.specs.Heads.{size_text, summary, more_word, drawn_text, hot_text, hot_texts, head};

use crate::seat::{COLUMN, ROW};
use figures::{SharedLock, lock_text_of};
use std::alloc::{AllocError, Global};

/// How the parts of a picture look, on a screen, light or dark, and in print.
pub(crate) const STYLE: &str =
    "<style>text{font:11px ui-monospace,Menlo,Consolas,monospace;fill:#1f2328}.page{fill:#ffffff}.name{font-size:15px;font-weight:bold}.lines path{fill:none;stroke:#57606a;stroke-opacity:.5}.lines path:hover{stroke-width:3;stroke-opacity:1}g>rect{rx:3px;stroke-width:1.2}.R rect{fill:#dafbe1;stroke:#1a7f37}.T rect{fill:#ffebe9;stroke:#cf222e;stroke-dasharray:6 2}.F rect{fill:#fff8c5;stroke:#9a6700;stroke-dasharray:2 2}.X rect{fill:#eaeef2;stroke:#24292f;stroke-width:2.4}@media screen and (prefers-color-scheme:dark){text{fill:#e6edf3}.page{fill:#0d1117}.lines path{stroke:#9198a1}.R rect{fill:#12361f;stroke:#3fb950}.T rect{fill:#4a1518;stroke:#ff7b72}.F rect{fill:#3b2e04;stroke:#d29922}.X rect{fill:#2a313c;stroke:#f0f6fc}}@media print{g>rect{print-color-adjust:exact;-webkit-print-color-adjust:exact}}</style>\n<rect class=\"page\" width=\"100%\" height=\"100%\"/>\n";

/// What the letters and the edges of the boxes mean.
pub(crate) const LEGEND: &str =
    "<g class=\"R\" transform=\"translate(24 38)\"><rect width=\"106\" height=\"18\"/><text x=\"5\" y=\"13\">R returned</text></g>\n<g class=\"T\" transform=\"translate(144 38)\"><rect width=\"106\" height=\"18\"/><text x=\"5\" y=\"13\">T trapped</text></g>\n<g class=\"F\" transform=\"translate(264 38)\"><rect width=\"106\" height=\"18\"/><text x=\"5\" y=\"13\">F no fuel left</text></g>\n<g class=\"X\" transform=\"translate(384 38)\"><rect width=\"106\" height=\"18\"/><text x=\"5\" y=\"13\">X rejected</text></g>\n";

/// What is told above the boxes.
#[derive(Clone, Copy)]
pub(crate) struct Told {
    /// The positions of the block.
    pub(crate) positions: usize,
    /// Its waves.
    pub(crate) waves: u64,
    /// The positions that have a box.
    pub(crate) drawn: usize,
    /// The edges that have a line.
    pub(crate) lines: usize,
    /// Whether there are more edges.
    pub(crate) more: bool,
    /// The most fuel that one of the drawn positions used.
    pub(crate) greatest: u64,
    /// The columns that the boxes reach over.
    pub(crate) columns: u64,
    /// The rows that they reach over.
    pub(crate) rows: u64,
}

/// The first line, with the size. The boxes begin so far below the top.
fn size_text_of(alloc: Global, told: Told, top: u64) -> Result<String, AllocError>
    requires columns { told.columns ≤ 2 ^ 32 }
    requires rows { told.rows ≤ 2 ^ 32 }
    requires top { top ≤ 2 ^ 32 }
    ensures { IfOk result (λ text. string_bytes text ≡ size_text told top) }
{
    let width = (24 + COLUMN * told.columns).max(720);
    let height = top + ROW * told.rows + 24;
    format!(in alloc;
        "<svg xmlns=\"http://www.w3.org/2000/svg\" width=\"{width}\" height=\"{height}\" viewBox=\"0 0 {width} {height}\">\n"
    )
}

/// How many positions and waves there are.
fn summary_of(alloc: Global, told: Told) -> Result<String, AllocError>
    ensures { IfOk result (λ text. string_bytes text ≡ summary told) }
{
    let positions = told.positions;
    let waves = told.waves;
    format!(in alloc;
        "<text class=\"name\" x=\"24\" y=\"26\">{positions} positions in {waves} waves</text>\n"
    )
}

fn more_word_of(more: bool) -> &'static str
    ensures { result.now ≡ more_word more }
{
    if more { ", and not all" } else { "" }
}

/// How many of them are drawn, and the scale.
fn drawn_text_of(alloc: Global, told: Told) -> Result<String, AllocError>
    ensures { IfOk result (λ text. string_bytes text ≡ drawn_text told) }
{
    let drawn = told.drawn;
    let lines = told.lines;
    let more = more_word_of(told.more);
    let greatest = told.greatest;
    format!(in alloc;
        "<text x=\"24\" y=\"76\">drawn: {drawn} positions, {lines} lines{more}; a box of full width used {greatest} fuel</text>\n"
    )
}

/// The line of one of the hottest locks.
fn hot_text_of(alloc: Global, number: u64, hot: SharedLock) -> Result<String, AllocError>
    requires { number ≤ 5 }
    ensures { IfOk result (λ text. string_bytes text ≡ hot_text number hot) }
{
    let y = 92 + 16 * number;
    let lock = lock_text_of(alloc, hot.lock)?;
    let holders = hot.positions;
    format!(in alloc; "<text x=\"24\" y=\"{y}\">hot: {lock}, in {holders} positions</text>\n")
}

/// A line for each of the hottest locks.
fn hot_texts_of(alloc: Global, hottest: &[SharedLock]) -> Result<String, AllocError>
    requires { length hottest.now ≤ 5 }
    ensures { IfOk result (λ text. string_bytes text ≡ hot_texts 0 hottest.now) }
{
    let mut text = String::new(alloc);
    let mut number: u64 = 0;
    for hot in hottest {
        let line = hot_text_of(alloc, number, *hot)?;
        text.push_str(line.as_str())?;
        number += 1;
    }
    Ok(text)
}

/// All that stands above the boxes, which begin so far below the top.
#[tactic(auto, unfolding(crate::specs::Heads::head))]
pub(crate) fn head_of(
    alloc: Global,
    told: Told,
    hottest: &[SharedLock],
    top: u64,
) -> Result<String, AllocError>
    requires columns { told.columns ≤ 2 ^ 32 }
    requires rows { told.rows ≤ 2 ^ 32 }
    requires top { top ≤ 2 ^ 32 }
    requires few { length hottest.now ≤ 5 }
    ensures { IfOk result (λ text. string_bytes text ≡ head told hottest.now top) }
{
    let size = size_text_of(alloc, told, top)?;
    let style = STYLE;
    let summary = summary_of(alloc, told)?;
    let legend = LEGEND;
    let drawn = drawn_text_of(alloc, told)?;
    let hot = hot_texts_of(alloc, hottest)?;
    format!(in alloc; "{size}{style}{summary}{legend}{drawn}{hot}")
}
