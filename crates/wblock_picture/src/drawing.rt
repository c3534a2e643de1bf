//! The picture of a block.

ghost use Rattle.std.specs.Prelude.{◌≡◌, IfOk, not, string_bytes};
ghost use Rattle.wblock_picture.specs.Drawings.{IsPictureOf};

use crate::gather::{Edges, edges_of};
use crate::picture::picture_of;
use crate::scene::{MOST_BOXES, Scene};
use crate::turns::turns_taken;
use block::{Block, Position};
use figures::{SharedLock, figures_of};
use schedule::Graph;
use std::alloc::Global;
use wtypes::NoMemory;

/// What a picture shows of these.
fn scene_of<'a>(
    positions: &'a [Position],
    waves: &'a [u32],
    edges: &'a Edges,
    hottest: &'a [SharedLock],
) -> Scene<'a>
    ensures positions { result.positions.now ≡ positions.entry.now }
    ensures waves { result.waves.now ≡ waves.entry.now }
    ensures edges { result.edges.now ≡ edges.entry.now.list.items }
    ensures more { result.more_edges ≡ not edges.entry.now.all }
    ensures hottest { result.hottest.now ≡ hottest.entry.now }
{
    Scene {
        positions,
        waves,
        edges: &edges.list,
        more_edges: !edges.all,
        hottest,
    }
}

/// The picture of a block, as the text of an SVG: its waves and lines are those that the modes of its locks make in its order, whatever turns it publishes, which in a block
/// that a miner makes are these.
///
/// # Errors
///
/// Memory was refused.
pub fn draw_block(alloc: Global, block: &Block) -> Result<String, NoMemory>
    ensures { IfOk result (λ text. IsPictureOf block.now (string_bytes text)) }
{
    block.use_invariant();
    let profiles = turns_taken(alloc, block.positions())?;
    let graph = Graph::of(alloc, &profiles)?;
    let edges = edges_of(alloc, &graph, MOST_BOXES as u32)?;
    let figures = figures_of(alloc, block)?;
    let scene = scene_of(block.positions(), graph.waves(), &edges, &figures.hottest);
    picture_of(alloc, &scene)
}
