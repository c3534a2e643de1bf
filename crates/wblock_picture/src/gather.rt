//! The first edges of a graph.

ghost use Rattle.std.specs.Prelude.{◌≡◌, ◌≤◌, true, false, IfOk, OnOk, length};
ghost use Rattle.wblock_picture.specs.Edges.{with_edge, AddsEdges, AreEdges};

use crate::Edge;
use crate::scene::MOST_LINES;
use schedule::Graph;
use std::alloc::Global;
use wtypes::NoMemory;

/// The first edges of a graph.
#[derive(Debug, Drop)]
pub struct Edges {
    /// At most [`MOST_LINES`] of them.
    pub list: Vec<Edge>,
    /// Whether there was room for all.
    pub all: bool,
}

/// Adds an edge to one of the first positions, and says whether there was room.
fn add_edge(list: &mut Vec<Edge>, edge: Edge, positions: u32) -> Result<bool, NoMemory>
    ensures added { IfOk result (λ room. room ≡ true → list.new.items ≡ with_edge edge positions list.old.items) }
    ensures few { OnOk result (length list.old.items ≤ MOST_LINES → length list.new.items ≤ MOST_LINES) }
    ensures full { IfOk result (λ room. room ≡ false → (list.new.items ≡ list.old.items) × (MOST_LINES ≤ length list.new.items)) }
{
    if edge.after >= positions {
        return Ok(true);
    }
    if list.len() >= MOST_LINES {
        return Ok(false);
    }
    list.push(edge)?;
    Ok(true)
}

/// Adds the edges from this position to its successors, and says whether there was room for all.
fn add_edges(
    list: &mut Vec<Edge>,
    before: u32,
    successors: &[u32],
    positions: u32,
) -> Result<bool, NoMemory>
    ensures { IfOk result (λ all. AddsEdges before successors.now positions all list.old.items list.new.items) }
{
    for after in successors {
        let edge = Edge {
            before,
            after: *after,
        };
        if !add_edge(list, edge, positions)? {
            return Ok(false);
        }
    }
    Ok(true)
}

/// The edges of a graph between its first positions, so many of them: all, or as many as have a line.
///
/// # Errors
///
/// Memory was refused.
pub fn edges_of(alloc: Global, graph: &Graph, positions: u32) -> Result<Edges, NoMemory>
    ensures { IfOk result (λ edges. AreEdges graph.now.profiles positions edges.all edges.list.items) }
{
    let mut list = Vec::new(alloc);
    for before in 0..positions {
        let successors = graph.successors(alloc, before)?;
        if !add_edges(&mut list, before, &successors, positions)? {
            return Ok(Edges { list, all: false });
        }
    }
    Ok(Edges { list, all: true })
}
