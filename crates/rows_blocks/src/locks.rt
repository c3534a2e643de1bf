//! The locks of orders of calls.

ghost use Rattle.std.specs.Prelude.{IfOk, length, ◌<◌, ◌^◌};

use lock_profile::{Profile, Touched, turns};
use rows_books::words::{cut, text_of};
use rows_files::Refused;
use rows_files::put::put_entries;
use rows_files::words::{entry_of, held_of};
use schedule::{Graph, turns_agree, waves_of};
use std::alloc::Global;

/// The locks of a position: none, or some with commas between them.
fn touched_of(alloc: Global, line: &str) -> Result<Touched, Refused> {
    let mut held = Vec::new(alloc);
    if !line.is_empty() {
        for lock in line.split(',') {
            held.push(held_of(lock.trim_start())?)?;
        }
    }
    match Touched::from_sorted(held) {
        Some(touched) => Ok(touched),
        None => Err(Refused::Locks),
    }
}

/// The locks of the positions of an order: a line for each, `position`, and the locks behind it.
fn order_of(alloc: Global, lines: &[u8]) -> Result<Vec<Touched>, Refused>
    ensures { IfOk result (λ maps. length maps.items < 2 ^ 16) }
{
    let mut maps = Vec::new(alloc);
    for line in text_of(lines)?.split('\n') {
        match cut(line) {
            ("position", locks) => maps.push(touched_of(alloc, locks)?)?,
            ("", _) => (),
            _ => return Err(Refused::Line),
        }
    }
    if maps.len() < 65_536 {
        Ok(maps)
    } else {
        Err(Refused::Line)
    }
}

/// The lock profiles of the positions of an order.
pub(crate) fn lock_profiles(alloc: Global, lines: &[u8]) -> Result<String, Refused> {
    let order = order_of(alloc, lines)?;
    let mut out = String::new(alloc);
    for profile in &turns(alloc, &order)? {
        writeln!(out, "position")?;
        put_entries(&mut out, profile.entries())?;
    }
    Ok(out)
}

/// The lock profile of these entries, a line for each.
pub(crate) fn lock_profile(alloc: Global, lines: &[u8]) -> Result<String, Refused> {
    let mut entries = Vec::new(alloc);
    for line in text_of(lines)?.split('\n') {
        if !line.is_empty() {
            entries.push(entry_of(line)?)?;
        }
    }
    let Some(profile) = Profile::from_sorted(entries) else {
        return Err(Refused::Locks);
    };
    let mut out = String::new(alloc);
    put_entries(&mut out, profile.entries())?;
    Ok(out)
}

/// The graph of an order.
fn graph_of(alloc: Global, lines: &[u8]) -> Result<Graph, Refused> {
    let order = order_of(alloc, lines)?;
    turns_agree();
    Ok(Graph::of(alloc, &turns(alloc, &order)?)?)
}

/// Puts a line for each edge that goes from a position.
fn put_edges(alloc: Global, out: &mut String, graph: &Graph, position: u32) -> Result<(), Refused> {
    for successor in &graph.successors(alloc, position)? {
        writeln!(out, "{position} {successor}")?;
    }
    Ok(())
}

/// The waves of the positions of an order, and the edges of its graph.
pub(crate) fn lock_graph(alloc: Global, lines: &[u8]) -> Result<String, Refused> {
    let graph = graph_of(alloc, lines)?;
    let mut out = String::new(alloc);
    let waves = graph.waves();
    writeln!(out, "waves {waves:?}")?;
    for (position, _) in waves.iter().enumerate() {
        if let Ok(position) = u32::try_from(position) {
            put_edges(alloc, &mut out, &graph, position)?;
        }
    }
    Ok(out)
}

/// The waves of an order.
fn waves(alloc: Global, lines: &[u8]) -> Result<Vec<u32>, Refused> {
    let order = order_of(alloc, lines)?;
    turns_agree();
    Ok(waves_of(alloc, &turns(alloc, &order)?)?)
}

/// The wave of each position from which on it is another than that of the one before, and how many positions there are.
pub(crate) fn lock_waves(alloc: Global, lines: &[u8]) -> Result<String, Refused> {
    let waves = waves(alloc, lines)?;
    let mut out = String::new(alloc);
    let mut before = None;
    for (position, wave) in waves.iter().enumerate() {
        if before != Some(*wave) {
            writeln!(out, "from {position} wave {wave}")?;
            before = Some(*wave);
        }
    }
    writeln!(out, "positions {}", waves.len())?;
    Ok(out)
}
