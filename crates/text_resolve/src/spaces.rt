//! The types and the index spaces of a text.
use crate::Space;
use std::alloc::Allocator;
use wtypes::FuncType;

/// The types of a text and its index spaces, those of locals and labels aside.
#[derive(Drop)]
pub struct Spaces<'a, A: Allocator> {
    /// The types, with those that are added for uses without an index.
    pub types: Vec<FuncType<A>, A>,
    /// The names of types.
    pub type_names: Space<'a, A>,
    /// The names of functions, imports counted first.
    pub funcs: Space<'a, A>,
    /// The names of tables.
    pub tables: Space<'a, A>,
    /// The names of memories.
    pub memories: Space<'a, A>,
    /// The names of globals.
    pub globals: Space<'a, A>,
}
