//! Parts of a module.
use module_tree::module::{DataSegment, Element, Export, Func, Global, Import};
use std::alloc::Allocator;
use wtypes::Limits;

/// What one field makes of a module.
#[derive(Drop)]
pub enum Part<A: Allocator> {
    /// Nothing: the types of a text are listed for the whole text.
    Nothing,
    /// An import.
    Import(Import<A>),
    /// A function, and its exports that stand in its field.
    Func(Func<A>, Vec<Export<A>, A>),
    /// A table.
    Table(Limits),
    /// A memory.
    Memory(Limits),
    /// A global.
    Global(Global<A>),
    /// An export.
    Export(Export<A>),
    /// The number of the start function.
    Start(u32),
    /// An element segment.
    Element(Element<A>),
    /// A data segment.
    Data(DataSegment<A>),
}
