// The lists of a module.

use module_tree::module::{DataSegment, Element, Export, Func, Global, Import};
use std::alloc::Allocator;
use wtypes::{FuncType, Limits};

/// The lists of a module, before it is known that they keep the limits of a `Module`.
#[derive(Drop)]
pub struct Lists<A: Allocator> {
    /// The types of functions.
    pub types: Vec<FuncType<A>, A>,
    /// The imports.
    pub imports: Vec<Import<A>, A>,
    /// The defined functions.
    pub funcs: Vec<Func<A>, A>,
    /// The defined tables.
    pub tables: Vec<Limits, A>,
    /// The defined memories.
    pub memories: Vec<Limits, A>,
    /// The defined globals.
    pub globals: Vec<Global<A>, A>,
    /// The exports.
    pub exports: Vec<Export<A>, A>,
    /// The number of the start function, where there is one.
    pub start: Option<u32>,
    /// The element segments.
    pub elements: Vec<Element<A>, A>,
    /// The data segments.
    pub datas: Vec<DataSegment<A>, A>,
}
