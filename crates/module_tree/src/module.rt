// Modules (Core Specification, 2.5 Modules).
ghost use Rattle.std.specs.Prelude.{◌≡◌, true, length, nat_le};
ghost use Rattle.spec_modules.specs.Limits.{module_fits};
ghost use Rattle.spec_modules.specs.Profile.{byte_limit};
ghost use Rattle.spec_modules.specs.Shortest.{shortest};
ghost use Rattle.module_tree.specs.ModuleView.{module_of, are_numbered};

use crate::instr::Instr;
use std::alloc::Allocator;
use wtypes::{FuncType, Limits, ValType};

/// The type of a global (Core Specification, 2.3.7 Global Types).
#[derive(Clone, Copy, Debug, PartialEq, Eq)]
pub struct GlobalType {
    /// The type of its value.
    pub value_type: ValType,
    /// Whether it may be set.
    pub is_mutable: bool,
}

/// What an import is (Core Specification, 2.5.11 Imports).
#[derive(Clone, Copy, Debug, PartialEq, Eq)]
pub enum ImportDesc {
    /// A function of the type of this index.
    Func(u32),
    /// A table.
    Table(Limits),
    /// A memory.
    Memory(Limits),
    /// A global.
    Global(GlobalType),
}

/// An import.
#[derive(Drop)]
pub struct Import<A: Allocator> {
    /// The name of the module that it comes from.
    pub from_module: String<A>,
    /// Its name there.
    pub name: String<A>,
    /// What it is.
    pub desc: ImportDesc,
}

/// What an export is (Core Specification, 2.5.10 Exports), by its index.
#[derive(Clone, Copy, Debug, PartialEq, Eq)]
pub enum ExportDesc {
    /// The function of this number, imports counted first.
    Func(u32),
    /// A table.
    Table(u32),
    /// A memory.
    Memory(u32),
    /// A global, imports counted first.
    Global(u32),
}

/// An export.
#[derive(Drop)]
pub struct Export<A: Allocator> {
    /// Its name.
    pub name: String<A>,
    /// What it is.
    pub desc: ExportDesc,
}

/// A defined function (Core Specification, 2.5.3 Functions).
#[derive(Drop)]
pub struct Func<A: Allocator> {
    /// The index of its type.
    pub type_index: u32,
    /// The types of its locals, the parameters aside.
    pub locals: Vec<ValType, A>,
    /// Its instructions.
    pub body: Vec<Instr<A>, A>,
}

/// A defined global (Core Specification, 2.5.6 Globals).
#[derive(Drop)]
pub struct Global<A: Allocator> {
    /// Its type.
    pub global_type: GlobalType,
    /// The expression of its first value.
    pub init: Vec<Instr<A>, A>,
}

/// An element segment (Core Specification, 2.5.7 Element Segments).
#[derive(Drop)]
pub struct Element<A: Allocator> {
    /// The index of its table.
    pub table: u32,
    /// The expression of its place.
    pub offset: Vec<Instr<A>, A>,
    /// The numbers of its functions.
    pub funcs: Vec<u32, A>,
}

/// A data segment (Core Specification, 2.5.8 Data Segments).
#[derive(Drop)]
pub struct DataSegment<A: Allocator> {
    /// The index of its memory.
    pub memory: u32,
    /// The expression of its place.
    pub offset: Vec<Instr<A>, A>,
    /// Its bytes.
    pub bytes: Vec<u8, A>,
}

/// A module that keeps the limits of this profile: 4,096 defined functions, 1,024 declared locals a function,
/// 128 nested blocks, 1,024 labels of a `br_table`, and 1,048,576 bytes of its shortest spelling. The instructions of
/// each expression carry their ordinals 0, 1, 2 and so on in preorder.
#[derive(Drop)]
pub struct Module<A: Allocator> {
    /// The types of functions.
    pub types: Vec<FuncType<A>, A>,
    /// The imports.
    pub imports: Vec<Import<A>, A>,
    /// The defined functions.
    pub funcs: Vec<Func<A>, A>,
    /// The defined tables. A valid module has at most one, imports counted.
    pub tables: Vec<Limits, A>,
    /// The defined memories. A valid module has at most one, imports counted.
    pub memories: Vec<Limits, A>,
    /// The defined globals.
    pub globals: Vec<Global<A>, A>,
    /// The exports.
    pub exports: Vec<Export<A>, A>,
    /// The number of the start function, where there is one.
    pub start: Option<u32>,
    /// The element segments.
    pub elements: Vec<Element<A>, A>,
    /// The data segments.
    pub datas: Vec<DataSegment<A>, A>,
    pub ghost fits: { module_fits (module_of types.items imports.items funcs.items tables.items memories.items globals.items exports.items start elements.items datas.items) ≡ true },
    pub ghost short: { nat_le (length (shortest (module_of types.items imports.items funcs.items tables.items memories.items globals.items exports.items start elements.items datas.items))) byte_limit ≡ true },
    pub ghost numbered: { are_numbered funcs.items globals.items elements.items datas.items ≡ true },
}
