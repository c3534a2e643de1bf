//! The fields of a text, which keep names, indices and integers as parts of the text.
use lexer::Piece;
use module_tree::module::GlobalType;
use std::alloc::Allocator;
use text_body::{Binding, Flat, Index, TypeUse};
use wtypes::ValType;

/// The integers of a table's or a memory's limits.
#[derive(Clone, Copy, Debug)]
pub struct Bounds<'a> {
    /// The least size.
    pub min: Piece<'a>,
    /// The greatest, where it is written.
    pub max: Option<Piece<'a>>,
}

/// What an export is of.
#[derive(Clone, Copy, Debug, PartialEq, Eq)]
pub enum Kind {
    /// `func`
    Func,
    /// `table`
    Table,
    /// `memory`
    Memory,
    /// `global`
    Global,
}

/// What an import is.
#[derive(Drop)]
pub enum Desc<'a, A: Allocator> {
    /// A function of this type.
    Func(TypeUse<'a, A>),
    /// A table.
    Table(Bounds<'a>),
    /// A memory.
    Memory(Bounds<'a>),
    /// A global.
    Global(GlobalType),
}

/// `( type $id? ( func param* result* ) )`
#[derive(Drop)]
pub struct TypeField<'a, A: Allocator> {
    /// Its name, if it has one.
    pub name: Option<Piece<'a>>,
    /// The parameters, first to last.
    pub params: Vec<Binding<'a>, A>,
    /// The types of the results.
    pub results: Vec<ValType, A>,
}

/// `( import str str desc )`
#[derive(Drop)]
pub struct ImportField<'a, A: Allocator> {
    /// The name of the module that it comes from.
    pub from_module: String<A>,
    /// Its name there.
    pub item: String<A>,
    /// Its name in the text, if it has one.
    pub name: Option<Piece<'a>>,
    /// What it is.
    pub desc: Desc<'a, A>,
}

/// `( func $id? ( export str )* typeuse local* instr* )`
#[derive(Drop)]
pub struct FuncField<'a, A: Allocator> {
    /// Its name, if it has one.
    pub name: Option<Piece<'a>>,
    /// The names under which it is exported.
    pub exports: Vec<String<A>, A>,
    /// Its type.
    pub written: TypeUse<'a, A>,
    /// Its locals, the parameters aside.
    pub locals: Vec<Binding<'a>, A>,
    /// Its instructions, folded forms unfolded.
    pub body: Vec<Flat<'a, A>, A>,
}

/// `( table $id? limits funcref )` and `( memory $id? limits )`
#[derive(Clone, Copy, Debug)]
pub struct BoundedField<'a> {
    /// Its name, if it has one.
    pub name: Option<Piece<'a>>,
    /// Its limits.
    pub bounds: Bounds<'a>,
}

/// `( global $id? gtype instr* )`
#[derive(Drop)]
pub struct GlobalField<'a, A: Allocator> {
    /// Its name, if it has one.
    pub name: Option<Piece<'a>>,
    /// Its type.
    pub global_type: GlobalType,
    /// The instructions of its first value.
    pub init: Vec<Flat<'a, A>, A>,
}

/// `( export str ( kind idx ) )`
#[derive(Drop)]
pub struct ExportField<'a, A: Allocator> {
    /// The name under which it is exported.
    pub item: String<A>,
    /// What it is of.
    pub kind: Kind,
    /// Which of these.
    pub index: Index<'a>,
}

/// `( elem idx ( offset instr* ) idx* )`
#[derive(Drop)]
pub struct ElemField<'a, A: Allocator> {
    /// The table.
    pub table: Index<'a>,
    /// The instructions of its place.
    pub offset: Vec<Flat<'a, A>, A>,
    /// The functions.
    pub funcs: Vec<Index<'a>, A>,
}

/// `( data idx ( offset instr* ) str* )`
#[derive(Drop)]
pub struct DataField<'a, A: Allocator> {
    /// The memory.
    pub memory: Index<'a>,
    /// The instructions of its place.
    pub offset: Vec<Flat<'a, A>, A>,
    /// What the strings stand for, one after another.
    pub bytes: Vec<u8, A>,
}

/// A field of a module (Core Specification, 6.6 Modules).
#[derive(Drop)]
pub enum Field<'a, A: Allocator> {
    /// `type`
    Type(TypeField<'a, A>),
    /// `import`
    Import(ImportField<'a, A>),
    /// `func`
    Func(FuncField<'a, A>),
    /// `table`
    Table(BoundedField<'a>),
    /// `memory`
    Memory(BoundedField<'a>),
    /// `global`
    Global(GlobalField<'a, A>),
    /// `export`
    Export(ExportField<'a, A>),
    /// `start`: the function.
    Start(Index<'a>),
    /// `elem`
    Elem(ElemField<'a, A>),
    /// `data`
    Data(DataField<'a, A>),
}

/// A text: its fields in their order.
#[derive(Drop)]
pub struct Text<'a, A: Allocator> {
    /// The fields.
    pub fields: Vec<Field<'a, A>, A>,
}
