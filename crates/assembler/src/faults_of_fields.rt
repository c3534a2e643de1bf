//! The faults of fields and of a whole text.
ghost use Rattle.assembler.specs.OfFields.{IsOfFields};

use crate::bodies::{Known, body_faults, use_faults};
use crate::faults::Faults;
use crate::names::space_of;
use lexer::Piece;
use module_tree::limit::{FUNCTION_LIMIT, LOCAL_LIMIT};
use std::alloc::Allocator;
use text_body::{Flat, Index};
use text_fields::types_of_text;
use text_resolve::{AsmRefusal, Limit, Space, Spaces, index_in, number};
use text_tree::{Bounds, Desc, ElemField, ExportField, Field, FuncField, ImportField, Kind, Text};
use wtypes::NoMemory;

// The names of one sort, first to last.
type Names<'a, A> = Vec<Option<Piece<'a>>, A>;

// The names of the types, functions, tables, memories and globals of a text.
#[derive(Drop)]
struct NameLists<'a, A: Allocator> {
    types: Names<'a, A>,
    funcs: Names<'a, A>,
    tables: Names<'a, A>,
    memories: Names<'a, A>,
    globals: Names<'a, A>,
}

impl<'a, A: Allocator + Clone> NameLists<'a, A> {
    // Puts the name of an import at the end of its list.
    fn add_import(&mut self, import: &ImportField<'a, A>) -> Result<(), NoMemory> {
        match &import.desc {
            Desc::Func(_) => self.funcs.push(import.name)?,
            Desc::Table(_) => self.tables.push(import.name)?,
            Desc::Memory(_) => self.memories.push(import.name)?,
            Desc::Global(_) => self.globals.push(import.name)?,
        }
        Ok(())
    }

    // Puts the name of a field at the end of its list.
    fn add(&mut self, field: &Field<'a, A>) -> Result<(), NoMemory> {
        match field {
            Field::Type(own) => self.types.push(own.name)?,
            Field::Import(import) => self.add_import(import)?,
            Field::Func(func) => self.funcs.push(func.name)?,
            Field::Table(table) => self.tables.push(table.name)?,
            Field::Memory(memory) => self.memories.push(memory.name)?,
            Field::Global(global) => self.globals.push(global.name)?,
            _ => {}
        }
        Ok(())
    }
}

// The types and index spaces of a text, in which a name may stand twice.
fn spaces_of<'a, A: Allocator + Clone>(
    alloc: &A,
    text: &Text<'a, A>,
    faults: &mut Faults,
) -> Result<Spaces<'a, A>, NoMemory> {
    let mut lists = NameLists {
        types: Vec::new(alloc.clone()?),
        funcs: Vec::new(alloc.clone()?),
        tables: Vec::new(alloc.clone()?),
        memories: Vec::new(alloc.clone()?),
        globals: Vec::new(alloc.clone()?),
    };
    for field in &text.fields {
        lists.add(field)?;
    }
    let Ok(types) = types_of_text(alloc, text) else {
        return Err(NoMemory);
    };
    Ok(Spaces {
        types,
        type_names: space_of(alloc, &lists.types, faults)?,
        funcs: space_of(alloc, &lists.funcs, faults)?,
        tables: space_of(alloc, &lists.tables, faults)?,
        memories: space_of(alloc, &lists.memories, faults)?,
        globals: space_of(alloc, &lists.globals, faults)?,
    })
}

// The faults of the limits of a table or a memory.
fn bounds_faults(bounds: Bounds<'_>, faults: &mut Faults) -> Result<(), NoMemory> {
    faults.take(number(bounds.min))?;
    match bounds.max {
        None => Ok(()),
        Some(max) => faults.take(number(max)),
    }
}

fn import_faults<'a, A: Allocator + Clone>(
    known: &Known<'_, 'a, A>,
    import: &ImportField<'a, A>,
    faults: &mut Faults,
) -> Result<(), NoMemory> {
    match &import.desc {
        Desc::Func(written) => use_faults(known, written, faults),
        Desc::Table(bounds) => bounds_faults(*bounds, faults),
        Desc::Memory(bounds) => bounds_faults(*bounds, faults),
        Desc::Global(_) => Ok(()),
    }
}

// The names of the parameters that are written and of the locals have one space.
fn func_faults<'a, A: Allocator + Clone>(
    known: &Known<'_, 'a, A>,
    func: &FuncField<'a, A>,
    faults: &mut Faults,
) -> Result<(), NoMemory> {
    use_faults(known, &func.written, faults)?;
    if func.locals.len() > LOCAL_LIMIT {
        faults.pass(Limit::Locals);
    }
    let mut names = Vec::new(known.alloc.clone()?);
    for param in &func.written.params {
        names.push(param.name)?;
    }
    for local in &func.locals {
        names.push(local.name)?;
    }
    let locals = space_of(known.alloc, &names, faults)?;
    body_faults(known, &locals, &func.body, faults)
}

// The faults of an expression without locals.
fn constant_faults<'a, A: Allocator + Clone>(
    known: &Known<'_, 'a, A>,
    flats: &Vec<Flat<'a, A>, A>,
    faults: &mut Faults,
) -> Result<(), NoMemory> {
    let names = Vec::new(known.alloc.clone()?);
    let none = space_of(known.alloc, &names, faults)?;
    body_faults(known, &none, flats, faults)
}

// The fault of an index among names.
fn index_faults<'a, A: Allocator>(
    space: &Space<'a, A>,
    index: Index<'a>,
    faults: &mut Faults,
) -> Result<(), NoMemory> {
    faults.take(index_in(space, index))
}

fn export_faults<'a, A: Allocator>(
    spaces: &Spaces<'a, A>,
    export: &ExportField<'a, A>,
    faults: &mut Faults,
) -> Result<(), NoMemory> {
    match export.kind {
        Kind::Func => index_faults(&spaces.funcs, export.index, faults),
        Kind::Table => index_faults(&spaces.tables, export.index, faults),
        Kind::Memory => index_faults(&spaces.memories, export.index, faults),
        Kind::Global => index_faults(&spaces.globals, export.index, faults),
    }
}

fn elem_faults<'a, A: Allocator + Clone>(
    known: &Known<'_, 'a, A>,
    elem: &ElemField<'a, A>,
    faults: &mut Faults,
) -> Result<(), NoMemory> {
    index_faults(&known.spaces.tables, elem.table, faults)?;
    constant_faults(known, &elem.offset, faults)?;
    for index in &elem.funcs {
        index_faults(&known.spaces.funcs, *index, faults)?;
    }
    Ok(())
}

fn field_faults<'a, A: Allocator + Clone>(
    known: &Known<'_, 'a, A>,
    field: &Field<'a, A>,
    faults: &mut Faults,
) -> Result<(), NoMemory> {
    match field {
        Field::Type(_) => Ok(()),
        Field::Import(import) => import_faults(known, import, faults),
        Field::Func(func) => func_faults(known, func, faults),
        Field::Table(table) => bounds_faults(table.bounds, faults),
        Field::Memory(memory) => bounds_faults(memory.bounds, faults),
        Field::Global(global) => constant_faults(known, &global.init, faults),
        Field::Export(export) => export_faults(known.spaces, export, faults),
        Field::Start(index) => index_faults(&known.spaces.funcs, *index, faults),
        Field::Elem(elem) => elem_faults(known, elem, faults),
        Field::Data(data) => {
            index_faults(&known.spaces.memories, data.memory, faults)?;
            constant_faults(known, &data.offset, faults)
        }
    }
}

// Whether more functions are defined than may be.
fn has_too_many_funcs<A: Allocator>(text: &Text<'_, A>) -> bool {
    let mut count: usize = 0;
    for field in &text.fields {
        if matches!(field, Field::Func(_)) {
            count = count.saturating_add(1);
        }
    }
    count > FUNCTION_LIMIT
}

fn faults_of<'a, A: Allocator + Clone>(alloc: &A, text: &Text<'a, A>) -> Result<Faults, NoMemory> {
    let mut faults = Faults::none();
    if has_too_many_funcs(text) {
        faults.pass(Limit::Functions);
    }
    let spaces = spaces_of(alloc, text, &mut faults)?;
    let known = Known {
        alloc,
        spaces: &spaces,
    };
    for field in &text.fields {
        field_faults(&known, field, &mut faults)?;
    }
    Ok(faults)
}

/// The refusal of a text that is in the grammar and names no module: the fault at the least place, which is UnknownName,
/// RepeatedName or NumberRange, else the least limit that is passed, else that of the module's bytes. It is NoMemory
/// where memory is refused meanwhile.
pub fn first_fault<'a, A: Allocator + Clone>(alloc: &A, text: &Text<'a, A>) -> AsmRefusal
    ensures { IsOfFields result }
{
    match faults_of(alloc, text) {
        Ok(faults) => faults.refusal(),
        Err(NoMemory) => AsmRefusal::NoMemory,
    }
}
