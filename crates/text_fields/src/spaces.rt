//! The names of a text, space by space.
ghost use Rattle.std.specs.Prelude.{◌≡◌, ◌++◌, map, OnOk, IfOk, IfErr};
ghost use Rattle.std.specs.List.{flat_map};
ghost use Rattle.spec_text.specs.Spaces.{AreDistinct};
ghost use Rattle.spec_text.specs.Fields.{AreSpaces};
ghost use Rattle.spec_text.specs.Fields as Fields;
ghost use Rattle.text_body.specs.Views.{text_of};
ghost use Rattle.text_tree.specs.Views.{field_of, fields_of};
ghost use Rattle.text_resolve.specs.Outcome.{Unless};
ghost use Rattle.text_resolve.specs.declared.refusal.ResolveFault.TheVariants.{NoMemory};
ghost use Rattle.text_resolve.specs.Views.{spaces_of};
ghost use Rattle.text_fields.specs.NameLists.{listed, names_in, NoSpaces, SpacesAreOne};

use crate::types_of_text;
use lexer::Piece;
use std::alloc::Allocator;
use text_resolve::{ResolveFault, Space, Spaces};
use text_tree::{Desc, Field, Text};

// What has an index space of its own.
#[derive(Clone, Copy)]
enum Sort {
    Types,
    Funcs,
    Tables,
    Memories,
    Globals,
}

// The name of an index, if it has one.
type Name<'a> = Option<Piece<'a>>;

// The name of the type that a field declares.
fn type_name<'a, A: Allocator>(field: &Field<'a, A>) -> Option<Name<'a>>
    ensures { listed result ≡ Fields.type_name (field_of field.now) }
{
    match field {
        Field::Type(own) => Some(own.name),
        _ => None,
    }
}

// The name of the function that a field imports or defines.
fn func_name<'a, A: Allocator>(field: &Field<'a, A>) -> Option<Name<'a>>
    ensures { listed result ≡ Fields.func_name (field_of field.now) }
{
    match field {
        Field::Import(import) => match &import.desc {
            Desc::Func(_) => Some(import.name),
            _ => None,
        },
        Field::Func(func) => Some(func.name),
        _ => None,
    }
}

// The name of the table that a field imports or defines.
fn table_name<'a, A: Allocator>(field: &Field<'a, A>) -> Option<Name<'a>>
    ensures { listed result ≡ Fields.table_name (field_of field.now) }
{
    match field {
        Field::Import(import) => match &import.desc {
            Desc::Table(_) => Some(import.name),
            _ => None,
        },
        Field::Table(table) => Some(table.name),
        _ => None,
    }
}

// The name of the memory that a field imports or defines.
fn memory_name<'a, A: Allocator>(field: &Field<'a, A>) -> Option<Name<'a>>
    ensures { listed result ≡ Fields.memory_name (field_of field.now) }
{
    match field {
        Field::Import(import) => match &import.desc {
            Desc::Memory(_) => Some(import.name),
            _ => None,
        },
        Field::Memory(memory) => Some(memory.name),
        _ => None,
    }
}

// The name of the global that a field imports or defines.
fn global_name<'a, A: Allocator>(field: &Field<'a, A>) -> Option<Name<'a>>
    ensures { listed result ≡ Fields.global_name (field_of field.now) }
{
    match field {
        Field::Import(import) => match &import.desc {
            Desc::Global(_) => Some(import.name),
            _ => None,
        },
        Field::Global(global) => Some(global.name),
        _ => None,
    }
}

// The name that a field puts into the space of a sort.
fn name_in<'a, A: Allocator>(sort: Sort, field: &Field<'a, A>) -> Option<Name<'a>>
    ensures { listed result ≡ names_in sort (field_of field.now) }
{
    match sort {
        Sort::Types => type_name(field),
        Sort::Funcs => func_name(field),
        Sort::Tables => table_name(field),
        Sort::Memories => memory_name(field),
        Sort::Globals => global_name(field),
    }
}

// Puts the name of a field at the end.
fn add_name<'a, A: Allocator>(
    names: &mut Vec<Name<'a>, A>,
    sort: Sort,
    field: &Field<'a, A>,
) -> Result<(), ResolveFault>
    ensures added { OnOk result (map text_of names.new.items ≡ map text_of names.old.items ++ names_in sort (field_of field.now)) }
    ensures refused { IfErr result (λ e. e ≡ NoMemory) }
{
    match name_in(sort, field) {
        Some(name) => {
            names.push(name)?;
            Ok(())
        }
        None => Ok(()),
    }
}

// The names of a sort, in the order of the text.
fn names_of<'a, A: Allocator + Clone>(
    alloc: &A,
    sort: Sort,
    text: &Text<'a, A>,
) -> Result<Vec<Name<'a>, A>, ResolveFault>
    ensures names { IfOk result (λ v. map text_of v.items ≡ flat_map (names_in sort) (fields_of text.now)) }
    ensures refused { IfErr result (λ e. e ≡ NoMemory) }
{
    let mut names = Vec::new(alloc.clone()?);
    for field in &text.fields {
        add_name(&mut names, sort, field)?;
    }
    Ok(names)
}

// The space of a sort.
fn space_of<'a, A: Allocator + Clone>(
    alloc: &A,
    sort: Sort,
    text: &Text<'a, A>,
) -> Result<Space<'a, A>, ResolveFault>
    ensures names { IfOk result (λ space. map text_of space.names.items ≡ flat_map (names_in sort) (fields_of text.now)) }
    ensures distinct { IfOk result (λ space. AreDistinct (map text_of space.names.items)) }
    ensures refused { IfErr result (Unless (AreDistinct (flat_map (names_in sort) (fields_of text.now)) → ⊥)) }
{
    let names = names_of(alloc, sort, text)?;
    Space::of(alloc, names)
}

/// The types of a text and its index spaces, those of locals and labels aside. They are refused for another cause than
/// memory only where a name stands twice in one of the spaces.
pub fn spaces_of_text<'a, A: Allocator + Clone>(
    alloc: &A,
    text: &Text<'a, A>,
) -> Result<Spaces<'a, A>, ResolveFault>
    ensures spaces { IfOk result (λ s. AreSpaces (fields_of text.now) (spaces_of s)) }
    ensures refused { IfErr result (Unless (NoSpaces (fields_of text.now))) }
{
    let types = types_of_text(alloc, text)?;
    let type_names = space_of(alloc, Sort::Types, text)?;
    let funcs = space_of(alloc, Sort::Funcs, text)?;
    let tables = space_of(alloc, Sort::Tables, text)?;
    let memories = space_of(alloc, Sort::Memories, text)?;
    let globals = space_of(alloc, Sort::Globals, text)?;
    Ok(Spaces {
        types,
        type_names,
        funcs,
        tables,
        memories,
        globals,
    })
}

/// A law: no fields have two lists of spaces.
pub fn no_text_has_two_lists_of_spaces()
    ensures { SpacesAreOne }
{}
