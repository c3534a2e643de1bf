//! Types that are added where no equal one is there.
ghost use Rattle.std.specs.Prelude.{◌≡◌, ◌++◌, map, OnOk, IfOk, IfErr};
ghost use Rattle.std.specs.List.{flat_map, filter_map};
ghost use Rattle.spec_text.specs.TypeUses.{inline_of_use, inline_of_flat, inline_of_desc, inline_of_field, Adds};
ghost use Rattle.spec_text.specs.Fields.{declared_type};
ghost use Rattle.module_tree.specs.ModuleView.{func_type_view};
ghost use Rattle.text_body.specs.Views.{use_of, flat_of, flats_of};
ghost use Rattle.text_tree.specs.Views.{desc_of, field_of, fields_of};
ghost use Rattle.text_resolve.specs.declared.refusal.ResolveFault.TheVariants.{NoMemory};
ghost use Rattle.text_fields.specs.AddedTypes.{added_one, added, option_list, TypesAreOne};

use std::alloc::Allocator;
use text_body::{Flat, TypeUse};
use text_resolve::{ResolveFault, first_type, written_type};
use text_tree::{Desc, Field, Text};
use wtypes::FuncType;

// Puts a type at the end, unless an equal one is there.
fn add_type<A: Allocator>(
    types: &mut Vec<FuncType<A>, A>,
    new: FuncType<A>,
) -> Result<(), ResolveFault>
    ensures added { OnOk result (map func_type_view types.new.items ≡ added_one (map func_type_view types.old.items) (func_type_view new)) }
    ensures refused { IfErr result (λ e. e ≡ NoMemory) }
{
    match first_type(types, &new)? {
        Some(_) => Ok(()),
        None => {
            types.push(new)?;
            Ok(())
        }
    }
}

// Adds what is written of a type without an index.
fn add_use<'a, A: Allocator + Clone>(
    alloc: &A,
    types: &mut Vec<FuncType<A>, A>,
    written: &TypeUse<'a, A>,
) -> Result<(), ResolveFault>
    ensures added { OnOk result (map func_type_view types.new.items ≡ added (map func_type_view types.old.items) (inline_of_use (use_of written.now))) }
    ensures refused { IfErr result (λ e. e ≡ NoMemory) }
{
    match written.index {
        Some(_) => Ok(()),
        None => {
            let new = written_type(alloc, &written.params, &written.results)?;
            add_type(types, new)
        }
    }
}

// Adds the types of an instruction.
fn add_flat<'a, A: Allocator + Clone>(
    alloc: &A,
    types: &mut Vec<FuncType<A>, A>,
    flat: &Flat<'a, A>,
) -> Result<(), ResolveFault>
    ensures added { OnOk result (map func_type_view types.new.items ≡ added (map func_type_view types.old.items) (inline_of_flat (flat_of flat.now))) }
    ensures refused { IfErr result (λ e. e ≡ NoMemory) }
{
    match flat {
        Flat::CallIndirect(written) => add_use(alloc, types, written),
        _ => Ok(()),
    }
}

// Adds the types of the instructions of an expression.
fn add_body<'a, A: Allocator + Clone>(
    alloc: &A,
    types: &mut Vec<FuncType<A>, A>,
    flats: &Vec<Flat<'a, A>, A>,
) -> Result<(), ResolveFault>
    ensures added { OnOk result (map func_type_view types.new.items ≡ added (map func_type_view types.old.items) (flat_map inline_of_flat (flats_of flats.now.items))) }
    ensures refused { IfErr result (λ e. e ≡ NoMemory) }
{
    for flat in flats {
        add_flat(alloc, types, flat)?;
    }
    Ok(())
}

// Adds the types of a field.
fn add_field<'a, A: Allocator + Clone>(
    alloc: &A,
    types: &mut Vec<FuncType<A>, A>,
    field: &Field<'a, A>,
) -> Result<(), ResolveFault>
    ensures added { OnOk result (map func_type_view types.new.items ≡ added (map func_type_view types.old.items) (inline_of_field (field_of field.now))) }
    ensures refused { IfErr result (λ e. e ≡ NoMemory) }
{
    match field {
        Field::Import(import) => match &import.desc {
            Desc::Func(written) => add_use(alloc, types, written),
            _ => Ok(()),
        },
        Field::Func(func) => {
            add_use(alloc, types, &func.written)?;
            add_body(alloc, types, &func.body)
        }
        Field::Global(global) => add_body(alloc, types, &global.init),
        Field::Elem(elem) => add_body(alloc, types, &elem.offset),
        Field::Data(data) => add_body(alloc, types, &data.offset),
        _ => Ok(()),
    }
}

// Puts the type of a field at the end, if it declares one.
fn declare<'a, A: Allocator + Clone>(
    alloc: &A,
    types: &mut Vec<FuncType<A>, A>,
    field: &Field<'a, A>,
) -> Result<(), ResolveFault>
    ensures declared { OnOk result (map func_type_view types.new.items ≡ map func_type_view types.old.items ++ option_list (declared_type (field_of field.now))) }
    ensures refused { IfErr result (λ e. e ≡ NoMemory) }
{
    match field {
        Field::Type(own) => {
            let new = written_type(alloc, &own.params, &own.results)?;
            types.push(new)?;
            Ok(())
        }
        _ => Ok(()),
    }
}

/// The types of a text: the declared ones in their order, then each type that is written without an index and has no
/// equal one before it, in the order of the text.
pub fn types_of_text<'a, A: Allocator + Clone>(
    alloc: &A,
    text: &Text<'a, A>,
) -> Result<Vec<FuncType<A>, A>, ResolveFault>
    ensures types { IfOk result (λ v. Adds (filter_map declared_type (fields_of text.now)) (flat_map inline_of_field (fields_of text.now)) (map func_type_view v.items)) }
    ensures refused { IfErr result (λ e. e ≡ NoMemory) }
{
    let mut types = Vec::new(alloc.clone()?);
    for field in &text.fields {
        declare(alloc, &mut types, field)?;
    }
    for field in &text.fields {
        add_field(alloc, &mut types, field)?;
    }
    Ok(types)
}

/// A law: no types and uses give two lists of types.
pub fn no_text_has_two_lists_of_types()
    ensures { TypesAreOne }
{}
