//! The fields of a text, from the last to the first.
ghost use Rattle.std.specs.Prelude.{◌≡◌, ◌≤◌, [], true, map, IfOk, IfErr};
ghost use Rattle.spec_text.specs.Fields.{count_imported};
ghost use Rattle.module_tree.specs.ModuleView.{func_type_view};
ghost use Rattle.text_tree.specs.Views.{field_of, fields_of};
ghost use Rattle.text_resolve.specs.Outcome.{Gives};
ghost use Rattle.text_resolve.specs.declared.refusal.ResolveFault.TheVariants.{NoMemory};
ghost use Rattle.text_resolve.specs.Views.{spaces_of};
ghost use Rattle.assembler.specs.ModuleParts.{only_types, make_at};
ghost use Rattle.assembler.specs.PartsView.{parts_view, with_types, are_parts_numbered, AreInRange};
ghost use Rattle.assembler.specs.FunctionCounts.{defined_funcs, has_func, count_funcs};

use crate::parts::{Parts, put};
use std::alloc::Allocator;
use text_fields::part_of;
use text_resolve::{ResolveFault, Spaces};
use text_tree::{Desc, Field, Text};

// No parts.
fn nothing<A: Allocator + Clone>(alloc: &A) -> Result<Parts<A>, ResolveFault>
    ensures nothing { IfOk result (λ p. parts_view p ≡ only_types []) }
    ensures numbered { IfOk result (λ p. are_parts_numbered p ≡ true) }
    ensures refused { IfErr result (λ e. e ≡ NoMemory) }
{
    Ok(Parts {
        imports: Vec::new(alloc.clone()?),
        funcs: Vec::new(alloc.clone()?),
        tables: Vec::new(alloc.clone()?),
        memories: Vec::new(alloc.clone()?),
        globals: Vec::new(alloc.clone()?),
        exports: Vec::new(alloc.clone()?),
        start: None,
        elements: Vec::new(alloc.clone()?),
        datas: Vec::new(alloc.clone()?),
    })
}

// 1 for a field that defines a function.
fn defined_funcs<'a, A: Allocator>(field: &Field<'a, A>) -> u32
    ensures { result ≡ defined_funcs (field_of field.now) }
{
    match field {
        Field::Func(_) => 1,
        _ => 0,
    }
}

// 1 for a field that defines or imports a function.
fn has_func<'a, A: Allocator>(field: &Field<'a, A>) -> u32
    ensures counted { result ≡ has_func (field_of field.now) }
    ensures at_most_one { result ≤ 1 }
{
    match field {
        Field::Import(import) => match &import.desc {
            Desc::Func(_) => 1,
            _ => 0,
        },
        field => defined_funcs(field),
    }
}

// The number of all functions.
fn count_funcs<'a, A: Allocator>(text: &Text<'a, A>) -> Result<u32, ResolveFault>
    ensures count { IfOk result (λ n. n ≡ count_funcs (fields_of text.now)) }
    ensures refused { IfErr result (λ e. e ≡ NoMemory) }
{
    let mut count: u32 = 0;
    for field in &text.fields {
        // There are never so many in a text within the limit on its bytes.
        if count == u32::MAX {
            return Err(ResolveFault::NoMemory);
        }
        count += has_func(field);
    }
    Ok(count)
}

/// The parts of the module that the fields of a text make. They are refused for another cause than memory only where the
/// fields make no module whose expressions are within the limits.
pub fn parts_of_text<'a, A: Allocator + Clone>(
    alloc: &A,
    spaces: &Spaces<'a, A>,
    text: &Text<'a, A>,
) -> Result<Parts<A>, ResolveFault>
    ensures parts { Gives (λ p. with_types (map func_type_view spaces.now.types.items) (parts_view p)) result (make_at (spaces_of spaces.now) (fields_of text.now) (count_imported (fields_of text.now))) }
    ensures in_range { IfOk result (λ p. AreInRange (parts_view p)) }
    ensures numbered { IfOk result (λ p. are_parts_numbered p ≡ true) }
{
    let mut parts = nothing(alloc)?;
    let mut func = count_funcs(text)?;
    let mut at = text.fields.len();
    while at > 0 {
        at -= 1;
        let field = &text.fields[at];
        func -= defined_funcs(field);
        let part = part_of(alloc, spaces, field, func)?;
        put(&mut parts, part)?;
    }
    Ok(parts)
}
