//! The locals of a function, its parameters first.
ghost use Rattle.std.specs.Prelude.{◌≡◌, ◌++◌, [], map, OnOk, IfOk, IfErr, slice_get};
ghost use Rattle.spec_text.specs.TypeUses.{names_of, types_of};
ghost use Rattle.module_tree.specs.ModuleView.{func_type_view};
ghost use Rattle.text_body.specs.Views.{text_of, binding_of, use_of};
ghost use Rattle.text_resolve.specs.Outcome.{Gives};
ghost use Rattle.text_resolve.specs.declared.refusal.ResolveFault.TheVariants.{NoMemory};
ghost use Rattle.text_resolve.specs.Types.{is_bare};
ghost use Rattle.text_fields.specs.Parts.{none_of, unnamed, names_at, distinct_at};

use lexer::Piece;
use std::alloc::Allocator;
use text_body::{Binding, TypeUse};
use text_resolve::{ResolveFault, Space};
use wtypes::{FuncType, ValType};

// The name of a local, if it has one.
type Name<'a> = Option<Piece<'a>>;

// Puts the names of bindings at the end.
fn add_names<'a, A: Allocator>(
    names: &mut Vec<Name<'a>, A>,
    bindings: &Vec<Binding<'a>, A>,
) -> Result<(), ResolveFault>
    ensures added { OnOk result (map text_of names.new.items ≡ map text_of names.old.items ++ names_of (map binding_of bindings.now.items)) }
    ensures refused { IfErr result (λ e. e ≡ NoMemory) }
{
    for binding in bindings {
        names.push(binding.name)?;
    }
    Ok(())
}

// Puts a place without a name at the end for each parameter.
fn add_unnamed<'a, A: Allocator>(
    names: &mut Vec<Name<'a>, A>,
    params: &Vec<ValType, A>,
) -> Result<(), ResolveFault>
    ensures added { OnOk result (map text_of names.new.items ≡ map text_of names.old.items ++ none_of params.now.items) }
    ensures refused { IfErr result (λ e. e ≡ NoMemory) }
{
    for _param in params {
        names.push(None)?;
    }
    Ok(())
}

// Whether no parameter and no result is written.
fn is_bare<A: Allocator>(written: &TypeUse<'_, A>) -> bool
    ensures { result ≡ is_bare (use_of written.now) }
{
    written.params.is_empty() && written.results.is_empty()
}

// Puts a place without a name at the end for each parameter of the type of this number.
fn add_places<'a, A: Allocator>(
    names: &mut Vec<Name<'a>, A>,
    types: &Vec<FuncType<A>, A>,
    number: u32,
) -> Result<(), ResolveFault>
    ensures added { OnOk result (map text_of names.new.items ≡ map text_of names.old.items ++ unnamed (slice_get (map func_type_view types.now.items) number)) }
    ensures refused { IfErr result (λ e. e ≡ NoMemory) }
{
    match types.get(number as usize) {
        None => Ok(()),
        Some(own) => add_unnamed(names, &own.params),
    }
}

// Puts the names of the parameters of a type at the end.
fn add_params<'a, A: Allocator>(
    names: &mut Vec<Name<'a>, A>,
    types: &Vec<FuncType<A>, A>,
    written: &TypeUse<'a, A>,
    number: u32,
) -> Result<(), ResolveFault>
    ensures added { OnOk result (map text_of names.new.items ≡ map text_of names.old.items ++ names_at (map func_type_view types.now.items) (use_of written.now) number) }
    ensures refused { IfErr result (λ e. e ≡ NoMemory) }
{
    match written.index {
        None => add_names(names, &written.params),
        Some(_) => {
            if is_bare(written) {
                return add_places(names, types, number);
            }
            add_names(names, &written.params)
        }
    }
}

/// The space of a function's locals, its parameters first. Where an index alone stands for the type, they have no names.
pub fn locals_of<'a, A: Allocator + Clone>(
    alloc: &A,
    types: &Vec<FuncType<A>, A>,
    written: &TypeUse<'a, A>,
    number: u32,
    locals: &Vec<Binding<'a>, A>,
) -> Result<Space<'a, A>, ResolveFault>
    ensures { Gives (λ space. map text_of space.names.items) result (distinct_at (names_at (map func_type_view types.now.items) (use_of written.now) number ++ names_of (map binding_of locals.now.items))) }
{
    let mut names = Vec::new(alloc.clone()?);
    add_params(&mut names, types, written, number)?;
    add_names(&mut names, locals)?;
    space_of(alloc, names)
}

// The space of names, if none stands twice.
fn space_of<'a, A: Allocator + Clone>(
    alloc: &A,
    names: Vec<Name<'a>, A>,
) -> Result<Space<'a, A>, ResolveFault>
    ensures { Gives (λ space. map text_of space.names.items) result (distinct_at (map text_of names.entry.items)) }
{
    Space::of(alloc, names)
}

/// The space of no locals.
pub fn no_locals<'a, A: Allocator + Clone>(alloc: &A) -> Result<Space<'a, A>, ResolveFault>
    ensures none { IfOk result (λ space. map text_of space.names.items ≡ []) }
    ensures refused { IfErr result (λ e. e ≡ NoMemory) }
{
    match space_of(alloc, Vec::new(alloc.clone()?)) {
        Ok(space) => Ok(space),
        Err(_) => Err(ResolveFault::NoMemory),
    }
}

/// The types of declared locals.
pub fn types_of<'a, A: Allocator + Clone>(
    alloc: &A,
    locals: &Vec<Binding<'a>, A>,
) -> Result<Vec<ValType, A>, ResolveFault>
    ensures types { IfOk result (λ v. v.items ≡ types_of (map binding_of locals.now.items)) }
    ensures refused { IfErr result (λ e. e ≡ NoMemory) }
{
    let mut types = Vec::new(alloc.clone()?);
    for local in locals {
        types.push(local.value_type)?;
    }
    Ok(types)
}
