//! What is written of a function's type.
ghost use Rattle.std.specs.Prelude.{◌≡◌, map, Some, IfOk, OnOk, IfErr, is_none};
ghost use Rattle.spec_text.specs.TypeUses.{types_of, written_type};
ghost use Rattle.module_tree.specs.ModuleView.{func_type_view};
ghost use Rattle.text_body.specs.Views.{text_of, binding_of, use_of};
ghost use Rattle.text_resolve.specs.Outcome.{Gives};
ghost use Rattle.text_resolve.specs.declared.refusal.ResolveFault.TheVariants.{NoMemory};
ghost use Rattle.text_resolve.specs.Types.{same_types, same_func, first_type, given, is_bare, use_at};

use crate::{ResolveFault, Space, index_in};
use spec_modules::same_type;
use std::alloc::Allocator;
use text_body::{Binding, Index, TypeUse};
use wtypes::{FuncType, ValType};

fn same_list(a: &[ValType], b: &[ValType]) -> bool
    ensures { result ≡ same_types a.now b.now }
{
    if a.len() != b.len() {
        return false;
    }
    for i in 0..a.len() {
        if !same_type(a[i], b[i]) {
            return false;
        }
    }
    true
}

fn same_func<A: Allocator>(a: &FuncType<A>, b: &FuncType<A>) -> bool
    ensures { result ≡ same_func (func_type_view a.now) (func_type_view b.now) }
{
    same_list(&a.params, &b.params) && same_list(&a.results, &b.results)
}

/// The first of the types that is equal to this one.
pub fn first_type<A: Allocator>(
    types: &Vec<FuncType<A>, A>,
    wanted: &FuncType<A>,
) -> Result<Option<u32>, ResolveFault>
    ensures found { IfOk result (λ found. found ≡ first_type (func_type_view wanted.now) (map func_type_view types.now.items)) }
    ensures refused { IfErr result (λ e. e ≡ NoMemory) }
{
    let mut next: u32 = 0;
    for own in types {
        if next == u32::MAX {
            return Err(ResolveFault::NoMemory);
        }
        if same_func(own, wanted) {
            return Ok(Some(next));
        }
        next += 1;
    }
    Ok(None)
}

/// What is written of a function's type, as a type.
pub fn written_type<'a, A: Allocator + Clone>(
    alloc: &A,
    params: &Vec<Binding<'a>, A>,
    results: &Vec<ValType, A>,
) -> Result<FuncType<A>, ResolveFault>
    ensures params { IfOk result (λ t. t.params.items ≡ types_of (map binding_of params.now.items)) }
    ensures results { IfOk result (λ t. t.results.items ≡ results.now.items) }
    ensures refused { IfErr result (λ e. e ≡ NoMemory) }
{
    let mut types = Vec::new(alloc.clone()?);
    for binding in params {
        types.push(binding.value_type)?;
    }
    let results = Vec::from_slice(alloc.clone()?, results)?;
    Ok(FuncType {
        params: types,
        results,
    })
}

// Whether no parameter and no result is written.
fn is_bare<A: Allocator>(written: &TypeUse<'_, A>) -> bool
    ensures { result ≡ is_bare (use_of written.now) }
{
    written.params.is_empty() && written.results.is_empty()
}

// The type of this number, if nothing else is written of it.
fn given_type<'a, A: Allocator + Clone>(
    alloc: &A,
    types: &Vec<FuncType<A>, A>,
    number: u32,
    at: usize,
    written: &TypeUse<'a, A>,
) -> Result<u32, ResolveFault>
    ensures { Gives (λ n. n) result (given (map func_type_view types.now.items) (use_of written.now) number) }
{
    let Some(own) = types.get(number as usize) else {
        return Err(ResolveFault::UnknownName(at));
    };
    if is_bare(written) {
        return Ok(number);
    }
    let wanted = written_type(alloc, &written.params, &written.results)?;
    if !same_func(own, &wanted) {
        return Err(ResolveFault::UnknownName(at));
    }
    Ok(number)
}

// The place of an index.
fn place_of(index: Index<'_>) -> usize {
    match index {
        Index::Numbered(piece) => piece.at,
        Index::Named(piece) => piece.at,
    }
}

/// The number of the type that is written: the first equal one, or that of the index, which has to be equal where more
/// than the index is written.
pub fn type_number<'a, A: Allocator + Clone>(
    alloc: &A,
    types: &Vec<FuncType<A>, A>,
    type_names: &Space<'a, A>,
    written: &TypeUse<'a, A>,
) -> Result<u32, ResolveFault>
    ensures { Gives (λ n. n) result (use_at (map text_of type_names.now.names.items) (map func_type_view types.now.items) (use_of written.now)) }
{
    match written.index {
        Some(index) => {
            let number = index_in(type_names, index)?;
            given_type(alloc, types, number, place_of(index), written)
        }
        None => {
            let wanted = written_type(alloc, &written.params, &written.results)?;
            match first_type(types, &wanted)? {
                Some(number) => Ok(number),
                None => Err(ResolveFault::Broken),
            }
        }
    }
}
