//! The faults of bodies and other expressions.

use crate::faults::Faults;
use crate::labels::OpenLabels;
use module_tree::limit::{LABEL_LIMIT, NESTING_LIMIT};
use spec_text::Operator;
use std::alloc::Allocator;
use text_body::{Flat, Index, TypeUse};
use text_resolve::{Labels, Limit, Space, Spaces, plain, type_number};
use wtypes::NoMemory;

/// What is known of a text when its fields are looked at.
#[derive(Drop)]
pub struct Known<'s, 'a, A: Allocator> {
    /// Where memory is taken.
    pub alloc: &'s A,
    /// Its types and index spaces.
    pub spaces: &'s Spaces<'a, A>,
}

/// The faults of what is written of a function's type. Where no index is written there is none.
pub fn use_faults<'a, A: Allocator + Clone>(
    known: &Known<'_, 'a, A>,
    written: &TypeUse<'a, A>,
    faults: &mut Faults,
) -> Result<(), NoMemory> {
    if written.index.is_none() {
        return Ok(());
    }
    let spaces = known.spaces;
    faults.take(type_number(known.alloc, &spaces.types, &spaces.type_names, written))
}

// The faults of a `br_table`.
fn table_faults<'a, A: Allocator + Clone>(
    labels: &OpenLabels<'a, A>,
    indices: &Vec<Index<'a>, A>,
    last: Index<'a>,
    faults: &mut Faults,
) -> Result<(), NoMemory> {
    if indices.len() > LABEL_LIMIT {
        faults.pass(Limit::Labels);
    }
    for index in indices {
        labels.check(*index, faults)?;
    }
    labels.check(last, faults)
}

// The faults of one instruction among open labels.
fn flat_faults<'a, A: Allocator + Clone>(
    known: &Known<'_, 'a, A>,
    locals: &Space<'a, A>,
    labels: &mut OpenLabels<'a, A>,
    flat: &Flat<'a, A>,
    faults: &mut Faults,
) -> Result<(), NoMemory> {
    match flat {
        Flat::Opens(_, label, _) => {
            labels.enter(*label)?;
            if labels.depth() > NESTING_LIMIT {
                faults.pass(Limit::Nesting);
            }
            Ok(())
        }
        Flat::Else(closing) => labels.check_closing(*closing, faults),
        Flat::End(closing) => {
            labels.check_closing(*closing, faults)?;
            labels.leave()
        }
        Flat::Indexed(Operator::Br, index) => labels.check(*index, faults),
        Flat::Indexed(Operator::BrIf, index) => labels.check(*index, faults),
        Flat::BrTable(indices, last) => table_faults(labels, indices, *last, faults),
        Flat::CallIndirect(written) => use_faults(known, written, faults),
        _ => {
            let none = Labels::new(known.alloc.clone()?);
            faults.take(plain(known.alloc, known.spaces, locals, &none, flat, 0))
        }
    }
}

/// The faults of an expression.
pub fn body_faults<'a, A: Allocator + Clone>(
    known: &Known<'_, 'a, A>,
    locals: &Space<'a, A>,
    flats: &Vec<Flat<'a, A>, A>,
    faults: &mut Faults,
) -> Result<(), NoMemory> {
    let mut labels = OpenLabels::none(known.alloc)?;
    for flat in flats {
        flat_faults(known, locals, &mut labels, flat, faults)?;
    }
    Ok(())
}
