// Tables.

ghost use Rattle.std.specs.Prelude.{◌≡◌, ℕ, ◌≤◌, List, Option, Some, length, slice_get, IfOk, IfSome};
ghost use Rattle.spec_modules.specs.Profile.{element_limit};
ghost use Rattle.link.specs.Table.{held, AreRising, elements_in};

use std::alloc::{AllocError, Allocator};
use std::marker::Model;

// An element that is not empty, and the number of its function.
#[derive(Clone, Copy)]
struct Filled {
    element: u32,
    func: u32,
}

/// A table (Core Specification, 4.2.7 Table Instances), which contracts see as the list of its elements: each is the number of a
/// function, or empty. It takes memory for those alone that are not empty, 8 bytes each and at most as much again for room.
#[derive(Drop)]
pub struct Table<A: Allocator> {
    size: u32,
    filled: Vec<Filled, A>,
}

impl<A: Allocator> Model for Table<A> {
    ghost Value = { List (Option ℕ) };

    ghost view = { λ t. elements_in t.size t.filled.items };

    ghost invariant = { λ t. AreRising 0 t.filled.items };
}

// The function of an element, where it stands at the place that it has if none behind the first one is empty.
fn guess(filled: &[Filled], element: u32) -> Option<u32>
    requires { AreRising 0 filled.now }
    ensures { IfSome result (λ func. held filled.now element ≡ Some func) }
{
    if filled.is_empty() {
        return None;
    }
    let first = filled[0].element;
    if element < first {
        return None;
    }
    let place = (element - first) as usize;
    if place >= filled.len() {
        return None;
    }
    let there = filled[place];
    if there.element == element {
        Some(there.func)
    } else {
        None
    }
}

// The function of an element, by halves.
fn search(filled: &[Filled], element: u32) -> Option<u32>
    requires { AreRising 0 filled.now }
    ensures { result ≡ held filled.now element }
{
    let mut low = 0;
    let mut high = filled.len();
    while low < high {
        let middle = low + (high - low) / 2;
        let there = filled[middle];
        if there.element == element {
            return Some(there.func);
        }
        if there.element < element {
            low = middle + 1;
        } else {
            high = middle;
        }
    }
    None
}

// The function of an element.
fn function_at(filled: &[Filled], element: u32) -> Option<u32>
    requires { AreRising 0 filled.now }
    ensures { result ≡ held filled.now element }
{
    match guess(filled, element) {
        Some(func) => Some(func),
        None => search(filled, element),
    }
}

impl<A: Allocator> Table<A> {
    /// The table of these elements.
    ///
    /// # Errors
    ///
    /// Memory was refused.
    pub(crate) fn of_elements(alloc: A, elements: &[Option<u32>]) -> Result<Table<A>, AllocError>
        requires few { length elements.now ≤ element_limit }
        ensures { IfOk result (λ table. table ≡ elements.now) }
    {
        let mut filled = Vec::new(alloc);
        for place in 0..elements.len() {
            if let Some(func) = elements[place] {
                filled.push(Filled {
                    element: place as u32,
                    func,
                })?;
            }
        }
        Ok(Table {
            size: elements.len() as u32,
            filled,
        })
    }

    /// The element of this number, counted from 0: the number of its function, or None where it is empty. None where there is no such element.
    pub fn get(&self, element: u64) -> Option<Option<u32>>
        ensures { result ≡ slice_get self.now element }
    {
        if element >= u64::from(self.size) {
            return None;
        }
        Some(function_at(&self.filled, element as u32))
    }

    /// The same table under another allocator.
    ///
    /// # Errors
    ///
    /// Memory was refused.
    pub fn copy_in<B: Allocator>(&self, alloc: B) -> Result<Table<B>, AllocError>
        ensures { IfOk result (λ copy. copy ≡ self.now) }
    {
        let filled = Vec::from_slice(alloc, &self.filled)?;
        Ok(Table {
            size: self.size,
            filled,
        })
    }
}
