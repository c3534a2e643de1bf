// What instructions name.

ghost use Rattle.std.specs.Prelude.{◌≡◌, ◌<◌, ◌^◌, nat_le, slice_get, reverse, option_map};
ghost use Rattle.spec_modules.specs.Storage.{load_width, store_width};

use crate::scope::Scope;
use module_tree::width;
use std::alloc::Allocator;
use wtypes::{FuncType, LoadOp, StoreOp, ValType};

/// The result of the block of a label, the innermost 0, where these are the results of labels, the innermost last.
pub fn label_at<W: Allocator>(
    labels: &Vec<Option<ValType>, W>,
    label: u32,
) -> Option<Option<ValType>>
    ensures { result ≡ slice_get (reverse labels.now.items) label }
{
    let label = label as usize;
    if label < labels.len() {
        Some(labels[labels.len() - 1 - label])
    } else {
        None
    }
}

/// The number of the type of a function, imports counted first.
pub fn type_index<A: Allocator, W: Allocator>(scope: &Scope<A, W>, func: u32) -> Option<u32>
    ensures { result ≡ slice_get scope.now.spaces.now.funcs.items func }
{
    scope.spaces.funcs.get(func as usize).copied()
}

/// The type of this number.
pub fn type_at<'s, A: Allocator, W: Allocator>(
    scope: &'s Scope<A, W>,
    index: u32,
) -> Option<&'s FuncType<A>>
    ensures { option_map (λ t. t.now) result ≡ slice_get scope.now.types.now.items index }
{
    scope.types.get(index as usize)
}

// Whether two to this power is at most the width.
fn is_aligned(align: u32, width: u32) -> bool
    requires { width < 16 }
    ensures { result ≡ nat_le (2 ^ align) width }
{
    align < 4 && (1u32 << align) <= width
}

/// Whether a load may be aligned to two to this power.
pub fn is_load_aligned(op: LoadOp, align: u32) -> bool
    ensures { result ≡ nat_le (2 ^ align) (load_width op) }
{
    is_aligned(align, width::load_width(op))
}

/// Whether a store may be aligned to two to this power.
pub fn is_store_aligned(op: StoreOp, align: u32) -> bool
    ensures { result ≡ nat_le (2 ^ align) (store_width op) }
{
    is_aligned(align, width::store_width(op))
}
