// Whether the parts of a module keep the limits of this profile. A number of a part is in range by its type.
ghost use Rattle.std.specs.Prelude.{◌≡◌, Bool};
ghost use Rattle.std.specs.List.{list_all};
ghost use Rattle.spec_modules.specs.Limits as limit;
ghost use Rattle.module_tree.specs.ModuleView.{limits_view, import_view, func_view, global_view, export_view, element_view, data_view};

use crate::builder_bodies::expression_fits;
use crate::ranges::{
    are_bytes, are_u32, export_in_range, import_in_range, is_u32, limits_in_range,
};
use module_tree::limit::LOCAL_LIMIT;
use module_tree::module::{DataSegment, Element, Export, Func, Global, Import};
use std::alloc::Allocator;
use wtypes::Limits;

// A part of a module.
pub(crate) trait Part {
    ghost fits: { Self → Bool };

    fn is_within(&self) -> bool
        ensures { result ≡ fits self.now };
}

pub(crate) fn all_within<T: Part, A: Allocator>(parts: &Vec<T, A>) -> bool
    ensures { result ≡ list_all T.fits parts.now.items }
{
    for part in parts {
        if !part.is_within() {
            return false;
        }
    }
    true
}

impl<A: Allocator> Part for Import<A> {
    ghost fits = { λ i. limit.import_fits (import_view i) };

    fn is_within(&self) -> bool {
        import_in_range(self.desc);
        true
    }
}

impl<A: Allocator> Part for Func<A> {
    ghost fits = { λ f. limit.func_fits (func_view f) };

    fn is_within(&self) -> bool {
        is_u32(self.type_index);
        self.locals.len() <= LOCAL_LIMIT && expression_fits(&self.body)
    }
}

// The limits of a table or a memory.
impl Part for Limits {
    ghost fits = { λ l. limit.limits_fit (limits_view l) };

    fn is_within(&self) -> bool {
        limits_in_range(*self);
        true
    }
}

impl<A: Allocator> Part for Global<A> {
    ghost fits = { λ g. limit.global_fits (global_view g) };

    fn is_within(&self) -> bool {
        expression_fits(&self.init)
    }
}

impl<A: Allocator> Part for Export<A> {
    ghost fits = { λ e. limit.export_fits (export_view e) };

    fn is_within(&self) -> bool {
        export_in_range(self.desc);
        true
    }
}

impl<A: Allocator> Part for Element<A> {
    ghost fits = { λ e. limit.element_fits (element_view e) };

    fn is_within(&self) -> bool {
        is_u32(self.table);
        are_u32(&self.funcs);
        expression_fits(&self.offset)
    }
}

impl<A: Allocator> Part for DataSegment<A> {
    ghost fits = { λ d. limit.data_fits (data_view d) };

    fn is_within(&self) -> bool {
        is_u32(self.memory);
        are_bytes(&self.bytes);
        expression_fits(&self.offset)
    }
}
