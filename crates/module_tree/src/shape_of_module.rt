// What is read off a module.
ghost use Rattle.std.specs.Prelude.{◌≡◌, ◌<◌, ◌+◌, true, length, slice_get, Some, None, IsSome, IfSome, MatchOption, option_map, option_and_then};
ghost use Rattle.spec_modules.specs.Shape.{size, instr_at};
ghost use Rattle.spec_modules.specs.Limits.{counts_from};
ghost use Rattle.module_tree.specs.ModuleView.{import_desc_view};
ghost use Rattle.module_tree.specs.Readers.{func_count};

use crate::instr::Instr;
use crate::module::{Func, ImportDesc, Module};
use crate::shape::{count_of, depth_of, find};
use std::alloc::Allocator;

// 1 for a function, 0 for anything else.
fn func_count(desc: ImportDesc) -> usize
    ensures { result ≡ func_count (import_desc_view desc) }
{
    match desc {
        ImportDesc::Func(_) => 1,
        _ => 0,
    }
}

fn func_at<A: Allocator>(funcs: &Vec<Func<A>, A>, place: usize) -> Option<&Func<A>>
    ensures { option_map (λ f. f.now) result ≡ slice_get funcs.now.items place }
{
    funcs.get(place)
}

impl<A: Allocator> Module<A> {
    ghost use Rattle.module_tree.specs.View.{instr_view, ordinal_of};
    ghost use Rattle.module_tree.specs.ModuleView.{func_view, func_ordinals};
    ghost use Rattle.module_tree.specs.Modules.{module_view};
    ghost use Rattle.module_tree.specs.Readers.{deepest, imported_funcs, defined_func};

    /// The deepest level in a body, 0 without one: a body is level 0, and each block one more.
    pub fn depth(&self) -> u32
        ensures { result ≡ deepest (module_view self.now).funcs }
    {
        let mut depth = 0;
        for func in &self.funcs {
            depth = depth.max(depth_of(&func.body));
        }
        depth
    }

    /// The number of imported functions, which count before the defined ones.
    pub fn imported_funcs(&self) -> usize
        ensures { result ≡ imported_funcs (module_view self.now).imports }
    {
        let mut count = 0;
        for import in &self.imports {
            count += func_count(import.desc);
        }
        count
    }

    /// The defined function of this number, imports counted first. The instructions of its body carry their ordinals.
    pub fn defined_func(&self, func: u32) -> Option<&Func<A>>
        ensures numbered { IfSome result (λ f. counts_from 0 (func_ordinals f.now) ≡ true) }
        ensures view { option_map (λ f. func_view f.now) result ≡ defined_func (module_view self.now) func }
    {
        let imported = self.imported_funcs();
        let func = func as usize;
        if func < imported {
            return None;
        }
        func_at(&self.funcs, func - imported)
    }

    /// The number of ordinals in the body of this function, which has to be a defined one.
    pub fn size(&self, func: u32) -> u32
        requires defined { IsSome (defined_func (module_view self.now) func) }
        ensures { option_map (λ f. size f.body) (defined_func (module_view self.now) func) ≡ Some result }
    {
        let found = self.defined_func(func).unwrap();
        count_of(&found.body)
    }

    /// The instruction at this ordinal in the body of this defined function, or None where there is none. It is the very
    /// node there: the ordinal that it carries is the one asked for.
    pub fn instr_at(&self, func: u32, ordinal: u32) -> Option<&Instr<A>>
        ensures node { IfSome result (λ i. ordinal_of i.now ≡ ordinal) }
        ensures view { option_map (λ i. instr_view i.now) result
            ≡ option_and_then (λ f. instr_at f.body ordinal) (defined_func (module_view self.now) func) }
    {
        let found = self.defined_func(func)?;
        find(&found.body, ordinal)
    }
}
