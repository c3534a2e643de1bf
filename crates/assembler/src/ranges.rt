// Laws: the numbers of Rust's types are in range.
ghost use Rattle.std.specs.Prelude.{◌≡◌, true};
ghost use Rattle.std.specs.List.{list_all};
ghost use Rattle.spec_modules.specs.Limits as limit;
ghost use Rattle.module_tree.specs.ModuleView.{limits_view, import_desc_view, export_desc_view};

use module_tree::module::{ExportDesc, ImportDesc};
use std::alloc::Allocator;
use wtypes::{Limits, PlainInstr};

pub(crate) fn is_u32(_n: u32)
    ensures { limit.is_u32 _n ≡ true }
{}

pub(crate) fn are_u32<A: Allocator>(numbers: &Vec<u32, A>)
    ensures { list_all limit.is_u32 numbers.now.items ≡ true }
{
    let _len = numbers.len();
}

pub(crate) fn are_bytes<A: Allocator>(bytes: &Vec<u8, A>)
    ensures { list_all limit.is_byte bytes.now.items ≡ true }
{
    let _len = bytes.len();
}

pub(crate) fn plain_in_range(_op: PlainInstr)
    ensures { limit.plain_in_range _op ≡ true }
{}

pub(crate) fn limits_in_range(_limits: Limits)
    ensures { limit.limits_fit (limits_view _limits) ≡ true }
{}

pub(crate) fn import_in_range(_desc: ImportDesc)
    ensures { limit.import_desc_fits (import_desc_view _desc) ≡ true }
{}

pub(crate) fn export_in_range(_desc: ExportDesc)
    ensures { limit.export_desc_fits (export_desc_view _desc) ≡ true }
{}

pub(crate) fn start_in_range(_start: Option<u32>)
    ensures { limit.start_fits _start ≡ true }
{}
