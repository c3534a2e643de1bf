// What a module exports, by name.

ghost use Rattle.std.specs.Prelude.{◌≡◌, ℕ, List, Some, cond, map, string_bytes, IfOk, OnOk};
ghost use Rattle.std.specs.BTreeMap.{get_by_text};
ghost use Rattle.std.specs.Str.{bytes_eq};
ghost use Rattle.module_tree.specs.ModuleView.{export_view};
ghost use Rattle.link.specs.Exports.{AreExports};

use module_tree::module::{Export, ExportDesc};
use std::alloc::{AllocError, Allocator};
use std::collections::BTreeMap;

/// What is exported under each name.
pub type Exports<A> = BTreeMap<String<A>, ExportDesc, A>;

// Puts an export under its name, whatever stood there.
fn put_export<A: Allocator + Clone>(
    alloc: &A,
    named: &mut Exports<A>,
    export: &Export<A>,
) -> Result<(), AllocError>
    ensures { OnOk result ((q : List ℕ) → get_by_text named.new q ≡ cond (bytes_eq (string_bytes export.now.name) q) (Some export.now.desc) (get_by_text named.old q)) }
{
    let name = String::from_str(alloc.clone()?, export.name.as_str())?;
    named.insert(name, export.desc)?;
    Ok(())
}

/// What each name stands for in these exports, of which the first of a name counts: from the last one to the first, each
/// takes the place of those behind it.
pub fn exports_by_name<A: Allocator + Clone>(
    alloc: &A,
    exports: &Vec<Export<A>, A>,
) -> Result<Exports<A>, AllocError>
    ensures { IfOk result (λ named. AreExports named (map export_view exports.now.items)) }
{
    let mut named = BTreeMap::new(alloc.clone()?);
    let mut left = exports.len();
    while left > 0 {
        left -= 1;
        put_export(alloc, &mut named, &exports[left])?;
    }
    Ok(named)
}
