//! Parts of a module one after another, from the last.
ghost use Rattle.std.specs.Prelude.{◌≡◌, ◌++◌, true, reverse, OnOk, IfErr};
ghost use Rattle.text_resolve.specs.Outcome.{Gives};
ghost use Rattle.text_resolve.specs.declared.refusal.ResolveFault.TheVariants.{NoMemory};
ghost use Rattle.text_fields.specs.PartView.{part_view, is_numbered};
ghost use Rattle.assembler.specs.ModuleParts.{put_in};
ghost use Rattle.assembler.specs.PartsView.{parts_view, are_parts_numbered};

use module_tree::module::{DataSegment, Element, Export, Func, Global, Import};
use std::alloc::Allocator;
use text_fields::Part;
use text_resolve::ResolveFault;
use wtypes::Limits;

/// The parts of a module, each list from its last to its first.
#[derive(Drop)]
pub struct Parts<A: Allocator> {
    /// The imports.
    pub imports: Vec<Import<A>, A>,
    /// The defined functions.
    pub funcs: Vec<Func<A>, A>,
    /// The defined tables.
    pub tables: Vec<Limits, A>,
    /// The defined memories.
    pub memories: Vec<Limits, A>,
    /// The defined globals.
    pub globals: Vec<Global<A>, A>,
    /// The exports.
    pub exports: Vec<Export<A>, A>,
    /// The number of the start function, where there is one.
    pub start: Option<u32>,
    /// The element segments.
    pub elements: Vec<Element<A>, A>,
    /// The data segments.
    pub datas: Vec<DataSegment<A>, A>,
}

// Puts exports in front, which is the end here.
fn put_exports<A: Allocator>(
    all: &mut Vec<Export<A>, A>,
    exports: Vec<Export<A>, A>,
) -> Result<(), ResolveFault>
    ensures put { OnOk result (all.new.items ≡ all.old.items ++ reverse exports.items) }
    ensures refused { IfErr result (λ e. e ≡ NoMemory) }
{
    let mut exports = exports;
    exports.reverse();
    all.append(&mut exports)?;
    Ok(())
}

/// Puts a part in front. It is refused for another cause than memory only where an import stands behind a definition, or a
/// start behind a start.
#[tactic(auto, using(crate::proofs::Fronts::pushed, crate::proofs::Fronts::joined, crate::proofs::Fronts::before, crate::proofs::Fronts::behind, crate::proofs::Fronts::numbered_push))]
pub fn put<A: Allocator>(parts: &mut Parts<A>, part: Part<A>) -> Result<(), ResolveFault>
    requires numbered { are_parts_numbered parts.old ≡ true }
    requires part_numbered { is_numbered part ≡ true }
    ensures value { Gives (λ _. parts_view parts.new) result (put_in (part_view part) (parts_view parts.old)) }
    ensures numbered { OnOk result (are_parts_numbered parts.new ≡ true) }
{
    match part {
        Part::Nothing => Ok(()),
        Part::Import(import) => {
            parts.imports.push(import)?;
            Ok(())
        }
        Part::Func(func, exports) => {
            if !parts.imports.is_empty() {
                return Err(ResolveFault::Broken);
            }
            parts.funcs.push(func)?;
            put_exports(&mut parts.exports, exports)?;
            Ok(())
        }
        Part::Table(limits) => {
            if !parts.imports.is_empty() {
                return Err(ResolveFault::Broken);
            }
            parts.tables.push(limits)?;
            Ok(())
        }
        Part::Memory(limits) => {
            if !parts.imports.is_empty() {
                return Err(ResolveFault::Broken);
            }
            parts.memories.push(limits)?;
            Ok(())
        }
        Part::Global(global) => {
            if !parts.imports.is_empty() {
                return Err(ResolveFault::Broken);
            }
            parts.globals.push(global)?;
            Ok(())
        }
        Part::Export(export) => {
            parts.exports.push(export)?;
            Ok(())
        }
        Part::Start(func) => {
            if parts.start.is_some() {
                return Err(ResolveFault::Broken);
            }
            parts.start = Some(func);
            Ok(())
        }
        Part::Element(element) => {
            parts.elements.push(element)?;
            Ok(())
        }
        Part::Data(data) => {
            parts.datas.push(data)?;
            Ok(())
        }
    }
}
