//! The place of a refusal in words.

ghost use Rattle.std.specs.Prelude.{◌≡◌, ◌++◌, IfOk, IfSome, codes, string_bytes};
ghost use Rattle.module_tree.specs.Modules.{module_view};
ghost use Rattle.typing_errors.specs.Sites.{IsNameAt, TellsSite};

use crate::faults::{body_end, fault_text};
use crate::locate::spot_in;
use crate::names::name_of;
use body_typing::rule::Rule;
use body_typing::scope::Scope;
use body_typing::spaces::Spaces;
use module_tree::module::{Func, Module};
use std::alloc::{AllocError, Allocator, Global};
use std::str::from_utf8;
use wtypes::FuncType;

/// A name as text; each name of the tables is one.
fn text_of(name: &'static [u8]) -> Option<&'static str>
    ensures { IfSome result (λ s. s.now ≡ name.now) }
{
    from_utf8(name).ok()
}

/// The name of the instruction of this ordinal in the function of this number, as bytes.
fn spelled_at<A: Allocator>(tree: &Module<A>, func: u32, ordinal: u32) -> Option<&'static [u8]>
    ensures { IfSome result (λ name. IsNameAt name.now (module_view tree.now) func ordinal) }
{
    let instr = tree.instr_at(func, ordinal)?;
    name_of(instr)
}

/// The name of the instruction of this ordinal in the function of this number, imports counted first, by the tables of the text format.
pub fn name_at<A: Allocator>(tree: &Module<A>, func: u32, ordinal: u32) -> Option<&'static str>
    ensures { IfSome result (λ name. IsNameAt name.now (module_view tree.now) func ordinal) }
{
    let name = spelled_at(tree, func, ordinal)?;
    text_of(name)
}

/// What is expected and found by a rule at this ordinal in a function of this type.
fn expected_text<A: Allocator>(
    alloc: Global,
    tree: &Module<A>,
    own: &FuncType<A>,
    defined: &Func<A>,
    func: u32,
    ordinal: u32,
    rule: Rule,
) -> Result<String, AllocError> {
    let spaces = Spaces::of_module(&alloc, tree)?;
    let wanted = own.results.first().copied();
    let scope = Scope {
        types: &tree.types,
        spaces: &spaces,
        own,
        locals: &defined.locals,
        result: wanted,
        func,
    };
    let mut labels = Vec::new(alloc);
    labels.push(wanted)?;
    match spot_in(&mut labels, &defined.body, ordinal)? {
        None => body_end(alloc, &scope, &labels, &defined.body),
        Some(spot) => {
            let Some(instr) = spot.sequence.get(spot.place) else {
                return Ok(String::new(alloc));
            };
            fault_text(
                alloc,
                &scope,
                &labels,
                &spot.sequence[..spot.place],
                instr,
                rule,
            )
        }
    }
}

/// What is expected and found by a rule at this ordinal in the function of this number, imports counted first.
fn finding_text<A: Allocator>(
    alloc: Global,
    tree: &Module<A>,
    func: u32,
    ordinal: u32,
    rule: Rule,
) -> Result<String, AllocError> {
    let Some(defined) = tree.defined_func(func) else {
        return Ok(String::new(alloc));
    };
    let Some(own) = tree.types.get(defined.type_index as usize) else {
        return Ok(String::new(alloc));
    };
    expected_text(alloc, tree, own, defined, func, ordinal, rule)
}

/// What is said of an instruction of this name.
fn named_text(alloc: Global, name: &str, finding: &str) -> Result<String, AllocError>
    ensures { IfOk result (λ s. string_bytes s ≡ codes "; this instruction is `" ++ (name.now ++ (codes "`" ++ finding.now))) }
{
    format!(in alloc; "; this instruction is `{name}`{finding}")
}

/// What is said of the end of a body.
fn last_text(alloc: Global, finding: &str) -> Result<String, AllocError>
    ensures { IfOk result (λ s. string_bytes s ≡ codes "; this is the end of the body" ++ finding.now) }
{
    format!(in alloc; "; this is the end of the body{finding}")
}

/// What is said of the place where a module breaks a rule, this ordinal in the function of this number, imports counted first: the name of the
/// instruction there, and what was expected and found.
pub fn site_text<A: Allocator>(
    alloc: Global,
    tree: &Module<A>,
    func: u32,
    ordinal: u32,
    rule: Rule,
) -> Result<String, AllocError>
    ensures { IfOk result (λ s. TellsSite (string_bytes s) (module_view tree.now) func ordinal) }
{
    let finding = finding_text(alloc, tree, func, ordinal, rule)?;
    match name_at(tree, func, ordinal) {
        Some(name) => named_text(alloc, name, finding.as_str()),
        None => unnamed_text(alloc, tree, func, ordinal, finding.as_str()),
    }
}

/// What is said where no instruction of a name stands: of the end of a body, or nothing.
fn unnamed_text<A: Allocator>(
    alloc: Global,
    tree: &Module<A>,
    func: u32,
    ordinal: u32,
    finding: &str,
) -> Result<String, AllocError>
    ensures { IfOk result (λ s. TellsSite (string_bytes s) (module_view tree.now) func ordinal) }
{
    match tree.instr_at(func, ordinal) {
        Some(_) => Ok(String::new(alloc)),
        None => last_text(alloc, finding),
    }
}
