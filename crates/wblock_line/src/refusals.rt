//! Why a module's bytes give no contract.

ghost use Rattle.std.specs.Prelude.{◌≡◌, [], ◌∷◌, ◌++◌, Some, None, IfOk, string_bytes};
ghost use Rattle.module_tree.specs.Modules.{module_view};
ghost use Rattle.wblock_calls.specs.Sentences.{Begins};
ghost use Rattle.wblock_words.specs.Sentences.{broken_place};
ghost use Rattle.wblock_line.specs.Places.{TellsPlace, TellsRefusal, TellsRule};
ghost use Rattle.wblock_line.specs.Refusals.{refusal_text};

use crate::sites::import_text;
use body_typing::rule::Rule;
use loader::load;
use module_tree::limit::Limit;
use module_tree::module::{ExportDesc, Module};
use std::alloc::{AllocError, Allocator, Global};
use std::fmt;
use typing_errors::{item_text, site_text};
use wblock_calls::printable;
use wblock_words::{
    first_name, form_words, import_words, limit_words, names_from, names_of, room_words,
    rule_words, segment_words,
};

/// Why a module's bytes give no contract, printed as `refused load N P`, `refused check RULE F O` or `refused deploy N I`.
#[derive(Clone, Copy, Debug, PartialEq, Eq)]
pub enum ModuleRefusal {
    /// The grammar has no such form, at this offset.
    Malformed(usize),
    /// A form of the standard that the profile leaves out, at this offset.
    Unsupported(usize),
    /// The limit is passed.
    TooLarge(Limit),
    /// A rule of validation is broken.
    Untyped {
        /// The rule.
        rule: Rule,
        /// The number of the function, imports counted first, or None outside bodies.
        func: Option<u32>,
        /// The place.
        ordinal: u32,
    },
    /// The import of this number is no host call.
    UnknownImport(u32),
    /// The import of this number has another type than the host call that it names.
    ImportType(u32),
    /// The segment of this number is out of range.
    SegmentRange(u32),
    /// The memory begins with too many pages.
    TooManyPages,
    /// The table begins with too many elements.
    TableTooLarge,
}

impl fmt::Display for ModuleRefusal {
    ghost output = { λ r. Some (refusal_text r) };

    fn fmt<W: fmt::Write>(&self, f: &mut fmt::Formatter<W>) -> fmt::Result {
        match *self {
            ModuleRefusal::Malformed(at) => write!(f, "refused load 1 {at}"),
            ModuleRefusal::Unsupported(at) => write!(f, "refused load 2 {at}"),
            ModuleRefusal::TooLarge(limit) => {
                let number = limit.number();
                write!(f, "refused load 3 {number}")
            }
            ModuleRefusal::Untyped {
                rule,
                func: None,
                ordinal,
            } => {
                let number = rule.number();
                write!(f, "refused check {number} - {ordinal}")
            }
            ModuleRefusal::Untyped {
                rule,
                func: Some(func),
                ordinal,
            } => {
                let number = rule.number();
                write!(f, "refused check {number} {func} {ordinal}")
            }
            ModuleRefusal::UnknownImport(import) => write!(f, "refused deploy 1 {import}"),
            ModuleRefusal::ImportType(import) => write!(f, "refused deploy 2 {import}"),
            ModuleRefusal::SegmentRange(segment) => write!(f, "refused deploy 3 {segment}"),
            ModuleRefusal::TooManyPages => write!(f, "refused deploy 4 -"),
            ModuleRefusal::TableTooLarge => write!(f, "refused deploy 5 -"),
        }
    }
}

/// The first name under which a module exports the function of this number, where it does.
fn export_of<A: Allocator>(module: &Module<A>, func: u32) -> Option<&str> {
    for export in &module.exports {
        match export.desc {
            ExportDesc::Func(number) if number == func => return Some(export.name.as_str()),
            _ => {}
        }
    }
    None
}

/// The sentence of a rule that a module of these bytes breaks at this instruction of a function, which is named by its export, or else by the custom section `name`.
fn body_words<A: Allocator>(
    alloc: Global,
    bytes: &[u8],
    tree: &Module<A>,
    rule: Rule,
    func: u32,
    ordinal: u32,
) -> Result<String, AllocError>
    ensures { IfOk result (λ s. TellsPlace (string_bytes s) (module_view tree.now) func ordinal) }
{
    let names = names_of(alloc, bytes)?;
    let name = match export_of(tree, func) {
        Some(name) => Some(name),
        None => first_name(names_from(&names, func), func),
    };
    let words = rule_words(alloc, rule, Some(func), name, ordinal)?;
    let site = site_text(alloc, tree, func, ordinal, rule)?;
    joined(alloc, &words, &site)
}

/// One text behind another.
fn joined(alloc: Global, front: &String, back: &String) -> Result<String, AllocError>
    ensures { IfOk result (λ s. string_bytes s ≡ string_bytes front.now ++ string_bytes back.now) }
{
    format!(in alloc; "{front}{back}")
}

/// The name of an export that has the name of one before it, as it is shown.
fn repeated_text<A: Allocator>(
    alloc: Global,
    module: &Module<A>,
    rule: Rule,
    item: u32,
) -> Result<String, AllocError> {
    match module.exports.get(item as usize) {
        Some(export) if rule == Rule::ExportName => {
            let name = printable(export.name.as_str());
            format!(in alloc; "; found: `{name}` again")
        }
        _ => Ok(String::new(alloc)),
    }
}

/// The sentence of a rule that a module breaks outside bodies, by this item of the list at fault.
fn item_words<A: Allocator>(
    alloc: Global,
    module: &Module<A>,
    rule: Rule,
    item: u32,
) -> Result<String, AllocError>
    ensures { IfOk result (λ s. Begins (broken_place None item) (string_bytes s)) }
{
    let words = rule_words(alloc, rule, None, None, item)?;
    let repeated = repeated_text(alloc, module, rule, item)?;
    let found = item_text(alloc, module, rule, item)?;
    let said = format!(in alloc; "{repeated}{found}")?;
    joined(alloc, &words, &said)
}

/// The sentence of a rule that a module of these bytes breaks at this instruction of a function.
fn untyped_words(
    alloc: Global,
    bytes: &[u8],
    rule: Rule,
    func: u32,
    ordinal: u32,
) -> Result<String, AllocError>
    ensures { IfOk result (λ s. TellsRule (string_bytes s) bytes.now func ordinal) }
{
    match load(alloc, bytes) {
        Ok(tree) => body_words(alloc, bytes, &tree, rule, func, ordinal),
        Err(_) => rule_words(alloc, rule, Some(func), None, ordinal),
    }
}

/// The sentence of a rule that a module of these bytes breaks outside bodies.
fn unlisted_words(alloc: Global, bytes: &[u8], rule: Rule, item: u32) -> Result<String, AllocError>
    ensures { IfOk result (λ s. Begins (broken_place None item) (string_bytes s)) }
{
    match load(alloc, bytes) {
        Ok(module) => item_words(alloc, &module, rule, item),
        Err(_) => rule_words(alloc, rule, None, None, item),
    }
}

/// The sentence of an import that is at fault in a module of these bytes, with its names and what it is.
fn import_fault_words(
    alloc: Global,
    bytes: &[u8],
    import: u32,
    has_call: bool,
) -> Result<String, AllocError> {
    let Ok(module) = load(alloc, bytes) else {
        return import_words(alloc, import, "", has_call);
    };
    let Some(found) = module.imports.get(import as usize) else {
        return import_words(alloc, import, "", has_call);
    };
    let from_module = &found.from_module;
    let name = &found.name;
    let names = format!(in alloc; "`{from_module}` `{name}`")?;
    let words = import_words(alloc, import, names.as_str(), has_call)?;
    let text = import_text(alloc, &module, found)?;
    format!(in alloc; "{words}; this import is {text}")
}

impl ModuleRefusal {
    /// The sentence of the refusal of a module of these bytes: what is wrong, where, and what to do. It has no newline.
    pub fn words(self, alloc: Global, bytes: &[u8]) -> Result<String, AllocError>
        ensures { IfOk result (λ s. TellsRefusal self bytes.now (string_bytes s)) }
    {
        match self {
            ModuleRefusal::Malformed(at) => form_words(alloc, bytes, at, false),
            ModuleRefusal::Unsupported(at) => form_words(alloc, bytes, at, true),
            ModuleRefusal::TooLarge(limit) => limit_words(alloc, limit),
            ModuleRefusal::Untyped {
                rule,
                func: Some(func),
                ordinal,
            } => untyped_words(alloc, bytes, rule, func, ordinal),
            ModuleRefusal::Untyped {
                rule,
                func: None,
                ordinal,
            } => unlisted_words(alloc, bytes, rule, ordinal),
            ModuleRefusal::UnknownImport(import) => {
                import_fault_words(alloc, bytes, import, false)
            }
            ModuleRefusal::ImportType(import) => { import_fault_words(alloc, bytes, import, true) }
            ModuleRefusal::SegmentRange(segment) => segment_words(alloc, segment),
            ModuleRefusal::TooManyPages => room_words(alloc, true),
            ModuleRefusal::TableTooLarge => room_words(alloc, false),
        }
    }

    /// The line of the refusal of a module of these bytes, and its sentence.
    pub fn lines_of(self, alloc: Global, bytes: &[u8]) -> Result<(String, String), AllocError>
        ensures { IfOk result (λ told. string_bytes told.0 ≡ refusal_text self ++ 10 ∷ []) }
    {
        let line = format!(in alloc; "{self}\n")?;
        let why = self.words(alloc, bytes)?;
        Ok((line, why))
    }
}
