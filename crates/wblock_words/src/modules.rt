//! Modules in binary that are refused.

ghost use Rattle.std.specs.Prelude.{◌++◌, IfOk, codes, decimal, string_bytes};
ghost use Rattle.wblock_calls.specs.Sentences.{Begins};
ghost use Rattle.wblock_words.specs.Sentences.{broken_place};

use crate::extensions::{FLOATS, extension_at};
use body_typing::rule::Rule;
use module_tree::limit::Limit;
use std::alloc::{AllocError, Global};
use wblock_calls::{place_line, printable};

/// What to do where a limit is passed.
fn limit_advice(limit: Limit) -> &'static str {
    match limit {
        Limit::Bytes =>
            "names and debug sections count, which --strip-all of the linker leaves out, and in a text its comments",
        Limit::Functions =>
            "leave out what no export needs, as --gc-sections does, or make several contracts",
        Limit::Locals => "split the function, or compile it with -O1 or more",
        Limit::Nesting =>
            "split the function: a compiler nests a block for each case of a `switch`",
        Limit::Labels => "split the `switch`: each of its cases has a label",
    }
}

/// The sentence of a limit on modules that is passed.
pub fn limit_words(alloc: Global, limit: Limit) -> Result<String, AllocError> {
    let advice = limit_advice(limit);
    format!(in alloc; "a limit of this profile is passed: {limit} are the most; {advice}")
}

/// What is said of the byte at which these bytes are no module: because of a form that the profile leaves out, or of one that is none.
fn form_fault(
    alloc: Global,
    bytes: &[u8],
    at: usize,
    left_out: bool,
) -> Result<String, AllocError> {
    if left_out {
        return FLOATS.to_string(alloc);
    }
    match extension_at(bytes, at) {
        Some(extension) => extension.words(alloc),
        None if at < 8 =>
            "the bytes are no module: the item that begins here is cut off, or is not what the binary format has here; a module in text is assembled first, by `asm`".to_string(
                alloc,
            ),
        None =>
            "the bytes are no module: the item that begins here is cut off, or is not what WebAssembly 1.0 has here; a compiler writes that with -mcpu=mvp -msign-ext (clang), or for wasm32v1-none (Rust)".to_string(
                alloc,
            ),
    }
}

/// The sentence of bytes that are no module, at this byte of them: because of a form that the profile leaves out, or of one that is none.
pub fn form_words(
    alloc: Global,
    bytes: &[u8],
    at: usize,
    left_out: bool,
) -> Result<String, AllocError>
    ensures { IfOk result (λ s. Begins (codes "byte " ++ decimal at) (string_bytes s)) }
{
    let fault = form_fault(alloc, bytes, at, left_out)?;
    let said = format!(in alloc; ": {fault}")?;
    place_line(alloc, "byte ", at, said.as_str())
}

/// What is said of a rule that is broken in a function, which is exported by this name, at this instruction.
fn function_fault(
    alloc: Global,
    rule: Rule,
    name: Option<&str>,
    ordinal: u32,
) -> Result<String, AllocError> {
    match name {
        Some(name) => {
            let name = printable(name);
            format!(in alloc;
                ", `{name}`, instruction {ordinal}: {rule}; functions and instructions count from 0, imports first"
            )
        }
        None => format!(in alloc;
            ", instruction {ordinal}: {rule}; functions and instructions count from 0, imports first"
        ),
    }
}

/// The sentence of a module that breaks this rule, in this function, imports counted first, which has this name; or outside
/// bodies. And at this instruction of it, or item of the list at fault.
pub fn rule_words(
    alloc: Global,
    rule: Rule,
    func: Option<u32>,
    name: Option<&str>,
    ordinal: u32,
) -> Result<String, AllocError>
    ensures { IfOk result (λ s. Begins (broken_place func ordinal) (string_bytes s)) }
{
    match func {
        Some(func) => {
            let said = function_fault(alloc, rule, name, ordinal)?;
            place_line(alloc, "function ", func as usize, said.as_str())
        }
        None => {
            let said = format!(in alloc; " of its list: {rule}; items count from 0")?;
            place_line(alloc, "item ", ordinal as usize, said.as_str())
        }
    }
}

/// What to do about an import of these names that is no host call, by what compilers import.
fn import_advice(names: &str) -> &'static str {
    if names == "`env` `memory`" {
        return "; link without --import-memory";
    }
    if names.starts_with("`env` `__") {
        return "; so an object file imports: link it, without -c, -r, -fPIC and --import-table";
    }
    if names.starts_with("`env`") {
        return "; clang gives `env` to a function that is declared and nowhere defined: define it, or give it the import_module `boost`, and link without --allow-undefined";
    }
    if names.starts_with("`wasi") {
        return "; compile for wasm32-unknown-unknown, and not for WASI";
    }
    ""
}

/// What is said of an import of these names.
fn import_fault(alloc: Global, names: &str, has_call: bool) -> Result<String, AllocError> {
    let advice = import_advice(names);
    let names = printable(names);
    if has_call {
        return format!(in alloc;
            ", {names}: it has another type than this host call; `get` and `total` are (param i64) (result i64), `has` and `del` (param i64) (result i32), `put` and `add` (param i64) (param i64), `ask` is (param i32) (param i32) (param i64) (result i32), and `answer` (result i64)"
        );
    }
    format!(in alloc;
        ", {names}: it is no host call; a contract imports functions of the module `boost` alone: `get`, `has`, `put`, `del`, `add`, `total`, `ask`, `answer`{advice}"
    )
}

/// The sentence of a module that cannot be a contract because of this import, of these names: its type is another than that of the host
/// call, or there is no such host call.
pub fn import_words(
    alloc: Global,
    import: u32,
    names: &str,
    has_call: bool,
) -> Result<String, AllocError>
    ensures { IfOk result (λ s. Begins (codes "import " ++ decimal import) (string_bytes s)) }
{
    let said = import_fault(alloc, names, has_call)?;
    place_line(alloc, "import ", import as usize, said.as_str())
}

/// The sentence of a module that cannot be a contract because of this segment.
pub fn segment_words(alloc: Global, segment: u32) -> Result<String, AllocError>
    ensures { IfOk result (λ s. Begins (codes "segment " ++ decimal segment) (string_bytes s)) }
{
    place_line(
        alloc,
        "segment ",
        segment as usize,
        ": it ends past the least size of its table or memory; element segments count first, from 0",
    )
}

/// The sentence of a module that cannot be a contract because of its memory, or of its table.
pub fn room_words(alloc: Global, is_memory: bool) -> Result<String, AllocError> {
    if is_memory {
        return "the memory begins with more than 1,024 pages: give it a smaller least size".to_string(
            alloc,
        );
    }
    "the table begins with more than 65,536 elements: give it a smaller least size".to_string(alloc)
}
