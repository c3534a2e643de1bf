//! The parts of fields, read from the front of the words that are left. Where a reader refuses, its number is how many
//! words were left.
ghost use Rattle.std.specs.Prelude.{◌≡◌, ◌≤◌, ◌<◌, ◌++◌, length, map, IfOk, IfErr, IfSome, option_map, string_bytes};
ghost use Rattle.spec_text.specs.declared.KeyWord.{KeyWord};
ghost use Rattle.module_tree.specs.ModuleView.{global_type_view};
ghost use Rattle.lexer.specs.Strings.{decoded};
ghost use Rattle.lexer.specs.WordsViews.{placed, view, views};
ghost use Rattle.text_body.specs.declared.unread.ParseFault.TheVariants.{NoMemory};
ghost use Rattle.text_body.specs.Places.{text_of, index_of, binding_of, use_of};
ghost use Rattle.text_body.specs.Outcome.{Gives};
ghost use Rattle.text_body.specs.Reading.{close_at};
ghost use Rattle.text_tree.specs.Places.{bounds_of, kind_of, desc_of, field_of, head_of};
ghost use Rattle.text_tree.specs.Reading.{inner_at, is_inner, bracket_at, opened_at, typed_at, number_at, next_number_at, next_string_at, utf8_in};
ghost use Rattle.text_tree.specs.Reading.{name_at, kind_of_key, kind_at, limits_at, table_type_at, memory_type_at, variable_at, global_type_at};
ghost use Rattle.text_tree.specs.Reading.{closed_name_at, next_export_at, exports_at, strings_at, desc_of_kind, desc_at, signature_at, type_field_at};
ghost use Rattle.text_tree.specs.Reading.{import_field_at, exported_at, export_field_at, short_field_at, plain_field_at, func_head_at};
ghost use Rattle.text_tree.specs.Reading.{global_head_at, segment_head_at, elem_tail_at, data_tail_at, next_key_at};

use crate::field::{BoundedField, Bounds, Desc, ExportField, Field, ImportField, Kind, TypeField};
use lexer::{Piece, Word, put_string};
use module_tree::module::GlobalType;
use spec_text::KeyWord;
use std::alloc::Allocator;
use text_body::shared::{
    Part, bindings, close, close_behind_parts, enters, index, indices, optional_id, results,
    type_use,
};
use text_body::{Binding, Index, ParseFault, TypeUse};
use wtypes::ValType;

/// The words that stand within fields.
#[derive(Clone, Copy)]
pub enum Inner {
    /// `module`
    Module,
    /// `func`
    Func,
    /// `offset`
    Offset,
    /// `mut`
    Mut,
    /// `funcref`
    Funcref,
}

/// Whether the word is this one.
fn is(inner: Inner, key: KeyWord) -> bool
    ensures { result ≡ is_inner inner key }
{
    match inner {
        Inner::Module => matches!(key, KeyWord::Module),
        Inner::Func => matches!(key, KeyWord::Func),
        Inner::Offset => matches!(key, KeyWord::Offset),
        Inner::Mut => matches!(key, KeyWord::Mut),
        Inner::Funcref => matches!(key, KeyWord::Funcref),
    }
}

/// This word.
pub(crate) fn word<'w, 'a>(inner: Inner, rest: &mut &'w [Word<'a>]) -> Result<(), ParseFault>
    ensures value { Gives (λ _. views rest.new.now) result (inner_at inner (views rest.old.now)) }
    ensures shorter { IfOk result (λ _. length rest.new.now < length rest.old.now) }
{
    match *rest {
        [Word::Key(key), after @ ..] if is(inner, *key) => {
            *rest = after;
            Ok(())
        }
        _ => Err(ParseFault::Stuck(rest.len())),
    }
}

/// `(`
fn bracket<'w, 'a>(rest: &mut &'w [Word<'a>]) -> Result<(), ParseFault>
    ensures value { Gives (λ _. views rest.new.now) result (bracket_at (views rest.old.now)) }
    ensures shorter { IfOk result (λ _. length rest.new.now < length rest.old.now) }
{
    match *rest {
        [Word::LeftBracket, after @ ..] => {
            *rest = after;
            Ok(())
        }
        _ => Err(ParseFault::Stuck(rest.len())),
    }
}

/// `(` and this word.
pub(crate) fn opened<'w, 'a>(inner: Inner, rest: &mut &'w [Word<'a>]) -> Result<(), ParseFault>
    ensures value { Gives (λ _. views rest.new.now) result (opened_at inner (views rest.old.now)) }
    ensures shorter { IfOk result (λ _. length rest.new.now < length rest.old.now) }
{
    bracket(rest)?;
    word(inner, rest)
}

/// A value type.
fn value_type<'w, 'a>(rest: &mut &'w [Word<'a>]) -> Result<ValType, ParseFault>
    ensures value { Gives (λ t. (t, views rest.new.now)) result (typed_at (views rest.old.now)) }
    ensures shorter { IfOk result (λ _. length rest.new.now < length rest.old.now) }
{
    match *rest {
        [Word::Key(KeyWord::Value(t)), after @ ..] => {
            let found = *t;
            *rest = after;
            Ok(found)
        }
        _ => Err(ParseFault::Stuck(rest.len())),
    }
}

/// The kind that a word is.
fn kind_of(key: KeyWord) -> Option<Kind>
    ensures { option_map kind_of result ≡ kind_of_key key }
{
    match key {
        KeyWord::Func => Some(Kind::Func),
        KeyWord::Table => Some(Kind::Table),
        KeyWord::Memory => Some(Kind::Memory),
        KeyWord::Global => Some(Kind::Global),
        _ => None,
    }
}

/// A kind.
fn kind<'w, 'a>(rest: &mut &'w [Word<'a>]) -> Result<Kind, ParseFault>
    ensures value { Gives (λ x. (kind_of x, views rest.new.now)) result (kind_at (views rest.old.now)) }
    ensures shorter { IfOk result (λ _. length rest.new.now < length rest.old.now) }
{
    match *rest {
        [Word::Key(key), after @ ..] => {
            let Some(found) = kind_of(*key) else {
                return Err(ParseFault::Stuck(rest.len()));
            };
            *rest = after;
            Ok(found)
        }
        _ => Err(ParseFault::Stuck(rest.len())),
    }
}

/// A number.
fn number<'w, 'a>(rest: &mut &'w [Word<'a>]) -> Result<Piece<'a>, ParseFault>
    ensures value { Gives (λ p. (placed p, views rest.new.now)) result (number_at (views rest.old.now)) }
    ensures shorter { IfOk result (λ _. length rest.new.now < length rest.old.now) }
{
    match *rest {
        [] => Err(ParseFault::Stuck(0)),
        [word, after @ ..] => match *word {
            Word::Number(piece) => {
                *rest = after;
                Ok(piece)
            }
            _ => Err(ParseFault::Stuck(rest.len())),
        },
    }
}

/// A number, if there is one.
fn next_number<'w, 'a>(rest: &mut &'w [Word<'a>]) -> Option<Piece<'a>>
    ensures is { (text_of result, views rest.new.now) ≡ next_number_at (views rest.old.now) }
    ensures shorter { length rest.new.now ≤ length rest.old.now }
{
    match *rest {
        [] => None,
        [word, after @ ..] => match *word {
            Word::Number(piece) => {
                *rest = after;
                Some(piece)
            }
            _ => None,
        },
    }
}

/// The limits of a table or a memory.
fn limits<'w, 'a>(rest: &mut &'w [Word<'a>]) -> Result<Bounds<'a>, ParseFault>
    ensures value { Gives (λ b. (bounds_of b, views rest.new.now)) result (limits_at (views rest.old.now)) }
    ensures shorter { IfOk result (λ _. length rest.new.now < length rest.old.now) }
{
    let min = number(rest)?;
    let max = next_number(rest);
    Ok(Bounds { min, max })
}

/// The limits of a table, `funcref` and `)`.
fn table_type<'w, 'a>(rest: &mut &'w [Word<'a>]) -> Result<Bounds<'a>, ParseFault>
    ensures value { Gives (λ b. (bounds_of b, views rest.new.now)) result (table_type_at (views rest.old.now)) }
    ensures shorter { IfOk result (λ _. length rest.new.now < length rest.old.now) }
{
    let found = limits(rest)?;
    word(Inner::Funcref, rest)?;
    close(rest)?;
    Ok(found)
}

/// The limits of a memory and `)`.
fn memory_type<'w, 'a>(rest: &mut &'w [Word<'a>]) -> Result<Bounds<'a>, ParseFault>
    ensures value { Gives (λ b. (bounds_of b, views rest.new.now)) result (memory_type_at (views rest.old.now)) }
    ensures shorter { IfOk result (λ _. length rest.new.now < length rest.old.now) }
{
    let found = limits(rest)?;
    close(rest)?;
    Ok(found)
}

/// `mut`, a value type and `)`.
fn variable<'w, 'a>(rest: &mut &'w [Word<'a>]) -> Result<ValType, ParseFault>
    ensures value { Gives (λ t. (t, views rest.new.now)) result (variable_at (views rest.old.now)) }
    ensures shorter { IfOk result (λ _. length rest.new.now < length rest.old.now) }
{
    word(Inner::Mut, rest)?;
    let found = value_type(rest)?;
    close(rest)?;
    Ok(found)
}

/// The type of a global.
fn global_type<'w, 'a>(rest: &mut &'w [Word<'a>]) -> Result<GlobalType, ParseFault>
    ensures value { Gives (λ t. (global_type_view t, views rest.new.now)) result (global_type_at (views rest.old.now)) }
    ensures shorter { IfOk result (λ _. length rest.new.now < length rest.old.now) }
{
    if let [Word::LeftBracket, after @ ..] = *rest {
        *rest = after;
        let value_type = variable(rest)?;
        return Ok(GlobalType {
            value_type,
            is_mutable: true,
        });
    }
    let value_type = value_type(rest)?;
    Ok(GlobalType {
        value_type,
        is_mutable: false,
    })
}

/// The text that a string stands for, if that is UTF-8.
fn utf8_of<A: Allocator + Clone>(alloc: &A, body: &[u8]) -> Result<Option<String<A>>, ParseFault>
    ensures value { IfOk result (λ found. option_map string_bytes found ≡ utf8_in (decoded body.now)) }
    ensures refused { IfErr result (λ refusal. refusal ≡ NoMemory) }
{
    let mut bytes = Vec::new(alloc.clone()?);
    put_string(&mut bytes, body)?;
    match String::from_utf8(bytes) {
        Ok(found) => Ok(Some(found)),
        Err(_) => Ok(None),
    }
}

/// A string that is UTF-8.
fn name<'w, 'a, A: Allocator + Clone>(
    alloc: &A,
    rest: &mut &'w [Word<'a>],
) -> Result<String<A>, ParseFault>
    ensures value { Gives (λ s. (string_bytes s, views rest.new.now)) result (name_at (views rest.old.now)) }
    ensures shorter { IfOk result (λ _. length rest.new.now < length rest.old.now) }
{
    match *rest {
        [] => Err(ParseFault::Stuck(0)),
        [word, after @ ..] => match *word {
            Word::Str(piece) => {
                let Some(found) = utf8_of(alloc, piece.text)? else {
                    return Err(ParseFault::Stuck(rest.len()));
                };
                *rest = after;
                Ok(found)
            }
            _ => Err(ParseFault::Stuck(rest.len())),
        },
    }
}

/// A string that is UTF-8 and `)`.
fn closed_name<'w, 'a, A: Allocator + Clone>(
    alloc: &A,
    rest: &mut &'w [Word<'a>],
) -> Result<String<A>, ParseFault>
    ensures value { Gives (λ s. (string_bytes s, views rest.new.now)) result (closed_name_at (views rest.old.now)) }
    ensures shorter { IfOk result (λ _. length rest.new.now < length rest.old.now) }
{
    let found = name(alloc, rest)?;
    close(rest)?;
    Ok(found)
}

/// An export within a function, if there is one.
fn next_export<'w, 'a, A: Allocator + Clone>(
    alloc: &A,
    rest: &mut &'w [Word<'a>],
) -> Result<Option<String<A>>, ParseFault>
    ensures value { Gives (λ r. (option_map string_bytes r, views rest.new.now)) result (next_export_at (views rest.old.now)) }
    ensures shorter { IfOk result (λ r. IfSome r (λ _. length rest.new.now < length rest.old.now)) }
    ensures kept { IfOk result (λ _. length rest.new.now ≤ length rest.old.now) }
{
    if !enters(Part::Export, rest) {
        return Ok(None);
    }
    let found = closed_name(alloc, rest)?;
    Ok(Some(found))
}

/// The exports within a function, as many as there are.
fn exports<'w, 'a, A: Allocator + Clone>(
    alloc: &A,
    rest: &mut &'w [Word<'a>],
) -> Result<Vec<String<A>, A>, ParseFault>
    ensures value { Gives (λ r. (map string_bytes r.items, views rest.new.now)) result (exports_at (views rest.old.now)) }
    ensures shorter { IfOk result (λ _. length rest.new.now ≤ length rest.old.now) }
{
    let mut found = Vec::new(alloc.clone()?);
    while let Some(next) = next_export(alloc, rest)? {
        found.push(next)?;
    }
    Ok(found)
}

/// A string, as it is written, if there is one.
fn next_string<'w, 'a>(rest: &mut &'w [Word<'a>]) -> Option<Piece<'a>>
    ensures is { (option_map (λ p. decoded p.text.now) result, views rest.new.now) ≡ next_string_at (views rest.old.now) }
    ensures shorter { IfSome result (λ _. length rest.new.now < length rest.old.now) }
    ensures kept { length rest.new.now ≤ length rest.old.now }
{
    match *rest {
        [] => None,
        [word, after @ ..] => match *word {
            Word::Str(piece) => {
                *rest = after;
                Some(piece)
            }
            _ => None,
        },
    }
}

/// What strings stand for, one after another, as many as there are.
fn strings<'w, 'a, A: Allocator + Clone>(
    alloc: &A,
    rest: &mut &'w [Word<'a>],
) -> Result<Vec<u8, A>, ParseFault>
    ensures value { Gives (λ r. (r.items, views rest.new.now)) result (strings_at (views rest.old.now)) }
    ensures shorter { IfOk result (λ _. length rest.new.now ≤ length rest.old.now) }
{
    let mut bytes = Vec::new(alloc.clone()?);
    while let Some(next) = next_string(rest) {
        put_string(&mut bytes, next.text)?;
    }
    Ok(bytes)
}

/// What an import of a kind is, and `)`.
fn desc<'w, 'a, A: Allocator + Clone>(
    alloc: &A,
    kind: Kind,
    rest: &mut &'w [Word<'a>],
) -> Result<Desc<'a, A>, ParseFault>
    ensures value { Gives (λ d. (desc_of d, views rest.new.now)) result (desc_of_kind (kind_of kind) (views rest.old.now)) }
    ensures shorter { IfOk result (λ _. length rest.new.now < length rest.old.now) }
{
    match kind {
        Kind::Func => {
            let written = type_use(alloc, rest)?;
            close_behind_parts(rest)?;
            Ok(Desc::Func(written))
        }
        Kind::Table => Ok(Desc::Table(table_type(rest)?)),
        Kind::Memory => Ok(Desc::Memory(memory_type(rest)?)),
        Kind::Global => {
            let found = global_type(rest)?;
            close(rest)?;
            Ok(Desc::Global(found))
        }
    }
}

/// The name of an import in the text, if it has one, and what it is.
fn described<'w, 'a, A: Allocator + Clone>(
    alloc: &A,
    rest: &mut &'w [Word<'a>],
) -> Result<(Option<Piece<'a>>, Desc<'a, A>), ParseFault>
    ensures value { Gives (λ r. ((text_of r.0, desc_of r.1), views rest.new.now)) result (desc_at (views rest.old.now)) }
    ensures shorter { IfOk result (λ _. length rest.new.now < length rest.old.now) }
{
    bracket(rest)?;
    let kind = kind(rest)?;
    let name = optional_id(rest);
    let found = desc(alloc, kind, rest)?;
    Ok((name, found))
}

/// The parameters and the results of a type, and `) )`.
fn signature<'w, 'a, A: Allocator + Clone>(
    alloc: &A,
    rest: &mut &'w [Word<'a>],
) -> Result<(Vec<Binding<'a>, A>, Vec<ValType, A>), ParseFault>
    ensures value { Gives (λ r. ((map binding_of r.0.items, r.1.items), views rest.new.now)) result (signature_at (views rest.old.now)) }
    ensures shorter { IfOk result (λ _. length rest.new.now < length rest.old.now) }
{
    let params = bindings(alloc, Part::Param, rest)?;
    let results = results(alloc, rest)?;
    close_behind_parts(rest)?;
    close(rest)?;
    Ok((params, results))
}

/// A type, behind its word.
fn type_field<'w, 'a, A: Allocator + Clone>(
    alloc: &A,
    rest: &mut &'w [Word<'a>],
) -> Result<Field<'a, A>, ParseFault>
    ensures value { Gives (λ f. (field_of f, views rest.new.now)) result (type_field_at (views rest.old.now)) }
    ensures shorter { IfOk result (λ _. length rest.new.now < length rest.old.now) }
{
    let name = optional_id(rest);
    opened(Inner::Func, rest)?;
    let (params, results) = signature(alloc, rest)?;
    Ok(Field::Type(TypeField {
        name,
        params,
        results,
    }))
}

/// An import, behind its word.
fn import_field<'w, 'a, A: Allocator + Clone>(
    alloc: &A,
    rest: &mut &'w [Word<'a>],
) -> Result<Field<'a, A>, ParseFault>
    ensures value { Gives (λ f. (field_of f, views rest.new.now)) result (import_field_at (views rest.old.now)) }
    ensures shorter { IfOk result (λ _. length rest.new.now < length rest.old.now) }
{
    let from_module = name(alloc, rest)?;
    let item = name(alloc, rest)?;
    let (name, desc) = described(alloc, rest)?;
    close(rest)?;
    Ok(Field::Import(ImportField {
        from_module,
        item,
        name,
        desc,
    }))
}

/// The kind and the index of an export, and `) )`.
fn exported<'w, 'a>(rest: &mut &'w [Word<'a>]) -> Result<(Kind, Index<'a>), ParseFault>
    ensures value { Gives (λ r. ((kind_of r.0, index_of r.1), views rest.new.now)) result (exported_at (views rest.old.now)) }
    ensures shorter { IfOk result (λ _. length rest.new.now < length rest.old.now) }
{
    let kind = kind(rest)?;
    let found = index(rest)?;
    close(rest)?;
    close(rest)?;
    Ok((kind, found))
}

/// An export, behind its word.
fn export_field<'w, 'a, A: Allocator + Clone>(
    alloc: &A,
    rest: &mut &'w [Word<'a>],
) -> Result<Field<'a, A>, ParseFault>
    ensures value { Gives (λ f. (field_of f, views rest.new.now)) result (export_field_at (views rest.old.now)) }
    ensures shorter { IfOk result (λ _. length rest.new.now < length rest.old.now) }
{
    let item = name(alloc, rest)?;
    bracket(rest)?;
    let (kind, index) = exported(rest)?;
    Ok(Field::Export(ExportField { item, kind, index }))
}

/// A table, a memory or a start, behind its word.
fn short_field<'w, 'a, A: Allocator>(
    key: KeyWord,
    rest: &mut &'w [Word<'a>],
) -> Result<Field<'a, A>, ParseFault>
    ensures value { Gives (λ f. (field_of f, views rest.new.now)) result (short_field_at key (views rest.old.now)) }
    ensures shorter { IfOk result (λ _. length rest.new.now < length rest.old.now) }
{
    match key {
        KeyWord::Table => {
            let name = optional_id(rest);
            let bounds = table_type(rest)?;
            Ok(Field::Table(BoundedField { name, bounds }))
        }
        KeyWord::Memory => {
            let name = optional_id(rest);
            let bounds = memory_type(rest)?;
            Ok(Field::Memory(BoundedField { name, bounds }))
        }
        KeyWord::Start => {
            let found = index(rest)?;
            close(rest)?;
            Ok(Field::Start(found))
        }
        _ => Err(ParseFault::Stuck(rest.len() + 1)),
    }
}

/// A field that holds no instructions, behind its word.
pub(crate) fn plain_field<'w, 'a, A: Allocator + Clone>(
    alloc: &A,
    key: KeyWord,
    rest: &mut &'w [Word<'a>],
) -> Result<Field<'a, A>, ParseFault>
    ensures value { Gives (λ f. (field_of f, views rest.new.now)) result (plain_field_at key (views rest.old.now)) }
    ensures shorter { IfOk result (λ _. length rest.new.now < length rest.old.now) }
{
    match key {
        KeyWord::Type => type_field(alloc, rest),
        KeyWord::Import => import_field(alloc, rest),
        KeyWord::Export => export_field(alloc, rest),
        _ => short_field(key, rest),
    }
}

/// What stands before the instructions of a function.
#[derive(Drop)]
pub(crate) struct Head<'a, A: Allocator> {
    /// Its name, if it has one.
    pub name: Option<Piece<'a>>,
    /// The names under which it is exported.
    pub exports: Vec<String<A>, A>,
    /// Its type.
    pub written: TypeUse<'a, A>,
    /// Its locals, the parameters aside.
    pub locals: Vec<Binding<'a>, A>,
}

/// What stands before the instructions of a function.
pub(crate) fn func_head<'w, 'a, A: Allocator + Clone>(
    alloc: &A,
    rest: &mut &'w [Word<'a>],
) -> Result<Head<'a, A>, ParseFault>
    ensures value { Gives (λ h. (head_of h, views rest.new.now)) result (func_head_at (views rest.old.now)) }
    ensures shorter { IfOk result (λ _. length rest.new.now ≤ length rest.old.now) }
{
    let name = optional_id(rest);
    let exports = exports(alloc, rest)?;
    let written = type_use(alloc, rest)?;
    let locals = bindings(alloc, Part::Local, rest)?;
    Ok(Head {
        name,
        exports,
        written,
        locals,
    })
}

/// The name of a global, if it has one, and its type.
pub(crate) fn global_head<'w, 'a>(
    rest: &mut &'w [Word<'a>],
) -> Result<(Option<Piece<'a>>, GlobalType), ParseFault>
    ensures value { Gives (λ r. ((text_of r.0, global_type_view r.1), views rest.new.now)) result (global_head_at (views rest.old.now)) }
    ensures shorter { IfOk result (λ _. length rest.new.now ≤ length rest.old.now) }
{
    let name = optional_id(rest);
    let found = global_type(rest)?;
    Ok((name, found))
}

/// The index of a segment, `(` and `offset`.
pub(crate) fn segment_head<'w, 'a>(rest: &mut &'w [Word<'a>]) -> Result<Index<'a>, ParseFault>
    ensures value { Gives (λ i. (index_of i, views rest.new.now)) result (segment_head_at (views rest.old.now)) }
    ensures shorter { IfOk result (λ _. length rest.new.now < length rest.old.now) }
{
    let found = index(rest)?;
    opened(Inner::Offset, rest)?;
    Ok(found)
}

/// Indices and `)`.
pub(crate) fn elem_tail<'w, 'a, A: Allocator + Clone>(
    alloc: &A,
    rest: &mut &'w [Word<'a>],
) -> Result<Vec<Index<'a>, A>, ParseFault>
    ensures value { Gives (λ r. (map index_of r.items, views rest.new.now)) result (elem_tail_at (views rest.old.now)) }
    ensures shorter { IfOk result (λ _. length rest.new.now < length rest.old.now) }
{
    let found = indices(alloc, rest)?;
    close(rest)?;
    Ok(found)
}

/// Strings and `)`.
pub(crate) fn data_tail<'w, 'a, A: Allocator + Clone>(
    alloc: &A,
    rest: &mut &'w [Word<'a>],
) -> Result<Vec<u8, A>, ParseFault>
    ensures value { Gives (λ r. (r.items, views rest.new.now)) result (data_tail_at (views rest.old.now)) }
    ensures shorter { IfOk result (λ _. length rest.new.now < length rest.old.now) }
{
    let found = strings(alloc, rest)?;
    close(rest)?;
    Ok(found)
}

/// The module's `)`, or the word of a further field.
pub(crate) fn next_key<'w, 'a>(rest: &mut &'w [Word<'a>]) -> Result<Option<KeyWord>, ParseFault>
    ensures value { Gives (λ r. (r, views rest.new.now)) result (next_key_at (views rest.old.now)) }
    ensures shorter { IfOk result (λ _. length rest.new.now < length rest.old.now) }
{
    match *rest {
        [Word::RightBracket, after @ ..] => {
            *rest = after;
            Ok(None)
        }
        [Word::LeftBracket, Word::Key(key), after @ ..] => {
            let found = *key;
            *rest = after;
            Ok(Some(found))
        }
        [Word::LeftBracket, after @ ..] => Err(ParseFault::Stuck(after.len())),
        _ => Err(ParseFault::Stuck(rest.len())),
    }
}
