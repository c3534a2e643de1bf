//! Fields, one after another, and whole modules. Where a reader refuses, it says how many words were left.
ghost use Rattle.std.specs.Prelude.{◌≡◌, ◌≤◌, ◌<◌, length, map, IfOk, IfErr};
ghost use Rattle.lexer.specs.WordsViews.{views};
ghost use Rattle.text_body.specs.Outcome.{Unless};
ghost use Rattle.text_body.specs.SharedParts.{NoneOf};
ghost use Rattle.spec_text.specs.declared.KeyWord.TheVariants.{Func, Global, Elem, Data};
ghost use Rattle.text_tree.specs.Places.{field_of, fields_of};
ghost use Rattle.text_tree.specs.Reading.{forbids_of, defined_behind, started_behind};
ghost use Rattle.text_tree.specs.Texts.{OfField, AreFields, NoFields, IsTree, NoTree};

use crate::field::{DataField, ElemField, Field, FuncField, GlobalField, Text};
use crate::parts::{
    Head, Inner, data_tail, elem_tail, func_head, global_head, next_key, opened, plain_field,
    segment_head,
};
use lexer::Word;
use spec_text::KeyWord;
use std::alloc::Allocator;
use text_body::shared::optional_id;
use text_body::{ParseFault, body};

/// A function, behind its word.
fn func_field<'w, 'a, A: Allocator + Clone>(
    alloc: &A,
    rest: &mut &'w [Word<'a>],
) -> Result<Field<'a, A>, ParseFault>
    ensures grammar { IfOk result (λ f. OfField Func (views rest.old.now) (views rest.new.now) (field_of f)) }
    ensures refused { IfErr result (Unless (NoneOf (OfField Func) (views rest.old.now))) }
    ensures shorter { IfOk result (λ _. length rest.new.now < length rest.old.now) }
{
    let head = func_head(alloc, rest)?;
    let body = body(alloc, rest)?;
    let Head {
        name,
        exports,
        written,
        locals,
    } = head;
    Ok(Field::Func(FuncField {
        name,
        exports,
        written,
        locals,
        body,
    }))
}

/// A global, behind its word.
fn global_field<'w, 'a, A: Allocator + Clone>(
    alloc: &A,
    rest: &mut &'w [Word<'a>],
) -> Result<Field<'a, A>, ParseFault>
    ensures grammar { IfOk result (λ f. OfField Global (views rest.old.now) (views rest.new.now) (field_of f)) }
    ensures refused { IfErr result (Unless (NoneOf (OfField Global) (views rest.old.now))) }
    ensures shorter { IfOk result (λ _. length rest.new.now < length rest.old.now) }
{
    let (name, global_type) = global_head(rest)?;
    let init = body(alloc, rest)?;
    Ok(Field::Global(GlobalField {
        name,
        global_type,
        init,
    }))
}

/// An element segment, behind its word.
fn elem_field<'w, 'a, A: Allocator + Clone>(
    alloc: &A,
    rest: &mut &'w [Word<'a>],
) -> Result<Field<'a, A>, ParseFault>
    ensures grammar { IfOk result (λ f. OfField Elem (views rest.old.now) (views rest.new.now) (field_of f)) }
    ensures refused { IfErr result (Unless (NoneOf (OfField Elem) (views rest.old.now))) }
    ensures shorter { IfOk result (λ _. length rest.new.now < length rest.old.now) }
{
    let table = segment_head(rest)?;
    let offset = body(alloc, rest)?;
    let funcs = elem_tail(alloc, rest)?;
    Ok(Field::Elem(ElemField {
        table,
        offset,
        funcs,
    }))
}

/// A data segment, behind its word.
fn data_field<'w, 'a, A: Allocator + Clone>(
    alloc: &A,
    rest: &mut &'w [Word<'a>],
) -> Result<Field<'a, A>, ParseFault>
    ensures grammar { IfOk result (λ f. OfField Data (views rest.old.now) (views rest.new.now) (field_of f)) }
    ensures refused { IfErr result (Unless (NoneOf (OfField Data) (views rest.old.now))) }
    ensures shorter { IfOk result (λ _. length rest.new.now < length rest.old.now) }
{
    let memory = segment_head(rest)?;
    let offset = body(alloc, rest)?;
    let bytes = data_tail(alloc, rest)?;
    Ok(Field::Data(DataField {
        memory,
        offset,
        bytes,
    }))
}

/// A field, behind its word.
fn field<'w, 'a, A: Allocator + Clone>(
    alloc: &A,
    key: KeyWord,
    rest: &mut &'w [Word<'a>],
) -> Result<Field<'a, A>, ParseFault>
    ensures grammar { IfOk result (λ f. OfField key (views rest.old.now) (views rest.new.now) (field_of f)) }
    ensures refused { IfErr result (Unless (NoneOf (OfField key) (views rest.old.now))) }
    ensures shorter { IfOk result (λ _. length rest.new.now < length rest.old.now) }
{
    match key {
        KeyWord::Func => func_field(alloc, rest),
        KeyWord::Global => global_field(alloc, rest),
        KeyWord::Elem => elem_field(alloc, rest),
        KeyWord::Data => data_field(alloc, rest),
        _ => plain_field(alloc, key, rest),
    }
}

/// What stands before a field, as far as the rules on order ask for it.
#[derive(Clone, Copy)]
pub struct Before {
    /// A function, a table, a memory or a global.
    pub defined: bool,
    /// A start.
    pub started: bool,
}

/// Whether a field that begins with this word stands too late.
fn is_late(before: Before, key: KeyWord) -> bool
    ensures { result ≡ forbids_of before.defined before.started key }
{
    match key {
        KeyWord::Import => before.defined,
        KeyWord::Start => before.started,
        _ => false,
    }
}

/// What stands before the next field, behind one that begins with this word.
fn behind(before: Before, key: KeyWord) -> Before
    ensures defined { result.defined ≡ defined_behind before.defined key }
    ensures started { result.started ≡ started_behind before.started key }
{
    match key {
        KeyWord::Func | KeyWord::Table | KeyWord::Memory | KeyWord::Global => Before {
            defined: true,
            started: before.started,
        },
        KeyWord::Start => Before {
            defined: before.defined,
            started: true,
        },
        _ => before,
    }
}

/// The fields of a module and its `)`, behind which nothing stands.
fn fields<'w, 'a, A: Allocator + Clone>(
    alloc: &A,
    rest: &mut &'w [Word<'a>],
) -> Result<Vec<Field<'a, A>, A>, ParseFault>
    ensures grammar { IfOk result (λ found. AreFields (views rest.old.now) (map field_of found.items)) }
    ensures refused { IfErr result (Unless (NoFields (views rest.old.now))) }
{
    let mut found = Vec::new(alloc.clone()?);
    let mut before = Before {
        defined: false,
        started: false,
    };
    while let Some(key) = next_key(rest)? {
        if is_late(before, key) {
            return Err(ParseFault::Stuck(rest.len().saturating_add(1)));
        }
        let next = field(alloc, key, rest)?;
        found.push(next)?;
        before = behind(before, key);
    }
    if !rest.is_empty() {
        return Err(ParseFault::Stuck(rest.len()));
    }
    Ok(found)
}

/// The fields of a module.
pub(crate) fn module<'a, A: Allocator + Clone>(
    alloc: &A,
    words: &[Word<'a>],
) -> Result<Text<'a, A>, ParseFault>
    ensures grammar { IfOk result (λ text. IsTree (views words.now) (fields_of text)) }
    ensures refused { IfErr result (Unless (NoTree (views words.now))) }
{
    let mut rest = words;
    opened(Inner::Module, &mut rest)?;
    let _name = optional_id(&mut rest);
    let fields = fields(alloc, &mut rest)?;
    Ok(Text { fields })
}
