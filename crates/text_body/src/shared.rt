//! Parts that fields share with bodies, read from the front of the words that are left. Where one refuses, it says how
//! many words were left.
ghost use Rattle.std.specs.Prelude.{◌≡◌, ◌≤◌, ◌<◌, ◌∷◌, length, map, IfOk, IfErr, true, false};
ghost use Rattle.spec_text.specs.Words.{RightBracket};
ghost use Rattle.spec_text.specs.Grammar.{OptionalId, Indices, Bindings, Results, TypeUses};
ghost use Rattle.lexer.specs.WordsViews.{views};
ghost use Rattle.text_body.specs.Places.{text_of, index_of, binding_of, use_of};
ghost use Rattle.text_body.specs.Outcome.{Unless, Gives};
ghost use Rattle.text_body.specs.Reading.{key_of, moved, ahead, id_at, index_at, indices_at, bindings_at, results_at, use_at, close_at};
ghost use Rattle.text_body.specs.SharedParts.{OneIndex, NoneOf, Entered, NotClosed, SharedAreOne};

use crate::flat::{Binding, Index, TypeUse};
use crate::parts;
pub use crate::parts::Part;
use crate::unread::ParseFault;
use lexer::{Piece, Word};
use std::alloc::Allocator;
use wtypes::ValType;

/// A name, if there is one.
pub fn optional_id<'w, 'a>(rest: &mut &'w [Word<'a>]) -> Option<Piece<'a>>
    ensures is { (text_of result, views rest.new.now) ≡ id_at (views rest.old.now) }
    ensures grammar { OptionalId (views rest.old.now) (views rest.new.now) (text_of result) }
    ensures shorter { length rest.new.now ≤ length rest.old.now }
{
    parts::optional_id(rest)
}

/// An index.
pub fn index<'w, 'a>(rest: &mut &'w [Word<'a>]) -> Result<Index<'a>, ParseFault>
    ensures value { Gives (λ x. (index_of x, views rest.new.now)) result (index_at (views rest.old.now)) }
    ensures grammar { IfOk result (λ i. OneIndex (views rest.old.now) (views rest.new.now) (index_of i)) }
    ensures refused { IfErr result (Unless (NoneOf OneIndex (views rest.old.now))) }
    ensures shorter { IfOk result (λ _. length rest.new.now < length rest.old.now) }
{
    parts::index(rest)
}

/// As many indices as there are.
pub fn indices<'w, 'a, A: Allocator + Clone>(
    alloc: &A,
    rest: &mut &'w [Word<'a>],
) -> Result<Vec<Index<'a>, A>, ParseFault>
    ensures value { Gives (λ r. (map index_of r.items, views rest.new.now)) result (indices_at (views rest.old.now)) }
    ensures grammar { IfOk result (λ found. Indices (views rest.old.now) (views rest.new.now) (map index_of found.items)) }
    ensures refused { IfErr result (Unless (NoneOf Indices (views rest.old.now))) }
    ensures shorter { IfOk result (λ _. length rest.new.now ≤ length rest.old.now) }
{
    parts::indices(alloc, rest)
}

/// Parameters or locals, as many as there are.
pub fn bindings<'w, 'a, A: Allocator + Clone>(
    alloc: &A,
    part: Part,
    rest: &mut &'w [Word<'a>],
) -> Result<Vec<Binding<'a>, A>, ParseFault>
    ensures value { Gives (λ r. (map binding_of r.items, views rest.new.now)) result (bindings_at part (views rest.old.now)) }
    ensures grammar { IfOk result (λ found. Bindings (key_of part) (views rest.old.now) (views rest.new.now) (map binding_of found.items)) }
    ensures refused { IfErr result (Unless (NoneOf (Bindings (key_of part)) (views rest.old.now))) }
    ensures shorter { IfOk result (λ _. length rest.new.now ≤ length rest.old.now) }
{
    parts::bindings(alloc, part, rest)
}

/// Results, as many as there are.
pub fn results<'w, 'a, A: Allocator + Clone>(
    alloc: &A,
    rest: &mut &'w [Word<'a>],
) -> Result<Vec<ValType, A>, ParseFault>
    ensures value { Gives (λ r. (r.items, views rest.new.now)) result (results_at (views rest.old.now)) }
    ensures grammar { IfOk result (λ found. Results (views rest.old.now) (views rest.new.now) found.items) }
    ensures refused { IfErr result (Unless (NoneOf Results (views rest.old.now))) }
    ensures shorter { IfOk result (λ _. length rest.new.now ≤ length rest.old.now) }
{
    parts::results(alloc, rest)
}

/// What is written of a function's type.
pub fn type_use<'w, 'a, A: Allocator + Clone>(
    alloc: &A,
    rest: &mut &'w [Word<'a>],
) -> Result<TypeUse<'a, A>, ParseFault>
    ensures value { Gives (λ r. (use_of r, views rest.new.now)) result (use_at (views rest.old.now)) }
    ensures grammar { IfOk result (λ found. TypeUses (views rest.old.now) (views rest.new.now) (use_of found)) }
    ensures refused { IfErr result (Unless (NoneOf TypeUses (views rest.old.now))) }
    ensures shorter { IfOk result (λ _. length rest.new.now ≤ length rest.old.now) }
{
    parts::type_use(alloc, rest)
}

/// Whether this part is there; then its bracket and its word are passed.
pub fn enters<'w, 'a>(part: Part, rest: &mut &'w [Word<'a>]) -> bool
    ensures grammar { Entered (key_of part) (views rest.old.now) (views rest.new.now) result }
    ensures is { moved result (views rest.new.now) ≡ ahead part (views rest.old.now) }
    ensures entered { result ≡ true → length rest.new.now < length rest.old.now }
    ensures kept { result ≡ false → rest.new.now ≡ rest.old.now }
{
    parts::enters(part, rest)
}

/// `)`
pub fn close<'w, 'a>(rest: &mut &'w [Word<'a>]) -> Result<(), ParseFault>
    ensures value { Gives (λ _. views rest.new.now) result (close_at (views rest.old.now)) }
    ensures grammar { IfOk result (λ _. views rest.old.now ≡ RightBracket ∷ views rest.new.now) }
    ensures refused { IfErr result (Unless (NotClosed (views rest.old.now))) }
    ensures shorter { IfOk result (λ _. length rest.new.now < length rest.old.now) }
{
    parts::close(rest)
}

/// `)`, where a further part in brackets could stand too. Where an opening bracket stands instead, the word behind it is
/// the one at fault.
pub fn close_behind_parts<'w, 'a>(rest: &mut &'w [Word<'a>]) -> Result<(), ParseFault>
    ensures value { Gives (λ _. views rest.new.now) result (close_at (views rest.old.now)) }
    ensures shorter { IfOk result (λ _. length rest.new.now < length rest.old.now) }
{
    if parts::closes(rest) {
        return Ok(());
    }
    Err(ParseFault::Stuck(parts::left_behind_parts(rest)))
}

/// A law: no words begin with two of one of these parts.
pub fn shared_parts_are_one()
    ensures { SharedAreOne }
{}
