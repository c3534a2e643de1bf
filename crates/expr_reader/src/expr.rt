// One expression.
ghost use Rattle.std.specs.Prelude.{◌≡◌, ◌+◌, ◌<◌, ◌≤◌, ◌^◌, true, length, slice_range, IfOk, IfErr};
ghost use Rattle.spec_modules.specs.Grammar.{expression};
ghost use Rattle.spec_modules.specs.Spells.{ExpressionFits};
ghost use Rattle.laws_modules.specs.ReadingExpressions.{expression_at};
ghost use Rattle.module_tree.specs.View.{instrs_view, ordinals};
ghost use Rattle.spec_modules.specs.Limits.{counts_from};
ghost use Rattle.module_tree.specs.Numbering.{Numbered};
ghost use Rattle.expr_reader.specs.Outcome.{Gives, Unless, NoExpression};

use crate::LoadRefusal;
use crate::body::body_of;
use crate::unread::DecodeFault;
use module_tree::instr::Instr;
use std::alloc::Allocator;

// The levels of an expression, its own among them.
const LEVELS: u32 = 129;

/// The expression at the front of these bytes, and the bytes after it. Its instructions carry their ordinals. Where it
/// is refused for another cause than memory, none within the limits on nesting and labels is spelled there.
#[tactic(auto, unfolding(laws_modules::specs::ReadingExpressions::expression_at))]
pub fn expression_of<'b, A: Allocator + Clone>(
    alloc: &A,
    bytes: &'b [u8],
) -> Result<(Vec<Instr<A>, A>, &'b [u8]), DecodeFault>
    requires { length bytes.now < 2 ^ 32 }
    ensures value { Gives (λ x. (instrs_view x.0.items, x.1.now)) result (expression_at 129 bytes.now) }
    ensures numbered { IfOk result (λ x. counts_from 0 (ordinals x.0.items) ≡ true) }
    ensures shorter { IfOk result (λ x. length x.1.now < length bytes.now) }
{
    let (body, closing, rest, _next) = body_of(alloc, bytes, LEVELS, 0)?;
    if closing != 0x0B {
        return Err(DecodeFault::Malformed(rest.len() + 1));
    }
    Ok((body, rest))
}

/// The expression that is spelled from `at` in the enclosure that ends at `end`, and the offset after it. Its
/// instructions carry their ordinals. It is refused for another cause than memory only where no expression within
/// the limits on nesting and labels is spelled there; the refusal's number is an offset, or a limit.
pub fn read_expr<A: Allocator + Clone>(
    alloc: A,
    bytes: &[u8],
    at: usize,
    end: usize,
) -> Result<(Vec<Instr<A>, A>, usize), LoadRefusal>
    requires order { at ≤ end }
    requires within { end ≤ length bytes.now }
    requires small { end < 2 ^ 32 }
    ensures place { IfOk result (λ r. (at < r.1) × (r.1 ≤ end)) }
    ensures spelled { IfOk result
        (λ r. expression (instrs_view r.0.items) (slice_range bytes.now at r.1)) }
    ensures fits { IfOk result (λ r. ExpressionFits (instrs_view r.0.items)) }
    ensures numbered { IfOk result (λ r. counts_from 0 (ordinals r.0.items) ≡ true) }
    ensures only { IfErr result (Unless (NoExpression (slice_range bytes.now at end))) }
{
    match expression_of(&alloc, &bytes[at..end]) {
        Ok((body, rest)) => Ok((body, end - rest.len())),
        Err(unread) => Err(unread.ending_at(end)),
    }
}
