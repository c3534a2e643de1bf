// The code section.
ghost use Rattle.std.specs.Prelude.{◌≡◌, ℕ, ◌+◌, ◌<◌, ◌≤◌, ◌^◌, List, ◌++◌, [], map, replicate, true, length, IfOk, OnOk};
ghost use Rattle.std.specs.List.{list_all};
ghost use Rattle.wtypes.specs.declared.ValType.{ValType};
ghost use Rattle.spec_modules.specs.Syntax.{Instrs, Func};
ghost use Rattle.spec_modules.specs.Profile.{local_limit};
ghost use Rattle.spec_modules.specs.Limits.{counts_from};
ghost use Rattle.expr_reader.specs.Outcome.{Gives};
ghost use Rattle.laws_modules.specs.ReadingModules.{both_at, runs_at, locals_at, init_at, codes_at, entries_at, slot_at};
ghost use Rattle.module_tree.specs.View.{instrs_view, ordinals};
ghost use Rattle.module_tree.specs.ModuleView.{func_view, func_ordinals};

use crate::sections::{inside_of, slot_of};
use crate::values::{u32_of, value_type_of};
use crate::vectors::Reader;
use expr_reader::{DecodeFault, expression_of};
use module_tree::instr::Instr;
use module_tree::limit::{LOCAL_LIMIT, Limit};
use module_tree::module::Func;
use std::alloc::{AllocError, Allocator};
use wtypes::ValType;

// So many more locals of one type.
fn put_run<A: Allocator>(
    locals: &mut Vec<ValType, A>,
    count: u32,
    value_type: ValType,
) -> Result<(), AllocError>
    requires { length locals.old.items + count < 2 ^ 32 }
    ensures { OnOk result (locals.new.items ≡ locals.old.items ++ replicate count value_type) }
{
    let len = locals.len() + count as usize;
    locals.resize(len, value_type)
}

// So many runs of locals.
fn runs_of<'b, A: Allocator + Clone>(
    alloc: &A,
    runs: u32,
    bytes: &'b [u8],
) -> Result<(Vec<ValType, A>, &'b [u8]), DecodeFault>
    ensures value { Gives (λ x. (x.0.items, x.1.now)) result (runs_at local_limit runs bytes.now) }
    ensures shorter { IfOk result (λ x. length x.1.now ≤ length bytes.now) }
{
    let mut locals = Vec::new(alloc.clone()?);
    let mut rest = bytes;
    let mut room = LOCAL_LIMIT as u32;
    for _i in 0..runs {
        let (count, after) = u32_of(rest)?;
        if count > room {
            return Err(DecodeFault::TooLarge(Limit::Locals));
        }
        let (value_type, following) = value_type_of(after)?;
        put_run(&mut locals, count, value_type)?;
        room -= count;
        rest = following;
    }
    Ok((locals, rest))
}

#[tactic(auto, unfolding(laws_modules::specs::ReadingModules::locals_at))]
fn locals_of<'b, A: Allocator + Clone>(
    alloc: &A,
    bytes: &'b [u8],
) -> Result<(Vec<ValType, A>, &'b [u8]), DecodeFault>
    ensures value { Gives (λ x. (x.0.items, x.1.now)) result (locals_at bytes.now) }
    ensures shorter { IfOk result (λ x. length x.1.now ≤ length bytes.now) }
{
    let (runs, rest) = u32_of(bytes)?;
    runs_of(alloc, runs, rest)
}

// The locals and the body of a function.
pub struct Codes;

impl<A: Allocator + Clone> Reader<A> for Codes {
    type Item = (Vec<ValType, A>, Vec<Instr<A>, A>);

    ghost Seen = { List ValType × Instrs };

    ghost view = { λ c. (c.0.items, instrs_view c.1.items) };

    ghost reading = { λ _. both_at locals_at init_at };

    ghost is_numbered = { λ c. counts_from 0 (ordinals c.1.items) };

    fn read<'b>(
        &self,
        alloc: &A,
        bytes: &'b [u8],
    ) -> Result<((Vec<ValType, A>, Vec<Instr<A>, A>), &'b [u8]), DecodeFault> {
        let (locals, rest) = locals_of(alloc, bytes)?;
        let (body, rest) = expression_of(alloc, rest)?;
        Ok(((locals, body), rest))
    }
}

// An entry for each of these type indices.
fn codes_of<'b, A: Allocator + Clone>(
    alloc: &A,
    indices: &[u32],
    bytes: &'b [u8],
) -> Result<(Vec<Func<A>, A>, &'b [u8]), DecodeFault>
    requires small { length bytes.now < 2 ^ 32 }
    ensures value { Gives (λ x. (map func_view x.0.items, x.1.now)) result (codes_at indices.now bytes.now) }
    ensures shorter { IfOk result (λ x. length x.1.now ≤ length bytes.now) }
    ensures numbered { IfOk result (λ x. list_all (λ f. counts_from 0 (func_ordinals f)) x.0.items ≡ true) }
{
    let mut funcs = Vec::new(alloc.clone()?);
    let mut rest = bytes;
    for index in indices {
        let (code, after) = inside_of(alloc, &Codes, rest)?;
        let (locals, body) = code;
        let func = Func {
            type_index: *index,
            locals,
            body,
        };
        funcs.push(func)?;
        rest = after;
    }
    Ok((funcs, rest))
}

// As many entries as there are type indices.
#[derive(Drop)]
struct Entries<'i> {
    indices: &'i [u32],
}

impl<A: Allocator + Clone> Reader<A> for Entries<'_> {
    type Item = Vec<Func<A>, A>;

    ghost Seen = { List Func };

    ghost view = { λ v. map func_view v.items };

    ghost reading = { λ e. entries_at e.indices.now };

    ghost is_numbered = { λ v. list_all (λ f. counts_from 0 (func_ordinals f)) v.items };

    #[tactic(auto, unfolding(laws_modules::specs::ReadingModules::entries_at))]
    fn read<'b>(
        &self,
        alloc: &A,
        bytes: &'b [u8],
    ) -> Result<(Vec<Func<A>, A>, &'b [u8]), DecodeFault> {
        let (count, rest) = u32_of(bytes)?;
        if count as usize != self.indices.len() {
            return Err(DecodeFault::Malformed(bytes.len()));
        }
        codes_of(alloc, self.indices, rest)
    }
}

// The functions of the code section, if it is the next, and the custom sections behind it; else none.
pub fn funcs_of<'b, A: Allocator + Clone>(
    alloc: &A,
    indices: &[u32],
    bytes: &'b [u8],
) -> Result<(Vec<Func<A>, A>, &'b [u8]), DecodeFault>
    requires small { length bytes.now < 2 ^ 32 }
    ensures value { Gives (λ x. (map func_view x.0.items, x.1.now)) result (slot_at 10 (entries_at indices.now) [] bytes.now) }
    ensures shorter { IfOk result (λ x. length x.1.now ≤ length bytes.now) }
    ensures numbered { IfOk result (λ x. list_all (λ f. counts_from 0 (func_ordinals f)) x.0.items ≡ true) }
{
    let none = Vec::new(alloc.clone()?);
    slot_of(alloc, &Entries { indices }, 10, none, bytes)
}
