// The entry of a call, which is entered when the start function has ended.
ghost use Rattle.std.specs.Prelude.{◌≡◌, ◌≤◌, [], length, None, IfOk, IsSome};
ghost use Rattle.interp_state.specs.Views.{opens_of};
ghost use Rattle.interp_state.specs.Callee.{contract_of};
ghost use Rattle.interp_state.specs.Steps.{IsOrderedParts, IsCounted, IsReadyParts};
ghost use Rattle.interp_state.specs.Waiting.{IsEntry, IsPrepared, HasPlace, HasEach, AllCome, HasBeenEntered};

use crate::blocks::settle;
use crate::callee::Callee;
use crate::calls::{fill, new_locals, take_room};
use crate::parts::{Entry, Kind, Parts};
use module_tree::instr::Instr;
use std::alloc::{AllocError, Allocator};
use std::mem;
use wtypes::Value;

/// A function of the module with its arguments, ready to be entered.
#[derive(Drop)]
pub struct Waiting<'a, A: Allocator> {
    /// Its number.
    pub func: u32,
    /// The number of its results.
    pub arity: usize,
    /// Its locals: the arguments, and then zeros.
    pub locals: Vec<Value, A>,
    /// Its body.
    pub body: &'a [Instr<A>],
    /// Room for its frame.
    pub entries: Vec<Entry<'a, A>, A>,
}

/// The function with these arguments. Whatever it needs of memory to be entered is taken here.
pub fn prepare<'a, A: Allocator + Copy>(
    alloc: A,
    lent: &Callee<'a, A>,
    func: u32,
    args: &[Value],
) -> Result<Waiting<'a, A>, AllocError>
    requires entry { IsEntry (contract_of lent.now) func args.now }
    requires defined { length lent.now.hosts.now ≤ func }
    ensures prepared { IfOk result (λ w. IsPrepared (contract_of lent.now) args.now w) }
    ensures place { IfOk result (λ w. HasPlace w) }
    ensures same { IfOk result (λ w. w.func ≡ func) }
{
    let module = lent.module;
    let function = &module.funcs[func as usize - lent.hosts.len()];
    let form = &module.types[function.type_index as usize];
    let locals = new_locals(alloc, args, &function.locals)?;
    Ok(Waiting {
        func,
        arity: form.results.len(),
        locals,
        body: &function.body,
        entries: Vec::with_capacity(alloc, 1)?,
    })
}

/// The same, in the room of parts that are not needed any more: of a list of locals that was left, and of what was open. Their instance stays.
pub fn prepare_in<'a, A: Allocator + Copy>(
    alloc: A,
    lent: &Callee<'a, A>,
    func: u32,
    args: &[Value],
    parts: &mut Parts<'a, A>,
) -> Result<Waiting<'a, A>, AllocError>
    requires entry { IsEntry (contract_of lent.now) func args.now }
    requires defined { length lent.now.hosts.now ≤ func }
    ensures prepared { IfOk result (λ w. IsPrepared (contract_of lent.now) args.now w) }
    ensures place { IfOk result (λ w. HasPlace w) }
    ensures same { IfOk result (λ w. w.func ≡ func) }
    ensures instance { parts.new.instance ≡ parts.old.instance }
{
    let module = lent.module;
    let function = &module.funcs[func as usize - lent.hosts.len()];
    let form = &module.types[function.type_index as usize];
    let count = args.len() + function.locals.len();
    let room = take_room(alloc, &mut parts.spare, count)?;
    let mut entries = mem::replace(&mut parts.entries, Vec::new(alloc));
    entries.clear();
    entries.reserve_exact(1)?;
    Ok(Waiting {
        func,
        arity: form.results.len(),
        locals: fill(room, args, &function.locals),
        body: &function.body,
        entries,
    })
}

/// Leaves blocks, loops and calls as long as they are at their end, and enters the function that waits once nothing
/// is open. Takes no memory.
#[inline(always)]
pub fn settle_all<'a, A: Allocator + Copy>(
    parts: &mut Parts<'a, A>,
    waiting: &mut Option<Waiting<'a, A>>,
)
    requires ordered { IsOrderedParts parts.old }
    requires counted { IsCounted parts.old }
    requires place { HasEach waiting.old }
    ensures comes { AllCome parts.old waiting.old parts.new waiting.new }
    ensures ready { IsReadyParts parts.new }
    ensures last { (parts.new.code.now ≡ []) → waiting.new ≡ None }
    ensures counted { IsCounted parts.new }
    ensures place { HasEach waiting.new }
    ensures instance { parts.new.instance ≡ parts.old.instance }
{
    settle(parts);
    if parts.code.is_empty() && waiting.is_some() {
        enter_last(parts, waiting);
    }
}

// Enters the function that waits, where nothing is open and no code is left, and settles. It is a function of its own so that the turns before pay nothing for it.
#[inline(never)]
fn enter_last<'a, A: Allocator + Copy>(
    parts: &mut Parts<'a, A>,
    waiting: &mut Option<Waiting<'a, A>>,
)
    requires counted { IsCounted parts.old }
    requires at_end { parts.old.code.now ≡ [] }
    requires none_open { opens_of parts.old.entries.items ≡ [] }
    requires place { HasEach waiting.old }
    requires waits { IsSome waiting.old }
    ensures comes { AllCome parts.old waiting.old parts.new waiting.new }
    ensures ready { IsReadyParts parts.new }
    ensures last { waiting.new ≡ None }
    ensures counted { IsCounted parts.new }
    ensures instance { parts.new.instance ≡ parts.old.instance }
{
    match waiting.take() {
        Some(entry) => {
            enter_waiting(parts, entry);
            settle(parts);
        }
        None => unreachable!(),
    }
}

// Enters the function that has waited, where nothing is open.
fn enter_waiting<'a, A: Allocator + Copy>(parts: &mut Parts<'a, A>, waiting: Waiting<'a, A>)
    requires counted { IsCounted parts.old }
    requires at_end { parts.old.code.now ≡ [] }
    requires none_open { opens_of parts.old.entries.items ≡ [] }
    requires place { HasPlace waiting }
    ensures entered { HasBeenEntered parts.old waiting.entry parts.new }
    ensures ordered { IsOrderedParts parts.new }
    ensures counted { IsCounted parts.new }
    ensures instance { parts.new.instance ≡ parts.old.instance }
{
    let Waiting {
        func,
        arity,
        locals,
        body,
        mut entries,
    } = waiting;
    let saved = mem::replace(&mut parts.locals, locals);
    let frame = Entry {
        kind: Kind::Frame(func, saved),
        ordinal: 0,
        arity,
        height: parts.stack.len(),
        from: parts.code,
    };
    entries.push_reserved(frame);
    parts.entries = entries;
    parts.code = body;
    parts.depth += 1;
}
