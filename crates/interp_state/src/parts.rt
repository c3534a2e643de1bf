// The parts of a machine: the code that is left, what is open round it, the values and the locals.

use instance::Instance;
use module_tree::instr::Instr;
use std::alloc::Allocator;
use wtypes::Value;

/// What is open.
#[derive(Drop)]
pub enum Kind<A: Allocator> {
    /// A block, behind which the code goes on.
    Block,
    /// A loop, which a branch repeats.
    Loop,
    /// A call of the function of this number, with the locals of the caller.
    Frame(u32, Vec<Value, A>),
}

/// A block, a loop or a call that is open.
#[derive(Drop)]
pub struct Entry<'a, A: Allocator> {
    /// Which of these it is.
    pub kind: Kind<A>,
    /// The ordinal of the block or the loop, 0 for a call.
    pub ordinal: u32,
    /// The number of values that a branch to it keeps.
    pub arity: usize,
    /// The number of values below it.
    pub height: usize,
    /// Of a loop: the code from the loop on. Else: the code behind it.
    pub from: &'a [Instr<A>],
}

/// The parts.
#[derive(Drop)]
pub struct Parts<'a, A: Allocator + Copy> {
    /// The code to come in the innermost of the open ones.
    pub code: &'a [Instr<A>],
    /// What is open, the innermost last.
    pub entries: Vec<Entry<'a, A>, A>,
    /// The number of frames among these.
    pub depth: usize,
    /// The values, the topmost last.
    pub stack: Vec<Value, A>,
    /// The locals of the innermost frame.
    pub locals: Vec<Value, A>,
    /// The instance.
    pub instance: Instance<'a, A>,
    /// Lists of calls that were left, whose room serves the locals of calls to come. What they hold says nothing.
    pub spare: Vec<Vec<Value, A>, A>,
}
