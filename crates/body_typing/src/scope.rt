// What the check of a body is given, and how it refuses.

use crate::rule::Rule;
use crate::spaces::Spaces;
use std::alloc::{AllocError, Allocator};
use std::error::Error;
use std::fmt;
use wtypes::{FuncType, ValType};

/// What one body may name.
#[derive(Drop)]
pub struct Scope<'a, A: Allocator, W: Allocator> {
    /// The module's types.
    pub types: &'a Vec<FuncType<A>, A>,
    /// The module's index spaces.
    pub spaces: &'a Spaces<W>,
    /// The function's type.
    pub own: &'a FuncType<A>,
    /// The types of its locals, the parameters aside.
    pub locals: &'a Vec<ValType, A>,
    /// The function's result.
    pub result: Option<ValType>,
    /// The function's number, imports counted first.
    pub func: u32,
}

impl<'a, A: Allocator, W: Allocator> Scope<'a, A, W> {
    ghost use Rattle.std.specs.Prelude.{◌≡◌, ◌++◌, slice_get};

    /// The type of a local, the parameters counted first.
    pub fn local(&self, local: u32) -> Option<ValType>
        ensures { result ≡ slice_get (self.now.own.now.params.items ++ self.now.locals.now.items) local }
    {
        let place = local as usize;
        match place.checked_sub(self.own.params.len()) {
            None => self.own.params.get(place).copied(),
            Some(behind) => self.locals.get(behind).copied(),
        }
    }
}

/// Why a module is not valid: the first fault that the check meets, or that memory was refused.
///
/// Types, imports, functions' types, tables, memories, globals, element segments, data segments, the start function and
/// exports are judged in this order, each list from its front, then the bodies from the first. In a body the
/// instructions are judged in preorder, the end of a block after its children, and at one instruction the least rule
/// is answered.
#[derive(Drop, Debug)]
pub enum TypeRefusal {
    /// A rule is broken.
    At {
        /// The number of the function, imports counted first, or None outside bodies.
        func: Option<u32>,
        /// The ordinal of the instruction at fault, that of the block at its end, or the one after the last at the end
        /// of the body. Outside bodies the place in the module's own list, and 0 for the start function.
        ordinal: u32,
        /// The rule that is broken.
        rule: Rule,
    },
    /// Memory was refused.
    NoMemory,
}

impl fmt::Display for TypeRefusal {
    fn fmt<W: fmt::Write>(&self, f: &mut fmt::Formatter<W>) -> fmt::Result {
        match self {
            TypeRefusal::At {
                func: None,
                ordinal,
                rule,
            } => write!(f, "rule {}, at {ordinal}: {rule}", rule.number()),
            TypeRefusal::At {
                func: Some(func),
                ordinal,
                rule,
            } => {
                write!(
                    f,
                    "rule {}, at instruction {ordinal} of function {func}: {rule}",
                    rule.number(),
                )
            }
            TypeRefusal::NoMemory => write!(f, "memory was refused"),
        }
    }
}

impl Error for TypeRefusal {}

impl From<AllocError> for TypeRefusal {
    ghost use Rattle.std.specs.Prelude.{◌≡◌};
    ghost use Rattle.body_typing.specs.declared.scope.TypeRefusal.TheVariants.{NoMemory};

    ghost from_gives = { λ _ e. e ≡ NoMemory };

    fn from(_error: AllocError) -> TypeRefusal {
        TypeRefusal::NoMemory
    }
}
