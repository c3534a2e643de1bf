// What a checked body has left so far.

ghost use Rattle.std.specs.Prelude.{◌≡◌, ◌∷◌, ◌++◌, [], reverse, map, Some, OnOk, IfErr, option_map, MatchOption};
ghost use Rattle.spec_typing.specs.Typing.{of};
ghost use Rattle.spec_typing.specs.Principal.{Stack, Operand, empty, anything, may_be, guard, pop, pop_type, arrow, ends};

use spec_modules::same_type;
use std::alloc::{AllocError, Allocator};
use std::marker::Model;
use wtypes::ValType;

/// The operands that are known, the top last, and whether any others may stand below them.
#[derive(Drop)]
pub struct Operands<W: Allocator> {
    any_below: bool,
    known: Vec<Option<ValType>, W>,
}

impl<W: Allocator> Model for Operands<W> {
    ghost use Rattle.std.specs.Prelude.{reverse};
    ghost use Rattle.spec_typing.specs.Principal.{Stack};

    ghost Value = { Stack };

    ghost view = { λ s. record { any_below = s.any_below; top = reverse s.known.items } };
}

impl<W: Allocator> Operands<W> {
    pub(crate) fn new(alloc: W) -> Operands<W>
        ensures { result ≡ empty }
    {
        Operands {
            any_below: false,
            known: Vec::new(alloc),
        }
    }

    /// The operands that are known, the top last, each by its type where that is known.
    pub fn known(&self) -> &[Option<ValType>]
        ensures { reverse result.now ≡ self.now.top }
    {
        &self.known
    }

    /// Whether any others may stand below those that are known.
    pub fn any_below(&self) -> bool
        ensures { result ≡ self.now.any_below }
    {
        self.any_below
    }

    /// Puts an operand on top.
    pub(crate) fn push(&mut self, operand: Option<ValType>) -> Result<(), AllocError>
        ensures { OnOk result (self.new ≡ record { any_below = self.old.any_below; top = operand ∷ self.old.top }) }
    {
        self.known.push(operand)?;
        Ok(())
    }

    /// Takes the top one off, if there may be one.
    pub(crate) fn pop(&mut self) -> Option<Option<ValType>>
        ensures popped { pop self.old.any_below self.old.top ≡ option_map (λ o. (o, self.new.top)) result }
        ensures below { self.new.any_below ≡ self.old.any_below }
    {
        match self.known.pop() {
            Some(operand) => Some(operand),
            None => { if self.any_below { Some(None) } else { None } }
        }
    }

    /// Takes one of this type off the top, or answers false.
    pub(crate) fn pop_type(&mut self, wanted: ValType) -> bool
        ensures popped { guard result self.new.top ≡ pop_type wanted self.old.any_below self.old.top }
        ensures below { self.new.any_below ≡ self.old.any_below }
    {
        match self.pop() {
            None => false,
            Some(None) => true,
            Some(Some(found)) => same_type(wanted, found),
        }
    }

    /// Takes operands of these types off, the last on top, or answers false. Once none is known there are all or none,
    /// so that the time is that of the operands that were put there.
    pub(crate) fn take(&mut self, types: &[ValType]) -> bool
        ensures taken { guard result self.new ≡ arrow (reverse types.now) [] self.old }
    {
        let mut left = types.len();
        while left > 0 {
            if self.known.is_empty() {
                return self.any_below;
            }
            left -= 1;
            if !self.pop_type(types[left]) {
                return false;
            }
        }
        true
    }

    /// Puts results of these types there, the last on top.
    pub(crate) fn put(&mut self, types: &[ValType]) -> Result<(), AllocError>
        ensures { OnOk result (Some self.new ≡ arrow [] (reverse types.now) self.old) }
    {
        for t in types {
            self.push(Some(*t))?;
        }
        Ok(())
    }

    /// After an instruction that does not go on.
    pub(crate) fn forget(&mut self)
        ensures { self.new ≡ anything }
    {
        self.known.clear();
        self.any_below = true;
    }

    /// Takes a block's result off, or answers false.
    pub(crate) fn take_result(&mut self, block: Option<ValType>) -> bool
        ensures taken { guard result self.new ≡ arrow (of block) [] self.old }
    {
        match block {
            Some(t) => self.pop_type(t),
            None => true,
        }
    }

    /// Puts a block's result there.
    pub(crate) fn put_result(&mut self, block: Option<ValType>) -> Result<(), AllocError>
        ensures { OnOk result (Some self.new ≡ arrow [] (of block) self.old) }
    {
        if let Some(t) = block {
            self.push(Some(t))?;
        }
        Ok(())
    }

    /// Whether just the result is left, or may be.
    pub fn is_result(self, block: Option<ValType>) -> bool
        ensures { result ≡ ends block (Some self) }
    {
        let mut left = self;
        if let Some(t) = block {
            if !left.pop_type(t) {
                return false;
            }
        }
        left.known.is_empty()
    }
}
