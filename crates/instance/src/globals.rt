// The globals of an instance.

ghost use Rattle.std.specs.Prelude.{◌≡◌, ◌≤◌, [], length, slice_set, vec_capacity, IfOk};
ghost use Rattle.instance.specs.Globals.{Values, standing, HasRoom};

use std::alloc::{AllocError, Allocator};
use std::marker::Model;
use wtypes::Value;

/// The globals of an instance (Core Specification, 4.2.10 Global Instances), which contracts see as the list of their values. They are lent by the
/// module before the first write, which copies them into room that was taken when the instance was opened. So no write is refused memory.
#[derive(Drop)]
pub struct Globals<'a, A: Allocator> {
    own: Vec<Value, A>,
    lent: &'a [Value],
}

impl<'a, A: Allocator> Model for Globals<'a, A> {
    ghost Value = { Values };

    ghost view = { λ g. standing g.own.items g.lent.now };

    ghost invariant = { λ g. HasRoom g.own g.lent.now };
}

// The values that stand: their own, where there are such, and else those that are lent.
#[inline(always)]
fn values_in<'b, A: Allocator>(own: &'b Vec<Value, A>, lent: &'b [Value]) -> &'b [Value]
    ensures { result.now ≡ standing own.now.items lent.now }
{
    if own.is_empty() {
        return lent;
    }
    own.as_slice()
}

// Copies values into room that is there. It stands by itself, since an instance does it at most once.
#[inline(never)]
fn copy_all<A: Allocator>(own: &mut Vec<Value, A>, lent: &[Value])
    requires none { own.old.items ≡ [] }
    requires room { length lent.now ≤ vec_capacity own.old }
    ensures { own.new.items ≡ lent.now }
{
    for value in lent {
        own.push_reserved(*value);
    }
}

// Makes the values that stand their own.
#[inline(always)]
fn own_all<A: Allocator>(own: &mut Vec<Value, A>, lent: &[Value])
    requires { HasRoom own.old lent.now }
    ensures { own.new.items ≡ standing own.old.items lent.now }
{
    if own.is_empty() {
        copy_all(own, lent);
    }
}

// Puts a value in the place of this number. Where there is none, nothing changes.
#[inline(always)]
fn put_value<A: Allocator>(values: &mut Vec<Value, A>, x: usize, value: Value)
    ensures { values.new.items ≡ slice_set values.old.items x value }
{
    if x < values.len() {
        values[x] = value;
    }
}

impl<'a, A: Allocator> Globals<'a, A> {
    /// Globals of these values, with room for a copy of them, which is not written yet.
    ///
    /// # Errors
    ///
    /// Memory was refused.
    pub fn begin(alloc: A, lent: &'a [Value]) -> Result<Globals<'a, A>, AllocError>
        ensures { IfOk result (λ globals. globals ≡ lent.now) }
    {
        let own = Vec::with_capacity(alloc, lent.len())?;
        Ok(Globals { own, lent })
    }

    /// The values, in the order of their numbers.
    #[inline(always)]
    pub fn as_slice(&self) -> &[Value]
        ensures { result.now ≡ self.now }
    {
        values_in(&self.own, self.lent)
    }

    /// Sets the global of this number, counted from 0. Where there is none, nothing changes.
    #[inline(always)]
    pub fn set(&mut self, x: u32, value: Value)
        ensures { self.new ≡ slice_set self.old x value }
    {
        own_all(&mut self.own, self.lent);
        put_value(&mut self.own, x as usize, value);
    }

    /// The same globals, with memory of their own.
    ///
    /// # Errors
    ///
    /// Memory was refused.
    pub fn copy(&self, alloc: A) -> Result<Globals<'a, A>, AllocError>
        ensures { IfOk result (λ copy. copy ≡ self.now) }
    {
        let mut own = Vec::with_capacity(alloc, self.lent.len())?;
        own.extend_from_slice(&self.own)?;
        Ok(Globals {
            own,
            lent: self.lent,
        })
    }
}
