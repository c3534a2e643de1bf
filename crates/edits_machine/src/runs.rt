//! Runs of machines.

ghost use Rattle.interp.specs.Progress.{NextIs, IsFree, IsProgress};

use interp::machine::Machine;
use interp::turns::Turn;
use std::alloc::Allocator;

/// As [`interp::machine::Machine::next`].
pub fn next<'a, A: Allocator + Copy>(machine: &mut Machine<'a, A>) -> Turn
    requires { IsFree machine.old.status }
    ensures turn { NextIs machine.old result machine.new }
    ensures on_run { IsProgress machine.new }
{
    machine.next()
}
