// The contract that is called.

use module_tree::module::Module;
use spec_ledger::Version;
use std::alloc::Allocator;
use wtypes::HostCall;

/// The contract that is called: its number, its module, the host calls that its imports are, and the version whose rules it runs by.
#[derive(Drop)]
pub struct Callee<'a, A: Allocator> {
    /// Its number.
    pub number: u32,
    /// Its module.
    pub module: &'a Module<A>,
    /// The host calls of its imports.
    pub hosts: &'a [HostCall],
    /// The version of the block that it is called in.
    pub version: Version,
}
