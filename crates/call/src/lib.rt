//! A call of a contract, as callers ask for it.
#![tactic(auto)]

ghost use Rattle.std.specs.Prelude.{◌≡◌, ◌≤◌, ◌↔◌, IsSome, IfSome, length, string_bytes, string_len, vec_len};
ghost use Rattle.spec_execution.specs.Run.{ContractCall};

use std::marker::Model;
use wtypes::Value;

/// A call of a contract: the contract's number, the name of the exported function, its arguments and its limit of
/// fuel. The name and the arguments are within the limits.
#[derive(Debug, Drop)]
pub struct Call {
    contract: u32,
    entry: String,
    args: Vec<Value>,
    fuel: u64,
}

impl Model for Call {
    ghost Value = { ContractCall };

    ghost view = { λ c. record { contract = c.contract; entry = string_bytes c.entry; args = c.args.items; fuel = c.fuel } };

    ghost invariant = { λ c. (string_len c.entry ≤ 65535) × (vec_len c.args ≤ 1024) };
}

impl Call {
    /// The most bytes of an entry's name.
    pub const MOST_ENTRY_BYTES: usize = 65_535;

    /// The most arguments.
    pub const MOST_ARGS: usize = 1_024;

    /// A call with these parts. None where the entry's name has more than 65,535 bytes or there are more than 1,024
    /// arguments.
    pub fn new(contract: u32, entry: String, args: Vec<Value>, fuel: u64) -> Option<Call>
        ensures some { IsSome result ↔ ((string_len entry ≤ Self.MOST_ENTRY_BYTES) × (vec_len args ≤ Self.MOST_ARGS)) }
        ensures is { IfSome result (λ c. c ≡ record { contract = contract; entry = string_bytes entry; args = args.items; fuel = fuel }) }
    {
        if entry.len() > Self::MOST_ENTRY_BYTES || args.len() > Self::MOST_ARGS {
            return None;
        }
        Some(Call {
            contract,
            entry,
            args,
            fuel,
        })
    }

    /// The contract's number.
    pub fn contract(&self) -> u32
        ensures { result ≡ self.now.contract }
    {
        self.contract
    }

    /// The name of the exported function.
    pub fn entry(&self) -> &str
        ensures name { result.now ≡ self.now.entry }
        ensures short { length self.now.entry ≤ Self.MOST_ENTRY_BYTES }
    {
        self.entry.as_str()
    }

    /// The arguments, first to last.
    pub fn args(&self) -> &[Value]
        ensures args { result.now ≡ self.now.args }
        ensures few { length self.now.args ≤ Self.MOST_ARGS }
    {
        self.args.as_slice()
    }

    /// The limit of fuel.
    pub fn fuel(&self) -> u64
        ensures { result ≡ self.now.fuel }
    {
        self.fuel
    }
}
