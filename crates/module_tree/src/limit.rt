// The limits of the profile on modules.
ghost use Rattle.std.specs.Prelude.{◌≡◌, ◌≤◌};
ghost use Rattle.spec_modules.specs.Profile.{byte_limit, function_limit, local_limit, nesting_limit, label_limit};
ghost use Rattle.module_tree.specs.LimitNumbers.{number_of};

use std::fmt;

/// The most bytes of a module, of its text, and of its shortest spelling.
pub const BYTE_LIMIT: usize = 1_048_576;

/// The most functions that a module defines.
pub const FUNCTION_LIMIT: usize = 4_096;

/// The most locals that a function declares, its parameters aside.
pub const LOCAL_LIMIT: usize = 1_024;

/// The most blocks that stand in one another, a body or another expression being level 0.
pub const NESTING_LIMIT: usize = 128;

/// The most labels of a `br_table`, the default aside.
pub const LABEL_LIMIT: usize = 1_024;

/// A law: these numbers are those of the definitions.
pub fn limits_are_the_profiles()
    ensures bytes { BYTE_LIMIT ≡ byte_limit }
    ensures functions { FUNCTION_LIMIT ≡ function_limit }
    ensures locals { LOCAL_LIMIT ≡ local_limit }
    ensures nesting { NESTING_LIMIT ≡ nesting_limit }
    ensures labels { LABEL_LIMIT ≡ label_limit }
{}

/// A limit of this profile that a module may pass.
#[derive(Clone, Copy, Debug, PartialEq, Eq)]
pub enum Limit {
    /// 1,048,576 bytes of a module given, of its text, and of its shortest spelling.
    Bytes,
    /// 4,096 defined functions.
    Functions,
    /// 1,024 declared locals a function, the parameters aside.
    Locals,
    /// 128 nested blocks, a body or another expression being level 0.
    Nesting,
    /// 1,024 labels of a `br_table`, the default aside.
    Labels,
}

impl Limit {
    /// The limit's number, from 1 to 5.
    pub fn number(self) -> u8
        ensures value { result ≡ number_of self }
        ensures range { (1 ≤ result) × (result ≤ 5) }
    {
        match self {
            Limit::Bytes => 1,
            Limit::Functions => 2,
            Limit::Locals => 3,
            Limit::Nesting => 4,
            Limit::Labels => 5,
        }
    }
}

impl fmt::Display for Limit {
    fn fmt<W: fmt::Write>(&self, f: &mut fmt::Formatter<W>) -> fmt::Result {
        match self {
            Limit::Bytes => write!(f, "1048576 bytes"),
            Limit::Functions => write!(f, "4096 defined functions"),
            Limit::Locals => write!(f, "1024 locals of a function"),
            Limit::Nesting => write!(f, "128 nested blocks"),
            Limit::Labels => write!(f, "1024 labels of a br_table"),
        }
    }
}
