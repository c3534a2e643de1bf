// Places of instructions.

/// The place of an instruction.
#[derive(Clone, Copy, Debug, PartialEq, Eq)]
pub struct Place {
    /// The number of the contract.
    pub contract: u32,
    /// The number of the function, imports counted first.
    pub func: u32,
    /// The ordinal of the instruction in the body, from 0.
    pub ordinal: u32,
}
