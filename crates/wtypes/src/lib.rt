// The plain types of the integer profile of WebAssembly 1.0 with the sign extensions of 2.0, shared by code and definitions.
#![tactic(auto)]

ghost use Rattle.std.specs.Prelude.{◌≡◌};

use std::alloc::{AllocError, AllocFailed, Allocator};
use thiserror::Error;

/// Memory ran out, or a counter is full.
#[derive(Clone, Copy, Debug, PartialEq, Eq, Error)]
#[error("memory was refused")]
pub struct NoMemory;

impl From<AllocError> for NoMemory {
    ghost from_gives = { λ _ e. e ≡ record {} };

    fn from(_refused: AllocError) -> NoMemory {
        NoMemory
    }
}

impl<T: Drop> From<AllocFailed<T>> for NoMemory {
    ghost from_gives = { λ _ e. e ≡ record {} };

    fn from(_refused: AllocFailed<T>) -> NoMemory {
        NoMemory
    }
}

/// A value type (Core Specification, 2.3.1 Value Types; this profile has the integer types alone).
#[derive(Clone, Copy, Debug, PartialEq, Eq)]
pub enum ValType {
    /// 32 bits.
    I32,
    /// 64 bits.
    I64,
}

/// A value (Core Specification, 4.2.1 Values), by its signed reading.
#[derive(Clone, Copy, Debug, PartialEq, Eq)]
pub enum Value {
    /// A number of 32 bits.
    I32(i32),
    /// A number of 64 bits.
    I64(i64),
}

/// The type of a function (Core Specification, 2.3.3 Function Types): what it takes and what it gives, first to last.
#[derive(Drop)]
pub struct FuncType<A: Allocator> {
    /// The types of its arguments.
    pub params: Vec<ValType, A>,
    /// The types of its results. A valid module has at most one.
    pub results: Vec<ValType, A>,
}

/// The size range of a memory, in pages, or of a table, in elements (Core Specification, 2.3.4 Limits).
#[derive(Clone, Copy, Debug, PartialEq, Eq)]
pub struct Limits {
    /// The size at the beginning.
    pub min: u32,
    /// The greatest size, where one is declared.
    pub max: Option<u32>,
}

/// Why a run traps (Core Specification, 4.2.2 Results: `trap`). The numbers are those of receipts.
#[derive(Clone, Copy, Debug, PartialEq, Eq, Error)]
pub enum TrapCode {
    /// The instruction `unreachable` was executed.
    #[error("the instruction `unreachable` was executed")]
    Unreachable = 1,
    /// A division or remainder by zero.
    #[error("a division or remainder by zero")]
    DivideByZero = 2,
    /// A signed quotient that has no signed reading.
    #[error("a signed quotient that has no signed reading")]
    IntegerOverflow = 3,
    /// A load or store past the end of memory.
    #[error("a load or store past the end of memory")]
    MemoryOutOfBounds = 4,
    /// An indirect call past the end of the table.
    #[error("an indirect call past the end of the table")]
    ElementOutOfTable = 5,
    /// An indirect call of an element that holds no function.
    #[error("an indirect call of an element that holds no function")]
    EmptyElement = 6,
    /// An indirect call of a function of another type.
    #[error("an indirect call of a function of another type")]
    TypeMismatch = 7,
    /// A call that would make one frame more than the profile allows.
    #[error("a call that would make one frame too many")]
    CallDepth = 8,
}

/// A function that the host module `boost` gives to contracts. Each but the last two works on the cell that its first argument names.
#[derive(Clone, Copy, Debug, PartialEq, Eq)]
pub enum HostCall {
    /// The number in a map cell, 0 where the cell is absent.
    Get,
    /// Whether a map cell is there.
    Has,
    /// Sets a map cell.
    Put,
    /// Removes a map cell, and tells whether it was there.
    Del,
    /// Adds to a counter, modulo 2^64.
    Add,
    /// The number of a counter, 0 where it is absent.
    Total,
    /// Runs an export of a contract on a fresh instance, and gives a status that tells how that ended.
    Ask,
    /// The value that the last of these returned, 0 where it returned none.
    Answer,
}

/// An operator of one operand (Core Specification, 2.4.1 Numeric Instructions: `iunop`).
#[derive(Clone, Copy, Debug, PartialEq, Eq)]
pub enum UnOp {
    /// Counts the zeros above the highest one.
    Clz(ValType),
    /// Counts the zeros below the lowest one.
    Ctz(ValType),
    /// Counts the ones.
    Popcnt(ValType),
}

/// An operator of two operands (Core Specification, 2.4.1 Numeric Instructions: `ibinop`).
#[derive(Clone, Copy, Debug, PartialEq, Eq)]
pub enum BinOp {
    /// The sum.
    Add(ValType),
    /// The difference.
    Sub(ValType),
    /// The product.
    Mul(ValType),
    /// The signed quotient.
    DivS(ValType),
    /// The unsigned quotient.
    DivU(ValType),
    /// The signed remainder.
    RemS(ValType),
    /// The unsigned remainder.
    RemU(ValType),
    /// Bitwise and.
    And(ValType),
    /// Bitwise or.
    Or(ValType),
    /// Bitwise exclusive or.
    Xor(ValType),
    /// Shift to the left.
    Shl(ValType),
    /// Shift to the right with copies of the sign bit.
    ShrS(ValType),
    /// Shift to the right with zeros.
    ShrU(ValType),
    /// Rotation to the left.
    Rotl(ValType),
    /// Rotation to the right.
    Rotr(ValType),
}

/// A test (Core Specification, 2.4.1 Numeric Instructions: `itestop`).
#[derive(Clone, Copy, Debug, PartialEq, Eq)]
pub enum TestOp {
    /// Whether the operand is zero.
    Eqz(ValType),
}

/// A comparison (Core Specification, 2.4.1 Numeric Instructions: `irelop`).
#[derive(Clone, Copy, Debug, PartialEq, Eq)]
pub enum RelOp {
    /// `eq`.
    Equal(ValType),
    /// `ne`.
    NotEqual(ValType),
    /// `lt_s`.
    LtS(ValType),
    /// `lt_u`.
    LtU(ValType),
    /// `gt_s`.
    GtS(ValType),
    /// `gt_u`.
    GtU(ValType),
    /// `le_s`.
    LeS(ValType),
    /// `le_u`.
    LeU(ValType),
    /// `ge_s`.
    GeS(ValType),
    /// `ge_u`.
    GeU(ValType),
}

/// A conversion (Core Specification, 2.4.1 Numeric Instructions: `cvtop`, between the integer types), or an extension of
/// the sign, which keeps the type (Core Specification 2.0, 2.4.1 Numeric Instructions: `extendN_s`).
#[derive(Clone, Copy, Debug, PartialEq, Eq)]
pub enum CvtOp {
    /// The low 32 bits.
    I32WrapI64,
    /// The signed reading in 64 bits.
    I64ExtendI32S,
    /// The same number in 64 bits.
    I64ExtendI32U,
    /// The signed reading of the low 8 bits.
    I32Extend8S,
    /// The signed reading of the low 16 bits.
    I32Extend16S,
    /// The signed reading of the low 8 bits.
    I64Extend8S,
    /// The signed reading of the low 16 bits.
    I64Extend16S,
    /// The signed reading of the low 32 bits.
    I64Extend32S,
}

/// A load (Core Specification, 2.4.4 Memory Instructions).
#[derive(Clone, Copy, Debug, PartialEq, Eq)]
pub enum LoadOp {
    /// 4 bytes.
    I32Load,
    /// 8 bytes.
    I64Load,
    /// 1 byte, read as a signed number.
    I32Load8S,
    /// 1 byte.
    I32Load8U,
    /// 2 bytes, read as a signed number.
    I32Load16S,
    /// 2 bytes.
    I32Load16U,
    /// 1 byte, read as a signed number.
    I64Load8S,
    /// 1 byte.
    I64Load8U,
    /// 2 bytes, read as a signed number.
    I64Load16S,
    /// 2 bytes.
    I64Load16U,
    /// 4 bytes, read as a signed number.
    I64Load32S,
    /// 4 bytes.
    I64Load32U,
}

/// A store (Core Specification, 2.4.4 Memory Instructions). A narrow store keeps the low bytes.
#[derive(Clone, Copy, Debug, PartialEq, Eq)]
pub enum StoreOp {
    /// 4 bytes.
    I32Store,
    /// 8 bytes.
    I64Store,
    /// The low byte.
    I32Store8,
    /// The low 2 bytes.
    I32Store16,
    /// The low byte.
    I64Store8,
    /// The low 2 bytes.
    I64Store16,
    /// The low 4 bytes.
    I64Store32,
}

/// An instruction that holds no other instruction and no vector (Core Specification, 2.4 Instructions, and 6.5 where
/// they are `plaininstr`). Indices and labels are unsigned.
#[derive(Clone, Copy, Debug, PartialEq, Eq)]
pub enum PlainInstr {
    /// Traps.
    Unreachable,
    /// Does nothing.
    Nop,
    /// Branches to a label, counted from the innermost one, which is 0.
    Br(u32),
    /// Branches where the operand is not 0.
    BrIf(u32),
    /// Returns from the function.
    Return,
    /// Calls the function of this number, imports counted first.
    Call(u32),
    /// Calls an element of the table, by the type of this index.
    CallIndirect(u32),
    /// Drops a value.
    Drop,
    /// Gives the first operand where the third is not 0, else the second.
    Select,
    /// Reads a local.
    LocalGet(u32),
    /// Writes a local.
    LocalSet(u32),
    /// Writes a local and keeps the value.
    LocalTee(u32),
    /// Reads a global.
    GlobalGet(u32),
    /// Writes a global.
    GlobalSet(u32),
    /// Loads: the operator, the alignment's exponent, the offset.
    Load(LoadOp, u32, u32),
    /// Stores: the operator, the alignment's exponent, the offset.
    Store(StoreOp, u32, u32),
    /// The size of memory in pages.
    MemorySize,
    /// Grows memory by so many pages, and gives the old size or -1.
    MemoryGrow,
    /// A constant.
    Const(Value),
    /// An operator of one operand.
    Unary(UnOp),
    /// An operator of two operands.
    Binary(BinOp),
    /// A test.
    Test(TestOp),
    /// A comparison.
    Compare(RelOp),
    /// A conversion.
    Convert(CvtOp),
}
