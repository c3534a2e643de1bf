//! Names of types.

ghost use Rattle.std.specs.Prelude.{◌≡◌};
ghost use Rattle.figures.specs.Names.{type_name as name_in};

use wtypes::ValType;

/// The name of a type of values.
pub fn type_name(value_type: ValType) -> &'static str
    ensures { result.now ≡ name_in value_type }
{
    match value_type {
        ValType::I32 => "i32",
        ValType::I64 => "i64",
    }
}
