//! Texts of modules in the text format of WebAssembly as trees of fields, which keep names and integers as they are
//! written (Core Specification, 6.6 Modules).
#![tactic(auto)]

mod field;
mod fields;
mod parts;
mod text;

pub use field::{
    BoundedField, Bounds, DataField, Desc, ElemField, ExportField, Field, FuncField, GlobalField,
    ImportField, Kind, Text, TypeField,
};
pub use text::{no_words_are_two_texts, parse};
