//! What the program tells as JSON, so that another program reads it: a module, a world or a block by `show`, and a refusal. Each is one object, whose text
//! is proved to be that of a value which short definitions give; commands make their own objects with the same functions.
#![tactic(auto)]

mod blocks;
mod defined;
mod interface;
mod modules;
mod refusals;
mod types;
mod values;
mod worlds;

pub use blocks::{block_json, block_value, values_of, with_receipt};
pub use modules::module_json;
pub use refusals::json_refusal;
pub use types::maybe_number;
pub use values::{digest_of, hex_of, large_of, line_of, value_line, with_member};
pub use worlds::{cell_number_of, world_json};
