//! A block that was mined, as JSON.

ghost use Rattle.std.specs.Prelude.{◌≡◌, IfOk, map, string_bytes};
ghost use Rattle.serde_json.specs.View.{view};
ghost use Rattle.wblock_json.specs.Json.{array_of, small};
ghost use Rattle.wblock_blocks.specs.Objects.{mined_data, IsMinedLine};

use block::Block;
use call::Call;
use serde_json::{Value as Json, json};
use std::alloc::{AllocError, Global};
use wblock_json::{block_value, value_line};

/// The numbers of the calls that are left out.
fn left_of(alloc: Global, left: &[u32]) -> Result<Json, AllocError>
    ensures { IfOk result (λ v. view v ≡ array_of (map small left.now)) }
{
    let mut values = Vec::new(alloc);
    for call in left {
        values.push(Json::from(*call))?;
    }
    Ok(Json::from(values))
}

/// The value of a block, and the calls that it leaves out.
#[tactic(auto, unfolding(crate::specs::Objects::mined_data))]
fn mined_of(alloc: Global, block: Json, left: &[u32]) -> Result<Json, AllocError>
    ensures { IfOk result (λ v. view v ≡ mined_data (view block) left.now) }
{
    let left = left_of(alloc, left)?;
    json!(in alloc; {"block": block, "left": left})
}

/// The line of a block of these calls and of those that it leaves out.
pub(crate) fn mined_line_of(
    alloc: Global,
    block: &Block,
    calls: &[Call],
    left: &[u32],
) -> Result<String, AllocError>
    ensures { IfOk result (λ text. IsMinedLine block.now calls.now left.now (string_bytes text)) }
{
    let shown = block_value(alloc, block, Some(calls))?;
    let value = mined_of(alloc, shown, left)?;
    value_line(alloc, &value)
}
