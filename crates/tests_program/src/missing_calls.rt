//! A block as JSON where not all of its calls are there. No line of words shows it: a block that names calls is shown with these alone.

use crate::assertions::equal;
use crate::blocks::FOUR;
use block::read_block;
use std::alloc::Global;
use wblock_calls::read_calls;
use wblock_json::block_json;

/// The first call of `FOUR` alone.
const FIRST_CALL: &str = "0 100 bump i64:7 i64:5\n";

/// The text of `FOUR` with it: what Python's `json` makes of the lines that `show` prints, its members sorted.
const FOUR_FIRST: &str = "\
    {\"after\":\"0303030303030303030303030303030303030303030303030303030303030303\",\
    \"before\":\"0101010101010101010101010101010101010101010101010101010101010101\",\
    \"calls\":\"3d08353b121c175cda5f5232ca5368728f16f369341fcd1098e5f60d5c521f51\",\
    \"figures\":{\"chain\":{\"fuel\":\"403\",\"positions\":2},\
    \"outcomes\":[{\"code\":null,\"outcome\":\"returned\",\"positions\":2},{\"code\":1,\"outcome\":\"trapped\",\"positions\":1},{\"code\":6,\"outcome\":\"rejected\",\"positions\":1}],\
    \"shared\":[{\"contract\":0,\"key\":\"7\",\"kind\":\"counter\",\"positions\":3},{\"contract\":0,\"key\":\"7\",\"kind\":\"map\",\"positions\":2}],\
    \"speed_up\":\"1.02\",\"total_fuel\":\"413\",\"waves\":2},\"fuel\":\"413\",\"kind\":\"block\",\
    \"positions\":[\
    {\"asks\":0,\"call\":1,\"called\":null,\"code\":null,\"fuel\":\"3\",\"locks\":[{\"contract\":0,\"key\":\"7\",\"kind\":\"counter\",\"mode\":\"read\",\"turn\":0}],\"outcome\":\"returned\",\"position\":0,\"value\":{\"type\":\"i64\",\"value\":\"-1\"},\"wave\":0},\
    {\"asks\":2,\"call\":3,\"called\":null,\"code\":1,\"fuel\":\"400\",\"locks\":[{\"contract\":0,\"key\":\"7\",\"kind\":\"map\",\"mode\":\"read\",\"turn\":0},{\"contract\":0,\"key\":\"7\",\"kind\":\"counter\",\"mode\":\"add\",\"turn\":1}],\"outcome\":\"trapped\",\"position\":1,\"value\":null,\"wave\":1},\
    {\"asks\":0,\"call\":0,\"called\":{\"args\":[{\"type\":\"i64\",\"value\":\"7\"},{\"type\":\"i64\",\"value\":\"5\"}],\"contract\":0,\"entry\":\"bump\"},\"code\":null,\"fuel\":\"10\",\"locks\":[{\"contract\":0,\"key\":\"7\",\"kind\":\"map\",\"mode\":\"read\",\"turn\":0},{\"contract\":0,\"key\":\"7\",\"kind\":\"counter\",\"mode\":\"add\",\"turn\":1}],\"outcome\":\"returned\",\"position\":2,\"value\":null,\"wave\":1},\
    {\"asks\":0,\"call\":2,\"called\":null,\"code\":6,\"fuel\":\"0\",\"locks\":[],\"outcome\":\"rejected\",\"position\":3,\"value\":null,\"wave\":0}],\"version\":2}";

/// Whether the block is shown so. None where memory is refused, or where the bytes are no block or the text spells no calls.
fn is_shown(alloc: Global) -> Option<bool> {
    let bytes = hex::decode(alloc, FOUR).ok()?;
    let block = read_block(alloc, bytes.as_slice()).ok()?;
    let calls = read_calls(alloc, FIRST_CALL.as_bytes()).ok()?;
    let json = block_json(alloc, &block, Some(calls.as_slice())).ok()?;
    Some(json.as_str() == FOUR_FIRST)
}

#[test]
fn one_of_four_calls_is_there(rt: HostRuntime) {
    equal(
        &rt,
        &"one of four calls",
        &is_shown(rt.alloc()),
        &Some(true),
    );
}
