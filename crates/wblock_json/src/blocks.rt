//! A block as JSON, with its figures.

ghost use Rattle.std.specs.Prelude.{◌≡◌, ◌≤◌, ◌<◌, ◌^◌, IfOk, length, map, slice_get, string_bytes};
ghost use Rattle.serde_json.specs.View.{members_view, view};
ghost use Rattle.figures.specs.Figures.{AreFigures};
ghost use Rattle.wblock_json.specs.Json.{array_of, maybe, numbered, with_members};
ghost use Rattle.wblock_json.specs.Blocks.{block_data, call_data, called_data, calls_of, chain_data, code_data, count_data, entry_data, figures_data, kind_of as kind_in, longest_data, outcome_word, position_data, ratio_data, receipt_members, returned_data, shared_data, speed_up_data, typed_data, value_data, wave_data, waves_data, IsBlockData, IsBlockJson};

use crate::values::{digest_of, large_of, null, text_of, with_member, word_of};
use block::{Block, Position, number_of_version};
use call::Call;
use figures::{
    Chains, Figures, OutcomeCount, OutcomeKind, SharedLock, figures_of, hundredth_of, word_of_kind,
    word_of_mode,
};
use serde_json::{Map, Value as Json, json};
use spec_ledger::{Entry, Outcome, Receipt};
use std::alloc::{AllocError, Global};
use wtypes::{NoMemory, Value};

// ---- calls

#[tactic(auto, unfolding(crate::specs::Blocks::typed_data))]
fn typed_of(alloc: Global, word: &str, digits: String) -> Result<Json, AllocError>
    ensures { IfOk result (λ v. view v ≡ typed_data word.now (string_bytes digits)) }
{
    json!(in alloc; {"type": word, "value": digits})
}

/// A value with its type.
fn value_of(alloc: Global, value: Value) -> Result<Json, AllocError>
    ensures { IfOk result (λ v. view v ≡ value_data value) }
{
    match value {
        Value::I32(number) => typed_of(alloc, "i32", number.to_string(alloc)?),
        Value::I64(number) => typed_of(alloc, "i64", number.to_string(alloc)?),
    }
}

/// Values with their types.
pub fn values_of(alloc: Global, list: &[Value]) -> Result<Json, AllocError>
    ensures { IfOk result (λ v. view v ≡ array_of (map value_data list.now)) }
{
    let mut values = Vec::new(alloc);
    for value in list {
        values.push(value_of(alloc, *value)?)?;
    }
    Ok(Json::from(values))
}

#[tactic(auto, unfolding(crate::specs::Blocks::call_data))]
fn call_of(alloc: Global, call: &Call) -> Result<Json, AllocError>
    ensures { IfOk result (λ v. view v ≡ call_data call.now) }
{
    let contract = call.contract();
    let entry = call.entry();
    let args = values_of(alloc, call.args())?;
    json!(in alloc; {"contract": contract, "entry": entry, "args": args})
}

/// The call of a number, if there is one.
fn listed_of(alloc: Global, calls: &[Call], number: u32) -> Result<Json, AllocError>
    ensures { IfOk result (λ v. view v ≡ maybe call_data (slice_get calls.now number)) }
{
    match calls.get(number as usize) {
        None => Ok(null()),
        Some(call) => call_of(alloc, call),
    }
}

/// The same, where the calls are known.
fn called_of(alloc: Global, calls: Option<&[Call]>, number: u32) -> Result<Json, AllocError>
    ensures { IfOk result (λ v. view v ≡ called_data (calls_of calls.entry) number) }
{
    match calls {
        None => Ok(null()),
        Some(calls) => listed_of(alloc, calls, number),
    }
}

// ---- outcomes

/// An outcome without the value that was returned.
fn kind_of(outcome: Outcome) -> OutcomeKind
    ensures { result ≡ kind_in outcome }
{
    match outcome {
        Outcome::Returned(_) => OutcomeKind::Returned,
        Outcome::Trapped(trap) => OutcomeKind::Trapped(trap),
        Outcome::OutOfFuel => OutcomeKind::OutOfFuel,
        Outcome::Rejected(code) => OutcomeKind::Rejected(code),
    }
}

fn word_of_outcome(kind: OutcomeKind) -> &'static str
    ensures { result.now ≡ outcome_word kind }
{
    match kind {
        OutcomeKind::Returned => "returned",
        OutcomeKind::Trapped(_) => "trapped",
        OutcomeKind::OutOfFuel => "out-of-fuel",
        OutcomeKind::Rejected(_) => "rejected",
    }
}

/// The number of the trap, or of the reason of a rejection.
fn code_of(kind: OutcomeKind) -> Json
    ensures { view result ≡ code_data kind }
{
    match kind {
        OutcomeKind::Returned | OutcomeKind::OutOfFuel => Json::Null,
        OutcomeKind::Trapped(trap) => Json::from(trap as u8),
        OutcomeKind::Rejected(code) => Json::from(code),
    }
}

/// The value that was returned, if one was.
fn returned_of(alloc: Global, outcome: Outcome) -> Result<Json, AllocError>
    ensures { IfOk result (λ v. view v ≡ returned_data outcome) }
{
    match outcome {
        Outcome::Returned(Some(value)) => value_of(alloc, value),
        _ => Ok(Json::Null),
    }
}

/// Puts what is told of a receipt among the members of an object: the outcome, the number of the trap or of the rejection, the value that was returned,
/// the fuel that was used, and how many levels were entered.
pub fn with_receipt(
    alloc: Global,
    members: Map<String, Json>,
    receipt: Receipt,
) -> Result<Map<String, Json>, AllocError>
    ensures { IfOk result (λ m. members_view m.entries ≡ with_members (receipt_members receipt) (members_view members.entries)) }
{
    let kind = kind_of(receipt.outcome);
    let outcome = word_of_outcome(kind);
    let members = with_member(alloc, members, "outcome", word_of(alloc, outcome)?)?;
    let members = with_member(alloc, members, "code", code_of(kind))?;
    let value = returned_of(alloc, receipt.outcome)?;
    let members = with_member(alloc, members, "value", value)?;
    let fuel = large_of(alloc, receipt.used as u128)?;
    let members = with_member(alloc, members, "fuel", fuel)?;
    with_member(alloc, members, "asks", Json::from(receipt.asks))
}

// ---- locks

/// A lock of a position, with its mode and its turn.
#[tactic(auto, unfolding(crate::specs::Blocks::entry_data))]
fn entry_of(alloc: Global, entry: Entry) -> Result<Json, AllocError>
    ensures { IfOk result (λ v. view v ≡ entry_data entry) }
{
    let kind = word_of_kind(entry.lock.kind);
    let key = large_of(alloc, entry.lock.key as u128)?;
    let mode = word_of_mode(entry.mode);
    json!(in alloc; {
        "kind": kind,
        "contract": entry.lock.contract,
        "key": key,
        "mode": mode,
        "turn": entry.turn,
    })
}

fn locks_of(alloc: Global, entries: &[Entry]) -> Result<Json, AllocError>
    ensures { IfOk result (λ v. view v ≡ array_of (map entry_data entries.now)) }
{
    let mut locks = Vec::new(alloc);
    for entry in entries {
        locks.push(entry_of(alloc, *entry)?)?;
    }
    Ok(Json::from(locks))
}

// ---- positions

fn wave_of(chains: &Option<Chains>, position: u32) -> Json
    ensures { view result ≡ wave_data chains.now position }
{
    let Some(chains) = chains else {
        return Json::Null;
    };
    match chains.waves.get(position as usize) {
        None => Json::from(0u32),
        Some(wave) => Json::from(*wave),
    }
}

#[tactic(auto, unfolding(crate::specs::Blocks::position_data))]
fn position_of(
    alloc: Global,
    calls: Option<&[Call]>,
    chains: &Option<Chains>,
    number: u32,
    position: &Position,
) -> Result<Json, AllocError>
    ensures { IfOk result (λ v. view v ≡ position_data (calls_of calls.entry) chains.now number position.now) }
{
    let call = position.call();
    let members = Map::new(alloc);
    let members = with_member(alloc, members, "position", Json::from(number))?;
    let members = with_member(alloc, members, "call", Json::from(call))?;
    let members = with_member(alloc, members, "called", called_of(alloc, calls, call)?)?;
    let members = with_member(alloc, members, "wave", wave_of(chains, number))?;
    let locks = locks_of(alloc, position.profile().entries())?;
    let members = with_member(alloc, members, "locks", locks)?;
    let members = with_receipt(alloc, members, position.receipt())?;
    Ok(Json::from(members))
}

fn positions_of(
    alloc: Global,
    calls: Option<&[Call]>,
    chains: &Option<Chains>,
    positions: &[Position],
) -> Result<Json, AllocError>
    requires { length positions.now ≤ 65535 }
    ensures { IfOk result (λ v. view v ≡ array_of (numbered (position_data (calls_of calls.entry) chains.now) 0 positions.now)) }
{
    let mut values = Vec::new(alloc);
    let mut number: u32 = 0;
    for position in positions {
        values.push(position_of(alloc, calls, chains, number, position)?)?;
        number += 1;
    }
    Ok(Json::from(values))
}

// ---- figures

fn waves_of(chains: &Option<Chains>) -> Json
    ensures { view result ≡ waves_data chains.now }
{
    match chains {
        None => Json::Null,
        Some(chains) => Json::from(chains.wave_count),
    }
}

#[tactic(auto, unfolding(crate::specs::Blocks::longest_data))]
fn longest_of(alloc: Global, chains: &Chains) -> Result<Json, AllocError>
    ensures { IfOk result (λ v. view v ≡ longest_data chains.now) }
{
    let fuel = large_of(alloc, chains.chain_fuel)?;
    json!(in alloc; {"positions": chains.wave_count, "fuel": fuel})
}

/// The longest chains, by positions and by fuel.
fn chain_of(alloc: Global, chains: &Option<Chains>) -> Result<Json, AllocError>
    ensures { IfOk result (λ v. view v ≡ chain_data chains.now) }
{
    match chains {
        None => Ok(Json::Null),
        Some(chains) => longest_of(alloc, chains),
    }
}

/// One number by another, with two decimals.
fn ratio_of(alloc: Global, total: u128, part: u128) -> Result<Json, AllocError>
    requires { total < 2 ^ 80 }
    ensures { IfOk result (λ v. view v ≡ ratio_data total part) }
{
    if part == 0 {
        return Ok(Json::Null);
    }
    let text = hundredth_of(alloc, 100 * total / part)?;
    Ok(Json::from(text))
}

/// How much faster than one worker any number of them can be, by fuel.
fn speed_up_of(alloc: Global, chains: &Option<Chains>, total: u128) -> Result<Json, AllocError>
    requires { total < 2 ^ 80 }
    ensures { IfOk result (λ v. view v ≡ speed_up_data chains.now total) }
{
    match chains {
        None => Ok(Json::Null),
        Some(chains) => ratio_of(alloc, total, chains.chain_fuel),
    }
}

#[tactic(auto, unfolding(crate::specs::Blocks::shared_data))]
fn shared_of(alloc: Global, shared: SharedLock) -> Result<Json, AllocError>
    ensures { IfOk result (λ v. view v ≡ shared_data shared) }
{
    let kind = word_of_kind(shared.lock.kind);
    let key = large_of(alloc, shared.lock.key as u128)?;
    json!(in alloc; {
        "kind": kind,
        "contract": shared.lock.contract,
        "key": key,
        "positions": shared.positions,
    })
}

fn hottest_of(alloc: Global, hottest: &[SharedLock]) -> Result<Json, AllocError>
    ensures { IfOk result (λ v. view v ≡ array_of (map shared_data hottest.now)) }
{
    let mut values = Vec::new(alloc);
    for shared in hottest {
        values.push(shared_of(alloc, *shared)?)?;
    }
    Ok(Json::from(values))
}

#[tactic(auto, unfolding(crate::specs::Blocks::count_data))]
fn count_of(alloc: Global, count: OutcomeCount) -> Result<Json, AllocError>
    ensures { IfOk result (λ v. view v ≡ count_data count) }
{
    let outcome = word_of_outcome(count.kind);
    let code = code_of(count.kind);
    json!(in alloc; {"outcome": outcome, "code": code, "positions": count.positions})
}

fn outcomes_of(alloc: Global, outcomes: &[OutcomeCount]) -> Result<Json, AllocError>
    ensures { IfOk result (λ v. view v ≡ array_of (map count_data outcomes.now)) }
{
    let mut values = Vec::new(alloc);
    for count in outcomes {
        values.push(count_of(alloc, *count)?)?;
    }
    Ok(Json::from(values))
}

#[tactic(auto, unfolding(crate::specs::Blocks::figures_data))]
fn figures_data_of(alloc: Global, figures: &Figures) -> Result<Json, AllocError>
    requires { figures.now.total_fuel < 2 ^ 80 }
    ensures { IfOk result (λ v. view v ≡ figures_data figures.now) }
{
    let total = figures.total_fuel;
    let chains = &figures.chains;
    let members = Map::new(alloc);
    let members = with_member(alloc, members, "total_fuel", large_of(alloc, total)?)?;
    let members = with_member(alloc, members, "waves", waves_of(chains))?;
    let members = with_member(alloc, members, "chain", chain_of(alloc, chains)?)?;
    let speed_up = speed_up_of(alloc, chains, total)?;
    let members = with_member(alloc, members, "speed_up", speed_up)?;
    let shared = hottest_of(alloc, &figures.hottest)?;
    let members = with_member(alloc, members, "shared", shared)?;
    let outcomes = outcomes_of(alloc, &figures.outcomes)?;
    let members = with_member(alloc, members, "outcomes", outcomes)?;
    Ok(Json::from(members))
}

// ---- blocks

#[tactic(auto, unfolding(crate::specs::Blocks::block_data))]
fn block_of(
    alloc: Global,
    block: &Block,
    calls: Option<&[Call]>,
    figures: &Figures,
) -> Result<Json, AllocError>
    requires { figures.now.total_fuel < 2 ^ 80 }
    ensures { IfOk result (λ v. view v ≡ block_data block.now (calls_of calls.entry) figures.now) }
{
    block.use_invariant();
    let version = number_of_version(block.version());
    let members = Map::new(alloc);
    let members = with_member(alloc, members, "kind", word_of(alloc, "block")?)?;
    let members = with_member(alloc, members, "version", Json::from(version))?;
    let members = with_member(alloc, members, "before", digest_of(alloc, block.before())?)?;
    let members = with_member(alloc, members, "calls", digest_of(alloc, block.calls())?)?;
    let members = with_member(alloc, members, "after", digest_of(alloc, block.after())?)?;
    let fuel = large_of(alloc, block.fuel() as u128)?;
    let members = with_member(alloc, members, "fuel", fuel)?;
    let positions = positions_of(alloc, calls, &figures.chains, block.positions())?;
    let members = with_member(alloc, members, "positions", positions)?;
    let members = with_member(alloc, members, "figures", figures_data_of(alloc, figures)?)?;
    Ok(Json::from(members))
}

/// The figures of a block, and a bound on their sum of fuel. Memory that was refused is told as the other functions tell it.
fn bounded_figures(alloc: Global, block: &Block) -> Result<Figures, AllocError>
    ensures figures { IfOk result (AreFigures block.now) }
    ensures small { IfOk result (λ f. f.total_fuel < 2 ^ 80) }
{
    match figures_of(alloc, block) {
        Ok(figures) => Ok(figures),
        Err(NoMemory) => Err(AllocError),
    }
}

/// A block as the value of its JSON: an object with its version, digests and fuel, its positions with their waves and locks, and its figures; with their
/// calls, where these are known.
///
/// # Errors
///
/// Memory was refused.
pub fn block_value(alloc: Global, block: &Block, calls: Option<&[Call]>) -> Result<Json, AllocError>
    ensures { IfOk result (λ v. IsBlockData block.now (calls_of calls.entry) (view v)) }
{
    let figures = bounded_figures(alloc, block)?;
    block_of(alloc, block, calls, &figures)
}

/// The text of [`block_value`]. It has no spaces and no newline.
///
/// # Errors
///
/// Memory was refused.
pub fn block_json(
    alloc: Global,
    block: &Block,
    calls: Option<&[Call]>,
) -> Result<String, AllocError>
    ensures { IfOk result (λ text. IsBlockJson block.now (calls_of calls.entry) (string_bytes text)) }
{
    let value = block_value(alloc, block, calls)?;
    text_of(alloc, &value)
}
