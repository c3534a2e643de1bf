//! The lines of a block that is shown.

ghost use Rattle.std.specs.Prelude.{◌≡◌, ◌≤◌, ◌<◌, ◌^◌, IfOk, length, string_bytes};
ghost use Rattle.wblock_show.specs.Lines.{args_text, block_text, call_text, called_text, calls_of, chain_line, chain_lines, digest_line, entries_text, entry_text, fuel_line, head_lines, kind_text, more_entries, no_chain_lines, outcome_lines, position_line, position_lines, ratio_line, ratio_text, shared_line, shared_lines, version_line, wave_text, waves_line};

use block::{Block, Position, number_of_version};
use call::Call;
use figures::{
    Chains, Figures, OutcomeCount, OutcomeKind, SharedLock, hundredth_of, lock_text_of,
    word_of_mode,
};
use spec_ledger::Entry;
use std::alloc::{AllocError, Global};
use wblock_calls::{PositionLine, ValueText};
use wtypes::Value;

fn entry_text_of(alloc: Global, entry: Entry) -> Result<String, AllocError>
    ensures { IfOk result (λ text. string_bytes text ≡ entry_text entry) }
{
    let lock = lock_text_of(alloc, entry.lock)?;
    let mode = word_of_mode(entry.mode);
    let turn = entry.turn;
    let text = format!(in alloc; " {lock} {mode} turn {turn}")?;
    Ok(text)
}

/// The entries after the first.
fn more_entries_of(alloc: Global, entries: &[Entry]) -> Result<String, AllocError>
    ensures { IfOk result (λ text. string_bytes text ≡ more_entries entries.now) }
{
    let mut text = String::new(alloc);
    for entry in entries {
        let one = entry_text_of(alloc, *entry)?;
        let one = format!(in alloc; ",{one}")?;
        text.push_str(one.as_str())?;
    }
    Ok(text)
}

fn entries_text_of(alloc: Global, entries: &[Entry]) -> Result<String, AllocError>
    ensures { IfOk result (λ text. string_bytes text ≡ entries_text entries.now) }
{
    let [first, more @ ..] = entries else {
        return Ok(String::new(alloc));
    };
    let first = entry_text_of(alloc, *first)?;
    let more = more_entries_of(alloc, more)?;
    let text = format!(in alloc; "{first}{more}")?;
    Ok(text)
}

fn args_text_of(alloc: Global, args: &[Value]) -> Result<String, AllocError>
    ensures { IfOk result (λ text. string_bytes text ≡ args_text args.now) }
{
    let mut text = String::new(alloc);
    for value in args {
        let value = ValueText(*value);
        let one = format!(in alloc; " {value}")?;
        text.push_str(one.as_str())?;
    }
    Ok(text)
}

#[tactic(auto, unfolding(crate::specs::Lines::call_text))]
fn call_text_of(alloc: Global, call: &Call) -> Result<String, AllocError>
    ensures { IfOk result (λ text. string_bytes text ≡ call_text call.now) }
{
    let contract = call.contract();
    let entry = call.entry();
    let args = args_text_of(alloc, call.args())?;
    let text = format!(in alloc; " of contract {contract} {entry}{args}")?;
    Ok(text)
}

/// The call of a number, where the calls are known.
fn called_text_of(alloc: Global, calls: Option<&[Call]>, number: u32) -> Result<String, AllocError>
    ensures { IfOk result (λ text. string_bytes text ≡ called_text (calls_of calls.entry) number) }
{
    let Some(calls) = calls else {
        return Ok(String::new(alloc));
    };
    let Some(call) = calls.get(number as usize) else {
        return Ok(String::new(alloc));
    };
    call_text_of(alloc, call)
}

fn wave_text_of(alloc: Global, chains: &Option<Chains>, position: u32) -> Result<String, AllocError>
    ensures { IfOk result (λ text. string_bytes text ≡ wave_text chains.now position) }
{
    let Some(chains) = chains else {
        return "-".to_string(alloc);
    };
    let wave = match chains.waves.get(position as usize) {
        None => 0,
        Some(wave) => *wave,
    };
    format!(in alloc; "{wave}")
}

fn position_line_of(
    alloc: Global,
    calls: Option<&[Call]>,
    chains: &Option<Chains>,
    number: u32,
    position: &Position,
) -> Result<String, AllocError>
    ensures { IfOk result (λ text. string_bytes text ≡ position_line (calls_of calls.entry) chains.now number position.now) }
{
    let line = PositionLine {
        position: number,
        call: position.call(),
        receipt: position.receipt(),
    };
    let wave = wave_text_of(alloc, chains, number)?;
    let call = called_text_of(alloc, calls, position.call())?;
    let locks = entries_text_of(alloc, position.profile().entries())?;
    let text = format!(in alloc; "{line} wave {wave}{call}{locks}\n")?;
    Ok(text)
}

/// A line for each position.
fn position_lines_of(
    alloc: Global,
    calls: Option<&[Call]>,
    chains: &Option<Chains>,
    positions: &[Position],
) -> Result<String, AllocError>
    requires { length positions.now ≤ 65535 }
    ensures { IfOk result (λ text. string_bytes text ≡ position_lines (calls_of calls.entry) chains.now 0 positions.now) }
{
    let mut text = String::new(alloc);
    let mut number: u32 = 0;
    for position in positions {
        let line = position_line_of(alloc, calls, chains, number, position)?;
        text.push_str(line.as_str())?;
        number += 1;
    }
    Ok(text)
}

#[tactic(auto, unfolding(crate::specs::Lines::digest_line))]
fn digest_line_of(alloc: Global, name: &str, digest: &[u8; 32]) -> Result<String, AllocError>
    ensures { IfOk result (λ text. string_bytes text ≡ digest_line name.now digest.now) }
{
    let digits = hex::encode(alloc, *digest)?;
    let text = format!(in alloc; "{name} {digits}\n")?;
    Ok(text)
}

#[tactic(auto, unfolding(crate::specs::Lines::version_line))]
fn version_line_of(alloc: Global, block: &Block) -> Result<String, AllocError>
    ensures { IfOk result (λ text. string_bytes text ≡ version_line block.now) }
{
    let version = number_of_version(block.version());
    let text = format!(in alloc; "version {version}\n")?;
    Ok(text)
}

#[tactic(auto, unfolding(crate::specs::Lines::fuel_line))]
fn fuel_line_of(alloc: Global, block: &Block) -> Result<String, AllocError>
    ensures { IfOk result (λ text. string_bytes text ≡ fuel_line block.now) }
{
    let fuel = block.fuel();
    let text = format!(in alloc; "fuel {fuel}\n")?;
    Ok(text)
}

/// The lines before those of the positions.
#[tactic(auto, unfolding(crate::specs::Lines::head_lines))]
fn head_lines_of(alloc: Global, block: &Block) -> Result<String, AllocError>
    ensures { IfOk result (λ text. string_bytes text ≡ head_lines block.now) }
{
    let version = version_line_of(alloc, block)?;
    let before = digest_line_of(alloc, "before", block.before())?;
    let calls = digest_line_of(alloc, "calls", block.calls())?;
    let after = digest_line_of(alloc, "after", block.after())?;
    let fuel = fuel_line_of(alloc, block)?;
    let text = format!(in alloc; "{version}{before}{calls}{after}{fuel}")?;
    Ok(text)
}

/// One number by another, with two decimals.
fn ratio_text_of(alloc: Global, total: u128, part: u128) -> Result<String, AllocError>
    requires { total < 2 ^ 80 }
    ensures { IfOk result (λ text. string_bytes text ≡ ratio_text total part) }
{
    if part == 0 {
        return "-".to_string(alloc);
    }
    hundredth_of(alloc, 100 * total / part)
}

/// The lines where positions would wait for later ones.
#[tactic(auto, unfolding(crate::specs::Lines::no_chain_lines))]
fn no_chain_lines_of(alloc: Global, total: u128) -> Result<String, AllocError>
    ensures { IfOk result (λ text. string_bytes text ≡ no_chain_lines total) }
{
    let text = format!(in alloc; "waves -\nchain - fuel - of {total}\nspeed-up at most -\n")?;
    Ok(text)
}

#[tactic(auto, unfolding(crate::specs::Lines::waves_line))]
fn waves_line_of(alloc: Global, chains: &Chains) -> Result<String, AllocError>
    ensures { IfOk result (λ text. string_bytes text ≡ waves_line chains.now) }
{
    let waves = chains.wave_count;
    let text = format!(in alloc; "waves {waves}\n")?;
    Ok(text)
}

#[tactic(auto, unfolding(crate::specs::Lines::chain_line))]
fn chain_line_of(alloc: Global, chains: &Chains, total: u128) -> Result<String, AllocError>
    ensures { IfOk result (λ text. string_bytes text ≡ chain_line chains.now total) }
{
    let waves = chains.wave_count;
    let fuel = chains.chain_fuel;
    let text = format!(in alloc; "chain {waves} fuel {fuel} of {total}\n")?;
    Ok(text)
}

#[tactic(auto, unfolding(crate::specs::Lines::ratio_line))]
fn ratio_line_of(alloc: Global, chains: &Chains, total: u128) -> Result<String, AllocError>
    requires { total < 2 ^ 80 }
    ensures { IfOk result (λ text. string_bytes text ≡ ratio_line chains.now total) }
{
    let ratio = ratio_text_of(alloc, total, chains.chain_fuel)?;
    let text = format!(in alloc; "speed-up at most {ratio}\n")?;
    Ok(text)
}

/// What must come one after another, and how much faster than one worker any validator can be.
fn chain_lines_of(alloc: Global, chains: &Option<Chains>, total: u128) -> Result<String, AllocError>
    requires { total < 2 ^ 80 }
    ensures { IfOk result (λ text. string_bytes text ≡ chain_lines chains.now total) }
{
    let Some(chains) = chains else {
        return no_chain_lines_of(alloc, total);
    };
    let waves = waves_line_of(alloc, chains)?;
    let chain = chain_line_of(alloc, chains, total)?;
    let ratio = ratio_line_of(alloc, chains, total)?;
    let text = format!(in alloc; "{waves}{chain}{ratio}")?;
    Ok(text)
}

#[tactic(auto, unfolding(crate::specs::Lines::shared_line))]
fn shared_line_of(alloc: Global, shared: SharedLock) -> Result<String, AllocError>
    ensures { IfOk result (λ text. string_bytes text ≡ shared_line shared) }
{
    let lock = lock_text_of(alloc, shared.lock)?;
    let positions = shared.positions;
    let text = format!(in alloc; "shared {lock} by {positions} positions\n")?;
    Ok(text)
}

/// A line for each of these locks.
fn shared_lines_of(alloc: Global, hottest: &[SharedLock]) -> Result<String, AllocError>
    ensures { IfOk result (λ text. string_bytes text ≡ shared_lines hottest.now) }
{
    let mut text = String::new(alloc);
    for shared in hottest {
        let line = shared_line_of(alloc, *shared)?;
        text.push_str(line.as_str())?;
    }
    Ok(text)
}

fn kind_text_of(alloc: Global, kind: OutcomeKind) -> Result<String, AllocError>
    ensures { IfOk result (λ text. string_bytes text ≡ kind_text kind) }
{
    match kind {
        OutcomeKind::Returned => "returned".to_string(alloc),
        OutcomeKind::Trapped(trap) => {
            let trap = trap as u8;
            format!(in alloc; "trapped {trap}")
        }
        OutcomeKind::OutOfFuel => "out-of-fuel".to_string(alloc),
        OutcomeKind::Rejected(code) => format!(in alloc; "rejected {code}"),
    }
}

/// A line for each kind of outcome.
fn outcome_lines_of(alloc: Global, outcomes: &[OutcomeCount]) -> Result<String, AllocError>
    ensures { IfOk result (λ text. string_bytes text ≡ outcome_lines outcomes.now) }
{
    let mut text = String::new(alloc);
    for outcome in outcomes {
        let kind = kind_text_of(alloc, outcome.kind)?;
        let positions = outcome.positions;
        let line = format!(in alloc; "{kind} {positions}\n")?;
        text.push_str(line.as_str())?;
    }
    Ok(text)
}

/// The text of a block with its figures.
pub(crate) fn block_text_of(
    alloc: Global,
    block: &Block,
    calls: Option<&[Call]>,
    figures: &Figures,
) -> Result<String, AllocError>
    requires { figures.now.total_fuel < 2 ^ 80 }
    ensures { IfOk result (λ text. string_bytes text ≡ block_text block.now (calls_of calls.entry) figures.now) }
{
    block.use_invariant();
    let head = head_lines_of(alloc, block)?;
    let positions = position_lines_of(alloc, calls, &figures.chains, block.positions())?;
    let chain = chain_lines_of(alloc, &figures.chains, figures.total_fuel)?;
    let shared = shared_lines_of(alloc, &figures.hottest)?;
    let outcomes = outcome_lines_of(alloc, &figures.outcomes)?;
    let text = format!(in alloc; "{head}{positions}{chain}{shared}{outcomes}")?;
    Ok(text)
}
