//! The calls of a contract, one after another, and the lines that tell what they came to.

ghost use Rattle.std.specs.Prelude.{◌≡◌, ◌<◌, ◌≤◌, length, IfOk, string_bytes};
ghost use Rattle.interp.specs.Callee.{contract_view};
ghost use Rattle.wblock_commands.specs.Runs.{Shows, numbers_from, told_of};

use call::Call;
use link::deployed::Deployed;
use serial::serial_core;
use spec_ledger::{Receipt, Version};
use std::alloc::{AllocError, Global};
use std::fmt::Write;
use storage::Cells;
use wblock_calls::PositionLine;

/// The numbers of the calls, in rising order.
fn rising_order(alloc: Global, calls: &[Call]) -> Result<Vec<u32>, AllocError>
    requires { length calls.now ≤ 65535 }
    ensures { IfOk result (λ order. order.items ≡ numbers_from 0 calls.now) }
{
    let mut order = Vec::new(alloc);
    let mut number: u32 = 0;
    for _call in calls {
        order.push(number)?;
        number += 1;
    }
    Ok(order)
}

/// The lines of receipts, and the line of their fuel.
fn lines_of(alloc: Global, receipts: &[Receipt]) -> Result<String, AllocError>
    requires { length receipts.now ≤ 65535 }
    ensures { IfOk result (λ text. string_bytes text ≡ told_of receipts.now) }
{
    let mut text = String::new(alloc);
    let mut fuel: u128 = 0;
    let mut position: u32 = 0;
    for receipt in receipts {
        let line = PositionLine {
            position,
            call: position,
            receipt: *receipt,
        };
        let line = format!(in alloc; "{line}\n")?;
        text.push_str(line.as_str())?;
        fuel += receipt.used as u128;
        position += 1;
    }
    let line = format!(in alloc; "fuel {fuel}\n")?;
    text.push_str(line.as_str())?;
    Ok(text)
}

/// The lines of a contract's calls, one after another over empty cells by the rules of version 2: one for each call, and one for their fuel.
pub(crate) fn run_calls(
    alloc: Global,
    contract: Deployed<Global>,
    calls: &[Call],
) -> Result<String, AllocError>
    requires { length calls.now ≤ 65535 }
    ensures { IfOk result (λ text. Shows (contract_view contract) calls.now (string_bytes text)) }
{
    let order = rising_order(alloc, calls)?;
    let contracts = [contract];
    let core = match serial_core(
        alloc,
        contracts.as_slice(),
        &Cells::new(alloc),
        calls,
        order.as_slice(),
        Version::Two,
    ) {
        Ok(core) => core,
        Err(_) => return Err(AllocError),
    };
    let text = lines_of(alloc, core.receipts.as_slice())?;
    Ok(text)
}
