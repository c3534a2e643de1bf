//! Places of instructions, as commands name them.

ghost use Rattle.std.specs.Prelude.{◌≡◌, ◌≢◌, ◌<◌, ◌^◌, ℕ, ◌∷◌, ◌++◌, decimal, IfOk, MatchOption};
ghost use Rattle.wblock_usage.specs.Words.{HasNoColon, IsNoSpot, SpellsSpot, two_numbers};

use crate::numbers::parts_of;
use std::alloc::{AllocError, Global};
use wblock_calls::number_of;

/// The place of an instruction, as a command names it: a function, and the ordinal of the instruction in its body.
#[derive(Clone, Copy, Debug)]
pub enum Spot<'w> {
    /// `F:O`: the function of this number of the contract that is called, imports counted first.
    Own(u32, u32),
    /// `C:F:O`: of the contract of this number, the function of this number.
    Of(u32, u32, u32),
    /// `NAME:O`: the function that the contract that is called exports under this name.
    Exported(&'w str, u32),
}

/// What stands before and behind the last colon of a text.
fn last_parts_of<'a>(text: &'a str) -> Option<(&'a str, &'a str)>
    ensures { MatchOption result (HasNoColon text.entry.now) (λ x. HasNoColon x.1.now × (text.entry.now ≡ x.0.now ++ 58 ∷ x.1.now)) }
{
    text.rsplit_once(':')
}

/// The number of 32 bits that a text spells.
fn small_number_of(alloc: Global, text: &str) -> Result<Option<u32>, AllocError>
    ensures { IfOk result (λ found. MatchOption found ((n : ℕ) → n < 2 ^ 32 → text.now ≢ decimal n) (λ n. text.now ≡ decimal n)) }
{
    let Some(number) = number_of(alloc, text)? else {
        return Ok(None);
    };
    let Ok(number) = u32::try_from(number) else {
        return Ok(None);
    };
    Ok(Some(number))
}

/// The numbers of 32 bits of `M:N`.
fn small_numbers_of(alloc: Global, text: &str) -> Result<Option<(u32, u32)>, AllocError>
    ensures { IfOk result (λ found. MatchOption found ((m n : ℕ) → m < 2 ^ 32 → n < 2 ^ 32 → text.now ≢ two_numbers m n) (λ x. text.now ≡ two_numbers x.0 x.1)) }
{
    let Some((first, second)) = parts_of(text) else {
        return Ok(None);
    };
    let Some(first) = small_number_of(alloc, first)? else {
        return Ok(None);
    };
    let Some(second) = small_number_of(alloc, second)? else {
        return Ok(None);
    };
    Ok(Some((first, second)))
}

/// The instruction of this ordinal in the function that a text names: by a number, by two, or else by what it is exported under.
fn spot_in<'w>(alloc: Global, function: &'w str, ordinal: u32) -> Result<Spot<'w>, AllocError>
    ensures { IfOk result (SpellsSpot (function.entry.now ++ 58 ∷ decimal ordinal)) }
{
    if let Some(number) = small_number_of(alloc, function)? {
        return Ok(Spot::Own(number, ordinal));
    }
    if let Some((contract, number)) = small_numbers_of(alloc, function)? {
        return Ok(Spot::Of(contract, number, ordinal));
    }
    Ok(Spot::Exported(function, ordinal))
}

/// The place that a text names: `F:O`, `C:F:O` or `NAME:O`. None where there is no number of 32 bits behind its last colon.
pub fn spot_of<'w>(alloc: Global, text: &'w str) -> Result<Option<Spot<'w>>, AllocError>
    ensures { IfOk result (λ found. MatchOption found (IsNoSpot text.entry.now) (SpellsSpot text.entry.now)) }
{
    let Some((function, ordinal)) = last_parts_of(text) else {
        return Ok(None);
    };
    let Some(ordinal) = small_number_of(alloc, ordinal)? else {
        return Ok(None);
    };
    let spot = spot_in(alloc, function, ordinal)?;
    Ok(Some(spot))
}
