//! How options ask that it be told what a call comes to.

ghost use Rattle.std.specs.Prelude.{◌≡◌, ◌↔◌, Bool, [], IfOk, IsTrue, MatchOption, filter};
ghost use Rattle.wblock_line.specs.Words.{choices};
ghost use Rattle.wblock_call.specs.Styles.{AsksStyle, AsksSwitch, is_named, is_other};
ghost use Rattle.wblock_call.specs.declared.style.Style.{Style as TheStyle};

use std::alloc::{AllocError, Global};
use wblock_line::{JSON_SWITCH, SIGNED_SWITCH, switch_alone};

/// How it is told what a call comes to.
#[derive(Clone, Copy, Debug, PartialEq, Eq)]
pub struct Style {
    /// Whether it is told as JSON.
    pub json: bool,
    /// Whether keys and numbers of cells are told signed, as lines of calls take them.
    pub signed: bool,
}

/// The options of this name.
fn options_named<'w>(
    alloc: Global,
    options: &[(&'w str, &'w str)],
    name: &str,
) -> Result<Vec<(&'w str, &'w str)>, AllocError>
    ensures { IfOk result (λ found. choices found.items ≡ filter (is_named name.now) (choices options.now)) }
{
    let mut found = Vec::new(alloc);
    for option in options {
        if option.0 == name {
            found.push(*option)?;
        }
    }
    Ok(found)
}

/// Whether the switch of this name stands among options, once and without a value; or None where it stands there otherwise.
fn switch_in(
    alloc: Global,
    options: &[(&str, &str)],
    name: &str,
) -> Result<Option<bool>, AllocError>
    ensures { IfOk result (λ found. MatchOption found ((given : Bool) → ¬ AsksSwitch name.now (choices options.now) given) (AsksSwitch name.now (choices options.now))) }
{
    let switches = options_named(alloc, options, name)?;
    Ok(switch_alone(switches.as_slice(), name))
}

/// The style that options ask for, each switch once and without a value; or None where one stands there otherwise. Other options may stand among them.
pub fn style_in(alloc: Global, options: &[(&str, &str)]) -> Result<Option<Style>, AllocError>
    ensures { IfOk result (λ found. MatchOption found ((style : TheStyle) → ¬ AsksStyle (choices options.now) style) (AsksStyle (choices options.now))) }
{
    let Some(json) = switch_in(alloc, options, JSON_SWITCH)? else {
        return Ok(None);
    };
    let Some(signed) = switch_in(alloc, options, SIGNED_SWITCH)? else {
        return Ok(None);
    };
    Ok(Some(Style { json, signed }))
}

/// The options that ask for no style.
pub fn others_of<'w>(
    alloc: Global,
    options: &[(&'w str, &'w str)],
) -> Result<Vec<(&'w str, &'w str)>, AllocError>
    ensures { IfOk result (λ found. choices found.items ≡ filter is_other (choices options.now)) }
{
    let mut found = Vec::new(alloc);
    for option in options {
        if option.0 != JSON_SWITCH && option.0 != SIGNED_SWITCH {
            found.push(*option)?;
        }
    }
    Ok(found)
}

/// Whether options ask for a style alone.
pub(crate) fn is_style_alone(alloc: Global, options: &[(&str, &str)]) -> Result<bool, AllocError>
    ensures { IfOk result (λ alone. IsTrue alone ↔ (filter is_other (choices options.now) ≡ [])) }
{
    let others = others_of(alloc, options)?;
    Ok(others.is_empty())
}
