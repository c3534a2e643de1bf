// Numbers, types and names at the front of bytes.
ghost use Rattle.std.specs.Prelude.{◌≡◌, ◌+◌, ◌<◌, ◌≤◌, length, IfOk};
ghost use Rattle.std.specs.Str.{IsUtf8};
ghost use Rattle.std.specs.String.{string_bytes};
ghost use Rattle.expr_reader.specs.Outcome.{Gives};
ghost use Rattle.laws_modules.specs.ReadingModules.{u32_at, sized_at, value_type_at, name_at, limits_at, table_type_at, mutability_at, global_type_at, import_desc_at, export_desc_at};
ghost use Rattle.module_tree.specs.ModuleView.{limits_view, global_type_view, import_desc_view, export_desc_view};

use expr_reader::DecodeFault;
use module_tree::module::{ExportDesc, GlobalType, ImportDesc};
use std::alloc::Allocator;
use wtypes::{Limits, ValType};

pub fn u32_of(bytes: &[u8]) -> Result<(u32, &[u8]), DecodeFault>
    ensures value { Gives (λ x. (x.0, x.1.now)) result (u32_at bytes.now) }
    ensures shorter { IfOk result (λ x. length x.1.now < length bytes.now) }
{
    match leb::read_u32(bytes, 0) {
        Some((n, next)) => Ok((n, &bytes[next..])),
        None => Err(DecodeFault::Malformed(bytes.len())),
    }
}

// A size, and that many bytes.
#[tactic(auto, unfolding(laws_modules::specs::ReadingModules::sized_at))]
pub fn sized_of(bytes: &[u8]) -> Result<(&[u8], &[u8]), DecodeFault>
    ensures value { Gives (λ x. (x.0.now, x.1.now)) result (sized_at bytes.now) }
    ensures shorter { IfOk result (λ x. length x.0.now + length x.1.now < length bytes.now) }
{
    let (size, rest) = u32_of(bytes)?;
    if size as usize > rest.len() {
        return Err(DecodeFault::Malformed(bytes.len()));
    }
    Ok(rest.split_at(size as usize))
}

#[tactic(auto, unfolding(laws_modules::specs::ReadingModules::value_type_at))]
pub fn value_type_of(bytes: &[u8]) -> Result<(ValType, &[u8]), DecodeFault>
    ensures value { Gives (λ x. (x.0, x.1.now)) result (value_type_at bytes.now) }
    ensures shorter { IfOk result (λ x. length x.1.now < length bytes.now) }
{
    match bytes {
        [] => Err(DecodeFault::Malformed(0)),
        [0x7F, rest @ ..] => Ok((ValType::I32, rest)),
        [0x7E, rest @ ..] => Ok((ValType::I64, rest)),
        [0x7C..=0x7D, ..] => Err(DecodeFault::Unsupported(bytes.len())),
        [_, ..] => Err(DecodeFault::Malformed(bytes.len())),
    }
}

// The text of a name.
#[tactic(auto, unfolding(laws_modules::specs::ReadingModules::name_at))]
pub fn text_of(bytes: &[u8]) -> Result<(&str, &[u8]), DecodeFault>
    ensures value { Gives (λ x. (x.0.now, x.1.now)) result (name_at bytes.now) }
    ensures shorter { IfOk result (λ x. length x.1.now < length bytes.now) }
{
    let (text, rest) = sized_of(bytes)?;
    match std::str::from_utf8(text) {
        Ok(text) => Ok((text, rest)),
        Err(_) => Err(DecodeFault::Malformed(text.len().saturating_add(rest.len()))),
    }
}

pub fn name_of<'b, A: Allocator + Clone>(
    alloc: &A,
    bytes: &'b [u8],
) -> Result<(String<A>, &'b [u8]), DecodeFault>
    ensures value { Gives (λ x. (string_bytes x.0, x.1.now)) result (name_at bytes.now) }
    ensures shorter { IfOk result (λ x. length x.1.now < length bytes.now) }
{
    let (text, rest) = text_of(bytes)?;
    Ok((String::from_str(alloc.clone()?, text)?, rest))
}

#[tactic(auto, unfolding(laws_modules::specs::ReadingModules::limits_at))]
pub fn limits_of(bytes: &[u8]) -> Result<(Limits, &[u8]), DecodeFault>
    ensures value { Gives (λ x. (limits_view x.0, x.1.now)) result (limits_at bytes.now) }
    ensures shorter { IfOk result (λ x. length x.1.now < length bytes.now) }
{
    match bytes {
        [] => Err(DecodeFault::Malformed(0)),
        [0x00, rest @ ..] => {
            let (min, rest) = u32_of(rest)?;
            Ok((Limits { min, max: None }, rest))
        }
        [0x01, rest @ ..] => {
            let (min, rest) = u32_of(rest)?;
            let (max, rest) = u32_of(rest)?;
            let max = Some(max);
            Ok((Limits { min, max }, rest))
        }
        [_, ..] => Err(DecodeFault::Malformed(bytes.len())),
    }
}

#[tactic(auto, unfolding(laws_modules::specs::ReadingModules::table_type_at, laws_modules::specs::ReadingExpressions::byte_at))]
pub fn table_type_of(bytes: &[u8]) -> Result<(Limits, &[u8]), DecodeFault>
    ensures value { Gives (λ x. (limits_view x.0, x.1.now)) result (table_type_at bytes.now) }
    ensures shorter { IfOk result (λ x. length x.1.now < length bytes.now) }
{
    match bytes {
        [] => Err(DecodeFault::Malformed(0)),
        [0x70, rest @ ..] => limits_of(rest),
        [_, ..] => Err(DecodeFault::Malformed(bytes.len())),
    }
}

#[tactic(auto, unfolding(laws_modules::specs::ReadingModules::mutability_at))]
fn mutability_of(bytes: &[u8]) -> Result<(bool, &[u8]), DecodeFault>
    ensures value { Gives (λ x. (x.0, x.1.now)) result (mutability_at bytes.now) }
    ensures shorter { IfOk result (λ x. length x.1.now < length bytes.now) }
{
    match bytes {
        [] => Err(DecodeFault::Malformed(0)),
        [0x00, rest @ ..] => Ok((false, rest)),
        [0x01, rest @ ..] => Ok((true, rest)),
        [_, ..] => Err(DecodeFault::Malformed(bytes.len())),
    }
}

#[tactic(auto, unfolding(laws_modules::specs::ReadingModules::global_type_at))]
pub fn global_type_of(bytes: &[u8]) -> Result<(GlobalType, &[u8]), DecodeFault>
    ensures value { Gives (λ x. (global_type_view x.0, x.1.now)) result (global_type_at bytes.now) }
    ensures shorter { IfOk result (λ x. length x.1.now < length bytes.now) }
{
    let (value_type, rest) = value_type_of(bytes)?;
    let (is_mutable, rest) = mutability_of(rest)?;
    let global_type = GlobalType {
        value_type,
        is_mutable,
    };
    Ok((global_type, rest))
}

#[tactic(auto, unfolding(laws_modules::specs::ReadingModules::import_desc_at))]
pub fn import_desc_of(bytes: &[u8]) -> Result<(ImportDesc, &[u8]), DecodeFault>
    ensures value { Gives (λ x. (import_desc_view x.0, x.1.now)) result (import_desc_at bytes.now) }
    ensures shorter { IfOk result (λ x. length x.1.now < length bytes.now) }
{
    match bytes {
        [] => Err(DecodeFault::Malformed(0)),
        [0x00, rest @ ..] => {
            let (index, rest) = u32_of(rest)?;
            Ok((ImportDesc::Func(index), rest))
        }
        [0x01, rest @ ..] => {
            let (limits, rest) = table_type_of(rest)?;
            Ok((ImportDesc::Table(limits), rest))
        }
        [0x02, rest @ ..] => {
            let (limits, rest) = limits_of(rest)?;
            Ok((ImportDesc::Memory(limits), rest))
        }
        [0x03, rest @ ..] => {
            let (global_type, rest) = global_type_of(rest)?;
            Ok((ImportDesc::Global(global_type), rest))
        }
        [_, ..] => Err(DecodeFault::Malformed(bytes.len())),
    }
}

#[tactic(auto, unfolding(laws_modules::specs::ReadingModules::export_desc_at))]
pub fn export_desc_of(bytes: &[u8]) -> Result<(ExportDesc, &[u8]), DecodeFault>
    ensures value { Gives (λ x. (export_desc_view x.0, x.1.now)) result (export_desc_at bytes.now) }
    ensures shorter { IfOk result (λ x. length x.1.now < length bytes.now) }
{
    match bytes {
        [] => Err(DecodeFault::Malformed(0)),
        [0x00, rest @ ..] => {
            let (index, rest) = u32_of(rest)?;
            Ok((ExportDesc::Func(index), rest))
        }
        [0x01, rest @ ..] => {
            let (index, rest) = u32_of(rest)?;
            Ok((ExportDesc::Table(index), rest))
        }
        [0x02, rest @ ..] => {
            let (index, rest) = u32_of(rest)?;
            Ok((ExportDesc::Memory(index), rest))
        }
        [0x03, rest @ ..] => {
            let (index, rest) = u32_of(rest)?;
            Ok((ExportDesc::Global(index), rest))
        }
        [_, ..] => Err(DecodeFault::Malformed(bytes.len())),
    }
}
