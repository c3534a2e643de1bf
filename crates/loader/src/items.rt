// What sections hold.
ghost use Rattle.std.specs.Prelude.{◌≡◌, ℕ, ◌<◌, ◌^◌, List, true, Option, Some, length, IfOk};
ghost use Rattle.wtypes.specs.declared.ValType.{ValType};
ghost use Rattle.expr_reader.specs.Outcome.{Gives};
ghost use Rattle.spec_modules.specs.Syntax as syntax;
ghost use Rattle.spec_modules.specs.Limits.{counts_from};
ghost use Rattle.laws_modules.specs.ReadingModules.{u32_at, sized_at, value_type_at, func_type_at, import_at, table_type_at, limits_at, init_at, global_at, export_at, element_at, data_at, indices_at, made_at};
ghost use Rattle.module_tree.specs.View.{instrs_view, ordinals};
ghost use Rattle.module_tree.specs.ModuleView.{func_type_view, limits_view, import_view, global_view, export_view, element_view, data_view, global_ordinals, element_ordinals, data_ordinals};

use crate::values::{
    export_desc_of, global_type_of, import_desc_of, limits_of, name_of, table_type_of, u32_of,
    value_type_of,
};
use crate::vectors::{Reader, items_of, vector_of};
use expr_reader::{DecodeFault, expression_of};
use module_tree::limit::{FUNCTION_LIMIT, Limit};
use module_tree::module::{DataSegment, Element, Export, Global, Import};
use std::alloc::Allocator;
use wtypes::{FuncType, Limits, ValType};

// A count, and that many bytes. Bytes are no item: where there are fewer, their end is at fault.
#[tactic(auto, unfolding(laws_modules::specs::ReadingModules::sized_at))]
fn content_of(bytes: &[u8]) -> Result<(&[u8], &[u8]), DecodeFault>
    ensures value { Gives (λ x. (x.0.now, x.1.now)) result (sized_at bytes.now) }
    ensures shorter { IfOk result (λ x. length x.1.now < length bytes.now) }
{
    let (count, rest) = u32_of(bytes)?;
    if count as usize > rest.len() {
        return Err(DecodeFault::Malformed(0));
    }
    Ok(rest.split_at(count as usize))
}

// Value types.
pub struct ValTypes;

impl<A: Allocator + Clone> Reader<A> for ValTypes {
    type Item = ValType;

    ghost Seen = { ValType };

    ghost view = { λ t. t };

    ghost reading = { λ _. value_type_at };

    ghost is_numbered = { λ _. true };

    fn read<'b>(&self, _alloc: &A, bytes: &'b [u8]) -> Result<(ValType, &'b [u8]), DecodeFault> {
        value_type_of(bytes)
    }
}

// Indices.
pub struct Indices;

impl<A: Allocator + Clone> Reader<A> for Indices {
    type Item = u32;

    ghost Seen = { ℕ };

    ghost view = { λ n. n };

    ghost reading = { λ _. u32_at };

    ghost is_numbered = { λ _. true };

    fn read<'b>(&self, _alloc: &A, bytes: &'b [u8]) -> Result<(u32, &'b [u8]), DecodeFault> {
        u32_of(bytes)
    }
}

// Types of functions.
pub struct FuncTypes;

impl<A: Allocator + Clone> Reader<A> for FuncTypes {
    type Item = FuncType<A>;

    ghost Seen = { syntax.FuncType };

    ghost view = { func_type_view };

    ghost reading = { λ _. func_type_at };

    ghost is_numbered = { λ _. true };

    #[tactic(auto, unfolding(laws_modules::specs::ReadingModules::func_type_at, laws_modules::specs::ReadingExpressions::byte_at))]
    fn read<'b>(&self, alloc: &A, bytes: &'b [u8]) -> Result<(FuncType<A>, &'b [u8]), DecodeFault> {
        match bytes {
            [] => Err(DecodeFault::Malformed(0)),
            [0x60, rest @ ..] => {
                let (params, rest) = vector_of(alloc, &ValTypes, rest)?;
                let (results, rest) = vector_of(alloc, &ValTypes, rest)?;
                Ok((FuncType { params, results }, rest))
            }
            [_, ..] => Err(DecodeFault::Malformed(bytes.len())),
        }
    }
}

// Imports.
pub struct Imports;

impl<A: Allocator + Clone> Reader<A> for Imports {
    type Item = Import<A>;

    ghost Seen = { syntax.Import };

    ghost view = { import_view };

    ghost reading = { λ _. import_at };

    ghost is_numbered = { λ _. true };

    #[tactic(auto, unfolding(laws_modules::specs::ReadingModules::import_at))]
    fn read<'b>(&self, alloc: &A, bytes: &'b [u8]) -> Result<(Import<A>, &'b [u8]), DecodeFault> {
        let (from_module, rest) = name_of(alloc, bytes)?;
        let (name, rest) = name_of(alloc, rest)?;
        let (desc, rest) = import_desc_of(rest)?;
        let import = Import {
            from_module,
            name,
            desc,
        };
        Ok((import, rest))
    }
}

// Types of tables.
pub struct Tables;

impl<A: Allocator + Clone> Reader<A> for Tables {
    type Item = Limits;

    ghost Seen = { syntax.Limits };

    ghost view = { limits_view };

    ghost reading = { λ _. table_type_at };

    ghost is_numbered = { λ _. true };

    fn read<'b>(&self, _alloc: &A, bytes: &'b [u8]) -> Result<(Limits, &'b [u8]), DecodeFault> {
        table_type_of(bytes)
    }
}

// Types of memories.
pub struct Memories;

impl<A: Allocator + Clone> Reader<A> for Memories {
    type Item = Limits;

    ghost Seen = { syntax.Limits };

    ghost view = { limits_view };

    ghost reading = { λ _. limits_at };

    ghost is_numbered = { λ _. true };

    fn read<'b>(&self, _alloc: &A, bytes: &'b [u8]) -> Result<(Limits, &'b [u8]), DecodeFault> {
        limits_of(bytes)
    }
}

// Globals.
pub struct Globals;

impl<A: Allocator + Clone> Reader<A> for Globals {
    type Item = Global<A>;

    ghost Seen = { syntax.Global };

    ghost view = { global_view };

    ghost reading = { λ _. global_at };

    ghost is_numbered = { λ g. counts_from 0 (global_ordinals g) };

    #[tactic(auto, unfolding(laws_modules::specs::ReadingModules::global_at))]
    fn read<'b>(&self, alloc: &A, bytes: &'b [u8]) -> Result<(Global<A>, &'b [u8]), DecodeFault> {
        let (global_type, rest) = global_type_of(bytes)?;
        let (init, rest) = expression_of(alloc, rest)?;
        Ok((Global { global_type, init }, rest))
    }
}

// Exports.
pub struct Exports;

impl<A: Allocator + Clone> Reader<A> for Exports {
    type Item = Export<A>;

    ghost Seen = { syntax.Export };

    ghost view = { export_view };

    ghost reading = { λ _. export_at };

    ghost is_numbered = { λ _. true };

    #[tactic(auto, unfolding(laws_modules::specs::ReadingModules::export_at))]
    fn read<'b>(&self, alloc: &A, bytes: &'b [u8]) -> Result<(Export<A>, &'b [u8]), DecodeFault> {
        let (name, rest) = name_of(alloc, bytes)?;
        let (desc, rest) = export_desc_of(rest)?;
        Ok((Export { name, desc }, rest))
    }
}

// Element segments.
pub struct Elements;

impl<A: Allocator + Clone> Reader<A> for Elements {
    type Item = Element<A>;

    ghost Seen = { syntax.Element };

    ghost view = { element_view };

    ghost reading = { λ _. element_at };

    ghost is_numbered = { λ e. counts_from 0 (element_ordinals e) };

    #[tactic(auto, unfolding(laws_modules::specs::ReadingModules::element_at))]
    fn read<'b>(&self, alloc: &A, bytes: &'b [u8]) -> Result<(Element<A>, &'b [u8]), DecodeFault> {
        let (table, rest) = u32_of(bytes)?;
        let (offset, rest) = expression_of(alloc, rest)?;
        let (funcs, rest) = vector_of(alloc, &Indices, rest)?;
        let element = Element {
            table,
            offset,
            funcs,
        };
        Ok((element, rest))
    }
}

// Data segments.
pub struct Datas;

impl<A: Allocator + Clone> Reader<A> for Datas {
    type Item = DataSegment<A>;

    ghost Seen = { syntax.DataSegment };

    ghost view = { data_view };

    ghost reading = { λ _. data_at };

    ghost is_numbered = { λ d. counts_from 0 (data_ordinals d) };

    #[tactic(auto, unfolding(laws_modules::specs::ReadingModules::data_at))]
    fn read<'b>(
        &self,
        alloc: &A,
        bytes: &'b [u8],
    ) -> Result<(DataSegment<A>, &'b [u8]), DecodeFault> {
        let (memory, rest) = u32_of(bytes)?;
        let (offset, rest) = expression_of(alloc, rest)?;
        let (content, rest) = content_of(rest)?;
        let bytes = content.to_vec(alloc.clone()?)?;
        let data = DataSegment {
            memory,
            offset,
            bytes,
        };
        Ok((data, rest))
    }
}

// The type indices of the functions.
pub struct TypeIndices;

impl<A: Allocator + Clone> Reader<A> for TypeIndices {
    type Item = Vec<u32, A>;

    ghost Seen = { List ℕ };

    ghost view = { λ v. v.items };

    ghost reading = { λ _. indices_at };

    ghost is_numbered = { λ _. true };

    #[tactic(auto, unfolding(laws_modules::specs::ReadingModules::indices_at))]
    fn read<'b>(&self, alloc: &A, bytes: &'b [u8]) -> Result<(Vec<u32, A>, &'b [u8]), DecodeFault> {
        let (count, rest) = u32_of(bytes)?;
        if count as usize > FUNCTION_LIMIT {
            return Err(DecodeFault::TooLarge(Limit::Functions));
        }
        items_of(alloc, &Indices, count, rest)
    }
}

// The start function.
pub struct Start;

impl<A: Allocator + Clone> Reader<A> for Start {
    type Item = Option<u32>;

    ghost Seen = { Option ℕ };

    ghost view = { λ s. s };

    ghost reading = { λ _. made_at (λ n. Some n) u32_at };

    ghost is_numbered = { λ _. true };

    fn read<'b>(
        &self,
        _alloc: &A,
        bytes: &'b [u8],
    ) -> Result<(Option<u32>, &'b [u8]), DecodeFault> {
        let (start, rest) = u32_of(bytes)?;
        Ok((Some(start), rest))
    }
}
