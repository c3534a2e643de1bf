//! Whether a text names a module, by the assembler.

ghost use Rattle.std.specs.Prelude.{◌≡◌, ◌↔◌, IfOk, IsTrue, string_bytes};
ghost use Rattle.module_tree.specs.Modules.{module_view};
ghost use Rattle.spec_text.specs.Names.{Names};
ghost use Rattle.module_text.specs.Judging.{IsJudged};

use crate::fields::module_text;
use crate::names::{FuncName, names_of};
use crate::refusal::TextRefusal;
use assembler::{AsmRefusal, assemble};
use encoder::encode;
use laws_modules::one_tree;
use module_tree::module::Module;
use std::alloc::{Allocator, Global};
use wtypes::NoMemory;

/// Whether two modules are one: their shortest spellings are.
fn is_same<A: Allocator, B: Allocator>(
    alloc: Global,
    one: &Module<A>,
    other: &Module<B>,
) -> Result<bool, NoMemory>
    ensures { IfOk result (λ same. IsTrue same ↔ (module_view one.now ≡ module_view other.now)) }
{
    one_tree();
    let mut spelled = Vec::new(alloc);
    encode(one, &mut spelled)?;
    let mut again = Vec::new(alloc);
    encode(other, &mut again)?;
    Ok(spelled.as_slice() == again.as_slice())
}

/// Whether a text names the module.
fn is_named<A: Allocator>(alloc: Global, text: &str, tree: &Module<A>) -> Result<bool, NoMemory>
    ensures { IfOk result (λ named. IsTrue named → Names text.now (module_view tree.now)) }
{
    match assemble(alloc, text) {
        Ok(read) => is_same(alloc, &read, tree),
        Err(AsmRefusal::NoMemory) => Err(NoMemory),
        Err(_) => Ok(false),
    }
}

/// A text that was written, judged.
#[derive(Drop)]
pub(crate) enum Judged {
    /// The text, which names the module.
    Named(String),
    /// It does not.
    Unnamed,
}

/// The text of a module with these names of its functions, and these in comments, judged.
fn judged_text<'m, A: Allocator>(
    alloc: Global,
    tree: &Module<A>,
    names: Vec<FuncName<'m>>,
    told: &'m [(u32, &'m str)],
) -> Result<Judged, TextRefusal>
    ensures { IfOk result (IsJudged (module_view tree.now)) }
{
    let text = module_text(alloc, tree, names, told)?;
    if is_named(alloc, text.as_str(), tree)? {
        Ok(Judged::Named(text))
    } else {
        Ok(Judged::Unnamed)
    }
}

/// A text that names the module, with these names in comments.
pub(crate) fn told_text<A: Allocator>(
    alloc: Global,
    tree: &Module<A>,
    told: &[(u32, &str)],
) -> Result<String, TextRefusal>
    ensures { IfOk result (λ text. Names (string_bytes text) (module_view tree.now)) }
{
    match judged_text(alloc, tree, names_of(alloc, tree)?, told)? {
        Judged::Named(text) => Ok(text),
        // The names clash: numbers do not.
        Judged::Unnamed => match judged_text(alloc, tree, Vec::new(alloc), told)? {
            Judged::Named(text) => Ok(text),
            Judged::Unnamed => Err(TextRefusal::Unwritten),
        },
    }
}
