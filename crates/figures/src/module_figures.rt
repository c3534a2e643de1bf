//! What is counted in a module.

ghost use Rattle.std.specs.Prelude.{◌≡◌, ◌+◌, ◌<◌, ◌^◌, IfOk, length, vec_len};
ghost use Rattle.spec_modules.specs.Shortest.{shortest};
ghost use Rattle.module_tree.specs.Modules.{module_view};
ghost use Rattle.module_tree.specs.Readers.{imported_funcs};

use encoder::encode;
use module_tree::module::Module;
use std::alloc::{AllocError, Global};

/// The number of the first defined function. No function has a number of more than 32 bits.
pub fn first_func(tree: &Module<Global>) -> u32
    ensures number { result ≡ imported_funcs (module_view tree.now).imports }
    ensures room { result + vec_len tree.now.funcs < 2 ^ 32 }
{
    tree.imported_funcs() as u32
}

/// How many bytes the shortest spelling of a module has.
///
/// # Errors
///
/// Memory was refused.
pub fn shortest_size(alloc: Global, tree: &Module<Global>) -> Result<usize, AllocError>
    ensures { IfOk result (λ size. size ≡ length (shortest (module_view tree.now))) }
{
    let mut bytes = Vec::new(alloc);
    match encode(tree, &mut bytes) {
        Ok(()) => Ok(bytes.len()),
        Err(_) => Err(AllocError),
    }
}
