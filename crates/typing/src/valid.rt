// Modules that are typed.
ghost use Rattle.module_tree.specs.Modules.{module_view};
ghost use Rattle.spec_typing.specs.Modules.{ModuleTyped};

use module_tree::module::Module;
use std::alloc::Allocator;
use wtypes::NoMemory;

/// A module that is typed (Core Specification, 3.4 Modules).
#[derive(Drop)]
pub struct Valid<A: Allocator> {
    tree: Module<A>,
    pub ghost typed: { ∥ ModuleTyped (module_view tree) ∥₁ },
}

impl<A: Allocator> Valid<A> {
    ghost use Rattle.std.specs.Prelude.{◌≡◌, IfOk};
    ghost use Rattle.typing.specs.Parts.{tree_of};

    /// A module that is typed.
    pub fn of_typed(tree: Module<A>) -> Valid<A>
        requires { ModuleTyped (module_view tree) }
        ensures { tree_of result ≡ tree }
    {
        Valid { tree }
    }

    /// The module.
    pub fn module(&self) -> &Module<A>
        ensures same { result.now ≡ tree_of self.now }
        ensures typed { ModuleTyped (module_view result.now) }
    {
        &self.tree
    }

    /// Hands the module out.
    pub fn into_module(self) -> Module<A>
        ensures same { result ≡ tree_of self }
        ensures typed { ModuleTyped (module_view result) }
    {
        self.tree
    }

    /// The same module under another allocator. It is typed by its type.
    ///
    /// # Errors
    ///
    /// There is no memory for the copy.
    pub fn copy_in<B: Allocator + Clone>(&self, alloc: B) -> Result<Valid<B>, NoMemory>
        ensures same_tree { IfOk result (λ v. module_view (tree_of v) ≡ module_view (tree_of self.now)) }
    {
        let tree = self.tree.copy_in(alloc)?;
        Ok(Valid { tree })
    }
}
