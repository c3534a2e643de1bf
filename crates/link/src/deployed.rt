// Modules that can be instantiated.
ghost use Rattle.std.specs.Prelude.{◌≡◌, ℕ, ◌*◌, ◌≤◌, None};
ghost use Rattle.spec_modules.specs.Profile.{page_size};
ghost use Rattle.spec_execution.specs.Configuration.{size_of, fresh};
ghost use Rattle.memory.specs.Start.{stands, first_bytes};
ghost use Rattle.spec_typing.specs.Linking.{IsLinked};
ghost use Rattle.module_tree.specs.Modules.{module_view};
ghost use Rattle.link.specs.Exports.{AreExports};

use crate::exports::{Exports, exports_by_name};
use crate::table::Table;
use memory::Start;
use module_tree::module::{ExportDesc, Module};
use std::alloc::Allocator;
use wtypes::{HostCall, NoMemory, Value};

/// A module that can be instantiated (Core Specification, 4.5.4 Instantiation): it is typed, each of its imports is a
/// host call of its type, its segments are in range, and its memory and its table keep the limits of the profile. It has the bytes that its
/// memory begins with, at most as many as its data segments, its table, which no instruction writes, and the first values of its globals: its instances
/// are lent all of them. It has what it exports, by name.
#[derive(Drop)]
pub struct Deployed<A: Allocator> {
    tree: Module<A>,
    hosts: Vec<HostCall, A>,
    start: Start<A>,
    table: Table<A>,
    globals: Vec<Value, A>,
    exports: Exports<A>,
    pub ghost linked: { ∥ IsLinked (module_view tree) hosts.items ∥₁ },
    ghost begun: { first_bytes start (page_size * size_of (module_view tree).memories) ≡ (fresh (module_view tree)).memory },
    ghost ends: { (k : ℕ) → page_size * size_of (module_view tree).memories ≤ k → stands start k ≡ None },
    ghost filled: { table ≡ (fresh (module_view tree)).table },
    ghost first: { globals.items ≡ (fresh (module_view tree)).globals },
    ghost named: { AreExports exports (module_view tree).exports },
}

/// What stands beside the tree of a module that is linked.
#[derive(Drop)]
pub(crate) struct Parts<A: Allocator> {
    /// The host calls that the imports are.
    pub hosts: Vec<HostCall, A>,
    /// The bytes that its memory begins with.
    pub start: Start<A>,
    /// Its table.
    pub table: Table<A>,
    /// The first values of its globals.
    pub globals: Vec<Value, A>,
    /// What is exported under each name.
    pub exports: Exports<A>,
}

impl<A: Allocator> Deployed<A> {
    ghost use Rattle.std.specs.Prelude.{slice_get, option_map, IfOk};
    ghost use Rattle.spec_execution.specs.Run.{exported};
    ghost use Rattle.module_tree.specs.ModuleView.{export_desc_view};
    ghost use Rattle.link.specs.Parts.{tree_of, hosts_of, start_of};

    /// A module that is linked to these host calls, whose memory begins with these bytes, whose table and whose first values of globals are these, and which exports this.
    pub(crate) fn of_linked(tree: Module<A>, parts: Parts<A>) -> Deployed<A>
        requires linked { IsLinked (module_view tree) parts.hosts.items }
        requires begun { first_bytes parts.start (page_size * size_of (module_view tree).memories) ≡ (fresh (module_view tree)).memory }
        requires ends { (k : ℕ) → page_size * size_of (module_view tree).memories ≤ k → stands parts.start k ≡ None }
        requires filled { parts.table ≡ (fresh (module_view tree)).table }
        requires first { parts.globals.items ≡ (fresh (module_view tree)).globals }
        requires named { AreExports parts.exports (module_view tree).exports }
        ensures tree { tree_of result ≡ tree }
        ensures hosts { hosts_of result ≡ parts.hosts.items }
    {
        let Parts {
            hosts,
            start,
            table,
            globals,
            exports,
        } = parts;
        Deployed {
            tree,
            hosts,
            start,
            table,
            globals,
            exports,
        }
    }

    /// The module.
    pub fn module(&self) -> &Module<A>
        ensures { result.now ≡ tree_of self.now }
    {
        &self.tree
    }

    /// The host calls that the imports are, in the order of the imports.
    pub fn hosts(&self) -> &[HostCall]
        ensures { result.now ≡ hosts_of self.now }
    {
        &self.hosts
    }

    /// The host call that import `i` is, counted from 0, or None where there is no such import.
    pub fn import(&self, i: u32) -> Option<HostCall>
        ensures { result ≡ slice_get (hosts_of self.now) i }
    {
        self.hosts.get(i as usize).copied()
    }

    /// The bytes that its memory begins with: those of a fresh instance, and none behind its first size.
    pub fn start(&self) -> &Start<A>
        ensures same { result.now ≡ start_of self.now }
        ensures begun { first_bytes result.now (page_size * size_of (module_view (tree_of self.now)).memories) ≡ (fresh (module_view (tree_of self.now))).memory }
        ensures ends { (k : ℕ) → page_size * size_of (module_view (tree_of self.now)).memories ≤ k → stands result.now k ≡ None }
    {
        &self.start
    }

    /// Its table, with the element segments in place (Core Specification, 4.5.4 Instantiation): that of each of its instances at any time.
    pub fn table(&self) -> &Table<A>
        ensures { result.now ≡ (fresh (module_view (tree_of self.now))).table }
    {
        &self.table
    }

    /// The first values of its globals, in the order of their numbers (Core Specification, 4.5.4 Instantiation).
    pub fn globals(&self) -> &[Value]
        ensures { result.now ≡ (fresh (module_view (tree_of self.now))).globals }
    {
        &self.globals
    }

    /// What is exported under a name (Core Specification, 2.5.10 Exports), or None where nothing is. It looks among the names by halves, in the order of their bytes.
    pub fn exported(&self, name: &str) -> Option<ExportDesc>
        ensures { option_map export_desc_view result ≡ exported name.now (module_view (tree_of self.now)).exports }
    {
        self.exports.get(name).copied()
    }

    /// The same module with the same host calls under another allocator. It is linked by its type.
    ///
    /// # Errors
    ///
    /// There is no memory for the copy.
    pub fn copy_in<B: Allocator + Clone>(&self, alloc: B) -> Result<Deployed<B>, NoMemory>
        ensures same_tree { IfOk result (λ d. module_view (tree_of d) ≡ module_view (tree_of self.now)) }
        ensures same_hosts { IfOk result (λ d. hosts_of d ≡ hosts_of self.now) }
    {
        let hosts = Vec::from_slice(alloc.clone()?, self.hosts())?;
        let start = self.start.copy_in(alloc.clone()?)?;
        let table = self.table.copy_in(alloc.clone()?)?;
        let globals = Vec::from_slice(alloc.clone()?, self.globals())?;
        let tree = self.tree.copy_in(alloc.clone()?)?;
        let exports = exports_by_name(&alloc, &tree.exports)?;
        Ok(Deployed {
            tree,
            hosts,
            start,
            table,
            globals,
            exports,
        })
    }

    /// A law: the module is typed, its imports are these host calls, and its segments are in range.
    pub fn is_linked(&self)
        ensures { ∥ IsLinked (module_view (tree_of self.now)) (hosts_of self.now) ∥₁ }
    {}
}
