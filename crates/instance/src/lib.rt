//! Instances of deployed modules, and the function that a call or a level enters.
#![tactic(auto)]

mod globals;
mod opening;

ghost use Rattle.std.specs.Prelude.{◌≡◌, ℕ, ◌*◌, ◌≤◌, None, map, IfOk};
ghost use Rattle.module_tree.specs.ModuleView.{limits_view};
ghost use Rattle.module_tree.specs.Modules.{module_view};
ghost use Rattle.spec_modules.specs.Profile.{page_size, page_limit};
ghost use Rattle.spec_execution.specs.Configuration.{size_of, fresh};
ghost use Rattle.spec_execution.specs.Reduction.{pages_of, most_pages};
ghost use Rattle.memory.specs.Start.{stands, first_bytes};
ghost use Rattle.link.specs.Parts.{tree_of};
ghost use Rattle.instance.specs.States.{IsFresh};

pub use crate::globals::Globals;
pub use crate::opening::{Refusal, asked_entry, entry_of};
use link::deployed::Deployed;
use link::table::Table;
use memory::{Linear, PAGE_LIMIT, Start};
use spec_ledger::Version;
use std::alloc::{Allocator, Global};
use wtypes::{Limits, NoMemory};

/// What a call may change beside its frames (Core Specification, 4.2.5 Module Instances).
#[derive(Drop)]
pub struct Instance<'a, A: Allocator + Copy = Global> {
    /// The globals, which the module lends before the first write.
    pub globals: Globals<'a, A>,
    /// The memory, which is lent what it begins with. Where the module has none, it has no page.
    pub memory: Linear<'a, A>,
    /// The table, which the module lends, since no instruction writes it. Where the module has none, it has no element.
    pub table: &'a Table<A>,
}

/// A fresh instance (Core Specification, 4.5.4 Instantiation): its globals have their first values, and its data
/// segments and element segments are in place. Its memory takes no memory before the first store, and may grow to the lesser of the version's
/// limit and the declared maximum.
///
/// # Errors
///
/// `NoMemory` where memory was refused.
pub fn open_instance<'a, A: Allocator + Copy>(
    alloc: A,
    version: Version,
    deployed: &'a Deployed<A>,
) -> Result<Instance<'a, A>, NoMemory>
    ensures { IfOk result (λ i. IsFresh version i (module_view (tree_of deployed.now))) }
{
    let globals = Globals::begin(alloc, deployed.globals())?;
    let memory = open_memory(alloc, version, deployed)?;
    Ok(Instance {
        globals,
        memory,
        table: deployed.table(),
    })
}

// The memory, with the data segments in place.
fn open_memory<'a, A: Allocator + Copy>(
    alloc: A,
    version: Version,
    deployed: &'a Deployed<A>,
) -> Result<Linear<'a, A>, NoMemory>
    ensures bytes { IfOk result (λ m. m.bytes ≡ (fresh (module_view (tree_of deployed.now))).memory) }
    ensures max { IfOk result (λ m. m.max ≡ most_pages version (map limits_view (tree_of deployed.now).memories.items)) }
{
    deployed.is_linked();
    let tree = deployed.module();
    first_memory(alloc, version, &tree.memories, deployed.start())
}

// No memory grows to more in version 1, but where its minimum is more.
const OLD_PAGE_LIMIT: u32 = 256;

// The most pages that a memory of this minimum grows to, where it declares no maximum.
fn page_bound(version: Version, min: u32) -> u32
    requires { min ≤ page_limit }
    ensures value { result ≡ pages_of version min }
    ensures few { result ≤ page_limit }
{
    match version {
        Version::One => OLD_PAGE_LIMIT.max(min),
        Version::Two => PAGE_LIMIT,
    }
}

// The memory that begins with these bytes.
fn first_memory<'a, A: Allocator + Copy>(
    alloc: A,
    version: Version,
    memories: &[Limits],
    start: &'a Start<A>,
) -> Result<Linear<'a, A>, NoMemory>
    requires few { size_of (map limits_view memories.now) ≤ page_limit }
    requires fits { size_of (map limits_view memories.now) ≤ most_pages version (map limits_view memories.now) }
    requires ends { (k : ℕ) → page_size * size_of (map limits_view memories.now) ≤ k → stands start.now k ≡ None }
    ensures bytes { IfOk result (λ m. m.bytes ≡ first_bytes start.now (page_size * size_of (map limits_view memories.now))) }
    ensures max { IfOk result (λ m. m.max ≡ most_pages version (map limits_view memories.now)) }
{
    if memories.is_empty() {
        return Linear::begin(alloc, start, 0, PAGE_LIMIT);
    }
    let limits = memories[0];
    let bound = page_bound(version, limits.min);
    Linear::begin(
        alloc,
        start,
        limits.min,
        bound.min(limits.max.unwrap_or(bound)),
    )
}
