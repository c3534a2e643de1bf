//! Worlds.

ghost use Rattle.std.specs.Prelude.{◌≤◌, vec_len};
ghost use Rattle.std.proofs.Props.{props};
ghost use Rattle.world.specs.WorldDigest.{IsKeptDigest};

use link::deployed::Deployed;
use std::alloc::{Allocator, Global};
use storage::Cells;

/// Contracts and the cells of their storage: at most 1,024 contracts. A contract's number is its place. A world does not change, so it may keep the
/// digest of its bytes.
#[derive(Drop)]
pub struct World<A: Allocator = Global> {
    contracts: Vec<Deployed<A>, A>,
    cells: Cells<A>,
    digest: Option<[u8; 32]>,
    ghost kept: { IsKeptDigest digest contracts.items cells.cells } by { Prim.hlevel props },
    pub ghost few: { vec_len contracts ≤ 1024 },
}

impl World {
    /// The most contracts.
    pub const MOST_CONTRACTS: usize = 1_024;
}

impl<A: Allocator + Copy> World<A> {
    ghost use Rattle.spec_block.specs.Bytes.{SpellsWorld, world_bytes};
    ghost use Rattle.world.specs.Views.{world_view};

    /// A law: the bytes of the world spell it, so who reads them has it again.
    pub fn is_spelled(&self)
        ensures { SpellsWorld (world_bytes (world_view self.now)) (world_view self.now) }
    {
        self.cells.use_invariant();
        let _entries = self.cells.entries();
    }
}

impl<A: Allocator> World<A> {
    ghost use Rattle.std.specs.Prelude.{◌≡◌, IfSome, length, map};
    ghost use Rattle.sha2.specs.Sha256.{sha256};
    ghost use Rattle.spec_block.specs.Bytes.{world_bytes};
    ghost use Rattle.world.specs.Views.{contract_view, world_view};

    /// The world of these contracts and cells.
    pub fn new(contracts: Vec<Deployed<A>, A>, cells: Cells<A>) -> Self
        requires { vec_len contracts ≤ World.MOST_CONTRACTS }
        ensures contracts { (world_view result).contracts ≡ map contract_view contracts.items }
        ensures cells { (world_view result).cells ≡ cells.cells }
    {
        World {
            contracts,
            cells,
            digest: None,
        }
    }

    /// The same world, which keeps the digest of its bytes: SHA-256 of them, so that it is not made again.
    pub fn with_digest(self, digest: [u8; 32]) -> Self
        requires { digest ≡ sha256 (world_bytes (world_view self)) }
        ensures { world_view result ≡ world_view self }
    {
        let World {
            contracts,
            cells,
            digest: _,
        } = self;
        World {
            contracts,
            cells,
            digest: Some(digest),
        }
    }

    /// SHA-256 of the world's bytes, where it is kept.
    pub fn kept_digest(&self) -> Option<[u8; 32]>
        ensures { IfSome result (λ digest. digest ≡ sha256 (world_bytes (world_view self.now))) }
    {
        self.digest
    }

    /// The contracts, by their numbers.
    pub fn contracts(&self) -> &[Deployed<A>]
        ensures contracts { map contract_view result.now ≡ (world_view self.now).contracts }
        ensures few { length result.now ≤ World.MOST_CONTRACTS }
    {
        &self.contracts
    }

    /// The cells.
    pub fn cells(&self) -> &Cells<A>
        ensures { result.now.cells ≡ (world_view self.now).cells }
    {
        &self.cells
    }

    /// Hands out the contracts, by their numbers, and the cells.
    pub fn into_parts(self) -> (Vec<Deployed<A>, A>, Cells<A>)
        ensures contracts { map contract_view result.0.items ≡ (world_view self).contracts }
        ensures few { vec_len result.0 ≤ World.MOST_CONTRACTS }
        ensures cells { result.1.cells ≡ (world_view self).cells }
    {
        let World {
            contracts,
            cells,
            digest: _,
        } = self;
        (contracts, cells)
    }
}
