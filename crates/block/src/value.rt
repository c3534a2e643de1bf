//! Blocks.

ghost use Rattle.std.specs.Prelude.{◌≡◌, ◌≤◌, ◌↔◌, IsSome, IfSome, IsTrue, length, vec_len};
ghost use Rattle.std.specs.List.{AllByRecursion};
ghost use Rattle.spec_ledger.specs.declared.Version.{Version};
ghost use Rattle.spec_ledger.specs.declared.Receipt.{Receipt};
ghost use Rattle.spec_block.specs.Bytes.{ForVersion, IsBlock, IsDigest, IsPosition};

use records::Position;
use spec_ledger::{Receipt, Version};
use std::alloc::{Allocator, Global};
use std::marker::Model;

/// A block of calls: its version, the digests of the world before, of the calls and of the world after, the positions in their order, and the fuel that
/// the calls used. Its type keeps what a spelling needs in any
/// version: at most 65,535 positions, and what `Position` keeps.
#[derive(Drop)]
pub struct Block<A: Allocator = Global> {
    version: Version,
    before: [u8; 32],
    calls: [u8; 32],
    positions: Vec<Position<A>, A>,
    fuel: u64,
    after: [u8; 32],
}

impl<A: Allocator> Model for Block<A> {
    ghost use Rattle.spec_block.specs.Worlds.{Block as TheBlock};
    ghost use Rattle.spec_block.specs.Bytes.{IsBlock};

    ghost Value = { TheBlock };

    ghost view = { λ b. record { version = b.version; before = b.before; calls = b.calls; positions = b.positions.items; fuel = b.fuel; after = b.after } };

    ghost invariant = { λ b. IsBlock (record { version = b.version; before = b.before; calls = b.calls; positions = b.positions.items; fuel = b.fuel; after = b.after }) };
}

/// A digest is of its type.
fn note_digest(digest: &[u8])
    requires { length digest.now ≡ 32 }
    ensures { IsDigest digest.now }
{
    let _first = digest[0];
}

/// Positions are of their type.
fn note_positions<A: Allocator>(positions: &[Position<A>])
    ensures { AllByRecursion IsPosition positions.now }
{
    for position in positions {
        position.use_invariant();
    }
}

/// Whether a block of this version can tell the receipt.
fn is_told(version: Version, receipt: Receipt) -> bool
    ensures { IsTrue result ↔ ForVersion version receipt }
{
    match version {
        Version::One => receipt.asks == 0,
        Version::Two => true,
    }
}

#[tactic(auto, using(crate::proofs::Told::at))]
fn are_told<A: Allocator>(version: Version, positions: &[Position<A>]) -> bool
    ensures { IsTrue result ↔ AllByRecursion (λ p. ForVersion version p.receipt) positions.now }
{
    for position in positions {
        if !is_told(version, position.receipt()) {
            return false;
        }
    }
    true
}

impl Block {
    /// The most positions.
    pub const MOST_POSITIONS: usize = 65_535;
}

impl<A: Allocator> Block<A> {
    /// The block with these parts. There is none with more than 65,535 positions.
    pub fn new(
        version: Version,
        before: [u8; 32],
        calls: [u8; 32],
        positions: Vec<Position<A>, A>,
        fuel: u64,
        after: [u8; 32],
    ) -> Option<Self>
        ensures there { IsSome result ↔ (vec_len positions ≤ Block.MOST_POSITIONS) }
        ensures is { IfSome result (λ b. b ≡ record { version = version; before = before; calls = calls; positions = positions.items; fuel = fuel; after = after }) }
    {
        note_digest(&before);
        note_digest(&calls);
        note_digest(&after);
        note_positions(&positions);
        if positions.len() > Block::MOST_POSITIONS {
            return None;
        }
        Some(Block {
            version,
            before,
            calls,
            positions,
            fuel,
            after,
        })
    }

    /// The block's version.
    pub fn version(&self) -> Version
        ensures { result ≡ self.now.version }
    {
        self.version
    }

    /// SHA-256 of the world before the calls.
    pub fn before(&self) -> &[u8; 32]
        ensures { result.now ≡ self.now.before }
    {
        &self.before
    }

    /// SHA-256 of the list of calls.
    pub fn calls(&self) -> &[u8; 32]
        ensures { result.now ≡ self.now.calls }
    {
        &self.calls
    }

    /// What the block says of each call, in the block's order.
    pub fn positions(&self) -> &[Position<A>]
        ensures { result.now ≡ self.now.positions }
    {
        &self.positions
    }

    /// The fuel that all of the calls used.
    pub fn fuel(&self) -> u64
        ensures { result ≡ self.now.fuel }
    {
        self.fuel
    }

    /// SHA-256 of the world after the calls.
    pub fn after(&self) -> &[u8; 32]
        ensures { result.now ≡ self.now.after }
    {
        &self.after
    }

    /// Whether the block's version can tell its receipts: in version 1 no level was entered.
    pub fn fits_version(&self) -> bool
        ensures { IsTrue result ↔ AllByRecursion (λ p. ForVersion self.now.version p.receipt) self.now.positions }
    {
        are_told(self.version, &self.positions)
    }

    /// What the type keeps: the block has a spelling.
    pub fn use_invariant(&self)
        ensures { IsBlock self.now }
    {
        let _fuel = self.fuel;
    }
}
