//! The exports on worlds, but for those on their cells.

ghost use Rattle.std.specs.Prelude.{◌⊎◌};
ghost use Rattle.embed.specs.Given.{IsDigestOf, IsExtension, IsNothing};
ghost use Rattle.embed.specs.Refusals.{RefusesExtending, RefusesWorld};
ghost use Rattle.foshqarel_c.specs.Buffers.{Comes, IsGiven, IsLack};

use crate::buffers::{fail, give, lack};
use crate::told::Told;
use std::alloc::Global;
use wtypes::NoMemory;

/// The world of no contracts and no cells.
#[unsafe(no_mangle)]
pub extern "C" fn foshqarel_world_new(alloc: Global, world: &mut [u8], told: &mut Told) -> u32
    ensures { IsGiven IsNothing world.old world.new told.new result ⊎ IsLack world.old world.new told.new result }
{
    match embed::new_world(alloc) {
        Ok(bytes) => give(&bytes, world, told),
        Err(NoMemory) => lack(told),
    }
}

/// A world with the contract that a module is behind its own.
#[unsafe(no_mangle)]
pub extern "C" fn foshqarel_world_extend(
    alloc: Global,
    world: &[u8],
    code: &[u8],
    next: &mut [u8],
    told: &mut Told,
) -> u32
    ensures { Comes (IsExtension world.now code.now) (RefusesExtending world.now code.now) next.old next.new told.new result }
{
    match embed::extend(alloc, world, code) {
        Ok(bytes) => give(&bytes, next, told),
        Err(failure) => fail(failure, next, told),
    }
}

/// SHA-256 of the bytes of a world.
#[unsafe(no_mangle)]
pub extern "C" fn foshqarel_world_digest(
    alloc: Global,
    world: &[u8],
    digest: &mut [u8],
    told: &mut Told,
) -> u32
    ensures { Comes (IsDigestOf world.now) (RefusesWorld world.now) digest.old digest.new told.new result }
{
    match embed::digest_of(alloc, world) {
        Ok(bytes) => give(bytes.as_slice(), digest, told),
        Err(failure) => fail(failure, digest, told),
    }
}
