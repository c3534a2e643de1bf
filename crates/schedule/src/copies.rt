//! Profiles that are kept.

ghost use Rattle.std.specs.Prelude.{◌≡◌, IfOk};

use lock_profile::Profile;
use std::alloc::Allocator;
use wtypes::NoMemory;

/// The same profiles once more.
pub(crate) fn profiles_of<A: Allocator + Copy>(
    alloc: A,
    profiles: &[Profile<A>],
) -> Result<Vec<Profile<A>, A>, NoMemory>
    ensures { IfOk result (λ copy. copy.items ≡ profiles.now) }
{
    let mut copy = Vec::new(alloc);
    for profile in profiles {
        copy.push(profile.copy(alloc)?)?;
    }
    Ok(copy)
}
