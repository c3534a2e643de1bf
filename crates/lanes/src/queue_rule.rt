//! The rule of the queue, and the names of the steps.
ghost use Rattle.std.specs.Prelude.{◌≡◌, None};
ghost use Rattle.lanes.specs.QueueRule.{Agreed, known, FitsView};

use crate::parcel::Parcel;
use crossbeam_queue::protocol::{Outcome, Protocol, Split};
use std::marker::PhantomData;

/// What is known of each item that is handed over, beside the key.
pub trait ItemFact<K, T> {
    ghost holds: { K → T → Type 0 };
}

/// The rule of the queue: each pass knows the same key, and what lies in the queue fits it.
pub struct Agreeing<F> {
    fact: PhantomData<F>,
}

impl<K, T, F: ItemFact<K, T>> Protocol<Parcel<K, T>, Option<K>> for Agreeing<F> {
    ghost holds = { Agreed F.holds };

    ghost first = { None };
}

/// The key is put into the queue, and the pass knows it from then on.
pub struct Found;

impl<K, T> Outcome<Parcel<K, T>, Option<K>> for Found {
    ghost then = { λ before parcel after. after ≡ known parcel };
}

/// An item is put into the queue.
pub struct Given;

impl<K, T> Outcome<Parcel<K, T>, Option<K>> for Given {
    ghost then = { λ before parcel after. after ≡ before };
}

/// A parcel is taken out of the queue.
pub struct Taken<F> {
    fact: PhantomData<F>,
}

impl<K, T, F: ItemFact<K, T>> Outcome<Parcel<K, T>, Option<K>> for Taken<F> {
    ghost then = { λ before parcel after. (after ≡ before) × FitsView F.holds before parcel };
}

/// Another pass knows what this one knows.
pub struct Twins;

impl<K> Split<Option<K>> for Twins {
    ghost left = { λ view. view };

    ghost right = { λ view. view };
}
