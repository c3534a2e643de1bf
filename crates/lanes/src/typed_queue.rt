//! The handover: what is taken meets the fact that each giver has shown.
ghost use Rattle.std.specs.Prelude.{◌≡◌, ◌<◌, IfOk, IfErr, IfSome};
ghost use Rattle.lanes.specs.Passes.{IsPassOf};

use crate::parcel::Parcel;
use crate::pass::QueuePass;
use crate::queue_rule::{Agreeing, Found, Given, ItemFact, Taken, Twins};
use crossbeam_queue::RuledArrayQueue;
use std::alloc::Allocator;
use wtypes::NoMemory;

/// A bounded queue, which threads share by a `&`. Each thread calls with a pass of its own.
#[derive(Drop)]
pub struct TypedQueue<K, T, F: ItemFact<K, T>, A: Allocator> {
    queue: RuledArrayQueue<Parcel<K, T>, Option<K>, Agreeing<F>, A>,
    /// What it was opened with, and what the fact speaks of beside each item.
    pub key: K,
}

impl<K: Copy, T, F: ItemFact<K, T>, A: Allocator> TypedQueue<K, T, F, A> {
    /// A handover with room for so many items, and its first pass.
    ///
    /// # Errors
    ///
    /// `NoMemory` where memory was refused.
    pub fn open(
        alloc: A,
        capacity: usize,
        key: K,
    ) -> Result<(TypedQueue<K, T, F, A>, QueuePass<K, T>), NoMemory>
    where
        A: Clone,
        T: Drop,
        requires { 0 < capacity }
        ensures key { IfOk result (λ r. r.0.key ≡ key) }
        ensures pass { IfOk result (λ r. IsPassOf r.0 r.1) }
    {
        let (queue, mut token) = RuledArrayQueue::ruled(alloc, capacity)?;
        // Neither step fails, since the queue has room and no other thread has it.
        let Ok(()) = queue.try_push_as::<Found>(&mut token, Parcel::Key(key)) else {
            return Err(NoMemory);
        };
        let _key = queue.try_pop_as::<Taken<F>>(&mut token);
        Ok((TypedQueue { queue, key }, QueuePass { token }))
    }

    /// One more pass, for another thread.
    pub fn another(&self, pass: &mut QueuePass<K, T>) -> QueuePass<K, T>
        requires { IsPassOf self.now pass.old }
        ensures same { IsPassOf self.now pass.new }
        ensures other { IsPassOf self.now result }
    {
        let token = self.queue.another::<Twins>(&mut pass.token);
        QueuePass { token }
    }

    /// Gives an item to whichever thread takes it. It never waits.
    ///
    /// # Errors
    ///
    /// The item, where the queue is full, or another thread is in the way.
    pub fn give(&self, pass: &mut QueuePass<K, T>, item: T) -> Result<(), T>
        requires pass { IsPassOf self.now pass.old }
        requires fact { F.holds self.now.key item }
        ensures same { IsPassOf self.now pass.new }
        ensures back { IfErr result (λ back. back ≡ item) }
    {
        match self
            .queue
            .try_push_as::<Given>(&mut pass.token, Parcel::Item(item))
        {
            Ok(()) => Ok(()),
            Err(Parcel::Item(back)) => Err(back),
            Err(Parcel::Key(_)) => unreachable!(),
        }
    }

    /// Takes an item that some thread gave. `None` where there is none, or another thread is in the way. It never waits.
    pub fn take(&self, pass: &mut QueuePass<K, T>) -> Option<T>
        requires { IsPassOf self.now pass.old }
        ensures same { IsPassOf self.now pass.new }
        ensures fact { IfSome result (F.holds self.now.key) }
    {
        match self.queue.try_pop_as::<Taken<F>>(&mut pass.token)? {
            Parcel::Item(item) => Some(item),
            Parcel::Key(_) => None,
        }
    }
}
