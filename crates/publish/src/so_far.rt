// What is published so far, apart from the cells.
ghost use Rattle.std.specs.Prelude.{◌≡◌, ◌+◌, ◌-◌, ◌<◌, ◌≤◌, ◌^◌, ◌∷◌, ◌++◌, ◌↔◌, [], true, false, IsTrue, IfOk, OnOk, length, replicate, slice_set, vec_len, vec_capacity};
ghost use Rattle.publish.specs.Publication.{is_marked, AreUnmarked};

use lock_profile::Touched;
use serial::Executed;
use spec_ledger::{NoMemory, Receipt};
use std::alloc::Allocator;

/// The published calls with what they came to, marks of them by number, the fuel that is left of the block's when the
/// limits of the published calls are taken from it, and the fuel that they used.
#[derive(Drop)]
pub(crate) struct SoFar<A: Allocator> {
    pub(crate) order: Vec<u32, A>,
    pub(crate) receipts: Vec<Receipt, A>,
    pub(crate) touched: Vec<Touched<A>, A>,
    pub(crate) marks: Vec<bool, A>,
    pub(crate) remaining: u64,
    pub(crate) used: u64,
}

impl<A: Allocator + Copy> SoFar<A> {
    /// Nothing of so many calls.
    pub(crate) fn open(alloc: A, calls: usize, fuel: u64) -> Result<SoFar<A>, NoMemory>
        ensures order { IfOk result (λ s. s.order.items ≡ []) }
        ensures receipts { IfOk result (λ s. s.receipts.items ≡ []) }
        ensures touched { IfOk result (λ s. s.touched.items ≡ []) }
        ensures marks { IfOk result (λ s. s.marks.items ≡ replicate calls false) }
        ensures remaining { IfOk result (λ s. s.remaining ≡ fuel) }
        ensures used { IfOk result (λ s. s.used ≡ 0) }
    {
        let marks = vec![in alloc; false; calls]?;
        Ok(SoFar {
            order: Vec::new(alloc),
            receipts: Vec::new(alloc),
            touched: Vec::new(alloc),
            marks,
            remaining: fuel,
            used: 0,
        })
    }

    /// Whether a call is unmarked, and this limit within the fuel that is left.
    pub(crate) fn has_room(&self, call: u32, limit: u64) -> bool
        requires { call < length self.now.marks.items }
        ensures { IsTrue result ↔ ((is_marked self.now.marks.items call ≡ false) × (limit ≤ self.now.remaining)) }
    {
        !self.marks[call as usize] && limit <= self.remaining
    }

    /// Makes room for the number and the receipt of one call more.
    pub(crate) fn reserve_next(&mut self) -> Result<(), NoMemory>
        ensures order { self.new.order.items ≡ self.old.order.items }
        ensures receipts { self.new.receipts.items ≡ self.old.receipts.items }
        ensures touched { self.new.touched ≡ self.old.touched }
        ensures marks { self.new.marks.items ≡ self.old.marks.items }
        ensures remaining { self.new.remaining ≡ self.old.remaining }
        ensures used { self.new.used ≡ self.old.used }
        ensures order_room { OnOk result (vec_len self.new.order < vec_capacity self.new.order) }
        ensures receipts_room { OnOk result (vec_len self.new.receipts < vec_capacity self.new.receipts) }
    {
        self.order.reserve(1)?;
        self.receipts.reserve(1)?;
        Ok(())
    }

    /// Makes room for one call more.
    pub(crate) fn reserve(&mut self) -> Result<(), NoMemory>
        ensures order { self.new.order.items ≡ self.old.order.items }
        ensures receipts { self.new.receipts.items ≡ self.old.receipts.items }
        ensures touched { self.new.touched.items ≡ self.old.touched.items }
        ensures marks { self.new.marks.items ≡ self.old.marks.items }
        ensures remaining { self.new.remaining ≡ self.old.remaining }
        ensures used { self.new.used ≡ self.old.used }
        ensures order_room { OnOk result (vec_len self.new.order < vec_capacity self.new.order) }
        ensures receipts_room { OnOk result (vec_len self.new.receipts < vec_capacity self.new.receipts) }
        ensures touched_room { OnOk result (vec_len self.new.touched < vec_capacity self.new.touched) }
    {
        self.reserve_next()?;
        self.touched.reserve(1)?;
        Ok(())
    }

    /// Notes a call of this limit with its receipt, but not the locks that it touched.
    pub(crate) fn note(&mut self, call: u32, limit: u64, receipt: Receipt)
        requires order_room { vec_len self.old.order < vec_capacity self.old.order }
        requires receipts_room { vec_len self.old.receipts < vec_capacity self.old.receipts }
        requires known { call < length self.old.marks.items }
        requires fits { limit ≤ self.old.remaining }
        requires used { self.old.used + receipt.used < 2 ^ 64 }
        ensures order { self.new.order.items ≡ self.old.order.items ++ call ∷ [] }
        ensures receipts { self.new.receipts.items ≡ self.old.receipts.items ++ receipt ∷ [] }
        ensures touched { self.new.touched ≡ self.old.touched }
        ensures marks { self.new.marks.items ≡ slice_set self.old.marks.items call true }
        ensures remaining { self.new.remaining ≡ self.old.remaining - limit }
        ensures used { self.new.used ≡ self.old.used + receipt.used }
    {
        self.order.push_reserved(call);
        self.receipts.push_reserved(receipt);
        self.marks[call as usize] = true;
        self.remaining -= limit;
        self.used += receipt.used;
    }

    /// Notes a call of this limit, with what it came to.
    pub(crate) fn push(&mut self, call: u32, limit: u64, executed: Executed<A>)
        requires order_room { vec_len self.old.order < vec_capacity self.old.order }
        requires receipts_room { vec_len self.old.receipts < vec_capacity self.old.receipts }
        requires touched_room { vec_len self.old.touched < vec_capacity self.old.touched }
        requires known { call < length self.old.marks.items }
        requires fits { limit ≤ self.old.remaining }
        requires used { self.old.used + executed.receipt.used < 2 ^ 64 }
        ensures order { self.new.order.items ≡ self.old.order.items ++ call ∷ [] }
        ensures receipts { self.new.receipts.items ≡ self.old.receipts.items ++ executed.receipt ∷ [] }
        ensures touched { self.new.touched.items ≡ self.old.touched.items ++ executed.touched ∷ [] }
        ensures marks { self.new.marks.items ≡ slice_set self.old.marks.items call true }
        ensures remaining { self.new.remaining ≡ self.old.remaining - limit }
        ensures used { self.new.used ≡ self.old.used + executed.receipt.used }
    {
        self.touched.push_reserved(executed.touched);
        self.note(call, limit, executed.receipt);
    }
}

/// The numbers that are not marked, rising.
pub(crate) fn unmarked<A: Allocator + Copy>(
    alloc: A,
    marks: &[bool],
) -> Result<Vec<u32, A>, NoMemory>
    requires { length marks.now < 2 ^ 32 }
    ensures { IfOk result (λ left. AreUnmarked marks.now (length marks.now) left.items) }
{
    let mut left = Vec::new(alloc);
    for (call, marked) in marks.iter().enumerate() {
        if *marked {
            continue;
        }
        left.push(call as u32)?;
    }
    Ok(left)
}
