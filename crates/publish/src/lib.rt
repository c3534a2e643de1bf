//! The publishing of an order: what is published is a serial execution of the calls in that order, whoever ran them
//! (Dickerson, Gazzillo, Herlihy, Koskinen, "Adding Concurrency to Smart Contracts", PODC 2017, section 4: the serial order
//! that a miner publishes).
#![tactic(auto)]

mod adopting;
mod laws;
mod so_far;

ghost use Rattle.std.specs.Prelude.{◌≡◌, ◌<◌, ◌^◌, ◌↔◌, [], Ok, Some, true, false, IsTrue, All, IfOk, OnOk, OnErr, IfSome, IsSome, length, map, slice_get};
ghost use Rattle.std.specs.FinMap as finite;
ghost use Rattle.spec_ledger.specs.Book.{GetsReplies, IsDefined, settled};
ghost use Rattle.spec_ledger.specs.Order.{IsAdmissible};
ghost use Rattle.spec_execution.specs.Serial.{Serial};
ghost use Rattle.spec_ledger.specs.declared.Version.TheVariants.{Two};
ghost use Rattle.interp.specs.Callee.{setting_view};
ghost use Rattle.serial.specs.Positions.{results_of};
ghost use Rattle.publish.specs.Publication.{IsSerialOrder, MayFollow, HasTaken, IsSameJob, HasGoneOn, Sweep, AreLeft, limits, fuel_of_results};
ghost use Rattle.publish.specs.Adoption.{AreMade, MayFollowBy, ran_by};

pub use crate::adopting::CallRun;
use crate::adopting::adopt_entries;
pub use crate::laws::one_sweep;
use crate::so_far::{SoFar, unmarked};
use boost::book::Closed;
use call::Call;
use interp::finished::Finished;
use link::deployed::Deployed as Contract;
use lock_profile::Touched;
use serial::{Executed, execute, replay};
use spec_ledger::{NoMemory, Receipt, Version};
use std::alloc::{Allocator, Global};
use std::marker::Model;
use storage::Cells;

/// An order that is being published, for a block of version 2. The type keeps that what is published so far is a serial execution from the opening
/// cells, of distinct calls whose limits are together within the fuel.
#[derive(Drop)]
pub struct Publishing<'a, A: Allocator + Copy> {
    alloc: A,
    contracts: &'a [Contract<A>],
    calls: &'a [Call],
    opening: &'a Cells<A>,
    fuel: u64,
    so_far: SoFar<A>,
    cells: Cells<A>,
}

impl<'a, A: Allocator + Copy> Model for Publishing<'a, A> {
    ghost use Rattle.spec_ledger.specs.declared.Version.TheVariants.{Two};
    ghost use Rattle.interp.specs.Callee.{setting_view};
    ghost use Rattle.serial.specs.Positions.{results_of};
    ghost use Rattle.publish.specs.Publication.{Publication, coded_publication, IsKept};

    ghost Value = { Publication };

    ghost coded = { coded_publication };

    ghost view = { λ p. record { setting = setting_view Two p.contracts.now; calls = p.calls.now; opening = p.opening.now.cells; fuel = p.fuel; order = p.so_far.order.items; ran = results_of p.so_far.receipts.items p.so_far.touched.items; cells = p.cells.cells } };

    ghost invariant = { λ p. IsKept (record { setting = setting_view Two p.contracts.now; calls = p.calls.now; opening = p.opening.now.cells; fuel = p.fuel; order = p.so_far.order.items; ran = results_of p.so_far.receipts.items p.so_far.touched.items; cells = p.cells.cells }) p.so_far.receipts.items p.so_far.touched.items p.so_far.marks.items p.so_far.remaining p.so_far.used p.cells.unsettled };
}

/// What was published.
#[derive(Drop)]
pub struct Published<A: Allocator = Global> {
    /// The numbers of the calls, by position.
    pub order: Vec<u32, A>,
    /// The receipt at each position.
    pub receipts: Vec<Receipt, A>,
    /// The locks that the call at each position asked for, each with the join of its modes.
    pub touched: Vec<Touched<A>, A>,
    /// The cells after the last call, in which nothing is unsettled.
    pub cells: Cells<A>,
    /// The fuel that the calls used together.
    pub fuel: u64,
    /// The numbers of the calls outside the order, rising.
    pub left: Vec<u32, A>,
}

impl<'a, A: Allocator + Copy> Publishing<'a, A> {
    /// Nothing is published yet. The limits of the calls of the order are to be within this fuel.
    ///
    /// # Errors
    ///
    /// Memory was refused.
    pub fn open(
        alloc: A,
        contracts: &'a [Contract<A>],
        calls: &'a [Call],
        cells: &'a Cells<A>,
        fuel: u64,
    ) -> Result<Publishing<'a, A>, NoMemory>
        requires { length calls.now < 2 ^ 32 }
        ensures { IfOk result (λ p. p ≡ record { setting = setting_view Two contracts.now; calls = calls.now; opening = cells.now.cells; fuel = fuel; order = []; ran = []; cells = cells.now.cells }) }
    {
        let so_far = SoFar::open(alloc, calls.len(), fuel)?;
        let current = cells.copy(alloc)?;
        Ok(Publishing {
            alloc,
            contracts,
            calls,
            opening: cells,
            fuel,
            so_far,
            cells: current,
        })
    }

    /// Publishes the entries of a book over these cells that is closed, by runs of their calls that were made elsewhere, each
    /// with the locks that it asked for. Each reply of an entry is known to be the one of the cells at that point, and the cells
    /// of the book are those that the entries leave: so a run is compared with its entry, and nothing is done again. None where
    /// there are more or fewer runs than entries, where an entry has not the call, trace and outcome of the run at its place, or
    /// where a call comes twice or does not fit the fuel.
    ///
    /// # Errors
    ///
    /// Memory was refused.
    pub fn adopt_closed_book(
        alloc: A,
        contracts: &'a [Contract<A>],
        calls: &'a [Call],
        cells: &'a Cells<A>,
        fuel: u64,
        closed: Closed<A>,
        runs: &[CallRun<'a, A>],
        touched: Vec<Touched<A>, A>,
    ) -> Result<Option<Publishing<'a, A>>, NoMemory>
        requires calls { length calls.now < 2 ^ 32 }
        requires replies { IsDefined cells.now.cells closed.entries.items }
        requires cells { closed.cells.cells ≡ settled cells.now.cells closed.entries.items }
        requires settled { closed.cells.unsettled ≡ finite.empty }
        requires runs { AreMade (setting_view Two contracts.now) calls.now runs.now touched.items }
        ensures answer { IfOk result (λ o. IsSome o ↔ MayFollowBy (limits calls.now) fuel [] closed.entries.items runs.now) }
        ensures adopted { IfOk result (λ o. IfSome o (λ p. p ≡ record { setting = setting_view Two contracts.now; calls = calls.now; opening = cells.now.cells; fuel = fuel; order = map (λ e. e.call) closed.entries.items; ran = ran_by runs.now touched.items; cells = closed.cells.cells })) }
    {
        let Closed {
            opening: _,
            cells: last,
            entries,
        } = closed;
        let Some(so_far) = adopt_entries(
            alloc, contracts, calls, cells, fuel, &entries, runs, touched,
        )?
        else {
            return Ok(None);
        };
        Ok(Some(Publishing {
            alloc,
            contracts,
            calls,
            opening: cells,
            fuel,
            so_far,
            cells: last,
        }))
    }

    /// What the type keeps.
    pub fn use_invariant(&self)
        ensures { IsSerialOrder self.now }
    {
        let _fuel = self.fuel;
    }

    /// Whether the call may be published next: there is one of this number, it is not yet published, and its limit fits.
    pub fn may_follow(&self, call: u32) -> bool
        ensures { IsTrue result ↔ MayFollow self.now call }
    {
        match self.calls.get(call as usize) {
            Some(known) => self.so_far.has_room(call, known.fuel()),
            None => false,
        }
    }

    /// Publishes a call by a run of it that was made elsewhere, where the call may be published next and each reply of the
    /// run is the one that its operation gives over the cells now. Answers whether the call was taken.
    ///
    /// # Errors
    ///
    /// Memory was refused. Nothing has changed.
    pub fn take_run(&mut self, call: u32, finished: &Finished<'_, A>) -> Result<bool, NoMemory>
        requires contracts { finished.now.setting ≡ self.old.setting }
        requires call { slice_get self.old.calls call ≡ Some finished.now.call }
        ensures answer { IfOk result (λ taken. IsTrue taken ↔ (MayFollow self.old call × GetsReplies finished.now.trace self.old.cells)) }
        ensures taken { result ≡ Ok true → HasTaken self.old call self.new }
        ensures left { result ≡ Ok false → self.new ≡ self.old }
        ensures err { OnErr result (self.new ≡ self.old) }
        ensures same { IsSameJob self.old self.new }
    {
        if !self.may_follow(call) {
            return Ok(false);
        }
        self.so_far.reserve()?;
        let Some(executed) = replay(self.alloc, finished, &mut self.cells)? else {
            return Ok(false);
        };
        self.so_far.push(call, finished.call().fuel(), executed);
        Ok(true)
    }

    /// Runs a call alone over the cells now and publishes it, where it may be published next. Answers whether it was taken.
    ///
    /// # Errors
    ///
    /// Memory was refused. Nothing has changed.
    pub fn take_alone(&mut self, call: u32) -> Result<bool, NoMemory>
        ensures answer { IfOk result (λ taken. IsTrue taken ↔ MayFollow self.old call) }
        ensures taken { result ≡ Ok true → HasTaken self.old call self.new }
        ensures left { result ≡ Ok false → self.new ≡ self.old }
        ensures err { OnErr result (self.new ≡ self.old) }
        ensures same { IsSameJob self.old self.new }
    {
        if !self.may_follow(call) {
            return Ok(false);
        }
        let calls = self.calls;
        let next = &calls[call as usize];
        self.so_far.reserve()?;
        let executed = execute(
            self.alloc,
            self.contracts,
            next,
            &mut self.cells,
            Version::Two,
        )?;
        self.so_far.push(call, next.fuel(), executed);
        Ok(true)
    }

    /// Runs alone and publishes, in rising number, each call that still may be published. No call is then left out that had
    /// room.
    ///
    /// # Errors
    ///
    /// Memory was refused. Some calls may have been published.
    pub fn fill(&mut self) -> Result<(), NoMemory>
        ensures gone_on { HasGoneOn self.old self.new }
        ensures swept { OnOk result (Sweep (limits self.old.calls) self.old.fuel self.old.order (length self.old.calls) self.new.order) }
        ensures admissible { OnOk result (IsAdmissible (limits self.new.calls) self.new.order self.new.fuel) }
    {
        for call in 0..self.count() {
            self.take_alone(call)?;
        }
        self.use_invariant();
        Ok(())
    }

    /// How many calls there are.
    fn count(&self) -> u32
        ensures { result ≡ length self.now.calls }
    {
        self.calls.len() as u32
    }

    /// Hands out what was published, and the calls outside the order.
    ///
    /// # Errors
    ///
    /// Memory was refused.
    pub fn close(self) -> Result<Published<A>, NoMemory>
        ensures order { IfOk result (λ published. published.order.items ≡ self.entry.order) }
        ensures ran { IfOk result (λ published. results_of published.receipts.items published.touched.items ≡ self.entry.ran) }
        ensures receipts { IfOk result (λ published. length published.receipts.items ≡ length self.entry.order) }
        ensures touched { IfOk result (λ published. length published.touched.items ≡ length self.entry.order) }
        ensures cells { IfOk result (λ published. published.cells.cells ≡ self.entry.cells) }
        ensures settled { IfOk result (λ published. published.cells.unsettled ≡ finite.empty) }
        ensures serial { IfOk result (λ published. Serial self.entry.setting self.entry.calls published.order.items self.entry.opening (results_of published.receipts.items published.touched.items) published.cells.cells) }
        ensures fuel { IfOk result (λ published. published.fuel ≡ fuel_of_results self.entry.ran) }
        ensures left { IfOk result (λ published. AreLeft published.order.items (length self.entry.calls) published.left.items) }
    {
        let left = unmarked(self.alloc, &self.so_far.marks)?;
        let Publishing {
            alloc: _,
            contracts: _,
            calls: _,
            opening: _,
            fuel: _,
            so_far,
            cells,
        } = self;
        let SoFar {
            order,
            receipts,
            touched,
            marks: _,
            remaining: _,
            used,
        } = so_far;
        Ok(Published {
            order,
            receipts,
            touched,
            cells,
            fuel: used,
            left,
        })
    }
}
