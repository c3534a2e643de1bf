// The book in shards.
ghost use Rattle.std.specs.Prelude.{◌≡◌, ◌≢◌, ◌<◌, ◌≤◌, ◌⊎◌, ◌↔◌, ◌^◌, ◌++◌, ◌∷◌, ℕ, [], Err, IfOk, IfErr, IsTrue, OnOk, OnErr, false, length, replicate, slice_index_or, slice_set, true};
ghost use Rattle.std.specs.FinMap as finite;
ghost use Rattle.std.specs.List.{AllByRecursion};
ghost use Rattle.spec_ledger.specs.Book.{AreDistinct, Content, IsDefined, call_is_new, settled};
ghost use Rattle.spec_ledger.specs.Cells.{lock_of};
ghost use Rattle.spec_ledger.specs.Events.{EnterDone, IsNotEntered, IsOther, IsStale, LeaveDone, OpDone, UndoDone};
ghost use Rattle.spec_ledger.specs.Modes.{ops_of, touched};
ghost use Rattle.spec_ledger.specs.declared.TraceStep.TheVariants as TheStep;
ghost use Rattle.spec_ledger.specs.Shards.{part, shard_of};
ghost use Rattle.sharding.specs.Steps.{asks_at};
ghost use Rattle.sharding.specs.Journals.{Begins, Commits, IsJournal, IsLive, Journal as TheJournal, after_undo};
ghost use Rattle.sharding.specs.Shard.{HasToWait, IsOver, IsReady, Shard as TheShard};
ghost use Rattle.shards.specs.Taking.{HasOtherSteps, HasStrayed, HoldsOfAShard, HoldsOfTheJournal, IsLawful};
ghost use Rattle.shards.specs.Marks.{IsOutside, closing, marks_of};

use crate::gate::Gate;
use crate::opening::{Padded, open_all, parts_of};
use crate::ticket::Ticket;
use boost::book::{
    BeginRefusal, Closed, CommitRefusal, EnterRefusal, LeaveRefusal, OpRefusal, Run,
};
use pace::acquire;
use sharding::{CloseRefusal, Journal, Shard, close, home, is_part};
use spec_ledger::{Op, Outcome, Reply, TraceStep};
use std::alloc::{Allocator, Global};
use std::marker::Model;
use std::sync::{Mutex, Wait};
use storage::{Cells, NoMemory, lock};

/// A book in shards that threads share. Contracts see it as the cells that it was opened with and the number of its shards.
///
/// An operation takes the lock of its own shard alone. Whenever a lock is taken, what lies under it has all that its type keeps, whatever other threads did,
/// and no more is known of it: no fact passes from one taking to the next. So a clause speaks of the journal or the shard as the call found it. That the
/// shards are parts of one book is therefore looked at when the book is closed.
#[derive(Drop)]
pub struct Shards<'g, G: Gate, A: Allocator = Global> {
    alloc: A,
    gate: &'g G,
    shards: Vec<Padded<A>, A>,
    opening: Cells<A>,
    // (the journal's lock stands on other cache lines than what each operation reads)
    _before: [u64; 8],
    journal: Mutex<Journal<A>>,
    _behind: [u64; 8],
}

impl<'g, G: Gate, A: Allocator> Model for Shards<'g, G, A> {
    ghost use Rattle.std.specs.Prelude.{◌≤◌, vec_len};
    ghost use Rattle.shards.specs.Shards.{Sharded, sharded_code};

    ghost Value = { Sharded };

    ghost coded = { sharded_code };

    ghost view = { λ s. record { opening = s.opening.cells; shards = vec_len s.shards } };

    ghost invariant = { λ s. (1 ≤ vec_len s.shards) × (vec_len s.shards ≤ 16) };
}

/// What is known of the journal that was found under its lock.
fn look_at_journal<A: Allocator + Copy>(journal: &Journal<A>)
    ensures { IsJournal journal.now }
{
    journal.use_invariant();
}

/// What is known of a shard that was found under its lock.
fn look_at_shard<A: Allocator + Copy>(shard: &Shard<A>)
    ensures { IsLawful shard.now }
{
    shard.use_invariant();
}

/// Undoes an attempt in the journal that was found under its lock.
fn undo_in_journal<A: Allocator + Copy>(journal: &mut Journal<A>, call: u32, number: u64)
    ensures lawful { IsJournal journal.old }
    ensures done { (IsLive journal.old call number × (journal.new ≡ after_undo journal.old call)) ⊎ (¬ (IsLive journal.old call number) × (journal.new ≡ journal.old)) }
{
    journal.use_invariant();
    if journal.is_live(call, number) {
        journal.undo(call, number);
    }
}

/// A copy of a trace.
fn copied<A: Allocator + Copy>(alloc: A, trace: &[TraceStep]) -> Result<Vec<TraceStep, A>, NoMemory>
    ensures { IfOk result (λ steps. steps.items ≡ trace.now) }
{
    let mut steps = Vec::new(alloc);
    for step in trace {
        steps.push(*step)?;
    }
    Ok(steps)
}

/// Whether a step is an operation in a shard that an attempt has not touched.
fn strays<A: Allocator + Copy>(ticket: &Ticket<A>, step: TraceStep, shards: u32) -> bool
    requires { 0 < shards }
    ensures { IsTrue result → (shard : ℕ) × (slice_index_or ticket.now.touched shard false ≡ false) × (asks_at (shard_of shards) shard step ≡ true) }
{
    match step {
        TraceStep::Did(op, _) => !ticket.has_touched(home(lock(op), shards) as usize),
        TraceStep::Opened | TraceStep::Kept | TraceStep::Dropped => false,
    }
}

/// Whether a trace has an operation in a shard that an attempt has not touched.
fn has_strayed<A: Allocator + Copy>(ticket: &Ticket<A>, trace: &[TraceStep], shards: u32) -> bool
    requires { 0 < shards }
    ensures { IsTrue result → HasStrayed shards ticket.now.touched trace.now }
{
    for step in trace {
        if strays(ticket, *step, shards) {
            return true;
        }
    }
    false
}

/// Whether a trace has the marks of an attempt's levels, and no others.
fn has_marks<A: Allocator + Copy>(ticket: &Ticket<A>, trace: &[TraceStep], shards: u32) -> bool
    requires { 0 < shards }
    ensures { IsTrue result ↔ (ticket.now.marks ≡ marks_of trace.now) }
{
    // (the shards' numbers are below their count, so that the part of this number has the marks alone)
    is_part(ticket.marks.steps(), trace, shards, shards)
}

impl<'g, G: Gate, A: Allocator + Copy> Shards<'g, G, A> {
    /// A book of this many calls in this many shards, with no entry and no attempt, over these cells.
    ///
    /// # Errors
    ///
    /// Memory was refused.
    pub fn open(
        alloc: A,
        opening: Cells<A>,
        calls: u32,
        shards: u32,
        gate: &'g G,
    ) -> Result<Self, NoMemory>
        requires { (1 ≤ shards) × (shards ≤ 16) }
        ensures opening { IfOk result (λ book. book.opening ≡ opening.cells) }
        ensures shards { IfOk result (λ book. book.shards ≡ shards) }
    {
        let all = open_all(alloc, &opening, calls, shards)?;
        let journal = Journal::open(alloc, calls)?;
        Ok(Shards {
            alloc,
            gate,
            shards: all,
            opening,
            _before: [0; 8],
            journal: Mutex::new(journal),
            _behind: [0; 8],
        })
    }

    /// How many shards there are.
    fn count(&self) -> u32
        ensures count { result ≡ self.now.shards }
        ensures within { (1 ≤ result) × (result ≤ 16) }
    {
        self.shards.len() as u32
    }

    /// Begins an attempt of a call, under the journal's lock. A refusal changes nothing.
    ///
    /// # Errors
    ///
    /// NoMemory where the counter of the call's attempts is full.
    pub fn begin(&self, rt: &impl Wait, call: u32) -> Result<Ticket<A>, BeginRefusal>
        ensures call { IfOk result (λ ticket. ticket.call ≡ call) }
        ensures touched { IfOk result (λ ticket. ticket.touched ≡ replicate 16 false) }
        ensures marks { IfOk result (λ ticket. ticket.marks ≡ []) }
        ensures ok { IfOk result (λ ticket. HoldsOfTheJournal (λ old. (new : TheJournal) × Begins old new call ticket.number)) }
        ensures no_such_call { result ≡ Err BeginRefusal.NoSuchCall → HoldsOfTheJournal (λ old. length old.begun ≤ call) }
        ensures live { result ≡ Err BeginRefusal.Live → HoldsOfTheJournal (λ old. (number : ℕ) × IsLive old call number) }
        ensures committed { result ≡ Err BeginRefusal.Committed → HoldsOfTheJournal (λ old. ¬ (call_is_new call old.entries)) }
    {
        let mut journal = acquire(rt, &self.journal);
        look_at_journal(&journal);
        match journal.begin(call) {
            Ok(number) => Ok(Ticket::new(self.alloc, call, number)),
            Err(refusal) => Err(refusal),
        }
    }

    /// Does an operation of an attempt that has made these marks of levels in a shard, under its lock, and tells the gate that the lock is held.
    fn op_in(
        &self,
        rt: &impl Wait,
        shard: u32,
        call: u32,
        number: u64,
        marks: &[TraceStep],
        op: Op,
    ) -> Result<Reply, OpRefusal>
        requires shard { shard < self.now.shards }
        requires marks { ops_of marks.now ≡ [] }
        ensures ok { IfOk result (λ reply. HoldsOfAShard (λ old. (new : TheShard) × (ready : Content) × IsReady old.book ready call number marks.now × OpDone ready new.book call number op reply)) }
        ensures conflict { result ≡ Err OpRefusal.Conflict → HoldsOfAShard (λ old. HasToWait old.book call number marks.now op) }
        ensures stale { result ≡ Err OpRefusal.Stale → HoldsOfAShard (λ old. IsOver old.book call number ⊎ (length old.book.begun ≤ call)) }
    {
        let mut found = acquire(rt, &self.shards[shard as usize].shard);
        look_at_shard(&found);
        self.gate.inside(shard);
        found.op_with(call, number, marks, op)
    }

    /// Does an operation for an attempt, under the lock of its lock's shard, which the ticket notes. With its first there the attempt is begun in the shard, with
    /// the marks of levels that it has made. A refusal changes neither shard nor ticket.
    ///
    /// # Errors
    ///
    /// Stale where the shard has seen the attempt end or a later one of its call; Conflict where it has to wait for another attempt; else memory was refused.
    pub fn op(&self, rt: &impl Wait, ticket: &mut Ticket<A>, op: Op) -> Result<Reply, OpRefusal>
        ensures ok { IfOk result (λ reply. HoldsOfAShard (λ old. (new : TheShard) × (ready : Content) × IsReady old.book ready ticket.old.call ticket.old.number ticket.old.marks × OpDone ready new.book ticket.old.call ticket.old.number op reply)) }
        ensures conflict { result ≡ Err OpRefusal.Conflict → HoldsOfAShard (λ old. HasToWait old.book ticket.old.call ticket.old.number ticket.old.marks op) }
        ensures stale { result ≡ Err OpRefusal.Stale → HoldsOfAShard (λ old. IsOver old.book ticket.old.call ticket.old.number ⊎ (length old.book.begun ≤ ticket.old.call)) }
        ensures call { ticket.new.call ≡ ticket.old.call }
        ensures number { ticket.new.number ≡ ticket.old.number }
        ensures touched { OnOk result (ticket.new.touched ≡ slice_set ticket.old.touched (shard_of self.now.shards (lock_of op)) true) }
        ensures marks { ticket.new.marks ≡ ticket.old.marks }
        ensures err { OnErr result (ticket.new ≡ ticket.old) }
    {
        let shard = home(lock(op), self.count());
        match self.op_in(
            rt,
            shard,
            ticket.call,
            ticket.number,
            ticket.marks.steps(),
            op,
        ) {
            Ok(reply) => {
                ticket.touch(shard);
                Ok(reply)
            }
            Err(refusal) => Err(refusal),
        }
    }

    /// Makes the room for one level more of an attempt in a shard, under its lock. What is seen stays.
    fn make_room_in(
        &self,
        rt: &impl Wait,
        shard: usize,
        call: u32,
        number: u64,
    ) -> Result<(), EnterRefusal>
        requires { shard < self.now.shards }
        ensures { result ≡ Err EnterRefusal.Stale → HoldsOfAShard (λ old. IsStale old.book call number) }
    {
        let mut found = acquire(rt, &self.shards[shard].shard);
        look_at_shard(&found);
        found.make_room(call, number)
    }

    /// Makes the room for one level more of an attempt in each shard that it has touched, in rising number. A shard where it does not live is passed over.
    fn make_room(&self, rt: &impl Wait, ticket: &Ticket<A>) -> Result<(), NoMemory> {
        for shard in 0..self.shards.len() {
            if !ticket.has_touched(shard) {
                continue;
            }
            match self.make_room_in(rt, shard, ticket.call, ticket.number) {
                Ok(()) | Err(EnterRefusal::Stale) => (),
                Err(EnterRefusal::NoMemory) => return Err(NoMemory),
            }
        }
        Ok(())
    }

    /// Enters a level of an attempt in a shard, under its lock.
    fn enter_in(
        &self,
        rt: &impl Wait,
        shard: usize,
        call: u32,
        number: u64,
    ) -> Result<(), EnterRefusal>
        requires { shard < self.now.shards }
        ensures ok { OnOk result (HoldsOfAShard (λ old. (new : Content) × EnterDone old.book new call number)) }
        ensures stale { result ≡ Err EnterRefusal.Stale → HoldsOfAShard (λ old. IsStale old.book call number) }
    {
        let mut found = acquire(rt, &self.shards[shard].shard);
        look_at_shard(&found);
        found.enter(call, number)
    }

    /// Enters a level of a live attempt: under the journal's lock the room for its marks is made, in each shard that the attempt has touched, in rising number,
    /// and in the ticket; then the mark is made in the ticket and in each of those shards, where a refusal is passed over. A refusal changes neither ticket nor
    /// shard.
    ///
    /// # Errors
    ///
    /// Stale where the attempt does not live; else memory was refused.
    pub fn enter(&self, rt: &impl Wait, ticket: &mut Ticket<A>) -> Result<(), EnterRefusal>
        ensures ok { OnOk result (HoldsOfTheJournal (λ old. IsLive old ticket.old.call ticket.old.number)) }
        ensures stale { result ≡ Err EnterRefusal.Stale → HoldsOfTheJournal (λ old. ¬ (IsLive old ticket.old.call ticket.old.number)) }
        ensures mark { OnOk result (ticket.new.marks ≡ ticket.old.marks ++ TheStep.Opened ∷ []) }
        ensures call { ticket.new.call ≡ ticket.old.call }
        ensures number { ticket.new.number ≡ ticket.old.number }
        ensures touched { ticket.new.touched ≡ ticket.old.touched }
        ensures err { OnErr result (ticket.new ≡ ticket.old) }
    {
        let journal = acquire(rt, &self.journal);
        look_at_journal(&journal);
        if !journal.is_live(ticket.call, ticket.number) {
            return Err(EnterRefusal::Stale);
        }
        if self.make_room(rt, ticket).is_err() {
            return Err(EnterRefusal::NoMemory);
        }
        if ticket.marks.enter().is_err() {
            return Err(EnterRefusal::NoMemory);
        }
        for shard in 0..self.shards.len() {
            if ticket.has_touched(shard) {
                let _passed_over = self.enter_in(rt, shard, ticket.call, ticket.number);
            }
        }
        Ok(())
    }

    /// Leaves the innermost level of an attempt in a shard, under its lock.
    fn leave_in(
        &self,
        rt: &impl Wait,
        shard: usize,
        call: u32,
        number: u64,
        keep: bool,
    ) -> Result<(), LeaveRefusal>
        requires { shard < self.now.shards }
        ensures ok { OnOk result (HoldsOfAShard (λ old. (new : Content) × LeaveDone old.book new call number keep)) }
        ensures stale { result ≡ Err LeaveRefusal.Stale → HoldsOfAShard (λ old. IsStale old.book call number) }
        ensures not_entered { result ≡ Err LeaveRefusal.NotEntered → HoldsOfAShard (λ old. IsNotEntered old.book call number) }
    {
        let mut found = acquire(rt, &self.shards[shard].shard);
        look_at_shard(&found);
        found.leave(call, number, keep)
    }

    /// Leaves the innermost level of a live attempt, for which it takes no memory: under the journal's lock it is left in each shard that the attempt has
    /// touched, in rising number, where a refusal is passed over, and in the ticket. The changes made in it stand, or are taken back, last first; its locks are
    /// held on. A refusal changes neither ticket nor shard.
    ///
    /// # Errors
    ///
    /// Stale where the attempt does not live; else NotEntered, where the ticket has no open mark.
    pub fn leave(
        &self,
        rt: &impl Wait,
        ticket: &mut Ticket<A>,
        keep: bool,
    ) -> Result<(), LeaveRefusal>
        ensures ok { OnOk result (HoldsOfTheJournal (λ old. IsLive old ticket.old.call ticket.old.number)) }
        ensures stale { result ≡ Err LeaveRefusal.Stale → HoldsOfTheJournal (λ old. ¬ (IsLive old ticket.old.call ticket.old.number)) }
        ensures not_entered { result ≡ Err LeaveRefusal.NotEntered → IsOutside ticket.old.marks × HoldsOfTheJournal (λ old. IsLive old ticket.old.call ticket.old.number) }
        ensures inside { OnOk result (¬ (IsOutside ticket.old.marks)) }
        ensures mark { OnOk result (ticket.new.marks ≡ ticket.old.marks ++ closing keep ∷ []) }
        ensures call { ticket.new.call ≡ ticket.old.call }
        ensures number { ticket.new.number ≡ ticket.old.number }
        ensures touched { ticket.new.touched ≡ ticket.old.touched }
        ensures err { OnErr result (ticket.new ≡ ticket.old) }
    {
        let journal = acquire(rt, &self.journal);
        look_at_journal(&journal);
        if !journal.is_live(ticket.call, ticket.number) {
            return Err(LeaveRefusal::Stale);
        }
        if ticket.marks.is_outside() {
            return Err(LeaveRefusal::NotEntered);
        }
        for shard in 0..self.shards.len() {
            if ticket.has_touched(shard) {
                let _passed_over = self.leave_in(rt, shard, ticket.call, ticket.number, keep);
            }
        }
        ticket.marks.leave(keep);
        Ok(())
    }

    /// Undoes an attempt in a shard, under its lock.
    fn undo_in(&self, rt: &impl Wait, shard: usize, call: u32, number: u64)
        requires { shard < self.now.shards }
        ensures { HoldsOfAShard (λ old. IsStale old.book call number ⊎ ((new : Content) × UndoDone old.book new call number)) }
    {
        let mut found = acquire(rt, &self.shards[shard].shard);
        look_at_shard(&found);
        found.undo(call, number);
    }

    /// Undoes a live attempt, for which it takes no memory: under the journal's lock its call is idle, and then it is undone in each shard that it has touched,
    /// in rising number. A stale ticket changes nothing.
    pub fn undo(&self, rt: &impl Wait, ticket: Ticket<A>)
        ensures { HoldsOfTheJournal (λ old. (new : TheJournal) × ((IsLive old ticket.call ticket.number × (new ≡ after_undo old ticket.call)) ⊎ (¬ (IsLive old ticket.call ticket.number) × (new ≡ old)))) }
    {
        let mut journal = acquire(rt, &self.journal);
        undo_in_journal(&mut journal, ticket.call, ticket.number);
        for shard in 0..self.shards.len() {
            if ticket.has_touched(shard) {
                self.undo_in(rt, shard, ticket.call, ticket.number);
            }
        }
    }

    /// Looks at a shard, under its lock: whether the attempt lives there with the shard's part of the run's trace.
    fn look_in(
        &self,
        rt: &impl Wait,
        shard: usize,
        ticket: &Ticket<A>,
        trace: &[TraceStep],
    ) -> Result<(), CommitRefusal>
        requires { shard < self.now.shards }
        ensures stale { result ≡ Err CommitRefusal.Stale → HoldsOfAShard (λ old. IsStale old.book ticket.now.call ticket.now.number) }
        ensures differs { result ≡ Err CommitRefusal.Differs → HoldsOfAShard (λ old. IsOther old.book ticket.now.call ticket.now.number (part (shard_of self.now.shards) shard trace.now)) }
        ensures memory { result ≢ Err CommitRefusal.NoMemory }
    {
        let found = acquire(rt, &self.shards[shard].shard);
        look_at_shard(&found);
        found.look(
            ticket.call,
            ticket.number,
            trace,
            shard as u32,
            self.count(),
        )
    }

    /// Looks at each shard that an attempt has touched, in rising number: that it lives there with the shard's part of the run's trace; and that the trace
    /// has no operation in another shard, and the marks of the ticket.
    fn look(
        &self,
        rt: &impl Wait,
        ticket: &Ticket<A>,
        trace: &[TraceStep],
    ) -> Result<(), CommitRefusal>
        ensures stale { result ≡ Err CommitRefusal.Stale → HoldsOfAShard (λ old. IsStale old.book ticket.now.call ticket.now.number) }
        ensures differs { result ≡ Err CommitRefusal.Differs → HasOtherSteps self.now.shards ticket.now.call ticket.now.number ticket.now.touched ticket.now.marks trace.now }
        ensures marks { OnOk result (ticket.now.marks ≡ marks_of trace.now) }
        ensures memory { result ≢ Err CommitRefusal.NoMemory }
    {
        if has_strayed(ticket, trace, self.count()) {
            return Err(CommitRefusal::Differs);
        }
        if !has_marks(ticket, trace, self.count()) {
            return Err(CommitRefusal::Differs);
        }
        for shard in 0..self.shards.len() {
            if !ticket.has_touched(shard) {
                continue;
            }
            match self.look_in(rt, shard, ticket, trace) {
                Ok(()) => (),
                Err(refusal) => return Err(refusal),
            }
        }
        Ok(())
    }

    /// Ends an attempt in each shard that it has touched, in rising number. A refusal is passed over.
    fn end(&self, rt: &impl Wait, ticket: &Ticket<A>, outcome: Outcome, position: u32) {
        for shard in 0..self.shards.len() {
            if ticket.has_touched(shard) {
                let mut found = acquire(rt, &self.shards[shard].shard);
                let _passed_over = found.end(ticket.call, ticket.number, outcome, position);
            }
        }
    }

    /// Commits a live attempt, whose parts of the trace and whose marks are those of the run, and answers its position in the journal. The trace is copied
    /// first; then the journal's lock is held to the end, and under it the lock of one shard at a time. A refusal changes nothing, and hands the ticket back.
    /// Where a shard does not take the entry, the book is not closed.
    ///
    /// # Errors
    ///
    /// Memory was refused; or Stale where the attempt does not live, and Differs where the run has other operations, replies or marks than the attempt.
    pub fn commit(
        &self,
        rt: &impl Wait,
        ticket: Ticket<A>,
        run: &Run<'_>,
    ) -> Result<u32, (Ticket<A>, CommitRefusal)>
        ensures ok { IfOk result (λ position. HoldsOfTheJournal (λ old. (new : TheJournal) × Commits old new ticket.call ticket.number run.now.trace.now run.now.outcome position)) }
        ensures marks { IfOk result (λ _. ticket.marks ≡ marks_of run.now.trace.now) }
        ensures stale { IfErr result (λ e. e.1 ≡ CommitRefusal.Stale → HoldsOfTheJournal (λ old. ¬ (IsLive old ticket.call ticket.number)) ⊎ HoldsOfAShard (λ old. IsStale old.book ticket.call ticket.number)) }
        ensures differs { IfErr result (λ e. e.1 ≡ CommitRefusal.Differs → HasOtherSteps self.now.shards ticket.call ticket.number ticket.touched ticket.marks run.now.trace.now) }
        ensures ticket { IfErr result (λ e. e.0 ≡ ticket) }
    {
        let Ok(trace) = copied(self.alloc, run.trace) else {
            return Err((ticket, CommitRefusal::NoMemory));
        };
        let mut journal = acquire(rt, &self.journal);
        look_at_journal(&journal);
        if !journal.is_live(ticket.call, ticket.number) {
            return Err((ticket, CommitRefusal::Stale));
        }
        if let Err(refusal) = self.look(rt, &ticket, run.trace) {
            return Err((ticket, refusal));
        }
        match journal.commit(ticket.call, ticket.number, trace, run.outcome) {
            Ok(position) => {
                self.end(rt, &ticket, run.outcome, position);
                Ok(position)
            }
            Err(refusal) => Err((ticket, refusal)),
        }
    }

    /// The opening cells, the entries, and the cells after every live attempt is undone. The entries are a serial run from the opening cells: each reply is the
    /// one that its operation gives at that point, no call has two entries, and the cells are those that the entries leave.
    ///
    /// # Errors
    ///
    /// Differs where a shard is not its part of the book with these opening cells and the journal's entries. Else memory was refused.
    pub fn close(self) -> Result<Closed<A>, CloseRefusal>
        ensures opening { IfOk result (λ closed. closed.opening.cells ≡ self.entry.opening) }
        ensures replies { IfOk result (λ closed. IsDefined closed.opening.cells closed.entries.items) }
        ensures distinct { IfOk result (λ closed. AreDistinct closed.entries.items) }
        ensures modes { IfOk result (λ closed. AllByRecursion (λ e. e.modes ≡ touched e.trace) closed.entries.items) }
        ensures cells { IfOk result (λ closed. closed.cells.cells ≡ settled closed.opening.cells closed.entries.items) }
        ensures settled { IfOk result (λ closed. closed.cells.unsettled ≡ finite.empty) }
    {
        let Shards {
            alloc,
            gate: _,
            shards,
            opening,
            _before: _,
            journal,
            _behind: _,
        } = self;
        let entries = journal.into_inner().into_entries();
        let parts = parts_of(alloc, shards)?;
        close(alloc, opening, entries, &parts)
    }
}
