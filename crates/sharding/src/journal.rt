//! The journal of a book in shards: the committed calls with their whole traces in their order, and how each call stands (Dickerson, Gazzillo, Herlihy,
//! Koskinen, "Adding Concurrency to Smart Contracts", PODC 2017, section 4: the order of commits is what is published).

ghost use Rattle.std.specs.Prelude.{◌≡◌, ◌≢◌, ◌≤◌, ◌↔◌, ℕ, Err, IfOk, IsTrue, OnErr, [], length, replicate, slice_get, Some};
ghost use Rattle.std.specs.List.{AllByRecursion};
ghost use Rattle.spec_ledger.specs.Book.{AreDistinct, call_is_new};
ghost use Rattle.spec_ledger.specs.Modes.{touched};
ghost use Rattle.sharding.specs.Journals.{Begins, Commits, IsJournal, IsLive, after_undo};

use boost::attempt::CommittedCall;
use boost::book::{BeginRefusal, CommitRefusal};
use spec_ledger::{NoMemory, Outcome, TraceStep};
use std::alloc::{Allocator, Global};
use std::marker::Model;

/// How a call stands.
#[derive(Clone, Copy)]
pub enum CallState {
    /// It has no live attempt and no entry.
    Idle,
    /// The attempt of this number lives.
    Live(u64),
    /// It has an entry.
    Committed,
}

/// The committed calls in their order, and how each call stands. The type keeps that no call has two entries, and that just the calls that have one stand
/// committed.
#[derive(Drop)]
pub struct Journal<A: Allocator = Global> {
    entries: Vec<CommittedCall<A>, A>,
    standings: Vec<CallState, A>,
    begun: Vec<u64, A>,
}

impl<A: Allocator> Model for Journal<A> {
    ghost use Rattle.sharding.specs.Journals.{IsJournal, Journal as TheJournal, journal_code};

    ghost Value = { TheJournal };

    ghost coded = { journal_code };

    ghost view = { λ j. record { entries = j.entries.items; standings = j.standings.items; begun = j.begun.items } };

    ghost invariant = { λ j. IsJournal (record { entries = j.entries.items; standings = j.standings.items; begun = j.begun.items }) };
}

/// Whether this attempt is the one that lives.
fn lives(standings: &[CallState], call: u32, number: u64) -> bool
    ensures { IsTrue result ↔ (slice_get standings.now call ≡ Some (CallState.Live number)) }
{
    if call as usize >= standings.len() {
        return false;
    }
    match standings[call as usize] {
        CallState::Live(live) => live == number,
        CallState::Idle | CallState::Committed => false,
    }
}

impl<A: Allocator + Copy> Journal<A> {
    /// A journal of this many calls, with no entry and no attempt.
    ///
    /// # Errors
    ///
    /// Memory was refused.
    pub fn open(alloc: A, calls: u32) -> Result<Self, NoMemory>
        ensures entries { IfOk result (λ journal. journal.entries ≡ []) }
        ensures standings { IfOk result (λ journal. journal.standings ≡ replicate calls CallState.Idle) }
        ensures begun { IfOk result (λ journal. journal.begun ≡ replicate calls 0) }
    {
        let Ok(standings) = vec![in alloc; CallState::Idle; calls as usize] else {
            return Err(NoMemory);
        };
        let Ok(begun) = vec![in alloc; 0u64; calls as usize] else {
            return Err(NoMemory);
        };
        Ok(Journal {
            entries: Vec::new(alloc),
            standings,
            begun,
        })
    }

    /// Begins an attempt of a call, and answers its number, which is new to the call. Takes no memory, and a refusal changes nothing.
    ///
    /// # Errors
    ///
    /// NoMemory where the counter of the call's attempts is full.
    pub fn begin(&mut self, call: u32) -> Result<u64, BeginRefusal>
        ensures ok { IfOk result (λ number. Begins self.old self.new call number) }
        ensures no_such_call { (result ≡ Err BeginRefusal.NoSuchCall) ↔ (length self.old.begun ≤ call) }
        ensures live { (result ≡ Err BeginRefusal.Live) ↔ ((number : ℕ) × IsLive self.old call number) }
        ensures committed { (result ≡ Err BeginRefusal.Committed) ↔ ¬ (call_is_new call self.old.entries) }
        ensures err { OnErr result (self.new ≡ self.old) }
    {
        if call as usize >= self.standings.len() {
            return Err(BeginRefusal::NoSuchCall);
        }
        match self.standings[call as usize] {
            CallState::Idle => (),
            CallState::Live(_) => return Err(BeginRefusal::Live),
            CallState::Committed => return Err(BeginRefusal::Committed),
        }
        let number = self.begun[call as usize];
        if number == u64::MAX {
            return Err(BeginRefusal::NoMemory);
        }
        self.begun[call as usize] = number + 1;
        self.standings[call as usize] = CallState::Live(number);
        Ok(number)
    }

    /// Whether this attempt of the call lives.
    pub fn is_live(&self, call: u32, number: u64) -> bool
        ensures { IsTrue result ↔ IsLive self.now call number }
    {
        lives(&self.standings, call, number)
    }

    /// Undoes a live attempt: its call stands idle. An attempt that does not live changes nothing.
    pub fn undo(&mut self, call: u32, number: u64)
        ensures done { IsLive self.old call number → self.new ≡ after_undo self.old call }
        ensures stale { ¬ (IsLive self.old call number) → self.new ≡ self.old }
    {
        if lives(&self.standings, call, number) {
            self.standings[call as usize] = CallState::Idle;
        }
    }

    /// Commits a live attempt with this trace, and answers its position. Its memory is taken before anything changes, and a refusal changes nothing.
    ///
    /// # Errors
    ///
    /// Stale just where the attempt does not live. Else memory was refused.
    pub fn commit(
        &mut self,
        call: u32,
        number: u64,
        trace: Vec<TraceStep, A>,
        outcome: Outcome,
    ) -> Result<u32, CommitRefusal>
        ensures ok { IfOk result (λ position. Commits self.old self.new call number trace.items outcome position) }
        ensures stale { (result ≡ Err CommitRefusal.Stale) ↔ ¬ (IsLive self.old call number) }
        ensures differs { result ≢ Err CommitRefusal.Differs }
        ensures err { OnErr result (self.new ≡ self.old) }
    {
        if !lives(&self.standings, call, number) {
            return Err(CommitRefusal::Stale);
        }
        if self.entries.reserve(1).is_err() {
            return Err(CommitRefusal::NoMemory);
        }
        let position = self.entries.len() as u32;
        match self.entries.push(CommittedCall::of(call, trace, outcome)) {
            Ok(()) => (),
            Err(_) => unreachable!(),
        }
        self.standings[call as usize] = CallState::Committed;
        Ok(position)
    }

    /// What the type keeps.
    pub fn use_invariant(&self)
        ensures { IsJournal self.now }
    {
        let _entries = &self.entries;
    }

    /// The committed calls in their order.
    pub fn into_entries(self) -> Vec<CommittedCall<A>, A>
        ensures entries { result.items ≡ self.entries }
        ensures distinct { AreDistinct result.items }
        ensures modes { AllByRecursion (λ e. e.modes ≡ touched e.trace) result.items }
    {
        let Journal {
            entries,
            standings: _,
            begun: _,
        } = self;
        entries
    }
}
