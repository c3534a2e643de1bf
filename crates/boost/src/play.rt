// Lists of events.
ghost use Rattle.std.specs.Prelude.{◌≡◌, ℕ, IfOk, IfSome, IfNone, OnErr, true, ◌≢◌, map};
ghost use Rattle.spec_ledger.specs.Events.{IsStale, HasNoAttempt};
ghost use Rattle.boost.specs.Play.{Plays, event_of, opened, Happens, Begin, Act, Enter, Leave, Undo, Commit};

use crate::book::{BeginRefusal, Book, CommitRefusal, EnterRefusal, LeaveRefusal, OpRefusal, Run};
use spec_ledger::{Op, Reply};
use std::alloc::Allocator;
use storage::{Cells, NoMemory};

/// How many calls the book of a list of events has.
const CALLS: u32 = 65_535;

/// A call's result without its ticket.
#[derive(Clone, Copy, Debug, PartialEq, Eq)]
pub enum Answer {
    /// An attempt was begun.
    Begun,
    /// An operation was done, with this reply.
    Replied(Reply),
    /// A level was entered.
    Entered,
    /// The innermost level was left.
    Left,
    /// The live attempt, if there was one, was undone.
    Undone,
    /// The attempt was committed at this position.
    Committed(u32),
    /// No attempt was begun.
    BeginRefused(BeginRefusal),
    /// The operation was not done.
    OpRefused(OpRefusal),
    /// No level was entered.
    EnterRefused(EnterRefusal),
    /// No level was left.
    LeaveRefused(LeaveRefusal),
    /// The attempt was not committed.
    CommitRefused(CommitRefusal),
}

/// What is done to a book.
#[derive(Drop)]
pub enum Event<'a> {
    /// Begin an attempt of a call.
    Begin(u32),
    /// Do an operation for the live attempt of a call.
    Op(u32, Op),
    /// Enter a level of the live attempt of a call.
    Enter(u32),
    /// Leave the innermost level of the live attempt of a call, whose changes stand where this is true.
    Leave(u32, bool),
    /// Undo the live attempt of a call.
    Undo(u32),
    /// Commit the live attempt of a call, whose run is this.
    Commit(u32, Run<'a>),
}

impl<A: Allocator + Copy> Book<A> {
    fn begin_event(&mut self, call: u32) -> Result<Answer, NoMemory>
        ensures ok { IfOk result (λ answer. Happens self.old (Begin call) answer self.new) }
        ensures err { OnErr result (self.new ≡ self.old) }
    {
        match self.begin(call) {
            Ok(_) => Ok(Answer::Begun),
            Err(BeginRefusal::NoMemory) => Err(NoMemory),
            Err(refusal) => Ok(Answer::BeginRefused(refusal)),
        }
    }

    fn op_event(&mut self, call: u32, op: Op) -> Result<Answer, NoMemory>
        ensures ok { IfOk result (λ answer. Happens self.old (Act call op) answer self.new) }
        ensures err { OnErr result (self.new ≡ self.old) }
    {
        let Some(ticket) = self.ticket_of(call) else {
            return Ok(Answer::OpRefused(OpRefusal::Stale));
        };
        match self.op(&ticket, op) {
            Ok(reply) => Ok(Answer::Replied(reply)),
            Err(OpRefusal::NoMemory) => Err(NoMemory),
            Err(OpRefusal::Conflict) => Ok(Answer::OpRefused(OpRefusal::Conflict)),
            Err(OpRefusal::Stale) => unreachable!(),
        }
    }

    fn enter_event(&mut self, call: u32) -> Result<Answer, NoMemory>
        ensures ok { IfOk result (λ answer. Happens self.old (Enter call) answer self.new) }
        ensures err { OnErr result (self.new ≡ self.old) }
    {
        let Some(ticket) = self.ticket_of(call) else {
            return Ok(Answer::EnterRefused(EnterRefusal::Stale));
        };
        match self.enter(&ticket) {
            Ok(()) => Ok(Answer::Entered),
            Err(EnterRefusal::NoMemory) => Err(NoMemory),
            Err(EnterRefusal::Stale) => unreachable!(),
        }
    }

    fn leave_event(&mut self, call: u32, keep: bool) -> Answer
        ensures { Happens self.old (Leave call keep) result self.new }
    {
        let Some(ticket) = self.ticket_of(call) else {
            return Answer::LeaveRefused(LeaveRefusal::Stale);
        };
        match self.leave(&ticket, keep) {
            Ok(()) => Answer::Left,
            Err(LeaveRefusal::NotEntered) => Answer::LeaveRefused(LeaveRefusal::NotEntered),
            Err(LeaveRefusal::Stale) => unreachable!(),
        }
    }

    fn undo_event(&mut self, call: u32) -> Answer
        ensures { Happens self.old (Undo call) result self.new }
    {
        let Some(ticket) = self.ticket_of(call) else {
            return Answer::Undone;
        };
        self.undo(ticket);
        Answer::Undone
    }

    fn commit_event(&mut self, call: u32, run: &Run<'_>) -> Result<Answer, NoMemory>
        ensures ok { IfOk result (λ answer. Happens self.old (Commit call run.now.trace.now run.now.outcome) answer self.new) }
        ensures err { OnErr result (self.new ≡ self.old) }
    {
        let Some(ticket) = self.ticket_of(call) else {
            return Ok(Answer::CommitRefused(CommitRefusal::Stale));
        };
        match self.commit(ticket, run) {
            Ok(position) => Ok(Answer::Committed(position)),
            Err((_, CommitRefusal::NoMemory)) => Err(NoMemory),
            Err((_, CommitRefusal::Differs)) => Ok(Answer::CommitRefused(CommitRefusal::Differs)),
            Err((_, CommitRefusal::Stale)) => unreachable!(),
        }
    }

    /// One event.
    pub fn happen(&mut self, event: &Event<'_>) -> Result<Answer, NoMemory>
        ensures ok { IfOk result (λ answer. Happens self.old (event_of event.now) answer self.new) }
        ensures err { OnErr result (self.new ≡ self.old) }
    {
        match event {
            Event::Begin(call) => self.begin_event(*call),
            Event::Op(call, op) => self.op_event(*call, *op),
            Event::Enter(call) => self.enter_event(*call),
            Event::Leave(call, keep) => Ok(self.leave_event(*call, *keep)),
            Event::Undo(call) => Ok(self.undo_event(*call)),
            Event::Commit(call, run) => self.commit_event(*call, run),
        }
    }

    /// Plays a list of events over these cells, in a book of 65,535 calls. The ticket of an event is that of its call's live attempt.
    pub fn play(
        alloc: A,
        opening: Cells<A>,
        events: &[Event<'_>],
    ) -> Result<(Self, Vec<Answer, A>), NoMemory>
        ensures { IfOk result (λ both. Plays (opened opening.cells 65535) (map event_of events.now) both.1.items both.0) }
    {
        let mut book = Book::open(alloc, opening, CALLS)?;
        let answers = book.play_all(alloc, events)?;
        Ok((book, answers))
    }

    /// Plays a list of events, one after another.
    pub fn play_all(&mut self, alloc: A, events: &[Event<'_>]) -> Result<Vec<Answer, A>, NoMemory>
        ensures { IfOk result (λ answers. Plays self.old (map event_of events.now) answers.items self.new) }
    {
        let mut answers = Vec::new(alloc);
        for event in events {
            let answer = self.happen(event)?;
            let Ok(()) = answers.push(answer) else {
                return Err(NoMemory);
            };
        }
        Ok(answers)
    }
}
