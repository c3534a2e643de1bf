//! The intake: each number below a number of calls is drawn once, and no more fuel is granted than there is.
ghost use Rattle.std.specs.Prelude.{◌≡◌, ◌<◌};

use crate::account::{Account, Limits};
use crate::rule::{Ask, Cut, FUEL, Fairly, Look, Merge, NEXT, Peek, Take};
use crate::seat::Seat;
use atomic_table::Table;
use std::alloc::{AllocError, Allocator};
use std::sync::Wait;
use wtypes::NoMemory;

/// Numbers to draw and fuel to reserve, which threads share by a `&`. Each thread calls with a seat of its own.
pub struct Intake<A: Allocator> {
    table: Table<u64, Account, Limits, Fairly, A>,
    /// What it was opened with.
    pub limits: Limits,
    ghost two_words: { (table.shared.table_id.words ≡ 2) × (table.shared.table_id.slots ≡ 0) },
    ghost same_limits: { table.shared.key ≡ limits },
    ghost some_seat: { 0 < limits.seats },
}

impl<A: Allocator> Drop for Intake<A> {
    fn drop(self) {
        let Self { table, limits: _ } = self;
        drop(table);
    }
}

impl<A: Allocator> Intake<A> {
    ghost use Rattle.std.specs.Prelude.{◌+◌, ◌≤◌, ℕ, true, false, length, IfOk, IsSome, IfSome, IfNone};
    ghost use Rattle.std.specs.List.{All, sum};
    ghost use Rattle.book_workers.specs.Accounts.{limits, drew, told_done, saw, grant, refuse};
    ghost use Rattle.book_workers.specs.Intakes.{IsSeatOf, IsNewSeatOf};
    ghost use Rattle.book_workers.specs.Seats.{account, IsEachOnce, drawn_by, granted_to, refused_to, is_any_done};

    /// An intake of the numbers below `calls` and of this fuel, with its seats.
    ///
    /// # Errors
    ///
    /// `NoMemory` where memory was refused.
    pub fn open(
        alloc: A,
        calls: u32,
        block_fuel: u64,
        seats: u32,
    ) -> Result<(Intake<A>, Vec<Seat, A>), NoMemory>
    where
        A: Clone,
        requires { 0 < seats }
        ensures limits { IfOk result (λ r. r.0.limits ≡ limits calls block_fuel seats) }
        ensures seats { IfOk result (λ r. (length r.1.items ≡ seats) × All (IsNewSeatOf r.0) r.1.items) }
    {
        let limits = Limits {
            calls,
            block_fuel,
            seats,
        };
        let mut all = Vec::with_capacity(alloc.clone()?, seats as usize)?;
        let (table, mut first) = Table::of_words(alloc, &[0, block_fuel], &limits)?;
        for _number in 1..seats {
            let seat = table.shared.split_seat::<Cut>(&mut first);
            all.push(Seat { token: seat }).map_err(AllocError::from)?;
        }
        all.push(Seat { token: first }).map_err(AllocError::from)?;
        Ok((Intake { table, limits }, all))
    }

    /// A number that no other draw gives, greater than this seat's others. `None` says that all are drawn. It never waits.
    pub fn draw(&self, seat: &mut Seat) -> Option<u32>
        requires { IsSeatOf self.now seat.old }
        ensures same { IsSeatOf self.now seat.new }
        ensures below { IfSome result (λ n. n < self.now.limits.calls) }
        ensures rises { IfSome result (λ n. All (λ k. k < n) (account seat.old).drawn) }
        ensures drawn { IfSome result (λ n. account seat.new ≡ drew (account seat.old) n) }
        ensures never_after_none { IsSome result → (account seat.old).is_done ≡ false }
        ensures none { IfNone result (account seat.new ≡ told_done (account seat.old)) }
    {
        let calls = self.limits.calls;
        let shared = &self.table.shared;
        if shared.load::<Look>(&mut seat.token, NEXT) >= calls as u64 {
            return None;
        }
        let number = shared.fetch_add::<Take>(&mut seat.token, NEXT, 1);
        if number < calls as u64 {
            Some(number as u32)
        } else {
            None
        }
    }

    /// The fuel that is left at one moment of the call. It never waits.
    pub fn left(&self, seat: &mut Seat) -> u64
        requires { IsSeatOf self.now seat.old }
        ensures same { IsSeatOf self.now seat.new }
        ensures least { result ≤ (account seat.old).seen }
        ensures own { result + sum (account seat.old).granted ≤ self.now.limits.block_fuel }
        ensures seen { account seat.new ≡ saw (account seat.old) result }
    {
        self.table.shared.load::<Peek>(&mut seat.token, FUEL)
    }

    /// Takes this fuel, where so much is left; else it takes nothing and answers false.
    pub fn reserve<R: Wait>(&self, rt: &R, seat: &mut Seat, fuel: u64) -> bool
        requires { IsSeatOf self.now seat.old }
        ensures same { IsSeatOf self.now seat.new }
        ensures granted { result ≡ true → (account seat.new ≡ grant (account seat.old) fuel (account seat.new).seen) × ((account seat.new).seen + fuel ≤ (account seat.old).seen) }
        ensures refused { result ≡ false → (account seat.new ≡ refuse (account seat.old) fuel (account seat.new).seen) × ((account seat.new).seen ≤ (account seat.old).seen) × ((account seat.new).seen < fuel) }
    {
        let shared = &self.table.shared;
        let mut expected = fuel;
        for _ in rt.forever() {
            let less = expected - fuel;
            let found = shared.compare_exchange_with::<Ask>(
                &mut seat.token,
                FUEL,
                expected,
                less,
                &fuel,
            );
            if found == expected {
                return true;
            }
            if found < fuel {
                return false;
            }
            expected = found;
        }
        unreachable!()
    }

    /// Ends the intake with all its seats, and answers the fuel that is left.
    pub fn close(self, mut seats: Vec<Seat, A>) -> u64
        requires { (length seats.items ≡ self.limits.seats) × All (IsSeatOf self) seats.items }
        ensures draws { IsEachOnce self.limits seats.items }
        ensures fuel { result + sum (granted_to seats.items) ≡ self.limits.block_fuel }
        ensures refused { All (λ asked. result < asked) (refused_to seats.items) }
    {
        let Intake { table, limits: _ } = self;
        let Some(Seat { token: mut whole }) = seats.pop() else {
            unreachable!()
        };
        while let Some(Seat { token: seat }) = seats.pop() {
            table.shared.join_seat::<Merge>(&mut whole, seat);
        }
        let closed = table.close_with(whole);
        let left = closed.word(FUEL);
        closed.free();
        left
    }
}
