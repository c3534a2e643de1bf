//! The intake.

ghost use Rattle.std.specs.Prelude.{◌≡◌, ◌<◌, false, IsSome, IfSome, IfNone, ◌+◌, ◌≤◌, true};
ghost use Rattle.std.specs.List.{All, sum};
ghost use Rattle.book_workers.specs.Accounts.{drew, told_done, saw, grant, refuse};
ghost use Rattle.book_workers.specs.Intakes.{IsSeatOf};
ghost use Rattle.book_workers.specs.Seats.{account};

use book_workers::{Intake, Seat};
use std::alloc::Allocator;
use std::sync::Wait;

/// As [`book_workers::Intake::draw`].
pub fn draw<A: Allocator>(intake: &Intake<A>, seat: &mut Seat) -> Option<u32>
    requires { IsSeatOf intake.now seat.old }
    ensures same { IsSeatOf intake.now seat.new }
    ensures below { IfSome result (λ n. n < intake.now.limits.calls) }
    ensures rises { IfSome result (λ n. All (λ k. k < n) (account seat.old).drawn) }
    ensures drawn { IfSome result (λ n. account seat.new ≡ drew (account seat.old) n) }
    ensures never_after_none { IsSome result → (account seat.old).is_done ≡ false }
    ensures none { IfNone result (account seat.new ≡ told_done (account seat.old)) }
{
    intake.draw(seat)
}

/// As [`book_workers::Intake::left`].
pub fn left<A: Allocator>(intake: &Intake<A>, seat: &mut Seat) -> u64
    requires { IsSeatOf intake.now seat.old }
    ensures same { IsSeatOf intake.now seat.new }
    ensures least { result ≤ (account seat.old).seen }
    ensures own { result + sum (account seat.old).granted ≤ intake.now.limits.block_fuel }
    ensures seen { account seat.new ≡ saw (account seat.old) result }
{
    intake.left(seat)
}

/// As [`book_workers::Intake::reserve`].
pub fn reserve<A: Allocator, R: Wait>(
    intake: &Intake<A>,
    rt: &R,
    seat: &mut Seat,
    fuel: u64,
) -> bool
    requires { IsSeatOf intake.now seat.old }
    ensures same { IsSeatOf intake.now seat.new }
    ensures granted { result ≡ true → (account seat.new ≡ grant (account seat.old) fuel (account seat.new).seen) × ((account seat.new).seen + fuel ≤ (account seat.old).seen) }
    ensures refused { result ≡ false → (account seat.new ≡ refuse (account seat.old) fuel (account seat.new).seen) × ((account seat.new).seen ≤ (account seat.old).seen) × ((account seat.new).seen < fuel) }
{
    intake.reserve(rt, seat, fuel)
}
