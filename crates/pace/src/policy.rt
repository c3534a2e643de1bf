//! How many threads run the calls that are left of an order, and make the digests of a world. The numbers were measured. No fact rests on them: they decide who runs the calls, never what the calls come to.

ghost use Rattle.std.specs.Prelude.{◌≡◌, ◌⊎◌, ◌<◌, ◌+◌, ◌*◌, ◌/◌, max, min};

use std::alloc::Allocator;
use storage::Cells;

/// From how many cells or positions on it pays to make digests by several threads: each takes some 70 ns of a digest.
const MANY: usize = 4_096;

/// How many threads pay in all where so many calls are left, reckoned from calls that used so much fuel together: one for each half of a millisecond of work. A
/// unit of fuel takes some 5 ns, and a call 2,000 ns beside; to start a thread takes some 20 000 ns (measured with the paper's contracts, calls of 6 to 24 µs).
pub fn threads(workers: u32, fuel: u64, calls: u32, left: u32) -> u32
    requires { 0 < calls }
    ensures { result ≡ max 1 (min workers ((5 * min (fuel / calls) 100000000 + 2000) * left / 500000)) }
{
    let mean = (fuel / u64::from(calls)).min(100_000_000);
    let threads = (5 * mean + 2_000) * u64::from(left) / 500_000;
    threads.min(u64::from(workers)).max(1) as u32
}

/// How many threads pay for the digests of a world with these cells and for what a block says of so many positions: all that there are, or one.
pub fn digesters<A: Allocator + Copy>(workers: u32, cells: &Cells<A>, positions: usize) -> u32
    ensures { (result ≡ 1) ⊎ (result ≡ workers) }
{
    if positions >= MANY || cells.entries().nth(MANY - 1).is_some() {
        workers
    } else {
        1
    }
}
