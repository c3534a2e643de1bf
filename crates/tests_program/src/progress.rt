//! That a line of progress is said at most four times a second, is taken away once, and is not said where it is not to be; and what is said of calls that
//! run ahead of one that is debugged.

use crate::assertions::{equal, holds};
use pace::{Pace, Step};
use std::fmt::Display;
use std::io::{self, Print};
use std::sync::atomic::{AtomicU64, Ordering};
use std::test::Fail;
use std::time::{Clock, Duration};
use wblock_line::{Progress, WIPE, without_quiet};

/// A clock that a test sets, in milliseconds.
#[derive(Drop)]
struct Dial(AtomicU64);

impl Clock for Dial {
    fn monotonic(&self) -> io::Result<Duration> {
        Ok(Duration::from_millis(self.0.load(Ordering::SeqCst)))
    }

    fn since_1970(&self) -> io::Result<Duration> {
        Ok(Duration::ZERO)
    }
}

/// Counts the lines that are said on it, and how often one is taken away.
#[derive(Drop)]
struct Screen {
    lines: AtomicU64,
    wipes: AtomicU64,
}

impl Print for Screen {
    fn print<D: Display + Drop>(&self, _value: D) -> io::Result<()> {
        Ok(())
    }

    fn println<D: Display + Drop>(&self, _value: D) -> io::Result<()> {
        Ok(())
    }

    fn write_all(&self, bytes: &[u8]) -> io::Result<()> {
        let count = if bytes == WIPE {
            &self.wipes
        } else {
            &self.lines
        };
        count.fetch_add(1, Ordering::SeqCst);
        Ok(())
    }
}

/// Whether it speaks, the milliseconds from a call to the next, which try of each call is told, how many calls begin, and how many lines are said.
const SAID: &[(bool, u64, u32, u32, u64)] = &[
    (true, 1, 0, 250, 0),
    (true, 1, 0, 251, 1),
    (true, 10, 0, 101, 4),
    (true, 300, 0, 4, 3),
    (true, 300, 1, 4, 0),
    (false, 300, 0, 4, 0),
];

#[test]
fn at_most_four_lines_a_second(rt: HostRuntime) -> Result<(), Fail> {
    for row in SAID {
        let (speaks, pause, nth, calls, lines) = *row;
        let dial = Dial(AtomicU64::new(0));
        let screen = Screen {
            lines: AtomicU64::new(0),
            wipes: AtomicU64::new(0),
        };
        let progress = Progress::new(rt.alloc(), &dial, &screen, speaks);
        for call in 0..calls {
            dial.0
                .store(u64::from(call).saturating_mul(pause), Ordering::SeqCst);
            progress.at(Step::Attempt { call, nth });
        }
        progress.wipe();
        progress.wipe();
        let said = screen.lines.load(Ordering::SeqCst);
        let wiped = screen.wipes.load(Ordering::SeqCst);
        equal(&rt, &(pause, calls), &(said, wiped), &(lines, lines.min(1)));
    }
    let words = without_quiet(rt.alloc(), &["mine", "--quiet", "w"])?;
    let are_others = words.others.as_slice() == ["mine", "w"].as_slice();
    holds(&rt, &"quiet", words.quiet && are_others);
    Ok(())
}

/// Counts how often one line is put on it, and how often anything else is.
#[derive(Drop)]
struct Sign<'a> {
    line: &'a [u8],
    times: AtomicU64,
    others: AtomicU64,
}

impl Sign<'_> {
    /// How often the line was put on it, and how often anything else.
    fn counts(&self) -> (u64, u64) {
        (
            self.times.load(Ordering::SeqCst),
            self.others.load(Ordering::SeqCst),
        )
    }
}

impl Print for Sign<'_> {
    fn print<D: Display + Drop>(&self, _value: D) -> io::Result<()> {
        Ok(())
    }

    fn println<D: Display + Drop>(&self, _value: D) -> io::Result<()> {
        Ok(())
    }

    fn write_all(&self, bytes: &[u8]) -> io::Result<()> {
        let count = if bytes == self.line {
            &self.times
        } else {
            &self.others
        };
        count.fetch_add(1, Ordering::SeqCst);
        Ok(())
    }
}

/// Whether it speaks, how much fuel calls may use ahead of one that is debugged, the line that tells it, and how often that is said.
const AHEAD: &[(bool, u64, &[u8], u64)] = &[
    (true, 0, b"", 0),
    (true, 1_000_000_000, b"", 0),
    (
        true,
        1_000_000_001,
        b"\r\x1b[Kearlier calls run with up to 1000000001 of fuel; --fuel N bounds it",
        1,
    ),
    (
        true,
        18_446_744_073_709_551_615,
        b"\r\x1b[Kearlier calls run with up to 18446744073709551615 of fuel; --fuel N bounds it",
        1,
    ),
    (false, 18_446_744_073_709_551_615, b"", 0),
];

#[test]
fn tells_how_much_runs_ahead(rt: HostRuntime) {
    for row in AHEAD {
        let (speaks, fuel, line, times) = *row;
        let dial = Dial(AtomicU64::new(0));
        let sign = Sign {
            line,
            times: AtomicU64::new(0),
            others: AtomicU64::new(0),
        };
        let progress = Progress::new(rt.alloc(), &dial, &sign, speaks);
        progress.runs_alone(fuel);
        equal(&rt, &fuel, &sign.counts(), &(times, 0));
        // the line is taken away once, where it stands
        progress.wipe();
        progress.wipe();
        equal(&rt, &fuel, &sign.counts(), &(times, times));
    }
}
