//! What is measured.
ghost use Rattle.std.specs.Prelude.{◌≤◌, ◌<◌};

/// The most threads that are measured.
pub const MOST_THREADS: u32 = 64;

/// How many threads draw how many numbers together.
#[derive(Clone, Copy)]
pub struct Plan {
    /// How many threads draw.
    pub threads: u32,
    /// How many numbers all of them draw.
    pub draws: u32,
    ghost some_thread: { 0 < threads },
    ghost few_threads: { threads ≤ 64 },
}

impl Plan {
    /// The plan that two words give, the threads and the draws.
    ///
    /// `None` where they are not two, where one is no number of 32 bits, and at no thread or more than 64.
    pub fn of_words(words: &[String]) -> Option<Plan> {
        let [threads, draws] = words else {
            return None;
        };
        let threads = threads.as_str().parse::<u32>().ok()?;
        let draws = draws.as_str().parse::<u32>().ok()?;
        if threads == 0 || threads > MOST_THREADS {
            return None;
        }
        Some(Plan { threads, draws })
    }
}
