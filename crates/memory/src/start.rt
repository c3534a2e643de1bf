// The bytes that a memory begins with.

ghost use Rattle.std.specs.Prelude.{◌≡◌, ℕ, ◌+◌, ◌*◌, ◌^◌, ◌<◌, ◌≤◌, ◌++◌, ◌∷◌, [], Option, Some, None, vec_len, length, map, slice_index, option_map, IfOk, OnOk, IfSome, IsTrue};
ghost use Rattle.std.specs.List.{range_with_len};
ghost use Rattle.std.specs.Option.{option_or};
ghost use Rattle.spec_modules.specs.Profile.{page_size, page_limit};
ghost use Rattle.memory.specs.Runs.{begun, own_byte, run_of, end_of, place_in, AreRuns, AreRuns-prop, AreWithin, IsNext, IsPart, part_bytes, HasAdded};
ghost use Rattle.memory.specs.Pieces.{number_in};

use crate::{append_zeros, eight, four, one, two};
use std::alloc::{AllocError, Allocator};

// No memory has an address from here on.
const END: usize = 67_108_864;

// So many bytes from an address on, which stand from a place on in the list of all.
#[derive(Clone, Copy)]
struct Run {
    at: u32,
    len: u32,
    from: u32,
}

// What stands from an address on: so many bytes from a place on in the list of all, or none at so many addresses; and the number of a run
// before which none reaches that address.
#[derive(Clone, Copy)]
struct Part {
    from: Option<usize>,
    count: usize,
    index: usize,
}

/// The bytes that a memory begins with, each at its address. Where none stands, the memory begins with a zero.
#[derive(Drop)]
pub struct Start<A: Allocator> {
    runs: Vec<Run, A>,
    bytes: Vec<u8, A>,
    ghost rising: { AreRuns 0 runs.items } by { AreRuns-prop 0 runs.items },
    ghost within: { AreWithin (vec_len bytes) runs.items },
}

fn past(run: Run) -> usize
    ensures { result ≡ end_of run }
{
    run.at as usize + run.len as usize
}

// The number of a run before which none reaches an address, among these numbers, by halves.
fn find_between<A: Allocator>(runs: &Vec<Run, A>, at: usize, low: usize, high: usize) -> usize
    requires rising { AreRuns 0 runs.now.items }
    requires order { low ≤ high }
    requires there { high ≤ vec_len runs.now }
    requires next { IsNext runs.now.items low at }
    ensures { IsNext runs.now.items result at }
{
    if low == high {
        return low;
    }
    let middle = low + (high - low) / 2;
    let run = runs[middle];
    let end = past(run);
    if end <= at {
        return find_between(runs, at, middle + 1, high);
    }
    find_between(runs, at, low, middle)
}

// The number of a run before which none reaches an address.
fn find<A: Allocator>(runs: &Vec<Run, A>, at: usize) -> usize
    requires { AreRuns 0 runs.now.items }
    ensures { IsNext runs.now.items result at }
{
    find_between(runs, at, 0, runs.len())
}

// What stands from an address on, so many bytes at most, in the runs from this one on, of which those before do not reach it.
fn part_at<A: Allocator>(runs: &Vec<Run, A>, from: usize, at: usize, most: usize) -> Part
    requires rising { AreRuns 0 runs.now.items }
    requires next { IsNext runs.now.items from at }
    requires some { 0 < most }
    ensures next { IsNext runs.now.items result.index at }
    ensures some { 0 < result.count }
    ensures most { result.count ≤ most }
    ensures part { IsPart runs.now.items at result.from result.count }
    ensures within { (n : ℕ) → AreWithin n runs.now.items → IfSome result.from (λ from. from + result.count ≤ n) }
{
    let mut index = from;
    while index < runs.len() {
        let run = runs[index];
        let end = past(run);
        if at < end {
            let first = run.at as usize;
            if at < first {
                return Part {
                    from: None,
                    count: most.min(first - at),
                    index,
                };
            }
            return Part {
                from: Some(run.from as usize + (at - first)),
                count: most.min(end - at),
                index,
            };
        }
        index += 1;
    }
    Part {
        from: None,
        count: most,
        index,
    }
}

// Appends so many bytes from this place on, or zeros.
fn append_part<A: Allocator, B: Allocator>(
    all: &Vec<u8, A>,
    from: Option<usize>,
    count: usize,
    bytes: &mut Vec<u8, B>,
) -> Result<(), AllocError>
    requires within { IfSome from (λ from. from + count ≤ vec_len all.now) }
    requires few { count ≤ page_size * page_limit }
    ensures { OnOk result (bytes.new.items ≡ bytes.old.items ++ part_bytes all.now.items from count) }
{
    match from {
        Some(from) => bytes.extend_from_slice(&all[from..from + count]),
        None => append_zeros(count, bytes),
    }
}

// The little-endian number that `width` bytes from a place on spell, where they are one, two, four or eight.
fn read_number<A: Allocator>(bytes: &Vec<u8, A>, from: usize, width: u32) -> Option<u64>
    requires { from + width ≤ vec_len bytes.now }
    ensures value { IfSome result (λ number. number ≡ number_in (slice_index bytes.now.items) from width) }
    ensures below { IfSome result (λ number. number < 256 ^ width) }
{
    match width {
        8 => Some(eight(bytes, from)),
        4 => Some(four(bytes, from)),
        2 => Some(two(bytes, from)),
        1 => Some(one(bytes, from)),
        _ => None,
    }
}

// Adds a run behind all others, to the last where it goes on from that.
fn add_run<A: Allocator>(
    runs: &mut Vec<Run, A>,
    at: usize,
    len: usize,
    from: u32,
) -> Result<(), AllocError>
    requires rising { AreRuns 0 runs.old.items }
    requires free { (k : ℕ) → at ≤ k → place_in runs.old.items k ≡ None }
    requires some { 0 < len }
    requires limit { at + len ≤ page_size * page_limit }
    ensures rising { OnOk result (AreRuns 0 runs.new.items) }
    ensures within { OnOk result ((n : ℕ) → AreWithin n runs.old.items → from + len ≤ n → AreWithin n runs.new.items) }
    ensures places { OnOk result ((k : ℕ) → place_in runs.new.items k ≡ option_or (place_in (run_of at len from ∷ []) k) (place_in runs.old.items k)) }
{
    let count = runs.len();
    if count > 0 {
        let last = runs[count - 1];
        if past(last) == at && last.from as usize + last.len as usize == from as usize {
            runs[count - 1] = Run {
                at: last.at,
                len: last.len + len as u32,
                from: last.from,
            };
            return Ok(());
        }
    }
    runs.push(Run {
        at: at as u32,
        len: len as u32,
        from,
    })?;
    Ok(())
}

impl<A: Allocator> Start<A> {
    ghost use Rattle.memory.specs.Start.{stands};

    /// The byte at an address of a memory that begins so.
    pub(crate) fn byte(&self, at: usize) -> u8
        ensures { result ≡ begun (stands self.now) at }
    {
        let part = part_at(&self.runs, find(&self.runs, at), at, 1);
        match part.from {
            Some(from) => self.bytes[from],
            None => 0,
        }
    }

    /// The little-endian number that `width` bytes from an address on spell, by one read where they are one, two, four or eight in one run.
    pub(crate) fn number(&self, at: usize, width: u32) -> Option<u64>
        requires some { 0 < width }
        ensures value { IfSome result (λ number. number ≡ number_in (begun (stands self.now)) at width) }
        ensures below { IfSome result (λ number. number < 256 ^ width) }
    {
        let part = part_at(&self.runs, find(&self.runs, at), at, width as usize);
        if part.count < width as usize {
            return None;
        }
        match part.from {
            Some(from) => read_number(&self.bytes, from, width),
            None => None,
        }
    }

    /// Appends the bytes from an address on that a memory begins with.
    pub(crate) fn append<B: Allocator>(
        &self,
        at: usize,
        count: usize,
        bytes: &mut Vec<u8, B>,
    ) -> Result<(), AllocError>
        requires { at + count ≤ page_size * page_limit }
        ensures { OnOk result (bytes.new.items ≡ bytes.old.items ++ map (begun (stands self.now)) (range_with_len at count)) }
    {
        let mut index = find(&self.runs, at);
        let mut done = 0;
        while done < count {
            let part = part_at(&self.runs, index, at + done, count - done);
            append_part(&self.bytes, part.from, part.count, bytes)?;
            index = part.index;
            done += part.count;
        }
        Ok(())
    }

    /// The same bytes under another allocator.
    ///
    /// # Errors
    ///
    /// Memory was refused.
    pub fn copy_in<B: Allocator + Clone>(&self, alloc: B) -> Result<Start<B>, AllocError>
        ensures { IfOk result (λ copy. (k : ℕ) → stands copy k ≡ stands self.now k) }
    {
        let runs = Vec::from_slice(alloc.clone()?, &self.runs)?;
        let bytes = Vec::from_slice(alloc, &self.bytes)?;
        Ok(Start { runs, bytes })
    }

    // Adds bytes behind all others. Where their place needs more than 32 bits, which no module within the byte limit has, memory is refused.
    fn add(self, at: usize, bytes: &[u8]) -> Result<Start<A>, AllocError>
        requires free { (k : ℕ) → at ≤ k → stands self k ≡ None }
        requires some { 0 < length bytes.now }
        requires limit { at + length bytes.now ≤ page_size * page_limit }
        ensures { IfOk result (λ s. HasAdded (stands self) at (λ j. Some (slice_index bytes.now j)) (length bytes.now) (stands s)) }
    {
        let Start {
            mut runs,
            bytes: mut all,
        } = self;
        let Ok(from) = u32::try_from(all.len()) else {
            return Err(AllocError);
        };
        all.extend_from_slice(bytes)?;
        add_run(&mut runs, at, bytes.len(), from)?;
        Ok(Start { runs, bytes: all })
    }

    // Adds so many bytes from this place on behind all others; or none.
    fn add_part(
        self,
        at: usize,
        all: &Vec<u8, A>,
        from: Option<usize>,
        count: usize,
    ) -> Result<Start<A>, AllocError>
        requires free { (k : ℕ) → at ≤ k → stands self k ≡ None }
        requires some { 0 < count }
        requires limit { at + count ≤ page_size * page_limit }
        requires within { IfSome from (λ from. from + count ≤ vec_len all.now) }
        ensures { IfOk result (λ s. HasAdded (stands self) at (λ j. option_map (λ place. slice_index all.now.items (place + j)) from) count (stands s)) }
    {
        match from {
            Some(from) => self.add(at, &all[from..from + count]),
            None => Ok(self),
        }
    }
}

impl<A: Allocator + Clone> Start<A> {
    ghost use Rattle.memory.specs.Start.{stands};

    // No bytes.
    fn none(alloc: A) -> Result<Start<A>, AllocError>
        ensures { IfOk result (λ s. (k : ℕ) → stands s k ≡ None) }
    {
        Ok(Start {
            runs: Vec::new(alloc.clone()?),
            bytes: Vec::new(alloc),
        })
    }

    /// These bytes from an address on, and no others.
    ///
    /// # Errors
    ///
    /// Memory was refused.
    pub fn of_bytes(alloc: A, at: usize, bytes: &[u8]) -> Result<Start<A>, AllocError>
        requires { at + length bytes.now ≤ page_size * page_limit }
        ensures { IfOk result (λ s. (k : ℕ) → stands s k ≡ own_byte at bytes.now k) }
    {
        let none = Start::none(alloc)?;
        if bytes.is_empty() {
            return Ok(none);
        }
        none.add(at, bytes)
    }

    // What is added where these bytes stand from this place on in one start, or else those in another, under it.
    fn add_either(
        self,
        at: usize,
        count: usize,
        above: &Vec<u8, A>,
        upper: Option<usize>,
        below: &Vec<u8, A>,
        lower: Option<usize>,
    ) -> Result<Start<A>, AllocError>
        requires free { (k : ℕ) → at ≤ k → stands self k ≡ None }
        requires some { 0 < count }
        requires limit { at + count ≤ page_size * page_limit }
        requires above { IfSome upper (λ from. from + count ≤ vec_len above.now) }
        requires below { IfSome lower (λ from. from + count ≤ vec_len below.now) }
        ensures { IfOk result (λ s. HasAdded (stands self) at (λ j. option_or (option_map (λ place. slice_index above.now.items (place + j)) upper) (option_map (λ place. slice_index below.now.items (place + j)) lower)) count (stands s)) }
    {
        match upper {
            Some(from) => self.add_part(at, above, Some(from), count),
            None => self.add_part(at, below, lower, count),
        }
    }

    /// These bytes over those of another, in one pass over the runs of both: where one stands here, it wins.
    ///
    /// # Errors
    ///
    /// Memory was refused.
    pub fn over(&self, alloc: A, below: &Start<A>) -> Result<Start<A>, AllocError>
        ensures { IfOk result (λ s. (k : ℕ) → stands s k ≡ option_or (stands self.now k) (stands below.now k)) }
    {
        let mut both = Start::none(alloc)?;
        let mut upper_index = 0;
        let mut lower_index = 0;
        let mut at = 0;
        while at < END {
            let upper = part_at(&self.runs, upper_index, at, END - at);
            let lower = part_at(&below.runs, lower_index, at, upper.count);
            both = both.add_either(
                at,
                lower.count,
                &self.bytes,
                upper.from,
                &below.bytes,
                lower.from,
            )?;
            upper_index = upper.index;
            lower_index = lower.index;
            at += lower.count;
        }
        Ok(both)
    }
}
