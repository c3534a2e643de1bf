//! Linear memory (Core Specification, 4.2.8 Memory Instances; 4.4.4 Memory Instructions): a list of pieces of 4,096 bytes that contracts see as
//! one list of bytes. The list is made as far as a store reaches. A piece gets bytes of its own at the first store that meets it, and reads
//! before as what the memory begins with.
#![tactic(auto)]

ghost use Rattle.std.specs.Prelude.{◌≡◌, ◌+◌, ◌*◌, ◌/◌, ◌%◌, ◌^◌, ◌<◌, ◌≤◌, ◌⊎◌, ◌++◌, ℕ, length, map, replicate, All, Option, None, Ok, IfOk, IfSome, IsErrOf, IsTrue, vec_len, ◌≢◌, slice_index, take, drop, option_copied};
ghost use Rattle.std.specs.List.{range_with_len};
ghost use Rattle.spec_modules.specs.Profile.{page_size, page_limit};
ghost use Rattle.spec_modules.specs.Storage.{bytes_of_number};
ghost use Rattle.spec_modules.specs.Memory.{load, written};
ghost use Rattle.memory.specs.Linear.{Memory, pages, Stored, Grown};
ghost use Rattle.memory.specs.Pieces.{piece_size, own_in, byte_in, bytes_in, contents, IsPiece, IsMade, IsUnmade, IsSound, IsPut, HasPut, number_in};
ghost use Rattle.memory.specs.Start.{stands, begins, first_bytes};

mod start;

pub use start::Start;
use std::alloc::{AllocError, Allocator};
use std::marker::Model;
use thiserror::Error;
pub use wtypes::NoMemory;
use wtypes::TrapCode;

/// The bytes of a page.
pub const PAGE_SIZE: usize = 65_536;

/// The bytes of a piece, 16 of which are a page.
pub const PIECE_SIZE: usize = 4_096;

/// No memory has more pages.
pub const PAGE_LIMIT: u32 = 1024;

/// Why a store is refused.
#[derive(Clone, Copy, Debug, PartialEq, Eq, Error)]
pub enum StoreRefusal {
    /// The bytes do not all lie in memory: `MemoryOutOfBounds`.
    #[error("trap: {0:?}")]
    Trap(TrapCode),
    /// There was no memory for a piece.
    #[error("memory was refused")]
    NoMemory,
}

/// A linear memory. Contracts see its bytes and the greatest number of its pages.
#[derive(Drop)]
pub struct Linear<'a, A: Allocator + Clone> {
    pieces: Vec<Vec<u8, A>, A>,
    /// In pages.
    size: u32,
    max: u32,
    /// What it begins with: zeros, where there is none.
    start: Option<&'a Start<A>>,
}

impl<'a, A: Allocator + Clone> Model for Linear<'a, A> {
    ghost Value = { Memory };

    ghost view = { λ m. record { bytes = bytes_in m.pieces.items (begins (option_copied m.start)) 0 (page_size * m.size); max = m.max } };

    ghost invariant = { λ m. IsSound m.pieces.items (begins (option_copied m.start)) m.size m.max };
}

/// The byte that a memory begins with at an address.
fn first_byte<A: Allocator>(start: Option<&Start<A>>, at: usize) -> u8
    ensures { result ≡ begins (option_copied start.entry) at }
{
    match start {
        Some(start) => start.byte(at),
        None => 0,
    }
}

fn byte<A: Allocator>(pieces: &Vec<Vec<u8, A>, A>, start: Option<&Start<A>>, at: usize) -> u8
    ensures { result ≡ byte_in pieces.now.items (begins (option_copied start.entry)) at }
{
    match pieces.get(at / PIECE_SIZE) {
        Some(piece) => match piece.get(at % PIECE_SIZE) {
            Some(byte) => *byte,
            None => first_byte(start, at),
        },
        None => first_byte(start, at),
    }
}

/// A byte of a piece as a number.
#[inline(always)]
fn one(piece: &[u8], at: usize) -> u64
    requires { at + 1 ≤ length piece.now }
    ensures value { result ≡ number_in (slice_index piece.now) at 1 }
    ensures below { result < 256 ^ 1 }
{
    u64::from(piece[at])
}

/// The number that two bytes of a piece spell, the lowest first.
#[inline(always)]
fn two(piece: &[u8], at: usize) -> u64
    requires { at + 2 ≤ length piece.now }
    ensures value { result ≡ number_in (slice_index piece.now) at 2 }
    ensures below { result < 256 ^ 2 }
{
    u64::from(piece[at]) + 256 * u64::from(piece[at + 1])
}

/// The number that four bytes of a piece spell.
#[inline(always)]
fn four(piece: &[u8], at: usize) -> u64
    requires { at + 4 ≤ length piece.now }
    ensures value { result ≡ number_in (slice_index piece.now) at 4 }
    ensures below { result < 256 ^ 4 }
{
    two(piece, at) + 65536 * two(piece, at + 2)
}

/// The number that eight bytes of a piece spell.
#[inline(always)]
fn eight(piece: &[u8], at: usize) -> u64
    requires { at + 8 ≤ length piece.now }
    ensures value { result ≡ number_in (slice_index piece.now) at 8 }
    ensures below { result < 256 ^ 8 }
{
    four(piece, at) + 4294967296 * four(piece, at + 4)
}

/// The little-endian number that the `width` bytes from `at` on spell.
fn number<A: Allocator>(
    pieces: &Vec<Vec<u8, A>, A>,
    start: Option<&Start<A>>,
    at: usize,
    width: u32,
) -> u64
    requires in_range { at + width ≤ page_size * page_limit }
    requires narrow { width ≤ 8 }
    ensures value { result ≡ number_in (byte_in pieces.now.items (begins (option_copied start.entry))) at width }
    ensures below { result < 256 ^ width }
{
    if width == 0 {
        return 0;
    }
    let low = byte(pieces, start, at);
    let high = number(pieces, start, at + 1, width - 1);
    u64::from(low) + 256 * high
}

/// Whether so many bytes from an address on lie in one piece that has no bytes of its own.
fn is_unmade<A: Allocator>(pieces: &Vec<Vec<u8, A>, A>, at: usize, count: usize) -> bool
    requires { count ≤ piece_size }
    ensures { IsTrue result → IsUnmade pieces.now.items at count }
{
    if at % PIECE_SIZE + count > PIECE_SIZE {
        return false;
    }
    match pieces.get(at / PIECE_SIZE) {
        Some(piece) => piece.is_empty(),
        None => true,
    }
}

/// The number that such bytes spell, by one read where the memory begins with them.
fn first_number<A: Allocator>(
    pieces: &Vec<Vec<u8, A>, A>,
    start: Option<&Start<A>>,
    at: usize,
    width: u32,
) -> Option<u64>
    requires narrow { width ≤ 8 }
    ensures value { IfSome result (λ number. number ≡ number_in (byte_in pieces.now.items (begins (option_copied start.entry))) at width) }
    ensures below { IfSome result (λ number. number < 256 ^ width) }
{
    if width == 0 || !is_unmade(pieces, at, width as usize) {
        return None;
    }
    match start {
        Some(start) => start.number(at, width),
        None => None,
    }
}

// `PIECE_SIZE` is passed as a number, so that no fact of a caller holds a list of 4,096 zeros, which tactics would compute.
fn zeros<A: Allocator>(alloc: A, size: usize) -> Result<Vec<u8, A>, AllocError>
    ensures len { IfOk result (λ piece. vec_len piece ≡ size) }
    ensures zero { IfOk result (λ piece. (j : ℕ) → slice_index piece.items j ≡ 0) }
{
    vec![in alloc; 0; size]
}

/// So many bytes from an address on that a memory begins with.
fn first_piece<A: Allocator>(
    alloc: A,
    start: Option<&Start<A>>,
    at: usize,
    count: usize,
) -> Result<Vec<u8, A>, AllocError>
    requires { at + count ≤ page_size * page_limit }
    ensures len { IfOk result (λ piece. vec_len piece ≡ count) }
    ensures bytes { IfOk result (λ piece. (j : ℕ) → j < count → slice_index piece.items j ≡ begins (option_copied start.entry) (at + j)) }
{
    match start {
        Some(start) => {
            let mut piece = Vec::with_capacity(alloc, count)?;
            start.append(at, count, &mut piece)?;
            Ok(piece)
        }
        None => zeros(alloc, count),
    }
}

/// Gives the piece bytes of its own. Nothing that is read changes.
fn make<A: Allocator + Clone + Drop>(
    pieces: &mut Vec<Vec<u8, A>, A>,
    start: Option<&Start<A>>,
    index: usize,
) -> Result<(), AllocError>
    requires in_range { index < vec_len pieces.old }
    requires limit { piece_size * vec_len pieces.old ≤ page_size * page_limit }
    requires whole { All IsPiece pieces.old.items }
    ensures whole { All IsPiece pieces.new.items }
    ensures len { vec_len pieces.new ≡ vec_len pieces.old }
    ensures same { (at : ℕ) → byte_in pieces.new.items (begins (option_copied start.entry)) at ≡ byte_in pieces.old.items (begins (option_copied start.entry)) at }
    ensures kept { (k : ℕ) → IsMade pieces.old.items k → IsMade pieces.new.items k }
    ensures made { IfOk result (λ _. IsMade pieces.new.items index) }
{
    if pieces[index].is_empty() {
        let alloc = pieces.allocator().clone()?;
        let piece = first_piece(alloc, start, PIECE_SIZE * index, PIECE_SIZE)?;
        pieces[index] = piece;
    }
    Ok(())
}

/// Makes the list of pieces at least so long. Nothing that is read changes.
#[tactic(auto, using(crate::proofs::Lists::longer_same))]
fn lengthen<A: Allocator + Clone + Drop>(
    pieces: &mut Vec<Vec<u8, A>, A>,
    count: usize,
) -> Result<(), AllocError>
    requires whole { All IsPiece pieces.old.items }
    ensures whole { All IsPiece pieces.new.items }
    ensures reach { (vec_len pieces.new ≤ vec_len pieces.old) ⊎ (vec_len pieces.new ≤ count) }
    ensures same { (at : ℕ) → own_in pieces.new.items at ≡ own_in pieces.old.items at }
    ensures long { IfOk result (λ _. count ≤ vec_len pieces.new) }
{
    let held = pieces.len();
    if count <= held {
        return Ok(());
    }
    let alloc = pieces.allocator().clone()?;
    pieces.reserve(count - held)?;
    for _ in held..count {
        pieces.push_reserved(Vec::new(alloc.clone()?));
    }
    Ok(())
}

/// Gives each piece from `first` on and below `end` bytes of its own. Nothing that is read changes.
#[tactic(auto, using(crate::proofs::Lists::reads_same))]
fn make_all<A: Allocator + Clone + Drop>(
    pieces: &mut Vec<Vec<u8, A>, A>,
    start: Option<&Start<A>>,
    first: usize,
    end: usize,
) -> Result<(), AllocError>
    requires held { piece_size * vec_len pieces.old ≤ page_size * page_limit }
    requires limit { piece_size * end ≤ page_size * page_limit }
    requires whole { All IsPiece pieces.old.items }
    ensures whole { All IsPiece pieces.new.items }
    ensures reach { (vec_len pieces.new ≤ vec_len pieces.old) ⊎ (vec_len pieces.new ≤ end) }
    ensures same { (at : ℕ) → byte_in pieces.new.items (begins (option_copied start.entry)) at ≡ byte_in pieces.old.items (begins (option_copied start.entry)) at }
    ensures long { IfOk result (λ _. end ≤ vec_len pieces.new) }
    ensures made { IfOk result (λ _. (k : ℕ) → first ≤ k → k < end → IsMade pieces.new.items k) }
{
    lengthen(pieces, end)?;
    for index in first..end {
        make(pieces, start, index)?;
    }
    Ok(())
}

/// How many of so many bytes from an address on lie in its piece.
fn in_piece(at: usize, count: usize) -> usize
    requires { 0 < count }
    ensures some { 0 < result }
    ensures most { result ≤ count }
    ensures within { at % piece_size + result ≤ piece_size }
{
    let left = PIECE_SIZE - at % PIECE_SIZE;
    if count < left { count } else { left }
}

/// Writes the bytes into a piece from a place on.
#[inline(always)]
fn write_in(piece: &mut [u8], at: usize, bytes: &[u8])
    requires { at + length bytes.now ≤ length piece.old }
    ensures { piece.new ≡ written at bytes.now piece.old }
{
    piece[at..at + bytes.len()].copy_from_slice(bytes);
}

/// Writes the bytes, which lie in one piece, into that piece, which is made.
#[tactic(auto, using(crate::proofs::Lists::put_in))]
#[inline(always)]
fn put<A: Allocator>(pieces: &mut Vec<Vec<u8, A>, A>, at: usize, bytes: &[u8])
    requires whole { All IsPiece pieces.old.items }
    requires within { at % piece_size + length bytes.now ≤ piece_size }
    requires in_range { at / piece_size < vec_len pieces.old }
    requires made { IsMade pieces.old.items (at / piece_size) }
    ensures whole { All IsPiece pieces.new.items }
    ensures len { vec_len pieces.new ≡ vec_len pieces.old }
    ensures put { IsPut pieces.old.items at bytes.now pieces.new.items }
    ensures kept { (k : ℕ) → IsMade pieces.old.items k → IsMade pieces.new.items k }
{
    write_in(&mut pieces[at / PIECE_SIZE], at % PIECE_SIZE, bytes);
}

/// Writes the bytes from `at` on, into pieces that are made, piece by piece.
fn put_all<A: Allocator>(pieces: &mut Vec<Vec<u8, A>, A>, at: usize, bytes: &[u8])
    requires limit { at + length bytes.now ≤ page_size * page_limit }
    requires in_range { at + length bytes.now ≤ piece_size * vec_len pieces.old }
    requires whole { All IsPiece pieces.old.items }
    requires made { (k : ℕ) → at ≤ k → k < at + length bytes.now → IsMade pieces.old.items (k / piece_size) }
    ensures whole { All IsPiece pieces.new.items }
    ensures len { vec_len pieces.new ≡ vec_len pieces.old }
    ensures put { IsPut pieces.old.items at bytes.now pieces.new.items }
{
    let mut done = 0;
    while done < bytes.len() {
        let count = in_piece(at + done, bytes.len() - done);
        put(pieces, at + done, &bytes[done..done + count]);
        done += count;
    }
}

/// Writes the bytes where they lie in one piece that has bytes of its own, and tells whether they do. Else nothing changes.
#[inline(always)]
fn put_in_piece<A: Allocator>(pieces: &mut Vec<Vec<u8, A>, A>, at: usize, bytes: &[u8]) -> bool
    requires whole { All IsPiece pieces.old.items }
    requires some { 0 < length bytes.now }
    ensures whole { All IsPiece pieces.new.items }
    ensures put { HasPut result pieces.old.items at bytes.now pieces.new.items }
{
    let index = at / PIECE_SIZE;
    let offset = at % PIECE_SIZE;
    if index >= pieces.len() || offset + bytes.len() > pieces[index].len() {
        return false;
    }
    put(pieces, at, bytes);
    true
}

/// The same for the first bytes of these eight, by one write where they are one, two, four or eight.
#[inline(always)]
fn put_first<A: Allocator>(
    pieces: &mut Vec<Vec<u8, A>, A>,
    at: usize,
    bytes: &[u8],
    width: u32,
) -> bool
    requires whole { All IsPiece pieces.old.items }
    requires eight { length bytes.now ≡ 8 }
    requires narrow { width ≤ 8 }
    ensures whole { All IsPiece pieces.new.items }
    ensures put { HasPut result pieces.old.items at (take width bytes.now) pieces.new.items }
{
    match width {
        8 => put_in_piece(pieces, at, &bytes[..8]),
        4 => put_in_piece(pieces, at, &bytes[..4]),
        2 => put_in_piece(pieces, at, &bytes[..2]),
        1 => put_in_piece(pieces, at, &bytes[..1]),
        _ => false,
    }
}

/// Appends so many zeros.
fn append_zeros<B: Allocator>(count: usize, bytes: &mut Vec<u8, B>) -> Result<(), AllocError>
    requires { count ≤ page_size * page_limit }
    ensures { IfOk result (λ _. bytes.new.items ≡ bytes.old.items ++ replicate count 0) }
{
    bytes.resize(bytes.len() + count, 0)
}

/// Appends so many bytes from an address on that a memory begins with.
fn read_first<A: Allocator, B: Allocator>(
    start: Option<&Start<A>>,
    at: usize,
    count: usize,
    bytes: &mut Vec<u8, B>,
) -> Result<(), AllocError>
    requires { at + count ≤ page_size * page_limit }
    ensures { IfOk result (λ _. bytes.new.items ≡ bytes.old.items ++ map (begins (option_copied start.entry)) (range_with_len at count)) }
{
    match start {
        Some(start) => start.append(at, count, bytes),
        None => append_zeros(count, bytes),
    }
}

/// Appends so many bytes from an address on, which lie in one piece.
fn read_in_piece<A: Allocator, B: Allocator>(
    pieces: &Vec<Vec<u8, A>, A>,
    start: Option<&Start<A>>,
    at: usize,
    count: usize,
    bytes: &mut Vec<u8, B>,
) -> Result<(), AllocError>
    requires whole { All IsPiece pieces.now.items }
    requires within { at % piece_size + count ≤ piece_size }
    requires limit { at + count ≤ page_size * page_limit }
    ensures { IfOk result (λ _. bytes.new.items ≡ bytes.old.items ++ bytes_in pieces.now.items (begins (option_copied start.entry)) at count) }
{
    if let Some(piece) = pieces.get(at / PIECE_SIZE) {
        let offset = at % PIECE_SIZE;
        if offset + count <= piece.len() {
            bytes.extend_from_slice(&piece[offset..offset + count])?;
            return Ok(());
        }
    }
    read_first(start, at, count, bytes)
}

/// So many bytes from an address on.
fn read_bytes<A: Allocator, B: Allocator>(
    pieces: &Vec<Vec<u8, A>, A>,
    start: Option<&Start<A>>,
    alloc: B,
    from: usize,
    count: usize,
) -> Result<Vec<u8, B>, AllocError>
    requires whole { All IsPiece pieces.now.items }
    requires limit { from + count ≤ page_size * page_limit }
    ensures { IfOk result (λ bytes. bytes.items ≡ bytes_in pieces.now.items (begins (option_copied start.entry)) from count) }
{
    let mut bytes = Vec::with_capacity(alloc, count)?;
    let mut done = 0;
    while done < count {
        let part = in_piece(from + done, count - done);
        read_in_piece(pieces, start, from + done, part, &mut bytes)?;
        done += part;
    }
    Ok(bytes)
}

/// Pieces with the same bytes.
fn copy_pieces<A: Allocator + Clone + Drop>(
    pieces: &Vec<Vec<u8, A>, A>,
) -> Result<Vec<Vec<u8, A>, A>, AllocError>
    ensures { IfOk result (λ copies. contents copies.items ≡ contents pieces.now.items) }
{
    let mut copies = Vec::with_capacity(pieces.allocator().clone()?, pieces.len())?;
    for piece in pieces {
        copies.push(piece.to_vec(pieces.allocator().clone()?)?)?;
    }
    Ok(copies)
}

impl<'a, A: Allocator + Clone + Drop> Linear<'a, A> {
    /// A memory of so many pages of zeros, which may grow to `max` pages. It takes no memory.
    ///
    /// # Errors
    ///
    /// There is none. The result has room for one, as no clause says that there is none.
    pub fn new(alloc: A, pages: u32, max: u32) -> Result<Linear<'a, A>, NoMemory>
        requires fits { pages ≤ max }
        requires limit { max ≤ page_limit }
        ensures { IfOk result (λ m. m ≡ record { bytes = replicate (page_size * pages) 0; max = max }) }
    {
        Ok(Linear {
            pieces: Vec::new(alloc),
            size: pages,
            max,
            start: None,
        })
    }

    /// A memory of so many pages that begins with these bytes, which it is lent, and may grow to `max` pages. It takes no memory.
    ///
    /// # Errors
    ///
    /// As at [`Linear::new`].
    pub fn begin(
        alloc: A,
        start: &'a Start<A>,
        pages: u32,
        max: u32,
    ) -> Result<Linear<'a, A>, NoMemory>
        requires fits { pages ≤ max }
        requires limit { max ≤ page_limit }
        requires ends { (k : ℕ) → page_size * pages ≤ k → stands start.now k ≡ None }
        ensures { IfOk result (λ m. m ≡ record { bytes = first_bytes start.now (page_size * pages); max = max }) }
    {
        Ok(Linear {
            pieces: Vec::new(alloc),
            size: pages,
            max,
            start: Some(start),
        })
    }

    /// Adds so many pages of zeros, and answers the old size in pages. Where the new size would pass the greatest one, it answers -1 and
    /// changes nothing. It takes no memory.
    ///
    /// # Errors
    ///
    /// As at [`Linear::new`].
    pub fn grow(&mut self, delta: u32) -> Result<i32, NoMemory>
        ensures { Grown result self.old delta self.new }
    {
        let size = self.size;
        if delta > self.max - size {
            return Ok(-1);
        }
        self.size = size + delta;
        Ok(size as i32)
    }

    /// The same memory, with pieces of its own.
    ///
    /// # Errors
    ///
    /// `NoMemory` where a piece or the list was refused.
    pub fn copy(&self) -> Result<Linear<'a, A>, NoMemory>
        ensures { IfOk result (λ copy. copy ≡ self.now) }
    {
        match copy_pieces(&self.pieces) {
            Ok(pieces) => Ok(Linear {
                pieces,
                size: self.size,
                max: self.max,
                start: self.start,
            }),
            Err(_) => Err(NoMemory),
        }
    }

    /// The size in pages.
    pub fn size(&self) -> u32
        ensures { result ≡ pages self.now }
    {
        self.size
    }

    /// The size in bytes.
    pub fn len(&self) -> usize
        ensures { result ≡ length self.now.bytes }
    {
        PAGE_SIZE * self.size as usize
    }

    /// So many bytes from an address on.
    ///
    /// # Errors
    ///
    /// Memory was refused.
    pub fn bytes<B: Allocator>(
        &self,
        alloc: B,
        from: usize,
        count: usize,
    ) -> Result<Vec<u8, B>, AllocError>
        requires { from + count ≤ length self.now.bytes }
        ensures { IfOk result (λ bytes. bytes.items ≡ take count (drop from self.now.bytes)) }
    {
        read_bytes(&self.pieces, self.start, alloc, from, count)
    }

    /// The little-endian number that `width` bytes spell, from the address `at` plus `offset` on, which never wraps. It takes no memory.
    ///
    /// # Errors
    ///
    /// `MemoryOutOfBounds` where the bytes do not all lie in memory.
    #[inline(always)]
    pub fn load(&self, at: u32, offset: u32, width: u32) -> Result<u64, TrapCode>
        requires { width ≤ 8 }
        ensures value { result ≡ load self.now.bytes (at + offset) width }
        ensures below { IfOk result (λ number. number < 256 ^ width) }
    {
        let start = at as usize + offset as usize;
        if start + width as usize > PAGE_SIZE * self.size as usize {
            return Err(TrapCode::MemoryOutOfBounds);
        }
        Ok(self.number_at(start, width))
    }

    // By one read where the bytes lie in one piece that has bytes of its own and are one, two, four or eight.
    #[inline(always)]
    fn number_at(&self, at: usize, width: u32) -> u64
        requires in_range { at + width ≤ length self.now.bytes }
        requires narrow { width ≤ 8 }
        ensures value { Ok result ≡ load self.now.bytes at width }
        ensures below { result < 256 ^ width }
    {
        if let Some(piece) = self.pieces.get(at / PIECE_SIZE) {
            let offset = at % PIECE_SIZE;
            if offset + width as usize <= piece.len() {
                match width {
                    8 => return eight(piece.as_slice(), offset),
                    4 => return four(piece.as_slice(), offset),
                    2 => return two(piece.as_slice(), offset),
                    1 => return one(piece.as_slice(), offset),
                    _ => {}
                }
            }
        }
        self.other_number(at, width)
    }

    // The same wherever the bytes lie. It stands apart, and takes the memory alone, since what stands in `load` slows each load.
    #[inline(never)]
    fn other_number(&self, at: usize, width: u32) -> u64
        requires in_range { at + width ≤ length self.now.bytes }
        requires narrow { width ≤ 8 }
        ensures value { Ok result ≡ load self.now.bytes at width }
        ensures below { result < 256 ^ width }
    {
        match first_number(&self.pieces, self.start, at, width) {
            Some(number) => number,
            None => number(&self.pieces, self.start, at, width),
        }
    }

    /// Writes the `width` lowest bytes of `value`, the lowest first, from the address `at` plus `offset` on, which never wraps.
    ///
    /// # Errors
    ///
    /// `Trap` where the bytes do not all lie in memory, else `NoMemory` where a piece was refused. Nothing changes.
    #[inline(never)]
    pub fn store(
        &mut self,
        at: u32,
        offset: u32,
        width: u32,
        value: u64,
    ) -> Result<(), StoreRefusal>
        requires { width ≤ 8 }
        ensures { Stored result self.old (at + offset) (bytes_of_number width value) self.new }
    {
        let start = at as usize + offset as usize;
        let bytes = value.to_le_bytes();
        if put_first(&mut self.pieces, start, &bytes, width) {
            return Ok(());
        }
        self.write(start, &bytes[..width as usize])
    }

    /// Writes these bytes from the address `at` on, as the bytes of a data segment. No bytes take no memory.
    ///
    /// # Errors
    ///
    /// `Trap` where the bytes do not all lie in memory, else `NoMemory` where a piece was refused. Nothing changes.
    pub fn write_all(&mut self, at: u32, bytes: &[u8]) -> Result<(), StoreRefusal>
        ensures stored { Stored result self.old at bytes.now self.new }
        ensures some { IsErrOf result StoreRefusal.NoMemory → 0 < length bytes.now }
    {
        self.write(at as usize, bytes)
    }

    // Each piece that the bytes meet is made before the first byte is written; no bytes meet none.
    #[inline(never)]
    fn write(&mut self, start: usize, bytes: &[u8]) -> Result<(), StoreRefusal>
        requires { start < 2 ^ 33 }
        ensures stored { Stored result self.old start bytes.now self.new }
        ensures some { IsErrOf result StoreRefusal.NoMemory → 0 < length bytes.now }
    {
        let end = start + bytes.len();
        if end > PAGE_SIZE * self.size as usize {
            return Err(StoreRefusal::Trap(TrapCode::MemoryOutOfBounds));
        }
        if bytes.is_empty() {
            return Ok(());
        }
        if make_all(
            &mut self.pieces,
            self.start,
            start / PIECE_SIZE,
            end.div_ceil(PIECE_SIZE),
        )
        .is_err()
        {
            return Err(StoreRefusal::NoMemory);
        }
        put_all(&mut self.pieces, start, bytes);
        Ok(())
    }
}
