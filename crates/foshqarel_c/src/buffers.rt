//! The caller's buffers: what is written to them, and what is answered.

ghost use Rattle.std.specs.Prelude.{◌≡◌, ◌≤◌, ◌++◌, length, drop};
ghost use Rattle.foshqarel_c.specs.Buffers.{ArePut, IsFailure, IsPut, done, laid, no_memory, told_given};

use crate::told::Told;
use embed::Failure;

/// What was asked is done.
const DONE: u32 = 0;

/// What was passed is refused.
const REFUSED: u32 = 1;

/// A buffer is too small, and nothing is written.
const SHORT: u32 = 2;

/// Memory was refused.
const NO_MEMORY: u32 = 3;

/// Writes items over the front of a list.
fn put_front<T: Copy>(items: &[T], out: &mut [T])
    requires { length items.now ≤ length out.old }
    ensures { out.new ≡ items.now ++ drop (length items.now) out.old }
{
    out[..items.len()].copy_from_slice(items);
}

/// Puts items to the front of a list, as many as it holds.
fn lay<T: Copy>(items: &[T], out: &mut [T])
    ensures { out.new ≡ laid items.now out.old }
{
    let count = out.len();
    if items.len() > count {
        out.copy_from_slice(&items[..count]);
        return;
    }
    put_front(items, out);
}

/// What stands from this place on.
fn rest_of<T>(items: &[T], from: u64) -> &[T]
    ensures { result.now ≡ drop from items.entry.now }
{
    if from >= items.len() as u64 {
        return &[];
    }
    &items[from as usize..]
}

/// Gives the items from a place on, as many as the list holds.
pub(crate) fn give_items<T: Copy>(items: &[T], from: u64, out: &mut [T], told: &mut Told) -> u32
    ensures laid { out.new ≡ laid (drop from items.now) out.old }
    ensures status { result ≡ done }
    ensures told { told.new ≡ told_given (length items.now) 0 }
{
    lay(rest_of(items, from), out);
    count(items.len(), told)
}

/// Puts bytes into a buffer where they fit, and answers with this status; else puts nothing.
fn put(status: u32, bytes: &[u8], out: &mut [u8]) -> u32
    ensures { IsPut status bytes.now out.old out.new result }
{
    if out.len() < bytes.len() {
        return SHORT;
    }
    put_front(bytes, out);
    status
}

/// Gives bytes.
pub(crate) fn give(bytes: &[u8], out: &mut [u8], told: &mut Told) -> u32
    ensures put { IsPut done bytes.now out.old out.new result }
    ensures told { told.new ≡ told_given (length bytes.now) 0 }
{
    *told = Told::given(bytes.len(), 0);
    put(DONE, bytes, out)
}

/// Gives two outputs, where both fit.
pub(crate) fn give_both(
    first: &[u8],
    second: &[u8],
    first_out: &mut [u8],
    second_out: &mut [u8],
    told: &mut Told,
) -> u32
    ensures put { ArePut first.now second.now first_out.old first_out.new second_out.old second_out.new result }
    ensures told { told.new ≡ told_given (length first.now) (length second.now) }
{
    *told = Told::given(first.len(), second.len());
    if first_out.len() < first.len() {
        return SHORT;
    }
    if second_out.len() < second.len() {
        return SHORT;
    }
    put_front(first, first_out);
    put_front(second, second_out);
    DONE
}

/// Gives a number.
pub(crate) fn count(number: usize, told: &mut Told) -> u32
    ensures status { result ≡ done }
    ensures told { told.new ≡ told_given number 0 }
{
    *told = Told::given(number, 0);
    DONE
}

/// Tells of a lack of memory.
pub(crate) fn lack(told: &mut Told) -> u32
    ensures status { result ≡ no_memory }
    ensures told { told.new ≡ told_given 0 0 }
{
    *told = Told::given(0, 0);
    NO_MEMORY
}

/// Tells of a failure, and puts the sentence of a refusal.
pub(crate) fn fail(failure: Failure, sentence: &mut [u8], told: &mut Told) -> u32
    ensures { IsFailure failure sentence.old sentence.new told.new result }
{
    match failure {
        Failure::Refused(refusal, words) => {
            let bytes = words.as_bytes();
            *told = Told::refused(refusal, bytes.len());
            put(REFUSED, bytes, sentence)
        }
        Failure::NoMemory => lack(told),
    }
}
