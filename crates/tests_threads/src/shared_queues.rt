// Threads hand over places in two rows that were fixed at the opening, and whoever takes them reads both rows there without a test.
ghost use Rattle.std.specs.Prelude.{◌≡◌, ◌+◌, ◌<◌, ◌≤◌, length, IfOk};
ghost use Rattle.std.specs.List.{All};
ghost use Rattle.lanes.specs.Passes.{IsPassOf};

use crate::assertions::{equal, holds};
use lanes::{ItemFact, QueuePass, TypedQueue};
use std::alloc::Global;
use std::sync::Wait;
use std::test::Fail;
use std::thread;
use std::thread::Threads;
use wtypes::NoMemory;

/// Numbers, and weights beside them.
#[derive(Clone, Copy)]
struct Rows<'a> {
    numbers: &'a [u32],
    weights: &'a [u64],
    ghost even: { length weights.now ≡ length numbers.now },
}

/// Some places in rows, and the numbers that lie there.
#[derive(Drop)]
struct Places<'a> {
    numbers: &'a [u32],
    places: Vec<usize>,
}

/// Each place lies in both rows.
struct Within;

impl<'a> ItemFact<Rows<'a>, Places<'a>> for Within {
    ghost use Rattle.std.specs.Prelude.{◌<◌, length};
    ghost use Rattle.std.specs.List.{All};

    ghost holds = { λ rows item. All (λ place. place < length rows.numbers.now) item.places.items };
}

type Line<'a> = TypedQueue<Rows<'a>, Places<'a>, Within, Global>;

type LinePass<'a> = QueuePass<Rows<'a>, Places<'a>>;

/// What one thread hands over with.
#[derive(Drop)]
struct Hand<'l, 'a> {
    line: &'l Line<'a>,
    pass: LinePass<'a>,
    ghost is_pass: { IsPassOf line.now pass },
}

/// A place and the next one.
fn pair_at<'a>(alloc: Global, rows: Rows<'a>, place: usize) -> Result<Places<'a>, NoMemory>
    requires { place + 1 < length rows.numbers.now }
    ensures { IfOk result (λ item. All (λ place. place < length rows.entry.numbers.now) item.places.items) }
{
    Ok(Places {
        numbers: rows.numbers,
        places: vec![in alloc; place, place + 1]?,
    })
}

/// Gives an item as soon as there is room.
fn give_late<'a>(rt: &impl Wait, hand: &mut Hand<'_, 'a>, item: Places<'a>)
    requires fact { All (λ place. place < length hand.old.line.now.key.numbers.now) item.places.items }
    ensures { hand.new.line ≡ hand.old.line }
{
    let mut item = item;
    for _ in rt.forever() {
        match hand.line.give(&mut hand.pass, item) {
            Ok(()) => return,
            Err(back) => item = back,
        }
        thread::yield_now();
    }
    unreachable!()
}

/// Gives sixteen places, two at a time.
fn give_all(rt: &impl Wait, alloc: Global, hand: Hand<'_, '_>, from: usize) -> Result<(), NoMemory>
    requires { (from ≤ 16) × (32 ≤ length hand.line.now.key.numbers.now) }
{
    let mut hand = hand;
    for pair in 0..8usize {
        let item = pair_at(alloc, hand.line.key, from + 2 * pair)?;
        give_late(rt, &mut hand, item);
    }
    Ok(())
}

/// Two threads give sixteen places each.
fn give_both<R: Threads + Wait + Sync>(
    rt: &R,
    alloc: Global,
    first: Hand<'_, '_>,
    second: Hand<'_, '_>,
) -> (Result<(), NoMemory>, Result<(), NoMemory>)
    requires first { 32 ≤ length first.line.now.key.numbers.now }
    requires second { 32 ≤ length second.line.now.key.numbers.now }
{
    thread::join(
        rt,
        move ||
            requires { 32 ≤ length first.line.now.key.numbers.now }
        { give_all(rt, alloc, first, 0) },
        move ||
            requires { 32 ≤ length second.line.now.key.numbers.now }
        { give_all(rt, alloc, second, 16) },
    )
}

/// Adds to each place's entry what both rows have there.
fn note<'a>(rows: Rows<'a>, item: &Places<'a>, seen: &mut [u64])
    requires fact { All (λ place. place < length rows.numbers.now) item.now.places.items }
    requires wide { length seen.old ≡ length rows.numbers.now }
    ensures { length seen.new ≡ length seen.old }
{
    for place in item.places.iter() {
        let product = u64::from(rows.numbers[*place]).wrapping_mul(rows.weights[*place]);
        seen[*place] = seen[*place].wrapping_add(product);
    }
}

/// Takes an item as soon as there is one.
fn take_late<'a>(rt: &impl Wait, hand: &mut Hand<'_, 'a>) -> Places<'a>
    ensures same { hand.new.line ≡ hand.old.line }
    ensures fact { All (λ place. place < length hand.old.line.now.key.numbers.now) result.places.items }
{
    for _ in rt.forever() {
        if let Some(item) = hand.line.take(&mut hand.pass) {
            return item;
        }
        thread::yield_now();
    }
    unreachable!()
}

/// Takes so many items, and notes each.
fn take_all(rt: &impl Wait, hand: Hand<'_, '_>, count: usize, seen: Vec<u64>) -> Vec<u64>
    requires { length seen.items ≡ length hand.line.now.key.numbers.now }
{
    let mut hand = hand;
    let mut seen = seen;
    for _ in 0..count {
        let item = take_late(rt, &mut hand);
        note(hand.line.key, &item, seen.as_mut_slice());
    }
    seen
}

/// What one thread noted that took all that two others gave.
fn note_given<R: Threads + Wait + Sync>(
    rt: &R,
    alloc: Global,
    rows: Rows<'_>,
) -> Result<Vec<u64>, NoMemory>
    requires { length rows.numbers.now ≡ 32 }
{
    let (line, mut own) = Line::open(alloc, 3, rows)?;
    let line = &line;
    let first = Hand {
        line,
        pass: line.another(&mut own),
    };
    let second = Hand {
        line,
        pass: line.another(&mut own),
    };
    let taker = Hand { line, pass: own };
    let nothing = Vec::from_elem(alloc, 0, 32)?;
    let (seen, (first_done, second_done)) = thread::join(
        rt,
        move ||
            requires { length nothing.items ≡ length taker.line.now.key.numbers.now }
        { take_all(rt, taker, 16, nothing) },
        move ||
            requires first { 32 ≤ length first.line.now.key.numbers.now }
            requires second { 32 ≤ length second.line.now.key.numbers.now }
        { give_both(rt, alloc, first, second) },
    );
    first_done?;
    second_done?;
    Ok(seen)
}

#[test]
fn each_item_is_taken_once(rt: HostRuntime) -> Result<(), Fail> {
    let numbers: [u32; 32] = [3; 32];
    let weights: [u64; 32] = [5; 32];
    let rows = Rows {
        numbers: &numbers,
        weights: &weights,
    };
    let seen = note_given(&rt, rt.alloc(), rows)?;
    equal(&rt, &"products", &seen.as_slice(), &[15; 32].as_slice());
    Ok(())
}

/// Gives two places and takes two, which need not be the same. How many were taken.
fn give_and_take(rt: &impl Wait, alloc: Global, hand: Hand<'_, '_>) -> Result<usize, NoMemory>
    requires { 2 ≤ length hand.line.now.key.numbers.now }
{
    let mut hand = hand;
    let item = pair_at(alloc, hand.line.key, 0)?;
    give_late(rt, &mut hand, item);
    Ok(take_late(rt, &mut hand).places.len())
}

/// So many hands over one line.
fn hands_of<'l, 'a>(
    alloc: Global,
    line: &'l Line<'a>,
    own: &mut LinePass<'a>,
    count: usize,
) -> Result<Vec<Hand<'l, 'a>>, NoMemory>
    requires { IsPassOf line.now own.old }
    ensures own { IsPassOf line.now own.new }
    ensures hands { IfOk result (λ hands. All (λ hand. hand.line.now ≡ line.now) hands.items) }
{
    let mut hands = Vec::new(alloc);
    for _ in 0..count {
        let pass = line.another(own);
        hands.push(Hand { line, pass })?;
    }
    Ok(hands)
}

/// How many places each of three workers took.
fn count_taken<R: Threads + Wait + Sync>(
    rt: &R,
    alloc: Global,
    rows: Rows<'_>,
) -> Result<Vec<Result<usize, NoMemory>>, NoMemory>
    requires { 2 ≤ length rows.numbers.now }
{
    let (line, mut own) = Line::open(alloc, 1, rows)?;
    let hands = hands_of(alloc, &line, &mut own, 3)?;
    let counts = thread::map_vec(
        rt,
        hands,
        &|hand: Hand| -> Result<usize, NoMemory>
            requires { 2 ≤ length hand.line.now.key.numbers.now }
        { give_and_take(rt, alloc, hand) },
    )?;
    Ok(counts)
}

#[test]
fn workers_give_and_take(rt: HostRuntime) -> Result<(), Fail> {
    let rows = Rows {
        numbers: &[1, 2],
        weights: &[3, 4],
    };
    let counts = count_taken(&rt, rt.alloc(), rows)?;
    equal(
        &rt,
        &"three workers",
        &counts.as_slice(),
        &[Ok(2), Ok(2), Ok(2)].as_slice(),
    );
    Ok(())
}

#[test]
fn a_full_queue_hands_the_item_back(rt: HostRuntime) -> Result<(), Fail> {
    let rows = Rows {
        numbers: &[1, 2, 3, 4],
        weights: &[5, 6, 7, 8],
    };
    let (line, mut pass) = Line::open(rt.alloc(), 1, rows)?;
    let first = pair_at(rt.alloc(), rows, 0)?;
    let second = pair_at(rt.alloc(), rows, 2)?;
    holds(&rt, &"given", line.give(&mut pass, first).is_ok());
    let Err(back) = line.give(&mut pass, second) else {
        return Err(Fail::from("it was not full"));
    };
    equal(
        &rt,
        &"handed back",
        &back.places.as_slice(),
        &[2, 3].as_slice(),
    );
    let Some(taken) = line.take(&mut pass) else {
        return Err(Fail::from("it was empty"));
    };
    equal(&rt, &"taken", &taken.places.as_slice(), &[0, 1].as_slice());
    holds(&rt, &"then empty", line.take(&mut pass).is_none());
    Ok(())
}
