//! What refusals say to people, what is wrong and where; and the codes of those of the debugger.

use crate::assertions::{equal, given};
use block::BlockRefusal;
use byte_sinks::{SinkFault, WriteRefusal};
use debugger::session::Refusal;
use interp::readers::BytesRefusal;
use memory::StoreRefusal;
use records::Fault;
use std::alloc::Global;
use std::fmt::Display;
use std::process::Abort;
use world::ReadRefusal;
use wtypes::TrapCode;

fn says<T: Display>(rt: &impl Abort, alloc: Global, refusal: &T, text: &str) {
    let said = given(rt, &text, format!(in alloc; "{refusal}"));
    equal(rt, &text, &said.as_str(), &text);
}

#[test]
fn refusals_say_what_and_where(rt: HostRuntime) {
    let alloc = rt.alloc();
    says(&rt, alloc, &SinkFault, "the sink did not take the bytes");
    says(
        &rt,
        alloc,
        &Fault::Malformed(5),
        "a field cannot be or is cut short where 5 bytes are left",
    );
    says(
        &rt,
        alloc,
        &BlockRefusal::Malformed(12),
        "what begins at byte 12 spells no block",
    );
    says(
        &rt,
        alloc,
        &BlockRefusal::TooLarge,
        "there are more than 65,535 positions",
    );
    says(&rt, alloc, &WriteRefusal::Write, "the sink failed");
    says(
        &rt,
        alloc,
        &ReadRefusal::Malformed(8),
        "what begins at byte 8 spells no world",
    );
    says(&rt, alloc, &ReadRefusal::NoMemory, "memory was refused");
    says(
        &rt,
        alloc,
        &StoreRefusal::Trap(TrapCode::MemoryOutOfBounds),
        "trap: MemoryOutOfBounds",
    );
    says(
        &rt,
        alloc,
        &BytesRefusal::OutOfRange,
        "the bytes do not all lie in memory",
    );
}

#[test]
fn codes_of_refusals(rt: HostRuntime) {
    let refusals = [
        Refusal::BeforeStart,
        Refusal::NoSuchPlace,
        Refusal::OutOfRange,
        Refusal::NoMemory,
    ];
    equal(&rt, &"codes", &refusals.map(Refusal::code), &[1, 2, 3, 4]);
}
