// A thousand modules, copied, and written as text and assembled again.
use crate::assertions::equal;
use crate::bodies::{ACCESSES, BARE, NUMBERED, OPENINGS, OTHERS, SIZES};
use crate::both::encoded;
use crate::modules::{SECTION_NUMBERS, module};
use crate::source::{EXPORTS, IMPORTS, NAMES, SECTIONS, Source, THINGS};
use assembler::assemble;
use loader::load;
use module_text::text_of;
use rand_pcg::Pcg32;
use std::alloc::Global;
use std::test::Fail;

/// What comes of a module.
#[derive(Clone, Copy, Debug, PartialEq, Eq)]
enum Fate {
    /// Its copy, and its text, assembled, are the very bytes that were made.
    Same,
    /// It is not loaded.
    Unloaded,
    /// It is not its own shortest spelling.
    Longer,
    /// A copy of it is spelled otherwise.
    Miscopied,
    /// It gets no text.
    Unwritten,
    /// The text is refused.
    Refused,
    /// The text names another module.
    Other,
}

// What comes of the module of these bytes.
fn outcome_of(a: Global, bytes: &[u8]) -> Result<Fate, Fail> {
    let Ok(tree) = load(a, bytes) else {
        return Ok(Fate::Unloaded);
    };
    if encoded(a, &tree)?.as_slice() != bytes {
        return Ok(Fate::Longer);
    }
    let copy = tree.copy_in(a)?;
    if encoded(a, &copy)?.as_slice() != bytes {
        return Ok(Fate::Miscopied);
    }
    let Ok(text) = text_of(a, &tree, &[]) else {
        return Ok(Fate::Unwritten);
    };
    let Ok(read) = assemble(a, text.as_str()) else {
        return Ok(Fate::Refused);
    };
    Ok(if encoded(a, &read)?.as_slice() == bytes {
        Fate::Same
    } else {
        Fate::Other
    })
}

// The first seed whose module does not come back, and what comes of it.
fn fault(a: Global, source: &mut Source, seeds: u32) -> Result<Option<(u32, Fate)>, Fail> {
    for seed in 0..seeds {
        source.random = Pcg32::new(u64::from(seed), 54);
        let bytes = module(source, a)?;
        let found = outcome_of(a, &bytes)?;
        if found != Fate::Same {
            return Ok(Some((seed, found)));
        }
    }
    Ok(None)
}

// The first of these opcodes that was not made.
fn unmade(source: &Source, opcodes: &[u8]) -> Option<u8> {
    opcodes.iter().copied().find(|opcode| source
        .made
        .get(usize::from(*opcode))
        .copied()
        .unwrap_or(0)
        == 0)
}

// How many of so many things from this place on were made.
fn made(source: &Source, from: usize, size: usize) -> usize {
    let mut kinds: usize = 0;
    for (place, times) in source.made.iter().enumerate() {
        if place >= from && place - from < size && *times > 0 {
            kinds = kinds.saturating_add(1);
        }
    }
    kinds
}

/// Opcodes of which each is to be made.
const OPCODES: &[(&str, &[u8])] = &[
    ("bare", BARE),
    ("numbered", &NUMBERED),
    ("accesses", ACCESSES),
    ("sizes", &SIZES),
    ("openings", &OPENINGS),
    ("others", &OTHERS),
];

/// Where kinds of things are counted, in how many places, and how many of them are to be made.
const KINDS: &[(&str, usize, usize, usize)] = &[
    ("sections", SECTIONS, 16, SECTION_NUMBERS.len()),
    ("imports", IMPORTS, 8, 4),
    ("exports", EXPORTS, 8, 4),
    ("names", NAMES, 32, 14),
];

#[test]
fn a_thousand_modules_come_back(rt: HostRuntime) -> Result<(), Fail> {
    let mut source = Source {
        random: Pcg32::new(0, 54),
        made: [0; THINGS],
    };
    let fault = fault(rt.alloc(), &mut source, 1000)?;
    equal(&rt, &"a thousand modules", &fault, &None);
    for (name, opcodes) in OPCODES {
        equal(&rt, name, &unmade(&source, *opcodes), &None);
    }
    for (name, from, size, count) in KINDS {
        equal(&rt, name, &made(&source, *from, *size), count);
    }
    Ok(())
}
