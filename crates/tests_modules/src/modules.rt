// Modules in bytes, each as its shortest spelling (Core Specification, 5.5 Modules).
use crate::bodies::{put_body, put_constant};
use crate::source::{
    EXPORTS, IMPORTS, NAMES, SECTIONS, Source, any_number, count, draw, one_of, put_byte,
    put_bytes, put_number,
};
use rand_core::Rng;
use std::alloc::{AllocError, Global};

/// The numbers of the sections that are made.
pub const SECTION_NUMBERS: [u8; 11] = [1, 2, 3, 4, 5, 6, 7, 8, 9, 10, 11];

/// Names of all kinds.
pub const SPELLED: [&str; 14] = [
    "",
    "pay",
    "get",
    "add",
    "total",
    "a b",
    "\"",
    "\\",
    "\n\t\r",
    "\0\u{1F}\u{7F}",
    "\u{E9}\u{20AC}\u{1D11E}",
    "(;$x;)",
    ";; end",
    "\\6e'",
];

// A name, counted.
fn put_name(source: &mut Source, out: &mut Vec<u8>) -> Result<(), AllocError> {
    let place = draw(source, 14) as usize;
    count(source, NAMES.saturating_add(place));
    put_bytes(out, SPELLED.get(place).copied().unwrap_or("").as_bytes())
}

// A type of values.
fn put_type(source: &mut Source, out: &mut Vec<u8>) -> Result<(), AllocError> {
    put_byte(out, one_of(source, &[0x7F, 0x7E]))
}

// So many types of values at most.
fn put_types(source: &mut Source, out: &mut Vec<u8>, most: u32) -> Result<(), AllocError> {
    let size = draw(source, most);
    put_number(out, size)?;
    for _ in 0..size {
        put_type(source, out)?;
    }
    Ok(())
}

// The limits of a table or of a memory.
fn put_limits(source: &mut Source, out: &mut Vec<u8>) -> Result<(), AllocError> {
    let has_most = one_of(source, &[0, 1]);
    out.push(has_most)?;
    put_number(out, draw(source, 3))?;
    if has_most == 1 {
        put_number(out, draw(source, 300).saturating_add(3))?;
    }
    Ok(())
}

// A type of a table: limits behind the type of its elements.
fn put_table(source: &mut Source, out: &mut Vec<u8>) -> Result<(), AllocError> {
    out.push(0x70)?;
    put_limits(source, out)
}

// A type of a global.
fn put_global_type(source: &mut Source, out: &mut Vec<u8>) -> Result<(), AllocError> {
    put_type(source, out)?;
    put_byte(out, one_of(source, &[0, 1]))
}

// An expression of one instruction: a constant, or a global.
fn put_constant_expression(source: &mut Source, out: &mut Vec<u8>) -> Result<(), AllocError> {
    if draw(source, 4) == 0 {
        out.push(0x23)?;
        put_number(out, draw(source, 3))?;
    } else {
        put_constant(source, out)?;
    }
    put_byte(out, 0x0B)
}

// An import of this kind.
fn put_import(
    source: &mut Source,
    out: &mut Vec<u8>,
    kind: u8,
    types: u32,
) -> Result<(), AllocError> {
    count(source, IMPORTS.saturating_add(usize::from(kind)));
    if draw(source, 2) == 0 {
        put_bytes(out, b"boost")?;
    } else {
        put_name(source, out)?;
    }
    put_name(source, out)?;
    out.push(kind)?;
    match kind {
        0 => put_number(out, draw(source, types)),
        1 => put_table(source, out),
        2 => put_limits(source, out),
        _ => put_global_type(source, out),
    }
}

// An export.
fn put_export(source: &mut Source, out: &mut Vec<u8>) -> Result<(), AllocError> {
    put_name(source, out)?;
    let kind = one_of(source, &[0, 1, 2, 3]);
    count(source, EXPORTS.saturating_add(usize::from(kind)));
    out.push(kind)?;
    put_number(out, draw(source, 6))
}

// The locals of a function, in runs of one type each that is not the type of the run before.
fn put_locals(source: &mut Source, out: &mut Vec<u8>) -> Result<(), AllocError> {
    let runs = draw(source, 4);
    let first = draw(source, 2);
    put_number(out, runs)?;
    for run in 0..runs {
        put_number(out, draw(source, 3).saturating_add(1))?;
        out.push(if (run ^ first) % 2 == 0 { 0x7F } else { 0x7E })?;
    }
    Ok(())
}

// A function behind the number of its bytes.
fn put_function(
    source: &mut Source,
    out: &mut Vec<u8>,
    types: u32,
    alloc: Global,
) -> Result<(), AllocError> {
    let mut code = Vec::new(alloc);
    put_locals(source, &mut code)?;
    let size = draw(source, 40);
    put_body(source, &mut code, types, size, alloc)?;
    put_bytes(out, &code)
}

// An item of this section, the one of this place.
fn put_item(
    source: &mut Source,
    out: &mut Vec<u8>,
    section: u8,
    types: u32,
    alloc: Global,
) -> Result<(), AllocError> {
    match section {
        1 => {
            out.push(0x60)?;
            put_types(source, out, 5)?;
            put_types(source, out, 2)
        }
        3 => put_number(out, draw(source, types)),
        4 => put_table(source, out),
        5 => put_limits(source, out),
        6 => {
            put_global_type(source, out)?;
            put_constant_expression(source, out)
        }
        7 => put_export(source, out),
        9 => {
            put_number(out, 0)?;
            put_constant_expression(source, out)?;
            let size = draw(source, 5);
            put_number(out, size)?;
            for _ in 0..size {
                put_number(out, any_number(source))?;
            }
            Ok(())
        }
        10 => put_function(source, out, types, alloc),
        _ => {
            put_number(out, 0)?;
            put_constant_expression(source, out)?;
            let size = draw(source, 40);
            put_number(out, size)?;
            for _ in 0..size {
                out.push((source.random.next_u32() >> 24) as u8)?;
            }
            Ok(())
        }
    }
}

// The imports: the first of any kind, the others functions and globals, so that one at most is a table or a memory.
fn put_imports(
    source: &mut Source,
    out: &mut Vec<u8>,
    size: u32,
    types: u32,
) -> Result<(), AllocError> {
    for place in 0..size {
        let kind = if place == 0 {
            one_of(source, &[0, 1, 2, 3])
        } else {
            one_of(source, &[0, 3])
        };
        put_import(source, out, kind, types)?;
    }
    Ok(())
}

// A section of so many items.
fn put_section(
    source: &mut Source,
    out: &mut Vec<u8>,
    section: u8,
    size: u32,
    types: u32,
    alloc: Global,
) -> Result<(), AllocError> {
    if size == 0 {
        return Ok(());
    }
    count(source, SECTIONS.saturating_add(usize::from(section)));
    let mut content = Vec::new(alloc);
    put_number(&mut content, size)?;
    if section == 2 {
        put_imports(source, &mut content, size, types)?;
    } else if section != 8 {
        for _ in 0..size {
            put_item(source, &mut content, section, types, alloc)?;
        }
    }
    out.push(section)?;
    put_bytes(out, &content)
}

/// A module.
pub fn module(source: &mut Source, alloc: Global) -> Result<Vec<u8>, AllocError> {
    let mut out = b"\0asm\x01\0\0\0".to_vec(alloc)?;
    let types = draw(source, 4).saturating_add(1);
    let functions = draw(source, 5);
    for section in SECTION_NUMBERS {
        let size = match section {
            1 => types,
            3 | 10 => functions,
            4 | 5 => draw(source, 2),
            // Of the start function this is its number, not a count.
            _ => draw(source, 4),
        };
        put_section(source, &mut out, section, size, types, alloc)?;
    }
    Ok(out)
}
