//! Files that are not what a command takes.

/// What a file holds, by its first bytes.
pub(crate) fn kind_of(bytes: &[u8]) -> &'static str {
    if bytes.is_empty() {
        return "is empty";
    }
    if bytes.starts_with(b"\0asm") {
        return "is a module in binary";
    }
    if bytes.starts_with(b"WBWD") {
        return "is a world";
    }
    if bytes.starts_with(b"WBLK") {
        return "is a block";
    }
    if bytes.starts_with(b"(") {
        return "is a module in text";
    }
    "is something else"
}
