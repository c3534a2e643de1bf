//! What is said of lines of a session that ask for nothing, each without its newline.

/// What is said of a line of more than 1,048,576 bytes.
pub(crate) const TOO_LONG: &str =
    "usage: the line, or one of its calls, has more than 1048576 bytes; none of it was kept";

/// What is said of a line that is not UTF-8.
pub(crate) const NOT_UTF8: &str = "usage: the line is not UTF-8";

/// What is said of a line of these words that asks for nothing.
pub(crate) fn usage_of(words: &[&str]) -> &'static str {
    let word = if words.is_empty() { "" } else { words[0] };
    match word {
        "mine" => {
            "usage: mine CALLS BLOCK --fuel N [--workers N] [--boosted] [--tries N]; CALLS `-`: calls behind the line, up to an empty line; BLOCK `-`: its bytes are told"
        }
        "validate" => {
            "usage: validate CALLS BLOCK --fuel N [--workers N] [--boosted]; CALLS `-`: calls behind the line, up to an empty line"
        }
        "call" => "usage: call CONTRACT FUEL ENTRY ARG...",
        "deploy" => "usage: deploy MODULE...",
        "save" => "usage: save FILE",
        "digest" => "usage: digest",
        "quit" => "usage: quit",
        _ =>
            "usage: a line is one of mine, validate, call, deploy, save, digest, quit, with single spaces",
    }
}
