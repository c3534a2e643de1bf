//! What a session answers to a line, exactly.

ghost use Rattle.std.specs.Prelude.{◌≡◌, ◌++◌, ◌∷◌, [], true, IfOk, OnOk, length, option_map, string_bytes};
ghost use Rattle.wblock_chain.specs.Replies.{block_line, digest_line, digit_of, mark, marked, reply, saved_line};

use std::alloc::{AllocError, Global};
use wblock_line::Status;

/// The digit of a status.
fn digit_of(status: Status) -> &'static str
    ensures { result.now ≡ digit_of status }
{
    match status {
        Status::Done => "0",
        Status::Refused => "1",
        Status::Usage => "2",
        Status::File => "3",
        Status::Memory => "4",
    }
}

/// Puts a byte of a text, behind `# ` where it starts a line.
fn append_byte(out: &mut Vec<u8>, starts: bool, byte: u8) -> Result<(), AllocError>
    ensures { OnOk result (out.new.items ≡ out.old.items ++ mark starts ++ byte ∷ []) }
{
    if starts {
        out.extend_from_slice(b"# ")?;
        out.push(byte)?;
        return Ok(());
    }
    out.push(byte)?;
    Ok(())
}

/// Puts each line of a text behind `# `.
fn append_marked(out: &mut Vec<u8>, said: &str) -> Result<(), AllocError>
    ensures { OnOk result (out.new.items ≡ out.old.items ++ marked true said.now) }
{
    let mut starts = true;
    for byte in said.as_bytes() {
        append_byte(out, starts, *byte)?;
        starts = *byte == b'\n';
    }
    Ok(())
}

/// The answer to a line: what its command prints, what it says on standard error, each line behind `# `, and `status N`.
///
/// # Errors
///
/// The allocator refused memory.
pub fn reply_of(
    alloc: Global,
    text: &str,
    said: &str,
    status: Status,
) -> Result<Vec<u8>, AllocError>
    ensures { IfOk result (λ bytes. bytes.items ≡ reply text.now said.now status) }
{
    let digit = digit_of(status);
    let end = format!(in alloc; "status {digit}\n")?;
    let mut out = Vec::new(alloc);
    out.extend_from_slice(text.as_bytes())?;
    append_marked(&mut out, said)?;
    out.extend_from_slice(end.as_bytes())?;
    Ok(out)
}

/// `block HEX`, where the bytes of a block are told, and nothing else.
pub(crate) fn block_line_of(alloc: Global, block: &Option<Vec<u8>>) -> Result<String, AllocError>
    ensures { IfOk result (λ line. string_bytes line ≡ block_line (option_map (λ bytes. bytes.items) block.now)) }
{
    match block {
        None => Ok(String::new(alloc)),
        Some(bytes) => {
            let digits = hex::encode(alloc, bytes.as_slice())?;
            format!(in alloc; "block {digits}\n")
        }
    }
}

/// `digest HEX`.
pub(crate) fn digest_line_of(alloc: Global, digest: [u8; 32]) -> Result<String, AllocError>
    ensures { IfOk result (λ line. string_bytes line ≡ digest_line digest) }
{
    let digits = hex::encode(alloc, digest)?;
    format!(in alloc; "digest {digits}\n")
}

/// `saved N bytes`.
fn saved_line_of(alloc: Global, count: usize) -> Result<String, AllocError>
    ensures { IfOk result (λ line. string_bytes line ≡ saved_line count) }
{
    let line = format!(in alloc; "saved {count} bytes\n")?;
    Ok(line)
}

/// The answer where these bytes were saved.
pub(crate) fn saved_reply_of(alloc: Global, bytes: &[u8]) -> Result<Vec<u8>, AllocError>
    ensures { IfOk result (λ told. told.items ≡ reply (saved_line (length bytes.now)) [] Status.Done) }
{
    let text = saved_line_of(alloc, bytes.len())?;
    reply_of(alloc, text.as_str(), "", Status::Done)
}
