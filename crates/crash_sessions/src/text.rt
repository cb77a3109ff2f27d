//! The text of lines and replies.
use ice_script::LineReader;
use plain_tree::{PlainEntry, PlainReply};
use std::alloc::{AllocError, Global};
use std::fmt::Write;
use tree_spec::{Reply, Value};

/// A reader that holds the line.
pub fn reader_of(alloc: Global, line: &str) -> Result<LineReader, AllocError> {
    let mut reader = LineReader::new(alloc)?;
    for byte in line.as_bytes() {
        if reader.push(*byte) {
            break;
        }
    }
    Ok(reader)
}

/// How many bytes the first reply of an output has: its lines up to the first that begins with `ok` or `no`.
pub fn reply_len(output: &[u8]) -> usize {
    let mut len: usize = 0;
    for line in output.split(|byte| *byte == b'\n') {
        len = len.saturating_add(line.len()).saturating_add(1);
        if line.starts_with(b"ok") || line.starts_with(b"no") {
            break;
        }
    }
    len
}

/// The first so many replies of an output, and what stands behind them.
pub fn cut_replies(output: &[u8], count: usize) -> (&[u8], &[u8]) {
    let mut end: usize = 0;
    for _ in 0..count {
        let rest = output.get(end..).unwrap_or(b"");
        end = end.saturating_add(reply_len(rest));
    }
    output.split_at(end.min(output.len()))
}

/// Adds a reply of a number or none.
pub fn add_plain(reply: &Reply, text: &mut String) -> Result<(), AllocError> {
    match reply {
        Err(refusal) => writeln!(text, "no {refusal:?}"),
        Ok(Value::Number(count)) => writeln!(text, "ok {count}"),
        Ok(
            Value::Checked {
                blocks,
                nodes,
                done,
            },
        ) => writeln!(text, "ok {blocks} {nodes} {done}"),
        Ok(Value::Dir(count)) => writeln!(text, "ok dir {count}"),
        Ok(Value::File(count)) => writeln!(text, "ok file {count}"),
        Ok(Value::Listed(count)) => writeln!(text, "ok {count}"),
        Ok(Value::Plain | Value::Bytes) => writeln!(text, "ok"),
    }
}

/// Adds what a plain tree replies.
pub fn add_reply(
    alloc: Global,
    plain: &mut PlainReply,
    text: &mut String,
) -> Result<(), AllocError> {
    match plain.reply {
        Ok(Value::Bytes) => add_bytes(alloc, plain.bytes.as_slice(), text),
        Ok(Value::Listed(_)) => {
            add_entries(&mut plain.entries, text)?;
            add_plain(&plain.reply, text)
        }
        _ => add_plain(&plain.reply, text),
    }
}

/// Adds the reply to a read of these bytes.
fn add_bytes(alloc: Global, bytes: &[u8], text: &mut String) -> Result<(), AllocError> {
    if bytes.is_empty() {
        return text.push_str("ok -\n");
    }
    text.push_str("ok ")?;
    text.push_str(hex::encode(alloc, bytes)?.as_str())?;
    text.push_str("\n")
}

/// Adds a line for each entry, ascending by the bytes of the names.
fn add_entries(entries: &mut Vec<PlainEntry>, text: &mut String) -> Result<(), AllocError> {
    entries.sort_unstable_by(|a, b| a.name.as_slice().cmp(b.name.as_slice()));
    for entry in entries.iter() {
        let word = if entry.dir { "dir" } else { "file" };
        let name = str::from_utf8(entry.name.as_slice()).unwrap_or("?");
        writeln!(text, "{word} {name}")?;
    }
    Ok(())
}
