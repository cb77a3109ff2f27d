//! Paths as texts with a slash before each name; the root is the empty text.
ghost use Rattle.std.specs.Prelude.{◌≤◌, length};

use std::alloc::{AllocError, Global};
use tree_spec::Path;

/// The text of the names of a path from `depth` on.
pub fn text_below(alloc: Global, path: &Path, depth: usize) -> Result<Vec<u8>, AllocError> {
    let mut text = Vec::new(alloc);
    for i in 0..path.len() {
        if i >= depth {
            let name = path.name(i);
            text.push(b'/')?;
            text.extend_from_slice(name.bytes())?;
        }
    }
    Ok(text)
}

pub fn copy_of(alloc: Global, bytes: &[u8]) -> Result<Vec<u8>, AllocError> {
    let mut copy = Vec::new(alloc);
    copy.extend_from_slice(bytes)?;
    Ok(copy)
}

/// Where the last name's slash stands, or 0.
fn last_slash(text: &[u8]) -> usize
    ensures { result ≤ length text.now }
{
    let mut at = 0;
    for (i, b) in text.iter().enumerate() {
        if *b == b'/' {
            at = i;
        }
    }
    at.min(text.len())
}

/// The text without its last name.
pub fn parent(text: &[u8]) -> &[u8] {
    let (front, _) = text.split_at(last_slash(text));
    front
}

/// The last name.
pub fn last_name(text: &[u8]) -> &[u8] {
    let (_, name) = text.split_at(last_slash(text));
    match name {
        [_, rest @ ..] => rest,
        [] => name,
    }
}

/// The number of names.
pub fn depth_of(text: &[u8]) -> usize {
    let mut count: usize = 0;
    for b in text {
        if *b == b'/' {
            count = count.saturating_add(1);
        }
    }
    count
}

/// Whether the first text's names begin the second's.
pub fn begins(short: &[u8], long: &[u8]) -> bool {
    if long.len() < short.len() {
        return false;
    }
    let (front, rest) = long.split_at(short.len());
    front == short && (rest.is_empty() || rest[0] == b'/')
}

/// The bytes of the longest name.
pub fn longest_name(text: &[u8]) -> usize {
    let mut longest: usize = 0;
    let mut length: usize = 0;
    for b in text {
        length = if *b == b'/' {
            0
        } else {
            length.saturating_add(1)
        };
        if length > longest {
            longest = length;
        }
    }
    longest
}
