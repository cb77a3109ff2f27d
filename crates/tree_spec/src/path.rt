//! Paths as lists of names.
ghost use Rattle.std.specs.Prelude.{◌≡◌, ℕ, ◌+◌, ◌<◌, ◌≤◌, List, [], ◌∷◌, ◌++◌, length, take, drop, get_or, nat_le, if◌then◌else◌};
ghost use Rattle.tree_spec.specs.Names.{longest_text, parts, names_of, text_of, BeginsAtSlash, IsNameList};

use crate::name::{Name, put_at};
use std::marker::Model;

/// The most bytes of a path's text.
pub const TEXT_LIMIT: usize = 3200;

/// A path of at most 3,200 bytes of text, seen as the list of its names. It takes no memory.
#[derive(Drop)]
pub struct Path {
    text: [u8; 3200],
    len: usize,
    count: usize,
}

impl Model for Path {
    ghost use Rattle.std.specs.Prelude.{◌≡◌, ◌≤◌, List, ℕ, take, length};
    ghost use Rattle.tree_spec.specs.Names.{longest_text, names_of, BeginsAtSlash, IsNameList};

    ghost Value = { List (List ℕ) };

    ghost view = { λ a. names_of (take a.len a.text) };

    ghost invariant = { λ a. (a.len ≤ longest_text) × BeginsAtSlash (take a.len a.text)
        × IsNameList (names_of (take a.len a.text)) × (a.count ≡ length (names_of (take a.len a.text))) };
}

/// Where the text has its first slash, or its end.
fn segment(text: &[u8]) -> usize
    ensures front { take result text.now ≡ (parts text.now).0 }
    ensures begins { BeginsAtSlash (drop result text.now) }
    ensures rest { names_of (drop result text.now) ≡ names_of text.now }
    ensures bound { result ≤ length text.now }
{
    for (i, b) in text.iter().enumerate() {
        if *b == b'/' {
            return i;
        }
    }
    text.len()
}

/// The first name of a text that begins at a slash, and the text behind it.
pub fn split_name(text: &[u8]) -> (&[u8], &[u8])
    requires begins { BeginsAtSlash text.now }
    requires has_name { 0 < length (names_of text.now) }
    ensures name { names_of text.now ≡ result.0.now ∷ names_of result.1.now }
    ensures begins { BeginsAtSlash result.1.now }
{
    let (_, rest) = text.split_at(1);
    rest.split_at(segment(rest))
}

fn nth_name(text: &[u8], i: usize) -> &[u8]
    requires begins { BeginsAtSlash text.now }
    requires in_range { i < length (names_of text.now) }
    ensures { (d : List ℕ) → result.now ≡ get_or (names_of text.now) i d }
{
    let mut rest = text;
    for _ in 0..i {
        let (_, behind) = split_name(rest);
        rest = behind;
    }
    let (name, _) = split_name(rest);
    name
}

fn blank() -> [u8; 3200] {
    [0; TEXT_LIMIT]
}

impl Path {
    /// The path `/`, with no names.
    pub fn root() -> Path
        ensures { result ≡ [] }
    {
        Path {
            text: blank(),
            len: 0,
            count: 0,
        }
    }

    /// The number of names.
    pub fn len(&self) -> usize
        ensures { result ≡ length self.now }
    {
        self.count
    }

    /// The text: `/` for no names, else `/` before each name.
    pub fn text(&self) -> &[u8]
        ensures value { result.now ≡ text_of self.now }
        ensures short { length (text_of self.now) ≤ longest_text }
        ensures names { IsNameList self.now }
    {
        if self.count == 0 {
            return b"/";
        }
        &self.text[..self.len]
    }

    /// Adds a name at the end. False, and the path as before, exactly where the text would be too long.
    pub fn push(&mut self, name: &Name) -> bool
        ensures fits { result ≡ nat_le (length (text_of (self.old ++ name.now ∷ []))) longest_text }
        ensures names { self.new ≡ (if result then self.old ++ name.now ∷ [] else self.old) }
    {
        let bytes = name.bytes();
        let end = self.len + 1 + bytes.len();
        if end > TEXT_LIMIT {
            return false;
        }
        put_at(&mut self.text, self.len, b"/");
        put_at(&mut self.text, self.len + 1, bytes);
        self.len = end;
        self.count += 1;
        true
    }

    /// The name at a place, counted from 0.
    pub fn name(&self, i: usize) -> Name
        requires { i < length self.now }
        ensures { (d : List ℕ) → result ≡ get_or self.now i d }
    {
        let part = nth_name(&self.text[..self.len], i);
        Name::keep(part)
    }
}
