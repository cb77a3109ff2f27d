//! Names of files and directories.
ghost use Rattle.std.specs.Prelude.{◌≡◌, ◌+◌, ◌≤◌, ◌++◌, length, take, true, false, MatchOption};
ghost use Rattle.std.specs.List.{list_all};
ghost use Rattle.tree_spec.specs.Names.{is_dots, is_name, is_name_byte, longest_name};

use std::marker::Model;

/// The most bytes of a name in a cube of any version.
pub const NAME_LIMIT: usize = 123;

/// A name of 1 to 123 bytes of 0x21 to 0x7E without `/`, and neither `.` nor `..`. It takes no memory.
#[derive(Drop)]
pub struct Name {
    bytes: [u8; 123],
    len: usize,
}

impl Model for Name {
    ghost use Rattle.std.specs.Prelude.{◌≡◌, ◌≤◌, List, ℕ, take, true};
    ghost use Rattle.tree_spec.specs.Names.{is_name, longest_name};

    ghost Value = { List ℕ };

    ghost view = { λ a. take a.len a.bytes };

    ghost invariant = { λ a. (a.len ≤ longest_name) × (is_name (take a.len a.bytes) ≡ true) };
}

fn name_byte(b: u8) -> bool
    ensures { result ≡ is_name_byte b }
{
    b >= 0x21 && b <= 0x7E && b != b'/'
}

fn all_name_bytes(bytes: &[u8]) -> bool
    ensures { result ≡ list_all is_name_byte bytes.now }
{
    bytes.iter().all(|b| name_byte(*b))
}

/// Whether these bytes are `.` or `..`.
pub fn only_dots(bytes: &[u8]) -> bool
    ensures { result ≡ is_dots bytes.now }
{
    match bytes {
        [a] => *a == b'.',
        [a, b] => *a == b'.' && *b == b'.',
        _ => false,
    }
}

#[tactic(auto, unfolding(crate::specs::Names::is_name))]
fn is_proper_name(bytes: &[u8]) -> bool
    ensures value { result ≡ is_name bytes.now }
    ensures short { result ≡ true → length bytes.now ≤ longest_name }
{
    !bytes.is_empty() && bytes.len() <= NAME_LIMIT && all_name_bytes(bytes) && !only_dots(bytes)
}

/// Puts the bytes at a place.
pub(crate) fn put_at(into: &mut [u8], at: usize, bytes: &[u8])
    requires { at + length bytes.now ≤ length into.old }
    ensures front { take (at + length bytes.now) into.new ≡ take at into.old ++ bytes.now }
    ensures len { length into.new ≡ length into.old }
{
    into[at..at + bytes.len()].copy_from_slice(bytes);
}

impl Name {
    /// None exactly where the bytes are no name.
    pub fn new(bytes: &[u8]) -> Option<Name>
        ensures { MatchOption result (is_name bytes.now ≡ false) (λ n. (n ≡ bytes.now) × (is_name bytes.now ≡ true)) }
    {
        if !is_proper_name(bytes) {
            return None;
        }
        Some(Name::keep(bytes))
    }

    pub(crate) fn keep(bytes: &[u8]) -> Name
        requires short { length bytes.now ≤ longest_name }
        requires proper { is_name bytes.now ≡ true }
        ensures { result ≡ bytes.now }
    {
        let mut kept = [0; NAME_LIMIT];
        put_at(&mut kept, 0, bytes);
        Name {
            bytes: kept,
            len: bytes.len(),
        }
    }

    pub fn bytes(&self) -> &[u8]
        ensures value { result.now ≡ self.now }
        ensures name { is_name self.now ≡ true }
        ensures short { length self.now ≤ longest_name }
    {
        &self.bytes[..self.len]
    }
}
