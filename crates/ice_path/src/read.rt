//! Paths from bytes.
ghost use Rattle.std.specs.Prelude.{◌≡◌, ◌≤◌, ◌||◌, None, Some, false, length, IfOk, MatchResult};
ghost use Rattle.std.specs.List.{list_all, list_any};
ghost use Rattle.tree_spec.specs.Names.{is_dots, longest_text, names_of, text_of, BeginsAtSlash, IsNameList};
ghost use Rattle.ice_path.specs.Paths.{begins_elsewhere, is_empty_name, is_long_name, is_path_byte, is_slash, path_fault, path_names};

use tree_spec::{NAME_LIMIT, Name, Path, TEXT_LIMIT, only_dots, split_name};

/// Why a text is no path, in the order in which the faults are looked for.
#[derive(Clone, Copy, Debug, PartialEq, Eq)]
pub enum PathFault {
    /// The first byte is no slash.
    Slash,
    /// A name is empty, and the text isn't `/`.
    Empty,
    /// A byte lies outside 0x21 to 0x7E.
    Byte,
    /// A name is `.` or `..`.
    Dot,
    /// A name has more than 123 bytes.
    NameLong,
    /// The text has more than 3,200 bytes.
    PathLong,
}

/// What is wrong with some name of a text.
#[derive(Drop)]
struct Seen {
    empty: bool,
    dots: bool,
    long: bool,
}

fn starts_elsewhere(text: &[u8]) -> bool
    ensures { result ≡ begins_elsewhere text.now }
{
    match text {
        [] => true,
        [b, ..] => *b != b'/',
    }
}

fn slash_alone(text: &[u8]) -> bool
    ensures { result ≡ is_slash text.now }
{
    match text {
        [b] => *b == b'/',
        _ => false,
    }
}

fn path_byte(b: u8) -> bool
    ensures { result ≡ is_path_byte b }
{
    b >= 0x21 && b <= 0x7E
}

fn all_path_bytes(bytes: &[u8]) -> bool
    ensures { result ≡ list_all is_path_byte bytes.now }
{
    bytes.iter().all(|b| path_byte(*b))
}

fn seen_with(seen: Seen, name: &[u8]) -> Seen
    ensures empty { result.empty ≡ (seen.empty || is_empty_name name.now) }
    ensures dots { result.dots ≡ (seen.dots || is_dots name.now) }
    ensures long { result.long ≡ (seen.long || is_long_name name.now) }
{
    Seen {
        empty: seen.empty || name.is_empty(),
        dots: seen.dots || only_dots(name),
        long: seen.long || name.len() > NAME_LIMIT,
    }
}

/// What is wrong with some name of a text that is empty or begins with a slash.
fn look(text: &[u8]) -> Seen
    requires { BeginsAtSlash text.now }
    ensures empty { result.empty ≡ list_any is_empty_name (names_of text.now) }
    ensures dots { result.dots ≡ list_any is_dots (names_of text.now) }
    ensures long { result.long ≡ list_any is_long_name (names_of text.now) }
{
    let mut seen = Seen {
        empty: false,
        dots: false,
        long: false,
    };
    let mut rest = text;
    while !rest.is_empty() {
        let (name, behind) = split_name(rest);
        seen = seen_with(seen, name);
        rest = behind;
    }
    seen
}

/// The fault of a text that begins with a slash and isn't `/`.
fn fault_of(text: &[u8]) -> Option<PathFault>
    requires slash { begins_elsewhere text.now ≡ false }
    requires longer { is_slash text.now ≡ false }
    ensures { result ≡ path_fault text.now }
{
    let seen = look(text);
    if seen.empty {
        return Some(PathFault::Empty);
    }
    if !all_path_bytes(text) {
        return Some(PathFault::Byte);
    }
    if seen.dots {
        return Some(PathFault::Dot);
    }
    if seen.long {
        return Some(PathFault::NameLong);
    }
    if text.len() > TEXT_LIMIT {
        return Some(PathFault::PathLong);
    }
    None
}

fn path_of(text: &[u8]) -> Path
    requires begins { BeginsAtSlash text.now }
    requires names { IsNameList (names_of text.now) }
    requires short { length text.now ≤ longest_text }
    ensures { result ≡ names_of text.now }
{
    let mut path = Path::root();
    let mut rest = text;
    while !rest.is_empty() {
        let (bytes, behind) = split_name(rest);
        match Name::new(bytes) {
            Some(name) => {
                path.push(&name);
            }
            None => {}
        }
        rest = behind;
    }
    path
}

/// The path that a text names, or the first fault of the text: each is looked for in the whole text.
pub fn read_path(bytes: &[u8]) -> Result<Path, PathFault>
    ensures value { MatchResult result (λ p. path_fault bytes.now ≡ None) (λ fault. path_fault bytes.now ≡ Some fault) }
    ensures names { IfOk result (λ p. p ≡ path_names bytes.now) }
    ensures text { IfOk result (λ p. text_of p ≡ bytes.now) }
{
    if starts_elsewhere(bytes) {
        return Err(PathFault::Slash);
    }
    if slash_alone(bytes) {
        return Ok(Path::root());
    }
    match fault_of(bytes) {
        Some(fault) => Err(fault),
        None => Ok(path_of(bytes)),
    }
}
