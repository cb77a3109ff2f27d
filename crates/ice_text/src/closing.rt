//! Closing lines, read back.
ghost use Rattle.std.specs.Prelude.{◌≡◌};
ghost use Rattle.std.specs.List.{list_all};
ghost use Rattle.std.specs.Str.{bytes_eq};
ghost use Rattle.ice_script.specs.Reading.{tokens_behind};
ghost use Rattle.ice_text.specs.Closing.{closing_of, count_of, cube_refusal, is_count, is_kind, is_lower_digit, is_lower_hex, is_small, is_value, line_refusal, named_refusal, refusal_of, tree_refusal};

use ice_script::split_token;

const DIGITS: usize = 20;

/// What a closing line says: the command was accepted, or refused by the refusal of this number.
#[derive(Clone, Copy, Debug, PartialEq, Eq)]
pub enum Closing {
    Ok,
    No(u8),
}

/// The value of a decimal number below 2^64 without leading zeros.
fn read_count(token: &[u8]) -> Option<u64>
    ensures { result ≡ count_of token.now }
{
    if token.is_empty() || token.len() > DIGITS || (token.len() > 1 && token[0] == b'0') {
        return None;
    }
    let mut value: u128 = 0;
    for digit in token {
        if !digit.is_ascii_digit() {
            return None;
        }
        value = value * 10 + u128::from(*digit - b'0');
    }
    u64::try_from(value).ok()
}

/// Whether the token is such a number.
fn count(token: &[u8]) -> bool
    ensures { result ≡ is_count token.now }
{
    read_count(token).is_some()
}

/// `0` to `9`, and `a` to `f`.
fn lower_digit(digit: u8) -> bool
    ensures { result ≡ is_lower_digit digit }
{
    (digit >= b'0' && digit <= b'9') || (digit >= b'a' && digit <= b'f')
}

/// Whether each byte is such a digit.
fn all_lower_digits(token: &[u8]) -> bool
    ensures { result ≡ list_all is_lower_digit token.now }
{
    token.iter().all(|digit| lower_digit(*digit))
}

/// Bytes as hex digits in lower case, or `-`.
fn lower_hex(token: &[u8]) -> bool
    ensures { result ≡ is_lower_hex token.now }
{
    token == b"-".as_slice()
        || (!token.is_empty() && token.len() % 2 == 0 && all_lower_digits(token))
}

/// `dir` or `file`.
fn kind(token: &[u8]) -> bool
    ensures { result ≡ is_kind token.now }
{
    token == b"dir".as_slice() || token == b"file".as_slice()
}

/// Whether what stands behind `ok` is the value of a reply.
#[tactic(auto, using(crate::proofs::Lines::value_more))]
fn value(rest: Option<&[u8]>) -> bool
    ensures { result ≡ is_value (tokens_behind rest.entry) }
{
    let Some(text) = rest else {
        return true;
    };
    let (a, rest) = split_token(text);
    let Some(text) = rest else {
        return count(a) || lower_hex(a);
    };
    let (b, rest) = split_token(text);
    let Some(text) = rest else {
        return kind(a) && count(b);
    };
    let (c, rest) = split_token(text);
    match rest {
        None => count(a) && count(b) && count(c),
        Some(_) => false,
    }
}

/// Whether the token is this name.
fn is_name(token: &[u8], name: &[u8]) -> bool
    ensures { result ≡ bytes_eq token.now name.now }
{
    token == name
}

/// The number of a refusal that a tree has.
fn tree_number(name: &[u8]) -> Option<u8>
    ensures { result ≡ tree_refusal name.now }
{
    if is_name(name, b"NameLong") {
        return Some(1);
    }
    if is_name(name, b"TooDeep") {
        return Some(2);
    }
    if is_name(name, b"NotFound") {
        return Some(3);
    }
    if is_name(name, b"NotDir") {
        return Some(4);
    }
    if is_name(name, b"IsDir") {
        return Some(5);
    }
    if is_name(name, b"IsRoot") {
        return Some(6);
    }
    if is_name(name, b"Exists") {
        return Some(7);
    }
    if is_name(name, b"NotEmpty") {
        return Some(8);
    }
    if is_name(name, b"IntoItself") {
        return Some(9);
    }
    if is_name(name, b"BeyondEnd") {
        return Some(10);
    }
    if is_name(name, b"FileBig") {
        return Some(11);
    }
    if is_name(name, b"NoNodes") {
        return Some(12);
    }
    if is_name(name, b"NoSpace") {
        return Some(13);
    }
    if is_name(name, b"Spent") {
        return Some(14);
    }
    None
}

/// The number of a refusal of a line's text, or by the disk or the memory.
fn line_number(name: &[u8]) -> Option<u8>
    ensures { result ≡ line_refusal name.now }
{
    if is_name(name, b"Fault") {
        return Some(16);
    }
    if is_name(name, b"Memory") {
        return Some(17);
    }
    if is_name(name, b"Word") {
        return Some(18);
    }
    if is_name(name, b"Args") {
        return Some(19);
    }
    if is_name(name, b"Number") {
        return Some(20);
    }
    if is_name(name, b"Hex") {
        return Some(21);
    }
    if is_name(name, b"Long") {
        return Some(22);
    }
    if is_name(name, b"Path") {
        return Some(23);
    }
    None
}

/// The number of a refusal by a cube's state, or by the tables.
fn cube_number(name: &[u8]) -> Option<u8>
    ensures { result ≡ cube_refusal name.now }
{
    if is_name(name, b"NoCube") {
        return Some(24);
    }
    if is_name(name, b"CrossCube") {
        return Some(25);
    }
    if is_name(name, b"Offline") {
        return Some(26);
    }
    if is_name(name, b"Stopped") {
        return Some(27);
    }
    if is_name(name, b"Unmounted") {
        return Some(28);
    }
    if is_name(name, b"Mounted") {
        return Some(29);
    }
    if is_name(name, b"State") {
        return Some(30);
    }
    if is_name(name, b"NoSlot") {
        return Some(31);
    }
    if is_name(name, b"CubeFull") {
        return Some(32);
    }
    if is_name(name, b"NoGroups") {
        return Some(33);
    }
    None
}

/// The number of a refusal without a rule.
fn named_number(name: &[u8]) -> Option<u8>
    ensures { result ≡ named_refusal name.now }
{
    if let Some(number) = tree_number(name) {
        return Some(number);
    }
    if let Some(number) = line_number(name) {
        return Some(number);
    }
    cube_number(name)
}

/// Whether the token is a number of one byte.
fn small(token: &[u8]) -> bool
    ensures { result ≡ is_small (count_of token.now) }
{
    match read_count(token) {
        Some(count) => count < 256,
        None => false,
    }
}

/// The number of the refusal that stands behind `no`.
#[tactic(auto, using(crate::proofs::Lines::refusal_more))]
fn refusal(rest: Option<&[u8]>) -> Option<u8>
    ensures { result ≡ refusal_of (tokens_behind rest.entry) }
{
    let (name, rest) = split_token(rest?);
    let Some(text) = rest else {
        return named_number(name);
    };
    let (rule, rest) = split_token(text);
    if rest.is_none() && is_name(name, b"Damaged") && small(rule) {
        return Some(15);
    }
    None
}

/// What a line without its LF says, where it is the closing line of a reply. None exactly where it is none.
pub fn read_closing(line: &[u8]) -> Option<Closing>
    ensures { result ≡ closing_of line.now }
{
    let (word, rest) = split_token(line);
    if is_name(word, b"ok") {
        return if value(rest) { Some(Closing::Ok) } else { None };
    }
    if is_name(word, b"no") {
        return match refusal(rest) {
            Some(number) => Some(Closing::No(number)),
            None => None,
        };
    }
    None
}
