//! The parts of a line.
ghost use Rattle.std.specs.Prelude.{◌≡◌, ◌∷◌, ◌<◌, ◌≤◌, ◌*◌, ℕ, length, IfSome, option_map};
ghost use Rattle.std.specs.List.{position};
ghost use Rattle.ice_script.specs.Grammar.{is_blank, tokens, number_of, groups_of, path_in, cube_path_in, one_token, two_tokens, three_tokens};
ghost use Rattle.ice_script.specs.Reading.{tokens_behind, IsShortBehind, Decodes};

use ice_path::read_path;
use tree_spec::Path;

const DIGITS: usize = 10;

const CUBE_PATH: usize = 199;

/// Where the first blank stands.
fn next_blank(text: &[u8]) -> Option<usize>
    ensures first { result ≡ position is_blank text.now }
    ensures bound { IfSome result (λ i. i < length text.now) }
{
    text.iter().position(|byte| *byte == b' ')
}

/// The first token of a text, and what stands behind the blank after it, if there is one.
pub fn split_token(text: &[u8]) -> (&[u8], Option<&[u8]>)
    ensures tokens { tokens text.now ≡ result.0.now ∷ tokens_behind result.1 }
    ensures short { length result.0.now ≤ length text.now }
    ensures shorter { IfSome result.1 (λ rest. length rest.now ≤ length text.now) }
{
    match next_blank(text) {
        Some(end) => (&text[..end], Some(&text[end + 1..])),
        None => (text, None),
    }
}

/// The only token.
#[tactic(auto, using(crate::proofs::Tokens::one_more))]
pub(crate) fn only_token(rest: Option<&[u8]>) -> Option<&[u8]>
    ensures { option_map (λ t. t.now) result ≡ one_token (tokens_behind rest.entry) }
{
    let (first, rest) = split_token(rest?);
    match rest {
        None => Some(first),
        Some(_) => None,
    }
}

/// Both tokens.
#[tactic(auto, using(crate::proofs::Tokens::two_more))]
pub(crate) fn both_tokens<'a>(rest: Option<&'a [u8]>) -> Option<(&'a [u8], &'a [u8])>
    ensures { option_map (λ t. (t.0.now, t.1.now)) result ≡ two_tokens (tokens_behind rest.entry) }
{
    let (first, rest) = split_token(rest?);
    let (second, rest) = split_token(rest?);
    match rest {
        None => Some((first, second)),
        Some(_) => None,
    }
}

/// All three tokens.
#[tactic(auto, using(crate::proofs::Tokens::three_more))]
pub(crate) fn all_tokens<'a>(rest: Option<&'a [u8]>) -> Option<(&'a [u8], &'a [u8], &'a [u8])>
    ensures tokens { option_map (λ t. (t.0.now, t.1.now, t.2.now)) result ≡ three_tokens (tokens_behind rest.entry) }
    ensures short { (n : ℕ) → IsShortBehind n rest.entry → IfSome result (λ t. length t.2.now ≤ n) }
{
    let (first, rest) = split_token(rest?);
    let (second, rest) = split_token(rest?);
    let (third, rest) = split_token(rest?);
    match rest {
        None => Some((first, second, third)),
        Some(_) => None,
    }
}

/// The value of a number token: `0`, or one to ten decimal digits with a first digit other than 0.
/// None exactly where it is none, or its value is above 4,294,967,295.
pub fn read_number(token: &[u8]) -> Option<u32>
    ensures { result ≡ number_of token.now }
{
    if token.is_empty() || token.len() > DIGITS || (token.len() > 1 && token[0] == b'0') {
        return None;
    }
    let mut value: u64 = 0;
    for digit in token {
        if !digit.is_ascii_digit() {
            return None;
        }
        value = value * 10 + u64::from(*digit - b'0');
    }
    u32::try_from(value).ok()
}

/// The number of groups of a token, which is not 0.
pub(crate) fn read_groups(token: &[u8]) -> Option<u32>
    ensures { result ≡ groups_of token.now }
{
    let groups = read_number(token)?;
    if groups == 0 {
        return None;
    }
    Some(groups)
}

/// The path of a token.
pub(crate) fn any_path(token: &[u8]) -> Option<Path>
    ensures { result ≡ path_in token.now }
{
    match read_path(token) {
        Ok(path) => Some(path),
        Err(_) => None,
    }
}

/// The path of a token, of at most 199 bytes of text.
pub(crate) fn cube_path(token: &[u8]) -> Option<Path>
    ensures { result ≡ cube_path_in token.now }
{
    let path = any_path(token)?;
    if path.text().len() > CUBE_PATH {
        return None;
    }
    Some(path)
}

/// Decodes a hex token to the front of the buffer, and says how many bytes it has.
pub(crate) fn unhex(token: &[u8], buffer: &mut [u8]) -> Option<usize>
    requires { length token.now ≤ 2 * length buffer.old }
    ensures { Decodes token.now buffer.new result }
{
    if token == b"-".as_slice() {
        return Some(0);
    }
    if token.is_empty() {
        return None;
    }
    let count = token.len() / 2;
    match hex::decode_to_slice(token, &mut buffer[..count]) {
        Ok(()) => Some(count),
        Err(_) => None,
    }
}
