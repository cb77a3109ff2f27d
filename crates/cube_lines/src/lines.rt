//! Commands from lines, by the grammar of the whole program, for the words that one cube answers.
ghost use Rattle.std.specs.Prelude.{◌≤◌, length, IfOk};

use hex::decode_to_slice;
use ice_path::read_path;
use ice_script::read_number;
use tree_spec::{Command, Path, Refusal};

/// The bytes of the longest line.
const LONGEST_LINE: usize = 40000;

/// The most bytes of a write or a read.
const MOST_BYTES: usize = 16384;

#[derive(Clone, Copy, Debug, PartialEq, Eq)]
enum Word {
    Create,
    Delete,
    Grow,
    Check,
    Mkdir,
    Make,
    Write,
    Read,
    Trunc,
    Remove,
    Rename,
    List,
    Stat,
}

/// Each word, with the number of tokens behind it.
const WORDS: [(&[u8], Word, usize); 13] = [
    (b"create", Word::Create, 2),
    (b"delete", Word::Delete, 1),
    (b"grow", Word::Grow, 2),
    (b"check", Word::Check, 1),
    (b"mkdir", Word::Mkdir, 1),
    (b"make", Word::Make, 1),
    (b"write", Word::Write, 3),
    (b"read", Word::Read, 3),
    (b"trunc", Word::Trunc, 2),
    (b"remove", Word::Remove, 1),
    (b"rename", Word::Rename, 2),
    (b"list", Word::List, 1),
    (b"stat", Word::Stat, 1),
];

/// The first four tokens of a line, and how many it has.
fn tokens(line: &[u8]) -> ([&[u8]; 4], usize) {
    let mut tokens: [&[u8]; 4] = [b""; 4];
    let mut count: usize = 0;
    for token in line.split(|byte| *byte == b' ') {
        if count < 4 {
            tokens[count] = token;
        }
        count = count.saturating_add(1);
    }
    (tokens, count)
}

fn word_of(token: &[u8]) -> Option<(Word, usize)> {
    for (text, word, count) in WORDS {
        if text == token {
            return Some((word, count));
        }
    }
    None
}

fn path_of(token: &[u8]) -> Result<Path, Refusal> {
    match read_path(token) {
        Ok(path) => Ok(path),
        Err(_) => Err(Refusal::Path),
    }
}

fn number_of(token: &[u8]) -> Result<u32, Refusal> {
    match read_number(token) {
        Some(number) => Ok(number),
        None => Err(Refusal::Number),
    }
}

fn groups_of(token: &[u8]) -> Result<u32, Refusal> {
    match number_of(token)? {
        0 => Err(Refusal::Number),
        groups => Ok(groups),
    }
}

/// The number of bytes that a token of hexadecimal digits stands for, put into `bytes`; `-` stands for none.
fn decode(token: &[u8], bytes: &mut [u8]) -> Result<usize, Refusal>
    ensures { IfOk result (λ n. n ≤ length bytes.new) }
{
    if token == b"-".as_slice() {
        return Ok(0);
    }
    let len = token.len() / 2;
    if token.is_empty()
        || token.len() % 2 != 0
        || !token.iter().all(|digit| digit.is_ascii_hexdigit())
    {
        return Err(Refusal::Hex);
    }
    if len > MOST_BYTES || len > bytes.len() {
        return Err(Refusal::Long);
    }
    match decode_to_slice(token, &mut bytes[..len]) {
        Ok(()) => Ok(len),
        Err(_) => Err(Refusal::Hex),
    }
}

/// The command of a line with this word and these three tokens behind it.
fn parse<'a>(word: Word, tokens: [&[u8]; 3], bytes: &'a mut [u8]) -> Result<Command<'a>, Refusal> {
    let [first, second, third] = tokens;
    match word {
        Word::Create | Word::Grow => parse_groups(word, first, second),
        Word::Write => {
            let at = number_of(second)?;
            let len = decode(third, bytes)?;
            Ok(Command::Write {
                path: path_of(first)?,
                at,
                bytes: &bytes[..len],
            })
        }
        Word::Read => {
            let at = number_of(second)?;
            let len = number_of(third)?;
            if len > 16384 {
                return Err(Refusal::Long);
            }
            Ok(Command::Read {
                path: path_of(first)?,
                at,
                len,
            })
        }
        Word::Trunc => {
            let len = number_of(second)?;
            Ok(Command::Trunc {
                path: path_of(first)?,
                len,
            })
        }
        _ => parse_paths(word, first, second),
    }
}

/// The command of a line that has a path of a cube and a number of groups.
fn parse_groups<'a>(word: Word, first: &[u8], second: &[u8]) -> Result<Command<'a>, Refusal> {
    let groups = groups_of(second)?;
    let path = path_of(first)?;
    if word == Word::Grow {
        return Ok(Command::Grow { path, groups });
    }
    if path.text().len() > 199 {
        return Err(Refusal::Path);
    }
    Ok(Command::Create { path, groups })
}

/// The command of a line that has paths alone.
fn parse_paths<'a>(word: Word, first: &[u8], second: &[u8]) -> Result<Command<'a>, Refusal> {
    let path = path_of(first)?;
    match word {
        Word::Delete => Ok(Command::Delete { path }),
        Word::Check => Ok(Command::Check { path }),
        Word::Mkdir => Ok(Command::Mkdir { path }),
        Word::Make => Ok(Command::Make { path }),
        Word::Remove => Ok(Command::Remove { path }),
        Word::List => Ok(Command::List { path }),
        Word::Stat => Ok(Command::Stat { path }),
        Word::Rename => Ok(Command::Rename {
            path,
            to: path_of(second)?,
        }),
        _ => Err(Refusal::Word),
    }
}

/// The command of a line, or its refusal: Long, Word, Args, Number, Hex, Long, Path, looked for in this order. The bytes of a `Write` stand
/// in `bytes`.
pub fn command_of<'a>(line: &[u8], bytes: &'a mut [u8]) -> Result<Command<'a>, Refusal> {
    if line.len() > LONGEST_LINE {
        return Err(Refusal::Long);
    }
    let ([word, first, second, third], count) = tokens(line);
    match word_of(word) {
        None => Err(Refusal::Word),
        Some((_, wanted)) if count != wanted.saturating_add(1) => Err(Refusal::Args),
        Some((word, _)) => parse(word, [first, second, third], bytes),
    }
}
