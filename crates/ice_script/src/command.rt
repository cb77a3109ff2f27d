//! What a line asks for.
ghost use Rattle.std.specs.Prelude.{◌≡◌, ◌≤◌, ◌*◌, length, option_map, codes, false};
ghost use Rattle.std.specs.Str.{bytes_eq};
ghost use Rattle.tree_spec.specs.Lines.{asked};
ghost use Rattle.ice_script.specs.Grammar.{tokens, words_of, word_of, path_word, path_of, create_of, grow_of, trunc_of, rename_of, write_of, read_of, cubes_of};
ghost use Rattle.ice_script.specs.Reading.{tokens_behind, path_request, parsed_asked, Answers, AnswersFrom, IsShortBehind, IsWithin};

use crate::token::{
    all_tokens, any_path, both_tokens, cube_path, only_token, read_groups, read_number,
    split_token, unhex,
};
use tree_spec::{Command, Path, Refusal};

const MOST_BYTES: usize = 16384;

/// A command word that stands before one path.
#[derive(Drop)]
pub(crate) enum PathWord {
    Delete,
    Offline,
    Online,
    Mount,
    Unmount,
    Check,
    Sync,
    Mkdir,
    Make,
    Remove,
    List,
    Stat,
}

/// A command whose bytes stand at the front of a buffer.
#[derive(Drop)]
pub(crate) enum Parsed<'a> {
    Whole(Command<'a>),
    Write { path: Path, at: u32, count: usize },
}

/// Whether the token is this word.
fn is_word(token: &[u8], word: &[u8]) -> bool
    ensures { result ≡ bytes_eq token.now word.now }
{
    token == word
}

/// The word, where it stands before one path.
fn find_path_word(word: &[u8]) -> Option<PathWord>
    ensures { option_map path_request result ≡ path_word word.now }
{
    if is_word(word, b"delete") {
        return Some(PathWord::Delete);
    }
    if is_word(word, b"offline") {
        return Some(PathWord::Offline);
    }
    if is_word(word, b"online") {
        return Some(PathWord::Online);
    }
    if is_word(word, b"mount") {
        return Some(PathWord::Mount);
    }
    if is_word(word, b"unmount") {
        return Some(PathWord::Unmount);
    }
    if is_word(word, b"check") {
        return Some(PathWord::Check);
    }
    if is_word(word, b"sync") {
        return Some(PathWord::Sync);
    }
    if is_word(word, b"mkdir") {
        return Some(PathWord::Mkdir);
    }
    if is_word(word, b"make") {
        return Some(PathWord::Make);
    }
    if is_word(word, b"remove") {
        return Some(PathWord::Remove);
    }
    if is_word(word, b"list") {
        return Some(PathWord::List);
    }
    if is_word(word, b"stat") {
        return Some(PathWord::Stat);
    }
    None
}

/// The command of a word and its path.
fn with_path<'a>(word: PathWord, path: Path) -> Command<'a>
    ensures { asked result ≡ path_request word path }
{
    match word {
        PathWord::Delete => Command::Delete { path },
        PathWord::Offline => Command::Offline { path },
        PathWord::Online => Command::Online { path },
        PathWord::Mount => Command::Mount { path },
        PathWord::Unmount => Command::Unmount { path },
        PathWord::Check => Command::Check { path },
        PathWord::Sync => Command::Sync { path },
        PathWord::Mkdir => Command::Mkdir { path },
        PathWord::Make => Command::Make { path },
        PathWord::Remove => Command::Remove { path },
        PathWord::List => Command::List { path },
        PathWord::Stat => Command::Stat { path },
    }
}

/// The command of a word that stands before one path.
fn read_path_word<'a>(word: PathWord, rest: Option<&[u8]>) -> Result<Command<'a>, Refusal>
    ensures { Answers (path_of (path_request word) (tokens_behind rest.entry)) result }
{
    let Some(path) = only_token(rest) else {
        return Err(Refusal::Args);
    };
    let Some(path) = any_path(path) else {
        return Err(Refusal::Path);
    };
    Ok(with_path(word, path))
}

/// The command `cubes`.
fn read_cubes<'a>(rest: Option<&[u8]>) -> Result<Command<'a>, Refusal>
    ensures { Answers (cubes_of (tokens_behind rest.entry)) result }
{
    match rest {
        None => Ok(Command::Cubes),
        Some(_) => Err(Refusal::Args),
    }
}

/// The command `create`.
fn read_create<'a>(rest: Option<&[u8]>) -> Result<Command<'a>, Refusal>
    ensures { Answers (create_of (tokens_behind rest.entry)) result }
{
    let Some((path, groups)) = both_tokens(rest) else {
        return Err(Refusal::Args);
    };
    let Some(groups) = read_groups(groups) else {
        return Err(Refusal::Number);
    };
    let Some(path) = cube_path(path) else {
        return Err(Refusal::Path);
    };
    Ok(Command::Create { path, groups })
}

/// The command `grow`.
fn read_grow<'a>(rest: Option<&[u8]>) -> Result<Command<'a>, Refusal>
    ensures { Answers (grow_of (tokens_behind rest.entry)) result }
{
    let Some((path, groups)) = both_tokens(rest) else {
        return Err(Refusal::Args);
    };
    let Some(groups) = read_groups(groups) else {
        return Err(Refusal::Number);
    };
    let Some(path) = any_path(path) else {
        return Err(Refusal::Path);
    };
    Ok(Command::Grow { path, groups })
}

/// The command `trunc`.
fn read_trunc<'a>(rest: Option<&[u8]>) -> Result<Command<'a>, Refusal>
    ensures { Answers (trunc_of (tokens_behind rest.entry)) result }
{
    let Some((path, len)) = both_tokens(rest) else {
        return Err(Refusal::Args);
    };
    let Some(len) = read_number(len) else {
        return Err(Refusal::Number);
    };
    let Some(path) = any_path(path) else {
        return Err(Refusal::Path);
    };
    Ok(Command::Trunc { path, len })
}

/// The command `rename`.
fn read_rename<'a>(rest: Option<&[u8]>) -> Result<Command<'a>, Refusal>
    ensures { Answers (rename_of (tokens_behind rest.entry)) result }
{
    let Some((path, to)) = both_tokens(rest) else {
        return Err(Refusal::Args);
    };
    let Some(path) = any_path(path) else {
        return Err(Refusal::Path);
    };
    let Some(to) = any_path(to) else {
        return Err(Refusal::Path);
    };
    Ok(Command::Rename { path, to })
}

/// The command `read`.
fn read_read<'a>(rest: Option<&[u8]>) -> Result<Command<'a>, Refusal>
    ensures { Answers (read_of (tokens_behind rest.entry)) result }
{
    let Some((path, at, len)) = all_tokens(rest) else {
        return Err(Refusal::Args);
    };
    let Some(at) = read_number(at) else {
        return Err(Refusal::Number);
    };
    let Some(len) = read_number(len) else {
        return Err(Refusal::Number);
    };
    if len as usize > MOST_BYTES {
        return Err(Refusal::Long);
    }
    let Some(path) = any_path(path) else {
        return Err(Refusal::Path);
    };
    Ok(Command::Read { path, at, len })
}

/// The command `write`, with its bytes at the front of the buffer.
fn read_write<'a>(rest: Option<&[u8]>, buffer: &mut [u8]) -> Result<Parsed<'a>, Refusal>
    requires { IsShortBehind (2 * length buffer.old) rest }
    ensures { AnswersFrom (write_of (tokens_behind rest.entry)) buffer.new result }
{
    let Some((path, at, bytes)) = all_tokens(rest) else {
        return Err(Refusal::Args);
    };
    let Some(at) = read_number(at) else {
        return Err(Refusal::Number);
    };
    let Some(count) = unhex(bytes, buffer) else {
        return Err(Refusal::Hex);
    };
    if count > MOST_BYTES {
        return Err(Refusal::Long);
    }
    let Some(path) = any_path(path) else {
        return Err(Refusal::Path);
    };
    Ok(Parsed::Write { path, at, count })
}

/// The command of a word other than `write`.
fn read_word<'a>(word: &[u8], rest: Option<&[u8]>) -> Result<Command<'a>, Refusal>
    requires { bytes_eq word.now (codes "write") ≡ false }
    ensures { Answers (word_of word.now (tokens_behind rest.entry)) result }
{
    if is_word(word, b"read") {
        return read_read(rest);
    }
    if is_word(word, b"trunc") {
        return read_trunc(rest);
    }
    if is_word(word, b"rename") {
        return read_rename(rest);
    }
    if is_word(word, b"create") {
        return read_create(rest);
    }
    if is_word(word, b"grow") {
        return read_grow(rest);
    }
    if is_word(word, b"cubes") {
        return read_cubes(rest);
    }
    match find_path_word(word) {
        Some(word) => read_path_word(word, rest),
        None => Err(Refusal::Word),
    }
}

/// The command of the tokens of a line that isn't too long, with its bytes at the front of the buffer.
pub(crate) fn parse<'a>(line: &[u8], buffer: &mut [u8]) -> Result<Parsed<'a>, Refusal>
    requires { length line.now ≤ 2 * length buffer.old }
    ensures { AnswersFrom (words_of (tokens line.now)) buffer.new result }
{
    let (word, rest) = split_token(line);
    if is_word(word, b"write") {
        return read_write(rest, buffer);
    }
    match read_word(word, rest) {
        Ok(command) => Ok(Parsed::Whole(command)),
        Err(refusal) => Err(refusal),
    }
}

/// The command, whose bytes stand at the front of the buffer.
pub(crate) fn lend<'a>(buffer: &'a [u8], parsed: Parsed<'a>) -> Command<'a>
    requires { IsWithin buffer.now parsed }
    ensures { asked result ≡ parsed_asked buffer.entry.now parsed.entry }
{
    match parsed {
        Parsed::Whole(command) => command,
        Parsed::Write { path, at, count } => Command::Write {
            path,
            at,
            bytes: &buffer[..count],
        },
    }
}
