//! Lines from bytes, and commands from lines.
ghost use Rattle.std.specs.Prelude.{◌≡◌, false};

use ice_script::{LineReader, read_number};
use std::test::Fail;
use tree_spec::{Command, Refusal};

const NUMBERS: [(&[u8], Option<u32>); 12] = [
    (b"0", Some(0)),
    (b"1", Some(1)),
    (b"16385", Some(16385)),
    (b"4294967295", Some(4294967295)),
    (b"4294967296", None),
    (b"9999999999", None),
    (b"10000000000", None),
    (b"00", None),
    (b"02", None),
    (b"", None),
    (b"1a", None),
    (b"-1", None),
];

/// The number that a token is. The other promises of the call stay behind.
fn number_of(token: &[u8]) -> Option<u32> {
    read_number(token)
}

#[test]
fn numbers_have_no_leading_zeros_and_fit_32_bits(rt: HostRuntime) {
    for (token, value) in &NUMBERS {
        assert_eq!(rt; number_of(token), *value, "{token:?}");
    }
}

/// Gathers a line without an LF in it.
fn gather(reader: &mut LineReader, line: &[u8])
    requires { reader.old.ended ≡ false }
{
    for byte in line {
        if reader.push(*byte) {
            return;
        }
    }
}

/// The answer to a line without an LF in it.
fn answer_to(reader: &mut LineReader, line: &[u8]) -> &'static str {
    reader.clear();
    gather(reader, line);
    match reader.command() {
        Ok(command) => word_of(&command),
        Err(refusal) => refusal_of(refusal),
    }
}

fn word_of(command: &Command) -> &'static str {
    match command {
        Command::Create { .. } => "create",
        Command::Delete { .. } => "delete",
        Command::Grow { .. } => "grow",
        Command::Offline { .. } => "offline",
        Command::Online { .. } => "online",
        Command::Cubes => "cubes",
        Command::Mount { .. } => "mount",
        Command::Unmount { .. } => "unmount",
        Command::Check { .. } => "check",
        Command::Mkdir { .. } => "mkdir",
        Command::Make { .. } => "make",
        Command::Write { .. } => "write",
        Command::Read { .. } => "read",
        Command::Trunc { .. } => "trunc",
        Command::Remove { .. } => "remove",
        Command::Rename { .. } => "rename",
        Command::List { .. } => "list",
        Command::Stat { .. } => "stat",
        Command::Sync { .. } => "sync",
    }
}

fn refusal_of(refusal: Refusal) -> &'static str {
    match refusal {
        Refusal::Word => "no Word",
        Refusal::Args => "no Args",
        Refusal::Number => "no Number",
        Refusal::Hex => "no Hex",
        Refusal::Long => "no Long",
        Refusal::Path => "no Path",
        _ => "another refusal",
    }
}

const WORDS: [(&[u8], &str); 23] = [
    (b"create /a 1", "create"),
    (b"create / 4294967295", "create"),
    (b"grow /a 64", "grow"),
    (b"delete /", "delete"),
    (b"offline /a/b", "offline"),
    (b"online /...", "online"),
    (b"mount /a", "mount"),
    (b"unmount /a", "unmount"),
    (b"check /a", "check"),
    (b"sync /a", "sync"),
    (b"cubes", "cubes"),
    (b"mkdir /a/d", "mkdir"),
    (b"make /a/f", "make"),
    (b"remove /a/f", "remove"),
    (b"list /a", "list"),
    (b"stat /a/f", "stat"),
    (b"write /a/f 0 00ff", "write"),
    (b"write /a/f 4294967295 -", "write"),
    (b"read /a/f 0 0", "read"),
    (b"read /a/f 7 16384", "read"),
    (b"trunc /a/f 0", "trunc"),
    (b"trunc /a/f 4294967295", "trunc"),
    (b"rename /a/f /a/g", "rename"),
];

#[test]
fn each_word_is_read(rt: HostRuntime) -> Result<(), Fail> {
    let mut reader = LineReader::new(rt.alloc())?;
    for (line, word) in &WORDS {
        assert_eq!(rt; answer_to(&mut reader, line), *word, "{line:?}");
    }
    Ok(())
}

const REFUSALS: [(&[u8], &str); 56] = [
    (b"", "no Word"),
    (b"fly /a", "no Word"),
    (b"mkdir", "no Args"),
    (b"write /a/f 01 00", "no Number"),
    (b"write /a/f 0 0", "no Hex"),
    (b"read /a/f 0 16385", "no Long"),
    (b"mkdir a", "no Path"),
    (b"mkdir /a/", "no Path"),
    (b"create /a 0", "no Number"),
    (b" cubes", "no Word"),
    (b"Cubes", "no Word"),
    (b"cubes\r", "no Word"),
    (b"delete/a", "no Word"),
    (b"deleted /a", "no Word"),
    (b"on line /a", "no Word"),
    (b"delete\t/a", "no Word"),
    (b"turn", "no Word"),
    (b"create2 /a 1", "no Word"),
    (b"cubes ", "no Args"),
    (b"delete", "no Args"),
    (b"delete /a ", "no Args"),
    (b"online  /a", "no Args"),
    (b"stat /a /b", "no Args"),
    (b"create /a", "no Args"),
    (b"grow /a 1 ", "no Args"),
    (b"trunc a", "no Args"),
    (b"rename /a", "no Args"),
    (b"rename /a /b /c", "no Args"),
    (b"write /a 0", "no Args"),
    (b"write /a 0  00", "no Args"),
    (b"read /a 0", "no Args"),
    (b"read /a 0 1 2", "no Args"),
    (b"create /a x", "no Number"),
    (b"create a 0", "no Number"),
    (b"grow /a 0", "no Number"),
    (b"grow a 4294967296", "no Number"),
    (b"trunc a 00", "no Number"),
    (b"trunc /a ", "no Number"),
    (b"write a 01 0", "no Number"),
    (b"read a 0 x", "no Number"),
    (b"read /a 4294967296 16385", "no Number"),
    (b"read a 99999 4294967296", "no Number"),
    (b"write a 0 0", "no Hex"),
    (b"write /a 0 ", "no Hex"),
    (b"write /a 0 --", "no Hex"),
    (b"write /a 0 0g", "no Hex"),
    (b"write /a 0 000", "no Hex"),
    (b"read a 0 99999", "no Long"),
    (b"delete ", "no Path"),
    (b"delete /a\r", "no Path"),
    (b"offline /..", "no Path"),
    (b"rename a /b", "no Path"),
    (b"rename /a b", "no Path"),
    (b"write a 0 -", "no Path"),
    (b"read a 0 16384", "no Path"),
    (b"create a 1", "no Path"),
];

#[test]
fn the_first_refusal_that_applies_is_answered(rt: HostRuntime) -> Result<(), Fail> {
    let mut reader = LineReader::new(rt.alloc())?;
    for (line, answer) in &REFUSALS {
        assert_eq!(rt; answer_to(&mut reader, line), *answer, "{line:?}");
    }
    Ok(())
}

#[test]
fn a_line_has_at_most_40000_bytes(rt: HostRuntime) -> Result<(), Fail> {
    let long = [b'x'; 40001];
    let mut reader = LineReader::new(rt.alloc())?;
    assert_eq!(rt; answer_to(&mut reader, &long[..40000]), "no Word");
    assert_eq!(rt; answer_to(&mut reader, &long), "no Long");
    Ok(())
}

/// The answer to a write of so many digits, each of which is 0.
fn answer_to_digits(reader: &mut LineReader, digits: usize) -> &'static str {
    let mut line = [b'0'; 40000];
    line[..13].copy_from_slice(b"write /a/f 0 ");
    match line.get(..digits.saturating_add(13)) {
        Some(line) => answer_to(reader, line),
        None => "too many digits",
    }
}

const DIGITS: [(usize, &str); 4] = [
    (32768, "write"),
    (32769, "no Hex"),
    (32770, "no Long"),
    (39986, "no Long"),
];

#[test]
fn a_write_carries_at_most_16384_bytes(rt: HostRuntime) -> Result<(), Fail> {
    let mut reader = LineReader::new(rt.alloc())?;
    for (digits, answer) in &DIGITS {
        assert_eq!(rt;
            answer_to_digits(&mut reader, *digits),
            *answer,
            "{digits} digits"
        );
    }
    Ok(())
}

#[test]
fn a_digit_is_looked_at_before_the_length(rt: HostRuntime) -> Result<(), Fail> {
    let mut line = [b'0'; 39999];
    line[..13].copy_from_slice(b"write /a/f 0 ");
    line[20000] = b'g';
    let mut reader = LineReader::new(rt.alloc())?;
    assert_eq!(rt; answer_to(&mut reader, &line), "no Hex");
    Ok(())
}

/// The answer to the creation of a cube whose path has so many bytes.
fn answer_to_path(reader: &mut LineReader, len: usize) -> &'static str {
    if len > 200 {
        return "too many bytes";
    }
    let mut line = [b'n'; 209];
    line[..7].copy_from_slice(b"create ");
    line[7] = b'/';
    line[107] = b'/';
    line[7 + len..9 + len].copy_from_slice(b" 1");
    answer_to(reader, &line[..9 + len])
}

const LENGTHS: [(usize, &str); 3] = [(198, "create"), (199, "create"), (200, "no Path")];

#[test]
fn the_path_of_a_cube_has_at_most_199_bytes(rt: HostRuntime) -> Result<(), Fail> {
    let mut reader = LineReader::new(rt.alloc())?;
    for (len, answer) in &LENGTHS {
        assert_eq!(rt; answer_to_path(&mut reader, *len), *answer, "{len} bytes");
    }
    Ok(())
}

/// Lines with what their commands carry: a path, a number and bytes.
const CARRIED: [(&[u8], &[u8], u32, &[u8]); 5] = [
    (b"write /a/f 0 -", b"/a/f", 0, b""),
    (b"write /a/f 12 00FFab", b"/a/f", 12, b"\x00\xff\xab"),
    (b"write / 4294967295 7F", b"/", 4294967295, b"\x7f"),
    (b"create /home/ann 3", b"/home/ann", 3, b""),
    (b"trunc /a/b/c 300", b"/a/b/c", 300, b""),
];

/// Whether the line is a write, a creation or a truncation that carries this.
fn carries(reader: &mut LineReader, line: &[u8], text: &[u8], number: u32, carried: &[u8]) -> bool {
    reader.clear();
    gather(reader, line);
    match reader.command() {
        Ok(Command::Write { path, at, bytes }) => {
            path.text() == text && at == number && bytes == carried
        }
        Ok(
            Command::Create {
                path,
                groups: found,
            }
            | Command::Trunc { path, len: found },
        ) => path.text() == text && found == number,
        _ => false,
    }
}

#[test]
fn a_command_has_what_stands_in_its_line(rt: HostRuntime) -> Result<(), Fail> {
    let mut reader = LineReader::new(rt.alloc())?;
    for (line, text, number, carried) in &CARRIED {
        assert!(rt;
            carries(&mut reader, line, text, *number, carried),
            "{line:?}"
        );
    }
    Ok(())
}

/// Whether the line is a renaming of the one path to the other.
fn renames(reader: &mut LineReader, line: &[u8], text: &[u8], other: &[u8]) -> bool {
    reader.clear();
    gather(reader, line);
    match reader.command() {
        Ok(Command::Rename { path, to }) => path.text() == text && to.text() == other,
        _ => false,
    }
}

/// Whether the line is a reading of these numbers.
fn reads(reader: &mut LineReader, line: &[u8], text: &[u8], numbers: (u32, u32)) -> bool {
    reader.clear();
    gather(reader, line);
    match reader.command() {
        Ok(Command::Read { path, at, len }) => path.text() == text && (at, len) == numbers,
        _ => false,
    }
}

#[test]
fn a_command_keeps_the_order_of_its_tokens(rt: HostRuntime) -> Result<(), Fail> {
    let mut reader = LineReader::new(rt.alloc())?;
    assert!(rt; renames(&mut reader, b"rename /a/f /b", b"/a/f", b"/b"));
    assert!(rt; reads(&mut reader, b"read /a/f 5 6", b"/a/f", (5, 6)));
    Ok(())
}

/// Whether the line that was gathered has no word that is known.
fn is_no_word(reader: &mut LineReader) -> bool {
    match reader.command() {
        Ok(_) => false,
        Err(refusal) => refusal == Refusal::Word,
    }
}

#[test]
fn an_lf_ends_a_line_and_the_end_of_input_a_last_one(rt: HostRuntime) -> Result<(), Fail> {
    let mut reader = LineReader::new(rt.alloc())?;
    assert!(rt; !reader.finish());
    assert!(rt; !reader.push(b'c'));
    assert!(rt; reader.finish());
    assert!(rt; reader.push(b'\n'));
    assert!(rt; !reader.finish());
    reader.clear();
    assert!(rt; !reader.finish());
    assert!(rt; reader.push(b'\n'));
    assert!(rt; is_no_word(&mut reader), "an empty line asks for nothing");
    Ok(())
}
