//! The commands of a tree beside a plain slow tree: 12,000 generated lines, boundary sizes among them, over both keeps.
ghost use Rattle.std.specs.Prelude.{◌≡◌, ◌≤◌, ◌<◌};

use cube_lines::Session;
use disk_mem::MemHost;
use ice_base::Keep;
use ice_keep::{ListKeep, ThroughKeep};
use std::alloc::{AllocError, Global};
use std::process::Abort;
use std::test::Fail;
use tree_spec::{Reply, Value};

/// The seeds of the rounds, each with the number of the cube's groups.
const ROUNDS: [(u32, u32); 4] = [(20, 1), (7, 1), (1_999, 1), (4_242, 2)];

const LINES: u32 = 1500;

/// The lines that fill the cube.
const FIRST: u32 = 58;

/// Sizes about the ends of blocks, of the direct blocks and of what one command may write.
const SIZES: [u32; 12] = [
    0, 1, 2, 1023, 1024, 1025, 12287, 12288, 12289, 16383, 16384, 250_880,
];

/// 25 names below the cube's own.
const DEEP: &str = "/a/d/d/d/d/d/d/d/d/d/d/d/d/d/d/d/d/d/d/d/d/d/d/d/d/d";

/// A name of 60 bytes below the cube's own.
const LONG: &str = "/a/nnnnnnnnnnnnnnnnnnnnnnnnnnnnnnnnnnnnnnnnnnnnnnnnnnnnnnnnnnnn";

const LETTERS: [&str; 5] = ["/p", "/q", "/r", "/s", "/t"];

/// A small generator: the higher bits of a linear congruence.
#[derive(Drop)]
struct Random {
    state: u32,
}

impl Random {
    fn next(&mut self, below: u32) -> u32
        requires { 0 < below }
        ensures { result < below }
    {
        self.state = self.state.wrapping_mul(1_103_515_245).wrapping_add(12345);
        (self.state >> 8) % below
    }
}

/// A path of up to three names of one letter each below the cube's own, and seldom one that is too deep or has a long name.
fn some_path(alloc: Global, random: &mut Random, letters: u32) -> Result<String, AllocError>
    requires some { 0 < letters }
    requires few { letters ≤ 5 }
{
    let mut path = String::new(alloc);
    match random.next(200) {
        0 => path.push_str(DEEP)?,
        1 => path.push_str(LONG)?,
        _ => {
            path.push_str("/a")?;
            let names = [0u32, 1, 1, 1, 1, 1, 2, 2, 2, 2, 2, 2, 3, 3, 3, 3][random.next(
                16,
            ) as usize];
            for _ in 0..names {
                path.push_str(LETTERS[random.next(letters) as usize])?;
            }
        }
    }
    Ok(path)
}

fn some_size(random: &mut Random, most: u32) -> u32
    ensures { result ≤ most }
{
    SIZES[random.next(12) as usize].min(most)
}

/// The hexadecimal digits of so many bytes, which differ from place to place and from one to the next.
fn some_digits(alloc: Global, random: &mut Random, count: u32) -> Result<String, AllocError> {
    let first = random.next(251) as usize;
    if count == 0 {
        return format!(in alloc; "-");
    }
    let mut bytes = vec![in alloc; 0u8; count as usize]?;
    for (k, byte) in bytes.iter_mut().enumerate() {
        *byte = (first.wrapping_add(k) % 251) as u8;
    }
    hex::encode(alloc, bytes.as_slice())
}

/// The words of lines, each as often as it is to come.
const WORDS: [&str; 24] = [
    "mkdir", "mkdir", "mkdir", "mkdir", "make", "make", "make", "remove", "list", "list", "stat",
    "stat", "write", "write", "write", "write", "trunc", "trunc", "rename", "rename", "rename",
    "read", "read", "read",
];

/// What stands behind the path of a line with word number `word`; `end` is the size of the file that was looked at last, at which every
/// other write begins.
fn some_rest(
    alloc: Global,
    random: &mut Random,
    letters: u32,
    end: u32,
    word: usize,
) -> Result<String, AllocError>
    requires some { 0 < letters }
    requires few { letters ≤ 5 }
{
    let far = some_size(random, 250_880);
    let count = some_size(random, 16384);
    match word {
        0..=11 => Ok(String::new(alloc)),
        12..=15 => {
            let at = if random.next(4) > 0 { end } else { far };
            let digits = some_digits(alloc, random, count)?;
            format!(in alloc; " {at} {digits}")
        }
        16 | 17 => {
            let len = if word == 16 { far.min(end) } else { far };
            format!(in alloc; " {len}")
        }
        18..=20 => {
            let to = some_path(alloc, random, letters)?;
            format!(in alloc; " {to}")
        }
        _ => {
            let at = far.min(end);
            format!(in alloc; " {at} {count}")
        }
    }
}

/// A line with a path, or seldom one that asks for the counts.
fn some_line(
    alloc: Global,
    random: &mut Random,
    letters: u32,
    end: u32,
) -> Result<String, AllocError>
    requires some { 0 < letters }
    requires few { letters ≤ 5 }
{
    if random.next(25) == 0 {
        return format!(in alloc; "check /a");
    }
    let word = random.next(24) as usize;
    let path = some_path(alloc, random, letters)?;
    let rest = some_rest(alloc, random, letters, end, word)?;
    let name = WORDS[word];
    format!(in alloc; "{name} {path}{rest}")
}

/// The first lines: a cube, pieces of a file and 40 empty files, so that few blocks and nodes are left. A cube of one group gets
/// fourteen pieces, one of two groups as many as a file has, and one more.
fn first_line(
    alloc: Global,
    random: &mut Random,
    groups: u32,
    i: u32,
) -> Result<String, AllocError> {
    let pieces: u32 = if groups > 1 { 17 } else { 14 };
    match i {
        0 => format!(in alloc; "create /a {groups}"),
        1 => format!(in alloc; "make /a/z"),
        _ if i < pieces.saturating_add(2) => {
            let digits = some_digits(alloc, random, 16384)?;
            let at = 16384u32.saturating_mul(i.saturating_sub(2));
            format!(in alloc; "write /a/z {at} {digits}")
        }
        _ => format!(in alloc; "make /a/e{i}"),
    }
}

/// The number of the reply's refusal, 0 for the value of a look, and 34 for an accepted change.
fn number(reply: &Reply) -> usize {
    match reply {
        Ok(Value::Plain) => 34,
        Ok(_) => 0,
        Err(refusal) => usize::from(refusal.number()),
    }
}

/// Asks a new cube and the plain tree the lines of a seed, and counts the replies by their numbers.
fn round<K: Keep<MemHost>>(
    rt: &impl Abort,
    alloc: Global,
    keep: &mut K,
    (seed, groups): (u32, u32),
    times: &mut [u32; 35],
) -> Result<(), Fail> {
    let mut random = Random { state: seed };
    let mut session = Session::new(alloc)?;
    let mut bytes = vec![in alloc; 0u8; 16384]?;
    let mut end = 0;
    for i in 0..LINES {
        let letters = if i < LINES / 3 { 2 } else { 5 };
        let line = if i < FIRST {
            first_line(alloc, &mut random, groups, i)?
        } else {
            some_line(alloc, &mut random, letters, end)?
        };
        let answer = session.line(alloc, keep, line.as_bytes(), &mut bytes)?;
        let reply = answer.reply;
        assert!(rt; answer.agrees, "seed {seed}, line {i}: {reply:?} to {line}");
        if let Ok(Value::File(size)) = reply {
            end = size;
        }
        let which = number(&reply);
        assert!(rt; which < 35);
        times[which] = times[which].saturating_add(1);
    }
    Ok(())
}

/// Plays the rounds, each with a new keep, and counts the replies by their numbers.
fn rounds(rt: &impl Abort, alloc: Global, held: bool, times: &mut [u32; 35]) -> Result<(), Fail> {
    for seed in &ROUNDS {
        if held {
            let mut keep = ListKeep::new(alloc, 800)?;
            round(rt, alloc, &mut keep, *seed, times)?;
        } else {
            round(rt, alloc, &mut ThroughKeep::new(), *seed, times)?;
        }
    }
    Ok(())
}

/// Whether there is every refusal of a tree but Spent, and no other, and many changes.
fn are_all(times: &[u32; 35]) -> bool {
    for (which, count) in times.iter().enumerate() {
        if (*count > 0) != (which < 14 || which == 34) {
            return false;
        }
    }
    times[34] > 500
}

#[test]
fn a_lot_answers_as_the_plain_tree_does(rt: HostRuntime) -> Result<(), Fail> {
    for held in &[false, true] {
        let mut times = [0u32; 35];
        rounds(&rt, rt.alloc(), *held, &mut times)?;
        assert!(rt; are_all(&times), "{times:?}");
    }
    Ok(())
}
