//! A session over three cubes in which each call fails in turn.
ghost use Rattle.std.specs.Prelude.{◌≡◌, ◌<◌};

use crate::hosts::{after, copy_of, session, small};
use disk_mem::MemHost;
use ice_base::Status;
use std::alloc::Global;
use std::process::Abort;
use std::test::Fail;

/// Lines on a cube, each with the closing line of its reply where no call fails. `?` stands for the cube's path.
const LINES: [(&str, &str); 20] = [
    ("create ? 1", "ok"),
    ("mkdir ?/d", "ok"),
    ("make ?/d/f", "ok"),
    ("write ?/d/f 0 00112233", "ok"),
    ("sync ?", "ok 3"),
    ("read ?/d/f 1 9", "ok 112233"),
    ("list ?", "ok 1"),
    ("stat ?/d/f", "ok file 4"),
    ("rename ?/d/f ?/g", "ok"),
    ("unmount ?", "ok 4"),
    ("mount ?", "ok 4"),
    ("trunc ?/g 1", "ok"),
    ("check ?", "ok 2 3 5"),
    ("grow ? 1", "ok"),
    ("remove ?/d", "ok"),
    ("sync ?", "ok 6"),
    ("unmount ?", "ok 6"),
    ("offline ?", "ok"),
    ("online ?", "ok"),
    ("mount ?", "ok 6"),
];

const CUBES: [&str; 3] = ["/a", "/b", "/c"];

/// The session: each line for each of the cubes.
fn script(alloc: Global) -> Result<String, Fail> {
    let mut script = String::new(alloc);
    for (line, _) in &LINES {
        add_lines(&mut script, line)?;
    }
    Ok(script)
}

/// The line for each of the cubes.
fn add_lines(script: &mut String, line: &str) -> Result<(), Fail> {
    for cube in &CUBES {
        add_line(script, line, cube)?;
    }
    Ok(())
}

fn add_line(script: &mut String, line: &str, cube: &str) -> Result<(), Fail> {
    for (k, part) in line.split('?').enumerate() {
        if k > 0 {
            script.push_str(cube)?;
        }
        script.push_str(part)?;
    }
    script.push('\n')?;
    Ok(())
}

fn is_closing(line: &[u8]) -> bool {
    line.starts_with(b"ok") || line.starts_with(b"no")
}

/// Whether the line begins with one of the words.
fn begins_with(line: &str, words: &[&str]) -> bool {
    for word in words {
        if line.starts_with(*word) {
            return true;
        }
    }
    false
}

/// Whether a fault in this line on a cube leaves all as it is.
fn is_look(line: &str) -> bool {
    begins_with(line, &["read", "list", "stat", "check"])
}

/// Whether this line changes the tables.
fn is_of_tables(line: &str) -> bool {
    begins_with(line, &["create", "grow", "offline", "online"])
}

/// What a failing call was felt by.
#[derive(Clone, Copy, Debug, PartialEq, Eq)]
enum Felt {
    Nobody,
    /// A line that changes nothing, so that no other reply may differ.
    Look,
    /// The cube with this number.
    Cube(usize),
}

impl Felt {
    /// What it was felt by once the reply to this line of this cube is another one; None where it may not be.
    fn after_reply(self, line: &str, cube: usize, reply: &[u8]) -> Option<Felt> {
        match self {
            Felt::Nobody if reply != b"no Fault".as_slice() => None,
            Felt::Nobody if is_look(line) => Some(Felt::Look),
            Felt::Nobody => Some(Felt::Cube(cube)),
            Felt::Cube(first) if first == cube => Some(self),
            _ => None,
        }
    }
}

/// What the failing call was felt by, and how many replies there are.
fn replies_of(output: &[u8]) -> Result<(Felt, usize), Fail> {
    let mut felt = Felt::Nobody;
    let mut count: usize = 0;
    for reply in output.split(|byte| *byte == b'\n') {
        if !is_closing(reply) {
            continue;
        }
        let (line, want) = LINES.get(count / 3).copied().ok_or("too many replies")?;
        if reply != want.as_bytes() {
            felt = felt
                .after_reply(line, count % 3, reply)
                .ok_or("a reply that should not differ")?;
        }
        count = count.saturating_add(1);
    }
    Ok((felt, count))
}

/// Whether the session may end so: whole and felt; or, felt by no reply, with a stream's fault or in a line that changes the tables.
fn is_right(status: Status, felt: Felt, count: usize) -> bool {
    match status {
        Status::Done => felt != Felt::Nobody && count == 60,
        Status::Source | Status::Sink => felt == Felt::Nobody,
        Status::Disk => match LINES.get(count / 3) {
            Some((line, _)) => felt == Felt::Nobody && is_of_tables(line),
            None => false,
        },
        _ => false,
    }
}

/// A second session, of two lines for each cube.
const AGAIN: &[u8] = b"check /a\nmount /a\ncheck /b\nmount /b\ncheck /c\nmount /c\n";

/// Whether it finds the cubes that didn't feel the fault as they are without one.
fn are_whole(replies: &[u8], felt: Felt) -> bool {
    for (k, reply) in replies.split(|byte| *byte == b'\n').enumerate().take(6) {
        let want: &[u8] = if k % 2 == 0 { b"ok 2 2 6" } else { b"ok 6" };
        if felt != Felt::Cube(k / 2) && reply != want {
            return false;
        }
    }
    true
}

/// Whether the image of the host is whole, but for a cube that felt the fault.
fn leaves_whole(alloc: Global, host: &mut MemHost, felt: Felt) -> Result<bool, Fail> {
    let before = host.output().len();
    let status = session(alloc, host, AGAIN)?;
    let replies = host.output().get(before..).ok_or("no output")?;
    Ok(status == Status::Done && are_whole(replies, felt))
}

/// Why a session on a host with a failing call isn't as it should be.
fn judged(alloc: Global, host: &mut MemHost, script: &str) -> Result<Option<Status>, Fail> {
    let status = session(alloc, host, script.as_bytes())?;
    let (felt, count) = replies_of(host.output())?;
    let whole = status != Status::Done || leaves_whole(alloc, host, felt)?;
    if whole && is_right(status, felt, count) {
        return Ok(None);
    }
    Ok(Some(status))
}

/// Why the session with this failing call isn't as it should be.
fn complaint(
    alloc: Global,
    fresh: &MemHost,
    script: &str,
    call: u64,
) -> Result<Option<Status>, Fail> {
    let mut host = copy_of(alloc, fresh)?;
    host.fail_at(call)?;
    judged(alloc, &mut host, script)
}

/// The calls of the session where none fails.
fn good_calls(rt: &impl Abort, alloc: Global, script: &str) -> Result<u64, Fail> {
    let good = after(alloc, script.as_bytes())?;
    let found = replies_of(good.output())?;
    assert_eq!(rt; found, (Felt::Nobody, 60));
    Ok(good.calls())
}

/// Asserts that every third call from this one on may fail.
fn try_calls(rt: &impl Abort, alloc: Global, first: u64) -> Result<(), Fail> {
    let script = script(alloc)?;
    let calls = good_calls(rt, alloc, script.as_str())?;
    let fresh = small(alloc)?;
    for call in (first..calls).step_by(3) {
        let wrong = complaint(alloc, &fresh, script.as_str(), call)?;
        assert!(rt; wrong.is_none(), "call {call}: {wrong:?}");
    }
    Ok(())
}

#[test]
fn a_failing_call_is_felt_by_one_cube_alone_from_the_first(rt: HostRuntime) -> Result<(), Fail> {
    try_calls(&rt, rt.alloc(), 0)
}

#[test]
fn a_failing_call_is_felt_by_one_cube_alone_from_the_second(rt: HostRuntime) -> Result<(), Fail> {
    try_calls(&rt, rt.alloc(), 1)
}

#[test]
fn a_failing_call_is_felt_by_one_cube_alone_from_the_third(rt: HostRuntime) -> Result<(), Fail> {
    try_calls(&rt, rt.alloc(), 2)
}
