//! What lines cost in calls of the disk.
use crate::hosts::{after, gives};
use std::alloc::Global;
use std::test::Fail;

const EMPTY: &str = "create /a 1\nmkdir /a/d\ncreate /b 1\ncreate /c 2\n";

const FULL: &str =
    "create /a 1\nmkdir /a/d\ncreate /b 1\ncreate /c 2\nmkdir /b/x\nmake /b/x/f\nwrite /b/x/f 0 00112233\nsync /b\nmake /b/g\nmkdir /c/y\nmkdir /c/y/z\nunmount /c\nmount /c\nmake /c/g\n";

/// A line of each kind on the cube `/a`, with its reply.
const LINES: [(&str, &str); 22] = [
    ("mkdir /a/y", "ok"),
    ("make /a/g", "ok"),
    ("write /a/g 0 00ff", "ok"),
    ("read /a/g 1 9", "ok ff"),
    ("trunc /a/g 1", "ok"),
    ("rename /a/g /a/h", "ok"),
    ("stat /a/h", "ok file 1"),
    ("remove /a/h", "ok"),
    ("list /a", "dir d\ndir y\nok 2"),
    ("sync /a", "ok 7"),
    ("sync /a", "ok 7"),
    ("check /a", "ok 1 3 7"),
    ("grow /a 1", "ok"),
    ("mkdir /a/z", "ok"),
    ("unmount /a", "ok 8"),
    ("offline /a", "ok"),
    ("check /a", "ok 1 4 8"),
    ("online /a", "ok"),
    ("mount /a", "ok 8"),
    ("delete /a", "ok"),
    ("create /a 1", "ok"),
    ("list /a", "ok 0"),
];

/// The lines, behind these.
fn script_of(alloc: Global, before: &str) -> Result<String, Fail> {
    let mut script = String::from_str(alloc, before)?;
    for (line, _) in &LINES {
        script.push_str(line)?;
        script.push('\n')?;
    }
    Ok(script)
}

/// The replies to the lines.
fn replies(alloc: Global) -> Result<String, Fail> {
    let mut replies = String::new(alloc);
    for (_, reply) in &LINES {
        replies.push_str(reply)?;
        replies.push('\n')?;
    }
    Ok(replies)
}

/// The calls of each of the lines, where these lines came before.
fn line_costs(alloc: Global, before: &str) -> Result<Vec<u64>, Fail> {
    let script = script_of(alloc, before)?;
    let host = after(alloc, script.as_bytes())?;
    let wanted = replies(alloc)?;
    if !host.output().ends_with(wanted.as_bytes()) {
        return Err(Fail::new("another reply"));
    }
    let moments = gives(alloc, &host)?;
    differences(alloc, &moments)
}

/// The last numbers, each less the one before it.
fn differences(alloc: Global, moments: &[u64]) -> Result<Vec<u64>, Fail> {
    let mut found = Vec::new(alloc);
    let skipped = moments.len().saturating_sub(LINES.len());
    let ends = moments.iter().skip(skipped);
    for (start, end) in moments.iter().skip(skipped.saturating_sub(1)).zip(ends) {
        found.push(end.saturating_sub(*start))?;
    }
    Ok(found)
}

/// The first line whose numbers differ.
fn first_other(alone: &[u64], beside: &[u64]) -> Option<&'static str> {
    for (((line, _), first), second) in LINES.iter().zip(alone).zip(beside) {
        if first != second {
            return Some(*line);
        }
    }
    None
}

#[test]
fn a_line_costs_the_same_whatever_the_other_cubes_hold(rt: HostRuntime) -> Result<(), Fail> {
    let alone = line_costs(rt.alloc(), EMPTY)?;
    let beside = line_costs(rt.alloc(), FULL)?;
    let counts = (alone.len(), beside.len());
    assert_eq!(rt; counts, (LINES.len(), LINES.len()));
    assert_eq!(rt; first_other(&alone, &beside), None);
    // The second sync has nothing to commit: its reply alone is a call.
    assert_eq!(rt; alone.get(10), Some(&1));
    Ok(())
}

/// Lines behind `create /a 1`, and the good writes and barriers of the whole session.
///
/// Opening the volume makes one barrier. The cube's own blocks are eleven writes and a barrier, and its two tables seven writes and four
/// barriers. A commit of m blocks makes 2 m + 3 writes and four barriers, at a `sync`, at an `unmount` or at the end of the session.
const COMMITS: [(&str, u64, u64); 11] = [
    ("", 18, 6),
    ("sync /a\nsync /a\nunmount /a\n", 18, 6),
    (
        "list /a\nstat /a\ncheck /a\nread /a 0 1\nlist /a/x\n",
        18,
        6,
    ),
    // The sub-super block, the bitmap, the inodes and the root's own block.
    ("mkdir /a/x\nsync /a\n", 18 + 11, 10),
    ("mkdir /a/x\nsync /a\nsync /a\nunmount /a\n", 18 + 11, 10),
    (
        "mkdir /a/x\nsync /a\nlist /a\nstat /a/x\ncheck /a\n",
        18 + 11,
        10,
    ),
    (
        "mkdir /a/x\nmake /a/f\nmkdir /a/x\nunmount /a\n",
        18 + 11,
        10,
    ),
    ("mkdir /a/x\n", 18 + 11, 10),
    // A block of the file besides.
    ("make /a/f\nwrite /a/f 0 00\nsync /a\n", 18 + 13, 10),
    // Two directories with blocks of their own.
    ("mkdir /a/x\nmkdir /a/x/y\nsync /a\n", 18 + 13, 10),
    // Two commits of four blocks, and the barrier of a mount.
    (
        "mkdir /a/x\nunmount /a\nmount /a\nmkdir /a/y\nunmount /a\n",
        18 + 22,
        15,
    ),
];

/// The good writes and barriers of a session of `create /a 1` and these lines.
fn commits_of(alloc: Global, lines: &str) -> Result<(u64, u64), Fail> {
    let script = format!(in alloc; "create /a 1\n{lines}")?;
    let host = after(alloc, script.as_bytes())?;
    Ok((host.writes(), host.barriers()))
}

#[test]
fn commits_alone_write_blocks_of_a_cube(rt: HostRuntime) -> Result<(), Fail> {
    for (lines, writes, barriers) in &COMMITS {
        let found = commits_of(rt.alloc(), lines)?;
        assert_eq!(rt; found, (*writes, *barriers), "{lines}");
    }
    Ok(())
}

/// The calls of the last line of a session, its reply counted.
fn last_cost(alloc: Global, script: &str) -> Result<u64, Fail> {
    let host = after(alloc, script.as_bytes())?;
    let moments = gives(alloc, &host)?;
    let mut ends = moments.iter().rev();
    match (ends.next(), ends.next()) {
        (Some(end), Some(start)) => Ok(end.saturating_sub(*start)),
        _ => Err(Fail::new("too few lines")),
    }
}

/// Sessions with the calls of their last lines: 2 m + 3 writes, four barriers and a reply.
const SYNCS: [(&str, u64); 4] = [
    ("create /a 1\nsync /a\n", 1),
    ("create /a 1\nmkdir /a/x\nsync /a\n", 16),
    ("create /a 1\nmkdir /a/x\nmkdir /a/x/y\nsync /a\n", 18),
    ("create /a 1\nmkdir /a/x\nunmount /a\n", 16),
];

#[test]
fn a_sync_reads_nothing(rt: HostRuntime) -> Result<(), Fail> {
    for (script, calls) in &SYNCS {
        let found = last_cost(rt.alloc(), script)?;
        assert_eq!(rt; found, *calls, "{script}");
    }
    Ok(())
}
