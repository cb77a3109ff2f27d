//! Sessions over the tables of a volume with cubes.
use crate::hosts::{answers, copy_answers, copy_of, given, left_at, session, status_of};
use disk_mem::MemHost;
use ice_base::Status;
use ice_layout::total;
use std::alloc::Global;
use std::process::Abort;
use std::test::Fail;

const SCRIPT: &[u8] = b"cubes\noffline /a\ndelete /b\ncubes\nonline /a\nonline /a\n";

/// What `cubes` answers at first, after `offline /a`, after `delete /b`, and after `online /a`.
const LISTS: [&[u8]; 4] = [
    b"0 1 unmounted /a\n1 1 unmounted /b\nok 2\n",
    b"0 1 offline /a\n1 1 unmounted /b\nok 2\n",
    b"0 1 offline /a\nok 1\n",
    b"0 1 unmounted /a\nok 1\n",
];

const REPLIES: &[u8] =
    b"0 1 unmounted /a\n1 1 unmounted /b\nok 2\nok\nok\n0 1 offline /a\nok 1\nok\nno State\n";

/// How many bytes have been given once `offline /a`, `delete /b` and `online /a` are answered.
const ANSWERED: [usize; 3] = [42, 45, 68];

/// A host with an image of two slots and three groups, in which a session made the cubes `/a` and `/b`. No call was made yet.
fn two_cubes(rt: &impl Abort, alloc: Global) -> Result<MemHost, Fail> {
    let mut host = MemHost::new(alloc, total(2, 3))?;
    let words = ["format", "img", "--slots", "2", "--groups", "3"];
    let made = status_of(alloc, &words, &mut host)?;
    assert!(rt; made == Status::Done);
    answers(
        rt,
        alloc,
        &mut host,
        "create /a 1\ncreate /b 1\n",
        "ok\nok\n",
    )?;
    copy_of(alloc, &host)
}

/// How many changes are answered where so many bytes have been given.
fn answered(given: usize) -> usize {
    let mut count: usize = 0;
    for bytes in &ANSWERED {
        if given >= *bytes {
            count = count.saturating_add(1);
        }
    }
    count
}

/// Which list these bytes are.
fn list_of(given: &[u8]) -> Option<usize> {
    for (k, list) in LISTS.iter().enumerate() {
        if *list == given {
            return Some(k);
        }
    }
    None
}

/// Which list a further session over the host shows.
fn listed(alloc: Global, host: &mut MemHost) -> Result<usize, Fail> {
    let before = host.output().len();
    let status = session(alloc, host, b"cubes\n")?;
    let given = host.output().get(before..).ok_or("no output")?;
    match (status, list_of(given)) {
        (Status::Done, Some(list)) => Ok(list),
        _ => Err(Fail::new("another list")),
    }
}

/// Asserts what the session answers with pieces of so many bytes, what it calls, and what it leaves.
fn lists(rt: &impl Abort, alloc: Global, piece: usize) -> Result<(), Fail> {
    let mut host = two_cubes(rt, alloc)?;
    host.set_piece(piece.max(1));
    let status = session(alloc, &mut host, SCRIPT)?;
    assert!(rt; status == Status::Done && host.output() == REPLIES);
    // Two marks put one block, a deletion two: `2 m + 3` writes and four barriers each, and the barrier of opening.
    let counts = (host.writes(), host.barriers());
    let found = listed(alloc, &mut host)?;
    assert_eq!(rt; (counts, found), ((17, 13), 3));
    Ok(())
}

#[test]
fn cubes_are_listed_marked_and_deleted(rt: HostRuntime) -> Result<(), Fail> {
    lists(&rt, rt.alloc(), 1)?;
    lists(&rt, rt.alloc(), 5)?;
    lists(&rt, rt.alloc(), 4096)
}

const REFUSALS: [(&str, &str); 9] = [
    ("delete /c\n", "no NoCube\n"),
    ("offline /a/b\n", "no NoCube\n"),
    ("online /\n", "no NoCube\n"),
    ("online /a\n", "no State\n"),
    ("offline /a\noffline /a\n", "ok\nno State\n"),
    ("offline /b\ndelete /b\ndelete /b\n", "ok\nok\nno NoCube\n"),
    ("delete\ndelete /a /b\n", "no Args\nno Args\n"),
    (
        "delete a\noffline /a/\nonline //\n",
        "no Path\nno Path\nno Path\n",
    ),
    (
        "mount /a\noffline /a\nonline /a\n",
        "ok 0\nno Mounted\nno State\n",
    ),
];

#[test]
fn refusals_of_the_lines_of_the_tables(rt: HostRuntime) -> Result<(), Fail> {
    let host = two_cubes(&rt, rt.alloc())?;
    for (script, replies) in &REFUSALS {
        copy_answers(&rt, rt.alloc(), &host, script, replies)?;
    }
    Ok(())
}

/// How many changes more than those that were answered a crash leaves, which is one at most.
fn ahead(alloc: Global, host: &MemHost, moment: u64, fill: u64) -> Result<u32, Fail> {
    let sure = answered(given(host, moment).len());
    let mut left = left_at(alloc, host, moment, fill)?;
    let found = listed(alloc, &mut left)?;
    if found == sure {
        Ok(0)
    } else if found == sure.saturating_add(1) {
        Ok(1)
    } else {
        Err(Fail::new("a list that no change leaves"))
    }
}

/// A host on which the session was run.
fn changed(rt: &impl Abort, alloc: Global) -> Result<MemHost, Fail> {
    let mut host = two_cubes(rt, alloc)?;
    let status = session(alloc, &mut host, SCRIPT)?;
    assert_eq!(rt; status, Status::Done);
    Ok(host)
}

#[test]
fn each_crash_leaves_a_change_whole_or_absent(rt: HostRuntime) -> Result<(), Fail> {
    let host = changed(&rt, rt.alloc())?;
    let mut more: u32 = 0;
    for moment in 0..host.calls().saturating_add(1) {
        for fill in &[0, 1, 3] {
            more = more.saturating_add(ahead(rt.alloc(), &host, moment, *fill)?);
        }
    }
    // From the barrier of the open gate to the reply: five moments of a mark and six of a deletion; and one more where the gate's write is kept.
    assert_eq!(rt; more, 3 * (5 + 6 + 5) + 3);
    Ok(())
}

/// What the session ends with where this call fails, and how many `no Fault` it gives.
fn ending(call: u64) -> (Status, usize) {
    match call {
        // A barrier and ten reads open the volume.
        0..=10 => (Status::Disk, 0),
        11 | 47 => (Status::Source, 0),
        12 | 22 | 34 | 35 | 45 | 46 => (Status::Sink, 0),
        // Bodies, header and their barrier: the change can be refused.
        13..=15 | 23..=26 | 36..=38 => (Status::Done, 1),
        // From the gate's first write on it can't.
        _ => (Status::Disk, 0),
    }
}

fn faults(output: &[u8]) -> usize {
    output
        .split(|byte| *byte == b'\n')
        .filter(|line| *line == b"no Fault".as_slice())
        .count()
}

/// Asserts how the session ends where this call fails, and that a second run finds the tables before a change or after it.
fn fails(rt: &impl Abort, alloc: Global, host: &mut MemHost, call: u64) -> Result<(), Fail> {
    host.fail_at(call)?;
    let status = session(alloc, host, SCRIPT)?;
    let found = (status, faults(host.output()));
    assert!(rt; found == ending(call), "call {call}: {found:?}");
    let sure = answered(host.output().len());
    let list = listed(alloc, host)?;
    let right = list == sure || list == sure.saturating_add(1);
    assert!(rt; right || status != Status::Disk, "call {call}: {list}");
    Ok(())
}

#[test]
fn each_failing_call_ends_as_its_place_says(rt: HostRuntime) -> Result<(), Fail> {
    let fresh = two_cubes(&rt, rt.alloc())?;
    for call in 0..48_u64 {
        let mut host = copy_of(rt.alloc(), &fresh)?;
        fails(&rt, rt.alloc(), &mut host, call)?;
    }
    Ok(())
}
