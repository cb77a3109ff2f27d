//! Failing calls of the disk: what they stop, and what goes on.
ghost use Rattle.std.specs.Prelude.{◌≡◌, ◌<◌};

use crate::hosts::{after, answers, copy_answers, ends, small, start_of};
use disk_mem::MemHost;
use ice_base::Status;
use std::alloc::Global;
use std::process::Abort;
use std::test::Fail;

/// A host over the small image, on which the first call for a line of the script fails, that many calls later.
fn failing(alloc: Global, script: &str, line: usize, later: u64) -> Result<MemHost, Fail> {
    let good = after(alloc, script.as_bytes())?;
    let call = start_of(alloc, &good, line)?.saturating_add(later);
    let mut host = small(alloc)?;
    host.fail_at(call)?;
    Ok(host)
}

const STOPS: &str =
    "create /a 1\ncreate /b 1\nmkdir /a/x\nsync /a\nmkdir /a/y\nsync /a\nmkdir /a/z\nmkdir /b/x\nmount /a\nlist /a\n";

/// The replies where the second sync fails before its commit point, and from there on.
const STOPPED: [&str; 2] = [
    "ok\nok\nok\nok 1\nok\nno Fault\nno Stopped\nok\nok 1\ndir x\nok 1\n",
    "ok\nok\nok\nok 1\nok\nno Fault\nno Stopped\nok\nok 2\ndir x\ndir y\nok 2\n",
];

/// Asserts what a session answers in which a call of the second sync fails, and that `/b` has then what it had accepted.
fn stops(rt: &impl Abort, alloc: Global, later: u64) -> Result<(), Fail> {
    let mut host = failing(alloc, STOPS, 5, later)?;
    let replies = if later < 7 { STOPPED[0] } else { STOPPED[1] };
    answers(rt, alloc, &mut host, STOPS, replies)?;
    copy_answers(
        rt,
        alloc,
        &host,
        "mount /b\nlist /b\n",
        "ok 1\ndir x\nok 1\n",
    )
}

#[test]
fn a_fault_within_a_sync_stops_this_cube_alone(rt: HostRuntime) -> Result<(), Fail> {
    // Four bodies, the header, a barrier and the gate come before the barrier that is the commit point.
    for later in 0..15_u64 {
        stops(&rt, rt.alloc(), later)?;
    }
    Ok(())
}

const START: &str = "create /a 1\nmkdir /a/x\nsync /a\nmkdir /a/y\nsync /a\n";

const STARTED: &str = "ok\nok\nok 1\nok\nno Fault\n";

/// What a stopped cube is asked, and what it answers.
const ROWS: [(&str, &str); 7] = [
    ("cubes\n", "0 1 stopped /a\nok 1\n"),
    (
        "list /a\nsync /a\nunmount /a\nonline /a\n",
        "no Stopped\nno Stopped\nno Stopped\nno State\n",
    ),
    ("check /a\ncubes\n", "ok 1 2 1\n0 1 stopped /a\nok 1\n"),
    ("grow /a 1\ncubes\n", "ok\n0 2 stopped /a\nok 1\n"),
    (
        "offline /a\ncubes\nmount /a\nonline /a\nmount /a\n",
        "ok\n0 1 offline /a\nok 1\nno Offline\nok\nok 1\n",
    ),
    ("delete /a\ncubes\n", "ok\nok 0\n"),
    (
        "mount /a\nmkdir /a/y\nsync /a\nlist /a\n",
        "ok 1\nok\nok 2\ndir x\ndir y\nok 2\n",
    ),
];

/// Asserts what a stopped cube answers.
fn waits(rt: &impl Abort, alloc: Global, rest: &str, replies: &str) -> Result<(), Fail> {
    let mut host = failing(alloc, START, 4, 0)?;
    let script = format!(in alloc; "{START}{rest}")?;
    let wants = format!(in alloc; "{STARTED}{replies}")?;
    answers(rt, alloc, &mut host, script.as_str(), wants.as_str())
}

#[test]
fn a_stopped_cube_waits_for_a_mount(rt: HostRuntime) -> Result<(), Fail> {
    for (rest, replies) in &ROWS {
        waits(&rt, rt.alloc(), rest, replies)?;
    }
    Ok(())
}

/// Calls of a session that makes a cube, how it ends where they fail, and what a second one then lists.
///
/// Calls 0 to 10 open the volume and call 11 takes the script. Calls 12 to 23 make the cube, and 24 to 34 change the tables: two bodies,
/// the header and a barrier, the gate and a barrier, two homes and a barrier, the gate and a barrier.
const CREATES: [(u64, Status, &str, &str); 12] = [
    (0, Status::Disk, "", "ok 0\n"),
    (10, Status::Disk, "", "ok 0\n"),
    (12, Status::Done, "no Fault\nok 0\n", "ok 0\n"),
    (23, Status::Done, "no Fault\nok 0\n", "ok 0\n"),
    (24, Status::Done, "no Fault\nok 0\n", "ok 0\n"),
    (26, Status::Done, "no Fault\nok 0\n", "ok 0\n"),
    (27, Status::Done, "no Fault\nok 0\n", "ok 0\n"),
    (28, Status::Disk, "", "ok 0\n"),
    (29, Status::Disk, "", "0 1 unmounted /a\nok 1\n"),
    (30, Status::Disk, "", "0 1 unmounted /a\nok 1\n"),
    (33, Status::Disk, "", "0 1 unmounted /a\nok 1\n"),
    (34, Status::Disk, "", "0 1 unmounted /a\nok 1\n"),
];

/// Asserts how a session that makes a cube ends where this call fails, and what a second one then lists.
fn creates(
    rt: &impl Abort,
    alloc: Global,
    call: u64,
    status: Status,
    replies: &str,
    list: &str,
) -> Result<(), Fail> {
    let mut host = small(alloc)?;
    host.fail_at(call)?;
    ends(
        rt,
        alloc,
        &mut host,
        "create /a 1\ncubes\n",
        status,
        replies,
    )?;
    copy_answers(rt, alloc, &host, "cubes\n", list)
}

#[test]
fn a_cube_is_made_or_not_where_a_call_fails(rt: HostRuntime) -> Result<(), Fail> {
    for (call, status, replies, list) in &CREATES {
        creates(&rt, rt.alloc(), *call, *status, replies, list)?;
    }
    Ok(())
}
