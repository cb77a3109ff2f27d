//! Sessions in a volume without cubes.
use crate::hosts::{answers, ends, formatted, given, left_at, session, set, status_of};
use disk_mem::{MemHost, MuteHost};
use ice_base::Status;
use std::alloc::Global;
use std::process::Abort;
use std::test::Fail;

const SCRIPTS: [(&str, &str); 8] = [
    ("", ""),
    ("\n", "no Word\n"),
    ("cubes", "ok 0\n"),
    ("cubes\n", "ok 0\n"),
    ("cubes\ncubes\n", "ok 0\nok 0\n"),
    ("fly /a\ncubes", "no Word\nok 0\n"),
    ("cubes x\n\ncubes\n", "no Args\nno Word\nok 0\n"),
    (" cubes\nCubes\n", "no Word\nno Word\n"),
];

/// Asserts what a session with pieces of so many bytes answers, and that it writes nothing.
fn answers_by(
    rt: &impl Abort,
    alloc: Global,
    piece: usize,
    script: &str,
    replies: &str,
) -> Result<(), Fail> {
    let mut host = formatted(alloc)?;
    host.set_piece(piece.max(1));
    answers(rt, alloc, &mut host, script, replies)?;
    assert!(rt; host.writes() == 0, "{script}");
    Ok(())
}

#[test]
fn scripts_get_their_replies(rt: HostRuntime) -> Result<(), Fail> {
    for (script, replies) in &SCRIPTS {
        answers_by(&rt, rt.alloc(), 1, script, replies)?;
        answers_by(&rt, rt.alloc(), 3, script, replies)?;
        answers_by(&rt, rt.alloc(), 4096, script, replies)?;
    }
    Ok(())
}

fn repeated(alloc: Global, byte: u8, count: usize, rest: &[u8]) -> Result<Vec<u8>, Fail> {
    let mut script = vec![in alloc; byte; count]?;
    script.extend_from_slice(rest)?;
    Ok(script)
}

/// Whether a session of so many bytes `byte` and the rest ends so with these replies.
fn ends_so(
    alloc: Global,
    (byte, count): (u8, usize),
    rest: &[u8],
    status: Status,
    replies: &[u8],
) -> Result<bool, Fail> {
    let mut host = formatted(alloc)?;
    let script = repeated(alloc, byte, count, rest)?;
    let found = session(alloc, &mut host, &script)?;
    Ok(found == status && host.output() == replies)
}

#[test]
fn a_line_may_have_40000_bytes(rt: HostRuntime) -> Result<(), Fail> {
    let alloc = rt.alloc();
    let long = ends_so(
        alloc,
        (b'x', 40001),
        b"\ncubes",
        Status::Done,
        b"no Long\nok 0\n",
    )?;
    let whole = ends_so(
        alloc,
        (b'x', 40000),
        b"\ncubes",
        Status::Done,
        b"no Word\nok 0\n",
    )?;
    assert_eq!(rt; (long, whole), (true, true));
    Ok(())
}

const LARGE: [(usize, &[u8], Status, &[u8]); 3] = [
    (67_108_864, b"x", Status::Script, b""),
    (67_108_864, b"\n", Status::Script, b""),
    (67_108_863, b"x", Status::Done, b"no Long\n"),
];

#[test]
fn a_script_may_have_67108864_bytes(rt: HostRuntime) -> Result<(), Fail> {
    for (count, rest, status, replies) in &LARGE {
        let right = ends_so(rt.alloc(), (b'x', *count), rest, *status, replies)?;
        assert!(rt; right, "{count} bytes and {rest:?}");
    }
    Ok(())
}

/// How a session over so many blocks of zeros ends, and its calls.
fn over_zeros(alloc: Global, blocks: u32) -> Result<(Status, u64), Fail> {
    let mut zeros = MemHost::new(alloc, blocks)?;
    let status = session(alloc, &mut zeros, b"cubes\n")?;
    Ok((status, zeros.calls()))
}

#[test]
fn zeros_and_no_block_are_no_volume(rt: HostRuntime) -> Result<(), Fail> {
    let zeros = over_zeros(rt.alloc(), 5152)?;
    assert!(rt; zeros.0 == Status::Volume);
    let none = over_zeros(rt.alloc(), 0)?;
    assert!(rt; none == (Status::Small, 0));
    Ok(())
}

/// Asserts that a session gives nothing where this block is garbage.
fn refuses(rt: &impl Abort, alloc: Global, at: u32) -> Result<(), Fail> {
    let mut host = formatted(alloc)?;
    set(rt, &mut host, at, &[1; 1024]);
    ends(rt, alloc, &mut host, "cubes\n", Status::Volume, "")
}

#[test]
fn what_is_no_volume_is_refused(rt: HostRuntime) -> Result<(), Fail> {
    refuses(&rt, rt.alloc(), 1)?;
    refuses(&rt, rt.alloc(), 11)?;
    refuses(&rt, rt.alloc(), 18)
}

/// A call that fails, how many bytes a call moves, and how the session ends with which replies.
///
/// Calls 0 to 10 open the volume: a barrier, the superblock, the gate and the tables.
const FAULTS: [(u64, usize, Status, &str); 6] = [
    (0, 4096, Status::Disk, ""),
    (10, 4096, Status::Disk, ""),
    (11, 4096, Status::Source, ""),
    (13, 6, Status::Source, "ok 0\n"),
    (13, 4096, Status::Sink, "ok 0\n"),
    (14, 2, Status::Sink, ""),
];

/// Asserts how the session ends, and that no call follows the one that fails.
fn fails(
    rt: &impl Abort,
    alloc: Global,
    call: u64,
    piece: usize,
    status: Status,
    replies: &str,
) -> Result<(), Fail> {
    let mut host = formatted(alloc)?;
    host.set_piece(piece.max(1));
    host.fail_at(call)?;
    ends(rt, alloc, &mut host, "cubes\ncubes\n", status, replies)?;
    assert!(rt; host.calls() == call.saturating_add(1), "call {call}");
    Ok(())
}

#[test]
fn faults_end_a_run_with_their_status(rt: HostRuntime) -> Result<(), Fail> {
    for (call, piece, status, replies) in &FAULTS {
        fails(&rt, rt.alloc(), *call, *piece, *status, replies)?;
    }
    Ok(())
}

/// A host over which a session with pieces of so many bytes was run to its end.
fn listed_by(alloc: Global, piece: usize) -> Result<MemHost, Fail> {
    let mut host = formatted(alloc)?;
    host.set_piece(piece.max(1));
    match session(alloc, &mut host, b"cubes\n")? {
        Status::Done => Ok(host),
        _ => Err(Fail::new("a session that doesn't end well")),
    }
}

/// Asserts that a crash after so many calls leaves a volume, and of the reply a front. It answers the front's length.
fn crash(rt: &impl Abort, alloc: Global, host: &MemHost, moment: u64) -> Result<usize, Fail> {
    let found = given(host, moment);
    assert!(rt; b"ok 0\n".starts_with(found), "moment {moment}");
    let mut left = left_at(alloc, host, moment, 2)?;
    answers(rt, alloc, &mut left, "cubes\n", "ok 0\n")?;
    Ok(found.len())
}

/// How many different fronts of the reply the crashes of a session with pieces of so many bytes leave, each of which leaves a volume.
fn fronts(rt: &impl Abort, alloc: Global, piece: usize) -> Result<u64, Fail> {
    let host = listed_by(alloc, piece)?;
    let mut seen: u64 = 0;
    let mut last = usize::MAX;
    for moment in 0..host.calls().saturating_add(1) {
        let len = crash(rt, alloc, &host, moment)?;
        if len != last {
            seen = seen.saturating_add(1);
            last = len;
        }
    }
    Ok(seen)
}

#[test]
fn each_crash_of_a_session_leaves_a_volume(rt: HostRuntime) -> Result<(), Fail> {
    let found = (fronts(&rt, rt.alloc(), 4096)?, fronts(&rt, rt.alloc(), 1)?);
    assert_eq!(rt; found, (2, 6));
    Ok(())
}

#[test]
fn a_host_that_tells_nothing_is_served_too(rt: HostRuntime) -> Result<(), Fail> {
    let mut image = formatted(rt.alloc())?;
    image.set_script(b"cubes\n")?;
    let mut mute = MuteHost { host: image };
    let status = status_of(rt.alloc(), &["run", "img"], &mut mute)?;
    assert!(rt; status == Status::Done && mute.host.output() == b"ok 0\n".as_slice());
    Ok(())
}

#[test]
fn a_host_that_tells_nothing_may_hold_no_volume(rt: HostRuntime) -> Result<(), Fail> {
    let host = MemHost::new(rt.alloc(), 100)?;
    let mut garbage = MuteHost { host };
    let status = status_of(rt.alloc(), &["run", "img"], &mut garbage)?;
    assert_eq!(rt; status, Status::Volume);
    Ok(())
}
