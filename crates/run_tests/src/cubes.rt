//! Cubes whose blocks were damaged or left by a crash.
ghost use Rattle.std.specs.Prelude.{◌≡◌, ◌<◌};

use crate::hosts::{after, answers, copy_of, left_at, session, set, start_of};
use disk_mem::MemHost;
use ice_base::{Block, Disk, Status, write_u32};
use std::alloc::Global;
use std::process::Abort;
use std::test::Fail;

/// Fills 256 blocks with garbage before the first call.
fn spoil(rt: &impl Abort, host: &mut MemHost, first: u32) {
    for at in first..first.saturating_add(256) {
        set(rt, host, at, &[0xff; 1024]);
    }
}

const HOME: &[u8] = b"create /home 1\nmkdir /home/a\nsync /home\n";

/// Blocks of the image after it, each with bytes from a place on.
const BYTES: [(u32, usize, &[u8]); 11] = [
    (11, 0, b"\x01\x05\0\0\0\0\0\0/home\0\0\0"),
    (15, 0, b"\x01\0\0\0\0\0\0\0"),
    (32, 0, b"IceC\x01\0\0\0\0\0\0\0\0\0\0\0"),
    (32, 16, b"\x01\0\0\0\0\0\0\0\x01\0\0\0\x02\0\0\0"),
    (33, 0, b"\0\0\0\0"),
    (34, 0, b"IceJ\0\0\0\0\x04\0\0\0\0\0\0\0"),
    (800, 0, b"\xff\x03\0\0"),
    (800, 32, b"\x03\0\0\0"),
    (801, 0, b"\x02\0\0\0\x01\0\0\0\x09\0\0\0\0\0\0\0"),
    (801, 128, b"\x02\0\0\0\0\0\0\0"),
    (809, 0, b"\x01\0\0\0\x01a\0\0"),
];

fn has(host: &MemHost, at: u32, place: usize, bytes: &[u8]) -> bool {
    if at >= host.blocks() {
        return false;
    }
    match host.block(at).get(place..) {
        Some(found) => found.starts_with(bytes),
        None => false,
    }
}

#[test]
fn a_cube_with_a_directory_has_its_bytes(rt: HostRuntime) -> Result<(), Fail> {
    let host = after(rt.alloc(), HOME)?;
    for (at, place, bytes) in &BYTES {
        assert!(rt; has(&host, *at, *place, bytes), "block {at}, byte {place}");
    }
    Ok(())
}

const THREE: &[u8] =
    b"create /a 1\ncreate /b 1\ncreate /c 1\nmkdir /a/x\nmkdir /b/x\nmkdir /c/x\nunmount /a\nunmount /b\nunmount /c\n";

/// The first blocks of a slot's area and of its group, and a session after both were filled with garbage.
const GARBAGE: [(u32, u32, &str, &str); 3] = [
    (
        32,
        800,
        "mount /a\nmount /b\nmount /c\nlist /b\nlist /c\n",
        "no Damaged 1\nok 1\nok 1\ndir x\nok 1\ndir x\nok 1\n",
    ),
    (
        288,
        1056,
        "mount /b\nmount /a\nmount /c\nmkdir /b/y\ncheck /b\ncubes\ncheck /a\nmkdir /c/y\nsync /c\n",
        "no Damaged 1\nok 1\nok 1\nno Unmounted\nno Damaged 1\n0 1 mounted /a\n1 1 unmounted /b\n2 1 mounted /c\nok 3\nok 1 2 1\nok\nok 2\n",
    ),
    (
        544,
        1312,
        "mount /c\nmount /a\nmount /b\ndelete /c\ncreate /c 1\nlist /c\nlist /a\n",
        "no Damaged 1\nok 1\nok 1\nok\nok\nok 0\ndir x\nok 1\n",
    ),
];

/// Asserts that a session over this host with garbage in both gives these replies.
fn answers_spoilt(
    rt: &impl Abort,
    alloc: Global,
    host: &MemHost,
    (area, group): (u32, u32),
    script: &str,
    replies: &str,
) -> Result<(), Fail> {
    let mut spoilt = copy_of(alloc, host)?;
    spoil(rt, &mut spoilt, area);
    spoil(rt, &mut spoilt, group);
    answers(rt, alloc, &mut spoilt, script, replies)
}

#[test]
fn garbage_in_one_cube_takes_no_other_with_it(rt: HostRuntime) -> Result<(), Fail> {
    let host = after(rt.alloc(), THREE)?;
    for (area, group, script, replies) in &GARBAGE {
        answers_spoilt(&rt, rt.alloc(), &host, (*area, *group), script, replies)?;
    }
    Ok(())
}

/// The header of a journal of slot 0 with two targets, 9 and this one.
fn header(target: u32) -> Block {
    let mut block = [0; 1024];
    write_u32(&mut block, 0, 0x4a65_6349);
    write_u32(&mut block, 8, 2);
    write_u32(&mut block, 16, 9);
    write_u32(&mut block, 20, target);
    block
}

/// The writes of a mount of `/a` over this host with an open journal with this target, whose reply is to be this.
fn mount_writes(
    rt: &impl Abort,
    alloc: Global,
    host: &MemHost,
    target: u32,
    reply: &str,
) -> Result<u64, Fail> {
    let mut gate = [0; 1024];
    gate[0] = 1;
    let mut opened = copy_of(alloc, host)?;
    set(rt, &mut opened, 33, &gate);
    set(rt, &mut opened, 34, &header(target));
    answers(rt, alloc, &mut opened, "mount /a\n", reply)?;
    Ok(opened.writes())
}

#[test]
fn an_open_journal_with_a_target_outside_is_not_replayed(rt: HostRuntime) -> Result<(), Fail> {
    let host = after(rt.alloc(), b"create /a 1\nunmount /a\n")?;
    let outside = mount_writes(&rt, rt.alloc(), &host, 256, "no Damaged 15\n")?;
    // What a sound header names is written home, and the gate is closed.
    let within = mount_writes(&rt, rt.alloc(), &host, 255, "ok 0\n")?;
    assert_eq!(rt; (outside, within), (0, 3));
    Ok(())
}

const SPENT: &[u8] = b"create /a 1\nmake /a/f\nunmount /a\n";

/// The sub-super block of a cube of slot 0 with one block, two inodes and this count.
fn counted(done: [u8; 8]) -> Block {
    let mut block = [0; 1024];
    write_u32(&mut block, 0, 0x4365_6349);
    write_u32(&mut block, 4, 1);
    for (k, byte) in done.into_iter().enumerate() {
        if k < 8 {
            block[16 + k] = byte;
        }
    }
    write_u32(&mut block, 24, 1);
    write_u32(&mut block, 28, 2);
    block
}

/// Counts, each with a session where the cube has it, and its replies.
const SPENDINGS: [([u8; 8], &str, &str); 3] = [
    (
        [0xff, 0xff, 0xff, 0xff, 0xff, 0xff, 0xff, 0x7f],
        "mount /a\nmkdir /a/x\nwrite /a/f 0 -\nmkdir /a/f\nlist /a\nsync /a\n",
        "ok 9223372036854775807\nno Spent\nno Spent\nno Exists\nfile f\nok 1\nok 9223372036854775807\n",
    ),
    (
        [0xfe, 0xff, 0xff, 0xff, 0xff, 0xff, 0xff, 0x7f],
        "mount /a\nmkdir /a/x\nmkdir /a/y\n",
        "ok 9223372036854775806\nok\nno Spent\n",
    ),
    ([0, 0, 0, 0, 0, 0, 0, 0x80], "mount /a\n", "no Damaged 5\n"),
];

/// Asserts that a session over this host with a changed count gives these replies.
fn answers_counted(
    rt: &impl Abort,
    alloc: Global,
    host: &MemHost,
    done: [u8; 8],
    script: &str,
    replies: &str,
) -> Result<(), Fail> {
    let mut changed = copy_of(alloc, host)?;
    set(rt, &mut changed, 32, &counted(done));
    answers(rt, alloc, &mut changed, script, replies)
}

#[test]
fn a_count_of_commands_runs_out(rt: HostRuntime) -> Result<(), Fail> {
    let host = after(rt.alloc(), SPENT)?;
    for (done, script, replies) in &SPENDINGS {
        answers_counted(&rt, rt.alloc(), &host, *done, script, replies)?;
    }
    Ok(())
}

const SYNC: &[u8] = b"create /a 1\nmkdir /a/x\nsync /a\n";

/// The calls of its last line: four bodies, the header and a barrier, the gate and a barrier, four homes and a barrier, the gate and a
/// barrier.
const CALLS: u64 = 15;

/// Whether `/a` is mounted with its directory. Without it, it is empty and counts nothing.
fn has_directory(alloc: Global, host: &mut MemHost) -> Result<bool, Fail> {
    let status = session(alloc, host, b"mount /a\nlist /a\n")?;
    if status == Status::Done && host.output() == b"ok 1\ndir x\nok 1\n".as_slice() {
        return Ok(true);
    }
    if status == Status::Done && host.output() == b"ok 0\nok 0\n".as_slice() {
        return Ok(false);
    }
    Err(Fail::new("another tree"))
}

/// Whether `/a` has its directory after a crash.
fn keeps_directory(alloc: Global, host: &MemHost, moment: u64, fill: u64) -> Result<bool, Fail> {
    let mut left = left_at(alloc, host, moment, fill)?;
    has_directory(alloc, &mut left)
}

#[test]
fn a_crash_within_a_sync_leaves_all_or_nothing(rt: HostRuntime) -> Result<(), Fail> {
    let host = after(rt.alloc(), SYNC)?;
    let start = start_of(rt.alloc(), &host, 2)?;
    for call in 0..CALLS + 1 {
        for fill in 0..4_u64 {
            let found = keeps_directory(rt.alloc(), &host, start.saturating_add(call), fill)?;
            // Seven calls made: the gate is written and loose, and open where its newest byte is kept.
            let open = call >= 8 || (call == 7 && fill == 1);
            assert!(rt; found == open, "call {call}, fill {fill}");
        }
    }
    Ok(())
}

/// What a crash within the sync leaves where all homes are written and each is lost, after a replay of four homes and the gate.
fn replayed(rt: &impl Abort, alloc: Global) -> Result<MemHost, Fail> {
    let host = after(alloc, SYNC)?;
    // Twelve calls made.
    let moment = start_of(alloc, &host, 2)?.saturating_add(12);
    let mut left = left_at(alloc, &host, moment, 3)?;
    let found = has_directory(alloc, &mut left)?;
    assert!(rt; found && left.writes() == 5);
    Ok(left)
}

#[test]
fn a_crash_within_a_replay_loses_nothing(rt: HostRuntime) -> Result<(), Fail> {
    let left = replayed(&rt, rt.alloc())?;
    for moment in 0..left.calls().saturating_add(1) {
        for fill in 0..4_u64 {
            let found = keeps_directory(rt.alloc(), &left, moment, fill)?;
            assert!(rt; found, "moment {moment}, fill {fill}");
        }
    }
    Ok(())
}
