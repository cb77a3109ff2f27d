//! Each call of the disk of one command of each kind fails in turn.
use crate::damage::sound;
use cube_lines::reply_to;
use disk_mem::MemHost;
use fresh_lots::{BLOCKS, one_group};
use ice_base::Disk;
use ice_keep::{ListKeep, ThroughKeep};
use std::alloc::Global;
use std::process::Abort;
use std::str;
use std::test::Fail;
use tree_spec::{Refusal, Reply, Room};

/// A command of each kind, all of which are accepted.
const CHANGES: [&[u8]; 6] = [
    b"mkdir /a/d/z",
    b"make /a/z",
    b"write /a/f 0 797a",
    b"trunc /a/f 0",
    b"remove /a/f",
    b"rename /a/e/x /a/d/x",
];

/// A look of each kind, with its reads: on a walk one for each inode and one for the block of each directory; at its end, for a read of
/// a file, one for its block, and for a listing the block and the inode of each of two entries.
const LOOKS: [(&[u8], u64); 3] = [
    (b"read /a/f 0 9", 4),
    (b"list /a/e", 7),
    (b"stat /a/e/x", 5),
];

/// A rename that moves nothing, with its reads: for both paths once the inode and the block of the root and the inode of `e`, for each path
/// the block of `e` and the inode of `x`, and the sub-super block for the room that the count has and for the count itself.
const STAYS: [(&[u8], u64); 1] = [(b"rename /a/e/x /a/e/x", 9)];

/// The reply through a keep that holds all puts in memory, or through one that writes home at once.
fn ask(
    alloc: Global,
    held: bool,
    host: &mut MemHost,
    line: &[u8],
    room: &mut Room,
) -> Result<Reply, Fail> {
    if held {
        let mut keep = ListKeep::new(alloc, 240)?;
        return Ok(reply_to(&mut keep, host, &one_group(), line, 1, room));
    }
    let mut keep = ThroughKeep::new();
    Ok(reply_to(&mut keep, host, &one_group(), line, 1, room))
}

/// Whether all blocks of two hosts are the same.
fn same_blocks(host: &MemHost, base: &MemHost) -> bool {
    for at in 0..BLOCKS {
        if at >= host.blocks() || at >= base.blocks() || host.block(at) != base.block(at) {
            return false;
        }
    }
    true
}

/// What a line with a failing call is answered, the calls that it makes, and whether all blocks are as before.
#[derive(Drop)]
struct Found {
    reply: Reply,
    calls: u64,
    same: bool,
}

fn fail(alloc: Global, base: &MemHost, line: &[u8], held: bool, call: u64) -> Result<Found, Fail> {
    let mut room = Room::new(alloc)?;
    let mut host = base.crashed(alloc, base.calls(), 1)?;
    host.fail_at(call)?;
    let reply = ask(alloc, held, &mut host, line, &mut room)?;
    Ok(Found {
        reply,
        calls: host.calls(),
        same: same_blocks(&host, base),
    })
}

/// Each call of a line fails in turn: the reply is Fault, and no call follows. It answers how many calls there are. Where nothing may be
/// written, each block is as before, so that the tree is the one before.
fn fail_each(
    rt: &impl Abort,
    alloc: Global,
    base: &MemHost,
    line: &[u8],
    held: bool,
    still: bool,
) -> Result<u64, Fail> {
    let text = str::from_utf8(line)?;
    for call in 0..1000u64 {
        let found = fail(alloc, base, line, held, call)?;
        if found.reply.is_ok() && found.calls <= call {
            return Ok(call);
        }
        let is_fault = found.reply == Err(Refusal::Fault) && found.calls == call.saturating_add(1);
        assert!(rt; is_fault && (found.same || !still), "call {call} of {text}");
    }
    Err(Fail::new("too many calls"))
}

fn fail_changes(rt: &impl Abort, alloc: Global, base: &MemHost, held: bool) -> Result<(), Fail> {
    for line in &CHANGES {
        let calls = fail_each(rt, alloc, base, line, held, held)?;
        assert!(rt; calls > 4, "{calls} calls");
    }
    Ok(())
}

/// Lines that write nothing, with the reads of each.
fn fail_looks(
    rt: &impl Abort,
    alloc: Global,
    base: &MemHost,
    held: bool,
    lines: &[(&[u8], u64)],
) -> Result<(), Fail> {
    for (line, reads) in lines {
        let calls = fail_each(rt, alloc, base, line, held, true)?;
        assert!(rt; calls == *reads, "{calls} calls");
    }
    Ok(())
}

#[test]
fn a_failing_call_of_the_disk_is_the_last_one_of_its_command(rt: HostRuntime) -> Result<(), Fail> {
    let alloc = rt.alloc();
    let made = sound(&rt, alloc)?;
    let base = made.crashed(alloc, made.calls(), 1)?;
    fail_changes(&rt, alloc, &base, true)?;
    fail_looks(&rt, alloc, &base, true, &LOOKS)?;
    fail_looks(&rt, alloc, &base, true, &STAYS)?;
    fail_changes(&rt, alloc, &base, false)?;
    fail_looks(&rt, alloc, &base, false, &LOOKS)
}
