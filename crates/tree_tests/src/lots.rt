//! Worked lots: the last count, the bytes of blocks, and what a keep holds.
use cube_lines::reply_to;
use disk_mem::{MemHost, MuteHost};
use fresh_lots::{BITMAP, BLOCKS, INODES, SUB_BLOCK, fresh, one_group, two_groups};
use ice_base::{DONE_AT, Disk, Keep, View, write_u64};
use ice_keep::{ListKeep, ThroughKeep};
use std::alloc::Global;
use std::process::Abort;
use std::str;
use std::test::Fail;
use tree_spec::{Refusal, Reply, Room, Value};

const PLAIN: Reply = Ok(Value::Plain);

/// The lines of a cube `/a` of one group through a keep, each with the reply that is wanted.
fn replies<D: Disk, K: Keep<D>>(
    rt: &impl Abort,
    keep: &mut K,
    disk: &mut D,
    room: &mut Room,
    table: &[(&[u8], Reply)],
) -> Result<(), Fail> {
    for (line, want) in table {
        let got = reply_to(keep, disk, &one_group(), line, 1, room);
        let text = str::from_utf8(line)?;
        assert!(rt; got == *want, "{text}: {got:?}");
    }
    Ok(())
}

/// Sets the count of a fresh lot to the last but one.
fn set_count(rt: &impl Abort, host: &mut MemHost) {
    assert!(rt; host.blocks() == BLOCKS && host.calls() == 0);
    let mut sub = *host.block(SUB_BLOCK);
    write_u64(&mut sub, DONE_AT, (1 << 63) - 2);
    host.set_block(SUB_BLOCK, &sub);
}

/// Whether the block at a place has these bytes from `start` on.
fn has(host: &MemHost, at: u32, start: usize, bytes: &[u8]) -> bool {
    at < host.blocks() && start < 1024 && host.block(at)[start..].starts_with(bytes)
}

const LAST: [(&[u8], Reply); 6] = [
    (b"mkdir /a/x", PLAIN),
    (b"mkdir /a/y", Err(Refusal::Spent)),
    (b"remove /a/x", Err(Refusal::Spent)),
    (b"rename /a/x /a/x", Err(Refusal::Spent)),
    (b"mkdir /a/x", Err(Refusal::Exists)),
    (b"list /a", Ok(Value::Listed(1))),
];

const COUNTS: [u8; 16] = [
    0xff, 0xff, 0xff, 0xff, 0xff, 0xff, 0xff, 0x7f, 1, 0, 0, 0, 2, 0, 0, 0,
];

#[test]
fn the_last_command_is_counted_and_none_after_it(rt: HostRuntime) -> Result<(), Fail> {
    let mut host = fresh(rt.alloc())?;
    let mut room = Room::new(rt.alloc())?;
    set_count(&rt, &mut host);
    replies(&rt, &mut ThroughKeep::new(), &mut host, &mut room, &LAST)?;
    assert!(rt; has(&host, SUB_BLOCK, 16, &COUNTS));
    Ok(())
}

const MADE: [(&[u8], Reply); 1] = [(b"mkdir /home/a", PLAIN)];

/// Blocks, places there and bytes after it.
const PARTS: [(u32, usize, &[u8]); 6] = [
    (
        SUB_BLOCK,
        16,
        &[1, 0, 0, 0, 0, 0, 0, 0, 1, 0, 0, 0, 2, 0, 0, 0],
    ),
    (BITMAP, 0, &[0xff, 0x03, 0]),
    (BITMAP, 32, &[0x03, 0]),
    (INODES, 0, &[2, 0, 0, 0, 1, 0, 0, 0, 9, 0, 0, 0, 0]),
    (INODES, 128, &[2, 0, 0, 0, 0]),
    (297, 0, &[1, 0, 0, 0, 1, b'a', 0]),
];

#[test]
fn a_directory_writes_these_bytes(rt: HostRuntime) -> Result<(), Fail> {
    let mut host = fresh(rt.alloc())?;
    let mut room = Room::new(rt.alloc())?;
    replies(&rt, &mut ThroughKeep::new(), &mut host, &mut room, &MADE)?;
    for (at, start, bytes) in &PARTS {
        assert!(rt;
            has(&host, *at, *start, bytes),
            "block {at} from {start} on"
        );
    }
    Ok(())
}

const LONG: [(&[u8], Reply); 3] = [
    (
        b"make /a/nnnnnnnnnnnnnnnnnnnnnnnnnnnnnnnnnnnnnnnnnnnnnnnnnnnnnnnnnnnn",
        Err(Refusal::NameLong),
    ),
    (
        b"rename /a /a/nnnnnnnnnnnnnnnnnnnnnnnnnnnnnnnnnnnnnnnnnnnnnnnnnnnnnnnnnnnn",
        Err(Refusal::NameLong),
    ),
    (
        b"stat /a/d/d/d/d/d/d/d/d/d/d/d/d/d/d/d/d/d/d/d/d/d/d/d/d/d",
        Err(Refusal::TooDeep),
    ),
];

#[test]
fn a_long_name_makes_no_call_of_the_disk(rt: HostRuntime) -> Result<(), Fail> {
    let mut host = fresh(rt.alloc())?;
    let mut room = Room::new(rt.alloc())?;
    replies(&rt, &mut ThroughKeep::new(), &mut host, &mut room, &LONG)?;
    assert!(rt; host.calls() == 0);
    Ok(())
}

const HELD: [(&[u8], Reply); 8] = [
    (b"mkdir /a/d", PLAIN),
    (b"make /a/f", PLAIN),
    (b"rename /a/f /a/g", PLAIN),
    (b"mkdir /a/g", Err(Refusal::Exists)),
    (b"write /a/g 0 0102", PLAIN),
    (b"remove /a/d", Err(Refusal::Memory)),
    (b"list /a", Ok(Value::Listed(2))),
    (b"read /a/g 0 16", Ok(Value::Bytes)),
];

/// Puts blocks until the keep has no room.
fn fill(rt: &impl Abort, keep: &mut ListKeep, host: &mut MemHost) {
    for at in 300..395u32 {
        let spare = Keep::<MemHost>::spare(keep);
        assert!(rt; host.blocks() == BLOCKS && spare > 0 && spare == 395 - at);
        let put = keep.put(host, &two_groups(), at, &[(at % 251) as u8; 1024]);
        assert!(rt; put.is_ok(), "address {at}");
    }
    assert!(rt; Keep::<MemHost>::spare(keep) == 0);
}

/// Whether the keep shows what was put at an address.
fn is_held(keep: &mut ListKeep, host: &mut MemHost, at: u32) -> bool {
    let mut block = [0; 1024];
    host.blocks() == BLOCKS
        && keep.get(host, &two_groups(), at, &mut block).is_ok()
        && block == [(at % 251) as u8; 1024]
}

/// A keep with room for 100 blocks holds four after the first command: the sub-super block, the bitmap, the first inodes and the root's
/// entries. Then it has the 96 that a command may need, until a file's block takes one of them.
#[test]
fn a_keep_that_holds_a_list_is_filled_to_its_last_room(rt: HostRuntime) -> Result<(), Fail> {
    let mut host = fresh(rt.alloc())?;
    let mut room = Room::new(rt.alloc())?;
    let mut keep = ListKeep::new(rt.alloc(), 100)?;
    replies(&rt, &mut keep, &mut host, &mut room, &HELD)?;
    assert!(rt; room.bytes() == b"\x01\x02".as_slice());
    fill(&rt, &mut keep, &mut host);
    for at in 300..395u32 {
        assert!(rt; is_held(&mut keep, &mut host, at), "address {at}");
    }
    assert!(rt; host.writes() == 0);
    Ok(())
}

/// Every block is garbage of one byte. A look names Kind, since inode 0 is no directory that can be. A change names that, or Magic.
const GARBAGE: [(&[u8], u8); 9] = [
    (b"read /a/f 0 1", 7),
    (b"list /a/f", 7),
    (b"stat /a/f", 7),
    (b"mkdir /a/d", 1),
    (b"make /a/f", 1),
    (b"write /a/f 0 78", 1),
    (b"trunc /a/f 0", 1),
    (b"rename /a/d /a/e", 1),
    (b"remove /a/d", 1),
];

/// A host of these bytes that tells nothing.
fn garbage(rt: &impl Abort, alloc: Global, fill: u8) -> Result<MuteHost, Fail> {
    let mut host = MemHost::new(alloc, BLOCKS)?;
    for at in 0..BLOCKS {
        assert!(rt; host.blocks() == BLOCKS && host.calls() == 0);
        host.set_block(at, &[fill; 1024]);
    }
    Ok(MuteHost { host })
}

fn refuses(rt: &impl Abort, mute: &mut MuteHost, room: &mut Room) {
    for (line, rule) in &GARBAGE {
        let got = reply_to(&mut ThroughKeep::new(), mute, &two_groups(), line, 1, room);
        let is_named = got == Err(Refusal::Damaged(*rule)) || got == Err(Refusal::Damaged(7));
        assert!(rt; is_named, "{line:?}: {got:?}");
    }
}

#[test]
fn garbage_that_tells_nothing_is_refused_by_name(rt: HostRuntime) -> Result<(), Fail> {
    let mut room = Room::new(rt.alloc())?;
    for fill in &[0u8, 1, 2, 0xff] {
        let mut mute = garbage(&rt, rt.alloc(), *fill)?;
        refuses(&rt, &mut mute, &mut room);
    }
    Ok(())
}
