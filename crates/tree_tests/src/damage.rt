//! Which rule each command names in a damaged lot.
use cube_lines::reply_to;
use disk_mem::MemHost;
use fresh_lots::{BITMAP, BLOCKS, INODES, SUB_BLOCK as SUB, fresh, one_group};
use ice_base::{Block, Disk};
use ice_keep::ThroughKeep;
use std::alloc::Global;
use std::process::Abort;
use std::test::Fail;
use tree_spec::{Refusal, Room};

/// A byte of a block of the image: the block, its place there, and its value.
type Byte = (u32, usize, u8);

/// What each of these lines is answered, by itself over the lot with these bytes in place of its own.
type Case = (Refusal, &'static [Byte], &'static [&'static [u8]]);

/// The block of the root's entries, each of 64 bytes: `d`, `f` and `e`.
const ROOT: u32 = 297;

/// The block of the entries `x` and `y` of `e`. Those of `e/x` and so on follow.
const ENTRIES: u32 = 299;

/// A lot with the directory `d` at inode 1, the file `f` of one byte at inode 2 in address 10, and the directory `e` at inode 3.
/// `e` has the directories `x` and `y`, and so has each `x` down to the sixth.
const SOUND: [&[u8]; 16] = [
    b"mkdir /a/d",
    b"make /a/f",
    b"write /a/f 0 78",
    b"mkdir /a/e",
    b"mkdir /a/e/x",
    b"mkdir /a/e/y",
    b"mkdir /a/e/x/x",
    b"mkdir /a/e/x/y",
    b"mkdir /a/e/x/x/x",
    b"mkdir /a/e/x/x/y",
    b"mkdir /a/e/x/x/x/x",
    b"mkdir /a/e/x/x/x/y",
    b"mkdir /a/e/x/x/x/x/x",
    b"mkdir /a/e/x/x/x/x/y",
    b"mkdir /a/e/x/x/x/x/x/x",
    b"mkdir /a/e/x/x/x/x/x/y",
];

pub(crate) fn sound(rt: &impl Abort, alloc: Global) -> Result<MemHost, Fail> {
    let mut host = fresh(alloc)?;
    let mut room = Room::new(alloc)?;
    for line in &SOUND {
        let got = refusal_of(&mut host, line, &mut room);
        assert!(rt; got.is_none(), "{line:?}");
    }
    Ok(host)
}

/// The lot with these bytes in place of its own.
fn damaged(
    rt: &impl Abort,
    alloc: Global,
    base: &MemHost,
    bytes: &[Byte],
) -> Result<MemHost, Fail> {
    let mut host = base.crashed(alloc, base.calls(), 1)?;
    for byte in bytes {
        set_byte(rt, &mut host, byte);
    }
    Ok(host)
}

fn set_byte(rt: &impl Abort, host: &mut MemHost, (at, place, value): &Byte) {
    assert!(rt; *at < host.blocks() && host.calls() == 0 && *place < 1024);
    let mut block = *host.block(*at);
    block[*place] = *value;
    host.set_block(*at, &block);
}

/// A command of each kind that changes a tree.
const CHANGES: [&[u8]; 6] = [
    b"mkdir /a/z",
    b"make /a/z",
    b"write /a/f 0 79",
    b"trunc /a/f 0",
    b"remove /a/f",
    b"rename /a/f /a/z",
];

/// A command of each kind that meets the root's entries or the inode of `f`.
const MET: [&[u8]; 7] = [
    b"stat /a/f",
    b"read /a/f 0 1",
    b"list /a",
    b"write /a/f 0 79",
    b"trunc /a/f 0",
    b"remove /a/f",
    b"rename /a/f /a/z",
];

/// Those that need the blocks of `f`.
const BYTES: [&[u8]; 4] = [
    b"read /a/f 0 1",
    b"write /a/f 0 79",
    b"trunc /a/f 0",
    b"remove /a/f",
];

/// A wrong sub-super block stops each change, and a wrong count what needs it.
static SUBS: [Case; 9] = [
    (Refusal::Damaged(1), &[(SUB, 0, 0)], &CHANGES),
    (Refusal::Damaged(2), &[(SUB, 4, 9)], &CHANGES),
    (Refusal::Damaged(3), &[(SUB, 8, 1)], &CHANGES),
    (Refusal::Damaged(4), &[(SUB, 9, 7)], &CHANGES),
    (Refusal::Damaged(5), &[(SUB, 23, 0x80)], &CHANGES),
    (
        Refusal::Damaged(6),
        &[(SUB, 24, 0)],
        &[b"trunc /a/f 0", b"remove /a/f"],
    ),
    (Refusal::Damaged(6), &[(SUB, 28, 0)], &[b"remove /a/d"]),
    (
        Refusal::Damaged(6),
        &[
            (SUB, 24, 0xff),
            (SUB, 25, 0xff),
            (SUB, 26, 0xff),
            (SUB, 27, 0xff),
        ],
        &[b"mkdir /a/d/z", b"make /a/d/z"],
    ),
    (
        Refusal::Damaged(6),
        &[
            (SUB, 28, 0xff),
            (SUB, 29, 0xff),
            (SUB, 30, 0xff),
            (SUB, 31, 0xff),
        ],
        &[b"mkdir /a/z", b"make /a/z"],
    ),
];

/// Wrong inodes and entries stop what meets them. The root of 63 entries, whose second to fourth blocks are the one of `f`, takes no entry.
static MEETINGS: [Case; 11] = [
    (Refusal::Damaged(7), &[(INODES, 256, 3)], &MET),
    (Refusal::Damaged(8), &[(INODES, 8, 5)], &MET),
    (Refusal::Damaged(8), &[(INODES, 8, 5)], &CHANGES),
    (Refusal::Damaged(8), &[(INODES, 264, 5)], &BYTES),
    (Refusal::Damaged(10), &[(ROOT, 64, 64)], &MET),
    (Refusal::Damaged(10), &[(ROOT, 64, 0)], &MET),
    (Refusal::Damaged(11), &[(ROOT, 5, b'/')], &[b"list /a"]),
    (
        Refusal::Damaged(11),
        &[(ENTRIES, 5, b'/')],
        &[b"rename /a/e /a/d/e"],
    ),
    (
        Refusal::Damaged(10),
        &[
            (ENTRIES, 64, 4),
            (ENTRIES + 1, 64, 6),
            (ENTRIES + 2, 64, 8),
            (ENTRIES + 3, 64, 10),
            (ENTRIES + 4, 64, 12),
            (ENTRIES + 5, 64, 14),
        ],
        &[b"rename /a/e /a/d/e"],
    ),
    (
        Refusal::Damaged(10),
        &[
            (INODES, 4, 63),
            (INODES, 12, 10),
            (INODES, 16, 10),
            (INODES, 20, 10),
        ],
        &[b"rename /a/e/y /a/z"],
    ),
    (
        Refusal::NoNodes,
        &[
            (INODES, 4, 63),
            (INODES, 12, 10),
            (INODES, 16, 10),
            (INODES, 20, 10),
        ],
        &[b"mkdir /a/z", b"make /a/z"],
    ),
];

/// A wrong bitmap stops what takes and gives.
static BITMAPS: [Case; 5] = [
    (
        Refusal::Damaged(13),
        &[(BITMAP, 0, 0xfe)],
        &[b"mkdir /a/d/z", b"make /a/d/z"],
    ),
    (
        Refusal::Damaged(13),
        &[(BITMAP, 1, 0xfb)],
        &[b"trunc /a/f 0", b"remove /a/f"],
    ),
    (
        Refusal::Damaged(13),
        &[(BITMAP, 32, 0xfb)],
        &[b"remove /a/f"],
    ),
    (
        Refusal::Damaged(13),
        &[(BITMAP, 32, 0xfd)],
        &[b"mkdir /a/d/z", b"make /a/d/z"],
    ),
    (
        Refusal::Damaged(13),
        &[(BITMAP, 32, 0xfd)],
        &[b"remove /a/d"],
    ),
];

/// What a line over the lot with these bytes is answered.
fn reply_over(
    rt: &impl Abort,
    alloc: Global,
    base: &MemHost,
    bytes: &[Byte],
    line: &[u8],
    room: &mut Room,
) -> Result<Option<Refusal>, Fail> {
    let mut host = damaged(rt, alloc, base, bytes)?;
    Ok(refusal_of(&mut host, line, room))
}

fn refusal_of(host: &mut MemHost, line: &[u8], room: &mut Room) -> Option<Refusal> {
    reply_to(&mut ThroughKeep::new(), host, &one_group(), line, 1, room).err()
}

/// Asserts that each of the lines is answered so over the lot with these bytes.
fn try_case(
    rt: &impl Abort,
    alloc: Global,
    base: &MemHost,
    (want, bytes, lines): &Case,
    room: &mut Room,
) -> Result<(), Fail> {
    for line in lines.iter() {
        let got = reply_over(rt, alloc, base, bytes, line, room)?;
        assert!(rt; got == Some(*want), "{line:?} with {bytes:?}: {got:?}");
    }
    Ok(())
}

fn try_cases(rt: &impl Abort, alloc: Global, cases: &[Case]) -> Result<(), Fail> {
    let base = sound(rt, alloc)?;
    let mut room = Room::new(alloc)?;
    for case in cases {
        try_case(rt, alloc, &base, case, &mut room)?;
    }
    Ok(())
}

#[test]
fn a_command_names_a_rule_that_the_lot_breaks(rt: HostRuntime) -> Result<(), Fail> {
    try_cases(&rt, rt.alloc(), &SUBS)?;
    try_cases(&rt, rt.alloc(), &MEETINGS)?;
    try_cases(&rt, rt.alloc(), &BITMAPS)
}

/// The first block of inodes.
fn inodes(rt: &impl Abort, host: &MemHost) -> Block {
    assert!(rt; host.blocks() == BLOCKS);
    *host.block(INODES)
}

/// Lines over a lot in which the inode of `e/x` is marked free.
const MARKED: [(&[u8], Option<Refusal>); 3] = [
    (b"mkdir /a/e/z", Some(Refusal::Damaged(13))),
    (b"list /a/e", None),
    (b"list /a/e/x", None),
];

#[test]
fn a_directory_that_is_marked_free_is_not_overwritten(rt: HostRuntime) -> Result<(), Fail> {
    let base = sound(&rt, rt.alloc())?;
    let mut room = Room::new(rt.alloc())?;
    let mut host = damaged(&rt, rt.alloc(), &base, &[(BITMAP, 32, 0xf7)])?;
    let before = inodes(&rt, &host);
    for (line, want) in &MARKED {
        let got = refusal_of(&mut host, line, &mut room);
        assert!(rt;
            got == *want && inodes(&rt, &host) == before,
            "{line:?}: {got:?}"
        );
    }
    Ok(())
}
