//! A file of 268 blocks in a fresh lot of two groups: its blocks are 9 to 21, then 23 to 255, then 265 to 286, and 22 is its indirect block.
ghost use Rattle.std.specs.Prelude.{◌≡◌, true, length};
ghost use Rattle.ice_base.specs.Lots.{is_sited};

use disk_mem::{MemHost, MuteHost};
use ice_base::{Block, Disk, FormOne, Lot, OpFault, Pool, Rule, write_u32};
use ice_file::{cut_to, read_at, write_at};
use ice_keep::ThroughKeep;
use ice_map::{Inode, get_inode};
use ice_pool::BitPool;
use std::alloc::{AllocError, Global};
use std::process::Abort;
use std::test::Fail;
use tree_spec::Room;

const SIZE: usize = 274_432;

/// The lot of slot 0 with the groups 0 and 1, in an image of one slot and two groups.
#[tactic(auto, unfolding(ice_base::specs::Lots::is_sited, ice_base::specs::Lots::lies_below))]
pub(crate) fn lot() -> Lot
    ensures sited { is_sited result 800 ≡ true }
    ensures groups { length result.groups ≡ 2 }
{
    let mut lot = Lot::new(0, 288);
    lot.push(0);
    lot.push(1);
    lot
}

fn put_block<D: Disk>(rt: &impl Abort, disk: &mut D, at: u32, block: &Block) {
    assert!(rt; at < disk.blocks());
    assert!(rt; disk.write(at, block).is_ok());
}

/// Makes a disk fresh, with an empty file as inode 1.
pub(crate) fn make_fresh<D: Disk>(rt: &impl Abort, disk: &mut D) {
    let mut block = [0; 1024];
    write_u32(&mut block, 28, 2);
    put_block(rt, disk, 32, &block);
    let mut bitmap = [0; 1024];
    bitmap[0] = 0xff;
    bitmap[1] = 0x01;
    put_block(rt, disk, 544, &bitmap);
    bitmap[32] = 0x03;
    put_block(rt, disk, 288, &bitmap);
    let mut inodes = [0; 1024];
    inodes[0] = 2;
    inodes[128] = 1;
    put_block(rt, disk, 289, &inodes);
}

/// The bytes of the file: byte i is `i mod 251`.
fn bytes(alloc: Global) -> Result<Vec<u8>, AllocError> {
    let mut bytes = vec![in alloc; 0u8; SIZE]?;
    for (i, byte) in bytes.iter_mut().enumerate() {
        *byte = (i % 251) as u8;
    }
    Ok(bytes)
}

fn write<D: Disk>(rt: &impl Abort, disk: &mut D, at: usize, bytes: &[u8]) -> Result<(), OpFault> {
    assert!(rt; disk.blocks() == 800);
    assert!(rt; at <= SIZE && bytes.len() <= 16384);
    assert!(rt; at + bytes.len() <= SIZE);
    write_at::<D, ThroughKeep, BitPool, FormOne>(
        &mut ThroughKeep::new(),
        &mut BitPool::new(),
        disk,
        &lot(),
        1,
        at as u32,
        bytes,
    )
}

fn read<D: Disk>(
    rt: &impl Abort,
    disk: &mut D,
    at: usize,
    len: usize,
    room: &mut Room,
) -> Result<(), OpFault> {
    assert!(rt; disk.blocks() == 800);
    assert!(rt; at <= SIZE && len <= 16384);
    room.clear();
    read_at::<D, ThroughKeep, FormOne>(
        &mut ThroughKeep::new(),
        disk,
        &lot(),
        1,
        at as u32,
        len as u32,
        room,
    )
}

fn cut<D: Disk>(rt: &impl Abort, disk: &mut D, len: u32) -> Result<(), OpFault> {
    assert!(rt; disk.blocks() == 800);
    cut_to::<D, ThroughKeep, BitPool, FormOne>(
        &mut ThroughKeep::new(),
        &mut BitPool::new(),
        disk,
        &lot(),
        1,
        len,
    )
}

fn inode<D: Disk>(rt: &impl Abort, disk: &mut D) -> Result<Inode, OpFault> {
    assert!(rt; disk.blocks() == 800);
    get_inode::<D, ThroughKeep, FormOne>(&mut ThroughKeep::new(), disk, &lot(), 1)
}

/// How many blocks are free, the size, and the pointers 0, 1, 11 and to the indirect block.
fn shape<D: Disk>(rt: &impl Abort, disk: &mut D) -> Shape {
    assert!(rt; disk.blocks() == 800);
    let free = BitPool::new().free_blocks(&mut ThroughKeep::new(), disk, &lot());
    let inode = inode(rt, disk);
    match (free, inode) {
        (Ok(free), Ok(i)) => (
            free,
            i.size,
            i.direct[0],
            i.direct[1],
            i.direct[11],
            i.single,
        ),
        _ => (0, 0, 0, 0, 0, 0),
    }
}

/// Reads the file in pieces of this length from `from` on.
fn read_pieces<D: Disk>(
    rt: &impl Abort,
    disk: &mut D,
    room: &mut Room,
    bytes: &[u8],
    from: usize,
    piece: usize,
) {
    assert!(rt; 1 <= piece && piece <= 16384);
    let mut at = from;
    for chunk in bytes.chunks(piece) {
        let _read = read(rt, disk, at, piece, room);
        assert!(rt; room.bytes() == chunk, "at {at}");
        at = at.saturating_add(chunk.len());
    }
}

/// Writes all of the bytes in pieces of 16,384.
fn write_all<D: Disk>(rt: &impl Abort, disk: &mut D, bytes: &[u8]) {
    let mut at = 0usize;
    for chunk in bytes.chunks(16384) {
        let written = write(rt, disk, at, chunk);
        assert!(rt; written == Ok(()), "at {at}");
        at = at.saturating_add(chunk.len());
    }
}

/// How many blocks are free, the size, and four pointers, as `shape` gives them.
type Shape = (u32, u32, u32, u32, u32, u32);

/// Lengths to which the file is cut, one after the other, and its shape then.
const CUTS: [(u32, Shape); 4] = [
    (12_289, (480, 12_289, 9, 10, 20, 22)),
    (12_288, (482, 12_288, 9, 10, 20, 0)),
    (1, (493, 1, 9, 0, 0, 0)),
    (0, (494, 0, 0, 0, 0, 0)),
];

/// Writes the whole file.
fn write_file(rt: &impl Abort, disk: &mut MemHost, bytes: &[u8]) {
    make_fresh(rt, disk);
    let before = shape(rt, disk);
    write_all(rt, disk, bytes);
    let after = shape(rt, disk);
    assert_eq!(rt;
        (before, after),
        ((494, 0, 0, 0, 0, 0), (225, 274_432, 9, 10, 20, 22))
    );
}

const PIECES: [usize; 5] = [1, 1023, 1024, 1025, 16384];

fn read_file(rt: &impl Abort, disk: &mut MemHost, room: &mut Room, bytes: &[u8]) {
    for piece in &PIECES {
        read_pieces(rt, disk, room, bytes, 0, *piece);
    }
}

fn cut_file(rt: &impl Abort, disk: &mut MemHost, room: &mut Room, bytes: &[u8]) {
    for (len, want) in &CUTS {
        let done = cut(rt, disk, *len);
        assert!(rt; done == Ok(()) && shape(rt, disk) == *want, "{len} bytes");
        assert!(rt; bytes.len() >= *len as usize);
        read_pieces(rt, disk, room, &bytes[..*len as usize], 0, 1025);
    }
}

#[test]
fn the_longest_file_is_written_read_and_cut(rt: HostRuntime) -> Result<(), Fail> {
    let mut disk = MemHost::new(rt.alloc(), 800)?;
    let mut room = Room::new(rt.alloc())?;
    let bytes = bytes(rt.alloc())?;
    write_file(&rt, &mut disk, &bytes);
    read_file(&rt, &mut disk, &mut room, &bytes);
    cut_file(&rt, &mut disk, &mut room, &bytes);
    Ok(())
}

/// Writes 1,030 bytes, and nothing before and behind them.
fn write_short(rt: &impl Abort, disk: &mut MemHost) {
    make_fresh(rt, disk);
    let written = [
        write(rt, disk, 0, &[]),
        write(rt, disk, 0, &[7; 1030]),
        write(rt, disk, 1030, &[]),
    ];
    assert_eq!(rt; written, [Ok(()); 3]);
    assert_eq!(rt; shape(rt, disk), (492, 1030, 9, 10, 0, 0));
}

/// Places and lengths of reads of that file, and how many bytes are read.
const READS: [(usize, usize, usize); 4] = [(1030, 1, 0), (1029, 9, 1), (1020, 9, 9), (0, 0, 0)];

fn read_short(rt: &impl Abort, disk: &mut MemHost, room: &mut Room) {
    for (at, len, want) in &READS {
        let done = read(rt, disk, *at, *len, room);
        assert!(rt; done == Ok(()) && room.bytes().len() == *want, "at {at}");
    }
}

/// What calls past the end of that file answer.
fn past_end(rt: &impl Abort, disk: &mut MemHost, room: &mut Room) {
    let kind = OpFault::Damaged(Rule::Kind);
    let found = [
        read(rt, disk, 1031, 0, room),
        write(rt, disk, 1031, b"x"),
        cut(rt, disk, 1031),
    ];
    assert_eq!(rt; found, [Err(kind); 3]);
}

/// Cuts that file, and writes over its end.
fn write_over_end(rt: &impl Abort, disk: &mut MemHost, room: &mut Room) {
    let done = [
        cut(rt, disk, 1022),
        write(rt, disk, 1021, b"abcd"),
        read(rt, disk, 1019, 100, room),
    ];
    assert_eq!(rt; done, [Ok(()); 3]);
    assert_eq!(rt; room.bytes(), b"\x07\x07abcd".as_slice());
    assert_eq!(rt; shape(rt, disk), (492, 1025, 9, 10, 0, 0));
}

#[test]
fn the_end_is_exact(rt: HostRuntime) -> Result<(), Fail> {
    let mut disk = MemHost::new(rt.alloc(), 800)?;
    let mut room = Room::new(rt.alloc())?;
    write_short(&rt, &mut disk);
    read_short(&rt, &mut disk, &mut room);
    past_end(&rt, &mut disk, &mut room);
    write_over_end(&rt, &mut disk, &mut room);
    Ok(())
}

/// What a read, a write at this place and a cut answer.
fn answers(
    rt: &impl Abort,
    disk: &mut MuteHost,
    room: &mut Room,
    at: usize,
) -> [Result<(), OpFault>; 3] {
    [
        read(rt, disk, 0, 1, room),
        write(rt, disk, at, b"x"),
        cut(rt, disk, 0),
    ]
}

/// Inode 1 is a file of five bytes whose first block is 8, which holds no data.
fn put_foreign(rt: &impl Abort, disk: &mut MuteHost) {
    let mut inodes = [0; 1024];
    inodes[128] = 1;
    inodes[132] = 5;
    inodes[136] = 8;
    put_block(rt, disk, 289, &inodes);
}

#[test]
fn a_foreign_inode_is_named(rt: HostRuntime) -> Result<(), Fail> {
    let host = MemHost::new(rt.alloc(), 800)?;
    let mut disk = MuteHost { host };
    let mut room = Room::new(rt.alloc())?;
    let kind = OpFault::Damaged(Rule::Kind);
    assert_eq!(rt; answers(&rt, &mut disk, &mut room, 0), [Err(kind); 3]);
    make_fresh(&rt, &mut disk);
    assert_eq!(rt; write(&rt, &mut disk, 0, b"x"), Ok(()));
    put_foreign(&rt, &mut disk);
    let pointer = OpFault::Damaged(Rule::Pointer);
    assert_eq!(rt; answers(&rt, &mut disk, &mut room, 4), [Err(pointer); 3]);
    Ok(())
}
