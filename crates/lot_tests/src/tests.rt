//! Worked blocks: a lot of one group, and its bitmap with the bytes ff 01, so that the first free block is 9 and the first free inode is 1.
ghost use Rattle.std.specs.Prelude.{◌≡◌, ◌<◌, ◌≤◌, true, length};
ghost use Rattle.ice_base.specs.Lots.{is_sited};

use crate::ram::Ram;
use ice_base::{
    Block, BlockFault, Disk, Form, FormOne, Keep, Lot, OpFault, Pool, Rule, SUB, View, read_u32,
    write_u32,
};
use ice_bits::{bit, clear, count, first_clear, set};
use ice_keep::{ListKeep, ThroughKeep};
use ice_pool::BitPool;
use std::alloc::Global;
use std::test::Fail;

/// The lot of slot 0 with group 0, in an image of one slot and one group.
#[tactic(auto, unfolding(ice_base::specs::Lots::is_sited, ice_base::specs::Lots::lies_below))]
fn lot() -> Lot
    ensures sited { is_sited result 544 ≡ true }
    ensures groups { length result.groups ≡ 1 }
{
    let mut lot = Lot::new(0, 288);
    lot.push(0);
    lot
}

/// A fresh disk: block 32 counts one inode, and block 288 is the bitmap.
fn disk(rt: &HostRuntime) -> Result<Ram, Fail> {
    let mut disk = Ram::new(rt.alloc())?;
    let mut block = [0; 1024];
    write_u32(&mut block, 28, 1);
    disk.write(32, &block)?;
    let mut bitmap = [0; 1024];
    bitmap[0] = 0xff;
    bitmap[1] = 0x01;
    bitmap[32] = 0x01;
    disk.write(288, &bitmap)?;
    Ok(disk)
}

/// Addresses of the lot of slot 2 with the groups 5 and 0, with their places.
const PLACES: [(u32, Option<u32>); 7] = [
    (0, Some(2336)),
    (255, Some(2591)),
    (256, Some(1056)),
    (511, Some(1311)),
    (512, None),
    (SUB, Some(544)),
    (SUB - 1, None),
];

/// That lot, in an image of four slots.
fn two_groups() -> Lot {
    let mut lot = Lot::new(2, 1056);
    lot.push(5);
    lot.push(0);
    lot
}

#[test]
fn addresses_have_their_places(rt: HostRuntime) {
    let lot = two_groups();
    for (at, want) in &PLACES {
        assert!(rt; lot.place(*at) == *want, "at {at}");
    }
}

#[test]
fn a_lot_has_its_places(rt: HostRuntime) {
    let lot = two_groups();
    let places = [lot.gate(), lot.header(), lot.body(0), lot.body(239)];
    assert_eq!(rt; places, [545, 546, 547, 786]);
    assert_eq!(rt; (lot.slot(), lot.len(), lot.copy().len()), (2, 2, 2));
}

#[test]
fn form_one_has_its_sizes(rt: HostRuntime) {
    assert_eq!(rt;
        (
            FormOne::VERSION,
            FormOne::ENTRY,
            FormOne::NAME,
            FormOne::DOUBLE
        ),
        (1, 64, 59, false)
    );
}

/// The bytes 0, 1, 32 and 39.
fn bytes_of(block: &Block) -> [u8; 4] {
    [block[0], block[1], block[32], block[39]]
}

#[test]
fn bits_stand_in_their_bytes(rt: HostRuntime) {
    let mut block: Block = [0; 1024];
    block[0] = 0xff;
    block[1] = 0x01;
    block[32] = 0x01;
    let counts = (count(&block, false), count(&block, true));
    let clears = (first_clear(&block, false), first_clear(&block, true));
    assert_eq!(rt; (counts, clears), ((9, 1), (Some(9), Some(1))));
    set(&mut block, false, 9);
    set(&mut block, true, 63);
    clear(&mut block, false, 0);
    assert_eq!(rt; bytes_of(&block), [0xfe, 0x03, 0x01, 0x80]);
    let bits = [
        bit(&block, false, 9),
        bit(&block, false, 10),
        bit(&block, true, 63),
    ];
    assert_eq!(rt; bits, [true, false, true]);
}

// The calls of a pool over the lot and a keep that writes home at once. What they promise stays behind.

#[tactic(auto, using(ice_base::proofs::SpareLaws::room_laws, ice_base::proofs::UsedLaws::group_laws))]
fn take_block(pool: &mut BitPool, keep: &mut ThroughKeep, disk: &mut Ram) -> Result<u32, OpFault> {
    pool.take_block(keep, disk, &lot())
}

#[tactic(auto, using(ice_base::proofs::SpareLaws::room_laws, ice_base::proofs::UsedLaws::group_laws))]
fn free_blocks(pool: &mut BitPool, keep: &mut ThroughKeep, disk: &mut Ram) -> Result<u32, OpFault> {
    pool.free_blocks(keep, disk, &lot())
}

#[tactic(auto, using(ice_base::proofs::SpareLaws::room_laws, ice_base::proofs::UsedLaws::group_laws))]
fn take_inode(pool: &mut BitPool, keep: &mut ThroughKeep, disk: &mut Ram) -> Result<u32, OpFault> {
    pool.take_inode(keep, disk, &lot())
}

#[tactic(auto, using(ice_base::proofs::SpareLaws::room_laws, ice_base::proofs::UsedLaws::group_laws))]
fn free_inodes(pool: &mut BitPool, keep: &mut ThroughKeep, disk: &mut Ram) -> Result<u32, OpFault> {
    pool.free_inodes(keep, disk, &lot())
}

#[tactic(auto, using(ice_base::proofs::SpareLaws::room_laws, ice_base::proofs::UsedLaws::group_laws))]
fn give_block(
    pool: &mut BitPool,
    keep: &mut ThroughKeep,
    disk: &mut Ram,
    at: u32,
) -> Result<(), OpFault>
    requires { (9 ≤ at) × (at < 256) }
{
    pool.give_block(keep, disk, &lot(), at)
}

#[tactic(auto, using(ice_base::proofs::SpareLaws::room_laws, ice_base::proofs::UsedLaws::group_laws))]
fn give_inode(
    pool: &mut BitPool,
    keep: &mut ThroughKeep,
    disk: &mut Ram,
    inode: u32,
) -> Result<(), OpFault>
    requires { inode < 64 }
{
    pool.give_inode(keep, disk, &lot(), inode)
}

fn get(keep: &mut ThroughKeep, disk: &mut Ram, at: u32) -> Result<Block, BlockFault> {
    let mut block = [0; 1024];
    keep.get(disk, &lot(), at, &mut block)?;
    Ok(block)
}

fn put(keep: &mut ThroughKeep, disk: &mut Ram, at: u32, block: &Block) -> Result<(), BlockFault> {
    keep.put(disk, &lot(), at, block)
}

/// The blocks and the inodes that the sub-super block counts.
fn counts(keep: &mut ThroughKeep, disk: &mut Ram) -> Result<(u32, u32), BlockFault> {
    let sub = get(keep, disk, SUB)?;
    Ok((read_u32(&sub, 24), read_u32(&sub, 28)))
}

#[test]
fn blocks_are_taken_from_nine_on(rt: HostRuntime) -> Result<(), Fail> {
    let mut disk = disk(&rt)?;
    let (mut keep, mut pool) = (ThroughKeep::new(), BitPool::new());
    assert_eq!(rt; free_blocks(&mut pool, &mut keep, &mut disk), Ok(247));
    for k in 9..256 {
        assert!(rt;
            take_block(&mut pool, &mut keep, &mut disk) == Ok(k),
            "block {k}"
        );
    }
    let more = take_block(&mut pool, &mut keep, &mut disk);
    let free = free_blocks(&mut pool, &mut keep, &mut disk);
    let given = give_block(&mut pool, &mut keep, &mut disk, 100);
    let again = take_block(&mut pool, &mut keep, &mut disk);
    assert_eq!(rt;
        (more, free, given, again),
        (Err(OpFault::NoSpace), Ok(0), Ok(()), Ok(100))
    );
    assert_eq!(rt; counts(&mut keep, &mut disk), Ok((247, 1)));
    Ok(())
}

#[test]
fn inodes_are_taken_from_one_on(rt: HostRuntime) -> Result<(), Fail> {
    let mut disk = disk(&rt)?;
    let (mut keep, mut pool) = (ThroughKeep::new(), BitPool::new());
    assert_eq!(rt; free_inodes(&mut pool, &mut keep, &mut disk), Ok(63));
    for k in 1..64 {
        assert!(rt;
            take_inode(&mut pool, &mut keep, &mut disk) == Ok(k),
            "inode {k}"
        );
    }
    let more = take_inode(&mut pool, &mut keep, &mut disk);
    let free = free_inodes(&mut pool, &mut keep, &mut disk);
    let given = give_inode(&mut pool, &mut keep, &mut disk, 5);
    let again = take_inode(&mut pool, &mut keep, &mut disk);
    assert_eq!(rt;
        (more, free, given, again),
        (Err(OpFault::NoNodes), Ok(0), Ok(()), Ok(5))
    );
    assert_eq!(rt; counts(&mut keep, &mut disk), Ok((0, 64)));
    Ok(())
}

const BITMAP: OpFault = OpFault::Damaged(Rule::Bitmap);

const COUNTS: OpFault = OpFault::Damaged(Rule::Counts);

#[test]
fn broken_counts_and_bitmaps_are_named(rt: HostRuntime) -> Result<(), Fail> {
    let mut disk = disk(&rt)?;
    let (mut keep, mut pool) = (ThroughKeep::new(), BitPool::new());
    let block = give_block(&mut pool, &mut keep, &mut disk, 10);
    let inode = give_inode(&mut pool, &mut keep, &mut disk, 1);
    assert_eq!(rt; [block, inode], [Err(BITMAP); 2]);
    let mut sub = [0; 1024];
    let zeros = put(&mut keep, &mut disk, SUB, &sub);
    let none = give_inode(&mut pool, &mut keep, &mut disk, 0);
    assert_eq!(rt; (zeros, none), (Ok(()), Err(COUNTS)));
    write_u32(&mut sub, 24, 0xFFFF_FFFF);
    let most = put(&mut keep, &mut disk, SUB, &sub);
    let full = take_block(&mut pool, &mut keep, &mut disk);
    let one = take_inode(&mut pool, &mut keep, &mut disk);
    assert_eq!(rt; (most, full, one), (Ok(()), Err(COUNTS), Ok(1)));
    let cleared = put(&mut keep, &mut disk, 0, &[0; 1024]);
    let taken = take_block(&mut pool, &mut keep, &mut disk);
    assert_eq!(rt; (cleared, taken), (Ok(()), Err(BITMAP)));
    Ok(())
}

#[test]
fn a_keep_has_the_addresses_of_the_lot_alone(rt: HostRuntime) -> Result<(), Fail> {
    let mut disk = disk(&rt)?;
    let mut keep = ThroughKeep::new();
    assert!(rt; get(&mut keep, &mut disk, 256).err() == Some(BlockFault::Range));
    assert!(rt; put(&mut keep, &mut disk, 256, &[0; 1024]) == Err(BlockFault::Range));
    Ok(())
}

/// Takes the first free block by a keep that has room for two, and says what room there was before and what there is then.
#[tactic(auto, using(ice_base::proofs::SpareLaws::room_laws))]
fn take_two(
    pool: &mut BitPool,
    disk: &mut Ram,
    alloc: Global,
) -> Result<(ListKeep, [u32; 2], Result<u32, OpFault>), Fail> {
    let mut keep = ListKeep::new(alloc, 2)?;
    let before = <ListKeep as Keep<Ram>>::spare(&keep);
    let taken = pool.take_block(&mut keep, disk, &lot());
    let after = <ListKeep as Keep<Ram>>::spare(&keep);
    Ok((keep, [before, after], taken))
}

/// The bytes 0, 1 and 32 of the bitmap, as the keep has it and as the disk does, and the free blocks that the pool finds.
fn bitmaps(pool: &mut BitPool, keep: &mut ListKeep, disk: &mut Ram) -> Option<([[u8; 3]; 2], u32)> {
    let (mut held, mut home) = ([0; 1024], [0; 1024]);
    keep.get(disk, &lot(), 0, &mut held).ok()?;
    disk.read(288, &mut home).ok()?;
    let free = pool.free_blocks(keep, disk, &lot()).ok()?;
    let bytes = [[held[0], held[1], held[32]], [home[0], home[1], home[32]]];
    Some((bytes, free))
}

#[test]
fn two_blocks_are_held_back(rt: HostRuntime) -> Result<(), Fail> {
    let mut disk = disk(&rt)?;
    let mut pool = BitPool::new();
    let (mut keep, room, taken) = take_two(&mut pool, &mut disk, rt.alloc())?;
    assert_eq!(rt; (room, taken), ([2, 0], Ok(9)));
    assert_eq!(rt;
        bitmaps(&mut pool, &mut keep, &mut disk),
        Some(([[0xff, 0x03, 0x01], [0xff, 0x01, 0x01]], 246))
    );
    Ok(())
}
