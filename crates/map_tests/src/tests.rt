//! Worked blocks: a fresh lot of one group, with the bitmap bytes ff 01, so that the first free block is 9.
ghost use Rattle.std.specs.Prelude.{◌≡◌, true, length};
ghost use Rattle.ice_base.specs.Lots.{is_sited};

use disk_mem::{MemHost, MuteHost};
use ice_base::{
    Block, BlockFault, Disk, FormOne, Keep, Lot, OpFault, Pool, Rule, SUB, View, read_u32,
    write_u32,
};
use ice_keep::{ListKeep, ThroughKeep};
use ice_map::{Inode, cut, extend, get_inode, nth, put_inode, read_inode, write_inode};
use ice_pool::BitPool;
use std::process::Abort;
use std::test::Fail;

/// The lot of slot 0 with group 0, in an image of one slot and one group.
#[tactic(auto, unfolding(ice_base::specs::Lots::is_sited, ice_base::specs::Lots::lies_below))]
fn lot() -> Lot
    ensures sited { is_sited result 544 ≡ true }
    ensures groups { length result.groups ≡ 1 }
{
    let mut lot = Lot::new(0, 288);
    lot.push(0);
    lot
}

fn write<D: Disk>(rt: &impl Abort, disk: &mut D, at: u32, block: &Block) {
    assert!(rt; at < disk.blocks());
    assert!(rt; disk.write(at, block).is_ok());
}

/// Makes a disk fresh: block 32 counts one inode, and block 288 is the bitmap.
fn make_fresh<D: Disk>(rt: &impl Abort, disk: &mut D) {
    let mut block = [0; 1024];
    write_u32(&mut block, 28, 1);
    write(rt, disk, 32, &block);
    let mut bitmap = [0; 1024];
    bitmap[0] = 0xff;
    bitmap[1] = 0x01;
    bitmap[32] = 0x01;
    write(rt, disk, 288, &bitmap);
}

fn empty() -> Inode {
    Inode {
        kind: 1,
        size: 0,
        direct: [0; 12],
        single: 0,
        double: 0,
    }
}

fn grow<D: Disk, K: Keep<D>>(
    rt: &impl Abort,
    keep: &mut K,
    disk: &mut D,
    inode: &mut Inode,
    count: u32,
) -> Result<u32, OpFault> {
    assert!(rt; disk.blocks() == 544);
    assert!(rt; count < 268);
    assert!(rt; keep.spare() >= 6);
    extend::<D, K, BitPool, FormOne>(keep, &mut BitPool::new(), disk, &lot(), inode, count)
}

#[tactic(auto, using(std::proofs::lemmas::Bool::Decides::nat_tests))]
fn shrink<D: Disk, K: Keep<D>>(
    rt: &impl Abort,
    keep: &mut K,
    disk: &mut D,
    inode: &mut Inode,
    count: u32,
    rest: u32,
) -> Result<(), OpFault> {
    assert!(rt; disk.blocks() == 544);
    assert!(rt; rest <= count && count <= 268);
    let room = if count <= rest + 1 { 6 } else { 66 };
    assert!(rt; keep.spare() >= room);
    cut::<D, K, BitPool, FormOne>(keep, &mut BitPool::new(), disk, &lot(), inode, count, rest)
}

fn block_of<D: Disk, K: Keep<D>>(
    rt: &impl Abort,
    keep: &mut K,
    disk: &mut D,
    inode: &Inode,
    n: u32,
) -> Result<u32, OpFault> {
    assert!(rt; disk.blocks() == 544);
    assert!(rt; n < 268);
    nth::<D, K, FormOne>(keep, disk, &lot(), inode, n)
}

fn free<D: Disk, K: Keep<D>>(rt: &impl Abort, keep: &mut K, disk: &mut D) -> Result<u32, OpFault> {
    assert!(rt; disk.blocks() == 544);
    BitPool::new().free_blocks(keep, disk, &lot())
}

/// The count of used blocks in the sub-super block.
fn used<D: Disk, K: Keep<D>>(
    rt: &impl Abort,
    keep: &mut K,
    disk: &mut D,
) -> Result<u32, BlockFault> {
    assert!(rt; disk.blocks() == 544);
    let mut sub = [0; 1024];
    keep.get(disk, &lot(), SUB, &mut sub)?;
    Ok(read_u32(&sub, 24))
}

/// Gives the map the 246 blocks that there are beside its indirect block, and sees that there is no further one.
fn fill_the_group<K: Keep<MemHost>>(
    rt: &impl Abort,
    keep: &mut K,
    disk: &mut MemHost,
    inode: &mut Inode,
) {
    for count in 0..246u32 {
        let want = if count < 13 { 9 + count } else { 10 + count };
        assert_eq!(rt; grow(rt, keep, disk, inode, count), Ok(want), "at {count}");
    }
    assert_eq!(rt;
        (inode.direct[0], inode.direct[11], inode.single, inode.kind),
        (9, 20, 22, 1)
    );
    assert_eq!(rt;
        (used(rt, keep, disk), free(rt, keep, disk)),
        (Ok(247), Ok(0))
    );
    assert_eq!(rt; grow(rt, keep, disk, inode, 246), Err(OpFault::NoSpace));
    assert_eq!(rt;
        (
            block_of(rt, keep, disk, inode, 11),
            block_of(rt, keep, disk, inode, 12),
            block_of(rt, keep, disk, inode, 245)
        ),
        (Ok(20), Ok(21), Ok(255))
    );
}

#[test]
fn a_map_grows_to_a_full_group_and_is_cut_to_twelve(rt: HostRuntime) -> Result<(), Fail> {
    let mut disk = MemHost::new(rt.alloc(), 544)?;
    make_fresh(&rt, &mut disk);
    let mut keep = ThroughKeep::new();
    let mut inode = empty();
    fill_the_group(&rt, &mut keep, &mut disk, &mut inode);
    for (count, rest, left, single) in [(246, 13, 233, 22), (13, 12, 235, 0), (12, 1, 246, 0)] {
        assert_eq!(rt;
            shrink(&rt, &mut keep, &mut disk, &mut inode, count, rest),
            Ok(())
        );
        assert_eq!(rt;
            (free(&rt, &mut keep, &mut disk), inode.single),
            (Ok(left), single)
        );
        assert_eq!(rt; used(&rt, &mut keep, &mut disk), Ok(247 - left));
        assert_eq!(rt; inode.direct[11], if rest < 12 { 0 } else { 20 });
    }
    assert_eq!(rt; (inode.direct[0], inode.direct[1]), (9, 0));
    Ok(())
}

/// Puts the inode as number 9.
fn put<D: Disk, K: Keep<D>>(
    rt: &impl Abort,
    keep: &mut K,
    disk: &mut D,
    inode: &Inode,
) -> Result<(), OpFault> {
    assert!(rt; disk.blocks() == 544);
    assert!(rt; keep.spare() >= 1);
    put_inode::<D, K, BitPool, FormOne>(keep, &mut BitPool::new(), disk, &lot(), 9, inode)
}

/// What a map cut to its direct blocks leaves: 12 used blocks in the keep, and a disk that is as it was.
fn see_twelve_held_back(
    rt: &impl Abort,
    keep: &mut ListKeep,
    disk: &mut MemHost,
    inode: &Inode,
    writes: u64,
) {
    assert_eq!(rt;
        (used(rt, keep, disk), free(rt, keep, disk)),
        (Ok(12), Ok(235))
    );
    assert_eq!(rt;
        (inode.direct[0], inode.direct[11], inode.single),
        (9, 20, 0)
    );
    assert_eq!(rt; block_of(rt, keep, disk, inode, 11), Ok(20));
    assert_eq!(rt; disk.writes(), writes);
    let mut through = ThroughKeep::new();
    assert_eq!(rt;
        (used(rt, &mut through, disk), free(rt, &mut through, disk)),
        (Ok(0), Ok(247))
    );
}

#[test]
fn a_keep_of_ten_blocks_holds_the_map_and_its_234_cuts(rt: HostRuntime) -> Result<(), Fail> {
    let mut disk = MemHost::new(rt.alloc(), 544)?;
    make_fresh(&rt, &mut disk);
    let writes = disk.writes();
    let mut keep = ListKeep::new(rt.alloc(), 10)?;
    let mut inode = empty();
    fill_the_group(&rt, &mut keep, &mut disk, &mut inode);
    assert_eq!(rt; <ListKeep as Keep<MemHost>>::spare(&keep), 7);
    assert_eq!(rt; put(&rt, &mut keep, &mut disk, &inode), Ok(()));
    assert_eq!(rt; <ListKeep as Keep<MemHost>>::spare(&keep), 6);
    for rest in (12..246u32).rev() {
        assert_eq!(rt;
            shrink(&rt, &mut keep, &mut disk, &mut inode, rest + 1, rest),
            Ok(()),
            "at {rest}"
        );
    }
    assert_eq!(rt; put(&rt, &mut keep, &mut disk, &inode), Ok(()));
    assert_eq!(rt; <ListKeep as Keep<MemHost>>::spare(&keep), 6);
    see_twelve_held_back(&rt, &mut keep, &mut disk, &inode, writes);
    Ok(())
}

#[test]
fn a_keep_of_eighty_blocks_holds_the_map_and_its_one_cut(rt: HostRuntime) -> Result<(), Fail> {
    let mut disk = MemHost::new(rt.alloc(), 544)?;
    make_fresh(&rt, &mut disk);
    let writes = disk.writes();
    let mut keep = ListKeep::new(rt.alloc(), 80)?;
    let mut inode = empty();
    fill_the_group(&rt, &mut keep, &mut disk, &mut inode);
    assert_eq!(rt; put(&rt, &mut keep, &mut disk, &inode), Ok(()));
    assert_eq!(rt;
        shrink(&rt, &mut keep, &mut disk, &mut inode, 246, 12),
        Ok(())
    );
    assert_eq!(rt; put(&rt, &mut keep, &mut disk, &inode), Ok(()));
    assert_eq!(rt; <ListKeep as Keep<MemHost>>::spare(&keep), 76);
    see_twelve_held_back(&rt, &mut keep, &mut disk, &inode, writes);
    Ok(())
}

#[test]
fn the_thirteenth_block_needs_two(rt: HostRuntime) -> Result<(), Fail> {
    let mut disk = MemHost::new(rt.alloc(), 544)?;
    make_fresh(&rt, &mut disk);
    let mut keep = ThroughKeep::new();
    let mut other = empty();
    let mut inode = empty();
    for count in 0..234u32 {
        assert!(rt; grow(&rt, &mut keep, &mut disk, &mut other, count).is_ok());
    }
    for count in 0..11u32 {
        assert!(rt; grow(&rt, &mut keep, &mut disk, &mut inode, count).is_ok());
    }
    assert_eq!(rt;
        (
            free(&rt, &mut keep, &mut disk),
            grow(&rt, &mut keep, &mut disk, &mut inode, 11)
        ),
        (Ok(1), Ok(255))
    );
    assert_eq!(rt;
        shrink(&rt, &mut keep, &mut disk, &mut other, 234, 233),
        Ok(())
    );
    assert_eq!(rt;
        grow(&rt, &mut keep, &mut disk, &mut inode, 12),
        Err(OpFault::NoSpace)
    );
    assert_eq!(rt; (free(&rt, &mut keep, &mut disk), inode.single), (Ok(1), 0));
    assert_eq!(rt;
        shrink(&rt, &mut keep, &mut disk, &mut other, 233, 232),
        Ok(())
    );
    assert_eq!(rt; grow(&rt, &mut keep, &mut disk, &mut inode, 12), Ok(242));
    assert_eq!(rt;
        (free(&rt, &mut keep, &mut disk), inode.single),
        (Ok(0), 243)
    );
    Ok(())
}

#[test]
fn an_inode_has_its_bytes(rt: HostRuntime) {
    let mut block = [0xff; 1024];
    let mut inode = empty();
    inode.kind = 2;
    inode.size = 1;
    inode.direct[0] = 9;
    inode.double = 0x0403_0201;
    write_inode(&mut block, 3, &inode);
    let want = [2, 0, 0, 0, 1, 0, 0, 0, 9, 0, 0, 0, 0, 0];
    assert_eq!(rt; &block[384..398], want.as_slice());
    assert_eq!(rt; &block[440..450], [0, 0, 0, 0, 1, 2, 3, 4, 0, 0].as_slice());
    assert_eq!(rt; (block[383], block[511], block[512]), (0xff, 0, 0xff));
    let read = read_inode(&block, 3);
    assert_eq!(rt;
        (
            read.kind,
            read.size,
            read.direct[0],
            read.single,
            read.double
        ),
        (2, 1, 9, 0, 0x0403_0201)
    );
}

#[test]
fn inodes_are_held_back_by_a_small_keep(rt: HostRuntime) -> Result<(), Fail> {
    let mut disk = MemHost::new(rt.alloc(), 544)?;
    make_fresh(&rt, &mut disk);
    let writes = disk.writes();
    assert!(rt; disk.blocks() == 544);
    let lot = lot();
    let mut keep = ListKeep::new(rt.alloc(), 2)?;
    let mut inode = empty();
    inode.size = 7;
    assert_eq!(rt; put(&rt, &mut keep, &mut disk, &inode), Ok(()));
    assert!(rt; disk.blocks() == 544);
    let held = get_inode::<MemHost, ListKeep, FormOne>(&mut keep, &mut disk, &lot, 9);
    let home = get_inode::<MemHost, ThroughKeep, FormOne>(
        &mut ThroughKeep::new(),
        &mut disk,
        &lot,
        9,
    );
    assert_eq!(rt;
        (held.map(|i| i.size), home.map(|i| i.size)),
        (Ok(7), Ok(0))
    );
    assert_eq!(rt; disk.writes(), writes);
    Ok(())
}

/// Garbage first: zeros, of which block 0 is no data place. Then a fresh disk, and an inode with pointers at foreign blocks.
fn see_foreign_blocks_named<K: Keep<MuteHost>>(rt: &impl Abort, keep: &mut K, disk: &mut MuteHost) {
    let mut inode = empty();
    assert_eq!(rt;
        grow(rt, keep, disk, &mut inode, 0),
        Err(OpFault::Damaged(Rule::Bitmap))
    );
    make_fresh(rt, disk);
    inode.direct[0] = 8;
    inode.direct[1] = 100;
    inode.single = 256;
    assert_eq!(rt;
        grow(rt, keep, disk, &mut inode, 13),
        Err(OpFault::Damaged(Rule::Pointer))
    );
    assert_eq!(rt;
        (
            block_of(rt, keep, disk, &inode, 0),
            block_of(rt, keep, disk, &inode, 12)
        ),
        (
            Err(OpFault::Damaged(Rule::Pointer)),
            Err(OpFault::Damaged(Rule::Pointer))
        )
    );
    assert_eq!(rt;
        shrink(rt, keep, disk, &mut inode, 2, 1),
        Err(OpFault::Damaged(Rule::Bitmap))
    );
    assert_eq!(rt; inode.direct[1], 100);
}

#[test]
fn foreign_blocks_are_named(rt: HostRuntime) -> Result<(), Fail> {
    let mut disk = MuteHost {
        host: MemHost::new(rt.alloc(), 544)?,
    };
    see_foreign_blocks_named(&rt, &mut ThroughKeep::new(), &mut disk);
    let mut disk = MuteHost {
        host: MemHost::new(rt.alloc(), 544)?,
    };
    let mut keep = ListKeep::new(rt.alloc(), 10)?;
    see_foreign_blocks_named(&rt, &mut keep, &mut disk);
    assert_eq!(rt; <ListKeep as Keep<MuteHost>>::spare(&keep), 10);
    Ok(())
}
