//! The largest lot, block by block: 64 groups, and every inode used. The root has 63 directories of 64 files of three blocks.
ghost use Rattle.std.specs.Prelude.{◌≡◌, ◌≤◌, ◌<◌, ◌+◌, ◌*◌, true, length};
ghost use Rattle.ice_base.specs.Lots.{is_sited};

use ice_base::{Block, Disk, DiskFault, Lot, write_u32};
use ice_bits::set;

/// The blocks of an image of one slot and 64 groups.
pub const BLOCKS: u32 = 16672;

/// The first block of group 0 of the image.
const BASE: u32 = 288;

const FILE: u8 = 1;

const DIR: u8 = 2;

/// The lot of slot 0 with the groups 0 to 63.
pub fn all_groups() -> Lot
    ensures sited { is_sited result 16672 ≡ true }
    ensures groups { length result.groups ≡ 64 }
{
    let mut lot = Lot::new(0, 288);
    for group in 0..64u16 {
        lot.push(group);
    }
    lot
}

fn sub_super() -> Block {
    let mut block = [0; 1024];
    for (place, value) in [
        (0usize, 0x4365_6349u32),
        (4, 1),
        (24, 4 + 63 * 196),
        (28, 4096),
    ] {
        write_u32(&mut block, place, value);
    }
    block
}

/// The bitmap block of a group. All its inodes are used. The group of the root has four used blocks, each other one those of a
/// directory and its files.
fn bitmap(group: u32) -> Block {
    let mut block = [0; 1024];
    let used = if group == 0 { 13 } else { 205u32 };
    for place in 0..256u32 {
        if place < used {
            set(&mut block, false, place);
        }
    }
    for inode in 0..64u32 {
        set(&mut block, true, inode);
    }
    block
}

/// Puts an inode whose map is so many blocks, one after another.
fn put_inode(block: &mut Block, index: u32, kind: u8, size: u32, first: u32, count: u32)
    requires index { index < 8 }
    requires count { count ≤ 4 }
    requires first { first < 16384 }
{
    let place = 128 * index as usize;
    block[place] = kind;
    write_u32(block, place + 4, size);
    for k in 0..count {
        write_u32(block, place + 8 + 4 * k as usize, first + k);
    }
}

/// A block of inodes. Those of group 0 are the root and its directories, those of each other group the files of one directory.
/// A directory's entries lie in the group of its files.
fn inodes(group: u32, place: u32) -> Block
    requires group { group < 64 }
    requires place { place < 8 }
{
    let mut block = [0; 1024];
    for index in 0..8u32 {
        let i = 8 * place + index;
        if group > 0 {
            let first = 256 * group + 13 + 3 * i;
            put_inode(&mut block, index, FILE, 3072, first, 3);
        } else if i > 0 {
            put_inode(&mut block, index, DIR, 64, 256 * i + 9, 4);
        } else {
            put_inode(&mut block, index, DIR, 63, 9, 4);
        }
    }
    block
}

/// A block of entries of the root, or of the directory whose files are the inodes of the group. Each name is two letters.
fn entries(group: u32, place: u32) -> Block
    requires group { group < 64 }
    requires place { place < 4 }
{
    let mut block = [0; 1024];
    for index in 0..16u32 {
        let k = 16 * place + index;
        let inode = if group > 0 { 64 * group + k } else { k + 1 };
        if group > 0 || k < 63 {
            let at = 64 * index as usize;
            write_u32(&mut block, at, inode);
            block[at + 4] = 2;
            block[at + 5] = b'a' + place as u8;
            block[at + 6] = b'a' + index as u8;
        }
    }
    block
}

fn put<D: Disk>(disk: &mut D, at: u32, block: &Block) -> Result<(), DiskFault> {
    if at >= disk.blocks() {
        return Err(DiskFault::Failed);
    }
    disk.write(at, block)
}

fn fill_group<D: Disk>(disk: &mut D, group: u32) -> Result<(), DiskFault>
    requires { group < 64 }
{
    let first = BASE + 256 * group;
    put(disk, first, &bitmap(group))?;
    for place in 0..8u32 {
        put(disk, first + 1 + place, &inodes(group, place))?;
    }
    for place in 0..4u32 {
        put(disk, first + 9 + place, &entries(group, place))?;
    }
    Ok(())
}

/// Writes the blocks of the lot but those of its files, which no check reads, and settles them.
pub fn fill<D: Disk>(disk: &mut D) -> Result<(), DiskFault> {
    put(disk, 32, &sub_super())?;
    for group in 0..64u32 {
        fill_group(disk, group)?;
    }
    disk.barrier()
}
