//! Lots of one group in a host in memory.
ghost use Rattle.std.specs.Prelude.{◌≡◌, true, length};
ghost use Rattle.ice_base.specs.Lots.{is_sited};

use disk_mem::MemHost;
use ice_base::{Block, Disk, Lot, write_u32};
use ice_bits::set;
use std::process::Abort;
use std::test::Fail;

/// The blocks of an image of one slot and one group.
pub(crate) const BLOCKS: u32 = 544;

/// The sub-super block.
pub(crate) const SUB: u32 = 32;

/// The gate of the journal. Its header follows, and then the bodies.
pub(crate) const GATE: u32 = 33;

/// The bitmap block.
pub(crate) const BITMAP: u32 = 288;

/// The block of the inodes 0 to 7, each of 128 bytes.
pub(crate) const INODES: u32 = 289;

/// The block of address 9.
pub(crate) const FIRST: u32 = 297;

/// A byte of a block of the image: the block, its place there, and its value.
pub(crate) type Byte = (u32, usize, u8);

/// The lot of slot 0 with group 0.
#[tactic(auto, unfolding(ice_base::specs::Lots::is_sited, ice_base::specs::Lots::lies_below))]
pub(crate) fn one_group() -> Lot
    ensures sited { is_sited result 544 ≡ true }
    ensures groups { length result.groups ≡ 1 }
{
    let mut lot = Lot::new(0, 288);
    lot.push(0);
    lot
}

/// Puts a block into the host's image.
pub(crate) fn put(rt: &impl Abort, host: &mut MemHost, at: u32, block: &Block) {
    assert!(rt; at < host.blocks() && host.calls() == 0);
    host.set_block(at, block);
}

/// The image with these bytes in place of its own.
pub(crate) fn change(rt: &impl Abort, host: &mut MemHost, bytes: &[Byte]) {
    for (at, place, value) in bytes {
        assert!(rt; *at < host.blocks() && host.calls() == 0 && *place < 1024);
        let mut block = *host.block(*at);
        block[*place] = *value;
        host.set_block(*at, &block);
    }
}

/// A directory in a directory and so on, `names` of them below the root: inode `i` has the entry `a` of inode `i + 1` in address `9 + i`.
pub(crate) fn chain(
    rt: &impl Abort,
    alloc: std::alloc::Global,
    names: u32,
) -> Result<MemHost, Fail> {
    let mut host = MemHost::new(alloc, BLOCKS)?;
    let mut sub = [0; 1024];
    write_u32(&mut sub, 0, 0x4365_6349);
    write_u32(&mut sub, 4, 1);
    write_u32(&mut sub, 16, names);
    write_u32(&mut sub, 24, names);
    assert!(rt; names < 32);
    write_u32(&mut sub, 28, names + 1);
    put(rt, &mut host, SUB, &sub);
    let mut bitmap = [0; 1024];
    for block in 0..9 + names {
        set(&mut bitmap, false, block);
    }
    for inode in 0..names + 1 {
        set(&mut bitmap, true, inode);
    }
    put(rt, &mut host, BITMAP, &bitmap);
    for place in 0..4u32 {
        let mut inodes = [0; 1024];
        for index in 0..8u32 {
            let inode = 8 * place + index;
            if inode <= names {
                inodes[128 * index as usize] = 2;
            }
            if inode < names {
                write_u32(&mut inodes, 128 * index as usize + 4, 1);
                write_u32(&mut inodes, 128 * index as usize + 8, 9 + inode);
            }
        }
        put(rt, &mut host, INODES + place, &inodes);
    }
    for inode in 0..names {
        let mut entries = [0; 1024];
        write_u32(&mut entries, 0, inode + 1);
        entries[4] = 1;
        entries[5] = b'a';
        put(rt, &mut host, FIRST + inode, &entries);
    }
    Ok(host)
}
