//! Fresh lots of one or two groups, for tests and stored runs.
#![tactic(auto)]

ghost use Rattle.std.specs.Prelude.{◌≡◌, ◌≤◌, ◌<◌, true, length};
ghost use Rattle.ice_base.specs.Lots.{is_sited};

use disk_mem::MemHost;
use ice_base::{Block, Disk, DiskFault, Lot, write_u32};
use std::alloc::{AllocError, Global};

/// The blocks of an image of one slot and two groups.
pub const BLOCKS: u32 = 800;

/// The block of the sub-super block of slot 0.
pub const SUB_BLOCK: u32 = 32;

/// The bitmap block of group 0. The blocks of its inodes follow.
pub const BITMAP: u32 = 288;

/// The block of the inodes 0 to 7 of group 0, each of 128 bytes.
pub const INODES: u32 = 289;

/// The bitmap block of group 1.
pub const SECOND_BITMAP: u32 = 544;

/// The lot of slot 0 with group 0, in an image of one slot.
#[tactic(auto, unfolding(ice_base::specs::Lots::is_sited, ice_base::specs::Lots::lies_below))]
pub fn one_group() -> Lot
    ensures narrow { is_sited result 544 ≡ true }
    ensures wide { is_sited result 800 ≡ true }
    ensures groups { length result.groups ≡ 1 }
{
    let mut lot = Lot::new(0, 288);
    lot.push(0);
    lot
}

/// The lot of slot 0 with the groups 0 and 1, in an image of one slot.
#[tactic(auto, unfolding(ice_base::specs::Lots::is_sited, ice_base::specs::Lots::lies_below))]
pub fn two_groups() -> Lot
    ensures sited { is_sited result 800 ≡ true }
    ensures groups { length result.groups ≡ 2 }
{
    let mut lot = Lot::new(0, 288);
    lot.push(0);
    lot.push(1);
    lot
}

/// The bitmap block of a fresh group: its own nine blocks are used, and of its inodes those of `nodes`.
fn bitmap(nodes: u8) -> Block {
    let mut block = [0; 1024];
    block[0] = 0xff;
    block[1] = 0x01;
    block[32] = nodes;
    block
}

/// Writes a fresh lot by hand: no block and one inode used, inode 0 an empty directory. The bitmap of group 1 is written where the
/// disk has it.
pub fn write_fresh<D: Disk>(disk: &mut D) -> Result<(), DiskFault>
    requires { 544 ≤ (D.state disk.old).size }
{
    let mut sub = [0; 1024];
    write_u32(&mut sub, 0, 0x4365_6349);
    write_u32(&mut sub, 4, 1);
    write_u32(&mut sub, 28, 1);
    let mut inodes = [0; 1024];
    inodes[0] = 2;
    let blocks = disk.blocks();
    disk.write(SUB_BLOCK, &sub)?;
    disk.write(BITMAP, &bitmap(1))?;
    disk.write(INODES, &inodes)?;
    if blocks > SECOND_BITMAP {
        disk.write(SECOND_BITMAP, &bitmap(0))?;
    }
    Ok(())
}

/// A host of 800 blocks with a fresh lot, and no call made yet.
pub fn fresh(alloc: Global) -> Result<MemHost, AllocError> {
    let mut host = MemHost::new(alloc, BLOCKS)?;
    if host.blocks() != BLOCKS || write_fresh(&mut host).is_err() {
        return Err(AllocError);
    }
    let calls = host.calls();
    host.crashed(alloc, calls, 1)
}
