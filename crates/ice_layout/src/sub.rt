//! The sub-super block of a cube, and the blocks of a fresh group.
ghost use Rattle.std.specs.Prelude.{◌≡◌, ◌<◌, true, if◌then◌else◌, Some, IfOk, IfErr};
ghost use Rattle.ice_layout.specs.Subs.{sub_rule, is_proper_sub, IsSub, SubZeros, fresh_bitmap, fresh_inodes, fresh_place};

use ice_base::{
    BLOCKS_AT, Block, DONE_AT, NODES_AT, Rule, read_u32, read_u64, write_u32, write_u64,
};

const MAGIC: u32 = 0x4365_6349;

const VERSION: u32 = 1;

/// What a cube's sub-super block says.
#[derive(Clone, Copy, Debug, PartialEq, Eq)]
pub struct SubSuper {
    /// 1.
    pub version: u32,
    /// The slot of the cube.
    pub slot: u8,
    /// 0.
    pub mode: u8,
    /// The number of accepted commands, below 2^63.
    pub done: u64,
    /// The number of used data blocks and indirect blocks.
    pub blocks: u32,
    /// The number of used inodes.
    pub nodes: u32,
}

/// Writes the sub-super block: `IceC`, the version, slot and mode in a byte each at 8 and 9, the number of accepted commands in eight
/// bytes at 16, the used blocks at 24 and inodes at 28, and zeros.
pub fn write_sub(sub: &SubSuper, into: &mut Block)
    requires { is_proper_sub sub.now ≡ true }
    ensures sub { IsSub sub.now.slot sub.now into.new }
    ensures zeros { SubZeros into.new }
{
    *into = [0; 1024];
    write_u32(into, 0, MAGIC);
    write_u32(into, 4, sub.version);
    into[8] = sub.slot;
    into[9] = sub.mode;
    write_u64(into, DONE_AT, sub.done);
    write_u32(into, BLOCKS_AT, sub.blocks);
    write_u32(into, NODES_AT, sub.nodes);
}

#[tactic(auto, unfolding(crate::specs::Subs::sub_rule))]
/// Reads a slot's sub-super block, or says the first of the rules Magic, Version, Slot, Mode, Done that it breaks.
pub fn read_sub(from: &Block, slot: u8) -> Result<SubSuper, Rule>
    ensures accepts { IfOk result (λ sub. IsSub slot sub from.now) }
    ensures refuses { IfErr result (λ rule. sub_rule slot from.now ≡ Some rule) }
{
    if read_u32(from, 0) != MAGIC {
        return Err(Rule::Magic);
    }
    let version = read_u32(from, 4);
    if version != VERSION {
        return Err(Rule::Version);
    }
    if from[8] != slot {
        return Err(Rule::Slot);
    }
    if from[9] != 0 {
        return Err(Rule::Mode);
    }
    let done = read_u64(from, DONE_AT);
    if done >= 1 << 63 {
        return Err(Rule::Done);
    }
    Ok(SubSuper {
        version,
        slot,
        mode: 0,
        done,
        blocks: read_u32(from, BLOCKS_AT),
        nodes: read_u32(from, NODES_AT),
    })
}

pub(crate) fn byte_if(holds: bool, byte: u8) -> u8
    ensures { result ≡ (if holds then byte else 0) }
{
    if holds { byte } else { 0 }
}

fn fresh_bitmap_block(first: bool, into: &mut Block)
    ensures { into.new ≡ fresh_bitmap first }
{
    *into = [0; 1024];
    into[0] = 0xff;
    into[1] = 1;
    into[32] = byte_if(first, 1);
}

fn fresh_inode_block(root: bool, into: &mut Block)
    ensures { into.new ≡ fresh_inodes root }
{
    *into = [0; 1024];
    into[0] = byte_if(root, 2);
}

/// The bitmap block of a fresh group at place 0, `ff 01` and zeros, or an inode block at the places 1 to 8, zeros. The first group of
/// a cube has its root, inode 0: `01` at 32 of the bitmap block, and kind 2 with size 0 at place 1.
pub fn fresh_group(first: bool, place: u32, into: &mut Block)
    requires { place < 9 }
    ensures { into.new ≡ fresh_place first place }
{
    if place == 0 {
        fresh_bitmap_block(first, into);
    } else {
        fresh_inode_block(first && place == 1, into);
    }
}
