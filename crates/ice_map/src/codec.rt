//! Inodes as bytes: eight of 128 bytes in a block.
ghost use Rattle.std.specs.Prelude.{◌≡◌, ◌≤◌, ◌<◌, ◌+◌, ◌*◌, ◌⊎◌, ℕ, length, slice_index};
ghost use Rattle.ice_base.specs.Fields.{SameBeside};
ghost use Rattle.ice_base.specs.Inodes.{pointer};
ghost use Rattle.ice_map.specs.Inodes.{inode_at, empty_inode, Blank};

use ice_base::{Block, read_u32, write_u32};

/// A file or a directory: how long it is, and where its blocks are.
#[derive(Clone, Copy, Drop)]
pub struct Inode {
    /// 0 is free, 1 a file, 2 a directory.
    pub kind: u8,
    /// The bytes of a file, the entries of a directory.
    pub size: u32,
    /// The addresses of the first twelve blocks, 0 for none.
    pub direct: [u32; 12],
    /// The address of the block that holds the addresses of the next 256 blocks, 0 for none.
    pub single: u32,
    /// 0 in version 1.
    pub double: u32,
}

impl Inode {
    /// An inode of the kind with nothing in it.
    pub fn empty(kind: u8) -> Inode
        ensures { result ≡ empty_inode kind }
    {
        Inode {
            kind,
            size: 0,
            direct: [0; 12],
            single: 0,
            double: 0,
        }
    }
}

fn read_direct(block: &Block, index: usize) -> [u32; 12]
    requires { index < 8 }
    ensures read { (k : ℕ) → k < 12 → pointer block.now index k ≡ slice_index result k }
    ensures long { length result ≡ 12 }
{
    let mut direct = [0; 12];
    for k in 0..12usize {
        direct[k] = read_u32(block, 128 * index + (8 + 4 * k));
    }
    direct
}

/// The inode in the 128 bytes from `128 index` on: the kind at 0, then numbers of four bytes, the size at 4,
/// twelve direct pointers from 8 on, the single-indirect one at 56 and the double-indirect one at 60.
pub fn read_inode(block: &Block, index: u32) -> Inode
    requires { index < 8 }
    ensures { inode_at block.now index ≡ result }
{
    let at = 128 * index as usize;
    Inode {
        kind: block[at],
        size: read_u32(block, at + 4),
        direct: read_direct(block, index as usize),
        single: read_u32(block, at + 56),
        double: read_u32(block, at + 60),
    }
}

#[tactic(auto, using(crate::proofs::CodecLaws::codec_laws))]
fn write_direct(block: &mut Block, index: usize, direct: &[u32; 12])
    requires { index < 8 }
    ensures direct { (k : ℕ) → k < 12 → pointer block.new index k ≡ slice_index direct.now k }
    ensures long { length direct.now ≡ 12 }
    ensures others { SameBeside (128 * index + 8) 48 block.old block.new }
{
    for k in 0..12usize {
        write_u32(block, 128 * index + (8 + 4 * k), direct[k]);
    }
}

fn start_inode(block: &mut Block, index: usize, kind: u8)
    requires { index < 8 }
    ensures kind { slice_index block.new (128 * index) ≡ kind }
    ensures blank { (k : ℕ) → 1 ≤ k → k < 128 → slice_index block.new (128 * index + k) ≡ 0 }
    ensures others { SameBeside (128 * index) 128 block.old block.new }
{
    block[128 * index] = kind;
    for k in 1..128usize {
        block[128 * index + k] = 0;
    }
}

/// Writes the inode to the 128 bytes from `128 index` on, with zeros where no field stands.
pub fn write_inode(block: &mut Block, index: u32, inode: &Inode)
    requires { index < 8 }
    ensures value { inode_at block.new index ≡ inode.now }
    ensures blank { Blank block.new index }
    ensures others { SameBeside (128 * index) 128 block.old block.new }
{
    let at = 128 * index as usize;
    start_inode(block, index as usize, inode.kind);
    write_u32(block, at + 4, inode.size);
    write_direct(block, index as usize, &inode.direct);
    write_u32(block, at + 56, inode.single);
    write_u32(block, at + 60, inode.double);
}
