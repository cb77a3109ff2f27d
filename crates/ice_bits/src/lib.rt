//! Bitmap blocks: 256 bits of blocks in bytes 0 to 31, and 64 bits of inodes in bytes 32 to 39.
#![tactic(auto)]

ghost use Rattle.std.specs.Prelude.{◌≡◌, ◌<◌, ◌+◌, ◌*◌, ℕ, true, false, IfSome, IfNone};
ghost use Rattle.ice_base.specs.Bits.{bit_of, count_below, Inserts, Deletes};
ghost use Rattle.ice_base.specs.Used.{bit_index, bits_of};

use ice_base::Block;

fn index(inodes: bool, i: u32) -> usize
    requires { i < bits_of inodes }
    ensures place { result ≡ bit_index inodes i }
    ensures small { result < 320 }
{
    if inodes { 256 + i as usize } else { i as usize }
}

/// How many bits of that kind a bitmap block has.
pub fn bits(inodes: bool) -> u32
    ensures { result ≡ bits_of inodes }
{
    if inodes { 64 } else { 256 }
}

#[tactic(auto, unfolding(ice_base::specs::Bits::bit_of), using(crate::proofs::BitLaws::bit_tests))]
fn bit_at(block: &Block, k: usize) -> bool
    requires { k < 320 }
    ensures { result ≡ bit_of block.now k }
{
    (block[k / 8] >> (k % 8)) & 1 == 1
}

/// Whether the bit of inode `i`, or of block `i`, of the group is set.
pub fn bit(block: &Block, inodes: bool, i: u32) -> bool
    requires { i < bits_of inodes }
    ensures { result ≡ bit_of block.now (bit_index inodes i) }
{
    bit_at(block, index(inodes, i))
}

#[tactic(auto, using(crate::proofs::BitLaws::bit_sets))]
fn set_at(block: &mut Block, k: usize)
    requires { k < 320 }
    ensures { Inserts (bit_of block.old) k (bit_of block.new) }
{
    block[k / 8] |= 1 << (k % 8);
}

/// Sets the bit, and changes no other.
pub fn set(block: &mut Block, inodes: bool, i: u32)
    requires { i < bits_of inodes }
    ensures { Inserts (bit_of block.old) (bit_index inodes i) (bit_of block.new) }
{
    set_at(block, index(inodes, i));
}

#[tactic(auto, using(crate::proofs::BitLaws::bit_sets))]
fn clear_at(block: &mut Block, k: usize)
    requires { k < 320 }
    ensures { Deletes (bit_of block.old) k (bit_of block.new) }
{
    block[k / 8] &= !(1 << (k % 8));
}

/// Clears the bit, and changes no other.
pub fn clear(block: &mut Block, inodes: bool, i: u32)
    requires { i < bits_of inodes }
    ensures { Deletes (bit_of block.old) (bit_index inodes i) (bit_of block.new) }
{
    clear_at(block, index(inodes, i));
}

/// The least clear bit, None where all are set.
pub fn first_clear(block: &Block, inodes: bool) -> Option<u32>
    ensures small { IfSome result (λ i. i < bits_of inodes) }
    ensures clear { IfSome result (λ i. bit_of block.now (bit_index inodes i) ≡ false) }
    ensures least { IfSome result (λ i. (j : ℕ) → j < i → bit_of block.now (bit_index inodes j) ≡ true) }
    ensures full { IfNone result ((j : ℕ) → j < bits_of inodes → bit_of block.now (bit_index inodes j) ≡ true) }
{
    for i in 0..bits(inodes) {
        if !bit(block, inodes, i) {
            return Some(i);
        }
    }
    None
}

/// How many of the eight bits of a byte are set.
#[tactic(auto, using(ice_base::proofs::CountLaws::count_laws))]
fn count_byte(block: &Block, at: usize) -> u32
    requires { at < 40 }
    ensures { result ≡ count_below (λ j. bit_of block.now (8 * at + j)) 8 }
{
    match block[at] {
        0 => return 0,
        255 => return 8,
        _ => {}
    }
    let mut set: u32 = 0;
    for i in 0..8 {
        if bit_at(block, 8 * at + i) {
            set += 1;
        }
    }
    set
}

/// How many bits are set.
pub fn count(block: &Block, inodes: bool) -> u32
    ensures { result ≡ count_below (λ j. bit_of block.now (bit_index inodes j)) (bits_of inodes) }
{
    let first = index(inodes, 0) / 8;
    let bytes = bits(inodes) as usize / 8;
    let mut set: u32 = 0;
    for byte in 0..bytes {
        set += count_byte(block, first + byte);
    }
    set
}
