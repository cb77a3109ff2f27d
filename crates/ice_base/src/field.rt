//! Numbers in a block, little endian.
ghost use Rattle.std.specs.Prelude.{◌≡◌, ◌≤◌, ◌+◌};
ghost use Rattle.ice_base.specs.Fields.{word_at, long_at, WordSet, LongSet};

use crate::Block;
use byteorder::{ByteOrder, LittleEndian};

/// The number in the four bytes at a place.
#[tactic(auto, unfolding(crate::specs::Fields::word_at))]
pub fn read_u32(block: &Block, at: usize) -> u32
    requires { at + 4 ≤ 1024 }
    ensures { result ≡ word_at block.now at }
{
    LittleEndian::read_u32(&block[at..at + 4])
}

/// Writes the number to the four bytes at a place.
pub fn write_u32(block: &mut Block, at: usize, value: u32)
    requires { at + 4 ≤ 1024 }
    ensures { WordSet block.old at value block.new }
{
    LittleEndian::write_u32(&mut block[at..at + 4], value);
}

/// The number in the eight bytes at a place.
#[tactic(auto, unfolding(crate::specs::Fields::word_at))]
pub fn read_u64(block: &Block, at: usize) -> u64
    requires { at + 8 ≤ 1024 }
    ensures { result ≡ long_at block.now at }
{
    LittleEndian::read_u64(&block[at..at + 8])
}

/// Writes the number to the eight bytes at a place.
pub fn write_u64(block: &mut Block, at: usize, value: u64)
    requires { at + 8 ≤ 1024 }
    ensures { LongSet block.old at value block.new }
{
    LittleEndian::write_u64(&mut block[at..at + 8], value);
}
