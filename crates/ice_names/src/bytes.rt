//! The bytes of the rows.
ghost use Rattle.std.specs.Prelude.{◌≡◌, ◌≢◌, ◌≤◌, ◌<◌, ◌+◌, ◌%◌, ◌*◌, ◌/◌, ℕ, length, take, drop, ◌++◌};
ghost use Rattle.ice_tables.specs.Tables.{blocks_from, row_byte};
ghost use Rattle.ice_names.specs.Bytes.{row_bytes, IsWhole};

use ice_base::Block;

/// The bytes of a row of the cube table. Four rows stand in a block.
const ROW: usize = 256;

/// Byte k of the row of a slot.
pub(crate) fn byte_at(blocks: &[Block; 4], slot: u8, k: usize) -> u8
    requires slot { slot < 16 }
    requires byte { k < 256 }
    ensures { result ≡ row_byte (blocks_from 11 blocks.now) slot k }
{
    let slot = slot as usize;
    blocks[slot / 4][ROW * (slot % 4) + k]
}

/// The first bytes of the text of a row.
pub(crate) fn text_bytes(blocks: &[Block; 4], slot: u8, len: usize) -> &[u8]
    requires slot { slot < 16 }
    requires room { len ≤ 248 }
    ensures text { result.now ≡ take len (drop (256 * (slot % 4) + 8) (blocks_from 11 blocks.now (11 + slot / 4))) }
    ensures len { length result.now ≡ len }
{
    let slot = slot as usize;
    let from = ROW * (slot % 4) + 8;
    let block = &blocks[slot / 4];
    &block[from..from + len]
}

fn put_in_block(block: &mut Block, at: usize, bytes: &[u8; 256])
    requires { at < 4 }
    ensures whole { length block.old ≡ 1024 }
    ensures len { length block.new ≡ 1024 }
    ensures put { block.new ≡ take (256 * at) block.old ++ bytes.now ++ drop (256 * at + 256) block.old }
{
    let from = ROW * at;
    block[from..from + ROW].copy_from_slice(bytes);
}

/// Puts the bytes of the row of a slot.
pub(crate) fn put_bytes(into: &mut [Block; 4], slot: u8, bytes: &[u8; 256])
    requires { slot < 16 }
    ensures here { row_bytes (blocks_from 11 into.new) slot ≡ bytes.now }
    ensures others { (s : ℕ) → s ≢ slot → row_bytes (blocks_from 11 into.new) s ≡ row_bytes (blocks_from 11 into.old) s }
    ensures whole { IsWhole (blocks_from 11 into.new) slot }
    ensures stays { (s : ℕ) → IsWhole (blocks_from 11 into.old) s → IsWhole (blocks_from 11 into.new) s }
{
    let slot = slot as usize;
    put_in_block(&mut into[slot / 4], slot % 4, bytes);
}
