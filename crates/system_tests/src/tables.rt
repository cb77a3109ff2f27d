//! Blocks of tables by hand.
use ice_base::Block;

/// Some bytes, the block of four in which they stand, and their place there.
#[derive(Clone, Copy, Drop)]
pub(crate) struct At<'a> {
    pub block: usize,
    pub place: usize,
    pub bytes: &'a [u8],
}

fn put(block: &mut Block, place: usize, bytes: &[u8]) {
    for (i, byte) in bytes.iter().enumerate() {
        if place < 1024 && i < 1024 - place {
            block[place + i] = *byte;
        }
    }
}

/// Four blocks with these bytes, and zeros elsewhere.
pub(crate) fn table(parts: &[At]) -> [Block; 4] {
    let mut blocks = [[0; 1024]; 4];
    for part in parts {
        if part.block < 4 {
            put(&mut blocks[part.block], part.place, part.bytes);
        }
    }
    blocks
}
