//! Blocks of known bytes.
ghost use Rattle.std.specs.Prelude.{◌≡◌, ◌<◌, ◌+◌, ◌*◌, ◌%◌, ◌^◌, ℕ, length, replicate, slice_index_or, IfOk};
ghost use Rattle.disk_mem.specs.Fill.{pattern, Filled};

use ice_base::Block;
use std::alloc::{AllocError, Global};

/// So many blocks of zeros.
pub fn zero_blocks(alloc: Global, n: usize) -> Result<Vec<Block>, AllocError>
    ensures { IfOk result (λ v. v.items ≡ replicate n (replicate 1024 0)) }
{
    let mut blocks = Vec::with_capacity(alloc, n)?;
    for _i in 0..n {
        blocks.push_reserved([0; 1024]);
    }
    Ok(blocks)
}

fn pattern_byte(fill: u64, at: usize, j: usize) -> u8
    requires block { at < 2 ^ 32 }
    requires byte { j < 1024 }
    ensures { result ≡ pattern fill at j }
{
    let sum = fill
        .wrapping_mul(31)
        .wrapping_add(7 * at as u64 + 13 * j as u64);
    (sum % 256) as u8
}

fn pattern_block(fill: u64, at: usize) -> Block
    requires { at < 2 ^ 32 }
    ensures { (j : ℕ) → j < 1024 → slice_index_or result j 0 ≡ pattern fill at j }
{
    let mut block = [0; 1024];
    for j in 0..1024 {
        block[j] = pattern_byte(fill, at, j);
    }
    block
}

/// The bytes that a crash leaves in a loose block.
pub fn filled_block(fill: u64, at: usize, settled: &Block, newest: &Block) -> Block
    requires { at < 2 ^ 32 }
    ensures { Filled fill at settled.now newest.now result }
{
    match fill {
        0 => *settled,
        1 => *newest,
        2 => [0; 1024],
        3 => [0xFF; 1024],
        _ => pattern_block(fill, at),
    }
}
