//! The bytes of a lot of two groups in a host: the first of its groups is group 1 of the image, the second group 0.
ghost use Rattle.std.specs.Prelude.{◌<◌, ◌≤◌};

use disk_mem::MemHost;
use ice_base::Disk;

/// The blocks of an image of one slot and two groups.
pub(crate) const BLOCKS: u32 = 800;

/// The sub-super block.
pub(crate) const SUB: u32 = 32;

/// The inodes of the lot.
pub(crate) const INODES: usize = 128;

/// The addresses of the lot.
pub(crate) const ADDRESSES: usize = 512;

/// Where the block of an address stands in the image.
pub(crate) fn home(address: u32) -> Option<u32> {
    match address / 256 {
        0 => Some(544 + address % 256),
        1 => Some(288 + address % 256),
        _ => None,
    }
}

/// A byte of the image, 0 outside it.
pub(crate) fn byte_of(host: &MemHost, at: u32, place: usize) -> u8 {
    if at < host.blocks() {
        host.block(at).get(place).copied().unwrap_or(0)
    } else {
        0
    }
}

/// The number in four bytes of the image.
pub(crate) fn word_of(host: &MemHost, at: u32, place: usize) -> u32
    requires { place ≤ 1024 }
{
    u32::from_le_bytes([
        byte_of(host, at, place),
        byte_of(host, at, place + 1),
        byte_of(host, at, place + 2),
        byte_of(host, at, place + 3),
    ])
}

/// A byte at an address, 0 where that isn't one of the lot.
pub(crate) fn byte(host: &MemHost, address: u32, place: usize) -> u8 {
    match home(address) {
        Some(at) => byte_of(host, at, place),
        None => 0,
    }
}

/// The number in four bytes at an address.
pub(crate) fn word(host: &MemHost, address: u32, place: usize) -> u32
    requires { place ≤ 1024 }
{
    match home(address) {
        Some(at) => word_of(host, at, place),
        None => 0,
    }
}

/// Bit `i` from a place of an address on.
pub(crate) fn bit(host: &MemHost, address: u32, place: usize, i: u32) -> bool
    requires { place ≤ 1024 }
{
    let mask = [1u8, 2, 4, 8, 16, 32, 64, 128];
    let from = byte(host, address, place + (i / 8) as usize);
    from & mask[(i % 8) as usize] != 0
}
