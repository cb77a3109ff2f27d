//! What the bytes say of each inode and each entry.
ghost use Rattle.std.specs.Prelude.{◌<◌, ◌≤◌};

use crate::bytes::{ADDRESSES, INODES, bit, byte, word};
use disk_mem::MemHost;

/// The bytes of the longest file.
const LONGEST: u32 = 274_432;

/// The bytes of the longest name.
pub(crate) const NAME: usize = 59;

/// An entry: its inode, and its name with zeros behind it. A name that is too long is read as empty.
#[derive(Clone, Copy, Drop)]
pub(crate) struct Entry {
    pub inode: u32,
    pub len: usize,
    pub name: [u8; 59],
}

fn inode_address(i: u32) -> u32
    requires { i < 128 }
{
    256 * (i / 64) + 1 + (i % 64) / 8
}

fn inode_word(host: &MemHost, i: u32, place: u32) -> u32
    requires inode { i < 128 }
    requires place { place < 128 }
{
    word(host, inode_address(i), (128 * (i % 8) + place) as usize)
}

/// Whether an inode is marked used.
pub(crate) fn is_marked(host: &MemHost, i: u32) -> bool
    requires { i < 128 }
{
    bit(host, 256 * (i / 64), 32, i % 64)
}

/// Whether a block is marked used.
pub(crate) fn is_block_marked(host: &MemHost, address: u32) -> bool
    requires { address < 512 }
{
    bit(host, 256 * (address / 256), 0, address % 256)
}

fn kind(host: &MemHost, i: u32) -> u8
    requires { i < 128 }
{
    byte(host, inode_address(i), (128 * (i % 8)) as usize)
}

/// The bytes of a file, or the entries of a directory.
pub(crate) fn size(host: &MemHost, i: u32) -> u32
    requires { i < 128 }
{
    inode_word(host, i, 4)
}

pub(crate) fn is_dir(host: &MemHost, i: u32) -> bool
    requires { i < 128 }
{
    kind(host, i) == 2
}

/// A file that isn't too long, or a directory of fewer entries than there are inodes. Inode 0 is a directory.
pub(crate) fn kind_fits(host: &MemHost, i: u32) -> bool
    requires { i < 128 }
{
    match kind(host, i) {
        1 => i != 0 && size(host, i) <= LONGEST,
        2 => size(host, i) < INODES as u32,
        _ => false,
    }
}

/// The blocks of an inode's map, at most 268 where kind and size fit.
pub(crate) fn map_blocks(host: &MemHost, i: u32) -> u32
    requires { i < 128 }
    ensures { result ≤ 268 }
{
    let unit = if is_dir(host, i) { 16 } else { 1024 };
    size(host, i).div_ceil(unit).min(268)
}

/// The pointer of block `k` of the map.
pub(crate) fn pointer(host: &MemHost, i: u32, k: u32) -> u32
    requires inode { i < 128 }
    requires block { k < 268 }
{
    if k < 12 {
        return inode_word(host, i, 8 + 4 * k);
    }
    word(host, single(host, i), (4 * (k - 12)) as usize)
}

/// The address of the indirect block.
pub(crate) fn single(host: &MemHost, i: u32) -> u32
    requires { i < 128 }
{
    inode_word(host, i, 56)
}

pub(crate) fn is_data(address: u32) -> bool {
    (address as usize) < ADDRESSES && address % 256 >= 9
}

/// Whether the pointers that the map uses are data places.
fn used_fit(host: &MemHost, i: u32) -> bool
    requires { i < 128 }
{
    let blocks = map_blocks(host, i);
    for k in 0..blocks {
        if !is_data(pointer(host, i, k)) {
            return false;
        }
    }
    blocks <= 12 || is_data(single(host, i))
}

/// Whether the inode's pointers that the map doesn't use are 0.
fn rest_is_zero(host: &MemHost, i: u32) -> bool
    requires { i < 128 }
{
    let blocks = map_blocks(host, i);
    for k in 0..12u32 {
        if k >= blocks && pointer(host, i, k) != 0 {
            return false;
        }
    }
    (blocks > 12 || single(host, i) == 0) && inode_word(host, i, 60) == 0
}

/// Whether the pointers that the map uses are data places, and the others of the inode 0.
pub(crate) fn pointers_fit(host: &MemHost, i: u32) -> bool
    requires { i < 128 }
{
    used_fit(host, i) && rest_is_zero(host, i)
}

/// An inode that is marked used and breaks neither the rule on kinds nor the one on pointers.
pub(crate) fn is_sound(host: &MemHost, i: u32) -> bool
    requires { i < 128 }
{
    is_marked(host, i) && kind_fits(host, i) && pointers_fit(host, i)
}

/// A directory whose entries can be looked at.
pub(crate) fn is_open(host: &MemHost, i: u32) -> bool
    requires { i < 128 }
{
    is_sound(host, i) && is_dir(host, i)
}

/// The number of an open directory's entries, which is below 128.
pub(crate) fn count(host: &MemHost, i: u32) -> u32
    requires { i < 128 }
    ensures { result < 128 }
{
    size(host, i).min(127)
}

/// Entry `k` of an open directory.
pub(crate) fn read_entry(host: &MemHost, i: u32, k: u32) -> Entry
    requires inode { i < 128 }
    requires entry { k < 128 }
{
    let at = pointer(host, i, k / 16);
    let from = (64 * (k % 16)) as usize;
    let len = byte(host, at, from + 4) as usize;
    let len = if len > NAME { 0 } else { len };
    let mut name = [0; 59];
    for (j, b) in name.iter_mut().enumerate() {
        if j < len {
            *b = byte(host, at, from + 5 + j);
        }
    }
    Entry {
        inode: word(host, at, from),
        len,
        name,
    }
}

/// Whether a name has a byte or more, each of them printable and none a slash, and isn't `.` or `..`.
pub(crate) fn is_name(entry: &Entry) -> bool {
    for (j, b) in entry.name.iter().enumerate() {
        if j < entry.len && (*b < 0x21 || *b > 0x7E || *b == b'/') {
            return false;
        }
    }
    let dots = entry.name[0] == b'.' && (entry.len == 1 || entry.len == 2 && entry.name[1] == b'.');
    entry.len > 0 && !dots
}

/// Any inode of the lot but the root.
pub(crate) fn is_namable(inode: u32) -> bool {
    inode > 0 && (inode as usize) < INODES
}
