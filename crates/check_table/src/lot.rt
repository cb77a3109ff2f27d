//! A sound lot of two groups, byte by byte.
ghost use Rattle.std.specs.Prelude.{◌≡◌, ◌≤◌, ◌<◌, true, length};
ghost use Rattle.ice_base.specs.Lots.{is_sited};

use crate::bytes::{SUB, byte_of, home};
use disk_mem::MemHost;
use ice_base::{Disk, Lot};

const FILE: u8 = 1;

const DIR: u8 = 2;

/// Names of a directory with two blocks of entries. One byte more or less makes some of them no names.
const NAMES: [&[u8]; 17] = [
    b"-",
    b".-",
    b"=",
    b"!",
    b"~~",
    b"a.b",
    b"fifty-nine-bytes-are-as-many-as-a-name-can-have-0123456789a",
    b"k0",
    b"k1",
    b"k2",
    b"k3",
    b"k4",
    b"k5",
    b"k6",
    b"k7",
    b"k8",
    b"k9",
];

/// The lot of slot 0 with the groups 1 and 0.
#[tactic(auto, unfolding(ice_base::specs::Lots::is_sited, ice_base::specs::Lots::lies_below))]
pub(crate) fn lot() -> Lot
    ensures sited { is_sited result 800 ≡ true }
    ensures groups { length result.groups ≡ 2 }
{
    let mut lot = Lot::new(0, 288);
    lot.push(1);
    lot.push(0);
    lot
}

fn set_bytes(host: &mut MemHost, at: u32, place: usize, bytes: &[u8]) -> Option<()> {
    if at >= host.blocks() {
        return None;
    }
    let mut block = *host.block(at);
    for (k, b) in bytes.iter().enumerate() {
        *block.get_mut(place.saturating_add(k))? = *b;
    }
    host.write(at, &block).ok()
}

fn set_word(host: &mut MemHost, address: u32, place: u32, value: u32) -> Option<()> {
    set_bytes(host, home(address)?, place as usize, &value.to_le_bytes())
}

/// Sets bit `i` from a place of a group's bitmap block on.
fn set_bit(host: &mut MemHost, address: u32, place: u32, i: u32) -> Option<()> {
    let at = home(address)?;
    let place = place.saturating_add(i / 8) as usize;
    let old = byte_of(host, at, place);
    let masks = [1u8, 2, 4, 8, 16, 32, 64, 128];
    set_bytes(host, at, place, &[old | masks[(i % 8) as usize]])
}

fn set_used(host: &mut MemHost, address: u32) -> Option<()>
    requires { address < 512 }
{
    set_bit(host, 256 * (address / 256), 0, address % 256)
}

/// An inode of so many blocks, at addresses one after another. The thirteenth of them names those behind it.
fn put_inode(host: &mut MemHost, i: u32, kind: u8, size: u32, first: u32, blocks: u32) -> Option<()>
    requires inode { i < 128 }
    requires first { first < 400 }
    requires blocks { blocks ≤ 16 }
{
    let at = 256 * (i / 64) + 1 + (i % 64) / 8;
    let place = 128 * (i % 8);
    set_bytes(host, home(at)?, place as usize, &[kind])?;
    set_word(host, at, place + 4, size)?;
    set_bit(host, 256 * (i / 64), 32, i % 64)?;
    for k in 0..blocks {
        set_used(host, first + k)?;
        if k < 13 {
            set_word(host, at, place + 8 + 4 * k, first + k)?;
        } else {
            set_word(host, first + 12, 4 * (k - 13), first + k)?;
        }
    }
    Some(())
}

fn put_entry(host: &mut MemHost, address: u32, k: u32, inode: u32, name: &[u8]) -> Option<()>
    requires { k < 16 }
{
    let place = 64 * k;
    set_word(host, address, place, inode)?;
    let len = u8::try_from(name.len()).ok()?;
    set_bytes(host, home(address)?, place as usize + 4, &[len])?;
    set_bytes(host, home(address)?, place as usize + 5, name)
}

/// The root with its six entries, and `/b/c`.
fn put_root(host: &mut MemHost) -> Option<()> {
    put_inode(host, 0, DIR, 6, 9, 1)?;
    let entries: [(&[u8], u32); 6] = [
        (b"b", 1),
        (b"a", 3),
        (b"f", 27),
        (b"g", 28),
        (b"h", 29),
        (b"d", 30),
    ];
    for (k, (name, inode)) in entries.iter().enumerate() {
        put_entry(host, 9, k as u32, *inode, name)?;
    }
    put_inode(host, 1, DIR, 1, 10, 1)?;
    put_entry(host, 10, 0, 2, b"c")?;
    put_inode(host, 2, DIR, 0, 0, 0)
}

/// The directory `/a` with a directory in it and so on, as deep as a tree can be: the inodes 3 to 26.
fn put_chain(host: &mut MemHost) -> Option<()> {
    for i in 3..26u32 {
        put_inode(host, i, DIR, 1, 8 + i, 1)?;
        put_entry(host, 8 + i, 0, i + 1, b"a")?;
    }
    put_inode(host, 26, DIR, 0, 0, 0)
}

/// Files of 0, 3 and 15 blocks, whose blocks lie in both groups, and a directory of 17 entries.
fn put_files(host: &mut MemHost) -> Option<()> {
    put_inode(host, 27, FILE, 0, 0, 0)?;
    put_inode(host, 28, FILE, 2049, 34, 3)?;
    put_inode(host, 29, FILE, 14337, 265, 16)?;
    put_inode(host, 30, DIR, 17, 37, 2)?;
    for (k, name) in NAMES.iter().enumerate() {
        let k = k as u32;
        put_inode(host, 64 + k, FILE, 0, 0, 0)?;
        put_entry(host, 37 + k / 16, k % 16, 64 + k, name)?;
    }
    for at in [35u32, 265] {
        set_word(host, at, 512, 7)?;
    }
    Some(())
}

/// Fills the lot: 46 blocks and 48 inodes, after 5 commands.
pub(crate) fn fill(host: &mut MemHost) -> Option<()> {
    for (place, value) in [
        (0usize, 0x4365_6349u32),
        (4, 1),
        (16, 5),
        (24, 46),
        (28, 48),
    ] {
        set_bytes(host, SUB, place, &value.to_le_bytes())?;
    }
    for bitmap in [0u32, 256] {
        set_bytes(host, home(bitmap)?, 0, &[0xff, 0x01])?;
    }
    put_root(host)?;
    put_chain(host)?;
    put_files(host)
}
