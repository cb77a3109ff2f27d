//! Prints how many calls of the disk a write and a read of 16,384 bytes at the end of a file make, for files up to the longest.
#![tactic(auto)]

ghost use Rattle.std.specs.Prelude.{◌≡◌, ◌≤◌, ◌+◌, true, [], length};

use disk_mem::MemHost;
use fresh_lots::{BLOCKS, fresh, two_groups};
use ice_base::{Disk, FormOne, OpFault};
use ice_file::{read_at, write_at};
use ice_keep::ThroughKeep;
use ice_map::{Inode, put_inode};
use ice_pool::BitPool;
use std::io;
use tree_spec::Room;

const FILE: u32 = 1;

const PIECE: u32 = 16384;

/// An empty file.
fn make_file<D: Disk>(disk: &mut D) -> Result<(), OpFault>
    requires { (D.state disk.old).size ≡ 800 }
{
    let file = Inode {
        kind: 1,
        size: 0,
        direct: [0; 12],
        single: 0,
        double: 0,
    };
    put_inode::<D, ThroughKeep, BitPool, FormOne>(
        &mut ThroughKeep::new(),
        &mut BitPool::new(),
        disk,
        &two_groups(),
        FILE,
        &file,
    )
}

fn write_end<D: Disk>(disk: &mut D, at: u32, bytes: &[u8]) -> Result<(), OpFault>
    requires size { (D.state disk.old).size ≡ 800 }
    requires few { length bytes.now ≤ 16384 }
    requires short { at + length bytes.now ≤ 274432 }
{
    write_at::<D, ThroughKeep, BitPool, FormOne>(
        &mut ThroughKeep::new(),
        &mut BitPool::new(),
        disk,
        &two_groups(),
        FILE,
        at,
        bytes,
    )
}

fn read_end<D: Disk>(disk: &mut D, at: u32, room: &mut Room) -> Result<(), OpFault>
    requires size { (D.state disk.old).size ≡ 800 }
    requires few { at ≤ 274432 }
    requires empty { room.old.bytes ≡ [] }
{
    read_at::<D, ThroughKeep, FormOne>(
        &mut ThroughKeep::new(),
        disk,
        &two_groups(),
        FILE,
        at,
        PIECE,
        room,
    )
}

/// The calls of one write and one read of a piece: good reads and writes of each.
fn measure(host: &mut MemHost, at: u32, bytes: &[u8], room: &mut Room) -> Option<(u64, u64, u64)>
    requires few { length bytes.now ≤ 16384 }
    requires short { at + length bytes.now ≤ 274432 }
{
    if host.blocks() != BLOCKS {
        return None;
    }
    room.clear();
    let before = (host.reads(), host.writes());
    write_end(host, at, bytes).ok()?;
    let middle = (host.reads(), host.writes());
    if host.blocks() != BLOCKS {
        return None;
    }
    read_end(host, at, room).ok()?;
    if room.bytes() != bytes {
        return None;
    }
    let read = host.reads().checked_sub(middle.0)?;
    Some((
        middle.0.checked_sub(before.0)?,
        middle.1.checked_sub(before.1)?,
        read,
    ))
}

fn work(rt: &HostRuntime) -> io::Result<Option<()>> {
    let alloc = rt.alloc();
    let mut host = fresh(alloc)?;
    let mut room = Room::new(alloc)?;
    let mut bytes = [0; 16384];
    for (i, byte) in bytes.iter_mut().enumerate() {
        *byte = (i % 251) as u8;
    }
    if host.blocks() != BLOCKS || make_file(&mut host).is_err() {
        return Ok(None);
    }
    println!(rt; "write and read of 16384 bytes at the end")?;
    for piece in 0..16u32 {
        match measure(&mut host, PIECE * piece, &bytes, &mut room) {
            Some((reads, writes, read)) => {
                println!(rt;
                    "at {}: {reads} reads and {writes} writes; {read} reads",
                    PIECE * piece
                )?;
            }
            None => return Ok(None),
        }
    }
    Ok(Some(()))
}

fn main(rt: HostRuntime) -> io::Result<()> {
    match work(&rt)? {
        Some(()) => Ok(()),
        None => Err(io::ErrorKind::Other.into()),
    }
}
