//! A directory in a fresh lot of two groups: inode 0, the root, whose first block is 9 and whose second is 10.
use crate::tests::{lot, make_fresh};
use disk_mem::{MemHost, MuteHost};
use ice_base::{Disk, FormOne, OpFault, Pool, Rule};
use ice_dir::{add, entry, find, len, take};
use ice_keep::ThroughKeep;
use ice_pool::BitPool;
use std::process::Abort;
use std::test::Fail;
use tree_spec::Name;

fn add_row<D: Disk>(rt: &impl Abort, disk: &mut D, name: &Name, inode: u32) -> Result<(), OpFault> {
    assert!(rt; disk.blocks() == 800);
    assert!(rt; name.bytes().len() <= 59 && inode < 128);
    add::<D, ThroughKeep, BitPool, FormOne>(
        &mut ThroughKeep::new(),
        &mut BitPool::new(),
        disk,
        &lot(),
        0,
        name,
        inode,
    )
}

fn take_row<D: Disk>(rt: &impl Abort, disk: &mut D, name: &Name) -> Result<Option<u32>, OpFault> {
    assert!(rt; disk.blocks() == 800);
    take::<D, ThroughKeep, BitPool, FormOne>(
        &mut ThroughKeep::new(),
        &mut BitPool::new(),
        disk,
        &lot(),
        0,
        name,
    )
}

fn find_row<D: Disk>(rt: &impl Abort, disk: &mut D, name: &Name) -> Result<Option<u32>, OpFault> {
    assert!(rt; disk.blocks() == 800);
    find::<D, ThroughKeep, FormOne>(&mut ThroughKeep::new(), disk, &lot(), 0, name)
}

/// The inode of entry k, whose name goes into `into`, and whether that is this name.
fn row_is<D: Disk>(
    rt: &impl Abort,
    disk: &mut D,
    k: u32,
    name: &Name,
    into: &mut Name,
) -> Result<(u32, bool), OpFault> {
    assert!(rt; disk.blocks() == 800);
    let inode = entry::<D, ThroughKeep, FormOne>(
        &mut ThroughKeep::new(),
        disk,
        &lot(),
        0,
        k,
        into,
    )?;
    Ok((inode, into.bytes() == name.bytes()))
}

/// The entries, and the free blocks.
fn shape<D: Disk>(rt: &impl Abort, disk: &mut D) -> Result<(u32, u32), OpFault> {
    assert!(rt; disk.blocks() == 800);
    let rows = len::<D, ThroughKeep, FormOne>(&mut ThroughKeep::new(), disk, &lot(), 0)?;
    let free = BitPool::new().free_blocks(&mut ThroughKeep::new(), disk, &lot())?;
    Ok((rows, free))
}

fn name_of(text: &[u8]) -> Result<Name, Fail> {
    Ok(Name::new(text).ok_or("no name")?)
}

/// Adds `a` to `q` with the inodes 2 to 18.
fn add_seventeen(rt: &impl Abort, host: &mut MemHost) -> Result<(), Fail> {
    for i in 0..17u8 {
        let name = name_of(&[b'a' + i])?;
        add_row(rt, host, &name, u32::from(i) + 2)?;
    }
    Ok(())
}

/// Takes `a` out twice, so that `q` moves into its place.
fn take_first(rt: &impl Abort, host: &mut MemHost) -> Result<(), Fail> {
    let first = name_of(b"a")?;
    let last = name_of(b"q")?;
    let mut into = name_of(b"-")?;
    let found = find_row(rt, host, &last)?;
    let end = row_is(rt, host, 16, &last, &mut into)?;
    let taken = take_row(rt, host, &first)?;
    let moved = row_is(rt, host, 0, &last, &mut into)?;
    assert_eq!(rt;
        (found, end, taken, moved),
        (Some(18), (18, true), Some(2), (18, true))
    );
    let shapes = shape(rt, host)?;
    let again = take_row(rt, host, &first)?;
    let found = find_row(rt, host, &first)?;
    assert_eq!(rt;
        (shapes, again, found, shape(rt, host)?),
        ((16, 493), None, None, (16, 493))
    );
    Ok(())
}

#[test]
fn the_last_of_seventeen_entries_moves_into_the_gap(rt: HostRuntime) -> Result<(), Fail> {
    let mut host = MemHost::new(rt.alloc(), 800)?;
    make_fresh(&rt, &mut host);
    let before = shape(&rt, &mut host)?;
    add_seventeen(&rt, &mut host)?;
    let after = shape(&rt, &mut host)?;
    assert_eq!(rt; (before, after), ((0, 494), (17, 492)));
    take_first(&rt, &mut host)
}

/// Adds names of 1 byte and of 59, and finds these, but none of 58.
fn add_two(rt: &impl Abort, host: &mut MemHost) -> Result<(), Fail> {
    let long = name_of(&[b'x'; 59])?;
    let shorter = name_of(&[b'x'; 58])?;
    let short = name_of(b"x")?;
    let mut into = name_of(b"-")?;
    add_row(rt, host, &short, 1)?;
    add_row(rt, host, &long, 2)?;
    let found = [
        find_row(rt, host, &long)?,
        find_row(rt, host, &short)?,
        find_row(rt, host, &shorter)?,
    ];
    assert_eq!(rt; found, [Some(2), Some(1), None]);
    assert_eq!(rt; row_is(rt, host, 1, &long, &mut into)?, (2, true));
    Ok(())
}

#[test]
fn names_have_1_to_59_bytes(rt: HostRuntime) -> Result<(), Fail> {
    let mut host = MemHost::new(rt.alloc(), 800)?;
    make_fresh(&rt, &mut host);
    add_two(&rt, &mut host)
}

#[test]
fn what_is_no_directory_is_named(rt: HostRuntime) -> Result<(), Fail> {
    let host = MemHost::new(rt.alloc(), 800)?;
    let mut mute = MuteHost { host };
    let name = name_of(b"x")?;
    let kind = OpFault::Damaged(Rule::Kind);
    let found = find_row(&rt, &mut mute, &name);
    let taken = take_row(&rt, &mut mute, &name);
    let added = add_row(&rt, &mut mute, &name, 1);
    assert_eq!(rt; (found, taken, added), (Err(kind), Err(kind), Err(kind)));
    Ok(())
}
