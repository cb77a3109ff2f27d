//! Changes of the tables of an image in memory: what they cost, what each crash leaves, and what each failing call does.
ghost use Rattle.std.specs.Prelude.{◌≡◌, ◌≤◌, ◌<◌};

use disk_mem::MemHost;
use ice_base::{Block, Disk, Host};
use ice_layout::{LayoutFault, Super, fresh_block};
use ice_names::Mark;
use ice_path::read_path;
use ice_system::{System, SystemFault, TablesFault};
use std::alloc::Global;
use std::process::Abort;
use std::test::Fail;
use tree_spec::Refusal;

/// The image has two slots and four groups.
const BLOCKS: u32 = 1568;

/// What `attach` calls of the disk where the gate is closed: a barrier and ten reads.
const ATTACH: u64 = 11;

/// What the creation of a cube calls: two bodies, the header and a barrier, the gate and a barrier, two homes and a barrier, the gate and
/// a barrier.
const CREATE: u64 = 11;

fn set(rt: &impl Abort, host: &mut MemHost, at: u32, block: &Block) {
    assert!(rt; at < host.blocks() && host.calls() == 0);
    host.set_block(at, block);
}

/// A fresh image in memory.
fn fresh(rt: &impl Abort, alloc: Global) -> Result<MemHost, Fail> {
    let mut host = MemHost::new(alloc, BLOCKS)?;
    let sup = Super {
        slots: 2,
        groups: 4,
    };
    let mut block = [0; 1024];
    for at in 0..32_u32 {
        fresh_block(&sup, at, &mut block);
        set(rt, &mut host, at, &block);
    }
    host.reserve(200, 0)?;
    Ok(host)
}

fn attach(alloc: Global, host: &mut MemHost) -> Result<System, Fail> {
    Ok(System::attach(alloc, host).ok().ok_or("no volume")?)
}

/// Creates a cube where there is room for it. Path: the path or the number of groups is none; Fault: the disk is too small.
fn create(
    system: &mut System,
    host: &mut MemHost,
    text: &[u8],
    groups: u32,
) -> Result<Result<(), SystemFault>, Refusal> {
    let path = read_path(text).ok().ok_or(Refusal::Path)?;
    if path.text().len() > 199 || groups < 1 {
        return Err(Refusal::Path);
    }
    let lot = system.plan_create(&path, groups)?;
    if system.total() > host.blocks() {
        return Err(Refusal::Fault);
    }
    Ok(system.create(host, &path, &lot))
}

/// The groups and the mark of the cube of this path.
fn found(system: &System, text: &[u8]) -> Option<(u8, u8, Mark)> {
    let path = read_path(text).ok()?;
    let slot = system.names().find(&path)?;
    Some((slot, system.lot(slot).len(), system.names().mark(slot)))
}

/// The good reads, writes and barriers.
fn counts(host: &MemHost) -> (u64, u64, u64) {
    (host.reads(), host.writes(), host.barriers())
}

/// Creates `/home` on a fresh image.
fn create_home(rt: &impl Abort, alloc: Global, host: &mut MemHost) -> Result<(), Fail> {
    let mut system = attach(alloc, host)?;
    assert_eq!(rt; counts(host), (10, 0, 1));
    assert_eq!(rt; create(&mut system, host, b"/home", 1), Ok(Ok(())));
    assert_eq!(rt; counts(host), (10, 7, 5));
    assert_eq!(rt; host.calls(), ATTACH + CREATE);
    Ok(())
}

/// The groups and the mark of the cube `/home` after a crash behind so many calls.
fn home_after(
    alloc: Global,
    host: &MemHost,
    moment: u64,
    fill: u64,
) -> Result<Option<(u8, u8, Mark)>, Fail> {
    if moment > host.calls() {
        return Err(Fail::new("no such moment"));
    }
    let mut left = host.crashed(alloc, moment, fill)?;
    let opened = attach(alloc, &mut left)?;
    Ok(found(&opened, b"/home"))
}

#[test]
fn a_change_is_whole_or_absent_at_each_crash(rt: HostRuntime) -> Result<(), Fail> {
    let mut host = fresh(&rt, rt.alloc())?;
    create_home(&rt, rt.alloc(), &mut host)?;
    for after in 0..12_u64 {
        for fill in 0..4_u64 {
            let home = home_after(rt.alloc(), &host, ATTACH + after, fill)?;
            // The gate's first byte: settled 0, written 1, filled 0 or 255.
            let open = after >= 6 || (after == 5 && fill == 1);
            let want = if open {
                Some((0, 1, Mark::Online))
            } else {
                None
            };
            assert!(rt; home == want, "moment {after}, fill {fill}");
        }
    }
    Ok(())
}

/// Creates `/home` twice, where this call of the first creation fails.
fn fail_and_repeat(
    rt: &impl Abort,
    alloc: Global,
    host: &mut MemHost,
    call: u64,
) -> Result<(), Fail> {
    let mut system = attach(alloc, host)?;
    host.fail_at(ATTACH.saturating_add(call))?;
    let want = if call < 4 {
        SystemFault::Before
    } else {
        SystemFault::After
    };
    let done = create(&mut system, host, b"/home", 1);
    assert!(rt; done == Ok(Err(want)), "call {call}");
    // What failed before the gate was written can be tried again, and what failed after it can't.
    let calls = host.calls();
    let again = create(&mut system, host, b"/home", 1);
    let right = if call < 4 {
        again == Ok(Ok(()))
    } else {
        again == Ok(Err(SystemFault::After)) && host.calls() == calls
    };
    assert!(rt; right, "call {call}");
    Ok(())
}

/// Whether the image has the cube `/home`.
fn has_home(alloc: Global, host: &mut MemHost) -> Result<bool, Fail> {
    let opened = attach(alloc, host)?;
    Ok(found(&opened, b"/home").is_some())
}

#[test]
fn a_failing_call_leaves_the_old_tables_or_the_new_ones(rt: HostRuntime) -> Result<(), Fail> {
    for call in 0..CREATE {
        let mut host = fresh(&rt, rt.alloc())?;
        fail_and_repeat(&rt, rt.alloc(), &mut host, call)?;
        let home = has_home(rt.alloc(), &mut host)?;
        assert!(rt; home == (call != 4), "call {call}");
    }
    Ok(())
}

/// What creations answer, one after the other, where two slots and four groups are free.
const CREATIONS: [(&[u8], u32, Result<Result<(), SystemFault>, Refusal>); 7] = [
    (b"/a", 65, Err(Refusal::CubeFull)),
    (b"/a", 5, Err(Refusal::NoGroups)),
    (b"/a", 1, Ok(Ok(()))),
    (b"/a", 65, Err(Refusal::Exists)),
    (b"/b", 2, Ok(Ok(()))),
    (b"/b", 9, Err(Refusal::Exists)),
    (b"/c", 65, Err(Refusal::NoSlot)),
];

fn create_each(rt: &impl Abort, system: &mut System, host: &mut MemHost) {
    for (text, groups, want) in &CREATIONS {
        let made = create(system, host, text, *groups);
        assert!(rt; made == *want, "{groups} groups: {made:?}");
    }
}

/// What growths of the cube in slot 0 answer then, where one group is left.
const GROWTHS: [(u32, Result<Result<(), SystemFault>, Refusal>); 3] = [
    (2, Err(Refusal::NoGroups)),
    (64, Err(Refusal::CubeFull)),
    (1, Ok(Ok(()))),
];

fn grow_each(rt: &impl Abort, system: &mut System, host: &mut MemHost) {
    for (groups, want) in &GROWTHS {
        let grown = grow(system, host, 0, *groups);
        assert!(rt; grown == *want, "{groups} groups: {grown:?}");
    }
}

/// Deletes the cube in slot 1, and takes that in slot 0 offline.
fn delete_and_mark(rt: &impl Abort, system: &mut System, host: &mut MemHost) {
    let deleted = delete(system, host, 1);
    let marked = offline(system, host, 0);
    // A mark that the cube has already needs no call.
    let calls = host.calls();
    let again = offline(system, host, 0);
    assert_eq!(rt; [deleted, marked, again], [Some(Ok(())); 3]);
    assert!(rt; host.calls() == calls);
}

fn change_each(rt: &impl Abort, alloc: Global, host: &mut MemHost) -> Result<(), Fail> {
    let mut system = attach(alloc, host)?;
    create_each(rt, &mut system, host);
    grow_each(rt, &mut system, host);
    delete_and_mark(rt, &mut system, host);
    Ok(())
}

#[test]
fn a_cube_is_refused_in_order(rt: HostRuntime) -> Result<(), Fail> {
    let mut host = fresh(&rt, rt.alloc())?;
    change_each(&rt, rt.alloc(), &mut host)?;
    let opened = attach(rt.alloc(), &mut host)?;
    let cubes = (found(&opened, b"/a"), found(&opened, b"/b"));
    assert_eq!(rt; cubes, (Some((0, 2, Mark::Offline)), None));
    assert!(rt; opened.slots() == 2);
    assert_eq!(rt; opened.lot(0).place(256), Some(32 + 512 + 256 * 3));
    Ok(())
}

/// Gives a cube further groups. NoCube: there is none; Fault: the disk is too small.
fn grow(
    system: &mut System,
    host: &mut MemHost,
    slot: u8,
    groups: u32,
) -> Result<Result<(), SystemFault>, Refusal> {
    if slot >= system.slots() || system.names().path(slot).is_none() || groups < 1 {
        return Err(Refusal::NoCube);
    }
    let lot = system.plan_grow(slot, groups)?;
    if system.total() > host.blocks() {
        return Err(Refusal::Fault);
    }
    Ok(system.grow(host, slot, &lot))
}

/// Deletes the cube of a slot. None: there is no such slot, or the disk is too small.
fn delete(system: &mut System, host: &mut MemHost, slot: u8) -> Option<Result<(), SystemFault>> {
    if slot >= system.slots() || system.total() > host.blocks() {
        return None;
    }
    Some(system.delete(host, slot))
}

/// Takes a cube offline. None: there is none, or the disk is too small.
fn offline(system: &mut System, host: &mut MemHost, slot: u8) -> Option<Result<(), SystemFault>> {
    if slot >= system.slots() || system.names().path(slot).is_none() {
        return None;
    }
    if system.total() > host.blocks() {
        return None;
    }
    Some(system.set_mark(host, slot, Mark::Offline))
}

fn refused(alloc: Global, host: &mut MemHost) -> Option<TablesFault> {
    System::attach(alloc, host).err()
}

/// A block of the image, its first byte where the others are 0, and the fault of the image then.
const FAULTS: [(&str, u32, u8, LayoutFault); 4] = [
    ("the superblock", 0, 7, LayoutFault::Magic),
    ("an open gate without a header", 1, 1, LayoutFault::Header),
    ("a mark above 2", 11, 3, LayoutFault::Names),
    ("a group of a free slot", 15, 1, LayoutFault::Owners),
];

/// The fault of an image with this block, which is not written.
fn fault_with(
    rt: &impl Abort,
    alloc: Global,
    at: u32,
    byte: u8,
) -> Result<(Option<TablesFault>, u64), Fail> {
    let mut host = fresh(rt, alloc)?;
    let mut block = [0; 1024];
    block[0] = byte;
    set(rt, &mut host, at, &block);
    let fault = refused(alloc, &mut host);
    Ok((fault, host.writes()))
}

#[test]
fn each_fault_of_an_image_is_named(rt: HostRuntime) -> Result<(), Fail> {
    for (name, at, byte, want) in &FAULTS {
        let found = fault_with(&rt, rt.alloc(), *at, *byte)?;
        assert!(rt; found == (Some(TablesFault::Layout(*want)), 0), "{name}");
    }
    Ok(())
}

#[test]
fn a_disk_without_blocks_is_small(rt: HostRuntime) -> Result<(), Fail> {
    let mut none = MemHost::new(rt.alloc(), 0)?;
    let fault = refused(rt.alloc(), &mut none);
    assert_eq!(rt; (fault, none.calls()), (Some(TablesFault::Small), 0));
    Ok(())
}

/// The superblock of the image.
fn superblock() -> Block {
    let mut block = [0; 1024];
    fresh_block(
        &Super {
            slots: 2,
            groups: 4,
        },
        0,
        &mut block,
    );
    block
}

#[test]
fn a_disk_with_a_block_less_is_small(rt: HostRuntime) -> Result<(), Fail> {
    let mut short = MemHost::new(rt.alloc(), BLOCKS - 1)?;
    set(&rt, &mut short, 0, &superblock());
    let fault = refused(rt.alloc(), &mut short);
    assert_eq!(rt; fault, Some(TablesFault::Small));
    Ok(())
}

/// What `attach` refuses where this call fails, and then once more.
fn fault_at(
    rt: &impl Abort,
    alloc: Global,
    call: u64,
) -> Result<(Option<TablesFault>, Option<TablesFault>), Fail> {
    let mut host = fresh(rt, alloc)?;
    host.fail_at(call)?;
    let first = refused(alloc, &mut host);
    Ok((first, refused(alloc, &mut host)))
}

#[test]
fn a_failing_call_of_the_disk_is_named(rt: HostRuntime) -> Result<(), Fail> {
    for call in 0..ATTACH {
        let found = fault_at(&rt, rt.alloc(), call)?;
        assert!(rt; found == (Some(TablesFault::Disk), None), "call {call}");
    }
    Ok(())
}
