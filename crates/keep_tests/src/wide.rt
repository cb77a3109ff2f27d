//! Keeps of plain blocks: as many as fit, and those of two lots on one disk.
ghost use Rattle.std.specs.Prelude.{◌≡◌, true, length};
ghost use Rattle.ice_base.specs.Lots.{is_sited};
ghost use Rattle.ice_tables.specs.Journals.{lot_places};
ghost use Rattle.ice_journal.specs.Blocks.{AreHomes};

use crate::{commit_in, empty_keep, put_in, recover_in};
use disk_mem::MemHost;
use ice_base::{Block, BlockFault, Disk, Lot, View};
use ice_journal::Effective;
use ice_keep::JournalKeep;
use std::alloc::Global;
use std::process::Abort;
use std::test::Fail;

/// The blocks of an image of two slots and two groups.
const BLOCKS: u32 = 1056;

/// The lot of slot 0 with group 0.
#[tactic(auto, unfolding(ice_base::specs::Lots::is_sited, ice_base::specs::Lots::lies_below))]
fn first() -> Lot
    ensures sited { is_sited result 1056 ≡ true }
{
    let mut lot = Lot::new(0, 544);
    lot.push(0);
    lot
}

/// The lot of slot 1 with group 1.
#[tactic(auto, unfolding(ice_base::specs::Lots::is_sited, ice_base::specs::Lots::lies_below))]
fn second() -> Lot
    ensures sited { is_sited result 1056 ≡ true }
{
    let mut lot = Lot::new(1, 544);
    lot.push(1);
    lot
}

/// A block that begins with this byte, and whose next bytes are its number.
fn block(first: u8, number: u32) -> Block {
    let mut block = [0; 1024];
    block[0] = first;
    block[1] = (number % 256) as u8;
    block[2] = (number / 256 % 256) as u8;
    block
}

/// Puts the block of a number, which is to succeed.
fn put(rt: &impl Abort, keep: &mut JournalKeep, host: &mut MemHost, lot: &Lot, at: u32, first: u8)
    requires sited { is_sited lot.now 1056 ≡ true }
    requires homes { AreHomes (lot_places lot.now) keep.old.entries }
    ensures homes { AreHomes (lot_places lot.now) keep.new.entries }
{
    assert_eq!(rt;
        put_in(keep, host, lot, BLOCKS, at, &block(first, at)),
        Ok(())
    );
}

/// The lot of a slot.
fn lot_of(slot: u8) -> Lot
    ensures sited { is_sited result 1056 ≡ true }
{
    if slot == 0 { first() } else { second() }
}

/// The first byte that the effective blocks of a slot's lot have at an address.
fn seen(host: &mut MemHost, slot: u8, at: u32) -> Option<u8> {
    let lot = lot_of(slot);
    if host.blocks() != BLOCKS {
        return None;
    }
    let mut view = Effective::read(host, &lot).ok()?;
    if host.blocks() != BLOCKS {
        return None;
    }
    let mut bytes = [0; 1024];
    view.get(host, &lot, at, &mut bytes).ok()?;
    Some(bytes[0])
}

/// Recovers the lot of a slot.
fn recover(host: &mut MemHost, slot: u8) -> Result<(), Fail> {
    match recover_in(host, &lot_of(slot), BLOCKS) {
        Ok(()) => Ok(()),
        Err(_) => Err(Fail::new("no recovery")),
    }
}

fn after(alloc: Global, host: &MemHost, moment: u64, fill: u64) -> Result<MemHost, Fail> {
    if moment > host.calls() {
        return Err(Fail::new("no such moment"));
    }
    Ok(host.crashed(alloc, moment, fill)?)
}

/// Puts the blocks of the addresses 0 to 239.
fn fill(rt: &impl Abort, keep: &mut JournalKeep, host: &mut MemHost, lot: &Lot)
    requires sited { is_sited lot.now 1056 ≡ true }
    requires homes { AreHomes (lot_places lot.now) keep.old.entries }
    ensures homes { AreHomes (lot_places lot.now) keep.new.entries }
{
    for at in 0..240_u32 {
        put(rt, keep, host, lot, at, 7);
    }
}

/// Fills the keep, and commits what it holds.
fn fill_and_commit(rt: &impl Abort, keep: &mut JournalKeep, host: &mut MemHost, lot: &Lot)
    requires sited { is_sited lot.now 1056 ≡ true }
    requires homes { AreHomes (lot_places lot.now) keep.old.entries }
{
    fill(rt, keep, host, lot);
    let held = (keep.len(), host.calls());
    let more = put_in(keep, host, lot, BLOCKS, 240, &block(7, 240));
    assert_eq!(rt; (held, more), ((240, 0), Err(BlockFault::Disk)));
    let committed = commit_in(keep, host, lot, BLOCKS);
    let counts = [host.reads(), host.writes(), host.barriers()];
    assert_eq!(rt; (committed, keep.len(), counts), (Ok(()), 0, [0, 483, 4]));
}

/// A host with a full commit of the lot of slot 1.
fn committed(rt: &impl Abort, alloc: Global) -> Result<MemHost, Fail> {
    let lot = second();
    let mut host = MemHost::new(alloc, BLOCKS)?;
    let mut keep = empty_keep(alloc, &lot)?;
    fill_and_commit(rt, &mut keep, &mut host, &lot);
    Ok(host)
}

/// What a crash after so many calls shows: at three of the addresses that were put, at the next one, and after a recovery at the last one.
fn shown(alloc: Global, host: &MemHost, moment: u64, fill: u64) -> Result<[Option<u8>; 5], Fail> {
    let mut left = after(alloc, host, moment, fill)?;
    let first = seen(&mut left, 1, 0);
    let middle = seen(&mut left, 1, 120);
    let last = seen(&mut left, 1, 239);
    let next = seen(&mut left, 1, 240);
    recover(&mut left, 1)?;
    Ok([first, middle, last, next, seen(&mut left, 1, 239)])
}

/// Moments of the commit, each with the byte that is shown then.
const MOMENTS: [(u64, u8); 7] = [
    (0, 0),
    (241, 0),
    (242, 0),
    (244, 7),
    (300, 7),
    (484, 7),
    (487, 7),
];

fn is_home(host: &MemHost, at: u32) -> bool {
    at < 240 && 800 + at < host.blocks() && *host.block(800 + at) == block(7, at)
}

#[test]
fn a_full_keep_is_committed(rt: HostRuntime) -> Result<(), Fail> {
    let host = committed(&rt, rt.alloc())?;
    for (moment, want) in &MOMENTS {
        let byte = Some(*want);
        for fill in 0..4 {
            let found = shown(rt.alloc(), &host, *moment, fill)?;
            assert!(rt;
                found == [byte, byte, byte, Some(0), byte],
                "moment {moment}"
            );
        }
    }
    for at in 0..240_u32 {
        assert!(rt; is_home(&host, at), "address {at}");
    }
    Ok(())
}

/// Two keeps of two lots, whose calls are made in turn. The commits take 9, 11 and 9 calls.
fn in_turn(rt: &impl Abort, alloc: Global) -> Result<MemHost, Fail> {
    let (one, two) = (first(), second());
    let mut host = MemHost::new(alloc, BLOCKS)?;
    let mut here = empty_keep(alloc, &one)?;
    let mut there = empty_keep(alloc, &two)?;
    put(rt, &mut here, &mut host, &one, 9, 1);
    put(rt, &mut there, &mut host, &two, 9, 11);
    let first = commit_in(&mut here, &mut host, &one, BLOCKS);
    put(rt, &mut here, &mut host, &one, 9, 2);
    put(rt, &mut there, &mut host, &two, 10, 12);
    let second = commit_in(&mut there, &mut host, &two, BLOCKS);
    let third = commit_in(&mut here, &mut host, &one, BLOCKS);
    assert_eq!(rt; [first, second, third], [Ok(()); 3]);
    assert_eq!(rt; (host.calls(), host.barriers()), (29, 12));
    Ok(host)
}

/// The bytes at address 9 of the first lot, and at 9 and 10 of the second, after so many calls.
fn wanted(calls: u64) -> [u8; 3] {
    if calls < 5 {
        [0, 0, 0]
    } else if calls < 15 {
        [1, 0, 0]
    } else if calls < 25 {
        [1, 11, 12]
    } else {
        [2, 11, 12]
    }
}

/// Those bytes, before both lots are recovered.
fn bytes_of(host: &mut MemHost) -> Result<[Option<u8>; 3], Fail> {
    let one = seen(host, 0, 9);
    let two = seen(host, 1, 9);
    let three = seen(host, 1, 10);
    recover(host, 0)?;
    recover(host, 1)?;
    Ok([one, two, three])
}

/// Whether a crash leaves these bytes, before recoveries and after them.
fn leaves(alloc: Global, host: &MemHost, moment: u64, fill: u64) -> Result<bool, Fail> {
    let calls = if fill == 1 {
        moment.saturating_add(1)
    } else {
        moment
    };
    let [one, two, three] = wanted(calls);
    let want = [Some(one), Some(two), Some(three)];
    let mut left = after(alloc, host, moment, fill)?;
    Ok(bytes_of(&mut left)? == want && bytes_of(&mut left)? == want)
}

#[test]
fn two_lots_are_committed_apart(rt: HostRuntime) -> Result<(), Fail> {
    let host = in_turn(&rt, rt.alloc())?;
    for moment in 0..30 {
        for fill in 0..4 {
            assert!(rt;
                leaves(rt.alloc(), &host, moment, fill)?,
                "moment {moment}, fill {fill}"
            );
        }
    }
    Ok(())
}
