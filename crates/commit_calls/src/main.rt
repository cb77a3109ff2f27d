//! Prints how many calls of the disk a commit of 1, 10 and 240 blocks makes, and the replay of one that a crash cut short.
#![tactic(auto)]

ghost use Rattle.std.specs.Prelude.{◌≡◌, ◌≤◌, ◌<◌, true, length, IfOk};
ghost use Rattle.ice_base.specs.Lots.{is_sited};
ghost use Rattle.ice_tables.specs.Journals.{lot_places};
ghost use Rattle.ice_journal.specs.Blocks.{AreHomes};

use disk_mem::MemHost;
use fresh_lots::{BLOCKS, fresh, two_groups};
use ice_base::{Disk, Keep, Lot};
use ice_journal::Effective;
use ice_keep::JournalKeep;
use ice_recover::replay;
use std::alloc::{AllocError, Global};
use std::io;

/// A keep that holds nothing.
#[tactic(auto, using(ice_keep::proofs::JournaledLaws::none_homes))]
fn empty_keep(alloc: Global, lot: &Lot) -> Result<JournalKeep, AllocError>
    ensures homes { IfOk result (λ k. AreHomes (lot_places lot.now) k.entries) }
{
    JournalKeep::new(alloc)
}

/// Puts a block. False where the keep is full or the disk another one.
fn put<D: Disk>(keep: &mut JournalKeep, disk: &mut D, lot: &Lot, at: u32) -> bool
    requires small { at < 256 }
    requires sited { is_sited lot.now 800 ≡ true }
    requires homes { AreHomes (lot_places lot.now) keep.old.entries }
    ensures homes { AreHomes (lot_places lot.now) keep.new.entries }
{
    if disk.blocks() != BLOCKS || keep.len() >= 240 {
        return false;
    }
    keep.put(disk, lot, at, &[at as u8; 1024]).is_ok()
}

/// Puts the blocks of the first addresses.
fn fill<D: Disk>(keep: &mut JournalKeep, disk: &mut D, lot: &Lot, blocks: u32) -> bool
    requires sited { is_sited lot.now 800 ≡ true }
    requires homes { AreHomes (lot_places lot.now) keep.old.entries }
    ensures homes { AreHomes (lot_places lot.now) keep.new.entries }
{
    for at in 0..blocks {
        if !put(keep, disk, lot, at % 256) {
            return false;
        }
    }
    true
}

fn commit<D: Disk>(keep: &mut JournalKeep, disk: &mut D, lot: &Lot) -> bool
    requires sited { is_sited lot.now 800 ≡ true }
    requires homes { AreHomes (lot_places lot.now) keep.old.entries }
{
    disk.blocks() == BLOCKS && keep.commit(disk, lot).is_ok()
}

/// Replays the journal of the lot where it is open.
fn recover<D: Disk>(disk: &mut D, lot: &Lot) -> bool
    requires sited { is_sited lot.now 800 ≡ true }
{
    if disk.blocks() != BLOCKS {
        return false;
    }
    match Effective::read(disk, lot) {
        Ok(view) => view.is_pending() && replay(disk, lot, &view).is_ok(),
        Err(_) => false,
    }
}

/// Good calls of a disk.
#[derive(Clone, Copy, Drop)]
struct Calls {
    reads: u64,
    writes: u64,
    barriers: u64,
}

/// Those so far.
fn counts(host: &MemHost) -> Calls {
    Calls {
        reads: host.reads(),
        writes: host.writes(),
        barriers: host.barriers(),
    }
}

fn since(before: Calls, after: Calls) -> Option<Calls> {
    Some(Calls {
        reads: after.reads.checked_sub(before.reads)?,
        writes: after.writes.checked_sub(before.writes)?,
        barriers: after.barriers.checked_sub(before.barriers)?,
    })
}

/// A commit and the replay of one.
#[derive(Clone, Copy, Drop)]
struct Costs {
    commit: Calls,
    replay: Calls,
}

/// The calls of a commit of so many blocks, and of the replay where a crash falls behind the barrier of the open gate.
fn measure(alloc: Global, blocks: u32) -> Option<Costs> {
    let lot = two_groups();
    let mut host = fresh(alloc).ok()?;
    host.reserve(1000, 0).ok()?;
    let mut keep = empty_keep(alloc, &lot).ok()?;
    if !fill(&mut keep, &mut host, &lot, blocks) {
        return None;
    }
    let before = counts(&host);
    let start = host.calls();
    if !commit(&mut keep, &mut host, &lot) {
        return None;
    }
    let commit_calls = since(before, counts(&host))?;
    // Bodies, header, barrier, gate and barrier came first.
    let moment = start.checked_add(u64::from(blocks))?.checked_add(4)?;
    if moment > host.calls() {
        return None;
    }
    let mut left = host.crashed(alloc, moment, 0).ok()?;
    left.reserve(1000, 0).ok()?;
    if !recover(&mut left, &lot) {
        return None;
    }
    Some(Costs {
        commit: commit_calls,
        replay: counts(&left),
    })
}

fn work(rt: &HostRuntime) -> io::Result<bool> {
    for blocks in [1, 10, 240] {
        let Some(costs) = measure(rt.alloc(), blocks) else {
            return Ok(false);
        };
        println!(rt;
            "commit of {blocks}: {} reads, {} writes, {} barriers; its replay: {} reads, {} writes, {} barriers",
            costs.commit.reads,
            costs.commit.writes,
            costs.commit.barriers,
            costs.replay.reads,
            costs.replay.writes,
            costs.replay.barriers
        )?;
    }
    Ok(true)
}

fn main(rt: HostRuntime) -> io::Result<()> {
    if work(&rt)? {
        Ok(())
    } else {
        Err(io::ErrorKind::Other.into())
    }
}
