//! A lot of one group whose keep holds a new directory: its commit, stopped at each call, and its replay likewise.
ghost use Rattle.std.specs.Prelude.{◌≡◌, ◌≤◌, true, length, IfOk};
ghost use Rattle.ice_base.specs.Lots.{is_sited};
ghost use Rattle.ice_tables.specs.Journals.{lot_places};
ghost use Rattle.ice_journal.specs.Blocks.{AreHomes};

use crate::{commit_in, dir_in, empty_keep, recover_in};
use disk_mem::MemHost;
use fresh_lots::{BLOCKS, fresh, one_group};
use ice_base::{Disk, DiskFault, Lot};
use ice_check::check_lot;
use ice_journal::JournalFault;
use ice_keep::JournalKeep;
use ice_path::read_path;
use std::alloc::Global;
use std::process::Abort;
use std::test::Fail;

/// The blocks that a directory in a fresh lot changes: the sub-super block, the bitmap, the inodes, and its parent's entries.
const HELD: u64 = 4;

/// The calls of a commit up to the barrier behind the open gate: bodies, header, barrier, gate, barrier.
const SURE: u64 = HELD + 4;

/// The calls of a whole commit: then the homes, a barrier, the gate and a barrier.
const WHOLE: u64 = SURE + HELD + 3;

/// A fresh lot, and its keep with the blocks of a new directory. No write and no barrier was made.
fn held(rt: &impl Abort, alloc: Global, lot: &Lot) -> Result<(MemHost, JournalKeep), Fail>
    requires sited { is_sited lot.now 800 ≡ true }
    requires some { 1 ≤ length lot.now.groups }
    ensures homes { IfOk result (λ p. AreHomes (lot_places lot.now) p.1.entries) }
{
    let mut host = fresh(alloc)?;
    let mut keep = empty_keep(alloc, lot)?;
    let path = read_path(b"/a").ok().ok_or("no path")?;
    let made = dir_in(&mut keep, &mut host, lot, BLOCKS, &path);
    assert!(rt; made == Ok(()) && (host.writes(), host.barriers()) == (0, 0));
    let again = host.crashed(alloc, host.calls(), 1)?;
    Ok((again, keep))
}

/// The number of accepted commands that the checker counts.
fn done(host: &mut MemHost) -> Option<u64> {
    if host.blocks() != BLOCKS {
        return None;
    }
    let summary = check_lot(host, &one_group()).ok()?;
    Some(summary.done)
}

fn recover(host: &mut MemHost) -> Result<(), JournalFault> {
    recover_in(host, &one_group(), BLOCKS)
}

/// The number of accepted commands, where a recovery leaves it as it is.
fn recovered(host: &mut MemHost) -> Option<u64> {
    let before = done(host)?;
    recover(host).ok()?;
    if done(host)? == before {
        Some(before)
    } else {
        None
    }
}

/// The same of what a crash leaves.
fn recovered_after(
    alloc: Global,
    host: &MemHost,
    moment: u64,
    fill: u64,
) -> Result<Option<u64>, Fail> {
    let mut left = after(alloc, host, moment, fill)?;
    Ok(recovered(&mut left))
}

fn after(alloc: Global, host: &MemHost, moment: u64, fill: u64) -> Result<MemHost, Fail> {
    if moment > host.calls() {
        return Err(Fail::new("no such moment"));
    }
    Ok(host.crashed(alloc, moment, fill)?)
}

/// Commits what is held, and then nothing.
fn commit_twice(rt: &impl Abort, keep: &mut JournalKeep, host: &mut MemHost, lot: &Lot)
    requires sited { is_sited lot.now 800 ≡ true }
    requires homes { AreHomes (lot_places lot.now) keep.old.entries }
{
    let held = (keep.len() as u64, keep.is_empty());
    let first = commit_in(keep, host, lot, BLOCKS);
    let left = (keep.len(), keep.is_empty());
    assert_eq!(rt; (held, first, left), ((HELD, false), Ok(()), (0, true)));
    let counts = [host.calls(), host.reads(), host.writes(), host.barriers()];
    let second = commit_in(keep, host, lot, BLOCKS);
    assert_eq!(rt;
        (counts, second, host.calls()),
        ([WHOLE, 0, 2 * HELD + 3, 4], Ok(()), WHOLE)
    );
}

/// A lot with a commit of what was held.
fn committed(rt: &impl Abort, alloc: Global) -> Result<MemHost, Fail> {
    let lot = one_group();
    let (mut host, mut keep) = held(rt, alloc, &lot)?;
    commit_twice(rt, &mut keep, &mut host, &lot);
    Ok(host)
}

#[test]
fn each_crash_of_a_commit_leaves_the_tree_before_or_after(rt: HostRuntime) -> Result<(), Fail> {
    let host = committed(&rt, rt.alloc())?;
    for moment in 0..WHOLE + 1 {
        for fill in 0..4 {
            let new = moment >= SURE || moment + 1 == SURE && fill == 1;
            let want = if new { 1 } else { 0 };
            let found = recovered_after(rt.alloc(), &host, moment, fill)?;
            assert!(rt; found == Some(want), "moment {moment}, fill {fill}");
        }
    }
    Ok(())
}

/// A lot with a commit of what was held, of which this call failed.
fn failed(rt: &impl Abort, alloc: Global, failing: u64) -> Result<MemHost, Fail> {
    let lot = one_group();
    let (mut host, mut keep) = held(rt, alloc, &lot)?;
    host.fail_at(failing)?;
    let committed = commit_in(&mut keep, &mut host, &lot, BLOCKS);
    let held = keep.len() as u64;
    assert!(rt;
        committed == Err(DiskFault::Failed) && held == HELD,
        "call {failing}"
    );
    Ok(host)
}

/// Whether the lot counts one of these after each crash now.
fn counts_either(alloc: Global, host: &MemHost, least: u64, most: u64) -> Result<bool, Fail> {
    for fill in 0..4 {
        let found = recovered_after(alloc, host, host.calls(), fill)?;
        if found != Some(least) && found != Some(most) {
            return Ok(false);
        }
    }
    Ok(true)
}

/// What the lot counts after a recovery.
fn done_after(host: &mut MemHost) -> Option<u64> {
    recover(host).ok()?;
    done(host)
}

#[test]
fn a_commit_that_failed_is_taken_up_again(rt: HostRuntime) -> Result<(), Fail> {
    for failing in 0..WHOLE {
        let mut host = failed(&rt, rt.alloc(), failing)?;
        let most = if failing + 2 < SURE { 0 } else { 1 };
        let least = if failing < SURE { 0 } else { 1 };
        assert!(rt;
            counts_either(rt.alloc(), &host, least, most)?,
            "call {failing}"
        );
        let last = done_after(&mut host);
        assert!(rt; last == Some(least) || last == Some(most), "call {failing}");
    }
    Ok(())
}

/// The calls of a recovery: a barrier, gate and header, each home from its body, a barrier, the gate and a barrier.
const RECOVERY: u64 = 3 + 2 * HELD + 3;

/// Whether a replay of which this call fails is a fault of the disk, and the lot counts one command after each crash then and after
/// another replay.
fn can_be_stopped(alloc: Global, host: &MemHost, failing: u64) -> Result<bool, Fail> {
    let mut left = after(alloc, host, SURE, 3)?;
    left.fail_at(failing)?;
    let stopped = recover(&mut left);
    Ok(
        stopped == Err(JournalFault::Disk)
            && counts_either(alloc, &left, 1, 1)?
            && done_after(&mut left) == Some(1),
    )
}

#[test]
fn a_replay_can_be_stopped_at_each_call(rt: HostRuntime) -> Result<(), Fail> {
    let host = committed(&rt, rt.alloc())?;
    for failing in 0..RECOVERY {
        assert!(rt;
            can_be_stopped(rt.alloc(), &host, failing)?,
            "call {failing}"
        );
    }
    Ok(())
}
