//! Commits and replays over a host in memory: the order and the number of the calls, and what each crash leaves.
ghost use Rattle.std.specs.Prelude.{◌≡◌, ◌≢◌, ◌⊎◌, ◌<◌, ◌≤◌, ℕ, true, IfOk, length};
ghost use Rattle.ice_base.specs.Lots.{is_address};
ghost use Rattle.ice_layout.specs.Headers.{is_table};
ghost use Rattle.ice_txn.specs.Sets.{holds};
ghost use Rattle.ice_journal.specs.Shown.{AreNoneOrTargets};

use crate::tests::{HEADER, block, counts, host, lot, read, seen_three};
use disk_mem::MemHost;
use ice_base::{Block, Disk, SUB};
use ice_journal::{CommitFault, Effective, JournalFault, SystemJournal, commit, replay};
use ice_txn::WriteSet;
use std::alloc::{AllocError, Global};
use std::process::Abort;
use std::test::Fail;

/// A set of two blocks, which begin with the numbers 1000 and 1001.
#[tactic(auto, unfolding(ice_txn::specs::Sets::holds))]
fn pair(alloc: Global, first: u32, second: u32) -> Result<WriteSet, AllocError>
    requires { first ≢ second }
    ensures count { IfOk result (λ s. length s.entries ≡ 2) }
    ensures held { IfOk result (λ s. (a : ℕ) → holds s.entries a ≡ true → (a ≡ first) ⊎ (a ≡ second)) }
{
    let mut set = WriteSet::new(alloc)?;
    set.put(first, &block(&[232, 3]));
    set.put(second, &block(&[233, 3]));
    Ok(set)
}

fn commit_lot<D: Disk>(disk: &mut D, set: &WriteSet) -> Result<(), CommitFault>
    requires count { length set.now.entries ≡ 2 }
    requires held { (a : ℕ) → holds set.now.entries a ≡ true → (a ≡ 0xFFFFFFFF) ⊎ (a ≡ 9) }
{
    if disk.blocks() != 800 {
        return Err(CommitFault::Before);
    }
    commit(disk, &lot(), set)
}

fn commit_tables<D: Disk>(disk: &mut D, set: &WriteSet) -> Result<(), CommitFault>
    requires count { length set.now.entries ≡ 2 }
    requires held { (a : ℕ) → holds set.now.entries a ≡ true → (a ≡ 11) ⊎ (a ≡ 18) }
{
    if disk.blocks() != 800 {
        return Err(CommitFault::Before);
    }
    commit(disk, &SystemJournal, set)
}

/// Replays the journal of the lot where it is open.
fn recover<D: Disk>(disk: &mut D) -> Result<(), JournalFault> {
    if disk.blocks() != 800 {
        return Err(JournalFault::Disk);
    }
    let lot = lot();
    let view = Effective::read(disk, &lot)?;
    if !view.is_pending() {
        return Ok(());
    }
    match replay(disk, &lot, view.targets()) {
        Ok(()) => Ok(()),
        Err(_) => Err(JournalFault::Disk),
    }
}

/// Whether the block at a place begins with these bytes, and the others are zeros.
fn stands(host: &MemHost, at: u32, first: &[u8]) -> bool {
    at < host.blocks() && *host.block(at) == block(first)
}

fn after(alloc: Global, host: &MemHost, moment: u64, fill: u64) -> Result<MemHost, Fail> {
    if moment > host.calls() {
        return Err(Fail::new("no such moment"));
    }
    Ok(host.crashed(alloc, moment, fill)?)
}

/// A host of 800 blocks with a commit of the lot's addresses 0xFFFFFFFF and 9, of which this call fails, and what it answers.
fn commit_at(
    rt: &impl Abort,
    alloc: Global,
    failing: u64,
) -> Result<(MemHost, Result<(), CommitFault>), Fail> {
    let set = pair(alloc, SUB, 9)?;
    let mut host = host(rt, alloc, 0, &[0; 1024])?;
    host.fail_at(failing)?;
    let answer = commit_lot(&mut host, &set);
    Ok((host, answer))
}

/// A host of 800 blocks after a commit of the lot's addresses 0xFFFFFFFF and 9.
fn committed(rt: &impl Abort, alloc: Global) -> Result<MemHost, Fail> {
    let (host, answer) = commit_at(rt, alloc, 1000)?;
    assert!(rt; answer == Ok(()));
    Ok(host)
}

/// Blocks of it, by the bytes that aren't zeros.
const BLOCKS: [(u32, &[u8]); 8] = [
    (288, &[232, 3]),
    (289, &[0]),
    (290, &HEADER),
    (291, &[232, 3]),
    (292, &[233, 3]),
    (293, &[37, 1]),
    (553, &[233, 3]),
    (554, &[42, 2]),
];

#[test]
fn a_commit_leaves_bodies_header_gate_and_homes(rt: HostRuntime) -> Result<(), Fail> {
    let host = committed(&rt, rt.alloc())?;
    assert_eq!(rt; counts(&host), (0, 7, 4));
    for (at, first) in &BLOCKS {
        assert!(rt; stands(&host, *at, first), "block {at}");
    }
    Ok(())
}

/// The numbers of the blocks at three addresses: those before the commit, or those after it.
fn shown(new: bool) -> [u32; 3] {
    if new {
        [1000, 1001, 554]
    } else {
        [288, 553, 554]
    }
}

/// The numbers of the blocks at three addresses, and whether the journal is open.
fn found(host: &mut MemHost) -> Result<([u32; 3], bool), Fail> {
    let mut view = read(host).ok().ok_or("no view")?;
    let numbers = seen_three(&mut view, host).ok().ok_or("no block")?;
    Ok((numbers, view.is_pending()))
}

/// Whether a crash leaves these numbers, before a recovery and after it, and the recovery a closed journal.
fn leaves(
    alloc: Global,
    host: &MemHost,
    moment: u64,
    fill: u64,
    want: [u32; 3],
) -> Result<bool, Fail> {
    let mut left = after(alloc, host, moment, fill)?;
    let (before, _) = found(&mut left)?;
    let recovered = recover(&mut left).is_ok();
    Ok(recovered && before == want && found(&mut left)? == (want, false))
}

#[test]
fn each_crash_leaves_the_blocks_before_or_after(rt: HostRuntime) -> Result<(), Fail> {
    let host = committed(&rt, rt.alloc())?;
    assert!(rt; host.calls() == 11);
    for moment in 0..12 {
        for fill in 0..4 {
            let new = moment > 5 || moment == 5 && fill == 1;
            let right = leaves(rt.alloc(), &host, moment, fill, shown(new))?;
            assert!(rt; right, "moment {moment}, fill {fill}");
        }
    }
    Ok(())
}

/// Whether a replay of which this call fails is a fault of the disk, and the next one closes the journal and leaves both blocks at home.
fn is_made_again(alloc: Global, host: &MemHost, failing: u64) -> Result<bool, Fail> {
    let mut left = after(alloc, host, 7, 3)?;
    left.fail_at(failing)?;
    let answers = (recover(&mut left), recover(&mut left));
    let view = read(&mut left).ok().ok_or("no view")?;
    let at_home = stands(&left, 288, &[232, 3]) && stands(&left, 553, &[233, 3]);
    Ok(answers == (Err(JournalFault::Disk), Ok(())) && !view.is_pending() && at_home)
}

#[test]
fn a_replay_that_failed_can_be_made_again(rt: HostRuntime) -> Result<(), Fail> {
    let host = committed(&rt, rt.alloc())?;
    for failing in 0..9 {
        assert!(rt;
            is_made_again(rt.alloc(), &host, failing)?,
            "call {failing}"
        );
    }
    Ok(())
}

/// What a commit answers of which this call fails.
fn answer_at(
    rt: &impl Abort,
    alloc: Global,
    failing: u64,
) -> Result<Result<(), CommitFault>, Fail> {
    let (_host, answer) = commit_at(rt, alloc, failing)?;
    Ok(answer)
}

#[test]
fn a_fault_comes_before_or_after_the_gate(rt: HostRuntime) -> Result<(), Fail> {
    for failing in 0..12 {
        let answer = answer_at(&rt, rt.alloc(), failing)?;
        let want = match failing {
            0..=3 => Err(CommitFault::Before),
            4..=10 => Err(CommitFault::After),
            _ => Ok(()),
        };
        assert!(rt; answer == want, "call {failing}");
    }
    Ok(())
}

/// Blocks after a commit of the tables' addresses 11 and 18, by the bytes that aren't zeros. Block 2 is the header.
const TABLES: [(u32, &[u8]); 9] = [
    (0, &[0]),
    (1, &[0]),
    (
        2,
        &[
            0x49, 0x63, 0x65, 0x53, 0, 0, 0, 0, 2, 0, 0, 0, 0, 0, 0, 0, 11, 0, 0, 0, 18, 0, 0, 0,
        ],
    ),
    (3, &[232, 3]),
    (4, &[233, 3]),
    (5, &[5]),
    (11, &[232, 3]),
    (12, &[12]),
    (18, &[233, 3]),
];

/// A host of 800 blocks after that commit.
fn committed_tables(rt: &impl Abort, alloc: Global) -> Result<MemHost, Fail> {
    let set = pair(alloc, 11, 18)?;
    let mut host = host(rt, alloc, 0, &[0; 1024])?;
    let answer = commit_tables(&mut host, &set);
    assert!(rt; answer == Ok(()));
    Ok(host)
}

#[test]
fn the_tables_are_committed_likewise(rt: HostRuntime) -> Result<(), Fail> {
    let host = committed_tables(&rt, rt.alloc())?;
    assert_eq!(rt; counts(&host), (0, 7, 4));
    for (at, first) in &TABLES {
        assert!(rt; stands(&host, *at, first), "block {at}");
    }
    Ok(())
}
