//! Calls of a keep over a disk of a known size.
ghost use Rattle.std.specs.Prelude.{◌≡◌, ◌≤◌, true, length, IfOk};
ghost use Rattle.ice_base.specs.Lots.{is_sited};
ghost use Rattle.ice_tables.specs.Journals.{lot_places};
ghost use Rattle.ice_journal.specs.Blocks.{AreHomes};

use ice_base::{Block, BlockFault, Disk, DiskFault, FormOne, Keep, Lot};
use ice_journal::{Effective, JournalFault};
use ice_keep::JournalKeep;
use ice_pool::BitPool;
use ice_recover::replay;
use ice_tree::mkdir;
use std::alloc::{AllocError, Global};
use tree_spec::{Path, Refusal};

/// The most addresses that a keep may hold before a command.
const MOST_HELD: u32 = 144;

/// A keep that holds nothing, to be used for the lot.
#[tactic(auto, using(ice_keep::proofs::JournaledLaws::none_homes))]
pub fn empty_keep(alloc: Global, lot: &Lot) -> Result<JournalKeep, AllocError>
    ensures homes { IfOk result (λ k. AreHomes (lot_places lot.now) k.entries) }
{
    JournalKeep::new(alloc)
}

/// Makes a directory. Fault: the disk has another size, or the keep holds too much.
pub fn dir_in<D: Disk>(
    keep: &mut JournalKeep,
    disk: &mut D,
    lot: &Lot,
    size: u32,
    path: &Path,
) -> Result<(), Refusal>
    requires sited { is_sited lot.now size ≡ true }
    requires some { 1 ≤ length lot.now.groups }
    requires homes { AreHomes (lot_places lot.now) keep.old.entries }
    ensures homes { AreHomes (lot_places lot.now) keep.new.entries }
{
    if disk.blocks() != size || keep.len() > MOST_HELD {
        return Err(Refusal::Fault);
    }
    let mut pool = BitPool::new();
    mkdir::<D, JournalKeep, BitPool, FormOne>(keep, &mut pool, disk, lot, path, 0)
}

/// Puts a block. Disk: the disk has another size, or the keep is full.
pub fn put_in<D: Disk>(
    keep: &mut JournalKeep,
    disk: &mut D,
    lot: &Lot,
    size: u32,
    at: u32,
    from: &Block,
) -> Result<(), BlockFault>
    requires sited { is_sited lot.now size ≡ true }
    requires homes { AreHomes (lot_places lot.now) keep.old.entries }
    ensures homes { AreHomes (lot_places lot.now) keep.new.entries }
{
    if disk.blocks() != size || keep.len() >= 240 {
        return Err(BlockFault::Disk);
    }
    keep.put(disk, lot, at, from)
}

/// Commits what the keep holds.
pub fn commit_in<D: Disk>(
    keep: &mut JournalKeep,
    disk: &mut D,
    lot: &Lot,
    size: u32,
) -> Result<(), DiskFault>
    requires sited { is_sited lot.now size ≡ true }
    requires homes { AreHomes (lot_places lot.now) keep.old.entries }
    ensures homes { AreHomes (lot_places lot.now) keep.new.entries }
{
    if disk.blocks() != size {
        return Err(DiskFault::Failed);
    }
    keep.commit(disk, lot)
}

/// Makes a barrier, and replays the journal of the lot where it is open.
pub fn recover_in<D: Disk>(disk: &mut D, lot: &Lot, size: u32) -> Result<(), JournalFault>
    requires sited { is_sited lot.now size ≡ true }
{
    if disk.blocks() != size || disk.barrier().is_err() {
        return Err(JournalFault::Disk);
    }
    let view = Effective::read(disk, lot)?;
    if !view.is_pending() {
        return Ok(());
    }
    match replay(disk, lot, &view) {
        Ok(()) => Ok(()),
        Err(_) => Err(JournalFault::Disk),
    }
}
