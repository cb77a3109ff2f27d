//! A keep that holds all changes back until it commits them.
ghost use Rattle.std.specs.Prelude.{is_ok, ◌≡◌, ◌⊎◌, ◌≤◌, ◌+◌, ◌*◌, ◌-◌, ◌==◌, true, [], List, ℕ, length, IfOk, IsOk, OnOk, OnErr};
ghost use Rattle.ice_base.specs.Counts.{Made};
ghost use Rattle.ice_base.specs.Disk.{HasCause, Everywhere, block};
ghost use Rattle.ice_base.specs.Frames.{Within, CrashStep, Settled, Sure};
ghost use Rattle.ice_base.specs.Lots.{inside, inside_out, homes, is_sited, gate_place};
ghost use Rattle.ice_layout.specs.Headers.{is_open, slot_targets};
ghost use Rattle.ice_tables.specs.Journals.{lot_places};
ghost use Rattle.ice_txn.specs.Sets.{holds, over};
ghost use Rattle.ice_journal.specs.Blocks.{AreHomes, CommitBlocks, JournalExtent};
ghost use Rattle.ice_journal.specs.Phases.{BeforeOrAfter, IsAtRest};
ghost use Rattle.ice_journal.specs.Rests.{BlocksEither, LotAtRest, RestsLot};
ghost use Rattle.ice_keep.specs.Journaled.{HeldBack, held_refl, held_then};

use ice_base::{Block, BlockFault, Disk, DiskFault, Keep, Lot, View};
use ice_journal::{CommitFault, commit};
use ice_txn::WriteSet;
use std::alloc::{AllocError, Global};
use std::marker::Model;

/// Holds changed blocks in memory, with their addresses, at most as many as a journal has bodies for, and writes them in one commit.
#[derive(Drop)]
pub struct JournalKeep {
    set: WriteSet,
}

impl Model for JournalKeep {
    ghost use Rattle.std.specs.Prelude.{◌≡◌, ◌≤◌, length};
    ghost use Rattle.ice_txn.specs.Sets.{SetView};

    ghost Value = { SetView };

    ghost view = { λ k. k.set };

    ghost invariant = { λ k. (k.set.most ≡ 240) × (length k.set.entries ≤ 240) };
}

impl JournalKeep {
    /// It holds nothing yet, and has room for 240 blocks. No later call takes memory.
    pub fn new(alloc: Global) -> Result<JournalKeep, AllocError>
        ensures { IfOk result (λ k. k.entries ≡ []) }
    {
        let set = WriteSet::new(alloc)?;
        Ok(JournalKeep { set })
    }

    /// How many blocks it holds.
    pub fn len(&self) -> u32
        ensures len { result ≡ length self.now.entries }
        ensures few { result ≤ 240 }
    {
        self.set.len()
    }

    /// Whether it holds none.
    pub fn is_empty(&self) -> bool
        ensures { result ≡ (length self.now.entries == 0) }
    {
        self.set.len() == 0
    }

    /// Writes what it holds, in one commit of the lot's journal: bodies and header, the gate opened, the homes, the gate closed, each
    /// settled by a barrier before the next. Where it holds nothing it calls no disk.
    pub fn commit<D: Disk>(&mut self, disk: &mut D, lot: &Lot) -> Result<(), DiskFault>
        requires sited { is_sited lot.now (D.state disk.old).size ≡ true }
        requires homes { AreHomes (lot_places lot.now) self.old.entries }
        // After an Ok it holds nothing, and after an Err what it held.
        ensures emptied { OnOk result (self.new.entries ≡ []) }
        ensures kept { OnErr result (self.new ≡ self.old) }
        // Where it held nothing, nothing happens.
        ensures nothing { self.old.entries ≡ [] → disk.new ≡ disk.old }
        ensures good { self.old.entries ≡ [] → IsOk result }
        // Only the gate, the header, as many bodies as it held blocks, and their homes may change. Faults come from the disk alone.
        ensures within { Within D.state D.left (CommitBlocks (lot_places lot.now) self.old.entries) disk.old disk.new }
        ensures cause { HasCause (D.state disk.old) (D.state disk.new) result }
        ensures calm { OnOk result ((D.state disk.new).faults ≡ (D.state disk.old).faults) }
        // From a lot at rest each crash, within the call or after it, leaves the blocks as they were or with all changes, and so do reads.
        ensures crash { (map : ℕ → List ℕ) → Sure (RestsLot lot.now) (LotAtRest lot.now map) (D.state disk.old)
            → CrashStep D.state D.left (JournalExtent (lot_places lot.now) 240) (BlocksEither lot.now self.old.entries map) disk.old disk.new }
        ensures either { (map : ℕ → List ℕ) → Sure (RestsLot lot.now) (LotAtRest lot.now map) (D.state disk.old)
            → BlocksEither lot.now self.old.entries map (D.state disk.new).now }
        // An Ok leaves it at rest with all changes.
        ensures done { (map : ℕ → List ℕ) → Sure (RestsLot lot.now) (LotAtRest lot.now map) (D.state disk.old)
            → OnOk result (Sure (RestsLot lot.now) (LotAtRest lot.now (over self.old.entries map)) (D.state disk.new)) }
        // An Err leaves it at rest as it was, or the gate loose or open.
        ensures failed { (map : ℕ → List ℕ) → Sure (RestsLot lot.now) (LotAtRest lot.now map) (D.state disk.old)
            → OnErr result (Sure (RestsLot lot.now) (LotAtRest lot.now map) (D.state disk.new)
            ⊎ ((D.state disk.new).loose (gate_place lot.now) ≡ true)
            ⊎ (is_open (block (D.state disk.new).now (gate_place lot.now)) ≡ true)) }
        // The same of what the journal stands for.
        ensures stands { (map : ℕ → List ℕ) → IsAtRest (lot_places lot.now) map (D.state disk.old)
            → CrashStep D.state D.left (JournalExtent (lot_places lot.now) 240)
            (BeforeOrAfter (slot_targets lot.now) (lot_places lot.now) self.old.entries map) disk.old disk.new }
        ensures idle { (map : ℕ → List ℕ) → IsAtRest (lot_places lot.now) map (D.state disk.old)
            → OnOk result (IsAtRest (lot_places lot.now) (over self.old.entries map) (D.state disk.new)) }
        // Where it held m blocks: 2 m + 3 writes and 4 barriers, after which every block is settled.
        ensures settled { (D.state disk.old).tells ≡ true → 1 ≤ length self.old.entries
            → OnOk result (Settled Everywhere (D.state disk.new)) }
        ensures counts { (D.state disk.old).tells ≡ true → 1 ≤ length self.old.entries
            → Made (2 * length self.old.entries + 3) 4 (is_ok result) (D.state disk.old) (D.state disk.new) }
    {
        // This call tells the prover that the lot is one.
        let _ = lot.len();
        if self.set.len() == 0 {
            return Ok(());
        }
        match commit(disk, lot, &self.set) {
            Ok(()) => {
                self.set.clear();
                Ok(())
            }
            Err(CommitFault::Before) => Err(DiskFault::Failed),
            Err(CommitFault::After) => Err(DiskFault::Failed),
        }
    }
}

#[tactic(auto, using(ice_base::proofs::LotLaws::inside_laws, ice_txn::proofs::SetLaws::set_laws))]
impl<D: Disk> View<D> for JournalKeep {
    ghost map = { λ v d lot. inside lot (over v.entries (homes lot (D.state d).now)) };

    ghost shows = { λ lot v d. (D.state d).tells ≡ true };

    ghost held = { λ v. holds v.entries };

    ghost room = { λ v. 240 - length v.entries };

    ghost steady = { λ lot v d w e. HeldBack D.state D.left lot v d w e };

    fn get(
        &mut self,
        disk: &mut D,
        lot: &Lot,
        at: u32,
        into: &mut Block,
    ) -> Result<(), BlockFault> {
        match lot.place(at) {
            None => Err(BlockFault::Range),
            Some(home) => {
                if let Some(block) = self.set.find(at) {
                    *into = *block;
                    return Ok(());
                }
                match disk.read(home, into) {
                    Ok(()) => Ok(()),
                    Err(_) => Err(BlockFault::Disk),
                }
            }
        }
    }

    ghost outside = { λ v d lot. inside_out lot (over v.entries (homes lot (D.state d).now)) };

    ghost steady_trans = { λ lot u d v e w f. held_then D.state D.left lot u d v e w f };

    ghost steady_refl = { λ lot v d. held_refl D.state D.left lot v d };
}

impl<D: Disk> Keep<D> for JournalKeep {
    fn put(&mut self, disk: &mut D, lot: &Lot, at: u32, from: &Block) -> Result<(), BlockFault> {
        // This call tells the prover that the disk has fewer than 2^32 blocks.
        let _ = disk.blocks();
        match lot.place(at) {
            None => Err(BlockFault::Range),
            Some(_) => {
                self.set.put(at, from);
                Ok(())
            }
        }
    }

    fn spare(&self) -> u32 {
        240 - self.set.len()
    }
}
