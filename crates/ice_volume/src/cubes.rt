//! The lines to one cube: sync, unmount, mount, check.
ghost use Rattle.std.specs.Prelude.{◌≡◌, ◌≤◌, ◌<◌, ℕ, true, None, Ok, IfNone, IfSome, length};
ghost use Rattle.ice_base.specs.Disk.{DiskState};
ghost use Rattle.ice_base.specs.Lots.{is_sited};
ghost use Rattle.tree_spec.specs.Held.{RoomContent};
ghost use Rattle.tree_spec.specs.Lines.{Asks, Sync, Unmount, Mount, Check};
ghost use Rattle.tree_spec.specs.World.{World};
ghost use Rattle.ice_tables.specs.Lots.{lot_of, total};
ghost use Rattle.ice_system.specs.Systems.{tables_of};
ghost use Rattle.ice_volume.specs.Lines.{AnswersLine};
ghost use Rattle.ice_volume.specs.Volumes.{HasRoom, StandsFor};
ghost use Rattle.ice_volume.specs.declared.fault.AreaFault.{AreaFault};

use crate::orders::{check_cell, mount_cell, sync_cell, unmount_cell};
use crate::volume::Volume;
use ice_base::{Disk, Lot};
use tree_spec::{Path, Refusal, Reply};

impl Volume {
    /// The lot of a slot's cube, which has a group. None: the slot is free.
    pub(crate) fn lot(&self, slot: u8) -> Option<Lot>
        requires { slot < self.now.system.names.slots }
        // It lies on a disk that has all blocks of the volume.
        ensures lot { IfSome result (λ l. l ≡ lot_of (tables_of self.now.system) slot) }
        ensures low { slot < 16 }
        ensures some { IfSome result (λ l. 1 ≤ length l.groups) }
        ensures sited { (n : ℕ) → total (tables_of self.now.system) ≤ n → IfSome result (λ l. is_sited l n ≡ true) }
        ensures none { (s : DiskState) (w : World) → StandsFor self.now s w → IfNone result (w.cube slot ≡ None) }
    {
        // The first call tells the prover that the image has at most 16 slots.
        let _ = self.system.slots();
        let lot = self.system.lot(slot);
        if lot.len() == 0 {
            return None;
        }
        Some(lot)
    }

    /// Syncs the cube of a path.
    pub(crate) fn sync<D: Disk>(&mut self, disk: &mut D, path: &Path) -> Reply
        requires { HasRoom self.old (D.state disk.old) }
        ensures { (room : RoomContent)
            → AnswersLine {X = AreaFault} D.state D.left (Asks (Sync path.now)) self.old self.new room (Ok result) disk.old disk.new }
    {
        let slot = match self.find(path) {
            Some(slot) => slot,
            None => return Err(Refusal::NoCube),
        };
        let _lot = match self.lot(slot) {
            Some(lot) => lot,
            None => return Err(Refusal::NoCube),
        };
        let offline = self.is_offline(slot);
        sync_cell(&mut self.cells[slot as usize], disk, offline)
    }

    /// Unmounts the cube of a path.
    pub(crate) fn unmount<D: Disk>(&mut self, disk: &mut D, path: &Path) -> Reply
        requires { HasRoom self.old (D.state disk.old) }
        ensures { (room : RoomContent)
            → AnswersLine {X = AreaFault} D.state D.left (Asks (Unmount path.now)) self.old self.new room (Ok result) disk.old disk.new }
    {
        let slot = match self.find(path) {
            Some(slot) => slot,
            None => return Err(Refusal::NoCube),
        };
        let _lot = match self.lot(slot) {
            Some(lot) => lot,
            None => return Err(Refusal::NoCube),
        };
        let offline = self.is_offline(slot);
        unmount_cell(&mut self.cells[slot as usize], disk, offline)
    }

    /// Mounts the cube of a path.
    pub(crate) fn mount<D: Disk>(&mut self, disk: &mut D, path: &Path) -> Reply
        requires { HasRoom self.old (D.state disk.old) }
        ensures { (room : RoomContent)
            → AnswersLine {X = AreaFault} D.state D.left (Asks (Mount path.now)) self.old self.new room (Ok result) disk.old disk.new }
    {
        let slot = match self.find(path) {
            Some(slot) => slot,
            None => return Err(Refusal::NoCube),
        };
        let lot = match self.lot(slot) {
            Some(lot) => lot,
            None => return Err(Refusal::NoCube),
        };
        let state = self.state(slot);
        mount_cell(
            &mut self.cells[slot as usize],
            self.alloc,
            disk,
            &lot,
            state,
        )
    }

    /// Checks the cube of a path.
    pub(crate) fn check<D: Disk>(&mut self, disk: &mut D, path: &Path) -> Reply
        requires { HasRoom self.old (D.state disk.old) }
        ensures { (room : RoomContent)
            → AnswersLine {X = AreaFault} D.state D.left (Asks (Check path.now)) self.old self.new room (Ok result) disk.old disk.new }
    {
        let slot = match self.find(path) {
            Some(slot) => slot,
            None => return Err(Refusal::NoCube),
        };
        let lot = match self.lot(slot) {
            Some(lot) => lot,
            None => return Err(Refusal::NoCube),
        };
        check_cell(&mut self.cells[slot as usize], disk, &lot)
    }
}
