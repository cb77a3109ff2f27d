//! The lines that make a cube, and give one further groups.
ghost use Rattle.std.specs.Prelude.{◌≡◌, ◌≤◌, ◌<◌, length, OnOk, OnErr};
ghost use Rattle.tree_spec.specs.Held.{RoomContent};
ghost use Rattle.tree_spec.specs.Lines.{Asks, Create, Grow};
ghost use Rattle.tree_spec.specs.Names.{text_of};
ghost use Rattle.ice_volume.specs.Cells.{cell_at};
ghost use Rattle.ice_volume.specs.Volumes.{HasRoom};
ghost use Rattle.ice_volume.specs.Lines.{AnswersLine};
ghost use Rattle.ice_volume.specs.Told.{told_of, CellBecomes, IsWidened, MayWiden};

use crate::cell::Cell;
use crate::fault::AreaFault;
use crate::tables::settle;
use crate::volume::Volume;
use ice_base::{Disk, Lot};
use ice_cube::{Cube, MakeFault, init_groups, wider_lots_have_the_same};
use ice_system::SystemFault;
use tree_spec::{Path, Refusal, Reply, Value};

/// Takes the further groups of a wider lot into use, where a session has the cube.
fn widen<D: Disk>(cell: &mut Cell, disk: &D, lot: &Lot)
    requires { MayWiden lot.now cell.old }
    ensures { IsWidened lot.now (D.state disk.now) cell.old cell.new }
{
    match cell {
        Cell::Closed => {}
        Cell::Stopped => {}
        Cell::Open(cube) => cube.widen(disk, lot),
    }
}

/// Widens the cell of a slot where a change of the tables came to its end, and replies to the change.
fn settle_wider<D: Disk>(
    cells: &mut [Cell; 16],
    slot: u8,
    disk: &D,
    lot: &Lot,
    change: Result<(), SystemFault>,
) -> Result<Reply, AreaFault>
    requires slot { slot < 16 }
    requires wider { MayWiden lot.now (cell_at cells.old slot) }
    ensures told { result ≡ told_of change }
    ensures done { OnOk change (CellBecomes slot (cell_at cells.new slot) cells.old cells.new) }
    ensures widened { OnOk change (IsWidened lot.now (D.state disk.now) (cell_at cells.old slot) (cell_at cells.new slot)) }
    ensures failed { OnErr change (cells.new ≡ cells.old) }
    ensures count { length cells.new ≡ length cells.old }
{
    match change {
        Ok(()) => {
            widen(&mut cells[slot as usize], disk, lot);
            Ok(Ok(Value::Plain))
        }
        Err(SystemFault::Before) => Ok(Err(Refusal::Fault)),
        Err(SystemFault::After) => Err(AreaFault::Failed),
    }
}

impl Volume {
    /// Makes a cube of this path with so many groups, and mounts it. Its lot is made before the tables name it, so that a crash leaves the
    /// cube whole or not at all. The first that applies of Exists, NoSlot, CubeFull, NoGroups; then Memory, before any call of the disk.
    pub(crate) fn create<D: Disk>(
        &mut self,
        disk: &mut D,
        path: &Path,
        groups: u32,
    ) -> Result<Reply, AreaFault>
        requires room { HasRoom self.old (D.state disk.old) }
        requires some { 1 ≤ groups }
        requires short { length (text_of path.now) ≤ 199 }
        ensures { (room : RoomContent)
            → AnswersLine D.state D.left (Asks (Create path.now groups)) self.old self.new room result disk.old disk.new }
    {
        let lot = match self.system.plan_create(path, groups) {
            Ok(lot) => lot,
            Err(refusal) => return Ok(Err(refusal)),
        };
        let cube = match Cube::make(self.alloc, disk, &lot) {
            Ok(cube) => cube,
            Err(MakeFault::Memory) => return Ok(Err(Refusal::Memory)),
            Err(MakeFault::Disk) => return Ok(Err(Refusal::Fault)),
        };
        let named = self.system.create(disk, path, &lot);
        settle(&mut self.cells, lot.slot(), Cell::Open(cube), named)
    }

    /// Gives the cube of a path so many groups more, whatever its state. They are made before the tables name them. The first that
    /// applies of NoCube, CubeFull, NoGroups.
    pub(crate) fn grow<D: Disk>(
        &mut self,
        disk: &mut D,
        path: &Path,
        groups: u32,
    ) -> Result<Reply, AreaFault>
        requires room { HasRoom self.old (D.state disk.old) }
        requires some { 1 ≤ groups }
        ensures { (room : RoomContent)
            → AnswersLine D.state D.left (Asks (Grow path.now groups)) self.old self.new room result disk.old disk.new }
    {
        let slot = match self.find(path) {
            Some(slot) => slot,
            None => return Ok(Err(Refusal::NoCube)),
        };
        let lot = match self.system.plan_grow(slot, groups) {
            Ok(lot) => lot,
            Err(refusal) => return Ok(Err(refusal)),
        };
        let first = self.system.lot(slot).len();
        // This call tells the prover that the planned lot is a proper one.
        let _ = lot.len();
        match init_groups(disk, &lot, first) {
            Ok(()) => {}
            Err(_) => return Ok(Err(Refusal::Fault)),
        }
        wider_lots_have_the_same();
        let named = self.system.grow(disk, slot, &lot);
        settle_wider(&mut self.cells, slot, disk, &lot, named)
    }
}
