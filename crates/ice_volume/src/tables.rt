//! The lines that delete a cube, and set it offline or online.
ghost use Rattle.std.specs.Prelude.{◌≡◌, ◌<◌, length, OnOk, OnErr};
ghost use Rattle.tree_spec.specs.Held.{RoomContent};
ghost use Rattle.tree_spec.specs.Lines.{Asks, Delete, Offline, Online};
ghost use Rattle.ice_volume.specs.Volumes.{HasRoom};
ghost use Rattle.ice_volume.specs.Lines.{AnswersLine};
ghost use Rattle.ice_volume.specs.Told.{told_of, CellBecomes};

use crate::cell::Cell;
use crate::fault::AreaFault;
use crate::volume::Volume;
use ice_base::Disk;
use ice_names::Mark;
use ice_system::SystemFault;
use tree_spec::{Path, Refusal, Reply, StateWord, Value};

/// The reply to a change of the tables.
pub(crate) fn told(change: Result<(), SystemFault>) -> Result<Reply, AreaFault>
    ensures { result ≡ told_of change }
{
    match change {
        Ok(()) => Ok(Ok(Value::Plain)),
        Err(SystemFault::Before) => Ok(Err(Refusal::Fault)),
        Err(SystemFault::After) => Err(AreaFault::Failed),
    }
}

/// Puts a cell into a slot where a change of the tables came to its end, and replies to the change.
pub(crate) fn settle(
    cells: &mut [Cell; 16],
    slot: u8,
    cell: Cell,
    change: Result<(), SystemFault>,
) -> Result<Reply, AreaFault>
    requires { slot < 16 }
    ensures told { result ≡ told_of change }
    ensures done { OnOk change (CellBecomes slot cell cells.old cells.new) }
    ensures failed { OnErr change (cells.new ≡ cells.old) }
    ensures count { length cells.new ≡ length cells.old }
{
    match change {
        Ok(()) => {
            cells[slot as usize] = cell;
            Ok(Ok(Value::Plain))
        }
        Err(SystemFault::Before) => Ok(Err(Refusal::Fault)),
        Err(SystemFault::After) => Err(AreaFault::Failed),
    }
}

impl Volume {
    /// Deletes the cube of a path, whatever its state: its row, its groups' owner, and its session.
    pub(crate) fn delete<D: Disk>(&mut self, disk: &mut D, path: &Path) -> Result<Reply, AreaFault>
        requires { HasRoom self.old (D.state disk.old) }
        ensures { (room : RoomContent)
            → AnswersLine D.state D.left (Asks (Delete path.now)) self.old self.new room result disk.old disk.new }
    {
        let slot = match self.find(path) {
            Some(slot) => slot,
            None => return Ok(Err(Refusal::NoCube)),
        };
        // This call tells the prover that there are no more than 16 slots.
        let _ = self.system.slots();
        let deleted = self.system.delete(disk, slot);
        settle(&mut self.cells, slot, Cell::Closed, deleted)
    }

    /// Sets the mark of a cube that is neither offline nor mounted. One that was stopped is so no longer.
    pub(crate) fn offline<D: Disk>(&mut self, disk: &mut D, path: &Path) -> Result<Reply, AreaFault>
        requires { HasRoom self.old (D.state disk.old) }
        ensures { (room : RoomContent)
            → AnswersLine D.state D.left (Asks (Offline path.now)) self.old self.new room result disk.old disk.new }
    {
        let slot = match self.find(path) {
            Some(slot) => slot,
            None => return Ok(Err(Refusal::NoCube)),
        };
        match self.state(slot) {
            StateWord::Offline => return Ok(Err(Refusal::State)),
            StateWord::Mounted => return Ok(Err(Refusal::Mounted)),
            _ => {}
        }
        // This call tells the prover that there are no more than 16 slots.
        let _ = self.system.slots();
        let marked = self.system.set_mark(disk, slot, Mark::Offline);
        settle(&mut self.cells, slot, Cell::Closed, marked)
    }

    /// Takes away the mark of a cube that is offline.
    pub(crate) fn online<D: Disk>(&mut self, disk: &mut D, path: &Path) -> Result<Reply, AreaFault>
        requires { HasRoom self.old (D.state disk.old) }
        ensures { (room : RoomContent)
            → AnswersLine D.state D.left (Asks (Online path.now)) self.old self.new room result disk.old disk.new }
    {
        let slot = match self.find(path) {
            Some(slot) => slot,
            None => return Ok(Err(Refusal::NoCube)),
        };
        match self.state(slot) {
            StateWord::Offline => {}
            _ => return Ok(Err(Refusal::State)),
        }
        told(self.system.set_mark(disk, slot, Mark::Online))
    }
}
