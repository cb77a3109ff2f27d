//! The list of the cubes.
ghost use Rattle.std.specs.Prelude.{◌≡◌, ◌<◌, []};
ghost use Rattle.ice_names.specs.Names.{row_at};
ghost use Rattle.ice_volume.specs.Rows.{shown_row, shown_rows};

use crate::volume::Volume;
use ice_path::read_path;
use tree_spec::{CubeRow, Path, Room};

/// Another path of the same names.
#[tactic(auto, using(crate::proofs::Copies::names_again, crate::proofs::Copies::text_accepted))]
pub(crate) fn copy_path(path: &Path) -> Path
    ensures { result ≡ path.now }
{
    match read_path(path.text()) {
        Ok(copy) => copy,
        Err(_) => unreachable!(),
    }
}

impl Volume {
    /// The row of a slot's cube, where it has one.
    fn row(&self, slot: u8) -> Option<CubeRow>
        requires { slot < self.now.system.names.slots }
        ensures { result ≡ shown_row self.now slot (row_at self.now.system.names slot) }
    {
        let path = self.system.names().path(slot)?;
        Some(CubeRow {
            slot,
            groups: self.system.lot(slot).len(),
            state: self.state(slot),
            path: copy_path(path),
        })
    }

    /// Puts the rows of the cubes into the room, by slot.
    pub(crate) fn list(&self, room: &mut Room)
        requires { room.old.rows ≡ [] }
        ensures rows { room.new.rows ≡ shown_rows self.now self.now.system.names.slots }
        ensures entries { room.new.entries ≡ room.old.entries }
    {
        for slot in 0..self.system.names().slots() {
            if let Some(row) = self.row(slot) {
                room.add_row(row);
            }
        }
    }
}
