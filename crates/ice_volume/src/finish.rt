//! The end of a session.
ghost use Rattle.std.specs.Prelude.{◌≡◌, ◌≢◌, ◌&&◌, ℕ, OnErr, OnOk, is_ok, true, false};
ghost use Rattle.ice_base.specs.Disk.{HasCause, Outside, Rose};
ghost use Rattle.ice_base.specs.Frames.{LeavesOnly, With, Within};
ghost use Rattle.tree_spec.specs.World.{World};
ghost use Rattle.tree_spec.specs.declared.reply.Refusal.TheVariants.{Fault};
ghost use Rattle.ice_images.specs.Fitting.{Fits};
ghost use Rattle.ice_tables.specs.Lots.{lot_of, total};
ghost use Rattle.ice_system.specs.Systems.{tables_of};
ghost use Rattle.ice_volume.specs.Lines.{IsOfBroken, SaysBroken};
ghost use Rattle.ice_volume.specs.Sessions.{PutsAway, TriesAll, finished};
ghost use Rattle.ice_volume.specs.Volumes.{HasRoom, IsWritable, StandsFor};

use crate::list::copy_path;
use crate::volume::Volume;
use ice_base::{Disk, DiskFault};
use tree_spec::Refusal;

/// Whether an unmount failed: a cube that isn't mounted is refused otherwise.
fn fault_of(refusal: Refusal) -> Result<(), DiskFault>
    ensures failed { OnErr result (refusal ≡ Fault) }
    ensures other { OnOk result (refusal ≢ Fault) }
{
    match refusal {
        Refusal::Fault => Err(DiskFault::Failed),
        _ => Ok(()),
    }
}

/// Whether both went well.
fn both(first: bool, second: bool) -> bool
    ensures { result ≡ (first && second) }
{
    first && second
}

impl Volume {
    /// Unmounts the cube of a slot, where one is mounted. After an `Err` the cube is stopped.
    fn put_away<D: Disk>(&mut self, disk: &mut D, slot: u8) -> Result<(), DiskFault>
        requires room { HasRoom self.old (D.state disk.old) }
        ensures within { Within D.state D.left (IsWritable self.old) disk.old disk.new }
        ensures size { total (tables_of self.new.system) ≡ total (tables_of self.old.system) }
        ensures cause { is_ok result ≡ false → Rose (D.state disk.old).faults (D.state disk.new).faults }
        // From each world: each crash leaves an image that fits it, and the slot's record becomes that of a cube that was put away.
        ensures leaves { (w : World) → StandsFor self.old (D.state disk.old) w
            → LeavesOnly D.left disk.old disk.new (With (D.state disk.old).streams.aside (Fits w)) }
        ensures puts { (w : World) → StandsFor self.old (D.state disk.old) w
            → PutsAway slot (is_ok result) self.new (D.state disk.new) w }
        // A broken cube keeps its lot, and no block of it is written.
        ensures lots { (w : World) → StandsFor self.old (D.state disk.old) w → (x : ℕ) → SaysBroken (w.cube x)
            → lot_of (tables_of self.new.system) x ≡ lot_of (tables_of self.old.system) x }
        ensures spares { (w : World) → StandsFor self.old (D.state disk.old) w
            → Within D.state D.left (Outside (IsOfBroken (tables_of self.old.system) w)) disk.old disk.new }
    {
        if slot >= self.system.slots() {
            return Ok(());
        }
        let path = match self.system.names().path(slot) {
            Some(path) => copy_path(path),
            None => return Ok(()),
        };
        match self.unmount(disk, &path) {
            Ok(_) => Ok(()),
            Err(refusal) => fault_of(refusal),
        }
    }

    /// Unmounts every mounted cube, in the order of slots, going on after a fault. After an `Err` one unmount at least failed.
    pub fn finish<D: Disk>(&mut self, disk: &mut D) -> Result<(), DiskFault>
        requires { HasRoom self.old (D.state disk.old) }
        // Only blocks of the volume may change. A fault is the disk's.
        ensures within { Within D.state D.left (IsWritable self.old) disk.old disk.new }
        ensures cause { HasCause (D.state disk.old) (D.state disk.new) result }
        // From each world: each crash leaves an image that fits it, and an Ok leaves the world in which every mounted cube is unmounted,
        // with all that it had accepted.
        ensures leaves { (w : World) → StandsFor self.old (D.state disk.old) w
            → LeavesOnly D.left disk.old disk.new (With (D.state disk.old).streams.aside (Fits w)) }
        ensures closes { (w : World) → StandsFor self.old (D.state disk.old) w
            → OnOk result (StandsFor self.new (D.state disk.new) (finished w)) }
        // However it ends, an unmount of every cube was tried, and no block of a broken cube is written.
        ensures tries { (w : World) → StandsFor self.old (D.state disk.old) w → TriesAll self.new (D.state disk.new) w }
        ensures spares { (w : World) → StandsFor self.old (D.state disk.old) w
            → Within D.state D.left (Outside (IsOfBroken (tables_of self.old.system) w)) disk.old disk.new }
    {
        // This call tells the prover that the image has at most 16 slots.
        let _ = self.system.slots();
        let mut ok = true;
        for slot in 0..16 {
            let away = self.put_away(disk, slot).is_ok();
            ok = both(ok, away);
        }
        if ok { Ok(()) } else { Err(DiskFault::Failed) }
    }
}
