//! Opening the volume of a disk.
ghost use Rattle.std.specs.Prelude.{◌≡◌, ◌⊎◌, true, false, IfOk, IfErr, IsErrOf};
ghost use Rattle.ice_base.specs.Frames.{LeavesOnly, With, Within};
ghost use Rattle.tree_spec.specs.World.{World};
ghost use Rattle.ice_images.specs.Fitting.{Fits};
ghost use Rattle.ice_tables.specs.Tables.{HasTables};
ghost use Rattle.ice_system.specs.Attaching.{IsReplayed, RefusesDisk};
ghost use Rattle.ice_system.specs.Systems.{tables_of};
ghost use Rattle.ice_system.specs.declared.fault.TablesFault.TheVariants.{Disk as FaultDisk, Memory, Small};
ghost use Rattle.ice_volume.specs.Sessions.{AllClosed, IsOfHost, Starts};
ghost use Rattle.ice_volume.specs.Volumes.{HasRoom, StandsFor};

use crate::cell::Cell;
use crate::volume::Volume;
use ice_base::Disk;
use ice_system::{System, TablesFault};
use std::alloc::Global;

/// A cell of no cube for each slot.
fn no_cubes() -> [Cell; 16]
    ensures { AllClosed result }
{
    [
        Cell::Closed,
        Cell::Closed,
        Cell::Closed,
        Cell::Closed,
        Cell::Closed,
        Cell::Closed,
        Cell::Closed,
        Cell::Closed,
        Cell::Closed,
        Cell::Closed,
        Cell::Closed,
        Cell::Closed,
        Cell::Closed,
        Cell::Closed,
        Cell::Closed,
        Cell::Closed,
    ]
}

impl Volume {
    /// Opens the tables of a disk, by a barrier first and the replay of a change that was cut short. No cube is mounted.
    /// Memory, for the blocks of a change of the tables, is taken before any call of the disk.
    pub fn attach<D: Disk>(alloc: Global, disk: &mut D) -> Result<Volume, TablesFault>
        // Only the gate and the tables may change, and they only where a change was cut short.
        ensures within { Within D.state D.left IsReplayed disk.old disk.new }
        // What it opens: the tables that the image has, and no cube.
        ensures has { (D.state disk.old).tells ≡ true → IfOk result (λ v. HasTables (D.state disk.old).now (tables_of v.system)) }
        ensures room { IfOk result (λ v. HasRoom v (D.state disk.old)) }
        ensures ready { IfOk result (λ v. v.system.failed ≡ false) }
        ensures closed { IfOk result (λ v. AllClosed v.cells) }
        // Why it opens nothing, the first fault that applies.
        ensures refused { IfErr result (λ fault. RefusesDisk fault (D.state disk.old) (D.state disk.new)) }
        ensures memory { IsErrOf result Memory → disk.new ≡ disk.old }
        ensures no_block { (D.state disk.old).size ≡ 0 → (IsErrOf result Small ⊎ IsErrOf result Memory) × (disk.new ≡ disk.old) }
        ensures calm { ¬ IsErrOf result FaultDisk → (D.state disk.new).faults ≡ (D.state disk.old).faults }
        // From each world that the image opens: it stands for the world, each crash leaves an image that fits it, and only the host refuses.
        ensures opens { (w : World) → Starts (D.state disk.old) w → IfOk result (λ v. StandsFor v (D.state disk.new) w) }
        ensures leaves { (w : World) → Starts (D.state disk.old) w
            → LeavesOnly D.left disk.old disk.new (With (D.state disk.old).streams.aside (Fits w)) }
        ensures host { (w : World) → Starts (D.state disk.old) w → IfErr result IsOfHost }
    {
        match System::attach(alloc, disk) {
            Ok(system) => Ok(Volume {
                alloc,
                system,
                cells: no_cubes(),
            }),
            Err(fault) => Err(fault),
        }
    }
}
