//! A fresh image.
ghost use Rattle.std.specs.Prelude.{◌≡◌, ◌<◌, ◌≤◌, true, OnOk};
ghost use Rattle.ice_base.specs.Disk.{Below, Everywhere, HasCause};
ghost use Rattle.ice_base.specs.Frames.{Within, Settled};
ghost use Rattle.ice_layout.specs.Supers.{is_geometry, IsFreshImage};

use ice_base::{Disk, DiskFault};
use ice_layout::{Super, fresh_block};

/// Writes blocks 0 to 31 of the fresh image.
fn write_fresh<D: Disk>(disk: &mut D, sup: &Super) -> Result<(), DiskFault>
    requires geometry { is_geometry sup.now ≡ true }
    requires room { 32 ≤ (D.state disk.old).size }
    ensures within { Within D.state D.left (Below 32) disk.old disk.new }
    ensures cause { HasCause (D.state disk.old) (D.state disk.new) result }
    ensures fresh { (D.state disk.old).tells ≡ true → OnOk result (IsFreshImage sup.now (D.state disk.new).now) }
{
    let mut block = [0; 1024];
    for at in 0..32u32 {
        fresh_block(sup, at, &mut block);
        disk.write(at, &block)?;
    }
    Ok(())
}

/// Writes the fresh image and settles it.
pub(crate) fn format<D: Disk>(disk: &mut D, sup: &Super) -> Result<(), DiskFault>
    requires geometry { is_geometry sup.now ≡ true }
    requires room { 32 ≤ (D.state disk.old).size }
    ensures within { Within D.state D.left (Below 32) disk.old disk.new }
    ensures cause { HasCause (D.state disk.old) (D.state disk.new) result }
    ensures fresh { (D.state disk.old).tells ≡ true → OnOk result (IsFreshImage sup.now (D.state disk.new).now) }
    ensures settled { (D.state disk.old).tells ≡ true → OnOk result (Settled Everywhere (D.state disk.new)) }
{
    write_fresh(disk, sup)?;
    disk.barrier()?;
    Ok(())
}
