//! The journal of the tables, looked at and finished.
ghost use Rattle.std.specs.Prelude.{◌≡◌, ◌≤◌, ◌<◌, ℕ, true, IfOk, IfErr, IfSome, IsErrOf, OnOk};
ghost use Rattle.ice_base.specs.Disk.{Below, Everywhere, HasCause, Nowhere, block};
ghost use Rattle.ice_base.specs.Frames.{CrashStep, Settled, Within};
ghost use Rattle.ice_layout.specs.Headers.{is_table, targets_said, AreTargets};
ghost use Rattle.ice_tables.specs.Tables.{Tables, HasTables};
ghost use Rattle.ice_system.specs.Attaching.{Finishes, IsReplayed, RefusesJournal, SaysPending};
ghost use Rattle.ice_system.specs.declared.fault.TablesFault.TheVariants.{Disk as FaultDisk};

use crate::fault::TablesFault;
use ice_base::{Block, Disk};
use ice_journal::{SystemJournal, replay};
use ice_layout::{Header, LayoutFault, gate_is_on, read_system_header};

/// Reads a block of the volume's own.
pub(crate) fn look<D: Disk>(disk: &mut D, at: u32, into: &mut Block) -> Result<(), TablesFault>
    requires { at < (D.state disk.old).size }
    ensures within { Within D.state D.left Nowhere disk.old disk.new }
    ensures fault { IfErr result (λ fault. fault ≡ FaultDisk) }
    ensures cause { HasCause (D.state disk.old) (D.state disk.new) result }
    ensures calm { OnOk result ((D.state disk.new).faults ≡ (D.state disk.old).faults) }
    ensures bytes { (D.state disk.old).tells ≡ true → OnOk result (into.new ≡ block (D.state disk.old).now at) }
{
    match disk.read(at, into) {
        Ok(()) => Ok(()),
        Err(_) => Err(TablesFault::Disk),
    }
}

/// The header of an open journal of the tables, None where it is closed. Layout: it is open, and its header is refused.
fn pending<D: Disk>(disk: &mut D) -> Result<Option<Header>, TablesFault>
    requires { 19 ≤ (D.state disk.old).size }
    ensures within { Within D.state D.left Nowhere disk.old disk.new }
    // A header names blocks of the tables.
    ensures few { IfOk result (λ found. IfSome found (λ header. header.count ≤ 8)) }
    ensures targets { IfOk result (λ found. IfSome found (λ header. AreTargets 8 is_table (targets_said header))) }
    // What the gate and the header say.
    ensures reads { (D.state disk.old).tells ≡ true → IfOk result (λ found. SaysPending found (D.state disk.old).now) }
    ensures refused { IfErr result (λ fault. RefusesJournal fault (D.state disk.old) (D.state disk.new)) }
    ensures calm { ¬ IsErrOf result FaultDisk → (D.state disk.new).faults ≡ (D.state disk.old).faults }
{
    let mut bytes = [0; 1024];
    look(disk, 1, &mut bytes)?;
    if !gate_is_on(&bytes) {
        return Ok(None);
    }
    look(disk, 2, &mut bytes)?;
    match read_system_header(&bytes) {
        None => Err(TablesFault::Layout(LayoutFault::Header)),
        Some(header) => Ok(Some(header)),
    }
}

/// Replays the journal of the tables where it is open. Layout: it is open, and its header is refused.
pub(crate) fn finish_change<D: Disk>(disk: &mut D) -> Result<(), TablesFault>
    requires below { 19 ≤ (D.state disk.old).size }
    requires settled { (D.state disk.old).tells ≡ true → Settled Everywhere (D.state disk.old) }
    // Only the gate and the tables may change.
    ensures within { Within D.state D.left IsReplayed disk.old disk.new }
    // The tables are then at rest, and what they were.
    ensures done { (D.state disk.old).tells ≡ true → OnOk result (Finishes (D.state disk.old) (D.state disk.new)) }
    ensures refused { IfErr result (λ fault. RefusesJournal fault (D.state disk.old) (D.state disk.new)) }
    ensures calm { ¬ IsErrOf result FaultDisk → (D.state disk.new).faults ≡ (D.state disk.old).faults }
    // The tables that the image has are had at each crash within the call or after it.
    ensures crash { (t : Tables) → (D.state disk.old).tells ≡ true → HasTables (D.state disk.old).now t
        → CrashStep D.state D.left (Below 19) (λ i. HasTables i t) disk.old disk.new }
{
    let header = match pending(disk)? {
        None => return Ok(()),
        Some(header) => header,
    };
    let targets = &header.targets[..header.count as usize];
    match replay(disk, &SystemJournal, targets) {
        Ok(()) => Ok(()),
        Err(_) => Err(TablesFault::Disk),
    }
}
