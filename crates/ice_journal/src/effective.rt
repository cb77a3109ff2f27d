//! What the gate and the header of a lot's journal say.
ghost use Rattle.std.specs.Prelude.{◌≡◌, ◌≢◌, ◌<◌, ◌≤◌, ℕ, [], true, None, Some, OnOk, IfOk, IsErrOf, length, slice_index, MatchOption};
ghost use Rattle.ice_base.specs.Disk.{HasCause, block, Caused};
ghost use Rattle.ice_base.specs.Lots.{is_address, is_sited, place, gate_place};
ghost use Rattle.ice_base.specs.Still.{Still};
ghost use Rattle.ice_layout.specs.Headers.{is_open, may_be_address, targets_said, IsProperHeader};
ghost use Rattle.ice_tables.specs.Journals.{effective_of, lot_places};
ghost use Rattle.ice_journal.specs.Shown.{targets_now, shown, source, are_some, AreNoneOrTargets};
ghost use Rattle.ice_journal.specs.declared.effective.JournalFault.TheVariants.{Disk as FaultDisk, Header as FaultHeader};

use crate::area_of;
use ice_base::{Block, Disk, DiskFault, Lot};
use ice_layout::{Header, gate_is_on, read_header};
use std::marker::Model;

/// Why the blocks that a journal leaves could not be told.
#[derive(Clone, Copy, Debug, PartialEq, Eq)]
pub enum JournalFault {
    /// The disk failed. Its count of faults says so as well.
    Disk = 1,
    /// The gate is open, and the header is refused.
    Header,
}

/// The effective blocks of a lot: the bodies of its journal in place of their targets where the gate was open when it was read, and
/// the homes elsewhere. It is seen as the list of the targets, none where the gate was closed.
#[derive(Drop)]
pub struct Effective {
    targets: [u32; 240],
    count: u16,
}

impl Model for Effective {
    ghost use Rattle.std.specs.Prelude.{List, ℕ, take, ◌≤◌};

    ghost Value = { List ℕ };

    ghost view = { λ v. take v.count v.targets };

    ghost invariant = { λ v. v.count ≤ 240 };
}

/// A read of a block, and what it leaves.
pub(crate) fn look<D: Disk>(disk: &mut D, at: u32, into: &mut Block) -> Result<(), DiskFault>
    requires { at < (D.state disk.old).size }
    ensures still { Still D.state D.left disk.old disk.new }
    ensures cause { HasCause (D.state disk.old) (D.state disk.new) result }
    ensures calm { OnOk result ((D.state disk.new).faults ≡ (D.state disk.old).faults) }
    ensures bytes { (D.state disk.old).tells ≡ true
        → OnOk result (into.new ≡ block (D.state disk.old).now at) }
{
    disk.read(at, into)
}

impl Effective {
    fn closed() -> Effective
        ensures { result ≡ [] }
    {
        Effective {
            targets: [0; 240],
            count: 0,
        }
    }

    fn open(header: &Header) -> Effective
        requires { IsProperHeader 240 may_be_address header.now }
        ensures { result ≡ targets_said header.now }
    {
        Effective {
            targets: header.targets,
            count: header.count,
        }
    }

    /// Reads the gate of a lot's journal and, where it is open, the header. Header: the gate is open and the header refused, so that the
    /// lot has no effective blocks. At most two blocks are read.
    pub fn read<D: Disk>(disk: &mut D, lot: &Lot) -> Result<Effective, JournalFault>
        requires { is_sited lot.now (D.state disk.old).size ≡ true }
        ensures still { Still D.state D.left disk.old disk.new }
        ensures targets { IfOk result (AreNoneOrTargets lot.now) }
        // On a disk that tells: the targets that count, and so what the lot stands for.
        ensures reads { (D.state disk.old).tells ≡ true
            → IfOk result (λ v. targets_now lot.now (D.state disk.old).now ≡ Some v) }
        ensures effective { (D.state disk.old).tells ≡ true
            → IfOk result (λ v. effective_of lot.now (D.state disk.old).now
            ≡ Some (shown v lot.now (D.state disk.new).now)) }
        ensures pending { (D.state disk.old).tells ≡ true → IfOk result (λ v.
            are_some v ≡ is_open (block (D.state disk.old).now (gate_place lot.now))) }
        ensures refused { (D.state disk.old).tells ≡ true → IsErrOf result FaultHeader
            → targets_now lot.now (D.state disk.old).now ≡ None }
        ensures undefined { (D.state disk.old).tells ≡ true → IsErrOf result FaultHeader
            → effective_of lot.now (D.state disk.old).now ≡ None }
        // Faults come from the disk alone.
        ensures calm { ¬ IsErrOf result FaultDisk
            → (D.state disk.new).faults ≡ (D.state disk.old).faults }
        ensures failed { Caused D.state FaultDisk result disk.old disk.new }
    {
        let area = area_of(lot);
        let mut bytes = [0; 1024];
        match look(disk, area.gate, &mut bytes) {
            Ok(()) => {}
            Err(_) => return Err(JournalFault::Disk),
        }
        if !gate_is_on(&bytes) {
            return Ok(Effective::closed());
        }
        match look(disk, area.header, &mut bytes) {
            Ok(()) => {}
            Err(_) => return Err(JournalFault::Disk),
        }
        match read_header(&bytes, lot) {
            None => Err(JournalFault::Header),
            Some(header) => Ok(Effective::open(&header)),
        }
    }

    /// Whether the gate was open.
    pub fn is_pending(&self) -> bool
        ensures { result ≡ are_some self.now }
    {
        self.count > 0
    }

    /// The targets, none where the gate was closed.
    pub fn targets(&self) -> &[u32]
        ensures { result.now ≡ self.now }
    {
        &self.targets[..self.count as usize]
    }

    /// Which target is the address, the first where several were.
    fn find(&self, at: u32) -> Option<usize>
        ensures few { length self.now ≤ 240 }
        ensures first { MatchOption result ((j : ℕ) → j < length self.now → slice_index self.now j ≢ at)
            (λ j. (j < length self.now) × (slice_index self.now j ≡ at) × ((i : ℕ) → i < j → slice_index self.now i ≢ at)) }
    {
        for j in 0..self.count as usize {
            if self.targets[j] == at {
                return Some(j);
            }
        }
        None
    }

    /// The block from which an address is read: the body of a target, the home of another address.
    pub(crate) fn source(&self, lot: &Lot, at: u32) -> u32
        requires { is_address lot.now at ≡ true }
        ensures source { result ≡ source (place lot.now) self.now (lot_places lot.now).body at }
        ensures below { (n : ℕ) → is_sited lot.now n ≡ true → result < n }
    {
        match self.find(at) {
            None => lot.home(at),
            Some(j) => area_of(lot).body + j as u32,
        }
    }
}
