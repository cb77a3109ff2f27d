//! Reads of files.
ghost use Rattle.std.specs.Prelude.{◌≡◌, ◌≤◌, ◌<◌, ◌+◌, ◌-◌, ◌*◌, ◌++◌, ℕ, true, false, [], OnOk, IfOk, IfErr, IsErrOf, length, take, drop, min};
ghost use Rattle.ice_base.specs.Disk.{Caused};
ghost use Rattle.ice_base.specs.Lots.{is_sited};
ghost use Rattle.ice_base.specs.Views.{Looked, IfShown};
ghost use Rattle.ice_base.specs.declared.fault.OpFault.TheVariants.{Disk as FaultDisk, Damaged};
ghost use Rattle.ice_base.specs.declared.fault.Rule.TheVariants.{Kind, Pointer};
ghost use Rattle.ice_map.specs.Faults.{IsLookFault};
ghost use Rattle.ice_map.specs.Inodes.{inode_of};
ghost use Rattle.ice_map.specs.Maps.{leads};
ghost use Rattle.ice_file.specs.Files.{ReachesTo, bytes_from, IsReadFault};
ghost use Rattle.tree_spec.specs.Held.{most_bytes};
ghost use Rattle.ice_map.specs.Own.{own, own_at, file_bytes, WellMade};
ghost use Rattle.tree_spec.specs.Costs.{form_of};

use crate::inode::file_inode;
use ice_base::{Disk, Form, Lot, OpFault, View, fetch};
use ice_map::{Inode, nth};
use tree_spec::Room;

/// Adds the bytes from `from` on, up to the end of their block or to `end`, and says how many these are.
#[tactic(auto, using(ice_base::proofs::LotLaws::address_laws, ice_base::proofs::UsedLaws::group_laws, ice_map::proofs::SizeLaws::size_laws))]
fn read_piece<D: Disk, V: View<D>, F: Form>(
    view: &mut V,
    disk: &mut D,
    lot: &Lot,
    inode: &Inode,
    from: u32,
    end: u32,
    room: &mut Room,
) -> Result<u32, OpFault>
    requires sited { is_sited lot.now (D.state disk.old).size ≡ true }
    requires some { from < end }
    requires short { end ≤ (form_of F.VERSION).longest_file }
    requires fits { length room.old.bytes + (end - from) ≤ most_bytes }
    ensures bytes { IfShown V.View lot.now view.old disk.old (λ old.
        IfOk result (λ n. room.new.bytes ≡ room.old.bytes ++ bytes_from old inode.now from n)) }
    ensures long { IfOk result (λ n. length room.new.bytes ≡ length room.old.bytes + n) }
    ensures most { length room.new.bytes ≤ length room.old.bytes + (end - from) }
    ensures moves { IfOk result (λ n. (1 ≤ n) × (from + n ≤ end)) }
    ensures entries { room.new.entries ≡ room.old.entries }
    ensures rows { room.new.rows ≡ room.old.rows }
    ensures pointer { IsErrOf result (Damaged Pointer) → IfShown V.View lot.now view.old disk.old (λ old.
        (k : ℕ) × (1024 * k < end) × (leads lot.now old inode.now k ≡ false)) }
    ensures looked { Looked D.Disk V.View lot.now view.old disk.old view.new disk.new }
    ensures faults { IfErr result IsLookFault }
    ensures failed { Caused D.state FaultDisk result disk.old disk.new }
{
    let at = nth::<D, V, F>(view, disk, lot, inode, from / 1024)?;
    let mut block = [0; 1024];
    fetch(view, disk, lot, at, &mut block)?;
    let start = from % 1024;
    let n = (1024 - start).min(end - from);
    room.add_bytes(&block[start as usize..(start + n) as usize]);
    Ok(n)
}

/// Puts the bytes of a file whose inode is in hand from `at` on into the room: `len` of them, or as many as there are.
/// After an `Err` any bytes may stand in the room. Damaged: a pointer to one of its blocks is no data place.
#[tactic(auto, using(ice_map::proofs::SizeLaws::size_laws))]
pub fn read_in<D: Disk, V: View<D>, F: Form>(
    view: &mut V,
    disk: &mut D,
    lot: &Lot,
    inode: &Inode,
    at: u32,
    len: u32,
    room: &mut Room,
) -> Result<(), OpFault>
    // The lot lies on the disk, the inode is that of a file of at least `at` bytes, and the room is empty.
    requires sited { is_sited lot.now (D.state disk.old).size ≡ true }
    requires reaches { ReachesTo (form_of F.VERSION) at inode.now }
    requires few { len ≤ most_bytes }
    requires empty { room.old.bytes ≡ [] }
    // What it puts into the room.
    ensures bytes { IfShown V.View lot.now view.old disk.old (λ old.
        OnOk result (room.new.bytes ≡ take len (drop at (file_bytes (own_at (form_of F.VERSION) old inode.now))))) }
    ensures most { length room.new.bytes ≤ len }
    // Damage that it names is there.
    ensures pointer { IsErrOf result (Damaged Pointer) → IfShown V.View lot.now view.old disk.old (λ old.
        (k : ℕ) × (1024 * k < inode.now.size) × (leads lot.now old inode.now k ≡ false)) }
    // What stays as it was.
    ensures entries { room.new.entries ≡ room.old.entries }
    ensures rows { room.new.rows ≡ room.old.rows }
    ensures looked { Looked D.Disk V.View lot.now view.old disk.old view.new disk.new }
    // Which refusals there are, and when a fault comes.
    ensures faults { IfErr result IsLookFault }
    ensures failed { Caused D.state FaultDisk result disk.old disk.new }
{
    let end = inode.size.min(at + len);
    let mut from = at;
    while from < end {
        from += read_piece::<D, V, F>(view, disk, lot, inode, from, end, room)?;
    }
    Ok(())
}

/// Puts the bytes of a file from `at` on into the room: `len` of them, or as many as there are.
/// After an `Err` any bytes may stand in the room. Damaged: the inode is no file of at least `at` bytes, or a pointer to one of its blocks is no data place.
pub fn read_at<D: Disk, V: View<D>, F: Form>(
    view: &mut V,
    disk: &mut D,
    lot: &Lot,
    number: u32,
    at: u32,
    len: u32,
    room: &mut Room,
) -> Result<(), OpFault>
    requires sited { is_sited lot.now (D.state disk.old).size ≡ true }
    requires number { number < 64 * length lot.now.groups }
    requires few { len ≤ most_bytes }
    requires empty { room.old.bytes ≡ [] }
    ensures bytes { IfShown V.View lot.now view.old disk.old (λ old.
        OnOk result (room.new.bytes ≡ take len (drop at (file_bytes (own (form_of F.VERSION) old number))))) }
    ensures most { length room.new.bytes ≤ len }
    ensures entries { room.new.entries ≡ room.old.entries }
    ensures rows { room.new.rows ≡ room.old.rows }
    ensures reaches { IfShown V.View lot.now view.old disk.old (λ old.
        OnOk result (ReachesTo (form_of F.VERSION) at (inode_of old number))) }
    ensures kind { IsErrOf result (Damaged Kind) → IfShown V.View lot.now view.old disk.old (λ old.
        ¬ ReachesTo (form_of F.VERSION) at (inode_of old number)) }
    ensures pointer { IsErrOf result (Damaged Pointer) → IfShown V.View lot.now view.old disk.old (λ old.
        (k : ℕ) × (1024 * k < (inode_of old number).size)
        × (leads lot.now old (inode_of old number) k ≡ false)) }
    ensures unmade { IsErrOf result (Damaged Pointer) → IfShown V.View lot.now view.old disk.old (λ old.
        ¬ WellMade lot.now (form_of F.VERSION) old number) }
    ensures looked { Looked D.Disk V.View lot.now view.old disk.old view.new disk.new }
    ensures faults { IfErr result IsReadFault }
    ensures failed { Caused D.state FaultDisk result disk.old disk.new }
{
    let inode = file_inode::<D, V, F>(view, disk, lot, number, at)?;
    read_in::<D, V, F>(view, disk, lot, &inode, at, len, room)
}
