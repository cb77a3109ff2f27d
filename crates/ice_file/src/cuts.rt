//! Cuts of files.
ghost use Rattle.std.specs.Prelude.{◌≡◌, ◌≢◌, ◌≤◌, ◌<◌, ◌+◌, ◌*◌, ℕ, true, false, OnOk, IfErr, IsErrOf, length, take};
ghost use Rattle.ice_base.specs.Disk.{Caused};
ghost use Rattle.ice_base.specs.Lots.{is_sited};
ghost use Rattle.ice_base.specs.Used.{is_data, used_inode, counted};
ghost use Rattle.ice_base.specs.Views.{Looked, Spent, AsShown, IfShown};
ghost use Rattle.ice_base.specs.declared.fault.OpFault.TheVariants.{Disk as FaultDisk, Damaged};
ghost use Rattle.ice_base.specs.declared.fault.Rule.{Rule};
ghost use Rattle.ice_base.specs.declared.fault.Rule.TheVariants.{Counts, Kind, Pointer, Bitmap};
ghost use Rattle.ice_map.specs.Faults.{IsCutFault};
ghost use Rattle.ice_map.specs.Growth.{SubStays};
ghost use Rattle.ice_map.specs.Inodes.{inode_of};
ghost use Rattle.ice_map.specs.Maps.{cut_off, FreeOrTwice, Misleads};
ghost use Rattle.ice_file.specs.Files.{ReachesTo, FileSet, IsCutToFault};
ghost use Rattle.ice_map.specs.Own.{own, file_bytes, blocks_for, WellMade};
ghost use Rattle.ice_map.specs.Moves.{uses_of};
ghost use Rattle.tree_spec.specs.Costs.{form_of};

use crate::inode::file_inode;
use ice_base::{Disk, Form, Keep, Lot, OpFault, Pool};
use ice_map::{Inode, cut, map_length, put_inode};

/// Keeps the first `len` bytes of a file whose inode is in hand, and gives back the blocks that hold none of them.
/// After a fault some of them may have been given back. Damaged: what a cut of its map says.
#[tactic(auto, using(ice_map::proofs::SizeLaws::size_laws))]
pub fn cut_in<D: Disk, K: Keep<D>, P: Pool<D, K>, F: Form>(
    keep: &mut K,
    pool: &mut P,
    disk: &mut D,
    lot: &Lot,
    number: u32,
    inode: &Inode,
    len: u32,
) -> Result<(), OpFault>
    // The lot lies on the disk, the keep has room, and the inode is a file of at least `len` bytes.
    requires sited { is_sited lot.now (D.state disk.old).size ≡ true }
    requires number { number < 64 * length lot.now.groups }
    requires room { 72 ≤ K.room keep.old }
    requires reaches { ReachesTo (form_of F.VERSION) len inode.now }
    // What it makes of a well-made file, where the inode is that of the number.
    ensures cut { AsShown K.View lot.now keep.old disk.old keep.new disk.new (λ old new.
        inode.now ≡ inode_of old number → WellMade lot.now (form_of F.VERSION) old number
        → OnOk result (FileSet lot.now (form_of F.VERSION) old new number (take len (file_bytes (own (form_of F.VERSION) old number))))) }
    // Each refusal has its cause.
    ensures zero { IsErrOf result (Damaged Counts) → IfShown K.View lot.now keep.old disk.old (λ old.
        counted false old + uses_of (blocks_for len) < uses_of (blocks_for inode.now.size)) }
    ensures unused { IsErrOf result (Damaged Bitmap) → IfShown K.View lot.now keep.old disk.old (λ old.
        FreeOrTwice old (cut_off old inode.now (blocks_for inode.now.size) (blocks_for len))) }
    ensures single_placed { IsErrOf result (Damaged Bitmap)
        → 12 < blocks_for inode.now.size → is_data lot.now inode.now.single ≡ true }
    ensures misled { IsErrOf result (Damaged Pointer) → IfShown K.View lot.now keep.old disk.old (λ old.
        Misleads lot.now old inode.now (blocks_for inode.now.size)) }
    // What it spends of the keep, and what stays as it was.
    ensures kept { (rule : Rule) → IsErrOf result (Damaged rule)
        → AsShown K.View lot.now keep.old disk.old keep.new disk.new (λ old new.
        inode_of new number ≡ inode_of old number) }
    ensures inodes { AsShown K.View lot.now keep.old disk.old keep.new disk.new (λ old new.
        OnOk result ((i : ℕ) → used_inode new i ≡ used_inode old i)) }
    ensures sub { AsShown K.View lot.now keep.old disk.old keep.new disk.new (λ old new.
        OnOk result (SubStays old new)) }
    ensures spent { Spent D.Disk K.View lot.now 72 keep.old disk.old keep.new disk.new }
    // Which refusals there are, and when a fault comes.
    ensures faults { IfErr result IsCutFault }
    ensures failed { Caused D.state FaultDisk result disk.old disk.new }
{
    let count = map_length::<F>(inode.size);
    let rest = map_length::<F>(len);
    let mut shorter = *inode;
    cut::<D, K, P, F>(keep, pool, disk, lot, &mut shorter, count, rest)?;
    shorter.size = len;
    put_inode::<D, K, P, F>(keep, pool, disk, lot, number, &shorter)?;
    Ok(())
}

/// Keeps the first `len` bytes of a file, and gives back the blocks that hold none of them.
/// After a fault some of them may have been given back. Damaged: the inode is no file of at least `len` bytes, or what a cut of its map says.
#[tactic(auto, using(ice_map::proofs::SizeLaws::size_laws))]
pub fn cut_to<D: Disk, K: Keep<D>, P: Pool<D, K>, F: Form>(
    keep: &mut K,
    pool: &mut P,
    disk: &mut D,
    lot: &Lot,
    number: u32,
    len: u32,
) -> Result<(), OpFault>
    requires sited { is_sited lot.now (D.state disk.old).size ≡ true }
    requires number { number < 64 * length lot.now.groups }
    requires room { 72 ≤ K.room keep.old }
    ensures cut { AsShown K.View lot.now keep.old disk.old keep.new disk.new (λ old new.
        WellMade lot.now (form_of F.VERSION) old number
        → OnOk result (FileSet lot.now (form_of F.VERSION) old new number (take len (file_bytes (own (form_of F.VERSION) old number))))) }
    ensures reaches { IfShown K.View lot.now keep.old disk.old (λ old.
        OnOk result (ReachesTo (form_of F.VERSION) len (inode_of old number))) }
    ensures spent { Spent D.Disk K.View lot.now 72 keep.old disk.old keep.new disk.new }
    ensures kind { IsErrOf result (Damaged Kind) → IfShown K.View lot.now keep.old disk.old (λ old.
        ¬ ReachesTo (form_of F.VERSION) len (inode_of old number)) }
    ensures looked { IsErrOf result (Damaged Kind)
        → Looked D.Disk K.View lot.now keep.old disk.old keep.new disk.new }
    ensures zero { IsErrOf result (Damaged Counts) → IfShown K.View lot.now keep.old disk.old (λ old.
        counted false old + uses_of (blocks_for len) < uses_of (blocks_for (inode_of old number).size)) }
    ensures unused { IsErrOf result (Damaged Bitmap) → IfShown K.View lot.now keep.old disk.old (λ old.
        FreeOrTwice old (cut_off old (inode_of old number) (blocks_for (inode_of old number).size) (blocks_for len))) }
    ensures kept { (rule : Rule) → IsErrOf result (Damaged rule)
        → AsShown K.View lot.now keep.old disk.old keep.new disk.new (λ old new.
        inode_of new number ≡ inode_of old number) }
    ensures single_placed { IsErrOf result (Damaged Bitmap) → IfShown K.View lot.now keep.old disk.old (λ old.
        12 < blocks_for (inode_of old number).size
        → is_data lot.now (inode_of old number).single ≡ true) }
    ensures misled { IsErrOf result (Damaged Pointer) → IfShown K.View lot.now keep.old disk.old (λ old.
        Misleads lot.now old (inode_of old number) (blocks_for (inode_of old number).size)) }
    ensures inodes { AsShown K.View lot.now keep.old disk.old keep.new disk.new (λ old new.
        OnOk result ((i : ℕ) → used_inode new i ≡ used_inode old i)) }
    ensures sub { AsShown K.View lot.now keep.old disk.old keep.new disk.new (λ old new.
        OnOk result (SubStays old new)) }
    ensures file { IfErr result (λ e. (rule : Rule) → e ≡ Damaged rule → rule ≢ Kind
        → IfShown K.View lot.now keep.old disk.old (λ old. ReachesTo (form_of F.VERSION) len (inode_of old number))) }
    ensures faults { IfErr result IsCutToFault }
    ensures failed { Caused D.state FaultDisk result disk.old disk.new }
{
    let inode = file_inode::<D, K, F>(keep, disk, lot, number, len)?;
    cut_in::<D, K, P, F>(keep, pool, disk, lot, number, &inode, len)
}
