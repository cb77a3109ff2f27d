//! Writes to files.
ghost use Rattle.std.specs.Prelude.{◌≡◌, ◌≤◌, ◌<◌, ◌+◌, ◌-◌, ◌*◌, ◌^◌, ◌++◌, max, ℕ, true, false, [], OnOk, IfOk, IfErr, IsErrOf, length, take, drop};
ghost use Rattle.ice_base.specs.Disk.{Caused};
ghost use Rattle.ice_base.specs.Lots.{is_sited};
ghost use Rattle.ice_base.specs.Used.{counted, free_count, Reserved};
ghost use Rattle.ice_base.specs.Views.{Looked, Spent, AsShown, IfShown};
ghost use Rattle.ice_base.specs.declared.fault.OpFault.TheVariants.{Disk as FaultDisk, Damaged, NoSpace};
ghost use Rattle.ice_base.specs.declared.fault.Rule.{Rule};
ghost use Rattle.ice_base.specs.declared.fault.Rule.TheVariants.{Counts, Kind, Pointer, Bitmap};
ghost use Rattle.ice_map.specs.Faults.{IsGrowFault};
ghost use Rattle.ice_map.specs.Inodes.{inode_of};
ghost use Rattle.ice_file.specs.Files.{ReachesTo, FileSet, IsWriteFault, overwritten};
ghost use Rattle.tree_spec.specs.Held.{most_bytes};
ghost use Rattle.ice_map.specs.Growth.{Grew, InodesStay, SubStays};
ghost use Rattle.ice_map.specs.Own.{own, file_bytes, blocks_for, MadeOf, WellMade, Confuses};
ghost use Rattle.ice_file.specs.Writes.{BytesPut, FewFree, CountFull, blocks_with};
ghost use Rattle.ice_map.specs.Moves.{uses_of};
ghost use Rattle.tree_spec.specs.Costs.{form_of};

use crate::inode::file_inode;
use crate::pieces::put_piece;
use ice_base::{Disk, Form, Keep, Lot, OpFault, Pool};
use ice_map::{Inode, map_length, put_inode};

/// Puts the bytes into the blocks from `at` on, with new blocks past the last. The inode is the caller's to put.
#[tactic(auto, using(ice_map::proofs::SizeLaws::size_laws))]
fn write_blocks<D: Disk, K: Keep<D>, P: Pool<D, K>, F: Form>(
    keep: &mut K,
    pool: &mut P,
    disk: &mut D,
    lot: &Lot,
    inode: &mut Inode,
    at: u32,
    bytes: &[u8],
) -> Result<(), OpFault>
    requires sited { is_sited lot.now (D.state disk.old).size ≡ true }
    requires room { 44 ≤ K.room keep.old }
    requires few { length bytes.now ≤ most_bytes }
    requires short { at + length bytes.now ≤ (form_of F.VERSION).longest_file }
    requires reaches { ReachesTo (form_of F.VERSION) at inode.old }
    ensures written { AsShown K.View lot.now keep.old disk.old keep.new disk.new (λ old new.
        MadeOf lot.now old inode.old (blocks_for inode.old.size)
        → OnOk result (BytesPut lot.now old new inode.old inode.new at bytes.now)) }
    ensures grew { AsShown K.View lot.now keep.old disk.old keep.new disk.new (λ old new.
        OnOk result (Grew lot.now old new inode.old inode.new (blocks_for inode.old.size)
        (blocks_with inode.old.size (at + length bytes.now)))) }
    ensures stays { AsShown K.View lot.now keep.old disk.old keep.new disk.new (λ old new. InodesStay old new) }
    ensures spent { Spent D.Disk K.View lot.now 44 keep.old disk.old keep.new disk.new }
    ensures none { IsErrOf result NoSpace → IfShown K.View lot.now keep.old disk.old (λ old.
        FewFree lot.now old inode.old.size (at + length bytes.now)) }
    ensures full { IsErrOf result (Damaged Counts) → IfShown K.View lot.now keep.old disk.old (λ old.
        CountFull old inode.old.size (at + length bytes.now)) }
    ensures unreserved { IsErrOf result (Damaged Bitmap)
        → IfShown K.View lot.now keep.old disk.old (λ old. ¬ Reserved lot.now old) }
    ensures misled { IsErrOf result (Damaged Pointer) → IfShown K.View lot.now keep.old disk.old (λ old.
        Confuses lot.now old inode.old (blocks_for inode.old.size)) }
    ensures faults { IfErr result IsGrowFault }
    ensures failed { Caused D.state FaultDisk result disk.old disk.new }
{
    let size = inode.size;
    let end = at + bytes.len() as u32;
    for k in at / 1024..map_length::<F>(end) {
        let from = at.max(1024 * k);
        let to = end.min(1024 * (k + 1));
        let count = map_length::<F>(size.max(from));
        let part = &bytes[(from - at) as usize..(to - at) as usize];
        put_piece::<D, K, P, F>(
            keep,
            pool,
            disk,
            lot,
            inode,
            count,
            k,
            from - 1024 * k,
            part,
        )?;
    }
    Ok(())
}

/// Puts the bytes into a file whose inode is in hand from `at` on: they replace those that stand there, and those past the end extend it.
/// After a fault the blocks of the file may hold part of them. NoSpace: fewer blocks are free than the file needs.
/// Damaged: what a growth or a look at the blocks says.
#[tactic(auto, using(ice_map::proofs::SizeLaws::size_laws))]
pub fn write_in<D: Disk, K: Keep<D>, P: Pool<D, K>, F: Form>(
    keep: &mut K,
    pool: &mut P,
    disk: &mut D,
    lot: &Lot,
    number: u32,
    inode: &Inode,
    at: u32,
    bytes: &[u8],
) -> Result<(), OpFault>
    // The lot lies on the disk, the keep has room, and the inode is a file of at least `at` bytes.
    requires sited { is_sited lot.now (D.state disk.old).size ≡ true }
    requires number { number < 64 * length lot.now.groups }
    requires room { 48 ≤ K.room keep.old }
    requires few { length bytes.now ≤ most_bytes }
    requires short { at + length bytes.now ≤ (form_of F.VERSION).longest_file }
    requires reaches { ReachesTo (form_of F.VERSION) at inode.now }
    // What it makes of a well-made file, where the inode is that of the number.
    ensures written { AsShown K.View lot.now keep.old disk.old keep.new disk.new (λ old new.
        inode.now ≡ inode_of old number → WellMade lot.now (form_of F.VERSION) old number
        → OnOk result (FileSet lot.now (form_of F.VERSION) old new number (overwritten (file_bytes (own (form_of F.VERSION) old number)) at bytes.now))) }
    // Each refusal has its cause.
    ensures none { IsErrOf result NoSpace → IfShown K.View lot.now keep.old disk.old (λ old.
        FewFree lot.now old inode.now.size (at + length bytes.now)) }
    ensures full { IsErrOf result (Damaged Counts) → IfShown K.View lot.now keep.old disk.old (λ old.
        CountFull old inode.now.size (at + length bytes.now)) }
    ensures unreserved { IsErrOf result (Damaged Bitmap)
        → IfShown K.View lot.now keep.old disk.old (λ old. ¬ Reserved lot.now old) }
    ensures misled { IsErrOf result (Damaged Pointer) → IfShown K.View lot.now keep.old disk.old (λ old.
        Confuses lot.now old inode.now (blocks_for inode.now.size)) }
    // What it spends of the keep, and what stays as it was.
    ensures kept { (rule : Rule) → IsErrOf result (Damaged rule)
        → AsShown K.View lot.now keep.old disk.old keep.new disk.new (λ old new.
        inode_of new number ≡ inode_of old number) }
    ensures sub { AsShown K.View lot.now keep.old disk.old keep.new disk.new (λ old new.
        OnOk result (SubStays old new)) }
    ensures spent { Spent D.Disk K.View lot.now 48 keep.old disk.old keep.new disk.new }
    // Which refusals there are, and when a fault comes.
    ensures faults { IfErr result IsGrowFault }
    ensures failed { Caused D.state FaultDisk result disk.old disk.new }
{
    let mut grown = *inode;
    write_blocks::<D, K, P, F>(keep, pool, disk, lot, &mut grown, at, bytes)?;
    grown.size = grown.size.max(at + bytes.len() as u32);
    put_inode::<D, K, P, F>(keep, pool, disk, lot, number, &grown)?;
    Ok(())
}

/// Puts the bytes into a file from `at` on: they replace those that stand there, and those past the end extend it.
/// After a fault the blocks of the file may hold part of them. NoSpace: fewer blocks are free than the file needs.
/// Damaged: the inode is no file of at least `at` bytes, or what a growth or a look at the blocks says.
#[tactic(auto, using(ice_map::proofs::SizeLaws::size_laws))]
pub fn write_at<D: Disk, K: Keep<D>, P: Pool<D, K>, F: Form>(
    keep: &mut K,
    pool: &mut P,
    disk: &mut D,
    lot: &Lot,
    number: u32,
    at: u32,
    bytes: &[u8],
) -> Result<(), OpFault>
    requires sited { is_sited lot.now (D.state disk.old).size ≡ true }
    requires number { number < 64 * length lot.now.groups }
    requires room { 48 ≤ K.room keep.old }
    requires few { length bytes.now ≤ most_bytes }
    requires short { at + length bytes.now ≤ (form_of F.VERSION).longest_file }
    ensures written { AsShown K.View lot.now keep.old disk.old keep.new disk.new (λ old new.
        WellMade lot.now (form_of F.VERSION) old number
        → OnOk result (FileSet lot.now (form_of F.VERSION) old new number (overwritten (file_bytes (own (form_of F.VERSION) old number)) at bytes.now))) }
    ensures reaches { IfShown K.View lot.now keep.old disk.old (λ old.
        OnOk result (ReachesTo (form_of F.VERSION) at (inode_of old number))) }
    ensures spent { Spent D.Disk K.View lot.now 48 keep.old disk.old keep.new disk.new }
    ensures kind { IsErrOf result (Damaged Kind) → IfShown K.View lot.now keep.old disk.old (λ old.
        ¬ ReachesTo (form_of F.VERSION) at (inode_of old number)) }
    ensures looked { IsErrOf result (Damaged Kind)
        → Looked D.Disk K.View lot.now keep.old disk.old keep.new disk.new }
    ensures none { IsErrOf result NoSpace → IfShown K.View lot.now keep.old disk.old (λ old.
        FewFree lot.now old (inode_of old number).size (at + length bytes.now)) }
    ensures full { IsErrOf result (Damaged Counts) → IfShown K.View lot.now keep.old disk.old (λ old.
        CountFull old (inode_of old number).size (at + length bytes.now)) }
    ensures unreserved { IsErrOf result (Damaged Bitmap)
        → IfShown K.View lot.now keep.old disk.old (λ old. ¬ Reserved lot.now old) }
    ensures kept { (rule : Rule) → IsErrOf result (Damaged rule)
        → AsShown K.View lot.now keep.old disk.old keep.new disk.new (λ old new.
        inode_of new number ≡ inode_of old number) }
    ensures misled { IsErrOf result (Damaged Pointer) → IfShown K.View lot.now keep.old disk.old (λ old.
        Confuses lot.now old (inode_of old number) (blocks_for (inode_of old number).size)) }
    ensures file { IsErrOf result (Damaged Pointer) → IfShown K.View lot.now keep.old disk.old (λ old.
        ReachesTo (form_of F.VERSION) at (inode_of old number)) }
    ensures sub { AsShown K.View lot.now keep.old disk.old keep.new disk.new (λ old new.
        OnOk result (SubStays old new)) }
    ensures faults { IfErr result IsWriteFault }
    ensures failed { Caused D.state FaultDisk result disk.old disk.new }
{
    let inode = file_inode::<D, K, F>(keep, disk, lot, number, at)?;
    write_in::<D, K, P, F>(keep, pool, disk, lot, number, &inode, at, bytes)
}
