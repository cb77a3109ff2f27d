//! Entries that are taken.
ghost use Rattle.std.specs.Prelude.{◌≡◌, ◌≢◌, ◌≤◌, ◌<◌, ◌*◌, ◌+◌, ◌-◌, ◌/◌, ℕ, true, false, [], IsSome, IsNone, OnOk, OnErr, IfOk, IfErr, IsErrOf, length};
ghost use Rattle.std.specs.List.{swap_remove, position_or_len};
ghost use Rattle.ice_base.specs.Disk.{Caused};
ghost use Rattle.ice_base.specs.Lots.{is_sited, sub_address};
ghost use Rattle.ice_base.specs.Used.{is_data, counted};
ghost use Rattle.ice_base.specs.Views.{Looked, Spent, AsShown, IfShown};
ghost use Rattle.ice_base.specs.declared.fault.OpFault.TheVariants.{Disk as FaultDisk, Damaged};
ghost use Rattle.ice_base.specs.declared.fault.Rule.{Rule};
ghost use Rattle.ice_base.specs.declared.fault.Rule.TheVariants.{Counts, Kind, Pointer, Bitmap};
ghost use Rattle.ice_map.specs.Faults.{IsLookFault, IsCutFault};
ghost use Rattle.ice_map.specs.Growth.{SubStays};
ghost use Rattle.ice_map.specs.Inodes.{inode_of};
ghost use Rattle.ice_map.specs.Maps.{nth_block, uses, FreeOrTwice, Misleads};
ghost use Rattle.ice_map.specs.Own.{MadeOf, WellMade, Confuses};
ghost use Rattle.ice_map.specs.Moves.{uses_of};
ghost use Rattle.ice_dir.specs.Changes.{CountLow, blocks_sized, DirSet, RowPut, TextTaken, EntryGone, entry_blocks};
ghost use Rattle.ice_dir.specs.Faults.{IsRemovalFault};
ghost use Rattle.ice_dir.specs.Rows.{entries_in, entry_bytes, dir_rows_of, named, look_up, rows_without, IsDirectory};
ghost use Rattle.tree_spec.specs.Costs.{form_of};

use crate::looks::{dir_inode, read_block, seek};
use crate::rows::{blocks_for_rows, copy_row, row_place, rows_per_block};
use ice_base::{Disk, Form, Keep, Lot, OpFault, Pool, store};
use ice_map::{Inode, cut, put_inode};
use tree_spec::Name;

/// Copies the last entry of a directory over entry `k`.
#[tactic(auto, using(ice_base::proofs::LotLaws::address_laws, ice_base::proofs::UsedLaws::group_laws))]
fn move_last<D: Disk, K: Keep<D>, F: Form>(
    keep: &mut K,
    disk: &mut D,
    lot: &Lot,
    dir: &Inode,
    k: u32,
) -> Result<(), OpFault>
    requires sited { is_sited lot.now (D.state disk.old).size ≡ true }
    requires room { 1 ≤ K.room keep.old }
    requires short { dir.now.size ≤ 4096 }
    requires below { k < dir.now.size }
    ensures put { AsShown K.View lot.now keep.old disk.old keep.new disk.new (λ old new.
        MadeOf lot.now old dir.now (blocks_sized F.ENTRY dir.now.size)
        → OnOk result (RowPut lot.now F.ENTRY old new dir.now dir.now (blocks_sized F.ENTRY dir.now.size)
        (blocks_sized F.ENTRY dir.now.size) k (entry_bytes F.ENTRY old dir.now (dir.now.size - 1)))) }
    ensures counts { K.map keep.new disk.new lot.now sub_address ≡ K.map keep.old disk.old lot.now sub_address }
    ensures beside { (b : ℕ) → is_data lot.now b ≡ false
        → K.map keep.new disk.new lot.now b ≡ K.map keep.old disk.old lot.now b }
    ensures spent { Spent D.Disk K.View lot.now 1 keep.old disk.old keep.new disk.new }
    ensures misled { IsErrOf result (Damaged Pointer) → IfShown K.View lot.now keep.old disk.old (λ old.
        Misleads lot.now old dir.now (blocks_sized F.ENTRY dir.now.size)) }
    ensures within { AsShown K.View lot.now keep.old disk.old keep.new disk.new (λ old new.
        OnOk result ((b : ℕ) → b ≢ nth_block old dir.now (k / entries_in F.ENTRY) → new b ≡ old b)) }
    ensures faults { IfErr result IsLookFault }
    ensures failed { Caused D.state FaultDisk result disk.old disk.new }
{
    let per_block = rows_per_block::<F>();
    let last = dir.size - 1;
    let mut from = [0; 1024];
    read_block::<D, K, F>(keep, disk, lot, dir, last / per_block, &mut from)?;
    let mut into = [0; 1024];
    let at = read_block::<D, K, F>(keep, disk, lot, dir, k / per_block, &mut into)?;
    copy_row::<F>(&from, row_place::<F>(last), &mut into, row_place::<F>(k));
    store(keep, disk, lot, at, &into)?;
    Ok(())
}

/// Takes entry `k` from the directory of an inode: the last entry moves into the gap, and a block that becomes empty is given back.
fn remove_row<D: Disk, K: Keep<D>, P: Pool<D, K>, F: Form>(
    keep: &mut K,
    pool: &mut P,
    disk: &mut D,
    lot: &Lot,
    number: u32,
    dir: &mut Inode,
    k: u32,
) -> Result<(), OpFault>
    requires sited { is_sited lot.now (D.state disk.old).size ≡ true }
    requires number { number < 64 * length lot.now.groups }
    requires room { 8 ≤ K.room keep.old }
    requires is { IsDirectory lot.now dir.old }
    requires below { k < dir.old.size }
    ensures removed { AsShown K.View lot.now keep.old disk.old keep.new disk.new (λ old new.
        inode_of old number ≡ dir.old → WellMade lot.now (form_of F.VERSION) old number
        → OnOk result (DirSet lot.now (form_of F.VERSION) old new number (swap_remove (dir_rows_of (form_of F.VERSION) old number) k ([], 0)))) }
    ensures texts { AsShown K.View lot.now keep.old disk.old keep.new disk.new (λ old new.
        inode_of old number ≡ dir.old → WellMade lot.now (form_of F.VERSION) old number
        → OnOk result (TextTaken (form_of F.VERSION) old new number k)) }
    ensures left { AsShown K.View lot.now keep.old disk.old keep.new disk.new (λ old new.
        inode_of old number ≡ dir.old → OnOk result (EntryGone lot.now (form_of F.VERSION) old new number)) }
    ensures hand { AsShown K.View lot.now keep.old disk.old keep.new disk.new (λ old new.
        OnOk result (dir.new ≡ inode_of new number)) }
    ensures is_dir { OnOk result (IsDirectory lot.now dir.new) }
    ensures shorter { OnOk result (dir.new.size + 1 ≡ dir.old.size) }
    ensures sub { AsShown K.View lot.now keep.old disk.old keep.new disk.new (λ old new.
        OnOk result (SubStays old new)) }
    ensures spent { Spent D.Disk K.View lot.now 8 keep.old disk.old keep.new disk.new }
    ensures zero { IsErrOf result (Damaged Counts) → IfShown K.View lot.now keep.old disk.old (λ old.
        counted false old + uses_of (blocks_sized F.ENTRY (dir.old.size - 1)) < uses_of (blocks_sized F.ENTRY dir.old.size)) }
    ensures unused { IsErrOf result (Damaged Bitmap) → IfShown K.View lot.now keep.old disk.old (λ old.
        FreeOrTwice old (uses old dir.old (blocks_sized F.ENTRY dir.old.size))) }
    ensures kept { (rule : Rule) → IsErrOf result (Damaged rule)
        → AsShown K.View lot.now keep.old disk.old keep.new disk.new (λ old new.
        inode_of new number ≡ inode_of old number) }
    ensures misled { IsErrOf result (Damaged Pointer) → IfShown K.View lot.now keep.old disk.old (λ old.
        Confuses lot.now old dir.old (blocks_sized F.ENTRY dir.old.size)) }
    ensures faults { IfErr result IsCutFault }
    ensures failed { Caused D.state FaultDisk result disk.old disk.new }
{
    let _groups = lot.len();
    move_last::<D, K, F>(keep, disk, lot, dir, k)?;
    let last = dir.size - 1;
    let count = blocks_for_rows::<F>(dir.size);
    let rest = blocks_for_rows::<F>(last);
    cut::<D, K, P, F>(keep, pool, disk, lot, dir, count, rest)?;
    dir.size = last;
    put_inode::<D, K, P, F>(keep, pool, disk, lot, number, dir)?;
    Ok(())
}

/// Takes the entry of a name from a directory whose inode is in hand and answers the entry's inode, None exactly where no entry has the name: then nothing is put.
/// The last entry moves into the gap, and a block that becomes empty is given back. The inode in hand becomes the directory's new one.
/// Damaged: the directory's map is not well made, or the count of used blocks is too low.
#[tactic(auto, using(crate::proofs::SizeLaws::size_laws))]
pub fn take_in<D: Disk, K: Keep<D>, P: Pool<D, K>, F: Form>(
    keep: &mut K,
    pool: &mut P,
    disk: &mut D,
    lot: &Lot,
    number: u32,
    dir: &mut Inode,
    name: &Name,
) -> Result<Option<u32>, OpFault>
    // The lot lies on the disk, the keep has room, and the inode is a directory.
    requires sited { is_sited lot.now (D.state disk.old).size ≡ true }
    requires number { number < 64 * length lot.now.groups }
    requires room { 8 ≤ K.room keep.old }
    requires is { IsDirectory lot.now dir.old }
    // What it answers, and what it makes of the directory, where the inode is that of the number.
    ensures found { IfShown K.View lot.now keep.old disk.old (λ old.
        dir.old ≡ inode_of old number → IfOk result (λ o. o ≡ look_up name.now (dir_rows_of (form_of F.VERSION) old number))) }
    ensures taken { AsShown K.View lot.now keep.old disk.old keep.new disk.new (λ old new.
        dir.old ≡ inode_of old number → WellMade lot.now (form_of F.VERSION) old number
        → IfOk result (λ o. IsSome o
        → DirSet lot.now (form_of F.VERSION) old new number (rows_without name.now (dir_rows_of (form_of F.VERSION) old number)))) }
    ensures texts { AsShown K.View lot.now keep.old disk.old keep.new disk.new (λ old new.
        dir.old ≡ inode_of old number → WellMade lot.now (form_of F.VERSION) old number
        → IfOk result (λ o. IsSome o
        → TextTaken (form_of F.VERSION) old new number (position_or_len (named name.now) (dir_rows_of (form_of F.VERSION) old number)))) }
    ensures left { AsShown K.View lot.now keep.old disk.old keep.new disk.new (λ old new.
        dir.old ≡ inode_of old number → IfOk result (λ o. IsSome o → EntryGone lot.now (form_of F.VERSION) old new number)) }
    ensures absent { IfOk result (λ o. IsNone o
        → Looked D.Disk K.View lot.now keep.old disk.old keep.new disk.new) }
    // The inode in hand, behind an `Ok`.
    ensures hand { AsShown K.View lot.now keep.old disk.old keep.new disk.new (λ old new.
        dir.old ≡ inode_of old number → OnOk result (dir.new ≡ inode_of new number)) }
    ensures is_dir { OnOk result (IsDirectory lot.now dir.new) }
    ensures shorter { IfOk result (λ o. IsSome o → dir.new.size + 1 ≡ dir.old.size) }
    // Each refusal has its cause.
    ensures zero { IsErrOf result (Damaged Counts) → IfShown K.View lot.now keep.old disk.old (λ old.
        CountLow (form_of F.VERSION) old dir.old.size) }
    ensures unused { IsErrOf result (Damaged Bitmap) → IfShown K.View lot.now keep.old disk.old (λ old.
        FreeOrTwice old (uses old dir.old (entry_blocks (form_of F.VERSION) dir.old.size))) }
    ensures misled { IsErrOf result (Damaged Pointer) → IfShown K.View lot.now keep.old disk.old (λ old.
        Confuses lot.now old dir.old (entry_blocks (form_of F.VERSION) dir.old.size)) }
    // What it spends of the keep, and what stays as it was.
    ensures kept { (rule : Rule) → IsErrOf result (Damaged rule)
        → AsShown K.View lot.now keep.old disk.old keep.new disk.new (λ old new.
        inode_of new number ≡ inode_of old number) }
    ensures sub { AsShown K.View lot.now keep.old disk.old keep.new disk.new (λ old new.
        OnOk result (SubStays old new)) }
    ensures spent { Spent D.Disk K.View lot.now 8 keep.old disk.old keep.new disk.new }
    // Which refusals there are, and when a fault comes.
    ensures faults { IfErr result IsCutFault }
    ensures failed { Caused D.state FaultDisk result disk.old disk.new }
{
    match seek::<D, K, F>(keep, disk, lot, dir, name.bytes())? {
        None => Ok(None),
        Some((k, inode)) => {
            remove_row::<D, K, P, F>(keep, pool, disk, lot, number, dir, k)?;
            Ok(Some(inode))
        }
    }
}

/// Takes the entry of a name and answers its inode, None exactly where no entry has the name: then nothing is put.
/// The last entry moves into the gap, and a block that becomes empty is given back.
/// Damaged: the inode is no directory, its map is not well made, or the count of used blocks is too low.
#[tactic(auto, using(crate::proofs::SizeLaws::size_laws))]
pub fn take<D: Disk, K: Keep<D>, P: Pool<D, K>, F: Form>(
    keep: &mut K,
    pool: &mut P,
    disk: &mut D,
    lot: &Lot,
    number: u32,
    name: &Name,
) -> Result<Option<u32>, OpFault>
    requires sited { is_sited lot.now (D.state disk.old).size ≡ true }
    requires number { number < 64 * length lot.now.groups }
    requires room { 8 ≤ K.room keep.old }
    ensures found { IfShown K.View lot.now keep.old disk.old (λ old.
        IfOk result (λ o. o ≡ look_up name.now (dir_rows_of (form_of F.VERSION) old number))) }
    ensures taken { AsShown K.View lot.now keep.old disk.old keep.new disk.new (λ old new.
        WellMade lot.now (form_of F.VERSION) old number
        → IfOk result (λ o. IsSome o
        → DirSet lot.now (form_of F.VERSION) old new number (rows_without name.now (dir_rows_of (form_of F.VERSION) old number)))) }
    ensures texts { AsShown K.View lot.now keep.old disk.old keep.new disk.new (λ old new.
        WellMade lot.now (form_of F.VERSION) old number
        → IfOk result (λ o. IsSome o
        → TextTaken (form_of F.VERSION) old new number (position_or_len (named name.now) (dir_rows_of (form_of F.VERSION) old number)))) }
    ensures left { AsShown K.View lot.now keep.old disk.old keep.new disk.new (λ old new.
        IfOk result (λ o. IsSome o → EntryGone lot.now (form_of F.VERSION) old new number)) }
    ensures absent { IfOk result (λ o. IsNone o
        → Looked D.Disk K.View lot.now keep.old disk.old keep.new disk.new) }
    ensures is { IfShown K.View lot.now keep.old disk.old (λ old.
        OnOk result (IsDirectory lot.now (inode_of old number))) }
    ensures spent { Spent D.Disk K.View lot.now 8 keep.old disk.old keep.new disk.new }
    ensures zero { IsErrOf result (Damaged Counts) → IfShown K.View lot.now keep.old disk.old (λ old.
        CountLow (form_of F.VERSION) old (inode_of old number).size) }
    ensures kind { IsErrOf result (Damaged Kind) → IfShown K.View lot.now keep.old disk.old (λ old.
        ¬ IsDirectory lot.now (inode_of old number)) }
    ensures unused { IsErrOf result (Damaged Bitmap) → IfShown K.View lot.now keep.old disk.old (λ old.
        FreeOrTwice old (uses old (inode_of old number) (entry_blocks (form_of F.VERSION) (inode_of old number).size))) }
    ensures kept { (rule : Rule) → IsErrOf result (Damaged rule)
        → AsShown K.View lot.now keep.old disk.old keep.new disk.new (λ old new.
        inode_of new number ≡ inode_of old number) }
    ensures misled { IsErrOf result (Damaged Pointer) → IfShown K.View lot.now keep.old disk.old (λ old.
        Confuses lot.now old (inode_of old number) (entry_blocks (form_of F.VERSION) (inode_of old number).size)) }
    ensures is_dir { (rule : Rule) → IsErrOf result (Damaged rule) → rule ≢ Kind
        → IfShown K.View lot.now keep.old disk.old (λ old. IsDirectory lot.now (inode_of old number)) }
    ensures unchanged { IsErrOf result (Damaged Kind)
        → Looked D.Disk K.View lot.now keep.old disk.old keep.new disk.new }
    ensures faults { IfErr result IsRemovalFault }
    ensures failed { Caused D.state FaultDisk result disk.old disk.new }
{
    let mut dir = dir_inode::<D, K, F>(keep, disk, lot, number)?;
    take_in::<D, K, P, F>(keep, pool, disk, lot, number, &mut dir, name)
}
