//! Entries that are added.
ghost use Rattle.std.specs.Prelude.{◌≡◌, ◌≢◌, ◌≤◌, ◌<◌, ◌*◌, ◌+◌, ◌/◌, ◌^◌, ◌++◌, ℕ, List, true, false, [], ◌∷◌, OnOk, OnErr, IfOk, IfErr, IsErrOf, length};
ghost use Rattle.ice_base.specs.Disk.{Caused};
ghost use Rattle.ice_base.specs.Lots.{is_sited};
ghost use Rattle.ice_base.specs.Used.{is_data, counted, free_count, Reserved};
ghost use Rattle.ice_base.specs.Views.{Looked, Spent, AsShown, IfShown};
ghost use Rattle.ice_base.specs.declared.fault.OpFault.TheVariants.{Disk as FaultDisk, Damaged, NoSpace};
ghost use Rattle.ice_base.specs.declared.fault.Rule.{Rule};
ghost use Rattle.ice_base.specs.declared.fault.Rule.TheVariants.{Counts, Kind, Pointer, Bitmap};
ghost use Rattle.ice_map.specs.Faults.{IsGrowFault};
ghost use Rattle.ice_map.specs.Growth.{SubStays};
ghost use Rattle.ice_map.specs.Inodes.{inode_of};
ghost use Rattle.ice_map.specs.Maps.{longest, needs, Misleads};
ghost use Rattle.ice_map.specs.Own.{MadeOf, WellMade};
ghost use Rattle.ice_map.specs.Moves.{HadBlock, content_of, uses_of};
ghost use Rattle.ice_dir.specs.Changes.{FewFree, CountFull, blocks_sized, HasEntryRoom, DirSet, RowPut, TextAdded, entry_blocks};
ghost use Rattle.ice_dir.specs.Faults.{IsAddFault};
ghost use Rattle.ice_dir.specs.Rows.{dir_rows_of, IsText, IsDirectory};
ghost use Rattle.tree_spec.specs.Costs.{form_of};

use crate::looks::dir_inode;
use crate::rows::{blocks_for_rows, row_place, rows_per_block, write_row};
use ice_base::{Block, Disk, Form, Keep, Lot, OpFault, Pool, Rule, fetch, store};
use ice_map::{Inode, put_inode, reach};
use tree_spec::Name;

/// Block `k` of a map of `count` blocks with what it holds, or a new one where the map ends there: then `into` stays.
#[tactic(auto, using(ice_base::proofs::LotLaws::address_laws, ice_base::proofs::UsedLaws::group_laws))]
fn open_block<D: Disk, K: Keep<D>, P: Pool<D, K>, F: Form>(
    keep: &mut K,
    pool: &mut P,
    disk: &mut D,
    lot: &Lot,
    inode: &mut Inode,
    count: u32,
    k: u32,
    into: &mut Block,
) -> Result<u32, OpFault>
    requires sited { is_sited lot.now (D.state disk.old).size ≡ true }
    requires room { 6 ≤ K.room keep.old }
    requires order { k ≤ count }
    requires short { k < longest }
    ensures reached { AsShown K.View lot.now keep.old disk.old keep.new disk.new (λ old new.
        MadeOf lot.now old inode.old count
        → IfOk result (HadBlock lot.now old new inode.old inode.new count k)) }
    ensures content { IfShown K.View lot.now keep.old disk.old (λ old.
        k < count → OnOk result (into.new ≡ content_of old inode.old k)) }
    ensures fresh { k ≡ count → OnOk result (into.new ≡ into.old) }
    ensures data { IfOk result (λ a. is_data lot.now a ≡ true) }
    ensures kind { OnOk result (inode.new.kind ≡ inode.old.kind) }
    ensures size { OnOk result (inode.new.size ≡ inode.old.size) }
    ensures spent { Spent D.Disk K.View lot.now 6 keep.old disk.old keep.new disk.new }
    ensures none { IsErrOf result NoSpace → IfShown K.View lot.now keep.old disk.old (λ old.
        (k ≡ count) × (free_count false lot.now old < needs count)) }
    ensures full { IsErrOf result (Damaged Counts) → IfShown K.View lot.now keep.old disk.old (λ old.
        (k ≡ count) × (2 ^ 32 ≤ counted false old + needs count)) }
    ensures unreserved { IsErrOf result (Damaged Bitmap)
        → IfShown K.View lot.now keep.old disk.old (λ old. ¬ Reserved lot.now old) }
    ensures misled { IsErrOf result (Damaged Pointer) → IfShown K.View lot.now keep.old disk.old (λ old.
        Misleads lot.now old inode.old count) }
    ensures looked { IsErrOf result NoSpace
        → Looked D.Disk K.View lot.now keep.old disk.old keep.new disk.new }
    ensures unmoved { IsErrOf result (Damaged Pointer)
        → Looked D.Disk K.View lot.now keep.old disk.old keep.new disk.new }
    ensures sub { AsShown K.View lot.now keep.old disk.old keep.new disk.new (λ old new.
        OnOk result (SubStays old new)) }
    ensures faults { IfErr result IsGrowFault }
    ensures failed { Caused D.state FaultDisk result disk.old disk.new }
{
    let at = reach::<D, K, P, F>(keep, pool, disk, lot, inode, count, k)?;
    if k < count {
        fetch(keep, disk, lot, at, into)?;
        return Ok(at);
    }
    Ok(at)
}

/// Writes an entry behind the last of a directory, in a new block where the last one is full. The inode is the caller's to put.
#[tactic(auto, using(ice_base::proofs::LotLaws::address_laws, ice_base::proofs::UsedLaws::group_laws))]
fn append<D: Disk, K: Keep<D>, P: Pool<D, K>, F: Form>(
    keep: &mut K,
    pool: &mut P,
    disk: &mut D,
    lot: &Lot,
    dir: &mut Inode,
    name: &[u8],
    inode: u32,
) -> Result<(), OpFault>
    requires sited { is_sited lot.now (D.state disk.old).size ≡ true }
    requires room { 7 ≤ K.room keep.old }
    requires short { dir.old.size < 4096 }
    requires fits { length name.now ≤ F.NAME }
    ensures put { AsShown K.View lot.now keep.old disk.old keep.new disk.new (λ old new.
        MadeOf lot.now old dir.old (blocks_sized F.ENTRY dir.old.size)
        → OnOk result ((bytes : List ℕ) × IsText (name.now, inode) bytes
        × RowPut lot.now F.ENTRY old new dir.old dir.new (blocks_sized F.ENTRY dir.old.size) (blocks_sized F.ENTRY (dir.old.size + 1)) dir.old.size bytes)) }
    ensures kind { OnOk result (dir.new.kind ≡ dir.old.kind) }
    ensures size { OnOk result (dir.new.size ≡ dir.old.size) }
    ensures spent { Spent D.Disk K.View lot.now 7 keep.old disk.old keep.new disk.new }
    ensures none { IsErrOf result NoSpace → IfShown K.View lot.now keep.old disk.old (λ old.
        free_count false lot.now old + uses_of (blocks_sized F.ENTRY dir.old.size) < uses_of (blocks_sized F.ENTRY (dir.old.size + 1))) }
    ensures full { IsErrOf result (Damaged Counts) → IfShown K.View lot.now keep.old disk.old (λ old.
        2 ^ 32 + uses_of (blocks_sized F.ENTRY dir.old.size) ≤ counted false old + uses_of (blocks_sized F.ENTRY (dir.old.size + 1))) }
    ensures unreserved { IsErrOf result (Damaged Bitmap)
        → IfShown K.View lot.now keep.old disk.old (λ old. ¬ Reserved lot.now old) }
    ensures misled { IsErrOf result (Damaged Pointer) → IfShown K.View lot.now keep.old disk.old (λ old.
        Misleads lot.now old dir.old (blocks_sized F.ENTRY dir.old.size)) }
    ensures looked { IsErrOf result NoSpace
        → Looked D.Disk K.View lot.now keep.old disk.old keep.new disk.new }
    ensures unmoved { IsErrOf result (Damaged Pointer)
        → Looked D.Disk K.View lot.now keep.old disk.old keep.new disk.new }
    ensures sub { AsShown K.View lot.now keep.old disk.old keep.new disk.new (λ old new.
        OnOk result (SubStays old new)) }
    ensures faults { IfErr result IsGrowFault }
    ensures failed { Caused D.state FaultDisk result disk.old disk.new }
{
    let mut block = [0; 1024];
    let count = blocks_for_rows::<F>(dir.size);
    let k = dir.size / rows_per_block::<F>();
    let place = row_place::<F>(dir.size);
    let at = open_block::<D, K, P, F>(keep, pool, disk, lot, dir, count, k, &mut block)?;
    write_row::<F>(&mut block, place, name, inode);
    store(keep, disk, lot, at, &block)?;
    Ok(())
}

/// Adds an entry at the end of a directory whose inode is in hand, which has none of this name, and room for one more.
/// NoSpace: the directory's new block, with its indirect block, needs more blocks than are free.
/// Damaged: the directory's map is not well made, the count of used blocks can't grow so far, or the least free block is no data place.
#[tactic(auto, using(crate::proofs::SizeLaws::size_laws))]
pub fn add_in<D: Disk, K: Keep<D>, P: Pool<D, K>, F: Form>(
    keep: &mut K,
    pool: &mut P,
    disk: &mut D,
    lot: &Lot,
    number: u32,
    dir: &Inode,
    name: &Name,
    inode: u32,
) -> Result<(), OpFault>
    // The lot lies on the disk, the keep has room, and the inode is a directory that can have one entry more.
    requires sited { is_sited lot.now (D.state disk.old).size ≡ true }
    requires number { number < 64 * length lot.now.groups }
    requires inode { inode < 64 * length lot.now.groups }
    requires fits { length name.now ≤ F.NAME }
    requires room { 8 ≤ K.room keep.old }
    requires is { HasEntryRoom lot.now dir.now }
    // What it makes of a well-made directory, where the inode is that of the number.
    ensures added { AsShown K.View lot.now keep.old disk.old keep.new disk.new (λ old new.
        dir.now ≡ inode_of old number → WellMade lot.now (form_of F.VERSION) old number
        → OnOk result (DirSet lot.now (form_of F.VERSION) old new number (dir_rows_of (form_of F.VERSION) old number ++ (name.now, inode) ∷ []))) }
    ensures text { AsShown K.View lot.now keep.old disk.old keep.new disk.new (λ old new.
        dir.now ≡ inode_of old number → WellMade lot.now (form_of F.VERSION) old number
        → OnOk result (TextAdded (form_of F.VERSION) old new number (name.now, inode))) }
    // Each refusal has its cause.
    ensures none { IsErrOf result NoSpace → IfShown K.View lot.now keep.old disk.old (λ old.
        FewFree lot.now (form_of F.VERSION) old dir.now.size) }
    ensures full { IsErrOf result (Damaged Counts) → IfShown K.View lot.now keep.old disk.old (λ old.
        CountFull (form_of F.VERSION) old dir.now.size) }
    ensures unreserved { IsErrOf result (Damaged Bitmap)
        → IfShown K.View lot.now keep.old disk.old (λ old. ¬ Reserved lot.now old) }
    ensures misled { IsErrOf result (Damaged Pointer) → IfShown K.View lot.now keep.old disk.old (λ old.
        Misleads lot.now old dir.now (entry_blocks (form_of F.VERSION) dir.now.size)) }
    // What it spends of the keep, and what stays as it was.
    ensures looked { IsErrOf result NoSpace
        → Looked D.Disk K.View lot.now keep.old disk.old keep.new disk.new }
    ensures unmoved { IsErrOf result (Damaged Pointer)
        → Looked D.Disk K.View lot.now keep.old disk.old keep.new disk.new }
    ensures sub { AsShown K.View lot.now keep.old disk.old keep.new disk.new (λ old new.
        OnOk result (SubStays old new)) }
    ensures spent { Spent D.Disk K.View lot.now 8 keep.old disk.old keep.new disk.new }
    // Which refusals there are, and when a fault comes.
    ensures faults { IfErr result IsGrowFault }
    ensures failed { Caused D.state FaultDisk result disk.old disk.new }
{
    let mut longer = *dir;
    append::<D, K, P, F>(keep, pool, disk, lot, &mut longer, name.bytes(), inode)?;
    longer.size += 1;
    put_inode::<D, K, P, F>(keep, pool, disk, lot, number, &longer)?;
    Ok(())
}

/// Adds an entry at the end of a directory, which has none of this name.
/// NoSpace: the directory's new block, with its indirect block, needs more blocks than are free.
/// Damaged: the inode is no directory that can have one entry more, its map is not well made, the count of used blocks
/// can't grow so far, or the least free block is no data place.
#[tactic(auto, using(crate::proofs::SizeLaws::size_laws))]
pub fn add<D: Disk, K: Keep<D>, P: Pool<D, K>, F: Form>(
    keep: &mut K,
    pool: &mut P,
    disk: &mut D,
    lot: &Lot,
    number: u32,
    name: &Name,
    inode: u32,
) -> Result<(), OpFault>
    requires sited { is_sited lot.now (D.state disk.old).size ≡ true }
    requires number { number < 64 * length lot.now.groups }
    requires inode { inode < 64 * length lot.now.groups }
    requires fits { length name.now ≤ F.NAME }
    requires room { 8 ≤ K.room keep.old }
    ensures added { AsShown K.View lot.now keep.old disk.old keep.new disk.new (λ old new.
        WellMade lot.now (form_of F.VERSION) old number
        → OnOk result (DirSet lot.now (form_of F.VERSION) old new number (dir_rows_of (form_of F.VERSION) old number ++ (name.now, inode) ∷ []))) }
    ensures text { AsShown K.View lot.now keep.old disk.old keep.new disk.new (λ old new.
        WellMade lot.now (form_of F.VERSION) old number
        → OnOk result (TextAdded (form_of F.VERSION) old new number (name.now, inode))) }
    ensures is { IfShown K.View lot.now keep.old disk.old (λ old.
        OnOk result (HasEntryRoom lot.now (inode_of old number))) }
    ensures spent { Spent D.Disk K.View lot.now 8 keep.old disk.old keep.new disk.new }
    ensures none { IsErrOf result NoSpace → IfShown K.View lot.now keep.old disk.old (λ old.
        FewFree lot.now (form_of F.VERSION) old (inode_of old number).size) }
    ensures full { IsErrOf result (Damaged Counts) → IfShown K.View lot.now keep.old disk.old (λ old.
        CountFull (form_of F.VERSION) old (inode_of old number).size) }
    ensures kind { IsErrOf result (Damaged Kind) → IfShown K.View lot.now keep.old disk.old (λ old.
        ¬ HasEntryRoom lot.now (inode_of old number)) }
    ensures unreserved { IsErrOf result (Damaged Bitmap)
        → IfShown K.View lot.now keep.old disk.old (λ old. ¬ Reserved lot.now old) }
    ensures misled { IsErrOf result (Damaged Pointer) → IfShown K.View lot.now keep.old disk.old (λ old.
        Misleads lot.now old (inode_of old number) (entry_blocks (form_of F.VERSION) (inode_of old number).size)) }
    ensures is_dir { (rule : Rule) → IsErrOf result (Damaged rule) → rule ≢ Kind
        → IfShown K.View lot.now keep.old disk.old (λ old. IsDirectory lot.now (inode_of old number)) }
    ensures looked { IsErrOf result NoSpace
        → Looked D.Disk K.View lot.now keep.old disk.old keep.new disk.new }
    ensures unmoved { IsErrOf result (Damaged Pointer)
        → Looked D.Disk K.View lot.now keep.old disk.old keep.new disk.new }
    ensures sub { AsShown K.View lot.now keep.old disk.old keep.new disk.new (λ old new.
        OnOk result (SubStays old new)) }
    ensures unchanged { IsErrOf result (Damaged Kind)
        → Looked D.Disk K.View lot.now keep.old disk.old keep.new disk.new }
    ensures faults { IfErr result IsAddFault }
    ensures failed { Caused D.state FaultDisk result disk.old disk.new }
{
    let dir = dir_inode::<D, K, F>(keep, disk, lot, number)?;
    if dir.size + 1 >= 64 * lot.len() as u32 {
        return Err(OpFault::Damaged(Rule::Kind));
    }
    add_in::<D, K, P, F>(keep, pool, disk, lot, number, &dir, name, inode)
}
