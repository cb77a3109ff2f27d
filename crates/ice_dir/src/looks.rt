//! What directories hold.
ghost use Rattle.std.specs.Prelude.{◌≡◌, ◌≤◌, ◌<◌, ◌*◌, ◌+◌, ◌-◌, ◌/◌, ℕ, true, false, min, OnOk, OnErr, IfOk, IfErr, IfNone, IfSome, IsErrOf, Some, MatchOption, length, slice_get};
ghost use Rattle.ice_base.specs.Disk.{Caused};
ghost use Rattle.ice_base.specs.Lots.{is_sited};
ghost use Rattle.ice_base.specs.Used.{is_data};
ghost use Rattle.ice_base.specs.Views.{Looked, IfShown};
ghost use Rattle.ice_base.specs.declared.fault.OpFault.TheVariants.{Disk as FaultDisk, Damaged};
ghost use Rattle.ice_base.specs.declared.fault.Rule.TheVariants.{Kind, Pointer, Name as BadName};
ghost use Rattle.ice_map.specs.Faults.{IsLookFault};
ghost use Rattle.ice_map.specs.Inodes.{inode_of};
ghost use Rattle.ice_map.specs.Maps.{longest, nth_block, leads};
ghost use Rattle.tree_spec.specs.Names.{is_name};
ghost use Rattle.ice_dir.specs.Faults.{IsDirFault, IsFindFault, IsEntryFault};
ghost use Rattle.ice_dir.specs.Rows.{entries_in, rows_at, dir_rows_of, row_at, row_sized, look_up, NoneNamed, FirstNamed, IsDirectory, HasEntry, per_block};
ghost use Rattle.tree_spec.specs.Costs.{form_of};

use crate::rows::{read_name, read_number, row_place, rows_per_block};
use ice_base::{Block, Disk, Form, Lot, OpFault, Rule, View, fetch};
use ice_map::{Inode, get_inode, nth};
use tree_spec::Name;

/// The inode of a directory. Damaged: it is none, or has as many entries as the lot has inodes.
pub fn dir_inode<D: Disk, V: View<D>, F: Form>(
    view: &mut V,
    disk: &mut D,
    lot: &Lot,
    number: u32,
) -> Result<Inode, OpFault>
    requires sited { is_sited lot.now (D.state disk.old).size ≡ true }
    requires number { number < 64 * length lot.now.groups }
    ensures value { IfShown V.View lot.now view.old disk.old (λ old.
        IfOk result (λ inode. inode ≡ inode_of old number)) }
    ensures is { IfOk result (IsDirectory lot.now) }
    ensures kind { IsErrOf result (Damaged Kind) → IfShown V.View lot.now view.old disk.old (λ old.
        ¬ IsDirectory lot.now (inode_of old number)) }
    ensures looked { Looked D.Disk V.View lot.now view.old disk.old view.new disk.new }
    ensures faults { IfErr result IsDirFault }
    ensures failed { Caused D.state FaultDisk result disk.old disk.new }
{
    let inode = get_inode::<D, V, F>(view, disk, lot, number)?;
    if inode.kind != 2 || inode.size >= 64 * lot.len() as u32 {
        return Err(OpFault::Damaged(Rule::Kind));
    }
    Ok(inode)
}

/// Reads block `n` of a map and says which it is.
#[tactic(auto, using(ice_base::proofs::LotLaws::address_laws, ice_base::proofs::UsedLaws::group_laws))]
pub fn read_block<D: Disk, V: View<D>, F: Form>(
    view: &mut V,
    disk: &mut D,
    lot: &Lot,
    inode: &Inode,
    n: u32,
    into: &mut Block,
) -> Result<u32, OpFault>
    requires sited { is_sited lot.now (D.state disk.old).size ≡ true }
    requires short { n < longest }
    ensures content { IfShown V.View lot.now view.old disk.old (λ old.
        OnOk result (into.new ≡ old (nth_block old inode.now n))) }
    ensures block { IfShown V.View lot.now view.old disk.old (λ old.
        IfOk result (λ a. a ≡ nth_block old inode.now n)) }
    ensures data { IfOk result (λ a. is_data lot.now a ≡ true) }
    ensures pointer { IsErrOf result (Damaged Pointer) → IfShown V.View lot.now view.old disk.old (λ old.
        leads lot.now old inode.now n ≡ false) }
    ensures looked { Looked D.Disk V.View lot.now view.old disk.old view.new disk.new }
    ensures faults { IfErr result IsLookFault }
    ensures failed { Caused D.state FaultDisk result disk.old disk.new }
{
    let at = nth::<D, V, F>(view, disk, lot, inode, n)?;
    fetch(view, disk, lot, at, into)?;
    Ok(at)
}

/// The number of entries of a directory. Damaged: the inode is no directory.
pub fn len<D: Disk, V: View<D>, F: Form>(
    view: &mut V,
    disk: &mut D,
    lot: &Lot,
    number: u32,
) -> Result<u32, OpFault>
    requires sited { is_sited lot.now (D.state disk.old).size ≡ true }
    requires number { number < 64 * length lot.now.groups }
    ensures rows { IfShown V.View lot.now view.old disk.old (λ old.
        IfOk result (λ n. n ≡ length (dir_rows_of (form_of F.VERSION) old number))) }
    ensures few { IfOk result (λ n. n < 64 * length lot.now.groups) }
    ensures is { IfShown V.View lot.now view.old disk.old (λ old.
        OnOk result (IsDirectory lot.now (inode_of old number))) }
    ensures kind { IsErrOf result (Damaged Kind) → IfShown V.View lot.now view.old disk.old (λ old.
        ¬ IsDirectory lot.now (inode_of old number)) }
    ensures looked { Looked D.Disk V.View lot.now view.old disk.old view.new disk.new }
    ensures faults { IfErr result IsDirFault }
    ensures failed { Caused D.state FaultDisk result disk.old disk.new }
{
    Ok(dir_inode::<D, V, F>(view, disk, lot, number)?.size)
}

/// Entry `k` of a directory whose inode is in hand: its name goes into `into`, and its inode is answered.
/// Damaged: there is no such entry, a pointer to the entry's block is no data place, or the entry's name is none of the form.
#[tactic(auto, using(ice_base::proofs::LotLaws::sited_laws, crate::proofs::SizeLaws::size_laws))]
pub fn entry_in<D: Disk, V: View<D>, F: Form>(
    view: &mut V,
    disk: &mut D,
    lot: &Lot,
    inode: &Inode,
    k: u32,
    into: &mut Name,
) -> Result<u32, OpFault>
    // The lot lies on the disk, and the inode is a directory's.
    requires sited { is_sited lot.now (D.state disk.old).size ≡ true }
    requires is { IsDirectory lot.now inode.now }
    // What it answers.
    ensures row { IfShown V.View lot.now view.old disk.old (λ old.
        IfOk result (λ next. slice_get (rows_at (form_of F.VERSION) old inode.now) k ≡ Some (into.new, next))) }
    ensures fits { OnOk result (length into.new ≤ F.NAME) }
    ensures has { OnOk result (HasEntry lot.now k inode.now) }
    // Damage that it names is there.
    ensures kind { IsErrOf result (Damaged Kind) → ¬ HasEntry lot.now k inode.now }
    ensures pointer { IsErrOf result (Damaged Pointer) → IfShown V.View lot.now view.old disk.old (λ old.
        leads lot.now old inode.now (k / per_block (form_of F.VERSION)) ≡ false) }
    ensures name { IsErrOf result (Damaged BadName) → IfShown V.View lot.now view.old disk.old (λ old.
        IfSome (slice_get (rows_at (form_of F.VERSION) old inode.now) k) (λ row. is_name row.0 ≡ false)) }
    // What stays as it was.
    ensures kept { OnErr result (into.new ≡ into.old) }
    ensures looked { Looked D.Disk V.View lot.now view.old disk.old view.new disk.new }
    // Which refusals there are, and when a fault comes.
    ensures faults { IfErr result IsEntryFault }
    ensures failed { Caused D.state FaultDisk result disk.old disk.new }
{
    if k >= inode.size {
        return Err(OpFault::Damaged(Rule::Kind));
    }
    let mut block = [0; 1024];
    read_block::<D, V, F>(
        view,
        disk,
        lot,
        inode,
        k / rows_per_block::<F>(),
        &mut block,
    )?;
    let at = row_place::<F>(k);
    match Name::new(read_name::<F>(&block, at)) {
        None => Err(OpFault::Damaged(Rule::Name)),
        Some(name) => {
            *into = name;
            Ok(read_number::<F>(&block, at))
        }
    }
}

/// Entry `k`: its name goes into `into`, and its inode is answered.
/// Damaged: the inode is no directory with such an entry, a pointer to the entry's block is no data place, or the entry's name is none of the form.
pub fn entry<D: Disk, V: View<D>, F: Form>(
    view: &mut V,
    disk: &mut D,
    lot: &Lot,
    number: u32,
    k: u32,
    into: &mut Name,
) -> Result<u32, OpFault>
    requires sited { is_sited lot.now (D.state disk.old).size ≡ true }
    requires number { number < 64 * length lot.now.groups }
    ensures row { IfShown V.View lot.now view.old disk.old (λ old.
        IfOk result (λ inode. slice_get (dir_rows_of (form_of F.VERSION) old number) k ≡ Some (into.new, inode))) }
    ensures fits { OnOk result (length into.new ≤ F.NAME) }
    ensures kept { OnErr result (into.new ≡ into.old) }
    ensures is { IfShown V.View lot.now view.old disk.old (λ old.
        OnOk result (HasEntry lot.now k (inode_of old number))) }
    ensures kind { IsErrOf result (Damaged Kind) → IfShown V.View lot.now view.old disk.old (λ old.
        ¬ HasEntry lot.now k (inode_of old number)) }
    ensures pointer { IsErrOf result (Damaged Pointer) → IfShown V.View lot.now view.old disk.old (λ old.
        leads lot.now old (inode_of old number) (k / per_block (form_of F.VERSION)) ≡ false) }
    ensures name { IsErrOf result (Damaged BadName) → IfShown V.View lot.now view.old disk.old (λ old.
        IfSome (slice_get (dir_rows_of (form_of F.VERSION) old number) k) (λ row. is_name row.0 ≡ false)) }
    ensures looked { Looked D.Disk V.View lot.now view.old disk.old view.new disk.new }
    ensures faults { IfErr result IsEntryFault }
    ensures failed { Caused D.state FaultDisk result disk.old disk.new }
{
    let inode = dir_inode::<D, V, F>(view, disk, lot, number)?;
    entry_in::<D, V, F>(view, disk, lot, &inode, k, into)
}

/// The first of the first `count` entries of a block that has this name.
fn seek_in<F: Form>(block: &Block, count: u32, name: &[u8]) -> Option<u32>
    requires { count ≤ entries_in F.ENTRY }
    ensures found { MatchOption result (NoneNamed (λ k. row_at F.ENTRY block.now (F.ENTRY * k)) name.now 0 count)
        (FirstNamed (λ k. row_at F.ENTRY block.now (F.ENTRY * k)) name.now 0 count) }
{
    for k in 0..count {
        if *read_name::<F>(block, (F::ENTRY * k) as usize) == *name {
            return Some(k);
        }
    }
    None
}

/// The first entry of the block `n` of a directory that has this name, and its inode.
fn seek_block<D: Disk, V: View<D>, F: Form>(
    view: &mut V,
    disk: &mut D,
    lot: &Lot,
    inode: &Inode,
    n: u32,
    name: &[u8],
) -> Result<Option<(u32, u32)>, OpFault>
    requires sited { is_sited lot.now (D.state disk.old).size ≡ true }
    requires short { inode.now.size ≤ 4096 }
    requires below { n * entries_in F.ENTRY < inode.now.size }
    ensures found { IfShown V.View lot.now view.old disk.old (λ old.
        IfOk result (λ o. MatchOption o
        (NoneNamed (row_sized F.ENTRY old inode.now) name.now (n * entries_in F.ENTRY) (min inode.now.size (n * entries_in F.ENTRY + entries_in F.ENTRY)))
        (λ p. FirstNamed (row_sized F.ENTRY old inode.now) name.now (n * entries_in F.ENTRY) inode.now.size p.0
        × (p.1 ≡ (row_sized F.ENTRY old inode.now p.0).1)))) }
    ensures below { IfOk result (λ o. IfSome o (λ p. p.0 < inode.now.size)) }
    ensures pointer { IsErrOf result (Damaged Pointer) → IfShown V.View lot.now view.old disk.old (λ old.
        leads lot.now old inode.now n ≡ false) }
    ensures looked { Looked D.Disk V.View lot.now view.old disk.old view.new disk.new }
    ensures faults { IfErr result IsLookFault }
    ensures failed { Caused D.state FaultDisk result disk.old disk.new }
{
    let mut block = [0; 1024];
    read_block::<D, V, F>(view, disk, lot, inode, n, &mut block)?;
    let first = n * rows_per_block::<F>();
    let count = rows_per_block::<F>().min(inode.size - first);
    match seek_in::<F>(&block, count, name) {
        None => Ok(None),
        Some(k) => Ok(Some((first + k, read_number::<F>(&block, (F::ENTRY * k) as usize)))),
    }
}

/// The first entry of a directory that has this name, and its inode.
pub fn seek<D: Disk, V: View<D>, F: Form>(
    view: &mut V,
    disk: &mut D,
    lot: &Lot,
    inode: &Inode,
    name: &[u8],
) -> Result<Option<(u32, u32)>, OpFault>
    requires sited { is_sited lot.now (D.state disk.old).size ≡ true }
    requires short { inode.now.size ≤ 4096 }
    ensures found { IfShown V.View lot.now view.old disk.old (λ old.
        IfOk result (λ o. MatchOption o (NoneNamed (row_sized F.ENTRY old inode.now) name.now 0 inode.now.size)
        (λ p. FirstNamed (row_sized F.ENTRY old inode.now) name.now 0 inode.now.size p.0
        × (p.1 ≡ (row_sized F.ENTRY old inode.now p.0).1)))) }
    ensures below { IfOk result (λ o. IfSome o (λ p. p.0 < inode.now.size)) }
    ensures pointer { IsErrOf result (Damaged Pointer) → IfShown V.View lot.now view.old disk.old (λ old.
        (n : ℕ) × (n * entries_in F.ENTRY < inode.now.size) × (leads lot.now old inode.now n ≡ false)) }
    ensures looked { Looked D.Disk V.View lot.now view.old disk.old view.new disk.new }
    ensures faults { IfErr result IsLookFault }
    ensures failed { Caused D.state FaultDisk result disk.old disk.new }
{
    for n in 0..inode.size.div_ceil(rows_per_block::<F>()) {
        match seek_block::<D, V, F>(view, disk, lot, inode, n, name)? {
            None => {}
            Some(found) => return Ok(Some(found)),
        }
    }
    Ok(None)
}

/// The inode that a directory whose inode is in hand names so, None exactly where no entry has the name.
/// Damaged: a pointer to one of its blocks is no data place.
#[tactic(auto, using(crate::proofs::SizeLaws::size_laws))]
pub fn find_in<D: Disk, V: View<D>, F: Form>(
    view: &mut V,
    disk: &mut D,
    lot: &Lot,
    inode: &Inode,
    name: &Name,
) -> Result<Option<u32>, OpFault>
    // The lot lies on the disk, and the inode is a directory's.
    requires sited { is_sited lot.now (D.state disk.old).size ≡ true }
    requires is { IsDirectory lot.now inode.now }
    // What it answers.
    ensures found { IfShown V.View lot.now view.old disk.old (λ old.
        IfOk result (λ o. o ≡ look_up name.now (rows_at (form_of F.VERSION) old inode.now))) }
    // Damage that it names is there.
    ensures pointer { IsErrOf result (Damaged Pointer) → IfShown V.View lot.now view.old disk.old (λ old.
        (n : ℕ) × (n * per_block (form_of F.VERSION) < inode.now.size)
        × (leads lot.now old inode.now n ≡ false)) }
    // What stays as it was.
    ensures looked { Looked D.Disk V.View lot.now view.old disk.old view.new disk.new }
    // Which refusals there are, and when a fault comes.
    ensures faults { IfErr result IsLookFault }
    ensures failed { Caused D.state FaultDisk result disk.old disk.new }
{
    match seek::<D, V, F>(view, disk, lot, inode, name.bytes())? {
        None => Ok(None),
        Some((_, number)) => Ok(Some(number)),
    }
}

/// The inode that a directory names so, None exactly where no entry has the name.
/// Damaged: the inode is no directory, or a pointer to one of its blocks is no data place.
pub fn find<D: Disk, V: View<D>, F: Form>(
    view: &mut V,
    disk: &mut D,
    lot: &Lot,
    number: u32,
    name: &Name,
) -> Result<Option<u32>, OpFault>
    requires sited { is_sited lot.now (D.state disk.old).size ≡ true }
    requires number { number < 64 * length lot.now.groups }
    ensures found { IfShown V.View lot.now view.old disk.old (λ old.
        IfOk result (λ o. o ≡ look_up name.now (dir_rows_of (form_of F.VERSION) old number))) }
    ensures is { IfShown V.View lot.now view.old disk.old (λ old.
        OnOk result (IsDirectory lot.now (inode_of old number))) }
    ensures kind { IsErrOf result (Damaged Kind) → IfShown V.View lot.now view.old disk.old (λ old.
        ¬ IsDirectory lot.now (inode_of old number)) }
    ensures pointer { IsErrOf result (Damaged Pointer) → IfShown V.View lot.now view.old disk.old (λ old.
        (n : ℕ) × (n * per_block (form_of F.VERSION) < (inode_of old number).size)
        × (leads lot.now old (inode_of old number) n ≡ false)) }
    ensures looked { Looked D.Disk V.View lot.now view.old disk.old view.new disk.new }
    ensures faults { IfErr result IsFindFault }
    ensures failed { Caused D.state FaultDisk result disk.old disk.new }
{
    let inode = dir_inode::<D, V, F>(view, disk, lot, number)?;
    find_in::<D, V, F>(view, disk, lot, &inode, name)
}
