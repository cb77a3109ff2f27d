//! The walk over the inodes of a lot: what it comes to gets marks.
ghost use Rattle.std.specs.Prelude.{◌≡◌, ℕ, ◌+◌, ◌*◌, ◌<◌, ◌≤◌, Bool, true, false, List, [], ◌∷◌, ◌++◌, length, IfOk, IfErr, IfNone, IfSome, OnOk};
ghost use Rattle.ice_base.specs.Disk.{Caused};
ghost use Rattle.ice_base.specs.Lots.{is_sited};
ghost use Rattle.ice_base.specs.Used.{used_inode};
ghost use Rattle.ice_base.specs.Views.{Looked};
ghost use Rattle.tree_spec.specs.Costs.{form_one};
ghost use Rattle.ice_reads.specs.Tables.{Map, rows_in};
ghost use Rattle.ice_map.specs.Inodes.{inode_of};
ghost use Rattle.ice_map.specs.Own.{own};
ghost use Rattle.ice_dir.specs.Rows.{IsDirectory};
ghost use Rattle.ice_rules.specs.Walks.{WalksTo, LooksInto, IsSound, IsOpen, IsNamable};
ghost use Rattle.ice_check.specs.Marks.{entry_count, GotMarks, Checked, CheckedRows, AllNew, IsGood, IsAt, SeenBefore, SeenWithin};
ghost use Rattle.ice_check.specs.Shown.{Shows, IsCheckFault, Broke};
ghost use Rattle.ice_check.specs.declared.fault.CheckFault.TheVariants.{Disk as FaultDisk};

use crate::bits::check_bits;
use crate::fault::CheckFault;
use crate::inodes::{look, map_blocks};
use crate::marks::{mark, mark_blocks};
use crate::names::Kept;
use crate::reads::is_used;
use crate::rows::{blank_name, check_names, read_entry};
use ice_base::{Disk, Lot, Rule, View};
use ice_map::Inode;

/// Looks at an inode that is marked used, and marks its blocks. Some: it is a directory with this inode.
fn visit<D: Disk, V: View<D>>(
    view: &mut V,
    disk: &mut D,
    lot: &Lot,
    number: u32,
    blocks: &mut [bool],
) -> Result<Option<Inode>, CheckFault>
    requires sited { is_sited lot.now (D.state disk.old).size ≡ true }
    requires number { number < 64 * length lot.now.groups }
    requires blocks { 256 * length lot.now.groups ≤ length blocks.old }
    ensures wide { length blocks.new ≡ length blocks.old }
    ensures is { IfOk result (λ o. IfSome o (IsDirectory lot.now)) }
    ensures hand { (m : Map) → Shows V.View lot.now view.old disk.old m
        → IfOk result (λ o. IfSome o (λ node. node ≡ inode_of m number)) }
    ensures sound { (m : Map) → Shows V.View lot.now view.old disk.old m → used_inode m number ≡ true
        → OnOk result (IsSound form_one lot.now m number) }
    ensures marks { (m : Map) → Shows V.View lot.now view.old disk.old m
        → OnOk result (GotMarks blocks.old blocks.new (own form_one m number).uses) }
    ensures file { (m : Map) → Shows V.View lot.now view.old disk.old m
        → IfOk result (λ o. IfNone o ((own form_one m number).inode.kind ≡ 1)) }
    ensures dir { (m : Map) → Shows V.View lot.now view.old disk.old m
        → IfOk result (λ o. IfSome o (λ node. ((own form_one m number).inode.kind ≡ 2)
        × (node.size ≡ entry_count m number))) }
    ensures broken { (m : Map) (w : List ℕ) (inodes : List Bool) → Shows V.View lot.now view.old disk.old m
        → WalksTo form_one lot.now m w number → used_inode m number ≡ true
        → SeenBefore form_one lot.now m w inodes blocks.old → IfErr result (Broke lot.now m) }
    ensures looked { Looked D.Disk V.View lot.now view.old disk.old view.new disk.new }
    ensures faults { IfErr result IsCheckFault }
    ensures failed { Caused D.state FaultDisk result disk.old disk.new }
{
    let mut pointers = [0; 1024];
    let inode = look(view, disk, lot, number, &mut pointers)?;
    let count = map_blocks(&inode);
    check_bits(view, disk, lot, &inode, &pointers, count)?;
    if !mark_blocks(&inode, &pointers, count, blocks) {
        return Err(CheckFault::Damaged(Rule::BlockTwice));
    }
    if inode.kind == 1 {
        return Ok(None);
    }
    Ok(Some(inode))
}

/// Whether an entry can name this inode: any of the lot but the root.
fn is_namable(lot: &Lot, number: u32) -> bool
    ensures yes { result ≡ true → IsNamable lot.now number }
    ensures no { result ≡ false → ¬ IsNamable lot.now number }
{
    number > 0 && number < 64 * lot.len() as u32
}

/// The inode that entry `k` of a directory names, whose own inode is in hand: it can be any of the lot's but the root.
fn next_inode<D: Disk, V: View<D>>(
    view: &mut V,
    disk: &mut D,
    lot: &Lot,
    node: &Inode,
    k: u32,
) -> Result<u32, CheckFault>
    requires sited { is_sited lot.now (D.state disk.old).size ≡ true }
    requires is { IsDirectory lot.now node.now }
    ensures below { IfOk result (λ next. next < 64 * length lot.now.groups) }
    ensures good { (m : Map) (number : ℕ) → Shows V.View lot.now view.old disk.old m → node.now ≡ inode_of m number
        → AllNew m number
        → IfOk result (IsGood form_one lot.now m number k) }
    ensures broken { (m : Map) (w : List ℕ) (number : ℕ) → Shows V.View lot.now view.old disk.old m → node.now ≡ inode_of m number
        → LooksInto form_one lot.now m w number
        → k < entry_count m number → IfErr result (Broke lot.now m) }
    ensures looked { Looked D.Disk V.View lot.now view.old disk.old view.new disk.new }
    ensures faults { IfErr result IsCheckFault }
    ensures failed { Caused D.state FaultDisk result disk.old disk.new }
{
    let mut name = blank_name();
    let next = read_entry(view, disk, lot, node, k, &mut name)?;
    if !is_namable(lot, next) {
        return Err(CheckFault::Damaged(Rule::InodeTwice));
    }
    Ok(next)
}

/// Checks an inode to which a walk of `depth` entries comes, and all that it leads to.
#[cycle(check)]
pub fn check_inode<D: Disk, V: View<D>>(
    view: &mut V,
    disk: &mut D,
    lot: &Lot,
    number: u32,
    depth: u32,
    inodes: &mut [bool],
    blocks: &mut [bool],
    names: &mut [Kept],
) -> Result<(), CheckFault>
    requires sited { is_sited lot.now (D.state disk.old).size ≡ true }
    requires number { number < 64 * length lot.now.groups }
    requires depth { depth ≤ 25 }
    requires inodes { 64 * length lot.now.groups ≤ length inodes.old }
    requires blocks { 256 * length lot.now.groups ≤ length blocks.old }
    requires names { 64 * length lot.now.groups ≤ length names.old }
    ensures long { length inodes.new ≡ length inodes.old }
    ensures wide { length blocks.new ≡ length blocks.old }
    ensures room { length names.new ≡ length names.old }
    ensures checked { (m : Map) → Shows V.View lot.now view.old disk.old m
        → OnOk result (Checked form_one lot.now m number depth inodes.old inodes.new blocks.old blocks.new) }
    ensures broken { (m : Map) (w : List ℕ) → Shows V.View lot.now view.old disk.old m → IsAt form_one lot.now m w number depth
        → SeenBefore form_one lot.now m w inodes.old blocks.old
        → IfErr result (Broke lot.now m) }
    ensures seen { (m : Map) (w : List ℕ) → Shows V.View lot.now view.old disk.old m → IsAt form_one lot.now m w number depth
        → SeenBefore form_one lot.now m w inodes.old blocks.old
        → OnOk result (SeenWithin form_one lot.now m w inodes.new blocks.new) }
    ensures looked { Looked D.Disk V.View lot.now view.old disk.old view.new disk.new }
    ensures faults { IfErr result IsCheckFault }
    ensures failed { Caused D.state FaultDisk result disk.old disk.new }
{
    let used = is_used(view, disk, lot, number)?;
    if !used {
        return Err(CheckFault::Damaged(Rule::Bitmap));
    }
    if depth > 24 {
        return Err(CheckFault::Damaged(Rule::Depth));
    }
    if !mark(inodes, number as usize) {
        return Err(CheckFault::Damaged(Rule::InodeTwice));
    }
    match visit(view, disk, lot, number, blocks)? {
        None => Ok(()),
        Some(node) => check_rows(view, disk, lot, &node, depth, inodes, blocks, names),
    }
}

/// Checks the entries of a directory whose inode is in hand, and what they lead to.
#[cycle(check)]
fn check_rows<D: Disk, V: View<D>>(
    view: &mut V,
    disk: &mut D,
    lot: &Lot,
    node: &Inode,
    depth: u32,
    inodes: &mut [bool],
    blocks: &mut [bool],
    names: &mut [Kept],
) -> Result<(), CheckFault>
    requires sited { is_sited lot.now (D.state disk.old).size ≡ true }
    requires is { IsDirectory lot.now node.now }
    requires depth { depth ≤ 24 }
    requires inodes { 64 * length lot.now.groups ≤ length inodes.old }
    requires blocks { 256 * length lot.now.groups ≤ length blocks.old }
    requires names { 64 * length lot.now.groups ≤ length names.old }
    ensures long { length inodes.new ≡ length inodes.old }
    ensures wide { length blocks.new ≡ length blocks.old }
    ensures room { length names.new ≡ length names.old }
    ensures checked { (m : Map) (number : ℕ) → Shows V.View lot.now view.old disk.old m → node.now ≡ inode_of m number
        → IsOpen form_one lot.now m number
        → node.now.size ≡ entry_count m number
        → OnOk result (CheckedRows form_one lot.now m (rows_in form_one (own form_one m number)) (depth + 1) node.now.size
        inodes.old inodes.new blocks.old blocks.new) }
    ensures broken { (m : Map) (w : List ℕ) (number : ℕ) → Shows V.View lot.now view.old disk.old m → node.now ≡ inode_of m number
        → IsOpen form_one lot.now m number
        → node.now.size ≡ entry_count m number
        → IsAt form_one lot.now m w number depth → SeenBefore form_one lot.now m (w ++ 0 ∷ []) inodes.old blocks.old
        → IfErr result (Broke lot.now m) }
    ensures seen { (m : Map) (w : List ℕ) (number : ℕ) → Shows V.View lot.now view.old disk.old m → node.now ≡ inode_of m number
        → IsOpen form_one lot.now m number
        → node.now.size ≡ entry_count m number
        → IsAt form_one lot.now m w number depth → SeenBefore form_one lot.now m (w ++ 0 ∷ []) inodes.old blocks.old
        → OnOk result (SeenWithin form_one lot.now m w inodes.new blocks.new) }
    ensures looked { Looked D.Disk V.View lot.now view.old disk.old view.new disk.new }
    ensures faults { IfErr result IsCheckFault }
    ensures failed { Caused D.state FaultDisk result disk.old disk.new }
{
    check_names(view, disk, lot, node, node.size, names)?;
    for k in 0..node.size {
        let next = next_inode(view, disk, lot, node, k)?;
        check_inode(view, disk, lot, next, depth + 1, inodes, blocks, names)?;
    }
    Ok(())
}
