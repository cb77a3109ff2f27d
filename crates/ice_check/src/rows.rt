//! The entries of a directory, and the names in them.
ghost use Rattle.std.specs.Prelude.{◌≡◌, ◌≤◌, ◌<◌, ◌*◌, ℕ, true, List, Some, OnOk, OnErr, IfOk, IfErr, length};
ghost use Rattle.ice_base.specs.Disk.{Caused};
ghost use Rattle.ice_base.specs.Lots.{is_sited};
ghost use Rattle.ice_base.specs.Views.{Looked};
ghost use Rattle.ice_map.specs.Inodes.{inode_of};
ghost use Rattle.ice_dir.specs.Rows.{IsDirectory};
ghost use Rattle.tree_spec.specs.Costs.{form_one};
ghost use Rattle.ice_reads.specs.Tables.{Map, IsNameOf};
ghost use Rattle.ice_rules.specs.Walks.{walk_entry, LooksInto};
ghost use Rattle.ice_check.specs.Marks.{entry_count, AreRead, AllNew};
ghost use Rattle.ice_check.specs.Names.{array_names};
ghost use Rattle.ice_check.specs.Shown.{Shows, IsCheckFault, Broke, told_as};
ghost use Rattle.ice_check.specs.declared.fault.CheckFault.TheVariants.{Disk as FaultDisk};

use crate::fault::CheckFault;
use crate::names::{Kept, keep, names_differ};
use ice_base::{Disk, FormOne, Lot, OpFault, Rule, View};
use ice_dir::entry_in;
use ice_map::Inode;
use tree_spec::Name;

/// A name to read others into.
#[tactic(auto, unfolding(tree_spec::specs::Names::is_name))]
pub fn blank_name() -> Name {
    match Name::new(b"-") {
        Some(name) => name,
        None => unreachable!(),
    }
}

fn told(fault: OpFault) -> CheckFault
    ensures { result ≡ told_as fault }
{
    match fault {
        OpFault::Damaged(rule) => CheckFault::Damaged(rule),
        _ => CheckFault::Disk,
    }
}

/// The inode that entry `k` of a directory names, whose own inode is in hand. The name goes into `name`.
pub fn read_entry<D: Disk, V: View<D>>(
    view: &mut V,
    disk: &mut D,
    lot: &Lot,
    node: &Inode,
    k: u32,
    name: &mut Name,
) -> Result<u32, CheckFault>
    requires sited { is_sited lot.now (D.state disk.old).size ≡ true }
    requires is { IsDirectory lot.now node.now }
    ensures row { (m : Map) (number : ℕ) → Shows V.View lot.now view.old disk.old m → node.now ≡ inode_of m number
        → IfOk result (λ next. walk_entry form_one m number k ≡ Some (name.new, next)) }
    ensures fits { OnOk result (IsNameOf form_one name.new) }
    ensures broken { (m : Map) (w : List ℕ) (number : ℕ) → Shows V.View lot.now view.old disk.old m → node.now ≡ inode_of m number
        → LooksInto form_one lot.now m w number
        → k < entry_count m number → IfErr result (Broke lot.now m) }
    ensures looked { Looked D.Disk V.View lot.now view.old disk.old view.new disk.new }
    ensures faults { IfErr result IsCheckFault }
    ensures failed { Caused D.state FaultDisk result disk.old disk.new }
{
    match entry_in::<D, V, FormOne>(view, disk, lot, node, k, name) {
        Ok(next) => {
            let _proper = name.bytes();
            Ok(next)
        }
        Err(fault) => Err(told(fault)),
    }
}

/// Reads the names of a directory of `count` entries, whose inode is in hand.
fn read_names<D: Disk, V: View<D>>(
    view: &mut V,
    disk: &mut D,
    lot: &Lot,
    node: &Inode,
    count: u32,
    names: &mut [Kept],
) -> Result<(), CheckFault>
    requires sited { is_sited lot.now (D.state disk.old).size ≡ true }
    requires is { IsDirectory lot.now node.now }
    requires room { count ≤ length names.old }
    ensures long { length names.new ≡ length names.old }
    ensures names { (m : Map) (number : ℕ) → Shows V.View lot.now view.old disk.old m → node.now ≡ inode_of m number
        → OnOk result (AreRead m number count (array_names names.new)) }
    ensures broken { (m : Map) (w : List ℕ) (number : ℕ) → Shows V.View lot.now view.old disk.old m → node.now ≡ inode_of m number
        → LooksInto form_one lot.now m w number
        → count ≡ entry_count m number → IfErr result (Broke lot.now m) }
    ensures looked { Looked D.Disk V.View lot.now view.old disk.old view.new disk.new }
    ensures faults { IfErr result IsCheckFault }
    ensures failed { Caused D.state FaultDisk result disk.old disk.new }
{
    let mut name = blank_name();
    for k in 0..count {
        let _next = read_entry(view, disk, lot, node, k, &mut name)?;
        names[k as usize] = keep(&name);
    }
    Ok(())
}

/// Reads the names of a directory of `count` entries, whose inode is in hand and which may not have one name twice.
pub fn check_names<D: Disk, V: View<D>>(
    view: &mut V,
    disk: &mut D,
    lot: &Lot,
    node: &Inode,
    count: u32,
    names: &mut [Kept],
) -> Result<(), CheckFault>
    requires sited { is_sited lot.now (D.state disk.old).size ≡ true }
    requires is { IsDirectory lot.now node.now }
    requires room { count ≤ length names.old }
    ensures long { length names.new ≡ length names.old }
    ensures new { (m : Map) (number : ℕ) → Shows V.View lot.now view.old disk.old m → node.now ≡ inode_of m number
        → count ≡ entry_count m number → OnOk result (AllNew m number) }
    ensures broken { (m : Map) (w : List ℕ) (number : ℕ) → Shows V.View lot.now view.old disk.old m → node.now ≡ inode_of m number
        → LooksInto form_one lot.now m w number
        → count ≡ entry_count m number → IfErr result (Broke lot.now m) }
    ensures looked { Looked D.Disk V.View lot.now view.old disk.old view.new disk.new }
    ensures faults { IfErr result IsCheckFault }
    ensures failed { Caused D.state FaultDisk result disk.old disk.new }
{
    read_names(view, disk, lot, node, count, names)?;
    if !names_differ(&mut names[..count as usize]) {
        return Err(CheckFault::Damaged(Rule::NameTwice));
    }
    Ok(())
}
