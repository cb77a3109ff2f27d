//! How high trees are.
ghost use Rattle.std.specs.Prelude.{◌≡◌, ◌≤◌, ◌<◌, ◌+◌, ◌*◌, ◌⊎◌, ℕ, true, false, nat_lt, IfOk, IfErr, length};
ghost use Rattle.ice_base.specs.Disk.{Caused};
ghost use Rattle.ice_base.specs.Lots.{is_sited};
ghost use Rattle.ice_base.specs.Views.{Looked, IfShown};
ghost use Rattle.ice_base.specs.declared.fault.OpFault.TheVariants.{Disk as FaultDisk, Damaged};
ghost use Rattle.ice_base.specs.declared.fault.Rule.TheVariants.{InodeTwice};
ghost use Rattle.ice_map.specs.Inodes.{inode_of};
ghost use Rattle.ice_dir.specs.Rows.{HasEntry, IsDirectory};
ghost use Rattle.tree_spec.specs.Costs.{form_of, nodes};
ghost use Rattle.tree_spec.specs.Trees.{Tree, Entries, Dir, Found, rows, height};
ghost use Rattle.ice_map.specs.Own.{own};
ghost use Rattle.ice_look.specs.Broken.{IsBrokenBy, count_within, count_within_place};
ghost use Rattle.ice_look.specs.Heights.{IsEntry, IsChild, IsHeightFault};
ghost use Rattle.ice_look.specs.Places.{IsReached, PlaceFits, PlaceIs, PlaceReached, place_by, NodeFits, NodeIs};
ghost use Rattle.ice_look.specs.Calls.{FailsByDisk, ReadsIn};

use crate::blank::blank_name;
use crate::place::{Place, enter};
use ice_base::{Disk, Form, Lot, OpFault, Rule, View};
use ice_dir::entry_in;
use ice_map::Inode;

/// The place of the inode that entry `k` of a directory names; the inode goes into `child`.
fn entry_place<D: Disk, V: View<D>, F: Form>(
    view: &mut V,
    disk: &mut D,
    lot: &Lot,
    node: &Inode,
    k: u32,
    child: &mut Inode,
) -> Result<Place, OpFault>
    // The lot lies on the disk, and the inode in hand is a directory's.
    requires sited { is_sited lot.now (D.state disk.old).size ≡ true }
    requires is { IsDirectory lot.now node.now }
    // Where the inode stands for a tree, it finds what the tree has; the disk alone may fail.
    ensures place { (number h : ℕ) (es : Entries) → IfShown V.View lot.now view.old disk.old (λ old.
        node.now ≡ inode_of old number → ReadsIn F.VERSION lot.now old number h (Dir es) → k < length (rows es)
        → IfOk result (IsChild (form_of F.VERSION) lot.now
        (own (form_of F.VERSION) old) number h k es)) }
    ensures sound { (number h : ℕ) (es : Entries) → IfShown V.View lot.now view.old disk.old (λ old.
        node.now ≡ inode_of old number → ReadsIn F.VERSION lot.now old number h (Dir es) → k < length (rows es)
        → FailsByDisk result) }
    // What it answers of any lot, damaged or not.
    ensures fits { IfOk result (PlaceFits lot.now) }
    ensures node { IfOk result (λ p. NodeFits lot.now p child.new) }
    ensures node_is { IfShown V.View lot.now view.old disk.old (λ old.
        IfOk result (λ p. NodeIs old p child.new)) }
    ensures child { (number : ℕ) → IfShown V.View lot.now view.old disk.old (λ old.
        node.now ≡ inode_of old number → IsReached (form_of F.VERSION) lot.now old number
        → HasEntry lot.now k node.now
        → IfOk result (IsEntry (form_of F.VERSION) lot.now old number k)) }
    // Damage that it names is there.
    ensures broken { (number : ℕ) → IfShown V.View lot.now view.old disk.old (λ old.
        node.now ≡ inode_of old number → IsReached (form_of F.VERSION) lot.now old number
        → HasEntry lot.now k node.now
        → IfErr result (IsBrokenBy (form_of F.VERSION) lot.now old)) }
    // What stays as it was.
    ensures looked { Looked D.Disk V.View lot.now view.old disk.old view.new disk.new }
    // Which refusals there are, and when a fault comes.
    ensures faults { IfErr result IsHeightFault }
    ensures failed { Caused D.state FaultDisk result disk.old disk.new }
{
    let mut name = blank_name();
    let next = entry_in::<D, V, F>(view, disk, lot, node, k, &mut name)?;
    enter::<D, V, F>(view, disk, lot, next, child)
}

/// Whether one of the entries of a directory is higher than `levels`.
#[cycle(heights)]
fn has_higher<D: Disk, V: View<D>, F: Form>(
    view: &mut V,
    disk: &mut D,
    lot: &Lot,
    node: &Inode,
    levels: u32,
    budget: &mut u32,
) -> Result<bool, OpFault>
    // The lot lies on the disk, and the inode in hand is a directory's.
    requires sited { is_sited lot.now (D.state disk.old).size ≡ true }
    requires is { IsDirectory lot.now node.now }
    requires levels { levels < 24 }
    // Where the inode stands for a tree, it finds what the tree has; the disk alone may fail.
    ensures higher { (number h : ℕ) (es : Entries) → IfShown V.View lot.now view.old disk.old (λ old.
        node.now ≡ inode_of old number → ReadsIn F.VERSION lot.now old number h (Dir es)
        → node.now.size ≡ length (rows es)
        → nodes (Dir es) ≤ budget.old + 1
        → IfOk result (λ b. b ≡ nat_lt (levels + 1) (height (Dir es)))) }
    ensures sound { (number h : ℕ) (es : Entries) → IfShown V.View lot.now view.old disk.old (λ old.
        node.now ≡ inode_of old number → ReadsIn F.VERSION lot.now old number h (Dir es)
        → node.now.size ≡ length (rows es)
        → nodes (Dir es) ≤ budget.old + 1 → FailsByDisk result) }
    ensures budget { (number h : ℕ) (es : Entries) → IfShown V.View lot.now view.old disk.old (λ old.
        node.now ≡ inode_of old number → ReadsIn F.VERSION lot.now old number h (Dir es)
        → node.now.size ≡ length (rows es)
        → nodes (Dir es) ≤ budget.old + 1 → budget.old + 1 ≤ budget.new + nodes (Dir es)) }
    // Damage that it names is there.
    ensures pays { (number : ℕ) → IfShown V.View lot.now view.old disk.old (λ old.
        node.now ≡ inode_of old number → IsReached (form_of F.VERSION) lot.now old number
        → IfOk result (λ b. b ≡ false
        → budget.old + 1 ≤ budget.new + count_within (form_of F.VERSION) old (levels + 1) number)) }
    ensures broken { (number : ℕ) → IfShown V.View lot.now view.old disk.old (λ old.
        node.now ≡ inode_of old number → IsReached (form_of F.VERSION) lot.now old number
        → IfErr result (λ e. IsBrokenBy (form_of F.VERSION) lot.now old e
        ⊎ ((e ≡ Damaged InodeTwice) × (budget.old + 1 < count_within (form_of F.VERSION) old (levels + 1) number)))) }
    // What stays as it was.
    ensures falls { budget.new ≤ budget.old }
    ensures looked { Looked D.Disk V.View lot.now view.old disk.old view.new disk.new }
    // Which refusals there are, and when a fault comes.
    ensures faults { IfErr result IsHeightFault }
    ensures failed { Caused D.state FaultDisk result disk.old disk.new }
{
    for k in 0..node.size {
        let mut child = Inode::empty(0);
        let place = entry_place::<D, V, F>(view, disk, lot, node, k, &mut child)?;
        let higher = is_higher::<D, V, F>(view, disk, lot, place, &child, levels, budget)?;
        if higher {
            return Ok(true);
        }
    }
    Ok(false)
}

/// Whether the tree that stands at a place is higher than `levels`. Each file and directory that is looked at takes one from the budget.
/// Damaged: the budget is spent, an inode is neither a file nor a directory, an entry names no inode of the lot, a pointer is no data place,
/// or the name of an entry is none.
#[cycle(heights)]
pub fn is_higher<D: Disk, V: View<D>, F: Form>(
    view: &mut V,
    disk: &mut D,
    lot: &Lot,
    place: Place,
    node: &Inode,
    levels: u32,
    budget: &mut u32,
) -> Result<bool, OpFault>
    // The lot lies on the disk, and the inode in hand agrees with the place.
    requires sited { is_sited lot.now (D.state disk.old).size ≡ true }
    requires fits { PlaceFits lot.now place }
    requires in_hand { NodeFits lot.now place node.now }
    requires levels { levels ≤ 24 }
    // Where the inode stands for a tree, it finds what the tree has; the disk alone may fail.
    ensures higher { (i h : ℕ) (s : Tree) → IfShown V.View lot.now view.old disk.old (λ old.
        NodeIs old place node.now → ReadsIn F.VERSION lot.now old i h s → place ≡ place_by i (Found s) → nodes s ≤ budget.old
        → IfOk result (λ b. b ≡ nat_lt levels (height s))) }
    ensures sound { (i h : ℕ) (s : Tree) → IfShown V.View lot.now view.old disk.old (λ old.
        NodeIs old place node.now → ReadsIn F.VERSION lot.now old i h s → place ≡ place_by i (Found s) → nodes s ≤ budget.old
        → FailsByDisk result) }
    ensures budget { (i h : ℕ) (s : Tree) → IfShown V.View lot.now view.old disk.old (λ old.
        NodeIs old place node.now → ReadsIn F.VERSION lot.now old i h s → place ≡ place_by i (Found s) → nodes s ≤ budget.old
        → budget.old ≤ budget.new + nodes s) }
    // Damage that it names is there.
    ensures pays { IfShown V.View lot.now view.old disk.old (λ old.
        NodeIs old place node.now → PlaceIs old place → PlaceReached (form_of F.VERSION) lot.now old place
        → IfOk result (λ b. b ≡ false
        → budget.old ≤ budget.new + count_within_place (form_of F.VERSION) old levels place)) }
    ensures broken { IfShown V.View lot.now view.old disk.old (λ old.
        NodeIs old place node.now → PlaceIs old place → PlaceReached (form_of F.VERSION) lot.now old place
        → IfErr result (λ e. IsBrokenBy (form_of F.VERSION) lot.now old e
        ⊎ ((e ≡ Damaged InodeTwice) × (budget.old < count_within_place (form_of F.VERSION) old levels place)))) }
    // What stays as it was.
    ensures falls { budget.new ≤ budget.old }
    ensures looked { Looked D.Disk V.View lot.now view.old disk.old view.new disk.new }
    // Which refusals there are, and when a fault comes.
    ensures faults { IfErr result IsHeightFault }
    ensures failed { Caused D.state FaultDisk result disk.old disk.new }
{
    if *budget == 0 {
        return Err(OpFault::Damaged(Rule::InodeTwice));
    }
    *budget -= 1;
    match place {
        Place::Dir { size, .. } => {
            if size == 0 {
                return Ok(false);
            }
            if levels == 0 {
                return Ok(true);
            }
            has_higher::<D, V, F>(view, disk, lot, node, levels - 1, budget)
        }
        Place::File { .. } => Ok(false),
        Place::Missing => Ok(false),
        Place::Blocked => Ok(false),
    }
}
