//! Walks through the tree of a lot.
ghost use Rattle.std.specs.Prelude.{◌≡◌, ◌≢◌, ◌≤◌, ◌<◌, ◌⊎◌, ◌*◌, ◌-◌, ℕ, true, IfOk, IfErr, IsErrOf, length, take, drop};
ghost use Rattle.ice_base.specs.Disk.{Caused};
ghost use Rattle.ice_base.specs.Lots.{is_sited};
ghost use Rattle.ice_base.specs.Views.{Looked, IfShown};
ghost use Rattle.ice_base.specs.declared.fault.OpFault.TheVariants.{Disk as FaultDisk, Damaged};
ghost use Rattle.ice_base.specs.declared.fault.Rule.TheVariants.{Kind};
ghost use Rattle.ice_map.specs.Inodes.{inode_of};
ghost use Rattle.ice_look.specs.declared.place.Place.TheVariants.{Missing, Blocked};
ghost use Rattle.ice_look.specs.Broken.{BadEntry, IsBrokenBy};
ghost use Rattle.ice_look.specs.Places.{place_by, IsNode, NodeFits, NodeIs, Reached, PlaceFits, PlaceOf, PlaceInHand, PlaceIs, PlaceReached, PlaceNamed, IsWalkFault};
ghost use Rattle.tree_spec.specs.Trees.{Tree, child, Found};
ghost use Rattle.tree_spec.specs.Costs.{form_of};
ghost use Rattle.ice_map.specs.Own.{own};
ghost use Rattle.ice_reads.specs.Tables.{rows_in, inode_named};
ghost use Rattle.ice_look.specs.Calls.{IfRecovers, FailsByDisk, FailsByDiskAlone, ReadsIn, place_on};

use ice_base::{Disk, Form, Lot, OpFault, Rule, View};
use ice_dir::find_in;
use ice_map::{Inode, get_inode, longest_file};
use tree_spec::{Name, Path};

/// Where a walk ends: at a file or a directory, with the number and the size of its inode, at a directory without the next name, or at a
/// file with a name left.
#[derive(Clone, Copy, Debug, PartialEq, Eq)]
pub enum Place {
    File { number: u32, size: u32 },
    Dir { number: u32, size: u32 },
    Missing,
    Blocked,
}

/// The place of an inode. Damaged: it is neither a file nor a directory of a size that it may have.
pub(crate) fn look<D: Disk, V: View<D>, F: Form>(
    view: &mut V,
    disk: &mut D,
    lot: &Lot,
    number: u32,
    node: &mut Inode,
) -> Result<Place, OpFault>
    // The lot lies on the disk.
    requires sited { is_sited lot.now (D.state disk.old).size ≡ true }
    requires number { number < 64 * length lot.now.groups }
    // Where the inode stands for a tree, it finds what the tree has; the disk alone may fail.
    ensures place { (h : ℕ) (t : Tree) → IfShown V.View lot.now view.old disk.old (λ old.
        ReadsIn F.VERSION lot.now old number h t
        → IfOk result (λ p. p ≡ place_by number (Found t))) }
    ensures sound { (h : ℕ) (t : Tree) → IfShown V.View lot.now view.old disk.old (λ old.
        ReadsIn F.VERSION lot.now old number h t → FailsByDisk result) }
    // What it answers of any lot, damaged or not.
    ensures fits { IfOk result (PlaceFits lot.now) }
    ensures node { IfOk result (λ p. NodeFits lot.now p node.new) }
    ensures node_is { IfShown V.View lot.now view.old disk.old (λ old.
        IfOk result (λ p. NodeIs old p node.new)) }
    ensures at { IfOk result (PlaceOf number) }
    ensures is { IfShown V.View lot.now view.old disk.old (λ old. IfOk result (PlaceIs old)) }
    ensures reached { IfShown V.View lot.now view.old disk.old (λ old.
        Reached (form_of F.VERSION) lot.now old number → IfOk result (PlaceReached (form_of F.VERSION) lot.now old)) }
    // Damage that it names is there.
    ensures broken { IfShown V.View lot.now view.old disk.old (λ old.
        Reached (form_of F.VERSION) lot.now old number → IfErr result (IsBrokenBy (form_of F.VERSION) lot.now old)) }
    ensures kind { IsErrOf result (Damaged Kind) → IfShown V.View lot.now view.old disk.old (λ old.
        ¬ IsNode lot.now (inode_of old number)) }
    // What stays as it was.
    ensures looked { Looked D.Disk V.View lot.now view.old disk.old view.new disk.new }
    // Which refusals there are, and when a fault comes.
    ensures faults { IfErr result IsWalkFault }
    ensures failed { Caused D.state FaultDisk result disk.old disk.new }
{
    let inode = get_inode::<D, V, F>(view, disk, lot, number)?;
    *node = inode;
    let size = inode.size;
    let longest = longest_file::<F>();
    if inode.kind == 1 && size <= longest {
        return Ok(Place::File { number, size });
    }
    if inode.kind == 2 && size < 64 * lot.len() as u32 {
        return Ok(Place::Dir { number, size });
    }
    Err(OpFault::Damaged(Rule::Kind))
}

/// The place of the inode that an entry names. Damaged: the number is none of the lot.
pub(crate) fn enter<D: Disk, V: View<D>, F: Form>(
    view: &mut V,
    disk: &mut D,
    lot: &Lot,
    number: u32,
    node: &mut Inode,
) -> Result<Place, OpFault>
    // The lot lies on the disk.
    requires sited { is_sited lot.now (D.state disk.old).size ≡ true }
    // Where the inode stands for a tree, it finds what the tree has; the disk alone may fail.
    ensures place { (h : ℕ) (t : Tree) → IfShown V.View lot.now view.old disk.old (λ old.
        ReadsIn F.VERSION lot.now old number h t
        → IfOk result (λ p. p ≡ place_by number (Found t))) }
    ensures sound { (h : ℕ) (t : Tree) → IfShown V.View lot.now view.old disk.old (λ old.
        ReadsIn F.VERSION lot.now old number h t → FailsByDisk result) }
    // What it answers of any lot, damaged or not.
    ensures fits { IfOk result (PlaceFits lot.now) }
    ensures node { IfOk result (λ p. NodeFits lot.now p node.new) }
    ensures node_is { IfShown V.View lot.now view.old disk.old (λ old.
        IfOk result (λ p. NodeIs old p node.new)) }
    ensures at { IfOk result (PlaceOf number) }
    ensures is { IfShown V.View lot.now view.old disk.old (λ old. IfOk result (PlaceIs old)) }
    ensures reached { IfShown V.View lot.now view.old disk.old (λ old.
        Reached (form_of F.VERSION) lot.now old number → IfOk result (PlaceReached (form_of F.VERSION) lot.now old)) }
    // Damage that it names is there.
    ensures broken { IfShown V.View lot.now view.old disk.old (λ old.
        Reached (form_of F.VERSION) lot.now old number
        → (64 * length lot.now.groups ≤ number → BadEntry (form_of F.VERSION) lot.now old)
        → IfErr result (IsBrokenBy (form_of F.VERSION) lot.now old)) }
    // What stays as it was.
    ensures looked { Looked D.Disk V.View lot.now view.old disk.old view.new disk.new }
    // Which refusals there are, and when a fault comes.
    ensures faults { IfErr result IsWalkFault }
    ensures failed { Caused D.state FaultDisk result disk.old disk.new }
{
    if number >= 64 * lot.len() as u32 {
        return Err(OpFault::Damaged(Rule::InodeTwice));
    }
    look::<D, V, F>(view, disk, lot, number, node)
}

/// The place of the inode that an entry names. Damaged: the number is the root's or none of the lot.
pub(crate) fn enter_named<D: Disk, V: View<D>, F: Form>(
    view: &mut V,
    disk: &mut D,
    lot: &Lot,
    number: u32,
    node: &mut Inode,
) -> Result<Place, OpFault>
    // The lot lies on the disk.
    requires sited { is_sited lot.now (D.state disk.old).size ≡ true }
    // Where the inode stands for a tree, it finds what the tree has; the disk alone may fail.
    ensures place { (h : ℕ) (t : Tree) → IfShown V.View lot.now view.old disk.old (λ old.
        number ≢ 0 → ReadsIn F.VERSION lot.now old number h t
        → IfOk result (λ p. p ≡ place_by number (Found t))) }
    ensures sound { (h : ℕ) (t : Tree) → IfShown V.View lot.now view.old disk.old (λ old.
        number ≢ 0 → ReadsIn F.VERSION lot.now old number h t → FailsByDisk result) }
    // What it answers of any lot, damaged or not.
    ensures fits { IfOk result (PlaceFits lot.now) }
    ensures node { IfOk result (λ p. NodeFits lot.now p node.new) }
    ensures node_is { IfShown V.View lot.now view.old disk.old (λ old.
        IfOk result (λ p. NodeIs old p node.new)) }
    ensures at { IfOk result (PlaceOf number) }
    ensures is { IfShown V.View lot.now view.old disk.old (λ old. IfOk result (PlaceIs old)) }
    ensures reached { IfShown V.View lot.now view.old disk.old (λ old.
        Reached (form_of F.VERSION) lot.now old number → IfOk result (PlaceReached (form_of F.VERSION) lot.now old)) }
    // Damage that it names is there.
    ensures broken { IfShown V.View lot.now view.old disk.old (λ old.
        Reached (form_of F.VERSION) lot.now old number
        → ((number ≡ 0) ⊎ (64 * length lot.now.groups ≤ number) → BadEntry (form_of F.VERSION) lot.now old)
        → IfErr result (IsBrokenBy (form_of F.VERSION) lot.now old)) }
    // What stays as it was.
    ensures looked { Looked D.Disk V.View lot.now view.old disk.old view.new disk.new }
    // Which refusals there are, and when a fault comes.
    ensures faults { IfErr result IsWalkFault }
    ensures failed { Caused D.state FaultDisk result disk.old disk.new }
{
    if number == 0 {
        return Err(OpFault::Damaged(Rule::InodeTwice));
    }
    enter::<D, V, F>(view, disk, lot, number, node)
}

/// The place of a walk's next name.
pub(crate) fn step<D: Disk, V: View<D>, F: Form>(
    view: &mut V,
    disk: &mut D,
    lot: &Lot,
    from: Place,
    name: &Name,
    node: &mut Inode,
) -> Result<Place, OpFault>
    // The lot lies on the disk.
    requires sited { is_sited lot.now (D.state disk.old).size ≡ true }
    requires fits { PlaceFits lot.now from }
    requires in_hand { NodeFits lot.now from node.old }
    // Where the inode stands for a tree, it finds what the tree has; the disk alone may fail.
    ensures place { (i h : ℕ) (t : Tree) → IfShown V.View lot.now view.old disk.old (λ old.
        NodeIs old from node.old → ReadsIn F.VERSION lot.now old i h t → from ≡ place_by i (Found t)
        → PlaceReached (form_of F.VERSION) lot.now old from → ¬ BadEntry (form_of F.VERSION) lot.now old
        → IfOk result (λ p. p ≡ place_by (inode_named name.now
        (rows_in (form_of F.VERSION) (own (form_of F.VERSION) old i))) (child name.now t))) }
    ensures sound { (i h : ℕ) (t : Tree) → IfShown V.View lot.now view.old disk.old (λ old.
        NodeIs old from node.old → ReadsIn F.VERSION lot.now old i h t → from ≡ place_by i (Found t)
        → PlaceReached (form_of F.VERSION) lot.now old from → ¬ BadEntry (form_of F.VERSION) lot.now old
        → FailsByDisk result) }
    // What it answers of any lot, damaged or not.
    ensures missing { from ≡ Missing → result ≡ Ok Missing }
    ensures blocked { from ≡ Blocked → result ≡ Ok Blocked }
    ensures fits { IfOk result (PlaceFits lot.now) }
    ensures node { IfOk result (λ p. NodeFits lot.now p node.new) }
    ensures node_is { IfShown V.View lot.now view.old disk.old (λ old.
        IfOk result (λ p. NodeIs old p node.new)) }
    ensures is { IfShown V.View lot.now view.old disk.old (λ old. IfOk result (PlaceIs old)) }
    ensures reached { IfShown V.View lot.now view.old disk.old (λ old.
        NodeIs old from node.old → PlaceReached (form_of F.VERSION) lot.now old from
        → IfOk result (PlaceReached (form_of F.VERSION) lot.now old)) }
    ensures named { IfShown V.View lot.now view.old disk.old (λ old.
        NodeIs old from node.old → IfOk result (PlaceNamed (form_of F.VERSION) old from name.now)) }
    // Damage that it names is there.
    ensures broken { IfShown V.View lot.now view.old disk.old (λ old.
        NodeIs old from node.old → PlaceIs old from → PlaceReached (form_of F.VERSION) lot.now old from
        → IfErr result (IsBrokenBy (form_of F.VERSION) lot.now old)) }
    // What stays as it was.
    ensures looked { Looked D.Disk V.View lot.now view.old disk.old view.new disk.new }
    // Which refusals there are, and when a fault comes.
    ensures faults { IfErr result IsWalkFault }
    ensures failed { Caused D.state FaultDisk result disk.old disk.new }
{
    match from {
        Place::Dir { .. } => match find_in::<D, V, F>(view, disk, lot, node, name)? {
            None => Ok(Place::Missing),
            Some(next) => enter_named::<D, V, F>(view, disk, lot, next, node),
        },
        Place::File { .. } => Ok(Place::Blocked),
        Place::Missing => Ok(Place::Missing),
        Place::Blocked => Ok(Place::Blocked),
    }
}

/// The place where a walk ends that has come to `place` by a path's names from `depth` on up to `from`, and goes on up to `end`.
/// Damaged: an inode on it is neither a file nor a directory, an entry names the root or no inode of the lot, or a pointer is no data place.
pub(crate) fn walk_on<D: Disk, V: View<D>, F: Form>(
    view: &mut V,
    disk: &mut D,
    lot: &Lot,
    path: &Path,
    depth: usize,
    from: usize,
    end: usize,
    place: Place,
    node: &mut Inode,
) -> Result<Place, OpFault>
    // The lot lies on the disk, and the inode in hand agrees with the place.
    requires sited { is_sited lot.now (D.state disk.old).size ≡ true }
    requires fits { PlaceFits lot.now place }
    requires in_hand { NodeFits lot.now place node.old }
    requires begun { depth ≤ from }
    requires order { from ≤ end }
    requires within { end ≤ length path.now }
    // Over a lot that recovers a tree, from the place of the names before it finds what the tree has; the disk alone may fail.
    ensures place { IfRecovers V.View F.VERSION lot.now view.old disk.old (λ old t _.
        PlaceInHand (form_of F.VERSION) lot.now old place node.old
        → place ≡ place_on F.VERSION old (take (from - depth) (drop depth path.now)) t
        → IfOk result (λ p. p ≡ place_on F.VERSION old (take (end - depth) (drop depth path.now)) t)) }
    ensures sound { IfRecovers V.View F.VERSION lot.now view.old disk.old (λ old t _.
        PlaceInHand (form_of F.VERSION) lot.now old place node.old
        → place ≡ place_on F.VERSION old (take (from - depth) (drop depth path.now)) t
        → FailsByDisk result) }
    // What it answers of any lot, damaged or not.
    ensures fits { IfOk result (PlaceFits lot.now) }
    ensures node { IfOk result (λ p. NodeFits lot.now p node.new) }
    ensures in_hand { IfShown V.View lot.now view.old disk.old (λ old.
        PlaceInHand (form_of F.VERSION) lot.now old place node.old
        → IfOk result (λ p. PlaceInHand (form_of F.VERSION) lot.now old p node.new)) }
    // Damage that it names is there.
    ensures broken { IfShown V.View lot.now view.old disk.old (λ old.
        PlaceInHand (form_of F.VERSION) lot.now old place node.old
        → IfErr result (IsBrokenBy (form_of F.VERSION) lot.now old)) }
    // What stays as it was.
    ensures looked { Looked D.Disk V.View lot.now view.old disk.old view.new disk.new }
    // Which refusals there are, and when a fault comes.
    ensures faults { IfErr result IsWalkFault }
    ensures failed { Caused D.state FaultDisk result disk.old disk.new }
{
    let mut place = place;
    for k in from..end {
        let name = path.name(k);
        place = step::<D, V, F>(view, disk, lot, place, &name, node)?;
    }
    Ok(place)
}

/// The place where the walk of a path's names from `depth` on, up to `end`, ends. It begins at inode 0. Damaged: as `walk_on`.
pub(crate) fn walk<D: Disk, V: View<D>, F: Form>(
    view: &mut V,
    disk: &mut D,
    lot: &Lot,
    path: &Path,
    depth: usize,
    end: usize,
    node: &mut Inode,
) -> Result<Place, OpFault>
    // The lot lies on the disk and has a group, and the path begins with the cube's names.
    requires sited { is_sited lot.now (D.state disk.old).size ≡ true }
    requires some { 1 ≤ length lot.now.groups }
    requires order { depth ≤ end }
    requires within { end ≤ length path.now }
    // Over a lot that recovers a tree, it finds what the tree has; the disk alone may fail.
    ensures place { IfRecovers V.View F.VERSION lot.now view.old disk.old (λ old t _.
        IfOk result (λ p. p ≡ place_on F.VERSION old (take (end - depth) (drop depth path.now)) t)) }
    ensures sound { FailsByDiskAlone V.View F.VERSION lot.now view.old disk.old result }
    // What it answers of any lot, damaged or not.
    ensures fits { IfOk result (PlaceFits lot.now) }
    ensures node { IfOk result (λ p. NodeFits lot.now p node.new) }
    ensures node_is { IfShown V.View lot.now view.old disk.old (λ old.
        IfOk result (λ p. NodeIs old p node.new)) }
    ensures is { IfShown V.View lot.now view.old disk.old (λ old. IfOk result (PlaceIs old)) }
    ensures reached { IfShown V.View lot.now view.old disk.old (λ old.
        IfOk result (PlaceReached (form_of F.VERSION) lot.now old)) }
    // Damage that it names is there.
    ensures broken { IfShown V.View lot.now view.old disk.old (λ old.
        IfErr result (IsBrokenBy (form_of F.VERSION) lot.now old)) }
    // What stays as it was.
    ensures looked { Looked D.Disk V.View lot.now view.old disk.old view.new disk.new }
    // Which refusals there are, and when a fault comes.
    ensures faults { IfErr result IsWalkFault }
    ensures failed { Caused D.state FaultDisk result disk.old disk.new }
{
    let root = look::<D, V, F>(view, disk, lot, 0, node)?;
    walk_on::<D, V, F>(view, disk, lot, path, depth, depth, end, root, node)
}
