//! Where a path and its directory end.
ghost use Rattle.std.specs.Prelude.{◌≡◌, ◌≤◌, ◌<◌, ◌⊎◌, ◌-◌, true, [], ◌∷◌, None, IfOk, IfErr, length, take, drop};
ghost use Rattle.ice_base.specs.Disk.{Caused};
ghost use Rattle.ice_base.specs.Lots.{is_sited};
ghost use Rattle.ice_base.specs.Views.{Looked, IfShown};
ghost use Rattle.ice_base.specs.declared.fault.OpFault.TheVariants.{Disk as FaultDisk};
ghost use Rattle.tree_spec.specs.Costs.{form_of};
ghost use Rattle.tree_spec.specs.Names.{is_name};
ghost use Rattle.tree_spec.specs.Trees.{last_name};
ghost use Rattle.ice_map.specs.Own.{own};
ghost use Rattle.ice_look.specs.Broken.{IsBrokenBy};
ghost use Rattle.ice_look.specs.Ends.{IsEnds, EndsFit, EndsAre};
ghost use Rattle.ice_look.specs.Places.{NodeFits, PlaceFits, PlaceInHand, PlaceNamed, IsWalkFault};
ghost use Rattle.ice_look.specs.Stages.{paths_refusal};
ghost use Rattle.ice_look.specs.Calls.{IfRecovers, FailsByDisk, FailsByDiskAlone, place_on};

use crate::place::{Place, step, walk, walk_on};
use ice_base::{Disk, Form, Lot, OpFault, View};
use ice_map::Inode;
use ice_path::parting;
use tree_spec::{Name, Path};

/// The places where the walks to a path's directory and to the path itself end, with their inodes. Those of the root are the root.
#[derive(Clone, Copy, Drop)]
pub struct Ends {
    pub parent: Place,
    pub end: Place,
    /// The inode of the first, where something stands there.
    pub above: Inode,
    /// That of the second.
    pub node: Inode,
}

/// The last name of a path.
pub fn last_of<F: Form>(path: &Path, depth: usize) -> Name
    requires { depth < length path.now }
    ensures last { result ≡ last_name (drop depth path.now) }
    ensures name { is_name result ≡ true }
    ensures short { paths_refusal (form_of F.VERSION) (drop depth path.now ∷ []) ≡ None
        → length result ≤ F.NAME }
{
    let name = path.name(path.len() - 1);
    let _ = name.bytes();
    name
}

/// The ends of two paths.
#[derive(Clone, Copy, Drop)]
pub struct TwoEnds {
    pub from: Ends,
    pub to: Ends,
}

/// The ends of the path from `depth` on, where a walk has come to `place` by its names up to `from`.
fn ends_from<D: Disk, V: View<D>, F: Form>(
    view: &mut V,
    disk: &mut D,
    lot: &Lot,
    path: &Path,
    depth: usize,
    from: usize,
    place: Place,
    at: &Inode,
) -> Result<Ends, OpFault>
    // The lot lies on the disk, the inode in hand agrees with the place, and the path has a name left unless it is the root.
    requires sited { is_sited lot.now (D.state disk.old).size ≡ true }
    requires fits { PlaceFits lot.now place }
    requires in_hand { NodeFits lot.now place at.now }
    requires begun { depth ≤ from }
    requires within { from ≤ length path.now }
    requires before { (from ≡ depth) ⊎ (from < length path.now) }
    // Over a lot that recovers a tree, from the place of the names before it finds what the tree has; the disk alone may fail.
    ensures found { IfRecovers V.View F.VERSION lot.now view.old disk.old (λ old t _.
        PlaceInHand (form_of F.VERSION) lot.now old place at.now
        → place ≡ place_on F.VERSION old (take (from - depth) (drop depth path.now)) t
        → IfOk result (IsEnds (form_of F.VERSION) (own (form_of F.VERSION) old) (drop depth path.now) t)) }
    ensures sound { IfRecovers V.View F.VERSION lot.now view.old disk.old (λ old t _.
        PlaceInHand (form_of F.VERSION) lot.now old place at.now
        → place ≡ place_on F.VERSION old (take (from - depth) (drop depth path.now)) t
        → FailsByDisk result) }
    // What it answers of any lot, damaged or not.
    ensures fits { IfOk result (EndsFit lot.now) }
    ensures are { IfShown V.View lot.now view.old disk.old (λ old.
        PlaceInHand (form_of F.VERSION) lot.now old place at.now
        → IfOk result (EndsAre (form_of F.VERSION) lot.now old)) }
    ensures named { IfShown V.View lot.now view.old disk.old (λ old.
        PlaceInHand (form_of F.VERSION) lot.now old place at.now
        → depth < length path.now → IfOk result (λ ends.
        PlaceNamed (form_of F.VERSION) old ends.parent (last_name (drop depth path.now)) ends.end)) }
    // Damage that it names is there.
    ensures broken { IfShown V.View lot.now view.old disk.old (λ old.
        PlaceInHand (form_of F.VERSION) lot.now old place at.now
        → IfErr result (IsBrokenBy (form_of F.VERSION) lot.now old)) }
    // What stays as it was.
    ensures looked { Looked D.Disk V.View lot.now view.old disk.old view.new disk.new }
    // Which refusals there are, and when a fault comes.
    ensures faults { IfErr result IsWalkFault }
    ensures failed { Caused D.state FaultDisk result disk.old disk.new }
{
    if path.len() == depth {
        return Ok(Ends {
            parent: place,
            end: place,
            above: *at,
            node: *at,
        });
    }
    let mut node = *at;
    let last = path.len() - 1;
    let parent = walk_on::<D, V, F>(view, disk, lot, path, depth, from, last, place, &mut node)?;
    let above = node;
    let name = path.name(last);
    let end = step::<D, V, F>(view, disk, lot, parent, &name, &mut node)?;
    Ok(Ends {
        parent,
        end,
        above,
        node,
    })
}

/// The ends of the path from `depth` on, in one walk.
pub fn find_ends<D: Disk, V: View<D>, F: Form>(
    view: &mut V,
    disk: &mut D,
    lot: &Lot,
    path: &Path,
    depth: usize,
) -> Result<Ends, OpFault>
    // The lot lies on the disk and has a group, and the path begins with the cube's names.
    requires sited { is_sited lot.now (D.state disk.old).size ≡ true }
    requires some { 1 ≤ length lot.now.groups }
    requires depth { depth ≤ length path.now }
    // Over a lot that recovers a tree, it finds what the tree has; the disk alone may fail.
    ensures found { IfRecovers V.View F.VERSION lot.now view.old disk.old (λ old t _.
        IfOk result (IsEnds (form_of F.VERSION) (own (form_of F.VERSION) old)
        (drop depth path.now) t)) }
    ensures sound { FailsByDiskAlone V.View F.VERSION lot.now view.old disk.old result }
    // What it answers of any lot, damaged or not.
    ensures fits { IfOk result (EndsFit lot.now) }
    ensures are { IfShown V.View lot.now view.old disk.old (λ old.
        IfOk result (EndsAre (form_of F.VERSION) lot.now old)) }
    ensures named { IfShown V.View lot.now view.old disk.old (λ old.
        depth < length path.now → IfOk result (λ ends.
        PlaceNamed (form_of F.VERSION) old ends.parent (last_name (drop depth path.now)) ends.end)) }
    // Damage that it names is there.
    ensures broken { IfShown V.View lot.now view.old disk.old (λ old.
        IfErr result (IsBrokenBy (form_of F.VERSION) lot.now old)) }
    // What stays as it was.
    ensures looked { Looked D.Disk V.View lot.now view.old disk.old view.new disk.new }
    // Which refusals there are, and when a fault comes.
    ensures faults { IfErr result IsWalkFault }
    ensures failed { Caused D.state FaultDisk result disk.old disk.new }
{
    let mut node = Inode::empty(0);
    let root = walk::<D, V, F>(view, disk, lot, path, depth, depth, &mut node)?;
    ends_from::<D, V, F>(view, disk, lot, path, depth, depth, root, &node)
}

/// The ends of two paths from `depth` on. One walk goes the way that both have before their last names, so that no inode there is read twice.
pub fn find_both<D: Disk, V: View<D>, F: Form>(
    view: &mut V,
    disk: &mut D,
    lot: &Lot,
    path: &Path,
    to: &Path,
    depth: usize,
) -> Result<TwoEnds, OpFault>
    // The lot lies on the disk and has a group, and both paths begin with the cube's names.
    requires sited { is_sited lot.now (D.state disk.old).size ≡ true }
    requires some { 1 ≤ length lot.now.groups }
    requires depth { depth ≤ length path.now }
    requires depth_to { depth ≤ length to.now }
    // Over a lot that recovers a tree, it finds what the tree has; the disk alone may fail.
    ensures found { IfRecovers V.View F.VERSION lot.now view.old disk.old (λ old t _.
        IfOk result (λ both. IsEnds (form_of F.VERSION) (own (form_of F.VERSION) old) (drop depth path.now) t both.from
        × IsEnds (form_of F.VERSION) (own (form_of F.VERSION) old) (drop depth to.now) t both.to)) }
    ensures sound { FailsByDiskAlone V.View F.VERSION lot.now view.old disk.old result }
    // What it answers of any lot, damaged or not.
    ensures fits { IfOk result (λ both. EndsFit lot.now both.from × EndsFit lot.now both.to) }
    ensures are { IfShown V.View lot.now view.old disk.old (λ old. IfOk result (λ both.
        EndsAre (form_of F.VERSION) lot.now old both.from × EndsAre (form_of F.VERSION) lot.now old both.to)) }
    ensures named { IfShown V.View lot.now view.old disk.old (λ old.
        depth < length path.now → IfOk result (λ both. PlaceNamed (form_of F.VERSION) old
        both.from.parent (last_name (drop depth path.now)) both.from.end)) }
    // Damage that it names is there.
    ensures broken { IfShown V.View lot.now view.old disk.old (λ old.
        IfErr result (IsBrokenBy (form_of F.VERSION) lot.now old)) }
    // What stays as it was.
    ensures looked { Looked D.Disk V.View lot.now view.old disk.old view.new disk.new }
    // Which refusals there are, and when a fault comes.
    ensures faults { IfErr result IsWalkFault }
    ensures failed { Caused D.state FaultDisk result disk.old disk.new }
{
    let mut node = Inode::empty(0);
    let part = parting(path, to, depth);
    let place = walk::<D, V, F>(view, disk, lot, path, depth, part, &mut node)?;
    let from = ends_from::<D, V, F>(view, disk, lot, path, depth, part, place, &node)?;
    let into = ends_from::<D, V, F>(view, disk, lot, to, depth, part, place, &node)?;
    Ok(TwoEnds { from, to: into })
}
