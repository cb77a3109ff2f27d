//! Files and directories that move.
ghost use Rattle.std.specs.Prelude.{◌≡◌, ◌≢◌, ◌≤◌, ◌<◌, ◌+◌, ◌-◌, ◌*◌, ◌||◌, ℕ, List, true, false, [], ◌∷◌, Some, None, OnOk, IfOk, IfErr, IsErrOf, IfSome, MatchResult, MatchOption, length, drop, get_or};
ghost use Rattle.ice_base.specs.Disk.{Caused};
ghost use Rattle.ice_base.specs.Lots.{LotView, is_sited, sub_address};
ghost use Rattle.ice_base.specs.Views.{Looked, Spent, AsShown, IfShown};
ghost use Rattle.ice_base.specs.declared.fault.OpFault.TheVariants.{Disk as FaultDisk};
ghost use Rattle.ice_base.specs.declared.fault.Rule.{Rule};
ghost use Rattle.tree_spec.specs.Answers.{answer, refusal, next_tree, is_root, is_found, is_not_found, is_not_dir, deepest};
ghost use Rattle.tree_spec.specs.Costs.{Form, form_of, map_cost, dir_blocks};
ghost use Rattle.tree_spec.specs.Operations.{Rename};
ghost use Rattle.tree_spec.specs.Routes.{is_prefix, is_same_path};
ghost use Rattle.tree_spec.specs.Trees.{last_name, Tree, Walk, needs_dir};
ghost use Rattle.tree_spec.specs.declared.reply.Refusal.TheVariants.{Fault, Damaged};
ghost use Rattle.ice_reads.specs.Tables.{Map, Table};
ghost use Rattle.ice_map.specs.Own.{own};
ghost use Rattle.ice_reads.specs.Recovers.{MapRecovers};
ghost use Rattle.ice_rules.specs.Rules.{rule_number};
ghost use Rattle.ice_look.specs.Broken.{IsBroken, IsBrokenBy};
ghost use Rattle.ice_look.specs.Ends.{IsEnds, EndsFit, EndsAre};
ghost use Rattle.ice_tree.specs.Quotas.{Needs};
ghost use Rattle.ice_tree.specs.Renames.{MoveIs, RowFits, is_place, is_dir_place, height_refusal, ends_refusal, move_refusal, IsMove, MoveFits, Renames};
ghost use Rattle.ice_look.specs.Outcomes.{meant_plain, IsOneOf, look_rules, list_rules};
ghost use Rattle.ice_tree.specs.Outcomes.{IsNamedIn, rename_refusals, change_rules, rename_rules};
ghost use Rattle.ice_look.specs.Places.{PlaceFits, PlaceIs, PlaceReached, PlaceNamed, place_at, place_by, NodeFits, NodeIs};
ghost use Rattle.ice_look.specs.Stages.{paths_refusal};
ghost use Rattle.ice_look.specs.declared.place.Place.TheVariants.{File, Dir, Missing, Blocked};
ghost use Rattle.ice_look.specs.Calls.{IfRecovers, AnswersAs, FailsByDisk, RefusedBy, Accepts, RefusesPaths, NamesBroken};
ghost use Rattle.ice_tree.specs.Calls.{ChangesAs, UntouchedAll, LooksIfRefused, KeepsDone};

use crate::counts::count_up;
use crate::quota::{Need, check_quota, dir_cost};
use ice_base::{Disk, Form, Keep, Lot, OpFault, Pool, Rule, View};
use ice_dir::{add_in, take_in};
use ice_look::{DEEPEST, DirAt, Ends, Place, check_paths, find_both, is_higher, refusal_of};
use ice_map::Inode;
use ice_path::begins;
use tree_spec::{Name, Path, Refusal};

/// A rename: the directory that loses an entry, the one that gains it, and whether both paths are one, so that nothing moves.
#[derive(Clone, Copy, Drop)]
pub struct Move {
    pub from: DirAt,
    pub to: DirAt,
    pub same: bool,
}

/// Whether the names from `depth` on are the same.
fn is_one_path(path: &Path, to: &Path, depth: usize) -> bool
    requires path { depth ≤ length path.now }
    requires to { depth ≤ length to.now }
    ensures { result ≡ is_same_path (drop depth path.now) (drop depth to.now) }
{
    begins(path, to, depth) && begins(to, path, depth)
}

/// Whether one of two paths, of so many names each, is the root.
fn has_root(here: usize, there: usize) -> bool
    ensures root { (p q : List (List ℕ)) → length p ≡ here → length q ≡ there
        → result ≡ (is_root p || is_root q) }
    ensures below { result ≡ false → (1 ≤ here) × (1 ≤ there) }
{
    here == 0 || there == 0
}

/// Whether one of two walks ended at a directory without the next name: that of the path, and that to the directory of the new path.
fn is_one_missing(end: Place, parent: Place) -> bool
    ensures walks { (i j : ℕ) (v w : Walk) → end ≡ place_by i v → parent ≡ place_by j w
        → result ≡ (is_not_found v || is_not_found (needs_dir w)) }
    ensures there { result ≡ false → (end ≢ Missing) × (parent ≢ Missing) }
{
    match end {
        Place::Missing => true,
        _ => match parent {
            Place::Missing => true,
            _ => false,
        },
    }
}

/// Whether one of them ended at a file with a name left, the second one with or without.
fn is_one_blocked(end: Place, parent: Place) -> bool
    ensures walks { (i j : ℕ) (v w : Walk) → end ≡ place_by i v → parent ≡ place_by j w
        → result ≡ (is_not_dir v || is_not_dir (needs_dir w)) }
    ensures there { result ≡ false → (end ≢ Blocked) × (parent ≢ Blocked)
        × ((number size : ℕ) → parent ≢ File number size) }
{
    match end {
        Place::Blocked => true,
        _ => match parent {
            Place::Blocked => true,
            Place::File { .. } => true,
            _ => false,
        },
    }
}

/// Whether a walk found something.
fn is_there(place: Place) -> bool
    ensures { (i : ℕ) (w : Walk) → place ≡ place_by i w → result ≡ is_found w }
{
    match place {
        Place::File { .. } => true,
        Place::Dir { .. } => true,
        Place::Missing => false,
        Place::Blocked => false,
    }
}

/// The refusals by the height of what is moved: below the new path it would reach too deep. What goes no deeper than it stood is not looked at.
fn check_height<D: Disk, V: View<D>, F: Form>(
    view: &mut V,
    disk: &mut D,
    lot: &Lot,
    place: Place,
    node: &Inode,
    here: usize,
    there: usize,
) -> Result<(), Refusal>
    // The lot lies on the disk, and the inode in hand agrees with the place.
    requires sited { is_sited lot.now (D.state disk.old).size ≡ true }
    requires fits { PlaceFits lot.now place }
    requires in_hand { NodeFits lot.now place node.now }
    requires shallow { there ≤ deepest }
    // Over a lot that recovers a tree, it finds what the tree has.
    ensures height { (mode k : ℕ) (t : Tree) (p q : List (List ℕ))
        → IfShown V.View lot.now view.old disk.old (λ old.
        NodeIs old place node.now → MapRecovers (form_of F.VERSION) mode lot.now old t k
        → place ≡ place_at (form_of F.VERSION) (own (form_of F.VERSION) old) p t
        → length p ≡ here → length q ≡ there → RefusedBy (height_refusal p q t) result) }
    // Damage that it names is there.
    ensures damaged { (n : ℕ) → IsErrOf result (Damaged n)
        → IfShown V.View lot.now view.old disk.old (λ old.
        NodeIs old place node.now → PlaceIs old place
        → PlaceReached (form_of F.VERSION) lot.now old place → (r : Rule)
        × (n ≡ rule_number r) × IsBroken (form_of F.VERSION) lot.now old r) }
    // What stays as it was.
    ensures looked { Looked D.Disk V.View lot.now view.old disk.old view.new disk.new }
    // Which refusals there are, and when a fault comes.
    ensures set { IfErr result (IsOneOf rename_refusals list_rules) }
    ensures failed { Caused D.state Fault result disk.old disk.new }
{
    if there <= here {
        return Ok(());
    }
    match place {
        Place::File { .. } => return Ok(()),
        Place::Missing => return Ok(()),
        Place::Blocked => return Ok(()),
        Place::Dir { .. } => {}
    }
    let mut budget = 64 * lot.len() as u32;
    let levels = (DEEPEST - there) as u32;
    match is_higher::<D, V, F>(view, disk, lot, place, node, levels, &mut budget) {
        Err(fault) => Err(refusal_of(fault)),
        Ok(true) => Err(Refusal::TooDeep),
        Ok(false) => Ok(()),
    }
}

/// The refusals by what stands at the two paths: `root` where either has no names, `begins` where the first begins the second,
/// `same` where they are one.
fn check_ends(from: &Ends, into: &Ends, root: bool, begins: bool, same: bool) -> Result<(), Refusal>
    // Of the ends of a path in a tree.
    ensures ends { (f : Form) (o : Table) (p q : List (List ℕ)) (t : Tree) → IsEnds f o p t from.now
        → IsEnds f o q t into.now → root ≡ (is_root p || is_root q) → begins ≡ is_prefix p q
        → same ≡ is_same_path p q → RefusedBy (ends_refusal p q t) result }
    // What it answers of any lot, damaged or not.
    ensures rootless { OnOk result (root ≡ false) }
    ensures there { OnOk result ((is_place from.now.end ≡ true)
        × (is_dir_place into.now.parent ≡ true)) }
    // Damage that it names is there.
    ensures undamaged { (n : ℕ) → IsErrOf result (Damaged n) → ⊥ }
    // Which refusals there are, and when a fault comes.
    ensures set { IfErr result (IsOneOf rename_refusals []) }
    ensures faultless { IsErrOf result Fault → ⊥ }
{
    if is_one_missing(from.end, into.parent) {
        return Err(Refusal::NotFound);
    }
    if is_one_blocked(from.end, into.parent) {
        return Err(Refusal::NotDir);
    }
    if root {
        return Err(Refusal::IsRoot);
    }
    if same {
        return Ok(());
    }
    if is_there(into.end) {
        return Err(Refusal::Exists);
    }
    if begins {
        return Err(Refusal::IntoItself);
    }
    Ok(())
}

/// The directory in which a path's last name stands or is to stand.
fn spot_of(ends: &Ends) -> Option<DirAt>
    ensures is { MatchOption result ((number size : ℕ)
        → ends.now.parent ≢ Dir number size) (λ spot. ends.now.parent ≡ Dir spot.number spot.entries) }
    ensures node { IfSome result (λ spot. spot.node ≡ ends.now.above) }
{
    match ends.parent {
        Place::Dir { number, size } => Some(DirAt {
            number,
            entries: size,
            node: ends.above,
        }),
        Place::File { .. } => None,
        Place::Missing => None,
        Place::Blocked => None,
    }
}

/// The directories of both paths. Damaged, with the rule on kinds: something else stands where a walk went through.
fn move_of(from: &Ends, into: &Ends, same: bool) -> Result<Move, Refusal>
    // Of the ends of a path in a tree.
    ensures step { (f : Form) (o : Table) (p q : List (List ℕ)) (t : Tree) → IsEnds f o p t from.now
        → IsEnds f o q t into.now → same ≡ is_same_path p q → ends_refusal p q t ≡ None
        → MatchResult result (IsMove f o p q t) (λ r. ⊥) }
    // What it answers of any lot, damaged or not.
    ensures fits { (lot : LotView) → EndsFit lot from.now → EndsFit lot into.now
        → IfOk result (MoveFits lot) }
    ensures is { (form : Form) (lot : LotView) (m : ℕ → List ℕ) (name : List ℕ)
        → EndsAre form lot m from.now → EndsAre form lot m into.now → EndsFit lot from.now
        → EndsFit lot into.now → PlaceNamed form m from.now.parent name from.now.end
        → is_place from.now.end ≡ true → is_dir_place into.now.parent ≡ true
        → MatchResult result (MoveIs form lot m name) (λ r. ⊥) }
    // Which refusals there are, and when a fault comes.
    ensures set { IfErr result (IsOneOf rename_refusals look_rules) }
    ensures faultless { IsErrOf result Fault → ⊥ }
{
    match spot_of(from) {
        None => Err(Refusal::Damaged(Rule::Kind as u8)),
        Some(source) => match spot_of(into) {
            None => Err(Refusal::Damaged(Rule::Kind as u8)),
            Some(target) => Ok(Move {
                from: source,
                to: target,
                same,
            }),
        },
    }
}

/// What the two paths lead to. Damaged, with the rule on kinds: something else than a directory stands where a walk went through.
fn find_move<D: Disk, V: View<D>, F: Form>(
    view: &mut V,
    disk: &mut D,
    lot: &Lot,
    path: &Path,
    to: &Path,
    depth: usize,
) -> Result<Move, Refusal>
    // The lot lies on the disk and has a group, and both paths begin with the cube's names.
    requires sited { is_sited lot.now (D.state disk.old).size ≡ true }
    requires some { 1 ≤ length lot.now.groups }
    requires depth { depth ≤ length path.now }
    requires depth_to { depth ≤ length to.now }
    requires shallow { length to.now ≤ depth + deepest }
    // Over a lot that recovers a tree, it finds what the tree has.
    ensures found { IfRecovers V.View F.VERSION lot.now view.old disk.old (λ old t _.
        Accepts (IsMove (form_of F.VERSION) (own (form_of F.VERSION) old) (drop depth path.now)
        (drop depth to.now) t) (move_refusal (drop depth path.now) (drop depth to.now) t) result) }
    // What it answers of any lot, damaged or not.
    ensures fits { IfOk result (MoveFits lot.now) }
    ensures below { OnOk result ((depth < length path.now) × (depth < length to.now)) }
    ensures is { IfShown V.View lot.now view.old disk.old (λ old.
        IfOk result (MoveIs (form_of F.VERSION) lot.now old (last_name (drop depth path.now)))) }
    // Damage that it names is there.
    ensures damaged { NamesBroken V.View (form_of F.VERSION) lot.now view.old disk.old result }
    // What stays as it was.
    ensures looked { Looked D.Disk V.View lot.now view.old disk.old view.new disk.new }
    // Which refusals there are, and when a fault comes.
    ensures set { IfErr result (IsOneOf rename_refusals list_rules) }
    ensures failed { Caused D.state Fault result disk.old disk.new }
{
    let both = match find_both::<D, V, F>(view, disk, lot, path, to, depth) {
        Err(fault) => return Err(refusal_of(fault)),
        Ok(both) => both,
    };
    let from = both.from;
    let into = both.to;
    let here = path.len() - depth;
    let there = to.len() - depth;
    if let Err(refusal) = check_height::<D, V, F>(
        view, disk, lot, from.end, &from.node, here, there,
    ) {
        return Err(refusal);
    }
    let inside = begins(path, to, depth);
    let same = is_one_path(path, to, depth);
    if let Err(refusal) = check_ends(&from, &into, has_root(here, there), inside, same) {
        return Err(refusal);
    }
    move_of(&from, &into, same)
}

/// The blocks of two directories of so many entries.
fn two_costs<F: Form>(a: u32, b: u32) -> u32
    requires a { a ≤ 4096 }
    requires b { b ≤ 4096 }
    ensures { result ≡ map_cost (dir_blocks (form_of F.VERSION) a) + map_cost
        (dir_blocks (form_of F.VERSION) b) }
{
    dir_cost::<F>(a) + dir_cost::<F>(b)
}

/// What a rename needs: where the directories differ, one loses an entry and the other gains one.
fn need_of<F: Form>(step: &Move) -> Need
    // What it is called with.
    requires from { step.now.from.entries < 4096 }
    requires to { step.now.to.entries < 4096 }
    // Over a lot that recovers a tree, it finds what the tree has.
    ensures needs { (mode k : ℕ) (lot : LotView) (m : Map) (t : Tree) (p q : List (List ℕ))
        → MapRecovers (form_of F.VERSION) mode lot m t k
        → paths_refusal (form_of F.VERSION) (p ∷ q ∷ []) ≡ None → move_refusal p q t ≡ None
        → IsMove (form_of F.VERSION) (own (form_of F.VERSION) m) p q t step.now
        → Needs (form_of F.VERSION) t (next_tree (Rename p q) t) result }
    // What it answers of any lot, damaged or not.
    ensures nodeless { result.nodes ≡ 0 }
    ensures apart { step.now.same ≡ false → step.now.from.number ≢ step.now.to.number
        → (result.blocks ≡ map_cost (dir_blocks (form_of F.VERSION)
        (step.now.to.entries + 1)) + map_cost
        (dir_blocks (form_of F.VERSION) (step.now.from.entries - 1)))
        × (result.freed ≡ map_cost (dir_blocks (form_of F.VERSION) step.now.to.entries) + map_cost
        (dir_blocks (form_of F.VERSION) step.now.from.entries)) }
{
    if step.same || step.from.number == step.to.number {
        return Need {
            nodes: 0,
            lost: 0,
            blocks: 0,
            freed: 0,
        };
    }
    Need {
        nodes: 0,
        lost: 0,
        blocks: two_costs::<F>(step.to.entries + 1, step.from.entries.saturating_sub(1)),
        freed: two_costs::<F>(step.to.entries, step.from.entries),
    }
}

/// Whether two different directories have together as many entries as the lot has inodes, one more than there are to name.
fn is_overfull(lot: &Lot, step: &Move) -> bool
    // What it is called with.
    requires few { length lot.now.groups ≤ 64 }
    requires from { step.now.from.entries < 4096 }
    requires to { step.now.to.entries < 4096 }
    // What it answers of any lot, damaged or not.
    ensures many { result ≡ true → (step.now.from.number ≢ step.now.to.number)
        × (64 * length lot.now.groups ≤ step.now.from.entries + step.now.to.entries) }
    ensures room { result ≡ false → step.now.from.number ≢ step.now.to.number
        → step.now.from.entries + step.now.to.entries < 64 * length lot.now.groups }
{
    step.from.number != step.to.number
        && step.from.entries + step.to.entries >= 64 * lot.len() as u32
}

/// What a rename moves, where nothing but the names of the paths refuses it. Damaged, with the rule on inodes: one is named twice, or the root
/// or none of the lot, since the two directories have too many entries.
fn may_move<D: Disk, K: Keep<D>, P: Pool<D, K>, F: Form>(
    keep: &mut K,
    pool: &mut P,
    disk: &mut D,
    lot: &Lot,
    path: &Path,
    to: &Path,
    depth: usize,
) -> Result<Move, Refusal>
    // The lot lies on the disk and has a group, and both paths begin with the cube's names.
    requires sited { is_sited lot.now (D.state disk.old).size ≡ true }
    requires some { 1 ≤ length lot.now.groups }
    requires depth { depth ≤ length path.now }
    requires depth_to { depth ≤ length to.now }
    requires names { paths_refusal (form_of F.VERSION)
        (drop depth path.now ∷ drop depth to.now ∷ []) ≡ None }
    // Over a lot that recovers a tree, it finds what the tree has.
    ensures found { IfRecovers K.View F.VERSION lot.now keep.old disk.old (λ old t k.
        Accepts (IsMove (form_of F.VERSION) (own (form_of F.VERSION) old) (drop depth path.now)
        (drop depth to.now) t) (refusal t k (length lot.now.groups) (form_of F.VERSION)
        (Rename (drop depth path.now) (drop depth to.now))) result) }
    // What it answers of any lot, damaged or not.
    ensures fits { IfOk result (MoveFits lot.now) }
    ensures below { OnOk result ((depth < length path.now) × (depth < length to.now)) }
    ensures is { IfShown K.View lot.now keep.old disk.old (λ old.
        IfOk result (MoveIs (form_of F.VERSION) lot.now old (last_name (drop depth path.now)))) }
    ensures more { IfOk result (λ step. step.from.number ≢ step.to.number
        → step.from.entries + step.to.entries < 64 * length lot.now.groups) }
    ensures room { IfShown K.View lot.now keep.old disk.old (λ old.
        IfOk result (RowFits (form_of F.VERSION) lot.now old)) }
    // Damage that it names is there.
    ensures damaged { NamesBroken K.View (form_of F.VERSION) lot.now keep.old disk.old result }
    // What stays as it was.
    ensures looked { Looked D.Disk K.View lot.now keep.old disk.old keep.new disk.new }
    // Which refusals there are, and when a fault comes.
    ensures set { IfErr result (IsOneOf rename_refusals rename_rules) }
    ensures failed { Caused D.state Fault result disk.old disk.new }
{
    match find_move::<D, K, F>(keep, disk, lot, path, to, depth) {
        Err(refusal) => Err(refusal),
        Ok(step) => {
            if is_overfull(lot, &step) {
                return Err(Refusal::Damaged(Rule::InodeTwice as u8));
            }
            let need = need_of::<F>(&step);
            match check_quota::<D, K, P, F>(keep, pool, disk, lot, &need) {
                Err(refusal) => Err(refusal),
                Ok(()) => Ok(step),
            }
        }
    }
}

/// The inode of the directory that gains the entry, where `from` is that of the one that has lost it.
fn gainer(step: &Move, from: &Inode) -> Inode
    ensures same { step.now.from.number ≡ step.now.to.number → result ≡ from.now }
    ensures other { step.now.from.number ≢ step.now.to.number → result ≡ step.now.to.node }
{
    if step.from.number == step.to.number {
        return *from;
    }
    step.to.node
}

/// Takes an entry from its directory, and adds it to the other under the new name. Damaged, with the rule on kinds: the directory has no such
/// entry; with the rule on inodes: the entry names none of the lot.
fn move_row<D: Disk, K: Keep<D>, P: Pool<D, K>, F: Form>(
    keep: &mut K,
    pool: &mut P,
    disk: &mut D,
    lot: &Lot,
    step: &Move,
    name: &Name,
    new: &Name,
) -> Result<(), OpFault>
    // The lot lies on the disk and the keep has room.
    requires sited { is_sited lot.now (D.state disk.old).size ≡ true }
    requires fits { MoveFits lot.now step.now }
    requires more { step.now.from.number ≢ step.now.to.number
        → step.now.from.entries + step.now.to.entries < 64 * length lot.now.groups }
    requires short { length new.now ≤ F.NAME }
    requires room { 16 ≤ K.room keep.old }
    // Where it takes the operation, the lot recovers the changed tree; the disk alone may fail.
    ensures moved { (mode k : ℕ) (t : Tree) (p q : List (List ℕ))
        → AsShown K.View lot.now keep.old disk.old keep.new disk.new (λ old later.
        Renames (form_of F.VERSION) mode lot.now old t k p q step.now name.now new.now
        → step.now.same ≡ false
        → OnOk result (MapRecovers (form_of F.VERSION) mode lot.now later (next_tree (Rename p q) t) k)) }
    ensures sound { (mode k : ℕ) (t : Tree) (p q : List (List ℕ))
        → IfShown K.View lot.now keep.old disk.old (λ old.
        Renames (form_of F.VERSION) mode lot.now old t k p q step.now name.now new.now
        → step.now.same ≡ false
        → FailsByDisk result) }
    // Damage that it names is there.
    ensures broken { IfShown K.View lot.now keep.old disk.old (λ old.
        MoveIs (form_of F.VERSION) lot.now old name.now step.now → RowFits (form_of F.VERSION) lot.now old step.now
        → step.now.same ≡ false → IfErr result (IsBrokenBy (form_of F.VERSION) lot.now old)) }
    // What it spends of the keep, and what stays as it was.
    ensures spent { Spent D.Disk K.View lot.now 16 keep.old disk.old keep.new disk.new }
    ensures done { KeepsDone K.View lot.now keep.old disk.old keep.new disk.new result }
    // Which refusals there are, and when a fault comes.
    ensures faults { IfErr result (IsNamedIn change_rules) }
    ensures failed { Caused D.state FaultDisk result disk.old disk.new }
{
    let _bytes = new.bytes();
    let mut from = step.from.node;
    match take_in::<D, K, P, F>(keep, pool, disk, lot, step.from.number, &mut from, name)? {
        None => Err(OpFault::Damaged(Rule::Kind)),
        Some(number) => {
            if number >= 64 * lot.len() as u32 {
                return Err(OpFault::Damaged(Rule::InodeTwice));
            }
            let into = gainer(step, &from);
            add_in::<D, K, P, F>(keep, pool, disk, lot, step.to.number, &into, new, number)?;
            Ok(())
        }
    }
}

/// The same, as one more accepted operation, which moves nothing where both paths are one.
fn put_moved<D: Disk, K: Keep<D>, P: Pool<D, K>, F: Form>(
    keep: &mut K,
    pool: &mut P,
    disk: &mut D,
    lot: &Lot,
    step: &Move,
    name: &Name,
    new: &Name,
) -> Result<(), OpFault>
    // The lot lies on the disk and the keep has room.
    requires sited { is_sited lot.now (D.state disk.old).size ≡ true }
    requires fits { MoveFits lot.now step.now }
    requires more { step.now.from.number ≢ step.now.to.number
        → step.now.from.entries + step.now.to.entries < 64 * length lot.now.groups }
    requires short { length new.now ≤ F.NAME }
    requires room { 17 ≤ K.room keep.old }
    // Where it takes the operation, the lot recovers the changed tree; the disk alone may fail.
    ensures moved { (mode k : ℕ) (t : Tree) (p q : List (List ℕ))
        → AsShown K.View lot.now keep.old disk.old keep.new disk.new (λ old later.
        Renames (form_of F.VERSION) mode lot.now old t k p q step.now name.now new.now
        → OnOk result (MapRecovers (form_of F.VERSION) mode lot.now later (next_tree (Rename p q) t) (k + 1))) }
    ensures sound { (mode k : ℕ) (t : Tree) (p q : List (List ℕ))
        → IfShown K.View lot.now keep.old disk.old (λ old.
        Renames (form_of F.VERSION) mode lot.now old t k p q step.now name.now new.now
        → FailsByDisk result) }
    // Damage that it names is there.
    ensures broken { IfShown K.View lot.now keep.old disk.old (λ old.
        MoveIs (form_of F.VERSION) lot.now old name.now step.now → RowFits (form_of F.VERSION) lot.now old step.now
        → IfErr result (IsBrokenBy (form_of F.VERSION) lot.now old)) }
    // What it spends of the keep, and what stays as it was.
    ensures counted { OnOk result (K.held keep.new sub_address ≡ true) }
    ensures spent { Spent D.Disk K.View lot.now 17 keep.old disk.old keep.new disk.new }
    // Which refusals there are, and when a fault comes.
    ensures faults { IfErr result (IsNamedIn change_rules) }
    ensures failed { Caused D.state FaultDisk result disk.old disk.new }
{
    if step.same {
        count_up(keep, disk, lot)?;
        return Ok(());
    }
    move_row::<D, K, P, F>(keep, pool, disk, lot, step, name, new)?;
    count_up(keep, disk, lot)?;
    Ok(())
}

/// Renames a file or a directory. `depth` is the number of names of the cube's path. After a fault or damage the keep may hold part of the change.
pub fn rename<D: Disk, K: Keep<D>, P: Pool<D, K>, F: Form>(
    keep: &mut K,
    pool: &mut P,
    disk: &mut D,
    lot: &Lot,
    path: &Path,
    to: &Path,
    depth: usize,
) -> Result<(), Refusal>
    // The lot lies on the disk and has a group, both paths begin with the cube's names, and the keep has room.
    requires sited { is_sited lot.now (D.state disk.old).size ≡ true }
    requires some { 1 ≤ length lot.now.groups }
    requires depth { depth ≤ length path.now }
    requires depth_to { depth ≤ length to.now }
    requires room { 96 ≤ K.room keep.old }
    // Over a lot that recovers a tree, the answer and the change are the model's.
    ensures answers { AnswersAs K.View F.VERSION lot.now keep.old disk.old
        (Rename (drop depth path.now) (drop depth to.now)) (meant_plain result) }
    ensures changed { ChangesAs K.View F.VERSION lot.now keep.old disk.old keep.new disk.new
        (Rename (drop depth path.now) (drop depth to.now)) result }
    // Damage that it names is there.
    ensures damaged { NamesBroken K.View (form_of F.VERSION) lot.now keep.old disk.old result }
    // Names alone refuse a path before any call of the disk.
    ensures paths { RefusesPaths F.VERSION (drop depth path.now ∷ drop depth to.now ∷ []) result }
    ensures untouched { UntouchedAll F.VERSION (drop depth path.now ∷ drop depth to.now ∷ [])
        keep.old pool.old disk.old keep.new pool.new disk.new }
    // What it spends of the keep, and what stays as it was.
    ensures counted { OnOk result (K.held keep.new sub_address ≡ true) }
    ensures refused { LooksIfRefused D.Disk K.View lot.now keep.old disk.old keep.new disk.new result }
    ensures spent { Spent D.Disk K.View lot.now 96 keep.old disk.old keep.new disk.new }
    // Which refusals there are, and when a fault comes.
    ensures set { IfErr result (IsOneOf rename_refusals rename_rules) }
    ensures failed { Caused D.state Fault result disk.old disk.new }
{
    if let Err(refusal) = check_paths::<F>(path, to, depth) {
        return Err(refusal);
    }
    match may_move::<D, K, P, F>(keep, pool, disk, lot, path, to, depth) {
        Err(refusal) => Err(refusal),
        Ok(step) => {
            let name = path.name(path.len() - 1);
            let new = to.name(to.len() - 1);
            match put_moved::<D, K, P, F>(keep, pool, disk, lot, &step, &name, &new) {
                Err(fault) => Err(refusal_of(fault)),
                Ok(()) => Ok(()),
            }
        }
    }
}
