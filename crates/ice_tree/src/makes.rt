//! New files and directories.
ghost use Rattle.std.specs.Prelude.{◌≡◌, ◌≤◌, ◌<◌, ◌+◌, ◌*◌, ◌⊎◌, ℕ, Bool, List, true, false, [], ◌∷◌, OnOk, IfOk, IfErr, length, drop};
ghost use Rattle.ice_base.specs.Disk.{Caused};
ghost use Rattle.ice_base.specs.Lots.{LotView, is_sited, sub_address};
ghost use Rattle.ice_base.specs.Views.{Looked, Spent, AsShown, IfShown};
ghost use Rattle.ice_base.specs.declared.fault.OpFault.TheVariants.{Disk as FaultDisk};
ghost use Rattle.tree_spec.specs.Answers.{answer, next_tree, refusal, is_root};
ghost use Rattle.tree_spec.specs.Costs.{Form, form_of};
ghost use Rattle.tree_spec.specs.Operations.{Mkdir, Make};
ghost use Rattle.tree_spec.specs.Trees.{Tree, parent};
ghost use Rattle.tree_spec.specs.declared.reply.Refusal.TheVariants.{Fault, Damaged, NotFound, NotDir, IsRoot, Exists};
ghost use Rattle.ice_reads.specs.Recovers.{MapRecovers};
ghost use Rattle.ice_reads.specs.Tables.{Table};
ghost use Rattle.ice_map.specs.Own.{own};
ghost use Rattle.ice_look.specs.Broken.{IsBrokenBy};
ghost use Rattle.ice_look.specs.Ends.{IsEnds, EndsFit, IsDirAt, DirFits, EndsAre, DirIs};
ghost use Rattle.ice_tree.specs.Makes.{new_operation, new_refusal, new_inode, Takes, NewFits};
ghost use Rattle.ice_look.specs.Outcomes.{meant_plain, IsOneOf};
ghost use Rattle.ice_tree.specs.Outcomes.{IsNamedIn, make_refusals, change_rules};
ghost use Rattle.ice_look.specs.Calls.{AnswersAs, FailsByDisk, Accepts, RefusesPaths, NamesBroken};
ghost use Rattle.ice_tree.specs.Calls.{ChangesAs, UntouchedAll, LooksIfRefused, KeepsDone};

use crate::counts::count_up;
use crate::quota::{Need, check_quota, dir_cost};
use ice_base::{Disk, Form, Keep, Lot, OpFault, Pool, Rule};
use ice_dir::add_in;
use ice_look::{DirAt, Ends, Place, check_path, find_ends, last_of, refusal_of};
use ice_map::{Inode, put_inode};
use tree_spec::{Name, Path, Refusal};

/// The directory in which something new is to stand, by the ends of its path. NotFound and NotDir: the walk to the directory ends so.
/// IsRoot: the path has no name. Exists: something stands there.
fn new_spot(ends: &Ends, root: bool) -> Result<DirAt, Refusal>
    // Of the ends of a path in a tree.
    ensures spot { (f : Form) (o : Table) (p : List (List ℕ)) (t : Tree) → IsEnds f o p t ends.now
        → root ≡ is_root p → Accepts (IsDirAt f o (parent p) t) (new_refusal p t) result }
    // What it answers of any lot, damaged or not.
    ensures fits { (lot : LotView) → EndsFit lot ends.now → IfOk result (DirFits lot) }
    ensures below { OnOk result (root ≡ false) }
    ensures is { (form : Form) (lot : LotView) (m : ℕ → List ℕ) → EndsAre form lot m ends.now
        → EndsFit lot ends.now → IfOk result (DirIs form lot m) }
    // Which refusals there are, and when a fault comes.
    ensures set { IfErr result (λ r. (r ≡ NotFound) ⊎ (r ≡ NotDir) ⊎ (r ≡ IsRoot) ⊎ (r ≡ Exists)) }
{
    match ends.parent {
        Place::Missing => Err(Refusal::NotFound),
        Place::Blocked => Err(Refusal::NotDir),
        Place::File { .. } => Err(Refusal::NotDir),
        Place::Dir { number, size } => {
            if root {
                return Err(Refusal::IsRoot);
            }
            match ends.end {
                Place::Missing => Ok(DirAt {
                    number,
                    entries: size,
                    node: ends.above,
                }),
                _ => Err(Refusal::Exists),
            }
        }
    }
}

/// Refuses a new directory or file before anything changes: by its path, its place and the quota.
/// A directory with an entry for each inode but the root stands in a tree that has no inode left.
#[tactic(auto, using(ice_base::proofs::LotLaws::sited_laws))]
fn check_new<D: Disk, K: Keep<D>, P: Pool<D, K>, F: Form>(
    keep: &mut K,
    pool: &mut P,
    disk: &mut D,
    lot: &Lot,
    path: &Path,
    depth: usize,
) -> Result<DirAt, Refusal>
    // The lot lies on the disk and has a group, and the path begins with the cube's names.
    requires sited { is_sited lot.now (D.state disk.old).size ≡ true }
    requires some { 1 ≤ length lot.now.groups }
    requires depth { depth ≤ length path.now }
    // Over a lot that recovers a tree, it finds what the tree has.
    ensures spot { (dir : Bool) (mode k : ℕ) (t : Tree)
        → IfShown K.View lot.now keep.old disk.old (λ old.
        MapRecovers (form_of F.VERSION) mode lot.now old t k
        → Accepts (IsDirAt (form_of F.VERSION) (own (form_of F.VERSION) old)
        (parent (drop depth path.now)) t)
        (refusal t k (length lot.now.groups) (form_of F.VERSION)
        (new_operation dir (drop depth path.now))) result) }
    // What it answers of any lot, damaged or not.
    ensures fits { IfOk result (DirFits lot.now) }
    ensures more { IfOk result (λ spot. spot.entries + 1 < 64 * length lot.now.groups) }
    ensures below { OnOk result (depth < length path.now) }
    ensures ready { IfShown K.View lot.now keep.old disk.old (λ old.
        IfOk result (NewFits (form_of F.VERSION) lot.now old)) }
    // Damage that it names is there.
    ensures damaged { NamesBroken K.View (form_of F.VERSION) lot.now keep.old disk.old result }
    // Names alone refuse a path before any call of the disk.
    ensures paths { RefusesPaths F.VERSION (drop depth path.now ∷ []) result }
    ensures untouched { UntouchedAll F.VERSION (drop depth path.now ∷ [])
        keep.old pool.old disk.old keep.new pool.new disk.new }
    // What stays as it was.
    ensures looked { Looked D.Disk K.View lot.now keep.old disk.old keep.new disk.new }
    // Which refusals there are, and when a fault comes.
    ensures set { IfErr result (IsOneOf make_refusals change_rules) }
    ensures failed { Caused D.state Fault result disk.old disk.new }
{
    if let Err(refusal) = check_path::<F>(path, depth) {
        return Err(refusal);
    }
    let ends = match find_ends::<D, K, F>(keep, disk, lot, path, depth) {
        Ok(ends) => ends,
        Err(fault) => return Err(refusal_of(fault)),
    };
    let spot = match new_spot(&ends, path.len() == depth) {
        Ok(spot) => spot,
        Err(refusal) => return Err(refusal),
    };
    if spot.entries + 1 >= 64 * lot.len() as u32 {
        return Err(Refusal::NoNodes);
    }
    let need = Need {
        nodes: 1,
        lost: 0,
        blocks: dir_cost::<F>(spot.entries + 1),
        freed: dir_cost::<F>(spot.entries),
    };
    match check_quota::<D, K, P, F>(keep, pool, disk, lot, &need) {
        Ok(()) => Ok(spot),
        Err(refusal) => Err(refusal),
    }
}

/// The inode of an empty directory, or of an empty file.
fn new_node(dir: bool) -> Inode
    ensures { result ≡ new_inode dir }
{
    Inode::empty(if dir { 2 } else { 1 })
}

/// Takes an inode for an empty directory or file, and adds its row to the directory.
/// Damaged, with the rule on bitmaps: the directory's own inode is marked free.
#[tactic(auto, using(ice_base::proofs::SpareLaws::room_laws))]
fn put_node<D: Disk, K: Keep<D>, P: Pool<D, K>, F: Form>(
    keep: &mut K,
    pool: &mut P,
    disk: &mut D,
    lot: &Lot,
    spot: &DirAt,
    name: &Name,
    dir: bool,
) -> Result<(), OpFault>
    // The lot lies on the disk and the keep has room.
    requires sited { is_sited lot.now (D.state disk.old).size ≡ true }
    requires spot { DirFits lot.now spot.now }
    requires more { spot.now.entries + 1 < 64 * length lot.now.groups }
    requires fits { length name.now ≤ F.NAME }
    requires room { 11 ≤ K.room keep.old }
    // Where it takes the operation, the lot recovers the changed tree; the disk alone may fail.
    ensures made { (mode k : ℕ) (t : Tree) (p : List (List ℕ))
        → AsShown K.View lot.now keep.old disk.old keep.new disk.new (λ old new.
        Takes (form_of F.VERSION) mode lot.now old t k p dir spot.now name.now
        → OnOk result (MapRecovers (form_of F.VERSION) mode lot.now new
        (next_tree (new_operation dir p) t) k)) }
    ensures sound { (mode k : ℕ) (t : Tree) (p : List (List ℕ))
        → IfShown K.View lot.now keep.old disk.old (λ old.
        Takes (form_of F.VERSION) mode lot.now old t k p dir spot.now name.now
        → FailsByDisk result) }
    // Damage that it names is there.
    ensures broken { IfShown K.View lot.now keep.old disk.old (λ old.
        NewFits (form_of F.VERSION) lot.now old spot.now → IfErr result (IsBrokenBy (form_of F.VERSION) lot.now old)) }
    // What it spends of the keep, and what stays as it was.
    ensures spent { Spent D.Disk K.View lot.now 11 keep.old disk.old keep.new disk.new }
    ensures done { KeepsDone K.View lot.now keep.old disk.old keep.new disk.new result }
    // Which refusals there are, and when a fault comes.
    ensures faults { IfErr result (IsNamedIn change_rules) }
    ensures failed { Caused D.state FaultDisk result disk.old disk.new }
{
    let number = pool.take_inode(keep, disk, lot)?;
    if number == spot.number {
        return Err(OpFault::Damaged(Rule::Bitmap));
    }
    put_inode::<D, K, P, F>(keep, pool, disk, lot, number, &new_node(dir))?;
    add_in::<D, K, P, F>(keep, pool, disk, lot, spot.number, &spot.node, name, number)?;
    Ok(())
}

/// The same, as one more accepted operation.
fn put_new<D: Disk, K: Keep<D>, P: Pool<D, K>, F: Form>(
    keep: &mut K,
    pool: &mut P,
    disk: &mut D,
    lot: &Lot,
    spot: &DirAt,
    name: &Name,
    dir: bool,
) -> Result<(), OpFault>
    // The lot lies on the disk and the keep has room.
    requires sited { is_sited lot.now (D.state disk.old).size ≡ true }
    requires spot { DirFits lot.now spot.now }
    requires more { spot.now.entries + 1 < 64 * length lot.now.groups }
    requires fits { length name.now ≤ F.NAME }
    requires room { 12 ≤ K.room keep.old }
    // Where it takes the operation, the lot recovers the changed tree; the disk alone may fail.
    ensures made { (mode k : ℕ) (t : Tree) (p : List (List ℕ))
        → AsShown K.View lot.now keep.old disk.old keep.new disk.new (λ old new.
        Takes (form_of F.VERSION) mode lot.now old t k p dir spot.now name.now
        → OnOk result (MapRecovers (form_of F.VERSION) mode lot.now new
        (next_tree (new_operation dir p) t) (k + 1))) }
    ensures sound { (mode k : ℕ) (t : Tree) (p : List (List ℕ))
        → IfShown K.View lot.now keep.old disk.old (λ old.
        Takes (form_of F.VERSION) mode lot.now old t k p dir spot.now name.now
        → FailsByDisk result) }
    // Damage that it names is there.
    ensures broken { IfShown K.View lot.now keep.old disk.old (λ old.
        NewFits (form_of F.VERSION) lot.now old spot.now → IfErr result (IsBrokenBy (form_of F.VERSION) lot.now old)) }
    // What it spends of the keep, and what stays as it was.
    ensures counted { OnOk result (K.held keep.new sub_address ≡ true) }
    ensures spent { Spent D.Disk K.View lot.now 12 keep.old disk.old keep.new disk.new }
    // Which refusals there are, and when a fault comes.
    ensures faults { IfErr result (IsNamedIn change_rules) }
    ensures failed { Caused D.state FaultDisk result disk.old disk.new }
{
    put_node::<D, K, P, F>(keep, pool, disk, lot, spot, name, dir)?;
    count_up(keep, disk, lot)?;
    Ok(())
}

/// Makes an empty directory or file.
fn make_node<D: Disk, K: Keep<D>, P: Pool<D, K>, F: Form>(
    keep: &mut K,
    pool: &mut P,
    disk: &mut D,
    lot: &Lot,
    path: &Path,
    depth: usize,
    dir: bool,
) -> Result<(), Refusal>
    // The lot lies on the disk and has a group, the path begins with the cube's names, and the keep has room.
    requires sited { is_sited lot.now (D.state disk.old).size ≡ true }
    requires some { 1 ≤ length lot.now.groups }
    requires depth { depth ≤ length path.now }
    requires room { 96 ≤ K.room keep.old }
    // Over a lot that recovers a tree, the answer and the change are the model's.
    ensures answers { AnswersAs K.View F.VERSION lot.now keep.old disk.old
        (new_operation dir (drop depth path.now)) (meant_plain result) }
    ensures changed { ChangesAs K.View F.VERSION lot.now keep.old disk.old keep.new disk.new
        (new_operation dir (drop depth path.now)) result }
    // Damage that it names is there.
    ensures damaged { NamesBroken K.View (form_of F.VERSION) lot.now keep.old disk.old result }
    // Names alone refuse a path before any call of the disk.
    ensures paths { RefusesPaths F.VERSION (drop depth path.now ∷ []) result }
    ensures untouched { UntouchedAll F.VERSION (drop depth path.now ∷ [])
        keep.old pool.old disk.old keep.new pool.new disk.new }
    // What it spends of the keep, and what stays as it was.
    ensures counted { OnOk result (K.held keep.new sub_address ≡ true) }
    ensures refused { LooksIfRefused D.Disk K.View lot.now keep.old disk.old keep.new disk.new result }
    ensures spent { Spent D.Disk K.View lot.now 96 keep.old disk.old keep.new disk.new }
    // Which refusals there are, and when a fault comes.
    ensures set { IfErr result (IsOneOf make_refusals change_rules) }
    ensures failed { Caused D.state Fault result disk.old disk.new }
{
    let spot = match check_new::<D, K, P, F>(keep, pool, disk, lot, path, depth) {
        Ok(spot) => spot,
        Err(refusal) => return Err(refusal),
    };
    let name = last_of::<F>(path, depth);
    match put_new::<D, K, P, F>(keep, pool, disk, lot, &spot, &name, dir) {
        Ok(()) => Ok(()),
        Err(fault) => Err(refusal_of(fault)),
    }
}

/// Makes an empty directory. `depth` is the number of names of the cube's path. After a fault or damage the keep may hold part of the change.
pub fn mkdir<D: Disk, K: Keep<D>, P: Pool<D, K>, F: Form>(
    keep: &mut K,
    pool: &mut P,
    disk: &mut D,
    lot: &Lot,
    path: &Path,
    depth: usize,
) -> Result<(), Refusal>
    // The lot lies on the disk and has a group, the path begins with the cube's names, and the keep has room.
    requires sited { is_sited lot.now (D.state disk.old).size ≡ true }
    requires some { 1 ≤ length lot.now.groups }
    requires depth { depth ≤ length path.now }
    requires room { 96 ≤ K.room keep.old }
    // Over a lot that recovers a tree, the answer and the change are the model's.
    ensures answers { AnswersAs K.View F.VERSION lot.now keep.old disk.old
        (Mkdir (drop depth path.now)) (meant_plain result) }
    ensures changed { ChangesAs K.View F.VERSION lot.now keep.old disk.old keep.new disk.new
        (Mkdir (drop depth path.now)) result }
    // Damage that it names is there.
    ensures damaged { NamesBroken K.View (form_of F.VERSION) lot.now keep.old disk.old result }
    // Names alone refuse a path before any call of the disk.
    ensures paths { RefusesPaths F.VERSION (drop depth path.now ∷ []) result }
    ensures untouched { UntouchedAll F.VERSION (drop depth path.now ∷ [])
        keep.old pool.old disk.old keep.new pool.new disk.new }
    // What it spends of the keep, and what stays as it was.
    ensures counted { OnOk result (K.held keep.new sub_address ≡ true) }
    ensures refused { LooksIfRefused D.Disk K.View lot.now keep.old disk.old keep.new disk.new result }
    ensures spent { Spent D.Disk K.View lot.now 96 keep.old disk.old keep.new disk.new }
    // Which refusals there are, and when a fault comes.
    ensures set { IfErr result (IsOneOf make_refusals change_rules) }
    ensures failed { Caused D.state Fault result disk.old disk.new }
{
    make_node::<D, K, P, F>(keep, pool, disk, lot, path, depth, true)
}

/// Makes an empty file. `depth` is the number of names of the cube's path. After a fault or damage the keep may hold part of the change.
pub fn make<D: Disk, K: Keep<D>, P: Pool<D, K>, F: Form>(
    keep: &mut K,
    pool: &mut P,
    disk: &mut D,
    lot: &Lot,
    path: &Path,
    depth: usize,
) -> Result<(), Refusal>
    // The lot lies on the disk and has a group, the path begins with the cube's names, and the keep has room.
    requires sited { is_sited lot.now (D.state disk.old).size ≡ true }
    requires some { 1 ≤ length lot.now.groups }
    requires depth { depth ≤ length path.now }
    requires room { 96 ≤ K.room keep.old }
    // Over a lot that recovers a tree, the answer and the change are the model's.
    ensures answers { AnswersAs K.View F.VERSION lot.now keep.old disk.old
        (Make (drop depth path.now)) (meant_plain result) }
    ensures changed { ChangesAs K.View F.VERSION lot.now keep.old disk.old keep.new disk.new
        (Make (drop depth path.now)) result }
    // Damage that it names is there.
    ensures damaged { NamesBroken K.View (form_of F.VERSION) lot.now keep.old disk.old result }
    // Names alone refuse a path before any call of the disk.
    ensures paths { RefusesPaths F.VERSION (drop depth path.now ∷ []) result }
    ensures untouched { UntouchedAll F.VERSION (drop depth path.now ∷ [])
        keep.old pool.old disk.old keep.new pool.new disk.new }
    // What it spends of the keep, and what stays as it was.
    ensures counted { OnOk result (K.held keep.new sub_address ≡ true) }
    ensures refused { LooksIfRefused D.Disk K.View lot.now keep.old disk.old keep.new disk.new result }
    ensures spent { Spent D.Disk K.View lot.now 96 keep.old disk.old keep.new disk.new }
    // Which refusals there are, and when a fault comes.
    ensures set { IfErr result (IsOneOf make_refusals change_rules) }
    ensures failed { Caused D.state Fault result disk.old disk.new }
{
    make_node::<D, K, P, F>(keep, pool, disk, lot, path, depth, false)
}
