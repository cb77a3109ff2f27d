//! Files and empty directories that are taken away.
ghost use Rattle.std.specs.Prelude.{◌≡◌, ◌≢◌, ◌≤◌, ◌<◌, ◌+◌, ◌*◌, ℕ, List, true, false, [], ◌∷◌, Some, None, OnOk, IfOk, IfErr, IsErrOf, MatchResult, length, drop};
ghost use Rattle.ice_base.specs.Disk.{Caused};
ghost use Rattle.ice_base.specs.Lots.{LotView, is_sited, sub_address};
ghost use Rattle.ice_base.specs.Used.{used_inode, counted};
ghost use Rattle.ice_base.specs.Views.{Looked, Spent, AsShown, IfShown};
ghost use Rattle.ice_base.specs.declared.fault.OpFault.TheVariants.{Disk as FaultDisk};
ghost use Rattle.ice_map.specs.Inodes.{inode_of};
ghost use Rattle.ice_file.specs.Files.{ReachesTo};
ghost use Rattle.tree_spec.specs.Answers.{answer, next_tree, is_root};
ghost use Rattle.tree_spec.specs.Costs.{Form, form_one, form_of};
ghost use Rattle.tree_spec.specs.Operations.{Remove};
ghost use Rattle.tree_spec.specs.Trees.{Tree, last_name};
ghost use Rattle.tree_spec.specs.declared.reply.Refusal.TheVariants.{NotDir, Fault, Damaged};
ghost use Rattle.ice_reads.specs.Tables.{Table};
ghost use Rattle.ice_map.specs.Own.{own};
ghost use Rattle.ice_reads.specs.Recovers.{MapRecovers};
ghost use Rattle.ice_steps.specs.Beside.{Beside};
ghost use Rattle.ice_look.specs.Broken.{IsBrokenBy, IsFaultBy};
ghost use Rattle.ice_look.specs.Ends.{IsEnds, EndsFit, EndsAre};
ghost use Rattle.ice_tree.specs.Quotas.{CanCount, quota_refusal};
ghost use Rattle.ice_tree.specs.Removes.{RemovalIs, LooseBroken, removal_refusal, IsRemoval, RemovalFits, Loses, StandsLoose, free_inode, Freed};
ghost use Rattle.ice_look.specs.Outcomes.{meant_plain, IsOneOf};
ghost use Rattle.ice_tree.specs.Outcomes.{IsNamedIn, remove_refusals, sub_rules, change_rules};
ghost use Rattle.ice_look.specs.Places.{PlaceNamed};
ghost use Rattle.ice_look.specs.declared.place.Place.TheVariants.{Dir};
ghost use Rattle.ice_look.specs.Stages.{or_else};
ghost use Rattle.ice_look.specs.Calls.{IfRecovers, AnswersAs, FailsByDisk, inode_at, RefusedBy, Accepts, RefusesPaths, NamesBroken};
ghost use Rattle.ice_tree.specs.Calls.{ChangesAs, UntouchedAll, LooksIfRefused, KeepsDone};

use crate::counts::count_up;
use crate::quota::{Need, check_quota, dir_cost, file_cost};
use ice_base::{Disk, Form, Keep, Lot, OpFault, Pool, Rule, View};
use ice_dir::take_in;
use ice_file::cut_in;
use ice_look::{DirAt, Ends, Place, check_path, find_ends, last_of, refusal_of};
use ice_map::{Inode, put_inode};
use tree_spec::{Name, Path, Refusal};

/// What is to be removed: the directory that has it as an entry, the number of its inode, the bytes of a file, and the inode.
#[derive(Clone, Copy, Drop)]
pub struct Removal {
    pub spot: DirAt,
    pub number: u32,
    pub bytes: u32,
    pub node: Inode,
}

/// What an inode stands for, in the directory at a place. NotDir: no directory is there.
fn removal_in(ends: &Ends, number: u32, bytes: u32) -> Result<Removal, Refusal>
    ensures gone { MatchResult result (λ gone. (ends.now.parent ≡ Dir gone.spot.number gone.spot.entries)
        × (gone.number ≡ number) × (gone.bytes ≡ bytes)) (λ r. (r ≡ NotDir)
        × ((dir entries : ℕ) → ends.now.parent ≢ Dir dir entries)) }
    ensures nodes { IfOk result (λ gone. (gone.spot.node ≡ ends.now.above) × (gone.node ≡ ends.now.node)) }
{
    match ends.parent {
        Place::Dir { number: dir, size } => Ok(Removal {
            spot: DirAt {
                number: dir,
                entries: size,
                node: ends.above,
            },
            number,
            bytes,
            node: ends.node,
        }),
        Place::File { .. } => Err(Refusal::NotDir),
        Place::Missing => Err(Refusal::NotDir),
        Place::Blocked => Err(Refusal::NotDir),
    }
}

/// What stands at a path with these ends. NotFound and NotDir: the walk ends so. NotEmpty: a directory with entries.
fn removal_of(ends: &Ends) -> Result<Removal, Refusal>
    // Of the ends of a path in a tree.
    ensures gone { (f : Form) (o : Table) (p : List (List ℕ)) (t : Tree) → is_root p ≡ false
        → IsEnds f o p t ends.now → Accepts (IsRemoval f o p t) (removal_refusal p t) result }
    // What it answers of any lot, damaged or not.
    ensures fits { (lot : LotView) → EndsFit lot ends.now → IfOk result (RemovalFits lot) }
    ensures is { (form : Form) (lot : LotView) (m : ℕ → List ℕ) (name : List ℕ)
        → EndsAre form lot m ends.now → EndsFit lot ends.now
        → PlaceNamed form m ends.now.parent name ends.now.end
        → IfOk result (RemovalIs form lot m name) }
    // Damage that it names is there.
    ensures undamaged { (n : ℕ) → IsErrOf result (Damaged n) → ⊥ }
    // Which refusals there are, and when a fault comes.
    ensures set { IfErr result (IsOneOf remove_refusals []) }
    ensures faultless { IsErrOf result Fault → ⊥ }
{
    match ends.end {
        Place::Missing => Err(Refusal::NotFound),
        Place::Blocked => Err(Refusal::NotDir),
        Place::File { number, size } => removal_in(ends, number, size),
        Place::Dir { number, size } => {
            if size > 0 {
                return Err(Refusal::NotEmpty);
            }
            removal_in(ends, number, 0)
        }
    }
}

/// What stands at a path. IsRoot: the path has no names.
#[tactic(auto, using(ice_map::proofs::SizeLaws::size_laws))]
fn find_removal<D: Disk, V: View<D>, F: Form>(
    view: &mut V,
    disk: &mut D,
    lot: &Lot,
    path: &Path,
    depth: usize,
) -> Result<Removal, Refusal>
    // The lot lies on the disk and has a group, and the path begins with the cube's names.
    requires sited { is_sited lot.now (D.state disk.old).size ≡ true }
    requires some { 1 ≤ length lot.now.groups }
    requires depth { depth ≤ length path.now }
    // Over a lot that recovers a tree, it finds what the tree has.
    ensures found { IfRecovers V.View F.VERSION lot.now view.old disk.old (λ old t _.
        Accepts (IsRemoval (form_of F.VERSION) (own (form_of F.VERSION) old)
        (drop depth path.now) t) (removal_refusal (drop depth path.now) t) result) }
    // What it answers of any lot, damaged or not.
    ensures fits { IfOk result (RemovalFits lot.now) }
    ensures below { OnOk result (depth < length path.now) }
    ensures is { IfShown V.View lot.now view.old disk.old (λ old.
        IfOk result (RemovalIs (form_of F.VERSION) lot.now old (last_name (drop depth path.now)))) }
    // Damage that it names is there.
    ensures damaged { NamesBroken V.View (form_of F.VERSION) lot.now view.old disk.old result }
    // What stays as it was.
    ensures looked { Looked D.Disk V.View lot.now view.old disk.old view.new disk.new }
    // Which refusals there are, and when a fault comes.
    ensures set { IfErr result (IsOneOf remove_refusals change_rules) }
    ensures failed { Caused D.state Fault result disk.old disk.new }
{
    if path.len() == depth {
        return Err(Refusal::IsRoot);
    }
    match find_ends::<D, V, F>(view, disk, lot, path, depth) {
        Err(fault) => Err(refusal_of(fault)),
        Ok(ends) => removal_of(&ends),
    }
}

/// The refusals by the quota. A removal needs no node and gives one back; its directory has a block less where the last one was its only one.
#[tactic(auto, using(ice_map::proofs::SizeLaws::size_laws))]
fn check_removal<D: Disk, K: Keep<D>, P: Pool<D, K>, F: Form>(
    keep: &mut K,
    pool: &mut P,
    disk: &mut D,
    lot: &Lot,
    gone: &Removal,
) -> Result<(), Refusal>
    // The lot lies on the disk.
    requires sited { is_sited lot.now (D.state disk.old).size ≡ true }
    requires fits { RemovalFits lot.now gone.now }
    // Over a lot that recovers a tree, it finds what the tree has.
    ensures quota { (mode k : ℕ) (t : Tree) (p : List (List ℕ))
        → IfShown K.View lot.now keep.old disk.old (λ old.
        MapRecovers (form_of F.VERSION) mode lot.now old t k
        → IsRemoval (form_of F.VERSION) (own (form_of F.VERSION) old) p t gone.now
        → removal_refusal p t ≡ None → RefusedBy
        (quota_refusal (length lot.now.groups) (form_of F.VERSION) k (next_tree (Remove p) t)) result) }
    // What it answers of any lot, damaged or not.
    ensures room { IfShown K.View lot.now keep.old disk.old (λ old. OnOk result (CanCount old)) }
    // Damage that it names is there.
    ensures damaged { NamesBroken K.View (form_of F.VERSION) lot.now keep.old disk.old result }
    // What stays as it was.
    ensures looked { Looked D.Disk K.View lot.now keep.old disk.old keep.new disk.new }
    // Which refusals there are, and when a fault comes.
    ensures set { IfErr result (IsOneOf remove_refusals sub_rules) }
    ensures failed { Caused D.state Fault result disk.old disk.new }
{
    let need = Need {
        nodes: 0,
        lost: 1,
        blocks: dir_cost::<F>(gone.spot.entries.saturating_sub(1)),
        freed: dir_cost::<F>(gone.spot.entries) + file_cost(gone.bytes),
    };
    check_quota::<D, K, P, F>(keep, pool, disk, lot, &need)
}

/// What a removal takes away, where nothing but the names of the path refuses it.
#[tactic(auto, using(ice_map::proofs::SizeLaws::size_laws))]
fn may_remove<D: Disk, K: Keep<D>, P: Pool<D, K>, F: Form>(
    keep: &mut K,
    pool: &mut P,
    disk: &mut D,
    lot: &Lot,
    path: &Path,
    depth: usize,
) -> Result<Removal, Refusal>
    // The lot lies on the disk and has a group, and the path begins with the cube's names.
    requires sited { is_sited lot.now (D.state disk.old).size ≡ true }
    requires some { 1 ≤ length lot.now.groups }
    requires depth { depth ≤ length path.now }
    // Over a lot that recovers a tree, it finds what the tree has.
    ensures found { IfRecovers K.View F.VERSION lot.now keep.old disk.old (λ old t k.
        Accepts (IsRemoval (form_of F.VERSION) (own (form_of F.VERSION) old)
        (drop depth path.now) t) (or_else (removal_refusal (drop depth path.now) t)
        (quota_refusal (length lot.now.groups) (form_of F.VERSION) k
        (next_tree (Remove (drop depth path.now)) t))) result) }
    // What it answers of any lot, damaged or not.
    ensures fits { IfOk result (RemovalFits lot.now) }
    ensures below { OnOk result (depth < length path.now) }
    ensures is { IfShown K.View lot.now keep.old disk.old (λ old.
        IfOk result (RemovalIs (form_of F.VERSION) lot.now old (last_name (drop depth path.now)))) }
    ensures room { IfShown K.View lot.now keep.old disk.old (λ old. OnOk result (CanCount old)) }
    // Damage that it names is there.
    ensures damaged { NamesBroken K.View (form_of F.VERSION) lot.now keep.old disk.old result }
    // What stays as it was.
    ensures looked { Looked D.Disk K.View lot.now keep.old disk.old keep.new disk.new }
    // Which refusals there are, and when a fault comes.
    ensures set { IfErr result (IsOneOf remove_refusals change_rules) }
    ensures failed { Caused D.state Fault result disk.old disk.new }
{
    match find_removal::<D, K, F>(keep, disk, lot, path, depth) {
        Err(refusal) => Err(refusal),
        Ok(gone) => match check_removal::<D, K, P, F>(keep, pool, disk, lot, &gone) {
            Err(refusal) => Err(refusal),
            Ok(()) => Ok(gone),
        },
    }
}

/// Gives back the blocks of a file of so many bytes, whose inode is in hand.
#[tactic(auto, using(ice_map::proofs::SizeLaws::size_laws))]
fn drop_bytes<D: Disk, K: Keep<D>, P: Pool<D, K>, F: Form>(
    keep: &mut K,
    pool: &mut P,
    disk: &mut D,
    lot: &Lot,
    number: u32,
    node: &Inode,
    bytes: u32,
) -> Result<(), OpFault>
    // The lot lies on the disk, the keep has room, and bytes are those of a file.
    requires sited { is_sited lot.now (D.state disk.old).size ≡ true }
    requires number { number < 64 * length lot.now.groups }
    requires file { 0 < bytes → ReachesTo form_one 0 node.now }
    requires room { 72 ≤ K.room keep.old }
    // Where it takes the operation, the lot recovers the changed tree; the disk alone may fail.
    ensures dropped { (mode k : ℕ) (t : Tree)
        → AsShown K.View lot.now keep.old disk.old keep.new disk.new (λ old new.
        (0 < bytes → node.now ≡ inode_of old number)
        → StandsLoose (form_of F.VERSION) mode lot.now old t k number bytes
        → OnOk result (Beside (form_of F.VERSION) mode lot.now new t k [] (number ∷ []))) }
    ensures sound { (mode k : ℕ) (t : Tree) → IfShown K.View lot.now keep.old disk.old (λ old.
        (0 < bytes → node.now ≡ inode_of old number)
        → StandsLoose (form_of F.VERSION) mode lot.now old t k number bytes → FailsByDisk result) }
    // Damage that it names is there.
    ensures broken { IfShown K.View lot.now keep.old disk.old (λ old.
        (0 < bytes → node.now ≡ inode_of old number)
        → IfErr result (IsFaultBy (LooseBroken lot.now old number))) }
    // What it spends of the keep, and what stays as it was.
    ensures spent { Spent D.Disk K.View lot.now 72 keep.old disk.old keep.new disk.new }
    ensures inodes { AsShown K.View lot.now keep.old disk.old keep.new disk.new (λ old new.
        OnOk result ((i : ℕ) → used_inode new i ≡ used_inode old i)) }
    ensures count { AsShown K.View lot.now keep.old disk.old keep.new disk.new (λ old new.
        OnOk result (counted true new ≡ counted true old)) }
    ensures done { KeepsDone K.View lot.now keep.old disk.old keep.new disk.new result }
    // Which refusals there are, and when a fault comes.
    ensures faults { IfErr result (IsNamedIn change_rules) }
    ensures failed { Caused D.state FaultDisk result disk.old disk.new }
{
    if bytes == 0 {
        return Ok(());
    }
    cut_in::<D, K, P, F>(keep, pool, disk, lot, number, node, 0)
}

/// Gives back a file of so many bytes, whose inode is in hand, or an empty directory, that no directory names: its blocks and its inode.
#[tactic(auto, using(ice_base::proofs::SpareLaws::room_laws))]
fn clear<D: Disk, K: Keep<D>, P: Pool<D, K>, F: Form>(
    keep: &mut K,
    pool: &mut P,
    disk: &mut D,
    lot: &Lot,
    number: u32,
    node: &Inode,
    bytes: u32,
) -> Result<(), OpFault>
    // The lot lies on the disk, the keep has room, and bytes are those of a file.
    requires sited { is_sited lot.now (D.state disk.old).size ≡ true }
    requires number { number < 64 * length lot.now.groups }
    requires file { 0 < bytes → ReachesTo form_one 0 node.now }
    requires room { 75 ≤ K.room keep.old }
    // Where it takes the operation, the lot recovers the changed tree; the disk alone may fail.
    ensures cleared { (mode k : ℕ) (t : Tree)
        → AsShown K.View lot.now keep.old disk.old keep.new disk.new (λ old new.
        (0 < bytes → node.now ≡ inode_of old number)
        → StandsLoose (form_of F.VERSION) mode lot.now old t k number bytes
        → OnOk result (MapRecovers (form_of F.VERSION) mode lot.now new t k)) }
    ensures sound { (mode k : ℕ) (t : Tree) → IfShown K.View lot.now keep.old disk.old (λ old.
        (0 < bytes → node.now ≡ inode_of old number)
        → StandsLoose (form_of F.VERSION) mode lot.now old t k number bytes → FailsByDisk result) }
    // What it answers of any lot, damaged or not.
    ensures freed { AsShown K.View lot.now keep.old disk.old keep.new disk.new (λ old new.
        OnOk result (Freed new number)) }
    // Damage that it names is there.
    ensures broken { IfShown K.View lot.now keep.old disk.old (λ old.
        (0 < bytes → node.now ≡ inode_of old number)
        → IfErr result (IsFaultBy (LooseBroken lot.now old number))) }
    // What it spends of the keep, and what stays as it was.
    ensures spent { Spent D.Disk K.View lot.now 75 keep.old disk.old keep.new disk.new }
    ensures done { KeepsDone K.View lot.now keep.old disk.old keep.new disk.new result }
    // Which refusals there are, and when a fault comes.
    ensures faults { IfErr result (IsNamedIn change_rules) }
    ensures failed { Caused D.state FaultDisk result disk.old disk.new }
{
    drop_bytes::<D, K, P, F>(keep, pool, disk, lot, number, node, bytes)?;
    put_inode::<D, K, P, F>(keep, pool, disk, lot, number, &Inode::empty(0))?;
    pool.give_inode(keep, disk, lot, number)
}

/// Takes an entry from its directory, and gives back what it named. Damaged, with the rule on kinds: the directory that a walk went through has no such entry.
fn take_away<D: Disk, K: Keep<D>, P: Pool<D, K>, F: Form>(
    keep: &mut K,
    pool: &mut P,
    disk: &mut D,
    lot: &Lot,
    gone: &Removal,
    name: &Name,
) -> Result<(), OpFault>
    // The lot lies on the disk and the keep has room.
    requires sited { is_sited lot.now (D.state disk.old).size ≡ true }
    requires fits { RemovalFits lot.now gone.now }
    requires room { 83 ≤ K.room keep.old }
    // Where it takes the operation, the lot recovers the changed tree; the disk alone may fail.
    ensures taken { (mode k : ℕ) (t : Tree) (p : List (List ℕ))
        → AsShown K.View lot.now keep.old disk.old keep.new disk.new (λ old new.
        Loses (form_of F.VERSION) mode lot.now old t k p gone.now name.now
        → OnOk result (MapRecovers (form_of F.VERSION) mode lot.now new (next_tree (Remove p) t) k)) }
    ensures sound { (mode k : ℕ) (t : Tree) (p : List (List ℕ))
        → IfShown K.View lot.now keep.old disk.old (λ old.
        Loses (form_of F.VERSION) mode lot.now old t k p gone.now name.now → FailsByDisk result) }
    // What it answers of any lot, damaged or not.
    ensures freed { AsShown K.View lot.now keep.old disk.old keep.new disk.new (λ old new.
        OnOk result (Freed new gone.now.number)) }
    // Damage that it names is there.
    ensures broken { IfShown K.View lot.now keep.old disk.old (λ old.
        RemovalIs (form_of F.VERSION) lot.now old name.now gone.now
        → IfErr result (IsBrokenBy (form_of F.VERSION) lot.now old)) }
    // What it spends of the keep, and what stays as it was.
    ensures spent { Spent D.Disk K.View lot.now 83 keep.old disk.old keep.new disk.new }
    ensures done { KeepsDone K.View lot.now keep.old disk.old keep.new disk.new result }
    // Which refusals there are, and when a fault comes.
    ensures faults { IfErr result (IsNamedIn change_rules) }
    ensures failed { Caused D.state FaultDisk result disk.old disk.new }
{
    let mut dir = gone.spot.node;
    match take_in::<D, K, P, F>(keep, pool, disk, lot, gone.spot.number, &mut dir, name)? {
        None => Err(OpFault::Damaged(Rule::Kind)),
        Some(_) => {
            clear::<D, K, P, F>(keep, pool, disk, lot, gone.number, &gone.node, gone.bytes)
        }
    }
}

/// The same, as one more accepted operation.
fn put_away<D: Disk, K: Keep<D>, P: Pool<D, K>, F: Form>(
    keep: &mut K,
    pool: &mut P,
    disk: &mut D,
    lot: &Lot,
    gone: &Removal,
    name: &Name,
) -> Result<(), OpFault>
    // The lot lies on the disk and the keep has room.
    requires sited { is_sited lot.now (D.state disk.old).size ≡ true }
    requires fits { RemovalFits lot.now gone.now }
    requires room { 84 ≤ K.room keep.old }
    // Where it takes the operation, the lot recovers the changed tree; the disk alone may fail.
    ensures taken { (mode k : ℕ) (t : Tree) (p : List (List ℕ))
        → AsShown K.View lot.now keep.old disk.old keep.new disk.new (λ old new.
        Loses (form_of F.VERSION) mode lot.now old t k p gone.now name.now
        → OnOk result (MapRecovers (form_of F.VERSION) mode lot.now new (next_tree (Remove p) t)
        (k + 1))) }
    ensures sound { (mode k : ℕ) (t : Tree) (p : List (List ℕ))
        → IfShown K.View lot.now keep.old disk.old (λ old.
        Loses (form_of F.VERSION) mode lot.now old t k p gone.now name.now → FailsByDisk result) }
    // What it answers of any lot, damaged or not.
    ensures freed { AsShown K.View lot.now keep.old disk.old keep.new disk.new (λ old new.
        OnOk result (Freed new gone.now.number)) }
    // Damage that it names is there.
    ensures broken { IfShown K.View lot.now keep.old disk.old (λ old.
        RemovalIs (form_of F.VERSION) lot.now old name.now gone.now → CanCount old
        → IfErr result (IsBrokenBy (form_of F.VERSION) lot.now old)) }
    // What it spends of the keep, and what stays as it was.
    ensures counted { OnOk result (K.held keep.new sub_address ≡ true) }
    ensures spent { Spent D.Disk K.View lot.now 84 keep.old disk.old keep.new disk.new }
    // Which refusals there are, and when a fault comes.
    ensures faults { IfErr result (IsNamedIn change_rules) }
    ensures failed { Caused D.state FaultDisk result disk.old disk.new }
{
    take_away::<D, K, P, F>(keep, pool, disk, lot, gone, name)?;
    count_up(keep, disk, lot)?;
    Ok(())
}

/// Removes a file or an empty directory. `depth` is the number of names of the cube's path. After a fault or damage the keep may hold part of the change.
pub fn remove<D: Disk, K: Keep<D>, P: Pool<D, K>, F: Form>(
    keep: &mut K,
    pool: &mut P,
    disk: &mut D,
    lot: &Lot,
    path: &Path,
    depth: usize,
) -> Result<(), Refusal>
    // The lot lies on the disk and has a group, the path begins with the cube's names, and the keep has room.
    requires sited { is_sited lot.now (D.state disk.old).size ≡ true }
    requires some { 1 ≤ length lot.now.groups }
    requires depth { depth ≤ length path.now }
    requires room { 96 ≤ K.room keep.old }
    // Over a lot that recovers a tree, the answer and the change are the model's.
    ensures answers { AnswersAs K.View F.VERSION lot.now keep.old disk.old
        (Remove (drop depth path.now)) (meant_plain result) }
    ensures changed { ChangesAs K.View F.VERSION lot.now keep.old disk.old keep.new disk.new
        (Remove (drop depth path.now)) result }
    ensures freed { (mode k : ℕ) (t : Tree)
        → AsShown K.View lot.now keep.old disk.old keep.new disk.new (λ old new.
        MapRecovers (form_of F.VERSION) mode lot.now old t k
        → OnOk result (Freed new (inode_at F.VERSION old (drop depth path.now)))) }
    // Damage that it names is there.
    ensures damaged { NamesBroken K.View (form_of F.VERSION) lot.now keep.old disk.old result }
    // Names alone refuse a path before any call of the disk.
    ensures paths { RefusesPaths F.VERSION (drop depth path.now ∷ []) result }
    ensures untouched { UntouchedAll F.VERSION (drop depth path.now ∷ [])
        keep.old pool.old disk.old keep.new pool.new disk.new }
    // What it spends of the keep, and what stays as it was.
    ensures counted { OnOk result (K.held keep.new sub_address ≡ true) }
    ensures refused { LooksIfRefused D.Disk K.View lot.now keep.old disk.old keep.new disk.new result }
    ensures spent { Spent D.Disk K.View lot.now 96 keep.old disk.old keep.new disk.new }
    // Which refusals there are, and when a fault comes.
    ensures set { IfErr result (IsOneOf remove_refusals change_rules) }
    ensures failed { Caused D.state Fault result disk.old disk.new }
{
    if let Err(refusal) = check_path::<F>(path, depth) {
        return Err(refusal);
    }
    match may_remove::<D, K, P, F>(keep, pool, disk, lot, path, depth) {
        Err(refusal) => Err(refusal),
        Ok(gone) => {
            let name = last_of::<F>(path, depth);
            match put_away::<D, K, P, F>(keep, pool, disk, lot, &gone, &name) {
                Err(fault) => Err(refusal_of(fault)),
                Ok(()) => Ok(()),
            }
        }
    }
}
