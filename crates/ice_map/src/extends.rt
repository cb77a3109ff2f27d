//! One block more for an inode's map.
ghost use Rattle.std.specs.Prelude.{◌≡◌, ◌≢◌, ◌≤◌, ◌<◌, ◌+◌, ◌*◌, ◌-◌, ◌^◌, ◌==◌, cond, ℕ, true, false, List, [], ◌∷◌, OnOk, OnErr, IfOk, IfErr, IsErrOf, length, slice_set, replicate};
ghost use Rattle.ice_base.specs.Bits.{IsLeast};
ghost use Rattle.ice_base.specs.Disk.{Caused};
ghost use Rattle.ice_base.specs.Faults.{IsTakeBlockFault, IsGiveFault};
ghost use Rattle.ice_base.specs.Fields.{WordSet};
ghost use Rattle.ice_base.specs.Lots.{is_sited, sub_address};
ghost use Rattle.ice_base.specs.Pools.{TookBlock, PutsFor, PutsInOne};
ghost use Rattle.ice_base.specs.Spare.{Pays, FitsAny};
ghost use Rattle.ice_base.specs.Used.{is_data, used_block, bitmap_of, counted, free_count, AllUsed, Reserved};
ghost use Rattle.ice_base.specs.Views.{Looked, Spent, Puts, AsShown, IfShown};
ghost use Rattle.ice_base.specs.declared.fault.OpFault.TheVariants.{Disk as FaultDisk, Damaged, NoSpace};
ghost use Rattle.ice_base.specs.declared.fault.Rule.TheVariants.{Counts, Pointer, Bitmap};
ghost use Rattle.ice_map.specs.Faults.{IsGrowFault, IsShortFault};
ghost use Rattle.ice_map.specs.Maps.{longest, indirect_of, needs, growth, growth_puts, GrowthFailed, widened, Marked, Stays, OthersStay, TookTwo, Grown};

use crate::codec::Inode;
use crate::maps::checked;
use ice_base::{Disk, Form, Keep, Lot, OpFault, Pool, Rule, View, fetch, store, write_u32};

fn set_direct(direct: &mut [u32; 12], k: u32, value: u32)
    requires { k < 12 }
    ensures set { direct.new ≡ slice_set direct.old k value }
    ensures long { length direct.old ≡ 12 }
{
    direct[k as usize] = value;
}

/// Takes a block where one is counted free. Damaged: as for a take of the pool, or none is marked free after all.
#[tactic(auto, using(ice_base::proofs::SpareLaws::room_laws, crate::proofs::MarkLaws::none_free))]
fn take_counted<D: Disk, K: Keep<D>, P: Pool<D, K>>(
    keep: &mut K,
    pool: &mut P,
    disk: &mut D,
    lot: &Lot,
) -> Result<u32, OpFault>
    requires sited { is_sited lot.now (D.state disk.old).size ≡ true }
    requires room { 2 ≤ K.room keep.old }
    ensures least { IfShown K.View lot.now keep.old disk.old (λ old. IfOk result (IsLeast (used_block old))) }
    ensures marked { AsShown K.View lot.now keep.old disk.old keep.new disk.new (λ old new.
        IfOk result (λ a. Marked lot.now true old new (a ∷ []))) }
    ensures data { IfOk result (λ a. is_data lot.now a ≡ true) }
    ensures puts { IfOk result (λ a. PutsFor K.View lot.now true false a keep.old disk.old keep.new disk.new) }
    ensures broken { OnErr result (PutsInOne K.View lot.now keep.old disk.old keep.new disk.new) }
    ensures others { (b : ℕ) → b ≢ sub_address → ((o : ℕ) → b ≢ 256 * o)
        → K.map keep.new disk.new lot.now b ≡ K.map keep.old disk.old lot.now b }
    ensures spent { Spent D.Disk K.View lot.now 2 keep.old disk.old keep.new disk.new }
    ensures full { IsErrOf result (Damaged Counts) → IfShown K.View lot.now keep.old disk.old (λ old.
        counted false old ≡ 2 ^ 32 - 1) }
    ensures unreserved { IsErrOf result (Damaged Bitmap) → IfShown K.View lot.now keep.old disk.old (λ old.
        1 ≤ free_count false lot.now old → ¬ Reserved lot.now old) }
    ensures faults { IfErr result IsGiveFault }
    ensures failed { Caused D.state FaultDisk result disk.old disk.new }
{
    match pool.take_block(keep, disk, lot) {
        Ok(taken) => Ok(taken),
        Err(OpFault::NoSpace) => Err(OpFault::Damaged(Rule::Bitmap)),
        Err(fault) => Err(fault),
    }
}

/// Takes two blocks where two are counted free.
#[tactic(auto, using(ice_base::proofs::SpareLaws::room_laws, crate::proofs::MarkLaws::two_laws))]
fn take_two<D: Disk, K: Keep<D>, P: Pool<D, K>>(
    keep: &mut K,
    pool: &mut P,
    disk: &mut D,
    lot: &Lot,
) -> Result<(u32, u32), OpFault>
    requires sited { is_sited lot.now (D.state disk.old).size ≡ true }
    requires room { 4 ≤ K.room keep.old }
    ensures took { AsShown K.View lot.now keep.old disk.old keep.new disk.new (λ old new.
        IfOk result (λ p. TookTwo lot.now old new p.0 p.1)) }
    ensures first { IfOk result (λ p. is_data lot.now p.0 ≡ true) }
    ensures second { IfOk result (λ p. is_data lot.now p.1 ≡ true) }
    ensures only { IfOk result (λ p. (b : ℕ) → b ≢ sub_address → b ≢ bitmap_of false p.0
        → b ≢ bitmap_of false p.1 → K.map keep.new disk.new lot.now b ≡ K.map keep.old disk.old lot.now b) }
    ensures pays { IfOk result (λ p. Pays (K.held keep.old) (K.room keep.old) (K.held keep.new) (K.room keep.new) true
        (sub_address ∷ bitmap_of false p.0 ∷ bitmap_of false p.1 ∷ [])) }
    ensures broken { OnErr result ((a : ℕ) × (b : ℕ)
        × Puts K.View lot.now false (sub_address ∷ bitmap_of false a ∷ bitmap_of false b ∷ []) keep.old disk.old keep.new disk.new) }
    ensures others { (b : ℕ) → b ≢ sub_address → ((o : ℕ) → b ≢ 256 * o)
        → K.map keep.new disk.new lot.now b ≡ K.map keep.old disk.old lot.now b }
    ensures spent { Spent D.Disk K.View lot.now 4 keep.old disk.old keep.new disk.new }
    ensures full { IsErrOf result (Damaged Counts) → IfShown K.View lot.now keep.old disk.old (λ old.
        2 ^ 32 ≤ counted false old + 2) }
    ensures unreserved { IsErrOf result (Damaged Bitmap) → IfShown K.View lot.now keep.old disk.old (λ old.
        2 ≤ free_count false lot.now old → ¬ Reserved lot.now old) }
    ensures faults { IfErr result IsGiveFault }
    ensures failed { Caused D.state FaultDisk result disk.old disk.new }
{
    let first = take_counted(keep, pool, disk, lot)?;
    let second = take_counted(keep, pool, disk, lot)?;
    Ok((first, second))
}

/// Gives a map of `count` blocks one more, which is answered: the least free block, and with the first block past the direct ones
/// the least free block after that as the indirect block. The inode is the caller's to put.
/// NoSpace, exactly: fewer blocks are free than that takes, and the pointer to the indirect block is none that is damaged.
/// Damaged: the count of used blocks can't grow so far, or the least free block is no data place, or the indirect block is none.
#[tactic(auto, using(ice_base::proofs::SpareLaws::room_laws, ice_base::proofs::UsedLaws::group_laws, ice_base::proofs::LotLaws::address_laws, crate::proofs::MarkLaws::none_free, crate::proofs::GrowLaws::needs_laws))]
pub fn extend<D: Disk, K: Keep<D>, P: Pool<D, K>, F: Form>(
    keep: &mut K,
    pool: &mut P,
    disk: &mut D,
    lot: &Lot,
    inode: &mut Inode,
    count: u32,
) -> Result<u32, OpFault>
    // The lot lies on the disk, the keep can hold what a growth puts, and the map can grow.
    requires sited { is_sited lot.now (D.state disk.old).size ≡ true }
    requires room { 6 ≤ K.room keep.old }
    requires short { count < longest }
    // The map has one block more, the one that it answers; what it took are data places.
    ensures grown { AsShown K.View lot.now keep.old disk.old keep.new disk.new (λ old new.
        IfOk result (Grown lot.now old new inode.old inode.new count)) }
    ensures data { IfOk result (λ a. is_data lot.now a ≡ true) }
    ensures single { OnOk result (12 ≤ count → is_data lot.now inode.new.single ≡ true) }
    // What the inode in hand became.
    ensures fields { IfOk result (λ a. inode.new ≡ widened inode.old count a inode.new.single) }
    ensures kept { OnErr result (inode.new ≡ inode.old) }
    // Which blocks it put, where it grew and where it failed.
    ensures puts { IfOk result (λ a. Puts K.View lot.now true (growth_puts count a inode.new.single) keep.old disk.old keep.new disk.new) }
    ensures broken { OnErr result (GrowthFailed K.View lot.now inode.old count keep.old disk.old keep.new disk.new) }
    // What stays as it was: each inode, the data blocks and the other maps; and what the keep and the disk spent.
    ensures stays { AsShown K.View lot.now keep.old disk.old keep.new disk.new (λ old new.
        Stays lot.now old new (indirect_of inode.old count)) }
    ensures others { AsShown K.View lot.now keep.old disk.old keep.new disk.new (λ old new.
        OthersStay lot.now old new inode.old count) }
    ensures spent { Spent D.Disk K.View lot.now 6 keep.old disk.old keep.new disk.new }
    // It has no space exactly where too few blocks are free.
    ensures exact { IfShown K.View lot.now keep.old disk.old (λ old.
        free_count false lot.now old < needs count → IfErr result IsShortFault) }
    ensures none { IsErrOf result NoSpace → IfShown K.View lot.now keep.old disk.old (λ old.
        free_count false lot.now old < needs count) }
    // Damage that it names is there.
    ensures full { IsErrOf result (Damaged Counts) → IfShown K.View lot.now keep.old disk.old (λ old.
        2 ^ 32 ≤ counted false old + needs count) }
    ensures unreserved { IsErrOf result (Damaged Bitmap)
        → IfShown K.View lot.now keep.old disk.old (λ old. ¬ Reserved lot.now old) }
    ensures pointer { IsErrOf result (Damaged Pointer) → (12 < count)
        × (is_data lot.now inode.old.single ≡ false) }
    // Where it has no space or no indirect block, it only looked.
    ensures looked { IsErrOf result NoSpace
        → Looked D.Disk K.View lot.now keep.old disk.old keep.new disk.new }
    ensures unmoved { IsErrOf result (Damaged Pointer)
        → Looked D.Disk K.View lot.now keep.old disk.old keep.new disk.new }
    // Which refusals there are, and when a fault of the disk comes.
    ensures faults { IfErr result IsGrowFault }
    ensures failed { Caused D.state FaultDisk result disk.old disk.new }
{
    if count < 12 {
        let taken = pool.take_block(keep, disk, lot)?;
        set_direct(&mut inode.direct, count, taken);
        return Ok(taken);
    }
    let mut block = [0; 1024];
    if count == 12 {
        if pool.free_blocks(keep, disk, lot)? < 2 {
            return Err(OpFault::NoSpace);
        }
        let (first, indirect) = take_two(keep, pool, disk, lot)?;
        write_u32(&mut block, 0, first);
        store(keep, disk, lot, indirect, &block)?;
        inode.single = indirect;
        return Ok(first);
    }
    let single = checked(lot, inode.single)?;
    fetch(keep, disk, lot, single, &mut block)?;
    let next = pool.take_block(keep, disk, lot)?;
    write_u32(&mut block, 4 * (count - 12) as usize, next);
    store(keep, disk, lot, single, &block)?;
    Ok(next)
}
