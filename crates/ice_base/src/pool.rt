//! The free blocks and inodes of a lot.
ghost use Rattle.std.specs.Prelude.{is_ok, ◌≡◌, ◌≤◌, ◌<◌, ◌-◌, ◌*◌, ◌^◌, true, false, [], ◌∷◌, OnOk, OnErr, IfOk, IfErr, IsErrOf, length};
ghost use Rattle.ice_base.specs.Disk.{Caused};
ghost use Rattle.ice_base.specs.Lots.{is_sited, sub_address};
ghost use Rattle.ice_base.specs.Spare.{lacks, FitsAny};
ghost use Rattle.ice_base.specs.Views.{Looked, Spent, AsShown, IfShown};
ghost use Rattle.ice_base.specs.Used.{used, AllUsed, free_count, is_data, Reserved, counted, bitmap_of};
ghost use Rattle.ice_base.specs.Pools.{TookBlock, TookInode, GaveBlock, GaveInode, PutsFor, PutsInOne};
ghost use Rattle.ice_base.specs.Faults.{IsDiskFault, IsSpaceFault, IsNodesFault, IsTakeBlockFault, IsTakeInodeFault, IsGiveFault};
ghost use Rattle.ice_base.specs.declared.fault.Rule.{Rule};
ghost use Rattle.ice_base.specs.declared.fault.Rule.TheVariants.{Counts, Bitmap};
ghost use Rattle.ice_base.specs.declared.fault.OpFault.TheVariants.{Disk as FaultDisk, Damaged, NoSpace, NoNodes};

use crate::{Disk, Keep, Lot, OpFault};

/// The free blocks and inodes of a lot, as the bitmaps of a keep's map say.
/// A take or a give puts the sub-super block and the bitmap block of one group. Where it refuses, but for the disk, it puts nothing.
pub trait Pool<D: Disk, K: Keep<D>> {
    /// Takes the least free block. NoSpace, exactly: none is free. Damaged: it is no data place, or the count of used blocks can't grow.
    fn take_block(&mut self, keep: &mut K, disk: &mut D, lot: &Lot) -> Result<u32, OpFault>
        requires sited { is_sited lot.now (D.state disk.old).size ≡ true }
        requires room { FitsAny (K.held keep.old) (K.room keep.old) lot.now }
        ensures took { AsShown K.View lot.now keep.old disk.old keep.new disk.new (λ old new.
            IfOk result (TookBlock old new)) }
        ensures data { IfOk result (λ a. is_data lot.now a ≡ true) }
        ensures puts { IfOk result (λ a. PutsFor K.View lot.now true false a keep.old disk.old keep.new disk.new) }
        ensures broken { OnErr result (PutsInOne K.View lot.now keep.old disk.old keep.new disk.new) }
        ensures spent { Spent D.Disk K.View lot.now 2 keep.old disk.old keep.new disk.new }
        ensures exact { IfShown K.View lot.now keep.old disk.old (λ old.
            AllUsed false lot.now old → IfErr result IsSpaceFault) }
        ensures none { IsErrOf result NoSpace
            → IfShown K.View lot.now keep.old disk.old (λ old. AllUsed false lot.now old) }
        ensures full { IsErrOf result (Damaged Counts) → IfShown K.View lot.now keep.old disk.old (λ old.
            counted false old ≡ 2 ^ 32 - 1) }
        ensures unreserved { IsErrOf result (Damaged Bitmap)
            → IfShown K.View lot.now keep.old disk.old (λ old. ¬ Reserved lot.now old) }
        ensures looked { IsErrOf result NoSpace
            → Looked D.Disk K.View lot.now keep.old disk.old keep.new disk.new }
        ensures looked_damaged { (rule : Rule) → IsErrOf result (Damaged rule)
            → Looked D.Disk K.View lot.now keep.old disk.old keep.new disk.new }
        ensures faults { IfErr result IsTakeBlockFault }
        ensures failed { Caused D.state FaultDisk result disk.old disk.new };

    /// Gives a data block back. Damaged: it is not marked used, or the count of used blocks is 0.
    fn give_block(&mut self, keep: &mut K, disk: &mut D, lot: &Lot, at: u32) -> Result<(), OpFault>
        requires sited { is_sited lot.now (D.state disk.old).size ≡ true }
        requires address { is_data lot.now at ≡ true }
        requires room { lacks (K.held keep.old) (sub_address ∷ bitmap_of false at ∷ []) ≤ K.room keep.old }
        ensures gave { AsShown K.View lot.now keep.old disk.old keep.new disk.new (λ old new.
            OnOk result (GaveBlock old new at)) }
        ensures puts { PutsFor K.View lot.now (is_ok result) false at keep.old disk.old keep.new disk.new }
        ensures spent { Spent D.Disk K.View lot.now 2 keep.old disk.old keep.new disk.new }
        ensures zero { IsErrOf result (Damaged Counts)
            → IfShown K.View lot.now keep.old disk.old (λ old. counted false old ≡ 0) }
        ensures unused { IsErrOf result (Damaged Bitmap)
            → IfShown K.View lot.now keep.old disk.old (λ old. used false old at ≡ false) }
        ensures looked_damaged { (rule : Rule) → IsErrOf result (Damaged rule)
            → Looked D.Disk K.View lot.now keep.old disk.old keep.new disk.new }
        ensures faults { IfErr result IsGiveFault }
        ensures failed { Caused D.state FaultDisk result disk.old disk.new };

    /// Takes the least free inode. NoNodes, exactly: none is free. Damaged: the count of used inodes can't grow.
    fn take_inode(&mut self, keep: &mut K, disk: &mut D, lot: &Lot) -> Result<u32, OpFault>
        requires sited { is_sited lot.now (D.state disk.old).size ≡ true }
        requires room { FitsAny (K.held keep.old) (K.room keep.old) lot.now }
        ensures took { AsShown K.View lot.now keep.old disk.old keep.new disk.new (λ old new.
            IfOk result (TookInode old new)) }
        ensures number { IfOk result (λ i. i < 64 * length lot.now.groups) }
        ensures puts { IfOk result (λ a. PutsFor K.View lot.now true true a keep.old disk.old keep.new disk.new) }
        ensures broken { OnErr result (PutsInOne K.View lot.now keep.old disk.old keep.new disk.new) }
        ensures spent { Spent D.Disk K.View lot.now 2 keep.old disk.old keep.new disk.new }
        ensures exact { IfShown K.View lot.now keep.old disk.old (λ old.
            AllUsed true lot.now old → IfErr result IsNodesFault) }
        ensures none { IsErrOf result NoNodes
            → IfShown K.View lot.now keep.old disk.old (λ old. AllUsed true lot.now old) }
        ensures full { IsErrOf result (Damaged Counts) → IfShown K.View lot.now keep.old disk.old (λ old.
            counted true old ≡ 2 ^ 32 - 1) }
        ensures looked { IsErrOf result NoNodes
            → Looked D.Disk K.View lot.now keep.old disk.old keep.new disk.new }
        ensures looked_damaged { (rule : Rule) → IsErrOf result (Damaged rule)
            → Looked D.Disk K.View lot.now keep.old disk.old keep.new disk.new }
        ensures faults { IfErr result IsTakeInodeFault }
        ensures failed { Caused D.state FaultDisk result disk.old disk.new };

    /// Gives an inode back. Damaged: it is not marked used, or the count of used inodes is 0.
    fn give_inode(
        &mut self,
        keep: &mut K,
        disk: &mut D,
        lot: &Lot,
        inode: u32,
    ) -> Result<(), OpFault>
        requires sited { is_sited lot.now (D.state disk.old).size ≡ true }
        requires number { inode < 64 * length lot.now.groups }
        requires room { lacks (K.held keep.old) (sub_address ∷ bitmap_of true inode ∷ []) ≤ K.room keep.old }
        ensures gave { AsShown K.View lot.now keep.old disk.old keep.new disk.new (λ old new.
            OnOk result (GaveInode old new inode)) }
        ensures puts { PutsFor K.View lot.now (is_ok result) true inode keep.old disk.old keep.new disk.new }
        ensures spent { Spent D.Disk K.View lot.now 2 keep.old disk.old keep.new disk.new }
        ensures zero { IsErrOf result (Damaged Counts)
            → IfShown K.View lot.now keep.old disk.old (λ old. counted true old ≡ 0) }
        ensures unused { IsErrOf result (Damaged Bitmap)
            → IfShown K.View lot.now keep.old disk.old (λ old. used true old inode ≡ false) }
        ensures looked_damaged { (rule : Rule) → IsErrOf result (Damaged rule)
            → Looked D.Disk K.View lot.now keep.old disk.old keep.new disk.new }
        ensures faults { IfErr result IsGiveFault }
        ensures failed { Caused D.state FaultDisk result disk.old disk.new };

    /// Counts the blocks that are not marked used.
    fn free_blocks(&mut self, keep: &mut K, disk: &mut D, lot: &Lot) -> Result<u32, OpFault>
        requires { is_sited lot.now (D.state disk.old).size ≡ true }
        ensures count { IfShown K.View lot.now keep.old disk.old (λ old.
            IfOk result (λ n. n ≡ free_count false lot.now old)) }
        ensures looked { Looked D.Disk K.View lot.now keep.old disk.old keep.new disk.new }
        ensures faults { IfErr result IsDiskFault }
        ensures failed { Caused D.state FaultDisk result disk.old disk.new };

    /// Counts the inodes that are not marked used.
    fn free_inodes(&mut self, keep: &mut K, disk: &mut D, lot: &Lot) -> Result<u32, OpFault>
        requires { is_sited lot.now (D.state disk.old).size ≡ true }
        ensures count { IfShown K.View lot.now keep.old disk.old (λ old.
            IfOk result (λ n. n ≡ free_count true lot.now old)) }
        ensures looked { Looked D.Disk K.View lot.now keep.old disk.old keep.new disk.new }
        ensures faults { IfErr result IsDiskFault }
        ensures failed { Caused D.state FaultDisk result disk.old disk.new };
}
