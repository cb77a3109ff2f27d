//! Bytes that are put into one block of a file.
ghost use Rattle.std.specs.Prelude.{is_ok, ◌≡◌, ◌≢◌, ◌≤◌, ◌<◌, ◌+◌, ◌-◌, ◌*◌, ◌⊎◌, max, ℕ, true, false, [], ◌∷◌, OnOk, IfOk, IfErr, length, slice_index};
ghost use Rattle.ice_base.specs.Disk.{Caused};
ghost use Rattle.ice_base.specs.Faults.{IsDiskFault};
ghost use Rattle.ice_base.specs.Lots.{is_sited};
ghost use Rattle.ice_base.specs.Used.{is_data};
ghost use Rattle.ice_base.specs.Views.{Spent, Puts, AsShown, IfShown};
ghost use Rattle.ice_base.specs.declared.fault.OpFault.TheVariants.{Disk as FaultDisk};
ghost use Rattle.ice_map.specs.Faults.{IsGrowFault};
ghost use Rattle.ice_map.specs.Maps.{longest, nth_block};
ghost use Rattle.ice_map.specs.Growth.{Grew, GrowthRefused, InodesStay};
ghost use Rattle.ice_map.specs.Own.{MadeOf};
ghost use Rattle.ice_map.specs.Moves.{HadBlock, due};
ghost use Rattle.ice_file.specs.Writes.{PutPiece};

use ice_base::{Disk, Form, Keep, Lot, OpFault, Pool, View, fetch, store};
use ice_map::{Inode, reach};

fn copy_into(block: &mut [u8; 1024], start: usize, bytes: &[u8])
    requires { start + length bytes.now ≤ 1024 }
    ensures here { (j : ℕ) → start ≤ j → j < start + length bytes.now
        → slice_index block.new j ≡ slice_index bytes.now (j - start) }
    ensures rest { (j : ℕ) → (j < start) ⊎ (start + length bytes.now ≤ j)
        → slice_index block.new j ≡ slice_index block.old j }
{
    block[start..start + bytes.len()].copy_from_slice(bytes);
}

/// Puts bytes into a block from its byte `start` on. The other bytes stay, but those of a fresh block, which are zeros.
#[tactic(auto, using(ice_base::proofs::LotLaws::address_laws, ice_base::proofs::UsedLaws::group_laws, ice_base::proofs::SpareLaws::room_laws))]
fn fill<D: Disk, K: Keep<D>>(
    keep: &mut K,
    disk: &mut D,
    lot: &Lot,
    at: u32,
    start: u32,
    bytes: &[u8],
    fresh: bool,
) -> Result<(), OpFault>
    requires sited { is_sited lot.now (D.state disk.old).size ≡ true }
    requires data { is_data lot.now at ≡ true }
    requires fits { start + length bytes.now ≤ 1024 }
    requires room { 1 ≤ K.room keep.old }
    ensures here { AsShown K.View lot.now keep.old disk.old keep.new disk.new (λ old new.
        OnOk result ((j : ℕ) → start ≤ j → j < start + length bytes.now
        → slice_index (new at) j ≡ slice_index bytes.now (j - start))) }
    ensures rest { AsShown K.View lot.now keep.old disk.old keep.new disk.new (λ old new.
        fresh ≡ false → OnOk result ((j : ℕ) → (j < start) ⊎ (start + length bytes.now ≤ j) → j < 1024
        → slice_index (new at) j ≡ slice_index (old at) j)) }
    ensures puts { Puts K.View lot.now (is_ok result) (at ∷ []) keep.old disk.old keep.new disk.new }
    ensures spent { Spent D.Disk K.View lot.now 1 keep.old disk.old keep.new disk.new }
    ensures faults { IfErr result IsDiskFault }
    ensures failed { Caused D.state FaultDisk result disk.old disk.new }
{
    let mut block = [0; 1024];
    if !fresh && bytes.len() < 1024 {
        fetch(keep, disk, lot, at, &mut block)?;
    }
    copy_into(&mut block, start as usize, bytes);
    store(keep, disk, lot, at, &block)?;
    Ok(())
}

/// Puts bytes into block `k` of a map of `count` blocks from its byte `start` on, as a new block where the map ends there.
#[tactic(auto, using(ice_map::proofs::DueLaws::due_laws))]
pub fn put_piece<D: Disk, K: Keep<D>, P: Pool<D, K>, F: Form>(
    keep: &mut K,
    pool: &mut P,
    disk: &mut D,
    lot: &Lot,
    inode: &mut Inode,
    count: u32,
    k: u32,
    start: u32,
    bytes: &[u8],
) -> Result<(), OpFault>
    requires sited { is_sited lot.now (D.state disk.old).size ≡ true }
    requires room { 7 ≤ K.room keep.old }
    requires order { k ≤ count }
    requires short { k < longest }
    requires fits { start + length bytes.now ≤ 1024 }
    ensures put { AsShown K.View lot.now keep.old disk.old keep.new disk.new (λ old new.
        MadeOf lot.now old inode.old count
        → OnOk result (PutPiece lot.now old new inode.old inode.new count k start bytes.now)) }
    ensures grew { AsShown K.View lot.now keep.old disk.old keep.new disk.new (λ old new.
        OnOk result (Grew lot.now old new inode.old inode.new count (max count (k + 1)))) }
    ensures stays { AsShown K.View lot.now keep.old disk.old keep.new disk.new (λ old new. InodesStay old new) }
    ensures pays { OnOk result (K.room keep.old + due (K.held keep.new) inode.new.single (max count (k + 1))
        ≤ K.room keep.new + due (K.held keep.old) inode.old.single count + 2) }
    ensures spent { Spent D.Disk K.View lot.now 7 keep.old disk.old keep.new disk.new }
    ensures refused { IfShown K.View lot.now keep.old disk.old (λ old.
        IfErr result (GrowthRefused lot.now old inode.old count k)) }
    ensures within { AsShown K.View lot.now keep.old disk.old keep.new disk.new (λ old new.
        k < count → OnOk result ((b : ℕ) → b ≢ nth_block old inode.old k → new b ≡ old b)) }
    ensures faults { IfErr result IsGrowFault }
    ensures failed { Caused D.state FaultDisk result disk.old disk.new }
{
    let at = reach::<D, K, P, F>(keep, pool, disk, lot, inode, count, k)?;
    fill(keep, disk, lot, at, start, bytes, k == count)?;
    Ok(())
}
