//! The blocks of an inode's map.
ghost use Rattle.std.specs.Prelude.{◌≡◌, ◌≢◌, ◌≤◌, ◌<◌, true, false, OnOk, OnErr, IfOk, IfErr, IsErrOf};
ghost use Rattle.ice_base.specs.Disk.{Caused};
ghost use Rattle.ice_base.specs.Lots.{is_sited};
ghost use Rattle.ice_base.specs.Used.{is_data};
ghost use Rattle.ice_base.specs.Views.{Looked, IfShown};
ghost use Rattle.ice_base.specs.declared.fault.OpFault.TheVariants.{Disk as FaultDisk, Damaged};
ghost use Rattle.ice_base.specs.declared.fault.Rule.TheVariants.{Pointer};
ghost use Rattle.ice_map.specs.Faults.{IsLookFault};
ghost use Rattle.ice_map.specs.Maps.{longest, nth_block, leads};

use crate::codec::Inode;
use ice_base::{Disk, Form, Lot, OpFault, Rule, View, fetch, read_u32};

#[tactic(auto, unfolding(ice_base::specs::Used::is_data))]
fn is_data_place(lot: &Lot, at: u32) -> bool
    ensures { result ≡ is_data lot.now at }
{
    at < 256 * lot.len() as u32 && at % 256 >= 9
}

/// A pointer that is a data place of the lot. Damaged: it is none.
pub fn checked(lot: &Lot, at: u32) -> Result<u32, OpFault>
    ensures same { IfOk result (λ a. a ≡ at) }
    ensures data { OnOk result (is_data lot.now at ≡ true) }
    ensures damaged { OnErr result (is_data lot.now at ≡ false) }
    ensures faults { IfErr result (λ e. e ≡ Damaged Pointer) }
{
    if is_data_place(lot, at) {
        Ok(at)
    } else {
        Err(OpFault::Damaged(Rule::Pointer))
    }
}

/// Block `n` of the map, counted from 0. Damaged: it is no data place, or the indirect block that names it is none.
#[tactic(auto, using(crate::proofs::MapLaws::nth_laws, ice_base::proofs::LotLaws::address_laws, ice_base::proofs::UsedLaws::group_laws))]
pub fn nth<D: Disk, V: View<D>, F: Form>(
    view: &mut V,
    disk: &mut D,
    lot: &Lot,
    inode: &Inode,
    n: u32,
) -> Result<u32, OpFault>
    requires sited { is_sited lot.now (D.state disk.old).size ≡ true }
    requires short { n < longest }
    ensures block { IfShown V.View lot.now view.old disk.old (λ old.
        IfOk result (λ a. a ≡ nth_block old inode.now n)) }
    ensures data { IfOk result (λ a. is_data lot.now a ≡ true) }
    ensures good { IfShown V.View lot.now view.old disk.old (λ old.
        OnOk result (leads lot.now old inode.now n ≡ true)) }
    ensures damaged { IsErrOf result (Damaged Pointer) → IfShown V.View lot.now view.old disk.old (λ old.
        leads lot.now old inode.now n ≡ false) }
    ensures looked { Looked D.Disk V.View lot.now view.old disk.old view.new disk.new }
    ensures faults { IfErr result IsLookFault }
    ensures failed { Caused D.state FaultDisk result disk.old disk.new }
{
    if n < 12 {
        return checked(lot, inode.direct[n as usize]);
    }
    let single = checked(lot, inode.single)?;
    let mut block = [0; 1024];
    fetch(view, disk, lot, single, &mut block)?;
    checked(lot, read_u32(&block, 4 * (n - 12) as usize))
}
