//! The checker: whether the blocks of a lot read as a tree, and if not, a rule that they break.
#![tactic(auto)]

ghost use Rattle.std.specs.Prelude.{◌≡◌, ℕ, true, IfOk, IfErr};
ghost use Rattle.ice_base.specs.Disk.{Caused};
ghost use Rattle.ice_base.specs.Lots.{is_sited};
ghost use Rattle.ice_base.specs.Views.{Looked, IfShown};
ghost use Rattle.tree_spec.specs.Costs.{Form, form_of};
ghost use Rattle.tree_spec.specs.Trees.{Tree};
ghost use Rattle.ice_reads.specs.Recovers.{MapRecovers};
ghost use Rattle.ice_check.specs.Shown.{IsDisk, IsCheckFault, Named, Sums};
ghost use Rattle.ice_check.specs.declared.fault.CheckFault.TheVariants.{Disk as FaultDisk};

mod bits;
mod compare;
mod fault;
mod inodes;
mod lots;
mod marks;
mod names;
mod reads;
mod rows;
mod walk;
mod whole;

pub use fault::{CheckFault, Summary};
use ice_base::{Disk, Lot, View};
pub use lots::check_lot;
use whole::{check_blank, read_sub_super};

/// Checks the blocks of a lot as a view shows them. It writes nothing and takes no memory.
/// Ok says the cost of the tree in blocks, its nodes and the count of accepted commands. Damaged names a rule that the blocks break:
/// the first broken one of Magic, Version, Slot, Mode, Done, else any broken one of those that speak of the tree.
pub fn check<D: Disk, V: View<D>>(
    view: &mut V,
    disk: &mut D,
    lot: &Lot,
) -> Result<Summary, CheckFault>
    requires sited { is_sited lot.now (D.state disk.old).size ≡ true }
    // Where the view shows what the lot holds, the answer is Ok exactly where its map recovers a tree, but for a fault of the disk.
    ensures recovers { IfShown V.View lot.now view.old disk.old (λ m. IfOk result (Sums lot.now m)) }
    ensures exact { (f : Form) (mode k : ℕ) (t : Tree) → f ≡ form_of f.version
        → IfShown V.View lot.now view.old disk.old (λ m. MapRecovers f mode lot.now m t k → IfErr result IsDisk) }
    // A rule that is named may be named.
    ensures named { IfShown V.View lot.now view.old disk.old (λ m. IfErr result (Named lot.now m)) }
    // Whatever the view shows, nothing of it changes, the refused header is never named, and a fault of the disk has its cause.
    ensures looked { Looked D.Disk V.View lot.now view.old disk.old view.new disk.new }
    ensures faults { IfErr result IsCheckFault }
    ensures failed { Caused D.state FaultDisk result disk.old disk.new }
{
    let sub = read_sub_super(view, disk, lot)?;
    check_blank::<D, V, 4096, 16384>(view, disk, lot, &sub)?;
    Ok(Summary {
        blocks: sub.blocks,
        nodes: sub.nodes,
        done: sub.done,
    })
}
