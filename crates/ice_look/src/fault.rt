//! Faults of the calls below as refusals.
ghost use Rattle.std.specs.Prelude.{◌≡◌};
ghost use Rattle.ice_look.specs.Outcomes.{refusal_by};

use ice_base::{OpFault, Rule};
use tree_spec::Refusal;

/// A fault of a call below as a refusal. Want of space or nodes that the quota didn't show is a damaged bitmap.
pub fn refusal_of(fault: OpFault) -> Refusal
    ensures { result ≡ refusal_by fault }
{
    match fault {
        OpFault::Disk => Refusal::Fault,
        OpFault::Damaged(rule) => Refusal::Damaged(rule as u8),
        OpFault::NoSpace => Refusal::Damaged(Rule::Bitmap as u8),
        OpFault::NoNodes => Refusal::Damaged(Rule::Bitmap as u8),
    }
}
