//! Pieces of a script, and the limit of its length.
ghost use Rattle.std.specs.Prelude.{◌≡◌, ◌≤◌, ◌<◌, ◌+◌, true, IfOk, OnErr};
ghost use Rattle.ice_base.specs.Disk.{Rose};
ghost use Rattle.ice_base.specs.Host.{SameDisk, Leaves};
ghost use Rattle.ice_run.specs.Scripts.{longest_script};
ghost use Rattle.ice_run.specs.Pieces.{TookOnly, TookPiece};

use ice_base::{Host, SourceFault};

/// The bytes of the longest script.
pub(crate) const LIMIT: u32 = 67_108_864;

/// The bytes that are asked for at once.
pub(crate) const PIECE: usize = 4096;

/// Takes some bytes to the front of the piece: no more than the script may still have, or the one byte that it may not have.
pub(crate) fn take_piece<H: Host>(
    host: &mut H,
    piece: &mut [u8; 4096],
    taken: u32,
) -> Result<usize, SourceFault>
    requires { taken ≤ longest_script }
    ensures disk { SameDisk (H.state host.old) (H.state host.new) }
    ensures leaves { Leaves H.state H.left (λ out. out ≡ (H.state host.old).streams.aside) host.old host.new }
    ensures cause { OnErr result (Rose (H.state host.old).streams.source_faults (H.state host.new).streams.source_faults) }
    ensures only { TookOnly (H.state host.old).streams (H.state host.new).streams }
    ensures count { IfOk result (λ n. (n ≤ 4096) × (taken < longest_script → taken + n ≤ longest_script)
        × (taken ≡ longest_script → n ≤ 1)) }
    ensures bytes { (H.state host.old).tells ≡ true
        → IfOk result (λ n. TookPiece n piece.new (H.state host.old).streams.intake (H.state host.new).streams.intake) }
    ensures none { OnErr result ((H.state host.new).streams.intake ≡ (H.state host.old).streams.intake) }
{
    let left = (LIMIT - taken) as usize;
    let asked = left.clamp(1, PIECE);
    host.take(&mut piece[..asked])
}
