//! The loop of a session.
ghost use Rattle.std.specs.Prelude.{◌≡◌, ◌≤◌, ◌+◌, ◌⊎◌, [], IfOk, IfErr};
ghost use Rattle.tree_spec.specs.World.{World};
ghost use Rattle.ice_run.specs.Causes.{GoesOn, LoopCause};
ghost use Rattle.ice_run.specs.Scripts.{longest_script};
ghost use Rattle.ice_run.specs.Servings.{Fed, Passes, Served};
ghost use Rattle.ice_run.specs.Sessions.{IsReady};
ghost use Rattle.ice_volume.specs.Volumes.{HasRoom, StandsFor};

use crate::intake::{LIMIT, PIECE, take_piece};
use crate::session::{Session, close, feed_all};
use ice_base::{Host, Status};
use ice_volume::Volume;

/// Takes a piece of the script and answers the lines that end in it. Says how many bytes came: 0 at the end of the input.
/// An `Err` is how the session ends: Source, Sink, Disk, or Script where the script has a byte too many.
fn pass<H: Host>(
    host: &mut H,
    volume: &mut Volume,
    session: &mut Session,
    piece: &mut [u8; 4096],
    taken: u32,
) -> Result<usize, Status>
    requires limit { taken ≤ longest_script }
    requires ready { IsReady volume.old (H.state host.old) session.old.reader }
    // The disk is the same one, and no count of faults falls; why the session ends.
    ensures on { GoesOn (H.state host.old) (H.state host.new) }
    ensures cause { IfErr result (λ status. LoopCause status (H.state host.old) (H.state host.new)) }
    // The session may go on, with no more bytes than a script may have.
    ensures count { IfOk result (λ n. taken + n ≤ longest_script) }
    ensures ready { IfOk result (λ n. IsReady volume.new (H.state host.new) session.new.reader) }
    // From any world, the lines that end in the piece are answered, or the session has ended.
    ensures passes { (w : World) (start : H) → Fed H.state H.left w start taken host.old volume.old session.old.reader
        → Passes H.state H.left w start taken result host.new volume.new session.new.reader }
{
    let count = match take_piece(host, piece, taken) {
        Ok(count) => count,
        Err(_) => return Err(Status::Source),
    };
    if count > 0 && taken == LIMIT {
        return Err(Status::Script);
    }
    match feed_all(host, volume, session, &piece[..count]) {
        Ok(()) => Ok(count),
        Err(status) => Err(status),
    }
}

/// Takes the script to its end and answers each line of it.
pub(crate) fn serve<H: Host>(host: &mut H, volume: &mut Volume, session: &mut Session) -> Status
    requires { IsReady volume.old (H.state host.old) session.old.reader }
    // The disk is the same one, and no count of faults falls; why the session ended.
    ensures on { GoesOn (H.state host.old) (H.state host.new) }
    ensures cause { (result ≡ Status.Done) ⊎ LoopCause result (H.state host.old) (H.state host.new) }
    // At the end of the script the disk has all blocks of the volume still.
    ensures room { result ≡ Status.Done → HasRoom volume.new (H.state host.new) }
    // From the world that the volume and the disk stand for, how the session ended.
    ensures served { (w : World) → StandsFor volume.old (H.state host.old) w → session.old.reader.text ≡ []
        → Served H.state H.left w host.old result volume.new host.new }
{
    let mut piece = [0; PIECE];
    let mut taken: u32 = 0;
    loop {
        match pass(host, volume, session, &mut piece, taken) {
            Ok(0) => break,
            Ok(count) => taken += count as u32,
            Err(status) => return status,
        }
    }
    match close(host, volume, session) {
        Ok(()) => Status::Done,
        Err(status) => status,
    }
}
