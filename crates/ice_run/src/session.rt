//! A session: lines are taken, answered, and their replies given.
ghost use Rattle.std.specs.Prelude.{◌≡◌, ◌+◌, ◌++◌, ◌∷◌, [], ℕ, List, true, false, OnOk, IfOk, IfErr};
ghost use Rattle.tree_spec.specs.Lines.{Line};
ghost use Rattle.tree_spec.specs.World.{World};
ghost use Rattle.ice_script.specs.Grammar.{line_of};
ghost use Rattle.ice_run.specs.Causes.{GoesOn, LoopCause};
ghost use Rattle.ice_run.specs.Scripts.{script_lines, ended_lines};
ghost use Rattle.ice_run.specs.Sessions.{IsLive, IsReady, SoFar, BreaksOff, Serving};
ghost use Rattle.ice_volume.specs.Lines.{AnswersLine};
ghost use Rattle.ice_volume.specs.Volumes.{HasRoom};

use ice_base::{Disk, Host, Status, give_all};
use ice_script::LineReader;
use ice_text::{Out, write_reply};
use ice_volume::{AreaFault, Volume};
use std::alloc::{AllocError, Global};
use tree_spec::{Reply, Room};

/// What a session works in. No line takes memory.
#[derive(Drop)]
pub(crate) struct Session {
    pub(crate) reader: LineReader,
    room: Room,
    out: Out,
}

impl Session {
    pub(crate) fn new(alloc: Global) -> Result<Session, AllocError>
        ensures text { IfOk result (λ s. s.reader.text ≡ []) }
        ensures state { IfOk result (λ s. s.reader.ended ≡ false) }
    {
        let reader = LineReader::new(alloc)?;
        let room = Room::new(alloc)?;
        let out = Out::new(alloc)?;
        Ok(Session { reader, room, out })
    }
}

/// The reply to the line that stands ready.
fn reply_to<D: Disk>(
    disk: &mut D,
    volume: &mut Volume,
    reader: &mut LineReader,
    room: &mut Room,
) -> Result<Reply, AreaFault>
    requires { HasRoom volume.old (D.state disk.old) }
    ensures { AnswersLine D.state D.left (line_of reader.old.text) volume.old volume.new room.new result disk.old disk.new }
{
    room.clear();
    match reader.command() {
        Ok(command) => volume.line(disk, &command, room),
        Err(refusal) => Ok(Err(refusal)),
    }
}

/// Answers the line that stands ready, and gives the whole text of the reply.
/// An `Err` is how the session ends: Sink, or Disk where a change of the tables failed late, which has no reply.
pub(crate) fn answer<H: Host>(
    host: &mut H,
    volume: &mut Volume,
    session: &mut Session,
) -> Result<(), Status>
    requires { IsLive volume.old (H.state host.old) }
    // The disk is the same one, no count of faults falls, nothing is taken, and a fault ends the session.
    ensures on { GoesOn (H.state host.old) (H.state host.new) }
    ensures intake { (H.state host.new).streams.intake ≡ (H.state host.old).streams.intake }
    ensures cause { IfErr result (λ status. LoopCause status (H.state host.old) (H.state host.new)) }
    // The session may go on.
    ensures ready { OnOk result (IsReady volume.new (H.state host.new) session.new.reader) }
    ensures text { OnOk result (session.new.reader.text ≡ []) }
    // From any world, one more line of the script is answered, or it is the one that ended the session.
    ensures answered { (w : World) (script lines ahead : List Line) (start : H)
        → script ≡ lines ++ line_of session.old.reader.text ∷ ahead
        → SoFar H.state H.left w script volume.old lines start host.old
        → OnOk result (SoFar H.state H.left w script volume.new (lines ++ line_of session.old.reader.text ∷ []) start host.new) }
    ensures broken { (w : World) (script lines ahead : List Line) (start : H)
        → script ≡ lines ++ line_of session.old.reader.text ∷ ahead
        → SoFar H.state H.left w script volume.old lines start host.old
        → IfErr result (λ status. BreaksOff H.state H.left w script status (lines ++ line_of session.old.reader.text ∷ []) start host.new) }
{
    session.out.clear();
    let reply = match reply_to(host, volume, &mut session.reader, &mut session.room) {
        Ok(reply) => reply,
        Err(_) => return Err(Status::Disk),
    };
    write_reply(&reply, &session.room, &mut session.out);
    session.reader.clear();
    match give_all(host, session.out.bytes()) {
        Ok(()) => Ok(()),
        Err(_) => Err(Status::Sink),
    }
}

/// Reads a byte, and answers the line that it ends.
fn feed<H: Host>(
    host: &mut H,
    volume: &mut Volume,
    session: &mut Session,
    byte: u8,
) -> Result<(), Status>
    requires { IsReady volume.old (H.state host.old) session.old.reader }
    // The disk is the same one, no count of faults falls, nothing is taken, and a fault ends the session.
    ensures on { GoesOn (H.state host.old) (H.state host.new) }
    ensures intake { (H.state host.new).streams.intake ≡ (H.state host.old).streams.intake }
    ensures cause { IfErr result (λ status. LoopCause status (H.state host.old) (H.state host.new)) }
    // The session may go on.
    ensures ready { OnOk result (IsReady volume.new (H.state host.new) session.new.reader) }
    // From any world, the lines that end in these bytes are answered, or one of them ended the session.
    ensures served { (w : World) (input taken ahead : List ℕ) (start : H) → input ≡ taken ++ byte ∷ ahead
        → Serving H.state H.left w volume.old input taken start host.old session.old.reader
        → OnOk result (Serving H.state H.left w volume.new input (taken ++ byte ∷ []) start host.new session.new.reader) }
    ensures broken { (w : World) (input taken ahead : List ℕ) (start : H) → input ≡ taken ++ byte ∷ ahead
        → Serving H.state H.left w volume.old input taken start host.old session.old.reader
        → IfErr result (λ status. BreaksOff H.state H.left w (script_lines input) status (ended_lines (taken ++ byte ∷ [])) start host.new) }
{
    if session.reader.push(byte) {
        answer(host, volume, session)
    } else {
        Ok(())
    }
}

/// Reads the bytes of a piece, one after another.
pub(crate) fn feed_all<H: Host>(
    host: &mut H,
    volume: &mut Volume,
    session: &mut Session,
    piece: &[u8],
) -> Result<(), Status>
    requires { IsReady volume.old (H.state host.old) session.old.reader }
    // The disk is the same one, no count of faults falls, nothing is taken, and a fault ends the session.
    ensures on { GoesOn (H.state host.old) (H.state host.new) }
    ensures intake { (H.state host.new).streams.intake ≡ (H.state host.old).streams.intake }
    ensures cause { IfErr result (λ status. LoopCause status (H.state host.old) (H.state host.new)) }
    // The session may go on.
    ensures ready { OnOk result (IsReady volume.new (H.state host.new) session.new.reader) }
    // From any world, the lines that end in these bytes are answered, or one of them ended the session.
    ensures served { (w : World) (input taken ahead : List ℕ) (start : H) → input ≡ taken ++ piece.now ++ ahead
        → Serving H.state H.left w volume.old input taken start host.old session.old.reader
        → OnOk result (Serving H.state H.left w volume.new input (taken ++ piece.now) start host.new session.new.reader) }
    ensures broken { (w : World) (input taken ahead : List ℕ) (start : H) → input ≡ taken ++ piece.now ++ ahead
        → Serving H.state H.left w volume.old input taken start host.old session.old.reader
        → IfErr result (λ status. BreaksOff H.state H.left w (script_lines input) status (ended_lines (taken ++ piece.now)) start host.new) }
{
    for byte in piece {
        match feed(host, volume, session, *byte) {
            Ok(()) => {}
            Err(status) => return Err(status),
        }
    }
    Ok(())
}

/// Answers a last line that no LF ended, where there is one.
pub(crate) fn close<H: Host>(
    host: &mut H,
    volume: &mut Volume,
    session: &mut Session,
) -> Result<(), Status>
    requires { IsReady volume.old (H.state host.old) session.old.reader }
    // The disk is the same one, no count of faults falls, nothing is taken, and a fault ends the session.
    ensures on { GoesOn (H.state host.old) (H.state host.new) }
    ensures intake { (H.state host.new).streams.intake ≡ (H.state host.old).streams.intake }
    ensures cause { IfErr result (λ status. LoopCause status (H.state host.old) (H.state host.new)) }
    // The disk has all blocks of the volume still.
    ensures live { OnOk result (IsLive volume.new (H.state host.new)) }
    // From any world, all lines of the script are answered, or the last one ended the session.
    ensures served { (w : World) (input : List ℕ) (start : H)
        → Serving H.state H.left w volume.old input input start host.old session.old.reader
        → OnOk result (SoFar H.state H.left w (script_lines input) volume.new (script_lines input) start host.new) }
    ensures broken { (w : World) (input : List ℕ) (start : H)
        → Serving H.state H.left w volume.old input input start host.old session.old.reader
        → IfErr result (λ status. BreaksOff H.state H.left w (script_lines input) status (script_lines input) start host.new) }
{
    if session.reader.finish() {
        answer(host, volume, session)
    } else {
        Ok(())
    }
}
