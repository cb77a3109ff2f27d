//! The top call.
ghost use Rattle.std.specs.Prelude.{◌≡◌, ◌⊎◌, ◌<◌, ◌↔◌, ℕ, List, [], true, false, None, Some};
ghost use Rattle.ice_base.specs.Disk.{Image, Below, Everywhere};
ghost use Rattle.ice_base.specs.Frames.{Within, LeavesOnly, Settled};
ghost use Rattle.ice_layout.specs.Geometry.{total_blocks};
ghost use Rattle.ice_layout.specs.Supers.{is_geometry, IsFreshImage};
ghost use Rattle.ice_layout.specs.declared.superblock.Super.{Super as Geometry};
ghost use Rattle.tree_spec.specs.World.{World};
ghost use Rattle.ice_images.specs.Opening.{Opens, empty_world};
ghost use Rattle.ice_run.specs.Behaving.{Behaves};
ghost use Rattle.ice_run.specs.Causes.{FormatCause};
ghost use Rattle.ice_volume.specs.Sessions.{Starts};
ghost use Rattle.ice_volume.specs.Volumes.{StandsFor};
ghost use Rattle.ice_run.specs.Causes.{GoesOn, LoopCause};
ghost use Rattle.ice_run.specs.Clauses.{Ends};
ghost use Rattle.ice_run.specs.Servings.{Concluded};
ghost use Rattle.ice_run.specs.Sessions.{IsReady};
ghost use Rattle.ice_run.specs.Crashes.{CrashLeaves, DamageLeaves};
ghost use Rattle.ice_run.specs.Forms.{request_of, Formats, Runs};
ghost use Rattle.ice_run.specs.Scripts.{script_lines};
ghost use Rattle.ice_run.specs.Tops.{FormatsImage};

use crate::format::format;
use crate::serve::serve;
use crate::session::Session;
use crate::words::{Form, read_form};
use ice_base::{Disk, Host, Status, Words};
use ice_layout::{Super, total};
use ice_volume::{AttachFault, Volume};
use std::alloc::Global;

/// Makes the fresh image where the disk is large enough.
fn format_image<D: Disk>(disk: &mut D, sup: &Super) -> Status
    requires { is_geometry sup.now ≡ true }
    // Blocks 0 to 31 alone change; why it ended so, and that too few blocks are left as they are.
    ensures within { Within D.state D.left (Below 32) disk.old disk.new }
    ensures cause { FormatCause sup.now result (D.state disk.old) (D.state disk.new) }
    ensures room { (D.state disk.old).size < total_blocks sup.now.slots sup.now.groups → (result ≡ Status.Small) × (disk.new ≡ disk.old) }
    // At Done the image is the fresh one, and a session may start from it.
    ensures fresh { (D.state disk.old).tells ≡ true → result ≡ Status.Done
        → IsFreshImage sup.now (D.state disk.new).now × Settled Everywhere (D.state disk.new) }
    ensures starts { (D.state disk.old).tells ≡ true → result ≡ Status.Done → Starts (D.state disk.new) (empty_world sup.now) }
    ensures opens { (D.state disk.old).tells ≡ true → result ≡ Status.Done → Opens (D.state disk.new).now (empty_world sup.now) }
{
    if disk.blocks() < total(sup.slots, sup.groups) {
        return Status::Small;
    }
    match format(disk, sup) {
        Ok(()) => Status::Done,
        Err(_) => Status::Disk,
    }
}

/// Answers the script, and unmounts every cube where it came to its end.
fn serve_and_finish<H: Host>(host: &mut H, volume: &mut Volume, session: &mut Session) -> Status
    requires { IsReady volume.old (H.state host.old) session.old.reader }
    // The disk is the same one, and no count of faults falls; why the session ended.
    ensures on { GoesOn (H.state host.old) (H.state host.new) }
    ensures cause { (result ≡ Status.Done) ⊎ LoopCause result (H.state host.old) (H.state host.new) }
    // From the world that the volume and the disk stand for, how the session ended.
    ensures concluded { (w : World) → StandsFor volume.old (H.state host.old) w → session.old.reader.text ≡ []
        → Concluded H.state H.left w host.old result host.new }
{
    match serve(host, volume, session) {
        Status::Done => match volume.finish(host) {
            Ok(()) => Status::Done,
            Err(_) => Status::Disk,
        },
        status => status,
    }
}

/// Opens the volume and answers the script.
fn open_and_serve<H: Host>(alloc: Global, host: &mut H, session: &mut Session) -> Status
    requires text { session.old.reader.text ≡ [] }
    requires open_line { session.old.reader.ended ≡ false }
    // On any host, whatever its image is.
    ensures behaves { Behaves result (H.state host.old) (H.state host.new) }
    ensures memory { result ≡ Status.Memory → host.new ≡ host.old }
    ensures no_block { (H.state host.old).size ≡ 0 → ((result ≡ Status.Small) ⊎ (result ≡ Status.Memory)) × (host.new ≡ host.old) }
    // From each world that the image opens: how the session ends, and what each crash leaves.
    ensures ends { (w : World) → Starts (H.state host.old) w → Ends result w (H.state host.old) (H.state host.new) }
    ensures crash { (w : World) → Starts (H.state host.old) w
        → LeavesOnly H.left host.old host.new (CrashLeaves (H.state host.old) w (script_lines (H.state host.old).streams.intake)) }
{
    let mut volume = match Volume::attach(alloc, host) {
        Ok(volume) => volume,
        Err(AttachFault::Small) => return Status::Small,
        Err(AttachFault::Layout(_)) => return Status::Volume,
        Err(AttachFault::Disk) => return Status::Disk,
        Err(AttachFault::Memory) => return Status::Memory,
    };
    serve_and_finish(host, &mut volume, session)
}

/// Makes room for a session, and runs it.
fn run_session<H: Host>(alloc: Global, host: &mut H) -> Status
    // On any host, whatever its image is.
    ensures behaves { Behaves result (H.state host.old) (H.state host.new) }
    ensures memory { result ≡ Status.Memory → host.new ≡ host.old }
    ensures no_block { (H.state host.old).size ≡ 0 → ((result ≡ Status.Small) ⊎ (result ≡ Status.Memory)) × (host.new ≡ host.old) }
    // From each world that the image opens: how the session ends, and what each crash leaves.
    ensures ends { (w : World) → Starts (H.state host.old) w → Ends result w (H.state host.old) (H.state host.new) }
    ensures crash { (w : World) → Starts (H.state host.old) w → (crashed : Image) (out : List ℕ)
        → H.left host.new (H.state host.old).clock crashed out
        → CrashLeaves (H.state host.old) w (script_lines (H.state host.old).streams.intake) crashed out }
{
    match Session::new(alloc) {
        Ok(session) => {
            let mut session = session;
            open_and_serve(alloc, host, &mut session)
        }
        Err(_) => Status::Memory,
    }
}

/// Does what the words ask for on the host, and says how that ended.
///
/// `format IMAGE --slots S --groups N`, S of 1 to 16 and N of 1 to 1,024, writes blocks 0 to 31 of a fresh image and settles them.
/// `run IMAGE` opens the volume and answers the script. The reply to a line is given whole before the next line is looked at.
/// A change of the tables that failed from the first write of its gate on has no reply, and ends the session with `Disk`.
/// Other words are `Usage`. `Usage` and `Memory` come before any call on the host.
pub fn run<H: Host>(alloc: Global, words: &Words, host: &mut H) -> Status
    // Which words there are, and when nothing is done.
    ensures usage { (result ≡ Status.Usage) ↔ (request_of words.now ≡ None) }
    ensures untouched { (result ≡ Status.Usage) ⊎ (result ≡ Status.Memory) → host.new ≡ host.old }
    // The making of an image.
    ensures format { (image : List ℕ) (sup : Geometry) → request_of words.now ≡ Some (Formats image sup)
        → FormatsImage H.state H.left sup result host.old host.new }
    // A session on any image.
    ensures behaves { (image : List ℕ) → request_of words.now ≡ Some (Runs image) → Behaves result (H.state host.old) (H.state host.new) }
    ensures no_block { (image : List ℕ) → request_of words.now ≡ Some (Runs image) → (H.state host.old).size ≡ 0
        → ((result ≡ Status.Small) ⊎ (result ≡ Status.Memory)) × (host.new ≡ host.old) }
    // A session from each world that the image opens: how it ends, what each crash since its start leaves,
    // and what is left where the lot of any one cube was damaged then.
    ensures ends { (image : List ℕ) (w : World) → request_of words.now ≡ Some (Runs image)
        → Starts (H.state host.old) w → Ends result w (H.state host.old) (H.state host.new) }
    ensures crash { (image : List ℕ) (w : World) → request_of words.now ≡ Some (Runs image)
        → Starts (H.state host.old) w → (crashed : Image) (out : List ℕ) → H.left host.new (H.state host.old).clock crashed out
        → CrashLeaves (H.state host.old) w (script_lines (H.state host.old).streams.intake) crashed out }
    ensures damage { (image : List ℕ) (w : World) → request_of words.now ≡ Some (Runs image)
        → Starts (H.state host.old) w → (crashed : Image) (out : List ℕ) → H.left host.new (H.state host.old).clock crashed out
        → DamageLeaves (H.state host.old).streams.aside w (script_lines (H.state host.old).streams.intake) crashed out }
{
    match read_form(words) {
        Some(Form::Format { image: _, sup }) => format_image(host, &sup),
        Some(Form::Run { image: _ }) => run_session(alloc, host),
        None => Status::Usage,
    }
}
