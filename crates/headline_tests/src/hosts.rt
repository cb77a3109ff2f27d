//! What the sessions run on: an image of three slots and six groups.
ghost use Rattle.std.specs.Prelude.{◌≡◌, List, ℕ, Some, IfOk};
ghost use Rattle.ice_run.specs.Forms.{request_of, Runs};

use disk_mem::MemHost;
use ice_base::{Disk, Host, Status, Words};
use ice_headline::two_sessions;
use ice_layout::total;
use ice_run::run;
use std::alloc::Global;
use std::process::Abort;
use std::test::Fail;

/// The words of a session.
#[tactic(auto, unfolding(ice_run::specs::Forms::request_of))]
fn run_words(alloc: Global) -> Result<Words, Fail>
    ensures { IfOk result (λ w. (image : List ℕ) × (request_of w ≡ Some (Runs image))) }
{
    let mut words = Words::new(alloc);
    words.push("run")?;
    words.push("img")?;
    Ok(words)
}

/// How both sessions end.
pub(crate) fn both(
    alloc: Global,
    first: &mut MemHost,
    second: &mut MemHost,
) -> Result<(Status, Status), Fail> {
    let words = run_words(alloc)?;
    Ok(two_sessions(alloc, &words, first, second))
}

/// The status of a run of the words. What `run` promises stays behind, so that no test's proof has to read it.
fn status_of<H: Host>(alloc: Global, texts: &[&str], host: &mut H) -> Result<Status, Fail> {
    let mut words = Words::new(alloc);
    for text in texts {
        words.push(text)?;
    }
    Ok(run(alloc, &words, host))
}

/// A host with what a crash after so many calls leaves, with no call made yet and room for the records of a run.
pub(crate) fn left_at(
    alloc: Global,
    host: &MemHost,
    moment: u64,
    fill: u64,
) -> Result<MemHost, Fail> {
    if moment > host.calls() {
        return Err(Fail::new("no such moment"));
    }
    let mut left = host.crashed(alloc, moment, fill)?;
    left.reserve(2000, 10_000)?;
    Ok(left)
}

/// A host with the image that `format` leaves.
pub(crate) fn formatted(alloc: Global) -> Result<MemHost, Fail> {
    let mut host = MemHost::new(alloc, total(3, 6))?;
    let words = ["format", "img", "--slots", "3", "--groups", "6"];
    let _ = status_of(alloc, &words, &mut host)?;
    left_at(alloc, &host, host.calls(), 1)
}

/// A host with the fresh image and this script, of which a call may fail.
pub(crate) fn fresh(alloc: Global, script: &str, failing: Option<u64>) -> Result<MemHost, Fail> {
    let mut host = formatted(alloc)?;
    host.set_script(script.as_bytes())?;
    if let Some(call) = failing {
        host.fail_at(call)?;
    }
    Ok(host)
}

/// Such a host after the session.
pub(crate) fn after(alloc: Global, script: &str, failing: Option<u64>) -> Result<MemHost, Fail> {
    let mut host = fresh(alloc, script, failing)?;
    match status_of(alloc, &["run", "img"], &mut host)? {
        Status::Done => Ok(host),
        _ => Err(Fail::new("a session that doesn't end well")),
    }
}

/// After how many calls the host had given so many lines.
pub(crate) fn moment_of(host: &MemHost, lines: usize) -> u64 {
    for moment in 0..host.calls() {
        let given = host.output_at(moment);
        if given.iter().filter(|byte| **byte == b'\n').count() >= lines {
            return moment;
        }
    }
    host.calls()
}

fn spoil(rt: &impl Abort, host: &mut MemHost, first: u32) {
    for at in first..first.saturating_add(256) {
        assert!(rt; at < host.blocks() && host.calls() == 0, "block {at}");
        host.set_block(at, &[0xff; 1024]);
    }
}

/// Fills the sub-super block, the journal and the group of the cube of a slot whose group has the same number.
pub(crate) fn damage(rt: &impl Abort, host: &mut MemHost, slot: u32) {
    assert!(rt; slot < 3);
    spoil(rt, host, 32 + 256 * slot);
    spoil(rt, host, 800 + 256 * slot);
}
