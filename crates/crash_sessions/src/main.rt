//! A session over four cubes that crashes at each moment, and the second sessions that find what the crashes leave.
//!
//! Standard input has two sections, each behind a heading `# TEXT`: the looks of a second session at each cube, and the lines of the first
//! session. A token `*N` at the end of the session's line L is written out as N bytes in hexadecimal digits, of which byte j is
//! `7 j + 3 (j / 256) + 5 L` modulo 256. The first session runs over a fresh image of four slots and seven groups, and each of its replies is
//! compared with that of a model: plain trees, and what each line does to the cubes.
//!
//! Between two calls that write or settle blocks all moments are one span, since a crash leaves the same images at each of them. For each
//! span and each of five fills, which say what stands in the blocks that a crash may spoil, a second session looks at all cubes on the image
//! that the crash leaves: each has a count from the one that was acknowledged last, in the output at that moment, to that of the commands
//! accepted by then, and answers as the plain tree after that many commands. Once more for each span, one cube's sub-super block, journal and groups
//! are overwritten, in turn by cube, and all others answer likewise.
//!
//! It prints each disagreement, and how many lines, moments, spans and second sessions there were.
#![tactic(auto)]

mod compare;
mod crash;
mod host;
mod life;
mod looks;
mod spans;
mod story;
mod text;
mod trial;
mod world;

use crash::{BLOCKS, status_of};
use disk_mem::MemHost;
use host::Watched;
use ice_base::{Disk, Status};
use looks::{Stored, stored_in};
use spans::spans_of;
use std::alloc::Global;
use std::io::{self, Read};
use story::Story;
use text::cut_replies;
use trial::Trial;

const FORMAT: [&str; 6] = ["format", "img", "--slots", "4", "--groups", "7"];

/// More writes, barriers and replies than the first session makes.
const CALLS: u32 = 5000;

/// More bytes than it gives.
const BYTES: u32 = 100_000;

/// A host with a fresh image.
fn formatted(alloc: Global) -> io::Result<MemHost> {
    let mut host = MemHost::new(alloc, BLOCKS)?;
    host.reserve(CALLS, 0)?;
    match status_of(alloc, &FORMAT, &mut host)? {
        Status::Done => {}
        _ => return Err(io::ErrorKind::Other.into()),
    }
    let mut fresh = crash::left_at(alloc, &host, host.calls(), 1)?;
    fresh.reserve(CALLS, BYTES)?;
    Ok(fresh)
}

/// The first session, run to its end.
fn first_session(alloc: Global, stored: &Stored) -> io::Result<Watched> {
    let mut host = formatted(alloc)?;
    host.set_script(stored.script(alloc)?.as_bytes())?;
    let mut watched = Watched::new(alloc, host, CALLS as usize)?;
    match status_of(alloc, &crash::RUN, &mut watched)? {
        Status::Done => Ok(watched),
        _ => Err(io::ErrorKind::Other.into()),
    }
}

/// Prints each line of the first session whose reply is not the model's, and says how many there are.
fn compare_replies(
    rt: &HostRuntime,
    stored: &Stored,
    story: &Story,
    output: &[u8],
) -> io::Result<u64> {
    let mut rest = output;
    let mut apart: u64 = 0;
    for (line, wanted) in stored.lines.iter().zip(&story.replies) {
        let (reply, behind) = cut_replies(rest, 1);
        rest = behind;
        if reply != wanted.as_bytes() {
            apart = apart.saturating_add(1);
            let reply = str::from_utf8(reply).unwrap_or("?");
            println!(rt; "{line}: wanted {wanted}got {reply}")?;
        }
    }
    Ok(apart)
}

/// Tries each span of a first session that ended so, and prints how many there were and whether all was as it should be.
fn try_all(rt: &HostRuntime, stored: &Stored, story: &Story, watched: &Watched) -> io::Result<()> {
    let host = watched.host();
    let apart = compare_replies(rt, stored, story, host.output())?;
    let Some(changes) = watched.changes() else {
        return Err(io::ErrorKind::OutOfMemory.into());
    };
    let spans = spans_of(rt.alloc(), host, changes)?;
    let mut trial = Trial::new(rt.alloc(), stored, story, host, apart);
    for (turn, span) in spans.iter().enumerate() {
        trial.try_span(rt, span, turn)?;
    }
    println!(rt; "lines: {}", stored.lines.len())?;
    println!(rt; "moments: {}", host.calls().saturating_add(1))?;
    println!(rt; "spans: {}", spans.len())?;
    report(rt, trial.runs, trial.apart)
}

/// Prints how many second sessions there were, and what came of them.
fn report(rt: &HostRuntime, runs: u64, apart: u64) -> io::Result<()> {
    println!(rt; "second sessions: {runs}")?;
    match apart {
        0 => println!(rt; "no disagreement"),
        apart => println!(rt; "disagreements: {apart}"),
    }
}

fn main(rt: HostRuntime) -> io::Result<()> {
    let alloc = rt.alloc();
    let mut text = String::new(alloc);
    rt.reader().read_to_string(&mut text)?;
    let stored = stored_in(alloc, text.as_str())?;
    let story = Story::of(alloc, &stored)?;
    let watched = first_session(alloc, &stored)?;
    try_all(&rt, &stored, &story, &watched)
}
