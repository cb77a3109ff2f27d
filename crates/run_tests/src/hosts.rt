//! What the tests run on.
use disk_mem::MemHost;
use ice_base::{Block, Disk, Host, Status, Words};
use ice_layout::total;
use ice_run::run;
use std::alloc::Global;
use std::process::Abort;
use std::test::Fail;

pub(crate) fn words_of(alloc: Global, texts: &[&str]) -> Result<Words, Fail> {
    let mut words = Words::new(alloc);
    for text in texts {
        words.push(text)?;
    }
    Ok(words)
}

/// The status of a run of the words. What `run` promises stays behind, so that no test's proof has to read it.
pub(crate) fn status_of<H: Host>(
    alloc: Global,
    texts: &[&str],
    host: &mut H,
) -> Result<Status, Fail> {
    let words = words_of(alloc, texts)?;
    Ok(run(alloc, &words, host))
}

/// A host with what a crash after so many calls leaves, with no call made yet and room for the records of a run.
pub(crate) fn left_at(
    alloc: Global,
    host: &MemHost,
    moment: u64,
    fill: u64,
) -> Result<MemHost, Fail> {
    if moment > host.calls() {
        return Err(Fail::new("no such moment"));
    }
    let mut left = host.crashed(alloc, moment, fill)?;
    left.reserve(2000, 10_000)?;
    Ok(left)
}

/// A host with the image of this one, with no call made yet and room for the records of a run.
pub(crate) fn copy_of(alloc: Global, host: &MemHost) -> Result<MemHost, Fail> {
    left_at(alloc, host, host.calls(), 1)
}

/// A host with the image that `format` leaves, of four slots and sixteen groups.
pub(crate) fn formatted(alloc: Global) -> Result<MemHost, Fail> {
    let mut host = MemHost::new(alloc, total(4, 16))?;
    let words = ["format", "img", "--slots", "4", "--groups", "16"];
    let _ = status_of(alloc, &words, &mut host)?;
    copy_of(alloc, &host)
}

/// A host with the image that `format` leaves, of three slots and six groups.
pub(crate) fn small(alloc: Global) -> Result<MemHost, Fail> {
    let mut host = MemHost::new(alloc, total(3, 6))?;
    let words = ["format", "img", "--slots", "3", "--groups", "6"];
    let _ = status_of(alloc, &words, &mut host)?;
    copy_of(alloc, &host)
}

/// The status of a run of a script.
pub(crate) fn session(alloc: Global, host: &mut MemHost, script: &[u8]) -> Result<Status, Fail> {
    host.set_script(script)?;
    status_of(alloc, &["run", "img"], host)
}

/// A host over the small image, on which this script was run to its end.
pub(crate) fn after(alloc: Global, script: &[u8]) -> Result<MemHost, Fail> {
    let mut host = small(alloc)?;
    match session(alloc, &mut host, script)? {
        Status::Done => Ok(host),
        _ => Err(Fail::new("a session that doesn't end well")),
    }
}

/// Asserts that a session on a host that gave nothing yet gives these replies and ends well.
pub(crate) fn answers(
    rt: &impl Abort,
    alloc: Global,
    host: &mut MemHost,
    script: &str,
    replies: &str,
) -> Result<(), Fail> {
    ends(rt, alloc, host, script, Status::Done, replies)
}

/// Asserts that a session on a host that gave nothing yet ends so and gives these replies.
pub(crate) fn ends(
    rt: &impl Abort,
    alloc: Global,
    host: &mut MemHost,
    script: &str,
    status: Status,
    replies: &str,
) -> Result<(), Fail> {
    let found = session(alloc, host, script.as_bytes())?;
    let output = str::from_utf8(host.output())?;
    assert_eq!(rt; (found, output), (status, replies), "{script}");
    Ok(())
}

/// Asserts that a session on a copy of this host gives these replies and ends well.
pub(crate) fn copy_answers(
    rt: &impl Abort,
    alloc: Global,
    host: &MemHost,
    script: &str,
    replies: &str,
) -> Result<(), Fail> {
    let mut copy = copy_of(alloc, host)?;
    answers(rt, alloc, &mut copy, script, replies)
}

/// What the first so many calls gave.
pub(crate) fn given(host: &MemHost, moment: u64) -> &[u8] {
    host.output_at(moment.min(host.calls()))
}

/// Sets a block before the first call.
pub(crate) fn set(rt: &impl Abort, host: &mut MemHost, at: u32, block: &Block) {
    assert!(rt; at < host.blocks() && host.calls() == 0, "block {at}");
    host.set_block(at, block);
}

/// After how many calls each reply had been given.
pub(crate) fn gives(alloc: Global, host: &MemHost) -> Result<Vec<u64>, Fail> {
    let mut moments = Vec::new(alloc);
    let mut last: usize = 0;
    for moment in 0..host.calls().saturating_add(1) {
        let len = given(host, moment).len();
        if len != last {
            moments.push(moment)?;
            last = len;
        }
    }
    Ok(moments)
}

/// The number of the first call for the line with this number, counted from 0, of which the first line has none.
pub(crate) fn start_of(alloc: Global, host: &MemHost, line: usize) -> Result<u64, Fail> {
    let moments = gives(alloc, host)?;
    match line.checked_sub(1) {
        Some(before) => Ok(moments.get(before).copied().ok_or("no such line")?),
        None => Err(Fail::new("the first line")),
    }
}
