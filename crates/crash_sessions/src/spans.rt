//! The moments of the first session.
use crate::host::Change;
use crate::text::reply_len;
use disk_mem::MemHost;
use std::alloc::{AllocError, Global};

/// Moments between which no call changed the disk, so that a crash leaves the same images at each. A moment is a number of calls that were made.
#[derive(Clone, Copy)]
pub struct Span {
    pub first: u64,
    pub last: u64,
    /// Whether all blocks are settled, so that there is one image for all fills.
    pub settled: bool,
    /// How many lines had been answered at the first moment, and at the last.
    pub from: usize,
    pub until: usize,
}

/// After how many bytes of an output each reply ends.
fn ends_of(alloc: Global, output: &[u8]) -> Result<Vec<usize>, AllocError> {
    let mut ends = Vec::new(alloc);
    let mut end: usize = 0;
    for _ in 0..output.len() {
        if end >= output.len() {
            break;
        }
        end = end.saturating_add(reply_len(output.get(end..).unwrap_or(b"")));
        ends.push(end)?;
    }
    Ok(ends)
}

/// How many of the replies that end so had been given whole at the moment.
fn answered(host: &MemHost, ends: &[usize], moment: u64) -> usize {
    let given = host.output_at(moment.min(host.calls())).len();
    let mut count: usize = 0;
    for end in ends {
        if *end <= given {
            count = count.saturating_add(1);
        }
    }
    count
}

/// The spans of all moments of a session that came to its end, of whose calls these changed the disk.
pub fn spans_of(
    alloc: Global,
    host: &MemHost,
    changes: &[Change],
) -> Result<Vec<Span>, AllocError> {
    let ends = ends_of(alloc, host.output())?;
    let mut spans = Vec::new(alloc);
    let mut span = Span {
        first: 0,
        last: 0,
        settled: true,
        from: 0,
        until: 0,
    };
    for change in changes {
        span.close(host, &ends, change.number);
        spans.push(span)?;
        span.first = change.number.saturating_add(1);
        span.settled = change.settles;
    }
    span.close(host, &ends, host.calls());
    span.until = span.until.saturating_add(1);
    spans.push(span)?;
    Ok(spans)
}

impl Span {
    /// Ends the span at its last moment.
    fn close(&mut self, host: &MemHost, ends: &[usize], last: u64) {
        self.last = last;
        self.from = answered(host, ends, self.first);
        self.until = answered(host, ends, last);
    }
}
