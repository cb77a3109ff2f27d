//! The second sessions, one for each span of moments, fill and damage.
use crate::compare::{complaint, disagreement};
use crate::crash::{RUN, left_at, overwrite_cube, status_of};
use crate::looks::Stored;
use crate::spans::Span;
use crate::story::Story;
use crate::text::cut_replies;
use crate::world::CUBES;
use disk_mem::MemHost;
use ice_base::Status;
use std::alloc::Global;
use std::{io, mem};

/// The fills of a crash.
const FILLS: u64 = 5;

/// The fill of the crash before a cube is overwritten.
const SPOILT_FILL: u64 = 3;

/// What second sessions are compared with, and how many there were.
#[derive(Drop)]
pub struct Trial<'a> {
    stored: &'a Stored,
    story: &'a Story,
    host: &'a MemHost,
    /// What the second session was answered on the image that has each block as it was settled last.
    settled: Vec<u8>,
    pub runs: u64,
    /// How many replies were not as they should be.
    pub apart: u64,
}

impl<'a> Trial<'a> {
    /// No second session yet; so many disagreements were found before.
    pub fn new(
        alloc: Global,
        stored: &'a Stored,
        story: &'a Story,
        host: &'a MemHost,
        apart: u64,
    ) -> Trial<'a> {
        Trial {
            stored,
            story,
            host,
            settled: Vec::new(alloc),
            runs: 0,
            apart,
        }
    }

    /// Tries all fills at the span's moments, and then damage to the cube whose turn it is. Images that are the same are looked at once: those of
    /// fill 0 from one barrier to the next, and those of all fills where all blocks are settled.
    pub fn try_span(&mut self, rt: &HostRuntime, span: &Span, turn: usize) -> io::Result<()> {
        if span.settled {
            let left = left_at(rt.alloc(), self.host, span.first, 0)?;
            self.settled = self.look(rt, span, left)?;
        }
        let settled = mem::replace(&mut self.settled, Vec::new(rt.alloc()));
        self.compare_all(rt, span, 0, None, &settled)?;
        self.settled = settled;
        if !span.settled {
            self.try_fills(rt, span)?;
        }
        let cube = turn % CUBES;
        let mut left = left_at(rt.alloc(), self.host, span.first, SPOILT_FILL)?;
        self.spoil(span, &mut left, cube);
        let output = self.look(rt, span, left)?;
        self.compare_all(rt, span, SPOILT_FILL, Some(cube), &output)
    }

    /// Tries the fills that don't leave each block as it was settled last.
    fn try_fills(&mut self, rt: &HostRuntime, span: &Span) -> io::Result<()> {
        for fill in 1..FILLS {
            let left = left_at(rt.alloc(), self.host, span.first, fill)?;
            let output = self.look(rt, span, left)?;
            self.compare_all(rt, span, fill, None, &output)?;
        }
        Ok(())
    }

    /// Overwrites all that the cube may have at the span's moments.
    fn spoil(&self, span: &Span, left: &mut MemHost, cube: usize) {
        let count = span.until.saturating_sub(span.from).saturating_add(2);
        for world in self.story.worlds.iter().skip(span.from).take(count) {
            overwrite_cube(left, world, cube);
        }
    }

    /// What a second session is answered on the image.
    fn look(&mut self, rt: &HostRuntime, span: &Span, image: MemHost) -> io::Result<Vec<u8>> {
        let mut host = image;
        host.set_script(self.stored.looking.as_bytes())?;
        let status = status_of(rt.alloc(), &RUN, &mut host)?;
        self.runs = self.runs.saturating_add(1);
        if status != Status::Done {
            self.apart = self.apart.saturating_add(1);
            println!(rt; "moment {}: {status:?}", span.first)?;
        }
        Ok(Vec::from_slice(rt.alloc(), host.output())?)
    }

    /// Compares what a second session was answered on each cube but the one that was overwritten.
    fn compare_all(
        &mut self,
        rt: &HostRuntime,
        span: &Span,
        fill: u64,
        spoilt: Option<usize>,
        output: &[u8],
    ) -> io::Result<()> {
        let mut rest = output;
        for (cube, looks) in self.stored.looks.iter().enumerate() {
            let (replies, behind) = cut_replies(rest, looks.replies());
            rest = behind;
            if spoilt != Some(cube) {
                let replies = str::from_utf8(replies).unwrap_or("");
                self.compare(rt, span, fill, cube, replies)?;
            }
        }
        Ok(())
    }

    /// Prints a disagreement on one cube, if there is one.
    fn compare(
        &mut self,
        rt: &HostRuntime,
        span: &Span,
        fill: u64,
        cube: usize,
        replies: &str,
    ) -> io::Result<()> {
        let Some(place) = disagreement(self.story, span, cube, replies) else {
            return Ok(());
        };
        self.apart = self.apart.saturating_add(1);
        let name = match self.stored.looks.get(cube) {
            Some(looks) => looks.name(),
            None => "?",
        };
        let text = complaint(rt.alloc(), &self.story.lives, &place, replies)?;
        println!(rt; "moment {}, fill {fill}, {name}: {text}", span.first)
    }
}
