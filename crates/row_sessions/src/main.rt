//! Stored sessions of the whole program over hosts in memory. Standard input is a list of sections, each a heading and a script.
//!
//! A line `# TEXT` begins a section: a fresh image of four slots and sixteen groups, and a run of the script of the lines up to the next
//! heading. A line `## TEXT` begins a further run, on what the last one left. For each the heading is printed, then the bytes that the run
//! gave, then a line `= STATUS`. A token `*N` at the end of a line is written out as N bytes in hexadecimal digits, of which byte j is
//! `7 j + 3` modulo 256.
#![tactic(auto)]

use disk_mem::MemHost;
use ice_base::{Status, Words};
use ice_run::run;
use std::alloc::{AllocError, Global};
use std::io::{self, Read, Write};

const FORMAT: [&str; 6] = ["format", "img", "--slots", "4", "--groups", "16"];

const RUN: [&str; 2] = ["run", "img"];

/// The blocks of the image.
const BLOCKS: u32 = 5152;

/// More writes, barriers and replies than a run makes.
const CALLS: u32 = 10_000;

/// More bytes than a run gives.
const BYTES: u32 = 100_000;

/// A run to come: its heading and its script.
#[derive(Drop)]
struct Section {
    heading: String,
    script: String,
}

impl Section {
    /// Whether it goes on with what the last run left.
    fn is_further(&self) -> bool {
        self.heading.starts_with("##")
    }
}

/// The status of a run of the words.
fn status_of(alloc: Global, texts: &[&str], host: &mut MemHost) -> Result<Status, AllocError> {
    let mut words = Words::new(alloc);
    for text in texts {
        words.push(text)?;
    }
    Ok(run(alloc, &words, host))
}

/// A host with a fresh image.
fn formatted(alloc: Global) -> io::Result<MemHost> {
    let mut host = MemHost::new(alloc, BLOCKS)?;
    host.reserve(40, 0)?;
    match status_of(alloc, &FORMAT, &mut host)? {
        Status::Done => Ok(host),
        _ => Err(io::ErrorKind::Other.into()),
    }
}

/// A host that has the image of this one, and no call made yet.
fn copy_of(alloc: Global, host: &MemHost) -> Result<MemHost, AllocError> {
    let calls = host.calls();
    let mut copy = host.crashed(alloc, calls, 1)?;
    copy.reserve(CALLS, BYTES)?;
    Ok(copy)
}

/// The hexadecimal digits of so many bytes that differ.
fn digits(alloc: Global, count: u16) -> Result<String, AllocError> {
    let mut bytes = vec![in alloc; 0u8; usize::from(count)]?;
    for (j, byte) in bytes.iter_mut().enumerate() {
        *byte = ((j % 256) as u8).wrapping_mul(7).wrapping_add(3);
    }
    hex::encode(alloc, bytes.as_slice())
}

/// Adds a line to the script, with a token `*N` at its end written out.
fn add_line(alloc: Global, script: &mut String, line: &str) -> io::Result<()> {
    let Some((front, count)) = line.split_once(" *") else {
        script.push_str(line)?;
        return Ok(());
    };
    let Ok(count) = count.trim_end().parse::<u16>() else {
        return Err(io::ErrorKind::InvalidInput.into());
    };
    script.push_str(front)?;
    script.push_str(" ")?;
    script.push_str(digits(alloc, count)?.as_str())?;
    if line.ends_with('\n') {
        script.push_str("\n")?;
    }
    Ok(())
}

/// The sections of a text. A line before the first heading is an error.
fn sections_of(alloc: Global, text: &str) -> io::Result<Vec<Section>> {
    let mut sections = Vec::new(alloc);
    for line in text.split_inclusive('\n') {
        if line.starts_with('#') {
            let heading = String::from_str(alloc, line.trim_end())?;
            sections.push(Section {
                heading,
                script: String::new(alloc),
            })?;
        } else {
            match sections.last_mut() {
                Some(section) => add_line(alloc, &mut section.script, line)?,
                None => return Err(io::ErrorKind::InvalidInput.into()),
            }
        }
    }
    Ok(sections)
}

/// Runs the section on the host, and prints it.
fn play(rt: &HostRuntime, section: &Section, host: &mut MemHost) -> io::Result<()> {
    host.set_script(section.script.as_bytes())?;
    let status = status_of(rt.alloc(), &RUN, host)?;
    println!(rt; "{}", section.heading)?;
    io::writer(rt).write_all(host.output())?;
    println!(rt; "= {status:?}")
}

fn main(rt: HostRuntime) -> io::Result<()> {
    let alloc = rt.alloc();
    let mut text = String::new(alloc);
    rt.reader().read_to_string(&mut text)?;
    let fresh = formatted(alloc)?;
    let mut last = copy_of(alloc, &fresh)?;
    for section in &sections_of(alloc, text.as_str())? {
        let mut host = if section.is_further() {
            copy_of(alloc, &last)?
        } else {
            copy_of(alloc, &fresh)?
        };
        play(&rt, section, &mut host)?;
        last = host;
    }
    Ok(())
}
