//! Compares the checker with a plain slow reader of its rules, over a sound lot and each lot that one changed byte makes of it.
//!
//! It prints whether each rule was named, the number of sound and of damaged lots, and each lot on which the two don't agree.
//! How often each was named is left open: where several are broken, the checker may name any.
#![tactic(auto)]

mod bytes;
mod inodes;
mod lot;
mod plain;
mod table;

use bytes::BLOCKS;
use disk_mem::MemHost;
use ice_base::{Disk, Rule};
use lot::fill;
use std::io;
use table::{Tally, compare, compare_all};

const RULES: [Rule; 15] = [
    Rule::Magic,
    Rule::Version,
    Rule::Slot,
    Rule::Mode,
    Rule::Done,
    Rule::Counts,
    Rule::Kind,
    Rule::Pointer,
    Rule::BlockTwice,
    Rule::InodeTwice,
    Rule::Name,
    Rule::NameTwice,
    Rule::Bitmap,
    Rule::Depth,
    Rule::Header,
];

fn print(rt: &HostRuntime, tally: &Tally) -> io::Result<()> {
    for rule in RULES {
        let answer = if tally.named(rule) > 0 {
            "named"
        } else {
            "never"
        };
        println!(rt; "{} {rule:?}: {answer}", rule as u8)?;
    }
    println!(rt; "sound: {}", tally.sound)?;
    println!(rt; "damaged: {}", tally.damaged)?;
    println!(rt; "apart: {}", tally.apart)
}

fn main(rt: HostRuntime) -> io::Result<()> {
    let mut host = MemHost::new(rt.alloc(), BLOCKS)?;
    let mut tally = Tally::new();
    if fill(&mut host).is_none() || host.blocks() != BLOCKS {
        return Err(io::ErrorKind::Other.into());
    }
    if !compare(&mut host, &mut tally) {
        println!(rt; "apart: the lot itself")?;
    }
    compare_all(&rt, &mut host, &mut tally)?;
    print(&rt, &tally)
}
