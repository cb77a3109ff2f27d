//! Prints how many reads a check of the largest lot makes. With the words `make FILE` it writes an image with that lot to a file,
//! and with the words `check FILE` it checks the lot of such an image.
#![tactic(auto)]

mod lot;

use disk_file::FileHost;
use disk_mem::MemHost;
use ice_base::Disk;
use ice_check::{CheckFault, Summary, check_lot};
use lot::{BLOCKS, all_groups, fill};
use std::env;
use std::io::{self, ErrorKind};

/// Checks the lot of an image. None: the disk has other than the image's blocks.
fn check_image<D: Disk>(disk: &mut D) -> Option<Result<Summary, CheckFault>> {
    if disk.blocks() != BLOCKS {
        return None;
    }
    Some(check_lot(disk, &all_groups()))
}

fn print(rt: &HostRuntime, sums: &Summary) -> io::Result<()> {
    println!(rt; "files and directories: {}", sums.nodes)?;
    println!(rt; "used blocks: {}", sums.blocks)
}

/// Makes the lot in memory, checks it, and prints what it holds and how many reads that took.
fn count(rt: &HostRuntime) -> io::Result<()> {
    let mut host = MemHost::new(rt.alloc(), BLOCKS)?;
    if fill(&mut host).is_err() {
        return Err(ErrorKind::Other.into());
    }
    let before = host.reads();
    let Some(Ok(sums)) = check_image(&mut host) else {
        return Err(ErrorKind::InvalidData.into());
    };
    print(rt, &sums)?;
    let reads = host.reads().saturating_sub(before);
    let hundredths = reads.saturating_mul(100) / u64::from(sums.blocks.max(1));
    println!(rt; "reads: {reads}")?;
    println!(rt;
        "reads per used block: {}.{:02}",
        hundredths / 100,
        hundredths % 100
    )
}

/// Writes an image with the lot to a file, which is made or made longer if need be.
fn make(rt: &HostRuntime, name: &str) -> io::Result<()> {
    let Ok(mut host) = FileHost::attach(rt, name, BLOCKS) else {
        return Err(ErrorKind::NotFound.into());
    };
    match fill(&mut host) {
        Ok(()) => Ok(()),
        Err(_) => Err(ErrorKind::Other.into()),
    }
}

/// Checks the lot of the image in a file, and prints what it holds.
fn check_file(rt: &HostRuntime, name: &str) -> io::Result<()> {
    let Ok(mut host) = FileHost::attach(rt, name, 0) else {
        return Err(ErrorKind::NotFound.into());
    };
    match check_image(&mut host) {
        Some(Ok(sums)) => print(rt, &sums),
        _ => Err(ErrorKind::InvalidData.into()),
    }
}

fn main(rt: HostRuntime) -> io::Result<()> {
    let mut words = env::args(&rt)?.skip(1);
    let Some(word) = words.next() else {
        return count(&rt);
    };
    let Some(name) = words.next() else {
        return Err(ErrorKind::InvalidInput.into());
    };
    match word.as_str() {
        "make" => make(&rt, name.as_str()),
        "check" => check_file(&rt, name.as_str()),
        _ => Err(ErrorKind::InvalidInput.into()),
    }
}
