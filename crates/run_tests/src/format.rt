//! Making an image.
use crate::hosts::{status_of, words_of};
use disk_file::FileHost;
use disk_mem::MemHost;
use ice_base::{Block, Disk, ImageFault, Status};
use ice_run::image_of;
use std::alloc::Global;
use std::fs;
use std::process::Abort;
use std::test::Fail;

const FORMAT: [&str; 6] = ["format", "img", "--slots", "2", "--groups", "3"];

const START: [u8; 20] = [
    0x49, 0x63, 0x65, 0x46, 1, 0, 0, 0, 2, 0, 0, 0, 3, 0, 0, 0, 0x20, 5, 0, 0,
];

/// A host in memory of so many blocks, with no call made yet.
fn blank(alloc: Global, blocks: u32) -> Result<MemHost, Fail> {
    let mut host = MemHost::new(alloc, blocks)?;
    host.reserve(40, 0)?;
    Ok(host)
}

/// Asserts that the host has an image of two slots and three groups, made by 32 writes and a barrier.
fn has_image(rt: &impl Abort, host: &MemHost) {
    let counts = [host.writes(), host.barriers(), host.calls()];
    assert_eq!(rt; counts, [32, 1, 33]);
    assert!(rt; host.output().is_empty());
    assert!(rt; host.blocks() == 1312);
    let first = host.block(0);
    assert_eq!(rt; first[..20], START[..]);
    assert!(rt; first[20..] == [0; 1004][..]);
}

#[test]
fn a_disk_of_1312_blocks_gets_the_image_and_one_of_1311_stays(rt: HostRuntime) -> Result<(), Fail> {
    let mut host = blank(rt.alloc(), 1312)?;
    let status = status_of(rt.alloc(), &FORMAT, &mut host)?;
    assert_eq!(rt; status, Status::Done);
    has_image(&rt, &host);
    let mut small = MemHost::new(rt.alloc(), 1311)?;
    let status = status_of(rt.alloc(), &FORMAT, &mut small)?;
    assert_eq!(rt; (status, small.calls()), (Status::Small, 0));
    Ok(())
}

/// A block of a disk, where it can be read.
fn block_of<D: Disk>(disk: &mut D, at: u32) -> Option<Block> {
    let mut block = [7; 1024];
    if at >= disk.blocks() || disk.read(at, &mut block).is_err() {
        return None;
    }
    Some(block)
}

/// Whether a disk of 1,312 blocks begins with the superblock of the image, and block 31 is zeros.
fn has_start<D: Disk>(disk: &mut D) -> bool {
    let blocks = disk.blocks();
    match (block_of(disk, 0), block_of(disk, 31)) {
        (Some(first), Some(last)) => {
            blocks == 1312 && first[..20] == START[..] && last == [0; 1024]
        }
        _ => false,
    }
}

#[test]
fn a_file_of_1312_blocks_gets_the_image_and_one_of_1311_stays(rt: HostRuntime) -> Result<(), Fail> {
    let mut host = FileHost::attach(&rt, "img", 1312)?;
    let status = status_of(rt.alloc(), &FORMAT, &mut host)?;
    assert_eq!(rt; status, Status::Done);
    assert!(rt; has_start(&mut host));
    let mut small = FileHost::attach(&rt, "small", 1311)?;
    let status = status_of(rt.alloc(), &FORMAT, &mut small)?;
    assert_eq!(rt; status, Status::Small);
    fs::remove_file(&rt, "img")?;
    fs::remove_file(&rt, "small")?;
    Ok(())
}

/// The status of `format` on a host in memory where this call fails, and the calls.
fn failed_at(alloc: Global, call: u64) -> Result<(Status, u64), Fail> {
    let mut host = blank(alloc, 1312)?;
    host.fail_at(call)?;
    let status = status_of(alloc, &FORMAT, &mut host)?;
    Ok((status, host.calls()))
}

const FAILING: [u64; 4] = [0, 7, 31, 32];

#[test]
fn a_failing_call_of_the_disk_ends_format_with_disk(rt: HostRuntime) -> Result<(), Fail> {
    for call in &FAILING {
        let found = failed_at(rt.alloc(), *call)?;
        assert!(rt;
            found == (Status::Disk, call.saturating_add(1)),
            "call {call}"
        );
    }
    Ok(())
}

const WRONG: [&[&str]; 14] = [
    &[],
    &["run"],
    &["format", "img", "--slots", "17", "--groups", "3"],
    &["format", "img", "--slots", "02", "--groups", "3"],
    &["format", "img", "--slots", "0", "--groups", "3"],
    &["format", "img", "--slots", "2", "--groups", "0"],
    &["format", "img", "--slots", "2", "--groups", "1025"],
    &["format", "img", "--groups", "3", "--slots", "2"],
    &["format", "-img", "--slots", "2", "--groups", "3"],
    &["format", "", "--slots", "2", "--groups", "3"],
    &["format", "img", "--slots", "2", "--groups", "3", "x"],
    &["run", "-"],
    &["run", "img", "img"],
    &["fly", "img"],
];

/// The status of a run of these words on a host in memory of one block, and the calls.
fn run_of(alloc: Global, texts: &[&str]) -> Result<(Status, u64), Fail> {
    let mut host = MemHost::new(alloc, 1)?;
    let status = status_of(alloc, texts, &mut host)?;
    Ok((status, host.calls()))
}

fn is_usage(alloc: Global, texts: &[&str]) -> Result<bool, Fail> {
    let words = words_of(alloc, texts)?;
    match image_of(alloc, &words) {
        Ok(_) => Ok(false),
        Err(fault) => Ok(fault == ImageFault::Usage),
    }
}

#[test]
fn words_that_are_no_form_are_usage(rt: HostRuntime) -> Result<(), Fail> {
    for texts in &WRONG {
        let found = run_of(rt.alloc(), texts)?;
        let usage = is_usage(rt.alloc(), texts)?;
        assert!(rt; usage && found == (Status::Usage, 0), "{texts:?}");
    }
    Ok(())
}

/// Whether these words name this image and this least number of blocks.
fn names(alloc: Global, texts: &[&str], name: &str, least: u32) -> Result<bool, Fail> {
    let words = words_of(alloc, texts)?;
    match image_of(alloc, &words) {
        Ok(image) => Ok(image.name == name && image.least == least),
        Err(_) => Ok(false),
    }
}

const MOST: [&str; 6] = ["format", "img", "--slots", "16", "--groups", "1024"];

#[test]
fn the_words_name_the_image_and_its_least_number_of_blocks(rt: HostRuntime) -> Result<(), Fail> {
    assert!(rt; names(rt.alloc(), &MOST, "img", 266_272)?);
    assert!(rt; names(rt.alloc(), &["run", "my image"], "my image", 0)?);
    Ok(())
}
