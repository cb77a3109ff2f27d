//! A plain slow reader of the check rules: every rule that the blocks of a lot break.
//!
//! It counts the walks of each length that end at each inode. No clause ties it to the rules: the table compares it with the checker.
ghost use Rattle.std.specs.Prelude.{◌<◌, ◌≤◌, length};

use crate::bytes::{ADDRESSES, INODES, SUB, byte_of, word_of};
use crate::inodes::{
    Entry, count, is_block_marked, is_data, is_marked, is_namable, is_name, is_open, is_sound,
    kind_fits, map_blocks, pointer, pointers_fit, read_entry, single,
};
use disk_mem::MemHost;
use ice_base::Rule;

/// A number for each inode.
type Each = [u32; 128];

/// What a plain reading of a lot comes to: the rules that may be named, and the sums.
#[derive(Clone, Copy, Drop)]
pub(crate) struct Reading {
    rules: [bool; 16],
    pub blocks: u32,
    pub nodes: u32,
    pub done: u64,
}

impl Reading {
    fn blank() -> Reading {
        Reading {
            rules: [false; 16],
            blocks: 0,
            nodes: 0,
            done: 0,
        }
    }

    fn name(&mut self, rule: Rule) {
        if let Some(flag) = self.rules.get_mut(rule as usize) {
            *flag = true;
        }
    }

    /// Whether a rule may be named.
    pub fn may_name(&self, rule: Rule) -> bool {
        self.rules.get(rule as usize).copied().unwrap_or(false)
    }

    /// Whether no rule is broken.
    pub fn is_sound(&self) -> bool {
        self.rules == [false; 16]
    }
}

/// The first rule that the sub-super block breaks.
fn sub_rule(host: &MemHost) -> Option<Rule> {
    if word_of(host, SUB, 0) != u32::from_le_bytes(*b"IceC") {
        Some(Rule::Magic)
    } else if word_of(host, SUB, 4) != 1 {
        Some(Rule::Version)
    } else if byte_of(host, SUB, 8) != 0 {
        Some(Rule::Slot)
    } else if byte_of(host, SUB, 9) != 0 {
        Some(Rule::Mode)
    } else if byte_of(host, SUB, 23) >= 0x80 {
        Some(Rule::Done)
    } else {
        None
    }
}

fn add(sum: &mut Each, more: &Each) {
    for (s, m) in sum.iter_mut().zip(more) {
        *s = s.saturating_add(*m);
    }
}

/// Adds the walks that go on by each entry of a directory to which so many walks come.
fn go_on(host: &MemHost, i: u32, walks: u32, next: &mut Each)
    requires { i < 128 }
{
    for k in 0..count(host, i) {
        let entry = read_entry(host, i, k);
        if is_name(&entry) && is_namable(entry.inode) {
            if let Some(n) = next.get_mut(entry.inode as usize) {
                *n = n.saturating_add(walks);
            }
        }
    }
}

/// How many walks of one more entry end at each inode.
fn longer(host: &MemHost, now: &Each) -> Each {
    let mut next = [0; 128];
    for i in 0..128u32 {
        let walks = now[i as usize];
        if walks > 0 && is_open(host, i) {
            go_on(host, i, walks, &mut next);
        }
    }
    next
}

/// How many walks end at each inode: those of at most 24 entries, and those of 25.
fn walks(host: &MemHost) -> (Each, Each) {
    let mut short = [0; 128];
    let mut level = [0; 128];
    level[0] = 1;
    for _ in 0..25u32 {
        add(&mut short, &level);
        level = longer(host, &level);
    }
    (short, level)
}

/// Adds the walks that come to an inode to each block that it uses.
fn add_uses(host: &MemHost, i: u32, walks: u32, uses: &mut [u32; 512])
    requires { i < 128 }
{
    let blocks = map_blocks(host, i);
    if blocks > 12 {
        use_block(single(host, i), walks, uses);
    }
    for k in 0..blocks {
        use_block(pointer(host, i, k), walks, uses);
    }
}

fn use_block(address: u32, walks: u32, uses: &mut [u32; 512]) {
    if let Some(n) = uses.get_mut(address as usize) {
        *n = n.saturating_add(walks);
    }
}

/// How many walks come to each block, where a walk counts twice if its inode uses the block twice.
fn block_walks(host: &MemHost, ends: &Each) -> [u32; 512] {
    let mut uses = [0; 512];
    for i in 0..128u32 {
        let walks = ends[i as usize];
        if walks > 0 && is_sound(host, i) {
            add_uses(host, i, walks, &mut uses);
        }
    }
    uses
}

/// The rules of an inode to which walks come.
fn inode_rules(host: &MemHost, i: u32, walks: u32, deep: u32, reading: &mut Reading)
    requires { i < 128 }
{
    if !is_marked(host, i) || walks == 0 {
        return;
    }
    if !kind_fits(host, i) {
        reading.name(Rule::Kind);
    } else if !pointers_fit(host, i) {
        reading.name(Rule::Pointer);
    }
    if walks > 1 {
        reading.name(Rule::InodeTwice);
    }
    if deep > 0 {
        reading.name(Rule::Depth);
    }
}

/// The rules of an entry of a directory, in which it has this place.
fn entry_rules(host: &MemHost, i: u32, k: u32, reading: &mut Reading)
    requires inode { i < 128 }
    requires entry { k < 128 }
{
    let this = read_entry(host, i, k);
    if !is_namable(this.inode) {
        reading.name(Rule::InodeTwice);
    }
    if !is_name(&this) {
        reading.name(Rule::Name);
        return;
    }
    for j in 0..k {
        if has_name(&read_entry(host, i, j), &this) {
            reading.name(Rule::NameTwice);
        }
    }
}

fn has_name(a: &Entry, b: &Entry) -> bool {
    a.len == b.len && a.name == b.name
}

/// The rules of a directory that is looked into.
fn dir_rules(host: &MemHost, i: u32, reading: &mut Reading)
    requires { i < 128 }
{
    for k in 0..count(host, i) {
        entry_rules(host, i, k, reading);
    }
}

/// The rules of blocks and their bits.
fn block_rules(host: &MemHost, uses: &[u32; 512], reading: &mut Reading) {
    for a in 0..512u32 {
        let walks = uses[a as usize];
        if walks > 1 {
            reading.name(Rule::BlockTwice);
        }
        if walks > 0 {
            reading.blocks = reading.blocks.saturating_add(1);
        }
        let wanted = !is_data(a) || walks > 0;
        if is_block_marked(host, a) != wanted {
            reading.name(Rule::Bitmap);
        }
    }
}

/// The rules that speak of the tree.
fn tree_rules(host: &MemHost, reading: &mut Reading) {
    let (short, deep) = walks(host);
    let mut ends = short;
    add(&mut ends, &deep);
    for i in 0..128u32 {
        let walks = ends[i as usize];
        inode_rules(host, i, walks, deep[i as usize], reading);
        if short[i as usize] > 0 && is_open(host, i) {
            dir_rules(host, i, reading);
        }
        if walks > 0 {
            reading.nodes = reading.nodes.saturating_add(1);
        }
        if is_marked(host, i) != (walks > 0) {
            reading.name(Rule::Bitmap);
        }
    }
    block_rules(host, &block_walks(host, &ends), reading);
    let counted = (word_of(host, SUB, 24), word_of(host, SUB, 28));
    if counted != (reading.blocks, reading.nodes) {
        reading.name(Rule::Counts);
    }
}

/// Reads the lot: the first broken rule of those on the sub-super block, else every broken one of those on the tree.
pub(crate) fn read_plainly(host: &MemHost) -> Reading {
    let mut reading = Reading::blank();
    let low = u64::from(word_of(host, SUB, 16));
    let high = u64::from(word_of(host, SUB, 20));
    reading.done = low | high << 32;
    match sub_rule(host) {
        Some(rule) => reading.name(rule),
        None => tree_rules(host, &mut reading),
    }
    reading
}
