//! One cube in a host in memory, and the plain tree beside it.
ghost use Rattle.std.specs.Prelude.{◌≡◌, ◌≤◌, true, length};
ghost use Rattle.ice_base.specs.Lots.{is_sited};

use crate::calls::reply;
use crate::lines::command_of;
use disk_mem::MemHost;
use fresh_lots::{BLOCKS, fresh, one_group, two_groups};
use ice_base::{Disk, Keep, Lot, SUB};
use ice_layout::read_sub;
use ice_path::is_prefix;
use plain_tree::{PlainReply, PlainTree, answer, form_one};
use std::alloc::{AllocError, Global};
use std::mem;
use tree_spec::{Command, Path, Refusal, Reply, Room, Value};

/// The cube: its path, and the number of its groups, 1 or 2.
#[derive(Drop)]
struct Cube {
    path: Path,
    groups: u32,
}

impl Cube {
    fn lot(&self) -> Lot
        ensures sited { is_sited result 800 ≡ true }
        ensures some { 1 ≤ length result.groups }
    {
        if self.groups > 1 {
            two_groups()
        } else {
            one_group()
        }
    }

    fn is_at(&self, path: &Path) -> bool {
        self.path.text() == path.text()
    }

    /// Whether the paths of a tree command lie below the cube's path.
    fn has(&self, command: &Command) -> bool {
        match command {
            Command::Mkdir { path }
            | Command::Make { path }
            | Command::Write { path, .. }
            | Command::Read { path, .. }
            | Command::Trunc { path, .. }
            | Command::Remove { path }
            | Command::List { path }
            | Command::Stat { path } => is_prefix(&self.path, path),
            Command::Rename { path, to } => is_prefix(&self.path, path)
                && is_prefix(&self.path, to),
            _ => false,
        }
    }
}

/// A reply, and whether the plain tree gives the same one with the same bytes and entries.
#[derive(Clone, Copy, Debug, PartialEq, Eq)]
pub struct Answer {
    pub reply: Reply,
    pub agrees: bool,
}

/// An image of one slot and two groups, whose one cube answers lines.
#[derive(Drop)]
pub struct Session {
    pub host: MemHost,
    pub room: Room,
    cube: Option<Cube>,
    tree: PlainTree,
    /// The number of accepted changes.
    done: u64,
}

/// Whether the room holds what the plain reply holds, with the entries in the order of their names.
fn agrees(got: &Reply, room: &Room, plain: &PlainReply) -> bool {
    if *got != plain.reply {
        return false;
    }
    match got {
        Ok(Value::Bytes) => room.bytes() == plain.bytes.as_slice(),
        Ok(Value::Listed(_)) => has_entries(room, plain),
        _ => true,
    }
}

fn has_entries(room: &Room, plain: &PlainReply) -> bool {
    let mut last: &[u8] = b"";
    for entry in room.entries() {
        let name = entry.name.bytes();
        let is_there = plain
            .entries
            .iter()
            .any(|p| p.name.as_slice() == name && p.dir == entry.dir);
        if name <= last || !is_there {
            return false;
        }
        last = name;
    }
    room.entries().len() == plain.entries.len()
}

/// The blocks, inodes and accepted changes that the sub-super block counts.
fn counts<K: Keep<MemHost>>(keep: &mut K, host: &mut MemHost, lot: &Lot) -> Reply
    requires { is_sited lot.now 800 ≡ true }
{
    if host.blocks() != BLOCKS {
        return Err(Refusal::Fault);
    }
    let mut block = [0; 1024];
    if keep.get(host, lot, SUB, &mut block).is_err() {
        return Err(Refusal::Fault);
    }
    match read_sub(&block, 0) {
        Ok(sub) => Ok(Value::Checked {
            blocks: sub.blocks,
            nodes: sub.nodes,
            done: sub.done,
        }),
        Err(rule) => Err(Refusal::Damaged(rule as u8)),
    }
}

impl Session {
    /// An image without a cube.
    pub fn new(alloc: Global) -> Result<Session, AllocError> {
        Ok(Session {
            host: fresh(alloc)?,
            room: Room::new(alloc)?,
            cube: None,
            tree: PlainTree::new(alloc),
            done: 0,
        })
    }

    /// What a line is answered. A keep that holds blocks serves one cube.
    pub fn line<K: Keep<MemHost>>(
        &mut self,
        alloc: Global,
        keep: &mut K,
        line: &[u8],
        bytes: &mut [u8],
    ) -> Result<Answer, AllocError> {
        self.room.clear();
        match command_of(line, bytes) {
            Ok(command) => self.answer(alloc, keep, command),
            Err(refusal) => Ok(same(Err(refusal))),
        }
    }

    fn answer<K: Keep<MemHost>>(
        &mut self,
        alloc: Global,
        keep: &mut K,
        command: Command,
    ) -> Result<Answer, AllocError> {
        match command {
            Command::Create { path, groups } => self.create(alloc, path, groups),
            Command::Delete { path } => Ok(same(self.delete(&path))),
            Command::Grow { path, groups } => Ok(same(self.grow(&path, groups))),
            Command::Check { path } => Ok(self.check(keep, &path)),
            command => self.ask(alloc, keep, &command),
        }
    }

    fn create(&mut self, alloc: Global, path: Path, groups: u32) -> Result<Answer, AllocError> {
        if let Some(cube) = &self.cube {
            let refusal = if cube.is_at(&path) {
                Refusal::Exists
            } else {
                Refusal::NoSlot
            };
            return Ok(same(Err(refusal)));
        }
        if groups > 64 {
            return Ok(same(Err(Refusal::CubeFull)));
        }
        if groups > 2 {
            return Ok(same(Err(Refusal::NoGroups)));
        }
        self.host = fresh(alloc)?;
        self.tree = PlainTree::new(alloc);
        self.done = 0;
        self.cube = Some(Cube { path, groups });
        Ok(same(Ok(Value::Plain)))
    }

    fn delete(&mut self, path: &Path) -> Reply {
        match &self.cube {
            Some(cube) if cube.is_at(path) => {}
            _ => return Err(Refusal::NoCube),
        }
        self.cube = None;
        Ok(Value::Plain)
    }

    fn grow(&mut self, path: &Path, groups: u32) -> Reply {
        match &mut self.cube {
            Some(cube) if cube.is_at(path) => {
                let wider = cube.groups.saturating_add(groups);
                if wider > 64 {
                    return Err(Refusal::CubeFull);
                }
                if wider > 2 {
                    return Err(Refusal::NoGroups);
                }
                cube.groups = wider;
                Ok(Value::Plain)
            }
            _ => Err(Refusal::NoCube),
        }
    }

    fn check<K: Keep<MemHost>>(&mut self, keep: &mut K, path: &Path) -> Answer {
        match &self.cube {
            Some(cube) if cube.is_at(path) => {
                let reply = counts(keep, &mut self.host, &cube.lot());
                Answer {
                    reply,
                    agrees: self.has_counts(&reply),
                }
            }
            _ => same(Err(Refusal::NoCube)),
        }
    }

    /// Whether these are the blocks, nodes and accepted changes of the plain tree.
    fn has_counts(&self, reply: &Reply) -> bool {
        match reply {
            Ok(
                Value::Checked {
                    blocks,
                    nodes,
                    done,
                },
            ) => {
                u64::from(*blocks) == self.tree.block_count(form_one())
                    && u64::from(*nodes) == self.tree.node_count() as u64
                    && *done == self.done
            }
            _ => false,
        }
    }

    fn ask<K: Keep<MemHost>>(
        &mut self,
        alloc: Global,
        keep: &mut K,
        command: &Command,
    ) -> Result<Answer, AllocError> {
        match &self.cube {
            Some(cube) if cube.has(command) => {
                let (lot, groups, depth) = (cube.lot(), cube.groups, cube.path.len());
                let got = reply(keep, &mut self.host, &lot, command, depth, &mut self.room);
                let tree = mem::replace(&mut self.tree, PlainTree::new(alloc));
                let (plain, tree) = answer(
                    alloc,
                    tree,
                    self.done,
                    groups,
                    form_one(),
                    command,
                    depth,
                )?;
                self.tree = tree;
                if got == Ok(Value::Plain) {
                    self.done = self.done.saturating_add(1);
                }
                Ok(Answer {
                    reply: got,
                    agrees: agrees(&got, &self.room, &plain),
                })
            }
            _ => Ok(same(Err(Refusal::NoCube))),
        }
    }
}

/// A reply in which the plain tree has no part.
fn same(reply: Reply) -> Answer {
    Answer {
        reply,
        agrees: true,
    }
}
