//! What a tree answers.
use crate::cost::PlainForm;
use crate::next::written;
use crate::text::{begins, copy_of, depth_of, last_name, longest_name, parent, text_below};
use crate::tree::{End, PlainTree};
use std::alloc::{AllocError, Global};
use tree_spec::{Command, Path, Refusal, Reply, Value};

const DEEPEST: usize = 24;

/// An entry of a listing.
#[derive(Drop)]
pub struct PlainEntry {
    pub name: Vec<u8>,
    pub dir: bool,
}

/// A reply, with the bytes of a read and the entries of a listing, in no order.
#[derive(Drop)]
pub struct PlainReply {
    pub reply: Reply,
    pub bytes: Vec<u8>,
    pub entries: Vec<PlainEntry>,
}

/// The kinds of tree commands.
#[derive(Clone, Copy, Debug, PartialEq, Eq)]
enum Kind {
    Mkdir,
    Make,
    Write,
    Read,
    Trunc,
    Remove,
    Rename,
    List,
    Stat,
    /// No command on a tree.
    Other,
}

/// A command with its paths as texts below the cube's path.
#[derive(Drop)]
struct Asked {
    kind: Kind,
    path: Vec<u8>,
    to: Vec<u8>,
    at: usize,
    len: usize,
    bytes: Vec<u8>,
}

fn simple(alloc: Global, kind: Kind, path: &Path, depth: usize) -> Result<Asked, AllocError> {
    Ok(Asked {
        kind,
        path: text_below(alloc, path, depth)?,
        to: Vec::new(alloc),
        at: 0,
        len: 0,
        bytes: Vec::new(alloc),
    })
}

fn read_command(alloc: Global, command: &Command, depth: usize) -> Result<Asked, AllocError> {
    match command {
        Command::Mkdir { path } => simple(alloc, Kind::Mkdir, path, depth),
        Command::Make { path } => simple(alloc, Kind::Make, path, depth),
        Command::Remove { path } => simple(alloc, Kind::Remove, path, depth),
        Command::List { path } => simple(alloc, Kind::List, path, depth),
        Command::Stat { path } => simple(alloc, Kind::Stat, path, depth),
        Command::Write { path, at, bytes } => {
            let mut asked = simple(alloc, Kind::Write, path, depth)?;
            asked.at = *at as usize;
            asked.bytes = copy_of(alloc, bytes)?;
            Ok(asked)
        }
        Command::Read { path, at, len } => {
            let mut asked = simple(alloc, Kind::Read, path, depth)?;
            asked.at = *at as usize;
            asked.len = *len as usize;
            Ok(asked)
        }
        Command::Trunc { path, len } => {
            let mut asked = simple(alloc, Kind::Trunc, path, depth)?;
            asked.at = *len as usize;
            Ok(asked)
        }
        Command::Rename { path, to } => {
            let mut asked = simple(alloc, Kind::Rename, path, depth)?;
            asked.to = text_below(alloc, to, depth)?;
            Ok(asked)
        }
        _ => simple(alloc, Kind::Other, &Path::root(), 0),
    }
}

/// The number, or the greatest one that fits.
fn short(n: usize) -> u32 {
    match u32::try_from(n) {
        Ok(n) => n,
        Err(_) => u32::MAX,
    }
}

fn is_change(kind: Kind) -> bool {
    match kind {
        Kind::Read | Kind::List | Kind::Stat | Kind::Other => false,
        _ => true,
    }
}

impl PlainTree {
    /// Whether the walk that a command needs ends so.
    fn ends(&self, asked: &Asked, end: End) -> bool {
        let path = asked.path.as_slice();
        match asked.kind {
            Kind::Mkdir | Kind::Make => self.parent_walk(path) == end,
            Kind::Rename => self.walk(path) == end || self.parent_walk(asked.to.as_slice()) == end,
            _ => self.walk(path) == end,
        }
    }

    fn size(&self, text: &[u8]) -> usize {
        match self.find(text) {
            Some(node) => node.bytes.len(),
            None => 0,
        }
    }

    fn too_deep(&self, asked: &Asked) -> bool {
        let path = asked.path.as_slice();
        let to = asked.to.as_slice();
        if depth_of(path) > DEEPEST || depth_of(to) > DEEPEST {
            return true;
        }
        let there = self.walk(path);
        let found = there == End::Dir || there == End::File;
        asked.kind == Kind::Rename
            && found
            && depth_of(to).saturating_add(self.height(path)) > DEEPEST
    }

    /// Whether something else stands where the command makes something.
    fn is_taken(&self, asked: &Asked) -> bool {
        let target = match asked.kind {
            Kind::Mkdir | Kind::Make => asked.path.as_slice(),
            Kind::Rename => asked.to.as_slice(),
            _ => return false,
        };
        let end = self.walk(target);
        let same = asked.kind == Kind::Rename && asked.path.as_slice() == target;
        (end == End::Dir || end == End::File) && !same
    }

    /// The refusal of the lowest number, of those that need no next tree.
    fn refusal(&self, asked: &Asked, form: PlainForm) -> Option<Refusal> {
        let path = asked.path.as_slice();
        let to = asked.to.as_slice();
        let kind = asked.kind;
        let here = self.walk(path);
        let on_bytes = kind == Kind::Write || kind == Kind::Read || kind == Kind::Trunc;
        let on_place = kind == Kind::Mkdir
            || kind == Kind::Make
            || kind == Kind::Remove
            || kind == Kind::Rename;
        if longest_name(path) > form.longest_name || longest_name(to) > form.longest_name {
            return Some(Refusal::NameLong);
        }
        if self.too_deep(asked) {
            return Some(Refusal::TooDeep);
        }
        if self.ends(asked, End::NotFound) {
            return Some(Refusal::NotFound);
        }
        if self.ends(asked, End::NotDir) || (kind == Kind::List && here == End::File) {
            return Some(Refusal::NotDir);
        }
        if on_bytes && here == End::Dir {
            return Some(Refusal::IsDir);
        }
        if on_place && (path.is_empty() || (kind == Kind::Rename && to.is_empty())) {
            return Some(Refusal::IsRoot);
        }
        self.later_refusal(asked, form)
    }

    fn later_refusal(&self, asked: &Asked, form: PlainForm) -> Option<Refusal> {
        let path = asked.path.as_slice();
        let to = asked.to.as_slice();
        let kind = asked.kind;
        let on_bytes = kind == Kind::Write || kind == Kind::Read || kind == Kind::Trunc;
        if self.is_taken(asked) {
            return Some(Refusal::Exists);
        }
        if kind == Kind::Remove && self.entries(path) > 0 {
            return Some(Refusal::NotEmpty);
        }
        if kind == Kind::Rename && begins(path, to) && path != to {
            return Some(Refusal::IntoItself);
        }
        if on_bytes && asked.at > self.size(path) {
            return Some(Refusal::BeyondEnd);
        }
        if kind == Kind::Write && asked.at.saturating_add(asked.bytes.len()) > form.longest_file {
            return Some(Refusal::FileBig);
        }
        None
    }

    fn next(&self, alloc: Global, asked: &Asked) -> Result<PlainTree, AllocError> {
        let path = asked.path.as_slice();
        let empty = Vec::new(alloc);
        let old = match self.find(path) {
            Some(node) => node.bytes.as_slice(),
            None => empty.as_slice(),
        };
        match asked.kind {
            Kind::Mkdir => self.with_node(alloc, path, true),
            Kind::Make => self.with_node(alloc, path, false),
            Kind::Write => {
                let bytes = written(alloc, old, asked.at, asked.bytes.as_slice())?;
                self.with_bytes(alloc, path, bytes.as_slice())
            }
            Kind::Trunc => {
                let (kept, _) = old.split_at(old.len().min(asked.at));
                self.with_bytes(alloc, path, kept)
            }
            Kind::Remove => self.without(alloc, path),
            Kind::Rename => self.moved(alloc, path, asked.to.as_slice()),
            _ => Ok(PlainTree::new(alloc)),
        }
    }

    /// The value of a command that is accepted and changes nothing.
    fn value(
        &self,
        alloc: Global,
        asked: &Asked,
        into: &mut PlainReply,
    ) -> Result<Value, AllocError> {
        let path = asked.path.as_slice();
        match asked.kind {
            Kind::Read => {
                if let Some(node) = self.find(path) {
                    let end = asked.at.saturating_add(asked.len);
                    for (i, b) in node.bytes.iter().enumerate() {
                        if i >= asked.at && i < end {
                            into.bytes.push(*b)?;
                        }
                    }
                }
                Ok(Value::Bytes)
            }
            Kind::List => {
                for node in &self.nodes {
                    if parent(node.text.as_slice()) == path {
                        into.entries.push(PlainEntry {
                            name: copy_of(alloc, last_name(node.text.as_slice()))?,
                            dir: node.is_dir,
                        })?;
                    }
                }
                Ok(Value::Listed(short(self.entries(path))))
            }
            Kind::Stat => Ok(match self.find(path) {
                Some(node) => {
                    if node.is_dir {
                        Value::Dir(short(self.entries(path)))
                    } else {
                        Value::File(short(node.bytes.len()))
                    }
                }
                None => Value::Dir(short(self.entries(path))),
            }),
            _ => Ok(Value::Plain),
        }
    }
}

/// What a tree with `done` accepted commands in so many groups answers to a tree command, and what it is after it.
///
/// The first `depth` names of each path are those of the cube's path. A command on no tree is answered Plain.
pub fn answer(
    alloc: Global,
    tree: PlainTree,
    done: u64,
    groups: u32,
    form: PlainForm,
    command: &Command,
    depth: usize,
) -> Result<(PlainReply, PlainTree), AllocError> {
    let asked = read_command(alloc, command, depth)?;
    let mut reply = PlainReply {
        reply: Ok(Value::Plain),
        bytes: Vec::new(alloc),
        entries: Vec::new(alloc),
    };
    if let Some(refusal) = tree.refusal(&asked, form) {
        reply.reply = Err(refusal);
        return Ok((reply, tree));
    }
    if !is_change(asked.kind) {
        reply.reply = Ok(tree.value(alloc, &asked, &mut reply)?);
        return Ok((reply, tree));
    }
    let next = tree.next(alloc, &asked)?;
    if next.node_count() as u64 > u64::from(groups).saturating_mul(64) {
        reply.reply = Err(Refusal::NoNodes);
        return Ok((reply, tree));
    }
    if next.block_count(form) > u64::from(groups).saturating_mul(247) {
        reply.reply = Err(Refusal::NoSpace);
        return Ok((reply, tree));
    }
    if done == 0x7FFF_FFFF_FFFF_FFFF {
        reply.reply = Err(Refusal::Spent);
        return Ok((reply, tree));
    }
    Ok((reply, next))
}
