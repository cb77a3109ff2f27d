//! A flat list of files and directories.
use crate::cost::{PlainForm, cost_of};
use crate::text::{begins, depth_of, parent};
use std::alloc::Global;

/// A file or a directory below the root.
#[derive(Drop)]
pub(crate) struct Node {
    pub(crate) text: Vec<u8>,
    pub(crate) is_dir: bool,
    pub(crate) bytes: Vec<u8>,
}

/// A tree: what stands below the root, in no order. The root is a directory.
#[derive(Drop)]
pub struct PlainTree {
    pub(crate) nodes: Vec<Node>,
}

/// Where a walk ends.
#[derive(Clone, Copy, Debug, PartialEq, Eq)]
pub(crate) enum End {
    Dir,
    File,
    NotFound,
    NotDir,
}

impl PlainTree {
    /// The empty root.
    pub fn new(alloc: Global) -> PlainTree {
        PlainTree {
            nodes: Vec::new(alloc),
        }
    }

    pub(crate) fn find(&self, text: &[u8]) -> Option<&Node> {
        let mut found = None;
        for node in &self.nodes {
            if node.text.as_slice() == text {
                found = Some(node);
            }
        }
        found
    }

    fn end_at(&self, text: &[u8]) -> End {
        if text.is_empty() {
            return End::Dir;
        }
        match self.find(text) {
            None => End::NotFound,
            Some(node) => { if node.is_dir { End::Dir } else { End::File } }
        }
    }

    /// The end of the walk of these names.
    pub(crate) fn walk(&self, text: &[u8]) -> End {
        for (i, b) in text.iter().enumerate() {
            if *b == b'/' {
                let (front, _) = text.split_at(i);
                match self.end_at(front) {
                    End::Dir => {}
                    End::File => return End::NotDir,
                    other => return other,
                }
            }
        }
        self.end_at(text)
    }

    /// The end of the walk to the directory of the last name.
    pub(crate) fn parent_walk(&self, text: &[u8]) -> End {
        match self.walk(parent(text)) {
            End::File => End::NotDir,
            other => other,
        }
    }

    /// The number of entries of a directory.
    pub(crate) fn entries(&self, text: &[u8]) -> usize {
        let mut count: usize = 0;
        for node in &self.nodes {
            if parent(node.text.as_slice()) == text {
                count = count.saturating_add(1);
            }
        }
        count
    }

    /// The height of what stands at a path.
    pub(crate) fn height(&self, text: &[u8]) -> usize {
        let mut height: usize = 0;
        let top = depth_of(text);
        for node in &self.nodes {
            let below = depth_of(node.text.as_slice()).saturating_sub(top);
            if begins(text, node.text.as_slice()) && below > height {
                height = below;
            }
        }
        height
    }

    /// The number of files and directories, the root among them.
    pub fn node_count(&self) -> usize {
        self.nodes.len().saturating_add(1)
    }

    /// The blocks that files and directories use.
    pub fn block_count(&self, form: PlainForm) -> u64 {
        let mut count = cost_of(self.entries(b""), form.entries_per_block);
        for node in &self.nodes {
            let cost = if node.is_dir {
                cost_of(self.entries(node.text.as_slice()), form.entries_per_block)
            } else {
                cost_of(node.bytes.len(), 1024)
            };
            count = count.saturating_add(cost);
        }
        count
    }
}
