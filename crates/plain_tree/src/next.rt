//! The trees that commands make.
use crate::text::{begins, copy_of};
use crate::tree::{Node, PlainTree};
use std::alloc::{AllocError, Global};

/// The bytes with others in their place from an offset on.
pub(crate) fn written(
    alloc: Global,
    old: &[u8],
    off: usize,
    new: &[u8],
) -> Result<Vec<u8>, AllocError> {
    let mut bytes = Vec::new(alloc);
    for (i, b) in old.iter().enumerate() {
        if i < off {
            bytes.push(*b)?;
        }
    }
    bytes.extend_from_slice(new)?;
    for (i, b) in old.iter().enumerate() {
        if i >= off.saturating_add(new.len()) {
            bytes.push(*b)?;
        }
    }
    Ok(bytes)
}

impl PlainTree {
    fn copy(&self, alloc: Global) -> Result<PlainTree, AllocError> {
        let mut nodes = Vec::new(alloc);
        for node in &self.nodes {
            nodes.push(Node {
                text: copy_of(alloc, node.text.as_slice())?,
                is_dir: node.is_dir,
                bytes: copy_of(alloc, node.bytes.as_slice())?,
            })?;
        }
        Ok(PlainTree { nodes })
    }

    /// The tree with an empty file or directory more.
    pub(crate) fn with_node(
        &self,
        alloc: Global,
        text: &[u8],
        is_dir: bool,
    ) -> Result<PlainTree, AllocError> {
        let mut next = self.copy(alloc)?;
        next.nodes.push(Node {
            text: copy_of(alloc, text)?,
            is_dir,
            bytes: Vec::new(alloc),
        })?;
        Ok(next)
    }

    /// The tree with other bytes in a file.
    pub(crate) fn with_bytes(
        &self,
        alloc: Global,
        text: &[u8],
        bytes: &[u8],
    ) -> Result<PlainTree, AllocError> {
        let mut next = PlainTree::new(alloc);
        for node in &self.nodes {
            let kept = if node.text.as_slice() == text {
                bytes
            } else {
                node.bytes.as_slice()
            };
            next.nodes.push(Node {
                text: copy_of(alloc, node.text.as_slice())?,
                is_dir: node.is_dir,
                bytes: copy_of(alloc, kept)?,
            })?;
        }
        Ok(next)
    }

    /// The tree without what stands at a path.
    pub(crate) fn without(&self, alloc: Global, text: &[u8]) -> Result<PlainTree, AllocError> {
        let mut next = PlainTree::new(alloc);
        for node in &self.nodes {
            if node.text.as_slice() != text {
                next.nodes.push(Node {
                    text: copy_of(alloc, node.text.as_slice())?,
                    is_dir: node.is_dir,
                    bytes: copy_of(alloc, node.bytes.as_slice())?,
                })?;
            }
        }
        Ok(next)
    }

    /// The tree with what stands at one path at another.
    pub(crate) fn moved(
        &self,
        alloc: Global,
        from: &[u8],
        to: &[u8],
    ) -> Result<PlainTree, AllocError> {
        let mut next = PlainTree::new(alloc);
        for node in &self.nodes {
            next.nodes.push(Node {
                text: moved_text(alloc, node.text.as_slice(), from, to)?,
                is_dir: node.is_dir,
                bytes: copy_of(alloc, node.bytes.as_slice())?,
            })?;
        }
        Ok(next)
    }
}

fn moved_text(alloc: Global, text: &[u8], from: &[u8], to: &[u8]) -> Result<Vec<u8>, AllocError> {
    if !begins(from, text) || text.len() < from.len() {
        return copy_of(alloc, text);
    }
    let (_, rest) = text.split_at(from.len());
    let mut moved = copy_of(alloc, to)?;
    moved.extend_from_slice(rest)?;
    Ok(moved)
}
