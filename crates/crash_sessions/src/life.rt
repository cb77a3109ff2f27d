//! One cube from its making to its end, as the plain tree tells it.
use crate::looks::Looks;
use crate::text::{add_plain, add_reply, reader_of};
use plain_tree::{PlainReply, PlainTree, answer, form_one};
use std::alloc::{AllocError, Global};
use std::mem;
use tree_spec::{Command, Reply, Value};

/// A cube's tree, and what the looks at it are answered after each number of accepted changes.
#[derive(Drop)]
pub struct Life {
    /// The number of names of the cube's path.
    depth: usize,
    groups: u32,
    tree: PlainTree,
    done: u64,
    /// The replies to the looks behind `mount`, after 0 changes, after one, and so on.
    views: Vec<String>,
}

impl Life {
    /// A new cube of so many groups.
    pub fn new(alloc: Global, looks: &Looks, groups: u32) -> Result<Life, AllocError> {
        let mut life = Life {
            depth: looks.path.len(),
            groups,
            tree: PlainTree::new(alloc),
            done: 0,
            views: Vec::new(alloc),
        };
        life.look(alloc, looks)?;
        Ok(life)
    }

    /// Gives the cube so many groups more.
    pub fn widen(&mut self, groups: u32) {
        self.groups = self.groups.saturating_add(groups);
    }

    /// What the looks behind `mount` are answered after so many accepted changes.
    pub fn view(&self, count: u64) -> Option<&str> {
        let at = usize::try_from(count).ok()?;
        Some(self.views.get(at)?.as_str())
    }

    /// What a check of the cube answers.
    pub fn checked(&self) -> Reply {
        Ok(Value::Checked {
            blocks: u32::try_from(self.tree.block_count(form_one())).unwrap_or(u32::MAX),
            nodes: u32::try_from(self.tree.node_count()).unwrap_or(u32::MAX),
            done: self.done,
        })
    }

    /// Adds what the tree replies to the command, and says whether it was an accepted change.
    pub fn answer(
        &mut self,
        alloc: Global,
        looks: &Looks,
        command: &Command,
        text: &mut String,
    ) -> Result<bool, AllocError> {
        let mut plain = self.ask(alloc, command)?;
        add_reply(alloc, &mut plain, text)?;
        if plain.reply != Ok(Value::Plain) {
            return Ok(false);
        }
        self.done = self.done.saturating_add(1);
        self.look(alloc, looks)?;
        Ok(true)
    }

    fn ask(&mut self, alloc: Global, command: &Command) -> Result<PlainReply, AllocError> {
        let tree = mem::replace(&mut self.tree, PlainTree::new(alloc));
        let (plain, tree) = answer(
            alloc,
            tree,
            self.done,
            self.groups,
            form_one(),
            command,
            self.depth,
        )?;
        self.tree = tree;
        Ok(plain)
    }

    /// Notes what the looks are answered now.
    fn look(&mut self, alloc: Global, looks: &Looks) -> Result<(), AllocError> {
        let mut text = String::new(alloc);
        for line in &looks.lines {
            self.add_look(alloc, line.as_str(), &mut text)?;
        }
        self.views.push(text)?;
        Ok(())
    }

    fn add_look(&mut self, alloc: Global, line: &str, text: &mut String) -> Result<(), AllocError> {
        let mut reader = reader_of(alloc, line)?;
        match reader.command() {
            Ok(Command::Check { .. }) => add_plain(&self.checked(), text),
            Ok(command) => {
                let mut plain = self.ask(alloc, &command)?;
                add_reply(alloc, &mut plain, text)
            }
            Err(refusal) => add_plain(&Err(refusal), text),
        }
    }
}
