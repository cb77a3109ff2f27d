//! The words of a command line.
ghost use Rattle.std.specs.Prelude.{◌≡◌, ◌<◌, ◌++◌, [], ◌∷◌, length, OnOk, OnErr, slice_index_or};
ghost use Rattle.ice_base.specs.Words.{texts};

use std::alloc::{AllocError, Global};
use std::marker::Model;

/// The words of a command line after the program's own name, seen as a list of the bytes of each.
#[derive(Drop)]
pub struct Words {
    alloc: Global,
    words: Vec<String>,
}

impl Model for Words {
    ghost use Rattle.std.specs.Prelude.{List, ℕ};
    ghost use Rattle.ice_base.specs.Words.{texts};

    ghost Value = { List (List ℕ) };

    ghost view = { λ w. texts w.words.items };
}

impl Words {
    /// No words.
    pub fn new(alloc: Global) -> Words
        ensures { result ≡ [] }
    {
        Words {
            alloc,
            words: Vec::new(alloc),
        }
    }

    /// Adds a word at the end. After an `Err` the words are as they were.
    pub fn push(&mut self, word: &str) -> Result<(), AllocError>
        ensures pushed { OnOk result (self.new ≡ self.old ++ word.now ∷ []) }
        ensures same { OnErr result (self.new ≡ self.old) }
    {
        let text = String::from_str(self.alloc, word)?;
        self.words.push(text)?;
        Ok(())
    }

    /// The number of words.
    pub fn len(&self) -> usize
        ensures { result ≡ length self.now }
    {
        self.words.len()
    }

    /// The i-th word, counted from 0.
    pub fn word(&self, i: usize) -> &str
        requires { i < length self.now }
        ensures { result.now ≡ slice_index_or self.now i [] }
    {
        self.words[i].as_str()
    }
}
