//! The bytes of a reply, with room for the longest.
ghost use Rattle.std.specs.Prelude.{◌≡◌, ◌≤◌, ◌+◌, ◌++◌, [], length, decimal, IfOk};
ghost use Rattle.ice_text.specs.Text.{most_text};

use std::alloc::{AllocError, Global};
use std::marker::Model;

const TEXT_KEPT: usize = 600000;

/// The bytes of a reply, at most 600,000.
#[derive(Drop)]
pub struct Out {
    text: Vec<u8>,
}

impl Model for Out {
    ghost use Rattle.std.specs.Prelude.{List, ℕ, ◌≤◌, vec_capacity};
    ghost use Rattle.ice_text.specs.Text.{most_text};

    ghost Value = { List ℕ };

    ghost view = { λ o. o.text.items };

    ghost invariant = { λ o. most_text ≤ vec_capacity o.text };
}

impl Out {
    /// Without bytes. No later call takes memory.
    pub fn new(alloc: Global) -> Result<Out, AllocError>
        ensures { IfOk result (λ o. o ≡ []) }
    {
        let text = Vec::with_capacity(alloc, TEXT_KEPT)?;
        Ok(Out { text })
    }

    pub fn bytes(&self) -> &[u8]
        ensures { result.now ≡ self.now }
    {
        self.text.as_slice()
    }

    pub fn clear(&mut self)
        ensures { self.new ≡ [] }
    {
        self.text.clear();
    }

    pub(crate) fn add(&mut self, bytes: &[u8])
        requires { length self.old + length bytes.now ≤ most_text }
        ensures { self.new ≡ self.old ++ bytes.now }
    {
        let _ = self.text.extend_from_slice(bytes);
    }

    pub(crate) fn add_number(&mut self, number: u64)
        requires { length self.old + 20 ≤ most_text }
        ensures text { self.new ≡ self.old ++ decimal number }
        ensures short { length self.new ≤ length self.old + 20 }
    {
        let mut digits = itoa::Buffer::new();
        let text = digits.format(number);
        self.add(text.as_bytes());
    }
}
