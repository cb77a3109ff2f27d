//! A line that is gathered byte by byte.
ghost use Rattle.std.specs.Prelude.{◌≡◌, ◌==◌, ◌&&◌, ◌++◌, ◌∷◌, [], IfOk, IfErr, take, false, if◌then◌else◌, not, length};
ghost use Rattle.tree_spec.specs.Lines.{Asks, asked};
ghost use Rattle.ice_script.specs.Grammar.{line_of};
ghost use Rattle.ice_script.specs.Bounds.{InBounds};
ghost use Rattle.ice_script.specs.Reading.{IsRefusedAs};

use crate::command::{lend, parse};
use std::alloc::{AllocError, Global};
use std::marker::Model;
use tree_spec::{Command, Refusal};

// One byte more than the longest line, which says that a line is too long.
const LINE_KEPT: usize = 40001;

// The bytes that two hex digits each make, where the longest line had nothing else.
const BYTES_KEPT: usize = 20000;

/// The line that is gathered: its first 40,001 bytes, and whether an LF ended it, so that it stands ready; and room for the bytes of a `write`.
#[derive(Drop)]
pub struct LineReader {
    line: Vec<u8>,
    bytes: Vec<u8>,
    ended: bool,
}

impl Model for LineReader {
    ghost use Rattle.std.specs.Prelude.{◌≡◌, ◌≤◌, vec_len, vec_capacity};
    ghost use Rattle.ice_script.specs.Reading.{Gathered};

    ghost Value = { Gathered };

    ghost view = { λ r. record { text = r.line.items; ended = r.ended } };

    ghost invariant = { λ r. (vec_len r.line ≤ 40001) × (40001 ≤ vec_capacity r.line) × (vec_len r.bytes ≡ 20000) };
}

impl LineReader {
    /// A reader of no bytes. No later call takes memory.
    pub fn new(alloc: Global) -> Result<LineReader, AllocError>
        ensures text { IfOk result (λ r. r.text ≡ []) }
        ensures state { IfOk result (λ r. r.ended ≡ false) }
    {
        let line = Vec::with_capacity(alloc, LINE_KEPT)?;
        let bytes = vec![in alloc; 0; BYTES_KEPT]?;
        Ok(LineReader {
            line,
            bytes,
            ended: false,
        })
    }

    /// Whether the byte was the LF that ends the line, which then stands ready.
    pub fn push(&mut self, byte: u8) -> bool
        requires { self.old.ended ≡ false }
        ensures ended { result ≡ (byte == 10) }
        ensures state { self.new.ended ≡ result }
        ensures text { self.new.text ≡ (if byte == 10 then self.old.text else take 40001 (self.old.text ++ byte ∷ [])) }
    {
        if byte == b'\n' {
            self.ended = true;
            return true;
        }
        if self.line.len() < LINE_KEPT {
            self.line.push_reserved(byte);
        }
        false
    }

    /// Whether bytes stand after the last LF. Where an LF ended the line, none do.
    pub fn finish(&mut self) -> bool
        ensures some { result ≡ (not self.old.ended && not (length self.old.text == 0)) }
        ensures same { self.new ≡ self.old }
    {
        !self.ended && !self.line.is_empty()
    }

    /// The command of the line, or its refusal, the first that applies to the whole line: Long,
    /// more than 40,000 bytes; Word, the first token is no command word; Args, another number of
    /// further tokens than the word has; Number, a token that should be a number isn't one, or a
    /// number of groups is 0; Hex, the token of bytes isn't one; Long, more than 16,384 bytes to
    /// write or to read; Path, a token that should be a path isn't one, or a new cube's path has
    /// more than 199 bytes. The bytes of a command stay in the reader. What the reader holds
    /// afterwards is left open until `clear`.
    pub fn command(&mut self) -> Result<Command<'_>, Refusal>
        ensures asks { IfOk result (λ c. line_of self.old.text ≡ Asks (asked c)) }
        ensures bounds { IfOk result (λ c. InBounds (asked c)) }
        ensures refuses { IfErr result (λ e. IsRefusedAs (line_of self.old.text) e) }
    {
        if self.line.len() >= LINE_KEPT {
            return Err(Refusal::Long);
        }
        match parse(&self.line, &mut self.bytes) {
            Ok(parsed) => Ok(lend(&self.bytes, parsed)),
            Err(refusal) => Err(refusal),
        }
    }

    /// Makes it ready for the next line.
    pub fn clear(&mut self)
        ensures text { self.new.text ≡ [] }
        ensures state { self.new.ended ≡ false }
    {
        self.line.clear();
        self.ended = false;
    }
}
