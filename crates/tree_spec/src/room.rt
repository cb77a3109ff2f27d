//! Room that answers are put into, which takes no memory once it is made.
ghost use Rattle.std.specs.Prelude.{◌≡◌, ◌+◌, ◌<◌, ◌≤◌, [], ◌∷◌, ◌++◌, length, IfOk, IsPermutation, IsSorted};
ghost use Rattle.tree_spec.specs.Held.{by_name, most_bytes, most_entries, most_rows};

use crate::reply::{CubeRow, Entry};
use std::alloc::{AllocError, Global};
use std::cmp::Ordering;
use std::marker::Model;

const BYTES_KEPT: usize = 16384;

const ENTRIES_KEPT: usize = 4095;

const ROWS_KEPT: usize = 16;

/// The bytes, entries and rows of one answer: at most 16,384 bytes, 4,095 entries and 16 rows.
#[derive(Drop)]
pub struct Room {
    bytes: Vec<u8>,
    entries: Vec<Entry>,
    rows: Vec<CubeRow>,
}

impl Model for Room {
    ghost use Rattle.std.specs.Prelude.{vec_capacity};
    ghost use Rattle.tree_spec.specs.Held.{RoomContent, HasRoom};

    ghost Value = { RoomContent };

    ghost view = { λ a. record { bytes = a.bytes.items; entries = a.entries.items; rows = a.rows.items } };

    ghost invariant = { λ a. HasRoom (record { bytes = a.bytes.items; entries = a.entries.items; rows = a.rows.items })
        (vec_capacity a.bytes) (vec_capacity a.entries) (vec_capacity a.rows) };
}

fn compare_names(a: &Entry, b: &Entry) -> Ordering
    ensures { result ≡ by_name a.now b.now }
{
    a.name.bytes().cmp(b.name.bytes())
}

impl Room {
    /// An empty room. No later call takes memory.
    pub fn new(alloc: Global) -> Result<Room, AllocError>
        ensures bytes { IfOk result (λ r. r.bytes ≡ []) }
        ensures entries { IfOk result (λ r. r.entries ≡ []) }
        ensures rows { IfOk result (λ r. r.rows ≡ []) }
    {
        let bytes = Vec::with_capacity(alloc, BYTES_KEPT)?;
        let entries = Vec::with_capacity(alloc, ENTRIES_KEPT)?;
        let rows = Vec::with_capacity(alloc, ROWS_KEPT)?;
        Ok(Room {
            bytes,
            entries,
            rows,
        })
    }

    pub fn bytes(&self) -> &[u8]
        ensures value { result.now ≡ self.now.bytes }
        ensures few { length self.now.bytes ≤ most_bytes }
    {
        self.bytes.as_slice()
    }

    pub fn entries(&self) -> &[Entry]
        ensures value { result.now ≡ self.now.entries }
        ensures few { length self.now.entries ≤ most_entries }
    {
        self.entries.as_slice()
    }

    pub fn rows(&self) -> &[CubeRow]
        ensures value { result.now ≡ self.now.rows }
        ensures few { length self.now.rows ≤ most_rows }
    {
        self.rows.as_slice()
    }

    pub fn clear(&mut self)
        ensures bytes { self.new.bytes ≡ [] }
        ensures entries { self.new.entries ≡ [] }
        ensures rows { self.new.rows ≡ [] }
    {
        self.bytes.clear();
        self.entries.clear();
        self.rows.clear();
    }

    pub fn add_bytes(&mut self, bytes: &[u8])
        requires { length self.old.bytes + length bytes.now ≤ most_bytes }
        ensures bytes { self.new.bytes ≡ self.old.bytes ++ bytes.now }
        ensures entries { self.new.entries ≡ self.old.entries }
        ensures rows { self.new.rows ≡ self.old.rows }
    {
        let _ = self.bytes.extend_from_slice(bytes);
    }

    pub fn add_entry(&mut self, entry: Entry)
        requires { length self.old.entries < most_entries }
        ensures bytes { self.new.bytes ≡ self.old.bytes }
        ensures entries { self.new.entries ≡ self.old.entries ++ entry ∷ [] }
        ensures rows { self.new.rows ≡ self.old.rows }
    {
        self.entries.push_reserved(entry);
    }

    pub fn add_row(&mut self, row: CubeRow)
        requires { length self.old.rows < most_rows }
        ensures bytes { self.new.bytes ≡ self.old.bytes }
        ensures entries { self.new.entries ≡ self.old.entries }
        ensures rows { self.new.rows ≡ self.old.rows ++ row ∷ [] }
    {
        self.rows.push_reserved(row);
    }

    /// Puts the entries in ascending order of the bytes of their names, a prefix first.
    pub fn sort_entries(&mut self)
        ensures bytes { self.new.bytes ≡ self.old.bytes }
        ensures permutation { IsPermutation self.old.entries self.new.entries }
        ensures sorted { IsSorted by_name self.new.entries }
        ensures rows { self.new.rows ≡ self.old.rows }
    {
        self.entries.sort_unstable_by(|a, b| compare_names(a, b));
    }
}
