//! The table of the cubes' names.
ghost use Rattle.std.specs.Prelude.{◌≡◌, ◌≢◌, ◌≤◌, ◌<◌, ◌+◌, ℕ, List, nat_lt, true, false, None, Some, length, replicate, IfSome, IfNone, IsSome, MatchOption};
ghost use Rattle.tree_spec.specs.Names.{text_of};
ghost use Rattle.tree_spec.specs.Routes.{route};
ghost use Rattle.ice_tables.specs.Tables.{AreNames, blocks_from, row_in};
ghost use Rattle.ice_names.specs.Names.{NamesView, IsNameTable, IsCubePath, RowSet, NoneHas, Catches};
ghost use Rattle.ice_names.specs.Names.{row_at, path_of, path_at, mark_of, marked, slot_in, names_in, longer_one};
ghost use Rattle.ice_names.specs.Bytes.{IsReadTo, RowZeros};
ghost use Rattle.ice_names.specs.declared.mark.Mark.TheVariants.{Free};

use crate::bytes::byte_at;
use crate::mark::Mark;
use crate::row::{
    NameRow, copy_path, copy_row, has_path, mark_row, names_caught, read_row, write_row,
};
use ice_base::Block;
use std::marker::Model;
use tree_spec::Path;

/// The slots of an image, 1 to 16, with the path and the mark of the cube in each that isn't free. The paths differ, and the text of
/// each has at most 199 bytes.
#[derive(Drop)]
pub struct Names {
    rows: [Option<NameRow>; 16],
    slots: u8,
}

impl Model for Names {
    ghost use Rattle.ice_names.specs.Names.{NamesView, IsNameTable};

    ghost Value = { NamesView };

    ghost view = { λ n. record { slots = n.slots; rows = n.rows } };

    ghost invariant = { λ n. IsNameTable (record { slots = n.slots; rows = n.rows }) };
}

fn no_rows() -> [Option<NameRow>; 16]
    ensures { result ≡ replicate 16 None }
{
    [
        None, None, None, None, None, None, None, None, None, None, None, None, None, None, None,
        None,
    ]
}

impl Names {
    /// The table of free slots.
    fn free(slots: u8) -> Names
        requires some { 1 ≤ slots }
        requires few { slots ≤ 16 }
        ensures rows { (s : ℕ) → row_at result s ≡ None }
        ensures slots { result.slots ≡ slots }
        ensures sound { IsNameTable result }
    {
        Names {
            rows: no_rows(),
            slots,
        }
    }

    /// Puts a row into a slot.
    fn put(&mut self, slot: u8, row: Option<NameRow>)
        requires slot { slot < self.old.slots }
        // The path of the row is a cube's, and no other slot has it.
        requires cube { (p : List (List ℕ)) → path_of row ≡ Some p → IsCubePath p }
        requires alone { (p : List (List ℕ)) (s : ℕ) → path_of row ≡ Some p → path_at self.old s ≡ Some p → s ≡ slot }
        ensures set { RowSet self.old slot row self.new }
        ensures sound { IsNameTable self.new }
    {
        self.rows[slot as usize] = row;
    }

    /// How many slots the image has.
    pub fn slots(&self) -> u8
        ensures value { result ≡ self.now.slots }
        ensures sound { IsNameTable self.now }
    {
        self.slots
    }

    /// The path of the cube in a slot. None: the slot is free.
    pub fn path(&self, slot: u8) -> Option<&Path>
        requires { slot < self.now.slots }
        ensures { MatchOption result (row_at self.now slot ≡ None) (λ p. path_at self.now slot ≡ Some p.now) }
    {
        match &self.rows[slot as usize] {
            None => None,
            Some(row) => Some(row.path()),
        }
    }

    /// The mark of a slot.
    pub fn mark(&self, slot: u8) -> Mark
        requires { slot < self.now.slots }
        ensures { result ≡ mark_of (row_at self.now slot) }
    {
        match &self.rows[slot as usize] {
            None => Mark::Free,
            Some(row) => {
                if row.is_offline() {
                    Mark::Offline
                } else {
                    Mark::Online
                }
            }
        }
    }

    /// Reads the row of a slot into the table. False: it is refused, or another cube has its path.
    fn read_slot(&mut self, blocks: &[Block; 4], slot: u8) -> bool
        requires slot { slot < 16 }
        // The slots before it are read, and afterwards it is too, or the blocks are refused.
        requires before { IsReadTo (blocks_from 11 blocks.now) slot self.old }
        ensures read { result ≡ true → IsReadTo (blocks_from 11 blocks.now) (slot + 1) self.new }
        ensures refused { result ≡ false → ¬ AreNames self.old.slots (blocks_from 11 blocks.now) }
        ensures slots { self.new.slots ≡ self.old.slots }
        ensures sound { IsNameTable self.new }
    {
        if slot >= self.slots() {
            return byte_at(blocks, slot, 0) == 0;
        }
        match read_row(blocks, slot) {
            None => false,
            Some(None) => true,
            Some(Some(row)) => {
                if self.find(row.path()).is_some() {
                    return false;
                }
                self.put(slot, Some(row));
                true
            }
        }
    }

    /// Reads the four blocks of the cube table of an image of 1 to 16 slots. None: a slot has a mark above 2 or a text that is no path
    /// of 1 to 199 bytes, two cubes have one path, or a slot that the image doesn't have is marked.
    pub fn read(blocks: &[Block; 4], slots: u8) -> Option<Names>
        requires some { 1 ≤ slots }
        requires few { slots ≤ 16 }
        // A table comes exactly where the blocks are accepted, and has their rows.
        ensures accepted { IfSome result (λ names. AreNames slots (blocks_from 11 blocks.now)) }
        ensures rows { IfSome result (λ names. (s : ℕ) → row_at names s ≡ row_in slots (blocks_from 11 blocks.now) s) }
        ensures slots { IfSome result (λ names. names.slots ≡ slots) }
        ensures refuses { result ≡ None → ¬ AreNames slots (blocks_from 11 blocks.now) }
    {
        let mut names = Names::free(slots);
        for s in 0..16 {
            if !names.read_slot(blocks, s) {
                return None;
            }
        }
        Some(names)
    }

    /// Writes the four blocks of the cube table, each byte of them.
    pub fn write(&self, into: &mut [Block; 4])
        // The blocks are accepted, and say the rows of the table.
        ensures accepted { AreNames self.now.slots (blocks_from 11 into.new) }
        ensures rows { (s : ℕ) → row_in self.now.slots (blocks_from 11 into.new) s ≡ row_at self.now s }
        // The bytes without a meaning are zero, and the blocks have 1,024 bytes.
        ensures zeros { (s : ℕ) → s < 16 → RowZeros (blocks_from 11 into.new) s }
        ensures whole { (k : ℕ) → 11 ≤ k → k < 15 → length (blocks_from 11 into.new k) ≡ 1024 }
        ensures sound { IsNameTable self.now }
    {
        for s in 0..16 {
            write_row(into, s, &self.rows[s as usize]);
        }
    }

    /// The slot of the cube that has the path.
    pub fn find(&self, path: &Path) -> Option<u8>
        // A cube of the image with the path, or none has it.
        ensures slot { IfSome result (λ s. s < self.now.slots) }
        ensures found { MatchOption result (NoneHas self.now path.now) (λ s. path_at self.now s ≡ Some path.now) }
    {
        for s in 0..self.slots {
            if has_path(&self.rows[s as usize], path) {
                return Some(s);
            }
        }
        None
    }

    /// The lowest slot that is free.
    pub fn free_slot(&self) -> Option<u8>
        // The slot is free, and none below it is; or none is.
        ensures slot { IfSome result (λ s. s < self.now.slots) }
        ensures free { IfSome result (λ s. row_at self.now s ≡ None) }
        ensures least { IfSome result (λ s. (r : ℕ) → r < s → row_at self.now r ≢ None) }
        ensures full { IfNone result ((s : ℕ) → s < self.now.slots → row_at self.now s ≢ None) }
    {
        for s in 0..self.slots {
            if self.rows[s as usize].is_none() {
                return Some(s);
            }
        }
        None
    }

    /// Puts a cube that is online into a free slot.
    pub fn add(&mut self, slot: u8, path: &Path)
        requires slot { slot < self.old.slots }
        requires free { row_at self.old slot ≡ None }
        // No cube has the path, whose text has at most 199 bytes.
        requires absent { NoneHas self.old path.now }
        requires short { length (text_of path.now) ≤ 199 }
        ensures { RowSet self.old slot (Some (record { path = path.now; offline = false })) self.new }
    {
        let _ = path.text();
        self.put(slot, Some(NameRow::new(copy_path(path), false)));
    }

    /// Frees a slot.
    pub fn clear_row(&mut self, slot: u8)
        requires { slot < self.old.slots }
        ensures { RowSet self.old slot None self.new }
    {
        self.put(slot, None);
    }

    /// Marks the cube in a slot.
    pub fn set_mark(&mut self, slot: u8, mark: Mark)
        requires slot { slot < self.old.slots }
        requires live { IsSome (row_at self.old slot) }
        requires mark { mark ≢ Free }
        ensures { RowSet self.old slot (marked mark (row_at self.old slot)) self.new }
    {
        mark_row(&mut self.rows[slot as usize], mark);
    }

    /// The slot of the cube whose path is the longest one that begins this path by whole names, with the number of its names.
    pub fn route(&self, path: &Path) -> Option<(u8, usize)>
        // The slot is the route's, and the number is that of the names of its path.
        ensures slot { slot_in result ≡ route (λ s. path_at self.now s) self.now.slots path.now }
        ensures caught { IfSome result (λ a. Catches self.now path.now a.0 a.1) }
    {
        let mut best = None;
        for s in 0..self.slots {
            best = longer_one(best, s, names_caught(&self.rows[s as usize], path));
        }
        best
    }

    /// Another table of the same rows.
    pub fn copy(&self) -> Names
        ensures { result ≡ self.now }
    {
        let mut copy = Names::free(self.slots());
        for s in 0..self.slots() {
            copy.put(s, copy_row(&self.rows[s as usize]));
        }
        copy
    }
}

/// The answer of a route after one slot more.
fn longer_one(best: Option<(u8, usize)>, slot: u8, names: Option<usize>) -> Option<(u8, usize)>
    ensures { result ≡ longer_one best slot names }
{
    match names {
        None => best,
        Some(n) => {
            if are_more(n, best) {
                Some((slot, n))
            } else {
                best
            }
        }
    }
}

fn are_more(names: usize, best: Option<(u8, usize)>) -> bool
    ensures { result ≡ nat_lt (names_in best) (names + 1) }
{
    match best {
        None => true,
        Some((_, most)) => most < names,
    }
}
