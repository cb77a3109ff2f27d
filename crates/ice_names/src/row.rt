//! A row of the cube table, read and written.
ghost use Rattle.std.specs.Prelude.{◌≡◌, ◌≢◌, ◌≤◌, ◌<◌, ◌+◌, ℕ, List, true, false, None, Some, length, replicate, take, drop, ◌++◌, IfSome, MatchOption};
ghost use Rattle.tree_spec.specs.Routes.{caught};
ghost use Rattle.ice_path.specs.Paths.{path_fault, path_names};
ghost use Rattle.ice_tables.specs.Tables.{blocks_from, row_of, mark_at, text_at};
ghost use Rattle.ice_names.specs.Names.{path_of, marked, Begins, IsCubePath};
ghost use Rattle.ice_names.specs.declared.mark.Mark.TheVariants.{Free};
ghost use Rattle.ice_names.specs.Bytes.{IsRowBytes, IsRowSound, IsWhole, mark_byte, row_bytes};

use crate::bytes::{byte_at, put_bytes, text_bytes};
use crate::mark::Mark;
use ice_base::Block;
use ice_path::{is_prefix, read_path};
use std::marker::Model;
use tree_spec::Path;

/// The row of a slot that isn't free.
#[derive(Drop)]
pub(crate) struct NameRow {
    path: Path,
    offline: bool,
}

impl Model for NameRow {
    ghost use Rattle.ice_tables.specs.Tables.{Row};

    ghost Value = { Row };

    ghost view = { λ r. record { path = r.path; offline = r.offline } };
}

impl NameRow {
    pub(crate) fn new(path: Path, offline: bool) -> NameRow
        ensures { result ≡ record { path = path; offline = offline } }
    {
        NameRow { path, offline }
    }

    pub(crate) fn path(&self) -> &Path
        ensures { result.now ≡ self.now.path }
    {
        &self.path
    }

    pub(crate) fn is_offline(&self) -> bool
        ensures { result ≡ self.now.offline }
    {
        self.offline
    }

    pub(crate) fn set_offline(&mut self, offline: bool)
        ensures { self.new ≡ record { path = self.old.path; offline = offline } }
    {
        self.offline = offline;
    }
}

fn same_bytes(a: &[u8], b: &[u8]) -> bool
    ensures yes { result ≡ true → a.now ≡ b.now }
    ensures no { result ≡ false → a.now ≢ b.now }
{
    *a == *b
}

/// Whether two paths have the same names.
pub(crate) fn same_path(a: &Path, b: &Path) -> bool
    ensures yes { result ≡ true → a.now ≡ b.now }
    ensures no { result ≡ false → a.now ≢ b.now }
{
    same_bytes(a.text(), b.text())
}

/// Whether the row has the path.
pub(crate) fn has_path(row: &Option<NameRow>, path: &Path) -> bool
    ensures yes { result ≡ true → path_of row.now ≡ Some path.now }
    ensures no { result ≡ false → path_of row.now ≢ Some path.now }
{
    match row {
        None => false,
        Some(row) => same_path(row.path(), path),
    }
}

/// How many names the row's path has, where they begin the path.
pub(crate) fn names_caught(row: &Option<NameRow>, path: &Path) -> Option<usize>
    ensures caught { MatchOption result (caught path.now (path_of row.now) ≡ 0) (λ n. caught path.now (path_of row.now) ≡ n + 1) }
    ensures begins { IfSome result (Begins row.now path.now) }
{
    match row {
        None => None,
        Some(row) => {
            let short = row.path();
            if is_prefix(short, path) {
                Some(short.len())
            } else {
                None
            }
        }
    }
}

/// Marks a row that isn't free.
pub(crate) fn mark_row(row: &mut Option<NameRow>, mark: Mark)
    requires { mark ≢ Free }
    ensures { row.new ≡ marked mark row.old }
{
    if let Some(row) = row {
        row.set_offline(mark.is_offline());
    }
}

/// Another row of the same path and mark.
pub(crate) fn copy_row(row: &Option<NameRow>) -> Option<NameRow>
    ensures { result ≡ row.now }
{
    match row {
        None => None,
        Some(row) => Some(NameRow::new(copy_path(row.path()), row.is_offline())),
    }
}

/// Another path of the same names.
pub(crate) fn copy_path(path: &Path) -> Path
    ensures { result ≡ path.now }
{
    match read_path(path.text()) {
        Ok(copy) => copy,
        Err(_) => unreachable!(),
    }
}

/// The path of a cube that a text of 1 to 199 bytes names.
fn cube_path(text: &[u8]) -> Option<Path>
    ensures path { IfSome result (λ p. p ≡ path_names text.now) }
    ensures cube { IfSome result IsCubePath }
    ensures text { IfSome result (λ p. (1 ≤ length text.now) × (length text.now ≤ 199) × (path_fault text.now ≡ None)) }
    ensures refuses { result ≡ None → 1 ≤ length text.now → length text.now ≤ 199 → path_fault text.now ≢ None }
{
    if text.is_empty() || text.len() > 199 {
        return None;
    }
    match read_path(text) {
        Ok(path) => {
            let _ = path.text();
            Some(path)
        }
        Err(_) => None,
    }
}

/// The row of a slot. None: its mark is above 2, or it isn't free and its text is no path of a cube.
pub(crate) fn read_row(blocks: &[Block; 4], slot: u8) -> Option<Option<NameRow>>
    requires { slot < 16 }
    ensures row { let m = blocks_from 11 blocks.now in IfSome result (λ row. row ≡ row_of (mark_at m slot) (text_at m slot)) }
    ensures cube { IfSome result (λ row. (p : List (List ℕ)) → path_of row ≡ Some p → IsCubePath p) }
    ensures sound { IfSome result (λ row. IsRowSound (blocks_from 11 blocks.now) slot) }
    ensures refuses { result ≡ None → ¬ IsRowSound (blocks_from 11 blocks.now) slot }
{
    let mark = byte_at(blocks, slot, 0);
    if mark == 0 {
        return Some(None);
    }
    if mark > 2 {
        return None;
    }
    let length = byte_at(blocks, slot, 1);
    if length > 199 {
        return None;
    }
    match cube_path(text_bytes(blocks, slot, length as usize)) {
        None => None,
        Some(path) => Some(Some(NameRow::new(path, mark == 2))),
    }
}

fn no_bytes() -> [u8; 256]
    ensures { result ≡ replicate 256 0 }
{
    [0; 256]
}

fn mark_byte(row: &NameRow) -> u8
    ensures { result ≡ mark_byte (Some row.now) }
{
    if row.is_offline() { 2 } else { 1 }
}

fn put_text(bytes: &mut [u8; 256], text: &[u8])
    requires { length text.now ≤ 199 }
    ensures { bytes.new ≡ take 8 bytes.old ++ text.now ++ drop (8 + length text.now) bytes.old }
{
    bytes[8..8 + text.len()].copy_from_slice(text);
}

fn bytes_of_cube(row: &NameRow) -> [u8; 256]
    requires { IsCubePath row.now.path }
    ensures { IsRowBytes (Some row.now) result }
{
    let text = row.path().text();
    let mut bytes = no_bytes();
    put_text(&mut bytes, text);
    bytes[0] = mark_byte(row);
    bytes[1] = text.len() as u8;
    bytes
}

/// The bytes of a row: the mark, the length of the text, zeros from 2 on, the text from 8 on, and zeros behind it.
fn bytes_of(row: &Option<NameRow>) -> [u8; 256]
    requires { (p : List (List ℕ)) → path_of row.now ≡ Some p → IsCubePath p }
    ensures { IsRowBytes row.now result }
{
    match row {
        None => no_bytes(),
        Some(row) => bytes_of_cube(row),
    }
}

/// Writes the row of a slot.
pub(crate) fn write_row(into: &mut [Block; 4], slot: u8, row: &Option<NameRow>)
    requires slot { slot < 16 }
    requires cube { (p : List (List ℕ)) → path_of row.now ≡ Some p → IsCubePath p }
    ensures here { IsRowBytes row.now (row_bytes (blocks_from 11 into.new) slot) }
    ensures others { (s : ℕ) → s ≢ slot → row_bytes (blocks_from 11 into.new) s ≡ row_bytes (blocks_from 11 into.old) s }
    ensures whole { IsWhole (blocks_from 11 into.new) slot }
    ensures stays { (s : ℕ) → IsWhole (blocks_from 11 into.old) s → IsWhole (blocks_from 11 into.new) s }
{
    put_bytes(into, slot, &bytes_of(row));
}
