//! The groups of the slots.
ghost use Rattle.std.specs.Prelude.{◌≡◌, ◌≢◌, ◌≤◌, ◌<◌, ◌+◌, ◌*◌, ◌/◌, ◌%◌, ◌↔◌, ◌++◌, ℕ, [], ◌∷◌, take, length, slice_index, None, Err, IfSome, IsOk, IsErr};
ghost use Rattle.ice_tables.specs.Tables.{Tables, AreOwners, blocks_from, holder_in, ordinal_in, owner_byte, ordinal_byte};
ghost use Rattle.ice_owner.specs.Owners.{AreLots, OwnerTables, Changes, groups_at, holder, ordinal, free_groups};
ghost use Rattle.ice_owner.specs.Places.{mark_slot, mark_ordinal};
ghost use Rattle.ice_owner.specs.declared.owners.OwnerFault.TheVariants.{CubeFull, NoGroups};

use crate::gather::{NOBODY, first_bare, first_gap, first_past, gather};
use crate::marks::{count_free, entries, marks_of};
use ice_base::{Block, Lot};
use std::marker::Model;

/// Why a slot does not get more groups.
#[derive(Clone, Copy, Debug, PartialEq, Eq)]
pub enum OwnerFault {
    /// The slot would have more than 64 groups.
    CubeFull = 1,
    /// The image has too few free groups.
    NoGroups,
}

/// The groups of each of 16 slots, up to 64 in the order of their ordinals, in an image of 1 to 1,024 groups. Place `64 s + o` has the
/// group of ordinal `o` of slot `s`; a place from the slot's count on says nothing.
#[derive(Drop)]
pub struct Owners {
    counts: [u8; 16],
    places: [u16; 1024],
    groups: u16,
}

impl Model for Owners {
    ghost use Rattle.ice_owner.specs.Owners.{OwnersView};
    ghost use Rattle.ice_owner.specs.Places.{view_of, AreKept};

    ghost Value = { OwnersView };

    ghost view = { λ o. view_of o.groups o.counts o.places };

    ghost invariant = { λ o. AreKept o.groups o.counts o.places };
}

impl Owners {
    /// Reads the four blocks of the table of an image of so many groups whose slots that are not free are these: 256 entries of four
    /// bytes a block, with one more than the slot, 0 for none, and the ordinal. None: the table is refused.
    pub fn read(blocks: &[Block; 4], groups: u16, live: &[bool; 16]) -> Option<Owners>
        requires some { 1 ≤ groups }
        requires most { groups ≤ 1024 }
        // What the entries say.
        ensures groups { IfSome result (λ o. o.groups ≡ groups) }
        ensures holders { IfSome result (λ o. (g : ℕ) → holder_in groups (blocks_from 15 blocks.now) g ≡ holder o g) }
        ensures ordinals { IfSome result (λ o. (g : ℕ) → ordinal_in groups (blocks_from 15 blocks.now) g ≡ ordinal o g) }
        ensures lots { IfSome result AreLots }
        // Which tables are accepted.
        ensures accepted { (t : Tables) → OwnerTables groups live.now (blocks_from 15 blocks.now) t
            → IfSome result (λ o. AreOwners t (blocks_from 15 blocks.now)) }
        ensures refused { (t : Tables) → OwnerTables groups live.now (blocks_from 15 blocks.now) t → result ≡ None
            → ¬ AreOwners t (blocks_from 15 blocks.now) }
    {
        let mut counts = [0; 16];
        let mut places = [NOBODY; 1024];
        if !gather(blocks, live, groups, &mut counts, &mut places) {
            return None;
        }
        if let Some(_) = first_past(blocks, groups) {
            return None;
        }
        if let Some(_) = first_gap(&counts, &places) {
            return None;
        }
        match first_bare(live, &counts) {
            Some(_) => None,
            None => Some(Owners {
                counts,
                places,
                groups,
            }),
        }
    }

    /// For each group one more than its place, 0 for none: place `64 s + o` is that of ordinal `o` of slot `s`.
    fn marks(&self) -> [u16; 1024]
        ensures all { length result ≡ 1024 }
        ensures small { (g : ℕ) → slice_index result g ≤ 1024 }
        ensures holders { (g : ℕ) → holder self.now g ≡ mark_slot (slice_index result g) }
        ensures ordinals { (g : ℕ) → ordinal self.now g ≡ mark_ordinal (slice_index result g) }
        ensures lots { AreLots self.now }
    {
        marks_of(&self.counts, &self.places)
    }

    /// Writes the four blocks of the table, in the form that `read` reads, with zeros elsewhere.
    pub fn write(&self, into: &mut [Block; 4])
        // What the entries say.
        ensures holders { (g : ℕ) → holder_in self.now.groups (blocks_from 15 into.new) g ≡ holder self.now g }
        ensures ordinals { (g : ℕ) → ordinal_in self.now.groups (blocks_from 15 into.new) g ≡ ordinal self.now g }
        ensures lots { AreLots self.now }
        // The bytes that say nothing are 0.
        ensures past { (g : ℕ) → self.now.groups ≤ g → g < 1024 → owner_byte (blocks_from 15 into.new) g ≡ 0 }
        ensures unowned { (g : ℕ) → g < 1024 → holder self.now g ≡ None → ordinal_byte (blocks_from 15 into.new) g ≡ 0 }
        ensures third { (g : ℕ) → g < 1024
            → slice_index (blocks_from 15 into.new (15 + g / 256)) (4 * (g % 256) + 2) ≡ 0 }
        ensures fourth { (g : ℕ) → g < 1024
            → slice_index (blocks_from 15 into.new (15 + g / 256)) (4 * (g % 256) + 3) ≡ 0 }
    {
        let marks = self.marks();
        *into = [
            entries(&marks, 0),
            entries(&marks, 256),
            entries(&marks, 512),
            entries(&marks, 768),
        ];
    }

    /// The number of groups of the image.
    pub fn groups(&self) -> u16
        ensures groups { result ≡ self.now.groups }
        ensures lots { AreLots self.now }
    {
        self.groups
    }

    /// The number of groups that belong to no slot.
    pub fn free(&self) -> u32
        ensures free { result ≡ length (free_groups self.now) }
        ensures lots { AreLots self.now }
    {
        let marks = self.marks();
        count_free(&marks, self.groups)
    }

    /// The lot of a slot, in an image whose group 0 begins at block `base`.
    pub fn lot_of(&self, slot: u8, base: u32) -> Lot
        requires slot { slot < 16 }
        requires base { (s : ℕ) × (slot < s) × (s ≤ 16) × (base ≡ 32 + 256 * s) }
        ensures lot { result ≡ record { slot = slot; base = base; groups = groups_at self.now slot } }
        ensures lots { AreLots self.now }
    {
        let mut lot = Lot::new(slot, base);
        for o in 0..self.counts[slot as usize] as usize {
            lot.push(self.places[64 * slot as usize + o]);
        }
        lot
    }

    /// Gives the slot one more group, as the last.
    fn push(&mut self, slot: u8, group: u16)
        requires slot { slot < 16 }
        requires room { length (groups_at self.old slot) < 64 }
        requires small { group < self.old.groups }
        requires free { holder self.old group ≡ None }
        ensures pushed { Changes self.old self.new slot (groups_at self.old slot ++ group ∷ []) }
    {
        self.places[64 * slot as usize + self.counts[slot as usize] as usize] = group;
        self.counts[slot as usize] += 1;
    }

    /// Gives the slot the least free groups, as the last, in ascending order.
    fn push_free(&mut self, slot: u8, count: u32)
        requires slot { slot < 16 }
        requires room { length (groups_at self.old slot) + count ≤ 64 }
        ensures pushed { Changes self.old self.new slot (groups_at self.old slot ++ take count (free_groups self.old)) }
        ensures lots { AreLots self.new }
    {
        let marks = self.marks();
        let groups = self.groups;
        let mut left = count;
        for g in 0..groups {
            if left > 0 && marks[g as usize] == 0 {
                self.push(slot, g);
                left -= 1;
            }
        }
        let _ = self.groups();
    }

    /// Gives the slot so many further groups, the least free ones in ascending order. CubeFull: it would have more than 64. NoGroups: so
    /// many are not free. Then nothing is changed.
    pub fn reserve(&mut self, slot: u8, count: u32) -> Result<(), OwnerFault>
        requires { slot < 16 }
        // When it is refused.
        ensures full { (result ≡ Err CubeFull) ↔ (64 < length (groups_at self.old slot) + count) }
        ensures none { (result ≡ Err NoGroups)
            ↔ ((length (groups_at self.old slot) + count ≤ 64) × (length (free_groups self.old) < count)) }
        ensures refused { IsErr result → self.new ≡ self.old }
        // What it gives.
        ensures reserved { IsOk result
            → Changes self.old self.new slot (groups_at self.old slot ++ take count (free_groups self.old)) }
        ensures lots { AreLots self.new }
    {
        if count > 64 - self.len(slot) {
            return Err(OwnerFault::CubeFull);
        }
        if self.free() < count {
            return Err(OwnerFault::NoGroups);
        }
        self.push_free(slot, count);
        Ok(())
    }

    fn len(&self, slot: u8) -> u32
        requires { slot < 16 }
        ensures len { result ≡ length (groups_at self.now slot) }
        ensures few { result ≤ 64 }
        ensures lots { AreLots self.now }
    {
        u32::from(self.counts[slot as usize])
    }

    /// Frees the groups of a slot.
    pub fn release(&mut self, slot: u8)
        requires { slot < 16 }
        ensures released { Changes self.old self.new slot [] }
        ensures lots { AreLots self.new }
    {
        self.counts[slot as usize] = 0;
    }

    /// The same groups.
    pub fn copy(&self) -> Owners
        ensures value { result ≡ self.now }
        ensures lots { AreLots self.now }
    {
        Owners {
            counts: self.counts,
            places: self.places,
            groups: self.groups,
        }
    }
}
