//! The blocks that a change puts.
ghost use Rattle.std.specs.Prelude.{◌≡◌, ◌≤◌, ◌<◌, ◌+◌, ◌⊎◌, ℕ, List, true, length};
ghost use Rattle.ice_tables.specs.Tables.{blocks_from};
ghost use Rattle.ice_txn.specs.Sets.{holds, over};
ghost use Rattle.ice_system.specs.Systems.{AreTables, tables_with};
ghost use Rattle.ice_system.specs.Changes.{HasChanges};

use ice_base::Block;
use ice_names::Names;
use ice_owner::Owners;
use ice_txn::WriteSet;

fn blank() -> [Block; 4] {
    [[0; 1024]; 4]
}

/// Puts those of four blocks that follow one another on the disk which differ from what they were.
fn put_changed(set: &mut WriteSet, first: u32, old: &[Block; 4], new: &[Block; 4])
    requires first { first < 1000 }
    requires space { length set.old.entries + 4 ≤ set.old.most }
    ensures here { (m : ℕ → List ℕ) (k : ℕ) → first ≤ k → k < first + 4
        → (over set.new.entries m k ≡ blocks_from first new.now k)
        ⊎ ((over set.new.entries m k ≡ over set.old.entries m k) × (blocks_from first old.now k ≡ blocks_from first new.now k)) }
    ensures elsewhere { (m : ℕ → List ℕ) (k : ℕ) → ((k < first) ⊎ (first + 4 ≤ k)) → over set.new.entries m k ≡ over set.old.entries m k }
    ensures holds { (a : ℕ) → holds set.new.entries a ≡ true
        → (holds set.old.entries a ≡ true) ⊎ ((first ≤ a) × (a < first + 4)) }
    ensures count { length set.new.entries ≤ length set.old.entries + 4 }
    ensures most { set.new.most ≡ set.old.most }
{
    for i in 0..4 {
        if old[i] != new[i] {
            set.put(first + i as u32, &new[i]);
        }
    }
}

/// Gathers the blocks of the tables that differ between two sets of rows and groups.
pub(crate) fn gather(
    set: &mut WriteSet,
    old_names: &Names,
    old_owners: &Owners,
    names: &Names,
    owners: &Owners,
)
    requires room { set.old.most ≡ 8 }
    requires old { AreTables old_names.now old_owners.now }
    requires tables { AreTables names.now owners.now }
    ensures changes { HasChanges (tables_with old_names.now old_owners.now) (tables_with names.now owners.now) set.new.entries }
    ensures room { set.new.most ≡ 8 }
{
    set.clear();
    let mut old = blank();
    let mut new = blank();
    old_names.write(&mut old);
    names.write(&mut new);
    put_changed(set, 11, &old, &new);
    old_owners.write(&mut old);
    owners.write(&mut new);
    put_changed(set, 15, &old, &new);
}
