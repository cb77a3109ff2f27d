//! Opening the tables of a disk.
ghost use Rattle.std.specs.Prelude.{◌≡◌, ◌≤◌, ◌<◌, ◌+◌, ◌⊎◌, ℕ, List, true, false, IfOk, IfErr, IsErrOf, IsSome, OnOk};
ghost use Rattle.ice_base.specs.Disk.{Below, Everywhere, HasCause, Nowhere, block};
ghost use Rattle.ice_base.specs.Frames.{CrashStep, Every, Settled, Within};
ghost use Rattle.ice_layout.specs.Geometry.{total_blocks};
ghost use Rattle.ice_layout.specs.Supers.{is_geometry, IsSuper};
ghost use Rattle.ice_tables.specs.Journals.{in_tables};
ghost use Rattle.ice_tables.specs.Tables.{Tables, HasTables};
ghost use Rattle.ice_tables.specs.Lots.{total};
ghost use Rattle.ice_names.specs.Names.{row_at};
ghost use Rattle.ice_owner.specs.Owners.{is_live};
ghost use Rattle.ice_system.specs.Systems.{tables_of};
ghost use Rattle.ice_system.specs.Attaching.{Accepts, AreFour, Attaches, IsReplayed, RefusesBlocks, RefusesDisk, RefusesTables};
ghost use Rattle.ice_system.specs.declared.fault.TablesFault.TheVariants.{Disk as FaultDisk, Memory, Small};

use crate::fault::TablesFault;
use crate::replay::{finish_change, look};
use crate::system::{System, TABLE_BLOCKS};
use ice_base::{Block, Disk};
use ice_layout::{LayoutFault, Super, read_super, total};
use ice_names::Names;
use ice_owner::Owners;
use ice_txn::WriteSet;
use std::alloc::Global;

/// The geometry in the superblock, of no more blocks than there are.
fn read_geometry<D: Disk>(disk: &mut D) -> Result<Super, TablesFault>
    requires { 0 < (D.state disk.old).size }
    ensures within { Within D.state D.left Nowhere disk.old disk.new }
    ensures geometry { IfOk result (λ sup. is_geometry sup ≡ true) }
    ensures room { IfOk result (λ sup. total_blocks sup.slots sup.groups ≤ (D.state disk.old).size) }
    ensures reads { (D.state disk.old).tells ≡ true → IfOk result (λ sup. IsSuper sup (block (D.state disk.old).now 0)) }
    ensures refused { IfErr result (λ fault. RefusesDisk fault (D.state disk.old) (D.state disk.new)) }
    ensures never { ¬ IsErrOf result Memory }
    ensures calm { ¬ IsErrOf result FaultDisk → (D.state disk.new).faults ≡ (D.state disk.old).faults }
{
    let mut bytes = [0; 1024];
    look(disk, 0, &mut bytes)?;
    match read_super(&bytes) {
        Ok(sup) if disk.blocks() < total(sup.slots, sup.groups) => Err(TablesFault::Small),
        Ok(sup) => Ok(sup),
        Err(fault) => Err(TablesFault::Layout(fault)),
    }
}

/// Reads four blocks that follow one another.
fn read_four<D: Disk>(disk: &mut D, first: u32, into: &mut [Block; 4]) -> Result<(), TablesFault>
    requires { first + 4 ≤ (D.state disk.old).size }
    ensures within { Within D.state D.left Nowhere disk.old disk.new }
    ensures fault { IfErr result (λ fault. fault ≡ FaultDisk) }
    ensures cause { HasCause (D.state disk.old) (D.state disk.new) result }
    ensures calm { OnOk result ((D.state disk.new).faults ≡ (D.state disk.old).faults) }
    ensures bytes { (D.state disk.old).tells ≡ true → OnOk result (AreFour first into.new (block (D.state disk.old).now)) }
{
    for i in 0..4 {
        look(disk, first + i as u32, &mut into[i])?;
    }
    Ok(())
}

/// For each of 16 slots whether it has a cube.
fn live_slots(names: &Names) -> [bool; 16]
    ensures has { (s : ℕ) → is_live result s ≡ true → IsSome (row_at names.now s) }
    ensures all { (s : ℕ) → IsSome (row_at names.now s) → is_live result s ≡ true }
{
    let mut live = [false; 16];
    for s in 0..names.slots() {
        live[s as usize] = names.path(s).is_some();
    }
    live
}

/// The tables that the blocks of both say, in an image of this geometry. Names, then Owners: these blocks are refused.
fn decode(
    rows: &[Block; 4],
    owners: &[Block; 4],
    sup: Super,
    set: WriteSet,
) -> Result<System, LayoutFault>
    requires geometry { is_geometry sup ≡ true }
    requires set { set.most ≡ 8 }
    ensures ready { IfOk result (λ v. v.failed ≡ false) }
    ensures slots { IfOk result (λ v. v.names.slots ≡ sup.slots) }
    ensures groups { IfOk result (λ v. v.owners.groups ≡ sup.groups) }
    // Whatever map has these blocks: the tables are what it says and are accepted, or it is refused.
    ensures accepted { (m : ℕ → List ℕ) → AreFour 11 rows.now m → AreFour 15 owners.now m
        → IfOk result (λ v. Accepts sup m (tables_of v)) }
    ensures refused { (m : ℕ → List ℕ) → AreFour 11 rows.now m → AreFour 15 owners.now m
        → IfErr result (λ fault. RefusesBlocks fault sup m) }
{
    let names = match Names::read(rows, sup.slots) {
        None => return Err(LayoutFault::Names),
        Some(names) => names,
    };
    let live = live_slots(&names);
    match Owners::read(owners, sup.groups, &live) {
        None => Err(LayoutFault::Owners),
        Some(owners) => Ok(System {
            names,
            owners,
            set,
            failed: false,
        }),
    }
}

/// Reads the tables from their blocks.
fn read_tables<D: Disk>(disk: &mut D, sup: Super, set: WriteSet) -> Result<System, TablesFault>
    requires below { 19 ≤ (D.state disk.old).size }
    requires geometry { is_geometry sup ≡ true }
    requires set { set.most ≡ 8 }
    ensures within { Within D.state D.left Nowhere disk.old disk.new }
    ensures ready { IfOk result (λ v. v.failed ≡ false) }
    ensures slots { IfOk result (λ v. v.names.slots ≡ sup.slots) }
    ensures groups { IfOk result (λ v. v.owners.groups ≡ sup.groups) }
    ensures accepted { (D.state disk.old).tells ≡ true
        → IfOk result (λ v. Accepts sup (in_tables (block (D.state disk.old).now)) (tables_of v)) }
    ensures refused { IfErr result (λ fault.
        RefusesTables fault sup (in_tables (block (D.state disk.old).now)) (D.state disk.old) (D.state disk.new)) }
    ensures calm { ¬ IsErrOf result FaultDisk → (D.state disk.new).faults ≡ (D.state disk.old).faults }
{
    let mut rows = [[0; 1024]; 4];
    let mut owners = [[0; 1024]; 4];
    read_four(disk, 11, &mut rows)?;
    read_four(disk, 15, &mut owners)?;
    match decode(&rows, &owners, sup, set) {
        Ok(system) => Ok(system),
        Err(fault) => Err(TablesFault::Layout(fault)),
    }
}

/// Opens the tables of a disk with nothing loose.
fn open_settled<D: Disk>(disk: &mut D, set: WriteSet) -> Result<System, TablesFault>
    requires some { 0 < (D.state disk.old).size }
    requires settled { (D.state disk.old).tells ≡ true → Settled Everywhere (D.state disk.old) }
    requires set { set.most ≡ 8 }
    ensures within { Within D.state D.left IsReplayed disk.old disk.new }
    ensures attaches { (D.state disk.old).tells ≡ true → IfOk result (λ v. Attaches v (D.state disk.old) (D.state disk.new)) }
    ensures room { IfOk result (λ v. total (tables_of v) ≤ (D.state disk.old).size) }
    ensures ready { IfOk result (λ v. v.failed ≡ false) }
    ensures refused { IfErr result (λ fault. RefusesDisk fault (D.state disk.old) (D.state disk.new)) }
    ensures never { ¬ IsErrOf result Memory }
    ensures calm { ¬ IsErrOf result FaultDisk → (D.state disk.new).faults ≡ (D.state disk.old).faults }
    ensures crash { (t : Tables) → (D.state disk.old).tells ≡ true → HasTables (D.state disk.old).now t
        → CrashStep D.state D.left (Below 19) (λ i. HasTables i t) disk.old disk.new }
{
    let sup = read_geometry(disk)?;
    finish_change(disk)?;
    read_tables(disk, sup, set)
}

impl System {
    /// Opens the tables of a disk: takes memory for the blocks of a change, settles the disk, reads the superblock (block 0), replays the
    /// journal of the tables where it is open (gate 1, header 2, bodies 3 to 10), and reads the cube table (blocks 11 to 14) and the
    /// owner table (15 to 18). Small: there is no block, or fewer than an accepted superblock names. Layout: the first fault of
    /// superblock, header, cube table and owner table. Disk: a call of the disk failed. Memory: there was none, and the disk isn't called.
    pub fn attach<D: Disk>(alloc: Global, disk: &mut D) -> Result<System, TablesFault>
        // Only the gate and the tables may change, and they only where a change was cut short.
        ensures within { Within D.state D.left IsReplayed disk.old disk.new }
        // What it opens is what the image has; the tables are at rest and every block is settled.
        ensures attaches { (D.state disk.old).tells ≡ true → IfOk result (λ v. Attaches v (D.state disk.old) (D.state disk.new)) }
        ensures room { IfOk result (λ v. total (tables_of v) ≤ (D.state disk.old).size) }
        ensures ready { IfOk result (λ v. v.failed ≡ false) }
        // Why it opens nothing, the first fault that applies.
        ensures refused { IfErr result (λ fault. RefusesDisk fault (D.state disk.old) (D.state disk.new)) }
        ensures memory { IsErrOf result Memory → disk.new ≡ disk.old }
        ensures no_block { (D.state disk.old).size ≡ 0 → (IsErrOf result Small ⊎ IsErrOf result Memory) × (disk.new ≡ disk.old) }
        ensures calm { ¬ IsErrOf result FaultDisk → (D.state disk.new).faults ≡ (D.state disk.old).faults }
        // The tables that the image has are had by each image that a crash within the call or after it leaves.
        ensures crash { (t : Tables) → (D.state disk.old).tells ≡ true → Every (Below 19) (D.state disk.old) (λ i. HasTables i t)
            → CrashStep D.state D.left (Below 19) (λ i. HasTables i t) disk.old disk.new }
    {
        let set = match WriteSet::with_space(alloc, TABLE_BLOCKS) {
            Ok(set) => set,
            Err(_) => return Err(TablesFault::Memory),
        };
        if disk.blocks() == 0 {
            return Err(TablesFault::Small);
        }
        match disk.barrier() {
            Ok(()) => open_settled(disk, set),
            Err(_) => Err(TablesFault::Disk),
        }
    }
}
