//! The superblock: block 0 of an image.
ghost use Rattle.std.specs.Prelude.{◌≡◌, ◌<◌, ◌≤◌, ◌==◌, true, Some, IfOk, IfErr};
ghost use Rattle.std.specs.List.{list_all};
ghost use Rattle.ice_layout.specs.Geometry.{total_blocks, zero_from, between};
ghost use Rattle.ice_layout.specs.Supers.{super_fault, is_geometry, IsSuper, IsFreshBlock};

use ice_base::{Block, read_u32, write_u32};

const MAGIC: u32 = 0x4665_6349;

const VERSION: u32 = 1;

/// The geometry of an image: 1 to 16 slots, 1 to 1,024 groups.
#[derive(Clone, Copy, Debug, PartialEq, Eq)]
pub struct Super {
    pub slots: u8,
    pub groups: u16,
}

/// What is wrong with the volume's own blocks, in the order in which it is tested.
#[derive(Clone, Copy, Debug, PartialEq, Eq)]
pub enum LayoutFault {
    /// The first four bytes are not `IceF`.
    Magic = 1,
    /// The version is not 1.
    Version,
    /// The number of slots is not 1 to 16.
    Slots,
    /// The number of groups is not 1 to 1,024.
    Groups,
    /// The total is not that of the geometry.
    Total,
    /// A byte from 20 on is not zero.
    Zero,
    /// The cube table is refused.
    Names,
    /// The owner table is refused.
    Owners,
    /// The system gate is open and its header refused.
    Header,
}

/// The blocks of an image of this many slots and groups.
pub fn total(slots: u8, groups: u16) -> u32
    ensures { result ≡ total_blocks slots groups }
{
    32 + 256 * u32::from(slots) + 256 * u32::from(groups)
}

fn all_zero(bytes: &[u8]) -> bool
    ensures { result ≡ list_all (λ byte. byte == 0) bytes.now }
{
    bytes.iter().all(|byte| *byte == 0)
}

fn is_zero_from(block: &Block, at: usize) -> bool
    requires { at ≤ 1024 }
    ensures { result ≡ zero_from at block.now }
{
    all_zero(&block[at..])
}

pub(crate) fn is_between(low: u32, high: u32, number: u32) -> bool
    ensures { result ≡ between low high number }
{
    low <= number && number <= high
}

/// Writes the superblock: `IceF`, the version 1, slots, groups and the total as numbers of four bytes, then zeros.
pub fn write_super(sup: &Super, into: &mut Block)
    requires { is_geometry sup.now ≡ true }
    ensures { IsSuper sup.now into.new }
{
    *into = [0; 1024];
    write_u32(into, 0, MAGIC);
    write_u32(into, 4, VERSION);
    write_u32(into, 8, u32::from(sup.slots));
    write_u32(into, 12, u32::from(sup.groups));
    write_u32(into, 16, total(sup.slots, sup.groups));
}

#[tactic(auto, unfolding(crate::specs::Supers::super_fault))]
/// Reads the superblock, or says the first fault of Magic, Version, Slots, Groups, Total, Zero that applies.
pub fn read_super(from: &Block) -> Result<Super, LayoutFault>
    ensures accepts { IfOk result (λ sup. IsSuper sup from.now) }
    ensures refuses { IfErr result (λ fault. super_fault from.now ≡ Some fault) }
{
    if read_u32(from, 0) != MAGIC {
        return Err(LayoutFault::Magic);
    }
    if read_u32(from, 4) != VERSION {
        return Err(LayoutFault::Version);
    }
    let slots = read_u32(from, 8);
    if !is_between(1, 16, slots) {
        return Err(LayoutFault::Slots);
    }
    let groups = read_u32(from, 12);
    if !is_between(1, 1024, groups) {
        return Err(LayoutFault::Groups);
    }
    let sup = Super {
        slots: slots as u8,
        groups: groups as u16,
    };
    if read_u32(from, 16) != total(sup.slots, sup.groups) {
        return Err(LayoutFault::Total);
    }
    if !is_zero_from(from, 20) {
        return Err(LayoutFault::Zero);
    }
    Ok(sup)
}

/// Block `at` of a fresh image: the superblock, and then zeros, so that the system gate is closed and the tables are empty.
pub fn fresh_block(sup: &Super, at: u32, into: &mut Block)
    requires geometry { is_geometry sup.now ≡ true }
    requires system { at < 32 }
    ensures { IsFreshBlock sup.now at into.new }
{
    if at == 0 {
        write_super(sup, into);
    } else {
        *into = [0; 1024];
    }
}
