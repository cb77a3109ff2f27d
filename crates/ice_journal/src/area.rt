//! Where a journal lies on the disk.
ghost use Rattle.std.specs.Prelude.{◌≡◌, ◌≤◌, ◌+◌, ℕ, true};
ghost use Rattle.ice_base.specs.Lots.{is_sited};
ghost use Rattle.ice_journal.specs.Areas.{slot_area, tables_area, IsArea};

use ice_base::Lot;

/// Where a journal lies: its gate, its header, the first of its bodies, and the slot whose journal it is. That of a slot has
/// 240 bodies; that of the tables has no slot and eight bodies.
#[derive(Clone, Copy, Debug)]
pub struct Area {
    pub gate: u32,
    pub header: u32,
    pub body: u32,
    pub slot: Option<u8>,
}

/// The journal of a lot, in the area of its slot.
#[tactic(auto, using(crate::proofs::JournalLaws::site_laws))]
pub fn area_of(lot: &Lot) -> Area
    ensures area { result ≡ slot_area lot.now }
    ensures below { (n : ℕ) → is_sited lot.now n ≡ true → result.body + 240 ≤ n }
{
    Area {
        gate: lot.gate(),
        header: lot.header(),
        body: lot.body(0),
        slot: Some(lot.slot()),
    }
}

/// The journal of the tables: gate 1, header 2, bodies 3 to 10, no slot.
pub fn system_area() -> Area
    ensures { result ≡ tables_area }
{
    Area {
        gate: 1,
        header: 2,
        body: 3,
        slot: None,
    }
}
