//! What is a journal: that of the tables, and that of each lot.
ghost use Rattle.std.specs.Prelude.{◌≡◌, ℕ, List, Option, true};
ghost use Rattle.ice_base.specs.Lots.{is_address};
ghost use Rattle.ice_layout.specs.Headers.{is_table, slot_targets, system_targets};
ghost use Rattle.ice_tables.specs.Journals.{Places, lot_places, system_places};
ghost use Rattle.ice_journal.specs.Areas.{IsAreaOf};

use crate::{Area, area_of, system_area};
use ice_base::Lot;

/// A journal: a gate, a header that names targets, and bodies that stand in place of the targets' homes while the gate is open.
pub trait Journal {
    /// Where it lies, and the addresses that it stands for, with their homes.
    ghost places: { Self → Places };

    /// The targets that a header names, None where it is refused.
    ghost reads: { Self → List ℕ → Option (List ℕ) };

    /// How many targets a header may name.
    ghost most: { Self → ℕ };

    /// Where it lies.
    fn area(&self) -> Area
        ensures { IsAreaOf result (reads self.now) (places self.now) (most self.now) };

    /// The home of an address.
    fn home(&self, at: u32) -> u32
        requires { (places self.now).home at ≡ true }
        ensures { result ≡ (places self.now).place at };
}

/// The journal of the tables.
#[derive(Clone, Copy, Debug)]
pub struct SystemJournal;

#[tactic(auto, using(crate::proofs::AreaLaws::area_laws))]
impl Journal for SystemJournal {
    ghost places = { λ s. system_places };

    ghost reads = { λ s. system_targets };

    ghost most = { λ s. 8 };

    fn area(&self) -> Area {
        system_area()
    }

    fn home(&self, at: u32) -> u32 {
        at
    }
}

#[tactic(auto, using(crate::proofs::AreaLaws::area_laws))]
impl Journal for Lot {
    ghost places = { λ lot. lot_places lot };

    ghost reads = { λ lot. slot_targets lot };

    ghost most = { λ lot. 240 };

    fn area(&self) -> Area {
        // This call tells the prover that the lot is one.
        let _ = self.len();
        area_of(self)
    }

    fn home(&self, at: u32) -> u32 {
        Lot::home(self, at)
    }
}
