//! The laws of lots at rest and of lots whose journal is open, each the contract of a function that does nothing.
ghost use Rattle.std.specs.Prelude.{◌≡◌, ◌⊎◌, ℕ, List, Option, Some, true};
ghost use Rattle.ice_base.specs.Disk.{Image, DiskState};
ghost use Rattle.ice_base.specs.Frames.{Every, Kept, RestsOn, Sure};
ghost use Rattle.ice_base.specs.Lots.{LotView, extent};
ghost use Rattle.ice_tables.specs.Journals.{Places, effective_of, lot_places};
ghost use Rattle.ice_txn.specs.declared.set.Entry.{Entry};
ghost use Rattle.ice_journal.specs.Blocks.{JournalExtent};
ghost use Rattle.ice_txn.specs.Sets.{over};
ghost use Rattle.ice_journal.specs.Phases.{BeforeOrAfter, Full, Idle, Open, RestsFull, RestsIdle, RestsOpen, StandsFor};
ghost use Rattle.ice_journal.specs.Rests.{BlocksEither, LotAtRest, RestsLot};
ghost use Rattle.ice_journal.specs.Shown.{are_some};
ghost use Rattle.ice_recover.specs.Reads.{ReadsAs};

/// What a crash left of a lot can be taken up, also where it stopped a replay: where it has effective blocks, it is at rest with them, or
/// its journal is open and reads as targets with which a replay is begun.
#[tactic(auto, using(ice_journal::proofs::RestLaws::rest_or_open))]
pub fn a_stopped_replay_is_begun_again()
    ensures { (lot : LotView) (map : ℕ → List ℕ) (i : Image) → effective_of lot i ≡ Some map
        → LotAtRest lot map i ⊎ ((view : List ℕ) × ReadsAs lot view i × (are_some view ≡ true)) }
{}

/// What holds of a lot outlasts calls that keep its blocks, barriers among them: that it is at rest, that its journal reads as a view,
/// and that each crash leaves it before or after a commit, or with the blocks that it has.
pub fn lots_outlast_others()
    ensures rest { (lot : LotView) (map : ℕ → List ℕ) (s t : DiskState) → Kept (extent lot) s t
        → Sure (RestsLot lot) (LotAtRest lot map) s → Sure (RestsLot lot) (LotAtRest lot map) t }
    ensures reads { (lot : LotView) (view : List ℕ) (s t : DiskState) → Kept (extent lot) s t
        → Sure (extent lot) (ReadsAs lot view) s → Sure (extent lot) (ReadsAs lot view) t }
    ensures either { (lot : LotView) (entries : List Entry) (map : ℕ → List ℕ) (s t : DiskState) → Kept (extent lot) s t
        → Every (JournalExtent (lot_places lot) 240) s (BlocksEither lot entries map)
        → Every (JournalExtent (lot_places lot) 240) t (BlocksEither lot entries map) }
    ensures blocks { (lot : LotView) (map : ℕ → List ℕ) (s t : DiskState) → Kept (extent lot) s t
        → Every (JournalExtent (lot_places lot) 240) s (λ i. effective_of lot i ≡ Some map)
        → Every (JournalExtent (lot_places lot) 240) t (λ i. effective_of lot i ≡ Some map) }
{}

/// The phases of a commit: what holds in each looks at just these blocks, and what a crash leaves then stands for the map, for either, or
/// for the map with the entries in place.
pub fn phases_stand_for_maps()
    // While nothing, or bodies and header, are written; while the gate is opened or closed; while the homes are written.
    ensures idle { (at : Places) (map : ℕ → List ℕ) → RestsOn (RestsIdle at) (Idle at map) }
    ensures full { (reads : List ℕ → Option (List ℕ)) (at : Places) (entries : List Entry) (map : ℕ → List ℕ)
        → RestsOn (RestsFull at entries) (Full reads at entries map) }
    ensures open_gate { (reads : List ℕ → Option (List ℕ)) (at : Places) (entries : List Entry) (map : ℕ → List ℕ)
        → RestsOn (RestsOpen at entries) (Open reads at entries map) }
    // What the image stands for in them: before, either, after, after.
    ensures body { (reads : List ℕ → Option (List ℕ)) (at : Places) (map : ℕ → List ℕ) (i : Image)
        → Idle at map i → StandsFor reads at map i }
    ensures gate { (reads : List ℕ → Option (List ℕ)) (at : Places) (entries : List Entry) (map : ℕ → List ℕ) (i : Image)
        → Full reads at entries map i → BeforeOrAfter reads at entries map i }
    ensures homes { (reads : List ℕ → Option (List ℕ)) (at : Places) (entries : List Entry) (map : ℕ → List ℕ) (i : Image)
        → Open reads at entries map i → StandsFor reads at (over entries map) i }
    ensures close { (reads : List ℕ → Option (List ℕ)) (at : Places) (entries : List Entry) (map : ℕ → List ℕ) (i : Image)
        → Full reads at entries (over entries map) i → StandsFor reads at (over entries map) i }
{}
