//! What was given at a moment, and one crash outcome, from what a host in memory remembers.
ghost use Rattle.std.specs.Prelude.{◌≡◌, ◌<◌, ◌+◌, ◌≤◌, ◌^◌, ℕ, List, true, false, length, take, slice_index_or, if◌then◌else◌, nat_lt, IfOk};
ghost use Rattle.disk_mem.specs.Memory.{Moment, applied, after, call_number};
ghost use Rattle.ice_base.specs.Disk.{block};
ghost use Rattle.disk_mem.specs.Memory.{loosened, fresh_state};
ghost use Rattle.disk_mem.specs.Crash.{ShowsMoment};
ghost use Rattle.disk_mem.specs.Fill.{Filled};
ghost use Rattle.std.specs.Prelude.{slice_set};

use crate::blocks::filled_block;
use crate::flags::no_flags;
use crate::step::Step;
use ice_base::Block;
use std::alloc::{AllocError, Global};

// How many bytes had been given after the step, if one of the first `moment` calls made it.
fn given_after(step: &Step, moment: u64, given: usize) -> usize
    ensures { (m : Moment) → m.given ≡ given → (if nat_lt (call_number step.now) moment then applied m step.now else m).given ≡ result }
{
    if moment <= step.number() {
        return given;
    }
    match step {
        Step::Give(_, until) => *until,
        _ => given,
    }
}

/// How many bytes the first `moment` calls gave.
pub fn given_by(steps: &[Step], moment: u64) -> usize
    ensures { (m : Moment) → m.given ≡ 0 → (after moment m steps.now).given ≡ result }
{
    let mut given = 0;
    for step in steps {
        given = given_after(step, moment, given);
    }
    given
}

/// What a host held at a moment of its past, as the steps are made again.
#[derive(Drop)]
pub struct Replay {
    pub blocks: Vec<Block>,
    pub settled: Vec<Block>,
    pub loose: Vec<bool>,
    ghost count: { length settled.items ≡ length blocks.items },
    ghost marks: { length loose.items ≡ length blocks.items },
}

impl Replay {
    /// The start.
    pub fn new(alloc: Global, first: &[Block]) -> Result<Replay, AllocError>
        ensures { IfOk result (λ r. ShowsMoment (fresh_state first.now) r.blocks.items r.settled.items r.loose.items) }
    {
        let blocks = Vec::from_slice(alloc, first)?;
        let settled = Vec::from_slice(alloc, first)?;
        let loose = no_flags(alloc, first.len())?;
        Ok(Replay {
            blocks,
            settled,
            loose,
        })
    }

    /// Makes the steps of the first `moment` calls.
    pub fn make_all(&mut self, steps: &[Step], moment: u64)
        ensures { (m : Moment) → ShowsMoment m self.old.blocks.items self.old.settled.items self.old.loose.items
            → ShowsMoment (after moment m steps.now) self.new.blocks.items self.new.settled.items self.new.loose.items }
    {
        for step in steps {
            self.make(step, moment);
        }
    }

    // Makes the step, if one of the first `moment` calls made it.
    fn make(&mut self, step: &Step, moment: u64)
        ensures { (m : Moment) → ShowsMoment m self.old.blocks.items self.old.settled.items self.old.loose.items
            → ShowsMoment (if nat_lt (call_number step.now) moment then applied m step.now else m)
            self.new.blocks.items self.new.settled.items self.new.loose.items }
    {
        if moment <= step.number() {
            return;
        }
        match step {
            Step::Write(_, at, bytes) => self.write(*at, bytes),
            Step::Failed(_, at) => self.loosen(*at),
            Step::Barrier(_) => self.settle(),
            Step::Give(_, _) => {}
        }
    }

    // Writes a block.
    fn write(&mut self, at: u32, bytes: &Block)
        ensures { (m : Moment) → ShowsMoment m self.old.blocks.items self.old.settled.items self.old.loose.items
            → ShowsMoment (record m { now = slice_set m.now at bytes.now; loose = loosened m.loose at })
            self.new.blocks.items self.new.settled.items self.new.loose.items }
    {
        self.loosen(at);
        let at = at as usize;
        if at < self.blocks.len() {
            self.blocks[at] = *bytes;
        }
    }

    // Marks a block as loose.
    fn loosen(&mut self, at: u32)
        ensures blocks { self.new.blocks.items ≡ self.old.blocks.items }
        ensures settled { self.new.settled.items ≡ self.old.settled.items }
        ensures shows { (m : Moment) → ShowsMoment m self.old.blocks.items self.old.settled.items self.old.loose.items
            → ShowsMoment (record m { loose = loosened m.loose at }) self.new.blocks.items self.new.settled.items self.new.loose.items }
    {
        let at = at as usize;
        if at < self.loose.len() {
            self.loose[at] = true;
        }
    }

    // Settles all blocks.
    fn settle(&mut self)
        ensures { (m : Moment) → ShowsMoment m self.old.blocks.items self.old.settled.items self.old.loose.items
            → ShowsMoment (record m { settled = m.now; loose = λ k. false }) self.new.blocks.items self.new.settled.items self.new.loose.items }
    {
        for k in 0..self.loose.len() {
            self.settle_one(k);
        }
    }

    // Settles a block.
    fn settle_one(&mut self, k: usize)
        requires { k < length self.old.loose.items }
        ensures blocks { self.new.blocks.items ≡ self.old.blocks.items }
        ensures here { slice_index_or self.new.loose.items k false ≡ false }
        ensures flags { (j : ℕ) → ¬ (j ≡ k) → slice_index_or self.new.loose.items j false ≡ slice_index_or self.old.loose.items j false }
        ensures settled { block self.new.settled.items k
            ≡ (if slice_index_or self.old.loose.items k false then block self.old.blocks.items k else block self.old.settled.items k) }
        ensures others { (j : ℕ) → ¬ (j ≡ k) → block self.new.settled.items j ≡ block self.old.settled.items j }
    {
        if self.loose[k] {
            self.settled[k] = self.blocks[k];
            self.loose[k] = false;
        }
    }

    /// Fills the loose blocks.
    pub fn fill_loose(&mut self, fill: u64)
        requires { length self.old.blocks.items < 2 ^ 32 }
        ensures count { length self.new.blocks.items ≡ length self.old.blocks.items }
        ensures settled { (k : ℕ) → slice_index_or self.old.loose.items k false ≡ false
            → block self.new.blocks.items k ≡ block self.old.blocks.items k }
        ensures loose { (k : ℕ) → slice_index_or self.old.loose.items k false ≡ true
            → Filled fill k (block self.old.settled.items k) (block self.old.blocks.items k) (block self.new.blocks.items k) }
    {
        for k in 0..self.blocks.len() {
            self.fill_one(fill, k);
        }
    }

    // Fills a block, if it is loose.
    fn fill_one(&mut self, fill: u64, k: usize)
        requires here { k < length self.old.blocks.items }
        requires few { length self.old.blocks.items < 2 ^ 32 }
        ensures flags { self.new.loose.items ≡ self.old.loose.items }
        ensures old { self.new.settled.items ≡ self.old.settled.items }
        ensures count { length self.new.blocks.items ≡ length self.old.blocks.items }
        ensures settled { slice_index_or self.old.loose.items k false ≡ false
            → block self.new.blocks.items k ≡ block self.old.blocks.items k }
        ensures others { (j : ℕ) → ¬ (j ≡ k) → block self.new.blocks.items j ≡ block self.old.blocks.items j }
        ensures loose { slice_index_or self.old.loose.items k false ≡ true
            → Filled fill k (block self.old.settled.items k) (block self.old.blocks.items k) (block self.new.blocks.items k) }
    {
        if self.loose[k] {
            self.blocks[k] = filled_block(fill, k, &self.settled[k], &self.blocks[k]);
        }
    }
}
