//! The records of a host in memory, which take no memory where space was reserved.
ghost use Rattle.std.specs.Prelude.{◌≡◌, ◌⊎◌, ◌+◌, ◌≤◌, ◌<◌, ℕ, min, length, vec_len, vec_capacity, ◌++◌, [], ◌∷◌, OnOk, OnErr, IsOk, List};
ghost use Rattle.disk_mem.specs.declared.step.Step.TheVariants.{Give};
ghost use Rattle.disk_mem.specs.Record.{FailedNoted};

use crate::step::Step;
use std::alloc::AllocError;

/// Adds a step. It fails only where no space was reserved, and then changes nothing.
pub fn record(steps: &mut Vec<Step>, room: &mut usize, step: Step) -> Result<(), AllocError>
    requires { vec_len steps.old + room.old ≤ vec_capacity steps.old }
    ensures added { OnOk result (steps.new.items ≡ steps.old.items ++ step ∷ []) }
    ensures none { OnErr result (steps.new.items ≡ steps.old.items) }
    ensures roomy { OnErr result (room.old ≡ 0) }
    ensures room { vec_len steps.new + room.new ≤ vec_capacity steps.new }
    ensures spent { room.old ≤ room.new + 1 }
    ensures less { room.new ≤ room.old }
{
    match steps.push(step) {
        Ok(()) => {
            *room = room.saturating_sub(1);
            Ok(())
        }
        Err(_) => Err(AllocError),
    }
}

/// Adds the step of a failed write. Where that finds no memory, the moments after it aren't remembered whole.
pub fn note_failed(
    steps: &mut Vec<Step>,
    room: &mut usize,
    remembered: &mut u64,
    number: u64,
    at: u32,
)
    requires { vec_len steps.old + room.old ≤ vec_capacity steps.old }
    ensures noted { FailedNoted number at steps.old.items steps.new.items remembered.old remembered.new }
    ensures roomy { 0 < room.old → remembered.new ≡ remembered.old }
    ensures earlier { min remembered.old number ≤ remembered.new }
    ensures room { vec_len steps.new + room.new ≤ vec_capacity steps.new }
    ensures spent { room.old ≤ room.new + 1 }
{
    match record(steps, room, Step::Failed(number, at)) {
        Ok(()) => {}
        Err(_) => *remembered = number.min(*remembered),
    }
}

/// Adds the bytes and their step, or nothing. It fails only where too little space was reserved.
pub fn add(
    output: &mut Vec<u8>,
    steps: &mut Vec<Step>,
    room: &mut usize,
    room_bytes: &mut usize,
    number: u64,
    bytes: &[u8],
) -> Result<(), AllocError>
    requires calls { vec_len steps.old + room.old ≤ vec_capacity steps.old }
    requires bytes { vec_len output.old + room_bytes.old ≤ vec_capacity output.old }
    ensures added { OnOk result (output.new.items ≡ output.old.items ++ bytes.now) }
    ensures noted { OnOk result (steps.new.items ≡ steps.old.items ++ Give number (length output.old.items + length bytes.now) ∷ []) }
    ensures none { OnErr result ((output.new.items ≡ output.old.items) × (steps.new.items ≡ steps.old.items)) }
    ensures roomy { 0 < room.old → length bytes.now ≤ room_bytes.old → IsOk result }
    ensures room { vec_len steps.new + room.new ≤ vec_capacity steps.new }
    ensures room_bytes { vec_len output.new + room_bytes.new ≤ vec_capacity output.new }
    ensures spent { room.old ≤ room.new + 1 }
    ensures spent_bytes { room_bytes.old ≤ room_bytes.new + length bytes.now }
    ensures kept_bytes { OnErr result (room_bytes.old ≤ room_bytes.new) }
{
    let before = output.len();
    output.extend_from_slice(bytes)?;
    let until = output.len();
    match record(steps, room, Step::Give(number, until)) {
        Ok(()) => {
            *room_bytes = room_bytes.saturating_sub(bytes.len());
            Ok(())
        }
        Err(e) => {
            output.truncate(before);
            Err(e)
        }
    }
}
