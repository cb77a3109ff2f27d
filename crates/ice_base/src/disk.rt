//! A disk by what it holds and what a crash may leave of it.
ghost use Rattle.std.specs.Prelude.{◌≡◌, ◌<◌, ◌≤◌, ◌^◌, ℕ, List, length, true, is_ok, OnOk};
ghost use Rattle.ice_base.specs.Disk.{Image, DiskState, block, Nowhere, Everywhere, AgreesOn, HasCause, WriteCounts, BarrierCounts, ReadCounts};
ghost use Rattle.ice_base.specs.Frames.{Within};

/// The unit of every read and write: 1,024 bytes.
pub type Block = [u8; 1024];

/// Why a call of a disk gave up. The disk's count of faults says so as well.
#[derive(Clone, Copy, Debug, PartialEq, Eq)]
pub enum DiskFault {
    Failed = 1,
}

/// A disk of numbered blocks. One that tells its content says what reads give and which blocks are loose,
/// that is, written since the last good barrier. A crash leaves settled blocks as they read, and anything in loose ones.
/// One that doesn't tell still keeps every clause that doesn't speak of content.
/// The count of faults rises at each `Err`, and stays at each `Ok`.
pub trait Disk {
    /// What the disk holds.
    ghost state: { Self → DiskState };

    /// What a crash at a moment not before that clock may leave, with exactly these bytes given out by then.
    ghost left: { Self → ℕ → Image → List ℕ → Type 0 };

    /// The number of blocks. It never changes.
    fn blocks(&self) -> u32
        ensures { result ≡ (state self.now).size };

    /// Reads a block. After an `Err` any bytes may stand in `into`, and the disk is as it was.
    fn read(&mut self, at: u32, into: &mut Block) -> Result<(), DiskFault>
        requires { at < (state self.old).size }
        ensures within { Within state left Nowhere self.old self.new }
        ensures cause { HasCause (state self.old) (state self.new) result }
        ensures calm { OnOk result ((state self.new).faults ≡ (state self.old).faults) }
        ensures bytes { (state self.old).tells ≡ true
            → OnOk result (into.new ≡ block (state self.old).now at) }
        ensures counts { (state self.old).tells ≡ true → ReadCounts (state self.old) (state self.new) };

    /// Writes a block, which is then loose. After an `Err` it is loose and may read as anything.
    fn write(&mut self, at: u32, from: &Block) -> Result<(), DiskFault>
        requires { at < (state self.old).size }
        ensures within { Within state left (λ k. k ≡ at) self.old self.new }
        ensures cause { HasCause (state self.old) (state self.new) result }
        ensures calm { OnOk result ((state self.new).faults ≡ (state self.old).faults) }
        ensures bytes { (state self.old).tells ≡ true
            → OnOk result (block (state self.new).now at ≡ from.now) }
        ensures counts { (state self.old).tells ≡ true
            → WriteCounts at (is_ok result) (state self.old) (state self.new) };

    /// Settles every block. After an `Err` all is as it was.
    fn barrier(&mut self) -> Result<(), DiskFault>
        ensures within { Within state left Nowhere self.old self.new }
        ensures cause { HasCause (state self.old) (state self.new) result }
        ensures calm { OnOk result ((state self.new).faults ≡ (state self.old).faults) }
        ensures counts { (state self.old).tells ≡ true
            → BarrierCounts (is_ok result) (state self.old) (state self.new) };

    /// At each moment a crash leaves what reads give, but for the loose blocks, and the bytes given out by then.
    ghost agrees_now: { (d : Self) (image : Image) (out : List ℕ) → left d (state d).clock image out
        → AgreesOn Everywhere (state d) image × (out ≡ (state d).streams.aside) };

    /// What reads give is one of the images.
    ghost counts_now: { (d : Self) (t : ℕ) → (state d).tells ≡ true → t ≤ (state d).clock
        → left d t (state d).now (state d).streams.aside };

    /// Block numbers fit 32 bits.
    ghost small: { (d : Self) → (state d).size < 2 ^ 32 };

    /// What reads give has a block for each number.
    ghost whole: { (d : Self) → (state d).tells ≡ true → length (state d).now ≡ (state d).size };
}
