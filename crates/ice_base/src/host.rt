//! A disk with a source of bytes and a sink for bytes.
ghost use Rattle.std.specs.Prelude.{◌≡◌, ◌<◌, ◌≤◌, ◌++◌, length, true, OnOk, OnErr};
ghost use Rattle.ice_base.specs.Disk.{Rose};
ghost use Rattle.ice_base.specs.Host.{SameDisk, Leaves, Takes, Gives, GaveOnly, FirstOf, CutOf, moved_count};

use crate::Disk;

/// Why a source gave up. The host's count of source faults says so as well.
#[derive(Clone, Copy, Debug, PartialEq, Eq)]
pub enum SourceFault {
    Failed = 1,
}

/// Why a sink gave up. The host's count of sink faults says so as well.
#[derive(Clone, Copy, Debug, PartialEq, Eq)]
pub enum SinkFault {
    Failed = 1,
}

/// A disk that also hands in bytes and takes bytes, so that a crash shows the image together with the bytes given by then.
pub trait Host: Disk {
    /// Takes bytes from the source to the front of `into` and says how many: 0 at the end of the input.
    fn take(&mut self, into: &mut [u8]) -> Result<usize, SourceFault>
        requires { 0 < length into.old }
        ensures disk { SameDisk (Self.state self.old) (Self.state self.new) }
        ensures ticks { (Self.state self.old).tells ≡ true
            → Rose (Self.state self.old).clock (Self.state self.new).clock }
        ensures leaves { Leaves Self.state Self.left (λ out. out ≡ (Self.state self.old).streams.aside) self.old self.new }
        ensures takes { Takes (Self.state self.old).tells (Self.state self.old).streams (Self.state self.new).streams into.new result }
        ensures calm { OnOk result ((Self.state self.new).streams.source_faults ≡ (Self.state self.old).streams.source_faults) };

    /// Gives some first bytes to the sink and says how many: at least one.
    fn give(&mut self, bytes: &[u8]) -> Result<usize, SinkFault>
        requires { 0 < length bytes.now }
        ensures disk { SameDisk (Self.state self.old) (Self.state self.new) }
        ensures ticks { (Self.state self.old).tells ≡ true
            → Rose (Self.state self.old).clock (Self.state self.new).clock }
        ensures leaves { Leaves Self.state Self.left (FirstOf (Self.state self.old).streams.aside bytes.now (moved_count result)) self.old self.new }
        ensures gives { Gives (Self.state self.old).tells (Self.state self.old).streams (Self.state self.new).streams bytes.now result }
        ensures calm { OnOk result ((Self.state self.new).streams.sink_faults ≡ (Self.state self.old).streams.sink_faults) };
}

/// Gives all the bytes, in as many pieces as the sink takes them. After an `Err` some first bytes were given, but not all.
/// Each crash leaves the disk as it was, with some first bytes given.
pub fn give_all<H: Host>(host: &mut H, bytes: &[u8]) -> Result<(), SinkFault>
    ensures disk { SameDisk (H.state host.old) (H.state host.new) }
    ensures leaves { (H.state host.old).tells ≡ true
        → Leaves H.state H.left (FirstOf (H.state host.old).streams.aside bytes.now (length bytes.now)) host.old host.new }
    ensures all { (H.state host.old).tells ≡ true
        → OnOk result ((H.state host.new).streams.aside ≡ (H.state host.old).streams.aside ++ bytes.now) }
    ensures calm { OnOk result ((H.state host.new).streams.sink_faults ≡ (H.state host.old).streams.sink_faults) }
    ensures cause { OnErr result (Rose (H.state host.old).streams.sink_faults (H.state host.new).streams.sink_faults) }
    ensures only { GaveOnly (H.state host.old).streams (H.state host.new).streams }
    ensures cut { (H.state host.old).tells ≡ true
        → OnErr result (CutOf (H.state host.old).streams.aside bytes.now (H.state host.new).streams.aside) }
{
    let mut at = 0;
    while at < bytes.len() {
        at += host.give(&bytes[at..])?;
    }
    Ok(())
}
