//! Whole blocks of a file, in as many calls as the system takes for each.
ghost use Rattle.std.specs.Prelude.{◌≡◌, ◌⊎◌, ◌+◌, ◌*◌, ◌<◌, ◌≤◌, ℕ, Bool, true, false, length, slice_index, IfOk, OnOk, OnErr};

use ice_base::Block;
use std::fs::File;
use std::io::{self, ErrorKind};
use std::os::unix::fs::FileExt;

/// The bytes of a block.
pub(crate) const BLOCK_BYTES: u64 = 1024;

const BLOCK: usize = 1024;

/// Calls for one block: each moves a byte at least, or was interrupted.
const CALLS: usize = 2048;

/// Bytes at places, moved in pieces, as the system moves those of a file.
pub(crate) trait Places {
    /// Whether it tells its bytes. A file doesn't.
    ghost tells: { Self → Bool };

    /// The byte at each place.
    ghost byte: { Self → ℕ → ℕ };

    /// Reads bytes from a place on to the front of `into`, and says how many: none at the end.
    fn read_piece(&mut self, into: &mut [u8], from: u64) -> io::Result<usize>
        ensures count { IfOk result (λ n. n ≤ length into.new) }
        ensures bytes { tells self.old ≡ true → IfOk result (λ n. (j : ℕ) → j < n → slice_index into.new j ≡ byte self.old (from + j)) }
        ensures same { (k : ℕ) → byte self.new k ≡ byte self.old k }
        ensures still { tells self.new ≡ tells self.old };

    /// Writes some first bytes from a place on, and says how many.
    fn write_piece(&mut self, bytes: &[u8], from: u64) -> io::Result<usize>
        ensures count { IfOk result (λ n. n ≤ length bytes.now) }
        ensures here { tells self.old ≡ true → IfOk result (λ n. (j : ℕ) → j < n → byte self.new (from + j) ≡ slice_index bytes.now j) }
        ensures others { tells self.old ≡ true
            → IfOk result (λ n. (k : ℕ) → (k < from) ⊎ (from + n ≤ k) → byte self.new k ≡ byte self.old k) }
        ensures none { tells self.old ≡ true → OnErr result ((k : ℕ) → byte self.new k ≡ byte self.old k) }
        ensures still { tells self.new ≡ tells self.old };
}

impl Places for File {
    ghost tells = { λ f. false };

    ghost byte = { λ f k. 0 };

    fn read_piece(&mut self, into: &mut [u8], from: u64) -> io::Result<usize> {
        self.read_at(into, from)
    }

    fn write_piece(&mut self, bytes: &[u8], from: u64) -> io::Result<usize> {
        self.write_at(bytes, from)
    }
}

/// Reads the bytes of a block. After an `Err` any bytes may stand in `into`.
pub(crate) fn read_whole<F: Places>(file: &mut F, at: u32, into: &mut Block) -> io::Result<()>
    ensures bytes { F.tells file.old ≡ true
        → OnOk result ((j : ℕ) → j < 1024 → slice_index into.new j ≡ F.byte file.old (1024 * at + j)) }
    ensures same { (k : ℕ) → F.byte file.new k ≡ F.byte file.old k }
{
    let start = u64::from(at) * BLOCK_BYTES;
    let mut done = 0;
    for _ in 0..CALLS {
        if done >= BLOCK {
            return Ok(());
        }
        match file.read_piece(&mut into[done..], start + done as u64) {
            Ok(0) => return Err(ErrorKind::UnexpectedEof.into()),
            Ok(count) => done += count,
            Err(error) if error.kind() == ErrorKind::Interrupted => {}
            Err(error) => return Err(error),
        }
    }
    Err(ErrorKind::Interrupted.into())
}

/// Writes the bytes of a block. After an `Err` any bytes may stand there; no others change.
pub(crate) fn write_whole<F: Places>(file: &mut F, at: u32, from: &Block) -> io::Result<()>
    ensures bytes { F.tells file.old ≡ true
        → OnOk result ((j : ℕ) → j < 1024 → F.byte file.new (1024 * at + j) ≡ slice_index from.now j) }
    ensures others { F.tells file.old ≡ true → (k : ℕ) → (k < 1024 * at) ⊎ (1024 * at + 1024 ≤ k)
        → F.byte file.new k ≡ F.byte file.old k }
{
    let start = u64::from(at) * BLOCK_BYTES;
    let mut done = 0;
    for _ in 0..CALLS {
        if done >= BLOCK {
            return Ok(());
        }
        match file.write_piece(&from[done..], start + done as u64) {
            Ok(0) => return Err(ErrorKind::WriteZero.into()),
            Ok(count) => done += count,
            Err(error) if error.kind() == ErrorKind::Interrupted => {}
            Err(error) => return Err(error),
        }
    }
    Err(ErrorKind::Interrupted.into())
}

#[cfg(test)]
mod tests {
    use super::*;
    use std::test::Fail;

    /// Bytes that move at most `most` at a time. The call of that number fails in that way.
    #[derive(Drop)]
    struct Tray {
        bytes: Vec<u8>,
        most: usize,
        calls: u32,
        fault: Option<(u32, ErrorKind)>,
    }

    impl Tray {
        // The byte at a place.
        fn at(&self, place: usize) -> u8 {
            match self.bytes.get(place) {
                Some(byte) => *byte,
                None => 0,
            }
        }

        // How many bytes of so many move, from a place on.
        fn moves(&mut self, wanted: usize, from: u64) -> io::Result<usize>
            ensures { IfOk result (λ n. n ≤ wanted) }
        {
            let call = self.calls;
            self.calls = call.saturating_add(1);
            match self.fault {
                Some((number, kind)) if number == call => Err(kind.into()),
                _ => {
                    let left = self.bytes.len().saturating_sub(from as usize);
                    Ok(wanted.min(self.most).min(left))
                }
            }
        }
    }

    impl Places for Tray {
        ghost tells = { λ t. false };

        ghost byte = { λ t k. 0 };

        fn read_piece(&mut self, into: &mut [u8], from: u64) -> io::Result<usize> {
            let count = self.moves(into.len(), from)?;
            for (k, byte) in into.iter_mut().take(count).enumerate() {
                *byte = self.at((from as usize).saturating_add(k));
            }
            Ok(count)
        }

        fn write_piece(&mut self, bytes: &[u8], from: u64) -> io::Result<usize> {
            let count = self.moves(bytes.len(), from)?;
            for (k, byte) in bytes.iter().take(count).enumerate() {
                if let Some(place) = self.bytes.get_mut((from as usize).saturating_add(k)) {
                    *place = *byte;
                }
            }
            Ok(count)
        }
    }

    // Byte k of the tray is the remainder of k by 251. Three blocks, and ten bytes.
    fn full_tray(
        rt: &HostRuntime,
        most: usize,
        fault: Option<(u32, ErrorKind)>,
    ) -> Result<Tray, Fail> {
        let mut bytes = Vec::new(rt.alloc());
        for k in 0..3082u32 {
            bytes.push((k % 251) as u8)?;
        }
        Ok(Tray {
            bytes,
            most,
            calls: 0,
            fault,
        })
    }

    // The pieces of 300 bytes, the call that fails and how, and what comes of it: none is success.
    const CASES: [(u32, ErrorKind, Option<ErrorKind>); 4] = [
        (9, ErrorKind::Other, None),
        (2, ErrorKind::Interrupted, None),
        (0, ErrorKind::Other, Some(ErrorKind::Other)),
        (
            3,
            ErrorKind::PermissionDenied,
            Some(ErrorKind::PermissionDenied),
        ),
    ];

    fn kind_of(outcome: io::Result<()>) -> Option<ErrorKind> {
        match outcome {
            Ok(()) => None,
            Err(error) => Some(error.kind()),
        }
    }

    #[test]
    fn a_block_is_read_piece_by_piece(rt: HostRuntime) -> Result<(), Fail> {
        for (call, kind, want) in CASES {
            let mut tray = full_tray(&rt, 300, Some((call, kind)))?;
            let mut block = [0; 1024];
            assert_eq!(rt;
                kind_of(read_whole(&mut tray, 1, &mut block)),
                want,
                "{call}"
            );
            if want.is_none() {
                for k in 0..1024 {
                    assert_eq!(rt; block[k], ((1024 + k) % 251) as u8, "{k}");
                }
            }
        }
        let mut tray = full_tray(&rt, 300, None)?;
        let past = kind_of(read_whole(&mut tray, 3, &mut [0; 1024]));
        assert_eq!(rt; past, Some(ErrorKind::UnexpectedEof));
        Ok(())
    }

    #[test]
    fn a_block_is_written_piece_by_piece(rt: HostRuntime) -> Result<(), Fail> {
        let mut block = [0; 1024];
        for k in 0..1024 {
            block[k] = (k % 253) as u8;
        }
        for (call, kind, want) in CASES {
            let mut tray = full_tray(&rt, 300, Some((call, kind)))?;
            assert_eq!(rt; kind_of(write_whole(&mut tray, 1, &block)), want, "{call}");
            for k in 0..3082usize {
                let inside = (1024..2048).contains(&k);
                let old = (k % 251) as u8;
                let new = (k.saturating_sub(1024) % 253) as u8;
                if want.is_none() || !inside {
                    let byte = if inside { new } else { old };
                    assert_eq!(rt; tray.at(k), byte, "{call} {k}");
                }
            }
        }
        let mut tray = full_tray(&rt, 0, None)?;
        let none = kind_of(write_whole(&mut tray, 1, &block));
        assert_eq!(rt; none, Some(ErrorKind::WriteZero));
        Ok(())
    }
}
