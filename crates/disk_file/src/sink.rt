//! A sink that holds given bytes back.
ghost use Rattle.std.specs.Prelude.{◌≡◌, ◌↔◌, ◌≤◌, ◌<◌, [], true, false, length, take, IfSome, IfOk, IsOk, IsNone, MatchOption};
ghost use Rattle.std.specs.Io.Buffered.{writer_buffer, writer_contents};
ghost use Rattle.std.specs.Io.KnownBytes.{Keeps, Appends};

use crate::streams::give_piece;
use std::alloc::Global;
use std::io::{self, BufWriter, Write};

/// Holds the bytes that it is given and sends them on, in their order, where there is no more room or `send` asks for it.
/// A failure is remembered: from then on nothing is taken or sent, but that what is left is tried once more where it is dropped.
#[derive(Drop)]
pub(crate) struct Sink<W: Write + Drop> {
    pub(crate) output: BufWriter<W>,
    pub(crate) lost: bool,
}

impl<W: Write + Drop> Sink<W> {
    /// It holds up to `room` bytes. Without room, which takes no memory, it sends at once what it is given.
    pub(crate) fn new(alloc: Global, room: usize, output: W) -> io::Result<Sink<W>>
        ensures held { IfOk result (λ s. writer_buffer s.output ≡ []) }
        ensures lost { IfOk result (λ s. s.lost ≡ false) }
        ensures succeeds { room ≡ 0 → IsOk result }
    {
        let output = BufWriter::with_capacity(alloc, room, output)?;
        Ok(Sink {
            output,
            lost: false,
        })
    }

    /// How many first bytes it took, at least one; none where sending failed, now or before.
    pub(crate) fn give(&mut self, bytes: &[u8]) -> Option<usize>
        ensures some { IfSome result (λ n. 0 < n) }
        ensures count { IfSome result (λ n. n ≤ length bytes.now) }
        ensures order { MatchOption result
            (Keeps (writer_contents W.contents self.old.output) (writer_contents W.contents self.new.output))
            (λ n. Appends (writer_contents W.contents self.old.output) (writer_contents W.contents self.new.output) (take n bytes.now)) }
        ensures lost { MatchOption result (self.new.lost ≡ true) (λ n. self.new.lost ≡ false) }
        ensures before { self.old.lost ≡ true → IsNone result }
    {
        if self.lost {
            return None;
        }
        let taken = give_piece(&mut self.output, bytes);
        self.lost = taken.is_none();
        taken
    }

    /// Sends what it holds, and says whether all was sent. Where that failed, now or before, the rest is lost.
    pub(crate) fn send(&mut self) -> bool
        ensures all { result ≡ true ↔ self.new.lost ≡ false }
        ensures sent { self.new.lost ≡ false → writer_buffer self.new.output ≡ [] }
        ensures order { Keeps (writer_contents W.contents self.old.output) (writer_contents W.contents self.new.output) }
        ensures before { self.old.lost ≡ true → self.new.lost ≡ true }
    {
        if !self.lost {
            self.lost = self.output.flush().is_err();
        }
        !self.lost
    }
}

#[cfg(test)]
mod tests {
    use super::*;
    use std::io::ErrorKind;
    use std::test::Fail;

    /// Takes four bytes a call, and so many calls.
    #[derive(Drop)]
    struct Tray {
        bytes: Vec<u8>,
        calls: u32,
    }

    impl Write for Tray {
        fn write(&mut self, bytes: &[u8]) -> io::Result<usize> {
            if self.calls == 0 {
                return Err(ErrorKind::BrokenPipe.into());
            }
            self.calls -= 1;
            let count = bytes.len().min(4);
            self.bytes.extend_from_slice(&bytes[..count])?;
            Ok(count)
        }

        fn flush(&mut self) -> io::Result<()> {
            Ok(())
        }
    }

    fn sink(rt: &HostRuntime, room: usize, calls: u32) -> io::Result<Sink<Tray>> {
        let bytes = Vec::new(rt.alloc());
        Sink::new(rt.alloc(), room, Tray { bytes, calls })
    }

    #[test]
    fn bytes_are_held_until_there_is_no_room_and_keep_their_order(
        rt: HostRuntime,
    ) -> Result<(), Fail> {
        let mut sink = sink(&rt, 8, 100)?;
        for (bytes, taken, sent) in [
            ("abc", 3, ""),
            ("defgh", 5, ""),
            ("i", 1, "abcdefgh"),
            ("jklmnopqrst", 4, "abcdefghijklm"),
            ("n", 1, "abcdefghijklm"),
        ] {
            assert_eq!(rt; sink.give(bytes.as_bytes()), Some(taken));
            assert_eq!(rt; sink.output.get_ref().bytes.as_slice(), sent.as_bytes());
        }
        assert!(rt; sink.send());
        assert_eq!(rt;
            sink.output.get_ref().bytes.as_slice(),
            b"abcdefghijklmn".as_slice()
        );
        Ok(())
    }

    #[test]
    fn without_room_bytes_are_sent_at_once(rt: HostRuntime) -> Result<(), Fail> {
        let mut sink = sink(&rt, 0, 2)?;
        assert_eq!(rt; sink.give(b"abcdef"), Some(4));
        assert_eq!(rt; sink.give(b"ef"), Some(2));
        assert_eq!(rt; sink.give(b"g"), None);
        assert_eq!(rt;
            sink.output.get_ref().bytes.as_slice(),
            b"abcdef".as_slice()
        );
        Ok(())
    }

    #[test]
    fn a_failure_is_remembered(rt: HostRuntime) -> Result<(), Fail> {
        let mut sink = sink(&rt, 8, 1)?;
        assert_eq!(rt; sink.give(b"abcdef"), Some(6));
        assert_eq!(rt; sink.give(b"ghi"), None);
        assert!(rt; sink.lost);
        sink.output.get_mut().calls = 100;
        assert!(rt; !sink.send());
        assert_eq!(rt; sink.give(b"j"), None);
        assert_eq!(rt; sink.output.get_ref().bytes.as_slice(), b"abcd".as_slice());
        Ok(())
    }
}
