//! One piece of the standard streams, again where a signal interrupts the call.
ghost use Rattle.std.specs.Prelude.{◌≡◌, ◌≤◌, ◌<◌, length, take, IfSome, MatchOption};
ghost use Rattle.std.specs.Io.KnownBytes.{Keeps, Appends, Consumes, IsAtEnd};

use std::io::{ErrorKind, Read, Write};

/// How often an interrupted call is made again before it counts as failed.
const TRIES: u32 = 1000;

/// How many bytes came, 0 at the end of the input; none where reading failed.
#[tactic(auto, using(crate::proofs::Bytes::bytes_laws))]
pub(crate) fn take_piece<R: Read>(input: &mut R, into: &mut [u8]) -> Option<usize>
    requires { 0 < length into.old }
    ensures count { IfSome result (λ n. n ≤ length into.new) }
    ensures order { MatchOption result
        (Keeps (R.remaining input.old) (R.remaining input.new))
        (λ n. Consumes (R.remaining input.old) (R.remaining input.new) (take n into.new)) }
    ensures end { IfSome result (λ n. n ≡ 0 → IsAtEnd (R.remaining input.new)) }
{
    for _ in 0..TRIES {
        match input.read(into) {
            Ok(count) => return Some(count),
            Err(error) if error.kind() == ErrorKind::Interrupted => {}
            Err(_) => return None,
        }
    }
    None
}

/// How many bytes went, at least one; none where writing failed.
#[tactic(auto, using(crate::proofs::Bytes::bytes_laws))]
pub(crate) fn give_piece<W: Write>(output: &mut W, bytes: &[u8]) -> Option<usize>
    ensures some { IfSome result (λ n. 0 < n) }
    ensures count { IfSome result (λ n. n ≤ length bytes.now) }
    ensures order { MatchOption result
        (Keeps (W.contents output.old) (W.contents output.new))
        (λ n. Appends (W.contents output.old) (W.contents output.new) (take n bytes.now)) }
{
    for _ in 0..TRIES {
        match output.write(bytes) {
            Ok(0) => return None,
            Ok(gone) => return Some(gone),
            Err(error) if error.kind() == ErrorKind::Interrupted => {}
            Err(_) => return None,
        }
    }
    None
}

#[cfg(test)]
mod tests {
    use super::*;
    use std::io;
    use std::test::Fail;

    /// Five bytes, two at a time. The call of that number fails in that way.
    #[derive(Drop)]
    struct Tape {
        at: usize,
        calls: u32,
        fault: (u32, ErrorKind),
    }

    impl Read for Tape {
        fn read(&mut self, into: &mut [u8]) -> io::Result<usize> {
            let call = self.calls;
            self.calls = call.saturating_add(1);
            if call == self.fault.0 {
                return Err(self.fault.1.into());
            }
            let count = into.len().min(2).min(5usize.saturating_sub(self.at));
            for byte in into.iter_mut().take(count) {
                *byte = b'a';
            }
            self.at = self.at.saturating_add(count);
            Ok(count)
        }
    }

    #[test]
    fn input_comes_in_pieces_until_its_end_or_a_failure(rt: HostRuntime) -> Result<(), Fail> {
        let table = [
            ((9, ErrorKind::Other), [Some(2), Some(2), Some(1), Some(0)]),
            (
                (1, ErrorKind::Interrupted),
                [Some(2), Some(2), Some(1), Some(0)],
            ),
            (
                (1, ErrorKind::IsADirectory),
                [Some(2), None, Some(2), Some(1)],
            ),
        ];
        for (fault, wants) in table {
            let mut tape = Tape {
                at: 0,
                calls: 0,
                fault,
            };
            for want in wants {
                assert_eq!(rt; take_piece(&mut tape, &mut [0; 4]), want);
            }
        }
        Ok(())
    }
}
