// The bytes of standard input, or of any other reader, into a lent buffer: what all programs read by.

#![tactic(auto)]

ghost use Rattle.std.specs.Prelude.{length};
ghost use Rattle.intake.specs.Contract.{Fill};

use std::io;
use std::io::Read;

// Reads until the buffer is full or the input ends, and gives how many bytes stand at the buffer's start.
pub fn fill<R: Read>(input: &mut R, bytes: &mut [u8]) -> io::Result<usize>
    ensures { Fill (R.remaining input.old) (R.remaining input.new) (length bytes.old) result bytes.new }
{
    let mut n = 0;
    // Kept: a `while`, since a read says itself how many places it filled.
    while n < bytes.len() {
        match input.read(&mut bytes[n..])? {
            0 => break,
            got => n += got,
        }
    }
    Ok(n)
}

#[cfg(test)]
mod tests {
    use super::*;
    use std::test::Fail;

    // Of more bytes than there is room for, the first are taken, and the others are left.
    #[test]
    fn fills_the_room(rt: HostRuntime) -> Result<(), Fail> {
        let mut input: &[u8] = &[1, 2, 3, 4, 5];
        let mut bytes = [0u8; 3];
        let n = fill(&mut input, &mut bytes)?;
        assert_eq!(rt; n, 3);
        assert_eq!(rt; bytes, [1, 2, 3]);
        assert_eq!(rt; input.len(), 2);
        Ok(())
    }

    // Of fewer, all are taken, and what stands behind them stays.
    #[test]
    fn stops_at_the_end(rt: HostRuntime) -> Result<(), Fail> {
        let mut input: &[u8] = &[1, 2];
        let mut bytes = [9u8; 4];
        let n = fill(&mut input, &mut bytes)?;
        assert_eq!(rt; n, 2);
        assert_eq!(rt; bytes, [1, 2, 9, 9]);
        Ok(())
    }
}
