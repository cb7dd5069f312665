// The bundle on standard input.
#![tactic(auto)]

ghost use Rattle.std.specs.Prelude.{◌≡◌, ◌<◌, length, take, IfOk, IfSome, OnOk, OnErr};
ghost use Rattle.std.specs.Io.{ReadsAtMost};
ghost use Rattle.std.specs.Io.KnownBytes.{Consumes, IsAtEnd};

use std::io;
use std::io::Read;

// Reads until the space is full or the input ends, and says how many bytes it put at the start of the space. An error is one that the reader gave: the space is
// as long as before, and may hold some of the input.
pub fn read_full<R: Read>(reader: &mut R, space: &mut [u8]) -> io::Result<usize>
    ensures bound { ReadsAtMost result space.new }
    ensures bytes { IfOk result (λ n. Consumes (R.remaining reader.old) (R.remaining reader.new) (take n space.new)) }
    ensures end { IfOk result (λ n. n < length space.new → IsAtEnd (R.remaining reader.new)) }
    ensures err { OnErr result (length space.new ≡ length space.old) }
{
    let mut done = 0;
    // A `while`: a reader gives as many bytes at a time as it likes, so the number of turns is not known before.
    while done < space.len() {
        let n = reader.read(&mut space[done..])?;
        if n == 0 {
            break;
        }
        done += n;
    }
    Ok(done)
}

// Reads the input to its end, so that whoever writes it is not cut off.
fn read_rest<R: Read>(reader: &mut R) -> io::Result<()>
    ensures { OnOk result (IsAtEnd (R.remaining reader.new)) }
{
    io::copy(reader, &mut io::sink())?;
    Ok(())
}

// Reads a bundle to the start of the space, and says how many bytes it has. A space of one byte more than a bundle may have shows a longer input to be none,
// whatever follows. After an error, which is one that the reader gave, the space is as long as before, and may hold some of the input.
pub fn read_bundle<R: Read>(reader: &mut R, space: &mut [u8]) -> io::Result<usize>
    ensures bound { ReadsAtMost result space.new }
    ensures bytes { IfOk result (λ n. IfSome (R.remaining reader.old) (λ xs. take n space.new ≡ take (length space.new) xs)) }
    ensures end { OnOk result (IsAtEnd (R.remaining reader.new)) }
    ensures err { OnErr result (length space.new ≡ length space.old) }
{
    let len = read_full(reader, space)?;
    read_rest(reader)?;
    Ok(len)
}

#[cfg(test)]
mod tests {
    use super::*;
    use std::test::Fail;

    #[test]
    fn reads_a_whole_bundle(rt: HostRuntime) -> Result<(), Fail> {
        let mut source = b"abc".as_slice();
        let mut space = [7u8; 5];
        assert_eq!(rt; read_bundle(&mut source, &mut space)?, 3);
        assert_eq!(rt; space.as_slice(), b"abc\x07\x07".as_slice());
        Ok(())
    }

    #[test]
    fn fills_the_space_and_reads_the_rest(rt: HostRuntime) -> Result<(), Fail> {
        let mut source = b"abcdef".as_slice();
        let mut space = [0u8; 4];
        assert_eq!(rt; read_bundle(&mut source, &mut space)?, 4);
        assert_eq!(rt; space.as_slice(), b"abcd".as_slice());
        assert_eq!(rt; source.len(), 0);
        Ok(())
    }
}
