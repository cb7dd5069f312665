// Blocks of numbers on standard input.
ghost use Rattle.std.specs.Prelude.{◌≤◌};

use input::read_full;
use std::io;
use std::io::Read;
use test_support::buffer::byte;

// No block has more numbers.
pub(crate) const NUMBERS: usize = 12;

// Reads so many bytes of the input to the start of space, and answers whether there were so many and space holds them.
pub(crate) fn read_first<R: Read>(
    reader: &mut R,
    space: &mut [u8],
    len: usize,
) -> io::Result<bool> {
    if len > space.len() {
        return Ok(false);
    }
    Ok(read_full(reader, &mut space[..len])? == len)
}

// The numbers in the first so many bytes: each byte is seven bits of one, the highest first, and all but a number's last have 128 added.
fn numbers_of(bytes: &[u8; 256], len: usize) -> [usize; NUMBERS]
    requires { len ≤ 256 }
{
    let mut numbers = [0usize; NUMBERS];
    let mut k = 0;
    for i in 0..len {
        if k >= NUMBERS {
            return numbers;
        }
        let group = byte(bytes, i);
        numbers[k] = (numbers[k] << 7) | (group & 127);
        if group < 128 {
            k += 1;
        }
    }
    numbers
}

// A block is a byte that says how many follow, and these. The numbers that it leaves out are 0; there are none where the input does not have it whole.
pub(crate) fn read_block<R: Read>(reader: &mut R) -> io::Result<Option<[usize; NUMBERS]>> {
    let mut head = [0u8; 1];
    if !read_first(reader, &mut head, 1)? {
        return Ok(None);
    }
    let len = byte(&head, 0);
    let mut bytes = [0u8; 256];
    if !read_first(reader, &mut bytes, len)? {
        return Ok(None);
    }
    Ok(Some(numbers_of(&bytes, len)))
}
