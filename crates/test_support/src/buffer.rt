// Lent buffers, filled so that after a call every byte says whether it was written.
ghost use Rattle.std.specs.Prelude.{◌≡◌, ◌<◌, length, slice_index};
ghost use Rattle.rules.specs.Calls.{overwrite};
ghost use Rattle.test_support.specs.Support.{filler};

// A scratch that is longer than the matrix, also than one of a byte a pair, so that a call can write past it.
pub const SCRATCH: usize = 17000;
// The bytes of the matrix, and of each of its rows.
pub const MATRIX: usize = 2048;

pub const MATRIX_ROW: usize = 16;

// The byte at a place, 0 past the end.
pub fn byte(bytes: &[u8], at: usize) -> usize
    ensures value { result ≡ slice_index bytes.now at }
    ensures upper_bound { result < 256 }
{
    if at < bytes.len() {
        return usize::from(bytes[at]);
    }
    0
}

// From the place on it is 128 or more, which no byte of a type, a text or code is.
fn filler_at(zeros: usize, k: usize) -> u8
    ensures { result ≡ filler zeros k }
{
    if k < zeros {
        return 0;
    }
    (128 + k % 127) as u8
}

// Zeros up to a place, and behind them bytes that show where one is written.
pub fn fill(space: &mut [u8], zeros: usize)
    ensures { space.new ≡ overwrite (length space.old) (filler zeros) space.old }
{
    for k in 0..space.len() {
        space[k] = filler_at(zeros, k);
    }
}
