// The scratch and the row, which are filled before each call, so that afterwards every byte says whether it was written; and the subclass matrix.
use crate::block::read_first;
use std::io;
use std::io::Read;
use test_support::buffer::{MATRIX, MATRIX_ROW, SCRATCH, fill};

// A row that is longer than the longest line of a chart, and than a type, so that a call can write past it.
pub(crate) const ROW: usize = 660;

const CLASSES: usize = 128;

pub(crate) fn unwritten_row() -> [u8; ROW] {
    let mut row = [0u8; ROW];
    fill(&mut row, 0);
    row
}

// Reads the matrix of so many classes, and answers whether it came whole. The rows of absent classes are 0.
pub(crate) fn read_matrix<R: Read>(
    reader: &mut R,
    matrix: &mut [u8; SCRATCH],
    classes: usize,
) -> io::Result<bool> {
    if classes > CLASSES {
        return Ok(false);
    }
    fill(matrix, MATRIX);
    read_first(reader, matrix, MATRIX_ROW * classes)
}

// Gives a scratch, where the matrix belongs, other bytes than those of the matrix, so that one which is not written shows.
pub(crate) fn complement(scratch: &mut [u8; SCRATCH], matrix: &[u8; SCRATCH]) {
    for k in 0..MATRIX {
        scratch[k] = matrix[k] ^ 255;
    }
}
