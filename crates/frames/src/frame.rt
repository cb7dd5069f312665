// The frames and the fields of one.
ghost use Rattle.std.specs.Prelude.{◌≡◌, ◌+◌, ◌*◌, ◌<◌, ◌≤◌, length, get_or, replicate};
ghost use Rattle.rules.specs.Bytes.{part};
ghost use Rattle.rules.specs.Layout.{places, padded};
ghost use Rattle.rules.specs.Machine.{max_frames};
ghost use Rattle.frames.specs.Arrays.{stack_room, frame_numbers, frame_bytes, method_at, next_at, passed, begun, given};

use layout::bundle::Bundle;
use layout::bytes::{class_at, part};
use subclasses::tuple::padded_tuple;

// How many frames there can be.
pub const MAX_FRAMES: usize = 32;

// The numbers of a frame.
pub const FRAME_NUMBERS: usize = 3;

// The values that a frame can have: an instruction puts one at most, and a body has no more than 64.
pub const STACK_ROOM: usize = 64;

// The bytes of a frame.
pub const FRAME_BYTES: usize = Bundle::PLACES + STACK_ROOM;

// The frames of a run: the numbers of each, and its bytes.
#[derive(Clone, Copy)]
pub struct Frames {
    pub numbers: [usize; FRAME_NUMBERS * MAX_FRAMES],
    pub values: [u8; FRAME_BYTES * MAX_FRAMES],
}

impl Frames {
    // Frames to run on, before any is used.
    pub fn new() -> Self
        ensures numbers_zero { result.numbers ≡ replicate (frame_numbers * max_frames) 0 }
        ensures values_zero { result.values ≡ replicate (frame_bytes * max_frames) 0 }
    {
        Frames {
            numbers: [0; FRAME_NUMBERS * MAX_FRAMES],
            values: [0; FRAME_BYTES * MAX_FRAMES],
        }
    }

    // The method of frame k.
    pub fn method(&self, k: usize) -> usize
        requires { k < max_frames }
        ensures { result ≡ method_at self.now.numbers k }
    {
        self.numbers[FRAME_NUMBERS * k]
    }

    // The number of the next instruction of frame k.
    pub fn next(&self, k: usize) -> usize
        requires { k < max_frames }
        ensures { result ≡ next_at self.now.numbers k }
    {
        self.numbers[FRAME_NUMBERS * k + 1]
    }

    // The argument class of frame k at a place.
    pub fn argument(&self, k: usize, place: usize) -> usize
        requires k_lt_max_frames { k < max_frames }
        requires place_lt_places { place < places }
        ensures { result ≡ get_or self.now.values (frame_bytes * k + place) 0 }
    {
        class_at(&self.values, FRAME_BYTES * k + place)
    }

    // The n argument classes of frame k, as a tuple.
    pub fn arguments(&self, k: usize, n: usize) -> [u8; Bundle::PLACES]
        requires k_lt_max_frames { k < max_frames }
        requires n_le_places { n ≤ places }
        ensures { result ≡ padded (part self.now.values (frame_bytes * k) n) }
    {
        padded_tuple(part(&self.values, FRAME_BYTES * k, n))
    }

    // Passes the next instruction of frame k.
    pub fn pass(&mut self, k: usize)
        requires k_lt_max_frames { k < max_frames }
        requires next_bound { next_at self.old.numbers k < stack_room }
        ensures numbers_after { self.new.numbers ≡ passed self.old.numbers k }
        ensures values_after { self.new.values ≡ self.old.values }
    {
        self.numbers[FRAME_NUMBERS * k + 1] += 1;
    }

    // Opens frame k for method m and its argument classes.
    pub fn begin(&mut self, k: usize, m: usize, args: &[u8])
        requires k_lt_max_frames { k < max_frames }
        requires args_len_bound { length args.now ≤ places }
        ensures numbers_after { self.new.numbers ≡ begun self.old.numbers k m }
        ensures values_after { self.new.values ≡ given self.old.values k args.now }
    {
        self.numbers[FRAME_NUMBERS * k] = m;
        self.numbers[FRAME_NUMBERS * k + 1] = 0;
        self.numbers[FRAME_NUMBERS * k + 2] = 0;
        let at = FRAME_BYTES * k;
        // By a loop: `copy_from_slice` would become a call for three bytes at most, of a function that the C archive would need from outside.
        for (i, class) in args.iter().enumerate() {
            self.values[at + i] = *class;
        }
    }
}
