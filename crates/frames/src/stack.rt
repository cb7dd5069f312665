// The stack of a frame's values.
ghost use Rattle.std.specs.Prelude.{◌≡◌, ◌+◌, ◌-◌, ◌<◌, ◌≤◌, get_or};
ghost use Rattle.rules.specs.Bytes.{part};
ghost use Rattle.rules.specs.Layout.{places, padded};
ghost use Rattle.rules.specs.Machine.{max_frames};
ghost use Rattle.frames.specs.Arrays.{stack_room, stack_at, height_at, raised, laid, lowered};

use crate::frame::{FRAME_BYTES, FRAME_NUMBERS, Frames};
use layout::bundle::Bundle;
use layout::bytes::{class_at, part};
use subclasses::tuple::padded_tuple;

impl Frames {
    // How many values frame k has.
    pub fn height(&self, k: usize) -> usize
        requires { k < max_frames }
        ensures { result ≡ height_at self.now.numbers k }
    {
        self.numbers[FRAME_NUMBERS * k + 2]
    }

    // The lowest value of frame k.
    pub fn lowest(&self, k: usize) -> usize
        requires { k < max_frames }
        ensures { (result ≡ get_or self.now.values (stack_at k) 0) × (result < 256) }
    {
        class_at(&self.values, FRAME_BYTES * k + Bundle::PLACES)
    }

    // Puts a value on the stack of frame k.
    pub fn push(&mut self, k: usize, v: usize)
        requires k_lt_max_frames { k < max_frames }
        requires height_bound { height_at self.old.numbers k < stack_room }
        requires v_bound { v < 256 }
        ensures numbers_after { self.new.numbers ≡ raised self.old.numbers k }
        ensures values_after { self.new.values ≡ laid self.old.numbers self.old.values k v }
    {
        let h = self.numbers[FRAME_NUMBERS * k + 2];
        self.values[FRAME_BYTES * k + Bundle::PLACES + h] = v as u8;
        self.numbers[FRAME_NUMBERS * k + 2] = h + 1;
    }

    // Takes the n top values of frame k off its stack, as a tuple: the topmost is the last.
    pub fn pop(&mut self, k: usize, n: usize) -> [u8; Bundle::PLACES]
        requires k_lt_max_frames { k < max_frames }
        requires height_bound { height_at self.old.numbers k ≤ stack_room }
        requires n_bound { n ≤ height_at self.old.numbers k }
        requires n_le_places { n ≤ places }
        ensures value { result ≡ padded (part self.old.values (stack_at k + (height_at self.old.numbers k - n)) n) }
        ensures numbers_after { self.new.numbers ≡ lowered self.old.numbers k (height_at self.old.numbers k - n) }
        ensures values_after { self.new.values ≡ self.old.values }
    {
        let h = self.numbers[FRAME_NUMBERS * k + 2];
        let low = h - n;
        self.numbers[FRAME_NUMBERS * k + 2] = low;
        let from = FRAME_BYTES * k + Bundle::PLACES + low;
        padded_tuple(part(&self.values, from, n))
    }
}
