// A send: a function and a class for each place.
ghost use Rattle.std.specs.Prelude.{◌≡◌, ◌∷◌, ◌≤◌, length};
ghost use Rattle.rules.specs.Layout.{places, padded};
ghost use Rattle.answers.specs.Send.{send_values};

use layout::bytes::class_at;

// A class for each place, unused places 0.
#[derive(Clone, Copy)]
pub struct Tuple {
    pub a0: usize,
    pub a1: usize,
    pub a2: usize,
}

// The function and its argument classes.
#[derive(Clone, Copy)]
pub struct Send {
    pub function: usize,
    pub tuple: Tuple,
}

impl Send {
    // The send of a function for the argument classes at its places.
    pub fn of(function: usize, args: &[u8]) -> Send
        requires { length args.now ≤ places }
        ensures { send_values result ≡ function ∷ padded args.now }
    {
        let a0 = class_at(args, 0);
        let a1 = class_at(args, 1);
        let a2 = class_at(args, 2);
        let tuple = Tuple { a0, a1, a2 };
        Send { function, tuple }
    }
}
