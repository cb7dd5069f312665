// Text that grows at its end: each function writes a piece at a place and answers the place after it. The room that a piece may take is a fixed number, so
// that callers need not know how many digits their numbers have.
// The text and the place are two parameters: of a struct that holds both, each function would have to promise as well that it still holds the same text.
ghost use Rattle.std.specs.Prelude.{◌≡◌, [], ◌∷◌, ◌++◌, ◌+◌, ◌^◌, ◌<◌, ◌≤◌, length};
ghost use Rattle.rules.specs.Decimal.{digits, decimal};
ghost use Rattle.lines.specs.Text.{classes};
ghost use Rattle.rules.specs.Layout.{places};
ghost use Rattle.lines.specs.Appended.{classes_room, Appended};

// The most digits of a number.
const DIGITS: usize = 20;

// Writes a word.
pub(crate) fn put_word(text: &mut [u8], at: usize, word: &[u8]) -> usize
    requires word_len_bound { length word.now ≤ 12 }
    requires at_in_bounds { at + 12 ≤ length text.old }
    ensures { Appended 12 text.old at word.now text.new result }
{
    let end = at + word.len();
    text[at..end].copy_from_slice(word);
    end
}

// The digit of a number below 10.
fn digit(n: usize) -> u8
    requires { n < 10 }
    ensures { result ≡ 48 + n }
{
    b'0' + n as u8
}

// Writes a number of at most so many digits in decimal, the first digit first.
fn put_digits(text: &mut [u8], at: usize, n: usize, most: usize) -> usize
    requires most_nonzero { 0 < most }
    requires n_bound { n < 10 ^ most }
    requires most_in_bounds { at + most ≤ length text.old }
    ensures { Appended most text.old at (digits most n) text.new result }
{
    if n < 10 {
        text[at] = digit(n);
        return at + 1;
    }
    let end = put_digits(text, at, n / 10, most - 1);
    text[end] = digit(n % 10);
    end + 1
}

// Writes a word and a number.
pub(crate) fn put_field(text: &mut [u8], at: usize, word: &[u8], n: usize) -> usize
    requires word_len_bound { length word.now ≤ 12 }
    requires at_in_bounds { at + 32 ≤ length text.old }
    ensures { Appended 32 text.old at (word.now ++ decimal n) text.new result }
{
    let end = put_word(text, at, word);
    put_digits(text, end, n, DIGITS)
}

// Writes a class of a send.
fn put_class(text: &mut [u8], at: usize, class: usize) -> usize
    requires { at + 32 ≤ length text.old }
    ensures { Appended 32 text.old at (classes (class ∷ [])) text.new result }
{
    put_field(text, at, b" ", class)
}

// Writes the classes of a send.
pub(crate) fn put_classes(text: &mut [u8], at: usize, args: &[usize]) -> usize
    requires args_len_le_places { length args.now ≤ places }
    requires classes_room_in_bounds { at + classes_room ≤ length text.old }
    ensures { Appended classes_room text.old at (classes args.now) text.new result }
{
    let mut end = at;
    for class in args {
        end = put_class(text, end, *class);
    }
    end
}
