// What stands in the four places of a column or of a line's heading.
ghost use Rattle.std.specs.Prelude.{◌≡◌, ◌<◌, ◌≤◌, length, get_or};
ghost use Rattle.rules.specs.Model.{Model};
ghost use Rattle.rules.specs.Chart.{concretes, digit_at, number, entry, heading, cell};
ghost use Rattle.layout.specs.Bundles.{model};
ghost use Rattle.dispatch.specs.Found.{found_of};
ghost use Rattle.chart_line.specs.Charted.{Charted};

use answers::failure::NotFound;
use dispatch::index::IndexedBundle;
use layout::bytes::byte_at;

// The digit of a number at a power of ten, or a blank where the number is below the power.
fn digit_at(power: usize, n: usize) -> u8
    requires { 0 < power }
    ensures { result ≡ digit_at power n }
{
    if n < power {
        b' '
    } else {
        b'0' + (n / power % 10) as u8
    }
}

// A number, right-aligned.
fn number(n: usize) -> [u8; 4]
    ensures { result ≡ number n }
{
    [
        digit_at(1000, n),
        digit_at(100, n),
        digit_at(10, n),
        b'0' + (n % 10) as u8,
    ]
}

// What a send finds.
fn entry(found: Result<usize, NotFound>) -> [u8; 4]
    ensures { result ≡ entry (found_of found) }
{
    match found {
        Ok(m) => number(m),
        Err(NotFound::Missing) => [b' ', b' ', b' ', b'-'],
        Err(NotFound::Ambiguous(_, _)) => [b' ', b' ', b' ', b'*'],
    }
}

// The heading of line k: blanks for line 0, else the k-th of the concrete classes.
pub(crate) fn heading(classes: &[u8], k: usize) -> [u8; 4]
    requires { k ≤ length classes.now }
    ensures { (M : Model) → classes.now ≡ concretes M → result ≡ heading M k }
{
    if k == 0 {
        [b' '; 4]
    } else {
        number(byte_at(classes, k - 1))
    }
}

// The places of line k in the column of the i-th concrete class: its number in line 0, else what a send of the line's class and this one finds.
pub(crate) fn cell(
    indexed: &IndexedBundle<'_>,
    f: usize,
    classes: &[u8],
    k: usize,
    i: usize,
) -> [u8; 4]
    requires charted { Charted (model indexed.now.prepared.bundle) f classes.now k }
    requires i_in_bounds { i < length classes.now }
    ensures { result ≡ cell (model indexed.now.prepared.bundle) f k (get_or classes.now i 0) }
{
    if k == 0 {
        number(byte_at(classes, i))
    } else {
        entry(indexed.lookup(f, &[classes[k - 1], classes[i]]))
    }
}
