// The listing of a bundle, in a lent buffer.
ghost use Rattle.std.specs.Prelude.{◌≡◌, ◌≤◌, length};
ghost use Rattle.text.specs.Listed.{OpenedAs, Composed, Told, Lists, listing_reply};

use answers::number::Number;
use bundle_rules::opening::open;
use layout::open::OpenBundle;
use lines::line::{counts_line, layout_line, verdict_line};
use reply::Reply;
use subclasses::matrix::{BYTES, fill};
use subclasses::prepared::PreparedBundle;
use verdicts::check::check_in;

// The buffer is too short, and untouched: 20, as for a row.
#[derive(Clone, Copy)]
pub struct ShortBuffer;

// The length of a text, or 20.
pub fn listing_reply(answer: Result<usize, ShortBuffer>) -> Reply
    ensures { result ≡ listing_reply answer }
{
    match answer {
        Ok(n) => Reply::given(n, 0),
        Err(ShortBuffer) => Reply::refused(Number::ShortBuffer, 0, 0),
    }
}

// Room for the longest listing.
const ROOM: usize = 512;

// Writes the two lines for a bundle that opens.
fn compose_opened(bundle: &OpenBundle<'_>, text: &mut [u8]) -> usize
    requires opened_as { OpenedAs bundle.now.bytes.now bundle.now.tables }
    requires in_bounds { 512 ≤ length text.old }
    ensures composed { Composed bundle.now.bytes.now text.new result }
    ensures text_len_unchanged { length text.new ≡ length text.old }
{
    let mut scratch = [0; BYTES];
    fill(bundle, &mut scratch);
    let prepared = PreparedBundle {
        bundle: *bundle,
        scratch: &scratch,
    };
    let verdict = check_in(&prepared);
    let at = counts_line(text, bundle.tables);
    verdict_line(bundle, text, at, verdict)
}

// Writes the listing.
fn compose(bundle: &[u8], text: &mut [u8]) -> usize
    requires { 512 ≤ length text.old }
    ensures composed { Composed bundle.now text.new result }
    ensures text_len_unchanged { length text.new ≡ length text.old }
{
    match open(bundle) {
        Ok(opened) => compose_opened(&opened, text),
        Err(found) => layout_line(text, 0, found),
    }
}

// Writes the listing of a bundle to the start of the buffer: how many bytes it has. 512 bytes are enough for any.
pub fn listing(bundle: &[u8], text: &mut [u8]) -> Result<usize, ShortBuffer>
    ensures told { 512 ≤ length text.old → Told result }
    ensures lists { Lists bundle.now text.old text.new result }
{
    let mut own = [0; ROOM];
    let n = compose(bundle, &mut own);
    if text.len() < n {
        return Err(ShortBuffer);
    }
    text[..n].copy_from_slice(&own[..n]);
    Ok(n)
}
