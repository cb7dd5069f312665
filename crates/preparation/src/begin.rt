// The bundle is opened, enough scratch is asked for, and the subclass matrix is filled.
ghost use Rattle.std.specs.Prelude.{◌≡◌, IfOk};
ghost use Rattle.preparation.specs.Begins.{Begins};

use answers::refusal::Refusal;
use bundle_rules::opening::open;
use layout::open::OpenBundle;
use subclasses::matrix::{BYTES, fill};

// The opened bundle, with its matrix in the scratch; or 1 to 9, or 19. A refusal leaves the scratch as it was. The prepared bundle is the caller's to make: of
// a scratch that goes out with the answer, the contract could not say what it holds afterwards.
pub fn begin<'a>(bundle: &'a [u8], scratch: &mut [u8]) -> Result<OpenBundle<'a>, Refusal>
    ensures begins { Begins bundle.now scratch.old scratch.new result }
    ensures same_bytes { IfOk result (λ b. b.bytes ≡ bundle.entry) }
{
    let bundle = open(bundle)?;
    if scratch.len() < BYTES {
        return Err(Refusal::Scratch);
    }
    fill(&bundle, scratch);
    Ok(bundle)
}
