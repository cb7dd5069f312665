// Opening a bundle.
ghost use Rattle.std.specs.Prelude.{◌≡◌};
ghost use Rattle.rules.specs.Calls.{opening_call};
ghost use Rattle.answers.specs.Opening.{said, Opens};

pub use answers::opening::LayoutFinding;
pub use layout::bundle::Bundle;

// The counts and tables of a bundle that opens, or the first of the rules 1 to 9 that it breaks.
pub fn open(bundle: &[u8]) -> Result<Bundle, LayoutFinding>
    ensures result_value { said result ≡ opening_call bundle.now }
    ensures opens { Opens bundle.now result }
{
    Ok(bundle_rules::opening::open(bundle)?.tables)
}
