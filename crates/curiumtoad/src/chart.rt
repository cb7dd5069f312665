// The chart of a function of two arguments, a line at a time.
ghost use Rattle.std.specs.Prelude.{◌≡◌, length};
ghost use Rattle.rules.specs.Calls.{scratch_after};
ghost use Rattle.rules.specs.Chart.{chart_call, buffer_after};
ghost use Rattle.chart_line.specs.Charted.{chart_said, length_said};

pub use chart_line::line::ChartError;
use chart_line::line::chart_in;
use preparation::begin::begin;
use subclasses::prepared::PreparedBundle;

// A line of the function's chart, into the lent buffer: line 0 has the concrete classes, line k what a send of the k-th of them with each finds.
pub fn chart(
    bundle: &[u8],
    scratch: &mut [u8],
    text: &mut [u8],
    function: usize,
    line: usize,
) -> Result<usize, ChartError>
    ensures result_value { chart_said result ≡ length_said (chart_call bundle.now (length scratch.old) (length text.old) function line) }
    ensures scratch_after { scratch.new ≡ scratch_after bundle.now scratch.old }
    ensures text_after { text.new ≡ buffer_after bundle.now (length scratch.old) text.old function line }
{
    let bundle = begin(bundle, scratch)?;
    chart_in(&PreparedBundle { bundle, scratch }, function, line, text)
}
