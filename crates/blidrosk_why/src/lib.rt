// Why an output segment's flag is set or clear, for callers in C and Rust: one function, by its
// C name. It is a crate of its own, so that its walk is compiled apart from the one that draws.
#![tactic(auto)]

ghost use Rattle.std.specs.Prelude.{◌≡◌};
ghost use Rattle.segments.specs.Modes.{round_by};
ghost use Rattle.source.specs.Source.{rows};
ghost use Rattle.why.specs.Why.{why_of, numbers_of};
ghost use Rattle.why.specs.Handed.{handed, handed_of};

use segments::{OutputSegment, Settings};
use why::WhyNumbers;

// Tells of output segment `segment` of a job, and returns the number of the answer. `answer` is set to
// number, place, 1 for a connector, source segment, reason, and the rules at the span's start and end;
// `params` to both parameters of a span that turned back, and else to zeros.
#[unsafe(no_mangle)]
pub extern "C" fn blidrosk_why(
    source: &[f64],
    closed: bool,
    offset: f64,
    eps: f64,
    segment: u32,
    answer: &mut [u32; 7],
    params: &mut [f64; 2],
) -> u32
    ensures { handed result answer.new params.new ≡ handed_of (numbers_of (why_of (rows source.now) closed (round_by offset eps) segment)) }
{
    let settings = Settings::round(offset, eps);
    let told = why::why(source, closed, settings, OutputSegment(segment));
    WhyNumbers::from(told).hand(answer, params)
}
