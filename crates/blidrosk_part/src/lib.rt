// Which part of an output a source segment became, for callers in C and Rust: one function, by its C name.
#![tactic(auto)]

ghost use Rattle.std.specs.Prelude.{◌≡◌, length};
ghost use Rattle.moves.specs.Origins.{origins_in};
ghost use Rattle.part.specs.Part.{part_answer};
ghost use Rattle.blidrosk_part.specs.Handed.{handed, handed_of};

use part::Bounds;
use refusals::Answer;
use segments::SourceSegment;

// Finds the part of a drawing of a source of `n` segments that is `source_segment`'s, and returns the
// number of the answer. `answer` is set to number, place, and the part's first output segment and how
// many it has: both 0 where it is refused and where there is none.
#[unsafe(no_mangle)]
pub extern "C" fn blidrosk_part(
    n: u32,
    flags: &[u8],
    origins: &[u32],
    source_segment: u32,
    answer: &mut [u32; 4],
) -> u32
    ensures { handed result answer.new ≡ handed_of (part_answer n (length flags.now) (origins_in origins.now) source_segment) }
{
    let found = part::find(n, flags.len(), origins, SourceSegment(source_segment));
    let bounds = found.unwrap_or(Bounds::empty());
    let number = found.number();
    *answer = [number, found.place(), bounds.start.0, bounds.count];
    number
}
