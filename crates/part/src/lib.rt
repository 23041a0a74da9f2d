// The part of an output that a source segment became: the first unbroken part of its flags whose
// origins name that segment, as its span or as the connector after it.
#![tactic(auto)]

ghost use Rattle.std.specs.Prelude.{◌≡◌, ◌≤◌, eqb, length, not};
ghost use Rattle.std.specs.List.{position};
ghost use Rattle.floats.specs.Choice.{when◌give◌else◌};
ghost use Rattle.moves.specs.Origins.{origin_of, origins_in};
ghost use Rattle.part.specs.Part.{naming, front, part_at, empty, part_answer, part_for, flags_in, stand_in};

use refusals::Refusal;
use segments::{OutputSegment, SourceSegment};

// Output segments are numbered by 32 bits, and so is how many they are.
const MOST_SEGMENTS: usize = 0xffff_ffff;

// Where a part starts and how many segments it has.
#[derive(Clone, Copy)]
pub struct Bounds {
    pub start: OutputSegment,
    pub count: u32,
}

impl Bounds {
    // What a refusal is told with, and what no segment became.
    pub fn empty() -> Bounds
        ensures { result ≡ empty }
    {
        Bounds {
            start: OutputSegment(0),
            count: 0,
        }
    }

    // So many from a place on.
    fn from_on(start: usize, count: usize) -> Bounds
        requires { (start ≤ 0xffff_ffff) × (count ≤ 0xffff_ffff) }
        ensures { result ≡ when eqb count 0 give empty else part_at start count }
    {
        if count == 0 {
            return Bounds::empty();
        }
        Bounds {
            start: OutputSegment(start as u32),
            count: count as u32,
        }
    }
}

// Half of an origin's number is its segment's: a segment's number, doubled, might wrap.
fn is_naming(code: u32, source: SourceSegment, named: bool) -> bool
    ensures { result ≡ naming named source.0 (origin_of code) }
{
    if named {
        return code / 2 == source.0;
    }
    code / 2 != source.0
}

// The first place whose origin does not name the segment, or, where `named` is false, does.
fn first_other(origins: &[u32], source: SourceSegment, named: bool) -> Option<usize>
    ensures { result ≡ position (λ c. not (naming named source.0 (origin_of c))) origins.now }
{
    origins
        .iter()
        .position(|code| !is_naming(*code, source, named))
}

// How many origins stand before that place.
fn count_front(origins: &[u32], source: SourceSegment, named: bool) -> usize
    ensures value { result ≡ front named source.0 (origins_in origins.now) }
    ensures upper_bound { result ≤ length origins.now }
{
    first_other(origins, source, named).unwrap_or(origins.len())
}

// Of an output of a source of `n` segments with so many flags: the part that is `source`'s.
pub fn find(n: u32, flags: usize, origins: &[u32], source: SourceSegment) -> Result<Bounds, Refusal>
    ensures { result ≡ part_answer n flags (origins_in origins.now) source.0 }
{
    if flags != origins.len() {
        return Err(Refusal::Ragged);
    }
    if source.0 >= n {
        return Err(Refusal::NoSuchSourceSegment);
    }
    let looked = &origins[..origins.len().min(MOST_SEGMENTS)];
    let start = count_front(looked, source, false);
    let count = count_front(&looked[start..], source, true);
    Ok(Bounds::from_on(start, count))
}

// The flags themselves: that part of the lent ones, where they stand, empty where it is refused.
pub fn part<'a>(n: u32, flags: &'a [u8], origins: &[u32], source: SourceSegment) -> &'a [u8]
    ensures result_value { result.now ≡ flags_in (part_for n (length flags.now) (origins_in origins.now) source.0) flags.now }
    ensures ref_ptr_value { result.ref_ptr ≡ stand_in (part_for n (length flags.now) (origins_in origins.now) source.0) flags.entry.ref_ptr }
{
    let bounds = find(n, flags.len(), origins, source).unwrap_or(Bounds::empty());
    let start = bounds.start.0 as usize;
    let end = start + bounds.count as usize;
    &flags[start..end]
}
