// The raw offset of a drawing: the job, with its refusals.
#![tactic(auto)]

mod mode;

ghost use Rattle.std.specs.Prelude.{◌≡◌, ◌≤◌, leb, length};
ghost use Rattle.floats.specs.Choice.{◌and◌};
ghost use Rattle.segments.specs.Modes.{are_pointed};
ghost use Rattle.source.specs.Source.{vertices_in, segments_of};
ghost use Rattle.sheet.specs.InnerSteps.{held, Drawable, SameLoans, lent};
ghost use Rattle.refusals.specs.Table.{number};
ghost use Rattle.job.specs.Handed.{five_of};
ghost use Rattle.job.specs.Verdict.{distinct_verdict};
ghost use Rattle.job.specs.Job.{result_in, ending, placed, job_of};
ghost use Rattle.job.specs.InnerSteps.{settings_by, moves_if, Counted, from_room};

pub use mode::{Mode, Pointed, Round};
use moves::RawOffsetResult;
use refusals::{Answer, MOST_VERTICES, Refusal};
use segments::Settings;
use sheet::{Marks, VerticesMut};
use source::Vertices;

// How a job ends: done, with counts and closed mark, or refused.
pub type RawOffsetAnswer = Result<RawOffsetResult, Refusal>;

// The counts and the closed mark of an answer: of a refusal those of an empty open drawing.
pub fn result_in(answer: RawOffsetAnswer) -> RawOffsetResult
    ensures { result ≡ result_in answer }
{
    answer.unwrap_or(RawOffsetResult::empty())
}

// What a caller in C is handed of an answer: its number, and in `five` number, place, count of vertices,
// count of indexes, and 1 where the drawing is closed.
pub fn hand(answer: RawOffsetAnswer, five: &mut [u32; 5]) -> u32
    ensures { (result ≡ number answer) × (five.new ≡ five_of answer) }
{
    let n = answer.number();
    let k = answer.place();
    let r = result_in(answer);
    *five = [n, k, r.vertices, r.indexes, r.closed as u32];
    n
}

// A span and its connectors: two in the pointed mode.
pub fn moves_a_segment(pointed: bool) -> usize
    ensures { result ≡ moves_if pointed }
{
    if pointed { 3 } else { 2 }
}

// Offsets a drawing into the lent buffers, in either layout and with either corners. Any numbers may come in;
// the answer says what became of the job.
pub fn create_raw_offset<S: Vertices, V: VerticesMut, M: Mode>(
    source: S,
    closed: bool,
    offset: f64,
    eps: f64,
    mode: M,
    vertices: &mut V,
    marks: &mut Marks,
) -> RawOffsetAnswer
    ensures ending { ending result (lent (V.lent vertices.new) marks.new)
        ≡ job_of (S.lent source) closed (settings_by offset eps (M.made mode)) (lent (V.lent vertices.old) marks.old) }
    ensures same_loans { SameLoans (V.lent vertices.old) marks.old (V.lent vertices.new) marks.new }
{
    if !source.is_whole() {
        return Err(Refusal::Ragged);
    }
    let v = source.count();
    if MOST_VERTICES < v {
        return Err(Refusal::TooMany);
    }
    let settings = Settings {
        offset,
        eps,
        corners: mode.corners(),
    };
    if let Some(k) = refusals::first_bad_number(source, settings) {
        return Err(Refusal::BadNumber(k));
    }
    if v < 2 {
        return Ok(RawOffsetResult::empty());
    }
    offset_good(source, closed, settings, mode.is_pointed(), vertices, marks)
}

pub fn has_room(room: usize, vertices: usize, flags: usize, indexes: usize, origins: usize) -> bool
    ensures { result ≡ (leb room vertices and (leb room flags and (leb room indexes and leb room origins))) }
{
    room <= vertices && (room <= flags && (room <= indexes && room <= origins))
}

// A source of two vertices or more, all of whose numbers are good. The mode is told beside the settings
// (joins::outer_corner).
fn offset_good<S: Vertices, V: VerticesMut>(
    source: S,
    closed: bool,
    settings: Settings,
    pointed: bool,
    vertices: &mut V,
    marks: &mut Marks,
) -> RawOffsetAnswer
    requires { let vs = vertices_in (S.lent source) in Counted (length vs) vs × (pointed ≡ are_pointed settings.corners) }
    ensures ending { ending result (lent (V.lent vertices.new) marks.new)
        ≡ from_room (vertices_in (S.lent source)) closed settings (lent (V.lent vertices.old) marks.old) }
    ensures same_loans { SameLoans (V.lent vertices.old) marks.old (V.lent vertices.new) marks.new }
{
    let room = moves_a_segment(pointed) * source::segment_count(source.count(), closed);
    if !has_room(
        room,
        vertices.count(),
        marks.flags.len(),
        marks.indexes.len(),
        marks.origins.len(),
    ) {
        return Err(Refusal::NoRoom);
    }
    if settings.offset == 0.0 {
        return Ok(sheet::copy(source, closed, room, vertices, marks));
    }
    offset_nonzero(source, closed, settings, pointed, room, vertices, marks)
}

// An offset that is not zero, with room for what it draws.
fn offset_nonzero<S: Vertices, V: VerticesMut>(
    source: S,
    closed: bool,
    settings: Settings,
    pointed: bool,
    room: usize,
    vertices: &mut V,
    marks: &mut Marks,
) -> RawOffsetAnswer
    requires { let vs = vertices_in (S.lent source) in Drawable (length vs) (segments_of closed (length vs)) room settings pointed vs (held (V.lent vertices.old) marks.old) }
    ensures ending { ending result (lent (V.lent vertices.new) marks.new)
        ≡ placed room (distinct_verdict closed settings (vertices_in (S.lent source))) (lent (V.lent vertices.old) marks.old) }
    ensures same_loans { SameLoans (V.lent vertices.old) marks.old (V.lent vertices.new) marks.new }
{
    if let Some(k) = refusals::first_repeated(source, closed) {
        return Err(Refusal::Repeated(k));
    }
    sheet::draw(source, closed, settings, pointed, room, vertices, marks).ok_or(Refusal::NotFinite)
}
