// An open job whose vertices are drawn: its record, and the three calls that take it by value and hand out
// what is certain into lent buffers, in rows. Any record may come in; what it can not be is refused.
#![tactic(auto)]

ghost use Rattle.std.specs.Prelude.{◌≡◌, false, not, [], ◌-◌, ◌<◌, ◌≤◌, eqb, leb, length};
ghost use Rattle.std.specs.Float.Ieee.{eq};
ghost use Rattle.floats.specs.Binary64.{zero};
ghost use Rattle.floats.specs.Choice.{when◌give◌else◌, ◌and◌, ◌or◌};
ghost use Rattle.segments.specs.Modes.{are_pointed};
ghost use Rattle.source.specs.Source.{vertices_of};
ghost use Rattle.moves.specs.Drawing.{nothing, all_finite};
ghost use Rattle.refusals.specs.Table.{number_of};
ghost use Rattle.refusals.specs.Limits.{good_offset, good_eps, good_corners};
ghost use Rattle.sheet.specs.InnerSteps.{held_by, held, lent, SameLoans, no_places, laid, stores, Rooms, Coded, written};
ghost use Rattle.walk.specs.InnerSteps.{drawn_by};
ghost use Rattle.course.specs.InnerSteps.{vertices_by, strokes_in, CodedAll, ending_piece};
ghost use Rattle.pieces.specs.Calls.{settings_of, most_number, is_open, was_refused, answering, called, staged, shut_answer, ratio_of, begun, started, start_call, draw_call, end_call};
ghost use Rattle.pieces.specs.Handed.{five_of};
ghost use Rattle.pieces.specs.InnerSteps.{went, went_one, went_all, Ready, none_taken, taken_answer, taken_job, end_counts};

use course::{Course, Ending, Turning};
use moves::{Stepped, Stroke};
use refusals::Refusal;
use segments::{Corners, PlineVertex, Settings};
use sheet::{Marks, Places, VerticesMut};
use source::{Rows, Vertices};

// The record of an open job, which holds nothing that grows: what was asked for, how far the job is, and
// what is held of its vertices. It is all numbers, for callers in C.
#[repr(C)]
#[derive(Clone, Copy)]
pub struct OpenJob {
    pub offset: f64,
    pub eps: f64,
    pub ratio: f64,
    pub pointed: u32,
    pub stage: u32,
    pub refusal: u32,
    pub place: u32,
    pub course: Course,
}

// What a call answers: number and place, and how many vertices, indexes and segments it hands out.
#[derive(Clone, Copy)]
pub struct DrawAnswer {
    pub number: u32,
    pub place: u32,
    pub vertices: u32,
    pub indexes: u32,
    pub segments: u32,
}

// The answer, and the record after the call.
#[derive(Clone, Copy)]
pub struct Called {
    pub answer: DrawAnswer,
    pub job: OpenJob,
}

// The stages of a record; any other is none.
const DRAWING: u32 = 1;

const ENDED: u32 = 2;

const REFUSED: u32 = 3;

const MOST_VERTICES: u32 = 4096;

fn less_two(n: usize) -> usize
    ensures { result ≡ n - 2 }
{
    if n < 2 {
        return 0;
    }
    n - 2
}

// The refusals that end a job.
fn ends_job(number: u32) -> bool
    ensures { result ≡ (eqb number 2 or (eqb number 3 or (eqb number 5 or eqb number 6))) }
{
    number == 2 || (number == 3 || (number == 5 || number == 6))
}

impl DrawAnswer {
    // Nothing is handed out.
    fn none(number: u32, place: u32) -> DrawAnswer
        ensures { result ≡ answering number place nothing }
    {
        DrawAnswer {
            number,
            place,
            vertices: 0,
            indexes: 0,
            segments: 0,
        }
    }
}

impl OpenJob {
    fn is_pointed(self) -> bool
        ensures { result ≡ are_pointed (settings_of self).corners }
    {
        self.pointed != 0
    }

    fn settings(self) -> Settings
        ensures { result ≡ settings_of self }
    {
        if self.pointed == 0 {
            return Settings::round(self.offset, self.eps);
        }
        Settings::pointed(self.offset, self.eps, self.ratio)
    }

    // Whether so many output segments can come of so many vertices.
    fn has_few(self) -> bool
        requires { self.course.taken ≤ 4096 }
        ensures { result ≡ leb self.course.number (most_number (settings_of self) self.course.taken) }
    {
        let course = self.course;
        let moves = job::moves_a_segment(self.is_pointed());
        course.number as usize <= moves * less_two(course.taken as usize)
    }

    fn is_open(self) -> bool
        ensures { result ≡ is_open self }
    {
        let course = self.course;
        self.stage == DRAWING
            && (self.pointed <= 1
                && (self.refusal == 0
                    && (self.place == 0 && (course.taken <= MOST_VERTICES && self.has_few()))))
    }

    fn was_refused(self) -> bool
        ensures { result ≡ was_refused self }
    {
        self.stage == REFUSED && (self.place <= MOST_VERTICES && ends_job(self.refusal))
    }

    // At another stage.
    fn staged(self, stage: u32, refusal: u32, place: u32, course: Course) -> OpenJob
        ensures { result ≡ staged stage refusal place course self }
    {
        OpenJob {
            offset: self.offset,
            eps: self.eps,
            ratio: self.ratio,
            pointed: self.pointed,
            stage,
            refusal,
            place,
            course,
        }
    }

    // An old refusal again, or that there is no open job.
    fn shut(self) -> Called
        ensures { (result.answer ≡ shut_answer self) × (result.job ≡ self) }
    {
        if self.was_refused() {
            return Called {
                answer: DrawAnswer::none(self.refusal, self.place),
                job: self,
            };
        }
        self.unchanged(Refusal::NoOpenJob)
    }

    // A refusal that leaves the record as it is.
    fn unchanged(self, refusal: Refusal) -> Called
        ensures { (result.answer ≡ answering (number_of refusal) 0 nothing) × (result.job ≡ self) }
    {
        Called {
            answer: DrawAnswer::none(refusal.number(), 0),
            job: self,
        }
    }

    // A job with no vertex.
    fn begun(settings: Settings, stage: u32, refusal: u32) -> OpenJob
        ensures { result ≡ begun settings stage refusal }
    {
        let corners = settings.corners;
        let course = Course::none();
        OpenJob {
            offset: settings.offset,
            eps: settings.eps,
            ratio: ratio_of(corners),
            pointed: corners.are_pointed() as u32,
            stage,
            refusal,
            place: 0,
            course,
        }
    }
}

fn ratio_of(corners: Corners) -> f64
    ensures { result ≡ ratio_of corners }
{
    match corners {
        Corners::Round => 0.0,
        Corners::Pointed { ratio } => ratio,
    }
}

fn good_settings(settings: Settings) -> bool
    ensures { result ≡ (good_offset settings.offset and (good_eps settings.eps and good_corners settings.corners)) }
{
    let corners = settings.corners;
    refusals::good_offset(settings.offset)
        && (refusals::good_eps(settings.eps) && refusals::good_corners(corners))
}

// Begins a job, whatever the record was.
pub fn start(settings: Settings) -> Called
    ensures { started result.answer result.job ≡ start_call settings }
{
    if good_settings(settings) {
        return Called {
            answer: DrawAnswer::none(0, 0),
            job: OpenJob::begun(settings, DRAWING, 0),
        };
    }
    let number = Refusal::BadNumber(0).number();
    Called {
        answer: DrawAnswer::none(number, 0),
        job: OpenJob::begun(settings, REFUSED, number),
    }
}

// How far vertices are taken: what is held of them, the number of the refusal that has come, or 0, and
// where the next stroke and the next index go.
#[derive(Clone, Copy)]
pub struct Taken {
    pub course: Course,
    pub refusal: u32,
    pub places: Places,
}

// Stores a stroke, if it is drawn.
fn store_stroke<V: VerticesMut>(
    vertices: &mut V,
    marks: &mut Marks,
    places: Places,
    stepped: Stepped,
) -> Places
    requires { Rooms (length (drawn_by 0 stepped)) (laid places (held (V.lent vertices.old) marks.old)) × Coded stepped.stroke.origin }
    ensures { laid result (held (V.lent vertices.new) marks.new)
        ≡ stores (drawn_by 0 stepped) (laid places (held (V.lent vertices.old) marks.old)) }
{
    sheet::store(vertices, marks, places, stepped.kept, stepped.stroke)
}

// The strokes of a vertex.
fn store_turning<V: VerticesMut>(
    vertices: &mut V,
    marks: &mut Marks,
    places: Places,
    turning: Turning,
) -> Places
    requires { Rooms (length (strokes_in turning)) (laid places (held (V.lent vertices.old) marks.old)) × CodedAll turning }
    ensures { laid result (held (V.lent vertices.new) marks.new)
        ≡ stores (strokes_in turning) (laid places (held (V.lent vertices.old) marks.old)) }
{
    let first = store_stroke(vertices, marks, places, turning.span);
    let second = store_stroke(vertices, marks, first, turning.tip);
    store_stroke(vertices, marks, second, turning.connector)
}

// An offset of zero copies: nothing is worked out that could be no number.
fn is_endless(turning: Turning, offset: f64) -> bool
    ensures { result ≡ when eq offset zero give false else not (all_finite (vertices_by (strokes_in turning))) }
{
    if offset == 0.0 {
        return false;
    }
    !turning.is_finite()
}

// One vertex more, unless one is refused already. It is drawn before the next is looked at.
fn take_vertex<V: VerticesMut>(
    vertices: &mut V,
    marks: &mut Marks,
    taken: Taken,
    c: PlineVertex,
    settings: Settings,
    pointed: bool,
) -> Taken
    requires { Ready 1 (went taken (held (V.lent vertices.old) marks.old)) settings pointed }
    ensures { went result (held (V.lent vertices.new) marks.new)
        ≡ went_one settings c (went taken (held (V.lent vertices.old) marks.old)) }
{
    if taken.refusal != 0 {
        return taken;
    }
    let course = taken.course;
    let places = taken.places;
    if let Err(refusal) = course.check(c, settings.offset) {
        return Taken {
            course,
            refusal: refusal.number(),
            places,
        };
    }
    let turning = course.take(c, settings, pointed);
    if is_endless(turning, settings.offset) {
        return Taken {
            course,
            refusal: Refusal::NotFinite.number(),
            places,
        };
    }
    let places = store_turning(vertices, marks, places, turning);
    let course = turning.course;
    Taken {
        course,
        refusal: 0,
        places,
    }
}

// The vertices of a list, one after the other.
fn take_vertices<V: VerticesMut>(
    source: Rows,
    vertices: &mut V,
    marks: &mut Marks,
    first: Taken,
    settings: Settings,
    pointed: bool,
) -> Taken
    requires { Ready (length (vertices_of source.0.now)) (went first (held (V.lent vertices.old) marks.old)) settings pointed }
    ensures { went result (held (V.lent vertices.new) marks.new)
        ≡ went_all settings (vertices_of source.entry.0.now) (went first (held (V.lent vertices.old) marks.old)) }
{
    let mut taken = first;
    for k in 0..source.count() {
        let c = source.vertex(k);
        taken = take_vertex(vertices, marks, taken, c, settings, pointed);
    }
    taken
}

impl Taken {
    // Before the first vertex of a call.
    fn none(course: Course) -> Taken
        ensures { result ≡ none_taken course }
    {
        let places = Places {
            strokes: 0,
            marks: 0,
            doubt: 0.0,
        };
        Taken {
            course,
            refusal: 0,
            places,
        }
    }
}

impl OpenJob {
    // After the vertices of a call.
    fn after(self, taken: Taken) -> Called
        requires { (taken.places.strokes < 0x1_0000_0000) × (taken.places.marks < 0x1_0000_0000) }
        ensures { (result.answer ≡ taken_answer taken) × (result.job ≡ taken_job taken self) }
    {
        let course = taken.course;
        let places = taken.places;
        let strokes = places.strokes as u32;
        let marks = places.marks as u32;
        if taken.refusal == 0 {
            return Called {
                answer: DrawAnswer {
                    number: 0,
                    place: 0,
                    vertices: strokes,
                    indexes: marks,
                    segments: strokes,
                },
                job: self.staged(DRAWING, 0, 0, course),
            };
        }
        Called {
            answer: DrawAnswer {
                number: taken.refusal,
                place: course.taken,
                vertices: strokes,
                indexes: marks,
                segments: strokes,
            },
            job: self.staged(REFUSED, taken.refusal, course.taken, course),
        }
    }
}

// Whether so many vertices, flags, indexes and origins fit.
fn has_room<V: VerticesMut>(room: usize, vertices: &V, marks: &Marks) -> bool
    ensures { result ≡ (leb room (length (held_by (V.lent vertices.now)).made) and (leb room (length marks.now.flags.now) and (leb room (length marks.now.indexes.now) and leb room (length marks.now.origins.now)))) }
{
    job::has_room(
        room,
        vertices.count(),
        marks.flags.len(),
        marks.indexes.len(),
        marks.origins.len(),
    )
}

// Takes the vertices of a list, three numbers each, and hands out what they make certain.
pub fn draw<V: VerticesMut>(
    job: OpenJob,
    source: &[f64],
    vertices: &mut V,
    marks: &mut Marks,
) -> Called
    ensures called { called result.answer result.job (lent (V.lent vertices.new) marks.new)
        ≡ draw_call job source.now (lent (V.lent vertices.old) marks.old) }
    ensures same_loans { SameLoans (V.lent vertices.old) marks.old (V.lent vertices.new) marks.new }
{
    if !job.is_open() {
        return job.shut();
    }
    let source = Rows(source);
    if !source.is_whole() {
        return job.unchanged(Refusal::Ragged);
    }
    let pointed = job.is_pointed();
    let room = job::moves_a_segment(pointed) * source.count();
    if !has_room(room, vertices, marks) {
        return job.unchanged(Refusal::NoRoom);
    }
    let first = Taken::none(job.course);
    let settings = job.settings();
    let taken = take_vertices(source, vertices, marks, first, settings, pointed);
    job.after(taken)
}

// The last span, and the last vertex.
fn store_ending<V: VerticesMut>(
    vertices: &mut V,
    marks: &mut Marks,
    first: Places,
    ending: Ending,
) -> Places
    requires { (first ≡ no_places) × Rooms 2 (laid first (held (V.lent vertices.old) marks.old)) × Coded ending.span.stroke.origin }
    ensures { (held (V.lent vertices.new) marks.new
        ≡ written (ending_piece ending) (held (V.lent vertices.old) marks.old)) × (end_counts result ending ≡ answering 0 0 (ending_piece ending)) × (result.strokes ≤ 1) × (result.marks ≤ 1) }
{
    let places = store_stroke(vertices, marks, first, ending.span);
    if let Some(vertex) = ending.last {
        vertices.put(places.strokes, vertex);
    }
    places
}

// What is handed out at the end.
fn ending_answer(places: Places, ending: Ending) -> DrawAnswer
    requires { (places.strokes ≤ 1) × (places.marks ≤ 1) }
    ensures { result ≡ end_counts places ending }
{
    let strokes = places.strokes as u32;
    DrawAnswer {
        number: 0,
        place: 0,
        vertices: strokes + u32::from(ending.last.is_some()),
        indexes: places.marks as u32,
        segments: strokes,
    }
}

fn is_endless_end(ending: Ending, offset: f64) -> bool
    ensures { result ≡ when eq offset zero give false else not (all_finite (ending_piece ending).vertices) }
{
    if offset == 0.0 {
        return false;
    }
    !ending.is_finite()
}

// Ends the job, and hands out the rest.
pub fn end<V: VerticesMut>(job: OpenJob, vertices: &mut V, marks: &mut Marks) -> Called
    ensures called { called result.answer result.job (lent (V.lent vertices.new) marks.new)
        ≡ end_call job (lent (V.lent vertices.old) marks.old) }
    ensures same_loans { SameLoans (V.lent vertices.old) marks.old (V.lent vertices.new) marks.new }
{
    if !job.is_open() {
        return job.shut();
    }
    if !has_room(2, vertices, marks) {
        return job.unchanged(Refusal::NoRoom);
    }
    let course = job.course;
    let settings = job.settings();
    let ending = course.end(settings);
    if is_endless_end(ending, settings.offset) {
        let number = Refusal::NotFinite.number();
        return Called {
            answer: DrawAnswer::none(number, course.taken),
            job: job.staged(REFUSED, number, course.taken, course),
        };
    }
    let places = store_ending(vertices, marks, Taken::none(course).places, ending);
    Called {
        answer: ending_answer(places, ending),
        job: job.staged(ENDED, 0, 0, course),
    }
}

// What a caller in C is handed of an answer: its number, and in `five` number, place, and how many vertices,
// indexes and segments are handed out.
pub fn hand(answer: DrawAnswer, five: &mut [u32; 5]) -> u32
    ensures { (result ≡ answer.number) × (five.new ≡ five_of answer) }
{
    *five = [
        answer.number,
        answer.place,
        answer.vertices,
        answer.indexes,
        answer.segments,
    ];
    answer.number
}
