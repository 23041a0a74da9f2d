// The whole way of `rawpen`, step by step: from the bytes of a packed head to a job, and from the bytes that follow,
// a vertex at a time, to the lines of the segments that each makes certain. The program itself only reads the
// ones and writes the others.
//
// A packed head has 25 bytes: the mode, 0 for round corners and 1 for pointed ones, in one byte; then 64 bits each for the
// offset, the tolerance, and the ratio, which the round mode does not look at. A vertex has 24: x, y and bulge. Fields
// stand most significant first, as in a packed job. No count is in front: the input's end is the job's.
//
// A segment's line is that of `rawoffset` for the vertex that it leaves, with its origin after it as `raworigins` has it; the
// last vertex has a line of `rawoffset`'s; and the first line of `rawoffset` comes last. A refusal is its number and its place.
#![tactic(auto)]

ghost use Rattle.std.specs.Prelude.{◌≡◌, Bool, ◌++◌, ◌<◌, length, drop};
ghost use Rattle.io.specs.Counts.{IsPrefixLen};
ghost use Rattle.source.specs.Source.{vertices_of};
ghost use Rattle.moves.specs.Origins.{origins_in};
ghost use Rattle.packed.specs.Text.{refusal_of};
ghost use Rattle.packed.specs.Writes.{HasRoom, Writes};
ghost use Rattle.pen_reply.specs.Pen.{well_formed, settings_in, numbers_in, segment_line, last_line, place_text, piece_text, closing_text, segments_before, said, sayings, begin_of, draw_of, end_of, next_of};

use moves::Origin;
use packed::Text;
use pieces::{DrawAnswer, OpenJob};
use refusals::Refusal;
use segments::{PlineVertex, Settings};
use sheet::{Marks, RowsMut};

// What a step leaves: the job, whether a vertex may follow, and how long its text is.
#[derive(Clone, Copy)]
pub struct Pen {
    pub job: OpenJob,
    pub more: bool,
    pub written: usize,
}

// The same, where the text is written on.
#[derive(Clone, Copy)]
struct Step {
    job: OpenJob,
    more: bool,
}

// The job that a packed head begins. The text, at the start of `text`, is empty, or a refusal.
pub fn begin(bytes: &[u8], text: &mut [u8; 98304]) -> Pen
    ensures prefix_len { IsPrefixLen result.written text.new }
    ensures written_value { result.written ≡ length (begin_of bytes.now).text }
    ensures text_after { text.new ≡ (begin_of bytes.now).text ++ drop result.written text.old }
    ensures bytes_value { sayings result (begin_of bytes.now).text ≡ begin_of bytes.now }
{
    let mut out = Text::new(text);
    let step = begin_on(bytes, &mut out);
    Pen {
        job: step.job,
        more: step.more,
        written: out.len(),
    }
}

fn begin_on(bytes: &[u8], text: &mut Text) -> Step
    requires { HasRoom 42 text.old }
    ensures step { said result.job result.more (begin_of bytes.now).text ≡ begin_of bytes.now }
    ensures text { Writes (begin_of bytes.now).text text.old text.new }
{
    if !well_formed(bytes) {
        let called = pieces::start(Settings::round(0.0, 0.0));
        let refusal = Refusal::Malformed;
        return refused(called.job, refusal.number(), refusal.place(), text);
    }
    let called = pieces::start(settings_in(bytes));
    let answer = called.answer;
    let job = called.job;
    if answer.number != 0 {
        return refused(job, answer.number, answer.place, text);
    }
    Step { job, more: true }
}

// What follows the head: a vertex, or, at the end of input, nothing. A vertex that is cut short is malformed.
pub fn next(job: OpenJob, bytes: &[u8], text: &mut [u8; 98304]) -> Pen
    ensures prefix_len { IsPrefixLen result.written text.new }
    ensures written_value { result.written ≡ length (next_of job bytes.now).text }
    ensures text_after { text.new ≡ (next_of job bytes.now).text ++ drop result.written text.old }
    ensures bytes_value { sayings result (next_of job bytes.now).text ≡ next_of job bytes.now }
{
    let mut out = Text::new(text);
    let step = next_on(job, bytes, &mut out);
    Pen {
        job: step.job,
        more: step.more,
        written: out.len(),
    }
}

fn next_on(job: OpenJob, bytes: &[u8], text: &mut Text) -> Step
    requires { HasRoom 301 text.old }
    ensures step { said result.job result.more (next_of job bytes.now).text ≡ next_of job bytes.now }
    ensures text { Writes (next_of job bytes.now).text text.old text.new }
{
    if bytes.len() == 0 {
        return end(job, text);
    }
    if bytes.len() == 24 {
        return draw(job, bytes, text);
    }
    let refusal = Refusal::Malformed;
    refused(job, refusal.number(), refusal.place(), text)
}

fn well_formed(bytes: &[u8]) -> bool
    ensures { result ≡ well_formed bytes.now }
{
    if bytes.len() != 25 {
        return false;
    }
    words::big_endian(bytes, 0, 1) <= 1
}

fn settings_in(bytes: &[u8]) -> Settings
    requires { length bytes.now ≡ 25 }
    ensures { result ≡ settings_in bytes.now }
{
    let offset = words::number_at(bytes, 1);
    let eps = words::number_at(bytes, 9);
    if words::big_endian(bytes, 0, 1) == 0 {
        return Settings::round(offset, eps);
    }
    Settings::pointed(offset, eps, words::number_at(bytes, 17))
}

// A refusal ends the job's text.
fn refused(job: OpenJob, number: u32, place: u32, text: &mut Text) -> Step
    requires { HasRoom 42 text.old }
    ensures step { said result.job result.more (refusal_of number place) ≡ said job Bool.false (refusal_of number place) }
    ensures text { Writes (refusal_of number place) text.old text.new }
{
    text.refusal(number, place);
    Step { job, more: false }
}

// A vertex, and the lines of what it makes certain.
fn draw(job: OpenJob, bytes: &[u8], text: &mut Text) -> Step
    requires bytes { length bytes.now ≡ 24 }
    requires room { HasRoom 252 text.old }
    ensures step { said result.job result.more (draw_of job bytes.now).text ≡ draw_of job bytes.now }
    ensures text { Writes (draw_of job bytes.now).text text.old text.new }
{
    let source = numbers_in(bytes);
    let mut vertices = [0.0; 9];
    let mut flags = [0u8; 3];
    let mut indexes = [0u32; 3];
    let mut origins = [0u32; 3];
    let mut rows = RowsMut(&mut vertices);
    let mut marks = Marks {
        flags: &mut flags,
        indexes: &mut indexes,
        origins: &mut origins,
    };
    let called = pieces::draw(job, &source, &mut rows, &mut marks);
    let answer = called.answer;
    let after = called.job;
    if answer.number != 0 {
        return refused(after, answer.number, answer.place, text);
    }
    put_piece(answer, &vertices, &flags, &origins, text);
    Step {
        job: after,
        more: true,
    }
}

// The lines of the rest, and the line of the count.
fn end(job: OpenJob, text: &mut Text) -> Step
    requires { HasRoom 301 text.old }
    ensures step { said result.job result.more (end_of job).text ≡ end_of job }
    ensures text { Writes (end_of job).text text.old text.new }
{
    let mut vertices = [0.0; 9];
    let mut flags = [0u8; 3];
    let mut indexes = [0u32; 3];
    let mut origins = [0u32; 3];
    let mut rows = RowsMut(&mut vertices);
    let mut marks = Marks {
        flags: &mut flags,
        indexes: &mut indexes,
        origins: &mut origins,
    };
    let called = pieces::end(job, &mut rows, &mut marks);
    let answer = called.answer;
    let after = called.job;
    if answer.number != 0 {
        return refused(after, answer.number, answer.place, text);
    }
    let before = segments_before(job);
    put_closing(before, answer, &vertices, &flags, &origins, text);
    Step {
        job: after,
        more: false,
    }
}

fn numbers_in(bytes: &[u8]) -> [f64; 3]
    requires { length bytes.now ≡ 24 }
    ensures { result ≡ numbers_in bytes.now }
{
    let x = words::number_at(bytes, 0);
    let y = words::number_at(bytes, 8);
    let bulge = words::number_at(bytes, 16);
    [x, y, bulge]
}

// How many segments came before the end: an offset of zero copies each vertex but the last.
fn segments_before(job: OpenJob) -> u32
    ensures { result ≡ segments_before job }
{
    let course = job.course;
    if job.offset == 0.0 {
        if course.taken == 0 {
            return 0;
        }
        return course.taken - 1;
    }
    course.number
}

// What a call at the end handed out, and the line of the count.
fn put_closing(
    before: u32,
    answer: DrawAnswer,
    vertices: &[f64; 9],
    flags: &[u8; 3],
    origins: &[u32; 3],
    text: &mut Text,
)
    requires { HasRoom 301 text.old }
    ensures { Writes (closing_text before answer (vertices_of vertices.now) flags.now (origins_in origins.now)) text.old text.new }
{
    put_piece(answer, vertices, flags, origins, text);
    text.head(before as u64 + answer.vertices as u64, false);
}

// What a call handed out: the three places of the buffers, one after the other.
fn put_piece(
    answer: DrawAnswer,
    vertices: &[f64; 9],
    flags: &[u8; 3],
    origins: &[u32; 3],
    text: &mut Text,
)
    requires { HasRoom 252 text.old }
    ensures { Writes (piece_text answer (vertices_of vertices.now) flags.now (origins_in origins.now)) text.old text.new }
{
    put_place(answer, 0, vertices, flags, origins, text);
    put_place(answer, 1, vertices, flags, origins, text);
    put_place(answer, 2, vertices, flags, origins, text);
}

// Place i of the buffers: a segment's, the last vertex's, or none's.
fn put_place(
    answer: DrawAnswer,
    i: usize,
    vertices: &[f64; 9],
    flags: &[u8; 3],
    origins: &[u32; 3],
    text: &mut Text,
)
    requires place { i < 3 }
    requires room { HasRoom 84 text.old }
    ensures { Writes (place_text answer (vertices_of vertices.now) flags.now (origins_in origins.now) i) text.old text.new }
{
    let v = source::vertex_at(vertices, i);
    if i < answer.segments as usize {
        put_segment(v, flags[i], Origin::from(origins[i]), text);
    } else if i < answer.vertices as usize {
        put_last(v, text);
    }
}

// The line of a segment.
fn put_segment(v: PlineVertex, flag: u8, origin: Origin, text: &mut Text)
    requires { HasRoom 84 text.old }
    ensures { Writes (segment_line v flag origin) text.old text.new }
{
    text.line(v, packed::mark_of(false, flag), b' ');
    text.origin(origin);
}

// The line of the last vertex.
fn put_last(v: PlineVertex, text: &mut Text)
    requires { HasRoom 53 text.old }
    ensures { Writes (last_line v) text.old text.new }
{
    text.line(v, packed::mark_of(true, 0), b'\n');
}
