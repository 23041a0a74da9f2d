// The whole way of `rawoffset`: from the bytes of a packed job to the bytes of its answer; that of `rawpointed`,
// from a pointed one; and that of `raworigins`, from either to the origins of its output segments. The programs
// themselves only read the ones and write the others.
#![tactic(auto)]

ghost use Rattle.std.specs.Prelude.{◌≡◌, ◌++◌, ◌≤◌, length, drop};
ghost use Rattle.io.specs.Counts.{IsPrefixLen};
ghost use Rattle.moves.specs.Origins.{origins_in};
ghost use Rattle.source.specs.Source.{rows};
ghost use Rattle.job.specs.Job.{job_of};
ghost use Rattle.packed.specs.Writes.{HasRoom, Writes};
ghost use Rattle.reply.specs.Reply.{blank, done_text, answer_text, reply_by, reply_of, pointed_reply_of, origins_reply_of};

use moves::RawOffsetResult;
use packed::{Form, Text};
use refusals::Refusal;
use segments::Settings;
use sheet::{Marks, RowsMut};
use source::Rows;

// Room for the offset of 512 vertices, closed: three vertices a segment.
const VERTICES: usize = 4608;

const SEGMENTS: usize = 1536;

// What is asked of a job that is done: the drawing with its flags, or the origins of its segments.
#[derive(Clone, Copy)]
enum Asked {
    Drawing,
    Origins,
}

// The answer to a packed job, at the start of `text`. Answers its length.
pub fn reply(bytes: &[u8], text: &mut [u8; 98304]) -> usize
    ensures prefix_len { IsPrefixLen result text.new }
    ensures value { result ≡ length (reply_of bytes.now) }
    ensures text_after { text.new ≡ reply_of bytes.now ++ drop result text.old }
{
    let mut out = Text::new(text);
    reply_by(Asked::Drawing, Form::Round, bytes, &mut out);
    out.len()
}

// The same for a pointed packed job.
pub fn reply_pointed(bytes: &[u8], text: &mut [u8; 98304]) -> usize
    ensures prefix_len { IsPrefixLen result text.new }
    ensures value { result ≡ length (pointed_reply_of bytes.now) }
    ensures text_after { text.new ≡ pointed_reply_of bytes.now ++ drop result text.old }
{
    let mut out = Text::new(text);
    reply_by(Asked::Drawing, Form::Pointed, bytes, &mut out);
    out.len()
}

// The origins of the output segments, of either.
pub fn reply_origins(bytes: &[u8], text: &mut [u8; 98304]) -> usize
    ensures prefix_len { IsPrefixLen result text.new }
    ensures value { result ≡ length (origins_reply_of bytes.now) }
    ensures text_after { text.new ≡ origins_reply_of bytes.now ++ drop result text.old }
{
    let mut out = Text::new(text);
    reply_by(Asked::Origins, Form::Either, bytes, &mut out);
    out.len()
}

fn reply_by(asked: Asked, form: Form, bytes: &[u8], text: &mut Text)
    requires { HasRoom 98304 text.old }
    ensures { Writes (reply_by asked form bytes.now) text.old text.new }
{
    let mut source = [0.0; 1536];
    let Some(job) = packed::decode(form, bytes, &mut source) else {
        return text.refuse(Refusal::Malformed);
    };
    let numbers = &source[..3 * job.vertices];
    work(asked, numbers, job.closed, job.settings, text);
}

// Works a job of at most 512 vertices, and prints what became of it.
fn work(asked: Asked, source: &[f64], closed: bool, settings: Settings, text: &mut Text)
    requires source { length source.now ≤ 1536 }
    requires room { HasRoom 98304 text.old }
    ensures { Writes (answer_text asked (job_of (rows source.now) closed settings blank)) text.old text.new }
{
    let mut vertices = [0.0; VERTICES];
    let mut flags = [0u8; SEGMENTS];
    let mut indexes = [0u32; SEGMENTS];
    let mut origins = [0u32; SEGMENTS];
    let mut rows = RowsMut(&mut vertices);
    let mut marks = Marks {
        flags: &mut flags,
        indexes: &mut indexes,
        origins: &mut origins,
    };
    let answer = job::create_raw_offset(
        Rows(source),
        closed,
        settings.offset,
        settings.eps,
        settings.corners,
        &mut rows,
        &mut marks,
    );
    match answer {
        Ok(r) => put_done(asked, r, &vertices, &flags, &origins, text),
        Err(refusal) => text.refusal(refusal.number(), refusal.place()),
    }
}

// Prints a job that is done.
fn put_done(
    asked: Asked,
    r: RawOffsetResult,
    vertices: &[f64; 4608],
    flags: &[u8; 1536],
    origins: &[u32; 1536],
    text: &mut Text,
)
    requires few { r.vertices ≤ 1536 }
    requires room { HasRoom 98304 text.old }
    ensures { Writes (done_text asked r vertices.now flags.now (origins_in origins.now)) text.old text.new }
{
    let count = r.vertices as usize;
    match asked {
        Asked::Drawing => text.answer(count, r.closed, vertices, flags),
        Asked::Origins => text.origins(source::segment_count(count, r.closed), origins),
    }
}
