// The whole way of `rawwhy`: from the bytes of a question, the number of an output segment and a packed
// job, round or pointed, to the bytes of its answer. The program itself only reads the ones and writes the others.
#![tactic(auto)]

ghost use Rattle.std.specs.Prelude.{◌≡◌, ◌++◌, ◌≤◌, length, drop};
ghost use Rattle.io.specs.Counts.{IsPrefixLen};
ghost use Rattle.words.specs.Words.{big_endian};
ghost use Rattle.packed.specs.Text.{told_of};
ghost use Rattle.packed.specs.Writes.{HasRoom, Writes};
ghost use Rattle.source.specs.Source.{rows};
ghost use Rattle.why.specs.Why.{why_of, numbers_of};
ghost use Rattle.why_reply.specs.WhyReply.{telling_text, packed_reply, why_reply_of};

use packed::{Form, Text};
use refusals::Refusal;
use segments::{OutputSegment, Settings};
use why::WhyNumbers;

// The answer to a question, at the start of `text`; what is no packed job is refused. Answers its length.
pub fn reply(bytes: &[u8], text: &mut [u8; 98304]) -> usize
    ensures prefix_len { IsPrefixLen result text.new }
    ensures value { result ≡ length (why_reply_of bytes.now) }
    ensures text_after { text.new ≡ why_reply_of bytes.now ++ drop result text.old }
{
    let mut out = Text::new(text);
    put_reply(bytes, &mut out);
    out.len()
}

fn put_reply(bytes: &[u8], text: &mut Text)
    requires { HasRoom 181 text.old }
    ensures { Writes (why_reply_of bytes.now) text.old text.new }
{
    if bytes.len() < 4 {
        text.refuse(Refusal::Malformed);
    } else {
        let segment = segment_of(bytes);
        put_reply_about(&bytes[4..], segment, text);
    }
}

// The number of the output segment.
fn segment_of(bytes: &[u8]) -> OutputSegment
    requires { 4 ≤ length bytes.now }
    ensures { result.0 ≡ big_endian bytes.now 0 4 }
{
    OutputSegment(words::big_endian(bytes, 0, 4) as u32)
}

// The answer about one output segment of a packed job.
fn put_reply_about(job: &[u8], segment: OutputSegment, text: &mut Text)
    requires { HasRoom 181 text.old }
    ensures { Writes (packed_reply job.now segment.0) text.old text.new }
{
    let mut source = [0.0; 1536];
    let Some(job) = packed::decode(Form::Either, job, &mut source) else {
        return text.refuse(Refusal::Malformed);
    };
    let numbers = &source[..3 * job.vertices];
    tell(numbers, job.closed, job.settings, segment, text);
}

// Asks, and prints what was answered.
fn tell(source: &[f64], closed: bool, settings: Settings, segment: OutputSegment, text: &mut Text)
    requires { HasRoom 181 text.old }
    ensures { Writes (telling_text (numbers_of (why_of (rows source.now) closed settings segment.0))) text.old text.new }
{
    let answer = why::why(source, closed, settings, segment);
    let n = WhyNumbers::from(answer);
    if n.number == 0 {
        put_told(n, text);
    } else {
        text.refusal(n.number, n.place);
    }
}

// What is told of an output segment: seven numbers, and two parameters by their bits.
fn put_told(n: WhyNumbers, text: &mut Text)
    requires { HasRoom 181 text.old }
    ensures { Writes (told_of n.number n.place n.connector n.source n.reason n.start_rule n.end_rule n.start_param n.end_param) text.old text.new }
{
    text.three(n.number, n.place, n.connector);
    text.three(n.source, n.reason, n.start_rule);
    text.decimal(n.end_rule as u64, b' ');
    text.pair(n.start_param, n.end_param);
}
