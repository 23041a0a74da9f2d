// The whole way of `rawsame`: from the bytes of two outputs, as `rawoffset` prints them, to what differs between them.
// The program itself only reads the ones and writes the others.
//
// What is read is not looked at closely: digits are taken as they come, and then the output is printed again, as
// `rawoffset` does it. Where that is what was read, it is an output's text; else it is malformed.
#![tactic(auto)]

mod read;
mod text;

ghost use Rattle.std.specs.Prelude.{◌≡◌, ◌++◌, ◌*◌, ◌≤◌, IfSome, is_some, length, drop, replicate};
ghost use Rattle.io.specs.Counts.{IsPrefixLen};
ghost use Rattle.packed.specs.Text.{text_of};
ghost use Rattle.packed.specs.Writes.{HasRoom, Writes};
ghost use Rattle.compare.specs.Compare.{output, compare_of};
ghost use Rattle.same_reply.specs.Read.{count_of, read_of, same, is_text};
ghost use Rattle.same_reply.specs.Same.{outcome_text, blank, pair_text, same_reply_of};
ghost use Rattle.same_reply.specs.InnerSteps.{Kept, against_text};

use compare::{Differences, Output};
use packed::Text;
use read::Head;
use refusals::Refusal;

// The length of the first text stands before it, in so many bytes, most significant first.
const LENGTH_BYTES: usize = 4;

// No output has more: three for each vertex of the largest source.
const VERTICES: usize = 12288;

const NUMBERS: usize = 36864;

// Room for the text of an output: 49 bytes for its first line, and 53 for each vertex.
const TEXT: usize = 651313;

// What a text is read as. The numbers and the flags stand beside it.
#[derive(Clone, Copy)]
struct Found {
    count: usize,
    closed: bool,
}

// The answer to the texts of two outputs, at the start of `text`; where one is no output's, they are refused. Answers
// its length.
pub fn reply(bytes: &[u8], text: &mut [u8; 524288]) -> usize
    ensures prefix_len { IsPrefixLen result text.new }
    ensures value { result ≡ length (same_reply_of bytes.now) }
    ensures text_after { text.new ≡ same_reply_of bytes.now ++ drop result text.old }
{
    let mut out = Text::new(text);
    put_reply(bytes, &mut out);
    out.len()
}

fn put_reply(bytes: &[u8], text: &mut Text)
    requires { HasRoom 524288 text.old }
    ensures { Writes (same_reply_of bytes.now) text.old text.new }
{
    let all = bytes.len();
    if all < LENGTH_BYTES {
        return text.refuse(Refusal::Malformed);
    }
    let n = words::big_endian(bytes, 0, LENGTH_BYTES) as usize;
    if n > all - LENGTH_BYTES {
        return text.refuse(Refusal::Malformed);
    }
    let end = LENGTH_BYTES + n;
    pair(&bytes[LENGTH_BYTES..end], &bytes[end..], text);
}

// The same for the two texts, each by itself.
fn pair(a: &[u8], b: &[u8], text: &mut Text)
    requires { HasRoom 524288 text.old }
    ensures { Writes (pair_text a.now b.now) text.old text.new }
{
    let mut numbers = [0.0; NUMBERS];
    let mut flags = [0u8; VERTICES];
    let Some(found) = read_text(a, &mut numbers, &mut flags) else {
        return text.refuse(Refusal::Malformed);
    };
    let count = found.count;
    let closed = found.closed;
    let segments = source::segment_count(count, closed);
    with_first(&numbers[..3 * count], closed, &flags[..segments], b, text);
}

// The same, with the first output read.
fn with_first(a: &[f64], a_closed: bool, a_flags: &[u8], b: &[u8], text: &mut Text)
    requires { HasRoom 524288 text.old }
    ensures { Writes (against_text (output a.now a_closed a_flags.now) b.now) text.old text.new }
{
    let mut numbers = [0.0; NUMBERS];
    let mut flags = [0u8; VERTICES];
    let Some(found) = read_text(b, &mut numbers, &mut flags) else {
        return text.refuse(Refusal::Malformed);
    };
    let count = found.count;
    let closed = found.closed;
    let segments = source::segment_count(count, closed);
    put_compared(
        a,
        a_closed,
        a_flags,
        &numbers[..3 * count],
        closed,
        &flags[..segments],
        text,
    );
}

// The output whose text this is, at the start of two lists; what they hold counts only where it is one.
fn read_text(text: &[u8], numbers: &mut [f64; NUMBERS], flags: &mut [u8; VERTICES]) -> Option<Found>
    requires { flags.old ≡ replicate 12288 0 }
    ensures found { is_some result ≡ is_text text.now }
    ensures kept { IfSome result (λ o. Kept (read_of text.now) o.count o.closed numbers.new flags.new) }
{
    let head = read_output(text, numbers, flags);
    let count = head.count;
    let closed = head.closed;
    if count <= VERTICES && is_printed(text, count, closed, numbers, flags) {
        Some(Found { count, closed })
    } else {
        None
    }
}

// What the text is read as. Where it has too many vertices only its first line is read.
fn read_output(text: &[u8], numbers: &mut [f64; NUMBERS], flags: &mut [u8; VERTICES]) -> Head
    requires { flags.old ≡ replicate 12288 0 }
    ensures count_value { result.count ≡ count_of text.now }
    ensures kept { result.count ≤ 12288 → Kept (read_of text.now) result.count result.closed numbers.new flags.new }
{
    let head = read::head_of(text);
    let count = head.count;
    if count > VERTICES {
        return head;
    }
    let lines = head.lines;
    read::read_numbers(text, lines, count, numbers);
    read::read_flags(
        text,
        lines,
        source::segment_count(count, head.closed),
        flags,
    );
    head
}

// Whether the text is what is printed of an output.
fn is_printed(text: &[u8], count: usize, closed: bool, numbers: &[f64], flags: &[u8]) -> bool
    requires { (count ≤ 12288) × (3 * count ≤ length numbers.now) × (count ≤ length flags.now) }
    ensures { result ≡ same text.now (text_of count closed numbers.now flags.now) }
{
    let mut out = [0u8; TEXT];
    is_printed_in(text, count, closed, numbers, flags, &mut out)
}

// It is printed into `out`, which is of no use after that.
fn is_printed_in(
    text: &[u8],
    count: usize,
    closed: bool,
    numbers: &[f64],
    flags: &[u8],
    out: &mut [u8; TEXT],
) -> bool
    requires { (count ≤ 12288) × (3 * count ≤ length numbers.now) × (count ≤ length flags.now) }
    ensures { result ≡ same text.now (text_of count closed numbers.now flags.now) }
{
    let mut again = Text::new(out);
    text::put_output(count, closed, numbers, flags, &mut again);
    let n = again.len();
    text == &out[..n]
}

// What differs between two outputs.
fn put_compared(
    a: &[f64],
    a_closed: bool,
    a_flags: &[u8],
    b: &[f64],
    b_closed: bool,
    b_flags: &[u8],
    text: &mut Text,
)
    requires { HasRoom 524288 text.old }
    ensures { Writes (outcome_text (compare_of (output a.now a_closed a_flags.now) (output b.now b_closed b_flags.now) blank blank)) text.old text.new }
{
    let mut numbers = [0u32; VERTICES];
    let mut fields = [0u8; VERTICES];
    let first = Output {
        numbers: a,
        closed: a_closed,
        flags: a_flags,
    };
    let second = Output {
        numbers: b,
        closed: b_closed,
        flags: b_flags,
    };
    let answer = compare::compare(&first, &second, &mut numbers, &mut fields);
    let found = answer.unwrap_or(Differences::none());
    text::put_differences(found, &numbers, &fields, text);
}
