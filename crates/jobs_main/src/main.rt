// Whole jobs on stored rows, each with all that it leaves in the four lent buffers.
// The input is words of eight bytes, highest byte first: the count of rows, then the rows. A row is
// how many numbers the source has, its mode (1 for closed, and 2 more for pointed corners), offset,
// tolerance, of pointed corners the ratio, and how many numbers, flags, indexes and origins are lent;
// then the source. The jobs at the limit of vertices are made here. The stored output comes from 000
// over 01's arithmetic in Rust, and for pointed corners from a transcription of 02 (`oracle`, `samples`).
#![tactic(auto)]

use job::RawOffsetAnswer;
use moves::RawOffsetResult;
use refusals::Answer;
use segments::Settings;
use sheet::{Marks, RowsMut};
use source::Rows;
use words::{print, print_word, read_word};

// What stands in each buffer before a job.
const NUMBER_BEFORE: f64 = -7.25;

const FLAG_BEFORE: u8 = 0xa5;

const INDEX_BEFORE: u32 = 0xdead_beef;

const ORIGIN_BEFORE: u32 = 0xcafe_f00d;

// Drawings of more vertices are told by their checksums alone.
const MOST_SHOWN: u32 = 16;

// How many places of each array a job is lent.
#[derive(Clone, Copy)]
struct Lent {
    source: usize,
    numbers: usize,
    flags: usize,
    indexes: usize,
    origins: usize,
}

fn print_count(n: u64) {
    print(b" ");
    let _written = io::print_decimal(1, n);
}

fn print_sum(sum: u64) {
    print(b" sum");
    print_word(sum);
}

// A checksum that tells places apart: before each word the sum is added to itself turned by five.
fn mixed(sum: u64, word: u64) -> u64 {
    sum.rotate_left(5).wrapping_add(sum).wrapping_add(word)
}

// The first places as they stand, each as a word, and a checksum of all.
fn print_places<T: Copy, W: Fn(T) -> u64 + Drop, P: Fn(u64) + Drop>(
    places: &[T],
    shown: usize,
    word_of: W,
    print_one: P,
)
    requires word { W.IsAlwaysCallable word_of }
    requires one { P.IsAlwaysCallable print_one }
{
    let mut sum = 0;
    for (i, &place) in places.iter().enumerate() {
        let word = word_of(place);
        if i < shown {
            print_one(word);
        }
        sum = mixed(sum, word);
    }
    print_sum(sum);
}

// 01's number and place, the two counts, and 1 for closed.
fn print_answer(answer: RawOffsetAnswer) {
    let r = job::result_in(answer);
    let _written = io::print_decimal(1, answer.number() as u64);
    print_count(answer.place() as u64);
    print_count(r.vertices as u64);
    print_count(r.indexes as u64);
    print_count(r.closed as u64);
}

// An open drawing has a segment fewer than vertices.
fn segments_drawn(r: RawOffsetResult) -> u32 {
    if r.closed {
        return r.vertices;
    }
    if r.vertices == 0 {
        return 0;
    }
    r.vertices - 1
}

// The drawing whose places are shown: none of a refusal or of a long one.
fn shown(answer: RawOffsetAnswer) -> RawOffsetResult {
    let r = job::result_in(answer);
    if r.vertices <= MOST_SHOWN {
        return r;
    }
    RawOffsetResult::empty()
}

fn print_outcome(
    answer: RawOffsetAnswer,
    vertices: &[f64],
    flags: &[u8],
    indexes: &[u32],
    origins: &[u32],
) {
    let drawn = shown(answer);
    print_answer(answer);
    let numbers = 3 * (drawn.vertices as usize);
    let segments = segments_drawn(drawn) as usize;
    print_places(vertices, numbers, bits::bits_of, print_word);
    print_places(flags, segments, |flag: u8| flag as u64, print_count);
    print_places(
        indexes,
        drawn.indexes as usize,
        |index: u32| index as u64,
        print_count,
    );
    print_places(origins, segments, |origin: u32| origin as u64, print_count);
    print(b"\n");
}

// Works one job on the first places of the buffers, and prints what all of them hold then.
fn job(
    lent: Lent,
    source: &[f64],
    closed: bool,
    settings: Settings,
    vertices: &mut [f64],
    flags: &mut [u8],
    indexes: &mut [u32],
    origins: &mut [u32],
) {
    let count = lent.source.min(source.len());
    let numbers_lent = lent.numbers.min(vertices.len());
    let flags_lent = lent.flags.min(flags.len());
    let indexes_lent = lent.indexes.min(indexes.len());
    let origins_lent = lent.origins.min(origins.len());
    let mut rows = RowsMut(&mut vertices[..numbers_lent]);
    let mut marks = Marks {
        flags: &mut flags[..flags_lent],
        indexes: &mut indexes[..indexes_lent],
        origins: &mut origins[..origins_lent],
    };
    let answer = job::create_raw_offset(
        Rows(&source[..count]),
        closed,
        settings.offset,
        settings.eps,
        settings.corners,
        &mut rows,
        &mut marks,
    );
    print_outcome(answer, vertices, flags, indexes, origins);
}

// A stored row: at most 42 vertices.
fn row() {
    let mut source = [0.0; 128];
    let mut vertices = [NUMBER_BEFORE; 256];
    let mut flags = [FLAG_BEFORE; 88];
    let mut indexes = [INDEX_BEFORE; 88];
    let mut origins = [ORIGIN_BEFORE; 88];
    let head = stored::read_head();
    let lent = Lent {
        source: head.numbers,
        numbers: read_word() as usize,
        flags: read_word() as usize,
        indexes: read_word() as usize,
        origins: read_word() as usize,
    };
    words::read_numbers(head.numbers, &mut source);
    job(
        lent,
        &source,
        head.closed,
        head.settings,
        &mut vertices,
        &mut flags,
        &mut indexes,
        &mut origins,
    );
}

// Goes up and down by 1, with an arc from each upper vertex.
fn zigzag(source: &mut [f64]) {
    let mut x = 0.0;
    let mut y = 0.0;
    for vertex in source.chunks_exact_mut(3) {
        vertex.copy_from_slice(&[x, y, 0.25 * y]);
        x += 1.0;
        y = 1.0 - y;
    }
}

// The zigzag's first vertices, with room for 2 · 4096.
fn long(numbers: usize, closed: bool) {
    let mut source = [0.0; 12291];
    let mut vertices = [NUMBER_BEFORE; 24579];
    let mut flags = [FLAG_BEFORE; 8193];
    let mut indexes = [INDEX_BEFORE; 8193];
    let mut origins = [ORIGIN_BEFORE; 8193];
    zigzag(&mut source);
    let lent = Lent {
        source: numbers,
        numbers: 24576,
        flags: 8192,
        indexes: 8192,
        origins: 8192,
    };
    job(
        lent,
        &source,
        closed,
        Settings::round(0.125, 1e-5),
        &mut vertices,
        &mut flags,
        &mut indexes,
        &mut origins,
    );
}

fn rows() {
    let count = read_word();
    for _ in 0..count {
        row();
    }
}

fn main() {
    rows();
    // 4096 vertices are taken, and one more is not
    long(12288, false);
    long(12288, true);
    long(12291, false);
    long(12291, true);
}
