// What is told of each output segment of stored jobs, of the first number that is none, and of the
// largest. The input is words of eight bytes, highest byte first: the count of jobs, then for each how
// many numbers its source has, its mode (1 for closed, and 2 more for pointed corners), offset, tolerance,
// of pointed corners the ratio, and the source. The stored output comes from
// the traced job in Rust (`oracle`, `samples`), which says which branch of 000 it took.
#![tactic(auto)]

use segments::{OutputSegment, Settings};
use why::WhyNumbers;
use words::{print, read_word};

// More segments than a stored job draws.
const MOST_SEGMENTS: u32 = 256;

fn print_next(n: u32) {
    print(b" ");
    let _written = io::print_decimal(1, n as u64);
}

// Prints what is told of a segment. Answers whether there is one.
fn tell(source: &[f64], closed: bool, settings: Settings, segment: u32) -> bool {
    let told = why::why(source, closed, settings, OutputSegment(segment));
    let n = WhyNumbers::from(told);
    let _written = io::print_decimal(1, n.number as u64);
    print_next(n.place);
    print_next(n.connector);
    print_next(n.source);
    print_next(n.reason);
    print_next(n.start_rule);
    print_next(n.end_rule);
    words::print_number(n.start_param);
    words::print_number(n.end_param);
    print(b"\n");
    n.number == 0
}

fn tell_each(source: &[f64], closed: bool, settings: Settings) {
    for segment in 0..MOST_SEGMENTS {
        if !tell(source, closed, settings, segment) {
            return;
        }
    }
}

fn tell_job(source: &[f64], count: usize, closed: bool, settings: Settings) {
    let numbers = count.min(source.len());
    tell_each(&source[..numbers], closed, settings);
    let _told = tell(&source[..numbers], closed, settings, u32::MAX);
}

// A stored job: at most 42 vertices.
fn row() {
    let mut source = [0.0; 128];
    let head = stored::read_head();
    words::read_numbers(head.numbers, &mut source);
    tell_job(&source, head.numbers, head.closed, head.settings);
}

fn main() {
    let count = read_word();
    for _ in 0..count {
        row();
    }
}
