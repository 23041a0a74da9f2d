// Parts of stored outputs, each with the flags that are handed back. The input is words of eight bytes,
// highest byte first: the count of rows, then for each n, how many flags and how many origins there are,
// the source segment, and the origins. Flag i is the number i, so that the part of the flags shows where
// it stands. The stored output comes from the search in Rust (`oracle`, `samples`).
#![tactic(auto)]

use part::Bounds;
use refusals::Answer;
use segments::SourceSegment;
use words::{print, read_word};

// A row has no more flags and origins.
const MOST: usize = 64;

fn print_next(n: u32) {
    print(b" ");
    let _written = io::print_decimal(1, n as u64);
}

fn print_flags(flags: &[u8]) {
    for &flag in flags {
        print_next(flag as u32);
    }
}

// The lower half of a word.
fn read_half() -> u32 {
    (read_word() % 0x1_0000_0000) as u32
}

fn read_origins(count: usize, origins: &mut [u32]) {
    for origin in origins.iter_mut().take(count) {
        *origin = read_half();
    }
}

fn number_flags(flags: &mut [u8]) {
    for (i, flag) in flags.iter_mut().enumerate() {
        *flag = (i % 256) as u8;
    }
}

fn tell(n: u32, flags: &[u8], origins: &[u32], source: SourceSegment) {
    let found = part::find(n, flags.len(), origins, source);
    let bounds = found.unwrap_or(Bounds::empty());
    let _written = io::print_decimal(1, found.number() as u64);
    print_next(found.place());
    print_next(bounds.start.0);
    print_next(bounds.count);
    print_flags(part::part(n, flags, origins, source));
    print(b"\n");
}

// Of the first so many flags and origins.
fn tell_first(
    n: u32,
    flags: &[u8],
    flag_count: usize,
    origins: &[u32],
    count: usize,
    source: SourceSegment,
) {
    let flags_end = flag_count.min(flags.len());
    let origins_end = count.min(origins.len());
    tell(n, &flags[..flags_end], &origins[..origins_end], source);
}

fn row() {
    let mut flags = [0u8; MOST];
    let mut origins = [0u32; MOST];
    let n = read_half();
    let flag_count = read_word() as usize;
    let count = read_word() as usize;
    let source = SourceSegment(read_half());
    number_flags(&mut flags);
    read_origins(count, &mut origins);
    tell_first(n, &flags, flag_count, &origins, count, source);
}

fn main() {
    let count = read_word();
    for _ in 0..count {
        row();
    }
}
