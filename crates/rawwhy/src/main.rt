// One question from standard input, and its answer to standard output. What is written for what is read
// is `why_reply`'s: here are the two calls, and nothing is decided.
#![tactic(auto)]

// One byte more than the largest question has, 4, 8 and 12306: of a longer input that is enough to refuse
// it (`cut` in crates/why_reply/proofs/Cut.antt).
const MOST_READ: usize = 12319;

// Room for the longest answer.
const MOST_WRITTEN: usize = 98304;

fn main() {
    let mut bytes = [0u8; MOST_READ];
    let n = io::read_full(0, &mut bytes);
    let mut text = [0u8; MOST_WRITTEN];
    let m = why_reply::reply(&bytes[..n], &mut text);
    let _written = io::write_all(1, &text[..m]);
}
