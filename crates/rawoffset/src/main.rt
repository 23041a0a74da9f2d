// One packed job from standard input, and its answer to standard output. What is written for what is
// read is `reply`'s: here are the two calls, and nothing is decided.
#![tactic(auto)]

// One byte more than the largest job has: of a longer input that is enough to refuse it (`cut` in
// crates/reply/proofs/Never.antt).
const MOST_READ: usize = 12307;

// Room for the longest answer.
const MOST_WRITTEN: usize = 98304;

fn main() {
    let mut bytes = [0u8; MOST_READ];
    let n = io::read_full(0, &mut bytes);
    let mut text = [0u8; MOST_WRITTEN];
    let m = reply::reply(&bytes[..n], &mut text);
    let _written = io::write_all(1, &text[..m]);
}
