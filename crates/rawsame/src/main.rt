// The texts of two outputs from standard input, with the length of the first before them, and what differs between them
// to standard output. What is written for what is read is `same_reply`'s: here are the two calls, nothing is decided.
#![tactic(auto)]

// One byte more than the longest two texts have with the length before them: of a longer input that is enough to refuse
// it (`cut` in crates/same_reply/proofs/Never.antt).
const MOST_READ: usize = 1302563;

// Room for the longest answer.
const MOST_WRITTEN: usize = 524288;

fn main() {
    let mut bytes = [0u8; MOST_READ];
    let n = io::read_full(0, &mut bytes);
    let mut text = [0u8; MOST_WRITTEN];
    let m = same_reply::reply(&bytes[..n], &mut text);
    let _written = io::write_all(1, &text[..m]);
}
