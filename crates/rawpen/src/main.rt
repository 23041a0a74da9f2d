// An open job whose vertices are drawn, from standard input: the packed head, and then a vertex at a time. What each
// makes certain goes to standard output at once. What is written for what is read is `pen_reply`'s: here is the
// order of its calls, and nothing else is decided.
#![tactic(auto)]

use pen_reply::Pen;
use pieces::OpenJob;

// One step more than a job has vertices at most: the last one ends the job, or is refused.
const STEPS: usize = 4097;

// Room for the text of a step.
const MOST_WRITTEN: usize = 98304;

// One text for all steps: to make it anew, with its zeros, would take longer than the step.
fn main() {
    let mut text = [0u8; MOST_WRITTEN];
    let mut pen = begin(&mut text);
    for _ in 0..STEPS {
        if !pen.more {
            return;
        }
        pen = next(pen.job, &mut text);
    }
}

fn begin(text: &mut [u8; MOST_WRITTEN]) -> Pen {
    let mut head = [0u8; 25];
    let n = io::read_full(0, &mut head);
    let pen = pen_reply::begin(&head[..n], text);
    let m = pen.written;
    let _written = io::write_all(1, &text[..m]);
    pen
}

fn next(job: OpenJob, text: &mut [u8; MOST_WRITTEN]) -> Pen {
    let mut bytes = [0u8; 24];
    let n = io::read_full(0, &mut bytes);
    let pen = pen_reply::next(job, &bytes[..n], text);
    let m = pen.written;
    let _written = io::write_all(1, &text[..m]);
    pen
}
