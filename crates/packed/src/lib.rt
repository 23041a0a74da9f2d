// One packed job, as `rawoffset` reads it, and the text of its answer: the program between reading
// and writing, on slices.
#![tactic(auto)]

mod text;
mod unpacked;

pub use text::{Text, mark_of, put_answer, put_origins, put_refusal, put_told};
pub use unpacked::{Form, PackedJob, decode};
