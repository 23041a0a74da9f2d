// The stage with pointed corners, for callers in C and Rust: one function, by its C name.
// It is a crate of its own, so that its walk is compiled apart from the round one.
#![tactic(auto)]

ghost use Rattle.std.specs.Prelude.{◌≡◌};
ghost use Rattle.segments.specs.Modes.{pointed_by};
ghost use Rattle.source.specs.Source.{rows};
ghost use Rattle.moves.specs.Origins.{origins_in};
ghost use Rattle.sheet.specs.Buffers.{buffers};
ghost use Rattle.job.specs.Job.{job_of};
ghost use Rattle.job.specs.Handed.{handed, handed_of};

use job::Pointed;
use sheet::{Marks, RowsMut};
use source::Rows;

// Offsets a drawing into the four lent buffers, with corners that are pointed up to `ratio`, and
// returns the number of the answer. `answer` is set to number, place, count of vertices, count of indexes, and 1 where the drawing is closed.
#[unsafe(no_mangle)]
pub extern "C" fn blidrosk_raw_offset_pointed(
    source: &[f64],
    closed: bool,
    offset: f64,
    eps: f64,
    ratio: f64,
    vertices: &mut [f64],
    flags: &mut [u8],
    indexes: &mut [u32],
    origins: &mut [u32],
    answer: &mut [u32; 5],
) -> u32
    ensures { handed result answer.new (buffers (rows vertices.new) flags.new indexes.new (origins_in origins.new))
        ≡ handed_of (job_of (rows source.now) closed (pointed_by offset eps ratio) (buffers (rows vertices.old) flags.old indexes.old (origins_in origins.old))) }
{
    let mut rows = RowsMut(vertices);
    let mut marks = Marks {
        flags,
        indexes,
        origins,
    };
    let a = job::create_raw_offset(
        Rows(source),
        closed,
        offset,
        eps,
        Pointed { ratio },
        &mut rows,
        &mut marks,
    );
    job::hand(a, answer)
}
