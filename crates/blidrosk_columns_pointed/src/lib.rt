// The stage in three columns, with pointed corners, for callers in C and Rust: one function, by its C name.
// It is a crate of its own, so that its walk is compiled apart from the others.
#![tactic(auto)]

ghost use Rattle.std.specs.Prelude.{◌≡◌};
ghost use Rattle.segments.specs.Modes.{pointed_by};
ghost use Rattle.source.specs.Source.{columns};
ghost use Rattle.moves.specs.Origins.{origins_in};
ghost use Rattle.sheet.specs.Buffers.{buffers};
ghost use Rattle.job.specs.Job.{job_of};
ghost use Rattle.job.specs.Handed.{handed, handed_of};

use job::Pointed;
use sheet::{ColumnsMut, Marks};
use source::Columns;

// Offsets a drawing, given as all x, all y and all bulges, into three such columns and three buffers
// more, and returns the number of the answer. `answer` is set to number, place, count of vertices,
// count of indexes, and 1 where the drawing is closed.
#[unsafe(no_mangle)]
pub extern "C" fn blidrosk_raw_offset_columns_pointed(
    xs: &[f64],
    ys: &[f64],
    bulges: &[f64],
    closed: bool,
    offset: f64,
    eps: f64,
    ratio: f64,
    outxs: &mut [f64],
    outys: &mut [f64],
    outbulges: &mut [f64],
    flags: &mut [u8],
    indexes: &mut [u32],
    origins: &mut [u32],
    answer: &mut [u32; 5],
) -> u32
    ensures { handed result answer.new (buffers (columns outxs.new outys.new outbulges.new) flags.new indexes.new (origins_in origins.new))
        ≡ handed_of (job_of (columns xs.now ys.now bulges.now) closed (pointed_by offset eps ratio)
        (buffers (columns outxs.old outys.old outbulges.old) flags.old indexes.old (origins_in origins.old))) }
{
    let source = Columns { xs, ys, bulges };
    let mut columns = ColumnsMut {
        xs: outxs,
        ys: outys,
        bulges: outbulges,
    };
    let mut marks = Marks {
        flags,
        indexes,
        origins,
    };
    let a = job::create_raw_offset(
        source,
        closed,
        offset,
        eps,
        Pointed { ratio },
        &mut columns,
        &mut marks,
    );
    job::hand(a, answer)
}
