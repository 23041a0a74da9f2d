// The calls of an open job whose vertices are drawn, for callers in C and Rust, by their C names. The record of the
// job is lent to each call: what it holds is taken, and what became of it is put back in its place.
#![tactic(auto)]

ghost use Rattle.std.specs.Prelude.{◌≡◌};
ghost use Rattle.segments.specs.Modes.{round_by, pointed_by};
ghost use Rattle.source.specs.Source.{rows};
ghost use Rattle.moves.specs.Origins.{origins_in};
ghost use Rattle.sheet.specs.Buffers.{buffers};
ghost use Rattle.pieces.specs.Calls.{start_call, draw_call, end_call};
ghost use Rattle.pieces.specs.Handed.{handed_start, start_handed, handed_call, call_handed};

use segments::Settings;
use sheet::{Marks, RowsMut};

// The record after a call, and the number returned: what a call by value gives that a thin call over a lent record
// puts in its place (proofs/Lent.antt). The calls below need none: they take the record themselves.
#[derive(Clone, Copy)]
pub struct Handed {
    pub job: pieces::OpenJob,
    pub number: u32,
}

// Begins an open job with round corners, whatever the record holds, and returns the number of the
// answer. `answer` is set to number, place, count of vertices, count of indexes, and count of segments.
#[unsafe(no_mangle)]
pub extern "C" fn blidrosk_draw_start(
    rec: &mut pieces::OpenJob,
    offset: f64,
    eps: f64,
    answer: &mut [u32; 5],
) -> u32
    ensures { handed_start result rec.new answer.new ≡ start_handed (start_call (round_by offset eps)) }
{
    let called = pieces::start(Settings::round(offset, eps));
    *rec = called.job;
    pieces::hand(called.answer, answer)
}

// The same with pointed corners, up to a ratio.
#[unsafe(no_mangle)]
pub extern "C" fn blidrosk_draw_start_pointed(
    rec: &mut pieces::OpenJob,
    offset: f64,
    eps: f64,
    ratio: f64,
    answer: &mut [u32; 5],
) -> u32
    ensures { handed_start result rec.new answer.new ≡ start_handed (start_call (pointed_by offset eps ratio)) }
{
    let called = pieces::start(Settings::pointed(offset, eps, ratio));
    *rec = called.job;
    pieces::hand(called.answer, answer)
}

// Takes vertices, three numbers each, and hands out the segments that they make certain.
#[unsafe(no_mangle)]
pub extern "C" fn blidrosk_draw_vertices(
    rec: &mut pieces::OpenJob,
    source: &[f64],
    vertices: &mut [f64],
    flags: &mut [u8],
    indexes: &mut [u32],
    origins: &mut [u32],
    answer: &mut [u32; 5],
) -> u32
    ensures { handed_call result rec.new answer.new (buffers (rows vertices.new) flags.new indexes.new (origins_in origins.new))
        ≡ call_handed (draw_call rec.old source.now (buffers (rows vertices.old) flags.old indexes.old (origins_in origins.old))) }
{
    let mut rows = RowsMut(vertices);
    let called = pieces::draw(
        *rec,
        source,
        &mut rows,
        &mut Marks {
            flags,
            indexes,
            origins,
        },
    );
    *rec = called.job;
    pieces::hand(called.answer, answer)
}

// Ends the job, and hands out the rest.
#[unsafe(no_mangle)]
pub extern "C" fn blidrosk_draw_end(
    rec: &mut pieces::OpenJob,
    vertices: &mut [f64],
    flags: &mut [u8],
    indexes: &mut [u32],
    origins: &mut [u32],
    answer: &mut [u32; 5],
) -> u32
    ensures { handed_call result rec.new answer.new (buffers (rows vertices.new) flags.new indexes.new (origins_in origins.new))
        ≡ call_handed (end_call rec.old (buffers (rows vertices.old) flags.old indexes.old (origins_in origins.old))) }
{
    let mut rows = RowsMut(vertices);
    let mut marks = Marks {
        flags,
        indexes,
        origins,
    };
    let called = pieces::end(*rec, &mut rows, &mut marks);
    *rec = called.job;
    pieces::hand(called.answer, answer)
}
