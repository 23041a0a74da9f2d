// A packed job, taken apart. Fields stand most significant first. A pointed one (2026-13) is its ratio, and
// then a packed job.
ghost use Rattle.std.specs.Prelude.{◌≡◌, ◌+◌, ◌*◌, ◌≤◌, length};
ghost use Rattle.packed.specs.Packed.{has_ratio, well_formed, numbers_of, decoded, decoded_by, decoded_of};

use segments::{Corners, Settings};

// What a program takes: a packed job alone, a pointed one alone, or either.
#[derive(Clone, Copy)]
pub enum Form {
    Round,
    Pointed,
    Either,
}

// What is asked for. The numbers of its vertices stand beside it.
#[derive(Clone, Copy)]
pub struct PackedJob {
    pub closed: bool,
    pub vertices: usize,
    pub settings: Settings,
}

// The job, with its vertices' numbers at the start of `source`; what is malformed is none, and leaves `source` as it was.
pub fn decode(form: Form, bytes: &[u8], source: &mut [f64; 1536]) -> Option<PackedJob>
    ensures { decoded result source.new ≡ decoded_of form bytes.now source.old }
{
    if !has_ratio(form, bytes.len()) {
        return decode_by(Corners::Round, bytes, source);
    }
    if bytes.len() < 8 {
        return None;
    }
    let ratio = words::number_at(bytes, 0);
    decode_by(Corners::Pointed { ratio }, &bytes[8..], source)
}

// A packed job has 18 + 24v bytes, and a pointed one 26 + 24v: neither is ever as long as the other.
fn has_ratio(form: Form, length: usize) -> bool
    ensures { result ≡ has_ratio form length }
{
    match form {
        Form::Round => false,
        Form::Pointed => true,
        Form::Either => length % 24 == 2,
    }
}

// A packed job, whose corners are told beside it.
fn decode_by(corners: Corners, bytes: &[u8], source: &mut [f64; 1536]) -> Option<PackedJob>
    ensures { decoded result source.new ≡ decoded_by corners bytes.now source.old }
{
    if !well_formed(bytes) {
        return None;
    }
    let header = words::big_endian(bytes, 0, 2);
    let v = (header % 4096) as usize;
    fill(bytes, &mut source[..3 * v]);
    let settings = Settings {
        offset: words::number_at(bytes, 2),
        eps: words::number_at(bytes, 10),
        corners,
    };
    Some(PackedJob {
        closed: header / 32768 == 1,
        vertices: v,
        settings,
    })
}

fn well_formed(bytes: &[u8]) -> bool
    ensures { result ≡ well_formed bytes.now }
{
    if bytes.len() < 18 {
        return false;
    }
    let header = words::big_endian(bytes, 0, 2);
    let v = (header % 4096) as usize;
    bytes.len() == 18 + 24 * v && (header / 4096 % 8 == 0 && v <= 512)
}

// The first numbers of the vertices, as many as there are places.
fn fill(bytes: &[u8], numbers: &mut [f64])
    requires { 18 + 8 * length numbers.old ≤ length bytes.now }
    ensures { numbers.new ≡ numbers_of bytes.now (length numbers.old) }
{
    for (k, number) in numbers.iter_mut().enumerate() {
        *number = words::number_at(bytes, 18 + 8 * k);
    }
}
