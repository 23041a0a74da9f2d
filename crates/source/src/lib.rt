// Vertices as their numbers are lent, in rows or in columns. In rows one list has three numbers a vertex, x, y, bulge,
// one vertex after the other; in columns all x, all y and all bulges are lists of their own. Code for both is generic
// over the layout: it is compiled for each, with nothing of the other.
#![tactic(auto)]

ghost use Rattle.std.specs.Prelude.{◌≡◌, ◌<◌, length};
ghost use Rattle.source.specs.Source.{segments_of, vertices_of, vertices_in, is_whole, rows, columns};
ghost use Rattle.source.specs.InnerSteps.{vertex_of, next_of};

use segments::PlineVertex;

// Numbers that make vertices.
pub trait Vertices: Copy {
    ghost use Rattle.source.specs.Source.{Lent};

    // the numbers as they are lent
    ghost lent: { Self → Lent };

    // How many vertices there are: a part of one at the end of rows counts for none, and a shorter column decides.
    fn count(self) -> usize
        ensures { result ≡ length (vertices_in (lent self)) };

    // Whether no number is left over.
    fn is_whole(self) -> bool
        ensures { result ≡ is_whole (lent self) };

    fn vertex(self, k: usize) -> PlineVertex
        requires { k < length (vertices_in (lent self)) }
        ensures { result ≡ vertex_of (vertices_in (lent self)) k };
}

// Three numbers a vertex, one vertex after the other.
#[derive(Clone, Copy)]
pub struct Rows<'a>(pub &'a [f64]);

// All x, all y and all bulges.
#[derive(Clone, Copy)]
pub struct Columns<'a> {
    pub xs: &'a [f64],
    pub ys: &'a [f64],
    pub bulges: &'a [f64],
}

impl Vertices for Rows<'_> {
    ghost lent = { λ s. rows s.0.now };

    fn count(self) -> usize {
        self.0.len() / 3
    }

    fn is_whole(self) -> bool {
        self.0.len() % 3 == 0
    }

    fn vertex(self, k: usize) -> PlineVertex {
        vertex_at(self.0, k)
    }
}

impl Vertices for Columns<'_> {
    ghost lent = { λ s. columns s.xs.now s.ys.now s.bulges.now };

    fn count(self) -> usize {
        self.xs.len().min(self.ys.len()).min(self.bulges.len())
    }

    fn is_whole(self) -> bool {
        self.xs.len() == self.ys.len() && self.ys.len() == self.bulges.len()
    }

    fn vertex(self, k: usize) -> PlineVertex {
        PlineVertex {
            x: self.xs[k],
            y: self.ys[k],
            bulge: self.bulges[k],
        }
    }
}

pub fn segment_count(v: usize, closed: bool) -> usize
    ensures { result ≡ segments_of closed v }
{
    if v < 2 {
        return 0;
    }
    if closed {
        return v;
    }
    v - 1
}

// Of a list in rows.
pub fn vertex_at(source: &[f64], k: usize) -> PlineVertex
    requires { k < length (vertices_of source.now) }
    ensures { result ≡ vertex_of (vertices_of source.now) k }
{
    let i = 3 * k;
    PlineVertex {
        x: source[i],
        y: source[i + 1],
        bulge: source[i + 2],
    }
}

// After the last of v places comes the first again.
pub fn next_place(v: usize, k: usize) -> usize
    requires { k < v }
    ensures { (result ≡ next_of v k) × (result < v) }
{
    if k + 1 < v {
        return k + 1;
    }
    0
}
