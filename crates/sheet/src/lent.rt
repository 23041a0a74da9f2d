// The lent buffers: vertices in rows or in columns, and what is said of each segment: its flag, its origin,
// and its number where it is invalid. Code for both layouts is generic over them.
ghost use Rattle.std.specs.Prelude.{◌≡◌, ◌<◌, length, set};
ghost use Rattle.floats.specs.Choice.{when◌give◌else◌};
ghost use Rattle.source.specs.Source.{rows, columns};
ghost use Rattle.moves.specs.Origins.{origins_in};
ghost use Rattle.moves.specs.Drawing.{bit};
ghost use Rattle.sheet.specs.InnerSteps.{held_by, put_at, bulge_at, Coded, loans_of};

use moves::Origin;
use segments::{OutputSegment, PlineVertex};

// Vertices that are lent to be written.
pub trait VerticesMut: Drop {
    ghost use Rattle.sheet.specs.InnerSteps.{Loaned};

    // their numbers, and by which references these are lent
    ghost lent: { Self → Loaned };

    // How many there are: a shorter column decides.
    fn count(&self) -> usize
        ensures { result ≡ length (held_by (lent self.now)).made };

    // The three numbers of a vertex, at place k.
    fn put(&mut self, k: usize, v: PlineVertex)
        requires { k < length (held_by (lent self.old)).made }
        ensures { held_by (lent self.new) ≡ put_at (held_by (lent self.old)) k v };

    // The bulge of the vertex at place k.
    fn put_bulge(&mut self, k: usize, bulge: f64)
        requires { k < length (held_by (lent self.old)).made }
        ensures { held_by (lent self.new) ≡ bulge_at (held_by (lent self.old)) k bulge };
}

// Three numbers a vertex, one vertex after the other.
#[derive(Drop)]
pub struct RowsMut<'a>(pub &'a mut [f64]);

// All x, all y and all bulges.
#[derive(Drop)]
pub struct ColumnsMut<'a> {
    pub xs: &'a mut [f64],
    pub ys: &'a mut [f64],
    pub bulges: &'a mut [f64],
}

impl VerticesMut for RowsMut<'_> {
    ghost lent = { λ s. record { numbers = rows s.0.now; loans = record { x = s.0.ghost_name; y = 0; bulge = 0 } } };

    fn count(&self) -> usize {
        self.0.len() / 3
    }

    fn put(&mut self, k: usize, v: PlineVertex) {
        let at = 3 * k;
        self.0[at] = v.x;
        self.0[at + 1] = v.y;
        self.0[at + 2] = v.bulge;
    }

    fn put_bulge(&mut self, k: usize, bulge: f64) {
        self.0[3 * k + 2] = bulge;
    }
}

impl VerticesMut for ColumnsMut<'_> {
    ghost lent = { λ s. record { numbers = columns s.xs.now s.ys.now s.bulges.now; loans = record { x = s.xs.ghost_name; y = s.ys.ghost_name; bulge = s.bulges.ghost_name } } };

    fn count(&self) -> usize {
        self.xs.len().min(self.ys.len()).min(self.bulges.len())
    }

    fn put(&mut self, k: usize, v: PlineVertex) {
        self.xs[k] = v.x;
        self.ys[k] = v.y;
        self.bulges[k] = v.bulge;
    }

    fn put_bulge(&mut self, k: usize, bulge: f64) {
        self.bulges[k] = bulge;
    }
}

// What is said of the segments.
#[derive(Drop)]
pub struct Marks<'a> {
    pub flags: &'a mut [u8],
    pub indexes: &'a mut [u32],
    pub origins: &'a mut [u32],
}

impl Marks<'_> {
    // The flag and the origin of segment k, and its number at index j where it is invalid.
    pub fn put(&mut self, k: usize, j: usize, invalid: bool, number: OutputSegment, origin: Origin)
        requires places { (k < length self.old.flags.now) × (k < length self.old.origins.now) × (j < length self.old.indexes.now) }
        requires coded { Coded origin }
        ensures flags { self.new.flags.now ≡ set self.old.flags.now k (bit invalid) }
        ensures indexes { self.new.indexes.now ≡ when invalid give set self.old.indexes.now j number.0 else self.old.indexes.now }
        ensures origins { origins_in self.new.origins.now ≡ set (origins_in self.old.origins.now) k origin }
        ensures same_loans { loans_of self.new ≡ loans_of self.old }
    {
        self.origins[k] = origin.code();
        if invalid {
            self.flags[k] = 1;
            self.indexes[j] = number.0;
            return;
        }
        self.flags[k] = 0;
    }
}
