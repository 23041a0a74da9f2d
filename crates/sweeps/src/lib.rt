// The sweeps of the bulges that a walk has met, kept for the arcs to come: most drawings have few
// different bulges.
#![tactic(auto)]

ghost use Rattle.std.specs.Prelude.{◌≡◌, ◌<◌, length};
ghost use Rattle.std.specs.Float.{binary64};
ghost use Rattle.std.specs.Float.Ieee.{of_bits};
ghost use Rattle.angles.specs.Angle.{sweep_of};
ghost use Rattle.source.specs.Source.{vertices_in};

use source::Vertices;

// Where a bulge is kept: by its sign, its exponent and some of its digits.
fn slot(bits: u64) -> usize
    ensures { result < 16 }
{
    let leading = bits / 0x1000_0000_0000_0000 + bits / 0x0010_0000_0000_0000;
    let digits = bits / 0x0000_4000_0000_0000 + bits / 0x0000_0010_0000_0000;
    ((leading + digits) % 16) as usize
}

// A bulge's bits, and its sweep.
#[derive(Clone, Copy)]
struct Kept {
    bits: u64,
    sweep: f64,
    ghost swept: { sweep ≡ sweep_of (of_bits binary64 bits) },
}

// Sixteen slots, each with a bulge and its sweep.
#[derive(Clone, Copy)]
pub struct Memo {
    slots: [Kept; 16],
}

impl Memo {
    // With +0 in each slot, whose sweep is +0.
    pub fn new() -> Memo {
        Memo {
            slots: [Kept {
                bits: 0,
                sweep: 0.0,
            }; 16],
        }
    }

    // Keeps a bulge's sweep in its slot, whatever that had.
    fn keep(&mut self, bulge: f64, sweep: f64)
        requires { sweep ≡ sweep_of bulge }
    {
        let bits = bits::bits_of(bulge);
        self.slots[slot(bits)] = Kept { bits, sweep };
    }

    // A bulge's sweep, worked out side by side with the next one's, and both kept: the next one's last, so
    // that no other takes its slot.
    fn keep_two(&mut self, bulge: f64, next: f64) -> f64
        ensures { result ≡ sweep_of bulge }
    {
        let [sweep, of_next] = angles::sweeps([bulge, next]);
        self.keep(bulge, sweep);
        self.keep(next, of_next);
        sweep
    }

    // The same with those of two more.
    fn keep_four(&mut self, bulge: f64, next: f64, third: f64, fourth: f64) -> f64
        ensures { result ≡ sweep_of bulge }
    {
        let [first, second, of_third, of_fourth] = angles::sweeps([bulge, next, third, fourth]);
        self.keep(bulge, first);
        self.keep(fourth, of_fourth);
        self.keep(third, of_third);
        self.keep(next, second);
        first
    }

    // A bulge's sweep, where vertex k comes next. If neither it nor the next one's is kept, and two vertices
    // more come, four are worked out at once: a drawing in which no two bulges are alike takes one such step
    // for four arcs.
    pub fn sweep_of<S: Vertices>(&mut self, bulge: f64, source: S, k: usize) -> f64
        requires { k < length (vertices_in (S.lent source)) }
        ensures { result ≡ sweep_of bulge }
    {
        let bits = bits::bits_of(bulge);
        let kept = self.slots[slot(bits)];
        if kept.bits == bits {
            return kept.sweep;
        }
        let next = source.vertex(k).bulge;
        if source.count() - k > 2 {
            let after = bits::bits_of(next);
            if self.slots[slot(after)].bits != after {
                let third = source.vertex(k + 1).bulge;
                let fourth = source.vertex(k + 2).bulge;
                return self.keep_four(bulge, next, third, fourth);
            }
        }
        self.keep_two(bulge, next)
    }
}
