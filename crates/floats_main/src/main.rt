// Each public function of `floats`, `vectors` and `bits` at the edges of binary64. What is written
// is held to the stored output, which was worked out apart from this code.
#![tactic(auto)]

ghost use Rattle.std.specs.Prelude.{◌<◌};

use vectors::Vector2;
use words::{print, print_bool, print_number, print_vector};

// ±0, ±1, 0.5, 2, 49, 1 + 2^-52, 1e-8, ±4, the smallest and largest subnormal, the smallest normal,
// the largest numbers, the infinities, and two NaNs.
const EDGES: [u64; 20] = [
    0x0000_0000_0000_0000,
    0x8000_0000_0000_0000,
    0x3ff0_0000_0000_0000,
    0xbff0_0000_0000_0000,
    0x3fe0_0000_0000_0000,
    0x4000_0000_0000_0000,
    0x4048_8000_0000_0000,
    0x3ff0_0000_0000_0001,
    0x3e45_798e_e230_8c3a,
    0x4010_0000_0000_0000,
    0xc010_0000_0000_0000,
    0x0000_0000_0000_0001,
    0x000f_ffff_ffff_ffff,
    0x0010_0000_0000_0000,
    0x7fef_ffff_ffff_ffff,
    0xffef_ffff_ffff_ffff,
    0x7ff0_0000_0000_0000,
    0xfff0_0000_0000_0000,
    0x7ff8_0000_0000_0000,
    0xfff0_0000_0000_0001,
];

// Numbers that roots are looked for near: offsets as shops use them, whole numbers, one whose square
// has all its digits, and a huge and a tiny one.
const GUESSES: [u64; 16] = [
    0x3fa9_9999_9999_999a,
    0x3fb9_9999_9999_999a,
    0x3fc9_9999_9999_999a,
    0x3fd0_0000_0000_0000,
    0x3fe0_0000_0000_0000,
    0x3ff0_0000_0000_0000,
    0x3ff8_0000_0000_0000,
    0x4000_0000_0000_0000,
    0x4014_0000_0000_0000,
    0x4008_cccc_cccc_cccd,
    0x3ff0_0000_0000_0001,
    0x3fff_ffff_ffff_ffff,
    0x3ff0_0000_0400_0000,
    0x3eb0_c6f7_a0b5_ed8d,
    0x5fe2_3456_789a_bcde,
    0x1ff2_3456_789a_bcde,
];

// 1 and 2, the squares of 9/8, 5/4, 11/8 and 1 + 2^-26, the first and the last border of the tables of
// guesses, 1 + 1/64 and 1 + 63/64, and numbers next to these. Two of the squares are borders too.
const WITHIN: [u64; 20] = [
    0x3fef_ffff_ffff_ffff,
    0x3ff0_0000_0000_0000,
    0x3ff0_0000_0000_0001,
    0x3ff0_0000_0800_0000,
    0x3ff0_0000_0800_0001,
    0x3ff0_0000_0800_0002,
    0x3ff0_3fff_ffff_ffff,
    0x3ff0_4000_0000_0000,
    0x3ff0_4000_0000_0001,
    0x3ff4_4000_0000_0000,
    0x3ff4_4000_0000_0001,
    0x3ff9_0000_0000_0000,
    0x3ffe_3fff_ffff_ffff,
    0x3ffe_4000_0000_0000,
    0x3fff_bfff_ffff_ffff,
    0x3fff_c000_0000_0000,
    0x3fff_c000_0000_0001,
    0x3fff_ffff_ffff_ffff,
    0x4000_0000_0000_0000,
    0x4000_0000_0000_0001,
];

// One number: its root, size and finiteness.
fn one(x: f64) {
    print(b"one");
    print_number(x);
    print_number(floats::sqrt(x));
    print_number(floats::abs(x));
    print_bool(floats::is_finite(x));
    print(b"\n");
}

// Nearness of two numbers at 1e-8, and at an infinite and a NaN tolerance.
fn two(a: f64, b: f64) {
    print(b"two");
    print_number(a);
    print_number(b);
    print_bool(floats::fuzzy_eq_eps(a, b, 1e-8));
    print_bool(floats::fuzzy_eq_eps(a, b, 1.0 / 0.0));
    print_bool(floats::fuzzy_eq_eps(a, b, 0.0 / 0.0));
    print(b"\n");
}

// One vector: what is made of it alone.
fn vector(v: Vector2) {
    print(b"vector");
    print_vector(v);
    print_vector(-v);
    print_vector(v.perp());
    print_number(v.length_squared());
    print_number(v.length());
    print_vector(v.normalize());
    print_vector(v.unit_perp());
    print(b"\n");
}

// Two vectors, and the first times the second's x.
fn vectors_of(a: Vector2, b: Vector2) {
    print(b"vectors");
    print_vector(a);
    print_vector(b);
    print_vector(a + b);
    print_vector(a - b);
    print_vector(a * b.x);
    print_number(a.dot(b));
    print_number(a.perp_dot(b));
    print_bool(a.fuzzy_eq_eps(b, 0.01));
    print(b"\n");
}

// The edges i and i + 1, around the table.
fn row(i: usize)
    requires { i < 20 }
{
    let a = bits::number_of(EDGES[i]);
    let b = bits::number_of(EDGES[(i + 1) % 20]);
    let c = bits::number_of(EDGES[(i + 7) % 20]);
    one(a);
    two(a, b);
    two(a, a);
    vector(Vector2 { x: a, y: c });
    vectors_of(Vector2 { x: a, y: b }, Vector2 { x: c, y: a });
}

fn rows() {
    for i in 0..20 {
        row(i);
    }
}

// The roots of two numbers, looked for near a third.
fn near(x: f64, y: f64, g: f64) {
    let roots = floats::roots_near(x, y, g);
    print(b"near");
    print_number(x);
    print_number(y);
    print_number(g);
    print_number(roots.first);
    print_number(roots.second);
    print(b"\n");
}

fn print_root(a: f64, guess: f64) {
    print_number(floats::sqrt_by(a, guess));
}

// The root of one number by guesses that are good, near and bad.
fn guessed(a: f64) {
    let guesses = floats::guess(a);
    let g = guesses.first;
    print(b"guessed");
    print_number(a);
    print_root(a, g);
    print_root(a, guesses.second);
    print_root(a, guesses.third);
    print_root(a, further(g, 1));
    print_root(a, further(g, 0xffff_ffff_ffff_ffff));
    print_root(a, further(g, 300));
    print_root(a, further(g, 0xffff_ffff_ffff_fed4));
    print_root(a, g + g / 1048576.0);
    print_root(a, g - g / 1000.0);
    print_root(a, 0.0);
    print_root(a, -1.0);
    print_root(a, 1.0);
    print_root(a, 1.4142135623730951);
    print_root(a, 2.0);
    print_root(a, 1e308);
    print_root(a, 1.0 / 0.0);
    print_root(a, 0.0 / 0.0);
    print_root(a, a);
    print(b"\n");
}

// x some units in the last place further on.
fn further(x: f64, units: u64) -> f64 {
    bits::number_of(bits::bits_of(x).wrapping_add(units))
}

// About the square of a guess: at it, at each number next to it, and some hundred units and some
// parts of it away; and one of the two far from it.
fn near_guess(guess: u64) {
    let g = bits::number_of(guess);
    let square = g * g;
    near(square, square, g);
    near(
        further(square, 1),
        further(square, 0xffff_ffff_ffff_ffff),
        g,
    );
    near(
        further(square, 2),
        further(square, 0xffff_ffff_ffff_fffe),
        g,
    );
    near(
        further(square, 0xffff_ffff_ffff_ff38),
        further(square, 200),
        g,
    );
    near(square * 1.000000001, square * 0.999999999, g);
    near(square * 1.000001, square * 0.999, g);
    near(square, 7.0, g);
    near(0.1, further(square, 3), g);
    near(square, further(square, 1), -g);
}

// An edge beside others, near others and near its own root; and by guesses.
fn near_edge(i: usize)
    requires { i < 20 }
{
    let a = bits::number_of(EDGES[i]);
    let b = bits::number_of(EDGES[(i + 1) % 20]);
    let c = bits::number_of(EDGES[(i + 7) % 20]);
    near(a, b, c);
    near(a, 1.0, 1.0);
    near(1.0, a, 1.0);
    near(a, a, floats::sqrt(a));
    near(4.0, 4.0, a);
    guessed(a);
    guessed(bits::number_of(WITHIN[i]));
}

fn near_guesses() {
    for &guess in &GUESSES {
        near_guess(guess);
    }
}

fn near_edges() {
    for i in 0..20 {
        near_edge(i);
    }
}

fn main() {
    rows();
    // near in x alone, in y alone, in both; the difference equal to the tolerance is not near
    let o = Vector2 { x: 0.0, y: 0.0 };
    vectors_of(o, Vector2 { x: 0.005, y: 1.0 });
    vectors_of(o, Vector2 { x: 1.0, y: 0.005 });
    vectors_of(
        o,
        Vector2 {
            x: 0.005,
            y: -0.005,
        },
    );
    vectors_of(o, Vector2 { x: 0.01, y: 0.0 });
    vector(Vector2 { x: 3.0, y: 4.0 });
    near_guesses();
    near_edges();
}
