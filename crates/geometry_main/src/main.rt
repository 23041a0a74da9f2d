// The public functions of `angles` and `intersections` on stored rows that reach each branch. A row
// is sixteen words of eight bytes, highest byte first: the number of a function, then the bits of
// its arguments. The stored output comes from 01's arithmetic in Rust (`oracle`, `samples`).
#![tactic(auto)]

use intersections::{CircleCircleIntr, LineCircleIntr, LineLineIntr};
use vectors::Vector2;
use words::{number, print, print_number, print_vector, vector, word};

fn point_from_parametric(row: &[u8; 128]) {
    print(b"point_from_parametric");
    print_vector(intersections::point_from_parametric(
        vector(row, 1),
        vector(row, 3),
        number(row, 5),
    ));
}

fn parametric_from_point(row: &[u8; 128]) {
    print(b"parametric_from_point");
    print_number(intersections::parametric_from_point(
        vector(row, 1),
        vector(row, 3),
        vector(row, 5),
        number(row, 7),
    ));
}

fn line_line_intr(row: &[u8; 128]) {
    let intr = intersections::line_line_intr(
        vector(row, 1),
        vector(row, 3),
        vector(row, 5),
        vector(row, 7),
        number(row, 9),
    );
    print(b"line_line_intr");
    match intr {
        LineLineIntr::NoIntersect => print(b" none"),
        LineLineIntr::TrueIntersect { seg1_t, seg2_t } => {
            print(b" true");
            print_number(seg1_t);
            print_number(seg2_t);
        }
        LineLineIntr::FalseIntersect { seg1_t, seg2_t } => {
            print(b" false");
            print_number(seg1_t);
            print_number(seg2_t);
        }
        LineLineIntr::Overlapping => print(b" overlapping"),
    }
}

fn line_circle_intr(row: &[u8; 128]) {
    let intr = intersections::line_circle_intr(
        vector(row, 1),
        vector(row, 3),
        number(row, 5),
        vector(row, 6),
        number(row, 8),
    );
    print(b"line_circle_intr");
    match intr {
        LineCircleIntr::NoIntersect => print(b" none"),
        LineCircleIntr::TangentIntersect { t0 } => {
            print(b" tangent");
            print_number(t0);
        }
        LineCircleIntr::TwoIntersects { t0, t1 } => {
            print(b" two");
            print_number(t0);
            print_number(t1);
        }
    }
}

fn circle_circle_intr(row: &[u8; 128]) {
    let intr = intersections::circle_circle_intr(
        number(row, 1),
        vector(row, 2),
        number(row, 4),
        vector(row, 5),
        number(row, 7),
    );
    print(b"circle_circle_intr");
    match intr {
        CircleCircleIntr::NoIntersect => print(b" none"),
        CircleCircleIntr::TangentIntersect { point } => {
            print(b" tangent");
            print_vector(point);
        }
        CircleCircleIntr::TwoIntersects { point1, point2 } => {
            print(b" two");
            print_vector(point1);
            print_vector(point2);
        }
        CircleCircleIntr::Overlapping => print(b" overlapping"),
    }
}

fn print_named(name: &[u8], x: f64) {
    print(name);
    print_number(x);
}

fn angle_row(function: u64, row: &[u8; 128]) {
    let x = number(row, 1);
    match function {
        0 => print_named(b"atan", angles::atan(x)),
        1 => print_named(b"tan", angles::tan(x)),
        2 => print_named(b"angle_from_bulge", angles::angle_from_bulge(x)),
        3 => print_named(b"bulge_from_angle", angles::bulge_from_angle(x)),
        4 => print_named(b"normalize_radians", angles::normalize_radians(x)),
        _ => print_named(b"angle", angles::angle(vector(row, 1), vector(row, 3))),
    }
}

fn intersection_row(function: u64, row: &[u8; 128]) {
    match function {
        6 => point_from_parametric(row),
        7 => parametric_from_point(row),
        8 => print_named(
            b"dist_squared",
            intersections::dist_squared(vector(row, 1), vector(row, 3)),
        ),
        9 => line_line_intr(row),
        10 => line_circle_intr(row),
        _ => circle_circle_intr(row),
    }
}

fn print_together(name: &[u8], angles: &[f64]) {
    print(name);
    for angle in angles {
        print_number(*angle);
    }
}

// Directions and sweeps that are worked out side by side.
fn together_row(function: u64, row: &[u8; 128]) {
    let a = vector(row, 1);
    let b = vector(row, 3);
    let c = vector(row, 5);
    let d = vector(row, 7);
    match function {
        12 => print_named(b"direction_of", angles::direction_of(a.x, a.y)),
        13 => print_together(b"two_directions", &angles::directions([a, b])),
        14 => print_together(b"three_directions", &angles::directions([a, b, c])),
        15 => print_together(b"four_directions", &angles::directions([a, b, c, d])),
        16 => print_together(b"two_sweeps", &angles::sweeps([a.x, a.y])),
        _ => print_together(b"four_sweeps", &angles::sweeps([a.x, a.y, b.x, b.y])),
    }
}

// Answers one row, or says that there is none.
fn answer() -> bool {
    let mut row = [0u8; 128];
    if io::read_full(0, &mut row) < 128 {
        return false;
    }
    let function = word(&row, 0);
    if function < 6 {
        angle_row(function, &row);
    } else if function < 12 {
        intersection_row(function, &row);
    } else {
        together_row(function, &row);
    }
    print(b"\n");
    true
}

fn main() {
    for _ in 0..4096usize {
        if !answer() {
            return;
        }
    }
}
