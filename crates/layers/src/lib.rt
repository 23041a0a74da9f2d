// Inner functions under C names, for timing them and comparing them layer by layer. Not for callers.
#![tactic(auto)]

ghost use Rattle.std.specs.Prelude.{◌≡◌, [], ◌∷◌};
ghost use Rattle.floats.specs.Root.{sqrt_of};
ghost use Rattle.vectors.specs.declared.Vector2.{Vector2};
ghost use Rattle.angles.specs.Angle.{atan_of, tan_of, angle_of};
ghost use Rattle.intersections.specs.Lines.{line_line};
ghost use Rattle.intersections.specs.LineCircle.{line_circle};
ghost use Rattle.intersections.specs.Circles.{circle_circle};
ghost use Rattle.segments.specs.Modes.{round_by};
ghost use Rattle.segments.specs.InnerSteps.{full_seg, Marked};
ghost use Rattle.joins.specs.InnerSteps.{seen_seg};
ghost use Rattle.layers.specs.InnerSteps.{listed, line_line_listed, line_circle_listed, circle_circle_listed, cause_number, join_listed, join_of_four};

use intersections::{CircleCircleIntr, LineCircleIntr, LineLineIntr};
use joins::{JoinBoundary, JoinCause};
use segments::{CarriedSeg, PlineVertex, Settings};
use vectors::Vector2;

// floats::sqrt
#[unsafe(no_mangle)]
pub extern "C" fn layers_sqrt(x: f64) -> f64
    ensures { result ≡ sqrt_of x }
{
    floats::sqrt(x)
}

// floats::roots_near
#[unsafe(no_mangle)]
pub extern "C" fn layers_roots_near(x: f64, y: f64, g: f64, out: &mut [f64; 2])
    ensures { out.new ≡ sqrt_of x ∷ sqrt_of y ∷ [] }
{
    let roots = floats::roots_near(x, y, g);
    *out = [roots.first, roots.second];
}

// floats::sqrt_by
#[unsafe(no_mangle)]
pub extern "C" fn layers_sqrt_by(a: f64, g: f64) -> f64
    ensures { result ≡ sqrt_of a }
{
    floats::sqrt_by(a, g)
}

// floats::sqrt_by, by the first guess for a
#[unsafe(no_mangle)]
pub extern "C" fn layers_sqrt_guessed(a: f64) -> f64
    ensures { result ≡ sqrt_of a }
{
    let guesses = floats::guess(a);
    floats::sqrt_by(a, guesses.first)
}

// floats::guess: three guesses, of which nothing is promised
#[unsafe(no_mangle)]
pub extern "C" fn layers_guess(a: f64, out: &mut [f64; 3]) {
    let guesses = floats::guess(a);
    *out = [guesses.first, guesses.second, guesses.third];
}

// angles::atan
#[unsafe(no_mangle)]
pub extern "C" fn layers_atan(x: f64) -> f64
    ensures { result ≡ atan_of x }
{
    angles::atan(x)
}

// angles::tan
#[unsafe(no_mangle)]
pub extern "C" fn layers_tan(x: f64) -> f64
    ensures { result ≡ tan_of x }
{
    angles::tan(x)
}

fn vector(x: f64, y: f64) -> Vector2
    ensures { result ≡ record { x = x; y = y } }
{
    Vector2 { x, y }
}

// angles::angle, of (px, py) seen from (cx, cy)
#[unsafe(no_mangle)]
pub extern "C" fn layers_angle(cx: f64, cy: f64, px: f64, py: f64) -> f64
    ensures { result ≡ angle_of (record { x = cx; y = cy }) (record { x = px; y = py }) }
{
    angles::angle(vector(cx, cy), vector(px, py))
}

fn listed_line_line(i: LineLineIntr, out: &mut [f64; 4]) -> u32
    ensures { listed result out.new ≡ line_line_listed i }
{
    match i {
        LineLineIntr::NoIntersect => {
            *out = [0.0, 0.0, 0.0, 0.0];
            0
        }
        LineLineIntr::TrueIntersect { seg1_t, seg2_t } => {
            *out = [seg1_t, seg2_t, 0.0, 0.0];
            1
        }
        LineLineIntr::FalseIntersect { seg1_t, seg2_t } => {
            *out = [seg1_t, seg2_t, 0.0, 0.0];
            2
        }
        LineLineIntr::Overlapping => {
            *out = [0.0, 0.0, 0.0, 0.0];
            3
        }
    }
}

// intersections::line_line_intr
#[unsafe(no_mangle)]
pub extern "C" fn layers_line_line(
    ax: f64,
    ay: f64,
    bx: f64,
    by: f64,
    cx: f64,
    cy: f64,
    dx: f64,
    dy: f64,
    eps: f64,
    out: &mut [f64; 4],
) -> u32
    ensures { listed result out.new ≡ line_line_listed (line_line (record { x = ax; y = ay }) (record { x = bx; y = by }) (record { x = cx; y = cy }) (record { x = dx; y = dy }) eps) }
{
    let a = vector(ax, ay);
    let b = vector(bx, by);
    let c = vector(cx, cy);
    let d = vector(dx, dy);
    let i = intersections::line_line_intr(a, b, c, d, eps);
    listed_line_line(i, out)
}

fn listed_line_circle(i: LineCircleIntr, out: &mut [f64; 4]) -> u32
    ensures { listed result out.new ≡ line_circle_listed i }
{
    match i {
        LineCircleIntr::NoIntersect => {
            *out = [0.0, 0.0, 0.0, 0.0];
            0
        }
        LineCircleIntr::TangentIntersect { t0 } => {
            *out = [t0, 0.0, 0.0, 0.0];
            1
        }
        LineCircleIntr::TwoIntersects { t0, t1 } => {
            *out = [t0, t1, 0.0, 0.0];
            2
        }
    }
}

// intersections::line_circle_intr
#[unsafe(no_mangle)]
pub extern "C" fn layers_line_circle(
    ax: f64,
    ay: f64,
    bx: f64,
    by: f64,
    radius: f64,
    cx: f64,
    cy: f64,
    eps: f64,
    out: &mut [f64; 4],
) -> u32
    ensures { listed result out.new ≡ line_circle_listed (line_circle (record { x = ax; y = ay }) (record { x = bx; y = by }) radius (record { x = cx; y = cy }) eps) }
{
    let a = vector(ax, ay);
    let b = vector(bx, by);
    let c = vector(cx, cy);
    let i = intersections::line_circle_intr(a, b, radius, c, eps);
    listed_line_circle(i, out)
}

fn listed_circle_circle(i: CircleCircleIntr, out: &mut [f64; 4]) -> u32
    ensures { listed result out.new ≡ circle_circle_listed i }
{
    match i {
        CircleCircleIntr::NoIntersect => {
            *out = [0.0, 0.0, 0.0, 0.0];
            0
        }
        CircleCircleIntr::TangentIntersect { point } => {
            *out = [point.x, point.y, 0.0, 0.0];
            1
        }
        CircleCircleIntr::TwoIntersects { point1, point2 } => {
            *out = [point1.x, point1.y, point2.x, point2.y];
            2
        }
        CircleCircleIntr::Overlapping => {
            *out = [0.0, 0.0, 0.0, 0.0];
            3
        }
    }
}

// intersections::circle_circle_intr
#[unsafe(no_mangle)]
pub extern "C" fn layers_circle_circle(
    radius1: f64,
    ax: f64,
    ay: f64,
    radius2: f64,
    bx: f64,
    by: f64,
    eps: f64,
    out: &mut [f64; 4],
) -> u32
    ensures { listed result out.new ≡ circle_circle_listed (circle_circle radius1 (record { x = ax; y = ay }) radius2 (record { x = bx; y = by }) eps) }
{
    let a = vector(ax, ay);
    let b = vector(bx, by);
    let i = intersections::circle_circle_intr(radius1, a, radius2, b, eps);
    listed_circle_circle(i, out)
}

// What the join at b has seen of the segment after it.
fn seen_before(a: PlineVertex, b: PlineVertex, current: CarriedSeg, settings: Settings) -> f64
    requires { Marked current }
    ensures { seen_seg result current ≡ full_seg current }
{
    let before = CarriedSeg::anew(a, b, settings.offset);
    let joined = joins::analyze_join(before, meetings::not_seen(), current, b.pos(), settings);
    joined.seen
}

fn cause_number(cause: JoinCause) -> u32
    ensures { result ≡ cause_number cause }
{
    match cause {
        JoinCause::Coincident => 0,
        JoinCause::Met => 1,
        JoinCause::OuterTurn => 2,
        JoinCause::Reversal => 3,
        JoinCause::CollapsedSide => 4,
        JoinCause::NoMeeting => 5,
        JoinCause::CandidatesMissed => 6,
        JoinCause::ZeroTangent => 7,
        JoinCause::SameDirection => 8,
        JoinCause::OuterPoint => 9,
    }
}

fn listed_join(boundary: JoinBoundary, out: &mut [f64; 7]) -> u32
    ensures { listed result out.new ≡ join_listed boundary }
{
    let end = boundary.current_end;
    let start = boundary.next_start;
    *out = [
        end.x,
        end.y,
        boundary.current_param,
        start.x,
        start.y,
        boundary.next_param,
        boundary.connector_bulge,
    ];
    100 * cause_number(boundary.cause)
        + 10 * meetings::rule_number(boundary.current_rule)
        + meetings::rule_number(boundary.next_rule)
}

// joins::analyze_join at the third of four vertices, after the join at the second, as a walk comes to it
#[unsafe(no_mangle)]
pub extern "C" fn layers_join(source: &[f64; 12], offset: f64, eps: f64, out: &mut [f64; 7]) -> u32
    ensures { listed result out.new ≡ join_listed (join_of_four source.now (round_by offset eps)) }
{
    let settings = Settings::round(offset, eps);
    let b = source::vertex_at(source, 1);
    let c = source::vertex_at(source, 2);
    let current = CarriedSeg::anew(b, c, offset);
    let seen = seen_before(source::vertex_at(source, 0), b, current, settings);
    let next = CarriedSeg::anew(c, source::vertex_at(source, 3), offset);
    let joined = joins::analyze_join(current, seen, next, c.pos(), settings);
    let boundary = joined.boundary;
    listed_join(boundary, out)
}
