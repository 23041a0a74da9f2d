// The public functions of `segments`, `meetings` and `joins` on stored rows that reach each branch.
// A row is twenty-four words of eight bytes, highest byte first: the number of a function, then the
// bits of its arguments. The stored output comes from 01's arithmetic in Rust (`oracle`, `samples`).
#![tactic(auto)]

ghost use Rattle.std.specs.Prelude.{◌<◌};

use joins::{JoinBoundary, JoinClass, JoinTurn};
use meetings::{ArcParam, ArcRule, Meeting, Miss, SeenArc, SeenMet};
use segments::{CarriedSeg, PlineVertex, RawOffsetArc, RawOffsetLine, RawOffsetSeg, Settings};
use words::{number, print, print_bool, print_number, print_vector, vector, word};

fn vertex(row: &[u8; 192], k: usize) -> PlineVertex
    requires { k < 22 }
{
    PlineVertex {
        x: number(row, k),
        y: number(row, k + 1),
        bulge: number(row, k + 2),
    }
}

// A vertex with no bulge: it ends a segment.
fn end_vertex(row: &[u8; 192], k: usize) -> PlineVertex
    requires { k < 23 }
{
    PlineVertex::from_vector2(vector(row, k), 0.0)
}

fn line(row: &[u8; 192], k: usize) -> RawOffsetLine
    requires { k < 21 }
{
    RawOffsetLine {
        start: vector(row, k),
        end: vector(row, k + 2),
    }
}

// An arc whose start angle counts only if it is known.
fn seen_arc(row: &[u8; 192], k: usize, known: bool) -> SeenArc
    requires { k < 16 }
{
    SeenArc {
        start: vector(row, k),
        end: vector(row, k + 2),
        center: vector(row, k + 4),
        radius: number(row, k + 6),
        sweep: number(row, k + 8),
        seen: seen_angle(known, number(row, k + 7)),
    }
}

fn seen_angle(known: bool, angle: f64) -> f64 {
    if known {
        return angle;
    }
    meetings::not_seen()
}

fn arc(row: &[u8; 192], k: usize) -> SeenArc
    requires { k < 16 }
{
    seen_arc(row, k, true)
}

fn settings(row: &[u8; 192], k: usize) -> Settings
    requires { k < 23 }
{
    Settings::round(number(row, k), number(row, k + 1))
}

// A word that is 1.0 or 0.0.
fn holds(row: &[u8; 192], k: usize) -> bool
    requires { k < 24 }
{
    number(row, k) > 0.0
}

fn seg_arc_radius_and_center(row: &[u8; 192]) {
    let support = segments::seg_arc_radius_and_center(vertex(row, 1), end_vertex(row, 4));
    print(b"seg_arc_radius_and_center");
    print_number(support.radius);
    print_vector(support.center);
}

fn offset_segment(row: &[u8; 192]) {
    let seg = segments::create_untrimmed_raw_offset_seg(
        vertex(row, 1),
        end_vertex(row, 4),
        number(row, 6),
    );
    print(b"offset_segment");
    match seg {
        RawOffsetSeg::Line(line) => {
            print(b" line");
            print_vector(line.start);
            print_vector(line.end);
        }
        RawOffsetSeg::Arc(arc) => {
            print(b" arc");
            print_arc(arc);
        }
        RawOffsetSeg::Collapsed(arc) => {
            print(b" collapsed");
            print_vector(arc.start);
            print_vector(arc.end);
            print_vector(arc.start_tangent);
            print_vector(arc.end_tangent);
        }
    }
}

fn print_arc(arc: RawOffsetArc) {
    print_vector(arc.start);
    print_vector(arc.end);
    print_vector(arc.center);
    print_number(arc.radius);
    print_number(arc.start_angle);
    print_number(arc.sweep);
}

fn tangents(row: &[u8; 192]) {
    let seg = CarriedSeg::anew(vertex(row, 1), end_vertex(row, 4), number(row, 6));
    print(b"tangents");
    print_vector(seg.start_tangent());
    print_vector(seg.end_tangent());
}

fn span(row: &[u8; 192]) {
    let seg = CarriedSeg::anew(vertex(row, 1), end_vertex(row, 4), number(row, 6));
    let from = number(row, 7);
    let to = number(row, 8);
    print(b"span");
    print_bool(seg.span_is_invalid(from, to));
    print_number(seg.span_bulge(from, to));
}

fn print_param(param: Option<f64>) {
    match param {
        Some(t) => print_number(t),
        None => print(b" missed"),
    }
}

fn usable_line_param(row: &[u8; 192]) {
    let start = vector(row, 2);
    let end = vector(row, 4);
    let length_squared = (end - start).length_squared();
    print(b"usable_line_param");
    print_param(meetings::usable_line_param(number(row, 1), length_squared, number(row, 6)));
}

fn usable_arc_param(row: &[u8; 192]) {
    print(b"usable_arc_param");
    print_arc_param(row, arc(row, 1));
}

fn print_arc_param(row: &[u8; 192], arc: SeenArc) {
    let way = meetings::usable_arc_param(arc, vector(row, 10), number(row, 12));
    print_way(way);
    print_param(way.param());
}

fn print_way(way: ArcParam) {
    match way {
        ArcParam::StartMatched => print(b" start"),
        ArcParam::EndMatched => print(b" end"),
        ArcParam::Inside(_) => print(b" inside"),
        ArcParam::PastEnd => print(b" past"),
        ArcParam::OffArc => print(b" off"),
    }
}

fn squared_distances_equal(row: &[u8; 192]) {
    print(b"squared_distances_equal");
    print_bool(meetings::squared_distances_equal(number(row, 1), number(row, 2), number(row, 3)));
}

fn print_rule(rule: Option<ArcRule>) {
    match rule {
        None => print(b" none"),
        Some(ArcRule::StartMatched) => print(b" start"),
        Some(ArcRule::EndMatched) => print(b" end"),
        Some(ArcRule::Inside) => print(b" inside"),
        Some(ArcRule::PastEnd) => print(b" past"),
    }
}

fn print_rules(current: Option<ArcRule>, next: Option<ArcRule>) {
    print_rule(current);
    print_rule(next);
}

fn print_met(met: Result<Meeting, Miss>) {
    match met {
        Ok(meeting) => {
            print(b" at");
            print_vector(meeting.point);
            print_number(meeting.current_param);
            print_number(meeting.next_param);
            print_rules(meeting.current_rule, meeting.next_rule);
        }
        Err(Miss::NoMeeting) => print(b" none"),
        Err(Miss::CandidatesMissed) => print(b" missed"),
    }
}

// The words of a shared vertex stand there, and are not asked for.
fn line_line_meeting(row: &[u8; 192]) {
    print(b"line_line_meeting");
    print_met(meetings::line_line_meeting(line(row, 1), line(row, 5), number(row, 11)));
}

fn line_arc_meeting(row: &[u8; 192]) {
    print(b"line_arc_meeting");
    let shown = line_arc(row, arc(row, 5));
    let met = shown.met;
    print_met(met);
}

fn line_arc(row: &[u8; 192], arc: SeenArc) -> SeenMet {
    meetings::line_arc_meeting(line(row, 1), arc, vector(row, 14), number(row, 16))
}

fn arc_line_meeting(row: &[u8; 192]) {
    print(b"arc_line_meeting");
    print_met(arc_line(row, arc(row, 1)));
}

fn arc_line(row: &[u8; 192], arc: SeenArc) -> Result<Meeting, Miss> {
    meetings::arc_line_meeting(arc, line(row, 10), vector(row, 14), number(row, 16))
}

fn arc_arc_meeting(row: &[u8; 192]) {
    print(b"arc_arc_meeting");
    let shown = arc_arc(row, arc(row, 1), arc(row, 10));
    let met = shown.met;
    print_met(met);
}

fn arc_arc(row: &[u8; 192], current: SeenArc, next: SeenArc) -> SeenMet {
    meetings::arc_arc_meeting(current, next, vector(row, 19), number(row, 21))
}

// The same, where a word for each arc says whether its start angle is known. Then the start angle
// that is handed back is printed too.
fn seen_arc_param(row: &[u8; 192]) {
    print(b"seen_arc_param");
    print_arc_param(row, seen_arc(row, 1, holds(row, 13)));
}

fn seen_line_arc(row: &[u8; 192]) {
    print(b"seen_line_arc");
    print_shown(line_arc(row, seen_arc(row, 5, holds(row, 17))));
}

fn seen_arc_line(row: &[u8; 192]) {
    print(b"seen_arc_line");
    print_met(arc_line(row, seen_arc(row, 1, holds(row, 17))));
}

fn seen_arc_arc(row: &[u8; 192]) {
    print(b"seen_arc_arc");
    let current = seen_arc(row, 1, holds(row, 22));
    let next = seen_arc(row, 10, holds(row, 23));
    print_shown(arc_arc(row, current, next));
}

fn print_shown(shown: SeenMet) {
    let met = shown.met;
    print_met(met);
    print_seen(shown.seen);
}

fn print_seen(seen: f64) {
    if seen == seen {
        print(b" seen");
        print_number(seen);
    } else {
        print(b" unseen");
    }
}

fn round(row: &[u8; 192]) {
    print(b"round");
    print_number(joins::connector_bulge(
        number(row, 7),
        vector(row, 1),
        vector(row, 3),
        vector(row, 5),
    ));
}

fn print_turn(turn: JoinTurn) {
    match turn {
        JoinTurn::Coincident => print(b" coincident"),
        JoinTurn::ZeroTangent => print(b" zero_tangent"),
        JoinTurn::SameDirection => print(b" same_direction"),
        JoinTurn::Reversal => print(b" reversal"),
        JoinTurn::Outer => print(b" outer"),
        JoinTurn::Inner => print(b" inner"),
    }
}

fn print_class(class: JoinClass) {
    match class {
        JoinClass::Coincident => print(b" Coincident"),
        JoinClass::Trimmed => print(b" Trimmed"),
        JoinClass::OuterRound => print(b" OuterRound"),
        JoinClass::ReversalRound => print(b" ReversalRound"),
        JoinClass::InvalidInnerGap => print(b" InvalidInnerGap"),
        JoinClass::InvalidDegenerateGap => print(b" InvalidDegenerateGap"),
    }
}

fn print_boundary(boundary: JoinBoundary) {
    let cause = boundary.cause;
    print_class(cause.class());
    print_vector(boundary.current_end);
    print_number(boundary.current_param);
    print_vector(boundary.next_start);
    print_number(boundary.next_param);
    print_number(boundary.connector_bulge);
    print_bool(boundary.connector_is_invalid());
    print_rules(boundary.current_rule, boundary.next_rule);
}

// Three vertices: the segments between them are joined at the second.
fn join(row: &[u8; 192]) {
    let shared = vertex(row, 4);
    let settings = settings(row, 9);
    let current = CarriedSeg::anew(vertex(row, 1), shared, settings.offset);
    let next = CarriedSeg::anew(shared, end_vertex(row, 7), settings.offset);
    let turn = joins::classify_join(current, next, settings);
    let unseen = meetings::not_seen();
    let joined = joins::analyze_join(current, unseen, next, shared.pos(), settings);
    print(b"join");
    print_turn(turn);
    let boundary = joined.boundary;
    print_boundary(boundary);
}

// The same join, where the current segment's start angle may be known. The next one's is printed.
fn seen_join(row: &[u8; 192]) {
    let shared = vertex(row, 4);
    let settings = settings(row, 9);
    let current = CarriedSeg::anew(vertex(row, 1), shared, settings.offset);
    let next = CarriedSeg::anew(shared, end_vertex(row, 7), settings.offset);
    let seen = seen_angle(holds(row, 11), number(row, 12));
    let joined = joins::analyze_join(current, seen, next, shared.pos(), settings);
    print(b"seen_join");
    let boundary = joined.boundary;
    print_boundary(boundary);
    print_seen(joined.seen);
}

fn segment_row(function: u64, row: &[u8; 192]) {
    match function {
        0 => seg_arc_radius_and_center(row),
        1 => offset_segment(row),
        2 => tangents(row),
        _ => span(row),
    }
}

fn join_row(function: u64, row: &[u8; 192]) {
    match function {
        4 => usable_line_param(row),
        5 => usable_arc_param(row),
        6 => squared_distances_equal(row),
        7 => line_line_meeting(row),
        8 => line_arc_meeting(row),
        9 => arc_line_meeting(row),
        10 => arc_arc_meeting(row),
        11 => round(row),
        _ => join(row),
    }
}

fn seen_row(function: u64, row: &[u8; 192]) {
    match function {
        13 => seen_arc_param(row),
        14 => seen_line_arc(row),
        15 => seen_arc_line(row),
        16 => seen_arc_arc(row),
        _ => seen_join(row),
    }
}

// Answers one row, or says that there is none.
fn answer() -> bool {
    let mut row = [0u8; 192];
    if io::read_full(0, &mut row) < 192 {
        return false;
    }
    let function = word(&row, 0);
    if function < 4 {
        segment_row(function, &row);
    } else if function < 13 {
        join_row(function, &row);
    } else {
        seen_row(function, &row);
    }
    print(b"\n");
    true
}

fn main() {
    for _ in 0..4096usize {
        if !answer() {
            return;
        }
    }
}
