// The join of two neighbouring offset segments.
#![tactic(auto)]

ghost use Rattle.std.specs.Prelude.{◌≡◌};
ghost use Rattle.std.specs.Float.Ieee.{le};
ghost use Rattle.floats.specs.Choice.{when◌give◌else◌, ◌or◌};
ghost use Rattle.segments.specs.declared.RawOffsetSeg.TheVariants.{Line, Arc};
ghost use Rattle.joins.specs.declared.JoinCause.TheVariants.{CollapsedSide};
ghost use Rattle.joins.specs.Boundary.{connected, straight};
ghost use Rattle.joins.specs.Rules.{ruled_boundary, ruled_join, forgotten};
ghost use Rattle.joins.specs.InnerSteps.{class_of, is_gap};
ghost use Rattle.joins.specs.Connector.{clamp_cos, clamp_sin, bulge_size, connector_bulge_of};
ghost use Rattle.joins.specs.Join.{tangent_turn, turn_of, inner_join};
ghost use Rattle.joins.specs.Corner.{is_outer_turn, is_pointed, within_ratio, pointed_at, pointed_if, corner_by, corner_of, cornered};
ghost use Rattle.joins.specs.InnerSteps.{last_turn, settled_by, cut_at, cut_by, joined, seen_arc, seen_seg, Joins};
ghost use Rattle.segments.specs.Modes.{are_pointed};
ghost use Rattle.segments.specs.InnerSteps.{full_seg, Marked};
ghost use Rattle.meetings.specs.InnerSteps.{not_seen, angled};

use meetings::{ArcRule, Meeting, Miss, SeenArc};
use segments::{CarriedArc, CarriedSeg, Corners, RawOffsetLine, Settings};
use vectors::Vector2;

#[derive(Clone, Copy)]
pub enum JoinClass {
    Coincident,
    Trimmed,
    OuterRound,
    ReversalRound,
    InvalidInnerGap,
    InvalidDegenerateGap,
}

// How a join turns, in the order of the tests.
#[derive(Clone, Copy)]
pub enum JoinTurn {
    Coincident,
    ZeroTangent,
    SameDirection,
    Reversal,
    Outer,
    Inner,
}

// Why a boundary is what it is: its class, and whether its connector is invalid, are read off.
#[derive(Clone, Copy)]
pub enum JoinCause {
    Coincident,
    Met,
    OuterTurn,
    OuterPoint,
    Reversal,
    CollapsedSide,
    NoMeeting,
    CandidatesMissed,
    ZeroTangent,
    SameDirection,
}

impl JoinCause {
    pub fn class(self) -> JoinClass
        ensures { result ≡ class_of self }
    {
        match self {
            JoinCause::Coincident => JoinClass::Coincident,
            JoinCause::Met => JoinClass::Trimmed,
            JoinCause::OuterTurn | JoinCause::OuterPoint => JoinClass::OuterRound,
            JoinCause::Reversal => JoinClass::ReversalRound,
            JoinCause::CollapsedSide | JoinCause::NoMeeting | JoinCause::CandidatesMissed => {
                JoinClass::InvalidInnerGap
            }
            JoinCause::ZeroTangent | JoinCause::SameDirection => JoinClass::InvalidDegenerateGap,
        }
    }

    // An outer corner, round as yet.
    fn is_outer_turn(self) -> bool
        ensures { result ≡ is_outer_turn self }
    {
        matches!(self, JoinCause::OuterTurn)
    }

    // An outer corner with a tip.
    pub fn is_pointed(self) -> bool
        ensures { result ≡ is_pointed self }
    {
        matches!(self, JoinCause::OuterPoint)
    }
}

// Where two spans end and start, and why. Where they met, the rule by which each let the point in, if it
// is an arc. Its tip, if it has one, and else where the next span starts.
#[derive(Clone, Copy)]
pub struct JoinBoundary {
    pub cause: JoinCause,
    pub current_rule: Option<ArcRule>,
    pub next_rule: Option<ArcRule>,
    pub current_end: Vector2,
    pub current_param: f64,
    pub next_start: Vector2,
    pub next_param: f64,
    pub connector_bulge: f64,
    pub tip: Vector2,
}

impl JoinBoundary {
    // Both spans whole, and a connector of the given bulge.
    pub fn connected(
        cause: JoinCause,
        current_end: Vector2,
        next_start: Vector2,
        connector_bulge: f64,
    ) -> JoinBoundary
        ensures { result ≡ connected cause current_end next_start connector_bulge }
    {
        JoinBoundary {
            cause,
            current_rule: None,
            next_rule: None,
            current_end,
            current_param: 1.0,
            next_start,
            next_param: 0.0,
            connector_bulge,
            tip: next_start,
        }
    }

    // Both spans whole, and a straight connector.
    pub fn straight(cause: JoinCause, current_end: Vector2, next_start: Vector2) -> JoinBoundary
        ensures { result ≡ straight cause current_end next_start }
    {
        JoinBoundary::connected(cause, current_end, next_start, 0.0)
    }

    // Both spans cut where they meet.
    pub fn trimmed(meeting: Meeting) -> JoinBoundary
        ensures { result ≡ cut_at meeting }
    {
        JoinBoundary {
            cause: JoinCause::Met,
            current_rule: meeting.current_rule,
            next_rule: meeting.next_rule,
            current_end: meeting.point,
            current_param: meeting.current_param,
            next_start: meeting.point,
            next_param: meeting.next_param,
            connector_bulge: 0.0,
            tip: meeting.point,
        }
    }

    // As 000 has it: the walk goes on with that, and need not carry the rules along.
    pub fn without_rules(self) -> JoinBoundary
        ensures { result ≡ forgotten self }
    {
        JoinBoundary {
            current_rule: None,
            next_rule: None,
            ..self
        }
    }

    // By a tip, with straight connectors.
    fn pointed(self, tip: Vector2) -> JoinBoundary
        ensures { result ≡ pointed_at tip self }
    {
        JoinBoundary {
            cause: JoinCause::OuterPoint,
            current_rule: None,
            next_rule: None,
            connector_bulge: 0.0,
            tip,
            ..self
        }
    }

    pub fn connector_is_invalid(self) -> bool
        ensures { result ≡ is_gap (class_of self.cause) }
    {
        matches!(
            self.cause,
            JoinCause::CollapsedSide
                | JoinCause::NoMeeting
                | JoinCause::CandidatesMissed
                | JoinCause::ZeroTangent
                | JoinCause::SameDirection
        )
    }
}

fn clamp_cos(cos: f64) -> f64
    ensures { result ≡ clamp_cos cos }
{
    if cos < -1.0 {
        return -1.0;
    }
    if cos > 1.0 {
        return 1.0;
    }
    cos
}

fn clamp_sin(sin: f64) -> f64
    ensures { result ≡ clamp_sin sin }
{
    if sin > 1.0 {
        return 1.0;
    }
    sin
}

// tan(sweep / 4). The one form loses no digits as the sweep nears zero, the other as it nears a
// half circle.
fn bulge_size(cos: f64, sin: f64) -> f64
    ensures { result ≡ bulge_size cos sin }
{
    if cos >= 0.0 {
        return sin / (1.0 + cos + floats::sqrt(2.0 * (1.0 + cos)));
    }
    (1.0 - cos) / (sin + floats::sqrt(2.0 * (1.0 - cos)))
}

// Of an arc about the shared source vertex. It is called for two classes, and so stays a call that
// hands back one number.
pub fn connector_bulge(
    offset: f64,
    current_end: Vector2,
    next_start: Vector2,
    shared_source_vertex: Vector2,
) -> f64
    ensures { result ≡ connector_bulge_of offset current_end next_start shared_source_vertex }
{
    let to_end = current_end - shared_source_vertex;
    let to_start = next_start - shared_source_vertex;
    // both are about as long as the offset
    let lengths = floats::roots_near(
        to_end.length_squared(),
        to_start.length_squared(),
        floats::abs(offset),
    );
    let current_direction = to_end.normalize_by(lengths.first);
    let next_direction = to_start.normalize_by(lengths.second);
    let cos_sweep = clamp_cos(current_direction.dot(next_direction));
    let sin_sweep = clamp_sin(floats::abs(current_direction.perp_dot(next_direction)));
    let size = bulge_size(cos_sweep, sin_sweep);
    if offset >= 0.0 {
        return -size;
    }
    size
}

fn either_at_most(a: f64, b: f64, limit: f64) -> bool
    ensures { result ≡ (le a limit or le b limit) }
{
    a <= limit || b <= limit
}

fn last_turn(
    turn: f64,
    alignment: f64,
    incoming_len_sq: f64,
    outgoing_len_sq: f64,
    offset: f64,
) -> JoinTurn
    ensures { result ≡ last_turn turn alignment incoming_len_sq outgoing_len_sq offset }
{
    if turn * turn <= 1e-8 * 1e-8 * incoming_len_sq * outgoing_len_sq {
        if alignment < 0.0 {
            return JoinTurn::Reversal;
        }
        return JoinTurn::SameDirection;
    }
    if offset * turn > 0.0 {
        return JoinTurn::Inner;
    }
    JoinTurn::Outer
}

// By the tangents into and out of the shared vertex: a zero one has no direction.
fn tangent_turn(incoming: Vector2, outgoing: Vector2, settings: Settings) -> JoinTurn
    ensures { result ≡ tangent_turn incoming outgoing settings }
{
    let incoming_len_sq = incoming.length_squared();
    let outgoing_len_sq = outgoing.length_squared();
    let eps = settings.eps;
    if either_at_most(incoming_len_sq, outgoing_len_sq, eps * eps) {
        return JoinTurn::ZeroTangent;
    }
    let turn = incoming.perp_dot(outgoing);
    let alignment = incoming.dot(outgoing);
    last_turn(
        turn,
        alignment,
        incoming_len_sq,
        outgoing_len_sq,
        settings.offset,
    )
}

pub fn classify_join(current: CarriedSeg, next: CarriedSeg, settings: Settings) -> JoinTurn
    requires { Marked current × Marked next }
    ensures { result ≡ turn_of (full_seg current) (full_seg next) settings }
{
    if current.end().fuzzy_eq_eps(next.start(), settings.eps) {
        return JoinTurn::Coincident;
    }
    tangent_turn(current.end_tangent(), next.start_tangent(), settings)
}

// The boundary of each turn but an inner one, which needs an intersection. A coincident one starts the next span at the
// current segment's end.
pub fn join_without_intersection(
    current: CarriedSeg,
    next: CarriedSeg,
    shared_source_vertex: Vector2,
    settings: Settings,
) -> Option<JoinBoundary>
    requires { Marked current × Marked next }
    ensures { result ≡ settled_by (turn_of (full_seg current) (full_seg next) settings) (full_seg current) (full_seg next) shared_source_vertex settings }
{
    let end = current.end();
    let start = next.start();
    let turn = classify_join(current, next, settings);
    match turn {
        JoinTurn::Coincident => Some(JoinBoundary::straight(JoinCause::Coincident, end, end)),
        JoinTurn::ZeroTangent => Some(JoinBoundary::straight(JoinCause::ZeroTangent, end, start)),
        JoinTurn::SameDirection => Some(JoinBoundary::straight(
            JoinCause::SameDirection,
            end,
            start,
        )),
        JoinTurn::Reversal => Some(JoinBoundary::connected(
            JoinCause::Reversal,
            end,
            start,
            connector_bulge(settings.offset, end, start, shared_source_vertex),
        )),
        JoinTurn::Outer => Some(JoinBoundary::connected(
            JoinCause::OuterTurn,
            end,
            start,
            connector_bulge(settings.offset, end, start, shared_source_vertex),
        )),
        JoinTurn::Inner => None,
    }
}

fn trimmed_or_gap(
    met: Result<Meeting, Miss>,
    current_end: Vector2,
    next_start: Vector2,
) -> JoinBoundary
    ensures { result ≡ cut_by met current_end next_start }
{
    match met {
        Ok(meeting) => JoinBoundary::trimmed(meeting),
        Err(Miss::NoMeeting) => {
            JoinBoundary::straight(JoinCause::NoMeeting, current_end, next_start)
        }
        Err(Miss::CandidatesMissed) => {
            JoinBoundary::straight(JoinCause::CandidatesMissed, current_end, next_start)
        }
    }
}

// Nothing to meet on one side.
fn collapsed_side(current_end: Vector2, next_start: Vector2) -> JoinBoundary
    ensures { result ≡ straight CollapsedSide current_end next_start }
{
    JoinBoundary::straight(JoinCause::CollapsedSide, current_end, next_start)
}

// A boundary, and what is known of the next segment's start angle, if it is an arc.
#[derive(Clone, Copy)]
pub struct Joined {
    pub boundary: JoinBoundary,
    pub seen: f64,
}

// No start angle was asked for.
fn unseen(boundary: JoinBoundary) -> Joined
    ensures { result ≡ joined boundary not_seen }
{
    let seen = meetings::not_seen();
    Joined { boundary, seen }
}

fn seen_arc(arc: CarriedArc, seen: f64) -> SeenArc
    ensures { result ≡ seen_arc seen arc }
{
    SeenArc {
        start: arc.start,
        end: arc.end,
        center: arc.center,
        radius: arc.radius,
        sweep: arc.sweep,
        seen,
    }
}

fn join_from_line(
    current: RawOffsetLine,
    next: CarriedSeg,
    shared_source_vertex: Vector2,
    eps: f64,
) -> Joined
    ensures { Joins result (ruled_boundary (Line current) (full_seg next) eps (inner_join (Line current) (full_seg next) shared_source_vertex eps)) next }
{
    match next {
        CarriedSeg::Line(line) => unseen(trimmed_or_gap(
            meetings::line_line_meeting(current, line, eps),
            current.end,
            line.start,
        )),
        CarriedSeg::Arc(arc) => {
            let unknown = seen_arc(arc, meetings::not_seen());
            let shown = meetings::line_arc_meeting(current, unknown, shared_source_vertex, eps);
            Joined {
                boundary: trimmed_or_gap(shown.met, current.end, arc.start),
                seen: shown.seen,
            }
        }
        CarriedSeg::Collapsed(arc) => unseen(collapsed_side(current.end, arc.start)),
    }
}

fn join_from_arc(
    current: SeenArc,
    next: CarriedSeg,
    shared_source_vertex: Vector2,
    eps: f64,
) -> Joined
    ensures { Joins result (ruled_boundary (Arc (angled current)) (full_seg next) eps (inner_join (Arc (angled current)) (full_seg next) shared_source_vertex eps)) next }
{
    match next {
        CarriedSeg::Line(line) => unseen(trimmed_or_gap(
            meetings::arc_line_meeting(current, line, shared_source_vertex, eps),
            current.end,
            line.start,
        )),
        CarriedSeg::Arc(arc) => {
            let unknown = seen_arc(arc, meetings::not_seen());
            let shown = meetings::arc_arc_meeting(current, unknown, shared_source_vertex, eps);
            Joined {
                boundary: trimmed_or_gap(shown.met, current.end, arc.start),
                seen: shown.seen,
            }
        }
        CarriedSeg::Collapsed(arc) => unseen(collapsed_side(current.end, arc.start)),
    }
}

// The two are intersected; a collapsed one has no line or circle to meet.
fn inner_join(
    current: CarriedSeg,
    seen: f64,
    next: CarriedSeg,
    shared_source_vertex: Vector2,
    eps: f64,
) -> Joined
    ensures { Joins result (ruled_boundary (seen_seg seen current) (full_seg next) eps (inner_join (seen_seg seen current) (full_seg next) shared_source_vertex eps)) next }
{
    match current {
        CarriedSeg::Line(line) => join_from_line(line, next, shared_source_vertex, eps),
        CarriedSeg::Arc(arc) => join_from_arc(seen_arc(arc, seen), next, shared_source_vertex, eps),
        CarriedSeg::Collapsed(arc) => unseen(collapsed_side(arc.end, next.start())),
    }
}

// The boundary between two neighbouring offset segments. `seen` is what is known of the current one's
// start angle, if it is an arc.
pub fn analyze_join(
    current: CarriedSeg,
    seen: f64,
    next: CarriedSeg,
    shared_source_vertex: Vector2,
    settings: Settings,
) -> Joined
    requires { Marked current × Marked next }
    ensures { Joins result (ruled_join (seen_seg seen current) (full_seg next) shared_source_vertex settings) next }
{
    let settled = join_without_intersection(current, next, shared_source_vertex, settings);
    if let Some(boundary) = settled {
        return unseen(boundary);
    }
    inner_join(current, seen, next, shared_source_vertex, settings.eps)
}

// At most `ratio` times the offset's size from the shared vertex, by squares.
fn within_ratio(tip: Vector2, shared_source_vertex: Vector2, ratio: f64, offset: f64) -> bool
    ensures { result ≡ within_ratio ratio offset shared_source_vertex tip }
{
    let limit = ratio * offset;
    intersections::dist_squared(tip, shared_source_vertex) <= limit * limit
}

fn pointed_if_near(
    boundary: JoinBoundary,
    tip: Vector2,
    shared_source_vertex: Vector2,
    ratio: f64,
    offset: f64,
) -> JoinBoundary
    ensures { result ≡ pointed_if ratio offset shared_source_vertex tip boundary }
{
    if within_ratio(tip, shared_source_vertex, ratio, offset) {
        return boundary.pointed(tip);
    }
    boundary
}

// The tip is where the two lines, prolonged, meet, if they do; it may lie anywhere on them.
fn corner_of_lines(
    boundary: JoinBoundary,
    current: RawOffsetLine,
    next: RawOffsetLine,
    shared_source_vertex: Vector2,
    ratio: f64,
    settings: Settings,
) -> JoinBoundary
    ensures { result ≡ corner_of (Line current) (Line next) shared_source_vertex ratio settings boundary }
{
    let start = current.start;
    let end = current.end;
    let crossed = intersections::prolonged_intr(start, end, next.start, next.end, settings.eps);
    match crossed {
        None => boundary,
        Some(seg1_t) => pointed_if_near(
            boundary,
            intersections::point_from_parametric(start, end, seg1_t),
            shared_source_vertex,
            ratio,
            settings.offset,
        ),
    }
}

fn corner_from_line(
    boundary: JoinBoundary,
    current: RawOffsetLine,
    next: CarriedSeg,
    shared_source_vertex: Vector2,
    ratio: f64,
    settings: Settings,
) -> JoinBoundary
    ensures { result ≡ corner_of (Line current) (full_seg next) shared_source_vertex ratio settings boundary }
{
    if let CarriedSeg::Line(line) = next {
        return corner_of_lines(
            boundary,
            current,
            line,
            shared_source_vertex,
            ratio,
            settings,
        );
    }
    boundary
}

// In the pointed mode an outer corner of two lines gets a tip, where that is near enough.
fn pointed_corner(
    boundary: JoinBoundary,
    current: CarriedSeg,
    next: CarriedSeg,
    shared_source_vertex: Vector2,
    ratio: f64,
    settings: Settings,
) -> JoinBoundary
    ensures { result ≡ when is_outer_turn boundary.cause give corner_of (full_seg current) (full_seg next) shared_source_vertex ratio settings boundary else boundary }
{
    if !boundary.cause.is_outer_turn() {
        return boundary;
    }
    if let CarriedSeg::Line(line) = current {
        return corner_from_line(boundary, line, next, shared_source_vertex, ratio, settings);
    }
    boundary
}

// The boundary of a join in the mode that is asked for. The mode is told beside the settings too: a
// compiler follows a bool from call to call, and leaves the other mode out.
pub fn outer_corner(
    boundary: JoinBoundary,
    current: CarriedSeg,
    next: CarriedSeg,
    shared_source_vertex: Vector2,
    settings: Settings,
    pointed: bool,
) -> JoinBoundary
    requires { pointed ≡ are_pointed settings.corners }
    ensures { result ≡ cornered (full_seg current) (full_seg next) shared_source_vertex settings boundary }
{
    if !pointed {
        return boundary;
    }
    let corners = settings.corners;
    match corners {
        Corners::Round => boundary,
        Corners::Pointed { ratio } => pointed_corner(
            boundary,
            current,
            next,
            shared_source_vertex,
            ratio,
            settings,
        ),
    }
}
