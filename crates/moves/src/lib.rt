// The moves of a walk, and what the pen draws of them, by value.
#![tactic(auto)]

ghost use Rattle.std.specs.Prelude.{◌≡◌, ◌+◌, ◌^◌, ◌<◌};
ghost use Rattle.floats.specs.Binary64.{zero};
ghost use Rattle.floats.specs.Choice.{when◌give◌else◌, ◌and◌};
ghost use Rattle.segments.specs.InnerSteps.{full_seg};
ghost use Rattle.moves.specs.Reason.{reason_number, span_reason, connector_reason, is_invalid};
ghost use Rattle.moves.specs.Made.{segment_of, is_connector, span_move, connector_move};
ghost use Rattle.moves.specs.Origins.{code_of, origin_of};
ghost use Rattle.moves.specs.Drawing.{finite_vertex, empty_result};
ghost use Rattle.moves.specs.InnerSteps.{pen_at, pen_after, step_of, with_bulge, tip_before, doubt_of};

use joins::{JoinBoundary, JoinCause};
use segments::{CarriedSeg, OutputSegment, PlineVertex, SourceSegment};
use vectors::Vector2;

// The source segment that a move belongs to: as its span, or as the connector after it.
#[derive(Clone, Copy)]
pub enum Origin {
    Span(SourceSegment),
    Connector(SourceSegment),
}

impl Origin {
    pub fn source(self) -> SourceSegment
        ensures { result.0 ≡ segment_of self }
    {
        match self {
            Origin::Span(source) => source,
            Origin::Connector(source) => source,
        }
    }

    pub fn is_connector(self) -> bool
        ensures { result ≡ is_connector self }
    {
        match self {
            Origin::Span(_) => false,
            Origin::Connector(_) => true,
        }
    }

    // Its number in a lent buffer (2026-09).
    pub fn code(self) -> u32
        requires { segment_of self < 0x8000_0000 }
        ensures { result ≡ code_of self }
    {
        match self {
            Origin::Span(source) => 2 * source.0,
            Origin::Connector(source) => 2 * source.0 + 1,
        }
    }
}

// The origin that a number in a lent buffer stands for.
impl From<u32> for Origin {
    ghost from_gives = { λ code origin. origin ≡ origin_of code };

    fn from(code: u32) -> Origin {
        let source = SourceSegment(code / 2);
        if code % 2 == 0 {
            return Origin::Span(source);
        }
        Origin::Connector(source)
    }
}

// Why a move's flag is set or clear, by 02's numbers (2026-01). A walk makes no copy: that is of an offset of zero.
#[derive(Clone, Copy)]
pub enum Reason {
    InOrder = 1,
    TurnedBack = 2,
    CollapsedArc = 3,
    Round = 4,
    Reversal = 5,
    Meeting = 6,
    CollapsedSide = 7,
    NoMeeting = 8,
    CandidatesMissed = 9,
    ZeroTangent = 10,
    SameDirection = 11,
    Copied = 12,
    Pointed = 13,
}

impl Reason {
    pub fn number(self) -> u32
        ensures { result ≡ reason_number self }
    {
        self as u32
    }

    pub fn is_invalid(self) -> bool
        ensures { result ≡ is_invalid self }
    {
        matches!(
            self,
            Reason::TurnedBack
                | Reason::CollapsedArc
                | Reason::CollapsedSide
                | Reason::NoMeeting
                | Reason::CandidatesMissed
                | Reason::ZeroTangent
                | Reason::SameDirection
        )
    }

    // Of a segment's span between two parameters.
    fn of_span(segment: CarriedSeg, start_param: f64, end_param: f64) -> Reason
        ensures { result ≡ span_reason (full_seg segment) start_param end_param }
    {
        if segment.is_collapsed() {
            return Reason::CollapsedArc;
        }
        if end_param <= start_param {
            return Reason::TurnedBack;
        }
        Reason::InOrder
    }

    // Of the connector of a join.
    fn of_connector(cause: JoinCause) -> Reason
        ensures { result ≡ connector_reason cause }
    {
        match cause {
            JoinCause::Coincident => Reason::Meeting,
            JoinCause::Met => Reason::Meeting,
            JoinCause::OuterTurn => Reason::Round,
            JoinCause::OuterPoint => Reason::Pointed,
            JoinCause::Reversal => Reason::Reversal,
            JoinCause::CollapsedSide => Reason::CollapsedSide,
            JoinCause::NoMeeting => Reason::NoMeeting,
            JoinCause::CandidatesMissed => Reason::CandidatesMissed,
            JoinCause::ZeroTangent => Reason::ZeroTangent,
            JoinCause::SameDirection => Reason::SameDirection,
        }
    }
}

// A move of the walk: where it ends, its bulge, why it is valid or not, and whose it is.
#[derive(Clone, Copy)]
pub struct Move {
    pub end: Vector2,
    pub bulge: f64,
    pub reason: Reason,
    pub origin: Origin,
}

impl Move {
    // A segment's span between two parameters, straight as yet: a bulge takes longer than all else, and
    // may be made later.
    #[tactic(auto, unfolding(crate::specs::Made::span_move))]
    pub fn straight_span(
        source: SourceSegment,
        segment: CarriedSeg,
        start_param: f64,
        end: Vector2,
        end_param: f64,
    ) -> Move
        ensures { result ≡ with_bulge zero (span_move source.0 (full_seg segment) start_param end end_param) }
    {
        Move {
            end,
            bulge: 0.0,
            reason: Reason::of_span(segment, start_param, end_param),
            origin: Origin::Span(source),
        }
    }

    // The connector of the join after a segment.
    pub fn connector(source: SourceSegment, boundary: JoinBoundary) -> Move
        ensures { result ≡ connector_move source.0 boundary }
    {
        Move {
            end: boundary.next_start,
            bulge: boundary.connector_bulge,
            reason: Reason::of_connector(boundary.cause),
            origin: Origin::Connector(source),
        }
    }

    // Before this connector, where its join has a tip: straight, to that tip.
    pub fn to_tip(self, tip: Vector2) -> Move
        ensures { result ≡ tip_before self tip }
    {
        Move {
            end: tip,
            bulge: 0.0,
            ..self
        }
    }

    // The same move, with its bulge.
    pub fn bulging(self, bulge: f64) -> Move
        ensures { result ≡ with_bulge bulge self }
    {
        Move { bulge, ..self }
    }
}

// The last kept point, and the number of the next output segment.
#[derive(Clone, Copy)]
pub struct Pen {
    pub last: Vector2,
    pub number: OutputSegment,
}

// What is drawn of a kept move: the vertex that it leaves, with its bulge.
#[derive(Clone, Copy)]
pub struct Stroke {
    pub vertex: PlineVertex,
    pub reason: Reason,
    pub origin: Origin,
    pub number: OutputSegment,
}

// What becomes of a move: its stroke, if it is kept, and the pen then.
#[derive(Clone, Copy)]
pub struct Stepped {
    pub kept: bool,
    pub stroke: Stroke,
    pub pen: Pen,
}

impl Pen {
    // At the first vertex.
    pub fn add_first(point: Vector2) -> Pen
        ensures { result ≡ pen_at point }
    {
        Pen {
            last: point,
            number: OutputSegment(0),
        }
    }

    fn after(self, m: Move, dropped: bool) -> Pen
        requires { self.number.0 + 1 < 2 ^ 32 }
        ensures { result ≡ when dropped give self else pen_after self m }
    {
        if dropped {
            return self;
        }
        Pen {
            last: m.end,
            number: OutputSegment(self.number.0 + 1),
        }
    }

    // The decision on one move, before anything is counted: it is dropped where it ends within eps of
    // the last kept point.
    pub fn step(self, m: Move, eps: f64) -> Stepped
        requires { self.number.0 + 1 < 2 ^ 32 }
        ensures { result ≡ step_of self m eps }
    {
        let dropped = self.last.fuzzy_eq_eps(m.end, eps);
        let pen = self.after(m, dropped);
        let stroke = Stroke {
            vertex: PlineVertex::from_vector2(self.last, m.bulge),
            reason: m.reason,
            origin: m.origin,
            number: self.number,
        };
        Stepped {
            kept: !dropped,
            stroke,
            pen,
        }
    }
}

// With no second test: both are worked out already.
pub fn both(a: bool, b: bool) -> bool
    ensures { result ≡ (a and b) }
{
    a & b
}

// +0 where the three numbers are finite, and else a NaN: a difference of a number and itself is that.
pub fn doubt(v: PlineVertex) -> f64
    ensures { result ≡ doubt_of (finite_vertex v) }
{
    (v.x - v.x) + (v.y - v.y) + (v.bulge - v.bulge)
}

// How many vertices and indexes there are, and whether the answer is closed.
#[derive(Clone, Copy)]
pub struct RawOffsetResult {
    pub vertices: u32,
    pub indexes: u32,
    pub closed: bool,
}

impl RawOffsetResult {
    // Empty and open.
    pub fn empty() -> RawOffsetResult
        ensures { result ≡ empty_result }
    {
        RawOffsetResult {
            vertices: 0,
            indexes: 0,
            closed: false,
        }
    }
}
