// An open job as its vertices are drawn, by value: what is held between two vertices, and the strokes that
// each vertex and the end make certain. The turns are the walk's own; the walk is taken up at each vertex,
// with its segment worked out anew from the two vertices that are held.
#![tactic(auto)]

ghost use Rattle.std.specs.Prelude.{◌≡◌, [], ◌+◌, ◌≤◌, ◌<◌, eqb, ltb};
ghost use Rattle.floats.specs.Choice.{◌and◌};
ghost use Rattle.segments.specs.Segment.{offset_seg, is_collapsed};
ghost use Rattle.refusals.specs.Table.{number};
ghost use Rattle.refusals.specs.Limits.{repeats};
ghost use Rattle.moves.specs.Drawing.{finite_vertex, all_finite};
ghost use Rattle.moves.specs.InnerSteps.{tip_first};
ghost use Rattle.sheet.specs.InnerSteps.{Coded};
ghost use Rattle.walk.specs.InnerSteps.{stood, Fit, drawn_by, strokes_by, pen_by};
ghost use Rattle.course.specs.Course.{no_course, held, entered, turned, step_on, last_piece, end_piece};
ghost use Rattle.course.specs.InnerSteps.{pen_in, entry_in, stood_in, vertices_by, copy_strokes, turn_strokes, step_strokes, strokes_in, Able, CodedAll, left_at, checked, early, ending_piece, just_ending};

use joins::{JoinBoundary, JoinCause};
use moves::{Move, Origin, Pen, Reason, Stepped, Stroke};
use refusals::{MOST_VERTICES, Refusal};
use segments::{CarriedSeg, OutputSegment, PlineVertex, Settings, SourceSegment};
use vectors::Vector2;
use walk::Walk;

// What is held: the last two vertices, the parameter where the span between them starts, the last kept
// point, how many vertices are taken, and the number of the next output segment.
#[repr(C)]
#[derive(Clone, Copy)]
pub struct Course {
    pub before: PlineVertex,
    pub last: PlineVertex,
    pub start_param: f64,
    pub point: Vector2,
    pub taken: u32,
    pub number: u32,
}

// What a vertex makes certain: up to three strokes, each of them drawn or not, and what is held then.
#[derive(Clone, Copy)]
pub struct Turning {
    pub course: Course,
    pub span: Stepped,
    pub tip: Stepped,
    pub connector: Stepped,
}

// What the end makes certain: the last span, drawn or not, and a last vertex, if there is one.
#[derive(Clone, Copy)]
pub struct Ending {
    pub span: Stepped,
    pub last: Option<PlineVertex>,
}

impl Course {
    // No vertex is taken.
    pub fn none() -> Course
        ensures { result ≡ no_course }
    {
        let vertex = PlineVertex {
            x: 0.0,
            y: 0.0,
            bulge: 0.0,
        };
        Course {
            before: vertex,
            last: vertex,
            start_param: 0.0,
            point: Vector2 { x: 0.0, y: 0.0 },
            taken: 0,
            number: 0,
        }
    }

    fn pen(self) -> Pen
        ensures { result ≡ pen_in self }
    {
        Pen {
            last: self.point,
            number: OutputSegment(self.number),
        }
    }

    // A walk that is led in asks its entry for a parameter alone.
    fn entry(self) -> JoinBoundary
        ensures { result ≡ entry_in self }
    {
        JoinBoundary {
            cause: JoinCause::Coincident,
            current_rule: None,
            next_rule: None,
            current_end: self.point,
            current_param: 0.0,
            next_start: self.point,
            next_param: self.start_param,
            connector_bulge: 0.0,
            tip: self.point,
        }
    }

    // The walk at the segment between the two vertices.
    fn walk(self, offset: f64) -> Walk
        requires { 2 ≤ self.taken }
        ensures { (stood result ≡ stood_in offset self) × Fit result }
    {
        Walk {
            source: SourceSegment(self.taken - 2),
            current: CarriedSeg::anew(self.before, self.last, offset),
            seen: meetings::not_seen(),
            vertex: self.last,
            entry: self.entry(),
            pen: self.pen(),
            leading: 0,
        }
    }

    fn held(self, c: PlineVertex) -> Course
        requires { self.taken < 4096 }
        ensures { result ≡ held self c }
    {
        Course {
            last: c,
            taken: self.taken + 1,
            ..self
        }
    }

    // The walk starts where its first segment does.
    fn entered(self, c: PlineVertex, settings: Settings) -> Course
        requires { self.taken < 4096 }
        ensures { result ≡ entered settings self c }
    {
        let segment = CarriedSeg::anew(self.last, c, settings.offset);
        Course {
            before: self.last,
            last: c,
            start_param: 0.0,
            point: segment.start(),
            taken: self.taken + 1,
            number: self.number,
        }
    }

    // No stroke.
    fn undrawn(self) -> Stepped
        ensures { (drawn_by 0 result ≡ []) × Coded result.stroke.origin }
    {
        let pen = self.pen();
        let stroke = Stroke {
            vertex: self.last,
            reason: Reason::Copied,
            origin: Origin::Span(SourceSegment(0)),
            number: pen.number,
        };
        Stepped {
            kept: false,
            stroke,
            pen,
        }
    }

    // The last vertex as it was given, which leaves its own span.
    fn copy(self) -> Stepped
        requires { self.taken < 4096 }
        ensures { (drawn_by 0 result ≡ copy_strokes self) × Coded result.stroke.origin }
    {
        if self.taken == 0 {
            return self.undrawn();
        }
        let stroke = Stroke {
            vertex: self.last,
            reason: Reason::Copied,
            origin: Origin::Span(SourceSegment(self.taken - 1)),
            number: OutputSegment(self.taken - 1),
        };
        Stepped {
            kept: true,
            stroke,
            pen: self.pen(),
        }
    }

    // What is held then, with at most one stroke.
    fn with(self, span: Stepped, course: Course) -> Turning
        requires { Coded span.stroke.origin }
        ensures { (strokes_in result ≡ drawn_by 0 span) × (result.course ≡ course) × CodedAll result }
    {
        let none = self.undrawn();
        Turning {
            course,
            span,
            tip: none,
            connector: none,
        }
    }

    // On to c: the span of the segment held, and the connectors after it.
    fn turned(self, c: PlineVertex, settings: Settings, pointed: bool) -> Turning
        requires { (2 ≤ self.taken) × Able self settings pointed }
        ensures { (strokes_in result ≡ turn_strokes settings self c) × (result.course ≡ (turned settings self c).course) × CodedAll result }
    {
        let eps = settings.eps;
        let walk = self.walk(settings.offset);
        let ahead = CarriedSeg::anew(self.last, c, settings.offset);
        let turned = walk.turn(c, ahead, settings, pointed);
        let bulge = segments::bulge_by(turned.curved, turned.sweep);
        let span = walk.pen.step(turned.span.bulging(bulge), eps);
        let tip = step_to_tip(span.pen, turned.connector, turned.join, eps);
        let connector = tip.pen.step(turned.connector, eps);
        let course = self.left_at(c, turned.walk.entry.next_param, connector.pen);
        Turning {
            course,
            span,
            tip,
            connector,
        }
    }

    // After c, with a span that starts at a parameter, and the pen.
    fn left_at(self, c: PlineVertex, start_param: f64, pen: Pen) -> Course
        requires { self.taken < 4096 }
        ensures { result ≡ left_at self c start_param pen }
    {
        Course {
            before: self.last,
            last: c,
            start_param,
            point: pen.last,
            taken: self.taken + 1,
            number: pen.number.0,
        }
    }

    // What vertex c makes certain.
    pub fn take(self, c: PlineVertex, settings: Settings, pointed: bool) -> Turning
        requires { Able self settings pointed }
        ensures { (strokes_in result ≡ step_strokes settings self c) × (result.course ≡ (step_on settings self c).course) × CodedAll result }
    {
        if settings.offset == 0.0 {
            return self.with(self.copy(), self.held(c));
        }
        if self.taken == 0 {
            return self.with(self.undrawn(), self.held(c));
        }
        if self.taken == 1 {
            return self.with(self.undrawn(), self.entered(c, settings));
        }
        self.turned(c, settings, pointed)
    }

    // Whether c is refused before its strokes are known.
    pub fn check(self, c: PlineVertex, offset: f64) -> Result<(), Refusal>
        ensures value { result ≡ checked offset self c }
        ensures told { number result ≡ early offset self c }
    {
        if MOST_VERTICES <= self.taken as usize {
            return Err(Refusal::TooMany);
        }
        if !refusals::good_vertex(c) {
            return Err(Refusal::BadNumber(self.taken));
        }
        if offset == 0.0 {
            return Ok(());
        }
        if self.is_repeated(c) {
            return Err(Refusal::Repeated(self.taken));
        }
        Ok(())
    }

    fn is_repeated(self, c: PlineVertex) -> bool
        ensures { result ≡ (ltb 0 self.taken and repeats self.last c) }
    {
        0 < self.taken && refusals::repeats(self.last, c)
    }

    // Where a lone arc has collapsed.
    fn is_lone_collapsed(self, offset: f64) -> bool
        ensures { result ≡ (eqb self.taken 2 and is_collapsed (offset_seg self.before self.last offset)) }
    {
        let segment = CarriedSeg::anew(self.before, self.last, offset);
        moves::both(self.taken == 2, segment.is_collapsed())
    }

    // No stroke, and a last vertex or none.
    fn ending(self, last: Option<PlineVertex>) -> Ending
        ensures { (ending_piece result ≡ just_ending last) × Coded result.span.stroke.origin }
    {
        let span = self.undrawn();
        Ending { span, last }
    }

    // The last span, and the last point if anything is drawn at all.
    fn last_span(self, settings: Settings) -> Ending
        requires { (2 ≤ self.taken) × (self.taken ≤ 4096) × (self.number + 1 < 0x1_0000_0000) }
        ensures { (ending_piece result ≡ last_piece settings self) × Coded result.span.stroke.origin }
    {
        let walk = self.walk(settings.offset);
        let end = walk.span_to(walk.current.end(), 1.0);
        let span = walk.pen.step(end, settings.eps);
        let vertex = PlineVertex::from_vector2(span.pen.last, 0.0);
        let last = (span.pen.number.0 != 0).then_some(vertex);
        Ending { span, last }
    }

    // What the end makes certain.
    pub fn end(self, settings: Settings) -> Ending
        requires { (self.taken ≤ 4096) × (self.number + 1 < 0x1_0000_0000) }
        ensures { (ending_piece result ≡ end_piece settings self) × Coded result.span.stroke.origin }
    {
        if self.taken < 2 {
            return self.ending(None);
        }
        if settings.offset == 0.0 {
            return self.ending(Some(self.last));
        }
        if self.is_lone_collapsed(settings.offset) {
            return self.ending(None);
        }
        self.last_span(settings)
    }
}

// The first of two connectors, if the join has a tip.
fn step_to_tip(pen: Pen, connector: Move, join: JoinBoundary, eps: f64) -> Stepped
    requires { (pen.number.0 + 1 < 0x1_0000_0000) × Coded connector.origin }
    ensures { (drawn_by 0 result ≡ strokes_by 0 pen (tip_first join connector) eps) × (result.pen ≡ pen_by pen (tip_first join connector) eps) × Coded result.stroke.origin }
{
    let stepped = pen.step(connector.to_tip(join.tip), eps);
    if join.cause.is_pointed() {
        return stepped;
    }
    Stepped {
        kept: false,
        pen,
        ..stepped
    }
}

// A NaN alone is not equal to itself.
fn is_finite_vertex(v: PlineVertex) -> bool
    ensures { result ≡ finite_vertex v }
{
    let doubt = moves::doubt(v);
    doubt == doubt
}

// Whether a stroke's numbers are finite, if it is drawn.
fn is_finite(stepped: Stepped) -> bool
    ensures { result ≡ all_finite (vertices_by (drawn_by 0 stepped)) }
{
    if stepped.kept {
        return is_finite_vertex(stepped.stroke.vertex);
    }
    true
}

impl Turning {
    // Whether the numbers of all its strokes are finite.
    pub fn is_finite(self) -> bool
        ensures { result ≡ all_finite (vertices_by (strokes_in self)) }
    {
        is_finite(self.span) && is_finite(self.tip) && is_finite(self.connector)
    }
}

impl Ending {
    // Whether all its numbers are finite.
    pub fn is_finite(self) -> bool
        ensures { result ≡ all_finite (ending_piece self).vertices }
    {
        match self.last {
            Some(vertex) => is_finite(self.span) && is_finite_vertex(vertex),
            None => is_finite(self.span),
        }
    }
}
