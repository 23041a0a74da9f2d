// Why an output segment's flag is set or clear: which move it is, for what reason, and by which rules
// its span was trimmed. The walk is walked as for a drawing, turn by turn, and nothing is stored: the
// stroke with the number asked for is told, and the rest is looked at for numbers that are not finite.
#![tactic(auto)]

ghost use Rattle.std.specs.Prelude.{◌≡◌, true, false, not, ◌+◌, ◌*◌, ◌-◌, ◌≤◌, ◌<◌, eqb, ltb, length, Ok};
ghost use Rattle.floats.specs.Choice.{when◌give◌else◌, ◌and◌};
ghost use Rattle.source.specs.Source.{rows, vertices_of, segments_of};
ghost use Rattle.source.specs.InnerSteps.{next_of};
ghost use Rattle.moves.specs.declared.Origin.TheVariants.{Span};
ghost use Rattle.moves.specs.InnerSteps.{tip_first, sure};
ghost use Rattle.walk.specs.Spans.{start_at, end_at, whole_end};
ghost use Rattle.walk.specs.InnerSteps.{Fit};
ghost use Rattle.sheet.specs.InnerSteps.{routed};
ghost use Rattle.job.specs.Verdict.{distinct_verdict};
ghost use Rattle.job.specs.InnerSteps.{Counted};
ghost use Rattle.why.specs.Why.{param_of, telling_for, copy_answer, walk_answer, answer_by, why_of, numbers_of};
ghost use Rattle.why.specs.Handed.{handed, handed_of};
ghost use Rattle.why.specs.InnerSteps.{Noted, noted, telling_in, told_if, note_of, notes_of, asked, standing_asked, entry_after, asked_turn, asks, Ready, Starts, finish_of, finish_open, last_answer, closing_answer, drawn_answer, good_answer};

use joins::{JoinBoundary, JoinCause};
use meetings::ArcRule;
use moves::{Move, Origin, Pen, Reason, Stroke};
use refusals::{MOST_VERTICES, Refusal};
use segments::{CarriedSeg, OutputSegment, PlineVertex, Settings, SourceSegment};
use source::Rows;
use walk::Walk;

// What is told of an output segment. The parameters are those of a span that turned back, and else zero;
// the rules those by which an arc's span was trimmed.
#[derive(Clone, Copy)]
pub struct Telling {
    pub origin: Origin,
    pub reason: Reason,
    pub start_param: f64,
    pub end_param: f64,
    pub start_rule: Option<ArcRule>,
    pub end_rule: Option<ArcRule>,
}

// An answer in numbers, for callers: number and place of a refusal; whether it is a connector, its source
// segment and its reason; the rules at its start and at its end; both parameters.
#[derive(Clone, Copy)]
pub struct WhyNumbers {
    pub number: u32,
    pub place: u32,
    pub connector: u32,
    pub source: u32,
    pub reason: u32,
    pub start_rule: u32,
    pub end_rule: u32,
    pub start_param: f64,
    pub end_param: f64,
}

impl From<Result<Telling, Refusal>> for WhyNumbers {
    ghost from_gives = { λ answer numbers. numbers ≡ numbers_of answer };

    fn from(answer: Result<Telling, Refusal>) -> WhyNumbers {
        match answer {
            Ok(telling) => telling.numbers(),
            Err(refusal) => WhyNumbers {
                number: refusal.number(),
                place: refusal.place(),
                connector: 0,
                source: 0,
                reason: 0,
                start_rule: 0,
                end_rule: 0,
                start_param: 0.0,
                end_param: 0.0,
            },
        }
    }
}

fn shown_param(reason: Reason, param: f64) -> f64
    ensures { result ≡ param_of reason param }
{
    match reason {
        Reason::TurnedBack => param,
        _ => 0.0,
    }
}

impl Telling {
    fn numbers(self) -> WhyNumbers
        ensures { result ≡ numbers_of (Ok self) }
    {
        WhyNumbers {
            number: 0,
            place: 0,
            connector: u32::from(self.origin.is_connector()),
            source: self.origin.source().0,
            reason: self.reason.number(),
            start_rule: meetings::rule_number(self.start_rule),
            end_rule: meetings::rule_number(self.end_rule),
            start_param: self.start_param,
            end_param: self.end_param,
        }
    }

    // Of a span, from the boundary before it to the one after it.
    fn of_span(
        source: SourceSegment,
        reason: Reason,
        entry: JoinBoundary,
        boundary: JoinBoundary,
    ) -> Telling
        ensures { result ≡ telling_for (start_at entry) (end_at boundary) reason (Span source) }
    {
        Telling {
            origin: Origin::Span(source),
            reason,
            start_param: shown_param(reason, entry.next_param),
            end_param: shown_param(reason, boundary.current_param),
            start_rule: entry.next_rule,
            end_rule: boundary.current_rule,
        }
    }

    // Of a stroke between two boundaries: of a connector there is no more than its reason.
    fn of(stroke: Stroke, entry: JoinBoundary, boundary: JoinBoundary) -> Telling
        ensures { result ≡ telling_in entry boundary stroke }
    {
        match stroke.origin {
            Origin::Span(source) => Telling::of_span(source, stroke.reason, entry, boundary),
            Origin::Connector(source) => Telling {
                origin: Origin::Connector(source),
                reason: stroke.reason,
                start_param: 0.0,
                end_param: 0.0,
                start_rule: None,
                end_rule: None,
            },
        }
    }
}

// What the moves between two boundaries are looked at for: the output segment with a number. So many turns
// still lead in.
#[derive(Clone, Copy)]
struct Look {
    entry: JoinBoundary,
    boundary: JoinBoundary,
    segment: OutputSegment,
    leading: u32,
    eps: f64,
}

impl Look {
    // The answer after a stroke: that stroke is told if it has the number asked for.
    fn answer_with(
        self,
        answer: Result<Telling, Refusal>,
        stroke: Stroke,
    ) -> Result<Telling, Refusal>
        ensures { result ≡ told_if (telling_in self.entry self.boundary) self.segment.0 stroke answer }
    {
        if stroke.number.0 == self.segment.0 {
            return Ok(Telling::of(stroke, self.entry, self.boundary));
        }
        answer
    }
}

// The pen, the answer so far, and a doubt: a NaN from the first number drawn that is not finite on, and
// else zero.
#[derive(Clone, Copy)]
pub struct Note {
    pub pen: Pen,
    pub answer: Result<Telling, Refusal>,
    pub doubt: f64,
}

impl Note {
    // The first of two connectors, if the boundary has a tip: `connector` is the other.
    fn tip(self, connector: Move, look: Look) -> Note
        requires { self.pen.number.0 + 1 < 0x1_0000_0000 }
        ensures { noted result ≡ notes_of (telling_in look.entry look.boundary) look.segment.0 look.leading (tip_first look.boundary connector) look.eps (noted self) }
    {
        if !look.boundary.cause.is_pointed() {
            return self;
        }
        self.step(connector.to_tip(look.boundary.tip), look)
    }

    // One move more; it is drawn if it is kept and no turn leads in any more.
    fn step(self, m: Move, look: Look) -> Note
        requires { self.pen.number.0 + 1 < 0x1_0000_0000 }
        ensures { noted result ≡ note_of (telling_in look.entry look.boundary) look.segment.0 look.leading m look.eps (noted self) }
    {
        let stepped = self.pen.step(m, look.eps);
        let pen = stepped.pen;
        if !moves::both(look.leading == 0, stepped.kept) {
            return Note { pen, ..self };
        }
        let stroke = stepped.stroke;
        Note {
            pen,
            answer: look.answer_with(self.answer, stroke),
            doubt: self.doubt + moves::doubt(stroke.vertex),
        }
    }
}

// Where the next span starts: at the join just made, or, on an open walk's first segment, at its start.
fn entry_after(
    leading: u32,
    closed: bool,
    boundary: JoinBoundary,
    entry: JoinBoundary,
) -> JoinBoundary
    ensures { result ≡ entry_after leading closed boundary entry }
{
    if closed {
        return boundary;
    }
    if leading == 1 {
        return entry;
    }
    boundary
}

// A walk that is asked for one of its strokes. `entry` is where the walk's span starts, with the rules,
// which the walk itself leaves behind.
#[derive(Clone, Copy)]
pub struct Asking {
    pub walk: Walk,
    pub entry: JoinBoundary,
    pub answer: Result<Telling, Refusal>,
    pub doubt: f64,
}

impl Asking {
    // At a vertex, with so many turns that lead in from there, and no stroke seen.
    fn standing(vertex: PlineVertex, leading: u32) -> Asking
        ensures { (asked result ≡ standing_asked vertex leading) × Fit result.walk }
    {
        let walk = Walk::standing(vertex, leading);
        Asking {
            walk,
            entry: walk.entry,
            answer: Err(Refusal::NoSuchSegment),
            doubt: 0.0,
        }
    }

    // Its pen, and what is answered so far.
    fn note(self) -> Note
        ensures { noted result ≡ record { pen = self.walk.pen; answer = self.answer; finite = sure self.doubt } }
    {
        Note {
            pen: self.walk.pen,
            answer: self.answer,
            doubt: self.doubt,
        }
    }

    // On to `next`: its span and its connectors are looked at.
    fn turn(
        self,
        next: PlineVertex,
        closed: bool,
        settings: Settings,
        segment: OutputSegment,
    ) -> Asking
        requires source_bound { self.walk.source.0 + 1 < 0x1_0000_0000 }
        requires number_bound { self.walk.pen.number.0 + 3 < 0x1_0000_0000 }
        requires fit { Fit self.walk }
        ensures { (asked result ≡ asked_turn closed settings segment.0 next (asked self)) × Fit result.walk }
    {
        let walk = self.walk;
        let ahead = CarriedSeg::anew(walk.vertex, next, settings.offset);
        let turned = walk.turn(next, ahead, settings, settings.corners.are_pointed());
        let look = Look {
            entry: self.entry,
            boundary: turned.join,
            segment,
            leading: walk.leading,
            eps: settings.eps,
        };
        let bulge = segments::bulge_by(turned.curved, turned.sweep);
        let before = self.note();
        let half = before.step(turned.span.bulging(bulge), look);
        let tipped = half.tip(turned.connector, look);
        let whole = tipped.step(turned.connector, look);
        let on = turned.walk.after(whole.pen, closed);
        Asking {
            walk: on,
            entry: entry_after(look.leading, closed, look.boundary, on.entry),
            answer: whole.answer,
            doubt: whole.doubt,
        }
    }
}

// So many turns of a walk, to the vertices from place `from` on; after the last comes the first.
fn ask_turns(
    source: &[f64],
    v: usize,
    closed: bool,
    from: usize,
    turns: usize,
    first: Asking,
    settings: Settings,
    segment: OutputSegment,
) -> Asking
    requires { Starts v «from» turns first (vertices_of source.now) }
    ensures { (asked result ≡ asks closed settings segment.0 (routed v turns «from» (vertices_of source.now)) (asked first)) × Fit result.walk }
{
    let mut asking = first;
    for turn in 0..turns {
        let next = source::vertex_at(source, (from + turn) % v);
        asking = asking.turn(next, closed, settings, segment);
    }
    asking
}

// The answer, where all numbers drawn are finite. A NaN alone is not equal to itself.
fn finish(answer: Result<Telling, Refusal>, doubt: f64) -> Result<Telling, Refusal>
    ensures { result ≡ finish_of answer (sure doubt) }
{
    if doubt == doubt {
        return answer;
    }
    Err(Refusal::NotFinite)
}

// An open walk's last vertex is drawn too, but a lone vertex is none.
fn finish_open(note: Note) -> Result<Telling, Refusal>
    ensures { result ≡ finish_open (noted note) }
{
    if note.pen.number.0 == 0 {
        return note.answer;
    }
    let last = PlineVertex::from_vector2(note.pen.last, 0.0);
    finish(note.answer, note.doubt + moves::doubt(last))
}

// The last span of an open walk runs to its segment's end. A lone collapsed arc draws nothing.
fn ask_last(
    asking: Asking,
    alone: bool,
    eps: f64,
    segment: OutputSegment,
) -> Result<Telling, Refusal>
    requires { asking.walk.pen.number.0 + 1 < 0x1_0000_0000 }
    ensures { result ≡ last_answer alone eps segment.0 (asked asking) }
{
    let walk = asking.walk;
    if moves::both(alone, walk.current.is_collapsed()) {
        return Err(Refusal::NoSuchSegment);
    }
    let end = walk.current.end();
    let look = Look {
        entry: asking.entry,
        boundary: JoinBoundary::straight(JoinCause::Coincident, end, end),
        segment,
        leading: 0,
        eps,
    };
    let span = walk.span_to(end, 1.0);
    let before = asking.note();
    finish_open(before.step(span, look))
}

// The closing moves of a closed walk: the last span, up to the closing join, and its connectors.
fn ask_closing(
    asking: Asking,
    closing: JoinBoundary,
    eps: f64,
    segment: OutputSegment,
) -> Result<Telling, Refusal>
    requires { asking.walk.pen.number.0 + 3 < 0x1_0000_0000 }
    ensures { result ≡ closing_answer closing eps segment.0 (asked asking) }
{
    let walk = asking.walk;
    let look = Look {
        entry: asking.entry,
        boundary: closing,
        segment,
        leading: 0,
        eps,
    };
    let span = walk.span_to(closing.current_end, closing.current_param);
    let connector = Move::connector(walk.source, closing);
    let before = asking.note();
    let half = before.step(span, look);
    let tipped = half.tip(connector, look);
    let whole = tipped.step(connector, look);
    finish(whole.answer, whole.doubt)
}

// An open walk: led in by one turn, from the first vertex.
fn ask_open(
    source: &[f64],
    v: usize,
    settings: Settings,
    segment: OutputSegment,
) -> Result<Telling, Refusal>
    requires { Counted v (vertices_of source.now) }
    ensures { result ≡ drawn_answer false settings (vertices_of source.now) segment.0 }
{
    let first = Asking::standing(source::vertex_at(source, 0), 1);
    let asking = ask_turns(source, v, false, 1, v - 1, first, settings, segment);
    ask_last(asking, v == 2, settings.eps, segment)
}

// A closed walk: led in by two turns, from the last vertex, by the closing join.
fn ask_closed(
    source: &[f64],
    v: usize,
    settings: Settings,
    segment: OutputSegment,
) -> Result<Telling, Refusal>
    requires { Counted v (vertices_of source.now) }
    ensures { result ≡ drawn_answer true settings (vertices_of source.now) segment.0 }
{
    let first = Asking::standing(source::vertex_at(source, v - 1), 2);
    let led = ask_turns(source, v, true, 0, 2, first, settings, segment);
    let closing = led.entry;
    let next = source::next_place(v, 1);
    let asking = ask_turns(source, v, true, next, v - 1, led, settings, segment);
    ask_closing(asking, closing, settings.eps, segment)
}

// Of a copy: each segment is itself.
fn ask_copy(segments: usize, segment: OutputSegment) -> Result<Telling, Refusal>
    ensures { result ≡ copy_answer segments segment.0 }
{
    if (segment.0 as usize) < segments {
        return Ok(Telling {
            origin: Origin::Span(SourceSegment(segment.0)),
            reason: Reason::Copied,
            start_param: 0.0,
            end_param: 0.0,
            start_rule: None,
            end_rule: None,
        });
    }
    Err(Refusal::NoSuchSegment)
}

// A source of two vertices or more, all of whose numbers are good.
fn ask_good(
    source: &[f64],
    v: usize,
    closed: bool,
    settings: Settings,
    segment: OutputSegment,
) -> Result<Telling, Refusal>
    requires { Counted v (vertices_of source.now) }
    ensures { result ≡ good_answer closed settings (vertices_of source.now) segment.0 }
{
    if settings.offset == 0.0 {
        return ask_copy(source::segment_count(v, closed), segment);
    }
    if let Some(k) = refusals::first_repeated(Rows(source), closed) {
        return Err(Refusal::Repeated(k));
    }
    if closed {
        return ask_closed(source, v, settings, segment);
    }
    ask_open(source, v, settings, segment)
}

impl WhyNumbers {
    // What a caller in C is handed: the number, and in `seven` number, place, 1 for a connector, source
    // segment, reason, and the rules at the span's start and end; in `params` both parameters.
    pub fn hand(self, seven: &mut [u32; 7], params: &mut [f64; 2]) -> u32
        ensures { handed result seven.new params.new ≡ handed_of self }
    {
        *seven = [
            self.number,
            self.place,
            self.connector,
            self.source,
            self.reason,
            self.start_rule,
            self.end_rule,
        ];
        *params = [self.start_param, self.end_param];
        self.number
    }
}

// Why the flag of an output segment is set or clear. Any numbers may come in; no buffer is lent, so that
// none can be too short.
pub fn why(
    source: &[f64],
    closed: bool,
    settings: Settings,
    segment: OutputSegment,
) -> Result<Telling, Refusal>
    ensures { result ≡ why_of (rows source.now) closed settings segment.0 }
{
    if source.len() % 3 != 0 {
        return Err(Refusal::Ragged);
    }
    let v = source.len() / 3;
    if MOST_VERTICES < v {
        return Err(Refusal::TooMany);
    }
    if let Some(k) = refusals::first_bad_number(Rows(source), settings) {
        return Err(Refusal::BadNumber(k));
    }
    if v < 2 {
        return Err(Refusal::NoSuchSegment);
    }
    ask_good(source, v, closed, settings, segment)
}
