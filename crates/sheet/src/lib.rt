// What a walk draws, stored in the lent buffers. The walk is by value; a vertex is stored when it is left, with the
// bulge of the move that leaves it, so that nothing is stored twice.
#![tactic(auto)]

mod lent;

ghost use Rattle.std.specs.Prelude.{◌≡◌, true, false, [], ◌∷◌, ◌++◌, ◌+◌, ◌*◌, ◌-◌, ◌≤◌, ◌<◌, eqb, length};
ghost use Rattle.floats.specs.Choice.{when◌give◌else◌, ◌and◌};
ghost use Rattle.angles.specs.Angle.{sweep_of, bulge_of};
ghost use Rattle.segments.specs.Vertex.{bulge_is_zero};
ghost use Rattle.segments.specs.Modes.{are_pointed};
ghost use Rattle.segments.specs.InnerSteps.{chord_of};
ghost use Rattle.source.specs.Source.{vertices_in, segments_of};
ghost use Rattle.source.specs.InnerSteps.{vertex_of, next_of};
ghost use Rattle.joins.specs.Corner.{is_pointed};
ghost use Rattle.moves.specs.Origins.{origins_in};
ghost use Rattle.moves.specs.Drawing.{result_of};
ghost use Rattle.moves.specs.InnerSteps.{step_of, tip_first, sure};
ghost use Rattle.walk.specs.Walk.{moves_a_segment, drawing_of, spans_from, copied};
ghost use Rattle.walk.specs.InnerSteps.{stood, standing_at, Fit, made_by, drawn_by, strokes_by, pen_by};
ghost use Rattle.sheet.specs.InnerSteps.{held_by, held, showing, no_places, reached, laid, stored, stores, bulged_at, Begun, reached_later, later_of, trail, advances, routed, Coded};
ghost use Rattle.sheet.specs.InnerSteps.{Rooms, Starts, Ready, Drawable, over, over_at, cleared, cleared_at, wiped, Within, finished, finishes, finishes_open, Lasts, lasts, closing_moves, closes, Entered, built_of};

use joins::JoinBoundary;
pub use lent::{ColumnsMut, Marks, RowsMut, VerticesMut};
use moves::{Move, Origin, Pen, RawOffsetResult, Stroke};
use segments::{PlineVertex, Settings, SourceSegment};
use source::Vertices;
use sweeps::Memo;
use walk::{Turned, Walk};

// Where the next stroke and the next index go. `doubt` is a NaN from the first number stored that is not
// finite on, and else zero. Places are apart from output numbers: a walk may be handed out in pieces.
#[derive(Clone, Copy)]
pub struct Places {
    pub strokes: usize,
    pub marks: usize,
    pub doubt: f64,
}

impl Places {
    fn none() -> Places
        ensures { result ≡ no_places }
    {
        Places {
            strokes: 0,
            marks: 0,
            doubt: 0.0,
        }
    }

    // A NaN alone is not equal to itself.
    fn all_finite(self) -> bool
        ensures { result ≡ sure self.doubt }
    {
        self.doubt == self.doubt
    }
}

// Stores a stroke, if it is drawn.
#[inline(always)]
pub fn store<V: VerticesMut>(
    vertices: &mut V,
    marks: &mut Marks,
    places: Places,
    drawn: bool,
    stroke: Stroke,
) -> Places
    requires { (drawn ≡ true → Rooms 1 (laid places (held (V.lent vertices.old) marks.old))) × Coded stroke.origin }
    ensures { laid result (held (V.lent vertices.new) marks.new)
        ≡ when drawn give stored stroke (laid places (held (V.lent vertices.old) marks.old)) else laid places (held (V.lent vertices.old) marks.old) }
{
    if !drawn {
        return places;
    }
    let k = places.strokes;
    let j = places.marks;
    let invalid = stroke.reason.is_invalid();
    vertices.put(k, stroke.vertex);
    marks.put(k, j, invalid, stroke.number, stroke.origin);
    Places {
        strokes: k + 1,
        marks: j + invalid as usize,
        doubt: places.doubt + moves::doubt(stroke.vertex),
    }
}

// A bulge that is still to be written, where `due` says so: of the vertex stored at `place`, by what its
// segment sweeps. It is a long chain of steps that nothing waits for, so it is worked out one turn later,
// half of it before that turn's join and half after it: a processor can look ahead of a part of it.
#[derive(Clone, Copy)]
pub struct Later {
    pub due: bool,
    pub place: usize,
    pub sweep: f64,
}

impl Later {
    fn nothing() -> Later
        ensures { result.due ≡ false }
    {
        Later {
            due: false,
            place: 0,
            sweep: 0.0,
        }
    }

    // The first half of it, before the join.
    fn begin(self) -> f64
        ensures { Begun self result }
    {
        if self.due {
            return angles::tan_eighth(self.sweep / 4.0);
        }
        0.0
    }

    // The other half, after the join.
    fn write<V: VerticesMut>(self, vertices: &mut V, half: f64, places: Places) -> Places
        requires { Begun self half × (self.due ≡ true → self.place < length (held_by (V.lent vertices.old)).made) }
        ensures { (held_by (V.lent vertices.new) ≡ bulged_at self.due self.place (bulge_of self.sweep) (held_by (V.lent vertices.old))) × (reached result ≡ reached_later self (reached places)) }
    {
        if !self.due {
            return places;
        }
        let bulge = angles::tan_by_eighth(half);
        vertices.put_bulge(self.place, bulge);
        Places {
            doubt: places.doubt + (bulge - bulge),
            ..places
        }
    }
}

// What a move leaves: whether it was drawn, the pen, and the places after it.
#[derive(Clone, Copy)]
pub struct Drawn {
    pub drawn: bool,
    pub pen: Pen,
    pub places: Places,
}

// A move, stored right after its step: a processor guesses which way it goes. Nothing is drawn while turns
// lead in.
#[inline(always)]
fn store_move<V: VerticesMut>(
    vertices: &mut V,
    marks: &mut Marks,
    places: Places,
    leading: u32,
    pen: Pen,
    m: Move,
    eps: f64,
) -> Drawn
    requires { (leading ≡ 0 → Rooms 1 (laid places (held (V.lent vertices.old) marks.old))) × (pen.number.0 + 1 < 0x1_0000_0000) × Coded m.origin }
    ensures stored { laid result.places (held (V.lent vertices.new) marks.new)
        ≡ stores (drawn_by leading (step_of pen m eps)) (laid places (held (V.lent vertices.old) marks.old)) }
    ensures stepped { (result.pen ≡ (step_of pen m eps).pen) × (result.drawn ≡ (eqb leading 0 and (step_of pen m eps).kept)) }
{
    let stepped = pen.step(m, eps);
    let drawn = moves::both(leading == 0, stepped.kept);
    Drawn {
        drawn,
        pen: stepped.pen,
        places: store(vertices, marks, places, drawn, stepped.stroke),
    }
}

// The first of two connectors, if the join has a tip: `connector` is the other. The mode is told beside:
// in the round one there is none.
#[inline(always)]
fn store_tip<V: VerticesMut>(
    vertices: &mut V,
    marks: &mut Marks,
    before: Drawn,
    leading: u32,
    connector: Move,
    join: JoinBoundary,
    pointed: bool,
    eps: f64,
) -> Drawn
    requires rooms { (leading ≡ 0 → Rooms (length (tip_first join connector)) (laid before.places (held (V.lent vertices.old) marks.old))) × (before.pen.number.0 + 1 < 0x1_0000_0000) }
    requires coded { Coded connector.origin × (is_pointed join.cause ≡ true → pointed ≡ true) }
    ensures stored { laid result.places (held (V.lent vertices.new) marks.new)
        ≡ stores (strokes_by leading before.pen (tip_first join connector) eps) (laid before.places (held (V.lent vertices.old) marks.old)) }
    ensures stepped { result.pen ≡ pen_by before.pen (tip_first join connector) eps }
{
    if !moves::both(pointed, join.cause.is_pointed()) {
        return before;
    }
    let tip = connector.to_tip(join.tip);
    store_move(
        vertices,
        marks,
        before.places,
        leading,
        before.pen,
        tip,
        eps,
    )
}

// The connectors of a join: to its tip, if it has one, and on to where the next span starts.
#[inline(always)]
fn store_connectors<V: VerticesMut>(
    vertices: &mut V,
    marks: &mut Marks,
    before: Drawn,
    leading: u32,
    connector: Move,
    join: JoinBoundary,
    pointed: bool,
    eps: f64,
) -> Drawn
    requires rooms { (leading ≡ 0 → Rooms (1 + length (tip_first join connector)) (laid before.places (held (V.lent vertices.old) marks.old))) × (before.pen.number.0 + (1 + length (tip_first join connector)) < 0x1_0000_0000) }
    requires coded { Coded connector.origin × (is_pointed join.cause ≡ true → pointed ≡ true) }
    ensures stored { laid result.places (held (V.lent vertices.new) marks.new)
        ≡ stores (strokes_by leading before.pen (tip_first join connector ++ connector ∷ []) eps) (laid before.places (held (V.lent vertices.old) marks.old)) }
    ensures stepped { result.pen ≡ pen_by before.pen (tip_first join connector ++ connector ∷ []) eps }
{
    let tipped = store_tip(
        vertices, marks, before, leading, connector, join, pointed, eps,
    );
    store_move(
        vertices,
        marks,
        tipped.places,
        leading,
        tipped.pen,
        connector,
        eps,
    )
}

// What a turn leaves: the pen and the places after its strokes, and the bulge that is still to be
// written.
#[derive(Clone, Copy)]
pub struct Left {
    pub pen: Pen,
    pub places: Places,
    pub later: Later,
}

// A turn's span, straight as yet, and its connectors.
#[inline(always)]
fn store_turn<V: VerticesMut>(
    vertices: &mut V,
    marks: &mut Marks,
    places: Places,
    turned: Turned,
    pointed: bool,
    eps: f64,
) -> Left
    requires rooms { (turned.walk.leading ≡ 0 → Rooms (2 + length (tip_first turned.join turned.connector)) (laid places (held (V.lent vertices.old) marks.old))) × (turned.walk.pen.number.0 + 3 < 0x1_0000_0000) }
    requires coded { Coded turned.span.origin × Coded turned.connector.origin × (is_pointed turned.join.cause ≡ true → pointed ≡ true) }
    ensures stored { laid result.places (held (V.lent vertices.new) marks.new)
        ≡ stores (strokes_by turned.walk.leading turned.walk.pen (made_by turned) eps) (laid places (held (V.lent vertices.old) marks.old)) }
    ensures stepped { (result.pen ≡ pen_by turned.walk.pen (made_by turned) eps) × (result.later ≡ later_of places.strokes turned eps) }
{
    let walk = turned.walk;
    let leading = walk.leading;
    let half = store_move(vertices, marks, places, leading, walk.pen, turned.span, eps);
    let later = Later {
        due: moves::both(turned.curved, half.drawn),
        place: places.strokes,
        sweep: turned.sweep,
    };
    let whole = store_connectors(
        vertices,
        marks,
        half,
        leading,
        turned.connector,
        turned.join,
        pointed,
        eps,
    );
    Left {
        pen: whole.pen,
        places: whole.places,
        later,
    }
}

// How far it is from `vertex` to vertex k.
fn chord_to<S: Vertices>(source: S, k: usize, vertex: PlineVertex) -> f64
    requires { k < length (vertices_in (S.lent source)) }
    ensures { result ≡ chord_of vertex (vertex_of (vertices_in (S.lent source)) k) }
{
    segments::chord_length(vertex, source.vertex(k))
}

// The sweep from `vertex` to vertex k, if that is an arc.
fn sweep_from<S: Vertices>(memo: &mut Memo, vertex: PlineVertex, source: S, k: usize) -> f64
    requires { k < length (vertices_in (S.lent source)) }
    ensures { bulge_is_zero vertex ≡ false → result ≡ sweep_of vertex.bulge }
{
    if vertex.bulge_is_zero() {
        return 0.0;
    }
    memo.sweep_of(vertex.bulge, source, k)
}

// The walk, and how far its strokes are stored.
#[derive(Clone, Copy)]
pub struct Sheet {
    pub walk: Walk,
    pub places: Places,
}

impl Sheet {
    // At a vertex, with so many turns that lead in from there, and nothing stored.
    fn standing(vertex: PlineVertex, leading: u32) -> Sheet
        ensures { (stood result.walk ≡ standing_at vertex leading) × Fit result.walk × (result.places ≡ no_places) }
    {
        let walk = Walk::standing(vertex, leading);
        let places = Places::none();
        Sheet { walk, places }
    }
}

// So many turns of a walk, to the vertices from place `from` on; after the last comes the first. All joins
// and segments are made by this one loop, those that lead in too: what is called from one place alone is
// compiled into that place, and what it hands back need not go through memory. (The loop itself is called
// from three.) Each chord is worked out one turn ahead, so that its root does not wait for the turn. A
// sweep is kept by its bulge, and asked for right before its segment, which asks for an arc too: compiled,
// the two are one test. A bulge is written one turn later. The mode is told beside the settings, for the
// compiler: it follows a bool from call to call, and leaves the other mode out of the loop.
fn store_turns<S: Vertices, V: VerticesMut>(
    source: S,
    closed: bool,
    from: usize,
    turns: usize,
    first: Sheet,
    settings: Settings,
    pointed: bool,
    vertices: &mut V,
    marks: &mut Marks,
) -> Sheet
    requires pointed_value { pointed ≡ are_pointed settings.corners }
    requires starts { let vs = vertices_in (S.lent source) in
        Starts (moves_a_segment settings.corners) (length vs) «from» turns first vs (held (V.lent vertices.old) marks.old) }
    ensures stored { let vs = vertices_in (S.lent source) in
        trail result (held (V.lent vertices.new) marks.new)
        ≡ advances closed settings (routed (length vs) turns «from» vs) (trail first (held (V.lent vertices.old) marks.old)) }
    ensures fit { Fit result.walk }
{
    let v = source.count();
    let mut walk = first.walk;
    let mut places = first.places;
    let mut k = from;
    let mut chord = chord_to(source, k, walk.vertex);
    let mut memo = Memo::new();
    let mut later = Later::nothing();
    for _turn in 0..turns {
        let to = source.vertex(k);
        let next = source::next_place(v, k);
        let ahead = chord_to(source, next, to);
        let sweep = sweep_from(&mut memo, walk.vertex, source, k);
        let segment = segments::offset_seg(walk.vertex, to, chord, sweep, settings.offset);
        let half = later.begin();
        let turned = walk.turn(to, segment, settings, pointed);
        let far = later.write(vertices, half, places);
        let left = store_turn(vertices, marks, far, turned, pointed, settings.eps);
        later = left.later;
        places = left.places;
        walk = turned.walk.after(left.pen, closed);
        chord = ahead;
        k = next;
    }
    let places = later.write(vertices, later.begin(), places);
    Sheet { walk, places }
}

// Vertices from place `from` on, before place `end`.
fn clear_vertices<V: VerticesMut>(vertices: &mut V, from: usize, end: usize)
    requires { (from ≤ end) × (end ≤ length (held_by (V.lent vertices.old)).made) }
    ensures { held_by (V.lent vertices.new) ≡ cleared_at from (end - from) (held_by (V.lent vertices.old)) }
{
    let blank = PlineVertex {
        x: 0.0,
        y: 0.0,
        bulge: 0.0,
    };
    for k in from..end {
        vertices.put(k, blank);
    }
}

// One value from place `from` on, before place `end`.
fn clear<T: Copy>(list: &mut [T], from: usize, end: usize, value: T)
    requires { (from ≤ end) × (end ≤ length list.old) }
    ensures { list.new ≡ cleared value from (end - from) list.old }
{
    for place in &mut list[from..end] {
        *place = value;
    }
}

// Zeros from vertex v, flag and origin f, and index i on, up to `room` places of each. Zero stands for the
// origin that is the span of segment 0.
fn wipe<V: VerticesMut>(
    vertices: &mut V,
    marks: &mut Marks,
    room: usize,
    v: usize,
    f: usize,
    i: usize,
)
    requires { Within room v f i (held (V.lent vertices.old) marks.old) }
    ensures { held (V.lent vertices.new) marks.new ≡ wiped room v f i (held (V.lent vertices.old) marks.old) }
{
    clear_vertices(vertices, v, room);
    clear(marks.flags, f, room, 0);
    clear(marks.indexes, i, room, 0);
    clear(marks.origins, f, room, 0);
}

// The answer, where all its numbers are finite, and zeros after it; else none, and zeros in all its room.
fn finish<V: VerticesMut>(
    vertices: &mut V,
    marks: &mut Marks,
    places: Places,
    res: RawOffsetResult,
    room: usize,
) -> Option<RawOffsetResult>
    requires { Within room res.vertices places.strokes places.marks (held (V.lent vertices.old) marks.old) }
    ensures { finished result (held (V.lent vertices.new) marks.new)
        ≡ finishes room res (laid places (held (V.lent vertices.old) marks.old)) }
{
    if places.all_finite() {
        wipe(
            vertices,
            marks,
            room,
            res.vertices as usize,
            places.strokes,
            places.marks,
        );
        return Some(res);
    }
    wipe(vertices, marks, room, 0, 0, 0);
    None
}

// A closed walk: led in by two turns, from the last vertex, by the closing join.
fn draw_closed<S: Vertices, V: VerticesMut>(
    source: S,
    settings: Settings,
    pointed: bool,
    room: usize,
    vertices: &mut V,
    marks: &mut Marks,
) -> Option<RawOffsetResult>
    requires { let vs = vertices_in (S.lent source) in Drawable (length vs) (length vs) room settings pointed vs (held (V.lent vertices.old) marks.old) }
    ensures { finished result (held (V.lent vertices.new) marks.new)
        ≡ built_of room (drawing_of true settings (vertices_in (S.lent source))) (held (V.lent vertices.old) marks.old) }
{
    let first = Sheet::standing(source.vertex(source.count() - 1), 2);
    let led = store_turns(
        source, true, 0, 2, first, settings, pointed, vertices, marks,
    );
    draw_around(source, led, settings, pointed, room, vertices, marks)
}

// From the first segment once around, back to its start, and the closing moves.
fn draw_around<S: Vertices, V: VerticesMut>(
    source: S,
    led: Sheet,
    settings: Settings,
    pointed: bool,
    room: usize,
    vertices: &mut V,
    marks: &mut Marks,
) -> Option<RawOffsetResult>
    requires { let vs = vertices_in (S.lent source) in Drawable (length vs) (length vs) room settings pointed vs (held (V.lent vertices.old) marks.old) × Entered settings led }
    ensures { let vs = vertices_in (S.lent source) in
        finished result (held (V.lent vertices.new) marks.new)
        ≡ closes room led.walk.entry settings.eps (advances true settings (routed (length vs) (length vs - 1) (next_of (length vs) 1) vs) (trail led (held (V.lent vertices.old) marks.old))) }
{
    let entry = led.walk.entry;
    let v = source.count();
    let next = source::next_place(v, 1);
    let sheet = store_turns(
        source,
        true,
        next,
        v - 1,
        led,
        settings,
        pointed,
        vertices,
        marks,
    );
    draw_closing(vertices, marks, sheet, entry, pointed, settings.eps, room)
}

// The closing moves: the last span, up to the closing join, and its connectors. Where the two ends of that
// join are one point, the connector is dropped like any move that leads nowhere.
fn store_closing<V: VerticesMut>(
    vertices: &mut V,
    marks: &mut Marks,
    sheet: Sheet,
    closing: JoinBoundary,
    pointed: bool,
    eps: f64,
) -> Places
    requires rooms { Rooms (length (closing_moves sheet.walk closing)) (laid sheet.places (held (V.lent vertices.old) marks.old)) }
    requires closing_bound { (sheet.walk.pen.number.0 + length (closing_moves sheet.walk closing) < 0x1_0000_0000) × (sheet.walk.source.0 < 0x8000_0000) }
    requires pointed_value { is_pointed closing.cause ≡ true → pointed ≡ true }
    ensures { laid result (held (V.lent vertices.new) marks.new)
        ≡ stores (strokes_by 0 sheet.walk.pen (closing_moves sheet.walk closing) eps) (laid sheet.places (held (V.lent vertices.old) marks.old)) }
{
    let walk = sheet.walk;
    let span = walk.span_to(closing.current_end, closing.current_param);
    let half = store_move(vertices, marks, sheet.places, 0, walk.pen, span, eps);
    let connector = Move::connector(walk.source, closing);
    let whole = store_connectors(vertices, marks, half, 0, connector, closing, pointed, eps);
    whole.places
}

// The closing moves and what they finish.
fn draw_closing<V: VerticesMut>(
    vertices: &mut V,
    marks: &mut Marks,
    sheet: Sheet,
    closing: JoinBoundary,
    pointed: bool,
    eps: f64,
    room: usize,
) -> Option<RawOffsetResult>
    requires { Lasts (length (closing_moves sheet.walk closing)) room sheet (held (V.lent vertices.old) marks.old) × (is_pointed closing.cause ≡ true → pointed ≡ true) }
    ensures { finished result (held (V.lent vertices.new) marks.new)
        ≡ closes room closing eps (trail sheet (held (V.lent vertices.old) marks.old)) }
{
    let places = store_closing(vertices, marks, sheet, closing, pointed, eps);
    let result = RawOffsetResult {
        vertices: places.strokes as u32,
        indexes: places.marks as u32,
        closed: places.strokes != 0,
    };
    finish(vertices, marks, places, result, room)
}

// After an open walk: its last vertex. A lone vertex has no offset geometry.
fn finish_open<V: VerticesMut>(
    vertices: &mut V,
    marks: &mut Marks,
    places: Places,
    pen: Pen,
    room: usize,
) -> Option<RawOffsetResult>
    requires { Within room (places.strokes + 1) places.strokes places.marks (held (V.lent vertices.old) marks.old) }
    ensures { finished result (held (V.lent vertices.new) marks.new)
        ≡ finishes_open room pen (laid places (held (V.lent vertices.old) marks.old)) }
{
    let k = places.strokes;
    if k == 0 {
        wipe(vertices, marks, room, 0, 0, 0);
        return Some(RawOffsetResult::empty());
    }
    let last = PlineVertex::from_vector2(pen.last, 0.0);
    let ended = Places {
        doubt: places.doubt + moves::doubt(last),
        ..places
    };
    let result = RawOffsetResult {
        vertices: (k + 1) as u32,
        indexes: places.marks as u32,
        closed: false,
    };
    vertices.put(k, last);
    finish(vertices, marks, ended, result, room)
}

// An open walk: led in by one turn, from the first vertex. A lone collapsed arc has no offset geometry.
fn draw_open<S: Vertices, V: VerticesMut>(
    source: S,
    settings: Settings,
    pointed: bool,
    room: usize,
    vertices: &mut V,
    marks: &mut Marks,
) -> Option<RawOffsetResult>
    requires { let vs = vertices_in (S.lent source) in Drawable (length vs) (length vs - 1) room settings pointed vs (held (V.lent vertices.old) marks.old) }
    ensures { finished result (held (V.lent vertices.new) marks.new)
        ≡ built_of room (drawing_of false settings (vertices_in (S.lent source))) (held (V.lent vertices.old) marks.old) }
{
    let v = source.count();
    let first = Sheet::standing(source.vertex(0), 1);
    let sheet = store_turns(
        source,
        false,
        1,
        v - 1,
        first,
        settings,
        pointed,
        vertices,
        marks,
    );
    draw_last(vertices, marks, sheet, v == 2, settings.eps, room)
}

// The last span of an open walk, which is its only one where it is `alone`.
fn draw_last<V: VerticesMut>(
    vertices: &mut V,
    marks: &mut Marks,
    sheet: Sheet,
    alone: bool,
    eps: f64,
    room: usize,
) -> Option<RawOffsetResult>
    requires { Lasts 2 room sheet (held (V.lent vertices.old) marks.old) }
    ensures { finished result (held (V.lent vertices.new) marks.new)
        ≡ lasts room alone eps (trail sheet (held (V.lent vertices.old) marks.old)) }
{
    let walk = sheet.walk;
    let current = walk.current;
    if moves::both(alone, current.is_collapsed()) {
        wipe(vertices, marks, room, 0, 0, 0);
        return Some(RawOffsetResult::empty());
    }
    let span = walk.span_to(current.end(), 1.0);
    let last = store_move(vertices, marks, sheet.places, 0, walk.pen, span, eps);
    finish_open(vertices, marks, last.places, last.pen, room)
}

// The raw offset of a source, in the first `room` places of each buffer; or none, where its numbers are not
// all finite.
pub fn draw<S: Vertices, V: VerticesMut>(
    source: S,
    closed: bool,
    settings: Settings,
    pointed: bool,
    room: usize,
    vertices: &mut V,
    marks: &mut Marks,
) -> Option<RawOffsetResult>
    requires { let vs = vertices_in (S.lent source) in Drawable (length vs) (segments_of closed (length vs)) room settings pointed vs (held (V.lent vertices.old) marks.old) }
    ensures { finished result (held (V.lent vertices.new) marks.new)
        ≡ built_of room (drawing_of closed settings (vertices_in (S.lent source))) (held (V.lent vertices.old) marks.old) }
{
    if closed {
        return draw_closed(source, settings, pointed, room, vertices, marks);
    }
    draw_open(source, settings, pointed, room, vertices, marks)
}

// The source as it is, with no flag set and each segment its own span: what an offset of zero draws.
pub fn copy<S: Vertices, V: VerticesMut>(
    source: S,
    closed: bool,
    room: usize,
    vertices: &mut V,
    marks: &mut Marks,
) -> RawOffsetResult
    requires { let vs = vertices_in (S.lent source) in Ready (length vs) room vs (held (V.lent vertices.old) marks.old) × (2 * segments_of closed (length vs) ≤ room) × (room ≤ 12288) }
    ensures { (result ≡ result_of (copied closed (vertices_in (S.lent source))))
        × (held (V.lent vertices.new) marks.new ≡ showing room (copied closed (vertices_in (S.lent source))) (held (V.lent vertices.old) marks.old)) }
{
    let v = source.count();
    copy_vertices(source, vertices);
    wipe(vertices, marks, room, v, 0, 0);
    put_spans(marks.origins, source::segment_count(v, closed));
    RawOffsetResult {
        vertices: v as u32,
        indexes: 0,
        closed,
    }
}

// The source as it is, vertex by vertex.
fn copy_vertices<S: Vertices, V: VerticesMut>(source: S, vertices: &mut V)
    requires { length (vertices_in (S.lent source)) ≤ length (held_by (V.lent vertices.old)).made }
    ensures { held_by (V.lent vertices.new) ≡ over_at (vertices_in (S.lent source)) (held_by (V.lent vertices.old)) }
{
    for k in 0..source.count() {
        vertices.put(k, source.vertex(k));
    }
}

// The spans of the first segments, each its own.
fn put_spans(origins: &mut [u32], count: usize)
    requires { (count ≤ length origins.old) × (count ≤ 4096) }
    ensures { origins_in origins.new ≡ over (spans_from 0 count) (origins_in origins.old) }
{
    for k in 0..count {
        let source = SourceSegment(k as u32);
        origins[k] = Origin::Span(source).code();
    }
}
