// The text of an answer, as it is written into a lent buffer.
ghost use Rattle.std.specs.Prelude.{◌≡◌, [], ◌∷◌, ◌++◌, not, ◌+◌, ◌*◌, ◌≤◌, eqb, length, take, drop};
ghost use Rattle.io.specs.Counts.{IsPrefixLen};
ghost use Rattle.floats.specs.Choice.{◌and◌};
ghost use Rattle.moves.specs.Origins.{origins_in};
ghost use Rattle.refusals.specs.Table.{number_of, place_of};
ghost use Rattle.packed.specs.Text.{◌then◌, decimal_of, hex_of, line_end, row_of, mark_of, lines_of, word_of, head_of, refusal_of, printed, printed_of, origin_line, origin_lines, origins_text, three_of, pair_of, told_of};
ghost use Rattle.packed.specs.Writes.{HasRoom, Writes};

use moves::Origin;
use refusals::Refusal;
use segments::PlineVertex;

// A buffer, and the place in it where the text goes on. What is written ends with the byte that is told beside it.
#[derive(Drop)]
pub struct Text<'a> {
    out: &'a mut [u8],
    at: usize,
}

impl<'a> Text<'a> {
    // An empty text at the buffer's start.
    pub fn new(out: &'a mut [u8]) -> Text<'a>
        ensures at { result.at ≡ 0 }
        ensures bytes { result.out.now ≡ out.old }
        ensures same_buffer { result.out.ghost_name ≡ out.entry.ghost_name }
    {
        Text { out, at: 0 }
    }

    pub fn len(&self) -> usize
        ensures { result ≡ self.now.at }
    {
        self.at
    }

    fn word(&mut self, word: &[u8], end: u8)
        requires { HasRoom (length word.now + 1) self.old }
        ensures { Writes (word.now then end) self.old self.new }
    {
        let past = self.at + word.len();
        self.out[self.at..past].copy_from_slice(word);
        self.out[past] = end;
        self.at = past + 1;
    }

    pub fn decimal(&mut self, number: u64, end: u8)
        requires { HasRoom 21 self.old }
        ensures { Writes (decimal_of number then end) self.old self.new }
    {
        let mut digits = [0u8; 20];
        let n = io::decimal(number, &mut digits);
        self.word(&digits[..n], end);
    }

    // The bits of x.
    fn hex(&mut self, x: f64, end: u8)
        requires { HasRoom 17 self.old }
        ensures { Writes (hex_of x then end) self.old self.new }
    {
        let mut digits = [0u8; 16];
        let n = io::hex(bits::bits_of(x), 16, &mut digits);
        self.word(&digits[..n], end);
    }

    // A refusal: its number and its place.
    pub fn refusal(&mut self, number: u32, place: u32)
        requires { HasRoom 42 self.old }
        ensures { Writes (refusal_of number place) self.old self.new }
    {
        self.decimal(number as u64, b' ');
        self.decimal(place as u64, b'\n');
    }

    // That of a refusal of the table.
    pub fn refuse(&mut self, refusal: Refusal)
        requires { HasRoom 42 self.old }
        ensures { Writes (refusal_of (number_of refusal) (place_of refusal)) self.old self.new }
    {
        self.refusal(refusal.number(), refusal.place());
    }

    // Three numbers, a space after each.
    pub fn three(&mut self, a: u32, b: u32, c: u32)
        requires { HasRoom 63 self.old }
        ensures { Writes (three_of a b c) self.old self.new }
    {
        self.decimal(a as u64, b' ');
        self.decimal(b as u64, b' ');
        self.decimal(c as u64, b' ');
    }

    // The bits of two numbers, and the line's end.
    pub fn pair(&mut self, a: f64, b: f64)
        requires { HasRoom 34 self.old }
        ensures { Writes (pair_of a b) self.old self.new }
    {
        self.hex(a, b' ');
        self.hex(b, b'\n');
    }

    // What is told of an output segment: seven numbers, and two parameters by their bits.
    fn told(
        &mut self,
        number: u32,
        place: u32,
        connector: u32,
        source: u32,
        reason: u32,
        start_rule: u32,
        end_rule: u32,
        start_param: f64,
        end_param: f64,
    )
        requires { HasRoom 181 self.old }
        ensures { Writes (told_of number place connector source reason start_rule end_rule start_param end_param) self.old self.new }
    {
        self.three(number, place, connector);
        self.three(source, reason, start_rule);
        self.decimal(end_rule as u64, b' ');
        self.pair(start_param, end_param);
    }

    // An answer: a line for the count and the closed mark, and a line for each vertex. Nothing is written where there
    // are more vertices than a packed job's answer can have.
    pub fn answer(&mut self, count: usize, closed: bool, vertices: &[f64; 4608], flags: &[u8; 1536])
        requires { HasRoom 98304 self.old }
        ensures { Writes (printed_of count closed vertices.now flags.now) self.old self.new }
    {
        if count <= 1536 {
            self.head(count as u64, closed);
            self.lines(count, closed, vertices, flags);
        }
    }

    // The line of an answer's count and its closed mark.
    pub fn head(&mut self, count: u64, closed: bool)
        requires { HasRoom 49 self.old }
        ensures { Writes (head_of count closed) self.old self.new }
    {
        self.decimal(0, b' ');
        self.decimal(count, b' ');
        self.closed(closed);
    }

    // The closed mark and the line's end.
    fn closed(&mut self, closed: bool)
        requires { HasRoom 7 self.old }
        ensures { Writes (word_of closed then line_end) self.old self.new }
    {
        if closed {
            self.word(b"closed", b'\n');
        } else {
            self.word(b"open", b'\n');
        }
    }

    // The lines of the vertices, one after the other.
    pub fn lines(&mut self, count: usize, closed: bool, vertices: &[f64], flags: &[u8])
        requires vertices { 3 * count ≤ length vertices.now }
        requires flags { count ≤ length flags.now }
        requires room { HasRoom (53 * count) self.old }
        ensures { Writes (lines_of count closed vertices.now flags.now count) self.old self.new }
    {
        for (i, &flag) in flags[..count].iter().enumerate() {
            let v = PlineVertex {
                x: vertices[3 * i],
                y: vertices[3 * i + 1],
                bulge: vertices[3 * i + 2],
            };
            self.line(v, mark_of(is_last(count, closed, i), flag), b'\n');
        }
    }

    // A vertex's numbers by their bits, and the mark of the segment that leaves it.
    pub fn line(&mut self, v: PlineVertex, mark: u8, end: u8)
        requires { HasRoom 53 self.old }
        ensures { Writes (row_of v.x v.y v.bulge mark end) self.old self.new }
    {
        self.hex(v.x, b' ');
        self.hex(v.y, b' ');
        self.hex(v.bulge, b' ');
        self.word(&[mark], end);
    }

    // The origins of the output segments: a line for their count, and a line for each. Nothing is written where there
    // are more segments than a packed job's answer can have.
    pub fn origins(&mut self, count: usize, origins: &[u32; 1536])
        requires { HasRoom 98304 self.old }
        ensures { Writes (printed count (origins_text count (origins_in origins.now))) self.old self.new }
    {
        if count <= 1536 {
            self.decimal(0, b' ');
            self.decimal(count as u64, b'\n');
            self.origin_lines(count, origins);
        }
    }

    // The lines of the first `count` origins.
    fn origin_lines(&mut self, count: usize, origins: &[u32])
        requires origins { count ≤ length origins.now }
        requires room { HasRoom (31 * count) self.old }
        ensures { Writes (origin_lines (take count (origins_in origins.now))) self.old self.new }
    {
        for &code in &origins[..count] {
            self.origin(Origin::from(code));
        }
    }

    // The line of one output segment.
    pub fn origin(&mut self, origin: Origin)
        requires { HasRoom 31 self.old }
        ensures { Writes (origin_line origin) self.old self.new }
    {
        match origin {
            Origin::Span(source) => {
                self.word(b"span", b' ');
                self.decimal(source.0 as u64, b'\n');
            }
            Origin::Connector(source) => {
                self.word(b"connector", b' ');
                self.decimal(source.0 as u64, b'\n');
            }
        }
    }
}

// A refusal as a whole text, at a buffer's start, which has room for any. Answers its length.
pub fn put_refusal(number: u32, place: u32, out: &mut [u8; 98304]) -> usize
    ensures prefix_len { IsPrefixLen result out.new }
    ensures value { result ≡ length (refusal_of number place) }
    ensures out_after { out.new ≡ refusal_of number place ++ drop result out.old }
{
    let mut text = Text::new(out);
    text.refusal(number, place);
    text.len()
}

// The same of what is told of an output segment: seven numbers, and two parameters by their bits.
pub fn put_told(
    number: u32,
    place: u32,
    connector: u32,
    source: u32,
    reason: u32,
    start_rule: u32,
    end_rule: u32,
    start_param: f64,
    end_param: f64,
    out: &mut [u8; 98304],
) -> usize
    ensures prefix_len { IsPrefixLen result out.new }
    ensures value { result ≡ length (told_of number place connector source reason start_rule end_rule start_param end_param) }
    ensures out_after { out.new ≡ told_of number place connector source reason start_rule end_rule start_param end_param ++ drop result out.old }
{
    let mut text = Text::new(out);
    text.told(
        number,
        place,
        connector,
        source,
        reason,
        start_rule,
        end_rule,
        start_param,
        end_param,
    );
    text.len()
}

// The same of an answer.
pub fn put_answer(
    count: usize,
    closed: bool,
    vertices: &[f64; 4608],
    flags: &[u8; 1536],
    out: &mut [u8; 98304],
) -> usize
    ensures prefix_len { IsPrefixLen result out.new }
    ensures value { result ≡ length (printed_of count closed vertices.now flags.now) }
    ensures out_after { out.new ≡ printed_of count closed vertices.now flags.now ++ drop result out.old }
{
    let mut text = Text::new(out);
    text.answer(count, closed, vertices, flags);
    text.len()
}

// The same of the origins of the output segments.
pub fn put_origins(count: usize, origins: &[u32; 1536], out: &mut [u8; 98304]) -> usize
    ensures prefix_len { IsPrefixLen result out.new }
    ensures value { result ≡ length (printed count (origins_text count (origins_in origins.now))) }
    ensures out_after { out.new ≡ printed count (origins_text count (origins_in origins.now)) ++ drop result out.old }
{
    let mut text = Text::new(out);
    text.origins(count, origins);
    text.len()
}

// No segment leaves the last vertex of an open answer.
fn is_last(count: usize, closed: bool, i: usize) -> bool
    requires { i + 1 ≤ count }
    ensures { result ≡ (not closed and eqb (i + 1) count) }
{
    !closed && i + 1 == count
}

// The mark of the segment that leaves a vertex.
pub fn mark_of(last: bool, flag: u8) -> u8
    ensures { result ≡ mark_of last flag }
{
    if last {
        return b'-';
    }
    if flag == 1 {
        return b'!';
    }
    b'.'
}
