// An output, read back from its text. Digits are taken as they come, and past the end all is 0: what is read counts
// only where its own text turns out to be what was read.
ghost use Rattle.std.specs.Prelude.{◌≡◌, [], ◌∷◌, ◌++◌, ◌+◌, ◌*◌, ◌≤◌, ◌<◌, length, drop};
ghost use Rattle.std.proofs.lemmas.List.Edits.{sets};
ghost use Rattle.packed.specs.Text.{head_of};
ghost use Rattle.same_reply.specs.Read.{byte_at, digit_of, hexadecimal, double_at, count_of, closed_of, numbers_at, flag_of, flags_at, lines_from};

use packed::Text;

// What an output's first line says, and where the lines of its vertices start.
#[derive(Clone, Copy)]
pub struct Head {
    pub count: usize,
    pub closed: bool,
    pub lines: usize,
}

// The byte at place i; past the end 0.
fn byte_at(bytes: &[u8], i: usize) -> u8
    ensures { result ≡ byte_at bytes.now i }
{
    bytes.get(i).copied().unwrap_or(0)
}

// The low four bits are the digit, and from `a` on nine less than it.
fn digit_of(c: u8) -> u64
    ensures value { result ≡ digit_of c }
    ensures upper_bound { result < 16 }
{
    let low = (c % 16) as u64;
    if c < 64 {
        return low;
    }
    (low + 9) % 16
}

// The number in the sixteen digits from place i on.
fn hexadecimal(bytes: &[u8], i: usize) -> u64
    requires { i ≤ 0xffff_ffff_ffff }
    ensures { result ≡ hexadecimal bytes.now i 16 }
{
    let mut value = 0u64;
    for k in 0..16 {
        value = value * 16 + digit_of(byte_at(bytes, i + k));
    }
    value
}

fn double_at(bytes: &[u8], i: usize) -> f64
    requires { i ≤ 0xffff_ffff_ffff }
    ensures { result ≡ double_at bytes.now i }
{
    bits::number_of(hexadecimal(bytes, i))
}

// The count, after the 0 and the space of an output's first line: at most five digits.
fn count_of(text: &[u8]) -> usize
    ensures value { result ≡ count_of text.now }
    ensures upper_bound { result ≤ 200000 }
{
    let mut n = 0;
    for k in 0..5 {
        let c = byte_at(text, 2 + k);
        if c == b' ' {
            return n;
        }
        n = n * 10 + digit_of(c) as usize;
    }
    n
}

// The mark stands after the count and its space. Printing tells how long the count is: `open` and the line's end
// take five bytes.
fn closed_of(text: &[u8], count: usize) -> bool
    requires count_value { count ≡ count_of text.now }
    requires count_bound { count ≤ 200000 }
    ensures { result ≡ closed_of text.now }
{
    byte_at(text, length_of_head(count, false) - 5) == b'c'
}

// The first line of an output's text.
pub fn head_of(text: &[u8]) -> Head
    ensures count_value { result.count ≡ count_of text.now }
    ensures closed_value { result.closed ≡ closed_of text.now }
    ensures lines_value { result.lines ≡ lines_from text.now }
    ensures count_bound { result.count ≤ 200000 }
    ensures lines_bound { result.lines ≤ 49 }
{
    let count = count_of(text);
    let closed = closed_of(text, count);
    Head {
        count,
        closed,
        lines: length_of_head(count, closed),
    }
}

// How long the first line is: as long as it is printed.
fn length_of_head(count: usize, closed: bool) -> usize
    ensures value { result ≡ length (head_of count closed) }
    ensures upper_bound { result ≤ 49 }
{
    let mut out = [0u8; 49];
    let mut head = Text::new(&mut out);
    head.head(count as u64, closed);
    head.len()
}

// The numbers of `count` vertices, whose lines stand from place i on, at the start of `numbers`.
pub fn read_numbers(bytes: &[u8], i: usize, count: usize, numbers: &mut [f64])
    requires i_bound { i ≤ 0xffff_ffff }
    requires count_bound { count ≤ 12288 }
    requires count_in_bounds { 3 * count ≤ length numbers.old }
    ensures { numbers.new ≡ numbers_at bytes.now i count ++ drop (3 * count) numbers.old }
{
    for k in 0..count {
        put_numbers(bytes, i + 53 * k, numbers, 3 * k);
    }
}

// The three numbers of the line at place i, into the places from `at` on.
fn put_numbers(bytes: &[u8], i: usize, numbers: &mut [f64], at: usize)
    requires i_bound { i ≤ 0xff_ffff_ffff }
    requires at_in_bounds { at + 3 ≤ length numbers.old }
    ensures { numbers.new ≡ sets numbers.old at (double_at bytes.now i ∷ double_at bytes.now (i + 17) ∷ double_at bytes.now (i + 34) ∷ []) }
{
    numbers[at] = double_at(bytes, i);
    numbers[at + 1] = double_at(bytes, i + 17);
    numbers[at + 2] = double_at(bytes, i + 34);
}

// The flags of `count` segments, at the start of `flags`.
pub fn read_flags(bytes: &[u8], i: usize, count: usize, flags: &mut [u8])
    requires i_bound { i ≤ 0xffff_ffff }
    requires count_bound { count ≤ 12288 }
    requires count_in_bounds { count ≤ length flags.old }
    ensures { flags.new ≡ flags_at bytes.now i count ++ drop count flags.old }
{
    for (k, flag) in flags[..count].iter_mut().enumerate() {
        *flag = flag_of(byte_at(bytes, i + 53 * k + 51));
    }
}

// 1 for the mark of a segment that is flagged.
fn flag_of(mark: u8) -> u8
    ensures { result ≡ flag_of mark }
{
    if mark == b'!' {
        return 1;
    }
    0
}
