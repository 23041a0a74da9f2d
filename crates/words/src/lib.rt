// Numbers in bytes, most significant first, as packed jobs and the programs' stored rows hold them;
// and how the programs over stored samples print.
#![tactic(auto)]

ghost use Rattle.std.specs.Prelude.{◌≡◌, ◌+◌, ◌*◌, ◌≤◌, length};
ghost use Rattle.words.specs.Words.{big_endian, number_at};
ghost use Rattle.words.specs.InnerSteps.{vector_at};

use vectors::Vector2;

// The number in `count` bytes from place `at` on.
pub fn big_endian(bytes: &[u8], at: usize, count: usize) -> u64
    requires count_in_bounds { at + count ≤ length bytes.now }
    requires count_bound { count ≤ 8 }
    ensures { result ≡ big_endian bytes.now at count }
{
    let mut word = 0;
    for &byte in &bytes[at..at + count] {
        word = word * 256 + byte as u64;
    }
    word
}

// The number with the 64 bits from place `at` on.
pub fn number_at(bytes: &[u8], at: usize) -> f64
    requires { at + 8 ≤ length bytes.now }
    ensures { result ≡ number_at bytes.now at }
{
    bits::number_of(big_endian(bytes, at, 8))
}

// A row is words of eight bytes: here its word k, as it stands and as a number, and the vector in
// the words k and k + 1.
pub fn word(row: &[u8], k: usize) -> u64
    requires { 8 * k + 8 ≤ length row.now }
    ensures { result ≡ big_endian row.now (8 * k) 8 }
{
    big_endian(row, 8 * k, 8)
}

pub fn number(row: &[u8], k: usize) -> f64
    requires { 8 * k + 8 ≤ length row.now }
    ensures { result ≡ number_at row.now (8 * k) }
{
    number_at(row, 8 * k)
}

pub fn vector(row: &[u8], k: usize) -> Vector2
    requires { 8 * k + 16 ≤ length row.now }
    ensures { result ≡ vector_at row.now (8 * k) }
{
    let at = 8 * k;
    Vector2 {
        x: number_at(row, at),
        y: number_at(row, at + 8),
    }
}

// The next word of standard input; what lies past its end is zero.
pub fn read_word() -> u64 {
    let mut b = [0u8; 8];
    let _read = io::read_full(0, &mut b);
    word(&b, 0)
}

pub fn read_number() -> f64 {
    bits::number_of(read_word())
}

// So many numbers of it, or as many as there are places.
pub fn read_numbers(count: usize, numbers: &mut [f64]) {
    for number in numbers.iter_mut().take(count) {
        *number = read_number();
    }
}

pub fn print(text: &[u8]) {
    let _written = io::write_all(1, text);
}

// A space and sixteen hexadecimal digits.
pub fn print_word(word: u64) {
    print(b" ");
    let _written = io::print_hex(1, word, 16);
}

pub fn print_number(x: f64) {
    print_word(bits::bits_of(x));
}

pub fn print_vector(v: Vector2) {
    print_number(v.x);
    print_number(v.y);
}

pub fn print_bool(x: bool) {
    if x {
        print(b" true");
    } else {
        print(b" false");
    }
}
