// The text of an output, and the text of what differs between two.
ghost use Rattle.std.specs.Prelude.{◌++◌, ◌+◌, ◌*◌, ◌≤◌, length, take};
ghost use Rattle.packed.specs.Text.{◌then◌, decimal_of, line_end, space, text_of};
ghost use Rattle.packed.specs.Writes.{HasRoom, Writes};
ghost use Rattle.same_reply.specs.Same.{entry_lines, differences_text};

use compare::Differences;
use packed::Text;

// The text of an output as `rawoffset` prints it.
pub fn put_output(count: usize, closed: bool, numbers: &[f64], flags: &[u8], text: &mut Text)
    requires numbers { 3 * count ≤ length numbers.now }
    requires flags { count ≤ length flags.now }
    requires room { HasRoom (49 + 53 * count) text.old }
    ensures { Writes (text_of count closed numbers.now flags.now) text.old text.new }
{
    text.head(count as u64, closed);
    text.lines(count, closed, numbers, flags);
}

// What differs between two outputs.
pub fn put_differences(
    d: Differences,
    numbers: &[u32; 12288],
    fields: &[u8; 12288],
    text: &mut Text,
)
    requires listed { d.listed ≤ 12288 }
    requires room { HasRoom 524288 text.old }
    ensures { Writes (differences_text d numbers.now fields.now) text.old text.new }
{
    text.three(0, d.listed, d.unmatched);
    text.decimal(d.marks_number() as u64, b'\n');
    put_entries(d.listed as usize, numbers, fields, text);
}

// The lines of the first `count` entries.
fn put_entries(count: usize, numbers: &[u32], fields: &[u8], text: &mut Text)
    requires numbers { count ≤ length numbers.now }
    requires fields { count ≤ length fields.now }
    requires room { HasRoom (42 * count) text.old }
    ensures { Writes (entry_lines (take count numbers.now) (take count fields.now)) text.old text.new }
{
    for (&number, &different) in numbers[..count].iter().zip(&fields[..count]) {
        put_entry(number, different, text);
    }
}

// The line of one vertex.
fn put_entry(number: u32, fields: u8, text: &mut Text)
    requires { HasRoom 42 text.old }
    ensures { Writes ((decimal_of number then space) ++ (decimal_of fields then line_end)) text.old text.new }
{
    text.decimal(number as u64, b' ');
    text.decimal(fields as u64, b'\n');
}
