// Two outputs side by side, for callers in C and Rust: one function, by its C name.
#![tactic(auto)]

ghost use Rattle.std.specs.Prelude.{◌≡◌};
ghost use Rattle.compare.specs.Compare.{output, compare_of};
ghost use Rattle.blidrosk_compare.specs.Handed.{handed, handed_of};

use compare::{Differences, Output};
use refusals::Answer;

// Lays two outputs side by side and returns the number of the answer. `answer` is set to number, place,
// how many vertices are listed, how many only one output has, and whether the closed marks differ, 1 or 0.
// The list goes to the start of `numbers` and `fields`.
#[unsafe(no_mangle)]
pub extern "C" fn blidrosk_compare(
    a: &[f64],
    a_closed: bool,
    a_flags: &[u8],
    b: &[f64],
    b_closed: bool,
    b_flags: &[u8],
    numbers: &mut [u32],
    fields: &mut [u8],
    answer: &mut [u32; 5],
) -> u32
    ensures { handed result answer.new numbers.new fields.new
        ≡ handed_of (compare_of (output a.now a_closed a_flags.now) (output b.now b_closed b_flags.now) numbers.old fields.old) }
{
    let first = Output {
        numbers: a,
        closed: a_closed,
        flags: a_flags,
    };
    let second = Output {
        numbers: b,
        closed: b_closed,
        flags: b_flags,
    };
    let compared = compare::compare(&first, &second, numbers, fields);
    let found = compared.unwrap_or(Differences::none());
    let number = compared.number();
    *answer = [
        number,
        compared.place(),
        found.listed,
        found.unmatched,
        found.marks_number(),
    ];
    number
}
