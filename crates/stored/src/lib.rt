// The head of a stored job, as the programs over stored jobs read it from standard input.
#![tactic(auto)]

ghost use Rattle.std.specs.Prelude.{◌≡◌, ◌%◌, eqb, ltb};
ghost use Rattle.floats.specs.Choice.{when◌give◌else◌};
ghost use Rattle.segments.specs.Modes.{round_by, pointed_by};

use segments::Settings;
use words::{read_number, read_word};

// How many numbers the source has, whether it is closed, and its settings.
#[derive(Clone, Copy)]
pub struct Head {
    pub numbers: usize,
    pub closed: bool,
    pub settings: Settings,
}

// A head by its words and numbers. The mode is 1 for closed, and 2 more for pointed corners; with round ones
// the ratio counts for nothing.
pub fn head_of(numbers: u64, mode: u64, offset: f64, eps: f64, ratio: f64) -> Head
    ensures numbers { result.numbers ≡ numbers }
    ensures closed { result.closed ≡ eqb (mode % 2) 1 }
    ensures settings { result.settings ≡ when ltb 1 mode give pointed_by offset eps ratio else round_by offset eps }
{
    Head {
        numbers: numbers as usize,
        closed: mode % 2 == 1,
        settings: settings_of(mode > 1, offset, eps, ratio),
    }
}

fn settings_of(pointed: bool, offset: f64, eps: f64, ratio: f64) -> Settings
    ensures { result ≡ when pointed give pointed_by offset eps ratio else round_by offset eps }
{
    if pointed {
        return Settings::pointed(offset, eps, ratio);
    }
    Settings::round(offset, eps)
}

// The next head of standard input: of pointed corners the ratio is read too. What is read is not told (the kit says
// nothing of a stream); what becomes of it is `head_of`'s.
pub fn read_head() -> Head {
    let numbers = read_word();
    let mode = read_word();
    let offset = read_number();
    let eps = read_number();
    let ratio = read_ratio(mode > 1);
    head_of(numbers, mode, offset, eps, ratio)
}

fn read_ratio(pointed: bool) -> f64 {
    if pointed {
        return read_number();
    }
    0.0
}
