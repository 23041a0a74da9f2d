// How outer corners are made, as a type: code that is generic over it is compiled for each, with nothing of the
// other.
ghost use Rattle.std.specs.Prelude.{◌≡◌};
ghost use Rattle.segments.specs.Modes.{are_pointed};
ghost use Rattle.segments.specs.declared.Corners.TheVariants as Made;

use segments::Corners;

pub trait Mode: Copy {
    ghost use Rattle.segments.specs.declared.Corners.{Corners};

    // the corners that it stands for
    ghost made: { Self → Corners };

    fn corners(self) -> Corners
        ensures { result ≡ made self };

    fn is_pointed(self) -> bool
        ensures { result ≡ are_pointed (made self) };
}

#[derive(Clone, Copy)]
pub struct Round;

// Where the tip is at most `ratio` times the offset from the corner (2026-13).
#[derive(Clone, Copy)]
pub struct Pointed {
    pub ratio: f64,
}

impl Mode for Round {
    ghost made = { λ _. Made.Round };

    fn corners(self) -> Corners {
        Corners::Round
    }

    fn is_pointed(self) -> bool {
        false
    }
}

impl Mode for Pointed {
    ghost made = { λ p. Made.Pointed p.ratio };

    fn corners(self) -> Corners {
        Corners::Pointed { ratio: self.ratio }
    }

    fn is_pointed(self) -> bool {
        true
    }
}

// Either, as it is told when the program runs.
impl Mode for Corners {
    ghost made = { λ c. c };

    fn corners(self) -> Corners {
        self
    }

    fn is_pointed(self) -> bool {
        self.are_pointed()
    }
}
