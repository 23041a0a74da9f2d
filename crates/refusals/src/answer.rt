// What a caller is told of any answer that may be a refusal.
#![tactic(auto)]

ghost use Rattle.std.specs.Prelude.{◌≡◌};
ghost use Rattle.refusals.specs.Table.{number, place};

use crate::Refusal;

pub trait Answer {
    fn number(self) -> u32;

    fn place(self) -> u32;
}

impl<A: Copy> Answer for Result<A, Refusal> {
    // The number of its refusal, and 0 where it is none.
    fn number(self) -> u32
        ensures { result ≡ number self }
    {
        match self {
            Ok(_) => 0,
            Err(refusal) => refusal.number(),
        }
    }

    // The place that its refusal points at, and 0 where it is none.
    fn place(self) -> u32
        ensures { result ≡ place self }
    {
        match self {
            Ok(_) => 0,
            Err(refusal) => refusal.place(),
        }
    }
}
