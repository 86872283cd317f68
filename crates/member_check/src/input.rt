// The figures of a member as they are given, and the causes for which they are refused.
ghost use Rattle.std.specs.Prelude.{◌≡◌};
ghost use Rattle.member_check.specs.Refusal.{refused};

use thiserror::Error;

// A section factor per metre, the seconds of a step, a yield strength in MPa, a cold strength and, if the member can buckle, its ideal buckling load.
#[derive(Clone, Copy)]
pub struct Figures {
    pub section_factor: u64,
    pub seconds: u64,
    pub yield_strength: u64,
    pub cold_strength: u64,
    pub buckling_load: Option<u64>,
}

// The figure that is out of its range, by its number. `ColdStrength` stands for the ideal buckling load too.
#[derive(Clone, Copy, PartialEq, Eq, Debug, Error)]
pub enum Refusal {
    #[error("section factor outside 10 to 500")]
    SectionFactor = 1,
    #[error("seconds outside 1 to 5")]
    Seconds = 2,
    #[error("yield strength outside 200 to 500")]
    YieldStrength = 3,
    #[error("cold strength or ideal buckling load outside 1 to 1,000,000,000")]
    ColdStrength = 4,
}

impl Refusal {
    // Of its own: a trait over the refusals of all crates would want a crate of its own for this line.
    pub fn number(&self) -> u32
        ensures { result ≡ (refused self.now).0 }
    {
        *self as u32
    }
}
