// Why a record, a curve or a shading is refused.
ghost use Rattle.std.specs.Prelude.{◌≡◌};
ghost use Rattle.fires.specs.Refusal.{refused};

use thiserror::Error;

#[derive(Clone, Copy, PartialEq, Eq, Debug, Error)]
pub enum Refusal {
    #[error("a gauge record of odd length or of more than 8,192 bytes")]
    RecordLength,
    // Of too many temperatures the step is 4096.
    #[error("more than 4,096 gas temperatures, or one outside 20 to 1,200 (step {step})")]
    GasTemperature { step: usize },
    #[error("a shading outside 1 to 1,000")]
    Shading,
}

impl Refusal {
    // A variant with a value takes no number of its own, so a match gives them.
    pub fn number(&self) -> u32
        ensures { result ≡ (refused self.now).0 }
    {
        match self {
            Refusal::RecordLength => 8,
            Refusal::GasTemperature { .. } => 9,
            Refusal::Shading => 10,
        }
    }
}
