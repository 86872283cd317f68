// The causes for which a call is refused.
ghost use Rattle.std.specs.Prelude.{◌≡◌};
ghost use Rattle.trial.specs.Refusal.{refused};

use thiserror::Error;

// A load that the member does not carry at 20 degrees, or more steps to take back than stand.
#[derive(Clone, Copy, PartialEq, Eq, Debug, Error)]
pub enum Refusal {
    #[error("the member does not carry it cold")]
    NotCarriedCold = 11,
    #[error("fewer steps stand")]
    BackBeyondStart = 12,
}

impl Refusal {
    // Of its own: a trait over the refusals of all crates would want a crate of its own for this line.
    pub fn number(&self) -> u32
        ensures { result ≡ (refused self.now).0 }
    {
        *self as u32
    }
}
