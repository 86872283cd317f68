// The causes that stop a step.
ghost use Rattle.std.specs.Prelude.{◌≡◌};
ghost use Rattle.trial.specs.Course.{stop_code};
ghost use Rattle.trial.specs.Heating.{unheated};
ghost use Rattle.trial.specs.Refusal.{stop_number};

use fires::NoFlux;
use thiserror::Error;

// 4,096 steps stand, the fire has ended, it has no reading, or the step would end above 1,200 degrees.
// Two of the texts are those of `NoFlux` again: a variant that held one could have no number of its own.
#[derive(Clone, Copy, PartialEq, Eq, Debug, Error)]
pub enum Stop {
    #[error("all 4096 steps stand")]
    SheetFull = 13,
    #[error("the fire has ended")]
    FireEnded = 14,
    #[error("the fire has no reading")]
    NoReading = 15,
    #[error("the step would end above 1200 degrees")]
    TooHot = 16,
}

impl Stop {
    // Of its own: a trait over the refusals of all crates would want a crate of its own for this line.
    pub fn number(&self) -> u32
        ensures { result ≡ stop_number self.now }
    {
        *self as u32
    }

    // The number of what stopped a heat, 0 if nothing did.
    pub fn code(stop: Option<Stop>) -> u32
        ensures { result ≡ stop_code stop }
    {
        stop.map_or(0, |stop| stop.number())
    }
}

impl From<NoFlux> for Stop {
    ghost from_gives = { λ reason stop. stop ≡ unheated reason };

    fn from(reason: NoFlux) -> Stop {
        match reason {
            NoFlux::Missing => Stop::NoReading,
            NoFlux::Ended => Stop::FireEnded,
        }
    }
}
