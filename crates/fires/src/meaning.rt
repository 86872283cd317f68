// What a fire is: a number of steps and an answer for each, and the laws that the answers keep.
ghost use Rattle.std.specs.Prelude.{◌≡◌, ℕ};
ghost use Rattle.fires.specs.Meaning.{Answers, Reading};

use thiserror::Error;

// Why a fire tells no flux of a step.
#[derive(Clone, Copy, PartialEq, Eq, Debug, Error)]
pub enum NoFlux {
    #[error("the fire has no reading")]
    Missing,
    #[error("the fire has ended")]
    Ended,
}

pub trait Fire {
    // The number of steps.
    ghost steps: { Self → ℕ };

    // What is said of a step at a steel temperature in millidegrees.
    ghost tells: { Self → ℕ → ℕ → Reading };

    fn step_count(&self) -> usize
        ensures { result ≡ steps self.now };

    // The net heat flux into the steel in W/m². The error is why there is none.
    fn reading_at(&self, step: usize, temperature: u32) -> Result<i32, NoFlux>
        ensures { result ≡ tells self.now step temperature };

    ghost answers: { (f : Self) → Answers (steps f) (tells f) };
}
