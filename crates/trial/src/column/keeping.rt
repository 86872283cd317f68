// A column: steps added, taken back, and looked through.
ghost use Rattle.std.specs.Prelude.{◌≡◌, ℕ, ◌+◌, ◌-◌, ◌<◌, ◌≤◌, nat_le, nat_lt};
ghost use Rattle.trial.specs.Columns.{steps_of, temperature_of};
ghost use Rattle.trial.specs.Questions.{hottest, first, temperature_at};

use crate::column::{Column, Temperature};
use arrayvec::ArrayVec;

const MOST_STEPS: usize = 4096;

impl Column {
    // Step 0 alone, cold.
    pub(crate) fn cold() -> Column
        ensures standing { steps_of result ≡ 0 }
        ensures start { temperature_of result 0 ≡ 20000 }
    {
        let mut temperatures = ArrayVec::new();
        temperatures.push(20_000);
        Column {
            temperatures,
            standing: 0,
        }
    }

    // How many steps stand, step 0 not counted.
    pub(crate) fn standing(&self) -> usize
        ensures { result ≡ steps_of self.now }
    {
        self.standing
    }

    // Whether as many steps stand as may.
    pub(crate) fn is_full(&self) -> bool
        ensures { result ≡ nat_le 4096 (steps_of self.now) }
    {
        self.standing == MOST_STEPS
    }

    // The temperature of the last standing step.
    pub(crate) fn last(&self) -> Temperature
        ensures { result.millidegrees ≡ temperature_of self.now (steps_of self.now) }
    {
        Temperature {
            millidegrees: self.temperatures[self.standing],
        }
    }

    pub(crate) fn at(&self, step: usize) -> Option<u32>
        ensures { result ≡ temperature_at (temperature_of self.now) (steps_of self.now) step }
    {
        self.temperatures[..=self.standing].get(step).copied()
    }

    // One step more, in the place of one taken back if there is one.
    pub(crate) fn add(&mut self, temperature: Temperature)
        requires { steps_of self.old < 4096 }
        ensures standing { steps_of self.new ≡ steps_of self.old + 1 }
        ensures new { temperature_of self.new (steps_of self.old + 1) ≡ temperature.millidegrees }
        ensures kept { (k : ℕ) → k ≤ steps_of self.old → temperature_of self.new k ≡ temperature_of self.old k }
    {
        let next = self.standing + 1;
        if next < self.temperatures.len() {
            self.temperatures[next] = temperature.millidegrees;
        } else {
            self.temperatures.push(temperature.millidegrees);
        }
        self.standing = next;
    }

    // Takes the last steps away.
    pub(crate) fn cut(&mut self, steps: usize)
        requires { steps ≤ steps_of self.old }
        ensures standing { steps_of self.new ≡ steps_of self.old - steps }
        ensures kept { (k : ℕ) → temperature_of self.new k ≡ temperature_of self.old k }
    {
        self.standing -= steps;
    }

    // The highest temperature of a standing step.
    pub(crate) fn hottest(&self) -> u32
        ensures { result ≡ hottest (temperature_of self.now) (steps_of self.now) }
    {
        let mut highest = self.temperatures[0];
        // A form that the project keeps: a range of steps, and the column read by index.
        for step in 0..self.standing + 1 {
            highest = highest.max(self.temperatures[step]);
        }
        highest
    }

    // The first standing step above a temperature.
    pub(crate) fn first_above(&self, limit: u32) -> Option<usize>
        ensures { result ≡ first (λ k. nat_lt limit (temperature_of self.now k)) (steps_of self.now + 1) }
    {
        // A form that the project keeps: a range of steps, and the column read by index.
        for step in 0..self.standing + 1 {
            if limit < self.temperatures[step] {
                return Some(step);
            }
        }
        None
    }
}
