// A fire whose flux reaches the steel in part.
ghost use Rattle.std.specs.Prelude.{◌≡◌, pos, ◌*ℤ◌, IfOk};
ghost use Rattle.std.specs.Option.{option_map};
ghost use Rattle.std.specs.Result.{result_err};
ghost use Rattle.rounding.specs.Quotient.{rounded_up};
ghost use Rattle.fires.specs.Refusal.{refused};
ghost use Rattle.fires.specs.Shaded.{fire_below, shaded_reading, shading_fault, shading_of, thousandths_of};
ghost use Rattle.fires.specs.ShadedLaws.{shaded_answers};

use crate::meaning::{Fire, NoFlux};
use crate::refusal::Refusal;
use crate::shading::Shading;

impl Shading {
    pub fn new(thousandths: u32) -> Result<Shading, Refusal>
        ensures fault { option_map refused (result_err result) ≡ shading_fault thousandths }
        ensures taken { IfOk result (λ shading. thousandths_of shading ≡ thousandths) }
    {
        match thousandths {
            1..=1000 => Ok(Shading { thousandths }),
            _ => Err(Refusal::Shading),
        }
    }

    // The part of a flux that reaches the steel, rounded up. It is proved to fit as the flux does, so no `try_from`.
    fn part_of(self, flux: i32) -> i32
        ensures { result ≡ rounded_up (flux *ℤ pos (thousandths_of self)) 1000 }
    {
        let product = i64::from(flux) * i64::from(self.thousandths);
        rounding::rounded_up(product, 1000) as i32
    }
}

#[derive(Drop)]
pub struct Shaded<F> {
    below: F,
    shading: Shading,
}

impl<F> Shaded<F> {
    pub fn over(below: F, shading: Shading) -> Shaded<F>
        ensures fire { fire_below result ≡ below }
        ensures part { shading_of result ≡ shading }
    {
        Shaded { below, shading }
    }
}

impl<F: Fire> Fire for Shaded<F> {
    ghost steps = { λ f. F.Fire.steps (fire_below f) };

    ghost tells = { λ f step temperature. shaded_reading (thousandths_of (shading_of f)) (F.Fire.tells (fire_below f) step temperature) };

    ghost answers = { λ f. shaded_answers f.shading.thousandths f.shading.most _ _ (F.Fire.answers f.below) };

    fn step_count(&self) -> usize {
        self.below.step_count()
    }

    fn reading_at(&self, step: usize, temperature: u32) -> Result<i32, NoFlux> {
        self.below
            .reading_at(step, temperature)
            .map(|flux| self.shading.part_of(flux))
    }
}
