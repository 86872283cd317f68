// A gas curve: handed in as whole gas temperatures, and asked as a fire (EN 1991-1-2, with emissivity 0.7 and 25 W/(m² K)).
ghost use Rattle.std.specs.Prelude.{◌≡◌, ◌+◌, ◌^◌, false, [], length, pos, ◌*ℤ◌, is_ok, IfOk, OnOk, not};
ghost use Rattle.std.specs.List.{position};
ghost use Rattle.std.specs.Option.{option_map};
ghost use Rattle.std.specs.Result.{result_err};
ghost use Rattle.fires.specs.Gas.{gas_fault, gas_flux, gas_tells, steel_degree, temperatures_of};
ghost use Rattle.fires.specs.GasDegrees.{is_gas_degree};
ghost use Rattle.fires.specs.Meaning.{Within};
ghost use Rattle.fires.specs.Refusal.{refused};
ghost use Rattle.rounding.specs.Quotient.{rounded_up};
ghost use Rattle.fires.specs.GasLaws.{gas_answers};

use crate::gas::{Degree, GasCurve, MOST_STEPS};
use crate::meaning::{Fire, NoFlux};
use crate::refusal::Refusal;
use arrayvec::ArrayVec;

impl GasCurve {
    // A curve with no steps.
    pub fn new() -> GasCurve
        ensures { temperatures_of result ≡ [] }
    {
        GasCurve {
            temperatures: ArrayVec::new(),
        }
    }

    // Takes the temperatures in place of those in hand, or refuses and leaves them.
    pub fn read(&mut self, temperatures: &[u32]) -> Result<(), Refusal>
        ensures fault { option_map refused (result_err result) ≡ gas_fault temperatures.now }
        ensures taken { OnOk result (temperatures_of self.new ≡ temperatures.now) }
        ensures kept { is_ok result ≡ false → self.new ≡ self.old }
    {
        *self = curve_of(temperatures)?;
        Ok(())
    }
}

// The curve of the temperatures, or why they make none: their number comes first.
// Private, and no `TryFrom`: from outside, a curve is read into the one in hand.
fn curve_of(given: &[u32]) -> Result<GasCurve, Refusal>
    ensures fault { option_map refused (result_err result) ≡ gas_fault given.now }
    ensures taken { IfOk result (λ curve. temperatures_of curve ≡ given.now) }
{
    // Looked at before any is copied, so that a refusal costs no more than the look.
    if given.len() > MOST_STEPS {
        return Err(Refusal::GasTemperature { step: MOST_STEPS });
    }
    match first_outside(given) {
        Some(step) => Err(Refusal::GasTemperature { step }),
        None => Ok(GasCurve {
            temperatures: ArrayVec::try_from(given).unwrap(),
        }),
    }
}

// The first step whose temperature lies outside 20 to 1,200.
fn first_outside(temperatures: &[u32]) -> Option<usize>
    ensures { result ≡ position (λ gas. not (is_gas_degree gas)) temperatures.now }
{
    temperatures
        .iter()
        .position(|gas| !(20..=1200).contains(gas))
}

impl Degree {
    // The fourth power of the absolute temperature.
    fn fourth_power(self) -> i64
        ensures { result ≡ pos ((self.whole + 273) ^ 4) }
    {
        i64::from(self.whole + 273).pow(4)
    }
}

// What a difference of fourth powers radiates, rounded up. None is above that of 1,200 degrees.
fn radiation(powers: i64) -> i64
    requires { Within (1473 ^ 4) powers }
    ensures { result ≡ rounded_up (pos 3969 *ℤ powers) 100_000_000_000 }
{
    rounding::rounded_up(3969 * powers, 100_000_000_000)
}

// Convection and radiation together. Their sum is proved to fit, so no `try_from`.
fn net_flux(gas: Degree, steel: Degree) -> i32
    ensures { result ≡ gas_flux gas.whole steel.whole }
{
    let convection = 25 * (i64::from(gas.whole) - i64::from(steel.whole));
    let powers = gas.fourth_power() - steel.fourth_power();
    (convection + radiation(powers)) as i32
}

// The steel's whole degree, rounded down.
fn steel_degree(temperature: u32) -> Degree
    ensures { result.whole ≡ steel_degree temperature }
{
    Degree {
        whole: temperature.clamp(20_000, 1_200_000) / 1000,
    }
}

impl Fire for GasCurve {
    ghost steps = { λ c. length (temperatures_of c) };

    ghost tells = { λ c. gas_tells (temperatures_of c) };

    ghost answers = { λ f. gas_answers (temperatures_of f) f.degrees };

    fn step_count(&self) -> usize {
        self.temperatures.len()
    }

    fn reading_at(&self, step: usize, temperature: u32) -> Result<i32, NoFlux> {
        let gas = self.temperatures.get(step).ok_or(NoFlux::Ended)?;
        Ok(net_flux(Degree { whole: *gas }, steel_degree(temperature)))
    }
}
