// The temperatures of a gas curve.
pub mod curve;

ghost use Rattle.std.specs.Prelude.{◌≤◌, length};
ghost use Rattle.fires.specs.GasDegrees.{GasDegree, GasDegrees};

use arrayvec::ArrayVec;

const MOST_STEPS: usize = 4096;

// A whole degree from 20 to 1,200.
#[derive(Clone, Copy)]
struct Degree {
    whole: u32,
    ghost within: { GasDegree whole },
}

// A whole gas temperature for each step.
#[derive(Drop)]
pub struct GasCurve {
    temperatures: ArrayVec<u32, MOST_STEPS>,
    ghost fits: { length temperatures.items ≤ 4096 },
    ghost degrees: { GasDegrees temperatures.items },
}
