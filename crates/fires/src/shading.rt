// How much of the flux of a fire reaches the steel (EN 1993-1-2, 4.2.5.1).
pub mod shaded;

ghost use Rattle.std.specs.Prelude.{◌≤◌};

// A number of thousandths from 1 to 1,000.
// A type for any bounds would still want this name, a refusal and a `new` here.
#[derive(Clone, Copy)]
pub struct Shading {
    thousandths: u32,
    ghost least: { 1 ≤ thousandths },
    ghost most: { thousandths ≤ 1000 },
}
