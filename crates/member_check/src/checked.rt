// A member whose figures are in their ranges.
ghost use Rattle.std.specs.Prelude.{◌≤◌};
ghost use Rattle.std.specs.Option.{unwrap_or};

use crate::input::Figures;

mod making;

#[derive(Clone, Copy)]
pub struct Member {
    given: Figures,
    ghost section_least: { 10 ≤ given.section_factor },
    ghost section_most: { given.section_factor ≤ 500 },
    ghost seconds_least: { 1 ≤ given.seconds },
    ghost seconds_most: { given.seconds ≤ 5 },
    ghost yield_least: { 200 ≤ given.yield_strength },
    ghost yield_most: { given.yield_strength ≤ 500 },
    ghost strength_least: { 1 ≤ given.cold_strength },
    ghost strength_most: { given.cold_strength ≤ 1000000000 },
    ghost buckling_least: { 1 ≤ unwrap_or given.buckling_load 1 },
    ghost buckling_most: { unwrap_or given.buckling_load 1 ≤ 1000000000 },
}
