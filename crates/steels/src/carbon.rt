// Carbon steel by EN 1993-1-2, Table 3.1 and 3.4.1.2.
ghost use Rattle.std.specs.Prelude.{◌≡◌, ◌≤◌};
ghost use Rattle.steels.specs.Carbon.{carbon_capacity, carbon_factor, carbon_rows, cubic};
ghost use Rattle.steels.specs.Table.{Linear};
ghost use Rattle.steels.specs.declared.table.Reduction.{Reduction};
ghost use Rattle.steels.specs.CarbonRules.{carbon_factor_law, carbon_capacity_law};

use crate::meaning::Steel;
use crate::table::{Reduction, Row, clamp, factor_at};

const ROWS: [Row; 13] = [
    Row {
        degree: 20,
        strength: 10_000,
        stiffness: 10_000,
    },
    Row {
        degree: 100,
        strength: 10_000,
        stiffness: 10_000,
    },
    Row {
        degree: 200,
        strength: 10_000,
        stiffness: 9000,
    },
    Row {
        degree: 300,
        strength: 10_000,
        stiffness: 8000,
    },
    Row {
        degree: 400,
        strength: 10_000,
        stiffness: 7000,
    },
    Row {
        degree: 500,
        strength: 7800,
        stiffness: 6000,
    },
    Row {
        degree: 600,
        strength: 4700,
        stiffness: 3100,
    },
    Row {
        degree: 700,
        strength: 2300,
        stiffness: 1300,
    },
    Row {
        degree: 800,
        strength: 1100,
        stiffness: 900,
    },
    Row {
        degree: 900,
        strength: 600,
        stiffness: 675,
    },
    Row {
        degree: 1000,
        strength: 400,
        stiffness: 450,
    },
    Row {
        degree: 1100,
        strength: 200,
        stiffness: 225,
    },
    Row {
        degree: 1200,
        strength: 0,
        stiffness: 0,
    },
];

// One carbon steel is like any other: it has no figures of its own.
#[derive(Clone, Copy)]
pub struct Carbon;

impl Carbon {
    #[tactic(auto, using(crate::specs::CarbonRules::carbon_linear))]
    pub fn new() -> Carbon
        ensures { (r : Reduction) → Linear r carbon_rows (carbon_factor r) }
    {
        Carbon
    }
}

impl Steel for Carbon {
    ghost factor = { λ _. carbon_factor };

    ghost capacity = { λ _. carbon_capacity };

    ghost factor_law = { λ s. carbon_factor_law };

    ghost capacity_law = { λ s. carbon_capacity_law };

    fn factor_at(&self, reduction: Reduction, degree: u32) -> u32 {
        factor_at(reduction, &ROWS, degree)
    }

    fn capacity_at(&self, degree: u32) -> u32 {
        let d = clamp(degree);
        if d < 600 {
            cubic_capacity(d)
        } else if d < 735 {
            666 + 13_002 / (738 - d)
        } else if d < 900 {
            545 + 17_820 / (d - 731)
        } else {
            650
        }
    }
}

// The formula below 600 degrees, in parts of 10^8 so that all is whole. The quotient is proved to fit, so no `try_from`.
fn cubic_capacity(degree: u32) -> u32
    requires { degree ≤ 600 }
    ensures { result ≡ cubic degree }
{
    let d = u64::from(degree);
    let parts = 42_500_000_000 + 77_300_000 * d + 222 * (d * d * d) - 169_000 * (d * d);
    (parts / 100_000_000) as u32
}
