// A steel that carries nothing from a cap degree on, over any steel.
ghost use Rattle.std.specs.Prelude.{◌≡◌, IfOk};
ghost use Rattle.std.specs.Option.{option_map};
ghost use Rattle.std.specs.Result.{result_err};
ghost use Rattle.steels.specs.Capped.{cap_degree, cap_fault, cap_of, capped_factor, steel_below};
ghost use Rattle.steels.specs.Refusal.{refused};
ghost use Rattle.std.proofs.Common.{rules};

use crate::cap::Cap;
use crate::meaning::Steel;
use crate::refusal::Refusal;
use crate::table::Reduction;

impl Cap {
    pub fn new(degree: u32) -> Result<Cap, Refusal>
        ensures fault { option_map refused (result_err result) ≡ cap_fault degree }
        ensures taken { IfOk result (λ cap. cap_degree cap ≡ degree) }
    {
        match degree {
            21..=1200 => Ok(Cap { degree }),
            _ => Err(Refusal::CapDegree),
        }
    }
}

#[derive(Drop)]
pub struct Capped<S> {
    below: S,
    cap: Cap,
}

impl<S> Capped<S> {
    pub fn over(below: S, cap: Cap) -> Capped<S>
        ensures steel { steel_below result ≡ below }
        ensures limit { cap_of result ≡ cap }
    {
        Capped { below, cap }
    }
}

impl<S: Steel> Steel for Capped<S> {
    ghost factor = { λ s r. capped_factor (cap_degree (cap_of s)) (S.Steel.factor (steel_below s) r) };

    ghost capacity = { λ s. S.Steel.capacity (steel_below s) };

    ghost factor_law = { Prim.search rules };

    ghost capacity_law = { Prim.search rules };

    fn factor_at(&self, reduction: Reduction, degree: u32) -> u32 {
        if degree < self.cap.degree {
            self.below.factor_at(reduction, degree)
        } else {
            0
        }
    }

    fn capacity_at(&self, degree: u32) -> u32 {
        self.below.capacity_at(degree)
    }
}
