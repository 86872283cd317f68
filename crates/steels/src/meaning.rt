// What a steel is: three numbers of every whole degree, and the laws that they keep.
ghost use Rattle.std.specs.Prelude.{◌≡◌, ℕ};
ghost use Rattle.steels.specs.Meaning.{Capacity, Factor};
ghost use Rattle.steels.specs.declared.table.Reduction.{Reduction};
ghost use Rattle.steels.specs.declared.table.Reduction.TheVariants.{Stiffness, Strength};

use crate::table::Reduction;

pub trait Steel {
    // A reduction factor of a degree, in ten-thousandths.
    ghost factor: { Self → Reduction → ℕ → ℕ };

    // The heat capacity at a degree, in J/(kg K).
    ghost capacity: { Self → ℕ → ℕ };

    fn factor_at(&self, reduction: Reduction, degree: u32) -> u32
        ensures { result ≡ factor self.now reduction degree };

    // Each factor by its name, for callers; no steel writes these two.
    fn strength_at(&self, degree: u32) -> u32
        ensures { result ≡ factor self.now Strength degree }
    {
        self.factor_at(Reduction::Strength, degree)
    }

    fn stiffness_at(&self, degree: u32) -> u32
        ensures { result ≡ factor self.now Stiffness degree }
    {
        self.factor_at(Reduction::Stiffness, degree)
    }

    fn capacity_at(&self, degree: u32) -> u32
        ensures { result ≡ capacity self.now degree };

    ghost factor_law: { (s : Self) (r : Reduction) → Factor (factor s r) };

    ghost capacity_law: { (s : Self) → Capacity (capacity s) };
}
