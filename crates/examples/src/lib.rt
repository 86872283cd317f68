// Examples worked out by hand, shown of the rules themselves, the member that they are about, and tests that run the code on examples.
#![tactic(auto)]

ghost use Rattle.std.specs.Prelude.{◌≡◌};
ghost use Rattle.examples.specs.Worked.{WorkedFigures, s235};

use member_check::Figures;

#[cfg(test)]
mod tests;

// A member of S235 with a cold strength of 1,000,000; with an ideal buckling load it is a strut, else a tie.
pub fn s235(buckling_load: Option<u64>) -> Figures
    ensures { result ≡ s235 buckling_load }
{
    Figures {
        section_factor: 200,
        seconds: 5,
        yield_strength: 235,
        cold_strength: 1_000_000,
        buckling_load,
    }
}

// The call carries the theorem that all the worked figures hold; it has nothing to do when it runs.
pub fn worked_figures()
    ensures { WorkedFigures }
{}
