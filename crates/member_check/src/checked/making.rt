// Members made from figures, and read again.
ghost use Rattle.std.specs.Prelude.{◌≡◌, ◌≤◌};
ghost use Rattle.std.specs.Option.{option_map};
ghost use Rattle.std.specs.Result.{result_err};
ghost use Rattle.member_check.specs.Refusal.{refused};
ghost use Rattle.member_check.specs.Members.{Judged, figures_of, member_fault};

use crate::checked::Member;
use crate::input::{Figures, Refusal};

impl Member {
    pub fn new(figures: Figures) -> Result<Member, Refusal>
        ensures fault { option_map refused (result_err result) ≡ member_fault figures }
        ensures judged { Judged figures result }
    {
        if !matches!(figures.section_factor, 10..=500) {
            return Err(Refusal::SectionFactor);
        }
        if !matches!(figures.seconds, 1..=5) {
            return Err(Refusal::Seconds);
        }
        if !matches!(figures.yield_strength, 200..=500) {
            return Err(Refusal::YieldStrength);
        }
        if !matches!(figures.cold_strength, 1..=1_000_000_000)
            || !matches!(figures.buckling_load, None | Some(1..=1_000_000_000))
        {
            return Err(Refusal::ColdStrength);
        }
        Ok(Member { given: figures })
    }

    pub fn figures(&self) -> Figures
        ensures { result ≡ figures_of self.now }
    {
        self.given
    }

    // A range is one fact, so it stays one clause.
    pub fn section_factor(&self) -> u64
        ensures value { result ≡ (figures_of self.now).section_factor }
        ensures range { (10 ≤ result) × (result ≤ 500) }
    {
        self.figures().section_factor
    }

    pub fn seconds(&self) -> u64
        ensures value { result ≡ (figures_of self.now).seconds }
        ensures range { (1 ≤ result) × (result ≤ 5) }
    {
        self.figures().seconds
    }
}
