// A member under a load: what the load asks of a steel's factors, reckoned once and then held against any degree.
ghost use Rattle.std.specs.Prelude.{◌≡◌, ◌≤◌};
ghost use Rattle.rounding.specs.Quotient.{ceil};
ghost use Rattle.member_check.specs.Members.{figures_of};
ghost use Rattle.member_check.specs.Check.{PassesBelow, PassesUnloaded, imperfection_of, passes_at, rules};
ghost use Rattle.member_check.specs.Kept.{kept, kept_buckling};
ghost use Rattle.steels.specs.declared.table.Reduction.TheVariants.{Stiffness, Strength};

use crate::checked::Member;
use rounding::rounded_up;
use steels::Steel;

// Both utilisations in ten-thousandths, and the squared imperfection factor in hundredths.
#[derive(Clone, Copy)]
pub struct Demand {
    member: Member,
    load: u64,
    strength: u64,
    buckling: u64,
    imperfection: u64,
    ghost strength_is: { strength ≡ kept load (figures_of member).cold_strength },
    ghost buckling_is: { buckling ≡ kept_buckling load (figures_of member).buckling_load },
    ghost imperfection_is: { imperfection ≡ imperfection_of (figures_of member).yield_strength },
}

// The two factors of a steel at a degree, in ten-thousandths.
#[derive(Clone, Copy)]
struct Factors {
    strength: u64,
    stiffness: u64,
    ghost strength_most: { strength ≤ 10000 },
    ghost stiffness_most: { stiffness ≤ 10000 },
}

fn factors_at<S: Steel>(steel: &S, degree: u32) -> Factors
    ensures strength { result.strength ≡ S.Steel.factor steel.now Strength degree }
    ensures stiffness { result.stiffness ≡ S.Steel.factor steel.now Stiffness degree }
{
    Factors {
        strength: u64::from(steel.strength_at(degree)),
        stiffness: u64::from(steel.stiffness_at(degree)),
    }
}

// n / d, rounded up. Both casts are proved to fit, so no `try_from`.
fn quotient(n: u64, d: u64) -> u64
    requires { n ≤ 10000000000000 }
    ensures { result ≡ ceil n d }
{
    rounded_up(n as i64, d) as u64
}

// The utilisation of a resistance. Above the resistance 10,000 times the load need not fit 64 bits, and no factor is enough.
fn share(load: u64, resistance: u64) -> u64
    requires { resistance ≤ 1000000000 }
    ensures { result ≡ kept load resistance }
{
    if load <= resistance {
        quotient(10_000 * load, resistance)
    } else {
        10_001
    }
}

impl Demand {
    pub fn of(member: &Member, load: u64) -> Demand
        ensures member { result.member ≡ member.now }
        ensures load { result.load ≡ load }
    {
        let figures = member.figures();
        Demand {
            member: *member,
            load,
            strength: share(load, figures.cold_strength),
            buckling: figures
                .buckling_load
                .map_or(0, |resistance| share(load, resistance)),
            imperfection: quotient(39_715, 4 * figures.yield_strength),
        }
    }

    // The three rules. The first two come first: a difference below 0 counts as 0 here, and with no buckling the third would hold.
    fn met(&self, factors: Factors) -> bool
        ensures { result ≡ rules self.now.imperfection self.now.strength self.now.buckling factors.strength factors.stiffness }
    {
        let y = factors.strength;
        let z = factors.stiffness;
        let enough = self.strength <= y && self.buckling <= z;
        let u = y.saturating_sub(self.strength);
        let v = z.saturating_sub(self.buckling);
        enough
            && self.imperfection * self.strength * self.buckling * y * z <= 100 * (u * u) * (v * v)
    }

    // Whether the member carries its load in the steel at the degree. The clause names both factors apart, as the definitions and theorems do.
    #[tactic(auto, using(crate::proofs::Kept::reckoned))]
    pub fn passes_at<S: Steel>(&self, steel: &S, degree: u32) -> bool
        ensures value { result ≡ passes_at (figures_of self.now.member) (S.Steel.factor steel.now Strength) (S.Steel.factor steel.now Stiffness) self.now.load degree }
        ensures below { PassesBelow }
        ensures unloaded { PassesUnloaded }
    {
        self.met(factors_at(steel, degree))
    }
}
