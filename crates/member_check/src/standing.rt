// Whether a member stands at a degree, for any steel, and the degree up to which it does.
ghost use Rattle.std.specs.Prelude.{◌≡◌};
ghost use Rattle.member_check.specs.Members.{figures_of};
ghost use Rattle.member_check.specs.Check.{Critical, NoLower, PassesBelow, PassesUnloaded, critical_of, passes_at};
ghost use Rattle.steels.specs.declared.table.Reduction.TheVariants.{Stiffness, Strength};

use crate::checked::Member;
use crate::demand::Demand;
use steels::Steel;

// Whether the member carries the load in the steel at the degree. The clauses name both factors apart, as the definitions and theorems do; a second set of names is no plainer.
pub fn passes<S: Steel>(member: &Member, steel: &S, load: u64, degree: u32) -> bool
    ensures value { result ≡ passes_at (figures_of member.now) (S.Steel.factor steel.now Strength) (S.Steel.factor steel.now Stiffness) load degree }
    ensures below { PassesBelow }
    ensures unloaded { PassesUnloaded }
{
    Demand::of(member, load).passes_at(steel, degree)
}

// The greatest whole degree from 20 to 1,200 at which the member passes. The rules name 19 where there is none, and limits are reckoned from it, so it is no `Option`.
// It halves the degrees left: once a member fails, it passes at no higher degree. Both factors stand apart in the clauses, as in those of `passes`.
// By hand: std's `partition_point` halves slices alone, and a `find` down the range asks the steel up to 1,181 times, not eleven.
pub fn critical_temperature<S: Steel>(member: &Member, steel: &S, load: u64) -> u32
    ensures value { result ≡ critical_of (figures_of member.now) (S.Steel.factor steel.now Strength) (S.Steel.factor steel.now Stiffness) load }
    ensures parts { Critical (figures_of member.now) (S.Steel.factor steel.now Strength) (S.Steel.factor steel.now Stiffness) load result }
    ensures grows { NoLower }
{
    let demand = Demand::of(member, load);
    let mut low = 19;
    let mut high = 1_201;
    while high - low > 1 {
        let middle = (low + high) / 2;
        if demand.passes_at(steel, middle) {
            low = middle;
        } else {
            high = middle;
        }
    }
    low
}
