// A sheet heated step by step.
ghost use Rattle.std.specs.Prelude.{◌≡◌, ◌*◌, ◌≤◌, pos, ◌+ℤ◌, IfOk};
ghost use Rattle.std.specs.Result.{result_err};
ghost use Rattle.member_check.specs.Members.{figures_of};
ghost use Rattle.fires.specs.Meaning.{Within};
ghost use Rattle.trial.specs.Calls.{after_heat, heat_answer, heat_made, heat_stop, reply, next_capacity, next_end, next_reading, next_stop};
ghost use Rattle.trial.specs.Heating.{at_least, rise};
ghost use Rattle.trial.specs.Law.{Lawful};
ghost use Rattle.trial.specs.Views.{Same, view_of};
ghost use Rattle.trial.specs.declared.call.Call.TheVariants.{Heat};

use crate::column::Temperature;
use crate::sheet::Sheet;
use crate::stop::Stop;
use fires::{Fire, NoFlux};
use member_check::Member;
use rounding::rounded_up;
use steels::Steel;

const COLDEST: i64 = 20_000;

const LIMIT: u32 = 1_200_000;

// Section factor times the milliseconds of a step: what a flux is multiplied by.
fn exposure(member: &Member) -> u64
    ensures { result ≡ (figures_of member.now).section_factor * (figures_of member.now).seconds * 1000 }
{
    member.section_factor() * member.seconds() * 1000
}

// The heat that warms a cubic metre of steel by a degree: 7,850 kg at its heat capacity.
fn inertia(capacity: u32) -> u64
    ensures { result ≡ capacity * 7850 }
{
    u64::from(capacity) * 7850
}

// The rise in millidegrees, rounded up for gain and loss.
// The casts here and in `risen` are proved to fit, so there is no `try_from`.
fn rise(member: &Member, capacity: u32, flux: i32) -> i64
    requires least { 300 ≤ capacity }
    requires most { capacity ≤ 6000 }
    requires flux { Within 400000 flux }
    ensures value { result ≡ rise (figures_of member.now) capacity flux }
    ensures range { Within 1000000 result }
{
    rounded_up(i64::from(flux) * exposure(member) as i64, inertia(capacity))
}

// The temperature that a rise leads to.
fn risen(temperature: Temperature, rise: i64) -> u32
    requires { Within 1000000 rise }
    ensures { result ≡ at_least 20000 (pos temperature.millidegrees +ℤ rise) }
{
    (i64::from(temperature.millidegrees) + rise).max(COLDEST) as u32
}

impl<S: Steel, F: Fire> Sheet<S, F> {
    // What the fire tells of the next step, whose number is the count of steps that stand.
    fn next_reading(&self) -> Result<i32, NoFlux>
        ensures { result ≡ next_reading (view_of S.Steel F.Fire self.now) }
    {
        let step = self.column.standing();
        self.fire.reading_at(step, self.column.last().millidegrees)
    }

    // The heat capacity at the last step's whole degree, rounded down.
    fn capacity(&self) -> u32
        ensures { result ≡ next_capacity (view_of S.Steel F.Fire self.now) }
    {
        let degree = self.column.last().millidegrees / 1000;
        self.steel.capacity_at(degree)
    }

    // What the next step comes to: the temperature at its end, or what stops it.
    fn next(&self) -> Result<Temperature, Stop>
        ensures stop { result_err result ≡ next_stop (view_of S.Steel F.Fire self.now) }
        ensures end { IfOk result (λ t. t.millidegrees ≡ next_end (view_of S.Steel F.Fire self.now)) }
    {
        if self.column.is_full() {
            return Err(Stop::SheetFull);
        }
        let flux = self.next_reading()?;
        let rise = rise(&self.member, self.capacity(), flux);
        let end = risen(self.column.last(), rise);
        if end > LIMIT {
            return Err(Stop::TooHot);
        }
        Ok(Temperature { millidegrees: end })
    }

    // Makes steps one by one until all that are asked for are made or one is stopped: how many were made, and what stopped the next.
    // Inlined into the two calls that use it, so that a call of one step hands no pair through memory.
    #[inline(always)]
    pub(crate) fn make_steps(&mut self, asked: usize) -> (usize, Option<Stop>)
        ensures made { result.0 ≡ heat_made (view_of S.Steel F.Fire self.old) asked }
        ensures stop { result.1 ≡ heat_stop (view_of S.Steel F.Fire self.old) asked }
        ensures after { Same (after_heat (view_of S.Steel F.Fire self.old) asked) (view_of S.Steel F.Fire self.new) }
    {
        // The count is the answer, so the loop is over it.
        for made in 0..asked {
            match self.next() {
                Ok(temperature) => self.column.add(temperature),
                Err(stop) => return (made, Some(stop)),
            }
        }
        (asked, None)
    }

    // Heats by the steps asked for: how many were made, and the number of what stopped the next, 0 if all were made.
    // A pair of plain numbers is a form that the project keeps; `call` answers with the stop itself.
    pub fn heat(&mut self, asked: usize) -> (usize, u32)
        ensures answer { result ≡ heat_answer (view_of S.Steel F.Fire self.old) asked }
        ensures after { Same (after_heat (view_of S.Steel F.Fire self.old) asked) (view_of S.Steel F.Fire self.new) }
        ensures law { Lawful (view_of S.Steel F.Fire self.old) (Heat asked) (reply (view_of S.Steel F.Fire self.old) (Heat asked)) (view_of S.Steel F.Fire self.new) }
    {
        let (made, stop) = self.make_steps(asked);
        (made, Stop::code(stop))
    }
}
