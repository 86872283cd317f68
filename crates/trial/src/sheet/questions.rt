// What a sheet answers about its steps and its load.
ghost use Rattle.std.specs.Prelude.{◌≡◌, ◌*◌};
ghost use Rattle.trial.specs.Calls.{critical_in, first_failing_in, hottest_in, temperature_in};
ghost use Rattle.trial.specs.Views.{view_of};

use crate::sheet::Sheet;
use fires::Fire;
use member_check::critical_temperature;
use steels::Steel;

impl<S: Steel, F: Fire> Sheet<S, F> {
    // How many steps stand, step 0 not counted.
    pub fn standing(&self) -> usize
        ensures { result ≡ (view_of S.Steel F.Fire self.now).standing }
    {
        self.column.standing()
    }

    // The temperature at a step in millidegrees, if it stands.
    pub fn temperature_at(&self, step: usize) -> Option<u32>
        ensures { result ≡ temperature_in (view_of S.Steel F.Fire self.now) step }
    {
        self.column.at(step)
    }

    // The temperature of the hottest standing step, in millidegrees.
    pub fn hottest(&self) -> u32
        ensures { result ≡ hottest_in (view_of S.Steel F.Fire self.now) }
    {
        self.column.hottest()
    }

    // The critical temperature under the load, in degrees; a number as in `member_check`, and never 19 here.
    pub fn critical_temperature(&self) -> u32
        ensures { result ≡ critical_in (view_of S.Steel F.Fire self.now) }
    {
        critical_temperature(&self.member, &self.steel, self.load)
    }

    // A step fails exactly where it is above the critical temperature, so that need be asked for only once.
    // Apart from `first_failing`, so that a wrong limit is refused at this `requires`.
    fn first_above(&self, limit: u32) -> Option<usize>
        requires { limit ≡ 1000 * critical_in (view_of S.Steel F.Fire self.now) }
        ensures { result ≡ first_failing_in (view_of S.Steel F.Fire self.now) }
    {
        self.column.first_above(limit)
    }

    // The first standing step that fails, if any.
    pub fn first_failing(&self) -> Option<usize>
        ensures { result ≡ first_failing_in (view_of S.Steel F.Fire self.now) }
    {
        self.first_above(1000 * self.critical_temperature())
    }
}
