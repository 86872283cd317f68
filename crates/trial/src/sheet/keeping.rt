// A sheet made, its last steps taken back, and its load replaced.
ghost use Rattle.std.specs.Prelude.{◌≡◌, false, [], is_ok, OnOk};
ghost use Rattle.std.specs.Option.{option_map};
ghost use Rattle.std.specs.Result.{result_err};
ghost use Rattle.trial.specs.Calls.{after_back, after_load, back_fault, load_fault};
ghost use Rattle.trial.specs.Law.{Law, Lawful};
ghost use Rattle.trial.specs.Refusal.{refused};
ghost use Rattle.trial.specs.Views.{Same, new_view, parts_of, view_of};
ghost use Rattle.trial.specs.declared.call.Answer.TheVariants.{Done};
ghost use Rattle.trial.specs.declared.call.Call.TheVariants.{Back, Load};

use crate::column::Column;
use crate::refusal::Refusal;
use crate::sheet::Sheet;
use fires::Fire;
use member_check::{Member, passes};
use steels::Steel;

impl<S: Steel, F: Fire> Sheet<S, F> {
    // A sheet with no steps after step 0 and no load.
    pub fn new(member: Member, steel: S, fire: F) -> Sheet<S, F>
        ensures made { Same (new_view (parts_of S.Steel F.Fire member steel fire)) (view_of S.Steel F.Fire result) }
        ensures law { Law (parts_of S.Steel F.Fire member steel fire) [] (view_of S.Steel F.Fire result) }
    {
        Sheet {
            member,
            steel,
            fire,
            load: 0,
            column: Column::cold(),
        }
    }

    // Takes the last steps away, or refuses and changes nothing.
    pub fn back(&mut self, steps: usize) -> Result<(), Refusal>
        ensures fault { option_map refused (result_err result) ≡ back_fault (view_of S.Steel F.Fire self.old).standing steps }
        ensures taken { OnOk result (Same (after_back (view_of S.Steel F.Fire self.old) steps) (view_of S.Steel F.Fire self.new)) }
        ensures kept { is_ok result ≡ false → self.new ≡ self.old }
        ensures law { Lawful (view_of S.Steel F.Fire self.old) (Back steps) (Done result) (view_of S.Steel F.Fire self.new) }
    {
        if steps > self.column.standing() {
            return Err(Refusal::BackBeyondStart);
        }
        self.column.cut(steps);
        Ok(())
    }

    // Replaces the load, or refuses and changes nothing.
    pub fn load(&mut self, load: u64) -> Result<(), Refusal>
        ensures fault { option_map refused (result_err result) ≡ load_fault (view_of S.Steel F.Fire self.old).parts load }
        ensures taken { OnOk result (Same (after_load (view_of S.Steel F.Fire self.old) load) (view_of S.Steel F.Fire self.new)) }
        ensures kept { is_ok result ≡ false → self.new ≡ self.old }
        ensures law { Lawful (view_of S.Steel F.Fire self.old) (Load load) (Done result) (view_of S.Steel F.Fire self.new) }
    {
        if !passes(&self.member, &self.steel, load, 20) {
            return Err(Refusal::NotCarriedCold);
        }
        self.load = load;
        Ok(())
    }
}
