// Whole runs: a sheet made, and the calls of a log made on it.
ghost use Rattle.std.specs.Prelude.{◌≡◌, [], map, Some};
ghost use Rattle.trial.specs.Law.{Law};
ghost use Rattle.trial.specs.Logs.{answers_of, calls_of};
ghost use Rattle.trial.specs.Tally.{answers_to};
ghost use Rattle.trial.specs.Views.{parts_of, view_of};

use crate::call::{Answer, Call};
use crate::sheet::Sheet;
use fires::Fire;
use member_check::Member;
use steels::Steel;

// A call, and its answer once it is made.
#[derive(Clone, Copy, PartialEq, Eq, Debug)]
pub struct Logged {
    pub call: Call,
    pub answer: Option<Answer>,
}

// Makes the calls of a log on a new sheet.
fn log_calls<S: Steel, F: Fire>(sheet: &mut Sheet<S, F>, log: &mut [Logged])
    requires { Law (view_of S.Steel F.Fire sheet.old).parts [] (view_of S.Steel F.Fire sheet.old) }
    ensures calls { calls_of log.new ≡ calls_of log.old }
    ensures answers { answers_of log.new ≡ map Some (answers_to (view_of S.Steel F.Fire sheet.old).parts (calls_of log.old)) }
    ensures law { Law (view_of S.Steel F.Fire sheet.old).parts (calls_of log.old) (view_of S.Steel F.Fire sheet.new) }
{
    for logged in log {
        logged.answer = Some(sheet.call(logged.call));
    }
}

// Makes a sheet and the calls of the log, in their order, and writes each answer beside its call.
pub fn run<S: Steel, F: Fire>(member: Member, steel: S, fire: F, log: &mut [Logged]) -> Sheet<S, F>
    ensures calls { calls_of log.new ≡ calls_of log.old }
    ensures answers { answers_of log.new ≡ map Some (answers_to (parts_of S.Steel F.Fire member steel fire) (calls_of log.old)) }
    ensures law { Law (parts_of S.Steel F.Fire member steel fire) (calls_of log.old) (view_of S.Steel F.Fire result) }
{
    let mut sheet = Sheet::new(member, steel, fire);
    log_calls(&mut sheet, log);
    sheet
}
