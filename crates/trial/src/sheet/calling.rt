// Calls as values, each answered as the tally answers it.
ghost use Rattle.std.specs.Prelude.{◌≡◌};
ghost use Rattle.trial.specs.Calls.{after, reply, told_by};
ghost use Rattle.trial.specs.Law.{Lawful};
ghost use Rattle.trial.specs.Views.{Same, view_of};

use crate::call::{Answer, Call, Question};
use crate::sheet::Sheet;
use fires::Fire;
use steels::Steel;

// Questions and calls are values, kept in logs and scripts, so they are matched and no closures are taken.
impl<S: Steel, F: Fire> Sheet<S, F> {
    pub fn ask(&self, question: Question) -> Answer
        ensures { result ≡ told_by (view_of S.Steel F.Fire self.now) question }
    {
        match question {
            Question::Standing => Answer::Standing(self.standing()),
            Question::TemperatureAt(step) => Answer::Temperature(self.temperature_at(step)),
            Question::Hottest => Answer::Hottest(self.hottest()),
            Question::CriticalTemperature => Answer::CriticalTemperature(
                self.critical_temperature(),
            ),
            Question::FirstFailing => Answer::FirstFailing(self.first_failing()),
        }
    }

    // Makes a call and answers it. Whatever calls were made before, the answer is the tally's, and then the law over runs holds.
    pub fn call(&mut self, call: Call) -> Answer
        ensures answer { result ≡ reply (view_of S.Steel F.Fire self.old) call }
        ensures after { Same (after (view_of S.Steel F.Fire self.old) call) (view_of S.Steel F.Fire self.new) }
        ensures law { Lawful (view_of S.Steel F.Fire self.old) call result (view_of S.Steel F.Fire self.new) }
    {
        match call {
            Call::Heat(asked) => {
                let (made, stop) = self.make_steps(asked);
                Answer::Heated { made, stop }
            }
            Call::Back(steps) => Answer::Done(self.back(steps)),
            Call::Load(load) => Answer::Done(self.load(load)),
            Call::Ask(question) => self.ask(question),
        }
    }
}
