// Lines answered one by one.
ghost use Rattle.std.specs.Prelude.{◌≡◌, ◌<◌};
ghost use Rattle.text.specs.Replies.{text_of};
ghost use Rattle.text.specs.Turns.{awaiting, entry_turn, is_refused, stage_of, summary};
ghost use Rattle.text.specs.Views.{SameState, lines_of, seen, state_by, state_of, views};
ghost use Rattle.text.specs.Spoken.{letter_of};
ghost use Rattle.text.specs.declared.entry.Entry.TheVariants.{Call as Called, Member as Made, Reading as Read};

use crate::reply::Reply;
use crate::session::{Session, State};
use crate::stage::Stage;
use fires::GaugeRecord;
use member_check::{Figures, Member};
use steels::Carbon;
use trial::{Answer, Call, Question, Sheet};

// The letter of a call's line. A call is a value, so its kind is matched.
fn letter(call: Call) -> char
    ensures value { result ≡ letter_of call }
    ensures ascii { result < 128 }
{
    match call {
        Call::Load(_) => 'L',
        Call::Heat(_) => 'H',
        Call::Back(_) => 'B',
        Call::Ask(_) => 'Q',
    }
}

fn is_refused(answer: Answer) -> bool
    ensures { result ≡ is_refused answer }
{
    matches!(answer, Answer::Done(Err(_)))
}

// What Q asks, answered by a sheet.
fn summed_up(sheet: &Sheet<Carbon, GaugeRecord>) -> Reply
    ensures { text_of result ≡ summary views (seen sheet.now) }
{
    Reply::line(
        'Q',
        &[
            sheet.ask(Question::Standing),
            sheet.ask(Question::TemperatureAt(sheet.standing())),
            sheet.ask(Question::CriticalTemperature),
            sheet.ask(Question::FirstFailing),
        ],
    )
}

impl Session {
    // A session to which no line has come.
    pub fn new() -> Session
        ensures lines { lines_of result ≡ 0 }
        ensures state { state_of result ≡ awaiting }
    {
        Session {
            lines: 0,
            state: State::MemberAwaited,
        }
    }

    // How far the reader is.
    pub fn stage(&self) -> Stage
        ensures { result ≡ stage_of (state_of self.now) }
    {
        match self.state {
            State::MemberAwaited => Stage::MemberAwaited,
            State::Readings { .. } => Stage::Readings,
            State::Open(_) => Stage::Open,
        }
    }
}

// A state is data with a value in each variant, so it is matched.
impl State {
    fn take_member(&mut self, figures: Figures) -> Reply
        ensures text { text_of result ≡ (entry_turn views (state_by self.old) (Made figures)).0 }
        ensures after { SameState (entry_turn views (state_by self.old) (Made figures)).1 (state_by self.new) }
    {
        match Member::new(figures) {
            Ok(member) => {
                *self = State::Readings {
                    member,
                    gauges: GaugeRecord::new(),
                };
                Reply::line('M', &[0u64])
            }
            Err(refusal) => {
                *self = State::MemberAwaited;
                Reply::line('M', &[u64::from(refusal.number())])
            }
        }
    }

    fn take_reading(&mut self, word: i16) -> Reply
        ensures text { text_of result ≡ (entry_turn views (state_by self.old) (Read word)).0 }
        ensures after { SameState (entry_turn views (state_by self.old) (Read word)).1 (state_by self.new) }
    {
        match self {
            State::Readings { gauges, .. } => match gauges.push(word) {
                Ok(()) => Reply::silent(),
                Err(refusal) => Reply::line('R', &[u64::from(refusal.number())]),
            },
            _ => Reply::silent(),
        }
    }

    // The first call makes the sheet, and opens it unless the call is refused.
    fn take_call(&mut self, call: Call) -> Reply
        ensures text { text_of result ≡ (entry_turn views (state_by self.old) (Called call)).0 }
        ensures after { SameState (entry_turn views (state_by self.old) (Called call)).1 (state_by self.new) }
    {
        match self {
            State::MemberAwaited => Reply::silent(),
            State::Readings { member, gauges } => {
                let mut sheet = Sheet::new(*member, Carbon::new(), *gauges);
                let answer = sheet.call(call);
                if !is_refused(answer) {
                    *self = State::Open(sheet);
                }
                Reply::line(letter(call), &[answer])
            }
            State::Open(sheet) => Reply::line(letter(call), &[sheet.call(call)]),
        }
    }
}
