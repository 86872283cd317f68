// One fire test from the cold member to the end of its record: every call of the sheet and what it answers.
#![tactic(auto)]

mod record;
mod words;

ghost use Rattle.std.specs.Prelude.{◌≡◌, List, ◌++◌, IfOk, OnOk};
ghost use Rattle.fires.specs.Gauge.{bytes_of};
ghost use Rattle.trial.specs.Calls.{temperature_in};
ghost use Rattle.trial.specs.Law.{Law};
ghost use Rattle.trial.specs.Parts.{Parts};
ghost use Rattle.trial.specs.Views.{Same, view_of};
ghost use Rattle.trial.specs.declared.call.Call.{Call};
ghost use Rattle.burn.specs.Record.{record_of};
ghost use Rattle.burn.specs.Test.{parts_in, seen};

use examples::s235;
use fires::{Fire, GaugeRecord};
use member_check::Member;
use record::{Phase, record_bytes};
use std::alloc::Global;
use steels::{Carbon, Steel};
use trial::{Answer, Call, Question, Sheet};
use words::{Answered, Called, Degrees};

// The fire grows, burns, sinks and leaves the steel to cool; one reading is missing, and some follow it.
const PHASES: [Phase; 6] = [
    Phase {
        steps: 40,
        first: 300,
        change: 130,
    },
    Phase {
        steps: 16,
        first: 5500,
        change: 0,
    },
    Phase {
        steps: 44,
        first: 5400,
        change: -160,
    },
    Phase {
        steps: 80,
        first: -1640,
        change: 5,
    },
    Phase {
        steps: 1,
        first: i16::MIN,
        change: 0,
    },
    Phase {
        steps: 19,
        first: -1240,
        change: 5,
    },
];

const SCRIPT: [Call; 29] = [
    Call::Load(300_000),
    Call::Ask(Question::CriticalTemperature),
    Call::Ask(Question::FirstFailing),
    Call::Heat(40),
    Call::Ask(Question::Standing),
    Call::Ask(Question::TemperatureAt(40)),
    Call::Ask(Question::Hottest),
    Call::Heat(20),
    Call::Ask(Question::FirstFailing),
    Call::Heat(30),
    Call::Ask(Question::FirstFailing),
    Call::Load(1_000_000),
    Call::Ask(Question::CriticalTemperature),
    Call::Back(91),
    Call::Back(30),
    Call::Ask(Question::FirstFailing),
    Call::Ask(Question::TemperatureAt(61)),
    Call::Heat(30),
    Call::Ask(Question::FirstFailing),
    Call::Load(150_000),
    Call::Ask(Question::CriticalTemperature),
    Call::Ask(Question::FirstFailing),
    Call::Heat(200),
    Call::Heat(20),
    Call::Ask(Question::Standing),
    Call::Ask(Question::TemperatureAt(180)),
    Call::Ask(Question::TemperatureAt(181)),
    Call::Ask(Question::Hottest),
    Call::Ask(Question::FirstFailing),
];

fn fire(heap: Global, phases: &[Phase]) -> anyhow::Result<GaugeRecord>
    ensures { IfOk result (λ g. bytes_of g ≡ record_of phases.now) }
{
    let mut record = GaugeRecord::new();
    record.read(&record_bytes(heap, phases)?)?;
    Ok(record)
}

fn print_phases(rt: &impl Print, phases: &[Phase]) -> anyhow::Result<()> {
    for phase in phases {
        let Phase {
            steps,
            first,
            change,
        } = *phase;
        println!(rt; "{steps:5}  {first:6}  {change:+6}")?;
    }
    Ok(())
}

// Makes the calls of a script and prints each with its answer.
fn play<S: Steel, F: Fire>(
    rt: &impl Print,
    sheet: &mut Sheet<S, F>,
    script: &[Call],
) -> anyhow::Result<()>
    ensures { OnOk result ((p : Parts) (calls : List Call) → Law p calls (view_of S.Steel F.Fire sheet.old) → Law p (calls ++ script.now) (view_of S.Steel F.Fire sheet.new)) }
{
    for call in script {
        let called = Called(*call);
        let answered = Answered(sheet.call(*call));
        println!(rt; "{called}: {answered}")?;
    }
    Ok(())
}

// The trial of the strut in the fire of the phases: the sheet after the calls of the script.
fn trial_of(
    rt: &(impl Print + AllocGlobal),
    phases: &[Phase],
    script: &[Call],
) -> anyhow::Result<Sheet<Carbon, GaugeRecord>>
    ensures { IfOk result (λ s. Law (parts_in phases.now) script.now (seen s)) }
{
    let fire = fire(rt.alloc(), phases)?;
    let strut = Member::new(s235(Some(2_000_000)))?;
    let mut sheet = Sheet::new(strut, Carbon::new(), fire);
    play(rt, &mut sheet, script)?;
    Ok(sheet)
}

// The temperature of a step, if it stands.
fn temperature_at<S: Steel, F: Fire>(sheet: &mut Sheet<S, F>, step: usize) -> Option<u32>
    ensures value { result ≡ temperature_in (view_of S.Steel F.Fire sheet.old) step }
    ensures same { Same (view_of S.Steel F.Fire sheet.old) (view_of S.Steel F.Fire sheet.new) }
{
    match sheet.call(Call::Ask(Question::TemperatureAt(step))) {
        Answer::Temperature(temperature) => temperature,
        _ => None,
    }
}

// Prints every tenth step with its temperature, as far as they stand.
fn print_course<S: Steel, F: Fire>(rt: &impl Print, sheet: &mut Sheet<S, F>) -> anyhow::Result<()>
    ensures { Same (view_of S.Steel F.Fire sheet.old) (view_of S.Steel F.Fire sheet.new) }
{
    for step in (0..).step_by(10) {
        let Some(temperature) = temperature_at(sheet, step) else {
            break;
        };
        let degrees = Degrees(temperature);
        println!(rt; "{step:4}  {degrees:4}")?;
    }
    Ok(())
}

const MEMBER: &str =
    "A strut of carbon steel in a fire: section factor 200, 5 s a step, f = 235,\ncold strength 1000000, ideal buckling load 2000000\n\nIts gauge record by phases, in tens of W/m2 (-32768: no reading)\n\nsteps   first  change";

const CALLS: &str = "\nWhat is called, and what the sheet answers\n";

const COURSE: &str = "\nThe course at every tenth standing step\n\nstep   degrees";

fn run(rt: &(impl Print + AllocGlobal)) -> anyhow::Result<()> {
    rt.println(MEMBER)?;
    print_phases(rt, &PHASES)?;
    rt.println(CALLS)?;
    let mut sheet = trial_of(rt, &PHASES, &SCRIPT)?;
    rt.println(COURSE)?;
    print_course(rt, &mut sheet)
}

fn main(rt: HostRuntime) -> anyhow::Result<()> {
    run(&rt)
}
