// Calls and answers in words.
use std::fmt;
use trial::{Answer, Call, Question};

// A call as it is printed.
#[derive(Drop)]
pub struct Called(pub Call);

impl fmt::Display for Called {
    fn fmt<W: fmt::Write>(&self, f: &mut fmt::Formatter<W>) -> fmt::Result {
        match self.0 {
            Call::Heat(steps) => write!(f, "heat {steps} steps"),
            Call::Back(steps) => write!(f, "take back {steps} steps"),
            Call::Load(load) => write!(f, "load {load}"),
            Call::Ask(Question::Standing) => f.write_str("steps standing"),
            Call::Ask(Question::TemperatureAt(step)) => write!(f, "temperature of step {step}"),
            Call::Ask(Question::Hottest) => f.write_str("hottest step"),
            Call::Ask(Question::CriticalTemperature) => f.write_str("critical temperature"),
            Call::Ask(Question::FirstFailing) => f.write_str("first failing step"),
        }
    }
}

// A temperature in millidegrees, printed in degrees with three decimals. A width is that of the whole degrees.
#[derive(Drop)]
pub struct Degrees(pub u32);

impl fmt::Display for Degrees {
    fn fmt<W: fmt::Write>(&self, f: &mut fmt::Formatter<W>) -> fmt::Result {
        let whole = self.0 / 1000;
        let rest = self.0 % 1000;
        whole.fmt(f)?;
        write!(f, ".{rest:03}")
    }
}

// An answer as it is printed.
#[derive(Drop)]
pub struct Answered(pub Answer);

impl fmt::Display for Answered {
    fn fmt<W: fmt::Write>(&self, f: &mut fmt::Formatter<W>) -> fmt::Result {
        match self.0 {
            Answer::Heated { made, stop: None } => write!(f, "{made} made"),
            Answer::Heated {
                made,
                stop: Some(stop),
            } => { write!(f, "{made} made, then stopped by {}: {stop}", stop.number()) }
            Answer::Done(Ok(())) => f.write_str("accepted"),
            Answer::Done(Err(refusal)) => write!(f, "refused, {}: {refusal}", refusal.number()),
            Answer::Temperature(Some(temperature)) | Answer::Hottest(temperature) => {
                write!(f, "{} degrees", Degrees(temperature))
            }
            Answer::Temperature(None) => f.write_str("it does not stand"),
            Answer::CriticalTemperature(degree) => write!(f, "{degree} degrees"),
            Answer::Standing(number) | Answer::FirstFailing(Some(number)) => number.fmt(f),
            Answer::FirstFailing(None) => f.write_str("none"),
        }
    }
}
