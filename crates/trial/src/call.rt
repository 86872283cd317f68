// Calls of a sheet and their answers, as values.
use crate::refusal::Refusal;
use crate::stop::Stop;

// Questions change nothing. A step is asked for by its number.
#[derive(Clone, Copy, PartialEq, Eq, Debug)]
pub enum Question {
    Standing,
    TemperatureAt(usize),
    Hottest,
    CriticalTemperature,
    FirstFailing,
}

#[derive(Clone, Copy, PartialEq, Eq, Debug)]
pub enum Call {
    Heat(usize),
    Back(usize),
    Load(u64),
    Ask(Question),
}

// Temperatures of steps are in millidegrees, the critical one in degrees.
#[derive(Clone, Copy, PartialEq, Eq, Debug)]
pub enum Answer {
    // how many steps were made, and what stopped the next, if anything
    Heated { made: usize, stop: Option<Stop> },
    // a back or a load: accepted, or refused
    Done(Result<(), Refusal>),
    Standing(usize),
    Temperature(Option<u32>),
    Hottest(u32),
    CriticalTemperature(u32),
    FirstFailing(Option<usize>),
}
