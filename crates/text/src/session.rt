// A trial that is read line by line.
mod answering;

use fires::GaugeRecord;
use member_check::Member;
use steels::Carbon;
use trial::Sheet;

// What the lines so far have led to: M is awaited, readings are taken for a member, or the sheet is open.
#[derive(Drop)]
enum State {
    MemberAwaited,
    Readings { member: Member, gauges: GaugeRecord },
    Open(Sheet<Carbon, GaugeRecord>),
}

// How many lines have come, and how far the reader is.
#[derive(Drop)]
pub struct Session {
    lines: u64,
    state: State,
}
