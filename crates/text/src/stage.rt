// How far a reader is.

// M is awaited, then readings are taken, then the sheet is open: the plain tag of a session's state, all that reading a line goes by.
#[derive(Clone, Copy)]
pub enum Stage {
    MemberAwaited,
    Readings,
    Open,
}
