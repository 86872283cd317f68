// The text of a trial: lines to calls, answers to lines, in carbon steel and with a gauge record.
#![tactic(auto)]

mod entry;
mod number;
mod reply;
mod session;
mod stage;

pub use entry::{Entry, read_entry};
pub use reply::Reply;
pub use session::Session;
pub use stage::Stage;
