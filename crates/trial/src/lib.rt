// The sheet of one member in a fire: the steps that stand, heating, taking back, loads, questions, and the law over whole runs.
#![tactic(auto)]

mod call;
mod column;
mod log;
mod refusal;
mod sheet;
mod stop;

pub use call::{Answer, Call, Question};
pub use log::{Logged, run};
pub use refusal::Refusal;
pub use sheet::Sheet;
pub use stop::Stop;
