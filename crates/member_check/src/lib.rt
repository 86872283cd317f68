// The member and its check: whether it carries a load at a degree, and up to which degree it does.
#![tactic(auto)]

mod checked;
mod demand;
mod input;
mod standing;

pub use checked::Member;
pub use input::{Figures, Refusal};
pub use standing::{critical_temperature, passes};
