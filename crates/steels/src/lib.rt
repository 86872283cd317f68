// Steels by their meaning: reduction factors and heat capacity of every whole degree.
#![tactic(auto)]

mod cap;
mod carbon;
mod meaning;
mod mill;
mod point;
mod refusal;
mod table;

pub use cap::Cap;
pub use cap::capped::Capped;
pub use carbon::Carbon;
pub use meaning::Steel;
pub use mill::MillSheet;
pub use point::Point;
pub use refusal::Refusal;
pub use table::Reduction;
