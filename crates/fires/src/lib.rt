// Fires by their meaning: the net heat flux into the steel, step by step.
#![tactic(auto)]

mod gas;
mod gauge;
mod meaning;
mod refusal;
mod shading;

pub use gas::GasCurve;
pub use gauge::GaugeRecord;
pub use meaning::{Fire, NoFlux};
pub use refusal::Refusal;
pub use shading::Shading;
pub use shading::shaded::Shaded;
