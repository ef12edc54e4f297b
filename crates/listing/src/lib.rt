//! The lines that tell what a task asks and what its errand costs.
#![tactic(auto)]

mod lines;
mod rounding;
mod telling;

pub use lines::{BoundLine, PlanLine};
pub use rounding::seconds;
pub use telling::listing;
