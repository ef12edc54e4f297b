//! Lower bounds on the cost of plans.
#![tactic(auto)]

mod direct;
mod front;
mod max;
mod order;
mod pairs;
mod readers;
mod set_costs;
mod singles;
mod table;

pub use direct::direct_bound;
pub use heuristics::numbers_closed;
pub use max::max_bound;
pub use order::Order;
pub use table::{CostTable, NONE};
