//! The compiled task, whose atoms stand for small sets of a task's atoms, and the bound over single atoms on it.
#![tactic(auto)]

mod bound;
mod carriers;
mod layer;
mod scopes;
mod subsets;

pub use bound::compiled_bound;
pub use bounds::max_bound;
pub use layer::Compiled;
