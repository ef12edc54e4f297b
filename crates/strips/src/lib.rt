//! Planning tasks over atoms: sets of atoms, the task interface, and the tasks and layers at its bottom.
#![tactic(auto)]

mod answering;
mod atoms;
mod closures;
mod copying;
mod denial;
mod errand;
mod filling;
mod iter;
mod masks;
mod part;
mod row;
mod table;
mod task;

pub use atoms::AtomSet;
pub use closures::{Closed, Closures};
pub use denial::Denial;
pub use errand::Errand;
pub use iter::AtomIter;
pub use part::Part;
pub use row::Row;
pub use table::RowTable;
pub use task::{Task, is_small};
