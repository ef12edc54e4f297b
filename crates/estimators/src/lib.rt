//! What a search asks about the cost that is still to come.
#![tactic(auto)]

mod bounded;

pub use bounded::{Bound, Bounded, ByCompiling, Direct, OnCompiled, OnTask};
use strips::{AtomSet, Denial, Task, is_small};

/// Estimates what the goal of a task costs at least from a state: a cost, or none where it cannot be reached.
pub trait Estimator {
    fn estimate<T: Task>(&mut self, task: &T, state: AtomSet) -> Result<Option<u32>, Denial>;
}

/// Refuses a task of more than 64 atoms or 256 actions. The same two lines stand where a layer, a copy and a file are refused: a
/// public function for them would be no plainer than `is_small`.
pub(crate) fn sized<T: Task>(task: &T) -> Result<(), Denial> {
    if is_small(task) {
        Ok(())
    } else {
        Err(Denial::TaskOutOfRange)
    }
}

/// Says 0 of every state.
#[derive(Clone, Copy, Debug, PartialEq, Eq)]
pub struct Blind;

impl Estimator for Blind {
    fn estimate<T: Task>(&mut self, task: &T, state: AtomSet) -> Result<Option<u32>, Denial> {
        sized(task)?;
        if !state.is_below(task.atoms()) {
            return Err(Denial::AtomOutOfRange);
        }
        Ok(Some(0))
    }
}
