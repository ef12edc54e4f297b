//! The sets that a task has.

/// One of a task's sets of atoms: what an action needs, adds or removes, the start, or the goal.
#[derive(Clone, Copy, Debug, PartialEq, Eq)]
pub enum Part {
    Needs(usize),
    Adds(usize),
    Removes(usize),
    Start,
    Goal,
}
