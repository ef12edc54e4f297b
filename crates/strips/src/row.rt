//! One action of a task of at most 64 atoms.
use crate::AtomSet;

/// What an action needs, adds, removes and costs, the cost in tenths of a second.
#[derive(Clone, Copy, Debug, PartialEq, Eq)]
pub struct Row {
    pub needs: AtomSet,
    pub adds: AtomSet,
    pub removes: AtomSet,
    pub cost: u16,
}

impl Row {
    /// What is answered for a number that is no action's: no atoms, cost 0.
    pub const NONE: Row = Row {
        needs: AtomSet::EMPTY,
        adds: AtomSet::EMPTY,
        removes: AtomSet::EMPTY,
        cost: 0,
    };

    /// A row as clearing a row table leaves it: no atoms, cost 1.
    pub const BLANK: Row = Row {
        cost: 1,
        ..Row::NONE
    };
}
