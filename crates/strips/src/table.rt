//! A task held in memory, row by row.
ghost use Rattle.std.specs.Prelude.{◌≤◌};
ghost use Rattle.strips.specs.Sets.{Within};
ghost use Rattle.strips.specs.Bits.{members};
ghost use Rattle.strips.specs.Rows.{AllWithin, AllApart, AllCheap};

use crate::{AtomSet, Row};

/// A task of at most 64 atoms and 256 actions in a table of rows, one for each action.
#[derive(Drop)]
pub struct RowTable {
    pub(crate) atoms: usize,
    pub(crate) actions: usize,
    pub(crate) start: AtomSet,
    pub(crate) goal: AtomSet,
    /// As many as there can be, of which the first `actions` count: nothing is allocated, and an `ArrayVec`, which would hold the
    /// count, is not in `std`.
    pub(crate) rows: [Row; 256],
    ghost few_atoms: { atoms ≤ 64 },
    ghost few_actions: { actions ≤ 256 },
    ghost start_in: { Within atoms (members start) },
    ghost goal_in: { Within atoms (members goal) },
    ghost needs_in: { AllWithin atoms (λ r. r.needs) rows },
    ghost adds_in: { AllWithin atoms (λ r. r.adds) rows },
    ghost removes_in: { AllWithin atoms (λ r. r.removes) rows },
    ghost apart: { AllApart rows },
    ghost cheap: { AllCheap rows },
}
