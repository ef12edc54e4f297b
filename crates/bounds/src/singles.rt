//! The bound over single atoms of a small task.
ghost use Rattle.std.specs.Prelude.{◌≤◌};

use crate::front::{Front, ToLookAt, up_to};
use crate::table::reached;
use crate::{CostTable, NONE};
use strips::{AtomSet, Row, RowTable, Task};

/// Single atoms as a front.
#[derive(Drop)]
pub(crate) struct Singles<'a> {
    table: &'a mut CostTable,
    atoms: usize,
    settled: AtomSet,
    /// The least cost of an atom that is not settled, or the number that stands for none: as an `Option` none would come before
    /// every cost.
    least: u32,
    ghost few_atoms: { atoms ≤ 64 },
}

impl<'a> Singles<'a> {
    /// The front of a task, with nothing entered.
    pub(crate) fn new(table: &'a mut CostTable, task: &RowTable) -> Singles<'a> {
        *table = CostTable::new();
        Singles {
            table,
            atoms: task.atoms(),
            settled: AtomSet::EMPTY,
            least: NONE,
        }
    }

    /// Lowers the costs of some atoms.
    fn lower_all(&mut self, atoms: AtomSet, cost: u32) {
        for atom in atoms {
            if self.table.lower(atom, cost) {
                self.least = self.least.min(cost);
            }
        }
    }
}

impl Front for Singles<'_> {
    const TURNS: usize = 65;

    fn begin(&mut self, start: AtomSet) {
        self.lower_all(start, 0);
    }

    fn look_at(&mut self, _action: usize, row: Row, now: u32) {
        if row.needs.is_inside(self.settled) {
            let cost = now.saturating_add(u32::from(row.cost));
            self.lower_all(row.adds.without(self.settled), cost);
        }
    }

    fn settle(&mut self, now: u32) -> ToLookAt {
        let (settled, least) = up_to(self.table.entries(0, self.atoms), now);
        let fresh = settled.without(self.settled);
        self.settled = settled;
        self.least = least;
        ToLookAt::Needing(fresh)
    }

    fn least(&self) -> Option<u32> {
        reached(self.least)
    }

    fn is_settled(&self, atoms: AtomSet) -> bool {
        atoms.is_inside(self.settled)
    }

    fn value(&self, atoms: AtomSet) -> u32 {
        atoms
            .into_iter()
            .map(|atom| self.table.entry(atom))
            .max()
            .unwrap_or(0)
    }
}
