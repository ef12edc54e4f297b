//! The calls that fill a row table.
ghost use Rattle.std.specs.Prelude.{◌≡◌, ◌<◌, ◌≤◌, Some, None, MatchResult};
ghost use Rattle.strips.specs.Bits.{members};
ghost use Rattle.strips.specs.Rows.{row_action};
ghost use Rattle.strips.specs.Table.{table_task, blank_task, with_action, with_start, with_goal, clear_denied, set_denied, row_denied};

use crate::{AtomSet, Denial, Row, RowTable};

/// The most atoms of a row table.
const MOST_ATOMS: usize = 64;

/// The most actions of a row table.
const MOST_ACTIONS: usize = 256;

/// A table of some atoms and actions, cost 1 in every row, and all sets empty.
fn blank(atoms: usize, actions: usize) -> RowTable
    requires { (atoms ≤ 64) × (actions ≤ 256) }
    ensures { table_task result ≡ blank_task atoms actions }
{
    RowTable {
        atoms,
        actions,
        start: AtomSet::EMPTY,
        goal: AtomSet::EMPTY,
        rows: [Row::BLANK; 256],
    }
}

impl RowTable {
    /// A table without atoms and actions.
    pub fn new() -> RowTable
        ensures { table_task result ≡ blank_task 0 0 }
    {
        blank(0, 0)
    }

    /// Gives the table its numbers of atoms and actions, cost 1 in every row, and all sets empty.
    pub fn clear(&mut self, atoms: usize, actions: usize) -> Result<(), Denial>
        ensures { MatchResult result
            (λ _. (clear_denied atoms actions ≡ None) × (table_task self.new ≡ blank_task atoms actions))
            (λ d. (clear_denied atoms actions ≡ Some d) × (self.new ≡ self.old)) }
    {
        if atoms > MOST_ATOMS || actions > MOST_ACTIONS {
            return Err(Denial::SizeOutOfRange);
        }
        *self = blank(atoms, actions);
        Ok(())
    }

    /// Sets the row of one action.
    pub fn set_row(&mut self, action: usize, row: Row) -> Result<(), Denial>
        ensures { MatchResult result
            (λ _. (row_denied (table_task self.old) action (row_action row) ≡ None) × (table_task self.new ≡ with_action (table_task self.old) action (row_action row)))
            (λ d. (row_denied (table_task self.old) action (row_action row) ≡ Some d) × (self.new ≡ self.old)) }
    {
        if action >= self.actions {
            return Err(Denial::NoSuchNumber);
        }
        if !row.needs.is_below(self.atoms)
            || !row.adds.is_below(self.atoms)
            || !row.removes.is_below(self.atoms)
        {
            return Err(Denial::AtomOutOfRange);
        }
        if row.adds.meets(row.removes) {
            return Err(Denial::AddedAndRemoved);
        }
        self.rows[action] = row;
        Ok(())
    }

    /// Sets the start.
    pub fn set_start(&mut self, start: AtomSet) -> Result<(), Denial>
        ensures { MatchResult result
            (λ _. (set_denied (table_task self.old) (members start) ≡ None) × (table_task self.new ≡ with_start (table_task self.old) (members start)))
            (λ d. (set_denied (table_task self.old) (members start) ≡ Some d) × (self.new ≡ self.old)) }
    {
        if !start.is_below(self.atoms) {
            return Err(Denial::AtomOutOfRange);
        }
        self.start = start;
        Ok(())
    }

    /// Sets the goal. Start and goal differ in the field alone: one call for both would take a part of a task, and would have to
    /// refuse the sets of an action.
    pub fn set_goal(&mut self, goal: AtomSet) -> Result<(), Denial>
        ensures { MatchResult result
            (λ _. (set_denied (table_task self.old) (members goal) ≡ None) × (table_task self.new ≡ with_goal (table_task self.old) (members goal)))
            (λ d. (set_denied (table_task self.old) (members goal) ≡ Some d) × (self.new ≡ self.old)) }
    {
        if !goal.is_below(self.atoms) {
            return Err(Denial::AtomOutOfRange);
        }
        self.goal = goal;
        Ok(())
    }
}
