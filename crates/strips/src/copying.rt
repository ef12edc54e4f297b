//! A copy of any small task into a row table.
ghost use Rattle.std.specs.Prelude.{◌≡◌, ℕ, ◌<◌, Some, None, true, MatchResult, slice_index_or};
ghost use Rattle.strips.specs.Task.{small};
ghost use Rattle.strips.specs.Rows.{row_action, no_row};
ghost use Rattle.strips.specs.Table.{table_task, copy_denied};

use crate::{Denial, Part, Row, RowTable, Task, is_small};

/// The rows of a task's actions.
fn rows_of<T: Task>(task: &T) -> [Row; 256]
    requires { small (T.Task.meaning task.now) ≡ true }
    ensures { (a : ℕ) → row_action (slice_index_or result a no_row) ≡ (T.Task.meaning task.now).action a }
{
    // a loop, since `array::from_fn` clears and copies the rows several times, and a bound over atoms then takes an eighth longer; over
    // as many rows as there are actions, since a row that is no action's costs a task as much as another
    let mut rows = [Row::NONE; 256];
    for (action, row) in rows[..task.actions()].iter_mut().enumerate() {
        *row = task.row(action);
    }
    rows
}

impl RowTable {
    /// Makes the table a copy of a task of at most 64 atoms and 256 actions.
    pub fn copy_from<T: Task>(&mut self, task: &T) -> Result<(), Denial>
        ensures { MatchResult result
            (λ _. (copy_denied (T.Task.meaning task.now) ≡ None) × (table_task self.new ≡ T.Task.meaning task.now))
            (λ d. (copy_denied (T.Task.meaning task.now) ≡ Some d) × (self.new ≡ self.old)) }
    {
        if !is_small(task) {
            return Err(Denial::TaskOutOfRange);
        }
        *self = RowTable {
            atoms: task.atoms(),
            actions: task.actions(),
            start: task.set_of(Part::Start),
            goal: task.set_of(Part::Goal),
            rows: rows_of(task),
        };
        Ok(())
    }
}
