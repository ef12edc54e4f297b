//! A row table is a task.
ghost use Rattle.strips.specs.Table.{table_task, table_sound};

use crate::{Row, RowTable, Task};

impl RowTable {
    ghost use Rattle.std.specs.Prelude.{◌≡◌};
    ghost use Rattle.strips.specs.Rows.{row_action};

    // The row of an action.
    fn row_at(&self, action: usize) -> Row
        ensures { row_action result ≡ (table_task self.now).action action }
    {
        if action < self.actions {
            self.rows[action]
        } else {
            Row::NONE
        }
    }
}

impl Task for RowTable {
    ghost meaning = { table_task };

    ghost sound = { table_sound };

    fn atoms(&self) -> usize {
        self.atoms
    }

    fn actions(&self) -> usize {
        self.actions
    }

    fn needs(&self, action: usize, atom: usize) -> bool {
        self.row_at(action).needs.has(atom)
    }

    fn adds(&self, action: usize, atom: usize) -> bool {
        self.row_at(action).adds.has(atom)
    }

    fn removes(&self, action: usize, atom: usize) -> bool {
        self.row_at(action).removes.has(atom)
    }

    fn cost(&self, action: usize) -> u16 {
        self.row_at(action).cost
    }

    fn in_start(&self, atom: usize) -> bool {
        self.start.has(atom)
    }

    fn in_goal(&self, atom: usize) -> bool {
        self.goal.has(atom)
    }

    fn row(&self, action: usize) -> Row {
        self.row_at(action)
    }
}
