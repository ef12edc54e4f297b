//! A task with another start and goal.
ghost use Rattle.std.specs.Prelude.{◌≡◌, Some, None, MatchResult};
ghost use Rattle.strips.specs.Sets.{Within};
ghost use Rattle.strips.specs.Bits.{members};
ghost use Rattle.strips.specs.Layers.{with_errand, errand_denied};
ghost use Rattle.strips.specs.Soundness.{errand_within};

use crate::{AtomSet, Denial, Part, Row, Task, is_small};

/// A task of at most 64 atoms and 256 actions, asked from another start and for another goal.
#[derive(Drop)]
pub struct Errand<T: Task> {
    task: T,
    start: AtomSet,
    goal: AtomSet,
    ghost start_in: { Within (T.Task.meaning task).atoms (members start) },
    ghost goal_in: { Within (T.Task.meaning task).atoms (members goal) },
}

impl<T: Task + Drop> Errand<T> {
    /// Lays a start and a goal over a task.
    pub fn new(task: T, start: AtomSet, goal: AtomSet) -> Result<Errand<T>, Denial>
        ensures { MatchResult result
            (λ e. (errand_denied (T.Task.meaning task) (members start) (members goal) ≡ None)
            × (with_errand (T.Task.meaning e.task) (members e.start) (members e.goal) ≡ with_errand (T.Task.meaning task) (members start) (members goal)))
            (λ d. errand_denied (T.Task.meaning task) (members start) (members goal) ≡ Some d) }
    {
        if !is_small(&task) {
            return Err(Denial::TaskOutOfRange);
        }
        let atoms = task.atoms();
        if !start.is_below(atoms) || !goal.is_below(atoms) {
            return Err(Denial::AtomOutOfRange);
        }
        Ok(Errand { task, start, goal })
    }
}

impl<T: Task> Task for Errand<T> {
    ghost meaning = { λ e. with_errand (T.Task.meaning e.task) (members e.start) (members e.goal) };

    ghost sound = { λ e. errand_within (T.Task.meaning e.task) (T.Task.sound e.task) (members e.start) (members e.goal) e.start_in e.goal_in };

    fn atoms(&self) -> usize {
        self.task.atoms()
    }

    fn actions(&self) -> usize {
        self.task.actions()
    }

    fn needs(&self, action: usize, atom: usize) -> bool {
        self.task.needs(action, atom)
    }

    fn adds(&self, action: usize, atom: usize) -> bool {
        self.task.adds(action, atom)
    }

    fn removes(&self, action: usize, atom: usize) -> bool {
        self.task.removes(action, atom)
    }

    fn cost(&self, action: usize) -> u16 {
        self.task.cost(action)
    }

    fn in_start(&self, atom: usize) -> bool {
        self.start.has(atom)
    }

    fn in_goal(&self, atom: usize) -> bool {
        self.goal.has(atom)
    }

    fn row(&self, action: usize) -> Row {
        self.task.row(action)
    }
}
