//! A task with some actions closed.
ghost use Rattle.std.specs.Prelude.{◌≡◌, ◌<◌, false, Some, None, MatchResult};
ghost use Rattle.strips.specs.Closed.{closed_of, put, mark_denied};
ghost use Rattle.strips.specs.Layers.{with_closures, closures_denied};
ghost use Rattle.strips.specs.Sets.{first, inside};
ghost use Rattle.strips.specs.Soundness.{closures_sound};

use crate::{AtomSet, Denial, Row, Task, is_small};

/// Which actions are closed: a mark for each of 256.
#[derive(Clone, Copy, Debug, PartialEq, Eq)]
pub struct Closures {
    marks: [bool; 256],
}

impl Closures {
    /// Nothing closed.
    pub fn none() -> Closures
        ensures { closed_of result ≡ (λ _. false) }
    {
        Closures {
            marks: [false; 256],
        }
    }

    /// Whether an action is closed.
    pub fn is_closed(&self, action: usize) -> bool
        ensures { result ≡ closed_of self.now action }
    {
        self.marks.get(action).copied().unwrap_or(false)
    }

    /// Marks one action as closed or open.
    pub fn mark(&mut self, action: usize, closed: bool) -> Result<(), Denial>
        ensures { MatchResult result
            (λ _. (mark_denied action ≡ None) × (closed_of self.new ≡ put (closed_of self.old) action closed))
            (λ d. (mark_denied action ≡ Some d) × (self.new ≡ self.old)) }
    {
        if action >= 256 {
            return Err(Denial::NoSuchNumber);
        }
        self.marks[action] = closed;
        Ok(())
    }
}

/// A task of at most 64 atoms and 256 actions, of which the closed ones add and remove nothing.
#[derive(Drop)]
pub struct Closed<T> {
    task: T,
    closures: Closures,
}

/// Whether every closed action is below n.
fn closed_below(closures: &Closures, n: usize) -> bool
    ensures { result ≡ inside 256 (closed_of closures.now) (first n) }
{
    !(n..256).any(|action| closures.is_closed(action))
}

impl<T: Task + Drop> Closed<T> {
    /// Lays closures over a task.
    pub fn new(task: T, closures: Closures) -> Result<Closed<T>, Denial>
        ensures { MatchResult result
            (λ c. (closures_denied (T.Task.meaning task) (closed_of closures) ≡ None)
            × (with_closures (T.Task.meaning c.task) (closed_of c.closures) ≡ with_closures (T.Task.meaning task) (closed_of closures)))
            (λ d. closures_denied (T.Task.meaning task) (closed_of closures) ≡ Some d) }
    {
        if !is_small(&task) {
            return Err(Denial::TaskOutOfRange);
        }
        if !closed_below(&closures, task.actions()) {
            return Err(Denial::NoSuchNumber);
        }
        Ok(Closed { task, closures })
    }
}

impl<T: Task> Task for Closed<T> {
    ghost meaning = { λ c. with_closures (T.Task.meaning c.task) (closed_of c.closures) };

    ghost sound = { λ c. closures_sound (T.Task.meaning c.task) (T.Task.sound c.task) (closed_of c.closures) };

    fn atoms(&self) -> usize {
        self.task.atoms()
    }

    fn actions(&self) -> usize {
        self.task.actions()
    }

    fn needs(&self, action: usize, atom: usize) -> bool {
        self.task.needs(action, atom)
    }

    fn adds(&self, action: usize, atom: usize) -> bool {
        !self.closures.is_closed(action) && self.task.adds(action, atom)
    }

    fn removes(&self, action: usize, atom: usize) -> bool {
        !self.closures.is_closed(action) && self.task.removes(action, atom)
    }

    fn cost(&self, action: usize) -> u16 {
        self.task.cost(action)
    }

    fn in_start(&self, atom: usize) -> bool {
        self.task.in_start(atom)
    }

    fn in_goal(&self, atom: usize) -> bool {
        self.task.in_goal(atom)
    }

    fn row(&self, action: usize) -> Row {
        let row = self.task.row(action);
        if self.closures.is_closed(action) {
            Row {
                adds: AtomSet::EMPTY,
                removes: AtomSet::EMPTY,
                ..row
            }
        } else {
            row
        }
    }
}
