//! The compiled task as a layer over a task.
ghost use Rattle.std.specs.Prelude.{◌≡◌, ◌≤◌, Some, None, MatchResult};
ghost use Rattle.bounds.specs.Orders.{size_of, bound_denied};
ghost use Rattle.compiled.specs.Compiled.{compiled};

use crate::subsets::SmallSets;
use bounds::Order;
use strips::{Denial, Part, Task, is_small};

/// The compiled task of a task of at most 64 atoms and 256 actions. Its atoms stand for the sets of 1 to `order` atoms,
/// its actions for an action and the atoms that it takes along, at most `order - 1`.
#[derive(Drop)]
pub struct Compiled<T: Task> {
    pub(crate) task: T,
    pub(crate) order: Order,
    ghost few_atoms: { (T.Task.meaning task).atoms ≤ 64 },
    ghost few_actions: { (T.Task.meaning task).actions ≤ 256 },
}

impl<T: Task + Drop> Compiled<T> {
    /// Compiles a task.
    pub fn new(task: T, order: usize) -> Result<Compiled<T>, Denial>
        ensures { MatchResult result
            (λ v. (bound_denied (T.Task.meaning task) order ≡ None)
            × (⟦<Compiled<T> as Task>⟧.meaning v ≡ compiled order (T.Task.meaning task)))
            (λ d. bound_denied (T.Task.meaning task) order ≡ Some d) }
    {
        if !is_small(&task) {
            return Err(Denial::TaskOutOfRange);
        }
        let order = Order::try_from(order)?;
        Ok(Compiled { task, order })
    }
}

impl<T: Task> Compiled<T> {
    /// The sets that its atoms stand for.
    fn sets(&self) -> SmallSets
        ensures atoms { result.atoms ≡ (T.Task.meaning self.now.task).atoms }
        ensures order { result.order ≡ self.now.order }
    {
        SmallSets {
            atoms: self.task.atoms(),
            order: self.order,
        }
    }
}

impl<T: Task> Task for Compiled<T> {
    ghost use Rattle.compiled.specs.Soundness.{compiled_sound};

    ghost meaning = { λ v. compiled (size_of v.order) (T.Task.meaning v.task) };

    ghost sound = { λ v. compiled_sound v.order (T.Task.meaning v.task) (T.Task.sound v.task) v.few_atoms v.few_actions };

    fn atoms(&self) -> usize {
        self.sets().count()
    }

    fn actions(&self) -> usize {
        self.count_carriers()
    }

    fn needs(&self, action: usize, atom: usize) -> bool {
        self.holds(Part::Needs(action), atom)
    }

    fn adds(&self, action: usize, atom: usize) -> bool {
        self.holds(Part::Adds(action), atom)
    }

    fn removes(&self, _action: usize, _atom: usize) -> bool {
        false
    }

    fn cost(&self, action: usize) -> u16 {
        self.carrier(action).map_or(0, |carrier| carrier.row.cost)
    }

    fn in_start(&self, atom: usize) -> bool {
        self.holds(Part::Start, atom)
    }

    fn in_goal(&self, atom: usize) -> bool {
        self.holds(Part::Goal, atom)
    }

    fn holds(&self, part: Part, atom: usize) -> bool {
        let sets = self.sets();
        self.scope(part).is_some_and(|scope| sets.has(scope, atom))
    }

    fn next_of(&self, part: Part, from: usize) -> Option<usize> {
        self.sets().next(self.scope(part)?, from)
    }
}
