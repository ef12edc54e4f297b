//! Estimators that ask a bound.
ghost use Rattle.std.specs.Prelude.{◌≡◌, Some, None, MatchResult};
ghost use Rattle.bounds.specs.Orders.{bound_denied};

use crate::{Estimator, sized};
use bounds::{CostTable, Order, direct_bound};
use compiled::compiled_bound;
use std::marker::PhantomData;
use strips::{AtomSet, Denial, Errand, Part, Task};

/// A way to compute the bound over sets of 1 to `order` atoms.
pub trait Bound {
    /// The bound of a task, or none, computed in the lent table.
    fn bound<T: Task>(table: &mut CostTable, task: &T, order: usize) -> Result<Option<u32>, Denial>
        ensures { MatchResult result (λ _. bound_denied (T.Task.meaning task.now) order ≡ None) (λ d. bound_denied (T.Task.meaning task.now) order ≡ Some d) };
}

/// On the task itself.
#[derive(Clone, Copy, Debug, PartialEq, Eq)]
pub struct OnTask;

impl Bound for OnTask {
    fn bound<T: Task>(
        table: &mut CostTable,
        task: &T,
        order: usize,
    ) -> Result<Option<u32>, Denial> {
        direct_bound(table, task, order)
    }
}

/// On the task compiled into those sets.
#[derive(Clone, Copy, Debug, PartialEq, Eq)]
pub struct OnCompiled;

impl Bound for OnCompiled {
    fn bound<T: Task>(
        table: &mut CostTable,
        task: &T,
        order: usize,
    ) -> Result<Option<u32>, Denial> {
        compiled_bound(table, task, order)
    }
}

/// Says the bound over sets of 1 to `order` atoms, computed in the way of `B`.
#[derive(Clone, Copy)]
pub struct Bounded<B> {
    order: usize,
    table: CostTable,
    way: PhantomData<B>,
}

/// Says the bound computed on the task itself.
pub type Direct = Bounded<OnTask>;

/// Says the same bound, computed on the task compiled into those sets.
pub type ByCompiling = Bounded<OnCompiled>;

impl<B: Bound> Bounded<B> {
    pub fn new(order: usize) -> Bounded<B>
        ensures { result.order ≡ order }
    {
        Bounded {
            order,
            table: CostTable::new(),
            way: PhantomData,
        }
    }
}

/// The task asked from another state.
fn errand<T: Task>(task: &T, state: AtomSet) -> Result<Errand<&T>, Denial> {
    let goal = task.set_of(Part::Goal);
    Errand::new(task, state, goal)
}

impl<B: Bound> Estimator for Bounded<B> {
    fn estimate<T: Task>(&mut self, task: &T, state: AtomSet) -> Result<Option<u32>, Denial> {
        sized(task)?;
        // the order is refused before the state
        Order::try_from(self.order)?;
        let errand = errand(task, state)?;
        B::bound(&mut self.table, &errand, self.order)
    }
}
