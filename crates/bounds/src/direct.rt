//! The bounds over sets of one or two atoms, on the task itself.
ghost use Rattle.std.specs.Prelude.{◌≡◌, Some, None, MatchResult};
ghost use Rattle.bounds.specs.Orders.{bound_denied};

use crate::front::goal_cost;
use crate::pairs::Pairs;
use crate::singles::Singles;
use crate::{CostTable, Order};
use strips::{Denial, RowTable, Task};

/// The bound over sets of 1 to `order` atoms, or none: the goal's value once the goal's sets are settled. The lent table is
/// empty after an answer, and as it was after a refusal.
pub fn direct_bound<T: Task>(
    table: &mut CostTable,
    task: &T,
    order: usize,
) -> Result<Option<u32>, Denial>
    ensures { MatchResult result (λ _. bound_denied (T.Task.meaning task.now) order ≡ None) (λ d. bound_denied (T.Task.meaning task.now) order ≡ Some d) }
{
    let mut rows = RowTable::new();
    rows.copy_from(task)?;
    let cost = match Order::try_from(order)? {
        Order::One => goal_cost(&mut Singles::new(table, &rows), &rows),
        Order::Two => goal_cost(&mut Pairs::new(table, &rows), &rows),
    };
    *table = CostTable::new();
    Ok(cost)
}
