//! The bound over single atoms on the compiled task.
ghost use Rattle.std.specs.Prelude.{◌≡◌, Some, None, MatchResult};
ghost use Rattle.bounds.specs.Orders.{bound_denied};

use crate::Compiled;
use bounds::{CostTable, max_bound};
use strips::{Denial, Task};

/// The bound over single atoms on the compiled task of sets of 1 to `order` atoms, or none.
pub fn compiled_bound<T: Task>(
    table: &mut CostTable,
    task: &T,
    order: usize,
) -> Result<Option<u32>, Denial>
    ensures denied { MatchResult result (λ _. bound_denied (T.Task.meaning task.now) order ≡ None) (λ d. bound_denied (T.Task.meaning task.now) order ≡ Some d) }
{
    let compiled = Compiled::new(task, order)?;
    Ok(max_bound(table, &compiled))
}
