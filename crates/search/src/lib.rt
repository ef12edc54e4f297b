//! A* over the states of a task, in a lent table.
#![tactic(auto)]

ghost use Rattle.std.specs.Prelude.{◌<◌, length, IfOk, IfSome};
ghost use Rattle.search.specs.Answer.{PlanWithin};

mod place;
mod table;
mod way_back;

use estimators::Estimator;
use place::Way;
pub use place::{Answer, Place, Refused};
use strips::{Part, RowTable, Task};
use table::Table;

/// The turns of a search from the table's first place: the place that contains the goal, or none once no place is open.
fn turns<E: Estimator>(
    task: &RowTable,
    estimator: &mut E,
    table: &mut Table,
) -> Result<Option<usize>, Refused>
    ensures { IfOk result (λ goal. IfSome goal (λ place. place < table.new.used)) }
{
    let goal = task.set_of(Part::Goal);
    // it ends, since a turn closes a place for good
    'turns: while let Some(chosen) = table.choose() {
        let from = table.in_use()[chosen];
        if goal.is_inside(from.state) {
            return Ok(Some(chosen));
        }
        table.close(chosen);
        'actions: for action in 0..task.actions() {
            let row = task.row(action);
            if !row.needs.is_inside(from.state) {
                continue 'actions;
            }
            let state = from.state.without(row.removes).joined(row.adds);
            // by `as`, since there are fewer than 2^16 places and actions
            let way = Way {
                paid: from.paid.saturating_add(u32::from(row.cost)),
                parent: chosen as u16,
                action: action as u16,
            };
            // this look-up yields the place by `break` on purpose: docs/DECISIONS.md, forms by place
            let known = table.states();
            let mut at = 0;
            let place = loop {
                if at == known.len() {
                    break None;
                }
                if known[at] == state {
                    break Some(at);
                }
                at += 1;
            };
            if let Some(place) = place {
                table.reach(place, way);
                continue 'actions;
            }
            let Some(estimate) = estimator.estimate(task, state)? else {
                continue 'actions;
            };
            table.put(Place::new(state, way, estimate))?;
        }
    }
    Ok(None)
}

/// Searches for a cheapest plan of a task, from its start, in the table `places`, and writes it to the front of `plan`.
pub fn search<T: Task, E: Estimator>(
    task: &T,
    estimator: &mut E,
    places: &mut [Place],
    plan: &mut [u16],
) -> Result<Answer, Refused>
    ensures { IfOk result (PlanWithin (length plan.new)) }
{
    let mut copy = RowTable::new();
    copy.copy_from(task)?;
    let start = copy.set_of(Part::Start);
    let Some(estimate) = estimator.estimate(&copy, start)? else {
        return Ok(Answer::Nothing(0));
    };
    let mut table = Table::new(places);
    table.put(Place::new(start, Way::default(), estimate))?;
    match turns(&copy, estimator, &mut table)? {
        Some(goal) => table.tell(goal, plan),
        None => Ok(Answer::Nothing(table.used)),
    }
}
