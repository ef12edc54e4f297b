//! The listing of a task file.
use crate::lines::{RefusedLine, TaskLines};
use crate::{BoundLine, PlanLine};
use bounds::{CostTable, direct_bound};
use compiled::Compiled;
use estimators::Direct;
use search::{Answer, Place, search};
use std::fmt;
use std::fmt::Write;
use strips::{Denial, RowTable, Task};
use taskfile::FileView;

/// How large a task becomes when it is compiled into sets of up to `order` atoms, and its bound.
fn bound_line(task: &RowTable, order: usize) -> Result<BoundLine, Denial> {
    let mut table = CostTable::new();
    let bound = direct_bound(&mut table, task, order)?;
    let layer = Compiled::new(task, order)?;
    Ok(BoundLine {
        order,
        atoms: layer.atoms(),
        actions: layer.actions(),
        bound,
    })
}

/// The plan of a task, by the direct bound over pairs of atoms.
fn plan_line<'a>(task: &RowTable, places: &mut [Place], plan: &'a mut [u16]) -> PlanLine<'a> {
    let mut estimator = Direct::new(2);
    match search(task, &mut estimator, places, plan) {
        Ok(Answer::Found((length, cost, _))) => PlanLine::Found(cost, &plan[..length]),
        Ok(Answer::Nothing(_)) => PlanLine::Nothing,
        Err(refused) => PlanLine::Refused(refused.denial),
    }
}

/// The lines of a task file, or the line that it is refused by.
fn task_lines<'a>(
    bytes: &[u8],
    places: &mut [Place],
    plan: &'a mut [u16],
) -> Result<TaskLines<'a>, RefusedLine> {
    let view = FileView::open(bytes)?;
    let mut task = RowTable::new();
    task.copy_from(&view)?;
    Ok(TaskLines {
        atoms: task.atoms(),
        actions: task.actions(),
        single: bound_line(&task, 1)?,
        pair: bound_line(&task, 2)?,
        plan: plan_line(&task, places, plan),
    })
}

/// Writes the listing of a task file. The search has the places of the lent table, and the plan the lent buffer.
pub fn listing<W: fmt::Write>(
    out: &mut W,
    bytes: &[u8],
    places: &mut [Place],
    plan: &mut [u16],
) -> fmt::Result {
    match task_lines(bytes, places, plan) {
        Ok(lines) => writeln!(out, "{lines}"),
        Err(refused) => writeln!(out, "{refused}"),
    }
}
