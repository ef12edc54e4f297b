//! Bounds, compiled tasks and plans of the examples.
use crate::{shuttle, zero_loop};
use bounds::{CostTable, direct_bound};
use compiled::{Compiled, compiled_bound};
use estimators::{Blind, ByCompiling, Direct, Estimator};
use listing::seconds;
use search::{Answer, Place, search};
use std::process::Abort;
use std::test::Fail;
use strips::{Closed, Closures, Denial, Part, RowTable, Task};

fn check_bound<T: Task>(rt: &impl Abort, task: &T, order: usize, bound: Option<u32>) {
    let mut table = CostTable::new();
    assert_eq!(rt; direct_bound(&mut table, task, order), Ok(bound));
    assert_eq!(rt; compiled_bound(&mut table, task, order), Ok(bound));
}

#[test]
fn bounds(rt: HostRuntime) -> Result<(), Fail> {
    let task = shuttle();
    check_bound(&rt, &task, 1, Some(6));
    check_bound(&rt, &task, 2, Some(13));
    let mut closures = Closures::none();
    assert_eq!(rt; closures.mark(1, true), Ok(()));
    let Ok(closed) = Closed::new(&task, closures) else {
        return Err(Fail::new("not closed"));
    };
    check_bound(&rt, &closed, 1, Some(6));
    check_bound(&rt, &closed, 2, None);
    let empty = zero_loop();
    check_bound(&rt, &empty, 1, None);
    check_bound(&rt, &empty, 2, None);
    assert_eq!(rt;
        direct_bound(&mut CostTable::new(), &task, 3),
        Err(Denial::OrderUnknown)
    );
    Ok(())
}

#[test]
fn pairs(rt: HostRuntime) -> Result<(), Fail> {
    let task = shuttle();
    let Ok(pairs) = Compiled::new(&task, 2) else {
        return Err(Fail::new("not compiled"));
    };
    assert_eq!(rt; pairs.atoms(), 10);
    assert_eq!(rt; pairs.actions(), 13);
    assert_eq!(rt; pairs.set_of(Part::Needs(4)).bits(), 0b100_0110);
    assert_eq!(rt; pairs.set_of(Part::Adds(4)).bits(), 0b10_0001);
    assert_eq!(rt; pairs.cost(4), 5);
    Ok(())
}

/// What a search of a task tells: the plan's length, its cost and the places used, or none where there is no plan.
fn tells(
    task: &RowTable,
    estimator: &mut impl Estimator,
    places: usize,
    room: usize,
) -> Result<Option<(usize, u32, usize)>, Denial> {
    let mut table = [Place::EMPTY; 8];
    let mut plan = [9u16; 8];
    match search(
        task,
        estimator,
        &mut table[0..places.min(8)],
        &mut plan[0..room.min(8)],
    ) {
        Ok(Answer::Found(told)) => Ok(Some(told)),
        Ok(Answer::Nothing(_)) => Ok(None),
        Err(refused) => Err(refused.denial),
    }
}

#[test]
fn plans(rt: HostRuntime) {
    let task = shuttle();
    let told = Ok(Some((4, 13, 6)));
    assert_eq!(rt; tells(&task, &mut Direct::new(2), 6, 4), told);
    assert_eq!(rt; tells(&task, &mut ByCompiling::new(2), 6, 4), told);
    assert_eq!(rt;
        tells(&task, &mut Direct::new(2), 5, 4),
        Err(Denial::PlacesSpent)
    );
    assert_eq!(rt;
        tells(&task, &mut Direct::new(2), 0, 4),
        Err(Denial::PlacesSpent)
    );
    assert_eq!(rt;
        tells(&task, &mut Direct::new(2), 6, 3),
        Err(Denial::DoesNotFit)
    );
    assert_eq!(rt;
        tells(&task, &mut Direct::new(3), 6, 4),
        Err(Denial::OrderUnknown)
    );
    assert_eq!(rt; tells(&task, &mut Blind, 8, 8), told);
}

#[test]
fn half_seconds(rt: HostRuntime) {
    assert_eq!(rt; seconds(14), 1);
    assert_eq!(rt; seconds(15), 2);
    assert_eq!(rt; seconds(25), 3);
}
