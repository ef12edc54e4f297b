//! The worked examples of the documents, as tests.
#![tactic(auto)]

use strips::{AtomSet, Row, RowTable};

/// A row of sets that are given by their bits.
pub fn row(needs: u64, adds: u64, removes: u64, cost: u16) -> Row {
    Row {
        needs: AtomSet::from_bits(needs),
        adds: AtomSet::from_bits(adds),
        removes: AtomSet::from_bits(removes),
        cost,
    }
}

/// A task of some rows, from a start for a goal that are given by their bits. What the table refuses is left out.
fn task(atoms: usize, start: u64, goal: u64, rows: &[Row]) -> RowTable {
    let mut task = RowTable::new();
    let _ = task.clear(atoms, rows.len());
    let _ = task.set_start(AtomSet::from_bits(start));
    let _ = task.set_goal(AtomSet::from_bits(goal));
    for (action, row) in rows.iter().enumerate() {
        let _ = task.set_row(action, *row);
    }
    task
}

/// The shuttle: atoms 0 at the shelf, 1 at the window, 2 tub aboard, 3 tub out.
pub fn shuttle() -> RowTable {
    let rows = [
        row(1, 2, 1, 5),
        row(2, 1, 2, 5),
        row(1, 4, 0, 2),
        row(6, 8, 4, 1),
    ];
    task(4, 1, 9, &rows)
}

/// Two atoms that each cost nothing once the other holds.
pub fn zero_loop() -> RowTable {
    task(2, 0, 1, &[row(1, 2, 0, 0), row(2, 1, 0, 0)])
}

#[cfg(test)]
mod bounds_and_plans;
#[cfg(test)]
mod files;
#[cfg(test)]
mod tables;
