//! The bound over single atoms, on any task.
use crate::CostTable;
use crate::table::reached;
use std::ops::ControlFlow;
use strips::{Part, Task};

/// How many atoms are asked for at once.
const BATCH: usize = 16;

/// More rounds than there are atoms: each round but the last lowers an atom's cost for good. There are fewer batches too.
/// A loop without a count would need the proof of this, which is not there yet.
const ROUNDS: usize = 2081;

/// The most actions of a task.
const MOST_ACTIONS: usize = 16640;

/// Shows the atoms of a part of a task batch by batch, until `visit` breaks off.
fn for_each_batch<T, F>(task: &T, part: Part, mut visit: F)
where
    T: Task,
    F: FnMut(&[u16]) -> ControlFlow<()>,
    requires { F.IsAlwaysCallable visit }
{
    let mut list = [0u16; BATCH];
    let mut from = 0;
    for _ in 0..ROUNDS {
        let count = task.list_of(part, from, &mut list);
        if visit(&list[..count]).is_break() || count < BATCH {
            break;
        }
        from = usize::from(list[BATCH - 1]) + 1;
    }
}

/// The dearest of some atoms, and its cost, or the number that stands for none: as an `Option` none would come before every cost.
#[derive(Clone, Copy)]
struct Dearest {
    cost: u32,
    atom: u16,
}

impl Dearest {
    /// The dearest of no atoms: any atom will do.
    const OF_NONE: Dearest = Dearest { cost: 0, atom: 0 };

    /// The dearest of these and the atoms of a batch.
    fn or_of(self, table: &CostTable, batch: &[u16]) -> Dearest {
        let mut dearest = self;
        for atom in batch {
            let cost = table.entry(usize::from(*atom));
            if cost >= dearest.cost {
                dearest = Dearest { cost, atom: *atom };
            }
        }
        dearest
    }

    /// Whether the atom costs less by now.
    fn has_fallen(self, table: &CostTable) -> bool {
        table.entry(usize::from(self.atom)) < self.cost
    }
}

/// Lowers the costs of the atoms of a batch, and says whether one was above.
fn lower_batch(table: &mut CostTable, batch: &[u16], cost: u32) -> bool {
    let mut lowered = false;
    for atom in batch {
        lowered |= table.lower(usize::from(*atom), cost);
    }
    lowered
}

/// The costs of the atoms of a task.
#[derive(Drop)]
struct AtomCosts<'a, T> {
    table: &'a mut CostTable,
    task: &'a T,
}

impl<T: Task> AtomCosts<'_, T> {
    /// The dearest atom of a part of the task.
    fn dearest_of(&self, part: Part) -> Dearest {
        let mut dearest = Dearest::OF_NONE;
        for_each_batch(self.task, part, |batch| {
            dearest = dearest.or_of(self.table, batch);
            if reached(dearest.cost).is_none() {
                ControlFlow::Break(())
            } else {
                ControlFlow::Continue(())
            }
        });
        dearest
    }

    /// Lowers the costs of the atoms of a part of the task, and says whether one was above.
    fn lower_part(&mut self, part: Part, cost: u32) -> bool {
        let mut lowered = false;
        for_each_batch(self.task, part, |batch| {
            lowered |= lower_batch(self.table, batch, cost);
            ControlFlow::Continue(())
        });
        lowered
    }

    /// Looks at an action: what it adds costs at most what it needs and its own cost. Notes the dearest of its needs, and says
    /// whether a cost was above.
    fn look_at(&mut self, action: usize, dearest: &mut Dearest) -> bool {
        *dearest = self.dearest_of(Part::Needs(action));
        let Some(needed) = reached(dearest.cost) else {
            return false;
        };
        let cost = needed.saturating_add(u32::from(self.task.cost(action)));
        self.lower_part(Part::Adds(action), cost)
    }

    /// The first round, which looks at every action. One function of both rounds would need a test to pass, and would be no
    /// plainer.
    fn first_round(&mut self, seen: &mut [Dearest]) {
        for (action, dearest) in seen.iter_mut().enumerate() {
            self.look_at(action, dearest);
        }
    }

    /// One round over the actions, which says whether it lowered a cost. An action is passed over where the dearest of its
    /// needs costs what it did.
    fn round(&mut self, seen: &mut [Dearest]) -> bool {
        let mut lowered = false;
        for (action, dearest) in seen.iter_mut().enumerate() {
            if dearest.has_fallen(self.table) {
                lowered |= self.look_at(action, dearest);
            }
        }
        lowered
    }

    /// Lowers costs until nothing changes. Each action notes the dearest of its needs in `seen`.
    fn settle(&mut self, seen: &mut [Dearest]) {
        self.first_round(seen);
        for _ in 0..ROUNDS {
            if !self.round(seen) {
                break;
            }
        }
    }
}

/// The bound over single atoms, or none: the greatest cost of a goal atom once all costs are settled.
pub fn max_bound<T: Task>(table: &mut CostTable, task: &T) -> Option<u32> {
    *table = CostTable::new();
    let mut costs = AtomCosts { table, task };
    costs.lower_part(Part::Start, 0);
    let mut seen = [Dearest::OF_NONE; MOST_ACTIONS];
    costs.settle(&mut seen[..task.actions()]);
    let cost = costs.dearest_of(Part::Goal).cost;
    *table = CostTable::new();
    reached(cost)
}
