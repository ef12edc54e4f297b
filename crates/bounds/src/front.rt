//! Settling sets of atoms in the order of their costs: what is settled cannot be made cheaper by what is not, and the bound
//! is known once the goal's sets are settled.
ghost use Rattle.std.specs.Prelude.{◌<◌};

use crate::NONE;
use crate::readers::{BLOCK, BLOCKS, Readers};
use crate::table::reached;
use strips::{AtomSet, Part, Row, RowTable, Task};

/// The actions to look at once sets are settled: all of them, or those that need an atom of a set. As an `Option` the `None`
/// would stand for all of them.
#[derive(Clone, Copy)]
pub(crate) enum ToLookAt {
    All,
    Needing(AtomSet),
}

/// Sets of atoms and their costs: what is settled, and what is to come.
pub(crate) trait Front {
    /// More turns than there are sets: each turn but the last settles one. A loop without a count would need the
    /// proof of this, which is not there yet.
    const TURNS: usize;

    /// Enters the sets inside a set of atoms, each with cost 0.
    fn begin(&mut self, start: AtomSet);

    /// Looks at an action: where all it needs is settled, what it makes costs at most `now` and the action.
    fn look_at(&mut self, action: usize, row: Row, now: u32)
        requires { action < 256 };

    /// Settles the sets that cost a given cost at most.
    fn settle(&mut self, now: u32) -> ToLookAt;

    /// The least cost of a set that is not settled: none where no other set can be reached.
    fn least(&self) -> Option<u32>;

    /// Whether every set inside a set of atoms is settled.
    fn is_settled(&self, atoms: AtomSet) -> bool;

    /// The value of a set of atoms: the greatest cost of a set inside it, and 0; the number that stands for none where one is
    /// not reached, since as an `Option` none would come before every cost.
    fn value(&self, atoms: AtomSet) -> u32;
}

/// A front that is settled by the actions of a task.
#[derive(Drop)]
struct Settling<'a, F> {
    front: &'a mut F,
    task: &'a RowTable,
    readers: Readers,
}

impl<F: Front> Settling<'_, F> {
    /// Looks at every action.
    fn look_at_all(&mut self, now: u32) {
        for action in 0..self.task.actions() {
            self.front.look_at(action, self.task.row(action), now);
        }
    }

    /// Looks at some actions of a block.
    fn look_at_block(&mut self, block: usize, actions: AtomSet, now: u32)
        requires { block < 4 }
    {
        for place in actions {
            let action = BLOCK * block + place;
            self.front.look_at(action, self.task.row(action), now);
        }
    }

    /// Looks at the actions that need an atom of a set. Blocks go by number, since an action's number is made of its block's.
    fn look_at_readers(&mut self, atoms: AtomSet, now: u32) {
        for block in 0..BLOCKS {
            let actions = self.readers.needing(block, atoms);
            self.look_at_block(block, actions, now);
        }
    }

    /// Settles the sets that cost a given cost at most, and looks at the actions that they are of use to.
    fn turn(&mut self, now: u32) {
        match self.front.settle(now) {
            ToLookAt::All => self.look_at_all(now),
            ToLookAt::Needing(atoms) => self.look_at_readers(atoms, now),
        }
    }

    /// The cost of the next turn: there is none once the goal is settled, or where no other set can be reached.
    fn next_turn(&self, goal: AtomSet) -> Option<u32> {
        if self.front.is_settled(goal) {
            None
        } else {
            self.front.least()
        }
    }
}

/// The value of the goal of a task once its sets are settled, or none where it cannot be reached.
pub(crate) fn goal_cost<F: Front + Drop>(front: &mut F, task: &RowTable) -> Option<u32> {
    let goal = task.set_of(Part::Goal);
    let mut settling = Settling {
        front,
        task,
        readers: Readers::of(task),
    };
    settling.front.begin(task.set_of(Part::Start));
    // first every action, since some may need nothing
    settling.front.settle(0);
    settling.look_at_all(0);
    for _ in 0..F::TURNS {
        let Some(now) = settling.next_turn(goal) else {
            break;
        };
        settling.turn(now);
    }
    reached(settling.front.value(goal))
}

/// The places of the costs up to a cost, and the least of the others, or the number that stands for none, as in the tables.
/// Nothing here branches: with an `if` around what is kept the bound over pairs takes a quarter longer on the examples.
pub(crate) fn up_to(costs: &[u32], now: u32) -> (AtomSet, u32) {
    let mut places = AtomSet::EMPTY;
    let mut least = NONE;
    for (place, cost) in costs.iter().enumerate() {
        let reached = *cost <= now;
        let more = places.with(place);
        places = if reached { more } else { places };
        least = least.min(if reached { NONE } else { *cost });
    }
    (places, least)
}
