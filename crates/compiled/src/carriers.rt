//! The compiled task's actions by their numbers.
ghost use Rattle.std.specs.Prelude.{◌≡◌, ◌+◌, ◌≤◌, length};
ghost use Rattle.strips.specs.Sets.{joined};
ghost use Rattle.strips.specs.Bits.{members};
ghost use Rattle.bounds.specs.Orders.{size_of};
ghost use Rattle.compiled.specs.Compiled.{all_carriers};
ghost use Rattle.compiled.specs.Decoded.{CarrierIs, CargoIs, rising, extras as extra_atoms, extra_list};

use crate::Compiled;
use bounds::Order;
use strips::{AtomSet, Row, Task};

/// An action, and the atoms that it takes along.
#[derive(Clone, Copy)]
pub(crate) struct Carrier {
    pub(crate) row: Row,
    pub(crate) cargo: AtomSet,
}

/// How many atoms a set has.
fn count(set: AtomSet) -> usize
    ensures count { result ≡ length (rising 64 (members set)) }
    ensures few { result ≤ 64 }
{
    // by `as`, since no `From` leads from a `u32` to a `usize`
    set.bits().count_ones() as usize
}

/// What an action takes along at a place: first nothing, then each of the extras.
fn cargo_at(extras: AtomSet, place: usize) -> Option<AtomSet>
    ensures { CargoIs (rising 64 (members extras)) place result }
{
    if place == 0 {
        return Some(AtomSet::EMPTY);
    }
    let extra = extras.into_iter().nth(place - 1)?;
    Some(AtomSet::EMPTY.with(extra))
}

impl<T: Task> Compiled<T> {
    /// The atoms that an action can take along, one at a time: where the sets are of one or two atoms, those that it
    /// neither adds nor removes.
    #[inline(always)]
    fn extras(&self, row: Row) -> AtomSet
        ensures { members result ≡ extra_atoms self.now.order (T.Task.meaning self.now.task).atoms (joined (members row.adds) (members row.removes)) }
    {
        match self.order {
            Order::One => AtomSet::EMPTY,
            Order::Two => {
                let touched = row.adds.joined(row.removes);
                AtomSet::first(self.task.atoms()).without(touched)
            }
        }
    }

    /// The action of a number. Inlined by hand, as `extras` is: where each action has one carrier the walk then takes no time.
    #[inline(always)]
    pub(crate) fn carrier(&self, number: usize) -> Option<Carrier>
        ensures { CarrierIs (size_of self.now.order) (T.Task.meaning self.now.task) number result }
    {
        let mut place = number;
        for action in 0..self.task.actions() {
            let row = self.task.row(action);
            let extras = self.extras(row);
            let more = count(extras);
            if place <= more {
                let cargo = cargo_at(extras, place)?;
                return Some(Carrier { row, cargo });
            }
            place -= more + 1;
        }
        None
    }

    /// How many actions there are for one of the task below: one with nothing taken along, and one for each extra.
    fn count_of(&self, action: usize) -> usize
        ensures { result ≡ length (extra_list self.now.order (T.Task.meaning self.now.task) action) + 1 }
    {
        count(self.extras(self.task.row(action))) + 1
    }

    /// How many actions there are.
    pub(crate) fn count_carriers(&self) -> usize
        ensures { result ≡ length (all_carriers (size_of self.now.order) (T.Task.meaning self.now.task)) }
    {
        (0..self.task.actions())
            .map(|action| self.count_of(action))
            .sum()
    }
}
