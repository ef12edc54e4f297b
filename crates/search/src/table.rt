//! The table of a search.
ghost use Rattle.std.specs.Prelude.{◌≡◌, true, ◌<◌, ◌+◌, ◌≤◌, length, take, IfOk, IfSome};
ghost use Rattle.search.specs.Answer.{PlanWithin};
ghost use Rattle.search.specs.Places.{is_open};

use crate::place::Way;
use crate::way_back::WayBack;
use crate::{Answer, Place, Refused};
use strips::{AtomSet, Denial};

/// The most places that are used, however long the lent table is.
const MOST_PLACES: usize = 4096;

/// The lent places, of which the first `used` are in use.
#[derive(Drop)]
pub(crate) struct Table<'a> {
    places: &'a mut [Place],
    /// Their states once more, side by side, since the look-up passes over many and is slower over the places.
    states: [AtomSet; MOST_PLACES],
    pub(crate) used: usize,
    ghost used_in: { used ≤ length places.now },
    ghost few: { length places.now ≤ 4096 },
}

impl<'a> Table<'a> {
    ghost use Rattle.search.specs.Table.{IsOpen, not_closed};

    /// A table with no place in use.
    pub(crate) fn new(places: &'a mut [Place]) -> Table<'a> {
        let room = places.len().min(MOST_PLACES);
        Table {
            places: &mut places[..room],
            states: [AtomSet::EMPTY; MOST_PLACES],
            used: 0,
        }
    }

    /// The places in use.
    pub(crate) fn in_use(&self) -> &[Place]
        ensures { result.now ≡ take self.now.used self.now.places.now }
    {
        &self.places[..self.used]
    }

    /// The states of the places in use.
    pub(crate) fn states(&self) -> &[AtomSet]
        ensures { length result.now ≡ self.now.used }
    {
        &self.states[..self.used]
    }

    /// The open place of least paid + estimate, the lowest of several.
    pub(crate) fn choose(&self) -> Option<usize>
        ensures { IfSome result (IsOpen self.now) }
    {
        // a loop, since `filter` and `min_by_key` take at least twice as long and each turn passes over all places
        let mut best = None;
        let mut least = u64::MAX;
        for (at, place) in self.in_use().iter().enumerate() {
            if place.open && place.rank() < least {
                best = Some(at);
                least = place.rank();
            }
        }
        best
    }

    /// Closes a place in use.
    pub(crate) fn close(&mut self, place: usize)
        requires { IsOpen self.old place }
        ensures in_use { self.new.used ≡ self.old.used }
        ensures closed { not_closed self.new + 1 ≡ not_closed self.old }
    {
        self.places[place].open = false;
    }

    /// Reaches a place in use by another way.
    pub(crate) fn reach(&mut self, place: usize, way: Way)
        requires { place < self.old.used }
        ensures in_use { self.new.used ≡ self.old.used }
        ensures closed { not_closed self.new ≡ not_closed self.old }
    {
        // through a variable: the borrow checker does not cover the write inside a struct with ghost fields
        let places = &mut *self.places;
        places[place].reach(way);
    }

    /// Puts a place behind those in use.
    pub(crate) fn put(&mut self, place: Place) -> Result<(), Refused>
        requires { is_open place ≡ true }
        ensures in_use { IfOk result (λ _. self.new.used ≡ self.old.used + 1) }
        ensures closed { IfOk result (λ _. not_closed self.new ≡ not_closed self.old) }
    {
        if self.used == self.places.len() {
            return Err(Refused {
                denial: Denial::PlacesSpent,
                used: Some(self.used),
            });
        }
        self.places[self.used] = place;
        self.states[self.used] = place.state;
        self.used += 1;
        Ok(())
    }

    fn way_back(&self, place: usize) -> WayBack<'_> {
        WayBack::new(self.places, place)
    }

    /// Tells the plan that leads to place `goal`, and writes it to the front of `plan`.
    pub(crate) fn tell(&self, goal: usize, plan: &mut [u16]) -> Result<Answer, Refused>
        requires { goal < self.now.used }
        ensures { IfOk result (PlanWithin (length plan.new)) }
    {
        let length = self.way_back(goal).count();
        let slots = plan.get_mut(..length).ok_or(Denial::DoesNotFit)?;
        for (slot, action) in slots.iter_mut().rev().zip(self.way_back(goal)) {
            *slot = action;
        }
        Ok(Answer::Found((length, self.places[goal].paid, self.used)))
    }
}
