//! The task interface.
ghost use Rattle.std.specs.Prelude.{◌≡◌, ◌<◌};
ghost use Rattle.strips.specs.Task.{Task as Meaning, Sound, small};
ghost use Rattle.strips.specs.Sets.{clipped};
ghost use Rattle.strips.specs.Bits.{members};
ghost use Rattle.strips.specs.Parts.{part_of, FirstFrom, Listed};
ghost use Rattle.strips.specs.Rows.{row_action, clipped_action};

use crate::{AtomSet, Part, Row};

/// A planning task that can be asked. A number that is out of range is answered no, or cost 0.
pub trait Task {
    /// The task that is meant.
    ghost meaning: { Self → Meaning };

    /// It is sound.
    ghost sound: { (t : Self) → Sound (meaning t) };

    fn atoms(&self) -> usize
        ensures { result ≡ (meaning self.now).atoms };

    fn actions(&self) -> usize
        ensures { result ≡ (meaning self.now).actions };

    fn needs(&self, action: usize, atom: usize) -> bool
        ensures { result ≡ ((meaning self.now).action action).needs atom };

    fn adds(&self, action: usize, atom: usize) -> bool
        ensures { result ≡ ((meaning self.now).action action).adds atom };

    fn removes(&self, action: usize, atom: usize) -> bool
        ensures { result ≡ ((meaning self.now).action action).removes atom };

    fn cost(&self, action: usize) -> u16
        ensures { result ≡ ((meaning self.now).action action).cost };

    fn in_start(&self, atom: usize) -> bool
        ensures { result ≡ (meaning self.now).start atom };

    fn in_goal(&self, atom: usize) -> bool
        ensures { result ≡ (meaning self.now).goal atom };

    /// Whether an atom is in one of the task's sets.
    fn holds(&self, part: Part, atom: usize) -> bool
        ensures { result ≡ part_of (meaning self.now) part atom }
    {
        match part {
            Part::Needs(action) => self.needs(action, atom),
            Part::Adds(action) => self.adds(action, atom),
            Part::Removes(action) => self.removes(action, atom),
            Part::Start => self.in_start(atom),
            Part::Goal => self.in_goal(atom),
        }
    }

    /// The atoms below 64 of one of the task's sets: all of them, in a task of at most 64 atoms.
    fn set_of(&self, part: Part) -> AtomSet
        ensures { members result ≡ clipped 64 (part_of (meaning self.now) part) }
    {
        let mut set = AtomSet::EMPTY;
        for atom in 0..64 {
            if self.holds(part, atom) {
                set = set.with(atom);
            }
        }
        set
    }

    /// The first atom at or after `from` of one of the task's sets.
    fn next_of(&self, part: Part, from: usize) -> Option<usize>
        ensures { FirstFrom (part_of (meaning self.now) part) from result }
    {
        (from..self.atoms()).find(|&atom| self.holds(part, atom))
    }

    /// Lists the first atoms at or after `from` of one of the task's sets, in rising order, and tells how many. It tells a count
    /// and not a slice of the list, since nothing could then be said of the list after the call.
    fn list_of(&self, part: Part, from: usize, list: &mut [u16; 16]) -> usize
        ensures { Listed (part_of (meaning self.now) part) from result list.new }
    {
        let mut at = from;
        for (count, place) in list.iter_mut().enumerate() {
            let Some(atom) = self.next_of(part, at) else {
                return count;
            };
            // no task has an atom that does not fit, so there is no error that `try_from` could tell
            *place = atom as u16;
            at = atom + 1;
        }
        list.len()
    }

    /// An action's sets, as `set_of` has them, and its cost.
    fn row(&self, action: usize) -> Row
        ensures { row_action result ≡ clipped_action 64 ((meaning self.now).action action) }
    {
        Row {
            needs: self.set_of(Part::Needs(action)),
            adds: self.set_of(Part::Adds(action)),
            removes: self.set_of(Part::Removes(action)),
            cost: self.cost(action),
        }
    }
}

/// Whether a task has at most 64 atoms and 256 actions.
pub fn is_small<T: Task>(task: &T) -> bool
    ensures { result ≡ small (T.Task.meaning task.now) }
{
    task.atoms() <= 64 && task.actions() <= 256
}

/// A task that is lent is a task.
impl<T: Task> Task for &T {
    ghost meaning = { λ t. T.Task.meaning t.now };

    ghost sound = { λ t. T.Task.sound t.now };

    fn atoms(&self) -> usize {
        (**self).atoms()
    }

    fn actions(&self) -> usize {
        (**self).actions()
    }

    fn needs(&self, action: usize, atom: usize) -> bool {
        (**self).needs(action, atom)
    }

    fn adds(&self, action: usize, atom: usize) -> bool {
        (**self).adds(action, atom)
    }

    fn removes(&self, action: usize, atom: usize) -> bool {
        (**self).removes(action, atom)
    }

    fn cost(&self, action: usize) -> u16 {
        (**self).cost(action)
    }

    fn in_start(&self, atom: usize) -> bool {
        (**self).in_start(atom)
    }

    fn in_goal(&self, atom: usize) -> bool {
        (**self).in_goal(atom)
    }

    fn holds(&self, part: Part, atom: usize) -> bool {
        (**self).holds(part, atom)
    }

    fn set_of(&self, part: Part) -> AtomSet {
        (**self).set_of(part)
    }

    fn next_of(&self, part: Part, from: usize) -> Option<usize> {
        (**self).next_of(part, from)
    }

    fn list_of(&self, part: Part, from: usize, list: &mut [u16; 16]) -> usize {
        (**self).list_of(part, from, list)
    }

    fn row(&self, action: usize) -> Row {
        (**self).row(action)
    }
}
