//! The compiled task's sets.
ghost use Rattle.std.specs.Prelude.{◌≡◌};
ghost use Rattle.strips.specs.Sets.{nothing, joined};
ghost use Rattle.strips.specs.Bits.{members};
ghost use Rattle.strips.specs.Parts.{part_of};
ghost use Rattle.bounds.specs.Orders.{size_of};
ghost use Rattle.compiled.specs.Decoded.{ScopeIs};

use crate::Compiled;
use crate::carriers::Carrier;
use crate::subsets::Scope;
use strips::{Part, Task};

impl Carrier {
    /// What it needs: every set inside what the action needs and what is taken along.
    fn needs(self) -> Scope
        ensures core { members result.core ≡ joined (members self.row.needs) (members self.cargo) }
        ensures rim { members result.rim ≡ nothing }
    {
        Scope::inside(self.row.needs.joined(self.cargo))
    }

    /// What it adds: every set inside what the action adds and what is taken along that has an atom which the action adds.
    fn adds(self) -> Scope
        ensures core { members result.core ≡ members self.row.adds }
        ensures rim { members result.rim ≡ members self.cargo }
    {
        Scope {
            core: self.row.adds,
            rim: self.cargo,
        }
    }
}

impl<T: Task> Compiled<T> {
    /// The sets of a part of the compiled task.
    pub(crate) fn scope(&self, part: Part) -> Option<Scope>
        ensures { ScopeIs (size_of self.now.order) (T.Task.meaning self.now.task).atoms (part_of (⟦<Compiled<T> as Task>⟧.meaning self.now) part) result }
    {
        match part {
            Part::Needs(action) => self.carrier(action).map(Carrier::needs),
            Part::Adds(action) => self.carrier(action).map(Carrier::adds),
            Part::Removes(_) => None,
            Part::Start | Part::Goal => Some(Scope::inside(self.task.set_of(part))),
        }
    }
}
