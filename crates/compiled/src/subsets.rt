//! The sets of one or two atoms by their numbers.
ghost use Rattle.std.specs.Prelude.{◌≡◌, ◌+◌, ◌≤◌, ◌&&◌, length};
ghost use Rattle.strips.specs.Sets.{nothing, clipped, inside, meets};
ghost use Rattle.strips.specs.Bits.{members};
ghost use Rattle.strips.specs.Parts.{FirstFrom};
ghost use Rattle.bounds.specs.Smalls.{smalls};
ghost use Rattle.bounds.specs.Orders.{size_of};
ghost use Rattle.compiled.specs.Decoded.{SetIs, around, scoped, lows, scoped_pairs};

use bounds::Order;
use strips::AtomSet;

/// The sets that have an atom of the core, and none outside of core and rim.
#[derive(Clone, Copy)]
pub(crate) struct Scope {
    pub(crate) core: AtomSet,
    pub(crate) rim: AtomSet,
}

impl Scope {
    /// The sets inside a set.
    pub(crate) fn inside(set: AtomSet) -> Scope
        ensures core { members result.core ≡ members set }
        ensures rim { members result.rim ≡ nothing }
    {
        Scope {
            core: set,
            rim: AtomSet::EMPTY,
        }
    }

    /// The atoms of core and rim.
    fn all(self) -> AtomSet
        ensures { members result ≡ around self }
    {
        self.core.joined(self.rim)
    }

    /// Whether it takes in a set.
    fn has(self, set: AtomSet) -> bool
        ensures { result ≡ (inside 64 (members set) (around self) && meets 64 (members set) (members self.core)) }
    {
        set.is_inside(self.all()) && set.meets(self.core)
    }

    /// The first atom at or after `from` and below `high` whose pair with `high` it takes in.
    fn next_low(self, high: usize, from: usize) -> Option<usize>
        ensures { FirstFrom (lows self high) from result }
    {
        let all = self.all();
        if !all.has(high) {
            return None;
        }
        let lows = if self.core.has(high) { all } else { self.core };
        next_below(lows, high, from)
    }
}

/// The first atom of a set at or after `from` and below `limit`.
fn next_below(set: AtomSet, limit: usize, from: usize) -> Option<usize>
    ensures { FirstFrom (clipped limit (members set)) from result }
{
    set.next(from).filter(|&atom| atom < limit)
}

/// The sets of 1 to `order` atoms, by their numbers: those of one atom first.
#[derive(Clone, Copy)]
pub(crate) struct SmallSets {
    pub(crate) atoms: usize,
    pub(crate) order: Order,
    ghost few: { atoms ≤ 64 },
}

impl SmallSets {
    /// How many sets there are.
    pub(crate) fn count(self) -> usize
        ensures { result ≡ length (smalls self.atoms (size_of self.order)) }
    {
        match self.order {
            Order::One => self.atoms,
            Order::Two => self.atoms * (self.atoms + 1) / 2,
        }
    }

    /// The set of two atoms at a place among such sets.
    fn pair_at(self, place: usize) -> Option<AtomSet>
        ensures { SetIs self.atoms 2 (self.atoms + place) result }
    {
        let mut low = place;
        for high in 0..self.atoms {
            if low < high {
                return Some(AtomSet::EMPTY.with(low).with(high));
            }
            low -= high;
        }
        None
    }

    /// The set of a number.
    fn at(self, number: usize) -> Option<AtomSet>
        ensures { SetIs self.atoms (size_of self.order) number result }
    {
        if number < self.atoms {
            return Some(AtomSet::EMPTY.with(number));
        }
        match self.order {
            Order::One => None,
            Order::Two => self.pair_at(number - self.atoms),
        }
    }

    /// Whether a scope takes in the set of a number.
    pub(crate) fn has(self, scope: Scope, number: usize) -> bool
        ensures { result ≡ scoped self.atoms (size_of self.order) scope number }
    {
        self.at(number).is_some_and(|set| scope.has(set))
    }

    /// The first number of a pair at or after `from` that a scope takes in.
    fn next_pair(self, scope: Scope, from: usize) -> Option<usize>
        ensures { FirstFrom (scoped_pairs self.atoms scope) from result }
    {
        let mut base = self.atoms;
        for high in 0..self.atoms {
            if let Some(low) = scope.next_low(high, from.saturating_sub(base)) {
                return Some(base + low);
            }
            base += high;
        }
        None
    }

    /// The first number at or after `from` of a set that a scope takes in.
    pub(crate) fn next(self, scope: Scope, from: usize) -> Option<usize>
        ensures { FirstFrom (scoped self.atoms (size_of self.order) scope) from result }
    {
        let single = next_below(scope.core, self.atoms, from);
        match self.order {
            Order::One => single,
            Order::Two => single.or_else(|| self.next_pair(scope, from)),
        }
    }
}
