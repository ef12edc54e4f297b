//! The atoms of a set, one after another.
ghost use Rattle.std.specs.Prelude.{◌≡◌, MatchOption};
ghost use Rattle.std.specs.Iterator.{at_most};
ghost use Rattle.strips.specs.Sets.{nothing};
ghost use Rattle.strips.specs.Bits.{members, number};
ghost use Rattle.strips.specs.Parts.{Parted};

use crate::AtomSet;

/// The atoms of a set in rising order, those that are not passed yet.
#[derive(Clone, Debug, Drop)]
pub struct AtomIter {
    rest: AtomSet,
}

impl Iterator for AtomIter {
    type Item = usize;

    ghost next_gives = { λ s r t. MatchOption r ((members s.rest ≡ nothing) × (t ≡ s)) (λ atom. Parted (members s.rest) atom (members t.rest)) };

    ghost remaining = { λ s. at_most (number 64 (members s.rest)) };

    fn next(&mut self) -> Option<usize> {
        let (atom, others) = self.rest.split_first()?;
        self.rest = others;
        Some(atom)
    }
}

impl IntoIterator for AtomSet {
    type Item = usize;

    type IntoIter = AtomIter;

    ghost into_iter_gives = { λ s r. r.rest ≡ s };

    fn into_iter(self) -> AtomIter {
        AtomIter { rest: self }
    }
}
