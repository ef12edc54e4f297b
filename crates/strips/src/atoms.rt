//! Sets of atoms below 64.
ghost use Rattle.std.specs.Prelude.{◌≡◌, ◌<◌, true, MatchOption};
ghost use Rattle.strips.specs.Sets.{nothing, joined as union, common as shared, without as difference, clipped, first as below, plus, inside, meets as overlap, Within};
ghost use Rattle.strips.specs.Bits.{bits_of, members, number};
ghost use Rattle.strips.specs.Parts.{FirstFrom, Parted};

use crate::masks;

/// A set of atoms below 64.
#[derive(Clone, Copy, Debug, PartialEq, Eq)]
pub struct AtomSet {
    bits: u64,
}

impl AtomSet {
    /// The set without atoms.
    pub const EMPTY: AtomSet = AtomSet { bits: 0 };

    /// The set of the bits of a number: bit p stands for the atom p.
    pub fn from_bits(bits: u64) -> AtomSet
        ensures { members result ≡ bits_of bits }
    {
        Self { bits }
    }

    /// The set of the atoms below n; those of 64 or more are left out.
    pub fn first(n: usize) -> AtomSet
        ensures { members result ≡ clipped 64 (below n) }
    {
        AtomSet {
            bits: masks::ones(n),
        }
    }

    /// The number whose bits are the atoms of the set.
    pub fn bits(self) -> u64
        ensures { result ≡ number 64 (members self) }
    {
        let AtomSet { bits } = self;
        bits
    }

    /// Whether an atom is in the set.
    pub fn has(self, atom: usize) -> bool
        ensures { result ≡ members self atom }
    {
        masks::has_bit(self.bits, atom)
    }

    /// The first atom of the set at or after `from`.
    pub fn next(self, from: usize) -> Option<usize>
        ensures { FirstFrom (members self) from result }
    {
        masks::next_bit(self.bits, from)
    }

    /// The first atom of the set, and the set of the others.
    pub fn split_first(self) -> Option<(usize, AtomSet)>
        ensures { MatchOption result (members self ≡ nothing) (λ x. Parted (members self) x.0 (members x.1)) }
    {
        let (atom, bits) = masks::split_bit(self.bits)?;
        Some((atom, AtomSet { bits }))
    }

    /// The set with an atom put in; an atom of 64 or more is left out.
    pub fn with(self, atom: usize) -> AtomSet
        ensures { members result ≡ clipped 64 (plus atom (members self)) }
    {
        AtomSet {
            bits: masks::put_bit(self.bits, atom),
        }
    }

    /// The atoms of both sets together.
    pub fn joined(self, other: AtomSet) -> AtomSet
        ensures { members result ≡ union (members self) (members other) }
    {
        AtomSet {
            bits: masks::union(self.bits, other.bits),
        }
    }

    /// The atoms that are in both sets.
    pub fn common(self, other: AtomSet) -> AtomSet
        ensures { members result ≡ shared (members self) (members other) }
    {
        AtomSet {
            bits: masks::intersection(self.bits, other.bits),
        }
    }

    /// The atoms that are not in the other set.
    pub fn without(self, other: AtomSet) -> AtomSet
        ensures { members result ≡ difference (members self) (members other) }
    {
        AtomSet {
            bits: masks::difference(self.bits, other.bits),
        }
    }

    /// Whether every atom is in the other set.
    pub fn is_inside(self, other: AtomSet) -> bool
        ensures { result ≡ inside 64 (members self) (members other) }
    {
        masks::is_subset(self.bits, other.bits)
    }

    /// Whether some atom is in the other set.
    pub fn meets(self, other: AtomSet) -> bool
        ensures { result ≡ overlap 64 (members self) (members other) }
    {
        masks::overlaps(self.bits, other.bits)
    }

    /// Whether every atom is below n.
    pub fn is_below(self, n: usize) -> bool
        ensures test { result ≡ inside 64 (members self) (below n) }
        ensures within { result ≡ true → Within n (members self) }
    {
        masks::all_below(self.bits, n)
    }
}
