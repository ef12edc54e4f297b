//! Numbers of 64 bits as sets of atoms: bit p stands for the atom p. Each operation has a function here beside the method of
//! `AtomSet` that calls it, so that hardly a proof above this file meets a bit.
ghost use Rattle.std.specs.Prelude.{◌≡◌, ◌<◌, MatchOption};
ghost use Rattle.strips.specs.Sets.{nothing, joined, common, without, clipped, first, plus, inside, meets};
ghost use Rattle.strips.specs.Bits.{bits_of};
ghost use Rattle.strips.specs.Parts.{FirstFrom, Parted};

pub(crate) fn has_bit(a: u64, atom: usize) -> bool
    ensures { result ≡ bits_of a atom }
{
    atom < 64 && (a >> atom) % 2 == 1
}

pub(crate) fn next_bit(a: u64, from: usize) -> Option<usize>
    ensures { FirstFrom (bits_of a) from result }
{
    if from >= 64 {
        return None;
    }
    let rest = a >> from;
    if rest == 0 {
        return None;
    }
    // `as`, here and below, since no `From` leads from a `u32` to a `usize`
    Some(from + rest.trailing_zeros() as usize)
}

pub(crate) fn split_bit(a: u64) -> Option<(usize, u64)>
    ensures { MatchOption result (bits_of a ≡ nothing) (λ x. Parted (bits_of a) x.0 (bits_of x.1)) }
{
    if a == 0 {
        return None;
    }
    Some((a.trailing_zeros() as usize, a & (a - 1)))
}

pub(crate) fn put_bit(a: u64, atom: usize) -> u64
    ensures { bits_of result ≡ clipped 64 (plus atom (bits_of a)) }
{
    if atom < 64 { a | (1 << atom) } else { a }
}

pub(crate) fn union(a: u64, b: u64) -> u64
    ensures { bits_of result ≡ joined (bits_of a) (bits_of b) }
{
    a | b
}

pub(crate) fn ones(n: usize) -> u64
    ensures { bits_of result ≡ clipped 64 (first n) }
{
    if n >= 64 { u64::MAX } else { (1 << n) - 1 }
}

pub(crate) fn intersection(a: u64, b: u64) -> u64
    ensures { bits_of result ≡ common (bits_of a) (bits_of b) }
{
    a & b
}

pub(crate) fn difference(a: u64, b: u64) -> u64
    ensures { bits_of result ≡ without (bits_of a) (bits_of b) }
{
    a ^ (a & b)
}

pub(crate) fn is_subset(a: u64, b: u64) -> bool
    ensures { result ≡ inside 64 (bits_of a) (bits_of b) }
{
    a & b == a
}

pub(crate) fn overlaps(a: u64, b: u64) -> bool
    ensures { result ≡ meets 64 (bits_of a) (bits_of b) }
{
    a & b != 0
}

pub(crate) fn all_below(a: u64, n: usize) -> bool
    ensures { result ≡ inside 64 (bits_of a) (first n) }
{
    n >= 64 || a >> n == 0
}
