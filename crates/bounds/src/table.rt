//! Costs of sets of atoms.
ghost use Rattle.std.specs.Prelude.{◌≡◌, ◌+◌, ◌≤◌, replicate};
ghost use Rattle.bounds.specs.Costs.{cost_at, above, lowered};

/// The cost of a set that nothing reaches. An entry has this number, and is no `Option`, since `None` comes before every cost.
pub const NONE: u32 = u32::MAX;

/// How many sets of one or two of 64 atoms there are.
const ENTRIES: usize = 2080;

/// A cost, or none where it is the one of a set that nothing reaches.
pub(crate) fn reached(cost: u32) -> Option<u32> {
    (cost != NONE).then_some(cost)
}

/// A cost, or none, for every set of one or two atoms, by the set's number.
#[derive(Clone, Copy)]
pub struct CostTable {
    entries: [u32; 2080],
}

impl CostTable {
    /// The table without costs.
    pub fn new() -> CostTable
        ensures { result.entries ≡ replicate 2080 4294967295 }
    {
        CostTable {
            entries: [NONE; ENTRIES],
        }
    }

    /// The cost of the set of a number.
    pub fn entry(&self, number: usize) -> u32
        ensures { result ≡ cost_at self.now number }
    {
        self.entries.get(number).copied().unwrap_or(NONE)
    }

    /// The costs of some sets whose numbers follow one another.
    pub(crate) fn entries(&self, from: usize, count: usize) -> &[u32]
        requires { from + count ≤ 2080 }
    {
        &self.entries[from..from + count]
    }

    /// Lowers the cost of a set to another, and says whether it was above that.
    pub fn lower(&mut self, number: usize, cost: u32) -> bool
        ensures said { result ≡ above self.old number cost }
        ensures made { self.new.entries ≡ lowered self.old number cost }
    {
        if number < ENTRIES && cost < self.entries[number] {
            self.entries[number] = cost;
            true
        } else {
            false
        }
    }
}
