//! Costs of the sets of one or two atoms of a task.
ghost use Rattle.std.specs.Prelude.{◌≡◌, ◌+◌, ◌-◌, ◌*◌, ◌/◌, ◌<◌, ◌≤◌};

use crate::CostTable;

/// A table that is lent for a task of at most 64 atoms. A set of one atom has the atom's number, and the sets of two follow, by
/// the higher atom and then by the lower one.
#[derive(Drop)]
pub(crate) struct SetCosts<'a> {
    table: &'a mut CostTable,
    atoms: usize,
    ghost few_atoms: { atoms ≤ 64 },
}

// An atom is a plain number, as in a task, a set and a table, and so most methods ask that it is below 64. With a type for a set
// of one or two atoms, which would ask that once, the bound over pairs takes an eighth longer on a dense task.
impl<'a> SetCosts<'a> {
    pub(crate) fn new(table: &'a mut CostTable, atoms: usize) -> SetCosts<'a>
        requires { atoms ≤ 64 }
    {
        SetCosts { table, atoms }
    }

    pub(crate) fn atoms(&self) -> usize
        ensures { result ≤ 64 }
    {
        self.atoms
    }

    /// The number of the first set of two atoms whose higher one is `high`; the others follow by the lower one.
    fn row_start(&self, high: usize) -> usize
        requires { high < 64 }
        ensures is { result ≡ self.now.atoms + high * (high - 1) / 2 }
        ensures room { result + high ≤ 2080 }
    {
        self.atoms + high * high.saturating_sub(1) / 2
    }

    /// The number of the set of two atoms.
    fn pair_number(&self, low: usize, high: usize) -> usize
        requires { (low < high) × (high < 64) }
        ensures { result ≡ self.now.atoms + high * (high - 1) / 2 + low }
    {
        self.row_start(high) + low
    }

    /// The number of the set of two atoms, or of one atom where they are the same.
    fn number(&self, p: usize, q: usize) -> usize
        requires { (p < 64) × (q < 64) }
    {
        if p < q {
            self.pair_number(p, q)
        } else if q < p {
            self.pair_number(q, p)
        } else {
            p
        }
    }

    /// The cost of the set of two atoms, or of one where they are the same.
    pub(crate) fn cost(&self, p: usize, q: usize) -> u32
        requires { (p < 64) × (q < 64) }
    {
        self.table.entry(self.number(p, q))
    }

    /// Lowers the cost of such a set to another, and says whether it was above that.
    pub(crate) fn lower(&mut self, p: usize, q: usize, cost: u32) -> bool
        requires { (p < 64) × (q < 64) }
    {
        let number = self.number(p, q);
        self.table.lower(number, cost)
    }

    /// The costs of the sets of two atoms whose higher one is `high`, by the lower one.
    pub(crate) fn row(&self, high: usize) -> &[u32]
        requires { high < 64 }
    {
        self.table.entries(self.row_start(high), high)
    }
}
