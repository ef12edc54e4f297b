//! The bound over sets of one or two atoms of a small task.
ghost use Rattle.std.specs.Prelude.{◌<◌};

use crate::front::{Front, ToLookAt, up_to};
use crate::set_costs::SetCosts;
use crate::table::reached;
use crate::{CostTable, NONE};
use strips::{AtomSet, Row, RowTable, Task};

/// The sets that an atom p is in.
#[derive(Clone, Copy)]
struct PairRow {
    /// The atoms q for which {p, q} is settled, and p itself where {p} is.
    settled: AtomSet,
    /// The least cost among the sets whose highest atom is p and which are not settled, or the number that stands for none: as an
    /// `Option` none would come before every cost.
    least: u32,
}

impl PairRow {
    /// Nothing settled, and no cost.
    const NOTHING: PairRow = PairRow {
        settled: AtomSet::EMPTY,
        least: NONE,
    };
}

/// Sets of one or two atoms as a front.
#[derive(Drop)]
pub(crate) struct Pairs<'a> {
    costs: SetCosts<'a>,
    rows: [PairRow; 64],
    /// The atoms that are settled alone.
    single: AtomSet,
    /// For each action the atoms beside which its effects have been entered.
    told: [AtomSet; 256],
}

impl<'a> Pairs<'a> {
    /// The front of a task, with nothing entered.
    pub(crate) fn new(table: &'a mut CostTable, task: &RowTable) -> Pairs<'a> {
        *table = CostTable::new();
        Pairs {
            costs: SetCosts::new(table, task.atoms()),
            rows: [PairRow::NOTHING; 64],
            single: AtomSet::EMPTY,
            told: [AtomSet::EMPTY; 256],
        }
    }

    /// The atoms that are settled alone, and together with every one of a set.
    fn beside(&self, atoms: AtomSet) -> AtomSet {
        let mut common = self.single;
        for atom in atoms {
            common = common.common(self.rows[atom].settled);
        }
        common
    }

    /// Lowers the cost of the set of two atoms, or of one where they are the same. An atom is a plain number, as in `SetCosts`.
    fn lower(&mut self, p: usize, q: usize, cost: u32)
        requires { (p < 64) × (q < 64) }
    {
        if self.costs.lower(p, q, cost) {
            let row = &mut self.rows[p.max(q)];
            row.least = row.least.min(cost);
        }
    }

    /// Lowers the costs of an atom with each of some others.
    fn lower_beside(&mut self, atom: usize, others: AtomSet, cost: u32)
        requires { atom < 64 }
    {
        for other in others {
            self.lower(atom, other, cost);
        }
    }

    /// Lowers the costs of each added atom with each of some others that it is not settled with.
    fn lower_added(&mut self, adds: AtomSet, others: AtomSet, cost: u32) {
        for atom in adds {
            self.lower_beside(atom, others.without(self.rows[atom].settled), cost);
        }
    }

    /// The atoms up to `high` whose sets with it cost up to a cost, and the least cost of the others.
    fn row_up_to(&self, high: usize, now: u32) -> (AtomSet, u32)
        requires { high < 64 }
    {
        let (places, least) = up_to(self.costs.row(high), now);
        let alone = self.costs.cost(high, high);
        if alone <= now {
            (places.with(high), least)
        } else {
            (places, least.min(alone))
        }
    }

    /// Puts an atom into the rows of some others.
    fn put_in_rows(&mut self, atom: usize, others: AtomSet) {
        for other in others {
            let row = &mut self.rows[other];
            row.settled = row.settled.with(atom);
        }
    }

    /// Settles the sets whose higher atom is `high` that cost a given cost at most, and tells the atoms of those that were not
    /// settled.
    fn settle_row(&mut self, high: usize, now: u32) -> AtomSet
        requires { high < 64 }
    {
        let (reached, least) = self.row_up_to(high, now);
        let row = &mut self.rows[high];
        let fresh = reached.without(row.settled);
        row.least = least;
        row.settled = row.settled.joined(fresh);
        self.put_in_rows(high, fresh);
        if fresh.has(high) {
            self.single = self.single.with(high);
        }
        fresh.with(high)
    }

    /// The greatest cost among an atom with each of some others.
    fn value_beside(&self, atom: usize, others: AtomSet) -> u32
        requires { atom < 64 }
    {
        others
            .into_iter()
            .map(|other| self.costs.cost(atom, other))
            .max()
            .unwrap_or(0)
    }
}

impl Front for Pairs<'_> {
    const TURNS: usize = 2081;

    fn begin(&mut self, start: AtomSet) {
        self.lower_added(start, start, 0);
    }

    /// Where all it needs is settled, together with an atom that it leaves alone, its effects beside that atom are entered.
    fn look_at(&mut self, action: usize, row: Row, now: u32) {
        let settled = self.beside(row.needs);
        if !row.needs.is_inside(settled) {
            return;
        }
        let told = self.told[action];
        let fresh = settled.without(row.removes).joined(row.adds).without(told);
        if fresh == AtomSet::EMPTY {
            return;
        }
        self.told[action] = told.joined(fresh);
        self.lower_added(row.adds, fresh, now.saturating_add(u32::from(row.cost)));
    }

    /// Where an atom is settled alone, every action may take it along.
    fn settle(&mut self, now: u32) -> ToLookAt {
        let single = self.single;
        let mut changed = AtomSet::EMPTY;
        // by number, since settling a row enters its atoms in other rows too
        for high in 0..self.costs.atoms() {
            if self.rows[high].least <= now {
                changed = changed.joined(self.settle_row(high, now));
            }
        }
        if self.single == single {
            ToLookAt::Needing(changed)
        } else {
            ToLookAt::All
        }
    }

    fn least(&self) -> Option<u32> {
        self.rows
            .iter()
            .map(|row| row.least)
            .min()
            .and_then(reached)
    }

    fn is_settled(&self, atoms: AtomSet) -> bool {
        atoms.is_inside(self.beside(atoms))
    }

    fn value(&self, atoms: AtomSet) -> u32 {
        atoms
            .into_iter()
            .map(|atom| self.value_beside(atom, atoms))
            .max()
            .unwrap_or(0)
    }
}
