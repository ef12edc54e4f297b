//! The ways and estimators that a call chooses by their numbers.
ghost use Rattle.embed.specs.Choice.{ChoosesWay, ChoosesEstimator};

use bounds::{CostTable, direct_bound};
use compiled::compiled_bound;
use estimators::{Blind, ByCompiling, Direct};
use search::{Answer, Place, Refused, search};
use strips::{Denial, RowTable};

/// A way to compute a bound.
#[derive(Clone, Copy)]
pub(crate) enum Way {
    Direct,
    Compiled,
}

impl TryFrom<u32> for Way {
    type Error = Denial;

    ghost try_from_gives = { ChoosesWay };

    fn try_from(number: u32) -> Result<Way, Denial> {
        match number {
            0 => Ok(Way::Direct),
            1 => Ok(Way::Compiled),
            _ => Err(Denial::NoSuchNumber),
        }
    }
}

impl Way {
    /// The bound of a task over sets of 1 to `order` atoms.
    pub(crate) fn bound(self, task: &RowTable, order: usize) -> Result<Option<u32>, Denial> {
        let mut table = CostTable::new();
        match self {
            Way::Direct => direct_bound(&mut table, task, order),
            Way::Compiled => compiled_bound(&mut table, task, order),
        }
    }
}

/// An estimator to search with: the blind one, or one that asks a bound.
#[derive(Clone, Copy)]
pub(crate) enum Estimator {
    Blind,
    Bound(Way),
}

impl TryFrom<u32> for Estimator {
    type Error = Denial;

    ghost try_from_gives = { ChoosesEstimator };

    fn try_from(number: u32) -> Result<Estimator, Denial> {
        match number {
            0 => Ok(Estimator::Blind),
            1 => Ok(Estimator::Bound(Way::Direct)),
            2 => Ok(Estimator::Bound(Way::Compiled)),
            _ => Err(Denial::NoSuchNumber),
        }
    }
}

impl Estimator {
    /// Searches for a cheapest plan of a task, with a bound over sets of 1 to `order` atoms.
    pub(crate) fn search(
        self,
        task: &RowTable,
        order: usize,
        places: &mut [Place],
        plan: &mut [u16],
    ) -> Result<Answer, Refused> {
        match self {
            Estimator::Blind => search(task, &mut Blind, places, plan),
            Estimator::Bound(Way::Direct) => search(task, &mut Direct::new(order), places, plan),
            Estimator::Bound(Way::Compiled) => {
                search(task, &mut ByCompiling::new(order), places, plan)
            }
        }
    }
}
