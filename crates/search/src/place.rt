//! The places of a search table, and what a search tells.
ghost use Rattle.std.specs.Prelude.{◌≡◌, true, None};
ghost use Rattle.search.specs.Places.{is_open};

use strips::{AtomSet, Denial};

/// A state that the search has come to.
#[derive(Clone, Copy, Debug, PartialEq, Eq)]
pub struct Place {
    pub state: AtomSet,
    /// What the way to it costs.
    pub paid: u32,
    /// What the goal costs from it at least.
    pub estimate: u32,
    /// The place before it on that way, and the action between them.
    pub parent: u16,
    pub action: u16,
    /// Whether its actions are still to be tried.
    pub open: bool,
}

impl Place {
    pub const EMPTY: Place = Place {
        state: AtomSet::EMPTY,
        paid: 0,
        estimate: 0,
        parent: 0,
        action: 0,
        open: false,
    };

    /// An open place.
    pub(crate) fn new(state: AtomSet, way: Way, estimate: u32) -> Place
        ensures { is_open result ≡ true }
    {
        Place {
            state,
            paid: way.paid,
            estimate,
            parent: way.parent,
            action: way.action,
            open: true,
        }
    }

    /// What a plan through the place costs at least.
    pub(crate) fn rank(&self) -> u64 {
        u64::from(self.paid) + u64::from(self.estimate)
    }

    /// Takes a way that is cheaper, if the place is open.
    pub(crate) fn reach(&mut self, way: Way)
        ensures { is_open self.new ≡ is_open self.old }
    {
        if self.open && way.paid < self.paid {
            self.paid = way.paid;
            self.parent = way.parent;
            self.action = way.action;
        }
    }
}

/// A way to a state: what it costs, the place before the state, and the action between them. A place is public and keeps its
/// fields, so a way is copied into it.
#[derive(Clone, Copy, Default)]
pub(crate) struct Way {
    pub(crate) paid: u32,
    pub(crate) parent: u16,
    pub(crate) action: u16,
}

/// What a search tells. The tuple is laid down (docs/DECISIONS.md, forms by place), and with an `Option` around it the places used
/// would stand beside it too.
#[derive(Clone, Copy, Debug, PartialEq, Eq)]
pub enum Answer {
    /// A cheapest plan: its length, its cost and the places used.
    Found((usize, u32, usize)),
    /// There is no plan; the places used.
    Nothing(usize),
}

/// Why a search was refused; where no place was left, with the places used.
#[derive(Clone, Copy, Debug, PartialEq, Eq)]
pub struct Refused {
    pub denial: Denial,
    pub used: Option<usize>,
}

/// A refusal that tells no places.
impl From<Denial> for Refused {
    ghost from_gives = { λ denial refused. refused ≡ record { denial = denial; used = None } };

    fn from(denial: Denial) -> Refused {
        Refused { denial, used: None }
    }
}
