//! The heuristics h^m and h^max on P^m: their definitions, and what is proved of them. Each function names a theorem.
#![tactic(auto)]

ghost use Rattle.heuristics.specs.Smalls.{Closed};
ghost use Rattle.heuristics.specs.Theorems.{AddedScale, RoundsEnd, OneBound, FiniteEntries, AnyTop, Agreement, ZeroAtGoal, Consistency, Admissible, BoundsEstimate, CarriersStand};

/// Added costs are a scale.
pub fn costs_add_up() -> bool
    ensures { AddedScale }
{
    true
}

/// The rounds from above end in the largest lawful table.
pub fn rounds_end() -> bool
    ensures { RoundsEnd }
{
    true
}

/// There is one bound.
pub fn bound_is_one() -> bool
    ensures { OneBound }
{
    true
}

/// A cost in the largest lawful table is at most the number of entries times the dearest action.
pub fn entries_finite() -> bool
    ensures { FiniteEntries }
{
    true
}

/// The number that stands for none makes no difference to the costs below it.
pub fn none_is_free() -> bool
    ensures { AnyTop }
{
    true
}

/// h^m on a task is h^max on its P^m.
pub fn bounds_agree() -> bool
    ensures { Agreement }
{
    true
}

/// The bound is 0 where the goal holds.
pub fn zero_at_goal() -> bool
    ensures { ZeroAtGoal }
{
    true
}

/// An action that applies lowers the bound by at most its cost.
pub fn bound_consistent() -> bool
    ensures { Consistency }
{
    true
}

/// No plan is cheaper than the bound.
pub fn bound_admissible() -> bool
    ensures { Admissible }
{
    true
}

/// In tenths of a second, the bound is a lawful estimate, and none only where there is no plan.
pub fn bound_estimates() -> bool
    ensures { BoundsEstimate }
{
    true
}

/// The closed forms of the numbers of the sets of one or two atoms.
pub fn numbers_closed() -> bool
    ensures { Closed }
{
    true
}

/// The order of the compiled task's actions.
pub fn carriers_stand() -> bool
    ensures { CarriersStand }
{
    true
}
