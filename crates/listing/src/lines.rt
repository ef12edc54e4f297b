//! The lines of a listing as text.
use crate::seconds;
use std::fmt;
use strips::Denial;
use taskfile::Fault;

/// The sizes of the task compiled into sets of up to `order` atoms, and the bound.
#[derive(Clone, Copy, Debug, PartialEq, Eq)]
pub struct BoundLine {
    pub order: usize,
    pub atoms: usize,
    pub actions: usize,
    pub bound: Option<u32>,
}

impl fmt::Display for BoundLine {
    fn fmt<W: fmt::Write>(&self, f: &mut fmt::Formatter<W>) -> fmt::Result {
        let BoundLine {
            order,
            atoms,
            actions,
            bound,
        } = self;
        write!(f, "m{order} {atoms} {actions} ")?;
        match bound {
            Some(tenths) => write!(f, "{tenths} {}", seconds(*tenths)),
            None => write!(f, "none -"),
        }
    }
}

/// The plan, that there is none, or why it was refused: a type with a `Display` of its own, which a `Result` of an `Option` does
/// not have.
#[derive(Clone, Copy, Debug, PartialEq, Eq)]
pub enum PlanLine<'a> {
    Found(u32, &'a [u16]),
    Nothing,
    Refused(Denial),
}

impl fmt::Display for PlanLine<'_> {
    fn fmt<W: fmt::Write>(&self, f: &mut fmt::Formatter<W>) -> fmt::Result {
        match self {
            PlanLine::Found(cost, actions) => {
                write!(f, "plan {cost} {}", seconds(*cost))?;
                for action in *actions {
                    write!(f, " {action}")?;
                }
                Ok(())
            }
            PlanLine::Nothing => write!(f, "plan none"),
            PlanLine::Refused(denial) => write!(f, "plan refused {}", u8::from(*denial)),
        }
    }
}

/// The lines of a task that is accepted: its sizes, its two bounds and its plan.
#[derive(Clone, Copy)]
pub(crate) struct TaskLines<'a> {
    pub(crate) atoms: usize,
    pub(crate) actions: usize,
    pub(crate) single: BoundLine,
    pub(crate) pair: BoundLine,
    pub(crate) plan: PlanLine<'a>,
}

impl fmt::Display for TaskLines<'_> {
    fn fmt<W: fmt::Write>(&self, f: &mut fmt::Formatter<W>) -> fmt::Result {
        let TaskLines {
            atoms,
            actions,
            single,
            pair,
            plan,
        } = self;
        write!(f, "task {atoms} {actions}\n{single}\n{pair}\n{plan}")
    }
}

/// The line of a file that is refused: the refusal and the byte place.
#[derive(Clone, Copy)]
pub(crate) struct RefusedLine {
    denial: Denial,
    place: usize,
}

impl From<Fault> for RefusedLine {
    fn from(fault: Fault) -> RefusedLine {
        RefusedLine {
            denial: fault.denial,
            place: fault.place,
        }
    }
}

impl From<Denial> for RefusedLine {
    fn from(denial: Denial) -> RefusedLine {
        RefusedLine { denial, place: 0 }
    }
}

impl fmt::Display for RefusedLine {
    fn fmt<W: fmt::Write>(&self, f: &mut fmt::Formatter<W>) -> fmt::Result {
        write!(f, "refused {} {}", u8::from(self.denial), self.place)
    }
}
