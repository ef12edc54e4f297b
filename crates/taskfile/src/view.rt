//! A task that is read from its file when it is asked.
ghost use Rattle.std.specs.Prelude.{◌≡◌, ℕ, ◌<◌, ◌≤◌, length, slice_index, MatchResult};
ghost use Rattle.strips.specs.Bits.{members};
ghost use Rattle.strips.specs.Sets.{Within};

use crate::fault::Fault;
use crate::header::{ACTIONS, read_header};
use crate::reader::Reader;
use strips::{AtomSet, Part, Row, Task};

/// A file that was read through: its header, its records, and where each record begins.
#[derive(Clone, Copy)]
pub struct FileView<'a> {
    atoms: u8,
    actions: usize,
    start: AtomSet,
    goal: AtomSet,
    records: &'a [u8],
    /// As many as there can be, of which the first `actions` count: nothing is allocated, and an `ArrayVec`, which would hold the
    /// count, is not in `std`.
    places: [usize; ACTIONS],
    ghost few: { actions ≤ 256 },
    ghost start_in: { Within atoms (members start) },
    ghost goal_in: { Within atoms (members goal) },
    ghost placed: { (i : ℕ) → i < actions → slice_index places i ≤ length records.now },
}

impl<'a> FileView<'a> {
    ghost use Rattle.strips.specs.Rows.{row_action};
    ghost use Rattle.taskfile.specs.Format.{Accepted};
    ghost use Rattle.taskfile.specs.Reading.{FaultOf};
    ghost use Rattle.taskfile.specs.View.{view_task};

    /// Reads the whole file: it is the file of a task, or its leftmost fault is told.
    pub fn open(bytes: &'a [u8]) -> Result<FileView<'a>, Fault>
        ensures { MatchResult result (λ v. Accepted bytes.now (view_task v)) (λ f. FaultOf bytes.now f) }
    {
        let (header, rest) = read_header(bytes)?;
        let mut reader = Reader {
            total: bytes.len(),
            atoms: header.atoms,
            action: None,
            rest,
        };
        let start = reader.set(header.has_start)?;
        let goal = reader.set(header.has_goal)?;
        let records = reader.rest;
        let places = reader.records(header.actions)?;
        reader.finish()?;
        Ok(FileView {
            atoms: header.atoms,
            actions: header.actions,
            start,
            goal,
            records,
            places,
        })
    }

    // The row of an action, read from its record.
    fn row_at(&self, action: usize) -> Row
        ensures { row_action result ≡ (view_task self.now).action action }
    {
        if action >= self.actions {
            return Row::NONE;
        }
        let mut reader = Reader {
            total: self.records.len(),
            atoms: self.atoms,
            action: Some(action),
            rest: &self.records[self.places[action]..],
        };
        reader.record().unwrap_or(Row::NONE)
    }
}

impl<'a> Task for FileView<'a> {
    ghost use Rattle.taskfile.specs.View.{view_task, view_sound};

    ghost meaning = { λ v. view_task v };

    ghost sound = { λ v. view_sound v };

    fn atoms(&self) -> usize {
        usize::from(self.atoms)
    }

    fn actions(&self) -> usize {
        self.actions
    }

    fn needs(&self, action: usize, atom: usize) -> bool {
        self.row_at(action).needs.has(atom)
    }

    fn adds(&self, action: usize, atom: usize) -> bool {
        self.row_at(action).adds.has(atom)
    }

    fn removes(&self, action: usize, atom: usize) -> bool {
        self.row_at(action).removes.has(atom)
    }

    fn cost(&self, action: usize) -> u16 {
        self.row_at(action).cost
    }

    fn in_start(&self, atom: usize) -> bool {
        self.start.has(atom)
    }

    fn in_goal(&self, atom: usize) -> bool {
        self.goal.has(atom)
    }

    fn holds(&self, part: Part, atom: usize) -> bool {
        self.set_of(part).has(atom)
    }

    fn set_of(&self, part: Part) -> AtomSet {
        match part {
            Part::Needs(action) => self.row_at(action).needs,
            Part::Adds(action) => self.row_at(action).adds,
            Part::Removes(action) => self.row_at(action).removes,
            Part::Start => self.start,
            Part::Goal => self.goal,
        }
    }

    fn next_of(&self, part: Part, from: usize) -> Option<usize> {
        self.set_of(part).next(from)
    }

    fn row(&self, action: usize) -> Row {
        self.row_at(action)
    }
}
