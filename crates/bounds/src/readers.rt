//! Which actions need an atom.
ghost use Rattle.std.specs.Prelude.{◌<◌};
ghost use Rattle.strips.specs.Bits.{members};
ghost use Rattle.strips.specs.Table.{table_task};
ghost use Rattle.bounds.specs.Readers.{Enters, ReadsBlock, Reads, Needing};

use strips::{AtomSet, RowTable, Task};

/// How many actions a block has: as many as a set of atoms has room for.
pub(crate) const BLOCK: usize = 64;

/// A block is a plain number below 4: a type for it would be longer than the three clauses that ask for that.
pub(crate) const BLOCKS: usize = 4;

/// For each atom the actions that need it, in blocks of 64 actions: action a of block b has the number 64 b + a. A set of
/// actions of a block is an `AtomSet` whose members are those numbers a.
#[derive(Clone, Copy)]
pub(crate) struct Readers {
    blocks: [[AtomSet; 64]; 4],
}

/// Enters an action of a block under each atom that it needs.
fn enter(block: &mut [AtomSet; 64], needs: AtomSet, action: usize)
    requires { action < 64 }
    ensures { Enters block.old block.new (members needs) action }
{
    for atom in needs {
        block[atom] = block[atom].with(action);
    }
}

/// The readers among one block of actions.
fn block_of(task: &RowTable, block: usize) -> [AtomSet; 64]
    requires { block < 4 }
    ensures { ReadsBlock (table_task task.now) block result }
{
    let mut readers = [AtomSet::EMPTY; 64];
    for action in 0..BLOCK {
        enter(&mut readers, task.row(BLOCK * block + action).needs, action);
    }
    readers
}

impl Readers {
    /// The readers of a task.
    pub(crate) fn of(task: &RowTable) -> Readers
        ensures { Reads (table_task task.now) result }
    {
        let mut blocks = [[AtomSet::EMPTY; 64]; BLOCKS];
        for (number, block) in blocks.iter_mut().enumerate() {
            *block = block_of(task, number);
        }
        Readers { blocks }
    }

    /// The actions of a block that need some atom of a set.
    pub(crate) fn needing(&self, block: usize, atoms: AtomSet) -> AtomSet
        requires { block < 4 }
        ensures { Needing self.now block (members atoms) (members result) }
    {
        let mut actions = AtomSet::EMPTY;
        for atom in atoms {
            actions = actions.joined(self.blocks[block][atom]);
        }
        actions
    }
}
