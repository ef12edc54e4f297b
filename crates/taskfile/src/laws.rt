//! The laws of the format.
ghost use Rattle.taskfile.specs.Laws.{FormatStands};

/// A list of bytes is the file of one task or has one fault, the leftmost, and a written file reads as its task.
pub fn format_stands() -> bool
    ensures { FormatStands }
{
    true
}
