//! The file of a task, written to a buffer.
ghost use Rattle.std.specs.Prelude.{◌≡◌, ◌+◌, ◌*◌, ◌≤◌, ◌++◌, length, drop, Some, None, MatchResult};
ghost use Rattle.std.specs.List.{flat_map};
ghost use Rattle.taskfile.specs.Content.{content_of};
ghost use Rattle.taskfile.specs.Format.{entry_bytes, encode};
ghost use Rattle.taskfile.specs.Writing.{write_denied, written};

use crate::header::VERSION;
use crate::put::{flag, put, put_row, row_size, set_field, size};
use strips::{Denial, Part, Task, is_small};

// How many bytes the records have. Here and below the number of actions is asked to be small, as `write` has tested: a type for
// a small task would be made and taken apart within that one call.
fn records_size<T: Task>(task: &T) -> usize
    requires { (T.Task.meaning task.now).actions ≤ 256 }
    ensures is { result ≡ length (flat_map entry_bytes (content_of (T.Task.meaning task.now)).entries) }
    ensures small { result ≤ 27 * 256 }
{
    (0..task.actions())
        .map(|action| row_size(task.row(action)))
        .sum()
}

// How many bytes the file has.
fn file_size<T: Task>(task: &T) -> usize
    requires { (T.Task.meaning task.now).actions ≤ 256 }
    ensures { result ≡ length (encode (T.Task.meaning task.now)) }
{
    let start = set_field(task.set_of(Part::Start));
    let goal = set_field(task.set_of(Part::Goal));
    5 + size(start) + size(goal) + records_size(task)
}

// Writes the records from a place on.
fn put_rows<T: Task>(task: &T, out: &mut [u8], at: usize)
    requires { at + length (flat_map entry_bytes (content_of (T.Task.meaning task.now)).entries) ≤ length out.old }
    ensures { out.new ≡ written out.old at (flat_map entry_bytes (content_of (T.Task.meaning task.now)).entries) }
{
    let mut place = at;
    for action in 0..task.actions() {
        place = put_row(out, place, task.row(action));
    }
}

// Writes the file to the front of a buffer that has room for it.
fn put_file<T: Task>(task: &T, out: &mut [u8])
    requires atoms { (T.Task.meaning task.now).atoms ≤ 64 }
    requires actions { (T.Task.meaning task.now).actions ≤ 256 }
    requires room { length (encode (T.Task.meaning task.now)) ≤ length out.old }
    ensures { out.new ≡ written out.old 0 (encode (T.Task.meaning task.now)) }
{
    let start = set_field(task.set_of(Part::Start));
    let goal = set_field(task.set_of(Part::Goal));
    // The casts keep both numbers, which are small: a `try_from` would have an error that cannot come.
    let [high, low] = (task.actions() as u16).to_be_bytes();
    let map = flag(start) + 2 * flag(goal);
    let header = [VERSION, task.atoms() as u8, high, low, map];
    let at = put(out, 0, Some(header));
    let at = put(out, at, start);
    let at = put(out, at, goal);
    put_rows(task, out, at);
}

/// Writes the file of a task to the front of the buffer and tells its length, or alters nothing.
pub fn write<T: Task>(task: &T, out: &mut [u8]) -> Result<usize, Denial>
    ensures { MatchResult result
        (λ n. (write_denied (T.Task.meaning task.now) (length out.old) ≡ None)
        × (n ≡ length (encode (T.Task.meaning task.now)))
        × (out.new ≡ encode (T.Task.meaning task.now) ++ drop n out.old))
        (λ d. (write_denied (T.Task.meaning task.now) (length out.old) ≡ Some d)
        × (out.new ≡ out.old)) }
{
    if !is_small(task) {
        return Err(Denial::TaskOutOfRange);
    }
    let size = file_size(task);
    if size > out.len() {
        return Err(Denial::DoesNotFit);
    }
    put_file(task, out);
    Ok(size)
}
