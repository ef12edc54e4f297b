//! Fields and records, written to a buffer.
ghost use Rattle.std.specs.Prelude.{◌≡◌, ◌+◌, ◌≤◌, length};
ghost use Rattle.strips.specs.Bits.{members, number};
ghost use Rattle.strips.specs.Rows.{row_action};
ghost use Rattle.taskfile.specs.Content.{entry_of};
ghost use Rattle.taskfile.specs.Format.{entry_map, entry_bytes};
ghost use Rattle.taskfile.specs.Writing.{field_of, bytes_in, bit_in, written};

use crate::reader::COST;
use strips::{AtomSet, Row};

/// The field of a set: absent where it is empty.
pub(crate) fn set_field(set: AtomSet) -> Option<[u8; 8]>
    ensures { result ≡ field_of 0 8 (number 64 (members set)) }
{
    if set == AtomSet::EMPTY {
        None
    } else {
        Some(set.bits().to_be_bytes())
    }
}

// The field of a cost: absent where it is 1.
fn cost_field(cost: u16) -> Option<[u8; 2]>
    ensures { result ≡ field_of 1 2 cost }
{
    if cost == COST {
        None
    } else {
        Some(cost.to_be_bytes())
    }
}

/// A field's bit in a map, before it is shifted to its place.
pub(crate) fn flag<const N: usize>(field: Option<[u8; N]>) -> u8
    ensures is { result ≡ bit_in field.entry }
    ensures small { result ≤ 1 }
{
    u8::from(field.is_some())
}

/// How many bytes a field has.
pub(crate) fn size<const N: usize>(field: Option<[u8; N]>) -> usize
    ensures is { result ≡ length (bytes_in field.entry) }
    ensures small { result ≤ N }
{
    if field.is_some() { N } else { 0 }
}

/// Writes a field where it is present, and tells the place after it. Buffer and place go along together here: a writer that held
/// what is left of the buffer would have to tell in its contracts where that begins, which is what `at` tells.
pub(crate) fn put<const N: usize>(out: &mut [u8], at: usize, field: Option<[u8; N]>) -> usize
    requires { at + length (bytes_in field) ≤ length out.old }
    ensures bytes { out.new ≡ written out.old at (bytes_in field.entry) }
    ensures after { result ≡ at + length (bytes_in field.entry) }
{
    let Some(bytes) = field else {
        return at;
    };
    out[at..at + N].copy_from_slice(&bytes);
    at + N
}

fn row_map(row: Row) -> u8
    ensures { result ≡ entry_map (entry_of (row_action row)) }
{
    flag(set_field(row.needs))
        + 2 * flag(set_field(row.adds))
        + 4 * flag(set_field(row.removes))
        + 8 * flag(cost_field(row.cost))
}

/// How many bytes a record has.
pub(crate) fn row_size(row: Row) -> usize
    ensures is { result ≡ length (entry_bytes (entry_of (row_action row))) }
    ensures small { result ≤ 27 }
{
    1 + size(set_field(row.needs))
        + size(set_field(row.adds))
        + size(set_field(row.removes))
        + size(cost_field(row.cost))
}

/// Writes a record, and tells the place after it.
pub(crate) fn put_row(out: &mut [u8], at: usize, row: Row) -> usize
    requires { at + length (entry_bytes (entry_of (row_action row))) ≤ length out.old }
    ensures bytes { out.new ≡ written out.old at (entry_bytes (entry_of (row_action row))) }
    ensures after { result ≡ at + length (entry_bytes (entry_of (row_action row))) }
{
    out[at] = row_map(row);
    let at = put(out, at + 1, set_field(row.needs));
    let at = put(out, at, set_field(row.adds));
    let at = put(out, at, set_field(row.removes));
    put(out, at, cost_field(row.cost))
}
