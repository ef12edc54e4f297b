//! The header of a file.
ghost use Rattle.std.specs.Prelude.{◌≡◌, ℕ, ◌+◌, ◌*◌, ◌<◌, ◌≤◌, length, IfOk, None, Ok, Err, MatchResult};
ghost use Rattle.strips.specs.Bits.{bit};
ghost use Rattle.taskfile.specs.Reading.{fault, header};

use crate::fault::Fault;
use crate::reader::brings;
use strips::Denial;

/// The only version.
pub(crate) const VERSION: u8 = 1;

/// At most so many atoms.
const ATOMS: u8 = 64;

/// At most so many actions.
pub(crate) const ACTIONS: usize = 256;

/// A header's map is below this: it has two bits.
const MAPS: u8 = 4;

/// How many atoms and actions there are, and which sets follow.
#[derive(Clone, Copy)]
pub(crate) struct Header {
    pub atoms: u8,
    pub actions: usize,
    pub has_start: bool,
    pub has_goal: bool,
    ghost few: { actions ≤ 256 },
}

fn action_count(high: u8, low: u8) -> usize
    ensures { result ≡ high * 256 + low }
{
    usize::from(u16::from_be_bytes([high, low]))
}

// A fault of the header is in no action's record.
fn fault(denial: Denial, place: usize) -> Fault
    ensures { result ≡ fault denial place None }
{
    Fault {
        denial,
        place,
        action: None,
    }
}

// The leftmost fault of a file that ends inside its header. It makes the tests of `read_header` again, since one function
// of both would have to make up the bytes that are not there.
fn cut_short(bytes: &[u8]) -> Fault
    requires { length bytes.now < 5 }
    ensures { header (length bytes.now) bytes.now ≡ Err result }
{
    match bytes {
        [version, ..] if *version != VERSION => fault(Denial::VersionUnknown, 0),
        [_, atoms, ..] if *atoms > ATOMS => fault(Denial::SizeOutOfRange, 1),
        [_, _, high, low, ..] if action_count(*high, *low) > ACTIONS => {
            fault(Denial::SizeOutOfRange, 2)
        }
        _ => fault(Denial::FileEnds, bytes.len()),
    }
}

/// The header, taken apart, and the bytes after it.
pub(crate) fn read_header(bytes: &[u8]) -> Result<(Header, &[u8]), Fault>
    ensures reads { MatchResult result (λ x. (map : ℕ) × (header (length bytes.now) bytes.now ≡ Ok ((x.0.atoms, x.0.actions, map), x.1.now)) × (x.0.has_start ≡ bit 0 map) × (x.0.has_goal ≡ bit 1 map)) (λ f. header (length bytes.now) bytes.now ≡ Err f) }
    ensures within { IfOk result (λ x. length x.1.now ≤ length bytes.now) }
{
    let [version, atoms, high, low, map, rest @ ..] = bytes else {
        return Err(cut_short(bytes));
    };
    let actions = action_count(*high, *low);
    if *version != VERSION {
        return Err(fault(Denial::VersionUnknown, 0));
    }
    if *atoms > ATOMS {
        return Err(fault(Denial::SizeOutOfRange, 1));
    }
    if actions > ACTIONS {
        return Err(fault(Denial::SizeOutOfRange, 2));
    }
    if *map >= MAPS {
        return Err(fault(Denial::MapBitUnknown, 4));
    }
    Ok((
        Header {
            atoms: *atoms,
            actions,
            has_start: brings(*map, 0),
            has_goal: brings(*map, 1),
        },
        rest,
    ))
}
