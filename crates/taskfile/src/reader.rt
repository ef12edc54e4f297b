//! A file, read from front to back.
ghost use Rattle.std.specs.Prelude.{◌≡◌, ◌-◌, ◌<◌, ◌≤◌, length, IfOk, MatchResult};
ghost use Rattle.strips.specs.Bits.{bit};

use crate::fault::Fault;
use crate::header::ACTIONS;
use strips::{AtomSet, Denial, Row};

/// The cost of a record that has none.
pub(crate) const COST: u16 = 1;

/// A record's map is below this: it has four bits.
const MAPS: u8 = 16;

/// Whether the map brings the field of bit i. A map is a byte of the format, and flags by name would only rename its bits.
pub(crate) fn brings(map: u8, i: u8) -> bool
    requires { i < 8 }
    ensures { result ≡ bit i map }
{
    (map >> i) % 2 == 1
}

/// What is left to read of a file, after its header.
#[derive(Clone, Copy)]
pub(crate) struct Reader<'a> {
    /// How many bytes the whole file has.
    pub total: usize,
    /// How many atoms its task has.
    pub atoms: u8,
    /// The action whose record is read, if one is.
    pub action: Option<usize>,
    /// The bytes that are not read yet.
    pub rest: &'a [u8],
    ghost within: { length rest.now ≤ total },
}

impl<'a> Reader<'a> {
    ghost use Rattle.strips.specs.Sets.{Within};
    ghost use Rattle.strips.specs.Bits.{members, number};
    ghost use Rattle.strips.specs.Rows.{row_action};
    ghost use Rattle.strips.specs.Task.{SoundAction};
    ghost use Rattle.strips.specs.declared.denial.Denial.TheVariants.{BytesAfterEnd};
    ghost use Rattle.taskfile.specs.Content.{entry_of};
    ghost use Rattle.taskfile.specs.Reading.{field, fault as fault_of, map_denied, set_at, cost_at, entry};
    ghost use Rattle.taskfile.specs.Reads.{Reads, Takes, ReadsRecords};

    // How many bytes are read.
    fn place(&self) -> usize
        ensures { result ≡ self.now.total - length self.now.rest.now }
    {
        self.total - self.rest.len()
    }

    fn fault(&self, denial: Denial, place: usize) -> Fault
        ensures { result ≡ fault_of denial place self.now.action }
    {
        Fault {
            denial,
            place,
            action: self.action,
        }
    }

    // The next N bytes.
    fn take<const N: usize>(&mut self) -> Result<[u8; N], Fault>
        ensures { Takes N self.old self.new result }
    {
        let Some((bytes, rest)) = self.rest.split_first_chunk::<N>() else {
            return Err(self.fault(Denial::FileEnds, self.total));
        };
        self.rest = rest;
        Ok(*bytes)
    }

    /// A set: the next 8 bytes where it is present, and empty where it is absent.
    pub fn set(&mut self, present: bool) -> Result<AtomSet, Fault>
        ensures reads { Reads (λ s. number 64 (members s)) self.old self.new result (set_at present self.old.atoms self.old.total self.old.action self.old.rest.now) }
        ensures within { IfOk result (λ s. Within self.old.atoms (members s)) }
    {
        if !present {
            return Ok(AtomSet::EMPTY);
        }
        let place = self.place();
        let set = AtomSet::from_bits(u64::from_be_bytes(self.take()?));
        if !set.is_below(usize::from(self.atoms)) {
            return Err(self.fault(Denial::AtomOutOfRange, place));
        }
        if set == AtomSet::EMPTY {
            return Err(self.fault(Denial::FieldAtDefault, place));
        }
        Ok(set)
    }

    // A cost: the next 2 bytes where it is present, and 1 where it is absent. Inlined by hand: as a call for each record it
    // makes reading a tenth slower.
    #[inline(always)]
    fn cost(&mut self, present: bool) -> Result<u16, Fault>
        ensures { Reads (λ c. c) self.old self.new result (cost_at present self.old.total self.old.action self.old.rest.now) }
    {
        if !present {
            return Ok(COST);
        }
        let place = self.place();
        let cost = u16::from_be_bytes(self.take()?);
        if cost == COST {
            return Err(self.fault(Denial::FieldAtDefault, place));
        }
        Ok(cost)
    }

    // A record's map: one byte of four bits.
    fn map(&mut self) -> Result<u8, Fault>
        ensures { Reads (λ m. m) self.old self.new result (field 1 (map_denied 4) self.old.total self.old.action self.old.rest.now) }
    {
        let place = self.place();
        let [map] = self.take::<1>()?;
        if map >= MAPS {
            return Err(self.fault(Denial::MapBitUnknown, place));
        }
        Ok(map)
    }

    /// The record of the action.
    pub fn record(&mut self) -> Result<Row, Fault>
        ensures reads { Reads (λ r. entry_of (row_action r)) self.old self.new result (entry self.old.atoms self.old.total self.old.action self.old.rest.now) }
        ensures sound { IfOk result (λ r. SoundAction self.old.atoms (row_action r)) }
    {
        let place = self.place();
        let map = self.map()?;
        let needs = self.set(brings(map, 0))?;
        let adds = self.set(brings(map, 1))?;
        let removes = self.set(brings(map, 2))?;
        let cost = self.cost(brings(map, 3))?;
        if adds.meets(removes) {
            return Err(self.fault(Denial::AddedAndRemoved, place));
        }
        Ok(Row {
            needs,
            adds,
            removes,
            cost,
        })
    }

    /// The records of all actions: where each begins, counted from the first.
    pub fn records(&mut self, actions: usize) -> Result<[usize; ACTIONS], Fault>
        requires { actions ≤ 256 }
        ensures { ReadsRecords self.old self.new result actions }
    {
        let records = self.rest;
        let mut places = [0; ACTIONS];
        for (action, place) in places[..actions].iter_mut().enumerate() {
            *place = records.len() - self.rest.len();
            self.action = Some(action);
            self.record()?;
        }
        self.action = None;
        Ok(places)
    }

    /// Nothing follows.
    pub fn finish(&self) -> Result<(), Fault>
        ensures { MatchResult result (λ _. length self.now.rest.now ≡ 0) (λ f. (0 < length self.now.rest.now) × (f ≡ fault_of BytesAfterEnd (self.now.total - length self.now.rest.now) self.now.action)) }
    {
        if self.rest.is_empty() {
            Ok(())
        } else {
            Err(self.fault(Denial::BytesAfterEnd, self.place()))
        }
    }
}
