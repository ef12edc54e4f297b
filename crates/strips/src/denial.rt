//! What can be refused.
ghost use Rattle.std.specs.Prelude.{◌≡◌};
ghost use Rattle.strips.specs.Numbers.{number_of};

/// The reasons to refuse a call or a file, each under its number.
#[derive(Clone, Copy, Debug, PartialEq, Eq)]
pub enum Denial {
    /// The file ends inside a field.
    FileEnds = 1,
    /// The file's version is not 1.
    VersionUnknown = 2,
    /// More than 64 atoms or 256 actions, in a file or for a row table.
    SizeOutOfRange = 3,
    /// A map has a bit that brings no field.
    MapBitUnknown = 4,
    /// A set has an atom that the task does not have.
    AtomOutOfRange = 5,
    /// A field has the value that it has where it is absent.
    FieldAtDefault = 6,
    /// An action adds and removes the same atom.
    AddedAndRemoved = 7,
    /// The file goes on after its last record.
    BytesAfterEnd = 8,
    /// There is no such row, action or atom.
    NoSuchNumber = 9,
    /// The size of the sets that a bound looks at is not 1 or 2.
    OrderUnknown = 10,
    /// The task has more than 64 atoms or 256 actions, or others than the record was made for.
    TaskOutOfRange = 11,
    /// A step by a closed action.
    ActionClosed = 12,
    /// A step by an action whose needs do not hold.
    NeedsMissing = 13,
    /// A step after 1,000,000 steps.
    StepsSpent = 14,
    /// An arrival without the goal.
    GoalMissing = 15,
    /// The search needs a place and none is left.
    PlacesSpent = 16,
    /// A plan or a file does not fit its buffer, or a plan to check has over 4,095 actions.
    DoesNotFit = 17,
}

impl From<Denial> for u8 {
    ghost from_gives = { λ denial number. number ≡ number_of denial };

    fn from(denial: Denial) -> u8 {
        denial as u8
    }
}
