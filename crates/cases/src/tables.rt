//! What row tables and layers refuse.
use crate::{row, shuttle};
use strips::{AtomSet, Closed, Closures, Denial, Errand, Task};

#[test]
fn numbers(rt: HostRuntime) {
    for (denial, number) in [
        (Denial::FileEnds, 1),
        (Denial::VersionUnknown, 2),
        (Denial::SizeOutOfRange, 3),
        (Denial::MapBitUnknown, 4),
        (Denial::AtomOutOfRange, 5),
        (Denial::FieldAtDefault, 6),
        (Denial::AddedAndRemoved, 7),
        (Denial::BytesAfterEnd, 8),
        (Denial::NoSuchNumber, 9),
        (Denial::OrderUnknown, 10),
        (Denial::TaskOutOfRange, 11),
        (Denial::ActionClosed, 12),
        (Denial::NeedsMissing, 13),
        (Denial::StepsSpent, 14),
        (Denial::GoalMissing, 15),
        (Denial::PlacesSpent, 16),
        (Denial::DoesNotFit, 17),
    ] {
        assert_eq!(rt; u8::from(denial), number);
    }
}

#[test]
fn rows(rt: HostRuntime) {
    let mut task = shuttle();
    assert_eq!(rt; task.clear(65, 1), Err(Denial::SizeOutOfRange));
    assert_eq!(rt;
        task.set_row(4, row(16, 1, 1, 0)),
        Err(Denial::NoSuchNumber)
    );
    assert_eq!(rt;
        task.set_row(3, row(16, 1, 1, 0)),
        Err(Denial::AtomOutOfRange)
    );
    assert_eq!(rt;
        task.set_row(3, row(1, 1, 1, 0)),
        Err(Denial::AddedAndRemoved)
    );
    assert_eq!(rt;
        task.set_goal(AtomSet::from_bits(16)),
        Err(Denial::AtomOutOfRange)
    );
    assert_eq!(rt; task.cost(3), 1);
    assert_eq!(rt; task.cost(4), 0);
    assert!(rt; task.needs(3, 2) && !task.needs(3, 64));
}

#[test]
fn layers(rt: HostRuntime) {
    let task = shuttle();
    let mut closures = Closures::none();
    assert_eq!(rt; closures.mark(4, true), Ok(()));
    assert_eq!(rt; closures.mark(256, true), Err(Denial::NoSuchNumber));
    assert_eq!(rt;
        Closed::new(&task, closures).err(),
        Some(Denial::NoSuchNumber)
    );
    let start = AtomSet::from_bits(8);
    assert!(rt; Errand::new(&task, start, AtomSet::from_bits(1)).is_ok());
    assert_eq!(rt;
        Errand::new(&task, start, AtomSet::from_bits(16)).err(),
        Some(Denial::AtomOutOfRange)
    );
}
