//! Task files, byte by byte.
use crate::shuttle;
use std::test::Fail;
use strips::{Denial, RowTable, Task};
use taskfile::{FileView, write};

/// The fault of a file, or none where it opens: why, at which byte, and in the record of which action.
fn fault(bytes: &[u8]) -> Option<(Denial, usize, Option<usize>)> {
    let fault = FileView::open(bytes).err()?;
    Some((fault.denial, fault.place, fault.action))
}

#[test]
fn headers(rt: HostRuntime) {
    assert_eq!(rt; fault(b"\x01\0\0\0\0"), None);
    assert_eq!(rt; fault(b"\x01\x40\0\0\0"), None);
    assert_eq!(rt; fault(b""), Some((Denial::FileEnds, 0, None)));
    assert_eq!(rt; fault(b"\x02"), Some((Denial::VersionUnknown, 0, None)));
    assert_eq!(rt; fault(b"\x01\x41"), Some((Denial::SizeOutOfRange, 1, None)));
    assert_eq!(rt; fault(b"\x01\0\x02"), Some((Denial::FileEnds, 3, None)));
    assert_eq!(rt;
        fault(b"\x01\0\x02\0"),
        Some((Denial::SizeOutOfRange, 2, None))
    );
    assert_eq!(rt; fault(b"\x01\0\0\0"), Some((Denial::FileEnds, 4, None)));
    assert_eq!(rt;
        fault(b"\x01\x41\0\0\0"),
        Some((Denial::SizeOutOfRange, 1, None))
    );
    assert_eq!(rt;
        fault(b"\x01\0\0\0\x04"),
        Some((Denial::MapBitUnknown, 4, None))
    );
    assert_eq!(rt;
        fault(b"\x01\0\0\0\0\0"),
        Some((Denial::BytesAfterEnd, 5, None))
    );
}

#[test]
fn fields(rt: HostRuntime) {
    let set = b"\x01\x02\0\0\x01\0\0\0\0\0\0\0";
    assert_eq!(rt; fault(set), Some((Denial::FileEnds, 12, None)));
    assert_eq!(rt; fault(b"\x01\x02\0\0\x01\0\0\0\0\0\0\0\x03"), None);
    assert_eq!(rt;
        fault(b"\x01\x02\0\0\x01\0\0\0\0\0\0\0\x04"),
        Some((Denial::AtomOutOfRange, 5, None))
    );
    assert_eq!(rt;
        fault(b"\x01\x02\0\0\x01\0\0\0\0\0\0\0\0"),
        Some((Denial::FieldAtDefault, 5, None))
    );
    assert_eq!(rt; fault(b"\x01\0\0\x01\0\x08\0\0"), None);
    assert_eq!(rt;
        fault(b"\x01\0\0\x01\0\x08\0\x01"),
        Some((Denial::FieldAtDefault, 6, Some(0)))
    );
    assert_eq!(rt;
        fault(b"\x01\0\0\x01\0\x10"),
        Some((Denial::MapBitUnknown, 5, Some(0)))
    );
    assert_eq!(rt;
        fault(b"\x01\0\0\x02\0\0"),
        Some((Denial::FileEnds, 6, Some(1)))
    );
    let both = b"\x01\x01\0\x01\0\x06\0\0\0\0\0\0\0\x01\0\0\0\0\0\0\0\x01";
    assert_eq!(rt; fault(both), Some((Denial::AddedAndRemoved, 5, Some(0))));
}

#[test]
fn written(rt: HostRuntime) -> Result<(), Fail> {
    let task = shuttle();
    let mut out = [7u8; 120];
    assert_eq!(rt; write(&task, &mut out[0..118]), Err(Denial::DoesNotFit));
    assert_eq!(rt; out[0], 7);
    assert_eq!(rt; write(&task, &mut out), Ok(119));
    assert_eq!(rt; out[4], 3);
    assert_eq!(rt; out[118], 4);
    assert_eq!(rt; out[119], 7);
    let Ok(view) = FileView::open(&out[0..119]) else {
        return Err(Fail::new("it is refused"));
    };
    assert_eq!(rt; view.row(3).needs.bits(), 6);
    let mut copy = RowTable::new();
    assert_eq!(rt; copy.copy_from(&view), Ok(()));
    let mut again = [7u8; 120];
    assert_eq!(rt; write(&copy, &mut again), Ok(119));
    assert_eq!(rt; again, out);
    Ok(())
}
