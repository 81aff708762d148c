// Closing sheets.
use crate::support::{answer, broken, refused, slot, tithe};
use judge::verdict::Verdict;
use std::alloc::Global;
use std::rt::HostRuntime;
use std::test::Fail;
use terms::entry::{Head, Kind, Letter};
use terms::line::Line;
use terms::refusal::{Refusal, Refused};

// The entry by the inclusion.
fn by_inclusion() -> Head {
    Head {
        letter: Letter::I,
        second: 1,
        step: 7,
        ..Head::default()
    }
}

// The answer on the tithe sheet with this head and label for its last entry.
fn last_entry(
    heap: Global,
    head: Head,
    label: [Line; 2],
) -> Result<Result<Verdict, Refused>, Fail> {
    let desk = tithe(heap)?;
    let mut entries = [
        slot(Head::default(), 0, 2),
        slot(Head::default(), 2, 2),
        slot(head, 4, 2),
    ];
    let mut lines = [
        Line::at_least(0, 7),
        Line::at_most(0, 6),
        Line::at_least(1, 7),
        Line::at_most(1, 6),
        label[0],
        label[1],
    ];
    answer(&desk, &mut entries, &mut lines, Kind::Closing, 2)
}

#[test]
fn the_tithe_sheet(rt: HostRuntime) -> Result<(), Fail> {
    let heap = rt.alloc();
    let label = [Line::at_least(0, 7), Line::at_most(1, 6)];
    let good = by_inclusion();
    assert_eq!(rt; last_entry(heap, good, label)?, Ok(Verdict::Closed(2)));
    let spoiled = [
        Head { step: 6, ..good },
        Head { step: 0, ..good },
        Head { step: 21, ..good },
        Head { place: 1, ..good },
        Head { second: 2, ..good },
        Head {
            inclusion: 1,
            ..good
        },
    ];
    for head in spoiled {
        assert_eq!(rt; last_entry(heap, head, label)?, broken(2));
    }
    Ok(())
}

// Heads and bounds that no call would enter.
#[test]
fn wild_slots(rt: HostRuntime) -> Result<(), Fail> {
    let heap = rt.alloc();
    let label = [Line::at_least(0, 7), Line::at_most(1, 6)];
    let good = by_inclusion();
    let wild = [
        Head {
            step: usize::MAX,
            ..good
        },
        Head {
            second: usize::MAX,
            ..good
        },
        Head {
            inclusion: usize::MAX,
            ..good
        },
    ];
    for head in wild {
        assert_eq!(rt; last_entry(heap, head, label)?, broken(2));
    }
    let labels = [
        [Line::at_least(0, i32::MAX), Line::at_most(1, i32::MIN)],
        [Line::at_least(usize::MAX, 7), Line::at_most(1, 6)],
        [Line::at_most(1, 6), Line::at_least(0, 7)],
    ];
    for label in labels {
        assert_eq!(rt; last_entry(heap, good, label)?, broken(2));
    }
    Ok(())
}

// Entries that keep the rules, and a root that is no entry or has a line that is not asked.
#[test]
fn roots(rt: HostRuntime) -> Result<(), Fail> {
    let heap = rt.alloc();
    let desk = tithe(heap)?;
    let mut entries = [slot(Head::default(), 0, 2)];
    let mut lines = [Line::at_least(0, 7), Line::at_most(0, 6)];
    assert_eq!(rt;
        answer(&desk, &mut entries, &mut lines, Kind::Closing, 0)?,
        refused(Refusal::BadRoot)
    );
    assert_eq!(rt;
        answer(&desk, &mut entries, &mut lines, Kind::Closing, usize::MAX)?,
        refused(Refusal::BadRoot)
    );
    Ok(())
}
