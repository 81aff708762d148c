// Standing sheets.
use crate::support::{Desk, answer, asks, broken, refused, slot};
use book::Book;
use judge::verdict::Verdict;
use question::Question;
use sheet::EntrySlot;
use std::alloc::Global;
use std::process::Abort;
use std::rt::HostRuntime;
use std::test::Fail;
use terms::concept::Concept;
use terms::entry::{Head, Kind, Letter};
use terms::line::Line;
use terms::question::Comparison;
use terms::refusal::{Refusal, Refused};

// The head of an entry of a standing sheet.
fn standing() -> Head {
    Head {
        letter: Letter::L,
        ..Head::default()
    }
}

// A heading that is in 'some role that is it', asked not below 6.
fn loop_desk(heap: Global) -> Result<Desk, Refused> {
    let mut book = Book::new(heap, 10)?;
    let _ = book.enter_heading("deed")?;
    let _ = book.enter_role("names")?;
    let _ = book.enter_concept(Concept::Heading(0))?;
    let _ = book.enter_concept(Concept::Exists(0, 0))?;
    let _ = book.enter_inclusion(0, 1)?;
    let mut question = Question::new();
    let _ = question.enter(&book, asks(0, Comparison::NotBelow, 6))?;
    Ok(Desk { book, question })
}

// One entry serves itself; without its at-most line the inclusion has nothing to go by.
#[test]
fn serves_itself(rt: HostRuntime) -> Result<(), Fail> {
    let heap = rt.alloc();
    let desk = loop_desk(heap)?;
    let mut entries = [slot(standing(), 0, 3)];
    let mut lines = [
        Line::at_least(0, 12),
        Line::at_most(0, 12),
        Line::at_least(1, 12),
    ];
    assert_eq!(rt;
        answer(&desk, &mut entries, &mut lines, Kind::Standing, 0)?,
        Ok(Verdict::Stands(0))
    );
    assert_eq!(rt;
        answer(&desk, &mut entries, &mut lines, Kind::Standing, 1)?,
        refused(Refusal::BadRoot)
    );
    let mut short = [Line::at_least(0, 12), Line::at_least(1, 12)];
    entries[0].count = 2;
    assert_eq!(rt;
        answer(&desk, &mut entries, &mut short, Kind::Standing, 0)?,
        broken(0)
    );
    Ok(())
}

// A field that is not 0, and a label that passes the store.
#[test]
fn wild_slots(rt: HostRuntime) -> Result<(), Fail> {
    let heap = rt.alloc();
    let desk = loop_desk(heap)?;
    let mut lines = [
        Line::at_least(0, 12),
        Line::at_most(0, 12),
        Line::at_least(1, 12),
    ];
    let good = slot(standing(), 0, 3);
    let mut named = [EntrySlot {
        head: Head {
            step: 1,
            ..standing()
        },
        ..good
    }];
    assert_eq!(rt;
        answer(&desk, &mut named, &mut lines, Kind::Standing, 0)?,
        broken(0)
    );
    let mut past = [EntrySlot {
        count: usize::MAX,
        ..good
    }];
    assert_eq!(rt;
        answer(&desk, &mut past, &mut lines, Kind::Standing, 0)?,
        broken(0)
    );
    let mut second = [
        good,
        EntrySlot {
            start: usize::MAX,
            ..good
        },
    ];
    assert_eq!(rt;
        answer(&desk, &mut second, &mut lines, Kind::Standing, 0)?,
        broken(1)
    );
    Ok(())
}

// 64 standing entries are judged, and 65 are too many.
#[test]
fn entries_at_their_edge(rt: HostRuntime) -> Result<(), Fail> {
    let heap = rt.alloc();
    let desk = loop_desk(heap)?;
    let mut lines = [
        Line::at_least(0, 12),
        Line::at_most(0, 12),
        Line::at_least(1, 12),
    ];
    let good = slot(standing(), 0, 3);
    let mut most = [good; 64];
    assert_eq!(rt;
        answer(&desk, &mut most, &mut lines, Kind::Standing, 63)?,
        Ok(Verdict::Stands(63))
    );
    let mut more = [good; 65];
    assert_eq!(rt;
        answer(&desk, &mut more, &mut lines, Kind::Standing, 63)?,
        refused(Refusal::Unfit)
    );
    Ok(())
}

// The least and the greatest bound that a line may have; and a question without lines, which is refused whatever the sheet.
fn bound_edges(rt: &impl Abort, heap: Global, fineness: u32) -> Result<(), Fail> {
    let mut book = Book::new(heap, fineness)?;
    let _ = book.enter_heading("deed")?;
    let _ = book.enter_concept(Concept::Heading(0))?;
    let mut desk = Desk {
        book,
        question: Question::new(),
    };
    let mut entries = [slot(standing(), 0, 1)];
    let mut idle = [Line::at_least(0, -1)];
    assert_eq!(rt;
        answer(&desk, &mut entries, &mut idle, Kind::Standing, 0)?,
        refused(Refusal::NoLines)
    );
    let _ = desk
        .question
        .enter(&desk.book, asks(0, Comparison::NotBelow, 0))?;
    assert_eq!(rt;
        answer(&desk, &mut entries, &mut idle, Kind::Standing, 0)?,
        Ok(Verdict::Stands(0))
    );
    let mut low = [Line::at_most(0, -1)];
    assert_eq!(rt;
        answer(&desk, &mut entries, &mut low, Kind::Standing, 0)?,
        broken(0)
    );
    let mut wide = [Line::at_most(0, 4000)];
    assert_eq!(rt;
        answer(&desk, &mut entries, &mut wide, Kind::Standing, 0)?,
        Ok(Verdict::Stands(0))
    );
    let mut high = [Line::at_least(0, 4000)];
    assert_eq!(rt;
        answer(&desk, &mut entries, &mut high, Kind::Standing, 0)?,
        broken(0)
    );
    let mut past = [Line::at_most(0, 4001)];
    assert_eq!(rt;
        answer(&desk, &mut entries, &mut past, Kind::Standing, 0)?,
        broken(0)
    );
    Ok(())
}

// On the coarsest and on the finest scale.
#[test]
fn bounds_at_their_edge(rt: HostRuntime) -> Result<(), Fail> {
    let heap = rt.alloc();
    bound_edges(&rt, heap, 1)?;
    bound_edges(&rt, heap, 1000)
}
