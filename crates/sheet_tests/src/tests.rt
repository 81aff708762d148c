use crate::{filed_count, finished_count, reopened_count, slot_count, struck_count};
use sheet::{EntrySlot, Finished, Sheet};
use std::test::Fail;
use terms::entry::{Head, Kind};
use terms::line::{Line, Side};
use terms::refusal::{Refusal, Refused};

fn refused(refusal: Refusal) -> Result<usize, Refused> {
    Err(refusal.into())
}

// A long entry struck, then a short one: no line of the first is left.
#[test]
fn no_tail_is_left(rt: HostRuntime) -> Result<(), Fail> {
    let mut entries = [EntrySlot::default(); 2];
    let mut lines = [Line::at_least(9, 9); 4];
    let sheet = Sheet::blank(&mut entries, &mut lines);
    let mut long = sheet.begin(Head::default())?;
    let first = long.line(Line::at_least(0, 7));
    let second = long.line(Line::at_most(0, 6));
    let third = long.line(Line::at_least(1, 5));
    let mut short = long.strike().begin(Head::default())?;
    let only = short.line(Line::at_most(3, 1));
    let finished = short.file().finish(Kind::Closing, 0)?;
    assert_eq!(rt; first, Ok(0));
    assert_eq!(rt; second, Ok(1));
    assert_eq!(rt; third, Ok(2));
    assert_eq!(rt; only, Ok(0));
    let label = finished.label(0);
    assert!(rt; label.len() == 1);
    assert_eq!(rt; label[0], Line::at_most(3, 1));
    let zero = Line {
        concept: 0,
        side: Side::AtLeast,
        bound: 0,
    };
    assert_eq!(rt; lines[1], zero);
    assert_eq!(rt; lines[2], zero);
    assert_eq!(rt; lines[3], zero);
    Ok(())
}

// Whether an entry with this head is begun; if so it is struck.
fn begins(head: Head) -> bool {
    let mut entries = [EntrySlot::default(); 1];
    let mut lines = [Line::default(); 1];
    let sheet = Sheet::blank(&mut entries, &mut lines);
    match sheet.begin(head) {
        Ok(begun) => {
            let _ = begun.strike();
            true
        }
        Err(_) => false,
    }
}

#[test]
fn heads_at_their_edge(rt: HostRuntime) {
    assert!(rt;
        begins(Head {
            place: 2000,
            step: 2000,
            ..Head::default()
        })
    );
    for above in [
        Head {
            place: 2001,
            ..Head::default()
        },
        Head {
            first: 2001,
            ..Head::default()
        },
        Head {
            second: 2001,
            ..Head::default()
        },
        Head {
            inclusion: 2001,
            ..Head::default()
        },
        Head {
            step: 2001,
            ..Head::default()
        },
    ] {
        assert!(rt; !begins(above), "{above:?}");
    }
}

#[test]
fn lines_at_their_edge(rt: HostRuntime) -> Result<(), Fail> {
    let mut entries = [EntrySlot::default(); 1];
    let mut lines = [Line::default(); 3];
    let sheet = Sheet::blank(&mut entries, &mut lines);
    let mut begun = sheet.begin(Head::default())?;
    let far = begun.line(Line::at_least(128, -2));
    let low = begun.line(Line::at_least(0, -2));
    let high = begun.line(Line::at_least(0, 4001));
    let least = begun.line(Line::at_least(0, -1));
    let same = begun.line(Line::at_least(0, -1));
    let most = begun.line(Line::at_least(0, 4000));
    let side = begun.line(Line::at_most(0, -1));
    let back = begun.line(Line::at_least(0, 5));
    let full = begun.line(Line::at_least(127, 4001));
    let _ = begun.strike();
    assert_eq!(rt; far, refused(Refusal::Missing));
    assert_eq!(rt; low, refused(Refusal::OutOfOrder));
    assert_eq!(rt; high, refused(Refusal::OutOfOrder));
    assert_eq!(rt; least, Ok(0));
    assert_eq!(rt; same, refused(Refusal::OutOfOrder));
    assert_eq!(rt; most, Ok(1));
    assert_eq!(rt; side, Ok(2));
    assert_eq!(rt; back, refused(Refusal::NoRoom));
    assert_eq!(rt; full, refused(Refusal::NoRoom));
    Ok(())
}

#[test]
fn counts_at_their_edge(rt: HostRuntime) -> Result<(), Fail> {
    let mut entries = [EntrySlot::default(); 1025];
    let mut lines = [Line::default(); 1];
    let Err(long) = Finished::over(&mut entries, &mut lines, 1025, Kind::Standing, 0) else {
        return Err(Fail::new("1,025 entries were taken over"));
    };
    assert_eq!(rt; long.refused.refusal, Refusal::NoRoom);
    let full = Finished::over(&mut entries, &mut lines, 1024, Kind::Standing, 0)?;
    match full.reopen().begin(Head::default()) {
        Ok(begun) => {
            let _ = begun.strike();
            return Err(Fail::new("1,025 entries"));
        }
        Err(unchanged) => assert_eq!(rt; unchanged.refused.refusal, Refusal::NoRoom),
    }
    let last = Finished::over(&mut entries, &mut lines, 1023, Kind::Standing, 0)?;
    let sheet = last.reopen().begin(Head::default())?.file();
    assert_eq!(rt; sheet.used(), 1024);
    let Err(unchanged) = sheet.finish(Kind::Standing, 1024) else {
        return Err(Fail::new("finished with a root that is no entry"));
    };
    assert_eq!(rt; unchanged.refused.refusal, Refusal::BadRoot);
    assert_eq!(rt; unchanged.value.finish(Kind::Closing, 1023)?.root(), 1023);
    Ok(())
}

// A store taken over with slots that pass it.
#[test]
fn wild_slots(rt: HostRuntime) -> Result<(), Fail> {
    let wild = EntrySlot {
        start: 1,
        count: usize::MAX,
        ..EntrySlot::default()
    };
    let mut entries = [EntrySlot::default(), wild];
    let mut lines = [Line::at_least(5, 5), Line::at_most(4, -9)];
    let sheet = Finished::over(&mut entries, &mut lines, 7, Kind::Standing, 9)?;
    assert_eq!(rt; sheet.used(), 7);
    assert_eq!(rt; sheet.entries().len(), 2);
    assert!(rt; sheet.lies(0) && !sheet.lies(1) && !sheet.lies(2));
    assert_eq!(rt; sheet.label(0).len(), 0);
    assert_eq!(rt; sheet.label(6).len(), 0);
    let label = sheet.label(1);
    assert!(rt; label.len() == 1);
    assert_eq!(rt; label[0], Line::at_most(4, -9));
    assert_eq!(rt; sheet.reopen().used(), 2);
    assert_eq!(rt; lines[1], Line::at_most(4, -9));
    Ok(())
}

// Files an entry with each of the heads, as far as there are slots; how many are filed then.
fn filed_in_turn(sheet: Sheet<'_>, heads: &[Head]) -> usize {
    let mut sheet = sheet;
    for head in heads {
        sheet = match sheet.begin(*head) {
            Ok(begun) => begun.file(),
            Err(unchanged) => unchanged.value,
        };
    }
    sheet.used()
}

// A sheet of two entries.
fn two<'a>(entries: &'a mut [EntrySlot], lines: &'a mut [Line]) -> Result<Sheet<'a>, Refused> {
    let finished = Finished::over(entries, lines, 2, Kind::Standing, 0)?;
    Ok(finished.reopen())
}

// What callers find that only end a sheet.
#[test]
fn counts_of_ended_sheets(rt: HostRuntime) -> Result<(), Fail> {
    let mut entries = [EntrySlot::default(); 3];
    let mut lines = [Line::default(); 1];
    let blank = filed_in_turn(Sheet::blank(&mut entries, &mut lines), &[]);
    let none = finished_count(Sheet::blank(&mut entries, &mut lines), Kind::Closing);
    let some = filed_in_turn(
        Sheet::blank(&mut entries, &mut lines),
        &[Head::default(); 2],
    );
    let full = filed_in_turn(
        Sheet::blank(&mut entries, &mut lines),
        &[Head::default(); 5],
    );
    let finished = finished_count(two(&mut entries, &mut lines)?, Kind::Closing);
    let reopened = reopened_count(two(&mut entries, &mut lines)?, Kind::Standing);
    let filed = filed_count(two(&mut entries, &mut lines)?.begin(Head::default())?);
    let struck = struck_count(two(&mut entries, &mut lines)?.begin(Head::default())?);
    let Err(long) = Finished::over(&mut entries, &mut lines, 1025, Kind::Standing, 0) else {
        return Err(Fail::new("1,025 entries were taken over"));
    };
    assert_eq!(rt; (blank, none, some, full), (0, 0, 2, 3));
    assert_eq!(rt; (finished, reopened, filed, struck), (2, 2, 3, 2));
    assert_eq!(rt; slot_count(long), 3);
    Ok(())
}
