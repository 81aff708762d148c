// The rule of each letter of a closing sheet: one entry that keeps it, over children that clash, and the ways in which it is broken.
use crate::support::{Desk, answer, asks, broken, slot};
use book::Book;
use judge::verdict::Verdict;
use question::Question;
use std::alloc::Global;
use std::rt::HostRuntime;
use std::test::Fail;
use terms::concept::Concept;
use terms::entry::{Head, Kind, Letter};
use terms::line::Line;
use terms::question::{Comparison, QuestionLine};
use terms::refusal::Refused;

// A book with a concept of each form, and a question of these lines.
// 0 and 1: two headings; 2: not 0; 3: 0 less 2; 4: the lesser of 0 and 1; 5: the degree 2; 6: some role that is 5.
fn forms(heap: Global, asked: &[QuestionLine]) -> Result<Desk, Refused> {
    let mut book = Book::new(heap, 10)?;
    let _ = book.enter_heading("tithe")?;
    let _ = book.enter_heading("church")?;
    let _ = book.enter_role("cites")?;
    let concepts = [
        Concept::Heading(0),
        Concept::Heading(1),
        Concept::Not(0),
        Concept::Less(0, 2),
        Concept::Lesser(0, 1),
        Concept::Constant(2),
        Concept::Exists(0, 5),
    ];
    for concept in concepts {
        let _ = book.enter_concept(concept)?;
    }
    let mut question = Question::new();
    for line in asked {
        let _ = question.enter(&book, *line)?;
    }
    Ok(Desk { book, question })
}

fn by(letter: Letter, place: usize) -> Head {
    Head {
        letter,
        place,
        ..Head::default()
    }
}

// The answer on a sheet of one entry that clashes by its two lines, and of the root above it with these two lines.
fn over_one(
    desk: &Desk,
    head: Head,
    child: [Line; 2],
    root: [Line; 2],
) -> Result<Result<Verdict, Refused>, Fail> {
    let mut entries = [slot(Head::default(), 0, 2), slot(head, 2, 2)];
    let mut lines = [child[0], child[1], root[0], root[1]];
    answer(desk, &mut entries, &mut lines, Kind::Closing, 1)
}

// Heads that no letter with one child takes: a child that is not lower, a second child, an inclusion, a step, a place past the label.
fn spoiled(good: Head) -> [Head; 5] {
    [
        Head { first: 1, ..good },
        Head { second: 1, ..good },
        Head {
            inclusion: 1,
            ..good
        },
        Head { step: 1, ..good },
        Head { place: 2, ..good },
    ]
}

#[test]
fn not_turns_a_line_round(rt: HostRuntime) -> Result<(), Fail> {
    let asked = [asks(0, Comparison::Above, 5), asks(2, Comparison::Above, 7)];
    let desk = forms(rt.alloc(), &asked)?;
    let root = [Line::at_least(0, 11), Line::at_least(2, 15)];
    let child = [Line::at_least(0, 11), Line::at_most(0, 5)];
    let good = by(Letter::N, 1);
    assert_eq!(rt; over_one(&desk, good, child, root)?, Ok(Verdict::Closed(1)));
    for head in spoiled(good) {
        assert_eq!(rt; over_one(&desk, head, child, root)?, broken(1));
    }
    // A line on another form, and a line that follows from nothing.
    assert_eq!(rt; over_one(&desk, by(Letter::N, 0), child, root)?, broken(1));
    assert_eq!(rt; over_one(&desk, by(Letter::S, 1), child, root)?, broken(1));
    let stronger = [Line::at_least(0, 11), Line::at_most(0, 4)];
    assert_eq!(rt; over_one(&desk, good, stronger, root)?, broken(1));
    Ok(())
}

#[test]
fn less_raises_a_line(rt: HostRuntime) -> Result<(), Fail> {
    let asked = [
        asks(0, Comparison::NotAbove, 6),
        asks(3, Comparison::Above, 4),
    ];
    let desk = forms(rt.alloc(), &asked)?;
    let root = [Line::at_most(0, 12), Line::at_least(3, 9)];
    let child = [Line::at_least(0, 13), Line::at_most(0, 12)];
    let good = by(Letter::S, 1);
    assert_eq!(rt; over_one(&desk, good, child, root)?, Ok(Verdict::Closed(1)));
    for head in spoiled(good) {
        assert_eq!(rt; over_one(&desk, head, child, root)?, broken(1));
    }
    assert_eq!(rt; over_one(&desk, by(Letter::N, 1), child, root)?, broken(1));
    // What is carried, and not said, is no conclusion.
    let weaker = [Line::at_least(0, 12), Line::at_most(0, 11)];
    assert_eq!(rt; over_one(&desk, good, weaker, root)?, broken(1));
    Ok(())
}

#[test]
fn the_lesser_is_at_least_by_both(rt: HostRuntime) -> Result<(), Fail> {
    let asked = [
        asks(1, Comparison::NotAbove, 3),
        asks(4, Comparison::Above, 3),
    ];
    let desk = forms(rt.alloc(), &asked)?;
    let root = [Line::at_most(1, 6), Line::at_least(4, 7)];
    let child = [Line::at_least(1, 7), Line::at_most(1, 6)];
    let good = by(Letter::M, 1);
    assert_eq!(rt; over_one(&desk, good, child, root)?, Ok(Verdict::Closed(1)));
    for head in spoiled(good) {
        assert_eq!(rt; over_one(&desk, head, child, root)?, broken(1));
    }
    assert_eq!(rt; over_one(&desk, by(Letter::E, 1), child, root)?, broken(1));
    Ok(())
}

#[test]
fn the_lesser_is_at_most_by_one_or_the_other(rt: HostRuntime) -> Result<(), Fail> {
    let asked = [
        asks(0, Comparison::Above, 3),
        asks(1, Comparison::Above, 3),
        asks(4, Comparison::NotAbove, 3),
    ];
    let desk = forms(rt.alloc(), &asked)?;
    let good = Head {
        second: 1,
        ..by(Letter::M, 2)
    };
    let mut lines = [
        Line::at_least(0, 7),
        Line::at_most(0, 6),
        Line::at_least(1, 7),
        Line::at_most(1, 6),
        Line::at_least(0, 7),
        Line::at_least(1, 7),
        Line::at_most(4, 6),
    ];
    let heads = [
        (good, Ok(Verdict::Closed(2))),
        (Head { first: 1, ..good }, broken(2)),
        (Head { second: 0, ..good }, broken(2)),
        (Head { second: 2, ..good }, broken(2)),
        (Head { step: 1, ..good }, broken(2)),
        (Head { place: 0, ..good }, broken(2)),
    ];
    for (head, expected) in heads {
        let mut entries = [
            slot(Head::default(), 0, 2),
            slot(Head::default(), 2, 2),
            slot(head, 4, 3),
        ];
        assert_eq!(rt;
            answer(&desk, &mut entries, &mut lines, Kind::Closing, 2)?,
            expected
        );
    }
    Ok(())
}

#[test]
fn some_passes_its_part_on(rt: HostRuntime) -> Result<(), Fail> {
    let asked = [asks(6, Comparison::Above, 3)];
    let desk = forms(rt.alloc(), &asked)?;
    let good = by(Letter::E, 0);
    let sheets = [
        (good, Line::at_least(5, 7), Ok(Verdict::Closed(1))),
        (good, Line::at_least(5, 8), broken(1)),
        (good, Line::at_most(5, 3), broken(1)),
        (Head { first: 1, ..good }, Line::at_least(5, 7), broken(1)),
        (Head { second: 1, ..good }, Line::at_least(5, 7), broken(1)),
        (Head { place: 1, ..good }, Line::at_least(5, 7), broken(1)),
        (by(Letter::N, 0), Line::at_least(5, 7), broken(1)),
    ];
    for (head, passed, expected) in sheets {
        let mut entries = [slot(Head::default(), 0, 1), slot(head, 1, 1)];
        let mut lines = [passed, Line::at_least(6, 7)];
        assert_eq!(rt;
            answer(&desk, &mut entries, &mut lines, Kind::Closing, 1)?,
            expected
        );
    }
    Ok(())
}

// Z: a clash by the range, by a constant, by two lines; and an entry that does not clash, or names something.
#[test]
fn a_clash_needs_no_child(rt: HostRuntime) -> Result<(), Fail> {
    let asked = [
        asks(5, Comparison::Above, 2),
        asks(0, Comparison::NotBelow, 10),
    ];
    let desk = forms(rt.alloc(), &asked)?;
    let sheets = [
        (
            Head::default(),
            Line::at_least(5, 5),
            Ok(Verdict::Closed(0)),
        ),
        (Head::default(), Line::at_least(0, 20), broken(0)),
        (by(Letter::Z, 1), Line::at_least(5, 5), broken(0)),
        (by(Letter::L, 0), Line::at_least(5, 5), broken(0)),
    ];
    for (head, line, expected) in sheets {
        let mut entries = [slot(head, 0, 1)];
        let mut lines = [line];
        assert_eq!(rt;
            answer(&desk, &mut entries, &mut lines, Kind::Closing, 0)?,
            expected
        );
    }
    Ok(())
}
