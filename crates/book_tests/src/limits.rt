// As many of each as there may be, and one more. Full comes before every other ground.
use crate::support::{Case, Desk, FULL, line, new_desk, play};
use book::Book;
use runs::Call;
use std::alloc::Global;
use std::process::Abort;
use std::test::Fail;
use terms::concept::Concept;
use terms::question::{Comparison, QuestionLine};

fn fill_names(rt: &impl Abort, heap: Global, book: &mut Book) -> Result<(), Fail> {
    for i in 0..64 {
        let name = format!(in heap; "h{i}")?;
        assert_eq!(rt; book.enter_heading(name.as_str()), Ok(i));
        if i < 16 {
            assert_eq!(rt; book.enter_role(name.as_str()), Ok(i));
        }
    }
    Ok(())
}

fn fill(rt: &impl Abort, desk: &mut Desk) {
    for k in 0..128 {
        assert_eq!(rt;
            desk.book.enter_concept(Concept::Constant(k)),
            Ok(k as usize)
        );
    }
    for number in 0..64 {
        assert_eq!(rt; desk.book.enter_inclusion(number, 0), Ok(number));
    }
    for degree in 0..32 {
        assert_eq!(rt;
            desk.question.enter(&desk.book, line(0, degree)),
            Ok(degree as usize)
        );
    }
}

// How many headings, roles, concepts, inclusions and lines there are.
fn counts(desk: &Desk) -> [usize; 5] {
    let book = &desk.book;
    [
        book.headings().len(),
        book.roles().len(),
        book.concepts().len(),
        book.inclusions().len(),
        desk.question.len(),
    ]
}

const NEW_LINE: QuestionLine = QuestionLine {
    concept: 0,
    comparison: Comparison::NotBelow,
    degree: 32,
};

const OLD_LINE: QuestionLine = QuestionLine {
    concept: 0,
    comparison: Comparison::NotBelow,
    degree: 0,
};

const ASTRAY: QuestionLine = QuestionLine {
    concept: 128,
    comparison: Comparison::NotBelow,
    degree: 0,
};

const HIGH: QuestionLine = QuestionLine {
    concept: 0,
    comparison: Comparison::NotBelow,
    degree: 1001,
};

// Of each kind one that is new, and one with each other fault that it may have.
static OVERFULL: [Case; 16] = [
    (Call::EnterHeading("h64"), Err(FULL)),
    (Call::EnterHeading("a b"), Err(FULL)),
    (Call::EnterHeading("h0"), Err(FULL)),
    (Call::EnterRole("h16"), Err(FULL)),
    (Call::EnterRole(""), Err(FULL)),
    (Call::EnterRole("h0"), Err(FULL)),
    (Call::EnterConcept(Concept::Constant(128)), Err(FULL)),
    (Call::EnterConcept(Concept::Not(128)), Err(FULL)),
    (Call::EnterConcept(Concept::Constant(1001)), Err(FULL)),
    (Call::EnterConcept(Concept::Constant(0)), Err(FULL)),
    (Call::EnterInclusion { lower: 0, upper: 0 }, Err(FULL)),
    (
        Call::EnterInclusion {
            lower: 128,
            upper: 0,
        },
        Err(FULL),
    ),
    (Call::EnterLine(NEW_LINE), Err(FULL)),
    (Call::EnterLine(ASTRAY), Err(FULL)),
    (Call::EnterLine(HIGH), Err(FULL)),
    (Call::EnterLine(OLD_LINE), Err(FULL)),
];

#[test]
fn each_list_ends_at_its_most(rt: HostRuntime) -> Result<(), Fail> {
    let mut desk = new_desk(rt.alloc(), 1000)?;
    fill_names(&rt, rt.alloc(), &mut desk.book)?;
    fill(&rt, &mut desk);
    play(&rt, &mut desk, &OVERFULL);
    assert_eq!(rt; counts(&desk), [64, 16, 128, 64, 32]);
    Ok(())
}
