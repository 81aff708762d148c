// Making a book, and beginning one anew.
use crate::support::{Case, EMPTY, FINENESS, Held, check_cases};
use book::Book;
use runs::Call;
use std::alloc::Global;
use std::test::Fail;
use terms::concept::{Concept, Inclusion};
use terms::question::{Comparison, QuestionLine};
use terms::refusal::Refused;

// The fineness of a new book, and how many headings, roles, concepts and inclusions it has.
fn made(heap: Global, fineness: u32) -> Result<(u32, [usize; 4]), Refused> {
    let book = Book::new(heap, fineness)?;
    Ok((
        book.fineness(),
        [
            book.headings().len(),
            book.roles().len(),
            book.concepts().len(),
            book.inclusions().len(),
        ],
    ))
}

#[test]
fn makes_books_of_1_to_1000(rt: HostRuntime) {
    assert_eq!(rt; made(rt.alloc(), 0), Err(FINENESS));
    assert_eq!(rt; made(rt.alloc(), 1), Ok((1, [0; 4])));
    assert_eq!(rt; made(rt.alloc(), 1000), Ok((1000, [0; 4])));
    assert_eq!(rt; made(rt.alloc(), 1001), Err(FINENESS));
}

const ASKED: QuestionLine = QuestionLine {
    concept: 0,
    comparison: Comparison::Above,
    degree: 10,
};

// Begins that are refused leave everything as it is.
static FILLING: [Case; 7] = [
    (Call::EnterHeading("tithe"), Ok(0)),
    (Call::EnterRole("cites"), Ok(0)),
    (Call::EnterConcept(Concept::Heading(0)), Ok(0)),
    (Call::EnterInclusion { lower: 0, upper: 0 }, Ok(0)),
    (Call::EnterLine(ASKED), Ok(0)),
    (Call::Begin(0), Err(FINENESS)),
    (Call::Begin(1001), Err(FINENESS)),
];

static FILLED: Held = Held {
    fineness: 10,
    headings: &["tithe"],
    roles: &["cites"],
    concepts: &[Concept::Heading(0)],
    inclusions: &[Inclusion {
        lower: 0,
        upper: 0,
        struck: false,
    }],
    lines: &[ASKED],
};

// Others empty the book, and not the question.
static BEGINNING: [Case; 6] = [
    (Call::EnterHeading("tithe"), Ok(0)),
    (Call::EnterRole("cites"), Ok(0)),
    (Call::EnterConcept(Concept::Heading(0)), Ok(0)),
    (Call::EnterInclusion { lower: 0, upper: 0 }, Ok(0)),
    (Call::EnterLine(ASKED), Ok(0)),
    (Call::Begin(1), Ok(0)),
];

static BEGUN: Held = Held {
    fineness: 1,
    lines: &[ASKED],
    ..EMPTY
};

static BLANK: Held = Held {
    fineness: 1000,
    ..EMPTY
};

#[test]
fn begins_anew_and_leaves_the_question(rt: HostRuntime) -> Result<(), Fail> {
    check_cases(&rt, rt.alloc(), 10, &FILLING, &FILLED)?;
    check_cases(&rt, rt.alloc(), 10, &BEGINNING, &BEGUN)?;
    check_cases(&rt, rt.alloc(), 1, &[(Call::Begin(1000), Ok(0))], &BLANK)
}
