// Testing a question again, after the book has begun anew.
use crate::support::{Desk, line, new_desk};
use std::process::Abort;
use std::test::Fail;
use terms::concept::Concept;
use terms::refusal::{Refusal, Refused};

// The concept and the degree of each line asked.
static ASKED: [(usize, u32); 4] = [(0, 5), (1, 10), (2, 3), (1, 6)];

// A fineness, how many concepts there are, and what the retest replies.
static RETESTS: [(u32, u32, Result<(), Refused>); 8] = [
    (10, 3, Ok(())),
    (
        10,
        0,
        Err(Refused {
            refusal: Refusal::Missing,
            place: 0,
        }),
    ),
    // Line 1 is too high as well, here and in the next.
    (
        9,
        1,
        Err(Refused {
            refusal: Refusal::Missing,
            place: 1,
        }),
    ),
    (
        9,
        2,
        Err(Refused {
            refusal: Refusal::Missing,
            place: 2,
        }),
    ),
    (
        9,
        3,
        Err(Refused {
            refusal: Refusal::TooHigh,
            place: 1,
        }),
    ),
    (
        5,
        3,
        Err(Refused {
            refusal: Refusal::TooHigh,
            place: 1,
        }),
    ),
    (
        4,
        3,
        Err(Refused {
            refusal: Refusal::TooHigh,
            place: 0,
        }),
    ),
    (1000, 3, Ok(())),
];

// Begins the book anew with as many concepts.
fn begin_with(desk: &mut Desk, fineness: u32, concepts: u32) -> Result<(), Fail> {
    desk.book.begin(fineness)?;
    for k in 0..concepts {
        desk.book.enter_concept(Concept::Constant(k))?;
    }
    Ok(())
}

fn check_retests(rt: &impl Abort, desk: &mut Desk) -> Result<(), Fail> {
    // Without lines there is none to fail.
    assert_eq!(rt; desk.question.retest(&desk.book), Ok(()));
    begin_with(desk, 10, 3)?;
    for (concept, degree) in &ASKED {
        desk.question.enter(&desk.book, line(*concept, *degree))?;
    }
    for (fineness, concepts, reply) in &RETESTS {
        begin_with(desk, *fineness, *concepts)?;
        assert_eq!(rt; desk.question.retest(&desk.book), *reply);
    }
    Ok(())
}

#[test]
fn retest_names_the_first_line(rt: HostRuntime) -> Result<(), Fail> {
    check_retests(&rt, &mut new_desk(rt.alloc(), 10)?)
}
