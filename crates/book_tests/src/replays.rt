// Making calls from a list.
use crate::support::{
    ALREADY, Case, Desk, FINENESS, Held, MISSING, TOO_HIGH, check_cases, check_held, new_desk,
};
use runs::{Call, replay};
use std::alloc::Global;
use std::process::Abort;
use std::test::Fail;
use terms::concept::{Concept, Inclusion};
use terms::question::{Comparison, QuestionLine};
use terms::refusal::Refused;

const ASKED: QuestionLine = QuestionLine {
    concept: 1,
    comparison: Comparison::NotBelow,
    degree: 4,
};

const HIGH: QuestionLine = QuestionLine {
    concept: 1,
    comparison: Comparison::NotBelow,
    degree: 5,
};

const ASTRAY: QuestionLine = QuestionLine {
    concept: 2,
    comparison: Comparison::NotBelow,
    degree: 4,
};

static CALLS: [Call<'static>; 17] = [
    Call::Begin(4),
    Call::EnterHeading("tithe"),
    Call::EnterHeading("tithe"),
    Call::EnterRole("cites"),
    Call::EnterConcept(Concept::Heading(0)),
    Call::EnterConcept(Concept::Exists(0, 1)),
    Call::EnterConcept(Concept::Exists(0, 0)),
    Call::EnterInclusion { lower: 0, upper: 1 },
    Call::StrikeInclusion(0),
    Call::StrikeInclusion(0),
    Call::EnterLine(HIGH),
    Call::EnterLine(ASKED),
    Call::ClearQuestion,
    Call::EnterLine(ASKED),
    Call::TryLine(ASTRAY),
    Call::TryLine(ASKED),
    Call::Begin(0),
];

static REPLIES: [Result<usize, Refused>; 17] = [
    Ok(0),
    Ok(0),
    Err(ALREADY),
    Ok(0),
    Ok(0),
    Err(MISSING),
    Ok(1),
    Ok(0),
    Ok(0),
    Err(ALREADY),
    Err(TOO_HIGH),
    Ok(0),
    Ok(0),
    Ok(0),
    Err(MISSING),
    Ok(0),
    Err(FINENESS),
];

static HELD: Held = Held {
    fineness: 4,
    headings: &["tithe"],
    roles: &["cites"],
    concepts: &[Concept::Heading(0), Concept::Exists(0, 0)],
    inclusions: &[Inclusion {
        lower: 0,
        upper: 1,
        struck: true,
    }],
    lines: &[ASKED],
};

fn check_replay(rt: &impl Abort, heap: Global, desk: &mut Desk) -> Result<(), Fail> {
    let replies = replay(heap, &mut desk.book, &mut desk.question, &CALLS)?;
    assert_eq!(rt; replies.as_slice(), REPLIES.as_slice());
    check_held(rt, desk, &HELD);
    Ok(())
}

// The calls of the list that leave their mark, to be made one by one.
static SINGLE: [Case; 8] = [
    (Call::Begin(4), Ok(0)),
    (Call::EnterHeading("tithe"), Ok(0)),
    (Call::EnterRole("cites"), Ok(0)),
    (Call::EnterConcept(Concept::Heading(0)), Ok(0)),
    (Call::EnterConcept(Concept::Exists(0, 0)), Ok(1)),
    (Call::EnterInclusion { lower: 0, upper: 1 }, Ok(0)),
    (Call::StrikeInclusion(0), Ok(0)),
    (Call::EnterLine(ASKED), Ok(0)),
];

#[test]
fn replay_is_the_single_calls_in_order(rt: HostRuntime) -> Result<(), Fail> {
    check_cases(&rt, rt.alloc(), 10, &SINGLE, &HELD)?;
    check_replay(&rt, rt.alloc(), &mut new_desk(rt.alloc(), 10)?)
}
