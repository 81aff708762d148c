// Entering lines in a question, and clearing it.
use crate::support::{ALREADY, Case, EMPTY, Held, MISSING, TOO_HIGH, check_cases};
use runs::Call;
use std::test::Fail;
use terms::concept::Concept;
use terms::question::{Comparison, QuestionLine};

const TOP: QuestionLine = QuestionLine {
    concept: 0,
    comparison: Comparison::NotBelow,
    degree: 10,
};

const HIGH: QuestionLine = QuestionLine {
    concept: 0,
    comparison: Comparison::NotBelow,
    degree: 11,
};

const HIGH_ASTRAY: QuestionLine = QuestionLine {
    concept: 1,
    comparison: Comparison::NotBelow,
    degree: 11,
};

const ABOVE: QuestionLine = QuestionLine {
    concept: 0,
    comparison: Comparison::Above,
    degree: 10,
};

const NOT_ABOVE: QuestionLine = QuestionLine {
    concept: 0,
    comparison: Comparison::NotAbove,
    degree: 10,
};

const UNDER: QuestionLine = QuestionLine {
    concept: 0,
    comparison: Comparison::Under,
    degree: 10,
};

static ASKING: [Case; 13] = [
    (Call::EnterLine(TOP), Err(MISSING)),
    (Call::EnterConcept(Concept::Constant(0)), Ok(0)),
    (Call::EnterLine(ABOVE), Ok(0)),
    (Call::EnterLine(TOP), Ok(1)),
    (Call::ClearQuestion, Ok(0)),
    // Missing comes before too high.
    (Call::EnterLine(HIGH_ASTRAY), Err(MISSING)),
    (Call::EnterLine(HIGH), Err(TOO_HIGH)),
    (Call::EnterLine(TOP), Ok(0)),
    (Call::EnterLine(TOP), Err(ALREADY)),
    (Call::EnterLine(ABOVE), Ok(1)),
    (Call::EnterLine(NOT_ABOVE), Ok(2)),
    (Call::EnterLine(UNDER), Ok(3)),
    (Call::EnterLine(ABOVE), Err(ALREADY)),
];

static ASKED: Held = Held {
    concepts: &[Concept::Constant(0)],
    lines: &[TOP, ABOVE, NOT_ABOVE, UNDER],
    ..EMPTY
};

#[test]
fn lines_speak_of_what_stands_and_differ(rt: HostRuntime) -> Result<(), Fail> {
    check_cases(&rt, rt.alloc(), 10, &ASKING, &ASKED)
}
