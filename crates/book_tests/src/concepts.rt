// Entering concepts.
use crate::support::{ALREADY, Case, EMPTY, Held, MISSING, TOO_HIGH, check_cases};
use runs::Call;
use std::test::Fail;
use terms::concept::Concept;

// Each number refused is the lowest that does not stand, and each that is accepted the highest that does.
static CITING: [Case; 26] = [
    (Call::EnterHeading("tithe"), Ok(0)),
    (Call::EnterRole("cites"), Ok(0)),
    (Call::EnterConcept(Concept::Not(0)), Err(MISSING)),
    (Call::EnterConcept(Concept::Heading(1)), Err(MISSING)),
    (Call::EnterConcept(Concept::Heading(0)), Ok(0)),
    (Call::EnterConcept(Concept::Constant(11)), Err(TOO_HIGH)),
    (Call::EnterConcept(Concept::Constant(10)), Ok(1)),
    (Call::EnterConcept(Concept::Not(2)), Err(MISSING)),
    (Call::EnterConcept(Concept::Not(1)), Ok(2)),
    // Missing comes before too high.
    (Call::EnterConcept(Concept::Less(3, 11)), Err(MISSING)),
    (Call::EnterConcept(Concept::Less(2, 11)), Err(TOO_HIGH)),
    (Call::EnterConcept(Concept::Less(2, 10)), Ok(3)),
    (Call::EnterConcept(Concept::Lesser(4, 3)), Err(MISSING)),
    (Call::EnterConcept(Concept::Lesser(3, 4)), Err(MISSING)),
    (Call::EnterConcept(Concept::Lesser(3, 2)), Ok(4)),
    (Call::EnterConcept(Concept::Lesser(2, 3)), Ok(5)),
    (Call::EnterConcept(Concept::Exists(1, 5)), Err(MISSING)),
    (Call::EnterConcept(Concept::Exists(0, 6)), Err(MISSING)),
    (Call::EnterConcept(Concept::Exists(0, 5)), Ok(6)),
    (Call::EnterConcept(Concept::Heading(0)), Err(ALREADY)),
    (Call::EnterConcept(Concept::Constant(10)), Err(ALREADY)),
    (Call::EnterConcept(Concept::Not(1)), Err(ALREADY)),
    (Call::EnterConcept(Concept::Less(2, 10)), Err(ALREADY)),
    (Call::EnterConcept(Concept::Lesser(3, 2)), Err(ALREADY)),
    (Call::EnterConcept(Concept::Exists(0, 5)), Err(ALREADY)),
    (Call::EnterConcept(Concept::Not(7)), Err(MISSING)),
];

static CITED: Held = Held {
    headings: &["tithe"],
    roles: &["cites"],
    concepts: &[
        Concept::Heading(0),
        Concept::Constant(10),
        Concept::Not(1),
        Concept::Less(2, 10),
        Concept::Lesser(3, 2),
        Concept::Lesser(2, 3),
        Concept::Exists(0, 5),
    ],
    ..EMPTY
};

#[test]
fn concepts_cite_what_stands_and_differ(rt: HostRuntime) -> Result<(), Fail> {
    check_cases(&rt, rt.alloc(), 10, &CITING, &CITED)
}
