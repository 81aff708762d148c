// Entering and striking inclusions.
use crate::support::{ALREADY, Case, EMPTY, Held, MISSING, check_cases};
use runs::Call;
use std::test::Fail;
use terms::concept::{Concept, Inclusion};

static JOINING: [Case; 7] = [
    (Call::EnterInclusion { lower: 0, upper: 0 }, Err(MISSING)),
    (Call::EnterConcept(Concept::Constant(0)), Ok(0)),
    (Call::EnterConcept(Concept::Constant(1)), Ok(1)),
    (Call::EnterInclusion { lower: 2, upper: 1 }, Err(MISSING)),
    (Call::EnterInclusion { lower: 1, upper: 2 }, Err(MISSING)),
    // An equal one may be entered again.
    (Call::EnterInclusion { lower: 1, upper: 0 }, Ok(0)),
    (Call::EnterInclusion { lower: 1, upper: 0 }, Ok(1)),
];

static JOINED: Held = Held {
    concepts: &[Concept::Constant(0), Concept::Constant(1)],
    inclusions: &[
        Inclusion {
            lower: 1,
            upper: 0,
            struck: false,
        },
        Inclusion {
            lower: 1,
            upper: 0,
            struck: false,
        },
    ],
    ..EMPTY
};

#[test]
fn inclusions_join_what_stands(rt: HostRuntime) -> Result<(), Fail> {
    check_cases(&rt, rt.alloc(), 10, &JOINING, &JOINED)
}

static STRIKING: [Case; 9] = [
    (Call::StrikeInclusion(0), Err(MISSING)),
    (Call::EnterConcept(Concept::Constant(0)), Ok(0)),
    (Call::EnterInclusion { lower: 0, upper: 0 }, Ok(0)),
    (Call::EnterInclusion { lower: 0, upper: 0 }, Ok(1)),
    (Call::StrikeInclusion(2), Err(MISSING)),
    (Call::StrikeInclusion(1), Ok(0)),
    (Call::StrikeInclusion(1), Err(ALREADY)),
    // One that equals a struck one stands.
    (Call::EnterInclusion { lower: 0, upper: 0 }, Ok(2)),
    (Call::StrikeInclusion(3), Err(MISSING)),
];

static STRUCK: Held = Held {
    concepts: &[Concept::Constant(0)],
    inclusions: &[
        Inclusion {
            lower: 0,
            upper: 0,
            struck: false,
        },
        Inclusion {
            lower: 0,
            upper: 0,
            struck: true,
        },
        Inclusion {
            lower: 0,
            upper: 0,
            struck: false,
        },
    ],
    ..EMPTY
};

#[test]
fn strikes_one_inclusion_once(rt: HostRuntime) -> Result<(), Fail> {
    check_cases(&rt, rt.alloc(), 10, &STRIKING, &STRUCK)
}
