// What the tour does, a chapter at a time.
use runs::Call;
use terms::concept::Concept;
use terms::question::{Comparison, QuestionLine};

// What a call is in words, and the call.
pub type Action = (&'static str, Call<'static>);

pub fn names() -> [Action; 3] {
    [
        ("heading tithe", Call::EnterHeading("tithe")),
        ("heading church", Call::EnterHeading("church")),
        ("role cites", Call::EnterRole("cites")),
    ]
}

pub fn concepts() -> [Action; 7] {
    [
        ("concept: tithe", Call::EnterConcept(Concept::Heading(0))),
        ("concept: church", Call::EnterConcept(Concept::Heading(1))),
        ("concept: half", Call::EnterConcept(Concept::Constant(5))),
        ("concept: not church", Call::EnterConcept(Concept::Not(1))),
        (
            "concept: tithe less 2 tenths",
            Call::EnterConcept(Concept::Less(0, 2)),
        ),
        (
            "concept: the lesser of tithe and church",
            Call::EnterConcept(Concept::Lesser(0, 1)),
        ),
        (
            "concept: cites some church",
            Call::EnterConcept(Concept::Exists(0, 1)),
        ),
    ]
}

pub fn rules() -> [Action; 6] {
    let above = QuestionLine {
        concept: 0,
        comparison: Comparison::Above,
        degree: 3,
    };
    let within = QuestionLine {
        concept: 1,
        comparison: Comparison::NotAbove,
        degree: 3,
    };
    [
        (
            "rule: tithe in church",
            Call::EnterInclusion { lower: 0, upper: 1 },
        ),
        (
            "rule: tithe less 2 tenths in cites some church",
            Call::EnterInclusion { lower: 4, upper: 6 },
        ),
        ("question: tithe above 3 tenths", Call::EnterLine(above)),
        (
            "question: church not above 3 tenths",
            Call::EnterLine(within),
        ),
        (
            "trial line: tithe above 3 tenths, which is there",
            Call::TryLine(above),
        ),
        ("strike rule 1", Call::StrikeInclusion(1)),
    ]
}

pub fn refused() -> [Action; 2] {
    [
        ("heading tithe once more", Call::EnterHeading("tithe")),
        (
            "concept: not concept 40",
            Call::EnterConcept(Concept::Not(40)),
        ),
    ]
}

pub fn another_question() -> [Action; 2] {
    [
        ("clear the question", Call::ClearQuestion),
        (
            "question: tithe above 3 tenths",
            Call::EnterLine(QuestionLine {
                concept: 0,
                comparison: Comparison::Above,
                degree: 3,
            }),
        ),
    ]
}
