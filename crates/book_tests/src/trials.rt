// Judging a question with one more line on trial.
use crate::support::{Desk, FULL, MISSING, TOO_HIGH, line, new_desk};
use book::Book;
use question::Question;
use question::trial::{Judgement, Retest, with_trial};
use std::alloc::Global;
use std::process::Abort;
use std::test::Fail;
use terms::concept::Concept;
use terms::question::QuestionLine;
use terms::refusal::{Refusal, Refused};

// How many lines a judgement is shown.
struct Count;

impl Judgement for Count {
    type Answer = usize;

    ghost judged = { λ _ _ _ _. Unit {0} };

    fn judge(&self, _book: &Book, question: &Question) -> Result<usize, Refused> {
        Ok(question.len())
    }
}

// A desk of fineness 40 with one concept, and lines about it of the degrees from 0.
fn asking(heap: Global, lines: u32) -> Result<Desk, Fail> {
    let mut desk = new_desk(heap, 40)?;
    desk.book.enter_concept(Concept::Constant(0))?;
    for degree in 0..lines {
        desk.question.enter(&desk.book, line(0, degree))?;
    }
    Ok(desk)
}

// Tries a line under both judgements, and sees that the question is as before each time.
fn check_trial(
    rt: &impl Abort,
    heap: Global,
    desk: &mut Desk,
    trial: QuestionLine,
    shown: Result<usize, Refused>,
    retested: Result<(), Refused>,
) -> Result<(), Fail> {
    let before = desk.question.lines().to_vec(heap)?;
    assert_eq!(rt;
        with_trial(&desk.book, &mut desk.question, trial, &Count),
        shown
    );
    assert_eq!(rt; desk.question.lines(), before.as_slice());
    assert_eq!(rt;
        with_trial(&desk.book, &mut desk.question, trial, &Retest),
        retested
    );
    assert_eq!(rt; desk.question.lines(), before.as_slice());
    Ok(())
}

// How many lines there are, the concept and the degree on trial, and what the judgements reply.
static TRIALS: [(u32, usize, u32, Result<usize, Refused>, Result<(), Refused>); 9] = [
    (0, 0, 40, Ok(1), Ok(())),
    (31, 0, 40, Ok(32), Ok(())),
    (31, 0, 30, Ok(31), Ok(())),
    // Missing comes before too high.
    (31, 1, 41, Err(MISSING), Err(MISSING)),
    (31, 0, 41, Err(TOO_HIGH), Err(TOO_HIGH)),
    // A full question takes only a line that is there.
    (32, 0, 31, Ok(32), Ok(())),
    (32, 0, 32, Err(FULL), Err(FULL)),
    (32, 1, 0, Err(FULL), Err(FULL)),
    (32, 0, 41, Err(FULL), Err(FULL)),
];

#[test]
fn trial_lays_a_line_unless_it_is_there(rt: HostRuntime) -> Result<(), Fail> {
    for (lines, concept, degree, shown, retested) in &TRIALS {
        let mut desk = asking(rt.alloc(), *lines)?;
        check_trial(
            &rt,
            rt.alloc(),
            &mut desk,
            line(*concept, *degree),
            *shown,
            *retested,
        )?;
    }
    Ok(())
}

// A line that is there counts as laid though it no longer stands, and the retest then names its place.
fn check_stale(rt: &impl Abort, heap: Global, desk: &mut Desk) -> Result<(), Fail> {
    desk.book.begin(1)?;
    check_trial(rt, heap, desk, line(0, 0), Ok(3), Err(MISSING))?;
    desk.book.enter_concept(Concept::Constant(0))?;
    check_trial(
        rt,
        heap,
        desk,
        line(0, 2),
        Ok(3),
        Err(Refused {
            refusal: Refusal::TooHigh,
            place: 2,
        }),
    )
}

#[test]
fn trial_of_a_line_that_no_longer_stands(rt: HostRuntime) -> Result<(), Fail> {
    check_stale(&rt, rt.alloc(), &mut asking(rt.alloc(), 3)?)
}
