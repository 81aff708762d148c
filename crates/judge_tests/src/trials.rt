// Judging with a line on trial.
use crate::support::{asks, refused, slot, tithe};
use judge::trial::judge_on_trial;
use judge::verdict::Verdict;
use sheet::Finished;
use std::rt::HostRuntime;
use std::test::Fail;
use terms::entry::{Head, Kind};
use terms::line::Line;
use terms::question::Comparison;
use terms::refusal::Refusal;

// A clash of two lines, of which the question asks one: the other is laid, or is refused, and is gone again.
#[test]
fn a_line_on_trial_is_gone_again(rt: HostRuntime) -> Result<(), Fail> {
    let mut desk = tithe(rt.alloc())?;
    let before = [
        asks(0, Comparison::Above, 3),
        asks(1, Comparison::NotAbove, 3),
    ];
    let trials = [
        (asks(0, Comparison::NotAbove, 3), Ok(Verdict::Closed(0))),
        (asks(0, Comparison::Above, 3), refused(Refusal::BadRoot)),
        (asks(0, Comparison::NotAbove, 11), refused(Refusal::TooHigh)),
        (asks(2, Comparison::NotAbove, 3), refused(Refusal::Missing)),
    ];
    for (line, expected) in trials {
        let mut entries = [slot(Head::default(), 0, 2)];
        let mut lines = [Line::at_least(0, 7), Line::at_most(0, 6)];
        let sheet = Finished::over(&mut entries, &mut lines, 1, Kind::Closing, 0)?;
        let (_, answer) = judge_on_trial(&desk.book, &mut desk.question, line, sheet);
        assert_eq!(rt; answer, expected);
        assert_eq!(rt; desk.question.lines(), before.as_slice());
    }
    Ok(())
}
