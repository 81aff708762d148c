// The root of a closing sheet, and the question.
ghost use Rattle.std.specs.Prelude.{◌≡◌, Decides};
ghost use Rattle.logic.specs.Meeting.{AnyAsked};
ghost use Rattle.logic.specs.Lines.{EachLine, half_line};

use logic::claim::Claim;
use terms::line::Line;
use terms::question::QuestionLine;

// Whether a line of the question is l, in half steps.
fn asked(question: &[QuestionLine], l: Line) -> bool
    ensures { Decides result (AnyAsked (λ q. half_line q ≡ l) question.now) }
{
    question.iter().any(|q| Claim::from(*q).is(l))
}

// Whether each line of the root's label is one of the question's.
pub fn root_asks(label: &[Line], question: &[QuestionLine]) -> bool
    ensures { Decides result (EachLine (λ l. AnyAsked (λ q. half_line q ≡ l) question.now) label.now) }
{
    label.iter().all(|l| asked(question, *l))
}
