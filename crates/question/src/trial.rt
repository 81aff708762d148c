// Judging a question with one more line on trial.
ghost use Rattle.std.specs.Prelude.{◌≡◌, ◌-◌, ◌<◌, List, length, take, Result};
ghost use Rattle.terms.specs.declared.question.QuestionLine.{QuestionLine};
ghost use Rattle.terms.specs.declared.refusal.Refused.{Refused};
ghost use Rattle.book.specs.States.{BookModel};
ghost use Rattle.book.specs.Models.{model};
ghost use Rattle.question.specs.Asked.{asked, beside};
ghost use Rattle.question.specs.Retests.{Retested};
ghost use Rattle.question.specs.Trials.{Tried};

use crate::Question;
use book::Book;
use terms::question::QuestionLine;
use terms::refusal::Refused;

// A judgement of book and question. What its answer means is its own to say.
pub trait Judgement {
    type Answer;

    ghost judged: { Self → BookModel → List QuestionLine → Result Self.Answer Refused → Type 0 };

    fn judge(&self, book: &Book, question: &Question) -> Result<Self::Answer, Refused>
        ensures { judged self.now (model book.now) (asked question.now) result };
}

// A question while a line on trial is its last. At its end it takes that line off again.
struct Trial<'q> {
    question: &'q mut Question,
}

impl Drop for Trial<'_> {
    fn drop(self)
        requires { 0 < length (asked self.question.now) }
        ensures { asked self.exit.0.now ≡ take (length (asked self.entry.question.now) - 1) (asked self.entry.question.now) }
    {
        let Trial { question } = self;
        question.lines.pop();
    }
}

// The judgement of the question with one more line, which is gone again on every way out. A line that is there counts as laid.
pub fn with_trial<J: Judgement>(
    book: &Book,
    question: &mut Question,
    line: QuestionLine,
    judgement: &J,
) -> Result<J::Answer, Refused>
    ensures same { question.new ≡ question.old }
    ensures value { Tried (J.Judgement.judged judgement.now (model book.now)) (beside (model book.now) (asked question.old)) line result }
{
    if question.has(line) {
        return judgement.judge(book, question);
    }
    question.may_enter(book, line)?;
    question.lines.push(line);
    let trial = Trial { question };
    let answer = judgement.judge(book, trial.question)?;
    Ok(answer)
}

// The retest as a judgement.
#[derive(Clone, Copy)]
pub struct Retest;

impl Judgement for Retest {
    type Answer = ();

    ghost judged = { λ _ b qs r. Retested b qs r };

    fn judge(&self, book: &Book, question: &Question) -> Result<(), Refused> {
        question.retest(book)
    }
}
