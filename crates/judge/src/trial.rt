// Judging a sheet with one more line of the question on trial.
ghost use Rattle.std.specs.Prelude.{◌≡◌};
ghost use Rattle.book.specs.Models.{model};
ghost use Rattle.question.specs.Asked.{asked};
ghost use Rattle.judge.specs.Trials.{JudgedExactly, JudgedOnTrial};

use crate::judging::judge_lent;
use crate::verdict::Verdict;
use book::Book;
use question::Question;
use question::trial::{Judgement, with_trial};
use sheet::Finished;
use terms::question::QuestionLine;
use terms::refusal::Refused;

// A sheet that is lent, as a judgement.
#[derive(Clone, Copy)]
pub struct Lent<'s, 'a> {
    pub sheet: &'s Finished<'a>,
}

impl<'s, 'a> Judgement for Lent<'s, 'a> {
    type Answer = Verdict;

    ghost judged = { λ s b qs r. JudgedExactly b s.sheet.now qs r };

    fn judge(&self, book: &Book, question: &Question) -> Result<Verdict, Refused> {
        judge_lent(book, question, self.sheet)
    }
}

// The verdict on a sheet that is lent, with the line in the question. The question is as it was.
pub fn judge_lent_on_trial(
    book: &Book,
    question: &mut Question,
    line: QuestionLine,
    sheet: &Finished<'_>,
) -> Result<Verdict, Refused>
    ensures same { question.new ≡ question.old }
    ensures value { JudgedOnTrial (model book.now) (asked question.old) line sheet.now result }
{
    with_trial(book, question, line, &Lent { sheet })
}

// The same on a sheet that is handed over, as the calls on sheets take it, and comes back as it was: as `judge` is to `judge_lent`.
pub fn judge_on_trial<'a>(
    book: &Book,
    question: &mut Question,
    line: QuestionLine,
    sheet: Finished<'a>,
) -> (Finished<'a>, Result<Verdict, Refused>)
    ensures same { question.new ≡ question.old }
    ensures back { result.0 ≡ sheet.entry }
    ensures value { JudgedOnTrial (model book.now) (asked question.old) line sheet.entry result.1 }
{
    let answer = judge_lent_on_trial(book, question, line, &sheet);
    (sheet, answer)
}
